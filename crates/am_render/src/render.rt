//! What is printed of a rehearsal that ran, one dispatcher after another: lines, or a page (`picture`).
//!
//! What a board kept is a playback. The filter leaves some of its events, and `am_timeline` prints their lines. Below those of all
//! dispatchers are the spans of firing that an integration missed (`am_undelivered`), and what became of the expectations (`am_judge`).
ghost use Rattle.std.specs.Prelude.{◌≡◌, ◌&&◌, ◌++◌, IfErr, IfOk, OnOk, Some, None, false, not, if◌then◌else◌};
ghost use Rattle.std.specs.Prelude.{drop, map, option_map, string_bytes};
ghost use Rattle.std.specs.List.{AllByRecursion, list_all};
ghost use Rattle.am_input.specs.Request.{times_from};
ghost use Rattle.am_judge.specs.Expectation.{is_met, unmet_from};
ghost use Rattle.am_judge.specs.Junit.{junit_text};
ghost use Rattle.am_model.specs.Replay.{IsLegal};
ghost use Rattle.am_render.specs.Head.{heads_of};
ghost use Rattle.am_render.specs.Printed.{IsOutputOf, IsPrinted, all_lines, end_text, expectations_section, has_summary, is_page};
ghost use Rattle.am_render.specs.Printed.{HasLegalHistory, has_lines, head_for, later_lines, log_of};
ghost use Rattle.am_render.specs.Printed.{part_text, playback_of, shown_text};
ghost use Rattle.am_timeline.specs.Changed.{changed};
ghost use Rattle.am_timeline.specs.Filtered.{left_of, names_nothing};
ghost use Rattle.am_timeline.specs.Runs.{short_timeline_text};
ghost use Rattle.am_timeline.specs.Table.{table_text};
ghost use Rattle.am_timeline.specs.Timeline.{timeline_text};
ghost use Rattle.am_undelivered.specs.Undelivered.{undelivered_text};

use crate::head::{Change, Head, heads_of, push_head};
use crate::output_options::OutputOptions;
use crate::picture::page_of;
use crate::run::Judgement;
use am_input::input::Output;
use am_json::fault::InputFault;
use am_judge::expectation_report::expectations_text;
use am_judge::judged::{Judged, judge};
use am_judge::junit::junit_text;
use am_simulation::play::Played;
use am_simulation::playing::PlayedPart;
use am_terms::clock::{Elapsed, TimeFormat};
use am_terms::dated::UtcDates;
use am_terms::expectation::Expectation;
use am_terms::rehearsal::Outage;
use am_timeline::changed::changed_events;
use am_timeline::filtered::{Selection, filtered_events};
use am_timeline::json::json_text;
use am_timeline::logbook::Logbook;
use am_timeline::notices::notices_text;
use am_timeline::playback::Playback;
use am_timeline::short_timeline::short_timeline_text;
use am_timeline::table::table_text;
use am_timeline::timeline::timeline_text;
use am_undelivered::report::undelivered_text;
use std::alloc::{AllocError, Global};

/// What is printed of a rehearsal that ran: the output, what the command line wants to see of it, the expectations by which it is
/// judged, and the outages that a page has.
#[derive(Clone, Copy)]
pub(crate) struct Show<'s> {
    pub(crate) output: Output,
    pub(crate) options: &'s OutputOptions,
    pub(crate) expectations: &'s [Expectation],
    pub(crate) outages: &'s [Outage],
}

/// What is printed of a rehearsal.
#[derive(Drop)]
pub(crate) struct Rendered {
    pub(crate) text: String,
    /// Whether every expectation is met.
    pub(crate) is_met: bool,
    pub(crate) judgement: Judgement,
}

/// Lines or a page, and whether there is an event that they are of.
#[derive(Drop)]
pub(crate) struct Printed {
    pub(crate) text: String,
    /// Whether the filter leaves an event.
    pub(crate) found: bool,
}

/// What is printed of a rehearsal whose dispatchers changed so, with dates if its start is given.
pub(crate) fn render_from(
    alloc: Global,
    changes: &[Change],
    played: &[PlayedPart],
    start: &Option<UtcDates>,
    show: &Show<'_>,
) -> Result<Rendered, InputFault>
    ensures output { IfOk result (λ rendered. IsOutputOf changes.now played.now show.now.output show.now.options.now (times_from start.now)
        show.now.expectations.now rendered.is_met (string_bytes rendered.text)) }
    ensures refused { IfErr result (λ fault. fault ≡ InputFault.NoMemory) }
{
    match start {
        None => Ok(render_by(alloc, changes, played, &Elapsed, show)?),
        Some(start) => Ok(render_by(alloc, changes, played, start, show)?),
    }
}

/// The same, with times that this clock shows.
fn render_by<C: TimeFormat>(
    alloc: Global,
    changes: &[Change],
    played: &[PlayedPart],
    clock: &C,
    show: &Show<'_>,
) -> Result<Rendered, AllocError>
    ensures { IfOk result (λ rendered. IsOutputOf changes.now played.now show.now.output show.now.options.now (C.times clock.now)
        show.now.expectations.now rendered.is_met (string_bytes rendered.text)) }
{
    let heads = heads_of(alloc, changes, later(played))?;
    let logs = logbooks_of(alloc, played)?;
    let playbacks = playbacks_of(alloc, logs.as_slice(), played)?;
    let heads = heads.as_slice();
    let playbacks = playbacks.as_slice();
    render_parts(alloc, heads, playbacks, clock, show)
}

/// The parts of all dispatchers but the first.
fn later(played: &[PlayedPart]) -> &[PlayedPart]
    ensures { result.now ≡ drop 1 played.now }
{
    match played.split_first() {
        None => &[],
        Some((_, later)) => later,
    }
}

/// What is printed of playbacks, behind the first with these heads.
#[tactic(auto, using(crate::proofs::Tales::none_unmet))]
fn render_parts<C: TimeFormat>(
    alloc: Global,
    heads: &[Head],
    playbacks: &[Playback<'_>],
    clock: &C,
    show: &Show<'_>,
) -> Result<Rendered, AllocError>
    ensures met { IfOk result (λ rendered. rendered.is_met ≡ list_all (is_met playbacks.now) show.now.expectations.now) }
    ensures printed { IfOk result (λ rendered. IsPrinted show.now.output show.now.options.now heads.now playbacks.now (C.times clock.now)
        show.now.expectations.now (string_bytes rendered.text)) }
{
    let judged = judge(alloc, playbacks, show.expectations)?;
    let shown = output_of(heads, &judged, clock, show)?;
    let judgement = judgement_of(&judged, clock, show.options, shown.found)?;
    Ok(Rendered {
        text: shown.text,
        is_met: judgement.unmet.is_empty(),
        judgement,
    })
}

/// The output that is asked for.
fn output_of<C: TimeFormat>(
    heads: &[Head],
    judged: &Judged<'_>,
    clock: &C,
    show: &Show<'_>,
) -> Result<Printed, AllocError>
    ensures { IfOk result (λ printed. IsPrinted show.now.output show.now.options.now heads.now judged.now.playbacks.now (C.times clock.now)
        judged.now.expectations.now (string_bytes printed.text)) }
{
    if is_page(show.output) {
        return page_of(heads, judged, clock, show);
    }
    let mut lines = all_lines(judged.alloc, heads, judged.playbacks, clock, show)?;
    push_end(judged, clock, show.output, &mut lines.text)?;
    Ok(lines)
}

pub(crate) fn is_page(output: Output) -> bool
    ensures { result ≡ is_page output }
{
    match output {
        Output::Html => true,
        Output::Timeline | Output::Full | Output::Notices | Output::Delivered | Output::Json =>
            false,
    }
}

/// The lines of all dispatchers.
fn all_lines<C: TimeFormat>(
    alloc: Global,
    heads: &[Head],
    playbacks: &[Playback<'_>],
    clock: &C,
    show: &Show<'_>,
) -> Result<Printed, AllocError>
    ensures { IfOk result (λ lines. string_bytes lines.text
        ≡ all_lines show.now.output show.now.options.now (C.times clock.now) heads.now playbacks.now) }
{
    match playbacks.split_first() {
        None => Ok(Printed {
            text: String::new(alloc),
            found: false,
        }),
        Some((first, later)) => {
            let mut lines = lines_of(alloc, first, clock, show)?;
            let found = push_later(alloc, heads, later, clock, show, &mut lines.text)?;
            lines.found = lines.found || found;
            Ok(lines)
        }
    }
}

/// Adds the lines of these dispatchers, each behind its head. Returns whether there is an event that they are of.
fn push_later<C: TimeFormat>(
    alloc: Global,
    heads: &[Head],
    playbacks: &[Playback<'_>],
    clock: &C,
    show: &Show<'_>,
    out: &mut String,
) -> Result<bool, AllocError>
    ensures { OnOk result (string_bytes out.new
        ≡ string_bytes out.old ++ later_lines show.now.output show.now.options.now (C.times clock.now) heads.now playbacks.now) }
{
    match heads.split_first() {
        None => Ok(false),
        Some((head, heads)) => match playbacks.split_first() {
            None => Ok(false),
            Some((playback, playbacks)) => {
                push_head_for(clock, head, show.output, out)?;
                let found = push_lines(alloc, playback, clock, show, out)?;
                let more = push_later(alloc, heads, playbacks, clock, show, out)?;
                Ok(found || more)
            }
        },
    }
}

/// Adds a head to an output that has more than lines.
fn push_head_for<C: TimeFormat>(
    clock: &C,
    head: &Head,
    output: Output,
    out: &mut String,
) -> Result<(), AllocError>
    ensures { OnOk result (string_bytes out.new
        ≡ string_bytes out.old ++ head_for output (C.times clock.now) head.now) }
{
    if !has_summary(output) {
        return Ok(());
    }
    push_head(clock, head, out)
}

/// Adds the lines of one dispatcher. Returns whether there is an event that they are of.
fn push_lines<C: TimeFormat>(
    alloc: Global,
    playback: &Playback<'_>,
    clock: &C,
    show: &Show<'_>,
    out: &mut String,
) -> Result<bool, AllocError>
    ensures { OnOk result (string_bytes out.new
        ≡ string_bytes out.old ++ part_text show.now.output show.now.options.now (C.times clock.now) playback.now) }
{
    let lines = lines_of(alloc, playback, clock, show)?;
    out.push_str(lines.text.as_str())?;
    Ok(lines.found)
}

/// The lines of one dispatcher: of the groups that are wanted, and where changes are, those that say something new.
fn lines_of<C: TimeFormat>(
    alloc: Global,
    playback: &Playback<'_>,
    clock: &C,
    show: &Show<'_>,
) -> Result<Printed, AllocError>
    ensures text { IfOk result (λ lines. string_bytes lines.text
        ≡ part_text show.now.output show.now.options.now (C.times clock.now) playback.now) }
    ensures found { IfOk result (λ lines. lines.found ≡ has_lines show.now.options.now playback.now) }
{
    let left = filtered_events(alloc, playback, &show.options.filter)?;
    let filtered = playback.with_events(left.of(playback.events()));
    let kept = selected_events(alloc, &filtered, clock, show.options)?;
    let shown = filtered.with_events(kept.of(filtered.events()));
    Ok(Printed {
        text: shown_text(alloc, &shown, playback, clock, show.output)?,
        found: !filtered.events().is_empty(),
    })
}

/// The logbooks of these dispatchers.
fn logbooks_of(alloc: Global, played: &[PlayedPart]) -> Result<Vec<Logbook<'_>>, AllocError>
    ensures logbooks { IfOk result (λ logs. logs.items ≡ map log_of played.now) }
    ensures legal { OnOk result (AllByRecursion HasLegalHistory played.now) }
{
    let mut logs = Vec::with_capacity(alloc, played.len())?;
    add_logbooks(alloc, played, &mut logs)?;
    Ok(logs)
}

/// Adds them.
fn add_logbooks<'s>(
    alloc: Global,
    played: &'s [PlayedPart],
    logs: &mut Vec<Logbook<'s>>,
) -> Result<(), AllocError>
    ensures logbooks { OnOk result (logs.new.items ≡ logs.old.items ++ map log_of played.now) }
    ensures legal { OnOk result (AllByRecursion HasLegalHistory played.now) }
{
    match played.split_first() {
        None => Ok(()),
        Some((part, later)) => {
            logs.push(logbook_of(alloc, &part.played)?)?;
            add_logbooks(alloc, later, logs)
        }
    }
}

/// The playbacks of these dispatchers, of which these are the logbooks.
fn playbacks_of<'s>(
    alloc: Global,
    logs: &'s [Logbook<'s>],
    played: &'s [PlayedPart],
) -> Result<Vec<Playback<'s>>, AllocError>
    requires logbooks { logs.now ≡ map log_of played.now }
    ensures { IfOk result (λ playbacks. playbacks.items ≡ map playback_of played.now) }
{
    let mut playbacks = Vec::with_capacity(alloc, logs.len())?;
    add_playbacks(logs, played, &mut playbacks)?;
    Ok(playbacks)
}

/// Adds them.
fn add_playbacks<'s>(
    logs: &'s [Logbook<'s>],
    played: &'s [PlayedPart],
    playbacks: &mut Vec<Playback<'s>>,
) -> Result<(), AllocError>
    requires logbooks { logs.now ≡ map log_of played.now }
    ensures { OnOk result (playbacks.new.items ≡ playbacks.old.items ++ map playback_of played.now) }
{
    match played.split_first() {
        None => Ok(()),
        Some((part, later)) => match logs.split_first() {
            None => Ok(()),
            Some((log, logs)) => {
                playbacks.push(Playback::new(log, part.played.events.as_slice()))?;
                add_playbacks(logs, later, playbacks)
            }
        },
    }
}

/// Returns the logbook of a rehearsal that ran.
///
/// # Errors
///
/// `AllocError`: out of memory.
pub fn logbook_of(alloc: Global, played: &Played) -> Result<Logbook<'_>, AllocError>
    ensures logbook { IfOk result (λ log. log ≡ record {
      config = played.now.board.config;
      history = played.now.board.history;
      begins = played.now.begins.items;
    }) }
    ensures legal { IfOk result (λ _. IsLegal played.now.board.config played.now.board.id played.now.board.history) }
{
    Logbook::new(
        alloc,
        played.seed,
        played.board.config(),
        played.history(),
        played.begins.as_slice(),
    )
}

/// The events of a playback whose lines are wanted: all, or those that say something new.
fn selected_events<C: TimeFormat>(
    alloc: Global,
    filtered: &Playback<'_>,
    clock: &C,
    options: &OutputOptions,
) -> Result<Selection, AllocError>
    ensures { IfOk result (λ events. record filtered.now { events = left_of events filtered.now.events }
        ≡ (if options.now.changes then changed filtered.now (C.times clock.now) else filtered.now)) }
{
    if options.changes {
        let changes = changed_events(alloc, filtered, clock)?;
        return Ok(Selection::Only(changes));
    }
    Ok(Selection::All)
}

/// What a rehearsal came to, besides the output.
fn judgement_of<C: TimeFormat>(
    judged: &Judged<'_>,
    clock: &C,
    options: &OutputOptions,
    found: bool,
) -> Result<Judgement, AllocError>
    ensures unmet { IfOk result (λ judgement. judgement.unmet.items
        ≡ unmet_from judged.now.playbacks.now 0 judged.now.expectations.now) }
    ensures junit { IfOk result (λ judgement. option_map string_bytes judgement.junit ≡ (if options.now.junit
        then Some (junit_text judged.now.playbacks.now (C.times clock.now) judged.now.expectations.now) else None)) }
    ensures found { IfOk result (λ judgement. judgement.found_nothing ≡ (not (names_nothing options.now.filter) && not found)) }
{
    let found_nothing = !options.filter.is_empty() && !found;
    let junit = junit_of(judged, clock, options)?;
    let unmet = judged.unmet()?;
    Ok(Judgement {
        unmet,
        junit,
        found_nothing,
    })
}

/// The report on all expectations, as XML of JUnit, if it is wanted.
fn junit_of<C: TimeFormat>(
    judged: &Judged<'_>,
    clock: &C,
    options: &OutputOptions,
) -> Result<Option<String>, AllocError>
    ensures { IfOk result (λ junit. option_map string_bytes junit ≡ (if options.now.junit
        then Some (junit_text judged.now.playbacks.now (C.times clock.now) judged.now.expectations.now) else None)) }
{
    if !options.junit {
        return Ok(None);
    }
    Ok(Some(junit_text(judged, clock)?))
}

/// The lines of one dispatcher, those of the events that are shown, and the table below them, which is that of its whole playback.
fn shown_text<C: TimeFormat>(
    alloc: Global,
    shown: &Playback<'_>,
    playback: &Playback<'_>,
    clock: &C,
    output: Output,
) -> Result<String, AllocError>
    ensures { IfOk result (λ text. string_bytes text ≡ shown_text output shown.now playback.now (C.times clock.now)) }
{
    match output {
        Output::Timeline => {
            let mut text = short_timeline_text(alloc, shown, clock)?;
            push_table(alloc, playback, clock, &mut text)?;
            Ok(text)
        }
        Output::Full => {
            let mut text = timeline_text(alloc, shown, clock)?;
            push_table(alloc, playback, clock, &mut text)?;
            Ok(text)
        }
        Output::Notices => notices_text(alloc, shown, clock, true),
        Output::Delivered => notices_text(alloc, shown, clock, false),
        Output::Json => json_text(alloc, shown, clock),
        Output::Html => Ok(String::new(alloc)),
    }
}

fn push_table<C: TimeFormat>(
    alloc: Global,
    playback: &Playback<'_>,
    clock: &C,
    text: &mut String,
) -> Result<(), AllocError>
    ensures { OnOk result (string_bytes text.new ≡ string_bytes text.old ++ table_text playback.now (C.times clock.now)) }
{
    let table = table_text(alloc, playback, clock)?;
    text.push_str(table.as_str())
}

/// Adds the spans of firing that an integration missed.
fn push_undelivered<C: TimeFormat>(
    alloc: Global,
    playbacks: &[Playback<'_>],
    clock: &C,
    text: &mut String,
) -> Result<(), AllocError>
    ensures { OnOk result (string_bytes text.new
        ≡ string_bytes text.old ++ undelivered_text playbacks.now (C.times clock.now)) }
{
    let undelivered = undelivered_text(alloc, playbacks, clock)?;
    text.push_str(undelivered.as_str())
}

/// Whether an output has more than the lines.
fn has_summary(output: Output) -> bool
    ensures { result ≡ has_summary output }
{
    match output {
        Output::Timeline | Output::Full => true,
        Output::Notices | Output::Delivered | Output::Json | Output::Html => false,
    }
}

/// Adds the spans of firing that an integration missed, and what became of the expectations, to an output that says it.
fn push_end<C: TimeFormat>(
    judged: &Judged<'_>,
    clock: &C,
    output: Output,
    text: &mut String,
) -> Result<(), AllocError>
    ensures { OnOk result (string_bytes text.new ≡ string_bytes text.old
        ++ end_text output judged.now.playbacks.now (C.times clock.now) judged.now.expectations.now) }
{
    if !has_summary(output) {
        return Ok(());
    }
    push_undelivered(judged.alloc, judged.playbacks, clock, text)?;
    push_judged(judged, clock, text)
}

/// Adds what became of the expectations, behind an empty line, if there are any.
fn push_judged<C: TimeFormat>(
    judged: &Judged<'_>,
    clock: &C,
    text: &mut String,
) -> Result<(), AllocError>
    ensures { OnOk result (string_bytes text.new ≡ string_bytes text.old
        ++ expectations_section judged.now.playbacks.now (C.times clock.now) judged.now.expectations.now) }
{
    if judged.expectations.is_empty() {
        return Ok(());
    }
    let judgement = expectations_text(judged, clock)?;
    text.push_str("\n")?;
    text.push_str(judgement.as_str())
}
