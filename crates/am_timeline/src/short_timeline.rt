//! The short timeline: a line for each event of a rehearsal, but one for a run of like flushes.
ghost use Rattle.std.specs.Prelude.{◌≡◌, ◌++◌, [], IfOk, OnOk, codes, slice_get, string_bytes};
ghost use Rattle.std.specs.List.{flat_map};
ghost use Rattle.std.specs.Option.{option_map_or};
ghost use Rattle.am_timeline.specs.Runs.{begins_folded, count_text, event_lines_by_runs, lines_by_runs, run_lines, run_text};
ghost use Rattle.am_timeline.specs.Runs.{short_timeline_text, until_text};

use crate::begun::push_begun;
use crate::fold_list::Folds;
use crate::frame::Frame;
use crate::playback::Playback;
use crate::print::Print;
use crate::runs::{Run, begins_folded};
use crate::timeline::push_sent_by;
use am_terms::clock::{TimeFormat, push_number};
use am_terms::event::{Event, PreviewedBegin};
use std::alloc::{AllocError, Global};

/// Returns the short timeline of a rehearsal: the lines on all events, in their order, with one begin's for each run.
///
/// A run is flushes of one group that follow each other, send nothing and have the same lines. Its lines have the time of
/// its first flush, and at their end how many flushes it has, and the time of its last one. Cost: that of the timeline, and
/// the lines of each begin whose preview isn't like the last one of its group.
pub fn short_timeline_text<C: TimeFormat>(
    alloc: Global,
    playback: &Playback,
    clock: &C,
) -> Result<String, AllocError>
    ensures { IfOk result (λ text. string_bytes text ≡ short_timeline_text playback.now (C.times clock.now)) }
{
    let folds = begins_folded(alloc, playback, clock)?;
    let print = Print {
        alloc,
        playback,
        clock,
    };
    folded_text(&print, &folds)
}

/// Returns the lines on all events, with these runs.
fn folded_text<C: TimeFormat>(print: &Print<'_, '_, C>, folds: &Folds) -> Result<String, AllocError>
    ensures { IfOk result (λ text. string_bytes text
        ≡ flat_map (event_lines_by_runs print.now.playback.now (C.times print.now.clock.now) folds.now) print.now.playback.now.events) }
{
    let playback = print.playback;
    let mut out = String::new(print.alloc);
    for event in playback.events {
        push_folded_event(print, folds, event, &mut out)?;
    }
    Ok(out)
}

/// Adds the lines on an event, with these runs.
fn push_folded_event<C: TimeFormat>(
    print: &Print<'_, '_, C>,
    folds: &Folds,
    event: &Event,
    out: &mut String,
) -> Result<(), AllocError>
    ensures { OnOk result (string_bytes out.new
        ≡ string_bytes out.old ++ event_lines_by_runs print.now.playback.now (C.times print.now.clock.now) folds.now event.now) }
{
    match event {
        Event::Begun { begin } => { push_folded_begun(print, folds, *begin as usize, out) }
        Event::Sent { .. } => push_sent_by(print, event, out),
    }
}

/// Adds the lines on the begin at a position, with these runs.
fn push_folded_begun<C: TimeFormat>(
    print: &Print<'_, '_, C>,
    folds: &Folds,
    position: usize,
    out: &mut String,
) -> Result<(), AllocError>
    ensures { OnOk result (string_bytes out.new ≡ string_bytes out.old
        ++ option_map_or (lines_by_runs print.now.playback.now (C.times print.now.clock.now) folds.now position)
        (slice_get print.now.playback.now.begins position) []) }
{
    let playback = print.playback;
    match playback.begins.get(position) {
        None => Ok(()),
        Some(begin) => match folds.run_at(position) {
            None => Ok(()),
            Some(run) => push_run_lines(print, begin, &run, out),
        },
    }
}

/// Adds the lines of the run that a begin begins.
fn push_run_lines<C: TimeFormat>(
    print: &Print<'_, '_, C>,
    begin: &PreviewedBegin,
    run: &Run,
    out: &mut String,
) -> Result<(), AllocError>
    ensures { OnOk result (string_bytes out.new
        ≡ string_bytes out.old ++ run_lines print.now.playback.now (C.times print.now.clock.now) begin.now run.now) }
{
    let ending = ending_of(print.alloc, print.clock, run)?;
    let frame = Frame {
        time: begin.preview.time(),
        ending: ending.as_str(),
    };
    push_begun(print, &frame, begin, out)
}

/// Returns the end of a run's lines.
fn ending_of<C: TimeFormat>(alloc: Global, clock: &C, run: &Run) -> Result<String, AllocError>
    ensures { IfOk result (λ text. string_bytes text ≡ run_text (C.times clock.now) run.now ++ codes "\n") }
{
    let mut ending = String::new(alloc);
    push_run(clock, run, &mut ending)?;
    ending.push_str("\n")?;
    Ok(ending)
}

/// Adds how many flushes a run has, and when the last one began; nothing for a run of one.
fn push_run<C: TimeFormat>(clock: &C, run: &Run, out: &mut String) -> Result<(), AllocError>
    ensures { OnOk result (string_bytes out.new ≡ string_bytes out.old ++ run_text (C.times clock.now) run.now) }
{
    if run.count == 1 {
        return Ok(());
    }
    push_count(clock, run, out)
}

fn push_count<C: TimeFormat>(clock: &C, run: &Run, out: &mut String) -> Result<(), AllocError>
    ensures { OnOk result (string_bytes out.new ≡ string_bytes out.old ++ count_text (C.times clock.now) run.now) }
{
    out.push_str("; ")?;
    push_number(run.count as u64, out)?;
    push_until(clock, run.until, out)
}

fn push_until<C: TimeFormat>(clock: &C, until: u64, out: &mut String) -> Result<(), AllocError>
    ensures { OnOk result (string_bytes out.new ≡ string_bytes out.old ++ until_text (C.times clock.now) until) }
{
    out.push_str(" flushes until ")?;
    clock.push_time(until, out)
}
