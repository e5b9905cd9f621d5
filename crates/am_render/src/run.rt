//! The run of a rehearsal. `play_value` plays what the value of a story asks for, and writes the output; `play_or_refuse` plays, and
//! writes nothing.
ghost use Rattle.std.specs.Prelude.{◌≡◌, ◌≢◌, ◌<◌, ◌↔◌, false, true};
ghost use Rattle.std.specs.Prelude.{IfErr, IfOk, IsTrue, OnOk, string_bytes};
ghost use Rattle.serde_json.specs.View.{view};
ghost use Rattle.am_json.specs.Read.{IsRefusedBy};
ghost use Rattle.am_input.specs.Request.{times_from};
ghost use Rattle.am_render.specs.Faults.{Refuses, RefusesPlay, is_limit, status_of};
ghost use Rattle.am_render.specs.Printed.{IsOutputFor, IsOutputOfRun, PlaysThrough, WritesOutput};

use crate::fault::RehearseFault;
use crate::head::changes_of;
use crate::output_options::OutputOptions;
use crate::picture::outages_for;
use crate::render::{Rendered, Show, render_from};
use am_config::dropped::IgnoredSettings;
use am_input::input::{Changes, Input, read_input};
use am_input::zone_files::ZoneFiles;
use am_json::device::Sink;
use am_json::fault::{FaultKind, InputFault};
use am_json::pointer::JsonPointer;
use am_json::transfer::write_all;
use am_plans::origin::Origin;
use am_seed::Seed;
use am_simulation::parts::parts_of;
use am_simulation::play::PlayFault;
use am_simulation::playing::{PartFault, PlayedPart, play_parts};
use am_terms::dispatcher_change::DispatcherChange;
use am_terms::rehearsal::Rehearsal;
use am_terms::watch::Watch;
use serde_json::Value;
use std::alloc::Global;

/// What is asked for of a story: what takes the place of its own parts, and what the command line wants to see.
#[derive(Clone, Copy)]
pub struct Order<'o> {
    pub alloc: Global,
    pub changes: Changes<'o>,
    pub options: &'o OutputOptions,
}

/// What a run reports besides its output.
#[derive(Drop)]
pub struct Report {
    /// What of Alertmanager's configuration is ignored.
    pub ignored: IgnoredSettings,
    /// What became of the expectations.
    pub judgement: Judgement,
}

/// What a rehearsal came to, besides the output.
#[derive(Drop)]
pub struct Judgement {
    /// The numbers of the expectations that aren't met, from 0 on.
    pub unmet: Vec<usize>,
    /// The report on all expectations, as XML of JUnit, if it is wanted.
    pub junit: Option<String>,
    /// Whether a filter names something, and no event is of that.
    pub found_nothing: bool,
}

impl Report {
    /// Returns the report before a run.
    pub fn nothing(alloc: Global) -> Report {
        Report {
            ignored: IgnoredSettings::nothing(),
            judgement: Judgement::none(alloc),
        }
    }
}

impl Judgement {
    /// Returns the judgement where nothing ran.
    pub fn none(alloc: Global) -> Judgement {
        Judgement {
            unmet: Vec::new(alloc),
            junit: None,
            found_nothing: false,
        }
    }
}

/// Plays the rehearsal that a story's value asks for, and writes its output to the sink: on `Ok` and on `Unmet`, once and whole, the
/// output that is asked for, of what the rehearsal plays to (`PlaysThrough`), one dispatcher after another. It is `Ok` where every
/// expectation of it is met, and `Unmet` where one isn't. Configuration, reloads, restarts, alerts, silences, outages, output, start,
/// end, maintenance and expectations are those of the value, or those of `order.changes`. Of a configuration of Alertmanager the
/// receivers, the inhibition rules, the tree of routes and the time intervals that mute them are those of the value. No clause says
/// so of the names of its routes, and of the clocks.
///
/// A value is refused at a pointer, or as `AllRefused`, only where it asks for nothing that can be played, or as `Full` (`Refuses`). It
/// is `Full` only where it asks for more than a limit lets be played, or where a log row that a new dispatcher takes over doesn't fit.
/// Nothing is said of a given file, of a configuration of Alertmanager, and of patterns that need a regex.
///
/// `report` has what of Alertmanager's configuration is ignored, and, once a rehearsal ran, which expectations aren't met, and the
/// report on them that `order.options` asks for. The output is made whole before its first byte is written: on every fault but
/// `Unwritable` and `Unmet` the sink wasn't asked. A value that is refused before the play stays as it was. For the play it is let go,
/// and `null` is left.
pub fn play_value<Z: ZoneFiles, K: Sink, W: Watch>(
    order: Order<'_>,
    story: &mut Value,
    files: &mut Z,
    watch: &mut W,
    sink: &mut K,
    report: &mut Report,
) -> Result<(), RehearseFault>
    ensures unwritable { (result ≡ Err RehearseFault.Unwritable)
        ↔ (K.failed sink.old < K.failed sink.new) }
    ensures unwritten { IfErr result (λ fault.
        fault ≢ RehearseFault.Unwritable → fault ≢ RehearseFault.Unmet → sink.new ≡ sink.old) }
    ensures met { OnOk result
        (WritesOutput order.entry.changes order.entry.options.now true (view story.old) (K.taken sink.old) (K.taken sink.new)) }
    ensures unmet { IfErr result (λ fault. fault ≡ RehearseFault.Unmet →
        WritesOutput order.entry.changes order.entry.options.now false (view story.old) (K.taken sink.old) (K.taken sink.new)) }
    ensures refused { IfErr result (λ fault. status_of fault ≡ 2 → Refuses order.entry.changes (view story.old) fault) }
{
    let rendered = render(order, story, files, watch, &mut report.ignored);
    let Rendered {
        text,
        is_met,
        judgement,
    } = rendered?;
    report.judgement = judgement;
    write_all(sink, text.as_bytes())?;
    if is_met {
        Ok(())
    } else {
        Err(RehearseFault::Unmet)
    }
}

/// Why a rehearsal wasn't played to its end, given at the pointer in the input.
fn refused(alloc: Global, fault: PartFault, origins: &[Origin]) -> InputFault
    ensures memory { fault.fault ≡ PlayFault.NoMemory → result ≡ InputFault.NoMemory }
    ensures limit { IsTrue (is_limit fault.fault) → IsRefusedBy FaultKind.Full result }
{
    let top = JsonPointer::Root;
    match fault.fault {
        PlayFault::NoMemory => InputFault::NoMemory,
        PlayFault::BadConfig => top.member("config").refuse(alloc, FaultKind::BadValue),
        PlayFault::Full => top.member("until").refuse(alloc, FaultKind::Full),
        PlayFault::PlanRefused(index) => match origin_of(fault.part, index, origins) {
            Some(origin) => origin.refuse_full(alloc),
            None => top.refuse(alloc, FaultKind::Full),
        },
    }
}

/// Where a plan of a dispatcher is in the input, if it is the first one's. Those of another begin with what it is given again.
fn origin_of(part: usize, index: usize, origins: &[Origin]) -> Option<&Origin> {
    if part == 0 { origins.get(index) } else { None }
}

/// What is printed of the rehearsal that a value asks for. The value is let go before the play.
fn render<Z: ZoneFiles, W: Watch>(
    order: Order<'_>,
    story: &mut Value,
    files: &mut Z,
    watch: &mut W,
    ignored: &mut IgnoredSettings,
) -> Result<Rendered, RehearseFault>
    ensures printed { IfOk result (λ rendered.
        IsOutputFor order.entry.changes order.entry.options.now (view story.old) rendered.is_met (string_bytes rendered.text)) }
    ensures refused { IfErr result (Refuses order.entry.changes (view story.old)) }
{
    let input = read_input(order.alloc, story, order.changes, files)?;
    drop(story.take());
    *ignored = input.dropped;
    Ok(play_and_render(order.alloc, input, order.options, watch)?)
}

/// Plays a rehearsal, and says what is asked for.
fn play_and_render<W: Watch>(
    alloc: Global,
    input: Input,
    options: &OutputOptions,
    watch: &mut W,
) -> Result<Rendered, InputFault>
    ensures printed { IfOk result (λ rendered. IsOutputOfRun input.rehearsal input.dispatcher_changes.items input.output options.now
        (times_from input.start) input.expectations.items rendered.is_met (string_bytes rendered.text)) }
    ensures refused { IfErr result (RefusesPlay input.rehearsal input.dispatcher_changes.items) }
{
    let Input {
        rehearsal,
        dispatcher_changes,
        origins,
        start,
        expectations,
        output,
        dropped: _,
    } = input;
    let changes = changes_of(alloc, dispatcher_changes.as_slice())?;
    let outages = outages_for(alloc, output, rehearsal.outages.as_slice())?;
    let played = play_or_refuse(
        alloc,
        options.seed,
        rehearsal,
        dispatcher_changes,
        origins.as_slice(),
        watch,
    )?;
    let changes = changes.as_slice();
    let played = played.as_slice();
    let expectations = expectations.as_slice();
    let show = Show {
        output,
        options,
        expectations,
        outages: outages.as_slice(),
    };
    render_from(alloc, changes, played, &start, &show)
}

/// Plays a rehearsal with these changes of the dispatcher, whose planned actions are at these pointers of the input. Hashes start from
/// the seed. `watch` sees how far the play is.
///
/// # Errors
///
/// `Refused`: a limit leaves no capacity, at the pointer of the action that exceeds it, or at `until`; or, at `config`, no dispatcher may
/// have the configuration. `NoMemory`: out of memory.
pub fn play_or_refuse<W: Watch>(
    alloc: Global,
    seed: Seed,
    rehearsal: Rehearsal,
    dispatcher_changes: Vec<DispatcherChange>,
    origins: &[Origin],
    watch: &mut W,
) -> Result<Vec<PlayedPart>, InputFault>
    ensures plays { IfOk result (λ played. PlaysThrough rehearsal dispatcher_changes.items played.items) }
    ensures refused { IfErr result (RefusesPlay rehearsal dispatcher_changes.items) }
{
    let Rehearsal {
        config,
        until,
        upkeep,
        plans,
        outages,
    } = rehearsal;
    let parts = parts_of(alloc, seed, config, until, plans, dispatcher_changes)?;
    let ended = play_parts(alloc, seed, parts, upkeep, outages.as_slice(), watch);
    watch.end();
    match ended {
        Ok(played) => Ok(played),
        Err(fault) => Err(refused(alloc, fault, origins)),
    }
}
