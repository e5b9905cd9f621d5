//! `am-rehearse compare`: simulates a story under two configurations, and prints what differs.
ghost use Rattle.std.specs.Prelude.{◌≡◌, ◌↔◌, ◌++◌, false, true, map, string_bytes};
ghost use Rattle.std.specs.Prelude.{Bool, IfErr, IfOk, IsTrue, OnOk};
ghost use Rattle.serde_json.specs.View.{view};
ghost use Rattle.am_console.specs.Complaints.{is_complaint};
ghost use Rattle.am_input.specs.Request.{times_from};
ghost use Rattle.am_rehearse.specs.Compared.{ComparesFiles, ComparesStory, IsComparison, IsPlayed, SamePart, SameParts};
ghost use Rattle.am_rehearse.specs.Compared.{IsPushed, change_text, change_word, later_text, same_text};
ghost use Rattle.am_render.specs.Head.{change_of};
ghost use Rattle.am_render.specs.Printed.{PlaysThrough};

use crate::play_options::until_of;
use am_command_line::exit_status::ExitStatus;
use am_command_line::request::CompareRequest;
use am_commands::faults::accept;
use am_commands::ignored::say_ignored;
use am_commands::once::accept_inputs;
use am_commands::reload_files::read_reload_files;
use am_commands::wrapped::read_configuration;
use am_config::dropped::IgnoredSettings;
use am_console::console::{Console, Document};
use am_console::files::PaintedOutput;
use am_console::progress::Progress;
use am_input::input::{Input, Overrides};
use am_json::device::Sink;
use am_json::fault::InputFault;
use am_json::faults::Refusal;
use am_render::head::{Change, changes_of};
use am_render::render::logbook_of;
use am_render::run::play_or_refuse;
use am_seed::Seed;
use am_simulation::playing::PlayedPart;
use am_terms::clock::{Elapsed, TimeFormat, push_column};
use am_terms::dated::UtcDates;
use am_terms::dispatcher_change::Carryover;
use am_terms::watch::Watch;
use am_timeline::comparison::{Comparison, compare_notices};
use am_timeline::playback::Playback;
use std::alloc::{AllocError, Global};
use std::rt::Files;
use std::time::Clock;

/// A story that ran.
#[derive(Drop)]
struct PlayedStory {
    /// Of each dispatcher what it did.
    parts: Vec<PlayedPart>,
    /// When the dispatchers change.
    changes: Vec<Change>,
    /// The time of the start, if the story says it.
    start: Option<UtcDates>,
    /// What of the configuration is ignored.
    ignored: IgnoredSettings,
}

/// A story, and the two configurations under which it is compared.
#[derive(Clone, Copy)]
struct ComparedFiles<'f> {
    story: &'f Document<'f>,
    old: &'f Document<'f>,
    new: &'f Document<'f>,
}

/// Compares two configurations, and returns the status. Hashes start from this seed.
///
/// It is `Done` only if what is said of the story under both was written. If a difference is to be reported, it is `Done` only if there is
/// none: then each dispatcher delivered the same notices at the same times under both, and the text says so of each. It is `Differs` only
/// if there is one, and it is to be reported.
pub fn compare<R: Files + Eprint + AllocGlobal + Clock>(
    rt: &R,
    seed: Seed,
    console: &mut Console,
    request: CompareRequest<'_>,
) -> ExitStatus
    ensures done { result ≡ ExitStatus.Done → (differs : Bool) × (request.entry.exit_code ≡ true → differs ≡ false)
        × ComparesFiles request.entry differs (⟦<PaintedOutput as Sink>⟧.taken console.old.output)
        (⟦<PaintedOutput as Sink>⟧.taken console.new.output) }
    ensures differs { result ≡ ExitStatus.Differs → (request.entry.exit_code ≡ true) × ComparesFiles request.entry true
        (⟦<PaintedOutput as Sink>⟧.taken console.old.output) (⟦<PaintedOutput as Sink>⟧.taken console.new.output) }
{
    match try_compare(rt, seed, console, request) {
        Ok(status) | Err(status) => status,
    }
}

fn try_compare<R: Files + Eprint + AllocGlobal + Clock>(
    rt: &R,
    seed: Seed,
    console: &mut Console,
    request: CompareRequest<'_>,
) -> Result<ExitStatus, ExitStatus>
    ensures done { IfOk result (λ status. status ≡ ExitStatus.Done → (differs : Bool) × (request.entry.exit_code ≡ true → differs ≡ false)
        × ComparesFiles request.entry differs (⟦<PaintedOutput as Sink>⟧.taken console.old.output)
        (⟦<PaintedOutput as Sink>⟧.taken console.new.output)) }
    ensures differs { IfOk result (λ status. status ≡ ExitStatus.Differs → (request.entry.exit_code ≡ true)
        × ComparesFiles request.entry true
        (⟦<PaintedOutput as Sink>⟧.taken console.old.output) (⟦<PaintedOutput as Sink>⟧.taken console.new.output)) }
    ensures complains { IfErr result (λ status. IsTrue (is_complaint status)) }
{
    let overrides = Overrides {
        output: None,
        until: until_of(rt, request.until)?,
    };
    accept_inputs(rt, &[request.old, request.new, request.story])?;
    let mut story = console.read(rt, request.story)?;
    read_reload_files(rt, console, &mut story, overrides)?;
    let old = read_configuration(rt, console, request.old)?;
    let new = read_configuration(rt, console, request.new)?;
    let files = ComparedFiles {
        story: &story,
        old: &old,
        new: &new,
    };
    let compared = compared(rt, seed, console, files, overrides)?;
    Ok(print(rt, console, &compared, request.exit_code))
}

/// Compares the notices of a story under two configurations. The error is the status.
fn compared<R: Files + Eprint + AllocGlobal + Clock>(
    rt: &R,
    seed: Seed,
    console: &mut Console,
    files: ComparedFiles<'_>,
    overrides: Overrides,
) -> Result<Comparison, ExitStatus>
    ensures compares { IfOk result (λ compared. ComparesStory overrides (view files.entry.story.now.value) (view files.entry.old.now.value)
        (view files.entry.new.now.value) compared.differs (string_bytes compared.text)) }
    ensures complains { IfErr result (λ status. IsTrue (is_complaint status)) }
    ensures silent { console.new.output ≡ console.old.output }
{
    let old = played_under(rt, seed, console, files.story, files.old, overrides)?;
    let new = played_under(rt, seed, console, files.story, files.new, overrides)?;
    say_ignored(rt, files.old.path, old.ignored);
    say_ignored(rt, files.new.path, new.ignored);
    match compare_played(rt.alloc(), &old, &new) {
        Ok(compared) => Ok(compared),
        Err(_) => Err(console.complain_of_memory(rt)),
    }
}

/// Prints what differs, and returns the status.
fn print<R: Files + Eprint + AllocGlobal>(
    rt: &R,
    console: &mut Console,
    compared: &Comparison,
    exit_code: bool,
) -> ExitStatus
    ensures same { result ≡ ExitStatus.Done → exit_code ≡ true → compared.now.differs ≡ false }
    ensures differs { result ≡ ExitStatus.Differs → (exit_code ≡ true) × (compared.now.differs ≡ true) }
    ensures done { result ≡ ExitStatus.Done → ⟦<PaintedOutput as Sink>⟧.taken console.new.output
        ≡ ⟦<PaintedOutput as Sink>⟧.taken console.old.output ++ string_bytes compared.now.text }
    ensures written { result ≡ ExitStatus.Differs → ⟦<PaintedOutput as Sink>⟧.taken console.new.output
        ≡ ⟦<PaintedOutput as Sink>⟧.taken console.old.output ++ string_bytes compared.now.text }
{
    match console.print(rt, compared.text.as_str()) {
        ExitStatus::Done => status_of(compared.differs, exit_code),
        status => status,
    }
}

/// Returns the status of a comparison that was printed.
fn status_of(differs: bool, exit_code: bool) -> ExitStatus
    ensures same { result ≡ ExitStatus.Done → exit_code ≡ true → differs ≡ false }
    ensures differs { result ≡ ExitStatus.Differs → (exit_code ≡ true) × (differs ≡ true) }
{
    if differs && exit_code {
        ExitStatus::Differs
    } else {
        ExitStatus::Done
    }
}

/// Plays the story under the configuration of a file. The error is the status.
fn played_under<R: Files + Eprint + AllocGlobal + Clock>(
    rt: &R,
    seed: Seed,
    console: &mut Console,
    story: &Document<'_>,
    config: &Document<'_>,
    overrides: Overrides,
) -> Result<PlayedStory, ExitStatus>
    ensures played { IfOk result (IsPlayed overrides (view story.now.value) (view config.now.value)) }
    ensures complains { IfErr result (λ status. IsTrue (is_complaint status)) }
    ensures silent { console.new.output ≡ console.old.output }
{
    let input = accept(rt, console, story, Some(config), overrides)?;
    let mut watch = Progress::begin(rt, console.is_terminal);
    match play_input(rt.alloc(), seed, input, &mut watch) {
        Ok(played) => Ok(played),
        Err(fault) => Err(console.complain_of_refusal(rt, story, Refusal::One(fault))),
    }
}

/// Plays what a story asks for.
fn play_input<W: Watch>(
    alloc: Global,
    seed: Seed,
    input: Input,
    watch: &mut W,
) -> Result<PlayedStory, InputFault>
    ensures plays { IfOk result (λ played. PlaysThrough input.rehearsal input.dispatcher_changes.items played.parts.items) }
    ensures changed { IfOk result (λ played. played.changes.items ≡ map change_of input.dispatcher_changes.items) }
    ensures started { IfOk result (λ played. played.start ≡ input.start) }
{
    let Input {
        rehearsal,
        dispatcher_changes,
        origins,
        start,
        expectations: _,
        output: _,
        dropped,
    } = input;
    let changes = changes_of(alloc, dispatcher_changes.as_slice())?;
    let origins = origins.as_slice();
    let parts = play_or_refuse(alloc, seed, rehearsal, dispatcher_changes, origins, watch)?;
    Ok(PlayedStory {
        parts,
        changes,
        start,
        ignored: dropped,
    })
}

/// Compares what each dispatcher of a story did with what it did under the other configuration, with dates if the story's start is given.
fn compare_played(
    alloc: Global,
    old: &PlayedStory,
    new: &PlayedStory,
) -> Result<Comparison, AllocError>
    ensures { IfOk result (λ compared. IsComparison (times_from old.now.start) old.now.changes.items old.now.parts.items
        new.now.parts.items compared.differs (string_bytes compared.text)) }
{
    let changes = old.changes.as_slice();
    let old_parts = old.parts.as_slice();
    let new_parts = new.parts.as_slice();
    match &old.start {
        None => compare_all(alloc, &Elapsed, changes, old_parts, new_parts),
        Some(start) => compare_all(alloc, start, changes, old_parts, new_parts),
    }
}

/// Compares what these dispatchers did. Between two dispatchers is a line on their change.
fn compare_all<C: TimeFormat>(
    alloc: Global,
    clock: &C,
    changes: &[Change],
    old: &[PlayedPart],
    new: &[PlayedPart],
) -> Result<Comparison, AllocError>
    ensures { IfOk result (λ compared. IsComparison (C.times clock.now) changes.now old.now new.now compared.differs
        (string_bytes compared.text)) }
{
    let mut text = String::new(alloc);
    let differs = match (old.split_first(), new.split_first()) {
        (Some((old_part, old)), Some((new_part, new))) => {
            let first = add_part(alloc, clock, old_part, new_part, &mut text)?;
            let later = add_later(alloc, clock, changes, old, new, &mut text)?;
            first || later
        }
        (None, None) => false,
        _ => true,
    };
    Ok(Comparison { text, differs })
}

/// Adds what the dispatchers after the first did, each behind the line on its change. Returns whether a notice differs.
fn add_later<C: TimeFormat>(
    alloc: Global,
    clock: &C,
    changes: &[Change],
    old: &[PlayedPart],
    new: &[PlayedPart],
    text: &mut String,
) -> Result<bool, AllocError>
    ensures same { IfOk result (λ differs. (differs ≡ false) ↔ SameParts old.now new.now) }
    ensures text { IfOk result (λ differs. differs ≡ false → string_bytes text.new
        ≡ string_bytes text.old ++ later_text (C.times clock.now) changes.now old.now) }
{
    match (old.split_first(), new.split_first()) {
        (Some((old_part, old)), Some((new_part, new))) => {
            let changes = push_first_change(clock, changes, text)?;
            let first = add_part(alloc, clock, old_part, new_part, text)?;
            let later = add_later(alloc, clock, changes, old, new, text)?;
            Ok(first || later)
        }
        (None, None) => Ok(false),
        _ => Ok(true),
    }
}

/// Adds the line on the first of these changes, if there is one, and returns the others.
fn push_first_change<'c, C: TimeFormat>(
    clock: &C,
    changes: &'c [Change],
    text: &mut String,
) -> Result<&'c [Change], AllocError>
    ensures { IfOk result (λ later. IsPushed (C.times clock.now) changes.now later.now (string_bytes text.old) (string_bytes text.new)) }
{
    match changes.split_first() {
        None => Ok(changes),
        Some((change, changes)) => {
            push_change(clock, change, text)?;
            Ok(changes)
        }
    }
}

/// Adds what a dispatcher did under two configurations. Returns whether a notice differs.
fn add_part<C: TimeFormat>(
    alloc: Global,
    clock: &C,
    old: &PlayedPart,
    new: &PlayedPart,
    text: &mut String,
) -> Result<bool, AllocError>
    ensures same { IfOk result (λ differs. (differs ≡ false) ↔ SamePart old.now new.now) }
    ensures text { IfOk result (λ differs. differs ≡ false
        → string_bytes text.new ≡ string_bytes text.old ++ same_text old.now) }
{
    let compared = compare_parts(alloc, clock, old, new)?;
    text.push_str(compared.text.as_str())?;
    Ok(compared.differs)
}

/// Compares what a dispatcher did under two configurations.
fn compare_parts<C: TimeFormat>(
    alloc: Global,
    clock: &C,
    old: &PlayedPart,
    new: &PlayedPart,
) -> Result<Comparison, AllocError>
    ensures same { IfOk result (λ compared. (compared.differs ≡ false) ↔ SamePart old.now new.now) }
    ensures text { IfOk result (λ compared. compared.differs ≡ false → string_bytes compared.text ≡ same_text old.now) }
{
    let old_log = logbook_of(alloc, &old.played)?;
    let new_log = logbook_of(alloc, &new.played)?;
    let old = Playback::new(&old_log, old.played.events.as_slice());
    let new = Playback::new(&new_log, new.played.events.as_slice());
    compare_notices(alloc, &old, &new, clock)
}

/// Adds the line on a change of dispatchers, between empty lines.
fn push_change<C: TimeFormat>(
    clock: &C,
    change: &Change,
    text: &mut String,
) -> Result<(), AllocError>
    ensures { OnOk result (string_bytes text.new ≡ string_bytes text.old ++ change_text (C.times clock.now) change.now) }
{
    text.push_str("\n")?;
    push_column(clock, change.at, text)?;
    text.push_str(change_word(change.carryover))
}

fn change_word(carryover: Carryover) -> &'static str
    ensures { result.now ≡ change_word carryover }
{
    match carryover {
        Carryover::All => "reload\n\n",
        Carryover::Log | Carryover::Nothing => "restart\n\n",
    }
}
