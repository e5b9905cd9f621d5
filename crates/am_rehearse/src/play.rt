//! `am-rehearse play`: simulates stories.
//!
//! `play` finds their files, `play_file` reads one, and `play_story` has it played and printed (`run::play_value`). Each complains of
//! what is wrong, and returns the status.
ghost use Rattle.std.specs.Prelude.{◌≡◌, ◌≢◌, ◌⊎◌, ◌<◌, ◌↔◌, false, true, length, IfErr, IfOk, IsTrue, OnOk};
ghost use Rattle.serde_json.specs.View.{view};
ghost use Rattle.am_console.specs.Complaints.{is_rejection};
ghost use Rattle.am_rehearse.specs.Ended.{EndsWith, IsHeaded, IsPageOfSeveral, PlaysAll, PlaysEach, PlaysFile, PlaysStory, PlaysUnder};
ghost use Rattle.am_rehearse.specs.Ended.{RejectsStory, is_stop};
ghost use Rattle.am_render.specs.Faults.{Refuses, status_of};
ghost use Rattle.am_render.specs.Printed.{WritesOutput};

use crate::complaints::{complain_of_fault, point_at_unmet};
use crate::overheard::Overheard;
use crate::play_options::{options_of, overrides_of};
use crate::story_files::story_files;
use crate::suites::Suites;
use crate::tally::Tally;
use crate::unknown::refuse_unknown;
use am_command_line::exit_status::ExitStatus;
use am_command_line::request::PlayRequest;
use am_commands::ignored::say_ignored;
use am_commands::reload_files::read_reload_files;
use am_commands::system_zones::SystemZones;
use am_commands::wrapped::read_configuration;
use am_console::console::{Console, Document, shown};
use am_console::files::PaintedOutput;
use am_console::progress::Progress;
use am_input::input::Changes;
use am_json::device::Sink;
use am_render::fault::RehearseFault;
use am_render::output_options::OutputOptions;
use am_render::run::{Judgement, Order, Report, play_value};
use am_seed::Seed;
use am_yaml::document::read_document;
use serde_json::Value;
use std::fs;
use std::rt::Files;
use std::time::Clock;

/// A story that is simulated, and what the command line says of all.
#[derive(Clone, Copy)]
pub struct Run<'r> {
    pub request: &'r PlayRequest<'r>,
    /// What the hashes start from.
    pub seed: Seed,
    pub path: &'r str,
    /// Whether it is the only story.
    pub is_alone: bool,
    /// The configuration that the command line names.
    pub config: Option<&'r Document<'r>>,
    /// What takes the place of a story's own.
    pub changes: Changes<'r>,
}

/// How the run of a story ended, and what became of its expectations.
#[derive(Drop)]
struct Ended {
    result: Result<(), RehearseFault>,
    judgement: Judgement,
}

/// Simulates stories, and returns the status: of several the least that isn't 0. Hashes start from this seed.
///
/// It is `Done` only if the output that is asked for of each story was written, one behind the other, and each rehearsal met each
/// expectation. It is `Unmet` only if they were written so, and one expectation isn't met.
pub fn play<R: Files + Eprint + AllocGlobal + Clock + Clone + Drop>(
    rt: &R,
    seed: Seed,
    console: &mut Console,
    request: &PlayRequest<'_>,
) -> ExitStatus
    ensures done { result ≡ ExitStatus.Done → PlaysAll request.now true
        (⟦<PaintedOutput as Sink>⟧.taken console.old.output) (⟦<PaintedOutput as Sink>⟧.taken console.new.output) }
    ensures unmet { result ≡ ExitStatus.Unmet → PlaysAll request.now false
        (⟦<PaintedOutput as Sink>⟧.taken console.old.output) (⟦<PaintedOutput as Sink>⟧.taken console.new.output) }
{
    match try_play(rt, seed, console, request) {
        Ok(status) | Err(status) => status,
    }
}

fn try_play<R: Files + Eprint + AllocGlobal + Clock + Clone + Drop>(
    rt: &R,
    seed: Seed,
    console: &mut Console,
    request: &PlayRequest<'_>,
) -> Result<ExitStatus, ExitStatus>
    ensures done { IfOk result (λ status. status ≡ ExitStatus.Done → PlaysAll request.now true
        (⟦<PaintedOutput as Sink>⟧.taken console.old.output) (⟦<PaintedOutput as Sink>⟧.taken console.new.output)) }
    ensures unmet { IfOk result (λ status. status ≡ ExitStatus.Unmet → PlaysAll request.now false
        (⟦<PaintedOutput as Sink>⟧.taken console.old.output) (⟦<PaintedOutput as Sink>⟧.taken console.new.output)) }
    ensures stops { IfErr result (λ status. IsTrue (is_stop status)) }
{
    let overrides = overrides_of(rt, request)?;
    let paths = story_files(rt, console, request)?;
    let run = Run {
        request,
        seed,
        path: "",
        is_alone: paths.len() == 1,
        config: None,
        changes: Changes {
            config: None,
            overrides,
        },
    };
    play_under(rt, console, run, paths.as_slice())
}

/// Simulates each of these stories under the configuration that the command line names, if it names one. The error is the status.
fn play_under<R: Files + Eprint + AllocGlobal + Clock>(
    rt: &R,
    console: &mut Console,
    run: Run<'_>,
    paths: &[String],
) -> Result<ExitStatus, ExitStatus>
    requires { run.changes.config ≡ None }
    ensures done { IfOk result (λ status. status ≡ ExitStatus.Done → PlaysUnder run.entry.request.now run.entry.changes.overrides
        run.entry.is_alone true (length paths.now) (⟦<PaintedOutput as Sink>⟧.taken console.old.output)
        (⟦<PaintedOutput as Sink>⟧.taken console.new.output)) }
    ensures unmet { IfOk result (λ status. status ≡ ExitStatus.Unmet → PlaysUnder run.entry.request.now run.entry.changes.overrides
        run.entry.is_alone false (length paths.now) (⟦<PaintedOutput as Sink>⟧.taken console.old.output)
        (⟦<PaintedOutput as Sink>⟧.taken console.new.output)) }
    ensures stops { IfErr result (λ status. IsTrue (is_stop status)) }
{
    let Some(path) = run.request.config else {
        return play_each(rt, console, run, paths);
    };
    let config = read_configuration(rt, console, path)?;
    let run = Run {
        config: Some(&config),
        changes: Changes {
            config: Some(&config.value),
            overrides: run.changes.overrides,
        },
        ..run
    };
    play_each(rt, console, run, paths)
}

/// Simulates each of these stories, and writes the report on the expectations of all. The error is the status.
fn play_each<R: Files + Eprint + AllocGlobal + Clock>(
    rt: &R,
    console: &mut Console,
    run: Run<'_>,
    paths: &[String],
) -> Result<ExitStatus, ExitStatus>
    ensures done { IfOk result (λ status. status ≡ ExitStatus.Done → PlaysEach run.entry.request.now run.entry.changes
        run.entry.is_alone true (length paths.now) (⟦<PaintedOutput as Sink>⟧.taken console.old.output)
        (⟦<PaintedOutput as Sink>⟧.taken console.new.output)) }
    ensures unmet { IfOk result (λ status. status ≡ ExitStatus.Unmet → PlaysEach run.entry.request.now run.entry.changes
        run.entry.is_alone false (length paths.now) (⟦<PaintedOutput as Sink>⟧.taken console.old.output)
        (⟦<PaintedOutput as Sink>⟧.taken console.new.output)) }
    ensures stops { IfErr result (λ status. IsTrue (is_stop status)) }
{
    let mut suites = Suites::new(rt.alloc());
    let mut tally = Tally::none();
    for path in paths {
        let run = Run {
            path: path.as_str(),
            ..run
        };
        say_name(rt, console, run)?;
        tally.add(play_one(rt, console, run, &mut suites)?);
    }
    if !run.is_alone {
        tally.say(rt);
    }
    write_junit(rt, console, run.request.junit, &suites)?;
    Ok(tally.status())
}

/// Prints the name of one of several stories above its output, unless that is lines of JSON. The error is the status.
fn say_name<R: Files + Eprint + AllocGlobal>(
    rt: &R,
    console: &mut Console,
    run: Run<'_>,
) -> Result<(), ExitStatus>
    ensures named { OnOk result (IsHeaded run.entry.is_alone
        (⟦<PaintedOutput as Sink>⟧.taken console.old.output) (⟦<PaintedOutput as Sink>⟧.taken console.new.output)) }
    ensures stops { IfErr result (λ status. IsTrue (is_stop status)) }
{
    if run.is_alone || run.request.output == Some("json") {
        return Ok(());
    }
    let Ok(line) = format!(in rt.alloc(); "# {}\n", shown(run.path)) else {
        return Err(console.complain_of_memory(rt));
    };
    match console.print(rt, line.as_str()) {
        ExitStatus::Done => Ok(()),
        status => Err(status),
    }
}

/// Simulates a story, prints what is wanted of it, and returns its status. The error is a status that ends all.
fn play_one<R: Files + Eprint + AllocGlobal + Clock>(
    rt: &R,
    console: &mut Console,
    run: Run<'_>,
    suites: &mut Suites,
) -> Result<ExitStatus, ExitStatus>
    ensures done { IfOk result (λ status. status ≡ ExitStatus.Done → PlaysFile run.entry.request.now run.entry.changes true
        (⟦<PaintedOutput as Sink>⟧.taken console.old.output) (⟦<PaintedOutput as Sink>⟧.taken console.new.output)) }
    ensures unmet { IfOk result (λ status. status ≡ ExitStatus.Unmet → PlaysFile run.entry.request.now run.entry.changes false
        (⟦<PaintedOutput as Sink>⟧.taken console.old.output) (⟦<PaintedOutput as Sink>⟧.taken console.new.output)) }
    ensures only { IfOk result (λ status. status ≢ ExitStatus.Differs) }
    ensures stops { IfErr result (λ status. IsTrue (is_stop status)) }
{
    let heard = Overheard::new(rt);
    match play_file(&heard, console, run, suites) {
        ExitStatus::Rejected => {
            add_error(rt, console, run.path, &heard, suites)?;
            Ok(ExitStatus::Rejected)
        }
        ExitStatus::Unreadable => {
            add_error(rt, console, run.path, &heard, suites)?;
            Ok(ExitStatus::Unreadable)
        }
        ExitStatus::Done => Ok(ExitStatus::Done),
        ExitStatus::Unmet => Ok(ExitStatus::Unmet),
        status => Err(status),
    }
}

/// Adds that a story didn't run, with what was said of it. The error is the status.
fn add_error<R: Eprint + AllocGlobal>(
    rt: &R,
    console: &Console,
    path: &str,
    heard: &Overheard<'_, R>,
    suites: &mut Suites,
) -> Result<(), ExitStatus>
    ensures { IfErr result (λ status. status ≡ ExitStatus.NoMemory) }
{
    let added = match heard.lines() {
        Ok(lines) => suites.add_error(path, lines.as_str()),
        Err(refused) => Err(refused),
    };
    match added {
        Ok(()) => Ok(()),
        Err(_) => Err(console.complain_of_memory(rt)),
    }
}

/// Simulates the story of a file, prints what is wanted of it, and returns its status.
fn play_file<R: Files + Eprint + AllocGlobal + Clock>(
    rt: &R,
    console: &mut Console,
    run: Run<'_>,
    suites: &mut Suites,
) -> ExitStatus
    ensures done { result ≡ ExitStatus.Done → PlaysFile run.entry.request.now run.entry.changes true
        (⟦<PaintedOutput as Sink>⟧.taken console.old.output) (⟦<PaintedOutput as Sink>⟧.taken console.new.output) }
    ensures unmet { result ≡ ExitStatus.Unmet → PlaysFile run.entry.request.now run.entry.changes false
        (⟦<PaintedOutput as Sink>⟧.taken console.old.output) (⟦<PaintedOutput as Sink>⟧.taken console.new.output) }
{
    let mut story = match console.read(rt, run.path) {
        Ok(story) => story,
        Err(status) => return status,
    };
    match read_reload_files(rt, console, &mut story, run.changes.overrides) {
        Ok(()) => play_story(rt, console, run, &mut story, suites),
        Err(status) => status,
    }
}

/// Simulates the story of a document, prints what is wanted of it, and returns its status.
///
/// It is `Done` only if the output that is asked for was written once and whole, and the rehearsal met each expectation; `Unmet` only if
/// the output was written so, and one isn't met. It is `Rejected` only for a cause (`RejectsStory`), and then nothing was written. It is
/// `Unwritable` exactly if a write failed. `NoMemory` can come after the output was written.
pub fn play_story<R: Files + Eprint + AllocGlobal + Clock>(
    rt: &R,
    console: &mut Console,
    run: Run<'_>,
    story: &mut Document<'_>,
    suites: &mut Suites,
) -> ExitStatus
    ensures done { result ≡ ExitStatus.Done → PlaysStory run.entry.request.now run.entry.changes true (view story.old.value)
        (⟦<PaintedOutput as Sink>⟧.taken console.old.output) (⟦<PaintedOutput as Sink>⟧.taken console.new.output) }
    ensures unmet { result ≡ ExitStatus.Unmet → PlaysStory run.entry.request.now run.entry.changes false (view story.old.value)
        (⟦<PaintedOutput as Sink>⟧.taken console.old.output) (⟦<PaintedOutput as Sink>⟧.taken console.new.output) }
    ensures rejected { result ≡ ExitStatus.Rejected → RejectsStory run.entry.request.now run.entry.is_alone run.entry.changes
        (view story.old.value) }
    ensures silent { result ≡ ExitStatus.Rejected → console.new.output ≡ console.old.output }
    ensures unwritable { (result ≡ ExitStatus.Unwritable) ↔ (⟦<PaintedOutput as Sink>⟧.failed console.old.output
        < ⟦<PaintedOutput as Sink>⟧.failed console.new.output) }
    ensures only { (result ≢ ExitStatus.Unreadable) × (result ≢ ExitStatus.Differs) }
{
    if let Err(status) = refuse_page(rt, console, run, story) {
        return status;
    }
    let selection = &run.request.selection;
    if let Err(status) = refuse_unknown(rt, console, selection, story, run.changes) {
        return status;
    }
    let options = match options_of(rt, run.seed, console, run.request, run.path) {
        Ok(options) => options,
        Err(status) => return status,
    };
    let mut report = Report::nothing(rt.alloc());
    let ended = play_document(rt, console, run, story, &options, &mut report);
    say_ignored(rt, run.request.config.unwrap_or(run.path), report.ignored);
    let ended = Ended {
        result: ended,
        judgement: report.judgement,
    };
    conclude(rt, console, run, story, ended, suites)
}

/// Plays the value of a document, which it lets go before the play. Where that ends at a limit it is read again, for complaints.
fn play_document<R: Files + Eprint + AllocGlobal + Clock>(
    rt: &R,
    console: &mut Console,
    run: Run<'_>,
    story: &mut Document<'_>,
    options: &OutputOptions,
    report: &mut Report,
) -> Result<(), RehearseFault>
    ensures unwritable { (result ≡ Err RehearseFault.Unwritable)
        ↔ (⟦<PaintedOutput as Sink>⟧.failed console.old.output < ⟦<PaintedOutput as Sink>⟧.failed console.new.output) }
    ensures unwritten { IfErr result (λ fault.
        fault ≢ RehearseFault.Unwritable → fault ≢ RehearseFault.Unmet → console.new.output ≡ console.old.output) }
    ensures met { OnOk result (WritesOutput run.entry.changes options.now true (view story.old.value)
        (⟦<PaintedOutput as Sink>⟧.taken console.old.output) (⟦<PaintedOutput as Sink>⟧.taken console.new.output)) }
    ensures unmet { IfErr result (λ fault. fault ≡ RehearseFault.Unmet →
        WritesOutput run.entry.changes options.now false (view story.old.value)
        (⟦<PaintedOutput as Sink>⟧.taken console.old.output) (⟦<PaintedOutput as Sink>⟧.taken console.new.output)) }
    ensures refused { IfErr result (λ fault. status_of fault ≡ 2 → Refuses run.entry.changes (view story.old.value) fault) }
{
    let order = Order {
        alloc: rt.alloc(),
        changes: run.changes,
        options,
    };
    let mut files = SystemZones::new(rt);
    let mut watch = Progress::begin(rt, console.is_terminal);
    let ended = play_value(
        order,
        &mut story.value,
        &mut files,
        &mut watch,
        &mut console.output,
        report,
    );
    if matches!(ended, Err(RehearseFault::Refused { .. })) && story.value.is_null() {
        if let Ok(value) = read_document(rt.alloc(), story.text.as_slice()) {
            story.value = value;
        }
    }
    ended
}

/// Refuses a page as the own output of one of several stories. The error is the status.
fn refuse_page<R: Eprint + AllocGlobal>(
    rt: &R,
    console: &Console,
    run: Run<'_>,
    story: &Document<'_>,
) -> Result<(), ExitStatus>
    ensures complains { IfErr result (λ status. IsTrue (is_rejection status)) }
    ensures refused { IfErr result (λ _. IsPageOfSeveral run.entry.is_alone run.entry.changes (view story.now.value)) }
{
    let output = story.value.get("output").and_then(Value::as_str);
    if run.is_alone || run.changes.overrides.output.is_some() || output != Some("html") {
        return Ok(());
    }
    let words = "a page is for one story; play this one alone, or give --output";
    Err(console.complain_in_words(rt, story, "/output", words))
}

/// Says what a run came to, adds its suite to the report, and returns its status.
fn conclude<R: Files + Eprint + AllocGlobal>(
    rt: &R,
    console: &Console,
    run: Run<'_>,
    story: &Document<'_>,
    ended: Ended,
    suites: &mut Suites,
) -> ExitStatus
    ensures { EndsWith ended.result result }
{
    let Ended { result, judgement } = ended;
    match result {
        Ok(()) => {
            say_found(rt, &judgement);
            add_suite(rt, console, story, &judgement, ExitStatus::Done, suites)
        }
        Err(RehearseFault::Unmet) => {
            say_found(rt, &judgement);
            point_at_unmet(rt, console, story, judgement.unmet.as_slice());
            add_suite(rt, console, story, &judgement, ExitStatus::Unmet, suites)
        }
        Err(fault) => complain_of_fault(rt, console, run, story, fault),
    }
}

/// Says that the command line names what no flush is of, if it does.
fn say_found<R: Eprint>(rt: &R, judgement: &Judgement) {
    if judgement.found_nothing {
        let _ = eprintln!(rt;
            "am-rehearse: no flush is of what --receiver, --group and --alert name; its lines are all left out"
        );
    }
}

/// Adds the suite of a story that ended with a status, if there is one. Returns the status.
fn add_suite<R: Eprint + AllocGlobal>(
    rt: &R,
    console: &Console,
    story: &Document<'_>,
    judgement: &Judgement,
    status: ExitStatus,
    suites: &mut Suites,
) -> ExitStatus
    ensures { (result ≡ status) ⊎ (result ≡ ExitStatus.NoMemory) }
{
    let Some(suite) = &judgement.junit else {
        return status;
    };
    match suites.add(story.path, story.text.as_slice(), suite.as_str()) {
        Ok(()) => status,
        Err(_) => console.complain_of_memory(rt),
    }
}

/// Writes the report on the expectations to the file that the command line names, if it names one. The error is the status.
fn write_junit<R: Files + Eprint + AllocGlobal>(
    rt: &R,
    console: &Console,
    file: Option<&str>,
    suites: &Suites,
) -> Result<(), ExitStatus>
    ensures stops { IfErr result (λ status. IsTrue (is_stop status)) }
{
    let Some(path) = file else {
        return Ok(());
    };
    let Ok(text) = suites.whole() else {
        return Err(console.complain_of_memory(rt));
    };
    if fs::write(rt, path, text.as_str()).is_ok() {
        return Ok(());
    }
    let _ = eprintln!(rt; "am-rehearse: {path}: not writable");
    Err(ExitStatus::Unwritable)
}
