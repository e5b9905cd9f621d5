//! What decides whether a story is accepted: `read_input`, for `check`, `play` and `compare` alike. The faults of one that isn't
//! are all listed.
ghost use Rattle.std.specs.Prelude.{◌≡◌, IfErr, IfOk, IsTrue, option_map};
ghost use Rattle.serde_json.specs.View.{view};
ghost use Rattle.am_commands.specs.Accepted.{IsAccepted, value_of};
ghost use Rattle.am_console.specs.Complaints.{is_rejection};

use crate::given::given_to;
use crate::system_zones::SystemZones;
use am_command_line::exit_status::ExitStatus;
use am_console::console::{Console, Document};
use am_input::faults::{ReceiversOf, story_faults};
use am_input::input::{Changes, Input, Overrides, read_input};
use am_json::faults::{Faults, Refusal};
use serde_json::Value;
use std::rt::Files;

/// Reads a story under its own configuration, or under that of a file in its place. What is returned is what the story asks for. If it
/// is refused, this complains of all of its faults, and the error is the status.
pub fn accept<R: Files + Eprint + AllocGlobal>(
    rt: &R,
    console: &Console,
    story: &Document<'_>,
    config: Option<&Document<'_>>,
    overrides: Overrides,
) -> Result<Input, ExitStatus>
    ensures accepted { IfOk result (IsAccepted (value_of config.entry) overrides (view story.now.value)) }
    ensures complains { IfErr result (λ status. IsTrue (is_rejection status)) }
{
    let changes = Changes {
        config: value_of(config),
        overrides,
    };
    let mut files = SystemZones::new(rt);
    match read_input(rt.alloc(), &story.value, changes, &mut files) {
        Ok(input) => Ok(input),
        Err(refusal) => Err(complain_of_story(rt, console, story, config, overrides, refusal)),
    }
}

/// Returns the value of a document, if there is one.
fn value_of<'d>(document: Option<&'d Document<'_>>) -> Option<&'d Value>
    ensures { option_map (λ value. view value.now) result ≡ value_of document.entry }
{
    match document {
        None => None,
        Some(document) => Some(&document.value),
    }
}

/// Accepts a story whose configuration isn't known here: it has no faults of its own. The error is the status.
pub fn accept_alone<R: Files + Eprint + AllocGlobal>(
    rt: &R,
    console: &Console,
    story: &Document<'_>,
    overrides: Overrides,
) -> Result<(), ExitStatus>
    ensures complains { IfErr result (λ status. IsTrue (is_rejection status)) }
{
    let faults = faults_of(rt, console, story, ReceiversOf::Given(None), overrides)?;
    if faults.is_empty() {
        return Ok(());
    }
    Err(console.complain_of_faults(rt, story, &faults))
}

/// Complains of all faults of a story that was refused, or where none are found of what it was refused for, and returns the status.
pub fn complain_of_story<R: Files + Eprint + AllocGlobal>(
    rt: &R,
    console: &Console,
    story: &Document<'_>,
    config: Option<&Document<'_>>,
    overrides: Overrides,
    refusal: Refusal,
) -> ExitStatus
    ensures complains { IsTrue (is_rejection result) }
{
    match faults_under(rt, console, story, config, overrides) {
        Err(status) => status,
        Ok(faults) if faults.is_empty() => console.complain_of_refusal(rt, story, refusal),
        Ok(faults) => console.complain_of_faults(rt, story, &faults),
    }
}

/// Returns the faults of a story under its own configuration, or under that of a file. The error is the status, also where the file
/// itself is refused.
fn faults_under<R: Files + Eprint + AllocGlobal>(
    rt: &R,
    console: &Console,
    story: &Document<'_>,
    config: Option<&Document<'_>>,
    overrides: Overrides,
) -> Result<Faults, ExitStatus>
    ensures complains { IfErr result (λ status. IsTrue (is_rejection status)) }
{
    let Some(config) = config else {
        return faults_of(rt, console, story, ReceiversOf::Own, overrides);
    };
    let configured = given_to(rt, console, story, config, overrides)?;
    let receivers = ReceiversOf::Given(Some(&configured));
    faults_of(rt, console, story, receivers, overrides)
}

/// Returns the faults of a story. The error is the status where there was no memory.
fn faults_of<R: Files + Eprint + AllocGlobal>(
    rt: &R,
    console: &Console,
    story: &Document<'_>,
    receivers: ReceiversOf<'_>,
    overrides: Overrides,
) -> Result<Faults, ExitStatus>
    ensures { IfErr result (λ status. status ≡ ExitStatus.NoMemory) }
{
    let mut files = SystemZones::new(rt);
    match story_faults(rt.alloc(), &story.value, receivers, overrides, &mut files) {
        Ok(faults) => Ok(faults),
        Err(_) => Err(console.complain_of_memory(rt)),
    }
}
