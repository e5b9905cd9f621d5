//! What `play` says of a story that doesn't run, or isn't as expected.
ghost use Rattle.am_render.specs.Faults.{FaultEndsWith};

use crate::play::Run;
use am_command_line::exit_status::ExitStatus;
use am_commands::faults::complain_of_story;
use am_console::console::{Console, Document};
use am_json::fault::InputFault;
use am_json::faults::Refusal;
use am_render::fault::RehearseFault;
use std::rt::Files;

/// Complains of what ended the run of a story, and returns the status.
pub(crate) fn complain_of_fault<R: Files + Eprint + AllocGlobal>(
    rt: &R,
    console: &Console,
    run: Run<'_>,
    story: &Document<'_>,
    fault: RehearseFault,
) -> ExitStatus
    ensures { FaultEndsWith fault result }
{
    let config = run.config;
    let overrides = run.changes.overrides;
    match fault {
        RehearseFault::Refused {
            pointer,
            fault_kind,
        } => {
            let fault = InputFault::Refused {
                pointer,
                fault_kind,
            };
            complain_of_story(rt, console, story, config, overrides, Refusal::One(fault))
        }
        RehearseFault::AllRefused { faults } => {
            complain_of_story(rt, console, story, config, overrides, Refusal::All(faults))
        }
        fault => print_fault(rt, &fault),
    }
}

/// Prints a fault that has no pointer, and returns the status.
fn print_fault<R: Eprint>(rt: &R, fault: &RehearseFault) -> ExitStatus
    ensures { FaultEndsWith fault.now result }
{
    let _ = eprintln!(rt; "{fault}");
    fault.status()
}

/// Says of each expectation of these numbers that it isn't met, and where it is. Then it says so of the story.
pub(crate) fn point_at_unmet<R: Files + Eprint + AllocGlobal>(
    rt: &R,
    console: &Console,
    story: &Document<'_>,
    unmet: &[usize],
) {
    for number in unmet {
        if let Ok(pointer) = format!(in rt.alloc(); "/expect/{number}") {
            let words = "this expectation isn't met";
            let _ = console.complain_in_words(rt, story, pointer.as_str(), words);
        }
    }
    let _ = print_fault(rt, &RehearseFault::Unmet);
}
