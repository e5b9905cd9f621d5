//! The files of the stories that a command line names: files, and those of folders.
ghost use Rattle.std.specs.Prelude.{◌<◌, IfErr, IfOk, IsTrue, length, vec_len};
ghost use Rattle.am_console.specs.Complaints.{is_complaint, is_rejection};

use am_command_line::exit_status::ExitStatus;
use am_command_line::request::PlayRequest;
use am_commands::folders::add_files;
use am_commands::once::accept_inputs;
use am_console::console::Console;
use std::rt::Files;

/// Returns the files of the stories that the command line names: of a folder its files in YAML or JSON, in the order of
/// their names. The error is the status.
pub(crate) fn story_files<R: Files + Eprint + AllocGlobal + Clone + Drop>(
    rt: &R,
    console: &Console,
    request: &PlayRequest<'_>,
) -> Result<Vec<String>, ExitStatus>
    ensures each { IfOk result (λ files. length request.now.others.items < vec_len files) }
    ensures complains { IfErr result (λ status. IsTrue (is_complaint status)) }
{
    accept_all(rt, console, request)?;
    let mut files = Vec::new(rt.alloc());
    add_files(rt, console, request.story, &mut files)?;
    for story in request.others.as_slice() {
        add_files(rt, console, story, &mut files)?;
    }
    if files.len() > 1 && request.output == Some("html") {
        let _ = eprintln!(rt; "am-rehearse: --output html is for one story");
        return Err(ExitStatus::Rejected);
    }
    Ok(files)
}

/// Refuses standard input as two of the files. The error is the status.
fn accept_all<R: Eprint + AllocGlobal>(
    rt: &R,
    console: &Console,
    request: &PlayRequest<'_>,
) -> Result<(), ExitStatus>
    ensures { IfErr result (λ status. IsTrue (is_rejection status)) }
{
    let mut inputs = Vec::new(rt.alloc());
    let config = request.config.unwrap_or("");
    if inputs.push(request.story).is_err() || inputs.push(config).is_err() {
        return Err(console.complain_of_memory(rt));
    }
    for story in request.others.as_slice() {
        if inputs.push(*story).is_err() {
            return Err(console.complain_of_memory(rt));
        }
    }
    accept_inputs(rt, inputs.as_slice())
}
