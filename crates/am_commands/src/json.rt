//! `am-rehearse json`: prints files as the JSON that is read in them.
ghost use Rattle.std.specs.Prelude.{◌≡◌, ◌⊎◌, IfErr, IfOk, OnOk, map, string_bytes};
ghost use Rattle.serde_json.specs.View.{view};
ghost use Rattle.am_commands.specs.Inputs.{ReadsTwice};
ghost use Rattle.am_commands.specs.JsonLines.{EndFiles, EndsFile, IsJsonOf, IsValueLine, first_fault};
ghost use Rattle.am_commands.specs.Lines.{Adds};

use crate::once::accept_inputs;
use am_command_line::exit_status::ExitStatus;
use am_console::console::Console;
use am_console::files::PaintedOutput;
use am_json::device::{Sink, Source, StandardInput};
use serde_json::Value;
use std::alloc::{AllocError, Global};
use std::rt::Files;

/// Prints the value of each file on a line, and returns the status: that of the first file that isn't read, if there is one.
///
/// It is `Done` only if each file was read, and the line of each was written, in order. Standard input, whose path is `-`, gave the text
/// whose value is printed. It is `Rejected` only if standard input is two of the files, or the text of one is no JSON.
pub fn json<R: Files + Eprint + AllocGlobal>(
    rt: &R,
    console: &mut Console,
    files: &[&str],
) -> ExitStatus
    ensures done { result ≡ ExitStatus.Done → Adds (EndFiles (map (λ file. file.now) files.now)
        (⟦<StandardInput as Source>⟧.given console.old.input) (⟦<StandardInput as Source>⟧.given console.new.input) ExitStatus.Done)
        (⟦<PaintedOutput as Sink>⟧.taken console.old.output) (⟦<PaintedOutput as Sink>⟧.taken console.new.output) }
    ensures unreadable { result ≡ ExitStatus.Unreadable → Adds (EndFiles (map (λ file. file.now) files.now)
        (⟦<StandardInput as Source>⟧.given console.old.input) (⟦<StandardInput as Source>⟧.given console.new.input) ExitStatus.Unreadable)
        (⟦<PaintedOutput as Sink>⟧.taken console.old.output) (⟦<PaintedOutput as Sink>⟧.taken console.new.output) }
    ensures rejected { result ≡ ExitStatus.Rejected → ReadsTwice (map (λ file. file.now) files.now)
        ⊎ Adds (EndFiles (map (λ file. file.now) files.now)
        (⟦<StandardInput as Source>⟧.given console.old.input) (⟦<StandardInput as Source>⟧.given console.new.input) ExitStatus.Rejected)
        (⟦<PaintedOutput as Sink>⟧.taken console.old.output) (⟦<PaintedOutput as Sink>⟧.taken console.new.output) }
{
    if let Err(refused) = accept_inputs(rt, files) {
        return refused;
    }
    let mut status = ExitStatus::Done;
    let mut lines = String::new(rt.alloc());
    for path in files {
        match push_file(rt, console, path, &mut lines) {
            Ok(ended) => status = first_fault(status, ended),
            Err(ended) => return ended,
        }
    }
    match console.print(rt, lines.as_str()) {
        ExitStatus::Done => status,
        unwritten => unwritten,
    }
}

/// Returns the first of two statuses that isn't `Done`, if there is one.
pub(crate) fn first_fault(status: ExitStatus, later: ExitStatus) -> ExitStatus
    ensures { result ≡ first_fault status later }
{
    match status {
        ExitStatus::Done => later,
        fault => fault,
    }
}

/// Adds the line of a file, if it is read, and returns the file's status. The error is a status that ends all.
fn push_file<R: Files + Eprint + AllocGlobal>(
    rt: &R,
    console: &mut Console,
    path: &str,
    lines: &mut String,
) -> Result<ExitStatus, ExitStatus>
    ensures ended { IfOk result (λ status. Adds (EndsFile path.now
        (⟦<StandardInput as Source>⟧.given console.old.input) (⟦<StandardInput as Source>⟧.given console.new.input) status)
        (string_bytes lines.old) (string_bytes lines.new)) }
    ensures stops { IfErr result (λ status. status ≡ ExitStatus.NoMemory) }
    ensures silent { console.new.output ≡ console.old.output }
{
    let document = match console.read(rt, path) {
        Ok(document) => document,
        Err(status) => return Ok(status),
    };
    match push_line(rt.alloc(), &document.value, lines) {
        Ok(()) => Ok(ExitStatus::Done),
        Err(_) => Err(console.complain_of_memory(rt)),
    }
}

/// Adds a value as JSON in a line.
fn push_line(alloc: Global, value: &Value, lines: &mut String) -> Result<(), AllocError>
    ensures { OnOk result (Adds (IsValueLine (view value.now)) (string_bytes lines.old) (string_bytes lines.new)) }
{
    let json = line_of(alloc, value)?;
    lines.push_str(json.as_str())?;
    lines.push_str("\n")
}

/// Returns a value as JSON in one line. Read as JSON, the line is that value.
pub fn line_of(alloc: Global, value: &Value) -> Result<String, AllocError>
    ensures { IfOk result (λ line. IsJsonOf (view value.now) (string_bytes line)) }
{
    value.to_string(alloc)
}
