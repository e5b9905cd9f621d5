//! `am-rehearse` runs alerts, silences and outages against a configuration on a simulated clock. It
//! prints which notice is sent when, to whom and why, and why others aren't.
//!
//! `am_command_line` reads its command line. Without any word it plays the story on standard input. It
//! prints each fault to standard error, with file, line and column, and ends with the fault's status.
//! `play` and `compare` draw a seed for their hashes.
#![tactic(auto)]

mod asked;
mod compare;
mod complaints;
mod overheard;
mod play;
mod play_options;
mod story_files;
mod suites;
mod tally;
mod unknown;

use crate::compare::compare;
use crate::play::play;
use am_command_line::completions::completions;
use am_command_line::exit_status::ExitStatus;
use am_command_line::manual::manual;
use am_command_line::request::{
    Color, CompareRequest, FaultFormat, PlayRequest, Request, StoryRequest, Style, read_request,
};
use am_commands::check::check;
use am_commands::json::json;
use am_commands::routes::{RoutesRequest, routes};
use am_commands::story::story;
use am_console::console::Console;
use am_console::files::PaintedOutput;
use am_json::device::{StandardInput, StandardOutput};
use am_seed::Seed;
use clap::error::ErrorKind;
use std::alloc::AllocError;
use std::env;
use std::io::{self, IsTerminal};
use std::process::ExitCode;

fn main(rt: HostRuntime) -> ExitCode {
    ExitCode::from(serve(&rt).code())
}

/// Does what the command line asks for, and returns the status.
fn serve(rt: &HostRuntime) -> ExitStatus {
    let words = match words_of(rt) {
        Ok(words) => words,
        Err(fault) if fault.kind() == io::ErrorKind::OutOfMemory => {
            let _ = eprintln!(rt; "am-rehearse: no memory");
            return ExitStatus::NoMemory;
        }
        Err(_) => {
            let _ = eprintln!(rt; "am-rehearse: a word of the command line isn't UTF-8");
            return ExitStatus::Rejected;
        }
    };
    match read_request(rt.alloc(), words.as_slice()) {
        Ok(request) => answer(rt, request),
        Err(refused) => {
            let _ = refused.print(rt);
            match refused.kind() {
                ErrorKind::DisplayHelp | ErrorKind::DisplayVersion => ExitStatus::Done,
                ErrorKind::OutOfMemory => ExitStatus::NoMemory,
                _ => ExitStatus::Rejected,
            }
        }
    }
}

/// Returns the words of the command line, the program's name first.
fn words_of(rt: &HostRuntime) -> io::Result<Vec<String>> {
    Ok(env::args(rt)?.collect(rt.alloc())?)
}

/// Does what is asked for, and returns the status. Each command makes its console, so no function lets go of several
/// values at each of its ends: such a one is very dear to prove.
fn answer(rt: &HostRuntime, request: Request<'_>) -> ExitStatus {
    match request {
        Request::Play(request) => answer_play(rt, &request),
        Request::Compare(request) => answer_compare(rt, request),
        Request::Story(request) => answer_story(rt, &request),
        Request::Check {
            files,
            config,
            style,
        } => answer_check(rt, files.as_slice(), config, style),
        Request::Routes {
            file,
            labels,
            verify,
            style,
        } => {
            let request = RoutesRequest {
                file,
                labels: labels.as_slice(),
                verify,
            };
            answer_routes(rt, request, style)
        }
        Request::Json { files, style } => answer_json(rt, files.as_slice(), style),
        Request::Manual => print(rt, manual(rt.alloc())),
        Request::Completions => print(rt, completions(rt.alloc())),
    }
}

fn answer_play(rt: &HostRuntime, request: &PlayRequest<'_>) -> ExitStatus {
    let seed = match draw_seed(rt) {
        Ok(seed) => seed,
        Err(status) => return status,
    };
    let is_timeline = matches!(request.output, None | Some("timeline" | "notices"));
    let mut console = console_for(rt, request.style, is_timeline);
    play(rt, seed, &mut console, request)
}

fn answer_compare(rt: &HostRuntime, request: CompareRequest<'_>) -> ExitStatus {
    let seed = match draw_seed(rt) {
        Ok(seed) => seed,
        Err(status) => return status,
    };
    let mut console = console_for(rt, request.style, false);
    compare(rt, seed, &mut console, request)
}

/// Draws what the hashes of a rehearsal start from. The error is the status.
fn draw_seed(rt: &HostRuntime) -> Result<Seed, ExitStatus> {
    match Seed::draw(rt) {
        Ok(seed) => Ok(seed),
        Err(_) => {
            let _ = eprintln!(rt; "am-rehearse: no random numbers");
            Err(ExitStatus::Unreadable)
        }
    }
}

fn answer_story(rt: &HostRuntime, request: &StoryRequest<'_>) -> ExitStatus {
    let mut console = console_for(rt, request.style, false);
    story(rt, &mut console, request)
}

fn answer_check(
    rt: &HostRuntime,
    files: &[&str],
    config: Option<&str>,
    style: Style,
) -> ExitStatus {
    let mut console = console_for(rt, style, false);
    check(rt, &mut console, files, config)
}

fn answer_routes(rt: &HostRuntime, request: RoutesRequest<'_, '_>, style: Style) -> ExitStatus {
    let mut console = console_for(rt, style, false);
    routes(rt, &mut console, request)
}

fn answer_json(rt: &HostRuntime, files: &[&str], style: Style) -> ExitStatus {
    let mut console = console_for(rt, style, false);
    json(rt, &mut console, files)
}

/// Prints a text that was made, and returns the status.
fn print(rt: &HostRuntime, text: Result<String, AllocError>) -> ExitStatus {
    let style = Style {
        color: Color::Never,
        format: FaultFormat::Text,
    };
    let mut console = console_for(rt, style, false);
    match text {
        Ok(text) => console.print(rt, text.as_str()),
        Err(_) => console.complain_of_memory(rt),
    }
}

/// Returns the console of a command that prints in this style. Its output has colors if it `may_be_colored`.
fn console_for(rt: &HostRuntime, style: Style, may_be_colored: bool) -> Console {
    let stdout = rt.stdout();
    let is_colored_output = may_be_colored && is_colored(rt, style.color, stdout.is_terminal());
    Console {
        input: StandardInput::new(rt.stdin()),
        output: PaintedOutput::new(rt.alloc(), StandardOutput::new(stdout), is_colored_output),
        format: style.format,
        is_colored: is_colored(rt, style.color, rt.stderr().is_terminal()),
        is_terminal: rt.stderr().is_terminal(),
    }
}

/// Returns whether colors are used: `auto` uses them in a terminal, unless `NO_COLOR` is set.
fn is_colored(rt: &HostRuntime, color: Color, is_terminal: bool) -> bool {
    match color {
        Color::Always => true,
        Color::Never => false,
        Color::Auto => is_terminal && !is_set(rt, "NO_COLOR"),
    }
}

/// Returns whether a variable of the environment has a value.
fn is_set(rt: &HostRuntime, name: &str) -> bool {
    match env::var(rt, name) {
        Ok(value) => !value.is_empty(),
        Err(_) => false,
    }
}
