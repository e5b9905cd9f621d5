//! `am-dispatch`: a board as a child process of a program in any language.
//!
//! It reads one JSON object a line from standard input, makes the call of a board that the line says, and writes the reply as
//! one JSON object a line to standard output, before it reads the next. docs/dispatch.md has all lines and answers. It has no
//! thread and no clock: times are in the lines. It draws a seed for the hashes of its boards at its start. Its only arguments
//! are `--help` and `--version`.
//!
//! - `arguments` has the command line. `serve` reads lines and writes answers, which `am_session` makes. `peer` is who writes the
//!   lines and reads the answers, `event` what happens between both. `fault` has the statuses with which the program ends.
#![tactic(auto)]

mod arguments;
mod event;
mod fault;
mod peer;
mod serve;

use am_seed::Seed;
use arguments::read_arguments;
use clap::error::ErrorKind;
use peer::StandardPeer;
use serve::serve;
use std::process::ExitCode;
use std::{env, io};

/// The status where the system has no random numbers.
const NO_RANDOM_NUMBERS: u8 = 1;

/// The status where the command line is rejected.
const REJECTED: u8 = 2;

/// The status without memory before the first line.
const NO_MEMORY: u8 = 3;

fn main(rt: HostRuntime) -> ExitCode {
    ExitCode::from(run(&rt))
}

/// Does what the command line asks for, and returns the status.
fn run(rt: &HostRuntime) -> u8 {
    let words = match words_of(rt) {
        Ok(words) => words,
        Err(fault) if fault.kind() == io::ErrorKind::OutOfMemory => {
            let _ = eprintln!(rt; "am-dispatch: no memory");
            return NO_MEMORY;
        }
        Err(_) => {
            let _ = eprintln!(rt; "am-dispatch: a word of the command line isn't UTF-8");
            return REJECTED;
        }
    };
    match read_arguments(rt.alloc(), words.as_slice()) {
        Ok(()) => serve_lines(rt),
        Err(refused) => {
            let _ = refused.print(rt);
            match refused.kind() {
                ErrorKind::DisplayHelp | ErrorKind::DisplayVersion => 0,
                ErrorKind::OutOfMemory => NO_MEMORY,
                _ => REJECTED,
            }
        }
    }
}

/// Returns the words of the command line, the program's name first.
fn words_of(rt: &HostRuntime) -> io::Result<Vec<String>> {
    Ok(env::args(rt)?.collect(rt.alloc())?)
}

/// Answers the lines of standard input, and returns the status.
fn serve_lines(rt: &HostRuntime) -> u8 {
    let Ok(seed) = Seed::draw(rt) else {
        let _ = eprintln!(rt; "am-dispatch: no random numbers");
        return NO_RANDOM_NUMBERS;
    };
    let mut peer = StandardPeer::new(rt.stdin(), rt.stdout());
    match serve(rt.alloc(), seed, &mut peer) {
        Ok(()) => 0,
        Err(fault) => {
            let _ = eprintln!(rt; "am-dispatch: {fault}");
            fault.status()
        }
    }
}
