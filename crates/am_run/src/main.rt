//! `am-run` runs a scenario of alerts through the dispatcher, on a desk with its threads, and reports what was sent.
//!
//! It reads one scenario, as JSON, from standard input and writes its report to standard output. On
//! a fault it prints one line to standard error, and ends with the fault's status. It draws a seed for
//! its hashes at its start. All times are in milliseconds.
//!
//! - `run` goes from the input's bytes to the report's. `phase` runs a phase: its begins, `sending` and the calls of
//!   each `lane`. `courier` answers attempts by the scripts.
//! - `report` has the text of the report on a history, as docs/scenarios.md has it. Each line is added by a function that adds
//!   exactly the text of its definition. Where a definition is total, as at a route's position that doesn't exist, the code is
//!   total in the same way. Then printing needs no invariant of the history.
//! - `fault` has the statuses with which the program ends. `law` has laws.
#![tactic(auto)]

mod courier;
mod fault;
mod lane;
mod law;
mod phase;
mod phase_faults;
mod report;
mod run;
mod sending;

use am_json::device::{StandardInput, StandardOutput};
use am_seed::Seed;
use run::run_scenario;
use std::process::ExitCode;

fn main(rt: HostRuntime) -> ExitCode {
    let Ok(seed) = Seed::draw(&rt) else {
        let _ = eprintln!(rt; "am-run: no random numbers");
        return ExitCode::from(1);
    };
    let mut input = StandardInput::new(rt.stdin());
    let mut output = StandardOutput::new(rt.stdout());
    match run_scenario(&rt, seed, &mut input, &mut output) {
        Ok(()) => ExitCode::SUCCESS,
        Err(fault) => {
            let status = fault.status();
            let _ = eprintln!(rt; "{fault}");
            ExitCode::from(status)
        }
    }
}
