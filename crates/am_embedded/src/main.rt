//! A program that embeds a board: alerts come, and their notices are sent when they are due.
#![tactic(auto)]

mod config;
mod dispatcher;
mod pager;

use am_alerts::alert::Alert;
use am_alerts::labels::Labels;
use am_board::fault::{BoardFault, Fault};
use am_pool::PoolFault;
use am_seed::Seed;
use config::base;
use dispatcher::{Dispatcher, RoundFault};
use pager::Pager;
use std::alloc::{AllocError, Global};
use std::io;
use std::process::ExitCode;
use std::random::RandomSource;
use std::sync::Wait;
use std::thread::Threads;

/// How many rounds of flushes the program makes.
const ROUNDS: usize = 4;

/// Why the program ends early.
enum DispatcherError {
    NoMemory,
    /// The configuration or an alert is rejected, or a limit is reached.
    Rejected,
    /// The output isn't taken.
    Unwritable,
    /// The system has no random numbers.
    NoSeed,
}

impl From<AllocError> for DispatcherError {
    fn from(_: AllocError) -> DispatcherError {
        DispatcherError::NoMemory
    }
}

impl From<BoardFault> for DispatcherError {
    fn from(fault: BoardFault) -> DispatcherError {
        match fault {
            BoardFault::NoMemory => DispatcherError::NoMemory,
            BoardFault::BadConfig(_) => DispatcherError::Rejected,
        }
    }
}

impl From<Fault> for DispatcherError {
    fn from(fault: Fault) -> DispatcherError {
        match fault {
            Fault::NoMemory => DispatcherError::NoMemory,
            _ => DispatcherError::Rejected,
        }
    }
}

impl From<RoundFault> for DispatcherError {
    fn from(fault: RoundFault) -> DispatcherError {
        match fault {
            RoundFault::Begin(fault) => DispatcherError::from(fault),
            RoundFault::Send(PoolFault::NoMemory) => DispatcherError::NoMemory,
            RoundFault::Send(_) => DispatcherError::Rejected,
        }
    }
}

fn main(rt: HostRuntime) -> ExitCode {
    match run(&rt) {
        Ok(()) => ExitCode::SUCCESS,
        Err(DispatcherError::Rejected) => ExitCode::from(2),
        Err(DispatcherError::NoMemory) => ExitCode::from(3),
        Err(DispatcherError::Unwritable) => ExitCode::from(4),
        Err(DispatcherError::NoSeed) => ExitCode::from(5),
    }
}

fn run<R: Threads + Wait + Sync + Print + AllocGlobal + RandomSource>(
    rt: &R,
) -> Result<(), DispatcherError> {
    let config = base(rt.alloc())?;
    let Ok(seed) = Seed::draw(rt) else {
        return Err(DispatcherError::NoSeed);
    };
    let mut dispatcher = Dispatcher::open(rt.alloc(), config, seed)?;
    let ran = run_on(rt, &mut dispatcher);
    drop(dispatcher);
    ran
}

fn run_on<R: Threads + Wait + Sync + Print + AllocGlobal>(
    rt: &R,
    dispatcher: &mut Dispatcher,
) -> Result<(), DispatcherError> {
    insert(dispatcher, rt.alloc(), "A", 0)?;
    insert(dispatcher, rt.alloc(), "B", 20_000)?;
    make_rounds(rt, dispatcher, &mut [Pager::new(), Pager::new()], 20_000)?;
    let entries = dispatcher.summary().entries;
    print(println!(rt; "entries {entries}"))
}

/// Inserts an alert of this name, which fires from now on.
fn insert(
    dispatcher: &mut Dispatcher,
    alloc: Global,
    name: &str,
    now: u64,
) -> Result<(), DispatcherError> {
    let alert = alert(alloc, name, now)?;
    let _ = dispatcher.insert(alloc, now, alert)?;
    Ok(())
}

/// Makes the rounds, from a time on. A program with a clock sleeps until `next_due`, and takes alerts meanwhile; the time
/// of this one goes there at once.
fn make_rounds<R: Threads + Wait + Sync + Print + AllocGlobal>(
    rt: &R,
    dispatcher: &mut Dispatcher,
    couriers: &mut [Pager],
    start: u64,
) -> Result<(), DispatcherError> {
    let mut now = start;
    for _ in 0..ROUNDS {
        if let Some(due) = dispatcher.next_due() {
            now = due.max(now);
            make_round(rt, dispatcher, couriers, now)?;
        }
    }
    Ok(())
}

/// Makes a round, and prints what it did.
fn make_round<R: Threads + Wait + Sync + Print + AllocGlobal>(
    rt: &R,
    dispatcher: &mut Dispatcher,
    couriers: &mut [Pager],
    now: u64,
) -> Result<(), DispatcherError> {
    let round = dispatcher.send_due(rt, rt.alloc(), couriers, now)?;
    let (flushed, quiet, logged) = (round.flushed, round.quiet, round.logged);
    print(println!(rt; "{now}: flushed {flushed}, quiet {quiet}, logged {logged}"))
}

fn print(printed: io::Result<()>) -> Result<(), DispatcherError> {
    printed.map_err(|_| DispatcherError::Unwritable)
}

/// Returns an alert of this name, which fires from a time on.
fn alert(alloc: Global, name: &str, starts: u64) -> Result<Alert, DispatcherError> {
    let Ok(labels) = Labels::read(alloc, &[("alertname", name)]) else {
        return Err(DispatcherError::NoMemory);
    };
    match Alert::new(labels, starts, None) {
        Ok(alert) => Ok(alert),
        Err(_) => Err(DispatcherError::Rejected),
    }
}
