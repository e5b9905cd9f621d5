//! Pieces: which one a line asks for, and the steps that they have in common.
use crate::alerts::Load;
use crate::config::{INTERVAL, fanned, plain};
use crate::desk::Desk;
use crate::floor::run_floor;
use crate::flushes::run_flushes;
use crate::hanging::run_hanging;
use crate::inhibition::run_inhibition;
use crate::lanes::run_lanes;
use crate::receivers::run_receivers;
use crate::row::Row;
use crate::silences::run_silences;
use crate::tally::Tally;
use crate::watch::Watch;
use crate::words::{BenchError, Words};
use am_alerts::alert::Alert;
use std::alloc::Global;
use std::rt::Clock;
use std::sync::Wait;
use std::thread::Threads;
use std::time::CpuClock;

/// How long a step may take, in milliseconds. It takes one for each alert or group, and there are
/// 4,000,000 alerts at most.
pub const STEP: u64 = 10_000_000;

/// When all alerts that came from 0 on are due for the first time.
pub const FIRST: u64 = 3 * STEP;

/// When they are due for the second time.
pub const SECOND: u64 = FIRST + INTERVAL;

/// When they are due for the third time.
pub const THIRD: u64 = SECOND + INTERVAL;

/// Runs the piece that a line names.
pub fn run_line<R: Print + Eprint + Clock + CpuClock + Threads + Wait + Sync>(
    rt: &R,
    alloc: Global,
    line: &str,
) -> Result<(), BenchError> {
    let mut words = Words::of(line);
    let name = words.word();
    let first = words.size()?;
    let second = words.size()?;
    let load = Load {
        alerts: first,
        groups: second,
    };
    print_line(rt, line)?;
    match name {
        "desk" => run_lanes(rt, alloc, load, words.size()?),
        "inhibition" => run_inhibition(rt, alloc, first, second),
        "open" => run_hanging(rt, alloc, first, second),
        "receivers" => run_receivers(rt, alloc, first, second),
        "silences" => {
            let silences = words.size()?;
            run_silences(rt, alloc, load, silences, Row::of(words.word())?)
        }
        _ => run_kind(rt, alloc, name, load, Row::of(words.word())?),
    }
}

/// Runs the steps of `flushes` on a board of some kind, or on a floor.
fn run_kind(
    rt: &(impl Print + Eprint + Clock + CpuClock),
    alloc: Global,
    name: &str,
    load: Load,
    row: Row,
) -> Result<(), BenchError> {
    match name {
        "flushes" => run_flushes(
            rt,
            alloc,
            Desk::open(alloc, plain(alloc)?, false)?,
            load,
            row,
        ),
        "longest" => run_flushes(
            rt,
            alloc,
            Desk::open(alloc, plain(alloc)?, true)?,
            load,
            row,
        ),
        "routes" => run_flushes(
            rt,
            alloc,
            Desk::open(alloc, fanned(alloc)?, false)?,
            load,
            row,
        ),
        "floor" => run_floor(rt, alloc, load, row),
        _ => Err(BenchError::BadLine),
    }
}

/// Writes a line to the standard output and error.
fn print_line(rt: &(impl Print + Eprint), line: &str) -> Result<(), BenchError> {
    println!(rt; "{line}")?;
    eprintln!(rt; "{line}")?;
    Ok(())
}

/// Inserts alerts from a time on.
pub fn insert(
    rt: &(impl Print + Eprint + Clock + CpuClock),
    alloc: Global,
    desk: &mut Desk,
    step: &str,
    now: u64,
    alerts: Vec<Alert>,
) -> Result<(), BenchError> {
    let count = alerts.len();
    let watch = Watch::of(rt, step);
    let made = desk.insert_all(rt, alloc, now, alerts)?;
    watch.stop(rt, step, count);
    desk.calls.print(rt, "insert");
    print_made(rt, step, count, made)
}

pub fn print_made(
    rt: &impl Print,
    step: &str,
    count: usize,
    made: usize,
) -> Result<(), BenchError> {
    println!(rt; "{step}: accepted {count}, groups made {made}")?;
    Ok(())
}

/// Flushes all groups that are due from a time on, which have so many alerts.
pub fn flush(
    rt: &(impl Print + Eprint + Clock + CpuClock),
    alloc: Global,
    desk: &mut Desk,
    step: &str,
    now: u64,
    alerts: usize,
) -> Result<Tally, BenchError> {
    let watch = Watch::of(rt, step);
    let tally = desk.flush_all(rt, alloc, now)?;
    watch.stop(rt, step, alerts);
    desk.calls.print(rt, "begin");
    desk.finishes.print(rt, "finish");
    print_tally(rt, step, &tally)?;
    Ok(tally)
}

pub fn print_tally(rt: &impl Print, step: &str, tally: &Tally) -> Result<(), BenchError> {
    println!(rt; "{step}: {tally}")?;
    Ok(())
}

/// Prints how many of these alerts are muted: at their first flush nobody was notified of them.
pub fn print_muted(rt: &impl Print, alerts: usize, tally: &Tally) -> Result<(), BenchError> {
    let muted = alerts.saturating_sub(tally.notified);
    println!(rt; "muted: {muted}")?;
    Ok(())
}
