//! Inserts, flushes and a maintenance, without silences.
use crate::alerts::{Load, STRIDE};
use crate::config::{INTERVAL, REPEAT};
use crate::desk::Desk;
use crate::piece::{FIRST, SECOND, STEP, THIRD, flush, insert};
use crate::row::Row;
use crate::watch::Watch;
use crate::words::BenchError;
use am_board::record::{Forgotten, Maintained};
use std::alloc::Global;
use std::rt::Clock;
use std::time::CpuClock;

/// When the same alerts come again, in milliseconds.
const AGAIN: u64 = STEP;

/// When they come in another order.
const ANOTHER: u64 = 2 * STEP;

/// When one alert has an end.
const ONE: u64 = SECOND + STEP;

/// When all have one.
const ALL: u64 = THIRD + STEP;

/// When they are due for the fourth time.
const FOURTH: u64 = THIRD + INTERVAL;

/// When the rows of the last flush have expired.
const EXPIRED: u64 = FOURTH + 2 * REPEAT + STEP;

/// Runs the piece on a board: all its steps, or those of a row.
pub fn run_flushes(
    rt: &(impl Print + Eprint + Clock + CpuClock),
    alloc: Global,
    desk: Desk,
    load: Load,
    row: Row,
) -> Result<(), BenchError> {
    let mut desk = desk;
    let ran = run_row(rt, alloc, &mut desk, &load, row);
    drop(desk);
    ran
}

fn run_row(
    rt: &(impl Print + Eprint + Clock + CpuClock),
    alloc: Global,
    desk: &mut Desk,
    load: &Load,
    row: Row,
) -> Result<(), BenchError> {
    let new = load.build(alloc, 0..load.alerts, 1, None)?;
    insert(rt, alloc, desk, "new inserts", 0, new)?;
    match row {
        Row::New => Ok(()),
        Row::Again => insert_again(rt, alloc, desk, load),
        Row::Order => insert_in_another_order(rt, alloc, desk, load),
        Row::First | Row::Quiet | Row::One => flush_row(rt, alloc, desk, load, row),
        Row::All => {
            insert_again(rt, alloc, desk, load)?;
            insert_in_another_order(rt, alloc, desk, load)?;
            take_history(rt, alloc, desk)?;
            flush_all(rt, alloc, desk, load)
        }
    }
}

fn insert_again(
    rt: &(impl Print + Eprint + Clock + CpuClock),
    alloc: Global,
    desk: &mut Desk,
    load: &Load,
) -> Result<(), BenchError> {
    let same = load.build(alloc, 0..load.alerts, 1, None)?;
    insert(rt, alloc, desk, "the same again", AGAIN, same)
}

fn insert_in_another_order(
    rt: &(impl Print + Eprint + Clock + CpuClock),
    alloc: Global,
    desk: &mut Desk,
    load: &Load,
) -> Result<(), BenchError> {
    let other = load.build(alloc, 0..load.alerts, STRIDE, None)?;
    insert(rt, alloc, desk, "in another order", ANOTHER, other)
}

/// A first flush, and what the row wants after it.
fn flush_row(
    rt: &(impl Print + Eprint + Clock + CpuClock),
    alloc: Global,
    desk: &mut Desk,
    load: &Load,
    row: Row,
) -> Result<(), BenchError> {
    flush(rt, alloc, desk, "first flush", FIRST, load.alerts)?;
    match row {
        Row::Quiet => flush_quietly(rt, alloc, desk, load),
        Row::One => end_one(rt, alloc, desk, load),
        _ => Ok(()),
    }
}

/// All flushes, and what follows them.
fn flush_all(
    rt: &(impl Print + Eprint + Clock + CpuClock),
    alloc: Global,
    desk: &mut Desk,
    load: &Load,
) -> Result<(), BenchError> {
    flush(rt, alloc, desk, "first flush", FIRST, load.alerts)?;
    flush_quietly(rt, alloc, desk, load)?;
    end_one(rt, alloc, desk, load)?;
    end_all(rt, alloc, desk, load)
}

fn flush_quietly(
    rt: &(impl Print + Eprint + Clock + CpuClock),
    alloc: Global,
    desk: &mut Desk,
    load: &Load,
) -> Result<(), BenchError> {
    flush(rt, alloc, desk, "quiet flush", SECOND, load.alerts)?;
    Ok(())
}

/// Inserts the first alert with an end, flushes it, and forgets it.
fn end_one(
    rt: &(impl Print + Eprint + Clock + CpuClock),
    alloc: Global,
    desk: &mut Desk,
    load: &Load,
) -> Result<(), BenchError> {
    let ended = load.build(alloc, 0..1, 1, Some(ONE))?;
    insert(rt, alloc, desk, "one end", ONE, ended)?;
    flush(rt, alloc, desk, "its flush", THIRD, load.alerts)?;
    forget(rt, alloc, desk, "forgetting one", THIRD)
}

/// Inserts the same alerts with an end, flushes them, collects what is left of them, and forgets them.
fn end_all(
    rt: &(impl Print + Eprint + Clock + CpuClock),
    alloc: Global,
    desk: &mut Desk,
    load: &Load,
) -> Result<(), BenchError> {
    let ended = load.build(alloc, 0..load.alerts, STRIDE, Some(ALL))?;
    insert(rt, alloc, desk, "ends", ALL, ended)?;
    let tally = flush(rt, alloc, desk, "resolved flush", FOURTH, load.alerts)?;
    collect(rt, alloc, desk, tally.flushed)?;
    forget(rt, alloc, desk, "forgetting", EXPIRED)
}

/// Has the board hand its records out, and drops them.
fn take_history(
    rt: &(impl Print + Eprint + Clock + CpuClock),
    alloc: Global,
    desk: &mut Desk,
) -> Result<(), BenchError> {
    let watch = Watch::of(rt, "take_history");
    let taken = desk.take_history(alloc)?;
    watch.stop(rt, "take_history", 1);
    let records = taken.len();
    drop(taken);
    print_records(rt, records)
}

fn print_records(rt: &impl Print, records: usize) -> Result<(), BenchError> {
    println!(rt; "take_history: records {records}")?;
    Ok(())
}

/// Has the board drop so many empty groups and the rows of their flushes.
fn collect(
    rt: &(impl Print + Eprint + Clock + CpuClock),
    alloc: Global,
    desk: &mut Desk,
    groups: usize,
) -> Result<(), BenchError> {
    let watch = Watch::of(rt, "maintenance");
    let maintained = desk.maintain(alloc, EXPIRED)?;
    watch.stop(rt, "maintenance", groups);
    print_maintained(rt, maintained)
}

fn print_maintained(rt: &impl Print, maintained: Maintained) -> Result<(), BenchError> {
    let (groups, entries) = (maintained.groups, maintained.entries);
    println!(rt; "maintenance: groups {groups}, rows {entries}")?;
    Ok(())
}

/// Has the board forget alerts.
fn forget(
    rt: &(impl Print + Eprint + Clock + CpuClock),
    alloc: Global,
    desk: &mut Desk,
    step: &str,
    now: u64,
) -> Result<(), BenchError> {
    let watch = Watch::of(rt, step);
    let forgotten = desk.forget(alloc, now)?;
    watch.stop(rt, step, forgotten.alerts);
    print_forgotten(rt, step, forgotten)
}

fn print_forgotten(rt: &impl Print, step: &str, forgotten: Forgotten) -> Result<(), BenchError> {
    let (alerts, silences) = (forgotten.alerts, forgotten.silences);
    println!(rt; "{step}: alerts {alerts}, silences {silences}")?;
    Ok(())
}
