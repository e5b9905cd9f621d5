//! Alerts next to silences.
use crate::alerts::{Load, STRIDE, listed, silence};
use crate::config::plain;
use crate::desk::Desk;
use crate::piece::{FIRST, SECOND, THIRD, flush, insert, print_muted};
use crate::row::Row;
use crate::watch::Watch;
use crate::words::BenchError;
use am_mute::silence::Silence;
use std::alloc::Global;
use std::rt::Clock;
use std::time::CpuClock;

/// One alert of so many has a silence.
const STEP: usize = 11;

/// Runs the piece on so many silences: all its steps, or those of a row.
pub fn run_silences(
    rt: &(impl Print + Eprint + Clock + CpuClock),
    alloc: Global,
    load: Load,
    silences: usize,
    row: Row,
) -> Result<(), BenchError> {
    let mut desk = Desk::open(alloc, plain(alloc)?, false)?;
    let ran = match set_and_insert(rt, alloc, &mut desk, &load, silences) {
        Ok(()) => flush_thrice(rt, alloc, &mut desk, load.alerts, row),
        Err(error) => Err(error),
    };
    drop(desk);
    ran
}

/// Sets the silences, and inserts alerts.
fn set_and_insert(
    rt: &(impl Print + Eprint + Clock + CpuClock),
    alloc: Global,
    desk: &mut Desk,
    load: &Load,
    silences: usize,
) -> Result<(), BenchError> {
    let set = build_silences(alloc, silences)?;
    mute(rt, alloc, desk, "new silences", set)?;
    let new = load.build(alloc, 0..load.alerts, STRIDE, None)?;
    insert(rt, alloc, desk, "new inserts", 0, new)
}

/// Flushes all groups under the new silences, then under the same, and under one that was changed, as
/// the row wants it.
fn flush_thrice(
    rt: &(impl Print + Eprint + Clock + CpuClock),
    alloc: Global,
    desk: &mut Desk,
    alerts: usize,
    row: Row,
) -> Result<(), BenchError> {
    let tally = flush(rt, alloc, desk, "first flush", FIRST, alerts)?;
    print_muted(rt, alerts, &tally)?;
    if matches!(row, Row::All | Row::Quiet) {
        flush(rt, alloc, desk, "unchanged flush", SECOND, alerts)?;
    }
    if matches!(row, Row::All | Row::One) {
        mute(rt, alloc, desk, "a changed silence", build_changed(alloc)?)?;
        flush(rt, alloc, desk, "changed flush", THIRD, alerts)?;
    }
    Ok(())
}

/// Sets silences.
fn mute(
    rt: &(impl Print + Eprint + Clock + CpuClock),
    alloc: Global,
    desk: &mut Desk,
    step: &str,
    silences: Vec<Silence>,
) -> Result<(), BenchError> {
    let count = silences.len();
    let watch = Watch::of(rt, step);
    let replaced = desk.silence_all(alloc, 0, silences)?;
    watch.stop(rt, step, count);
    print_replaced(rt, step, count, replaced)
}

fn print_replaced(
    rt: &impl Print,
    step: &str,
    count: usize,
    replaced: usize,
) -> Result<(), BenchError> {
    println!(rt; "{step}: accepted {count}, replaced {replaced}")?;
    Ok(())
}

/// Silences that last longer than the piece, each of one alert.
fn build_silences(alloc: Global, count: usize) -> Result<Vec<Silence>, BenchError> {
    let mut silences = Vec::new(alloc);
    for id in 0..count {
        silences.push(silence(alloc, id as u64, id.saturating_mul(STEP), 2 * THIRD)?)?;
    }
    Ok(silences)
}

/// The first silence, as one that has ended.
fn build_changed(alloc: Global) -> Result<Vec<Silence>, BenchError> {
    let changed = silence(alloc, 0, 0, SECOND)?;
    Ok(listed(alloc, changed)?)
}
