//! Alerts that others inhibit.
use crate::alerts::{CRITICAL, Sample, WARNING};
use crate::config::inhibiting;
use crate::desk::Desk;
use crate::piece::{FIRST, flush, insert, print_muted};
use crate::words::BenchError;
use am_alerts::alert::Alert;
use std::alloc::Global;
use std::rt::Clock;
use std::time::CpuClock;

/// How many alerts a group has.
const IN_GROUP: usize = 16;

/// Runs the piece on so many sources and so many targets.
pub fn run_inhibition(
    rt: &(impl Print + Eprint + Clock + CpuClock),
    alloc: Global,
    sources: usize,
    targets: usize,
) -> Result<(), BenchError> {
    let mut desk = Desk::open(alloc, inhibiting(alloc)?, false)?;
    let ran = run_steps(rt, alloc, &mut desk, sources, targets);
    drop(desk);
    ran
}

fn run_steps(
    rt: &(impl Print + Eprint + Clock + CpuClock),
    alloc: Global,
    desk: &mut Desk,
    sources: usize,
    targets: usize,
) -> Result<(), BenchError> {
    let first = build_sources(alloc, sources)?;
    insert(rt, alloc, desk, "sources", 0, first)?;
    let then = build_targets(alloc, targets, sources)?;
    insert(rt, alloc, desk, "targets", 0, then)?;
    let tally = flush(rt, alloc, desk, "inhibited flush", FIRST, targets)?;
    print_muted(rt, targets, &tally)
}

/// Alerts that inhibit, each of an instance of its own.
fn build_sources(alloc: Global, count: usize) -> Result<Vec<Alert>, BenchError> {
    let mut alerts = Vec::new(alloc);
    for number in 0..count {
        let sample = Sample {
            group: number / IN_GROUP,
            number,
            instance: number,
            severity: CRITICAL,
        };
        alerts.push(sample.build(alloc, None)?)?;
    }
    Ok(alerts)
}

/// Alerts of the instances of so many sources, from the last one on.
fn build_targets(alloc: Global, count: usize, sources: usize) -> Result<Vec<Alert>, BenchError> {
    let mut alerts = Vec::new(alloc);
    for number in 0..count {
        let back = number.checked_rem(sources).unwrap_or(0).saturating_add(1);
        let sample = Sample {
            group: number / IN_GROUP,
            number,
            instance: sources.saturating_sub(back),
            severity: WARNING,
        };
        alerts.push(sample.build(alloc, None)?)?;
    }
    Ok(alerts)
}
