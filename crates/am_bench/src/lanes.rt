//! Threads that insert and flush on one desk.
ghost use Rattle.std.specs.Prelude.{◌≡◌};
ghost use Rattle.am_desk.specs.Terms.{terms};

use crate::alerts::{Load, STRIDE};
use crate::config::plain;
use crate::piece::{FIRST, SECOND, STEP};
use crate::requests::delivery::Pager;
use crate::tally::Tally;
use crate::watch::Watch;
use crate::words::{BenchError, both};
use am_alerts::alert::Alert;
use am_alerts::limits::MAX_TIME;
use am_board::begin::Begun;
use am_board::config::{Config, MAX_GROUPS};
use am_board::fault::Fault;
use am_board::notice::{Notice, Report};
use am_desk::{Blank, Brand, Desk, Name, OwnTicket, Pass};
use am_pool::deliver;
use std::alloc::{AllocError, Global};
use std::mem::replace;
use std::rt::Clock;
use std::sync::Wait;
use std::thread::{Threads, for_each_mut};
use std::time::CpuClock;
use std::vec::IntoIter;

/// The id of the desk.
const BOARD_ID: u64 = 2;

/// When the same alerts come again, in milliseconds.
const AGAIN: u64 = STEP;

/// When they come once more, several in a call.
const BATCHED: u64 = 2 * STEP;

/// How many alerts come in a call then: as many as Prometheus puts into one request.
const BATCH: usize = 64;

/// When all groups are due for the second time, however the threads shared their first flushes.
const LATER: u64 = SECOND + STEP;

/// What one thread does at once: it inserts these alerts, or flushes if there are none.
#[derive(Drop)]
struct Lane<N: Name> {
    pass: Pass<N>,
    alerts: Vec<Alert>,
    /// How many of them come in a call.
    batch: usize,
    /// The time of its calls.
    now: u64,
    /// How many groups were made for its alerts.
    made: usize,
    tally: Tally,
    fault: Option<Fault>,
}

/// Runs the piece by so many threads.
pub fn run_lanes<R: Print + Eprint + Clock + CpuClock + Threads + Wait + Sync>(
    rt: &R,
    alloc: Global,
    load: Load,
    threads: usize,
) -> Result<(), BenchError> {
    let (config, blank) = both(plain(alloc), blank(alloc, threads))?;
    run_on::<Brand, R>(rt, alloc, load, config, blank)
}

/// The blank of a desk with so many passes.
fn blank(alloc: Global, passes: usize) -> Result<Blank, BenchError> {
    if passes > 16 {
        return Err(BenchError::BadLine);
    }
    match Blank::new(alloc, BOARD_ID, passes as u32) {
        Ok(blank) => Ok(blank),
        Err(_) => Err(BenchError::BadLine),
    }
}

fn run_on<N: Name + Send + Sync, R: Print + Eprint + Clock + CpuClock + Threads + Wait + Sync>(
    rt: &R,
    alloc: Global,
    load: Load,
    config: Config,
    blank: Blank,
) -> Result<(), BenchError>
    requires { (blank ≡ N.plan) × (terms config blank.id ≡ N.terms) }
{
    let Ok((desk, passes)) = Desk::<N>::open(alloc, config, blank) else {
        return Err(BenchError::BadLine);
    };
    let ran = match lanes(alloc, passes) {
        Ok(mut lanes) => run_steps(rt, alloc, &desk, lanes.as_mut_slice(), &load),
        Err(fault) => Err(fault),
    };
    drop(desk);
    ran
}

/// A lane for each pass.
fn lanes<N: Name>(alloc: Global, passes: Vec<Pass<N>>) -> Result<Vec<Lane<N>>, BenchError> {
    let mut lanes = Vec::new(alloc);
    for pass in passes {
        let lane = Lane {
            pass,
            alerts: Vec::new(alloc),
            batch: 1,
            now: 0,
            made: 0,
            tally: Tally::new(),
            fault: None,
        };
        lanes.push(lane)?;
    }
    Ok(lanes)
}

fn run_steps<N: Name + Send + Sync, R: Print + Eprint + Clock + CpuClock + Threads + Wait + Sync>(
    rt: &R,
    alloc: Global,
    desk: &Desk<N>,
    lanes: &mut [Lane<N>],
    load: &Load,
) -> Result<(), BenchError> {
    fill(alloc, lanes, load, 1)?;
    run(rt, alloc, desk, lanes, "new inserts", 0, load.alerts)?;
    fill(alloc, lanes, load, STRIDE)?;
    run(
        rt,
        alloc,
        desk,
        lanes,
        "in another order",
        AGAIN,
        load.alerts,
    )?;
    fill(alloc, lanes, load, 1)?;
    for lane in lanes.iter_mut() {
        lane.batch = BATCH;
    }
    run(
        rt,
        alloc,
        desk,
        lanes,
        "in batches of 64",
        BATCHED,
        load.alerts,
    )?;
    run(rt, alloc, desk, lanes, "first flush", FIRST, load.alerts)?;
    run(rt, alloc, desk, lanes, "quiet flush", LATER, load.alerts)
}

/// Hands the alerts out to the lanes: to each those of some indexes of the order of this stride.
fn fill<N: Name>(
    alloc: Global,
    lanes: &mut [Lane<N>],
    load: &Load,
    stride: usize,
) -> Result<(), BenchError> {
    let count = lanes.len();
    for (number, lane) in lanes.iter_mut().enumerate() {
        let from = load
            .alerts
            .saturating_mul(number)
            .checked_div(count)
            .unwrap_or(0);
        let next = number.saturating_add(1);
        let to = load
            .alerts
            .saturating_mul(next)
            .checked_div(count)
            .unwrap_or(0);
        lane.alerts = load.build(alloc, from..to, stride, None)?;
    }
    Ok(())
}

/// Has each lane do its part, and says what all of them did.
fn run<N: Name + Send + Sync, R: Print + Eprint + Clock + CpuClock + Threads + Wait + Sync>(
    rt: &R,
    alloc: Global,
    desk: &Desk<N>,
    lanes: &mut [Lane<N>],
    step: &str,
    now: u64,
    alerts: usize,
) -> Result<(), BenchError> {
    for lane in lanes.iter_mut() {
        lane.now = now;
    }
    let watch = Watch::of(rt, step);
    run_concurrently(rt, alloc, desk, lanes);
    watch.stop(rt, step, alerts);
    print_lanes(rt, lanes, step)
}

/// Each lane in a thread of its own.
fn run_concurrently<N: Name + Send + Sync, R: Threads + Wait + Sync>(
    rt: &R,
    alloc: Global,
    desk: &Desk<N>,
    lanes: &mut [Lane<N>],
) {
    let threads = lanes.len();
    if threads > 0 {
        for_each_mut(
            rt,
            lanes,
            threads,
            &|_, lane: &mut Lane<N>| { lane.run(rt, alloc, desk) },
        );
    }
}

/// Prints what the lanes did since this was reported last.
fn print_lanes<N: Name>(
    rt: &impl Print,
    lanes: &mut [Lane<N>],
    step: &str,
) -> Result<(), BenchError> {
    let mut made: usize = 0;
    let mut tally = Tally::new();
    for lane in lanes {
        if let Some(fault) = lane.fault {
            return Err(BenchError::Refused(fault));
        }
        made = made.saturating_add(replace(&mut lane.made, 0));
        tally.add(&replace(&mut lane.tally, Tally::new()));
    }
    print_sum(rt, step, made, &tally)
}

fn print_sum(rt: &impl Print, step: &str, made: usize, tally: &Tally) -> Result<(), BenchError> {
    println!(rt; "{step}: groups made {made}, {tally}")?;
    Ok(())
}

impl<N: Name> Lane<N> {
    fn run<R: Wait>(&mut self, rt: &R, alloc: Global, desk: &Desk<N>) {
        let ran = if self.alerts.is_empty() {
            self.flush_all(rt, alloc, desk)
        } else if self.batch > 1 {
            self.insert_batches(rt, alloc, desk)
        } else {
            self.insert_each(rt, alloc, desk)
        };
        self.fault = ran.err();
    }

    fn insert_each<R: Wait>(&mut self, rt: &R, alloc: Global, desk: &Desk<N>) -> Result<(), Fault> {
        for alert in replace(&mut self.alerts, Vec::new(alloc)) {
            let inserted = desk.insert(rt, alloc, &mut self.pass, self.now, alert)?;
            self.made = self.made.saturating_add(inserted.made);
            self.now = self.now.saturating_add(1);
        }
        Ok(())
    }

    fn insert_batches<R: Wait>(
        &mut self,
        rt: &R,
        alloc: Global,
        desk: &Desk<N>,
    ) -> Result<(), Fault> {
        let mut alerts = replace(&mut self.alerts, Vec::new(alloc)).into_iter();
        for _ in 0..alerts.len() {
            let batch = next_batch(alloc, &mut alerts, self.batch)?;
            if batch.is_empty() {
                break;
            }
            for answer in desk.insert_all(rt, alloc, &mut self.pass, self.now, batch)? {
                self.made = self.made.saturating_add(answer?.made);
            }
            self.now = self.now.saturating_add(1);
        }
        Ok(())
    }

    /// Flushes groups that are due, until there is none.
    fn flush_all<R: Wait>(&mut self, rt: &R, alloc: Global, desk: &Desk<N>) -> Result<(), Fault> {
        for _ in 0..=MAX_GROUPS {
            if !self.flush_next(rt, alloc, desk)? {
                break;
            }
            self.now = self.now.saturating_add(1);
        }
        Ok(())
    }

    fn flush_next<R: Wait>(
        &mut self,
        rt: &R,
        alloc: Global,
        desk: &Desk<N>,
    ) -> Result<bool, Fault> {
        match desk.begin(rt, alloc, &mut self.pass, self.now) {
            Ok(Begun::NothingDue) => Ok(false),
            Ok(Begun::Quiet { group: _, removed }) => {
                self.tally.add_quiet(removed);
                Ok(true)
            }
            Ok(Begun::Flush(ticket)) => {
                self.send(rt, desk, OwnTicket::new(ticket));
                Ok(true)
            }
            Err(fault) => Err(fault),
        }
    }

    /// Sends each notice, and finishes the flush.
    fn send<R: Wait>(&mut self, rt: &R, desk: &Desk<N>, own: OwnTicket<N>) {
        let mut own = own;
        for index in 0..own.ticket().notices().len() {
            if let Some(notice) = own.ticket().notices().get(index) {
                if let Some(report) = send_notice(&mut self.tally, notice, self.now) {
                    let _ = own.record(report);
                }
            }
        }
        match desk.finish_own(rt, &mut self.pass, own, self.now) {
            Ok(finished) => self.tally.add_flush(finished.removed),
            Err(_not_open) => self.tally.add_flush(0),
        }
    }
}

/// The next alerts, so many at most.
fn next_batch(
    alloc: Global,
    alerts: &mut IntoIter<Alert>,
    most: usize,
) -> Result<Vec<Alert>, AllocError> {
    let mut batch = Vec::with_capacity(alloc, most)?;
    for _ in 0..most {
        match alerts.next() {
            None => break,
            Some(alert) => batch.push(alert)?,
        }
    }
    Ok(batch)
}

/// Delivers a notice that has something to send.
fn send_notice(tally: &mut Tally, notice: &Notice, now: u64) -> Option<Report> {
    if notice.nothing() || now > MAX_TIME {
        return None;
    }
    tally.add_notice(notice.firing.len().saturating_add(notice.resolved.len()));
    Some(deliver(&mut Pager::new(0), notice, now))
}
