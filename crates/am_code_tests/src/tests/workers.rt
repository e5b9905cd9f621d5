//! Jobs that workers in threads share.
ghost use Rattle.std.specs.Prelude.{All, IfOk};
ghost use Rattle.am_pool.specs.Work.{IsReady};

use super::notice;
use am_board::notice::{Notice, Report};
use am_pool::{AttemptTrace, Courier, Job, Sent, Tried, run_jobs};
use am_retry::{Answer, Outcome};
use crossbeam_utils::atomic::AtomicCell;
use std::alloc::{AllocError, Global};
use std::process::Abort;
use std::sync::Wait;
use std::test::Fail;
use std::thread::Threads;

/// A courier that sets its own flag, to 1, and looks for those of all others: it answers Done if it saw
/// them, else Never.
#[derive(Drop)]
struct Meeting<'f> {
    flags: &'f [AtomicCell<u64>],
    own: usize,
    trace: AttemptTrace,
}

impl Courier for Meeting<'_> {
    ghost tries = { λ c. c.trace.tries };

    ghost refusals = { λ c. c.trace.refusals };

    fn send(&mut self, notice: &Notice, attempt: u64, at: u64) -> Result<Sent, AllocError> {
        let met = meet(self.flags, self.own);
        let sent = Sent {
            answer: if met { Answer::Done } else { Answer::Never },
            ended: at,
        };
        let tried = Tried::new(notice, attempt, at, &sent);
        self.trace.add_try(&tried);
        Ok(sent)
    }
}

/// Sets a flag and looks for all flags, for at most 100,000,000 turns.
fn meet(flags: &[AtomicCell<u64>], own: usize) -> bool {
    if let Some(flag) = flags.get(own) {
        flag.store(1);
    }
    for _ in 0..100_000_000u64 {
        if flags.iter().all(|flag| flag.load() == 1) {
            return true;
        }
    }
    false
}

#[test]
fn workers_meet(rt: HostRuntime) -> Result<(), Fail> {
    check_jobs(&rt, rt.alloc(), 2, 2)?;
    check_jobs(&rt, rt.alloc(), 8, 8)?;
    // Each courier sends many notices.
    check_jobs(&rt, rt.alloc(), 8, 1_024)
}

#[test]
fn no_jobs(rt: HostRuntime) -> Result<(), Fail> {
    check_jobs(&rt, rt.alloc(), 1, 0)
}

/// Sends so many notices by so many couriers, who have to meet for them to be delivered.
fn check_jobs<R: Threads + Wait + Abort + Sync>(
    rt: &R,
    alloc: Global,
    workers: usize,
    count: u64,
) -> Result<(), Fail> {
    let notices = notices(alloc, count)?;
    let jobs = jobs_of(rt, alloc, notices.as_slice())?;
    check_meeting(rt, alloc, jobs.as_slice(), workers)
}

/// A notice for each of so many flushes.
pub fn notices(alloc: Global, count: u64) -> Result<Vec<Notice>, AllocError> {
    let mut notices = Vec::new(alloc);
    for ticket in 0..count {
        notices.push(notice(alloc, ticket)?)?;
    }
    Ok(notices)
}

/// A job for each notice, all of which have something to send.
pub fn jobs_of<'a>(
    rt: &impl Abort,
    alloc: Global,
    notices: &'a [Notice],
) -> Result<Vec<Job<'a>>, AllocError>
    ensures { IfOk result (λ jobs. All IsReady jobs.items) }
{
    let mut jobs = Vec::new(alloc);
    for notice in notices {
        assert!(rt; !notice.nothing());
        jobs.push(Job {
            notice,
            start: 30_000,
        })?;
    }
    Ok(jobs)
}

/// Each job is delivered by one try, in order.
fn check_meeting<R: Threads + Wait + Abort + Sync>(
    rt: &R,
    alloc: Global,
    jobs: &[Job<'_>],
    workers: usize,
) -> Result<(), Fail>
    requires { All IsReady jobs.now }
{
    let flags = flags(alloc, workers)?;
    let reports = reports_of(rt, alloc, jobs, flags.as_slice())?;
    are_delivered(rt, reports.as_slice(), jobs.len());
    Ok(())
}

/// So many flags, none of which is set.
fn flags(alloc: Global, count: usize) -> Result<Vec<AtomicCell<u64>>, AllocError> {
    let mut flags = Vec::new(alloc);
    for _ in 0..count {
        flags.push(AtomicCell::new(0))?;
    }
    Ok(flags)
}

/// The reports of a courier for each flag.
fn reports_of<R: Threads + Wait + Sync>(
    rt: &R,
    alloc: Global,
    jobs: &[Job<'_>],
    flags: &[AtomicCell<u64>],
) -> Result<Vec<Report>, Fail>
    requires { All IsReady jobs.now }
{
    let mut couriers = couriers_for(alloc, flags)?;
    Ok(run_jobs(rt, alloc, couriers.as_mut_slice(), jobs)?)
}

fn couriers_for<'f>(
    alloc: Global,
    flags: &'f [AtomicCell<u64>],
) -> Result<Vec<Meeting<'f>>, AllocError> {
    let mut couriers = Vec::new(alloc);
    for own in 0..flags.len() {
        couriers.push(Meeting {
            flags,
            own,
            trace: AttemptTrace::new(),
        })?;
    }
    Ok(couriers)
}

fn are_delivered(rt: &impl Abort, reports: &[Report], count: usize) {
    assert_eq!(rt; reports.len(), count);
    for (ticket, report) in reports.iter().enumerate() {
        assert_eq!(rt; (report.ticket, report.attempts), (ticket as u64, 1));
        assert_eq!(rt; report.outcome, Outcome::Delivered);
    }
}
