//! Couriers for whose attempts there is no memory: one notice, and jobs that workers share.
ghost use Rattle.std.specs.Prelude.{All};
ghost use Rattle.am_pool.specs.Work.{IsReady};

use super::notice;
use super::workers::{jobs_of, notices};
use am_board::notice::{Notice, Report};
use am_pool::{AttemptTrace, Courier, Job, PoolFault, Sent, Tried, deliver, run_jobs};
use am_retry::{Answer, Outcome};
use std::alloc::{AllocError, Global};
use std::process::Abort;
use std::sync::Wait;
use std::test::Fail;
use std::thread::Threads;

/// A courier that asks to come again for one flush, until it refuses an attempt for lack of memory. For
/// other flushes each attempt is done at once.
#[derive(Drop)]
struct Starving {
    ticket: u64,
    /// The number of the attempt that is refused.
    refused: u64,
    trace: AttemptTrace,
}

impl Starving {
    fn new(ticket: u64, refused: u64) -> Starving {
        Starving {
            ticket,
            refused,
            trace: AttemptTrace::new(),
        }
    }
}

impl Courier for Starving {
    ghost tries = { λ c. c.trace.tries };

    ghost refusals = { λ c. c.trace.refusals };

    fn send(&mut self, notice: &Notice, attempt: u64, at: u64) -> Result<Sent, AllocError> {
        let is_starved = notice.ticket == self.ticket;
        if is_starved && attempt == self.refused {
            self.trace.add_refusal();
            return Err(AllocError);
        }
        let sent = Sent {
            answer: if is_starved {
                Answer::Again
            } else {
                Answer::Done
            },
            ended: at,
        };
        let tried = Tried::new(notice, attempt, at, &sent);
        self.trace.add_try(&tried);
        Ok(sent)
    }
}

/// What a report says of the flush, the outcome, the attempts and the end.
fn summary(report: &Report) -> (u64, Outcome, u64, u64) {
    (report.ticket, report.outcome, report.attempts, report.ended)
}

#[test]
fn an_attempt_without_memory_starves(rt: HostRuntime) -> Result<(), Fail> {
    let notice = notice(rt.alloc(), 1)?;
    check_starved(&rt, &notice, 1);
    check_starved(&rt, &notice, 2);
    Ok(())
}

/// The attempts before the one that is refused were made.
fn check_starved(rt: &impl Abort, notice: &Notice, refused: u64) {
    assert!(rt; !notice.nothing());
    let report = deliver(&mut Starving::new(1, refused), notice, 30_000);
    let wanted = (1, Outcome::Starved, refused.saturating_sub(1), 30_000);
    assert_eq!(rt; summary(&report), wanted);
}

#[test]
fn one_of_two_starves(rt: HostRuntime) -> Result<(), Fail> {
    let notices = notices(rt.alloc(), 2)?;
    let jobs = jobs_of(&rt, rt.alloc(), notices.as_slice())?;
    let reports = reports_of(&rt, rt.alloc(), jobs.as_slice())?;
    assert_eq!(rt; reports.len(), 2);
    assert_eq!(rt; summary(&reports[0]), (0, Outcome::Starved, 1, 30_000));
    assert_eq!(rt; summary(&reports[1]), (1, Outcome::Delivered, 1, 30_000));
    Ok(())
}

fn reports_of<R: Threads + Wait + Sync>(
    rt: &R,
    alloc: Global,
    jobs: &[Job<'_>],
) -> Result<Vec<Report>, PoolFault>
    requires { All IsReady jobs.now }
{
    let mut couriers = [Starving::new(0, 2), Starving::new(0, 2)];
    run_jobs(rt, alloc, &mut couriers, jobs)
}
