//! A worker: it takes job numbers until there are none, and its courier runs their jobs.
ghost use Rattle.std.specs.Prelude.{◌≡◌, ◌<◌, ◌≤◌, All, length, vec_len, vec_capacity};
ghost use Rattle.crossbeam_queue.specs.Passes.{view, IsPassOf};
ghost use Rattle.am_pool.specs.Work.{IsReady, DidWork, HasSpace, OneMoreRan};

use crate::queue::{JobPass, JobQueue, take};
use crate::{Courier, deliver};
use am_board::notice::{Notice, Report};
use std::sync::Wait;

/// A notice to be sent from a time on (milliseconds).
#[derive(Clone, Copy, Debug)]
pub struct Job<'a> {
    pub notice: &'a Notice,
    pub start: u64,
}

/// A worker: its pass of the queue, and the reports on the jobs that it ran.
#[derive(Drop)]
pub struct Worker {
    pub(crate) pass: JobPass,
    /// The numbers of the jobs that it ran, with their reports. It has capacity for one of each
    /// job.
    pub(crate) done: Vec<(usize, Report)>,
}

/// Takes job numbers until there are none, and runs each job by the courier.
pub(crate) fn work<R: Wait, C: Courier>(
    rt: &R,
    queue: &JobQueue,
    jobs: &[Job<'_>],
    worker: &mut Worker,
    courier: &mut C,
)
    requires pass { IsPassOf queue.now worker.old.pass × (0 < (view worker.old.pass).parts) }
    requires put { (view worker.old.pass).put ≤ length jobs.now }
    requires space { HasSpace worker.old }
    requires ready { All IsReady jobs.now }
    ensures pass { IsPassOf queue.now worker.new.pass }
    ensures work { DidWork jobs.now worker.old worker.new
        (C.tries courier.old) (C.refusals courier.old) (C.tries courier.new) (C.refusals courier.new) }
{
    for _ in rt.forever() {
        match take(rt, queue, &mut worker.pass) {
            None => return,
            Some(number) => run(jobs, number, &mut worker.done, courier),
        }
    }
    unreachable!()
}

/// Runs the job of a number, and keeps the report.
fn run<C: Courier>(
    jobs: &[Job<'_>],
    number: usize,
    done: &mut Vec<(usize, Report)>,
    courier: &mut C,
)
    requires number { number < length jobs.now }
    requires space { vec_len done.old < vec_capacity done.old }
    requires ready { All IsReady jobs.now }
    ensures capacity { vec_capacity done.new ≡ vec_capacity done.old }
    ensures run { OneMoreRan jobs.now number done.old.items done.new.items
        (C.tries courier.old) (C.refusals courier.old) (C.tries courier.new) (C.refusals courier.new) }
{
    let job = jobs[number];
    let report = deliver(courier, job.notice, job.start);
    done.push_reserved((number, report));
}
