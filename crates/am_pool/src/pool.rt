//! The pool: `run_jobs` lets workers share the jobs, each with a courier and in a thread of its
//! own.
//!
//! All memory comes first: the list of reports, the queue, and a worker for each courier. A worker
//! has capacity for the report of every job, since it can run them all. `fill` puts the numbers of
//! the jobs into the queue before the first pass is split off, so a worker that finds no number is
//! done. `staff` splits off a pass for each worker, and `work_all` runs them. When all threads are
//! joined, `gather` brings the passes together and puts the reports into their places.
//!
//! The pass that has all parts works once more, with the first courier. It finds no number, and
//! only a take of its own can prove that each was taken once. So no branch is needed for a job
//! without a report. The indexes hold Starved reports from the start, and that none of these is left
//! follows as well. `DidWork` says what each courier did, by its worker's list. `Shared` says that
//! each job was run once and has its report in its place.
ghost use Rattle.std.specs.Prelude.{◌≡◌, ◌<◌, ◌≤◌, ◌+◌, ◌-◌, ℕ, [], None, All, IfOk, OnOk, IfErr, OnErr, length, vec_capacity};
ghost use denote.Param.Send.{IsSync, IsSend};
ghost use Rattle.crossbeam_queue.specs.Passes.{view, IsPassOf};
ghost use Rattle.am_pool.specs.declared.limits.TheConstants.{ALL_PARTS, MAX_JOBS, MAX_WORKERS};
ghost use Rattle.am_pool.specs.Dealt.{hand, weigh};
ghost use Rattle.am_pool.specs.Work.{IsReady, IsFresh, MayWork, DidWork, HasSpace};
ghost use Rattle.am_pool.specs.Gathered.{AllWorked, FirstWorked, AreBelow, Shared, placed, runs_back, parts_of, weigh_taken};
ghost use Rattle.am_pool.specs.Sent.{AreReportsOf, AreSent, all_refusals, count_starved, pool_cause, IsPoolFault};
ghost use Rattle.am_pool.specs.declared.worker.Worker.{Worker as Done};

use crate::Courier;
use crate::fault::PoolFault;
use crate::limits::{MAX_JOBS, MAX_WORKERS};
use crate::queue::{JobPass, JobQueue, absorb, fill, split};
use crate::worker::{Job, Worker, work};
use am_board::notice::Report;
use am_retry::Outcome;
use std::alloc::{AllocError, Global};
use std::sync::Wait;
use std::thread::{Threads, join_mut};

/// Sends the notice of each job once, and returns the reports in the order of the jobs.
///
/// Each courier works in a thread of its own. Which one takes which job depends on the schedule;
/// each job is run by one courier, as `deliver` runs it. Each notice has something to send, and
/// each start is at most 10^15. A worker whose thread can't be made runs on the thread that would
/// have started it.
///
/// # Errors
///
/// In this order, and then nothing was sent:
/// - `BadWorkers`: no courier, or more than 8.
/// - `TooManyJobs`: more than 8,192.
/// - `NoMemory`. All memory is allocated before the first attempt, at most 1 MB.
///
/// Cost: the deliveries, shared by the couriers; a push and a pop for each job, and a pop more for
/// each courier.
pub fn run_jobs<R: Threads + Wait + Sync, C: Courier + Send>(
    rt: &R,
    alloc: Global,
    couriers: &mut [C],
    jobs: &[Job<'_>],
) -> Result<Vec<Report>, PoolFault>
    requires ready { All IsReady jobs.now }
    ensures reports { IfOk result (λ reports. AreReportsOf jobs.now reports.items) }
    ensures sent { IfOk result (λ reports. AreSent jobs.now reports.items C.tries C.refusals couriers.old couriers.new) }
    ensures refused { IfOk result (λ reports.
        all_refusals C.refusals couriers.new ≡ all_refusals C.refusals couriers.old + count_starved reports.items) }
    ensures allowed { OnOk result (pool_cause (length couriers.old) (length jobs.now) ≡ None) }
    ensures cause { IfErr result (IsPoolFault (pool_cause (length couriers.old) (length jobs.now))) }
    ensures unsent { OnErr result (couriers.new ≡ couriers.old) }
{
    if couriers.is_empty() || couriers.len() > MAX_WORKERS {
        return Err(PoolFault::BadWorkers);
    }
    if jobs.len() > MAX_JOBS {
        return Err(PoolFault::TooManyJobs);
    }
    if jobs.is_empty() {
        return Ok(Vec::new(alloc));
    }
    Ok(send_all(rt, alloc, couriers, jobs)?)
}

/// Sends jobs, of which there is one at least.
fn send_all<R: Threads + Wait + Sync, C: Courier + Send>(
    rt: &R,
    alloc: Global,
    couriers: &mut [C],
    jobs: &[Job<'_>],
) -> Result<Vec<Report>, AllocError>
    requires workers { (0 < length couriers.old) × (length couriers.old ≤ MAX_WORKERS) }
    requires count { (0 < length jobs.now) × (length jobs.now ≤ MAX_JOBS) }
    requires ready { All IsReady jobs.now }
    ensures shared { IfOk result (λ reports. Shared jobs.now C.tries C.refusals reports.items couriers.old couriers.new) }
    ensures unsent { OnErr result (couriers.new ≡ couriers.old) }
{
    let count = jobs.len();
    let mut reports = unsent(alloc, jobs)?;
    let done = space(alloc, count)?;
    let (queue, mut whole) = fill(rt, alloc, count)?;
    let mut workers = staff(alloc, &queue, &mut whole, couriers.len(), count)?;
    work_staff(rt, &queue, jobs, &mut workers, couriers);
    gather(&queue, &mut whole, &mut reports, workers);
    // Every part is in one pass now, and so its worker learns that no number is left.
    let mut last = Worker { pass: whole, done };
    work_first(rt, &queue, jobs, &mut last, couriers);
    put_reports(&mut reports, last.done.as_slice());
    Ok(reports)
}

/// Each worker works with the courier at its index.
fn work_staff<R: Threads + Wait + Sync, C: Courier + Send>(
    rt: &R,
    queue: &JobQueue,
    jobs: &[Job<'_>],
    workers: &mut Vec<Worker>,
    couriers: &mut [C],
)
    requires lengths { length workers.old.items ≡ length couriers.old }
    requires ready { All IsReady jobs.now }
    requires may { All (MayWork queue.now.table.shared.table_id (length jobs.now)) workers.old.items }
    ensures lengths { (length workers.new.items ≡ length workers.old.items) × (length couriers.new ≡ length couriers.old) }
    ensures passes { All (λ w. IsPassOf queue.now w.pass) workers.new.items }
    ensures work { AllWorked jobs.now C.tries C.refusals workers.old.items workers.new.items couriers.old couriers.new }
{
    work_all(rt, queue, jobs, workers.as_mut_slice(), couriers);
}

/// A worker works with the first courier.
fn work_first<R: Wait, C: Courier>(
    rt: &R,
    queue: &JobQueue,
    jobs: &[Job<'_>],
    worker: &mut Worker,
    couriers: &mut [C],
)
    requires pass { IsPassOf queue.now worker.old.pass × (0 < (view worker.old.pass).parts) }
    requires put { (view worker.old.pass).put ≤ length jobs.now }
    requires space { HasSpace worker.old }
    requires ready { All IsReady jobs.now }
    requires couriers { 0 < length couriers.old }
    ensures work { FirstWorked jobs.now C.tries C.refusals worker.old worker.new couriers.old couriers.new }
{
    let Some((courier, _others)) = couriers.split_first_mut() else {
        unreachable!()
    };
    work(rt, queue, jobs, worker, courier);
}

/// Returns the reports that fill the indexes until the real ones come.
fn unsent(alloc: Global, jobs: &[Job<'_>]) -> Result<Vec<Report>, AllocError>
    ensures { IfOk result (λ reports. length reports.items ≡ length jobs.now) }
{
    let mut reports = Vec::new(alloc);
    for job in jobs {
        let notice = job.notice;
        reports.push(Report {
            board_id: notice.board_id,
            ticket: notice.ticket,
            integration: notice.integration,
            outcome: Outcome::Starved,
            attempts: 0,
            ended: job.start,
        })?;
    }
    Ok(reports)
}

/// Returns a list with capacity for so many reports and their numbers.
fn space(alloc: Global, count: usize) -> Result<Vec<(usize, Report)>, AllocError>
    ensures empty { IfOk result (λ done. done.items ≡ []) }
    ensures space { IfOk result (λ done. count ≤ vec_capacity done) }
{
    let mut done = Vec::new(alloc);
    done.reserve(count)?;
    Ok(done)
}

/// So many workers.
fn staff(
    alloc: Global,
    queue: &JobQueue,
    whole: &mut JobPass,
    size: usize,
    count: usize,
) -> Result<Vec<Worker>, AllocError>
    requires size { size ≤ MAX_WORKERS }
    requires pass { IsPassOf queue.now whole.old × (view whole.old ≡ hand ALL_PARTS count []) }
    ensures pass { OnOk result (IsPassOf queue.now whole.new × (view whole.new ≡ hand (ALL_PARTS - size) count [])) }
    ensures size { IfOk result (λ workers. length workers.items ≡ size) }
    ensures fresh { IfOk result (λ workers. All (IsFresh queue.now.table.shared.table_id count) workers.items) }
{
    let mut workers = Vec::new(alloc);
    for _ in 0..size {
        let done = space(alloc, count)?;
        workers.push(new_worker(queue, whole, done, count))?;
    }
    Ok(workers)
}

/// A worker with a part of the filler's pass.
fn new_worker(
    queue: &JobQueue,
    whole: &mut JobPass,
    done: Vec<(usize, Report)>,
    count: usize,
) -> Worker
    requires pass { IsPassOf queue.now whole.old × (1 < (view whole.old).parts) × ((view whole.old).put ≡ count) }
    requires done { (done.items ≡ []) × (count ≤ vec_capacity done) }
    ensures pass { IsPassOf queue.now whole.new }
    ensures left { view whole.new ≡ hand ((view whole.old).parts - 1) count (view whole.old).taken }
    ensures fresh { IsFresh queue.now.table.shared.table_id count result }
{
    Worker {
        pass: split(queue, whole),
        done,
    }
}

/// Brings the parts of all workers together, what they took, and their reports.
fn gather(
    queue: &JobQueue,
    whole: &mut JobPass,
    reports: &mut Vec<Report>,
    mut workers: Vec<Worker>,
)
    requires pass { IsPassOf queue.now whole.old × (0 < (view whole.old).parts) }
    requires passes { All (λ (w : Done). IsPassOf queue.now w.pass × (0 < (view w.pass).parts)) workers.items }
    requires numbers { All (λ (w : Done). AreBelow (length reports.old.items) w.done.items) workers.items }
    ensures pass { IsPassOf queue.now whole.new }
    ensures parts { (view whole.new).parts ≡ (view whole.old).parts + parts_of workers.items }
    ensures put { (view whole.new).put ≡ (view whole.old).put }
    ensures taken { (h : ℕ → ℕ) →
        weigh h (view whole.new).taken ≡ weigh h (view whole.old).taken + weigh_taken h workers.items }
    ensures count { length reports.new.items ≡ length reports.old.items }
    ensures placed { reports.new.items ≡ placed reports.old.items (runs_back workers.items) }
{
    while let Some(worker) = workers.pop() {
        let Worker { pass, done } = worker;
        absorb(queue, whole, pass);
        put_reports(reports, done.as_slice());
    }
}

/// Puts reports into their places.
fn put_reports(reports: &mut Vec<Report>, done: &[(usize, Report)])
    requires numbers { AreBelow (length reports.old.items) done.now }
    ensures count { length reports.new.items ≡ length reports.old.items }
    ensures placed { reports.new.items ≡ placed reports.old.items done.now }
{
    for (number, report) in done {
        reports[*number] = *report;
    }
}

/// Each worker works with the courier at its index, in a thread of its own where one can be made.
fn work_all<R: Threads + Wait + Sync, C: Courier + Send>(
    rt: &R,
    queue: &JobQueue,
    jobs: &[Job<'_>],
    workers: &mut [Worker],
    couriers: &mut [C],
)
    requires lengths { length workers.old ≡ length couriers.old }
    requires ready { All IsReady jobs.now }
    requires may { All (MayWork queue.now.table.shared.table_id (length jobs.now)) workers.old }
    ensures lengths { (length workers.new ≡ length workers.old) × (length couriers.new ≡ length couriers.old) }
    ensures passes { All (λ w. IsPassOf queue.now w.pass) workers.new }
    ensures work { AllWorked jobs.now C.tries C.refusals workers.old workers.new couriers.old couriers.new }
{
    let Some((worker, workers)) = workers.split_first_mut() else {
        return;
    };
    let Some((courier, couriers)) = couriers.split_first_mut() else {
        return;
    };
    if workers.is_empty() {
        work(rt, queue, jobs, worker, courier);
        return;
    }
    join_mut(
        rt,
        &mut ||
            requires { MayWork queue.now.table.shared.table_id (length jobs.now) worker.now × All IsReady jobs.now }
            ensures { IsPassOf queue.entry.now worker.exit.now.pass
                × DidWork jobs.entry.now worker.entry.now worker.exit.now (C.tries courier.entry.now) (C.refusals courier.entry.now)
                (C.tries courier.exit.now) (C.refusals courier.exit.now) }
        { work(rt, queue, jobs, worker, courier) },
        &mut ||
            requires { IsSync R.row × IsSend C.row × (length workers.now ≡ length couriers.now) × All IsReady jobs.now
                × All (MayWork queue.now.table.shared.table_id (length jobs.now)) workers.now }
            ensures { (length workers.exit.now ≡ length workers.entry.now) × (length couriers.exit.now ≡ length couriers.entry.now)
                × All (λ w. IsPassOf queue.entry.now w.pass) workers.exit.now
                × AllWorked jobs.entry.now C.tries C.refusals workers.entry.now workers.exit.now couriers.entry.now couriers.exit.now }
        { work_all(rt, queue, jobs, workers, couriers) },
    );
}
