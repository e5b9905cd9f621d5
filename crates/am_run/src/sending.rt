//! The sending of notices.
//!
//! `send_jobs` concludes from what `run_jobs` ensures that each report is of a sending whose
//! attempts went as the scripts plan (`Sendings`). They are among the attempts of one courier, all
//! of which are answered so. Two such reports on a notice are one (`scripts_determine_reports`).
//! Exception: a Starved report, since memory can lack at any attempt. It ends the run.
//!
//! A scenario whose times go far back can need very many attempts: the deadline counts from the
//! clock, and the attempts start at the phase's own time. There is at most one for each half second
//! between the two, and they take no memory.
ghost use Rattle.std.specs.Prelude.{◌≡◌, ◌≤◌, ◌++◌, ◌||◌, All, IfOk, IsTrue, OnOk, map};
ghost use Rattle.am_alerts.specs.declared.limits.TheConstants.{MAX_TIME};
ghost use Rattle.std.specs.List.{AllZip};
ghost use Rattle.am_model.specs.Finish.{is_delivered};
ghost use Rattle.am_model.specs.Notice.{is_nothing};
ghost use Rattle.am_pool.specs.Delivery.{is_starved};
ghost use Rattle.am_pool.specs.Work.{IsReady};
ghost use Rattle.am_pool.specs.Sendings.{IsNotStarved, IsSendingOf, end_on};
ghost use Rattle.am_run.specs.Steps.{StartsAt, notices_of, opened_of};
ghost use Rattle.am_run.specs.Turns.{last_end, report_on, reports_on, sendable, to_send};

use crate::courier::Answering;
use am_board::notice::{Notice, Report};
use am_desk::{Name, OwnTicket};
use am_pool::{Job, PoolFault, run_jobs};
use am_retry::Outcome;
use std::alloc::{AllocError, Global};
use std::sync::Wait;
use std::thread::Threads;

/// The notices of these tickets that have something to send, by ticket and integration, each to be
/// sent from the time `at` on.
pub fn jobs_of<'t, N: Name>(
    alloc: Global,
    tickets: &'t [OwnTicket<N>],
    at: u64,
) -> Result<Vec<Job<'t>>, AllocError>
    requires { at ≤ MAX_TIME }
    ensures ready { IfOk result (λ jobs. All IsReady jobs.items) }
    ensures starts { IfOk result (λ jobs. All (StartsAt at) jobs.items) }
    ensures notices { IfOk result (λ jobs. notices_of jobs.items ≡ to_send (map opened_of tickets.now)) }
{
    let mut jobs = Vec::new(alloc);
    for own in tickets {
        add_jobs(own.ticket().notices(), at, &mut jobs)?;
    }
    Ok(jobs)
}

/// Adds those of the notices that have something to send.
fn add_jobs<'t>(notices: &'t [Notice], at: u64, jobs: &mut Vec<Job<'t>>) -> Result<(), AllocError>
    requires start { at ≤ MAX_TIME }
    requires ready { All IsReady jobs.old.items }
    requires starts { All (StartsAt at) jobs.old.items }
    ensures ready { OnOk result (All IsReady jobs.new.items) }
    ensures starts { OnOk result (All (StartsAt at) jobs.new.items) }
    ensures notices { OnOk result (notices_of jobs.new.items ≡ notices_of jobs.old.items ++ sendable notices.now) }
{
    for notice in notices {
        if !notice.nothing() {
            jobs.push(Job { notice, start: at })?;
        }
    }
    Ok(())
}

/// Sends the notice of each job once, by couriers of whom it is known how they answer.
pub fn send_jobs<R: Threads + Wait + Sync, C: Answering + Send>(
    rt: &R,
    alloc: Global,
    couriers: &mut [C],
    jobs: &[Job<'_>],
) -> Result<Vec<Report>, PoolFault>
    requires ready { All IsReady jobs.now }
    ensures { IfOk result (λ reports. AllZip (IsSendingOf C.answers) jobs.now reports.items) }
{
    let sent = run_jobs(rt, alloc, couriers, jobs);
    know_tries(couriers);
    sent
}

/// Each of these couriers has made no tries but those that it may make. It does nothing: what it says
/// is its contract.
fn know_tries<C: Answering>(couriers: &[C])
    ensures { All (λ c. All C.answers (C.tries c)) couriers.now }
{
    let _ = couriers;
}

/// Whether no attempt that was due lacked memory.
pub fn none_starved(reports: &[Report]) -> bool
    ensures { IsTrue result → All IsNotStarved reports.now }
{
    for report in reports {
        if is_starved(report) {
            return false;
        }
    }
    true
}

fn is_starved(report: &Report) -> bool
    ensures { result ≡ is_starved report.now.outcome }
{
    report.outcome == Outcome::Starved
}

/// Whether a notice of which this outcome is recorded succeeded: it has nothing to send, or was
/// delivered.
pub fn has_succeeded(notice: &Notice, outcome: Option<Outcome>) -> bool
    ensures { result ≡ is_nothing notice.now || is_delivered outcome }
{
    notice.nothing() || matches!(outcome, Some(Outcome::Delivered))
}

/// When the sending of a ticket's notice for an integration was over, which started at `at`.
pub fn end_on(reports: &[Report], ticket: u64, integration: u32, at: u64) -> u64
    ensures { result ≡ end_on at (report_on ticket integration reports.now) }
{
    for report in reports {
        if report.ticket == ticket && report.integration == integration {
            return report.ended;
        }
    }
    at
}

/// When the sending of a ticket's notices, which started at `at`, was over.
pub fn last_end(reports: &[Report], ticket: u64, at: u64) -> u64
    ensures { result ≡ last_end at (reports_on ticket reports.now) }
{
    let mut end = at;
    for report in reports {
        if report.ticket == ticket {
            end = end.max(report.ended);
        }
    }
    end
}
