//! A board, and what is done with it when time has passed.
ghost use Rattle.std.specs.Prelude.{◌≡◌, ◌≤◌, All, IfOk, OnOk};
ghost use Rattle.am_alerts.specs.declared.limits.TheConstants.{MAX_TIME};
ghost use Rattle.am_embedded.specs.declared.dispatcher.TheConstants.{BOARD_ID};
ghost use Rattle.am_pool.specs.Work.{IsReady};

use am_alerts::alert::Alert;
use am_alerts::limits::MAX_TIME;
use am_board::begin::Begun;
use am_board::board::Board;
use am_board::config::{Config, MAX_INTEGRATIONS};
use am_board::fault::{BoardFault, Fault};
use am_board::notice::{Notice, Report};
use am_board::own_ticket::OwnTicket;
use am_board::record::Inserted;
use am_board::views::Summary;
use am_pool::{Courier, Job, MAX_JOBS, PoolFault, run_jobs};
use am_seed::Seed;
use std::alloc::{AllocError, Global};
use std::sync::Wait;
use std::thread::Threads;

/// The id of the board, which its tickets carry. Each board of a program needs an id of its own.
const BOARD_ID: u64 = 1;

/// The pass of each call: one thread makes them all.
const PASS: u32 = 0;

/// How many groups a round begins at most: 128. Then their notices aren't too many for `run_jobs`.
const MOST_BEGUN: usize = MAX_JOBS / MAX_INTEGRATIONS;

/// The board.
#[derive(Drop)]
pub struct Dispatcher {
    board: Board,
    ghost ours: { board.id ≡ BOARD_ID },
}

/// What a round of flushes did.
#[derive(Clone, Copy)]
pub struct Round {
    /// How many groups had notices.
    pub flushed: usize,
    /// How many groups had none, since no integration needed an update.
    pub quiet: usize,
    /// How many successes were logged.
    pub logged: usize,
    /// When the last sending was over, in milliseconds; the round's own time if nothing was sent.
    pub ended: u64,
}

/// Why a round isn't complete. Each flush that it began is finished all the same.
#[derive(Clone, Copy)]
pub enum RoundFault {
    /// A group couldn't be flushed; it stays due.
    Begin(Fault),
    /// The notices weren't sent. Their groups are due again after `group_interval`.
    Send(PoolFault),
}

impl Dispatcher {
    /// Returns a board of this configuration, with nothing in it. Its hashes start from a seed that
    /// the program drew.
    pub fn open(alloc: Global, config: Config, seed: Seed) -> Result<Dispatcher, BoardFault> {
        let board = Board::seeded(alloc, config, BOARD_ID, seed)?;
        Ok(Dispatcher { board })
    }

    /// Inserts an alert into the board.
    pub fn insert(&mut self, alloc: Global, now: u64, alert: Alert) -> Result<Inserted, Fault> {
        self.board.insert(alloc, PASS, now, alert)
    }

    /// Returns until when the program may sleep, unless an alert comes earlier: `None` if no group is there.
    pub fn next_due(&self) -> Option<u64> {
        self.board.next_due()
    }

    /// Begins the groups that are due, at most 128, sends their notices with the couriers in threads, and finishes them.
    /// Call it again while `next_due` is at most `now`.
    pub fn send_due<R: Threads + Wait + Sync, C: Courier + Send>(
        &mut self,
        rt: &R,
        alloc: Global,
        couriers: &mut [C],
        now: u64,
    ) -> Result<Round, RoundFault> {
        let mut round = Round {
            flushed: 0,
            quiet: 0,
            logged: 0,
            ended: now.min(MAX_TIME),
        };
        // From here on each ticket has to get to `finish`: no `?`, and no `return`.
        let mut open = Vec::new(alloc);
        let begun = self.begin_due(alloc, now, &mut open, &mut round);
        let sent = send_all(rt, alloc, couriers, &mut open, &mut round);
        self.finish_all(open, &mut round);
        match (begun, sent) {
            (Ok(()), Ok(())) => Ok(round),
            (Err(fault), _) => Err(RoundFault::Begin(fault)),
            (_, Err(fault)) => Err(RoundFault::Send(fault)),
        }
    }

    /// Begins groups until none is due, `MOST_BEGUN` are begun, or the limit of open flushes is reached.
    fn begin_due(
        &mut self,
        alloc: Global,
        now: u64,
        open: &mut Vec<OwnTicket<BOARD_ID>>,
        round: &mut Round,
    ) -> Result<(), Fault> {
        for _ in 0..MOST_BEGUN {
            // (the memory for a ticket comes before the ticket)
            open.reserve(1)?;
            match self.board.begin(alloc, PASS, now) {
                Ok(Begun::Flush(ticket)) => {
                    round.flushed = round.flushed.saturating_add(1);
                    open.push_reserved(OwnTicket::new(ticket));
                }
                Ok(
                    Begun::Quiet {
                        group: _,
                        removed: _,
                    },
                ) => round.quiet = round.quiet.saturating_add(1),
                Ok(Begun::NothingDue) => return Ok(()),
                Err(Fault::TooManyOpen) => return Ok(()),
                Err(fault) => return Err(fault),
            }
        }
        Ok(())
    }

    /// Finishes the flushes, at the time when the last sending was over.
    fn finish_all(&mut self, open: Vec<OwnTicket<BOARD_ID>>, round: &mut Round) {
        let mut left = open;
        while !left.is_empty() {
            match self.board.finish_own(PASS, left.remove(0), round.ended) {
                Ok(finished) => round.logged = round.logged.saturating_add(finished.logged),
                Err(_not_open) => {}
            }
        }
        left.destroy_empty();
    }

    /// Returns how much there is on the board.
    pub fn summary(&self) -> Summary {
        self.board.summary()
    }
}

/// Sends the notices of these tickets, and records in each ticket how it went.
fn send_all<R: Threads + Wait + Sync, C: Courier + Send>(
    rt: &R,
    alloc: Global,
    couriers: &mut [C],
    open: &mut Vec<OwnTicket<BOARD_ID>>,
    round: &mut Round,
) -> Result<(), PoolFault> {
    let start = round.ended.min(MAX_TIME);
    for report in send(rt, alloc, couriers, open.as_slice(), start)? {
        round.ended = round.ended.max(report.ended);
        record(open, report);
    }
    Ok(())
}

/// Sends the notices of these tickets from a time on.
fn send<R: Threads + Wait + Sync, C: Courier + Send>(
    rt: &R,
    alloc: Global,
    couriers: &mut [C],
    open: &[OwnTicket<BOARD_ID>],
    start: u64,
) -> Result<Vec<Report>, PoolFault>
    requires { start ≤ MAX_TIME }
{
    let jobs = jobs_of(alloc, open, start)?;
    run_jobs(rt, alloc, couriers, jobs.as_slice())
}

/// Returns the notices that have something to send, each to be sent from this time on.
fn jobs_of<'t>(
    alloc: Global,
    open: &'t [OwnTicket<BOARD_ID>],
    start: u64,
) -> Result<Vec<Job<'t>>, AllocError>
    requires { start ≤ MAX_TIME }
    ensures { IfOk result (λ jobs. All IsReady jobs.items) }
{
    let mut jobs = Vec::new(alloc);
    for own in open {
        add_jobs(own.ticket().notices(), start, &mut jobs)?;
    }
    Ok(jobs)
}

fn add_jobs<'t>(
    notices: &'t [Notice],
    start: u64,
    jobs: &mut Vec<Job<'t>>,
) -> Result<(), AllocError>
    requires start { start ≤ MAX_TIME }
    requires ready { All IsReady jobs.old.items }
    ensures { OnOk result (All IsReady jobs.new.items) }
{
    for notice in notices {
        if !notice.nothing() {
            jobs.push(Job { notice, start })?;
        }
    }
    Ok(())
}

/// Records a report in its ticket. A report that is refused counts as not delivered.
fn record(open: &mut Vec<OwnTicket<BOARD_ID>>, report: Report) {
    for own in open.iter_mut() {
        if own.ticket().number() == report.ticket {
            let _ = own.record(report);
        }
    }
}
