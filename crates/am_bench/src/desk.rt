//! A board, and what is done with it many times over.
ghost use Rattle.std.specs.Prelude.{◌≡◌};
ghost use Rattle.am_bench.specs.declared.desk.TheConstants.{BOARD_ID};

use crate::tally::Tally;
use crate::watch::Longest;
use am_alerts::alert::Alert;
use am_board::begin::Begun;
use am_board::board::Board;
use am_board::config::{Config, MAX_GROUPS};
use am_board::fault::{BoardFault, Fault, TakeFault};
use am_board::notice::Report;
use am_board::own_ticket::OwnTicket;
use am_board::record::{Forgotten, Maintained, Record};
use am_mute::silence::Silence;
use am_retry::Outcome;
use std::alloc::Global;
use std::collections::VecDeque;
use std::time::CpuClock;

/// The id of the board, which its tickets name.
pub const BOARD_ID: u64 = 1;

/// The pass of each call.
const PASS: u32 = 0;

/// The board.
#[derive(Drop)]
pub struct Desk {
    board: Board,
    /// Of the inserts, or of the begins.
    pub calls: Longest,
    pub finishes: Longest,
    ghost ours: { board.id ≡ BOARD_ID },
}

impl Desk {
    /// A board of this configuration, with nothing in it, of which each call is timed or none.
    pub fn open(alloc: Global, config: Config, is_timed: bool) -> Result<Desk, BoardFault> {
        let board = Board::new(alloc, config, BOARD_ID)?;
        let (calls, finishes) = (Longest::new(is_timed), Longest::new(is_timed));
        Ok(Desk {
            board,
            calls,
            finishes,
        })
    }

    /// Inserts alerts, in their order, a millisecond apart. Answers how many groups were made for them.
    pub fn insert_all(
        &mut self,
        clock: &impl CpuClock,
        alloc: Global,
        now: u64,
        alerts: Vec<Alert>,
    ) -> Result<usize, Fault> {
        let mut made: usize = 0;
        for (number, alert) in alerts.into_iter().enumerate() {
            let now = now.saturating_add(number as u64);
            made = made.saturating_add(self.insert(clock, alloc, now, alert)?);
        }
        Ok(made)
    }

    fn insert(
        &mut self,
        clock: &impl CpuClock,
        alloc: Global,
        now: u64,
        alert: Alert,
    ) -> Result<usize, Fault> {
        let started = self.calls.start(clock);
        let inserted = self.board.insert(alloc, PASS, now, alert);
        self.calls.stop(clock, started);
        Ok(inserted?.made)
    }

    /// Sets silences, in their order. Answers how many replaced one.
    pub fn silence_all(
        &mut self,
        alloc: Global,
        now: u64,
        silences: Vec<Silence>,
    ) -> Result<usize, Fault> {
        let mut replaced: usize = 0;
        for silence in silences {
            if self.board.silence(alloc, PASS, now, silence)?.replaced {
                replaced = replaced.saturating_add(1);
            }
        }
        Ok(replaced)
    }

    /// Flushes each group that is due, a millisecond apart; each notice is delivered. A group that was
    /// flushed isn't due again before all are, so there are no more begins than groups, and one that
    /// finds none.
    pub fn flush_all(
        &mut self,
        clock: &impl CpuClock,
        alloc: Global,
        now: u64,
    ) -> Result<Tally, Fault> {
        let mut tally = Tally::new();
        for number in 0..=MAX_GROUPS {
            let now = now.saturating_add(number as u64);
            if !self.flush_next(clock, alloc, now, &mut tally)? {
                break;
            }
        }
        Ok(tally)
    }

    /// Flushes the group that is due first. Answers whether there was one.
    fn flush_next(
        &mut self,
        clock: &impl CpuClock,
        alloc: Global,
        now: u64,
        tally: &mut Tally,
    ) -> Result<bool, Fault> {
        let started = self.calls.start(clock);
        let begun = self.board.begin(alloc, PASS, now);
        self.calls.stop(clock, started);
        match begun {
            Ok(Begun::NothingDue) => Ok(false),
            Ok(Begun::Quiet { group: _, removed }) => {
                tally.add_quiet(removed);
                Ok(true)
            }
            Ok(Begun::Flush(ticket)) => {
                self.send(clock, OwnTicket::new(ticket), now, tally);
                Ok(true)
            }
            Err(fault) => Err(fault),
        }
    }

    /// Records each notice as delivered, and finishes the flush.
    fn send(
        &mut self,
        clock: &impl CpuClock,
        own: OwnTicket<BOARD_ID>,
        now: u64,
        tally: &mut Tally,
    ) {
        let mut own = own;
        deliver_all(&mut own, now, tally);
        let started = self.finishes.start(clock);
        let finished = self.board.finish_own(PASS, own, now);
        self.finishes.stop(clock, started);
        match finished {
            Ok(finished) => tally.add_flush(finished.removed),
            Err(_not_open) => tally.add_flush(0),
        }
    }

    /// Begins a flush of so many groups, a millisecond apart, and leaves them open.
    pub fn begin_many(
        &mut self,
        alloc: Global,
        now: u64,
        count: usize,
        tickets: &mut VecDeque<OwnTicket<BOARD_ID>>,
    ) -> Result<(), Fault> {
        for number in 0..count {
            // (the memory for a ticket comes before the ticket)
            tickets.reserve(1)?;
            let now = now.saturating_add(number as u64);
            match self.board.begin(alloc, PASS, now) {
                Ok(Begun::NothingDue) => return Ok(()),
                Ok(
                    Begun::Quiet {
                        group: _,
                        removed: _,
                    },
                ) => {}
                Ok(Begun::Flush(ticket)) => tickets.push_back_reserved(OwnTicket::new(ticket)),
                Err(fault) => return Err(fault),
            }
        }
        Ok(())
    }

    /// When the next group without an open flush is due.
    pub fn next_due(&self) -> Option<u64> {
        self.board.next_due()
    }

    /// Logs the success of a ticket's first notice. Answers whether it was logged.
    pub fn note(&mut self, alloc: Global, own: &OwnTicket<BOARD_ID>, now: u64) -> bool {
        self.board.note(alloc, PASS, own.ticket(), 0, now).is_ok()
    }

    /// Ends a flush. Answers whether it was open.
    pub fn finish(&mut self, own: OwnTicket<BOARD_ID>, now: u64) -> bool {
        self.board.finish_own(PASS, own, now).is_ok()
    }

    /// Ends these flushes.
    pub fn finish_all(&mut self, tickets: VecDeque<OwnTicket<BOARD_ID>>, now: u64) {
        let mut left = tickets;
        while !left.is_empty() {
            let own = left.pop_front().unwrap();
            self.finish(own, now);
        }
        left.destroy_empty();
    }

    /// Removes empty groups and expired rows.
    pub fn maintain(&mut self, alloc: Global, now: u64) -> Result<Maintained, Fault> {
        self.board.maintain(alloc, PASS, now)
    }

    /// Forgets alerts that are resolved and in no group, and silences that are over.
    pub fn forget(&mut self, alloc: Global, now: u64) -> Result<Forgotten, Fault> {
        self.board.forget(alloc, PASS, now)
    }

    /// Hands the records out.
    pub fn take_history(&mut self, alloc: Global) -> Result<Vec<Record>, TakeFault> {
        self.board.take_history(alloc)
    }
}

/// Records each notice of a ticket as delivered.
pub fn deliver_all(own: &mut OwnTicket<BOARD_ID>, now: u64, tally: &mut Tally) {
    for index in 0..own.ticket().notices().len() {
        if let Some(notice) = own.ticket().notices().get(index) {
            let alerts = notice.firing.len().saturating_add(notice.resolved.len());
            let report = Report {
                board_id: notice.board_id,
                ticket: notice.ticket,
                integration: notice.integration,
                outcome: Outcome::Delivered,
                attempts: 1,
                ended: now,
            };
            tally.add_notice(alerts);
            let _ = own.record(report);
        }
    }
}
