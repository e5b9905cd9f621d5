//! Calls on boards: from an opening to finishes that log, that remove and that are refused.
ghost use Rattle.std.specs.Prelude.{◌≡◌};
ghost use Rattle.am_bench.specs.declared.requests.board.TheConstants.{BOARD_ID};

use crate::config::INTERVAL;
use crate::requests::probe::Probe;
use crate::requests::ticket;
use crate::requests::values::{alert, config, row};
use am_alerts::alert::Alert;
use am_board::begin::Begun;
use am_board::board::Board;
use am_board::config::Config;
use am_board::fault::{BoardFault, FinishFault};
use am_board::own_ticket::OwnTicket;
use am_board::views::RowView;
use std::alloc::{AllocError, Global};

/// The id of the board, which its tickets name.
pub const BOARD_ID: u64 = 1;

/// The id of another board.
const ABROAD: u64 = 2;

/// The pass of each call.
const PASS: u32 = 0;

/// The board.
#[derive(Drop)]
struct Desk {
    board: Board,
    ghost ours: { board.id ≡ BOARD_ID },
}

pub fn make_calls(probe: &Probe, alloc: Global) -> Result<(), AllocError> {
    match Desk::open(probe, alloc, config(alloc)?) {
        Ok(mut desk) => {
            let made = desk.make_calls(probe, alloc);
            drop(desk);
            made?;
        }
        Err(_) => return Err(AllocError),
    }
    load_rows(probe, alloc)
}

/// Loads rows into a board whose history has capacity for one record.
fn load_rows(probe: &Probe, alloc: Global) -> Result<(), AllocError> {
    let mut config = config(alloc)?;
    config.limits.history = 1;
    match Desk::open(probe, alloc, config) {
        Ok(mut desk) => {
            let loaded = desk.load_rows(probe, alloc);
            drop(desk);
            loaded
        }
        Err(_) => Err(AllocError),
    }
}

impl Desk {
    fn open(probe: &Probe, alloc: Global, config: Config) -> Result<Desk, BoardFault> {
        probe.ask("Board::new");
        let board = Board::new(alloc, config, BOARD_ID)?;
        probe.show(&"made");
        Ok(Desk { board })
    }

    /// Flushes a group of two alerts that fire, then of the two as they are resolved, and then of
    /// two that fire again.
    fn make_calls(&mut self, probe: &Probe, alloc: Global) -> Result<(), AllocError> {
        self.insert_two(probe, alloc, None)?;
        look(probe, &self.board);
        self.flush(probe, alloc, 30_000)?;
        self.insert_two(probe, alloc, Some(40_000))?;
        self.flush(probe, alloc, 30_000 + INTERVAL)?;
        look(probe, &self.board);
        self.take(probe, alloc);
        self.insert_two(probe, alloc, None)?;
        self.flush_elsewhere(probe, alloc, 30_000 + 2 * INTERVAL)
    }

    /// Inserts two alerts of one group.
    fn insert_two(
        &mut self,
        probe: &Probe,
        alloc: Global,
        ends: Option<u64>,
    ) -> Result<(), AllocError> {
        self.insert(probe, alloc, alert(alloc, "1", ends)?);
        self.insert(probe, alloc, alert(alloc, "2", ends)?);
        Ok(())
    }

    fn insert(&mut self, probe: &Probe, alloc: Global, alert: Alert) {
        probe.ask("with memory: Board::insert");
        let inserted = self.board.insert(alloc, PASS, 0, alert);
        probe.show(&inserted);
    }

    /// Loads a row, and then rows that are refused before memory is asked for.
    fn load_rows(&mut self, probe: &Probe, alloc: Global) -> Result<(), AllocError> {
        let loaded = row(alloc, 0, 100, &["1", "2"])?;
        self.load(probe, alloc, "with memory: Board::load", loaded);
        let stray = row(alloc, 2, 100, &["1"])?;
        let call = "without memory: Board::load, there is no such integration";
        self.load(probe, alloc, call, stray);
        let unordered = row(alloc, 0, 100, &["2", "1"])?;
        let call = "without memory: Board::load, the label sets aren't in order";
        self.load(probe, alloc, call, unordered);
        let ahead = row(alloc, 0, 101, &["1"])?;
        let call = "without memory: Board::load, the row is ahead";
        self.load(probe, alloc, call, ahead);
        let late = row(alloc, 0, 100, &["1"])?;
        let call = "without memory: Board::load, the history is full";
        self.load(probe, alloc, call, late);
        Ok(())
    }

    fn load(&mut self, probe: &Probe, alloc: Global, call: &str, row: RowView) {
        probe.ask(call);
        let loaded = self.board.load(alloc, PASS, row, 100);
        probe.show(&loaded);
    }

    /// Hands the records out while no flush is open.
    fn take(&mut self, probe: &Probe, alloc: Global) {
        probe.ask("Board::take_history, without an open flush");
        match self.board.take_history(alloc) {
            Ok(records) => probe.show(&records.len()),
            Err(fault) => probe.show(&fault),
        }
    }

    /// Begins a flush, sends its notices and finishes it.
    fn flush(&mut self, probe: &Probe, alloc: Global, now: u64) -> Result<(), AllocError> {
        match self.begin(probe, alloc, now) {
            Some(mut own) => {
                ticket::make_calls(&mut own, probe);
                self.finish(probe, own, now);
                Ok(())
            }
            None => Err(AllocError),
        }
    }

    fn begin(&mut self, probe: &Probe, alloc: Global, now: u64) -> Option<OwnTicket<BOARD_ID>> {
        probe.ask("with memory: Board::begin");
        let begun = self.board.begin(alloc, PASS, now);
        probe.show(&begun.is_ok());
        match begun {
            Ok(Begun::Flush(ticket)) => Some(OwnTicket::new(ticket)),
            Ok(
                Begun::Quiet {
                    group: _,
                    removed: _,
                },
            ) => None,
            Ok(Begun::NothingDue) => None,
            Err(_) => None,
        }
    }

    fn finish(&mut self, probe: &Probe, own: OwnTicket<BOARD_ID>, now: u64) {
        probe.ask("Board::finish");
        match self.board.finish_own(PASS, own, now) {
            Ok(finished) => probe.show(&finished),
            Err(_not_open) => probe.show(&"NotOpen"),
        }
    }

    /// Begins a flush, and hands its ticket in elsewhere: at another board, and at one with the id of this one.
    fn flush_elsewhere(
        &mut self,
        probe: &Probe,
        alloc: Global,
        now: u64,
    ) -> Result<(), AllocError> {
        match Desk::open(probe, alloc, config(alloc)?) {
            Ok(mut namesake) => {
                let flushed = self.flush_abroad(probe, alloc, &mut namesake, now);
                drop(namesake);
                flushed
            }
            Err(_) => Err(AllocError),
        }
    }

    fn flush_abroad(
        &mut self,
        probe: &Probe,
        alloc: Global,
        namesake: &mut Desk,
        now: u64,
    ) -> Result<(), AllocError> {
        match Board::new(alloc, config(alloc)?, ABROAD) {
            Ok(mut abroad) => {
                if let Some(own) = self.begin(probe, alloc, now) {
                    finish_elsewhere(probe, &mut abroad, namesake, own, now);
                }
                drop(abroad);
                Ok(())
            }
            Err(_) => Err(AllocError),
        }
    }
}

/// Hands a ticket in at another board, which gives it back, and then at one with the id of the
/// ticket's board, which has no such flush.
fn finish_elsewhere(
    probe: &Probe,
    abroad: &mut Board,
    namesake: &mut Desk,
    own: OwnTicket<BOARD_ID>,
    now: u64,
) {
    if let Some(own) = finish_abroad(probe, abroad, own, now) {
        namesake.finish(probe, own, now);
    }
}

fn finish_abroad(
    probe: &Probe,
    abroad: &mut Board,
    own: OwnTicket<BOARD_ID>,
    now: u64,
) -> Option<OwnTicket<BOARD_ID>> {
    let ticket = own.into_ticket();
    probe.ask("Board::finish, of a ticket of another board");
    match abroad.finish(PASS, ticket, now) {
        Ok(finished) => {
            probe.show(&finished);
            None
        }
        Err(FinishFault::NotOpen) => {
            probe.show(&"NotOpen");
            None
        }
        Err(FinishFault::Foreign(ticket)) => {
            probe.show(&"Foreign");
            Some(OwnTicket::new(ticket))
        }
    }
}

fn look(probe: &Probe, board: &Board) {
    probe.ask("Board::glance");
    let glance = board.glance();
    probe.show(&glance);
    probe.ask("Board::summary");
    let summary = board.summary();
    probe.show(&summary);
    probe.ask("Board::has_empty_groups");
    let has_empty = board.has_empty_groups();
    probe.show(&has_empty);
}
