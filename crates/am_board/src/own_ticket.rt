//! `OwnTicket`: a ticket with the id of its board in its type. A caller with one board makes it of the ticket of `begin`, and
//! hands it to `Board::finish_own`, which can't hand it back.
ghost use Rattle.std.specs.Prelude.{◌≡◌, None, Some, IfOk, OnErr, MatchResult};
ghost use Rattle.am_model.specs.Records.{entry};
ghost use Rattle.am_model.specs.State.{flush_numbered};
ghost use Rattle.am_model.specs.Ticket.{report_fault, recorded};
ghost use Rattle.am_model.specs.declared.record.Call.TheVariants as Call;
ghost use Rattle.am_model.specs.declared.record.Reply.TheVariants as Reply;
ghost use Rattle.am_board.specs.History.{IsReplyAt, state_at, with_record};

use crate::board::Board;
use crate::fault::{FinishFault, NotOpen, ReportFault};
use crate::ticket::Ticket;
use am_model::notice::Report;
use am_model::record::Finished;
use std::marker::Model;

/// A ticket of the board whose id is `BOARD_ID`. Contracts see the ticket.
///
/// It can be kept in a vector. It must be finished, by `Board::finish_own` alone, which has no `Foreign`.
pub struct OwnTicket<const BOARD_ID: u64> {
    ticket: Ticket,
}

impl<const BOARD_ID: u64> Model for OwnTicket<BOARD_ID> {
    ghost use Rattle.std.specs.Prelude.{◌≡◌};
    ghost use Rattle.am_model.specs.Ticket.{TicketData};

    ghost Value = { TicketData };

    ghost view = { λ own. own.ticket };

    ghost invariant = { λ own. own.ticket.board_id ≡ BOARD_ID };
}

impl<const BOARD_ID: u64> OwnTicket<BOARD_ID> {
    /// Returns the own ticket of a ticket of this board.
    ///
    /// Clause `fresh` of `Board::begin` shows that a ticket is the board's.
    pub fn new(ticket: Ticket) -> OwnTicket<BOARD_ID>
        requires { ticket.board_id ≡ BOARD_ID }
        ensures { result ≡ ticket }
    {
        OwnTicket { ticket }
    }

    /// Returns the ticket, to be read or noted.
    pub fn ticket(&self) -> &Ticket
        ensures ticket { result.now ≡ self.now }
        ensures ours { result.now.board_id ≡ BOARD_ID }
    {
        &self.ticket
    }

    /// Stores the outcome of a report on one of the notices, as `Ticket::record` does.
    ///
    /// # Errors
    ///
    /// `Stranger` if no notice of the ticket is reported on, or one with nothing to send; `Twice` if it has an outcome.
    /// The ticket stays as it was.
    pub fn record(&mut self, report: Report) -> Result<(), ReportFault>
        ensures { MatchResult result
            (λ _. (report_fault self.old report ≡ None) × (self.new ≡ recorded self.old report))
            (λ fault. (report_fault self.old report ≡ Some fault) × (self.new ≡ self.old)) }
    {
        self.ticket.record(report)
    }

    /// Returns the ticket, for `Board::finish`.
    pub fn into_ticket(self) -> Ticket
        ensures ticket { result ≡ self.entry }
        ensures ours { result.board_id ≡ BOARD_ID }
    {
        let OwnTicket { ticket } = self;
        ticket
    }
}

impl Board {
    /// Finishes the flush of an own ticket, as `finish` does. `now` is in milliseconds. Never allocates.
    ///
    /// # Errors
    ///
    /// `NotOpen` alone: no open flush has the ticket's number. Nothing changed, and the ticket is spent.
    pub fn finish_own<const BOARD_ID: u64>(
        &mut self,
        pass: u32,
        own: OwnTicket<BOARD_ID>,
        now: u64,
    ) -> Result<Finished, NotOpen>
        requires { self.old.id ≡ BOARD_ID }
        ensures recorded { IfOk result (λ finished.
            self.new ≡ with_record self.old (entry pass (Call.Finish now own.entry.number own.entry.outcomes) (Reply.Finished finished))) }
        ensures reply { IfOk result
            (λ finished. IsReplyAt self.old (Call.Finish now own.entry.number own.entry.outcomes) (Reply.Finished finished)) }
        ensures not_open { OnErr result (flush_numbered (state_at self.old).flushes own.entry.number ≡ None) }
        ensures refused { OnErr result (self.new ≡ self.old) }
    {
        match self.finish(pass, own.into_ticket(), now) {
            Ok(finished) => Ok(finished),
            Err(FinishFault::NotOpen) => Err(NotOpen),
            Err(FinishFault::Foreign(_ticket)) => unreachable!(),
        }
    }
}
