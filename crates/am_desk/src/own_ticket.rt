//! `OwnTicket`: a ticket with the desk's name in its type. A caller makes it of the ticket of
//! `begin`, and hands it to `finish_own`.
ghost use Rattle.std.specs.Prelude.{◌≡◌, None, Some, IfOk, OnErr, MatchResult};
ghost use Rattle.am_model.specs.Records.{entry};
ghost use Rattle.am_model.specs.Ticket.{report_fault, recorded};
ghost use Rattle.am_model.specs.declared.record.Call.TheVariants as call;
ghost use Rattle.am_model.specs.declared.record.Reply.TheVariants as reply;
ghost use Rattle.am_desk.specs.Calls.{Called, NoOpenFlush};
ghost use Rattle.am_desk.specs.Known.{Observes};

use crate::desk::Desk;
use crate::kind::{Kind, Origin};
use crate::name::Name;
use crate::pass::Pass;
use am_board::fault::{FinishFault, NotOpen, ReportFault};
use am_board::notice::Report;
use am_board::record::Finished;
use am_board::ticket::Ticket;
use std::marker::{Model, PhantomData};
use std::sync::Wait;

/// A ticket of this desk. Contracts see the ticket.
///
/// It can be kept in a vector or sent to another thread. It must be finished, by `Desk::finish_own`
/// alone, which has no `Foreign`.
pub struct OwnTicket<N: Name> {
    ticket: Ticket,
    of: PhantomData<N>,
}

impl<N: Name> Model for OwnTicket<N> {
    ghost use Rattle.std.specs.Prelude.{◌≡◌};
    ghost use Rattle.am_model.specs.Ticket.{TicketData};

    ghost Value = { TicketData };

    ghost view = { λ own. own.ticket };

    ghost invariant = { λ own. own.ticket.board_id ≡ N.terms.id };
}

impl<N: Name> OwnTicket<N> {
    /// Returns the own ticket of a ticket of this desk.
    ///
    /// Clause `fresh` of `Desk::begin` shows that a ticket is the desk's.
    pub fn new(ticket: Ticket) -> OwnTicket<N>
        requires { ticket.board_id ≡ N.terms.id }
        ensures { result ≡ ticket }
    {
        OwnTicket {
            ticket,
            of: PhantomData,
        }
    }

    /// Returns the ticket, to be read or noted.
    pub fn ticket(&self) -> &Ticket
        ensures ticket { result.now ≡ self.now }
        ensures ours { result.now.board_id ≡ N.terms.id }
    {
        &self.ticket
    }

    /// Stores the outcome of a report on one of the notices, as `Ticket::record` does.
    pub fn record(&mut self, report: Report) -> Result<(), ReportFault>
        ensures { MatchResult result
            (λ _. (report_fault self.old report ≡ None) × (self.new ≡ recorded self.old report))
            (λ fault. (report_fault self.old report ≡ Some fault) × (self.new ≡ self.old)) }
    {
        self.ticket.record(report)
    }

    /// Returns the ticket, for `Desk::finish`.
    pub fn into_ticket(self) -> Ticket
        ensures ticket { result ≡ self }
        ensures ours { result.board_id ≡ N.terms.id }
    {
        let OwnTicket { ticket, of: _ } = self;
        ticket
    }
}

impl<N: Name, K: Kind, L: Origin> Desk<N, K, L> {
    /// Finishes the flush of an own ticket, as `finish` does. Never allocates.
    ///
    /// # Errors
    ///
    /// `NotOpen` alone. The pass has then seen a history without an open flush of the ticket's
    /// number.
    pub fn finish_own<R: Wait>(
        &self,
        rt: &R,
        pass: &mut Pass<N, L>,
        own: OwnTicket<N>,
        now: u64,
    ) -> Result<Finished, NotOpen>
        ensures done { IfOk result (λ finished. Called N.terms pass.old (λ h. NoOpenFlush N.terms own.number h → ⊥)
            (entry pass.old.number (call.Finish now own.number own.outcomes) (reply.Finished finished)) pass.new) }
        ensures not_open { OnErr result (Observes N.terms pass.old pass.new × NoOpenFlush N.terms own.number pass.new.log) }
    {
        match self.finish(rt, pass, own.into_ticket(), now) {
            Ok(finished) => Ok(finished),
            Err(FinishFault::NotOpen) => Err(NotOpen),
            Err(FinishFault::Foreign(_ticket)) => unreachable!(),
        }
    }
}
