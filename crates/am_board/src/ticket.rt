//! `Ticket`: the notices of an open flush and their outcomes. `begin` makes it, whoever sends reads
//! it and records reports, and `finish` takes it.
ghost use Rattle.std.specs.Prelude.{◌≡◌, ◌≤◌, Some, None, MatchResult, length, slice_get};
ghost use Rattle.std.specs.Option.{option_and_then};
ghost use Rattle.am_model.specs.declared.config.TheConstants.{MAX_INTEGRATIONS};
ghost use Rattle.am_model.specs.Ticket.{outcome_of as first_outcome, report_fault, recorded};
ghost use Rattle.am_model.specs.Notice.{has_something_for as has_something};

use crate::fault::ReportFault;
use crate::group::GroupName;
use crate::notice::{Notice, Report};
use am_model::outcome::outcome_of;
use am_retry::Outcome;
use std::marker::Model;

/// An open flush that has to be finished, with its notices and their outcomes.
///
/// There is one notice for each integration that needs an update. A ticket can be neither copied
/// nor dropped: `finish` alone takes it. Its list of outcomes has capacity for each notice that has
/// none yet.
pub struct Ticket {
    pub(crate) board_id: u64,
    pub(crate) number: u64,
    pub(crate) group: GroupName,
    pub(crate) deadline: u64,
    pub(crate) notices: Vec<Notice>,
    /// Has capacity for one outcome of each notice.
    pub(crate) outcomes: Vec<(u32, Outcome)>,
}

impl Model for Ticket {
    ghost use Rattle.std.specs.Prelude.{◌+◌, ◌≤◌, vec_len, vec_capacity};
    ghost use Rattle.am_model.specs.declared.config.TheConstants.{MAX_INTEGRATIONS};
    ghost use Rattle.am_model.specs.Ticket.{TicketData};
    ghost use Rattle.am_model.specs.Ticket.{count_unreported};

    ghost Value = { TicketData };

    ghost view = { λ t.
        record {
          board_id = t.board_id;
          number = t.number;
          group = t.group;
          deadline = t.deadline;
          notices = t.notices.items;
          outcomes = t.outcomes.items;
        } };

    ghost invariant = { λ t.
        (count_unreported t.outcomes.items t.notices.items + vec_len t.outcomes ≤ vec_capacity t.outcomes)
        × (vec_len t.notices ≤ MAX_INTEGRATIONS) };
}

impl Ticket {
    /// Returns the number of the flush.
    pub fn number(&self) -> u64
        ensures { result ≡ self.now.number }
    {
        self.number
    }

    /// Returns the id of the board or desk that made this ticket.
    pub fn board_id(&self) -> u64
        ensures { result ≡ self.now.board_id }
    {
        self.board_id
    }

    /// Returns the name of the group that is flushed.
    pub fn group(&self) -> &GroupName
        ensures { result.now ≡ self.now.group }
    {
        &self.group
    }

    /// Returns the time, in milliseconds, before which an attempt can start.
    pub fn deadline(&self) -> u64
        ensures { result ≡ self.now.deadline }
    {
        self.deadline
    }

    /// Returns the notices by integration, at most `MAX_INTEGRATIONS`.
    pub fn notices(&self) -> &[Notice]
        ensures notices { result.now ≡ self.now.notices }
        ensures within { length self.now.notices ≤ MAX_INTEGRATIONS }
    {
        self.notices.as_slice()
    }

    /// Returns the outcome that was recorded for the notice at `index`, if there is one.
    pub fn outcome(&self, index: usize) -> Option<Outcome>
        ensures { result ≡ option_and_then (λ n. first_outcome self.now.outcomes n.integration) (slice_get self.now.notices index) }
    {
        match self.notices.get(index) {
            None => None,
            Some(notice) => outcome_of(self.outcomes.as_slice(), notice.integration),
        }
    }

    /// Stores the outcome of a report on one of the notices. Never allocates.
    ///
    /// # Errors
    ///
    /// In this order, and each changes nothing:
    /// - `Stranger`: another board or flush, or no notice with something to send has this
    ///   integration.
    /// - `Twice`: the notice has an outcome.
    pub fn record(&mut self, report: Report) -> Result<(), ReportFault>
        ensures { MatchResult result
            (λ _. (report_fault self.old report ≡ None) × (self.new ≡ recorded self.old report))
            (λ fault. (report_fault self.old report ≡ Some fault) × (self.new ≡ self.old)) }
    {
        if report.board_id != self.board_id || report.ticket != self.number {
            return Err(ReportFault::Stranger);
        }
        if !has_something_for(self.notices.as_slice(), report.integration) {
            return Err(ReportFault::Stranger);
        }
        if outcome_of(self.outcomes.as_slice(), report.integration).is_some() {
            return Err(ReportFault::Twice);
        }
        self.outcomes
            .push_reserved((report.integration, report.outcome));
        Ok(())
    }
}

fn has_something_for(notices: &[Notice], integration: u32) -> bool
    ensures { result ≡ has_something notices.now integration }
{
    notices.iter().any(|notice| notice.integration == integration && !notice.nothing())
}
