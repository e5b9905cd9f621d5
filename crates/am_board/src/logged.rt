//! The rows that a note or a finish would log. A program that keeps the log in a file asks before the
//! call, and writes the rows once it is made.
//!
//! Both read the open flush, and never the log.
ghost use Rattle.std.specs.Prelude.{◌≡◌, ◌+◌, ◌<◌, ◌^◌, ◌++◌, ◌∷◌, [], ◌&&◌, not, IfOk, OnOk, map};
ghost use Rattle.am_model.specs.Finish.{has_succeeded};
ghost use Rattle.am_model.specs.State.{flush_numbered, time};
ghost use Rattle.am_model.specs.declared.config.Config.{Config};
ghost use Rattle.am_board.specs.Finishing.{logged_of, row_for};
ghost use Rattle.am_board.specs.Logged.{finished_rows, noted_row, row_of_note, rows_of_finish};
ghost use Rattle.am_board.specs.Refinement.{notified_state_of, state_of};
ghost use Rattle.am_board.specs.Step.{StateInvariant};

use crate::board::Board;
use crate::finish::is_delivered;
use crate::flush::{Notified, OpenFlush, find_flush};
use crate::state::State;
use crate::ticket::Ticket;
use am_alerts::sequence::copy_all;
use am_model::outcome::outcome_of;
use am_model::views::RowView;
use am_retry::Outcome;
use std::alloc::{AllocError, Global};

impl Board {
    /// Returns the row that a note of an integration of a ticket of this board would log at `now`
    /// (milliseconds). None if no open flush has the ticket's number.
    ///
    /// Where the note is then accepted, `rows` has this row in the place of the one before. Cost: the
    /// alerts of the flush.
    pub fn noted_row(
        &self,
        alloc: Global,
        ticket: &Ticket,
        integration: u32,
        now: u64,
    ) -> Result<Option<RowView>, AllocError>
        ensures { IfOk result (λ row. row ≡ noted_row self.now now integration ticket.now) }
    {
        row_to_note(alloc, &self.state, ticket.number(), integration, now)
    }

    /// Returns the rows that a finish of a ticket of this board would log at `now` (milliseconds): one
    /// for each integration that succeeded and wasn't noted. None if no open flush has the ticket's
    /// number.
    ///
    /// Where the finish is then accepted, `rows` has these rows in the place of those before. Cost: for
    /// each row the alerts of the flush.
    pub fn finished_rows(
        &self,
        alloc: Global,
        ticket: &Ticket,
        now: u64,
    ) -> Result<Vec<RowView>, AllocError>
        ensures { IfOk result (λ rows. rows.items ≡ finished_rows self.now now ticket.now) }
    {
        rows_to_finish(
            alloc,
            &self.state,
            ticket.number(),
            ticket.outcomes.as_slice(),
            now,
        )
    }
}

/// The row that a note of an integration of the flush of this number would log.
fn row_to_note(
    alloc: Global,
    state: &State,
    number: u64,
    integration: u32,
    now: u64,
) -> Result<Option<RowView>, AllocError>
    requires good { (config : Config) × StateInvariant config state.now }
    ensures { (config : Config) → StateInvariant config state.now → let s = state_of state.now in
        IfOk result (λ row. row ≡ row_of_note config (time s now) integration (flush_numbered s.flushes number)) }
{
    let Some(f) = find_flush(&state.flushes, number) else {
        return Ok(None);
    };
    let t = state.time(now);
    Ok(Some(row_of(alloc, &state.flushes[f], integration, t)?))
}

/// The rows that a finish of the flush of this number with these outcomes would log.
fn rows_to_finish(
    alloc: Global,
    state: &State,
    number: u64,
    outcomes: &[(u32, Outcome)],
    now: u64,
) -> Result<Vec<RowView>, AllocError>
    requires good { (config : Config) × StateInvariant config state.now }
    ensures { (config : Config) → StateInvariant config state.now → let s = state_of state.now in
        IfOk result (λ rows. rows.items ≡ rows_of_finish config (time s now) outcomes.now (flush_numbered s.flushes number)) }
{
    let Some(f) = find_flush(&state.flushes, number) else {
        return Ok(Vec::new(alloc));
    };
    rows_of(alloc, &state.flushes[f], outcomes, state.time(now))
}

/// The rows of the integrations of a flush whose success a finish at `t` with these outcomes logs.
fn rows_of(
    alloc: Global,
    flush: &OpenFlush,
    outcomes: &[(u32, Outcome)],
    t: u64,
) -> Result<Vec<RowView>, AllocError>
    requires fits { t + flush.now.kept_for < 2 ^ 64 }
    ensures { IfOk result (λ rows. rows.items
        ≡ map (λ a. row_for flush.now t a.integration) (logged_of outcomes.now flush.now.notified.items)) }
{
    let mut rows = Vec::new(alloc);
    let notified = flush.notified.as_slice();
    for one in notified {
        push_row(alloc, &mut rows, flush, one, outcomes, t)?;
    }
    Ok(rows)
}

/// Adds the row of an integration of a flush, if a finish logs its success.
fn push_row(
    alloc: Global,
    rows: &mut Vec<RowView>,
    flush: &OpenFlush,
    one: &Notified,
    outcomes: &[(u32, Outcome)],
    t: u64,
) -> Result<(), AllocError>
    requires fits { t + flush.now.kept_for < 2 ^ 64 }
    ensures { OnOk result (rows.new.items
        ≡ rows.old.items ++ map (λ a. row_for flush.now t a.integration) (logged_of outcomes.now (one.now ∷ []))) }
{
    if is_logged(one, outcomes) {
        rows.push(row_of(alloc, flush, one.key.integration, t)?)?;
    }
    Ok(())
}

/// Whether a finish with these outcomes logs the success of a notified integration.
fn is_logged(one: &Notified, outcomes: &[(u32, Outcome)]) -> bool
    ensures { let a = notified_state_of one.now in result ≡ (has_succeeded outcomes.now a && not a.noted) }
{
    one.sets.is_some() && (one.nothing || is_delivered(outcome_of(outcomes, one.key.integration)))
}

/// The row of an integration of a flush whose success is logged at `t`.
fn row_of(alloc: Global, flush: &OpenFlush, integration: u32, t: u64) -> Result<RowView, AllocError>
    requires fits { t + flush.now.kept_for < 2 ^ 64 }
    ensures { IfOk result (λ row. row ≡ row_for flush.now t integration) }
{
    Ok(RowView {
        group: flush.group.copy(alloc)?,
        integration,
        time: t,
        expiry: t + flush.kept_for,
        firing: copy_all(alloc, flush.sets.firing.as_slice())?,
        resolved: copy_all(alloc, flush.sets.resolved.as_slice())?,
    })
}
