//! Notes: `note_success` logs one success before its flush is finished.
ghost use Rattle.std.specs.Prelude.{◌≡◌, ℕ, ◌+◌, ◌<◌, ◌^◌, true, List, None, Some, slice_get, slice_index_or, map};
ghost use Rattle.std.specs.Prelude.{vec_len, All, IsPermutation, IsSome, IfOk, IfErr, OnOk, MatchResult};
ghost use Rattle.std.specs.Option.{option_map};
ghost use Rattle.std.specs.List.{IsDistinct};
ghost use Rattle.am_model.specs.Laws.{same_number};
ghost use Rattle.am_model.specs.Causes.{flush_cause, notified_cause};
ghost use Rattle.am_model.specs.Finish.{log_with};
ghost use Rattle.am_model.specs.Records.{IsNoteOf};
ghost use Rattle.am_board.specs.Refinement.{IsNotified, notified_state_of, flush_state, state_of};
ghost use Rattle.am_board.specs.LogRows.{log_rows};
ghost use Rattle.am_board.specs.Finishing.{row_for, KnowTheSame, IsReadyAt, IsNotedAt};
ghost use Rattle.am_model.specs.Note.{is_ready, notified_by};
ghost use Rattle.am_board.specs.Noting.{IsNoteTarget};
ghost use Rattle.am_model.specs.State.{State as Data, flush_numbered};
ghost use Rattle.am_board.specs.Step.{StateInvariant, AppliesCall, LeavesUnchanged, IsNoteAnswer};
ghost use Rattle.am_model.specs.declared.config.Config.{Config as ConfigData};
ghost use Rattle.am_model.specs.declared.views.RowView.{RowView};

use crate::config::Config;
use crate::fault::NoteFault;
use crate::finish::{is_delivered, log_sets};
use crate::flush::{Notified, OpenFlush, find_flush, find_notified};
use crate::group::GroupName;
use crate::record::{Call, Noted, Record, Reply};
use crate::state::State;
use crate::ticket::Ticket;
use am_alerts::labels::Labels;
use am_nflog::NfLog;
use am_retry::Outcome;
use std::collections::VecDeque;

/// Logs the success of the notice at an index of a ticket of this desk, before its flush is finished.
pub(crate) fn note_success(
    config: &Config,
    state: &mut State,
    pass: u32,
    ticket: &Ticket,
    index: usize,
    now: u64,
) -> Result<Noted, NoteFault>
    requires good { StateInvariant config.now state.old }
    ensures { MatchResult result
        (λ _. (flush_cause config.now (vec_len state.old.history) (state_of state.old) ticket.now index
        (flush_numbered (state_of state.old).flushes ticket.now.number) ≡ None)
        × ((r : Record) × IsNoteOf pass now ticket.now index r × ((id : ℕ) → AppliesCall config.now id r state.old state.new)))
        (λ fault. IsNoteAnswer (flush_cause config.now (vec_len state.old.history) (state_of state.old) ticket.now index
        (flush_numbered (state_of state.old).flushes ticket.now.number)) fault × LeavesUnchanged config.now state.old state.new) }
{
    let found = find_noting(&state.flushes, ticket, index)?;
    if !state.has_space(1, config.limits.history) {
        return Err(NoteFault::HistoryFull);
    }
    if state.history.reserve(state.flushes.len() + 1).is_err() {
        return Err(NoteFault::NoMemory);
    }
    let t = state.time(now);
    state.clock = t;
    log_at_once(
        &mut state.log,
        &mut state.flushes[found.flush],
        found.notified,
        t,
    );
    let call = Call::Note {
        now,
        number: ticket.number(),
        integration: found.integration,
        outcome: found.outcome,
    };
    let reply = Reply::Noted;
    state.history.push_reserved(Record { pass, call, reply });
    Ok(Noted)
}

/// What is noted: indexes of the flush and of the integration in it, the integration, its outcome.
#[derive(Clone, Copy)]
struct NoteTarget {
    flush: usize,
    notified: usize,
    integration: u32,
    outcome: Option<Outcome>,
}

/// Returns what a note of the notice at an index of a ticket logs, if it can be noted.
fn find_noting(
    flushes: &VecDeque<OpenFlush>,
    ticket: &Ticket,
    index: usize,
) -> Result<NoteTarget, NoteFault>
    requires { IsDistinct same_number (map flush_state flushes.now.items) }
    ensures found { IfOk result (IsNoteTarget flushes.now.items ticket.now index) }
    ensures cause { (config : ConfigData) (records : ℕ) (s : Data) → s.flushes ≡ map flush_state flushes.now.items
        → IfErr result (λ fault. flush_cause config records s ticket.now index (flush_numbered s.flushes ticket.now.number) ≡ Some fault) }
{
    let Some(flush) = find_flush(flushes, ticket.number()) else {
        return Err(NoteFault::NotOpen);
    };
    let Some(integration) = integration_at(ticket, index) else {
        return Err(NoteFault::NotReady);
    };
    let outcome = ticket.outcome(index);
    let notified = find_ready(&flushes[flush], integration, outcome)?;
    Ok(NoteTarget {
        flush,
        notified,
        integration,
        outcome,
    })
}

/// The integration of the notice at an index of a ticket.
fn integration_at(ticket: &Ticket, index: usize) -> Option<u32>
    ensures { result ≡ option_map (λ n. n.integration) (slice_get ticket.now.notices index) }
{
    match ticket.notices().get(index) {
        None => None,
        Some(notice) => Some(notice.integration),
    }
}

/// Returns the index of an integration that can be noted among those of a flush.
fn find_ready(
    flush: &OpenFlush,
    integration: u32,
    outcome: Option<Outcome>,
) -> Result<usize, NoteFault>
    ensures ready { IfOk result (IsReadyAt flush.now integration outcome) }
    ensures cause { (config : ConfigData) (records : ℕ) (s : Data)
        → IfErr result (λ fault. notified_cause config records s outcome (notified_by (flush_state flush.now) integration) ≡ Some fault) }
{
    let Some(a) = find_notified(flush.notified.as_slice(), integration) else {
        return Err(NoteFault::NotReady);
    };
    check_ready(&flush.notified[a], outcome)?;
    Ok(a)
}

/// Returns whether an integration can be noted with this outcome.
fn check_ready(notified: &Notified, outcome: Option<Outcome>) -> Result<(), NoteFault>
    ensures ready { OnOk result ((is_ready outcome (notified_state_of notified.now) ≡ true) × IsSome notified.now.sets) }
    ensures cause { (config : ConfigData) (records : ℕ) (s : Data)
        → IfErr result (λ fault. notified_cause config records s outcome (Some (notified_state_of notified.now)) ≡ Some fault) }
{
    if !(notified.nothing || is_delivered(outcome)) {
        return Err(NoteFault::NotReady);
    }
    if notified.sets.is_none() {
        return Err(NoteFault::Already);
    }
    Ok(())
}

/// Logs the success of an integration of an open flush, which is noted from now on.
fn log_at_once(log: &mut NfLog<GroupName, Labels>, flush: &mut OpenFlush, a: usize, t: u64)
    requires index { a < vec_len flush.old.notified }
    requires notified { All (IsNotified log.old flush.old) flush.old.notified.items }
    requires fits { t + flush.old.kept_for < 2 ^ 64 }
    ensures known { KnowTheSame log.new log.old }
    ensures flush { IsNotedAt a flush.old flush.new }
    ensures rows { (d : Notified) → let notified = slice_index_or flush.old.notified.items a d in IsSome notified.sets
        → (rows : List RowView) → IsPermutation (log_rows log.old) rows
        → IsPermutation (log_rows log.new) (log_with (row_for flush.old t notified.key.integration) rows) }
{
    let kept_for = flush.kept_for;
    let notified = &mut flush.notified[a];
    if let Some(sets) = notified.sets.take() {
        log_sets(log, &notified.key, sets, kept_for, t);
    }
}
