//! Loads: `load_row` puts a row that another board's log had into the log, unless the log has one for
//! its group and integration that is as late.
//!
//! The copies for the log and the record come first. The log's own growth is its change, and the
//! last that can fail. No definition sees which of the log's keys have no row.
ghost use Rattle.std.specs.Prelude.{◌≡◌, ℕ, true, None, IfOk, IsPermutation, MatchResult, OnOk, OnErr, vec_len, if◌then◌else◌};
ghost use Rattle.am_alerts.specs.Fault.{ok_unless};
ghost use Rattle.am_alerts.specs.Labels.{label_set_cmp};
ghost use Rattle.am_nflog.specs.Members.{is_ascending};
ghost use Rattle.am_model.specs.Causes.{load_cause, row_cause};
ghost use Rattle.am_model.specs.Begin.{log_row};
ghost use Rattle.am_model.specs.Finish.{log_with};
ghost use Rattle.am_model.specs.Load.{has_integration, is_ordered, is_put, loaded};
ghost use Rattle.am_model.specs.Records.{entry};
ghost use Rattle.am_model.specs.State.{time};
ghost use Rattle.am_board.specs.Loading.{key_of, KnowsNoLess};
ghost use Rattle.am_board.specs.LogRows.{log_rows};
ghost use Rattle.am_board.specs.Refinement.{state_of};
ghost use Rattle.am_board.specs.Step.{StateInvariant, AppliesCall, LeavesUnchanged, IsLoadAnswer};

use crate::config::Config;
use crate::fault::LoadFault;
use crate::group::GroupName;
use crate::record::{Call, Loaded, Record, Reply};
use crate::state::State;
use am_alerts::labels::Labels;
use am_model::boxed::Boxed;
use am_model::views::RowView;
use am_nflog::{LogKey, LogRow, Members, NfLog};
use std::alloc::{AllocError, Global};

/// Puts a row into the log, unless it is expired or the log has one there that is as late.
pub(crate) fn load_row(
    alloc: Global,
    config: &Config,
    state: &mut State,
    pass: u32,
    now: u64,
    row: RowView,
) -> Result<Loaded, LoadFault>
    requires good { StateInvariant config.now state.old }
    ensures { MatchResult result
        (λ loaded. (load_cause config.now (vec_len state.old.history) (state_of state.old) (time (state_of state.old) now) row ≡ None)
        × ((id : ℕ) → AppliesCall config.now id (entry pass (Call.Load now row) (Reply.Loaded loaded)) state.old state.new))
        (λ fault. IsLoadAnswer
        (load_cause config.now (vec_len state.old.history) (state_of state.old) (time (state_of state.old) now) row) fault
        × LeavesUnchanged config.now state.old state.new) }
{
    let t = state.time(now);
    check_row(config, &row, t)?;
    if !state.has_space(1, config.limits.history) {
        return Err(LoadFault::HistoryFull);
    }
    let key = key_of(alloc, &row)?;
    let logged = logged_of(alloc, &row)?;
    let row = Boxed::new(alloc, row)?;
    state.history.reserve(state.flushes.len() + 1)?;
    let loaded = put_row(&mut state.log, key, logged, row.get(), t)?;

    state.clock = t;
    let call = Call::Load { now, row };
    let reply = Reply::Loaded(loaded);
    state.history.push_reserved(Record { pass, call, reply });
    Ok(loaded)
}

/// Refuses a row without an integration of the configuration, with label sets out of order, or of a
/// time after `t`.
fn check_row(config: &Config, row: &RowView, t: u64) -> Result<(), LoadFault>
    ensures cause { result ≡ ok_unless (row_cause config.now t row.now) tt }
    ensures ordered { OnOk result (is_ordered row.now ≡ true) }
{
    if !has_integration(config, row) {
        return Err(LoadFault::NoIntegration);
    }
    if !(is_ascending(row.firing.as_slice()) && is_ascending(row.resolved.as_slice())) {
        return Err(LoadFault::Unordered);
    }
    if row.time > t {
        return Err(LoadFault::Ahead);
    }
    Ok(())
}

/// Returns whether the configuration has a row's integration.
fn has_integration(config: &Config, row: &RowView) -> bool
    ensures { result ≡ has_integration config.now row.now }
{
    row.group.route <= config.routes.last()
        && (row.integration as usize) < config.integrations_of(&row.group).len()
}

/// Returns whether label sets are in their order, each once.
fn is_ascending(sets: &[Labels]) -> bool
    ensures { result ≡ is_ascending label_set_cmp sets.now }
{
    for i in 1..sets.len() {
        if sets[i - 1] >= sets[i] {
            return false;
        }
    }
    true
}

/// Returns the key of a row.
fn key_of(alloc: Global, row: &RowView) -> Result<LogKey<GroupName>, AllocError>
    ensures { IfOk result (λ key. key ≡ key_of row.now) }
{
    Ok(LogKey {
        group: row.group.copy(alloc)?,
        integration: row.integration,
    })
}

/// Returns a row as the log keeps it under its key.
fn logged_of(alloc: Global, row: &RowView) -> Result<LogRow<Labels>, AllocError>
    requires { is_ordered row.now ≡ true }
    ensures { IfOk result (λ logged. logged ≡ log_row row.now) }
{
    Ok(LogRow {
        time: row.time,
        firing: Members::new(alloc, row.firing.copy(alloc)?.into_vec())?,
        resolved: Members::new(alloc, row.resolved.copy(alloc)?.into_vec())?,
        expiry: row.expiry,
    })
}

/// Puts a row at its key, unless it is expired at `t` or the log has one there that is as late. On an
/// error the log is as it was.
fn put_row(
    log: &mut NfLog<GroupName, Labels>,
    key: LogKey<GroupName>,
    logged: LogRow<Labels>,
    row: &RowView,
    t: u64,
) -> Result<Loaded, AllocError>
    requires key { key ≡ key_of row.now }
    requires logged { logged ≡ log_row row.now }
    ensures loaded { IfOk result (λ x. x ≡ loaded (log_rows log.old) t row.now) }
    ensures rows { OnOk result (IsPermutation (log_rows log.new)
        (if is_put (loaded (log_rows log.old) t row.now) then log_with row.now (log_rows log.old) else log_rows log.old)) }
    ensures known { KnowsNoLess log.old log.new }
    ensures err { OnErr result (log.new ≡ log.old) }
{
    if row.expiry < t {
        return Ok(Loaded::Expired);
    }
    if log.merge(key, logged)? {
        Ok(Loaded::Put)
    } else {
        Ok(Loaded::Kept)
    }
}
