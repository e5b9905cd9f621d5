//! Maintenance: `sweep` removes groups without alerts and expired rows, `remove_empty` removes such
//! groups alone.
ghost use Rattle.std.specs.Prelude.{◌≡◌, ℕ, None, MatchResult, vec_len};
ghost use Rattle.am_model.specs.Causes.{maintain_cause, removal_cause};
ghost use Rattle.am_model.specs.Records.{entry};
ghost use Rattle.am_board.specs.Refinement.{state_of};
ghost use Rattle.am_board.specs.Step.{StateInvariant, AppliesCall, LeavesUnchanged, IsAnswer};

use crate::config::Config;
use crate::fault::Fault;
use crate::record::{Call, EmptyGroupsRemoved, Maintained, Record, Reply};
use crate::state::State;

/// Removes the groups without alerts, and the rows of the log whose expiry has come.
pub(crate) fn sweep(
    config: &Config,
    state: &mut State,
    pass: u32,
    now: u64,
) -> Result<Maintained, Fault>
    requires good { StateInvariant config.now state.old }
    ensures { MatchResult result
        (λ maintained. (maintain_cause config.now (vec_len state.old.history) (state_of state.old) ≡ None)
        × ((id : ℕ) → AppliesCall config.now id (entry pass (Call.Maintain now) (Reply.Maintained maintained)) state.old state.new))
        (λ fault. IsAnswer (maintain_cause config.now (vec_len state.old.history) (state_of state.old)) fault
        × LeavesUnchanged config.now state.old state.new) }
{
    if !state.has_space(1, config.limits.history) {
        return Err(Fault::HistoryFull);
    }
    state.history.reserve(state.flushes.len() + 1)?;

    let t = state.time(now);
    state.clock = t;
    let maintained = Maintained {
        groups: state.groups.drop_empty(),
        entries: state.log.collect(t),
    };
    let call = Call::Maintain { now };
    let reply = Reply::Maintained(maintained);
    state.history.push_reserved(Record { pass, call, reply });
    Ok(maintained)
}

/// Removes the groups without alerts, and nothing else.
pub(crate) fn remove_empty(
    config: &Config,
    state: &mut State,
    pass: u32,
    now: u64,
) -> Result<EmptyGroupsRemoved, Fault>
    requires good { StateInvariant config.now state.old }
    ensures { MatchResult result
        (λ removed. (removal_cause config.now (vec_len state.old.history) (state_of state.old) ≡ None)
        × ((id : ℕ) → AppliesCall config.now id (entry pass (Call.RemoveEmptyGroups now) (Reply.EmptyGroupsRemoved removed))
        state.old state.new))
        (λ fault. IsAnswer (removal_cause config.now (vec_len state.old.history) (state_of state.old)) fault
        × LeavesUnchanged config.now state.old state.new) }
{
    if !state.has_space(1, config.limits.history) {
        return Err(Fault::HistoryFull);
    }
    state.history.reserve(state.flushes.len() + 1)?;

    let t = state.time(now);
    state.clock = t;
    let groups = state.groups.drop_empty();
    let removed = EmptyGroupsRemoved { groups };
    let call = Call::RemoveEmptyGroups { now };
    let reply = Reply::EmptyGroupsRemoved(removed);
    state.history.push_reserved(Record { pass, call, reply });
    Ok(removed)
}
