//! Forgetting: known alerts that are resolved and in no group go, and so do silences that are over.
//!
//! The label sets that are in groups are gathered first, and then looked up: one look-up for each
//! alert of a group, and two for each known alert that is resolved, since the cached group names
//! move by a walk of their own. From the first change on nothing can fail. The log forgets its keys
//! without a row too, except those of open flushes, whose finish needs them.
//!
//! Clause `keys` of `forget_idle` says that these keys go, and no clause of `Board::forget` does.
//! Contracts see a board as its configuration, its id and its history, and no reply depends on a key
//! without a row: its memory alone does. To name the keys in public, each call would have to say
//! which of them it leaves.
ghost use Rattle.std.specs.Prelude.{◌≡◌, ℕ, List, None, IfOk, MatchResult, OnOk, map, vec_len};
ghost use Rattle.am_alerts.specs.AlertData.{AlertData};
ghost use Rattle.am_model.specs.Causes.{forget_cause};
ghost use Rattle.am_model.specs.Records.{entry};
ghost use Rattle.am_model.specs.State.{same_name};
ghost use Rattle.am_mute.specs.Sources.{AreLearnt};
ghost use Rattle.am_nflog.specs.Log.{without_unused};
ghost use Rattle.am_board.specs.Forgetting.{AreGrouped, AddsLabelsOf};
ghost use Rattle.am_board.specs.GroupNameCache.{AreKept};
ghost use Rattle.am_board.specs.Refinement.{group_state, member_state, state_of};
ghost use Rattle.am_board.specs.Step.{StateInvariant, AppliesCall, LeavesUnchanged, IsAnswer};

use crate::config::Config;
use crate::destinations::GroupNameCache;
use crate::fault::Fault;
use crate::flush::OpenFlush;
use crate::group::{Group, GroupName, Member};
use crate::record::{Call, Forgotten, Record, Reply};
use crate::state::State;
use am_alerts::alert::Alert;
use am_alerts::labels::Labels;
use am_mute::sources::Sources;
use am_seed::Seed;
use indexmap::IndexSet;
use std::alloc::{AllocError, Global};
use std::collections::VecDeque;

/// Removes the known alerts that are resolved and in no group, with their cached names, and the
/// silences that are over. The log forgets the keys without a row, except those of open flushes.
pub(crate) fn forget_idle(
    alloc: Global,
    config: &Config,
    state: &mut State,
    destinations: &mut GroupNameCache,
    pass: u32,
    now: u64,
) -> Result<Forgotten, Fault>
    requires good { StateInvariant config.now state.old }
    requires kept { AreKept config.now state.old.known.items destinations.old }
    ensures forgot { MatchResult result
        (λ forgotten. (forget_cause config.now (vec_len state.old.history) (state_of state.old) ≡ None)
        × ((id : ℕ) → AppliesCall config.now id (entry pass (Call.Forget now) (Reply.Forgotten forgotten)) state.old state.new))
        (λ fault. IsAnswer (forget_cause config.now (vec_len state.old.history) (state_of state.old)) fault
        × LeavesUnchanged config.now state.old state.new) }
    ensures keys { OnOk result
        (state.new.log ≡ without_unused same_name (map (λ f. f.group) state.old.flushes.items) state.old.log) }
    ensures kept { AreKept config.now state.new.known.items destinations.new }
{
    if !state.has_space(1, config.limits.history) {
        return Err(Fault::HistoryFull);
    }
    let seed = state.groups.seed();
    let grouped = grouped_labels(alloc, seed, state.groups.as_slice())?;
    let flushing = flushing_groups(alloc, &state.flushes)?;
    state.history.reserve(state.flushes.len() + 1)?;

    let t = state.time(now);
    state.clock = t;
    destinations.drop_idle(state.known.as_slice(), &grouped, t);
    let forgotten = Forgotten {
        alerts: state.known.drop_idle(&grouped, t),
        silences: state.silences.drop_over(alloc, t),
    };
    state.log.forget(flushing.as_slice());
    let call = Call::Forget { now };
    let reply = Reply::Forgotten(forgotten);
    state.history.push_reserved(Record { pass, call, reply });
    Ok(forgotten)
}

/// Makes the index of sources anew, if `gone` isn't zero.
///
/// It goes by the indexes of known alerts. Where memory for it is refused a later insert completes
/// it.
pub(crate) fn renew(
    alloc: Global,
    config: &Config,
    known: &[Alert],
    gone: usize,
    sources: &mut Sources,
)
    ensures { (before : List AlertData) → AreLearnt config.now.rules before sources.old → (gone ≡ 0 → known.now ≡ before)
        → AreLearnt config.now.rules known.now sources.new }
{
    if gone == 0 {
        return;
    }
    *sources = Sources::new(alloc, sources.seed());
    let _ = sources.learn(alloc, config.rules.as_slice(), known);
}

/// The label sets of the alerts of these groups.
fn grouped_labels(
    alloc: Global,
    seed: Seed,
    groups: &[Group],
) -> Result<IndexSet<Labels, Seed>, AllocError>
    ensures { IfOk result (λ sets. AreGrouped sets.keys (map group_state groups.now)) }
{
    let mut sets = IndexSet::with_hasher(alloc, seed);
    for group in groups {
        add_labels(alloc, &mut sets, group.members.as_slice())?;
    }
    Ok(sets)
}

/// Adds the label sets of these alerts.
fn add_labels(
    alloc: Global,
    sets: &mut IndexSet<Labels, Seed>,
    members: &[Member],
) -> Result<(), AllocError>
    ensures { OnOk result (AddsLabelsOf (map member_state members.now) sets.old.keys sets.new.keys) }
{
    for member in members {
        sets.insert(member.alert.labels().copy(alloc)?)?;
    }
    Ok(())
}

/// The names of the groups of these flushes.
fn flushing_groups(
    alloc: Global,
    flushes: &VecDeque<OpenFlush>,
) -> Result<Vec<GroupName>, AllocError>
    ensures { IfOk result (λ names. names.items ≡ map (λ f. f.group) flushes.now.items) }
{
    let mut names = Vec::with_capacity(alloc, flushes.len())?;
    for i in 0..flushes.len() {
        names.push(flushes[i].group.copy(alloc)?)?;
    }
    Ok(names)
}
