//! Inserts of an alert whose label set is known, and which each of its groups has: the most frequent
//! call, since a sender sends an alert again and again while it fires.
//!
//! It is written in place: no label set comes or goes, so the tables, the order and what is noted
//! stay. Nothing is allocated but capacity of the history. A copy of the alert for each group waits
//! on the stack until all groups are found (`put_in_each`), so from the first change on nothing can
//! fail. Where the alert is in each group is found by a hint of the cache (`Groups::spot`).
ghost use Rattle.std.specs.Prelude.{◌≡◌, ◌<◌, ◌≤◌, IfSome, Some, length, position};
ghost use Rattle.am_board.specs.Again.{PutsAgain, PutsInEach};
ghost use Rattle.am_board.specs.Group.{AreRouted};
ghost use Rattle.am_board.specs.Inserting.{stamped_alert};
ghost use Rattle.am_board.specs.Step.{StateInvariant};
ghost use Rattle.am_model.specs.Insert.{names_for, same_alert};

use crate::config::Config;
use crate::destinations::Destination;
use crate::groups::Groups;
use crate::insert::Arrival;
use crate::record::Inserted;
use crate::state::State;
use am_alerts::alert::Alert;
use am_alerts::sequence::Sequence;
use std::alloc::{AllocError, Global};

/// The greatest number of groups for which copies of the alert wait on the stack.
const MAX_WAITING: usize = 32;

/// Where an alert is in a group.
#[derive(Clone, Copy)]
pub(crate) struct Spot {
    /// The index of the group.
    pub(crate) group: usize,
    /// The index of the alert in it.
    pub(crate) member: usize,
}

/// Puts an alert in place of the known one, and in place of the one in each of its groups, if it is
/// known, its groups' names are cached, and they all have it. Else it returns nothing.
///
/// It reserves memory for the record, and for the finish of each open flush.
pub(crate) fn put_again(
    alloc: Global,
    config: &Config,
    state: &mut State,
    index: Option<usize>,
    kept: Option<&Sequence<Destination>>,
    arrival: &Arrival,
) -> Result<Option<Inserted>, AllocError>
    requires good { StateInvariant config.now state.old }
    requires index { index ≡ position (same_alert arrival.now.alert) state.old.known.items }
    requires within { IfSome index (λ i. i < length state.old.known.items) }
    requires kept { IfSome kept (λ names. names.now ≡ names_for config.now arrival.now.alert.labels) }
    ensures { PutsAgain config.now arrival.now.time arrival.now.alert result state.old state.new }
{
    let Some(i) = index else {
        return Ok(None);
    };
    let Some(names) = kept else {
        return Ok(None);
    };
    if names.len() > MAX_WAITING || state.groups.len() > config.limits.groups {
        return Ok(None);
    }
    put_known(alloc, config, state, i, names.as_slice(), arrival)
}

/// Puts an alert in place of the known one at an index, and in place of the one in each of these
/// groups, if all of them have it. Else it returns nothing.
fn put_known(
    alloc: Global,
    config: &Config,
    state: &mut State,
    i: usize,
    names: &[Destination],
    arrival: &Arrival,
) -> Result<Option<Inserted>, AllocError>
    requires good { StateInvariant config.now state.old }
    requires index { Some i ≡ position (same_alert arrival.now.alert) state.old.known.items }
    requires within { i < length state.old.known.items }
    requires names { names.now ≡ names_for config.now arrival.now.alert.labels }
    requires few { length state.old.groups.items ≤ config.now.limits.groups }
    ensures { PutsAgain config.now arrival.now.time arrival.now.alert result state.old state.new }
{
    let t = state.time(arrival.time);
    let stamp = state.inserts + 1;
    let alert = &arrival.alert;
    let known = alert.copy(alloc)?;
    state.history.reserve(state.flushes.len() + 1)?;
    let written = Written { alert, stamp, t };
    if !put_in_each(alloc, config, &mut state.groups, names, &written)? {
        return Ok(None);
    }

    state.clock = t;
    state.inserts = stamp;
    state.known.replace(i, known);
    Ok(Some(Inserted {
        stamp,
        groups: names.len(),
        made: 0,
    }))
}

/// An alert as it is written into its groups.
#[derive(Clone, Copy)]
struct Written<'a> {
    alert: &'a Alert,
    stamp: u64,
    /// The time of the call.
    t: u64,
}

/// Puts an alert with a stamp in place of the one with its labels in each of these groups, if all of
/// them are there and have it. Else it changes nothing. Returns whether they have it.
///
/// The last group is found first and changed last, so all are found before one is changed.
fn put_in_each(
    alloc: Global,
    config: &Config,
    groups: &mut Groups,
    names: &[Destination],
    written: &Written,
) -> Result<bool, AllocError>
    requires { AreRouted config.now.routes names.now }
    ensures { PutsInEach config.now written.now.t (stamped_alert written.now.alert.now written.now.stamp) names.now result
        groups.old groups.new }
{
    let Some((destination, names)) = names.split_last() else {
        return Ok(true);
    };
    let Some(spot) = groups.spot(destination, written.alert.labels()) else {
        return Ok(false);
    };
    let copy = written.alert.copy(alloc)?;
    if !put_in_each(alloc, config, groups, names, written)? {
        return Ok(false);
    }
    let wait = config.routes.route(destination.name().route).group_wait;
    groups.replace(spot, copy, written.stamp, wait, written.t);
    Ok(true)
}
