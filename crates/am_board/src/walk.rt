//! The one walk over the alerts of a group, in the order of their labels: which fire, which are
//! resolved, and what mutes the others (the mute stages of `notify`).
//!
//! A preview wants the causes, a plain begin doesn't: to know that an alert is muted costs less than to
//! know why. A muted alert is found with its index, so a preview lists it where it is in the
//! group. The others are found as they are in the group: no walk copies an alert.
ghost use Rattle.std.specs.Prelude.{◌≡◌, ◌++◌, [], false, true, IfOk, OnOk, Option, map};
ghost use Rattle.std.specs.List.{IsDistinct, cons_option, filter_map};
ghost use Rattle.am_mute.specs.Mute.{is_muted, mute_cause_of};
ghost use Rattle.am_mute.specs.Silence.{is_silenced};
ghost use Rattle.am_mute.specs.declared.mute.MuteCause.{MuteCause};
ghost use Rattle.am_model.specs.Insert.{same_member};
ghost use Rattle.am_board.specs.Beginning.{copies_at};
ghost use Rattle.am_board.specs.Look.{IsLook};
ghost use Rattle.am_board.specs.Members.{labels_of};
ghost use Rattle.am_board.specs.Order.{indexes_in_order};
ghost use Rattle.am_board.specs.Refinement.{member_state};
ghost use Rattle.am_board.specs.Walk.{AreSeen, IsWalk, alert_there, cause_seen, firing_if, listed_if, muted_at, muted_if};
ghost use Rattle.am_board.specs.Walk.{muted_member, resolved_if};
ghost use Rattle.am_board.specs.declared.group.Member.{Member};

use crate::group::Member;
use crate::look::Look;
use crate::members::Members;
use crate::order::{indexes_in_order, member_at};
use crate::silences::NotedSilences;
use crate::unsilenced::NotedIndex;
use am_alerts::labels::Labels;
use am_alerts::sequence::Sequence;
use am_model::preview::MutedAlert;
use am_mute::mute::{MuteCause, mute_cause_under, mute_cause_with, muted_under, muted_with};
use std::alloc::{AllocError, Global};

/// A muted alert of a group: its index among the alerts, and what mutes it.
#[derive(Drop)]
pub(crate) struct MutedIndex {
    pub(crate) index: usize,
    pub(crate) cause: MuteCause,
}

/// What a walk finds: the alerts that aren't muted, and those that are, if their causes are wanted; by
/// labels.
#[derive(Drop)]
pub(crate) struct Walk<'m> {
    pub(crate) firing: Vec<&'m Member>,
    pub(crate) resolved: Vec<&'m Member>,
    pub(crate) muted: Vec<MutedIndex>,
}

impl<'m> Walk<'m> {
    /// Finds what the alerts of a group are. The muted ones are left out if it isn't wanted why.
    pub(crate) fn over(look: &Look, members: &'m Members) -> Result<Walk<'m>, AllocError>
        requires look { IsLook look.now }
        requires apart { IsDistinct same_member (map member_state members.now.items) }
        ensures { IfOk result (IsWalk look.now members.now.items) }
    {
        let all = members.as_slice();
        let noted = members.noted();
        match members.indexes() {
            Some(indexes) => walk_indexes(look, all, indexes, noted),
            None => {
                let indexes = indexes_in_order(look.alloc, all)?;
                walk_indexes(look, all, indexes.as_slice(), noted)
            }
        }
    }

    /// Finds what mutes the alert at an index, if anything does, and adds it.
    fn visit(
        &mut self,
        look: &Look,
        index: usize,
        member: &'m Member,
        noted: &mut NotedIndex,
    ) -> Result<(), AllocError>
        requires { IsLook look.now }
        ensures firing { OnOk result (copies_at look.now.t self.new.firing.items
            ≡ copies_at look.now.t self.old.firing.items ++ firing_if look.now.t member.now.alert (cause_seen look.now member.now)) }
        ensures resolved { OnOk result (copies_at look.now.t self.new.resolved.items
            ≡ copies_at look.now.t self.old.resolved.items ++ resolved_if look.now.t member.now.alert (cause_seen look.now member.now)) }
        ensures muted { OnOk result (self.new.muted.items
            ≡ self.old.muted.items ++ listed_if look.now.why index (cause_seen look.now member.now)) }
    {
        let labels = member.alert.labels();
        if look.why {
            let cause = mute_cause(look, labels, noted)?;
            return self.add(index, member, cause, look.t);
        }
        if is_muted(look, labels, noted)? {
            return Ok(());
        }
        self.add(index, member, None, look.t)
    }

    /// Adds the alert at an index, which this mutes, if anything does.
    fn add(
        &mut self,
        index: usize,
        member: &'m Member,
        cause: Option<MuteCause>,
        t: u64,
    ) -> Result<(), AllocError>
        ensures firing { OnOk result
            (copies_at t self.new.firing.items ≡ copies_at t self.old.firing.items ++ firing_if t member.now.alert cause) }
        ensures resolved { OnOk result
            (copies_at t self.new.resolved.items ≡ copies_at t self.old.resolved.items ++ resolved_if t member.now.alert cause) }
        ensures muted { OnOk result (self.new.muted.items ≡ self.old.muted.items ++ cons_option (muted_if index cause) []) }
    {
        if let Some(cause) = cause {
            self.muted.push(MutedIndex { index, cause })?;
        } else if member.alert.resolved_at(t) {
            self.resolved.push(member)?;
        } else {
            self.firing.push(member)?;
        }
        Ok(())
    }
}

/// Walks over the alerts at these indexes.
fn walk_indexes<'m>(
    look: &Look,
    members: &'m [Member],
    indexes: &[usize],
    noted: NotedIndex,
) -> Result<Walk<'m>, AllocError>
    requires { IsLook look.now }
    ensures { IfOk result (AreSeen look.now members.now indexes.now) }
{
    let mut walk = Walk {
        firing: Vec::with_capacity(look.alloc, indexes.len())?,
        resolved: Vec::new(look.alloc),
        muted: Vec::new(look.alloc),
    };
    let mut noted = noted;
    for index in indexes {
        if let Some(member) = member_at(members, *index) {
            walk.visit(look, *index, member, &mut noted)?;
        }
    }
    Ok(walk)
}

/// What mutes a label set, if anything does.
///
/// If it is noted at an index that no silence mutes it, none is looked at.
fn mute_cause(
    look: &Look,
    labels: &Labels,
    noted: &mut NotedIndex,
) -> Result<Option<MuteCause>, AllocError>
    requires { IsLook look.now }
    ensures { IfOk result (λ cause. cause
        ≡ mute_cause_of labels.now look.now.t look.now.state.now.silences.items look.now.config.now.rules look.now.state.now.known.items) }
{
    let rules = look.config.rules.as_slice();
    let known = look.state.known.as_slice();
    let silences = &look.state.silences;
    if is_unsilenced(silences, labels, noted, look.t) {
        return mute_cause_with(look.alloc, labels, look.t, &[], rules, known, look.sources);
    }
    let silences = silences.all();
    mute_cause_under(
        look.alloc,
        labels,
        look.t,
        silences,
        rules,
        known,
        look.sources,
    )
}

/// Whether a label set is muted. This stops at the first silence that is found.
///
/// If it is noted at an index that no silence mutes it, none is looked at.
fn is_muted(look: &Look, labels: &Labels, noted: &mut NotedIndex) -> Result<bool, AllocError>
    requires { IsLook look.now }
    ensures { IfOk result (λ muted. muted
        ≡ is_muted labels.now look.now.t look.now.state.now.silences.items look.now.config.now.rules look.now.state.now.known.items) }
{
    let rules = look.config.rules.as_slice();
    let known = look.state.known.as_slice();
    let silences = &look.state.silences;
    if is_unsilenced(silences, labels, noted, look.t) {
        return muted_with(look.alloc, labels, look.t, &[], rules, known, look.sources);
    }
    let silences = silences.all();
    muted_under(
        look.alloc,
        labels,
        look.t,
        silences,
        rules,
        known,
        look.sources,
    )
}

/// Whether it is known without a look-up that no silence mutes a label set at `t`.
///
/// If the label set is noted at the index, the index becomes the next one.
fn is_unsilenced(silences: &NotedSilences, labels: &Labels, noted: &mut NotedIndex, t: u64) -> bool
    ensures { result ≡ true → is_silenced labels.now t silences.now.items ≡ false }
{
    if silences.len() == 0 {
        return true;
    }
    let is_noted = silences.is_noted(*noted, labels, t);
    if is_noted {
        *noted = noted.next();
    }
    is_noted
}

/// Returns the muted alerts of a group in the order in which they came into it, with their causes.
pub(crate) fn in_group_order(
    alloc: Global,
    members: &[Member],
    mut muted: Vec<MutedIndex>,
) -> Result<Sequence<MutedAlert>, AllocError>
    ensures { (causes : Member → Option MuteCause)
        → muted.items ≡ filter_map (muted_at causes members.now) (indexes_in_order (map labels_of members.now))
        → IfOk result (λ all. all ≡ filter_map (muted_member causes) members.now) }
{
    muted.sort_unstable_by(|a, b| a.index.cmp(&b.index));
    listed(alloc, members, muted.as_slice())
}

/// Returns these muted alerts of a group, in turn, as a preview lists them.
fn listed(
    alloc: Global,
    members: &[Member],
    muted: &[MutedIndex],
) -> Result<Sequence<MutedAlert>, AllocError>
    ensures { IfOk result (λ all. all ≡ filter_map (alert_there members.now) muted.now) }
{
    let mut all = Vec::with_capacity(alloc, muted.len())?;
    for found in muted {
        if let Some(member) = member_at(members, found.index) {
            all.push(MutedAlert {
                labels: member.alert.labels().copy(alloc)?,
                cause: copy_cause(alloc, &found.cause)?,
            })?;
        }
    }
    Ok(Sequence::from(all))
}

/// A copy of what mutes an alert. It shares the label set.
fn copy_cause(alloc: Global, cause: &MuteCause) -> Result<MuteCause, AllocError>
    ensures { IfOk result (λ copy. copy ≡ cause.now) }
{
    match cause {
        MuteCause::Silenced { id, until } => Ok(MuteCause::Silenced {
            id: *id,
            until: *until,
        }),
        MuteCause::Inhibited { rule, by } => Ok(MuteCause::Inhibited {
            rule: *rule,
            by: by.copy(alloc)?,
        }),
    }
}
