//! The alerts of one group: a table by label set, with the order of its labels as a cache.
//!
//! Contracts see the list in the order of arrival. Invariant (specs/MemberTable.antt): each alert
//! is under its labels, none is marked as leaving between calls, and a stored order is that of the
//! alerts.
ghost use Rattle.std.specs.Prelude.{◌≡◌, ◌+◌, ◌<◌, ◌≤◌, ◌↔◌, All, IfOk, IfSome, IsTrue, OnOk, Some, [], count_by, length, map, not, true};
ghost use Rattle.std.specs.List.{IsDistinct, list_any};
ghost use Rattle.std.specs.Map.{values_of};
ghost use Rattle.std.specs.Option.{option_copied};
ghost use Rattle.am_alerts.specs.AlertData.{is_resolved};
ghost use Rattle.am_model.specs.Finish.{is_leaving};
ghost use Rattle.am_model.specs.Insert.{same_member};
ghost use Rattle.am_model.specs.Lists.{changed_where, upsert, without};
ghost use Rattle.am_board.specs.Finishing.{marked, is_same_as};
ghost use Rattle.am_board.specs.Inserting.{stamped_alert};
ghost use Rattle.am_board.specs.Keyed.{AreKeyed};
ghost use Rattle.am_board.specs.Refinement.{member_state, stamped};
ghost use Rattle.am_board.specs.Members.{AreMembers, labels_of, index_of};
ghost use Rattle.am_board.specs.Order.{indexes_in_order};

use crate::flush::LeavingAlert;
use crate::group::Member;
use crate::noted::{note_members, noted_in};
use crate::order::{forget, renew, stored};
use crate::silences::NotedSilences;
use crate::unsilenced::NotedIndex;
use am_alerts::alert::Alert;
use am_alerts::labels::Labels;
use am_seed::Seed;
use indexmap::IndexMap;
use std::alloc::{AllocError, Global};
use std::marker::Model;

/// The alerts of a group, each label set once, in the order of arrival.
#[derive(Drop)]
pub(crate) struct Members {
    members: IndexMap<Labels, Member, Seed>,
    /// Their indexes in the order of their labels, without those that came since. Empty after a
    /// label set left.
    order: Vec<usize>,
    /// Where those that no silence mutes are noted, in this order.
    noted: NotedIndex,
}

impl Model for Members {
    ghost use Rattle.std.specs.Map.{values_of};
    ghost use Rattle.indexmap.specs.IndexMap.{spare};
    ghost use Rattle.am_board.specs.Members.{MemberList};
    ghost use Rattle.am_board.specs.MemberTable.{IsTable};

    ghost Value = { MemberList };

    ghost view = { λ m. record { items = values_of m.members.entries; space = spare m.members } };

    ghost invariant = { λ m. IsTable m.members.entries m.order.items };
}

impl Members {
    /// No alerts.
    pub(crate) fn new(alloc: Global, seed: Seed) -> Members
        ensures { result.items ≡ [] }
    {
        Members {
            members: IndexMap::with_hasher(alloc, seed),
            order: Vec::new(alloc),
            noted: NotedIndex::default(),
        }
    }

    /// Returns an empty list with capacity for so many alerts.
    pub(crate) fn with_capacity(
        alloc: Global,
        space: usize,
        seed: Seed,
    ) -> Result<Members, AllocError>
        ensures empty { IfOk result (λ members. members.items ≡ []) }
        ensures space { IfOk result (λ members. space ≤ members.space) }
    {
        Ok(Members {
            members: IndexMap::with_capacity_and_hasher(alloc, space, seed)?,
            order: Vec::new(alloc),
            noted: NotedIndex::default(),
        })
    }

    /// How many alerts there are.
    pub(crate) fn len(&self) -> usize
        ensures { result ≡ length self.now.items }
    {
        self.as_slice().len()
    }

    pub(crate) fn is_empty(&self) -> bool
        ensures { IsTrue result ↔ (length self.now.items ≡ 0) }
    {
        self.len() == 0
    }

    /// The alerts, in the order in which their labels came into the group.
    pub(crate) fn as_slice(&self) -> &[Member]
        ensures value { result.now ≡ self.now.items }
    {
        self.members.values().as_slice()
    }

    /// The indexes of the alerts in the order of their labels, if they are stored.
    pub(crate) fn indexes(&self) -> Option<&[usize]>
        ensures { IfSome (option_copied result) (λ indexes. indexes ≡ indexes_in_order (map labels_of self.now.items)) }
    {
        stored(self.order.as_slice(), self.as_slice())
    }

    /// Where those that no silence mutes are noted, in the order of their labels.
    pub(crate) fn noted(&self) -> NotedIndex {
        self.noted
    }

    /// Computes the order of the alerts by labels, and notes those that no silence mutes at `t`
    /// (milliseconds). What is there is kept, and what lacks memory is left out.
    pub(crate) fn prepare(
        &mut self,
        alloc: Global,
        silences: &mut NotedSilences,
        t: u64,
        limit: usize,
    )
        requires { IsDistinct same_member (map member_state self.old.items) }
        ensures members { self.new ≡ self.old }
        ensures silences { silences.new ≡ silences.old }
    {
        let members = self.members.values().as_slice();
        let last = noted_in(self.order.as_slice(), members, self.noted);
        renew(&mut self.order, members);
        let order = self.order.as_slice();
        self.noted = note_members(alloc, silences, order, members, last, t, limit);
    }

    /// Reserves memory for so many more alerts.
    pub(crate) fn reserve(&mut self, more: usize) -> Result<(), AllocError>
        ensures items { self.new.items ≡ self.old.items }
        ensures kept { self.old.space ≤ self.new.space }
        ensures space { OnOk result (more ≤ self.new.space) }
    {
        self.members.reserve(more)
    }

    /// Adds an alert, or replaces the one with its labels. Memory is reserved.
    pub(crate) fn put(&mut self, labels: Labels, mut member: Member)
        requires labels { labels ≡ member.alert.labels }
        requires space { 0 < self.old.space }
        ensures members { map member_state self.new.items
            ≡ upsert same_member (member_state member) (map member_state self.old.items) }
        ensures space { self.old.space ≤ self.new.space + 1 }
    {
        member.leaves = false;
        self.members.insert(labels, member).unwrap();
    }

    /// The index of the alert with these labels.
    pub(crate) fn find(&self, labels: &Labels) -> Option<usize>
        ensures index { result ≡ index_of labels.now self.now.items }
        ensures within { IfSome result (λ j. j < length self.now.items) }
    {
        self.members.get_index_of(labels)
    }

    /// Whether the alert with these labels is at an index.
    pub(crate) fn is_at(&self, j: usize, labels: &Labels) -> bool
        ensures { result ≡ true → index_of labels.now self.now.items ≡ Some j }
    {
        if j >= self.members.len() {
            return false;
        }
        *labels == *self.as_slice()[j].alert.labels()
    }

    /// Writes an alert with its stamp in place of the one with its labels, which is at an index.
    ///
    /// The label sets stay, and so do the order and what is noted.
    pub(crate) fn replace(&mut self, j: usize, alert: Alert, stamp: u64)
        requires index { index_of alert.labels self.old.items ≡ Some j }
        requires within { j < length self.old.items }
        ensures members { map member_state self.new.items
            ≡ upsert same_member (stamped_alert alert stamp) (map member_state self.old.items) }
        ensures labels { map labels_of self.new.items ≡ map labels_of self.old.items }
        ensures space { self.new.space ≡ self.old.space }
    {
        let member = &mut self.members[j];
        member.alert = alert;
        member.stamp = stamp;
    }

    /// Takes the alerts out that are resolved at `t`, and answers how many.
    pub(crate) fn take_resolved(&mut self, t: u64) -> usize
        ensures members { map member_state self.new.items ≡ without (λ m. is_resolved m.alert t) (map member_state self.old.items) }
        ensures count { result ≡ count_by (λ m. is_resolved m.alert t) (map member_state self.old.items) }
    {
        if is_none_resolved(self.members.values().as_slice(), t) {
            return 0;
        }
        let before = self.members.len();
        forget(&mut self.order);
        self.members.retain(
            |_labels: &Labels, member: &mut Member| -> bool
                ensures { (result ≡ not (is_resolved member.old.alert t)) × (member.new ≡ member.old) }
            { !member.alert.resolved_at(t) },
        );
        before - self.members.len()
    }

    /// Takes out the alerts that are as they were when they were found resolved. Returns how many.
    ///
    /// Each is looked up and marked, and all marked ones go in one walk.
    pub(crate) fn take_leaving(&mut self, leaving: &[LeavingAlert]) -> usize
        ensures members { map member_state self.new.items
            ≡ without (is_leaving (map stamped leaving.now)) (map member_state self.old.items) }
        ensures count { result ≡ count_by (is_leaving (map stamped leaving.now)) (map member_state self.old.items) }
    {
        if leaving.is_empty() {
            return 0;
        }
        forget(&mut self.order);
        mark_all(&mut self.members, leaving);
        let before = self.members.len();
        self.members.retain(
            |_labels: &Labels, member: &mut Member| -> bool
                ensures { (result ≡ not member.old.leaves) × (member.new ≡ member.old) }
            { !member.leaves },
        );
        before - self.members.len()
    }
}

/// Whether none of these alerts is resolved at `t`.
fn is_none_resolved(members: &[Member], t: u64) -> bool
    ensures { result ≡ not (list_any (λ m. is_resolved m.alert t) members.now) }
{
    !is_any_resolved(members, t)
}

/// Whether one of these alerts is resolved at `t`.
fn is_any_resolved(members: &[Member], t: u64) -> bool
    ensures { result ≡ list_any (λ m. is_resolved m.alert t) members.now }
{
    members.iter().any(|member| member.alert.resolved_at(t))
}

/// Marks the alerts of a group that are as they were when they were found resolved.
fn mark_all(members: &mut IndexMap<Labels, Member, Seed>, leaving: &[LeavingAlert])
    requires { AreMembers members.old.entries }
    ensures keyed { AreKeyed labels_of members.new.entries }
    ensures states { map member_state (values_of members.new.entries) ≡ map member_state (values_of members.old.entries) }
    ensures marks { All (λ m. m.leaves ≡ is_leaving (map stamped leaving.now) (member_state m)) (values_of members.new.entries) }
{
    for found in leaving {
        mark(members, found);
    }
}

/// Marks the alert that is as it was when it was found resolved, if it is there.
fn mark(members: &mut IndexMap<Labels, Member, Seed>, found: &LeavingAlert)
    requires { AreKeyed labels_of members.old.entries }
    ensures keyed { AreKeyed labels_of members.new.entries }
    ensures marked { values_of members.new.entries ≡ changed_where (is_same_as found.now) marked (values_of members.old.entries) }
{
    let Some(index) = members.get_index_of(&found.labels) else {
        return;
    };
    let member = &mut members[index];
    if found.stamp == member.stamp {
        member.leaves = true;
    }
}
