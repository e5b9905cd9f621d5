//! Changes of groups: finds one by its name, adds one, changes one at its index, removes the empty
//! ones.
ghost use Rattle.std.specs.Prelude.{◌≡◌, ℕ, ◌+◌, ◌<◌, ◌≤◌, ◌∷◌, [], ◌++◌, None, count_by, filter, length, map, not, position};
ghost use Rattle.std.specs.Prelude.{slice_index_or};
ghost use Rattle.std.specs.Prelude.{false, true, All, IfSome, OnOk, if◌then◌else◌};
ghost use Rattle.std.specs.List.{IsDistinct, list_any};
ghost use Rattle.am_alerts.specs.RoutingTree.{RoutingTree};
ghost use Rattle.am_model.specs.Begin.{count_resolved, without_resolved};
ghost use Rattle.am_model.specs.Finish.{is_leaving};
ghost use Rattle.am_board.specs.Again.{HasAt, IsSpot};
ghost use Rattle.am_board.specs.Group.{names_of, AreRouted, HasSpace, Fits, IsReserved, Changes, Gets, label_sets};
ghost use Rattle.am_board.specs.Inserting.{index_in, stamped_alert};
ghost use Rattle.am_board.specs.Marks.{marks_of};
ghost use Rattle.am_board.specs.Refinement.{member_state, stamped, group_state};
ghost use Rattle.am_model.specs.Insert.{same_member};
ghost use Rattle.am_model.specs.Lists.{without};
ghost use Rattle.am_model.specs.State.{same_name};
ghost use Rattle.am_model.specs.Maintenance.{has_no_alerts};

use super::Groups;
use crate::again::Spot;
use crate::destinations::Destination;
use crate::due::DueKey;
use crate::finish::take_leaving;
use crate::flush::LeavingAlert;
use crate::group::{
    Group, GroupName, Member, mark_begun, mark_closed, prepare, reserve_members, take_resolved,
};
use crate::silences::NotedSilences;
use am_alerts::alert::Alert;
use am_alerts::labels::Labels;
use std::alloc::{AllocError, Global};

impl Groups {
    /// The index of the group of this name.
    pub(crate) fn find(&self, name: &GroupName) -> Option<usize>
        ensures index { result ≡ position (λ g. same_name name.now g.name) self.now.items }
        ensures within { IfSome result (λ i. i < length self.now.items) }
    {
        self.groups.get_index_of(name)
    }

    /// Adds a group with alerts under its name, which no other has. Memory is reserved.
    pub(crate) fn add(&mut self, name: GroupName, group: Group)
        requires name { name ≡ group.name }
        requires missing { position (λ g. same_name name g.name) self.old.items ≡ None }
        requires alerts { has_no_alerts (group_state group) ≡ false }
        requires space { 0 < self.old.space }
        ensures items { self.new.items ≡ self.old.items ++ group ∷ [] }
        ensures space { self.old.space ≤ self.new.space + 1 }
    {
        self.due.put(&group.name, group.due);
        self.groups.insert(name, group).unwrap();
    }

    /// Reserves memory for so many more alerts in the group at an index.
    pub(crate) fn reserve_at(&mut self, i: usize, more: usize) -> Result<(), AllocError>
        requires index { i < length self.old.items }
        ensures kept { Changes IsReserved i self.old self.new }
        ensures space { OnOk result ((d : Group) → Fits more (slice_index_or self.new.items i d)) }
    {
        reserve_members(&mut self.groups[i], more)
    }

    /// Reserves memory for so many more alerts in the group at an index, if there is one.
    pub(crate) fn reserve_found(
        &mut self,
        index: Option<usize>,
        more: usize,
    ) -> Result<(), AllocError>
        requires distinct { IsDistinct same_name (names_of self.old.items) }
        requires within { IfSome index (λ i. i < length self.old.items) }
        ensures names { names_of self.new.items ≡ names_of self.old.items }
        ensures marks { marks_of self.new.items ≡ marks_of self.old.items }
        ensures states { map group_state self.new.items ≡ map group_state self.old.items }
        ensures spare { self.new.space ≡ self.old.space }
        ensures space { OnOk result ((name : GroupName) → index ≡ index_in name self.old.items → HasSpace more name self.new.items) }
        ensures others { (n : ℕ) (other : GroupName) → HasSpace n other self.old.items → HasSpace n other self.new.items }
    {
        match index {
            Some(i) => self.reserve_at(i, more),
            None => Ok(()),
        }
    }

    /// Adds an alert to the group at an index. Memory is reserved.
    pub(crate) fn insert(&mut self, i: usize, labels: Labels, member: Member, wait: u64, t: u64)
        requires index { i < length self.old.items }
        requires labels { labels ≡ member.alert.labels }
        requires space { (d : Group) → Fits 1 (slice_index_or self.old.items i d) }
        ensures { Changes (Gets (member_state member) wait t) i self.old self.new }
    {
        let groups = self.groups.len();
        let group = &mut self.groups[i];
        let before = group.due;
        let was_empty = is_without_alerts(group);
        group.insert(labels, member, wait, t);
        self.due.change(&group.name, before, group.due);
        self.empty = recounted(self.empty, groups, was_empty, false);
    }

    /// Where the alert of these labels is in the group of this name, if it is there.
    ///
    /// It is looked for where it was. Where it isn't there any more, it is looked up, and noted.
    pub(crate) fn spot(&self, destination: &Destination, labels: &Labels) -> Option<Spot>
        ensures { IfSome result (IsSpot self.now.items destination.now labels.now) }
    {
        let name = destination.name();
        let hint = destination.hint();
        if self.is_at(hint, name, labels) {
            return Some(hint);
        }
        let spot = self.look_up(name, labels)?;
        destination.note(spot);
        Some(spot)
    }

    /// Whether the group of this name is at this index, and in it the alert of these labels.
    fn is_at(&self, spot: Spot, name: &GroupName, labels: &Labels) -> bool
        ensures { result ≡ true → IsSpot self.now.items name.now labels.now spot }
    {
        if spot.group >= self.groups.len() {
            return false;
        }
        let group = self.at(spot.group);
        *name == group.name && group.members.is_at(spot.member, labels)
    }

    /// The same, by two look-ups.
    fn look_up(&self, name: &GroupName, labels: &Labels) -> Option<Spot>
        ensures { IfSome result (IsSpot self.now.items name.now labels.now) }
    {
        let group = self.find(name)?;
        let member = self.at(group).members.find(labels)?;
        Some(Spot { group, member })
    }

    /// Where an alert that is new to the group at an index will be, or to the next group.
    pub(crate) fn next_spot(&self, index: Option<usize>) -> Spot {
        let group = index.unwrap_or(self.len());
        let member = match self.as_slice().get(group) {
            Some(group) => group.members.len(),
            None => 0,
        };
        Spot { group, member }
    }

    /// Writes an alert with its stamp in place of the one with its labels, which is there.
    pub(crate) fn replace(&mut self, spot: Spot, alert: Alert, stamp: u64, wait: u64, t: u64)
        requires index { spot.group < length self.old.items }
        requires member { HasAt alert.labels spot self.old.items }
        ensures group { Changes (Gets (stamped_alert alert stamp) wait t) spot.group self.old self.new }
        ensures labels { map label_sets self.new.items ≡ map label_sets self.old.items }
    {
        let group = &mut self.groups[spot.group];
        let before = group.due;
        group.replace(spot.member, alert, stamp, wait, t);
        self.due.change(&group.name, before, group.due);
    }

    /// Computes the order by labels of the alerts of the group at an index, and notes those that no
    /// silence mutes at `t`.
    pub(crate) fn prepare(
        &mut self,
        i: usize,
        alloc: Global,
        silences: &mut NotedSilences,
        t: u64,
        limit: usize,
    )
        requires index { i < length self.old.items }
        requires apart { All (λ g. IsDistinct same_member g.members) (map group_state self.old.items) }
        ensures groups { self.new ≡ self.old }
        ensures silences { silences.new ≡ silences.old }
    {
        prepare(&mut self.groups[i], alloc, silences, t, limit);
    }

    /// Marks the group at an index as taken by a begin that opens a flush, and due again at this time.
    pub(crate) fn begin(&mut self, i: usize, due: u64)
        requires { i < length self.old.items }
        ensures { Changes (λ from to. to ≡ record from { due = due; flushed = true; is_open = true }) i self.old self.new }
    {
        let group = &mut self.groups[i];
        let before = group.due;
        mark_begun(group, due);
        group.is_open = true;
        self.due.lend(&group.name, before);
    }

    /// Marks the group at an index as taken by a begin that notifies no integration.
    ///
    /// It is due again at this time, and its alerts that are resolved at `t` leave. Returns how
    /// many.
    pub(crate) fn begin_quiet(&mut self, i: usize, due: u64, t: u64) -> usize
        requires { i < length self.old.items }
        ensures group { Changes
            (λ from to. group_state to ≡ without_resolved t (record (group_state from) { due = due; flushed = true })) i self.old self.new }
        ensures marks { marks_of self.new.items ≡ marks_of self.old.items }
        ensures count { (d : Group) → result ≡ count_resolved t (group_state (slice_index_or self.old.items i d)) }
    {
        let groups = self.groups.len();
        let group = &mut self.groups[i];
        let before = group.due;
        let was_empty = is_without_alerts(group);
        mark_begun(group, due);
        self.due.change(&group.name, before, due);
        let removed = take_resolved(group, t);
        self.empty = recounted(self.empty, groups, was_empty, is_without_alerts(group));
        removed
    }

    /// Marks the group at an index, which has this name, as one without an open flush. Takes no
    /// memory: the name becomes part of the group's key.
    pub(crate) fn close(&mut self, i: usize, name: GroupName)
        requires index { i < length self.old.items }
        requires name { (d : Group) → (slice_index_or self.old.items i d).name ≡ name }
        ensures { Changes (λ from to. to ≡ record from { is_open = false }) i self.old self.new }
    {
        let group = &mut self.groups[i];
        mark_closed(group);
        let due = group.due;
        self.due.give_back(DueKey { due, name });
    }

    /// Takes out of the group at an index the alerts that are as they were when they were found
    /// resolved.
    ///
    /// Returns how many.
    pub(crate) fn take_leaving(&mut self, i: usize, leaving: &[LeavingAlert]) -> usize
        requires { i < length self.old.items }
        ensures group { Changes (λ from to. group_state to ≡ record (group_state from) {
          members = without (is_leaving (map stamped leaving.now)) (map member_state from.members.items);
        }) i self.old self.new }
        ensures marks { marks_of self.new.items ≡ marks_of self.old.items }
        ensures count { (d : Group) → result
            ≡ count_by (is_leaving (map stamped leaving.now)) (map member_state (slice_index_or self.old.items i d).members.items) }
    {
        let groups = self.groups.len();
        let group = &mut self.groups[i];
        let was_empty = is_without_alerts(group);
        let removed = take_leaving(group, leaving);
        self.empty = recounted(self.empty, groups, was_empty, is_without_alerts(group));
        removed
    }

    /// Whether some group has no alerts. It looks at no group.
    pub(crate) fn has_empty(&self) -> bool
        ensures { result ≡ list_any has_no_alerts (map group_state self.now.items) }
    {
        self.empty > 0
    }

    /// Removes the groups without alerts, and answers how many.
    pub(crate) fn drop_empty(&mut self) -> usize
        ensures groups { map group_state self.new.items ≡ without has_no_alerts (map group_state self.old.items) }
        ensures count { result ≡ count_by has_no_alerts (map group_state self.old.items) }
        ensures kept { self.new.items ≡ filter (λ g. not (has_no_alerts (group_state g))) self.old.items }
        ensures routed { (tree : RoutingTree) → AreRouted tree (names_of self.old.items) → AreRouted tree (names_of self.new.items) }
    {
        let before = self.groups.len();
        self.groups.retain(
            |_name: &GroupName, group: &mut Group| -> bool
                ensures { (result ≡ not (has_no_alerts (group_state group.old))) × (group.new ≡ group.old) }
            { !is_without_alerts(group) },
        );
        let gone = before - self.groups.len();
        self.due.tidy(self.groups.values().as_slice(), gone);
        self.empty = 0;
        gone
    }
}

/// Counts the groups without alerts, of so many, after one of them changed whether it has none.
fn recounted(empty: usize, groups: usize, was_empty: bool, is_empty: bool) -> usize
    requires more { was_empty ≡ false → empty < groups }
    requires fewer { was_empty ≡ true → 0 < empty }
    ensures { result + (if was_empty then 1 else 0) ≡ empty + (if is_empty then 1 else 0) }
{
    if was_empty == is_empty {
        empty
    } else if is_empty {
        empty + 1
    } else {
        empty - 1
    }
}

/// Whether a group has no alerts.
fn is_without_alerts(group: &Group) -> bool
    ensures { result ≡ has_no_alerts (group_state group.now) }
{
    group.members.is_empty()
}
