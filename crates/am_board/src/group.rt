//! One group: its name, its due time and its alerts. A new one is due after `group_wait`, or at once for an
//! alert that started longer ago.
ghost use Rattle.std.specs.Prelude.{◌≡◌, ◌+◌, ◌<◌, ◌≤◌, ◌&&◌, min, nat_lt, not, false, true, if◌then◌else◌, length, OnOk, Some};
ghost use Rattle.std.specs.List.{IsDistinct};
ghost use Rattle.am_model.specs.Begin.{count_resolved, without_resolved};
ghost use Rattle.am_board.specs.Group.{Fits, IsReserved, label_sets};
ghost use Rattle.am_board.specs.Inserting.{stamped_alert};
ghost use Rattle.am_board.specs.Members.{index_of};
ghost use Rattle.am_model.specs.Insert.{same_member, wait_of, group_with};
ghost use Rattle.am_model.specs.Maintenance.{has_no_alerts};
ghost use Rattle.am_board.specs.Refinement.{member_state, group_state};
ghost use Rattle.am_model.specs.declared.config.Config.{Config};

use crate::members::Members;
use crate::silences::NotedSilences;
use am_alerts::alert::Alert;
use am_alerts::labels::Labels;
pub use am_model::group::GroupName;
use std::alloc::{AllocError, Global};

/// An alert of a group, with the stamp of the insert that put it there.
#[derive(Drop)]
pub(crate) struct Member {
    pub(crate) alert: Alert,
    pub(crate) stamp: u64,
    /// Whether it is being taken out.
    pub(crate) leaves: bool,
}

/// The alerts of one route that share their group labels.
#[derive(Drop)]
pub(crate) struct Group {
    pub(crate) name: GroupName,
    /// When it is flushed next, in milliseconds.
    pub(crate) due: u64,
    /// Whether it was flushed since it was made.
    pub(crate) flushed: bool,
    /// Whether a flush of it is open.
    pub(crate) is_open: bool,
    pub(crate) members: Members,
}

impl Group {
    /// Adds an alert, or replaces the one with its labels. Memory is reserved.
    ///
    /// An alert whose wait is over makes the group due at `t`, if it wasn't flushed.
    pub(crate) fn insert(&mut self, labels: Labels, member: Member, wait: u64, t: u64)
        requires labels { labels ≡ member.alert.labels }
        requires space { 0 < self.old.members.space }
        ensures name { self.new.name ≡ self.old.name }
        ensures opened { self.new.is_open ≡ self.old.is_open }
        ensures space { self.old.members.space ≤ self.new.members.space + 1 }
        ensures alerts { has_no_alerts (group_state self.new) ≡ false }
        ensures state { (config : Config) → wait ≡ wait_of config self.old.name
            → group_state self.new ≡ group_with config t (member_state member) (group_state self.old) }
    {
        let started = member.alert.starts();
        self.members.put(labels, member);
        self.hasten(started, wait, t);
    }

    /// Writes an alert with its stamp in place of the one with its labels, which is at an index.
    ///
    /// An alert whose wait is over makes the group due at `t`, if it wasn't flushed.
    pub(crate) fn replace(&mut self, j: usize, alert: Alert, stamp: u64, wait: u64, t: u64)
        requires index { index_of alert.labels self.old.members.items ≡ Some j }
        requires within { j < length self.old.members.items }
        ensures name { self.new.name ≡ self.old.name }
        ensures opened { self.new.is_open ≡ self.old.is_open }
        ensures space { self.new.members.space ≡ self.old.members.space }
        ensures labels { label_sets self.new ≡ label_sets self.old }
        ensures state { (config : Config) → wait ≡ wait_of config self.old.name
            → group_state self.new ≡ group_with config t (stamped_alert alert stamp) (group_state self.old) }
    {
        let started = alert.starts();
        self.members.replace(j, alert, stamp);
        self.hasten(started, wait, t);
    }

    /// A group that hasn't been flushed is due at once at `t` for an alert that started so long ago
    /// that its wait is over.
    fn hasten(&mut self, started: u64, wait: u64, t: u64)
        ensures name { self.new.name ≡ self.old.name }
        ensures opened { self.new.is_open ≡ self.old.is_open }
        ensures due { self.new.due ≡ (if not self.old.flushed && nat_lt (started + wait) t then min self.old.due t else self.old.due) }
        ensures flushed { self.new.flushed ≡ self.old.flushed }
        ensures members { self.new.members ≡ self.old.members }
    {
        if !self.flushed && started.saturating_add(wait) < t {
            self.due = self.due.min(t);
        }
    }
}

/// Reserves memory for so many more alerts in a group.
pub(crate) fn reserve_members(group: &mut Group, more: usize) -> Result<(), AllocError>
    ensures kept { IsReserved group.old group.new }
    ensures space { OnOk result (Fits more group.new) }
{
    group.members.reserve(more)
}

/// Computes the order of a group's alerts by labels, and notes those that no silence mutes at `t`.
pub(crate) fn prepare(
    group: &mut Group,
    alloc: Global,
    silences: &mut NotedSilences,
    t: u64,
    limit: usize,
)
    requires { IsDistinct same_member (group_state group.old).members }
    ensures group { group.new ≡ group.old }
    ensures silences { silences.new ≡ silences.old }
{
    group.members.prepare(alloc, silences, t, limit);
}

/// Marks a group that a begin took: it is flushed, and due again at this time.
pub(crate) fn mark_begun(group: &mut Group, due: u64)
    ensures { group.new ≡ record group.old { due = due; flushed = true } }
{
    group.due = due;
    group.flushed = true;
}

/// Marks a group as one without an open flush.
pub(crate) fn mark_closed(group: &mut Group)
    ensures { group.new ≡ record group.old { is_open = false } }
{
    group.is_open = false;
}

/// Takes the alerts that are resolved at `t` out of a group, and answers how many.
pub(crate) fn take_resolved(group: &mut Group, t: u64) -> usize
    ensures group { group_state group.new ≡ without_resolved t (group_state group.old) }
    ensures opened { group.new.is_open ≡ group.old.is_open }
    ensures count { result ≡ count_resolved t (group_state group.old) }
{
    group.members.take_resolved(t)
}
