//! All groups: a table by name, the set of due times, and how many have no alerts.
//!
//! Contracts see the list of groups in the order in which they were made. A call changes one group
//! at an index (`Changes` in specs/Group.antt), never its name. Invariant: each group is under its
//! name, which no other group has. While the set of due times is complete, it has the key of each
//! group without an open flush. The count is that of the groups without alerts.
//!
//! A group says itself whether a flush of it is open, so a begin needs no look at the flushes.
//! `marks_of` (specs/Marks.antt) lists what groups say. A begin that opens a flush sets a group's
//! mark and a finish clears it. That the marks agree with the open flushes (`AreMarked`) belongs to
//! `StateInvariant`.
ghost use Rattle.std.specs.Prelude.{◌≡◌, ◌^◌, ◌<◌, ◌≤◌, [], length, slice_index_or, OnOk};

mod change;
mod first;

use crate::due::DueSet;
use crate::group::{Group, GroupName};
use am_seed::Seed;
use indexmap::IndexMap;
use std::alloc::{AllocError, Global};
use std::marker::Model;

/// Groups of different names, in the order in which they were made, and their due times.
#[derive(Drop)]
pub(crate) struct Groups {
    groups: IndexMap<GroupName, Group, Seed>,
    due: DueSet,
    /// How many groups have no alerts.
    empty: usize,
}

impl Model for Groups {
    ghost use Rattle.std.specs.Map.{values_of};
    ghost use Rattle.indexmap.specs.IndexMap.{spare};
    ghost use Rattle.am_board.specs.Due.{IsTied};
    ghost use Rattle.am_board.specs.Empty.{IsCounted};
    ghost use Rattle.am_board.specs.GroupList.{GroupList};

    ghost Value = { GroupList };

    ghost view = { λ g. record { items = values_of g.groups.entries; space = spare g.groups } };

    ghost invariant = { λ g. IsTied g.due g.groups.entries × IsCounted g.empty g.groups.entries };
}

impl Groups {
    /// No groups.
    pub(crate) fn new(alloc: Global, seed: Seed) -> Groups
        ensures { result.items ≡ [] }
    {
        Groups {
            groups: IndexMap::with_hasher(alloc, seed),
            due: DueSet::new(alloc),
            empty: 0,
        }
    }

    /// What the hashes of a board's maps start from.
    pub(crate) fn seed(&self) -> Seed {
        *self.groups.hasher()
    }

    /// How many groups there are.
    pub(crate) fn len(&self) -> usize
        ensures len { result ≡ length self.now.items }
        ensures small { result < 2 ^ 63 }
    {
        self.groups.len()
    }

    /// The groups, in the order in which they were made.
    pub(crate) fn as_slice(&self) -> &[Group]
        ensures value { result.now ≡ self.now.items }
    {
        self.groups.values().as_slice()
    }

    /// The group at an index.
    pub(crate) fn at(&self, i: usize) -> &Group
        requires { i < length self.now.items }
        ensures { result.now ≡ slice_index_or self.now.items i result.now }
    {
        &self.as_slice()[i]
    }

    /// Reserves memory for so many more groups.
    pub(crate) fn reserve(&mut self, more: usize) -> Result<(), AllocError>
        ensures items { self.new.items ≡ self.old.items }
        ensures space { OnOk result (more ≤ self.new.space) }
    {
        self.groups.reserve(more)
    }
}
