//! The set of due times: keys of groups by due time and name.
//!
//! A group with an open flush has no key here: a begin that opens one takes the key out, and the
//! finish puts it back. So a begin never passes over a group that it can't take.
//!
//! Why three lists: a begin takes the key that is due first, and mostly puts the group's key back
//! behind those that came back before it. So a key that comes behind the last one of a ring goes
//! to that ring, which takes keys out at its front without a search. A finish takes no memory. So
//! where a key doesn't come behind the ring's last one, a finish puts it into a heap, in which the
//! begin kept a place. Other keys go to a tree, out of which an insert can take one that isn't due
//! first.
//!
//! Why keys can be stale: the invariant (specs/Due.antt) says only that each group without an open
//! flush has its key while the set is complete. So the key in front of a list counts only if its
//! group is there, is due at the key's time and has no open flush. Each call that changes a due
//! time removes the old key, and a maintenance by which groups go rebuilds the set. So no key is
//! stale, and no proof relies on that: where one in front is, all groups are walked over.
//!
//! Why the tree's order is reversed: a tree's node is searched from its first key on, and a begin
//! takes the tree's last key without a search.
ghost use Rattle.std.specs.Prelude.{◌≡◌, ◌-◌, ◌++◌, ◌∷◌, [], IfSome, Some, false, length, refl, slice_get, true};
ghost use Rattle.am_model.specs.State.{same_name};
ghost use Rattle.am_board.specs.Due.{AreDue, HasKey};
ghost use Rattle.am_board.specs.DueOrder.{AreRising, IsFront, key_at, key_cmp, key_cmp_total, key_po, same_key-ties};
ghost use Rattle.am_board.specs.declared.due.DueKey.{DueKey};

pub(crate) mod heap;
pub(crate) mod ring;

use crate::due::heap::DueHeap;
use crate::due::ring::DueRing;
use crate::group::{Group, GroupName};
use std::alloc::Global;
use std::cmp::Ordering;
use std::collections::BTreeSet;

/// The due time of the group of a name. Keys are ordered in reverse: the latest time comes first,
/// and of one time the greatest name.
#[derive(Drop, PartialEq, Eq)]
pub(crate) struct DueKey {
    pub(crate) due: u64,
    pub(crate) name: GroupName,
}

impl PartialOrd for DueKey {
    ghost partial_cmp = { λ a b. Some (key_cmp a b) };

    ghost laws = { key_po };

    fn partial_cmp(&self, other: &DueKey) -> Option<Ordering> {
        Some(self.cmp(other))
    }
}

impl Ord for DueKey {
    ghost cmp = { key_cmp };

    ghost total = { key_cmp_total };

    ghost matches_partial_cmp = { λ a b. refl };

    ghost matches_eq = { λ a b. same_key-ties a b };

    fn cmp(&self, other: &DueKey) -> Ordering {
        other
            .due
            .cmp(&self.due)
            .then_with(|| other.name.cmp(&self.name))
    }
}

/// The due times of groups without an open flush.
///
/// The set only saves time: no call fails because a key lacks memory. The set is incomplete then,
/// and isn't used until it is rebuilt.
#[derive(Drop)]
pub(crate) struct DueSet {
    alloc: Global,
    /// Keys that each came behind the last one here.
    pub(crate) ring: DueRing,
    /// The other keys, the one that is due first last.
    pub(crate) tree: BTreeSet<DueKey>,
    /// Keys that finishes put back, and that didn't come behind the ring's last one.
    pub(crate) heap: DueHeap,
    /// How many groups have an open flush, if the set is complete. The heap has a place for each.
    away: usize,
    /// Whether each group without an open flush has its key here.
    pub(crate) whole: bool,
}

impl DueSet {
    /// No keys, for no groups.
    pub(crate) fn new(alloc: Global) -> DueSet {
        DueSet {
            alloc,
            ring: DueRing::new(alloc),
            tree: BTreeSet::new(alloc),
            heap: DueHeap::new(alloc),
            away: 0,
            whole: true,
        }
    }

    /// Adds the key of a group that is due at this time.
    pub(crate) fn put(&mut self, name: &GroupName, due: u64)
        ensures has { HasKey self.new (key_at name.now due) }
        ensures keeps { (key : DueKey) → HasKey self.old key → HasKey self.new key }
    {
        if !self.whole {
            return;
        }
        match name.copy(self.alloc) {
            Ok(name) => self.insert(DueKey { due, name }),
            Err(_) => self.lose(),
        }
    }

    /// Replaces the key of a group that was due at one time and is due at another.
    pub(crate) fn change(&mut self, name: &GroupName, from: u64, to: u64)
        ensures has { HasKey self.old (key_at name.now from) → HasKey self.new (key_at name.now to) }
        ensures keeps { (key : DueKey) → same_name key.name name.now ≡ false → HasKey self.old key → HasKey self.new key }
    {
        if from == to || !self.whole {
            return;
        }
        match self.take(name, from) {
            Some(mut key) => {
                key.due = to;
                self.append(key);
            }
            None => self.lose(),
        }
    }

    /// Takes out the key of a group of which a flush opens, and keeps a place for it in the heap.
    pub(crate) fn lend(&mut self, name: &GroupName, due: u64)
        ensures { (key : DueKey) → same_name key.name name.now ≡ false → HasKey self.old key → HasKey self.new key }
    {
        if !self.whole {
            return;
        }
        self.take_front(name, due);
        self.away = self.away.saturating_add(1);
        self.keep_places();
    }

    /// Puts back the key of a group whose flush is finished. Takes no memory: the ring has a free
    /// place, or the heap has the one that was kept.
    pub(crate) fn give_back(&mut self, key: DueKey)
        ensures has { HasKey self.new key }
        ensures keeps { (other : DueKey) → HasKey self.old other → HasKey self.new other }
    {
        if !self.whole {
            return;
        }
        self.away = self.away.saturating_sub(1);
        if self.ring.has_place() && self.ring.is_behind(&key) {
            self.push_back(key);
        } else if self.heap.has_place() {
            self.pile(key);
        } else {
            self.lose();
        }
    }

    /// The key of the tree that is due first.
    pub(crate) fn tree_front(&self) -> Option<&DueKey>
        ensures { IsFront self.now.tree.keys result }
    {
        self.tree.last()
    }

    /// Takes a key out, unless memory lacks.
    fn take(&mut self, name: &GroupName, due: u64) -> Option<DueKey>
        ensures key { IfSome result (λ key. key ≡ key_at name.now due) }
        ensures keeps { (key : DueKey) → same_name key.name name.now ≡ false → HasKey self.old key → HasKey self.new key }
    {
        if let Some(key) = self.take_front(name, due) {
            return Some(key);
        }
        let Ok(copy) = name.copy(self.alloc) else {
            return None;
        };
        let key = DueKey { due, name: copy };
        self.tree.remove(&key);
        Some(key)
    }

    /// Takes a key out that is due first in its list.
    ///
    /// A begin takes such a key: it goes without a search.
    fn take_front(&mut self, name: &GroupName, due: u64) -> Option<DueKey>
        ensures key { IfSome result (λ key. key ≡ key_at name.now due) }
        ensures keeps { (key : DueKey) → same_name key.name name.now ≡ false → HasKey self.old key → HasKey self.new key }
    {
        if self.ring.is_front(name, due) {
            return self.ring.pop_front();
        }
        if self.is_last(name, due) {
            return self.tree.pop_last();
        }
        if self.heap.is_front(name, due) {
            return self.heap.pop();
        }
        None
    }

    /// Whether the tree's last key, which is due first, is that of the group of this name.
    fn is_last(&self, name: &GroupName, due: u64) -> bool
        ensures { result ≡ true → slice_get self.now.tree.keys (length self.now.tree.keys - 1) ≡ Some (key_at name.now due) }
    {
        match self.tree.last() {
            Some(key) => key.due == due && key.name == *name,
            None => false,
        }
    }

    /// Drops stale keys after so many groups went, and completes the set if memory allows.
    pub(crate) fn tidy(&mut self, groups: &[Group], gone: usize)
        requires { AreDue self.old groups.now }
        ensures { AreDue self.new groups.now }
    {
        if gone > 0 || !self.whole {
            self.renew(groups);
        }
    }

    /// Makes the keys of these groups anew.
    fn renew(&mut self, groups: &[Group])
        ensures { AreDue self.new groups.now }
    {
        self.ring.clear();
        self.tree.clear();
        self.heap.clear();
        self.whole = true;
        self.away = count_open(groups);
        self.keep_places();
        for group in groups {
            if !group.is_open {
                self.put(&group.name, group.due);
            }
        }
    }

    /// Keeps a place in the heap for the key of each group with an open flush.
    fn keep_places(&mut self)
        ensures { (key : DueKey) → HasKey self.old key → HasKey self.new key }
    {
        if self.heap.reserve(self.away).is_err() {
            self.lose();
        }
    }

    /// Puts a key in, if there is memory for it: into the ring, if it comes behind the last one there.
    fn append(&mut self, key: DueKey)
        ensures has { HasKey self.new key }
        ensures keeps { (other : DueKey) → HasKey self.old other → HasKey self.new other }
    {
        if self.ring.is_behind(&key) {
            self.push_back(key);
        } else {
            self.insert(key);
        }
    }

    /// Puts a key into the ring that comes behind the last one there, if there is memory for it.
    fn push_back(&mut self, key: DueKey)
        requires { AreRising (self.old.ring ++ key ∷ []) }
        ensures has { HasKey self.new key }
        ensures keeps { (other : DueKey) → HasKey self.old other → HasKey self.new other }
    {
        match self.ring.push(key) {
            Ok(_) => {}
            Err(_) => self.lose(),
        }
    }

    /// Puts a key into the heap, if there is memory for it.
    fn pile(&mut self, key: DueKey)
        ensures has { HasKey self.new key }
        ensures keeps { (other : DueKey) → HasKey self.old other → HasKey self.new other }
    {
        match self.heap.push(key) {
            Ok(_) => {}
            Err(_) => self.lose(),
        }
    }

    /// Puts a key into the tree, if there is memory for it.
    fn insert(&mut self, key: DueKey)
        ensures has { HasKey self.new key }
        ensures keeps { (other : DueKey) → HasKey self.old other → HasKey self.new other }
    {
        match self.tree.insert(key) {
            Ok(_) => {}
            Err(_) => self.lose(),
        }
    }

    /// Gives all keys up where one lacks memory: the set is incomplete from now on.
    fn lose(&mut self)
        ensures { self.new.whole ≡ false }
    {
        self.whole = false;
        self.ring.clear();
        self.tree.clear();
        self.heap.clear();
    }
}

/// How many of these groups have an open flush.
fn count_open(groups: &[Group]) -> usize {
    let mut count: usize = 0;
    for group in groups {
        if group.is_open {
            count = count.saturating_add(1);
        }
    }
    count
}
