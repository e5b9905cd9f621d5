//! The group that a begin takes.
//!
//! Of each list of the set of due times it looks at the key in front, and takes the earliest of the
//! groups that it finds. While the set is incomplete, or where a key in front is stale, it walks
//! over all groups. Both give the definitions' `least` of the groups that a begin may take.
ghost use Rattle.std.specs.Prelude.{◌≡◌, ℕ, ◌<◌, ◌++◌, IfSome, List, length, map, slice_index_or};
ghost use Rattle.std.specs.List.{IsDistinct};
ghost use Rattle.std.specs.Map.{keys_of, values_of};
ghost use Rattle.std.specs.Option.{option_map};
ghost use Rattle.std.specs.Ordering.{is_gt};
ghost use Rattle.am_model.specs.Begin.{due_cmp};
ghost use Rattle.am_model.specs.Lists.{lesser};
ghost use Rattle.am_model.specs.State.{FlushState, is_flushing, same_name};
ghost use Rattle.am_board.specs.Beginning.{may_take, first_of, IsFirst, IsFirstOfKeys};
ghost use Rattle.am_board.specs.Due.{AreDue, IsCurrent, IsFree};
ghost use Rattle.am_board.specs.DueOrder.{IsFront};
ghost use Rattle.am_board.specs.declared.due.DueKey.{DueKey};
ghost use Rattle.am_board.specs.GroupList.{name_of};
ghost use Rattle.am_board.specs.Refinement.{group_state};
ghost use Rattle.am_board.specs.Marks.{AreMarked, HaveOpenFlags};
ghost use Rattle.am_board.specs.Keyed.{AreKeyed};
ghost use Rattle.am_board.specs.declared.group.Group.{Group};

use super::Groups;
use crate::due::{DueKey, DueSet};
use crate::group::{Group, GroupName};
use am_seed::Seed;
use indexmap::IndexMap;

impl Groups {
    /// Returns the index of the group to take at `t`: the first due one without an open flush.
    ///
    /// They are ordered by due time, then by name.
    pub(crate) fn first_due(&self, t: u64) -> Option<usize>
        ensures within { IfSome result (λ i. i < length self.now.items) }
        ensures first { (flushes : List FlushState) → AreMarked flushes self.now.items
            → IsFirst self.now.items result (first_of flushes t (map group_state self.now.items)) }
    {
        match first_by_keys(&self.groups, &self.due, t) {
            Some(first) => first,
            None => first_by_walk(self.groups.values().as_slice(), t),
        }
    }
}

/// Returns the index of the group to take at `t` by the set of keys. None where the set is incomplete
/// or a key in front is stale.
fn first_by_keys(
    groups: &IndexMap<GroupName, Group, Seed>,
    due: &DueSet,
    t: u64,
) -> Option<Option<usize>>
    requires keyed { AreKeyed name_of groups.now.entries }
    requires distinct { IsDistinct same_name (keys_of groups.now.entries) }
    requires keys { AreDue due.now (values_of groups.now.entries) }
    ensures within { IfSome result (λ found. IfSome found (λ i. i < length (values_of groups.now.entries))) }
    ensures first { (flushes : List FlushState) → HaveOpenFlags flushes (values_of groups.now.entries) → IfSome result (λ found.
        IsFirst (values_of groups.now.entries) found (first_of flushes t (map group_state (values_of groups.now.entries)))) }
{
    if !due.whole {
        return None;
    }
    let in_ring = first_in(groups, due.ring.front(), t)?;
    let in_tree = first_in(groups, due.tree_front(), t)?;
    let in_heap = first_in(groups, due.heap.front(), t)?;
    let groups = groups.values().as_slice();
    let in_both = first_of_two(groups, in_ring, in_tree);
    Some(first_of_two(groups, in_both, in_heap))
}

/// The index of the group to take at `t` of those that have their keys in a list with this key in
/// front. None where that key is stale: then it isn't known.
fn first_in(
    groups: &IndexMap<GroupName, Group, Seed>,
    front: Option<&DueKey>,
    t: u64,
) -> Option<Option<usize>>
    requires keyed { AreKeyed name_of groups.now.entries }
    requires distinct { IsDistinct same_name (keys_of groups.now.entries) }
    ensures within { IfSome result (λ found. IfSome found (λ i. i < length (values_of groups.now.entries))) }
    ensures first { (flushes : List FlushState) (keys : List DueKey)
        → HaveOpenFlags flushes (values_of groups.now.entries) → IsFront keys front.entry
        → IfSome result (IsFirstOfKeys flushes t (values_of groups.now.entries) keys) }
{
    let Some(key) = front else {
        return Some(None);
    };
    if key.due > t {
        return Some(None);
    }
    match free_index(groups, key) {
        Some(index) => Some(Some(index)),
        None => None,
    }
}

/// The group that is taken first of those that were found by two lists of keys.
fn first_of_two(groups: &[Group], one: Option<usize>, other: Option<usize>) -> Option<usize>
    requires here { IfSome one (λ i. i < length groups.now) }
    requires there { IfSome other (λ i. i < length groups.now) }
    ensures within { IfSome result (λ i. i < length groups.now) }
    ensures first { (flushes : List FlushState) (t : ℕ) (keys more : List DueKey) → IsFirstOfKeys flushes t groups.now keys one
        → IsFirstOfKeys flushes t groups.now more other → IsFirstOfKeys flushes t groups.now (keys ++ more) result }
{
    match one {
        None => other,
        Some(i) => Some(earlier(groups, i, other)),
    }
}

/// The index of the group that has a key, unless the key is stale: the group is gone, is due at
/// another time or is marked as open.
fn free_index(groups: &IndexMap<GroupName, Group, Seed>, key: &DueKey) -> Option<usize>
    requires keyed { AreKeyed name_of groups.now.entries }
    requires distinct { IsDistinct same_name (keys_of groups.now.entries) }
    ensures within { IfSome result (λ i. i < length (values_of groups.now.entries)) }
    ensures free { (flushes : List FlushState) → HaveOpenFlags flushes (values_of groups.now.entries)
        → IsFree flushes (values_of groups.now.entries) key.now result }
{
    let index = index_of(groups, key)?;
    if groups[index].is_open {
        None
    } else {
        Some(index)
    }
}

/// The index of the group that has a key, if it is there and due at the key's time.
fn index_of(groups: &IndexMap<GroupName, Group, Seed>, key: &DueKey) -> Option<usize>
    requires keyed { AreKeyed name_of groups.now.entries }
    requires distinct { IsDistinct same_name (keys_of groups.now.entries) }
    ensures { IsCurrent (values_of groups.now.entries) key.now result }
{
    let index = groups.get_index_of(&key.name)?;
    if groups[index].due == key.due {
        Some(index)
    } else {
        None
    }
}

/// Returns the index of the group to take at `t`, by a walk over all groups.
fn first_by_walk(groups: &[Group], t: u64) -> Option<usize>
    ensures within { IfSome result (λ i. i < length groups.now) }
    ensures first { (flushes : List FlushState) → HaveOpenFlags flushes groups.now
        → IsFirst groups.now result (first_of flushes t (map group_state groups.now)) }
{
    let mut best: Option<usize> = None;
    for i in (0..groups.len()).rev() {
        if may_begin(&groups[i], t) {
            best = Some(earlier(groups, i, best));
        }
    }
    best
}

/// Returns whether a begin at `t` can take a group: it is due, and no flush of it is open.
fn may_begin(group: &Group, t: u64) -> bool
    ensures { (flushes : List FlushState) → group.now.is_open ≡ is_flushing flushes group.now.name
        → result ≡ may_take flushes t (group_state group.now) }
{
    group.due <= t && !group.is_open
}

/// The index of the group that is taken before the other, if there is another.
fn earlier(groups: &[Group], i: usize, other: Option<usize>) -> usize
    requires here { i < length groups.now }
    requires there { IfSome other (λ j. j < length groups.now) }
    ensures within { result < length groups.now }
    ensures lesser { (d : Group) → group_state (slice_index_or groups.now result d)
        ≡ lesser due_cmp (group_state (slice_index_or groups.now i d))
        (option_map (λ j. group_state (slice_index_or groups.now j d)) other) }
{
    match other {
        None => i,
        Some(j) => if is_behind(&groups[i], &groups[j]) {
            j
        } else {
            i
        },
    }
}

/// Returns whether a group comes after another, by due time, then by name.
fn is_behind(group: &Group, other: &Group) -> bool
    ensures { result ≡ is_gt (due_cmp (group_state group.now) (group_state other.now)) }
{
    group
        .due
        .cmp(&other.due)
        .then_with(|| group.name.cmp(&other.name))
        .is_gt()
}
