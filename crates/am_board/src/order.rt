//! The order of a group's alerts by labels, as a list of indexes. It is dropped when a label set
//! goes.
//!
//! A label set that comes is last in the group. Its index isn't in the list until the next begin, which
//! adds it behind the others and sorts. The sort finds that the others are in their order, so they cost
//! at most two comparisons each. Above 20 alerts it takes a buffer for the time of the sort.
//!
//! It only saves time. Without memory for it, each use computes it again.
ghost use Rattle.std.specs.Prelude.{◌≡◌, ◌≤◌, ◌==◌, [], IfOk, IfSome, IsPermutation, OnOk, length, map, slice_get};
ghost use Rattle.std.specs.List.{IsDistinct, filter_map, range_with_len};
ghost use Rattle.std.specs.Option.{option_copied};
ghost use Rattle.am_model.specs.Insert.{same_member};
ghost use Rattle.am_model.specs.Lists.{in_order};
ghost use Rattle.am_board.specs.Refinement.{member_state};
ghost use Rattle.am_board.specs.Members.{labels_of};
ghost use Rattle.am_board.specs.Order.{AreFirst, AreIndexes, member_cmp, index_cmp, indexes_in_order};

use crate::group::Member;
use am_alerts::labels::Labels;
use std::alloc::{AllocError, Global};
use std::cmp::Ordering;

/// Completes the indexes in the order of labels. Where there is no memory, none is there.
pub(crate) fn renew(order: &mut Vec<usize>, members: &[Member])
    requires apart { IsDistinct same_member (map member_state members.now) }
    requires known { AreIndexes order.old.items members.now }
    ensures { AreIndexes order.new.items members.now }
{
    if is_whole(order.as_slice(), members) {
        return;
    }
    match complete(order, members) {
        Ok(()) => {}
        Err(_) => forget(order),
    }
}

/// Forgets the indexes. The list keeps its memory, as the group's table does: the next begin fills it.
pub(crate) fn forget(order: &mut Vec<usize>)
    ensures { order.new.items ≡ [] }
{
    order.clear();
}

/// Whether the index of each alert is there.
pub(crate) fn is_whole(order: &[usize], members: &[Member]) -> bool
    ensures { result ≡ (length order.now == length members.now) }
{
    order.len() == members.len()
}

/// The indexes, if all are there.
pub(crate) fn stored<'o>(order: &'o [usize], members: &[Member]) -> Option<&'o [usize]>
    requires { AreIndexes order.now members.now }
    ensures { IfSome (option_copied result) (λ indexes. indexes ≡ indexes_in_order (map labels_of members.now)) }
{
    if is_whole(order, members) {
        Some(order)
    } else {
        None
    }
}

/// Returns alerts in the order of their labels, by these indexes or by sorting.
pub(crate) fn ordered<'m>(
    alloc: Global,
    order: &[usize],
    members: &'m [Member],
) -> Result<Vec<&'m Member>, AllocError>
    requires apart { IsDistinct same_member (map member_state members.now) }
    requires known { AreIndexes order.now members.now }
    ensures { IfOk result (λ found. map (λ m. m.now) found.items ≡ in_order member_cmp members.now) }
{
    match stored(order, members) {
        Some(indexes) => at_order(alloc, members, indexes),
        None => sorted_members(alloc, members),
    }
}

/// The alerts at their indexes in the order of their labels.
fn at_order<'m>(
    alloc: Global,
    members: &'m [Member],
    indexes: &[usize],
) -> Result<Vec<&'m Member>, AllocError>
    requires { indexes.now ≡ indexes_in_order (map labels_of members.now) }
    ensures { IfOk result (λ found. map (λ m. m.now) found.items ≡ in_order member_cmp members.now) }
{
    members_at(alloc, members, indexes)
}

/// The indexes of alerts in the order of their labels.
pub(crate) fn indexes_in_order(alloc: Global, members: &[Member]) -> Result<Vec<usize>, AllocError>
    requires { IsDistinct same_member (map member_state members.now) }
    ensures { IfOk result (λ indexes. indexes.items ≡ indexes_in_order (map labels_of members.now)) }
{
    let mut indexes = Vec::new(alloc);
    complete(&mut indexes, members)?;
    Ok(indexes)
}

/// Adds the indexes that aren't there to those of the first alerts, and sorts all by labels.
fn complete(indexes: &mut Vec<usize>, members: &[Member]) -> Result<(), AllocError>
    requires apart { IsDistinct same_member (map member_state members.now) }
    requires first { AreFirst indexes.old.items }
    requires within { length indexes.old.items ≤ length members.now }
    ensures all { OnOk result (IsPermutation (range_with_len 0 (length members.now)) indexes.new.items) }
    ensures sorted { OnOk result (indexes.new.items ≡ indexes_in_order (map labels_of members.now)) }
{
    add_indexes(indexes, members.len())?;
    indexes.sort_by(|a, b| compare_at(members, *a, *b))?;
    Ok(())
}

/// Adds the indexes up to so many.
fn add_indexes(indexes: &mut Vec<usize>, count: usize) -> Result<(), AllocError>
    requires first { AreFirst indexes.old.items }
    requires within { length indexes.old.items ≤ count }
    ensures { OnOk result (IsPermutation (range_with_len 0 count) indexes.new.items) }
{
    indexes.reserve(count.saturating_sub(indexes.len()))?;
    for index in indexes.len()..count {
        indexes.push(index)?;
    }
    Ok(())
}

/// How the labels at two indexes compare.
fn compare_at(members: &[Member], a: usize, b: usize) -> Ordering
    ensures { result ≡ index_cmp (map labels_of members.now) a b }
{
    labels_at(members, a).cmp(&labels_at(members, b))
}

/// The labels of the alert at an index.
fn labels_at(members: &[Member], index: usize) -> Option<&Labels>
    ensures { option_copied result ≡ slice_get (map labels_of members.now) index }
{
    match members.get(index) {
        Some(member) => Some(member.alert.labels()),
        None => None,
    }
}

/// The alert at an index.
pub(crate) fn member_at(members: &[Member], index: usize) -> Option<&Member>
    ensures { option_copied result ≡ slice_get members.now index }
{
    members.get(index)
}

/// The alerts at these indexes, in turn.
fn members_at<'m>(
    alloc: Global,
    members: &'m [Member],
    indexes: &[usize],
) -> Result<Vec<&'m Member>, AllocError>
    ensures { IfOk result (λ found. map (λ m. m.now) found.items ≡ filter_map (slice_get members.now) indexes.now) }
{
    let mut found = Vec::with_capacity(alloc, indexes.len())?;
    for index in indexes {
        if let Some(member) = member_at(members, *index) {
            found.push(member)?;
        }
    }
    Ok(found)
}

/// Returns alerts in the order of their labels, by sorting.
fn sorted_members<'m>(alloc: Global, members: &'m [Member]) -> Result<Vec<&'m Member>, AllocError>
    requires { IsDistinct same_member (map member_state members.now) }
    ensures { IfOk result (λ found. map (λ m. m.now) found.items ≡ in_order member_cmp members.now) }
{
    let indexes = indexes_in_order(alloc, members)?;
    at_order(alloc, members, indexes.as_slice())
}
