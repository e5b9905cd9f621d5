//! Which alerts of a group are noted with the silences: for those a begin looks at no silence.
//!
//! `NotedSilences` has one list of the label sets that no silence mutes (`unsilenced`). A group
//! stores the index of its first alert there, and its alerts are noted behind one another, in the
//! order of labels, without those that a silence mutes. So a walk in this order compares each alert
//! with the next noted one. A silence that is set, or starts or ends, makes all groups note anew. A
//! label set that comes into a group or leaves makes this group note anew.
//!
//! It only saves time. The index is a hint with no invariant: `NotedSilences` compares what is there.
ghost use Rattle.std.specs.Prelude.{◌≡◌, map};
ghost use Rattle.std.specs.List.{IsDistinct};
ghost use Rattle.am_model.specs.Insert.{same_member};
ghost use Rattle.am_board.specs.Refinement.{member_state};
ghost use Rattle.am_board.specs.Order.{AreIndexes};

use crate::group::Member;
use crate::order::{is_whole, ordered};
use crate::silences::NotedSilences;
use crate::unsilenced::NotedIndex;
use std::alloc::Global;

/// The index of what was noted of alerts with this order. None if a label set came or left since.
pub(crate) fn noted_in(order: &[usize], members: &[Member], index: NotedIndex) -> NotedIndex {
    if is_whole(order, members) {
        index
    } else {
        NotedIndex::default()
    }
}

/// Notes the alerts that no silence mutes at `t` (milliseconds), unless those from `last` on count.
///
/// Returns the index of the first.
pub(crate) fn note_members(
    alloc: Global,
    silences: &mut NotedSilences,
    order: &[usize],
    members: &[Member],
    last: NotedIndex,
    t: u64,
    limit: usize,
) -> NotedIndex
    requires apart { IsDistinct same_member (map member_state members.now) }
    requires known { AreIndexes order.now members.now }
    ensures { silences.new ≡ silences.old }
{
    let Some(index) = silences.start_noting(last, t, limit, members.len()) else {
        return last;
    };
    if let Ok(members) = ordered(alloc, order, members) {
        note_all(alloc, silences, members.as_slice(), t);
    }
    index
}

/// Notes the alerts that no silence mutes at `t`, in turn, as far as there is memory for it.
fn note_all(alloc: Global, silences: &mut NotedSilences, members: &[&Member], t: u64)
    ensures { silences.new ≡ silences.old }
{
    for member in members {
        if silences.note(alloc, member.alert.labels(), t).is_err() {
            return;
        }
    }
}
