//! Open flushes, and what they keep for their notes and their finish.
//!
//! `AlertSets` of an integration are gone once it is noted. Those of the flush stay, and say what
//! they were.
ghost use Rattle.std.specs.Prelude.{◌≡◌, ◌+◌, ◌<◌, ◌==◌, ◌^◌, length, map, position, slice_index_or, IfOk, IfSome};
ghost use Rattle.std.specs.List.{IsDistinct};
ghost use Rattle.am_model.specs.Laws.{same_number};
ghost use Rattle.am_board.specs.Refinement.{flush_state};
ghost use Rattle.am_board.specs.declared.flush.OpenFlush.{OpenFlush};

use crate::group::GroupName;
use am_alerts::labels::Labels;
use am_nflog::{LogKey, LogRow, Members};
use std::alloc::AllocError;
use std::collections::VecDeque;

/// The label sets of a flush: the firing and the resolved ones.
///
/// A begin makes them once. The flush, its notified integrations and their log rows share them.
#[derive(Drop)]
pub(crate) struct AlertSets {
    pub(crate) firing: Members<Labels>,
    pub(crate) resolved: Members<Labels>,
}

/// An integration that a flush notifies, with what its log row will have, until it is noted.
#[derive(Drop)]
pub(crate) struct Notified {
    pub(crate) key: LogKey<GroupName>,
    pub(crate) nothing: bool,
    pub(crate) sets: Option<AlertSets>,
}

/// An alert that was resolved when the flush began, as it was in the group.
#[derive(Drop)]
pub(crate) struct LeavingAlert {
    pub(crate) labels: Labels,
    pub(crate) stamp: u64,
}

/// A flush that was begun and isn't finished.
#[derive(Drop)]
pub(crate) struct OpenFlush {
    pub(crate) number: u64,
    pub(crate) group: GroupName,
    /// How long the rows of this flush stay in the log, in milliseconds.
    pub(crate) kept_for: u64,
    pub(crate) notified: Vec<Notified>,
    pub(crate) sets: AlertSets,
    pub(crate) leaving: Vec<LeavingAlert>,
}

impl AlertSets {
    /// One more owner of the same label sets. It takes no memory.
    pub(crate) fn share(&self) -> Result<AlertSets, AllocError>
        ensures { IfOk result (λ sets. sets ≡ self.now) }
    {
        Ok(AlertSets {
            firing: self.firing.share()?,
            resolved: self.resolved.share()?,
        })
    }

    /// Returns the log row of an integration that was notified of these label sets at `t`.
    pub(crate) fn into_row(self, t: u64, kept_for: u64) -> LogRow<Labels>
        ensures { t + kept_for < 2 ^ 64
            → result ≡ record { time = t; firing = self.firing; resolved = self.resolved; expiry = t + kept_for } }
    {
        let AlertSets { firing, resolved } = self;
        LogRow {
            time: t,
            firing,
            resolved,
            expiry: t.saturating_add(kept_for),
        }
    }
}

/// The index of the open flush of this number. Numbers are distinct.
///
/// Numbers rise, so a search by halves finds it. No proof relies on that: where the search finds
/// none, all are walked over.
pub(crate) fn find_flush(flushes: &VecDeque<OpenFlush>, number: u64) -> Option<usize>
    requires { IsDistinct same_number (map flush_state flushes.now.items) }
    ensures within { IfSome result (λ i. i < length flushes.now.items) }
    ensures first { result ≡ position (λ flush. flush.number == number) flushes.now.items }
{
    match find_by_halves(flushes, number) {
        Some(i) => Some(i),
        None => flushes.iter().position(|flush| flush.number == number),
    }
}

/// An index of a flush of this number, if a search by halves comes to one.
fn find_by_halves(flushes: &VecDeque<OpenFlush>, number: u64) -> Option<usize>
    ensures within { IfSome result (λ i. i < length flushes.now.items) }
    ensures number { IfSome result (λ i. (d : OpenFlush) → (slice_index_or flushes.now.items i d).number ≡ number) }
{
    let mut low = 0;
    let mut high = flushes.len();
    while low < high {
        let middle = low + (high - low) / 2;
        let found = flushes[middle].number;
        if found == number {
            return Some(middle);
        }
        if found < number {
            low = middle + 1;
        } else {
            high = middle;
        }
    }
    None
}

/// Returns the index of this integration among those of a flush.
pub(crate) fn find_notified(notified: &[Notified], integration: u32) -> Option<usize>
    ensures within { IfSome result (λ i. i < length notified.now) }
    ensures first { result ≡ position (λ a. a.key.integration == integration) notified.now }
{
    notified
        .iter()
        .position(|notified| notified.key.integration == integration)
}
