//! Keys of due times, of which only the one that is due first is found. There is a place for the
//! key of each group with an open flush: a finish puts it back without memory.
ghost use Rattle.std.specs.Prelude.{◌≡◌, [], IfSome, OnOk, Some, false, slice_get, true};
ghost use Rattle.std.specs.Ordering.{is_eq};
ghost use Rattle.am_board.specs.DueOrder.{has_key, key_at, key_cmp, IsFront};
ghost use Rattle.am_board.specs.declared.due.DueKey.{DueKey};

use super::DueKey;
use crate::group::GroupName;
use std::alloc::{AllocError, AllocFailed, Global};
use std::collections::BinaryHeap;
use std::marker::Model;

/// Keys, the one that is due first at the front, the others in no order. Contracts see their list.
///
/// `DueKey` is ordered in reverse, so the greatest key is due first.
#[derive(Drop)]
pub(crate) struct DueHeap {
    keys: BinaryHeap<DueKey>,
}

impl Model for DueHeap {
    ghost use Rattle.std.specs.Prelude.{List};
    ghost use Rattle.std.specs.BinaryHeap.{IsHeap, heap_items};
    ghost use Rattle.am_board.specs.DueOrder.{key_cmp};
    ghost use Rattle.am_board.specs.declared.due.DueKey.{DueKey};

    ghost Value = { List DueKey };

    ghost view = { λ h. heap_items h.keys };

    ghost invariant = { λ h. IsHeap key_cmp (heap_items h.keys) };
}

impl DueHeap {
    /// No keys.
    pub(crate) fn new(alloc: Global) -> DueHeap
        ensures { result ≡ [] }
    {
        DueHeap {
            keys: BinaryHeap::new(alloc),
        }
    }

    /// The key that is due first.
    pub(crate) fn front(&self) -> Option<&DueKey>
        ensures { IsFront self.now result }
    {
        self.keys.peek()
    }

    /// Whether the key that is due first is that of the group of this name.
    pub(crate) fn is_front(&self, name: &GroupName, due: u64) -> bool
        ensures { result ≡ true → slice_get self.now 0 ≡ Some (key_at name.now due) }
    {
        match self.keys.peek() {
            Some(key) => key.due == due && key.name == *name,
            None => false,
        }
    }

    /// Takes out the key that is due first.
    pub(crate) fn pop(&mut self) -> Option<DueKey>
        ensures key { (key : DueKey) → slice_get self.old 0 ≡ Some key → IfSome result (λ k. k ≡ key) }
        ensures others { (key other : DueKey) → slice_get self.old 0 ≡ Some key → is_eq (key_cmp other key) ≡ false
            → has_key self.new other ≡ has_key self.old other }
    {
        self.keys.pop()
    }

    /// Whether one more key takes no memory.
    pub(crate) fn has_place(&self) -> bool {
        self.keys.len() < self.keys.capacity()
    }

    /// Reserves places for so many more keys.
    pub(crate) fn reserve(&mut self, more: usize) -> Result<(), AllocError>
        ensures { self.new ≡ self.old }
    {
        self.keys.reserve(more)
    }

    /// Puts a key in, if there is memory for it.
    pub(crate) fn push(&mut self, key: DueKey) -> Result<(), AllocFailed<DueKey>>
        ensures has { OnOk result (has_key self.new key ≡ true) }
        ensures keeps { OnOk result ((other : DueKey) → has_key self.old other ≡ true → has_key self.new other ≡ true) }
    {
        self.keys.push(key)
    }

    /// Drops all keys.
    pub(crate) fn clear(&mut self)
        ensures { self.new ≡ [] }
    {
        self.keys.clear();
    }
}
