//! Keys of due times in order, the one that is due first at the front. A key that comes behind the
//! last one is added with one comparison, and without a search.
ghost use Rattle.std.specs.Prelude.{◌≡◌, ◌∷◌, [], ◌++◌, Some, if◌then◌else◌, is_ok, slice_get, true};
ghost use Rattle.std.specs.Option.{option_to_list};
ghost use Rattle.am_board.specs.DueOrder.{key_at, AreRising, IsFront};

use super::DueKey;
use crate::group::GroupName;
use std::alloc::{AllocFailed, Global};
use std::collections::VecDeque;
use std::marker::Model;

/// Keys in the order in which they are due. Contracts see their list.
#[derive(Drop)]
pub(crate) struct DueRing {
    keys: VecDeque<DueKey>,
}

impl Model for DueRing {
    ghost use Rattle.std.specs.Prelude.{List};
    ghost use Rattle.am_board.specs.DueOrder.{AreRising};
    ghost use Rattle.am_board.specs.declared.due.DueKey.{DueKey};

    ghost Value = { List DueKey };

    ghost view = { λ r. r.keys.items };

    ghost invariant = { λ r. AreRising r.keys.items };
}

impl DueRing {
    /// No keys.
    pub(crate) fn new(alloc: Global) -> DueRing
        ensures { result ≡ [] }
    {
        DueRing {
            keys: VecDeque::new(alloc),
        }
    }

    /// The key that is due first.
    pub(crate) fn front(&self) -> Option<&DueKey>
        ensures { IsFront self.now result }
    {
        self.keys.front()
    }

    /// Whether one more key takes no memory.
    pub(crate) fn has_place(&self) -> bool {
        self.keys.len() < self.keys.capacity()
    }

    /// Whether a key comes behind the last one, and so behind all that are here.
    pub(crate) fn is_behind(&self, key: &DueKey) -> bool
        ensures { result ≡ true → AreRising (self.now ++ key.now ∷ []) }
    {
        match self.keys.back() {
            Some(last) => key.cmp(last).is_lt(),
            None => true,
        }
    }

    /// Puts a key at the back that comes behind the last one, if there is memory for it.
    pub(crate) fn push(&mut self, key: DueKey) -> Result<(), AllocFailed<DueKey>>
        requires { AreRising (self.old ++ key ∷ []) }
        ensures { self.new ≡ (if is_ok result then self.old ++ key ∷ [] else self.old) }
    {
        self.keys.push_back(key)
    }

    /// Whether the key that is due first is that of the group of this name.
    pub(crate) fn is_front(&self, name: &GroupName, due: u64) -> bool
        ensures { result ≡ true → slice_get self.now 0 ≡ Some (key_at name.now due) }
    {
        match self.keys.front() {
            Some(key) => key.due == due && key.name == *name,
            None => false,
        }
    }

    /// Takes out the key that is due first.
    pub(crate) fn pop_front(&mut self) -> Option<DueKey>
        ensures { self.old ≡ option_to_list result ++ self.new }
    {
        self.keys.pop_front()
    }

    /// Drops all keys.
    pub(crate) fn clear(&mut self)
        ensures { self.new ≡ [] }
    {
        self.keys.clear();
    }
}
