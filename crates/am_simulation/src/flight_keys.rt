//! When the next ends of flushes in flight come.
//!
//! Keys only save time: where memory for one lacks, or begins don't rise, the keys aren't whole any
//! more, and the list of flushes is walked over.
ghost use Rattle.std.specs.Prelude.{◌≡◌, ◌≢◌, ◌≤◌, ◌+◌, ℕ, IfNone, IfSome, IsTrue, false, true};
ghost use Rattle.am_simulation.specs.FlightKeys.{has_key, IsAdded, IsFirstEnd, IsFirstReady, IsPut, KeepsOthers};

use std::alloc::Global;
use std::collections::BTreeSet;

/// The next end of a flush: its time, in milliseconds, and the position of the flush's begin.
#[derive(Clone, Copy, Drop, PartialEq, Eq, PartialOrd, Ord)]
pub struct EndKey {
    pub at: u64,
    pub begin: u32,
}

/// The next ends of flushes, and the flushes of which no end is to come.
#[derive(Drop)]
pub struct FlightKeys {
    coming: BTreeSet<EndKey>,
    /// The positions of the begins of flushes of which no end is to come.
    ready: BTreeSet<u32>,
    /// All begins so far are below this.
    above: u64,
    /// Whether each flush has its key here, and begins rise.
    pub(crate) whole: bool,
}

impl FlightKeys {
    /// Of no flushes.
    pub(crate) fn new(alloc: Global) -> FlightKeys
        ensures { result.above ≡ 0 }
    {
        FlightKeys {
            coming: BTreeSet::new(alloc),
            ready: BTreeSet::new(alloc),
            above: 0,
            whole: true,
        }
    }

    /// Adds the key of a flush that is behind all others. `next` is the time of its next end.
    pub(crate) fn add(&mut self, begin: u32, next: Option<u64>)
        ensures { self.new.whole ≡ true → IsAdded self.old begin next self.new }
    {
        let place = begin as u64;
        if place < self.above {
            self.whole = false;
            return;
        }
        self.above = place + 1;
        self.put(begin, next);
    }

    /// Replaces the key of a flush.
    pub(crate) fn change(&mut self, begin: u32, from: Option<u64>, to: Option<u64>)
        ensures above { self.new.above ≡ self.old.above }
        ensures whole { self.new.whole ≡ true → self.old.whole ≡ true }
        ensures has { self.new.whole ≡ true → IsTrue (has_key self.new begin to) }
        ensures others { self.new.whole ≡ true → KeepsOthers begin self.old self.new }
    {
        self.remove(begin, from);
        self.put(begin, to);
    }

    /// Removes the key of a flush.
    pub(crate) fn remove(&mut self, begin: u32, next: Option<u64>)
        ensures above { self.new.above ≡ self.old.above }
        ensures whole { self.new.whole ≡ self.old.whole }
        ensures others { KeepsOthers begin self.old self.new }
    {
        match next {
            None => {
                self.ready.remove(&begin);
            }
            Some(at) => {
                self.coming.remove(&EndKey { at, begin });
            }
        }
    }

    /// Adds the key of a flush.
    fn put(&mut self, begin: u32, next: Option<u64>)
        ensures above { self.new.above ≡ self.old.above }
        ensures put { self.new.whole ≡ true → IsPut self.old begin next self.new }
    {
        match next {
            None => self.put_ready(begin),
            Some(at) => self.put_end(EndKey { at, begin }),
        }
    }

    fn put_ready(&mut self, begin: u32)
        ensures above { self.new.above ≡ self.old.above }
        ensures put { self.new.whole ≡ true → IsPut self.old begin None self.new }
    {
        match self.ready.insert(begin) {
            Ok(_) => (),
            Err(_) => self.whole = false,
        }
    }

    fn put_end(&mut self, key: EndKey)
        ensures above { self.new.above ≡ self.old.above }
        ensures put { self.new.whole ≡ true → IsPut self.old key.begin (Some key.at) self.new }
    {
        match self.coming.insert(key) {
            Ok(_) => (),
            Err(_) => self.whole = false,
        }
    }

    /// Returns the key of the end that comes first; of one time, that of the first begin.
    pub(crate) fn first_end(&self) -> Option<EndKey>
        ensures none { IfNone result ((begin at : ℕ) → has_key self.now begin (Some at) ≡ false) }
        ensures first { IfSome result (IsFirstEnd self.now) }
    {
        match self.coming.first() {
            None => None,
            Some(key) => Some(*key),
        }
    }

    /// Returns the first begin of a flush of which no end is to come.
    pub(crate) fn first_ready(&self) -> Option<u32>
        ensures none { IfNone result ((begin : ℕ) → has_key self.now begin None ≡ false) }
        ensures first { IfSome result (IsFirstReady self.now) }
    {
        match self.ready.first() {
            None => None,
            Some(begin) => Some(*begin),
        }
    }
}
