//! `AttemptTrace`: what a courier did, in proofs alone. Couriers keep one.
ghost use Rattle.std.specs.Prelude.{◌≡◌, ◌+◌, [], ◌∷◌, ◌++◌};

use crate::Tried;
use am_ghost::GhostList;
use std::alloc::AllocError;
use std::marker::Model;

/// The attempts of a courier, and how many it refused. It takes no memory.
#[derive(Drop)]
pub struct AttemptTrace {
    tries: GhostList<Tried>,
    refusals: GhostList<AllocError>,
}

impl Model for AttemptTrace {
    ghost use Rattle.std.specs.Prelude.{length};
    ghost use Rattle.am_pool.specs.Tries.{AttemptTraceData};

    ghost Value = { AttemptTraceData };

    ghost view = { λ j. record { tries = j.tries.items; refusals = length j.refusals.items } };
}

impl AttemptTrace {
    /// Returns the trace of a courier that did nothing yet.
    pub fn new() -> AttemptTrace
        ensures tries { result.tries ≡ [] }
        ensures refusals { result.refusals ≡ 0 }
    {
        AttemptTrace {
            tries: GhostList::new(),
            refusals: GhostList::new(),
        }
    }

    /// Adds an attempt. Does nothing at run time.
    pub fn add_try(&mut self, tried: &Tried)
        ensures tries { self.new.tries ≡ self.old.tries ++ tried.now ∷ [] }
        ensures refusals { self.new.refusals ≡ self.old.refusals }
    {
        self.tries.add(tried);
    }

    /// Counts one more refusal. Does nothing at run time.
    pub fn add_refusal(&mut self)
        ensures tries { self.new.tries ≡ self.old.tries }
        ensures refusals { self.new.refusals ≡ self.old.refusals + 1 }
    {
        self.refusals.add(&AllocError);
    }
}
