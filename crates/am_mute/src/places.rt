//! `Places`: where the silence of each id is.
//!
//! Invariant: while it is whole, the map has the first place of each id. An id that lacks memory
//! leaves it incomplete; the list is walked then, until the places are noted anew.
ghost use Rattle.std.specs.Prelude.{◌≡◌, ◌<◌, ◌++◌, ◌==◌, [], ◌∷◌, List, length, set, slice_index_or, IfSome};
ghost use Rattle.std.specs.List.{position};
ghost use Rattle.am_mute.specs.Places.{AreNoted};
ghost use Rattle.am_mute.specs.Silence.{SilenceData};

use crate::silence::Silence;
use am_seed::Seed;
use std::alloc::{AllocError, Global};
use std::collections::HashMap;

/// The place of the first silence of each id in a list.
///
/// This only saves time: where the places are incomplete, the list is walked.
#[derive(Debug, Drop)]
pub(crate) struct Places {
    places: HashMap<u64, usize, Seed>,
    /// Whether each silence's id is here.
    whole: bool,
}

impl Places {
    /// No places, of no silences. Takes no memory.
    pub(crate) fn new(alloc: Global, seed: Seed) -> Places
        ensures { AreNoted [] result }
    {
        Places {
            places: HashMap::with_hasher(alloc, seed),
            whole: true,
        }
    }

    /// The place of the first of these silences that has this id.
    pub(crate) fn find(&self, silences: &[Silence], id: u64) -> Option<usize>
        requires { AreNoted silences.now self.now }
        ensures index { result ≡ position (λ s. id == s.id) silences.now }
        ensures within { IfSome result (λ index. index < length silences.now) }
    {
        if self.whole {
            return self.places.get(&id).copied();
        }
        silences.iter().position(|silence| id == silence.id())
    }

    /// Reserves memory for so many more ids.
    pub(crate) fn reserve(&mut self, more: usize) -> Result<(), AllocError>
        ensures { (silences : List SilenceData) → AreNoted silences self.old → AreNoted silences self.new }
    {
        self.places.reserve(more)
    }

    /// Notes the place of a silence of this id that comes behind so many others.
    pub(crate) fn add(&mut self, id: u64, place: usize)
        ensures { (silences : List SilenceData) (silence : SilenceData) → length silences ≡ place → silence.id ≡ id
            → AreNoted silences self.old → AreNoted (silences ++ silence ∷ []) self.new }
    {
        if self.places.contains_key(&id) {
            return;
        }
        if self.places.insert(id, place).is_err() {
            self.whole = false;
        }
    }

    /// Notes the places of these silences anew.
    pub(crate) fn renew(&mut self, silences: &[Silence])
        ensures { AreNoted silences.now self.new }
    {
        self.places.clear();
        self.whole = true;
        for place in 0..silences.len() {
            self.add(silences[place].id(), place);
        }
    }
}
