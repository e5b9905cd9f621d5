//! `Silences`: the list of a board's silences, with its index and the place of each id. Contracts
//! see the list and its capacity.
//!
//! Cost of `find`, `add` and `replace`: a look-up or two each, however many silences there are; a
//! silence that replaces one of another id costs a walk. `is_silenced` stops at the first silence
//! that it finds. `silence_for` names the first of the list: it compares the indexes of all that it
//! finds, and tests those before the best so far.
ghost use Rattle.std.specs.Prelude.{◌≡◌, ◌<◌, ◌≤◌, ◌++◌, ◌==◌, [], ◌∷◌, length, set, is_some, option_copied, IfOk, IfSome, IsOk, IsTrue};
ghost use Rattle.std.specs.Prelude.{OnOk, count_by, filter, not};
ghost use Rattle.std.specs.List.{position};
ghost use Rattle.am_mute.specs.Silence.{is_over, is_silenced};
ghost use Rattle.am_mute.specs.Mute.{silence_for};
ghost use Rattle.am_mute.specs.Matching.{silences_compare_texts};

use crate::places::Places;
use crate::silence::Silence;
use crate::silence_index::SilenceIndex;
use am_alerts::labels::Labels;
use am_seed::Seed;
use std::alloc::{AllocError, Global};
use std::marker::Model;

/// A list of silences, with capacity. Those that can mute a label set are found by its labels, so
/// that the others cost nothing.
#[derive(Debug, Drop)]
pub struct Silences {
    silences: Vec<Silence>,
    index: SilenceIndex,
    places: Places,
}

impl Model for Silences {
    ghost use Rattle.std.specs.Prelude.{◌-◌, vec_capacity, vec_len};
    ghost use Rattle.am_mute.specs.Places.{AreNoted};
    ghost use Rattle.am_mute.specs.SilenceIndex.{IsIndexed};
    ghost use Rattle.am_mute.specs.Silences.{SilenceList};

    ghost Value = { SilenceList };

    ghost view = { λ s. record { items = s.silences.items; space = vec_capacity s.silences - vec_len s.silences } };

    ghost invariant = { λ s. IsIndexed s.silences.items s.index × AreNoted s.silences.items s.places };
}

impl Silences {
    /// No silences. Takes no memory. The hashes by which they are found start from this seed.
    pub fn new(alloc: Global, seed: Seed) -> Silences
        ensures { result.items ≡ [] }
    {
        Silences {
            silences: Vec::new(alloc),
            index: SilenceIndex::new(alloc, seed),
            places: Places::new(alloc, seed),
        }
    }

    /// How many silences there are.
    pub fn len(&self) -> usize
        ensures { result ≡ length self.now.items }
    {
        self.silences.len()
    }

    /// The silences, in their order.
    pub fn as_slice(&self) -> &[Silence]
        ensures value { result.now ≡ self.now.items }
    {
        self.silences.as_slice()
    }

    /// The index of the first silence of this id.
    pub fn find(&self, id: u64) -> Option<usize>
        ensures index { result ≡ position (λ s. id == s.id) self.now.items }
        ensures within { IfSome result (λ index. index < length self.now.items) }
    {
        self.places.find(self.silences.as_slice(), id)
    }

    /// Reserves capacity for so many more silences.
    pub fn reserve(&mut self, more: usize) -> Result<(), AllocError>
        ensures items { self.new.items ≡ self.old.items }
        ensures space { OnOk result (more ≤ self.new.space) }
    {
        self.places.reserve(more)?;
        self.silences.reserve(more)
    }

    /// Adds a silence behind the others, for which there is capacity.
    pub fn add(&mut self, alloc: Global, silence: Silence)
        requires space { 0 < self.old.space }
        ensures items { self.new.items ≡ self.old.items ++ silence ∷ [] }
    {
        self.places.add(silence.id(), self.silences.len());
        self.silences.push_reserved(silence);
        self.index.extend(alloc, self.silences.as_slice());
    }

    /// Puts a silence in place of another.
    pub fn replace(&mut self, alloc: Global, index: usize, silence: Silence)
        requires within { index < length self.old.items }
        ensures items { self.new.items ≡ set self.old.items index silence }
    {
        let is_same = self.silences[index].id() == silence.id();
        self.index
            .change(alloc, self.silences.as_slice(), index, &silence);
        self.silences[index] = silence;
        self.index.extend(alloc, self.silences.as_slice());
        if !is_same {
            self.places.renew(self.silences.as_slice());
        }
    }

    /// Removes the silences that are over at `t` (milliseconds). Returns how many. Never fails.
    ///
    /// Cost: one walk, and the index and the places are made anew.
    pub fn drop_over(&mut self, alloc: Global, t: u64) -> usize
        ensures items { self.new.items ≡ filter (λ s. not (is_over t s)) self.old.items }
        ensures count { result ≡ count_by (is_over t) self.old.items }
    {
        let before = self.silences.len();
        self.silences.retain(
            |silence: &Silence| -> bool
                ensures { result ≡ not (is_over t silence.now) }
            { !silence.is_over(t) },
        );
        self.index = SilenceIndex::new(alloc, self.index.seed());
        self.index.extend(alloc, self.silences.as_slice());
        self.places.renew(self.silences.as_slice());
        before - self.silences.len()
    }

    /// Whether one of the silences mutes a label set at `t` (milliseconds). Matchers that compare texts
    /// take no memory.
    pub fn is_silenced(&self, alloc: Global, labels: &Labels, t: u64) -> Result<bool, AllocError>
        ensures value { IfOk result (λ silenced. silenced ≡ is_silenced labels.now t self.now.items) }
        ensures answers { IsTrue (silences_compare_texts self.now.items) → IsOk result }
    {
        self.index.is_silenced(alloc, self.as_slice(), labels, t)
    }

    /// The first silence that mutes a label set at `t` (milliseconds). Matchers that compare texts take
    /// no memory.
    pub fn silence_for(
        &self,
        alloc: Global,
        labels: &Labels,
        t: u64,
    ) -> Result<Option<&Silence>, AllocError>
        ensures value { IfOk result (λ found. option_copied found ≡ silence_for labels.now t self.now.items) }
        ensures some { IfOk result (λ found. is_some found ≡ is_silenced labels.now t self.now.items) }
        ensures answers { IsTrue (silences_compare_texts self.now.items) → IsOk result }
    {
        let silences = self.silences.as_slice();
        let first = self.index.first(alloc, silences, labels, t)?;
        if first < silences.len() {
            return Ok(Some(&silences[first]));
        }
        Ok(None)
    }
}
