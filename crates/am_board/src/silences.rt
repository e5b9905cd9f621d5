//! The silences of a board, with the label sets that none of them mutes (`unsilenced`).
//!
//! Contracts see the list of silences and its capacity. Invariant: what is noted is true of these
//! silences. Each change of them forgets it.
ghost use Rattle.std.specs.Prelude.{◌≡◌, ◌<◌, ◌≤◌, ◌++◌, ◌==◌, [], ◌∷◌, false, true, length, set, IfSome, OnOk};
ghost use Rattle.std.specs.Prelude.{count_by, filter, not};
ghost use Rattle.std.specs.List.{position};
ghost use Rattle.am_mute.specs.Silence.{is_over, is_silenced};

use crate::unsilenced::{NotedIndex, Unsilenced};
use am_alerts::labels::Labels;
use am_mute::silence::Silence;
use am_mute::silences::Silences;
use am_seed::Seed;
use std::alloc::{AllocError, Global};
use std::marker::Model;

/// Silences, and label sets that none of them mutes.
#[derive(Drop)]
pub(crate) struct NotedSilences {
    silences: Silences,
    noted: Unsilenced,
}

impl Model for NotedSilences {
    ghost use Rattle.am_mute.specs.Silences.{SilenceList};
    ghost use Rattle.am_board.specs.Unsilenced.{AreUnsilenced};

    ghost Value = { SilenceList };

    ghost view = { λ s. s.silences };

    ghost invariant = { λ s. AreUnsilenced s.silences.items s.noted };
}

impl NotedSilences {
    /// No silences.
    pub(crate) fn new(alloc: Global, seed: Seed) -> NotedSilences
        ensures { result.items ≡ [] }
    {
        NotedSilences {
            silences: Silences::new(alloc, seed),
            noted: Unsilenced::new(alloc),
        }
    }

    /// How many silences there are.
    pub(crate) fn len(&self) -> usize
        ensures { result ≡ length self.now.items }
    {
        self.silences.len()
    }

    /// The silences, by whose index label sets are looked up.
    pub(crate) fn all(&self) -> &Silences
        ensures { result.now ≡ self.now }
    {
        &self.silences
    }

    /// The index of the first silence of this id.
    pub(crate) fn find(&self, id: u64) -> Option<usize>
        ensures index { result ≡ position (λ s. id == s.id) self.now.items }
        ensures within { IfSome result (λ index. index < length self.now.items) }
    {
        self.silences.find(id)
    }

    /// Reserves memory for so many more silences.
    pub(crate) fn reserve(&mut self, more: usize) -> Result<(), AllocError>
        ensures items { self.new.items ≡ self.old.items }
        ensures space { OnOk result (more ≤ self.new.space) }
    {
        self.silences.reserve(more)
    }

    /// Adds a silence behind the others. Memory is reserved.
    pub(crate) fn add(&mut self, alloc: Global, silence: Silence)
        requires space { 0 < self.old.space }
        ensures items { self.new.items ≡ self.old.items ++ silence ∷ [] }
    {
        self.noted.empty();
        self.silences.add(alloc, silence);
    }

    /// Puts a silence in place of another.
    pub(crate) fn replace(&mut self, alloc: Global, index: usize, silence: Silence)
        requires within { index < length self.old.items }
        ensures items { self.new.items ≡ set self.old.items index silence }
    {
        self.noted.empty();
        self.silences.replace(alloc, index, silence);
    }

    /// Removes the silences that are over at `t` (milliseconds). Returns how many.
    pub(crate) fn drop_over(&mut self, alloc: Global, t: u64) -> usize
        ensures items { self.new.items ≡ filter (λ s. not (is_over t s)) self.old.items }
        ensures count { result ≡ count_by (is_over t) self.old.items }
    {
        self.noted.empty();
        self.silences.drop_over(alloc, t)
    }

    /// Returns where the next of so many label sets will be noted, unless what was noted from `last` on
    /// counts at `t` (milliseconds), there are no silences, or too many for the alerts that came.
    ///
    /// Forgets what is noted if it doesn't count any more, or is more than `limit`. That costs one
    /// walk over the silences.
    pub(crate) fn start_noting(
        &mut self,
        last: NotedIndex,
        t: u64,
        limit: usize,
        alerts: usize,
    ) -> Option<NotedIndex>
        ensures { self.new ≡ self.old }
    {
        let silences = self.silences.as_slice();
        if silences.is_empty() {
            return None;
        }
        self.noted.start(silences, last, t, limit, alerts)
    }

    /// Notes a label set behind the others, if no silence mutes it at `t` (milliseconds).
    pub(crate) fn note(&mut self, alloc: Global, labels: &Labels, t: u64) -> Result<(), AllocError>
        ensures { self.new ≡ self.old }
    {
        if !self.noted.is_open(t) || self.silences.is_silenced(alloc, labels, t)? {
            return Ok(());
        }
        let labels = labels.copy(alloc)?;
        self.noted.note(labels, t)
    }

    /// Whether it is noted at an index that no silence mutes a label set at `t` (milliseconds).
    pub(crate) fn is_noted(&self, index: NotedIndex, labels: &Labels, t: u64) -> bool
        ensures { result ≡ true → is_silenced labels.now t self.now.items ≡ false }
    {
        self.noted.has(index, labels, t)
    }
}
