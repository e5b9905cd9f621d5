//! The indexes of silences by the labels that they need.
//!
//! The first matcher of a silence that is `=` with a value needs a label: a label set without it
//! isn't muted. The index is under the hash of that label, and an alert looks up each of its
//! labels. A silence that needs none (patterns, `!=` and empty values alone) is under a number of
//! its own, and is tested for each alert. Each silence that is found is tested in full. An index can
//! stay under what its silence needed before; this costs one test. The index is made anew once it
//! has more than twice as many entries as there are silences: so a replacement costs a look-up or
//! two in the mean, and no entry is searched for among the others.
//!
//! Invariant: each index is one of the list, and the silences up to the first whose index lacked
//! memory are under what they need. Each alert walks the silences behind it, and the next one that
//! is set takes them in again.
ghost use Rattle.std.specs.Prelude.{◌≡◌, ◌⊎◌, ◌<◌, ◌≤◌, ℕ, [], false, true, ⊤, All, List, find, length, option_copied, set};
ghost use Rattle.std.specs.Prelude.{IfOk, IsOk, IsTrue, OnOk};
ghost use Rattle.am_mute.specs.Silence.{SilenceData, is_silenced};
ghost use Rattle.am_mute.specs.SilenceIndex.{ArePlaced, AreUnmuted, HasIndex, IsFirst, IsIndexed, IsOneOf};
ghost use Rattle.am_mute.specs.SilenceIndex.{requires_label, key_of, label_hash, indexes_at};
ghost use Rattle.am_mute.specs.Matching.{silences_compare_texts};

use crate::silence::Silence;
use am_alerts::labels::Labels;
use am_alerts::matcher::{Matcher, Operator};
use am_seed::Seed;
use std::alloc::{AllocError, Global};
use std::collections::HashMap;
use std::hash::{BuildHasher, Hash, Hasher};

/// What silences are found by that ask for no label.
const NO_LABEL: u64 = 0;

/// The indexes of silences in a list, by what they are found by: the hash of a label that each label
/// set has which they mute. An index can be under what its silence was found by before.
///
/// This only saves time: silences whose indexes aren't here are looked at in turn.
#[derive(Debug, Drop)]
pub(crate) struct SilenceIndex {
    indexes: HashMap<u64, Vec<usize>>,
    /// What the hashes of labels start from.
    seed: Seed,
    /// How many silences, from the first on, have their indexes here.
    indexed: usize,
    /// How many indexes were put in, with those that their silences aren't found by any more.
    entries: usize,
}

impl SilenceIndex {
    /// Nothing indexed yet, of whatever silences.
    pub(crate) fn new(alloc: Global, seed: Seed) -> SilenceIndex
        ensures { (silences : List SilenceData) → IsIndexed silences result }
    {
        SilenceIndex {
            indexes: HashMap::new(alloc),
            seed,
            indexed: 0,
            entries: 0,
        }
    }

    /// What the hashes of labels start from.
    pub(crate) fn seed(&self) -> Seed
        ensures { result ≡ self.now.seed }
    {
        self.seed
    }

    /// Takes the indexes of these silences in, as far as there is memory for it. Makes the index anew
    /// if most of it isn't needed any more.
    pub(crate) fn extend(&mut self, alloc: Global, silences: &[Silence])
        requires { IsIndexed silences.now self.old }
        ensures { IsIndexed silences.now self.new }
    {
        if self.entries / 2 > silences.len() {
            *self = SilenceIndex::new(alloc, self.seed);
        }
        while self.indexed < silences.len() {
            let key = key_of(self.seed, silences[self.indexed].matchers());
            if self.put(alloc, key, self.indexed).is_err() {
                return;
            }
            self.indexed += 1;
        }
    }

    /// Prepares for a silence that replaces the one of these at this index.
    pub(crate) fn change(
        &mut self,
        alloc: Global,
        silences: &[Silence],
        index: usize,
        silence: &Silence,
    )
        requires indexed { IsIndexed silences.now self.old }
        requires within { index < length silences.now }
        ensures { IsIndexed (set silences.now index silence.now) self.new }
    {
        let old = key_of(self.seed, silences[index].matchers());
        let new = key_of(self.seed, silence.matchers());
        if index < self.indexed && old != new && self.put(alloc, new, index).is_err() {
            self.indexed = index;
        }
    }

    /// Puts an index under what its silence is found by.
    fn put(&mut self, alloc: Global, key: u64, index: usize) -> Result<(), AllocError>
        ensures indexed { self.new.indexed ≡ self.old.indexed }
        ensures seed { self.new.seed ≡ self.old.seed }
        ensures has { OnOk result (HasIndex self.new key index) }
        ensures keeps { (k p : ℕ) → HasIndex self.old k p → HasIndex self.new k p }
        ensures only { (k p : ℕ) → HasIndex self.new k p → (p ≡ index) ⊎ HasIndex self.old k p }
    {
        match self.indexes.get_mut(&key) {
            Some(indexes) => indexes.push(index)?,
            None => {
                let indexes = vec![in alloc; index]?;
                self.indexes.insert(key, indexes)?;
            }
        }
        self.entries = self.entries.saturating_add(1);
        Ok(())
    }

    /// The indexes of the silences that are found by this.
    fn at(&self, key: u64) -> &[usize]
        ensures { result.now ≡ indexes_at self.now key }
    {
        match self.indexes.get(&key) {
            Some(indexes) => indexes.as_slice(),
            None => &[],
        }
    }

    /// Whether one of these silences mutes a label set at `t`.
    pub(crate) fn is_silenced(
        &self,
        alloc: Global,
        silences: &[Silence],
        labels: &Labels,
        t: u64,
    ) -> Result<bool, AllocError>
        requires { IsIndexed silences.now self.now }
        ensures value { IfOk result (λ silenced. silenced ≡ is_silenced labels.now t silences.now) }
        ensures answers { IsTrue (silences_compare_texts silences.now) → IsOk result }
    {
        if silences.is_empty() {
            return Ok(false);
        }
        for i in 0..labels.len() {
            let pair = labels.pair(i);
            let key = label_hash(self.seed, pair.0, pair.1);
            if self.is_silenced_by(alloc, key, silences, labels, t)? {
                return Ok(true);
            }
        }
        if self.is_silenced_by(alloc, NO_LABEL, silences, labels, t)? {
            return Ok(true);
        }
        is_silenced(alloc, &silences[self.indexed..], labels, t)
    }

    /// The index of the first of these silences that mutes a label set at `t`; their number, if none
    /// does.
    pub(crate) fn first(
        &self,
        alloc: Global,
        silences: &[Silence],
        labels: &Labels,
        t: u64,
    ) -> Result<usize, AllocError>
        requires { IsIndexed silences.now self.now }
        ensures first { IfOk result (λ first. IsFirst (λ i. ⊤) labels.now t silences.now (length silences.now) first) }
        ensures answers { IsTrue (silences_compare_texts silences.now) → IsOk result }
    {
        let mut first = silences.len();
        for i in 0..labels.len() {
            let pair = labels.pair(i);
            let key = label_hash(self.seed, pair.0, pair.1);
            first = self.first_by(alloc, key, silences, labels, t, first)?;
        }
        let first = self.first_by(alloc, NO_LABEL, silences, labels, t, first)?;
        first_from(alloc, silences, self.indexed, labels, t, first)
    }

    /// The first index before a bound whose silence is found by this and mutes a label set at `t`; the
    /// bound, if there is none.
    fn first_by(
        &self,
        alloc: Global,
        key: u64,
        silences: &[Silence],
        labels: &Labels,
        t: u64,
        bound: usize,
    ) -> Result<usize, AllocError>
        requires { ArePlaced silences.now self.now }
        ensures first { IfOk result (λ first. IsFirst (HasIndex self.now key) labels.now t silences.now bound first) }
        ensures answers { IsTrue (silences_compare_texts silences.now) → IsOk result }
    {
        first_at(alloc, self.at(key), silences, labels, t, bound)
    }

    /// Whether one of the silences that are found by this mutes a label set at `t`.
    fn is_silenced_by(
        &self,
        alloc: Global,
        key: u64,
        silences: &[Silence],
        labels: &Labels,
        t: u64,
    ) -> Result<bool, AllocError>
        requires { ArePlaced silences.now self.now }
        ensures some { IfOk result (λ silenced. silenced ≡ true → is_silenced labels.now t silences.now ≡ true) }
        ensures none { IfOk result (λ silenced. silenced ≡ false → AreUnmuted (HasIndex self.now key) labels.now t silences.now) }
        ensures answers { IsTrue (silences_compare_texts silences.now) → IsOk result }
    {
        is_silenced_at(alloc, self.at(key), silences, labels, t)
    }
}

/// Whether one of the silences at these indexes mutes a label set at `t`.
fn is_silenced_at(
    alloc: Global,
    indexes: &[usize],
    silences: &[Silence],
    labels: &Labels,
    t: u64,
) -> Result<bool, AllocError>
    requires { All (λ p. p < length silences.now) indexes.now }
    ensures some { IfOk result (λ silenced. silenced ≡ true → is_silenced labels.now t silences.now ≡ true) }
    ensures none { IfOk result (λ silenced. silenced ≡ false → AreUnmuted (IsOneOf indexes.now) labels.now t silences.now) }
    ensures answers { IsTrue (silences_compare_texts silences.now) → IsOk result }
{
    for index in indexes {
        if silences[*index].mutes(alloc, labels, t)? {
            return Ok(true);
        }
    }
    Ok(false)
}

/// Whether one of these silences mutes a label set at `t`.
fn is_silenced(
    alloc: Global,
    silences: &[Silence],
    labels: &Labels,
    t: u64,
) -> Result<bool, AllocError>
    ensures value { IfOk result (λ silenced. silenced ≡ is_silenced labels.now t silences.now) }
    ensures answers { IsTrue (silences_compare_texts silences.now) → IsOk result }
{
    for silence in silences {
        if silence.mutes(alloc, labels, t)? {
            return Ok(true);
        }
    }
    Ok(false)
}

/// The first of these indexes before a bound whose silence mutes a label set at `t`; the bound, if
/// there is none.
fn first_at(
    alloc: Global,
    indexes: &[usize],
    silences: &[Silence],
    labels: &Labels,
    t: u64,
    bound: usize,
) -> Result<usize, AllocError>
    requires { All (λ p. p < length silences.now) indexes.now }
    ensures first { IfOk result (λ first. IsFirst (IsOneOf indexes.now) labels.now t silences.now bound first) }
    ensures answers { IsTrue (silences_compare_texts silences.now) → IsOk result }
{
    let mut first = bound;
    for index in indexes {
        first = earlier(alloc, silences, *index, labels, t, first)?;
    }
    Ok(first)
}

/// An index, if it is before a bound and its silence mutes a label set at `t`; else the bound.
fn earlier(
    alloc: Global,
    silences: &[Silence],
    index: usize,
    labels: &Labels,
    t: u64,
    bound: usize,
) -> Result<usize, AllocError>
    requires { index < length silences.now }
    ensures first { IfOk result (λ first. IsFirst (λ i. i ≡ index) labels.now t silences.now bound first) }
    ensures answers { IsTrue (silences_compare_texts silences.now) → IsOk result }
{
    if bound <= index {
        return Ok(bound);
    }
    if silences[index].mutes(alloc, labels, t)? {
        return Ok(index);
    }
    Ok(bound)
}

/// The first index from one on, and before a bound, whose silence mutes a label set at `t`; the
/// bound, if there is none.
fn first_from(
    alloc: Global,
    silences: &[Silence],
    from: usize,
    labels: &Labels,
    t: u64,
    bound: usize,
) -> Result<usize, AllocError>
    requires { bound ≤ length silences.now }
    ensures first { IfOk result (λ first. IsFirst (λ i. from ≤ i) labels.now t silences.now bound first) }
    ensures answers { IsTrue (silences_compare_texts silences.now) → IsOk result }
{
    for index in from..bound {
        if silences[index].mutes(alloc, labels, t)? {
            return Ok(index);
        }
    }
    Ok(bound)
}

/// What a silence of these matchers is found by: the hash of the first label that they ask for.
fn key_of(seed: Seed, matchers: &[Matcher]) -> u64
    ensures { result ≡ key_of seed matchers.now }
{
    match first_asking(matchers) {
        None => NO_LABEL,
        Some(matcher) => {
            let parts = matcher.parts();
            label_hash(seed, parts.name.as_str(), parts.value.as_str())
        }
    }
}

/// The first of these matchers that asks for a label.
fn first_asking(matchers: &[Matcher]) -> Option<&Matcher>
    ensures { option_copied result ≡ find requires_label matchers.now }
{
    matchers.iter().find(|matcher| requires_label(matcher))
}

/// Whether each label set that a matcher matches has the label of its name and value.
fn requires_label(matcher: &Matcher) -> bool
    ensures { result ≡ requires_label matcher.now }
{
    let parts = matcher.parts();
    parts.op == Operator::Equal && !parts.value.as_str().is_empty()
}

/// The hash of a name and a value, from a seed.
fn label_hash(seed: Seed, name: &str, value: &str) -> u64
    ensures { result ≡ label_hash seed name.now value.now }
{
    let mut hasher = seed.build_hasher();
    name.hash(&mut hasher);
    value.hash(&mut hasher);
    hasher.finish()
}
