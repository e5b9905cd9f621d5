//! `Sources`: which known alerts can be sources of inhibition, as a sorted set of keys.
//!
//! A key has a rule, a hash of the alert's values under the rule's names of `equal`, and the
//! alert's index. A target looks up the keys of its own hash and tests each alert of these as a
//! walk over all would. Label sets that agree in `equal` have one hash, which is all that is needed
//! of it. Whoever writes the labels and knows the seed can make them collide: then a look-up walks
//! those that collide, and no more than all.
//!
//! A source that the target matchers match too mutes no target that both sides match. The others
//! have keys of their own: such a target looks up only these, and doesn't pass over its like one by
//! one.
//!
//! Matchers and labels don't change with time, so an alert is learned once: u matches for u rules,
//! and a second match and at most two insertions for each rule whose source matches. A call learns
//! by one rule after the other, of all alerts that are new to it: so what searches for a rule's
//! pattern is made once a call, however many these are. Where there is no memory, all of them are
//! left to a later call, and each target walks them. Keys that were put in before do no harm: a
//! look-up ends before the indexes that weren't learnt, and the later call puts them in again.
//! Invariant: each of the first alerts that a rule's source matches has its keys.
ghost use Rattle.std.specs.Prelude.{◌≡◌, ◌≤◌, true, List, cond, length, find, is_some, option_copied, IfOk, IsOk, IsTrue, OnErr, OnOk};
ghost use Rattle.am_alerts.specs.AlertData.{AlertData};
ghost use Rattle.am_alerts.specs.Matcher.{compare_texts, match_all};
ghost use Rattle.am_mute.specs.Inhibit.{RuleData, inhibits, is_inhibited_by, source_for};
ghost use Rattle.am_mute.specs.Sources.{AreLearnt, Grows, HasKey, HasKeysFrom, HaveSources, IsLearnt};

use crate::inhibit::InhibitRule;
use crate::target::{Target, values_hash};
use am_alerts::alert::Alert;
use am_alerts::labels::Labels;
use am_alerts::searchers::Searchers;
use am_seed::Seed;
use std::alloc::{AllocError, Global};
use std::collections::BTreeSet;
use std::marker::Model;

/// That the source matchers of a rule match an alert. Keys are ordered by rule, then by hash, then by
/// index.
#[derive(Clone, Copy, Debug, Drop, PartialEq, Eq, PartialOrd, Ord)]
pub struct SourceKey {
    /// The index of the rule in the list.
    rule: usize,
    /// The hash of the alert's values under the names of `equal`.
    hash: u64,
    /// The index of the alert in the list.
    index: usize,
}

/// The first so many known alerts, as far as they can be sources of rules, found by their values under
/// the names of `equal`. Matchers and labels don't change with time, so an alert is learnt once.
///
/// This only saves time: alerts that weren't learnt are looked at in turn.
#[derive(Debug, Drop)]
pub struct Sources {
    /// Of each source.
    all: BTreeSet<SourceKey>,
    /// Of each source that the rule's target matchers don't match.
    one_sided: BTreeSet<SourceKey>,
    /// How many alerts were learnt.
    learnt: usize,
    /// What the hashes of values start from.
    seed: Seed,
}

impl Model for Sources {
    ghost use Rattle.am_mute.specs.SourceIndex.{SourceIndex};

    ghost Value = { SourceIndex };

    ghost view = { λ s. record { all = s.all.keys; one_sided = s.one_sided.keys; learnt = s.learnt; seed = s.seed } };
}

impl Sources {
    /// Nothing learnt yet, of whatever rules and alerts. Takes no memory. The hashes of values start
    /// from this seed.
    pub fn new(alloc: Global, seed: Seed) -> Sources
        ensures nothing { (rules : List RuleData) (known : List AlertData) → AreLearnt rules known result }
        ensures seed { result.seed ≡ seed }
    {
        Sources {
            all: BTreeSet::new(alloc),
            one_sided: BTreeSet::new(alloc),
            learnt: 0,
            seed,
        }
    }

    /// What the hashes of values start from.
    pub fn seed(&self) -> Seed
        ensures { result ≡ self.now.seed }
    {
        self.seed
    }

    /// What is to be learnt of these rules and of all of these known alerts.
    pub fn of(
        alloc: Global,
        seed: Seed,
        rules: &[InhibitRule],
        known: &[Alert],
    ) -> Result<Sources, AllocError>
        ensures learnt { IfOk result (AreLearnt rules.now known.now) }
        ensures all { IfOk result (λ sources. sources.learnt ≡ length known.now) }
        ensures seed { IfOk result (λ sources. sources.seed ≡ seed) }
    {
        let mut sources = Sources::new(alloc, seed);
        sources.learn(alloc, rules, known)?;
        Ok(sources)
    }

    /// Learns of these rules and of those known alerts that weren't learnt yet. Where memory is
    /// refused all of these are left to a later call.
    pub fn learn(
        &mut self,
        alloc: Global,
        rules: &[InhibitRule],
        known: &[Alert],
    ) -> Result<(), AllocError>
        requires { AreLearnt rules.now known.now self.old }
        ensures learnt { AreLearnt rules.now known.now self.new }
        ensures all { OnOk result (self.new.learnt ≡ length known.now) }
        ensures seed { self.new.seed ≡ self.old.seed }
        ensures refused { OnErr result (self.new.learnt ≡ self.old.learnt) }
    {
        if self.learnt == known.len() {
            return Ok(());
        }
        for number in 0..rules.len() {
            self.learn_by(alloc, number, &rules[number], known)?;
        }
        self.learnt = known.len();
        Ok(())
    }

    /// Puts in the keys, by the rule at an index, of those known alerts that weren't learnt yet.
    fn learn_by(
        &mut self,
        alloc: Global,
        number: usize,
        rule: &InhibitRule,
        known: &[Alert],
    ) -> Result<(), AllocError>
        requires { self.old.learnt ≤ length known.now }
        ensures grows { Grows self.old self.new }
        ensures has { OnOk result (HasKeysFrom number rule.now known.now self.old.learnt (length known.now) self.new) }
    {
        let mut source = Searchers::new(alloc, rule.source());
        let mut target = Searchers::new(alloc, rule.target());
        for index in self.learnt..known.len() {
            let labels = known[index].labels();
            if source.all_match(alloc, labels)? {
                let is_one_sided = !target.all_match(alloc, labels)?;
                let key = SourceKey {
                    rule: number,
                    hash: values_hash(self.seed, rule.equal(), labels),
                    index,
                };
                self.put(key, is_one_sided)?;
            }
        }
        Ok(())
    }

    /// Puts in the key of a source, and says whether the target matchers don't match it.
    fn put(&mut self, key: SourceKey, is_one_sided: bool) -> Result<(), AllocError>
        ensures grows { Grows self.old self.new }
        ensures all { OnOk result (HasKey self.new.all key) }
        ensures one_sided { OnOk result (is_one_sided ≡ true → HasKey self.new.one_sided key) }
    {
        self.all.insert(key)?;
        if is_one_sided {
            self.one_sided.insert(key)?;
        }
        Ok(())
    }

    /// The first of these known alerts because of which a rule, at this index of the list, mutes a
    /// label set at `t`.
    pub(crate) fn source_for<'k>(
        &self,
        alloc: Global,
        number: usize,
        rule: &InhibitRule,
        labels: &Labels,
        t: u64,
        known: &'k [Alert],
    ) -> Result<Option<&'k Alert>, AllocError>
        requires { IsLearnt number rule.now known.now self.now }
        ensures value { IfOk result (λ found. option_copied found ≡ source_for rule.now t known.now labels.now) }
        ensures some { IfOk result (λ found. is_some found ≡ inhibits rule.now t known.now labels.now) }
        ensures answers { IsTrue (compare_texts rule.now.source) →
            IsTrue (compare_texts rule.now.target) → IsOk result }
    {
        let Some(mut target) = Target::new(alloc, rule, labels, t)? else {
            return Ok(None);
        };
        let keys = self.keys_for(&target);
        let found = first_among(
            alloc,
            keys,
            self.seed,
            number,
            &mut target,
            &known[..self.learnt],
        )?;
        if found.is_some() {
            return Ok(found);
        }
        target.first_source(alloc, &known[self.learnt..])
    }

    /// The keys among which each source for a target is that was learnt.
    fn keys_for(&self, target: &Target<'_>) -> &BTreeSet<SourceKey>
        ensures { result.now.keys ≡ cond (match_all target.now.rule.source target.now.labels) self.now.one_sided self.now.all }
    {
        if target.is_source_too() {
            &self.one_sided
        } else {
            &self.all
        }
    }
}

/// The first of these alerts that is a source for a target of the rule at an index, by keys that each
/// such source has, with hashes from a seed.
fn first_among<'k>(
    alloc: Global,
    keys: &BTreeSet<SourceKey>,
    seed: Seed,
    number: usize,
    target: &mut Target<'_>,
    alerts: &'k [Alert],
) -> Result<Option<&'k Alert>, AllocError>
    requires { HaveSources seed number target.old alerts.now keys.now.keys }
    ensures value { IfOk result (λ found. option_copied found
        ≡ find (is_inhibited_by target.old.rule target.old.t target.old.labels) alerts.now) }
    ensures answers { IsTrue (compare_texts target.old.rule.source) →
        IsTrue (compare_texts target.old.rule.target) → IsOk result }
    ensures kept { target.new ≡ target.old }
{
    let hash = target.hash(seed);
    let first = SourceKey {
        rule: number,
        hash,
        index: 0,
    };
    let last = SourceKey {
        rule: number,
        hash,
        index: alerts.len(),
    };
    for key in keys.range(first..last) {
        let alert = &alerts[key.index];
        if target.is_inhibited_by(alloc, alert)? {
            return Ok(Some(alert));
        }
    }
    Ok(None)
}
