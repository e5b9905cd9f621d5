//! Label sets that a rule can mute: its target matchers match them. A source mutes those that have its
//! values in the labels of `equal`.
ghost use Rattle.std.specs.Prelude.{◌≡◌, IfOk, IsOk, IsTrue, find, option_copied};
ghost use Rattle.am_alerts.specs.Matcher.{compare_texts, match_all};
ghost use Rattle.am_mute.specs.Inhibit.{agrees_on, agrees_on_name, is_inhibited_by};
ghost use Rattle.am_mute.specs.Target.{IsTargetOf, values_hash};

use crate::inhibit::InhibitRule;
use am_alerts::alert::Alert;
use am_alerts::labels::Labels;
use am_alerts::searchers::Searchers;
use am_alerts::text::Text;
use am_seed::Seed;
use std::alloc::{AllocError, Global};
use std::hash::{BuildHasher, Hash, Hasher};
use std::marker::Model;

/// A label set that the target matchers of a rule match, at a time.
#[derive(Drop)]
pub(crate) struct Target<'r> {
    rule: &'r InhibitRule,
    labels: &'r Labels,
    t: u64,
    source: Searchers<'r>,
    target: Searchers<'r>,
    /// Whether the source matchers match the label set too.
    is_source_too: bool,
}

impl<'r> Model for Target<'r> {
    ghost use Rattle.am_mute.specs.Target.{TargetData};

    ghost Value = { TargetData };

    ghost use Rattle.std.specs.Prelude.{◌≡◌, true};
    ghost use Rattle.am_alerts.specs.Matcher.{match_all};

    ghost view = { λ x. record { rule = x.rule.now; labels = x.labels.now; t = x.t } };

    ghost invariant = { λ x. (x.source ≡ x.rule.now.source) × (x.target ≡ x.rule.now.target)
        × (x.is_source_too ≡ match_all x.rule.now.source x.labels.now)
        × (match_all x.rule.now.target x.labels.now ≡ true) };
}

impl<'r> Target<'r> {
    /// A label set as a target of a rule at `t`; none where the target matchers don't match it.
    pub(crate) fn new(
        alloc: Global,
        rule: &'r InhibitRule,
        labels: &'r Labels,
        t: u64,
    ) -> Result<Option<Target<'r>>, AllocError>
        ensures value { IfOk result (IsTargetOf rule.now labels.now t) }
        ensures answers { IsTrue (compare_texts rule.now.source) →
            IsTrue (compare_texts rule.now.target) → IsOk result }
    {
        let mut target = Searchers::new(alloc, rule.target());
        if !target.all_match(alloc, labels)? {
            return Ok(None);
        }
        let mut source = Searchers::new(alloc, rule.source());
        let is_source_too = source.all_match(alloc, labels)?;
        Ok(Some(Target {
            rule,
            labels,
            t,
            source,
            target,
            is_source_too,
        }))
    }

    /// Whether the rule's source matchers match the target too.
    pub(crate) fn is_source_too(&self) -> bool
        ensures { result ≡ match_all self.now.rule.source self.now.labels }
    {
        self.is_source_too
    }

    /// The hash of the target's values under the names of `equal`, which each of its sources has too.
    pub(crate) fn hash(&self, seed: Seed) -> u64
        ensures { result ≡ values_hash seed self.now.rule.equal self.now.labels }
    {
        values_hash(seed, self.rule.equal(), self.labels)
    }

    /// The first of these alerts that is a source for the target.
    pub(crate) fn first_source<'k>(
        &mut self,
        alloc: Global,
        alerts: &'k [Alert],
    ) -> Result<Option<&'k Alert>, AllocError>
        ensures value { IfOk result (λ found. option_copied found
            ≡ find (is_inhibited_by self.old.rule self.old.t self.old.labels) alerts.now) }
        ensures answers { IsTrue (compare_texts self.old.rule.source) →
            IsTrue (compare_texts self.old.rule.target) → IsOk result }
    {
        for alert in alerts {
            if self.is_inhibited_by(alloc, alert)? {
                return Ok(Some(alert));
            }
        }
        Ok(None)
    }

    /// Whether an alert is a source for the target.
    pub(crate) fn is_inhibited_by(
        &mut self,
        alloc: Global,
        alert: &Alert,
    ) -> Result<bool, AllocError>
        ensures value { IfOk result (λ is. is ≡ is_inhibited_by self.old.rule self.old.t self.old.labels alert.now) }
        ensures answers { IsTrue (compare_texts self.old.rule.source) →
            IsTrue (compare_texts self.old.rule.target) → IsOk result }
        ensures kept { self.new ≡ self.old }
    {
        if alert.resolved_at(self.t) || !agree_on(self.rule.equal(), self.labels, alert.labels()) {
            return Ok(false);
        }
        if !self.source.all_match(alloc, alert.labels())? {
            return Ok(false);
        }
        Ok(!(self.is_source_too && self.target.all_match(alloc, alert.labels())?))
    }
}

/// The hash, from a seed, of the values that a label set has under these names; a label that isn't
/// there counts as the empty value.
pub(crate) fn values_hash(seed: Seed, names: &[Text], labels: &Labels) -> u64
    ensures { result ≡ values_hash seed names.now labels.now }
{
    let mut hasher = seed.build_hasher();
    for name in names {
        labels.get(name.as_str()).unwrap_or("").hash(&mut hasher);
    }
    hasher.finish()
}

// Whether two label sets agree on each of these names.
fn agree_on(names: &[Text], a: &Labels, b: &Labels) -> bool
    ensures { result ≡ agrees_on names.now a.now b.now }
{
    names.iter().all(|name| agree_on_name(name, a, b))
}

fn agree_on_name(name: &Text, a: &Labels, b: &Labels) -> bool
    ensures { result ≡ agrees_on_name name.now a.now b.now }
{
    a.get(name.as_str()) == b.get(name.as_str())
}
