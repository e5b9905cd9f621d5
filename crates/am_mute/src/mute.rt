//! What mutes a label set: silences first, then inhibition rules.
//!
//! Cost of `muted` and `mute_cause`: the silences, and the rules times the known alerts. With
//! `Sources` the second part is the rules times the logarithm of the known alerts, and the sources
//! that agree up to the first that isn't resolved. With `Silences` (`muted_under`,
//! `mute_cause_under`) the first part is one look-up a label and the silences that it finds. What
//! searches for a rule's patterns is made once for each label set.
ghost use Rattle.std.specs.Prelude.{◌≡◌, false, IfOk, IsOk, IsTrue, is_some, option_copied};
ghost use Rattle.am_mute.specs.Inhibit.{is_inhibited};
ghost use Rattle.am_mute.specs.Silence.{is_silenced};
ghost use Rattle.am_mute.specs.Mute.{inhibition_from, is_inhibited_alone, is_muted, mute_cause_of, silence_for};
ghost use Rattle.am_mute.specs.Sources.{AreLearnt};
ghost use Rattle.am_mute.specs.Matching.{rules_compare_texts, silences_compare_texts};

use crate::inhibit::InhibitRule;
use crate::silence::Silence;
use crate::silences::Silences;
use crate::sources::Sources;
use am_alerts::alert::Alert;
use am_alerts::labels::Labels;
use am_seed::Seed;
use std::alloc::{AllocError, Global};

/// Why a label set is muted.
#[derive(Debug, Drop, PartialEq)]
pub enum MuteCause {
    /// By the silence of this id, which mutes until its end, in milliseconds.
    Silenced { id: u64, until: u64 },
    /// By the rule at this index of the list, because of a known alert of this label set.
    Inhibited { rule: usize, by: Labels },
}

/// Whether a label set is muted at `t` (milliseconds), where these are the known alerts: by a
/// silence that has started and hasn't ended and whose matchers all match it, or by a rule whose
/// target matchers match it, because of a known alert that isn't resolved at `t`, that the
/// source matchers match and that agrees with it in the labels of `equal`; a label that neither
/// has agrees. If the source matchers match the label set too, a known alert that both sides
/// match doesn't count.
///
/// These are the rules of Alertmanager's packages silence and inhibit, save that there a silence
/// still mutes at its end. Matchers that compare texts take no memory.
pub fn muted(
    alloc: Global,
    labels: &Labels,
    t: u64,
    silences: &[Silence],
    rules: &[InhibitRule],
    known: &[Alert],
) -> Result<bool, AllocError>
    ensures value { IfOk result (λ matched.
        matched ≡ is_muted labels.now t silences.now rules.now known.now) }
    ensures answers { IsTrue (silences_compare_texts silences.now) →
        IsTrue (rules_compare_texts rules.now) → IsOk result }
{
    let sources = Sources::new(alloc, Seed::fixed());
    muted_with(alloc, labels, t, silences, rules, known, &sources)
}

/// The same, with what was learnt of these rules and of the known alerts, so those that weren't
/// learnt alone are looked at in turn.
pub fn muted_with(
    alloc: Global,
    labels: &Labels,
    t: u64,
    silences: &[Silence],
    rules: &[InhibitRule],
    known: &[Alert],
    sources: &Sources,
) -> Result<bool, AllocError>
    requires { AreLearnt rules.now known.now sources.now }
    ensures value { IfOk result (λ matched.
        matched ≡ is_muted labels.now t silences.now rules.now known.now) }
    ensures answers { IsTrue (silences_compare_texts silences.now) →
        IsTrue (rules_compare_texts rules.now) → IsOk result }
{
    if silence_for(alloc, labels, t, silences)?.is_some() {
        return Ok(true);
    }
    inhibited(alloc, labels, t, rules, known, sources)
}

/// The same, with silences that are found by the labels that they ask for.
pub fn muted_under(
    alloc: Global,
    labels: &Labels,
    t: u64,
    silences: &Silences,
    rules: &[InhibitRule],
    known: &[Alert],
    sources: &Sources,
) -> Result<bool, AllocError>
    requires { AreLearnt rules.now known.now sources.now }
    ensures value { IfOk result (λ matched.
        matched ≡ is_muted labels.now t silences.now.items rules.now known.now) }
    ensures answers { IsTrue (silences_compare_texts silences.now.items) →
        IsTrue (rules_compare_texts rules.now) → IsOk result }
{
    Ok(
        silences.is_silenced(alloc, labels, t)?
            || inhibited(alloc, labels, t, rules, known, sources)?,
    )
}

/// Why a label set is muted at `t` (milliseconds), if `muted` says that it is, where these are the
/// known alerts: the first silence that mutes it; else the first rule that does, with the first
/// known alert because of which it does.
///
/// Matchers that compare texts take no memory, and neither does a silence as the cause. A rule as the
/// cause shares the label set of its known alert, which is refused where the count of owners is full.
pub fn mute_cause(
    alloc: Global,
    labels: &Labels,
    t: u64,
    silences: &[Silence],
    rules: &[InhibitRule],
    known: &[Alert],
) -> Result<Option<MuteCause>, AllocError>
    ensures cause { IfOk result (λ cause.
        cause ≡ mute_cause_of labels.now t silences.now rules.now known.now) }
    ensures muted { IfOk result (λ cause.
        is_some cause ≡ is_muted labels.now t silences.now rules.now known.now) }
    ensures answers { IsTrue (silences_compare_texts silences.now) → IsTrue (rules_compare_texts rules.now) →
        is_inhibited_alone labels.now t silences.now rules.now known.now ≡ false → IsOk result }
{
    let sources = Sources::new(alloc, Seed::fixed());
    mute_cause_with(alloc, labels, t, silences, rules, known, &sources)
}

/// The same, with what was learnt of these rules and of the known alerts, so those that weren't
/// learnt alone are looked at in turn.
pub fn mute_cause_with(
    alloc: Global,
    labels: &Labels,
    t: u64,
    silences: &[Silence],
    rules: &[InhibitRule],
    known: &[Alert],
    sources: &Sources,
) -> Result<Option<MuteCause>, AllocError>
    requires { AreLearnt rules.now known.now sources.now }
    ensures cause { IfOk result (λ cause.
        cause ≡ mute_cause_of labels.now t silences.now rules.now known.now) }
    ensures muted { IfOk result (λ cause.
        is_some cause ≡ is_muted labels.now t silences.now rules.now known.now) }
    ensures answers { IsTrue (silences_compare_texts silences.now) → IsTrue (rules_compare_texts rules.now) →
        is_inhibited_alone labels.now t silences.now rules.now known.now ≡ false → IsOk result }
{
    match silence_for(alloc, labels, t, silences)? {
        None => inhibition(alloc, labels, t, rules, known, sources),
        Some(silence) => Ok(Some(MuteCause::Silenced {
            id: silence.id(),
            until: silence.end(),
        })),
    }
}

/// The same, with silences that are found by the labels that they ask for.
pub fn mute_cause_under(
    alloc: Global,
    labels: &Labels,
    t: u64,
    silences: &Silences,
    rules: &[InhibitRule],
    known: &[Alert],
    sources: &Sources,
) -> Result<Option<MuteCause>, AllocError>
    requires { AreLearnt rules.now known.now sources.now }
    ensures cause { IfOk result (λ cause.
        cause ≡ mute_cause_of labels.now t silences.now.items rules.now known.now) }
    ensures muted { IfOk result (λ cause.
        is_some cause ≡ is_muted labels.now t silences.now.items rules.now known.now) }
    ensures answers { IsTrue (silences_compare_texts silences.now.items) → IsTrue (rules_compare_texts rules.now) →
        is_inhibited_alone labels.now t silences.now.items rules.now known.now ≡ false → IsOk result }
{
    match silences.silence_for(alloc, labels, t)? {
        None => inhibition(alloc, labels, t, rules, known, sources),
        Some(silence) => Ok(Some(MuteCause::Silenced {
            id: silence.id(),
            until: silence.end(),
        })),
    }
}

/// The first silence that mutes a label set at `t`.
fn silence_for<'s>(
    alloc: Global,
    labels: &Labels,
    t: u64,
    silences: &'s [Silence],
) -> Result<Option<&'s Silence>, AllocError>
    ensures value { IfOk result (λ found. option_copied found ≡ silence_for labels.now t silences.now) }
    ensures some { IfOk result (λ found. is_some found ≡ is_silenced labels.now t silences.now) }
    ensures answers { IsTrue (silences_compare_texts silences.now) → IsOk result }
{
    for silence in silences {
        if silence.mutes(alloc, labels, t)? {
            return Ok(Some(silence));
        }
    }
    Ok(None)
}

/// The first rule that mutes a label set at `t`, with the first known alert because of which it
/// does.
fn inhibition(
    alloc: Global,
    labels: &Labels,
    t: u64,
    rules: &[InhibitRule],
    known: &[Alert],
    sources: &Sources,
) -> Result<Option<MuteCause>, AllocError>
    requires { AreLearnt rules.now known.now sources.now }
    ensures cause { IfOk result (λ cause. cause ≡ inhibition_from 0 labels.now t known.now rules.now) }
    ensures some { IfOk result (λ cause. is_some cause ≡ is_inhibited labels.now t rules.now known.now) }
    ensures answers { IsTrue (rules_compare_texts rules.now) → is_inhibited labels.now t rules.now known.now ≡ false → IsOk result }
{
    for rule in 0..rules.len() {
        let source = sources.source_for(alloc, rule, &rules[rule], labels, t, known)?;
        if let Some(source) = source {
            return Ok(Some(MuteCause::Inhibited {
                rule,
                by: source.labels().copy(alloc)?,
            }));
        }
    }
    Ok(None)
}

fn inhibited(
    alloc: Global,
    labels: &Labels,
    t: u64,
    rules: &[InhibitRule],
    known: &[Alert],
    sources: &Sources,
) -> Result<bool, AllocError>
    requires { AreLearnt rules.now known.now sources.now }
    ensures value { IfOk result (λ found.
        found ≡ is_inhibited labels.now t rules.now known.now) }
    ensures answers { IsTrue (rules_compare_texts rules.now) → IsOk result }
{
    for rule in 0..rules.len() {
        let source = sources.source_for(alloc, rule, &rules[rule], labels, t, known)?;
        if source.is_some() {
            return Ok(true);
        }
    }
    Ok(false)
}
