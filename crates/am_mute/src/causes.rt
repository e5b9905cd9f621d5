//! All that mutes a label set, where `mute` stops at the first.
//!
//! Cost: the matchers of each silence, and what `muted_with` costs for the rules.
ghost use Rattle.std.specs.Prelude.{◌≡◌, false, IfOk, IsOk, IsTrue, slice_get};
ghost use Rattle.am_mute.specs.Causes.{mute_causes_of, silence_causes};
ghost use Rattle.am_mute.specs.Matching.{rules_compare_texts, silences_compare_texts};
ghost use Rattle.am_mute.specs.Mute.{is_muted, mute_cause_of};
ghost use Rattle.am_mute.specs.Silence.{is_silenced};
ghost use Rattle.am_mute.specs.Sources.{AreLearnt};

use crate::inhibit::InhibitRule;
use crate::mute::MuteCause;
use crate::silence::Silence;
use crate::sources::Sources;
use am_alerts::alert::Alert;
use am_alerts::labels::Labels;
use std::alloc::{AllocError, Global};

/// Returns all that mutes a label set at `t` (milliseconds), where these are the known alerts.
///
/// Each silence that mutes it comes first. Each rule that does comes behind them, with the first known
/// alert because of which it does. Both are in the order of their lists. Clause `first`: the first of
/// all is what `mute_cause` returns.
///
/// Clause `answers`: matchers that compare texts take no memory, so none is taken where nothing mutes
/// the label set. Else it makes a list, and shares the label sets of the rules' sources.
pub fn mute_causes(
    alloc: Global,
    labels: &Labels,
    t: u64,
    silences: &[Silence],
    rules: &[InhibitRule],
    known: &[Alert],
    sources: &Sources,
) -> Result<Vec<MuteCause>, AllocError>
    requires { AreLearnt rules.now known.now sources.now }
    ensures causes { IfOk result (λ causes.
        causes.items ≡ mute_causes_of labels.now t silences.now rules.now known.now) }
    ensures first { IfOk result (λ causes.
        slice_get causes.items 0 ≡ mute_cause_of labels.now t silences.now rules.now known.now) }
    ensures answers { IsTrue (silences_compare_texts silences.now) → IsTrue (rules_compare_texts rules.now) →
        is_muted labels.now t silences.now rules.now known.now ≡ false → IsOk result }
{
    let mut causes = silence_causes(alloc, labels, t, silences)?;
    for rule in 0..rules.len() {
        let source = sources.source_for(alloc, rule, &rules[rule], labels, t, known)?;
        if let Some(source) = source {
            let by = source.labels().copy(alloc)?;
            causes.push(MuteCause::Inhibited { rule, by })?;
        }
    }
    Ok(causes)
}

/// Returns each silence that mutes a label set at `t`.
fn silence_causes(
    alloc: Global,
    labels: &Labels,
    t: u64,
    silences: &[Silence],
) -> Result<Vec<MuteCause>, AllocError>
    ensures causes { IfOk result (λ causes. causes.items ≡ silence_causes labels.now t silences.now) }
    ensures answers { IsTrue (silences_compare_texts silences.now) →
        is_silenced labels.now t silences.now ≡ false → IsOk result }
{
    let mut causes = Vec::new(alloc);
    for silence in silences {
        if silence.mutes(alloc, labels, t)? {
            causes.push(MuteCause::Silenced {
                id: silence.id(),
                until: silence.end(),
            })?;
        }
    }
    Ok(causes)
}
