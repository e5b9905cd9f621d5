//! What is expected, as text.
ghost use Rattle.std.specs.Prelude.{◌≡◌, ◌++◌, OnOk, Some, codes, option_copied, string_bytes};
ghost use Rattle.std.specs.List.{flat_map, join_by};
ghost use Rattle.am_judge.specs.ExpectationReport.{about_text, amount_text, any_text, exact_text, expected_line, has_at, has_text};
ghost use Rattle.am_judge.specs.ExpectationReport.{integrations_with, is_of_kind, kind_text, listed_text, matcher_shown, matchers_text};
ghost use Rattle.am_judge.specs.ExpectationReport.{named_text, notices_wanted, operator_shown, position_text, reason_part, sets_text};
ghost use Rattle.am_judge.specs.ExpectationReport.{span_text, wanted_reason_text, wanted_text, which_text};
ghost use Rattle.am_timeline.specs.IntegrationName.{integration_name};
ghost use Rattle.am_timeline.specs.Shown.{set_shown};

use am_alerts::labels::Labels;
use am_alerts::matcher::{Matcher, Operator};
use am_alerts::sequence::Sequence;
use am_alerts::text::Text;
use am_model::config::Integration;
use am_terms::clock::{TimeFormat, push_number};
use am_terms::expectation::{Amount, Content, Expectation, SentReason};
use am_timeline::integration_name::push_name;
use am_timeline::playback::Playback;
use am_timeline::shown::{push_set, push_text};
use am_timeline::table::push_count;
use std::alloc::AllocError;

/// Adds the line on what is expected.
#[tactic(auto, unfolding(crate::specs::ExpectationReport::expected_line))]
pub(crate) fn push_expected<C: TimeFormat>(
    playbacks: &[Playback<'_>],
    clock: &C,
    expectation: &Expectation,
    out: &mut String,
) -> Result<(), AllocError>
    ensures { OnOk result (string_bytes out.new ≡ string_bytes out.old
        ++ expected_line playbacks.now (C.times clock.now) expectation.now) }
{
    out.push_str("  expected  ")?;
    push_span(clock, expectation, out)?;
    push_about(playbacks, expectation, out)?;
    out.push_str(": ")?;
    push_notices(expectation, out)?;
    out.push_str("\n")
}

/// Adds how many notices are expected, and what they have to say.
#[tactic(auto, unfolding(crate::specs::ExpectationReport::notices_wanted))]
fn push_notices(expectation: &Expectation, out: &mut String) -> Result<(), AllocError>
    ensures { OnOk result (string_bytes out.new ≡ string_bytes out.old ++ notices_wanted expectation.now) }
{
    push_amount(expectation.amount, out)?;
    push_wanted(&expectation.content, out)
}

fn push_span<C: TimeFormat>(
    clock: &C,
    expectation: &Expectation,
    out: &mut String,
) -> Result<(), AllocError>
    ensures { OnOk result (string_bytes out.new
        ≡ string_bytes out.old ++ span_text (C.times clock.now) expectation.now) }
{
    clock.push_time(expectation.from, out)?;
    out.push_str(" to ")?;
    clock.push_time(expectation.to, out)
}

/// Adds whom an expectation is about.
fn push_about(
    playbacks: &[Playback<'_>],
    expectation: &Expectation,
    out: &mut String,
) -> Result<(), AllocError>
    ensures { OnOk result (string_bytes out.new ≡ string_bytes out.old
        ++ about_text playbacks.now expectation.now.receiver expectation.now.kind expectation.now.integration) }
{
    let kind = &expectation.kind;
    let position = expectation.integration;
    match &expectation.receiver {
        None => push_any(kind, position, out),
        Some(name) => {
            out.push_str(" -> ")?;
            push_text(name.as_str(), out)?;
            push_which(playbacks, name.as_str(), kind, position, out)
        }
    }
}

/// Adds which integration of any receiver; nothing where neither its kind nor its position is said.
fn push_any(kind: &Option<Text>, position: Option<u32>, out: &mut String) -> Result<(), AllocError>
    ensures { OnOk result (string_bytes out.new ≡ string_bytes out.old ++ any_text kind.now position) }
{
    if kind.is_none() && position.is_none() {
        return Ok(());
    }
    out.push_str(" -> any")?;
    push_kind(kind, out)?;
    push_position(position, out)
}

/// Adds which integration of the receiver of this name.
fn push_which(
    playbacks: &[Playback<'_>],
    name: &str,
    kind: &Option<Text>,
    position: Option<u32>,
    out: &mut String,
) -> Result<(), AllocError>
    ensures { OnOk result (string_bytes out.new
        ≡ string_bytes out.old ++ which_text playbacks.now name.now kind.now position) }
{
    match position {
        None => push_kind(kind, out),
        Some(position) => push_named(
            integrations_with(playbacks, name, kind, position),
            kind,
            position,
            out,
        ),
    }
}

/// Adds the name of the integration at a position of these, or else its kind, if that is said, and its position.
#[tactic(auto, using(crate::proofs::Named::unnamed, crate::proofs::Named::named))]
fn push_named(
    integrations: &[Integration],
    kind: &Option<Text>,
    position: u32,
    out: &mut String,
) -> Result<(), AllocError>
    ensures { OnOk result (string_bytes out.new
        ≡ string_bytes out.old ++ named_text integrations.now kind.now position) }
{
    match integrations.get(position as usize) {
        None => push_unnamed(kind, position, out),
        Some(_) => push_name_behind(integrations, position as usize, out),
    }
}

/// Adds a kind, if it is said, and a position.
fn push_unnamed(kind: &Option<Text>, position: u32, out: &mut String) -> Result<(), AllocError>
    ensures { OnOk result (string_bytes out.new
        ≡ string_bytes out.old ++ (kind_text kind.now ++ position_text (Some position))) }
{
    push_kind(kind, out)?;
    push_position(Some(position), out)
}

/// Adds a blank and the name of an integration.
fn push_name_behind(
    integrations: &[Integration],
    position: usize,
    out: &mut String,
) -> Result<(), AllocError>
    ensures { OnOk result (string_bytes out.new
        ≡ string_bytes out.old ++ (codes " " ++ integration_name integrations.now position)) }
{
    out.push_str(" ")?;
    push_name(integrations, position, out)
}

/// Adds a kind, if it is said.
fn push_kind(kind: &Option<Text>, out: &mut String) -> Result<(), AllocError>
    ensures { OnOk result (string_bytes out.new ≡ string_bytes out.old ++ kind_text kind.now) }
{
    match kind {
        None => Ok(()),
        Some(kind) => {
            out.push_str(" ")?;
            push_text(kind.as_str(), out)
        }
    }
}

/// Adds a position, if it is said.
fn push_position(position: Option<u32>, out: &mut String) -> Result<(), AllocError>
    ensures { OnOk result (string_bytes out.new ≡ string_bytes out.old ++ position_text position) }
{
    match position {
        None => Ok(()),
        Some(position) => {
            out.push_str(" at position ")?;
            push_number(u64::from(position), out)
        }
    }
}

/// The integrations of the receiver of this name in the first playback whose configuration has one of this kind at a
/// position; none where none has.
fn integrations_with<'s>(
    playbacks: &[Playback<'s>],
    name: &str,
    kind: &Option<Text>,
    position: u32,
) -> &'s [Integration]
    ensures { result.now ≡ integrations_with playbacks.now name.now kind.now position }
{
    for playback in playbacks {
        let integrations = playback.config().integrations_named(name);
        if has_at(kind, position, integrations) {
            return integrations;
        }
    }
    &[]
}

/// Whether these integrations have one of this kind, if one is said, at a position.
fn has_at(kind: &Option<Text>, position: u32, integrations: &[Integration]) -> bool
    ensures { result ≡ has_at kind.now position integrations.now }
{
    match integrations.get(position as usize) {
        None => false,
        Some(integration) => is_of_kind(kind, integration),
    }
}

/// Whether an integration is of this kind, if one is said.
fn is_of_kind(kind: &Option<Text>, integration: &Integration) -> bool
    ensures { result ≡ is_of_kind kind.now integration.now }
{
    match kind {
        None => true,
        Some(kind) => integration.kind.as_str() == kind.as_str(),
    }
}

/// Adds how many notices are wanted.
fn push_amount(amount: Amount, out: &mut String) -> Result<(), AllocError>
    ensures { OnOk result (string_bytes out.new ≡ string_bytes out.old ++ amount_text amount) }
{
    match amount {
        Amount::AtLeastOne => out.push_str("a notice"),
        Amount::Exactly(count) => push_count(count, " notice", out),
        Amount::AtMost(0) => out.push_str("no notice"),
        Amount::AtMost(most) => {
            out.push_str("at most ")?;
            push_count(most, " notice", out)
        }
    }
}

/// Adds what a notice has to say.
#[tactic(auto, unfolding(crate::specs::ExpectationReport::wanted_text))]
fn push_wanted(wanted: &Content, out: &mut String) -> Result<(), AllocError>
    ensures { OnOk result (string_bytes out.new ≡ string_bytes out.old ++ wanted_text wanted.now) }
{
    push_has(wanted, out)?;
    push_exact(wanted, out)?;
    push_reason(wanted.reason, out)
}

/// Adds which alerts a notice has to have among others.
#[tactic(auto, unfolding(crate::specs::ExpectationReport::has_text))]
fn push_has(wanted: &Content, out: &mut String) -> Result<(), AllocError>
    ensures { OnOk result (string_bytes out.new ≡ string_bytes out.old ++ has_text wanted.now) }
{
    push_matchers("; has ", wanted.has.as_ref(), out)?;
    push_matchers("; has resolved ", wanted.has_resolved.as_ref(), out)
}

/// Adds which alerts a notice has to have and no others.
#[tactic(auto, unfolding(crate::specs::ExpectationReport::exact_text))]
fn push_exact(wanted: &Content, out: &mut String) -> Result<(), AllocError>
    ensures { OnOk result (string_bytes out.new ≡ string_bytes out.old ++ exact_text wanted.now) }
{
    push_sets("; firing ", wanted.firing.as_ref(), out)?;
    push_sets("; resolved ", wanted.resolved.as_ref(), out)
}

/// Adds matchers behind a word; nothing where none are said.
fn push_matchers(
    word: &str,
    matchers: Option<&Sequence<Matcher>>,
    out: &mut String,
) -> Result<(), AllocError>
    ensures { OnOk result (string_bytes out.new
        ≡ string_bytes out.old ++ matchers_text word.now (option_copied matchers.entry)) }
{
    match matchers {
        None => Ok(()),
        Some(matchers) => {
            out.push_str(word)?;
            push_joined(matchers.as_slice(), out)
        }
    }
}

fn push_joined(matchers: &[Matcher], out: &mut String) -> Result<(), AllocError>
    ensures { OnOk result (string_bytes out.new
        ≡ string_bytes out.old ++ join_by matcher_shown (codes ", ") matchers.now) }
{
    match matchers {
        [] => Ok(()),
        [first, rest @ ..] => {
            push_matcher(first, out)?;
            push_more_matchers(rest, out)
        }
    }
}

fn push_more_matchers(matchers: &[Matcher], out: &mut String) -> Result<(), AllocError>
    ensures { OnOk result (string_bytes out.new
        ≡ string_bytes out.old ++ flat_map (λ m. codes ", " ++ matcher_shown m) matchers.now) }
{
    for matcher in matchers {
        out.push_str(", ")?;
        push_matcher(matcher, out)?;
    }
    Ok(())
}

#[tactic(auto, unfolding(crate::specs::ExpectationReport::matcher_shown))]
fn push_matcher(matcher: &Matcher, out: &mut String) -> Result<(), AllocError>
    ensures { OnOk result (string_bytes out.new ≡ string_bytes out.old ++ matcher_shown matcher.now) }
{
    let parts = matcher.parts();
    out.push_str(parts.name.as_str())?;
    out.push_str(operator_shown(parts.op))?;
    out.push_str("\"")?;
    push_text(parts.value.as_str(), out)?;
    out.push_str("\"")
}

fn operator_shown(op: Operator) -> &'static str
    ensures { result.now ≡ operator_shown op }
{
    match op {
        Operator::Equal => "=",
        Operator::NotEqual => "!=",
        Operator::Like => "=~",
        Operator::NotLike => "!~",
    }
}

/// Adds label sets behind a word; nothing where none are said.
fn push_sets(
    word: &str,
    sets: Option<&Sequence<Labels>>,
    out: &mut String,
) -> Result<(), AllocError>
    ensures { OnOk result (string_bytes out.new
        ≡ string_bytes out.old ++ sets_text word.now (option_copied sets.entry)) }
{
    match sets {
        None => Ok(()),
        Some(sets) => {
            out.push_str(word)?;
            push_listed(sets.as_slice(), out)
        }
    }
}

/// Adds label sets; `none` where there are none.
fn push_listed(sets: &[Labels], out: &mut String) -> Result<(), AllocError>
    ensures { OnOk result (string_bytes out.new ≡ string_bytes out.old ++ listed_text sets.now) }
{
    match sets {
        [] => out.push_str("none"),
        [first, rest @ ..] => {
            push_set(first, out)?;
            push_more_sets(rest, out)
        }
    }
}

fn push_more_sets(sets: &[Labels], out: &mut String) -> Result<(), AllocError>
    ensures { OnOk result (string_bytes out.new
        ≡ string_bytes out.old ++ flat_map (λ labels. codes ", " ++ set_shown labels) sets.now) }
{
    for labels in sets {
        out.push_str(", ")?;
        push_set(labels, out)?;
    }
    Ok(())
}

/// Adds a reason; nothing where none is said.
fn push_reason(reason: Option<SentReason>, out: &mut String) -> Result<(), AllocError>
    ensures { OnOk result (string_bytes out.new ≡ string_bytes out.old ++ wanted_reason_text reason) }
{
    match reason {
        None => Ok(()),
        Some(reason) => push_reason_part(reason.words(), out),
    }
}

/// Adds the words of a reason behind another.
#[tactic(auto, unfolding(crate::specs::ExpectationReport::reason_part))]
pub(crate) fn push_reason_part(words: &str, out: &mut String) -> Result<(), AllocError>
    ensures { OnOk result (string_bytes out.new ≡ string_bytes out.old ++ reason_part words.now) }
{
    out.push_str("; reason ")?;
    out.push_str(words)
}
