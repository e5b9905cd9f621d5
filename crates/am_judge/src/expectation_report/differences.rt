//! How a notice differs from what is expected, as text.
ghost use Rattle.std.specs.Prelude.{◌≡◌, ◌++◌, OnOk, string_bytes};
ghost use Rattle.am_judge.specs.ExpectationReport.{content_differences, differences, early_text, exact_differences, has_differences};
ghost use Rattle.am_judge.specs.ExpectationReport.{integration_difference, off_span_text};
ghost use Rattle.am_judge.specs.ExpectationReport.{late_text, reason_difference, sent_reason_text, unless};

use crate::expectation::content::{are_as_wanted, has_as_wanted, is_sent_as_wanted};
use crate::expectation::is_for_integration;
use crate::expectation_report::wanted::push_reason_part;
use am_model::config::Config;
use am_terms::clock::push_counted;
use am_terms::expectation::{Content, Expectation};
use am_timeline::line::sent_words;
use am_timeline::playback::Playback;
use am_timeline::sent::{Sent, expiry_before};
use std::alloc::{AllocError, Global};

/// Adds how a notice to the receiver of an expectation differs from what is expected.
#[tactic(auto, unfolding(crate::specs::ExpectationReport::differences))]
pub(crate) fn push_differences(
    alloc: Global,
    playback: &Playback,
    expectation: &Expectation,
    sent: &Sent,
    out: &mut String,
) -> Result<(), AllocError>
    ensures { OnOk result (string_bytes out.new
        ≡ string_bytes out.old ++ differences playback.now expectation.now sent.now) }
{
    let at = sent.report.ended;
    push_off_span(expectation.from, expectation.to, at, out)?;
    push_other_integration(playback.config(), expectation, sent, out)?;
    push_content(alloc, playback, &expectation.content, sent, out)
}

/// Adds by how much a time is outside of a span; nothing where it isn't.
#[tactic(auto, unfolding(crate::specs::ExpectationReport::off_span_text))]
fn push_off_span(from: u64, to: u64, at: u64, out: &mut String) -> Result<(), AllocError>
    ensures { OnOk result (string_bytes out.new ≡ string_bytes out.old ++ off_span_text from to at) }
{
    push_early(from, at, out)?;
    push_late(to, at, out)
}

/// Adds that a notice was for another integration, if it was.
fn push_other_integration(
    config: &Config,
    expectation: &Expectation,
    sent: &Sent,
    out: &mut String,
) -> Result<(), AllocError>
    ensures { OnOk result (string_bytes out.new
        ≡ string_bytes out.old ++ integration_difference config.now expectation.now sent.now) }
{
    let is_meant = is_for_integration(config, expectation, sent);
    push_unless(is_meant, "; another integration", out)
}

/// Adds by how much a time is before the first of a span; nothing where it isn't.
fn push_early(from: u64, at: u64, out: &mut String) -> Result<(), AllocError>
    ensures { OnOk result (string_bytes out.new ≡ string_bytes out.old ++ early_text from at) }
{
    if at >= from {
        return Ok(());
    }
    out.push_str("; ")?;
    push_counted(from - at, out)?;
    out.push_str(" early")
}

/// Adds by how much a time is behind the last of a span; nothing where it isn't.
fn push_late(to: u64, at: u64, out: &mut String) -> Result<(), AllocError>
    ensures { OnOk result (string_bytes out.new ≡ string_bytes out.old ++ late_text to at) }
{
    if at <= to {
        return Ok(());
    }
    out.push_str("; ")?;
    push_counted(at - to, out)?;
    out.push_str(" late")
}

/// Adds a text, unless something is so.
fn push_unless(holds: bool, text: &str, out: &mut String) -> Result<(), AllocError>
    ensures { OnOk result (string_bytes out.new ≡ string_bytes out.old ++ unless holds text.now) }
{
    if holds {
        return Ok(());
    }
    out.push_str(text)
}

/// Adds how a notice differs in its content.
#[tactic(auto, unfolding(crate::specs::ExpectationReport::content_differences))]
fn push_content(
    alloc: Global,
    playback: &Playback,
    wanted: &Content,
    sent: &Sent,
    out: &mut String,
) -> Result<(), AllocError>
    ensures { OnOk result (string_bytes out.new
        ≡ string_bytes out.old ++ content_differences playback.now wanted.now sent.now) }
{
    push_has_differences(alloc, wanted, sent, out)?;
    push_exact_differences(wanted, sent, out)?;
    push_other_reason(playback, wanted, sent, out)
}

/// Adds how it differs in the alerts that it has to have among others.
#[tactic(auto, unfolding(crate::specs::ExpectationReport::has_differences))]
fn push_has_differences(
    alloc: Global,
    wanted: &Content,
    sent: &Sent,
    out: &mut String,
) -> Result<(), AllocError>
    ensures { OnOk result (string_bytes out.new ≡ string_bytes out.old ++ has_differences wanted.now sent.now) }
{
    let notice = sent.notice;
    let has = has_as_wanted(alloc, wanted.has.as_ref(), notice.firing.as_slice())?;
    push_unless(has, "; no firing alert matches", out)?;
    let has = has_as_wanted(
        alloc,
        wanted.has_resolved.as_ref(),
        notice.resolved.as_slice(),
    )?;
    push_unless(has, "; no resolved alert matches", out)
}

/// Adds how it differs in the alerts that it has to have and no others.
#[tactic(auto, unfolding(crate::specs::ExpectationReport::exact_differences))]
fn push_exact_differences(wanted: &Content, sent: &Sent, out: &mut String) -> Result<(), AllocError>
    ensures { OnOk result (string_bytes out.new ≡ string_bytes out.old ++ exact_differences wanted.now sent.now) }
{
    let notice = sent.notice;
    let are_firing = are_as_wanted(wanted.firing.as_ref(), notice.firing.as_slice());
    push_unless(are_firing, "; other firing alerts", out)?;
    let are_resolved = are_as_wanted(wanted.resolved.as_ref(), notice.resolved.as_slice());
    push_unless(are_resolved, "; other resolved alerts", out)
}

/// Adds why a notice was sent, if another reason is wanted.
fn push_other_reason(
    playback: &Playback,
    wanted: &Content,
    sent: &Sent,
    out: &mut String,
) -> Result<(), AllocError>
    ensures { OnOk result (string_bytes out.new
        ≡ string_bytes out.old ++ reason_difference playback.now wanted.now sent.now) }
{
    if is_sent_as_wanted(playback, wanted.reason, sent) {
        return Ok(());
    }
    push_reason_of(playback, sent, out)
}

fn push_reason_of(playback: &Playback, sent: &Sent, out: &mut String) -> Result<(), AllocError>
    ensures { OnOk result (string_bytes out.new
        ≡ string_bytes out.old ++ sent_reason_text playback.now sent.now) }
{
    let notice = sent.notice;
    let reasons = sent.begin.preview.reasons();
    match reasons.get(notice.integration as usize) {
        None => Ok(()),
        Some(own) => push_reason_part(sent_words(expiry_before(playback, sent), own), out),
    }
}
