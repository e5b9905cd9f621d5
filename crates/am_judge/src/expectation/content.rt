//! Whether a notice has the content that an expectation wants.
ghost use Rattle.std.specs.Prelude.{◌≡◌, IfOk, option_copied};
ghost use Rattle.std.specs.List.{list_all};
ghost use Rattle.am_judge.specs.Expectation.{are_as_wanted, has_as_wanted, has_content, has_match, have_just};
ghost use Rattle.am_judge.specs.Expectation.{is_listed, is_sent_as_wanted, is_sent_for};
ghost use Rattle.am_timeline.specs.Playback.{has_set};

use am_alerts::alert::Alert;
use am_alerts::labels::Labels;
use am_alerts::matcher::{Matcher, all_match};
use am_alerts::sequence::Sequence;
use am_terms::expectation::{Content, SentReason};
use am_timeline::line::sent_words;
use am_timeline::playback::Playback;
use am_timeline::sent::{Sent, expiry_before};
use std::alloc::{AllocError, Global};

/// Returns whether a notice has the content that is wanted.
pub(crate) fn is_in(
    alloc: Global,
    playback: &Playback,
    wanted: &Content,
    sent: &Sent,
) -> Result<bool, AllocError>
    ensures { IfOk result (λ is_in. is_in ≡ has_content playback.now wanted.now sent.now) }
{
    let notice = sent.notice;
    let firing = notice.firing.as_slice();
    let resolved = notice.resolved.as_slice();
    Ok(
        has_as_wanted(alloc, wanted.has.as_ref(), firing)?
            && has_as_wanted(alloc, wanted.has_resolved.as_ref(), resolved)?
            && are_as_wanted(wanted.firing.as_ref(), firing)
            && are_as_wanted(wanted.resolved.as_ref(), resolved)
            && is_sent_as_wanted(playback, wanted.reason, sent),
    )
}

/// Returns whether one of these alerts matches all matchers, if any are said.
pub(crate) fn has_as_wanted(
    alloc: Global,
    wanted: Option<&Sequence<Matcher>>,
    alerts: &[Alert],
) -> Result<bool, AllocError>
    ensures { IfOk result (λ has. has ≡ has_as_wanted (option_copied wanted.entry) alerts.now) }
{
    match wanted {
        None => Ok(true),
        Some(matchers) => has_match(alloc, matchers.as_slice(), alerts),
    }
}

fn has_match(alloc: Global, matchers: &[Matcher], alerts: &[Alert]) -> Result<bool, AllocError>
    ensures { IfOk result (λ has. has ≡ has_match matchers.now alerts.now) }
{
    for alert in alerts {
        if all_match(alloc, matchers, alert.labels())? {
            return Ok(true);
        }
    }
    Ok(false)
}

/// Returns whether alerts have just these label sets, if any are said.
pub(crate) fn are_as_wanted(wanted: Option<&Sequence<Labels>>, alerts: &[Alert]) -> bool
    ensures { result ≡ are_as_wanted (option_copied wanted.entry) alerts.now }
{
    match wanted {
        None => true,
        Some(sets) => have_just(sets.as_slice(), alerts),
    }
}

/// Whether alerts have just these label sets.
fn have_just(wanted: &[Labels], alerts: &[Alert]) -> bool
    ensures { result ≡ have_just wanted.now alerts.now }
{
    have_sets(wanted, alerts) && are_listed(wanted, alerts)
}

fn have_sets(wanted: &[Labels], alerts: &[Alert]) -> bool
    ensures { result ≡ list_all (has_set alerts.now) wanted.now }
{
    wanted.iter().all(|labels| has_set(alerts, labels))
}

fn are_listed(wanted: &[Labels], alerts: &[Alert]) -> bool
    ensures { result ≡ list_all (is_listed wanted.now) alerts.now }
{
    alerts.iter().all(|alert| is_listed(wanted, alert))
}

fn has_set(alerts: &[Alert], labels: &Labels) -> bool
    ensures { result ≡ has_set alerts.now labels.now }
{
    alerts.iter().any(|alert| alert.labels() == labels)
}

fn is_listed(wanted: &[Labels], alert: &Alert) -> bool
    ensures { result ≡ is_listed wanted.now alert.now }
{
    wanted.iter().any(|labels| labels == alert.labels())
}

/// Returns whether a notice was sent for a reason, if one is said.
pub(crate) fn is_sent_as_wanted(
    playback: &Playback,
    wanted: Option<SentReason>,
    sent: &Sent,
) -> bool
    ensures { result ≡ is_sent_as_wanted playback.now wanted sent.now }
{
    match wanted {
        None => true,
        Some(reason) => is_sent_for(playback, reason, sent),
    }
}

/// Returns whether a notice was sent for a reason.
pub(crate) fn is_sent_for(playback: &Playback, reason: SentReason, sent: &Sent) -> bool
    ensures { result ≡ is_sent_for playback.now reason sent.now }
{
    let notice = sent.notice;
    let reasons = sent.begin.preview.reasons();
    match reasons.get(notice.integration as usize) {
        None => false,
        Some(own) => sent_words(expiry_before(playback, sent), own) == reason.words(),
    }
}
