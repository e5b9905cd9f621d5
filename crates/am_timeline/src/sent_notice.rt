//! The delivered notices of two rehearsals, as they are compared.
//!
//! Two notices are equal if they are for one integration of one receiver, by their names, say the same alerts, and came at one time.
ghost use Rattle.std.specs.Prelude.{◌≡◌, ◌++◌, ◌↔◌, true, map, IfOk, IsPermutation, IsSorted, OnOk, string_bytes};
ghost use Rattle.am_model.specs.Configured.{route_of};
ghost use Rattle.am_timeline.specs.Comparison.{as_delivered, delivered_by, delivered_notices, if_delivered, notice_alerts};
ghost use Rattle.am_timeline.specs.Comparison.{notice_cmp, notice_of, notice_target};
ghost use Rattle.am_timeline.specs.Shown.{text_shown};

use crate::alerts::push_alerts;
use crate::groups::push_integration;
use crate::line::push_sent_reason;
use crate::playback::Playback;
use crate::print::Print;
use crate::sent::{Sent, expiry_before, sent_of};
use crate::shown::{push_set, push_text};
use am_alerts::alert::Alert;
use am_model::config::Config;
use am_model::notice::Notice;
use am_terms::clock::TimeFormat;
use am_terms::event::Event;
use std::alloc::{AllocError, Global};
use std::cmp::Ordering;

/// Which of the two rehearsals.
#[derive(Clone, Copy, PartialEq, Eq)]
pub(crate) enum Side {
    Old,
    New,
}

/// A delivered notice.
#[derive(Drop)]
pub(crate) struct SentNotice {
    pub(crate) side: Side,
    /// When its sending ended, in milliseconds.
    pub(crate) at: u64,
    pub(crate) receiver: String,
    /// The receiver and the integration's name, as they are printed.
    pub(crate) target: String,
    pub(crate) alerts: String,
    /// Why it was sent.
    pub(crate) reason: String,
}

/// An alert that a delivered notice says, as firing or as resolved.
#[derive(Drop)]
pub(crate) struct ListedAlert {
    pub(crate) side: Side,
    pub(crate) alert: String,
}

/// Returns the delivered notices of a rehearsal, and adds the alerts that they say.
pub(crate) fn notices_of<C: TimeFormat>(
    alloc: Global,
    side: Side,
    playback: &Playback<'_>,
    clock: &C,
    listed_alerts: &mut Vec<ListedAlert>,
) -> Result<Vec<SentNotice>, AllocError>
    ensures { IfOk result (λ notices. map notice_of notices.items ≡ delivered_notices playback.now) }
{
    let print = Print {
        alloc,
        playback,
        clock,
    };
    let mut notices = Vec::new(alloc);
    for event in playback.events {
        add_notice_of(&print, side, event, &mut notices, listed_alerts)?;
    }
    Ok(notices)
}

/// Adds the delivered notice whose sending came to its end by this, if there is one, and the alerts that it says.
fn add_notice_of<C: TimeFormat>(
    print: &Print<'_, '_, C>,
    side: Side,
    event: &Event,
    notices: &mut Vec<SentNotice>,
    listed_alerts: &mut Vec<ListedAlert>,
) -> Result<(), AllocError>
    ensures { OnOk result (map notice_of notices.new.items
        ≡ map notice_of notices.old.items ++ delivered_by print.now.playback.now event.now) }
{
    match sent_of(print.playback, event) {
        None => Ok(()),
        Some(sent) => add_if_delivered(print, side, &sent, notices, listed_alerts),
    }
}

fn add_if_delivered<C: TimeFormat>(
    print: &Print<'_, '_, C>,
    side: Side,
    sent: &Sent<'_>,
    notices: &mut Vec<SentNotice>,
    listed_alerts: &mut Vec<ListedAlert>,
) -> Result<(), AllocError>
    ensures { OnOk result (map notice_of notices.new.items
        ≡ map notice_of notices.old.items ++ if_delivered print.now.playback.now.config sent.now) }
{
    if !sent.is_delivered() {
        return Ok(());
    }
    add_listed(print.alloc, side, sent.notice, listed_alerts)?;
    notices.push(sent_notice_by(print, side, sent)?)?;
    Ok(())
}

fn sent_notice_by<C: TimeFormat>(
    print: &Print<'_, '_, C>,
    side: Side,
    sent: &Sent<'_>,
) -> Result<SentNotice, AllocError>
    ensures { IfOk result (λ notice. notice_of notice ≡ as_delivered print.now.playback.now.config sent.now) }
{
    let config = print.config();
    let receiver = receiver_text(print.alloc, config, sent.notice)?;
    let target = target_text(print.alloc, config, sent.notice)?;
    let alerts = alerts_text(print.alloc, sent.notice)?;
    let reason = reason_text(print, sent)?;
    Ok(SentNotice {
        side,
        at: sent.report.ended,
        receiver,
        target,
        alerts,
        reason,
    })
}

/// Returns the receiver that a notice is for, as it is printed.
fn receiver_text(alloc: Global, config: &Config, notice: &Notice) -> Result<String, AllocError>
    ensures { IfOk result (λ text. string_bytes text ≡ text_shown (route_of config.now notice.now.group).receiver) }
{
    let mut text = String::new(alloc);
    push_text(config.route_of(&notice.group).receiver.as_str(), &mut text)?;
    Ok(text)
}

/// Returns the receiver and the integration that a notice is for, as they are printed.
fn target_text(alloc: Global, config: &Config, notice: &Notice) -> Result<String, AllocError>
    ensures { IfOk result (λ text. string_bytes text ≡ notice_target config.now notice.now) }
{
    let mut text = receiver_text(alloc, config, notice)?;
    text.push_str(" ")?;
    push_integration(
        config,
        &notice.group,
        notice.integration as usize,
        &mut text,
    )?;
    Ok(text)
}

/// Returns the alerts that a notice says, as they are printed.
fn alerts_text(alloc: Global, notice: &Notice) -> Result<String, AllocError>
    ensures { IfOk result (λ text. string_bytes text ≡ notice_alerts notice.now) }
{
    let mut text = String::new(alloc);
    push_alerts("; firing ", notice.firing.as_slice(), &mut text)?;
    push_alerts("; resolved ", notice.resolved.as_slice(), &mut text)?;
    Ok(text)
}

/// Returns why a notice was sent.
fn reason_text<C: TimeFormat>(
    print: &Print<'_, '_, C>,
    sent: &Sent<'_>,
) -> Result<String, AllocError> {
    let mut text = String::new(print.alloc);
    let notice = sent.notice;
    let index = notice.integration as usize;
    if let Some(why) = sent.begin.preview.reasons().get(index) {
        push_sent_reason(
            print.clock,
            expiry_before(print.playback, sent),
            why,
            &mut text,
        )?;
    }
    Ok(text)
}

/// Adds the alerts that a delivered notice says, as firing and as resolved.
fn add_listed(
    alloc: Global,
    side: Side,
    notice: &Notice,
    listed_alerts: &mut Vec<ListedAlert>,
) -> Result<(), AllocError> {
    add_alerts(alloc, side, notice.firing.as_slice(), listed_alerts)?;
    add_alerts(alloc, side, notice.resolved.as_slice(), listed_alerts)
}

fn add_alerts(
    alloc: Global,
    side: Side,
    alerts: &[Alert],
    listed_alerts: &mut Vec<ListedAlert>,
) -> Result<(), AllocError> {
    for alert in alerts {
        let mut text = String::new(alloc);
        push_set(alert.labels(), &mut text)?;
        listed_alerts.push(ListedAlert { side, alert: text })?;
    }
    Ok(())
}

/// Returns whether these are the same notices at the same times, each as often.
pub(crate) fn are_same(
    alloc: Global,
    old_notices: &[SentNotice],
    new_notices: &[SentNotice],
) -> Result<bool, AllocError>
    ensures { IfOk result (λ same.
        (same ≡ true) ↔ IsPermutation (map notice_of old_notices.now) (map notice_of new_notices.now)) }
{
    let old = in_order(alloc, old_notices)?;
    let new = in_order(alloc, new_notices)?;
    Ok(are_equal(old.as_slice(), new.as_slice()))
}

/// Returns notices in the order of `by_content`.
fn in_order(alloc: Global, notices: &[SentNotice]) -> Result<Vec<&SentNotice>, AllocError>
    ensures moved { IfOk result (λ found. IsPermutation (map notice_of notices.now) (map (λ n. notice_of n.now) found.items)) }
    ensures sorted { IfOk result (λ found. IsSorted notice_cmp (map (λ n. notice_of n.now) found.items)) }
{
    let mut found = lent(alloc, notices)?;
    found.sort_unstable_by(|one, other| by_content(one, other));
    Ok(found)
}

/// Returns each of these notices.
fn lent(alloc: Global, notices: &[SentNotice]) -> Result<Vec<&SentNotice>, AllocError>
    ensures { IfOk result (λ found. map (λ n. notice_of n.now) found.items ≡ map notice_of notices.now) }
{
    let mut found = Vec::with_capacity(alloc, notices.len())?;
    for notice in notices {
        found.push(notice)?;
    }
    Ok(found)
}

/// Returns whether each notice is equal to the one at its index.
fn are_equal(old: &[&SentNotice], new: &[&SentNotice]) -> bool
    ensures { (result ≡ true) ↔ (map (λ n. notice_of n.now) old.now ≡ map (λ n. notice_of n.now) new.now) }
{
    if old.len() != new.len() {
        return false;
    }
    for (one, other) in old.iter().zip(new) {
        if !is_equal(one, other) {
            return false;
        }
    }
    true
}

/// Returns whether two notices are the same, at one time.
fn is_equal(one: &SentNotice, other: &SentNotice) -> bool
    ensures { (result ≡ true) ↔ (notice_of one.now ≡ notice_of other.now) }
{
    by_content(one, other).is_eq()
}

/// By target, then by alerts, then by time.
fn by_content(one: &SentNotice, other: &SentNotice) -> Ordering
    ensures { result ≡ notice_cmp (notice_of one.now) (notice_of other.now) }
{
    one.target
        .as_str()
        .cmp(other.target.as_str())
        .then(one.alerts.as_str().cmp(other.alerts.as_str()))
        .then(one.at.cmp(&other.at))
}

/// The same notices follow each other by time, and of one time the old ones come first.
pub(crate) fn by_content_and_side(one: &SentNotice, other: &SentNotice) -> Ordering {
    by_content(one, other).then(number(one.side).cmp(&number(other.side)))
}

/// Returns whether two notices are the same, at whatever time.
pub(crate) fn is_same(one: &SentNotice, other: &SentNotice) -> bool {
    one.target.as_str() == other.target.as_str() && one.alerts.as_str() == other.alerts.as_str()
}

fn number(side: Side) -> u8 {
    match side {
        Side::Old => 0,
        Side::New => 1,
    }
}
