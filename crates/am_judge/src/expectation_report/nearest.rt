//! The notice that is nearest to what is expected.
ghost use Rattle.std.specs.Prelude.{◌≡◌, IfOk, None};
ghost use Rattle.am_judge.specs.ExpectationReport.{candidate_by, distance, if_alike, is_alike, nearer, nearest_in, nearest_of};
ghost use Rattle.am_judge.specs.ExpectationReport.{nearest_with};

use crate::expectation::content::is_in;
use crate::expectation::{is_for_integration, is_for_receiver};
use am_terms::event::Event;
use am_terms::expectation::Expectation;
use am_timeline::playback::Playback;
use am_timeline::sent::{Sent, sent_of};
use std::alloc::{AllocError, Global};
use std::marker::Model;

/// How much a delivered notice has of what is expected, besides its time.
#[derive(Clone, Copy, PartialEq, Eq)]
pub(crate) enum Alike {
    /// The receiver.
    ToReceiver,
    /// The receiver and the integration.
    ToTarget,
    /// The receiver, the integration and the content.
    OfContent,
}

/// A notice, and the playback that it was sent in.
#[derive(Drop)]
pub(crate) struct Found<'p, 's> {
    pub(crate) playback: &'p Playback<'s>,
    pub(crate) sent: Sent<'s>,
}

impl<'p, 's> Model for Found<'p, 's> {
    ghost use Rattle.std.specs.Coded.{codes};
    ghost use Rattle.am_alerts.specs.Layout.{forest_code};
    ghost use Rattle.am_judge.specs.ExpectationReport.{FoundData};

    ghost Value = { FoundData };

    ghost coded = { Prim.hlevel (codes, forest_code) };

    ghost view = { λ f. record { playback = f.playback.now; sent = f.sent } };
}

/// Returns the delivered notice of all playbacks that is nearest to the span of an expectation: of those with its
/// target and its content, or else with its target, or else to its receiver.
pub(crate) fn nearest_of<'p, 's>(
    alloc: Global,
    playbacks: &'p [Playback<'s>],
    expectation: &Expectation,
) -> Result<Option<Found<'p, 's>>, AllocError>
    ensures { IfOk result (λ nearest. nearest ≡ nearest_of playbacks.now expectation.now) }
{
    if let Some(found) = nearest(alloc, Alike::OfContent, playbacks, expectation)? {
        return Ok(Some(found));
    }
    if let Some(found) = nearest(alloc, Alike::ToTarget, playbacks, expectation)? {
        return Ok(Some(found));
    }
    nearest(alloc, Alike::ToReceiver, playbacks, expectation)
}

/// The nearest of the notices that are alike, the first of those that are as near.
fn nearest<'p, 's>(
    alloc: Global,
    alike: Alike,
    playbacks: &'p [Playback<'s>],
    expectation: &Expectation,
) -> Result<Option<Found<'p, 's>>, AllocError>
    ensures { IfOk result (λ nearest. nearest ≡ nearest_in alike expectation.now None playbacks.now) }
{
    let mut best = None;
    for playback in playbacks {
        best = nearest_with(alloc, alike, playback, expectation, best)?;
    }
    Ok(best)
}

/// The nearest of a notice and those of a playback that are alike.
fn nearest_with<'p, 's>(
    alloc: Global,
    alike: Alike,
    playback: &'p Playback<'s>,
    expectation: &Expectation,
    nearest: Option<Found<'p, 's>>,
) -> Result<Option<Found<'p, 's>>, AllocError>
    ensures { IfOk result (λ best.
        best ≡ nearest_with alike playback.now expectation.now nearest.entry playback.now.events) }
{
    let mut best = nearest;
    let events = playback.events();
    for event in events {
        let candidate = candidate_by(alloc, alike, playback, expectation, event)?;
        best = nearer(expectation, best, candidate);
    }
    Ok(best)
}

/// The notice that is alike whose sending ended by this, if there is one.
fn candidate_by<'p, 's>(
    alloc: Global,
    alike: Alike,
    playback: &'p Playback<'s>,
    expectation: &Expectation,
    event: &Event,
) -> Result<Option<Found<'p, 's>>, AllocError>
    ensures { IfOk result (λ candidate. candidate ≡ candidate_by alike playback.now expectation.now event.now) }
{
    match sent_of(playback, event) {
        None => Ok(None),
        Some(sent) => if_alike(alloc, alike, playback, expectation, sent),
    }
}

/// A notice, if it was delivered and is alike.
fn if_alike<'p, 's>(
    alloc: Global,
    alike: Alike,
    playback: &'p Playback<'s>,
    expectation: &Expectation,
    sent: Sent<'s>,
) -> Result<Option<Found<'p, 's>>, AllocError>
    ensures { IfOk result (λ candidate. candidate ≡ if_alike alike playback.now expectation.now sent.entry) }
{
    if sent.is_delivered() && is_alike(alloc, alike, playback, expectation, &sent)? {
        return Ok(Some(Found { playback, sent }));
    }
    Ok(None)
}

fn is_alike(
    alloc: Global,
    alike: Alike,
    playback: &Playback,
    expectation: &Expectation,
    sent: &Sent,
) -> Result<bool, AllocError>
    ensures { IfOk result (λ holds. holds ≡ is_alike alike playback.now expectation.now sent.now) }
{
    if !is_for_receiver(playback.config(), expectation, sent) {
        return Ok(false);
    }
    match alike {
        Alike::ToReceiver => Ok(true),
        Alike::ToTarget => Ok(is_for_integration(playback.config(), expectation, sent)),
        Alike::OfContent => Ok(
            is_for_integration(playback.config(), expectation, sent)
                && is_in(alloc, playback, &expectation.content, sent)?,
        ),
    }
}

/// The nearer of two notices, and the first where both are as near.
fn nearer<'p, 's>(
    expectation: &Expectation,
    first: Option<Found<'p, 's>>,
    second: Option<Found<'p, 's>>,
) -> Option<Found<'p, 's>>
    ensures { result ≡ nearer expectation.now first.entry second.entry }
{
    match (first, second) {
        (None, second) => second,
        (Some(first), None) => Some(first),
        (Some(first), Some(second)) => {
            if distance(expectation, &first.sent) <= distance(expectation, &second.sent) {
                Some(first)
            } else {
                Some(second)
            }
        }
    }
}

/// How far a notice is from the span of an expectation, in milliseconds.
fn distance(expectation: &Expectation, sent: &Sent) -> u64
    ensures { result ≡ distance expectation.now sent.now }
{
    let at = sent.report.ended;
    if at < expectation.from {
        return expectation.from - at;
    }
    at.saturating_sub(expectation.to)
}
