//! Which notices fit an expectation, and how many do.
//!
//! A rehearsal is a playback for each dispatcher, in their order. A count takes the timelines of all playbacks: `judged` makes it
//! once for each expectation.
ghost use Rattle.std.specs.Prelude.{◌≡◌, ◌≤◌, ◌==◌, ◌*◌, ◌^◌, IfOk, true, length};
ghost use Rattle.std.specs.Option.{option_map_or};
ghost use Rattle.std.specs.Str.{bytes_eq};
ghost use Rattle.am_judge.specs.Expectation.{count_fitting, count_in, ends_fitting, ends_in_scope, fits, has_in_scope, is_for_integration};
ghost use Rattle.am_judge.specs.Expectation.{is_for_receiver, is_in_scope, kind_for};

pub mod content;

use crate::expectation::content::is_in;
use am_model::config::{Config, kind_at};
use am_terms::event::Event;
use am_terms::expectation::Expectation;
use am_timeline::playback::Playback;
use am_timeline::sent::{Sent, sent_of};
use am_timeline::table::is_for;
use std::alloc::{AllocError, Global};

/// Returns how many notices fit, over all playbacks.
pub(crate) fn count_fitting(
    alloc: Global,
    playbacks: &[Playback<'_>],
    expectation: &Expectation,
) -> Result<u128, AllocError>
    ensures counted { IfOk result (λ count. count ≡ count_fitting playbacks.now expectation.now) }
    ensures fits { IfOk result (λ count. count ≤ length playbacks.now * 2 ^ 64) }
{
    let mut count: u128 = 0;
    for playback in playbacks {
        count += count_in(alloc, playback, expectation)? as u128;
    }
    Ok(count)
}

/// How many notices of a playback fit.
fn count_in(
    alloc: Global,
    playback: &Playback,
    expectation: &Expectation,
) -> Result<usize, AllocError>
    ensures { IfOk result (λ count. count ≡ count_in expectation.now playback.now) }
{
    let mut count: usize = 0;
    let events = playback.events();
    for event in events {
        if ends_fitting(alloc, playback, expectation, event)? {
            count += 1;
        }
    }
    Ok(count)
}

/// Whether the sending of a notice that fits ended by this.
fn ends_fitting(
    alloc: Global,
    playback: &Playback,
    expectation: &Expectation,
    event: &Event,
) -> Result<bool, AllocError>
    ensures { IfOk result (λ ends. ends ≡ ends_fitting playback.now expectation.now event.now) }
{
    match sent_of(playback, event) {
        None => Ok(false),
        Some(sent) => fits(alloc, playback, expectation, &sent),
    }
}

/// Returns whether a notice is in scope and has the content that is wanted.
pub(crate) fn fits(
    alloc: Global,
    playback: &Playback,
    expectation: &Expectation,
    sent: &Sent,
) -> Result<bool, AllocError>
    ensures { IfOk result (λ fitting. fitting ≡ fits playback.now expectation.now sent.now) }
{
    Ok(
        is_in_scope(playback.config(), expectation, sent)
            && is_in(alloc, playback, &expectation.content, sent)?,
    )
}

/// Returns whether a playback has a notice in scope.
pub(crate) fn has_in_scope(playback: &Playback, expectation: &Expectation) -> bool
    ensures { result ≡ has_in_scope expectation.now playback.now }
{
    let events = playback.events();
    for event in events {
        if ends_in_scope(playback, expectation, event) {
            return true;
        }
    }
    false
}

/// Whether the sending of a notice in scope ended by this.
fn ends_in_scope(playback: &Playback, expectation: &Expectation, event: &Event) -> bool
    ensures { result ≡ ends_in_scope playback.now expectation.now event.now }
{
    match sent_of(playback, event) {
        None => false,
        Some(sent) => is_in_scope(playback.config(), expectation, &sent),
    }
}

/// Returns whether a delivered notice is in scope, by its time, receiver and integration.
pub(crate) fn is_in_scope(config: &Config, expectation: &Expectation, sent: &Sent) -> bool
    ensures { result ≡ is_in_scope config.now expectation.now sent.now }
{
    sent.is_delivered()
        && expectation.from <= sent.report.ended
        && sent.report.ended <= expectation.to
        && is_for_receiver(config, expectation, sent)
        && is_for_integration(config, expectation, sent)
}

/// Returns whether a notice was for the receiver, if one is named.
pub(crate) fn is_for_receiver(config: &Config, expectation: &Expectation, sent: &Sent) -> bool
    ensures { result ≡ is_for_receiver config.now expectation.now sent.now }
{
    match &expectation.receiver {
        None => true,
        Some(name) => is_for(config, name.as_str(), sent),
    }
}

/// Returns whether a notice was for the integration, if its kind or its position is named.
pub(crate) fn is_for_integration(config: &Config, expectation: &Expectation, sent: &Sent) -> bool
    ensures { result ≡ is_for_integration config.now expectation.now sent.now }
{
    is_for_kind(config, expectation, sent) && is_for_position(expectation, sent)
}

fn is_for_kind(config: &Config, expectation: &Expectation, sent: &Sent) -> bool
    ensures { result ≡ option_map_or (λ kind. bytes_eq (kind_for config.now sent.now) kind) expectation.now.kind true }
{
    match &expectation.kind {
        None => true,
        Some(kind) => kind_for(config, sent) == kind.as_str(),
    }
}

fn is_for_position(expectation: &Expectation, sent: &Sent) -> bool
    ensures { result ≡ option_map_or (λ position. sent.now.notice.integration == position) expectation.now.integration true }
{
    let notice = sent.notice;
    match expectation.integration {
        None => true,
        Some(position) => notice.integration == position,
    }
}

/// The kind of the integration that a notice was for.
fn kind_for<'c>(config: &'c Config, sent: &Sent) -> &'c str
    ensures { result.now ≡ kind_for config.now sent.now }
{
    let notice = sent.notice;
    let integrations = config.integrations_of(&notice.group);
    kind_at(integrations, notice.integration as usize)
}
