//! Whether the answer to an expectation depends on repeats on the edge.
//!
//! Alertmanager sends a repeat on the edge at either of two flushes, by milliseconds, and a rehearsal at the later one. Cost: that of the
//! timelines of all playbacks, and for each notice whose repeat may count otherwise, that of all begins, and of all timelines
//! where such a begin is on the edge.
ghost use Rattle.std.specs.Prelude.{◌≡◌, ◌≤◌, ◌*◌, ◌^◌, IfOk, false, length, slice_get};
ghost use Rattle.std.specs.List.{list_any};
ghost use Rattle.std.specs.Option.{option_map_or};
ghost use Rattle.am_judge.specs.Edge.{allows_each, allows_some, count_shifts, depends_on_edge, edge_after, edge_of, flushes_from};
ghost use Rattle.am_judge.specs.Edge.{flushes_of, has_edge_at, is_edge_at, is_in_span, is_open, is_repeat_wanted, is_wanted};
ghost use Rattle.am_judge.specs.Edge.{ends_repeat_at, has_repeat_at, is_repeat_at, is_uncounted, leaves_or_enters};
ghost use Rattle.am_judge.specs.Edge.{repeats_as_wanted, shifts, shifts_by, shifts_in};
ghost use Rattle.am_timeline.specs.Timeline.{is_on_edge};

use crate::expectation::content::{are_as_wanted, has_as_wanted, is_sent_for};
use crate::expectation::{fits, is_for_integration, is_for_receiver};
use crate::judged::Question;
use am_alerts::limits::MAX_TIME;
use am_model::config::Config;
use am_model::group::GroupName;
use am_model::notice::Notice;
use am_model::reason::Reason;
use am_terms::event::{Event, PreviewedBegin};
use am_terms::expectation::{Amount, Content, Expectation, SentReason};
use am_timeline::playback::Playback;
use am_timeline::sent::{Sent, sent_of};
use std::alloc::{AllocError, Global};

/// How many notices may fit in place of those that do.
#[derive(Clone, Copy, PartialEq, Eq)]
pub(crate) enum Side {
    /// Fewer, if a notice that fits is a repeat.
    Fewer,
    /// More, if a repeat follows a notice.
    More,
}

/// The times of two flushes of a group, in milliseconds: one at which a repeat is on the edge, and the next one.
#[derive(Clone, Copy)]
pub(crate) struct Flushes {
    pub(crate) first: u64,
    pub(crate) next: u64,
}

/// Returns whether it depends on the flushes at which Alertmanager sends the repeats on the edge if an expectation is met.
pub(crate) fn depends_on_edge(question: &Question<'_>) -> Result<bool, AllocError>
    ensures { IfOk result (λ depends. depends ≡ depends_on_edge question.now.playbacks.now question.now.expectation.now) }
{
    let alloc = question.alloc;
    let playbacks = question.playbacks;
    let expectation = question.expectation;
    let fewer = count_shifts(alloc, Side::Fewer, playbacks, expectation)?;
    let more = count_shifts(alloc, Side::More, playbacks, expectation)?;
    Ok(is_open(
        expectation.amount,
        question.fitting.saturating_sub(fewer),
        question.fitting + more,
    ))
}

/// Whether some of the counts from the fewest to the most are as many as are expected, and others aren't.
fn is_open(amount: Amount, fewest: u128, most: u128) -> bool
    ensures { result ≡ is_open amount fewest most }
{
    allows_some(amount, fewest, most) && !allows_each(amount, fewest, most)
}

fn allows_some(amount: Amount, fewest: u128, most: u128) -> bool
    ensures { result ≡ allows_some amount fewest most }
{
    match amount {
        Amount::AtLeastOne => 0 < most,
        Amount::Exactly(count) => fewest <= u128::from(count) && u128::from(count) <= most,
        Amount::AtMost(count) => fewest <= u128::from(count),
    }
}

fn allows_each(amount: Amount, fewest: u128, most: u128) -> bool
    ensures { result ≡ allows_each amount fewest most }
{
    match amount {
        Amount::AtLeastOne => 0 < fewest,
        Amount::Exactly(count) => fewest == u128::from(count) && most == u128::from(count),
        Amount::AtMost(count) => most <= u128::from(count),
    }
}

/// How many notices of all playbacks fit and wouldn't, or have a repeat that would fit.
fn count_shifts(
    alloc: Global,
    side: Side,
    playbacks: &[Playback<'_>],
    expectation: &Expectation,
) -> Result<u128, AllocError>
    ensures counted { IfOk result (λ count. count ≡ count_shifts side playbacks.now expectation.now) }
    ensures fits { IfOk result (λ count. count ≤ length playbacks.now * 2 ^ 64) }
{
    let mut count: u128 = 0;
    for playback in playbacks {
        count += shifts_in(alloc, side, playbacks, expectation, playback)? as u128;
    }
    Ok(count)
}

/// How many of a playback do.
fn shifts_in(
    alloc: Global,
    side: Side,
    playbacks: &[Playback<'_>],
    expectation: &Expectation,
    playback: &Playback,
) -> Result<usize, AllocError>
    ensures { IfOk result (λ count. count ≡ shifts_in side playbacks.now expectation.now playback.now) }
{
    let mut count: usize = 0;
    let events = playback.events();
    for event in events {
        if shifts_by(alloc, side, playbacks, expectation, playback, event)? {
            count += 1;
        }
    }
    Ok(count)
}

/// Whether the notice does whose sending ended by this.
fn shifts_by(
    alloc: Global,
    side: Side,
    playbacks: &[Playback<'_>],
    expectation: &Expectation,
    playback: &Playback,
    event: &Event,
) -> Result<bool, AllocError>
    ensures { IfOk result (λ holds. holds ≡ shifts_by side playbacks.now expectation.now playback.now event.now) }
{
    match sent_of(playback, event) {
        None => Ok(false),
        Some(sent) => shifts(alloc, side, playbacks, expectation, playback, &sent),
    }
}

/// Returns the flushes of the repeat that a notice is, or that follows it, if it counts otherwise at the first of them.
pub(crate) fn edge_of(
    alloc: Global,
    side: Side,
    playbacks: &[Playback<'_>],
    expectation: &Expectation,
    playback: &Playback,
    sent: &Sent,
) -> Result<Option<Flushes>, AllocError>
    ensures { IfOk result (λ edge. edge ≡ edge_of side playbacks.now expectation.now playback.now sent.now) }
{
    if shifts(alloc, side, playbacks, expectation, playback, sent)? {
        return Ok(Some(flushes_of(side, playback.config(), sent)));
    }
    Ok(None)
}

/// Whether a notice fits that wouldn't at the first flush of its repeat, or its repeat would fit at its first flush and doesn't
/// come at the second one; and the first one is on the edge.
fn shifts(
    alloc: Global,
    side: Side,
    playbacks: &[Playback<'_>],
    expectation: &Expectation,
    playback: &Playback,
    sent: &Sent,
) -> Result<bool, AllocError>
    ensures { IfOk result (λ holds. holds ≡ shifts side playbacks.now expectation.now playback.now sent.now) }
{
    let flushes = flushes_of(side, playback.config(), sent);
    Ok(
        leaves_or_enters(side, expectation, flushes.first)
            && is_wanted(alloc, side, playback, expectation, sent)?
            && have_edge_at(playbacks, sent.notice, flushes.first)
            && is_uncounted(
                alloc,
                side,
                playbacks,
                expectation,
                sent.notice,
                flushes.next,
            )?,
    )
}

/// Whether no repeat that fits came at the second flush of a repeat, where more notices may fit.
fn is_uncounted(
    alloc: Global,
    side: Side,
    playbacks: &[Playback<'_>],
    expectation: &Expectation,
    notice: &Notice,
    next: u64,
) -> Result<bool, AllocError>
    ensures { IfOk result (λ uncounted. uncounted ≡ is_uncounted side playbacks.now expectation.now notice.now next) }
{
    match side {
        Side::Fewer => Ok(true),
        Side::More => Ok(!have_repeat_at(alloc, playbacks, expectation, notice, next)?),
    }
}

/// Whether a playback has a repeat that fits, from a begin at this time, for the group and the integration of a notice.
fn have_repeat_at(
    alloc: Global,
    playbacks: &[Playback<'_>],
    expectation: &Expectation,
    notice: &Notice,
    at: u64,
) -> Result<bool, AllocError>
    ensures { IfOk result (λ has. has ≡ list_any (has_repeat_at expectation.now notice.now at) playbacks.now) }
{
    for playback in playbacks {
        if has_repeat_at(alloc, playback, expectation, notice, at)? {
            return Ok(true);
        }
    }
    Ok(false)
}

fn has_repeat_at(
    alloc: Global,
    playback: &Playback,
    expectation: &Expectation,
    notice: &Notice,
    at: u64,
) -> Result<bool, AllocError>
    ensures { IfOk result (λ has. has ≡ has_repeat_at expectation.now notice.now at playback.now) }
{
    let events = playback.events();
    for event in events {
        if ends_repeat_at(alloc, playback, expectation, notice, at, event)? {
            return Ok(true);
        }
    }
    Ok(false)
}

/// Whether the sending of such a repeat ended by this.
fn ends_repeat_at(
    alloc: Global,
    playback: &Playback,
    expectation: &Expectation,
    notice: &Notice,
    at: u64,
    event: &Event,
) -> Result<bool, AllocError>
    ensures { IfOk result (λ ends. ends ≡ ends_repeat_at expectation.now notice.now at playback.now event.now) }
{
    match sent_of(playback, event) {
        None => Ok(false),
        Some(sent) => is_repeat_at(alloc, playback, expectation, notice, at, &sent),
    }
}

/// Whether a notice is such a repeat.
fn is_repeat_at(
    alloc: Global,
    playback: &Playback,
    expectation: &Expectation,
    notice: &Notice,
    at: u64,
    sent: &Sent,
) -> Result<bool, AllocError>
    ensures { IfOk result (λ repeats. repeats ≡ is_repeat_at expectation.now notice.now at playback.now sent.now) }
{
    let own = sent.notice;
    Ok(
        sent.begin.preview.time() == at
            && own.group == notice.group
            && own.integration == notice.integration
            && is_wanted(alloc, Side::Fewer, playback, expectation, sent)?,
    )
}

/// The two flushes at which Alertmanager sends the repeat that a notice is, or that follows it.
fn flushes_of(side: Side, config: &Config, sent: &Sent) -> Flushes
    ensures { result ≡ flushes_of side config.now sent.now }
{
    let notice = sent.notice;
    let interval = config.route_of(&notice.group).group_interval;
    match side {
        Side::Fewer => {
            let next = sent.begin.preview.time();
            Flushes {
                first: next.saturating_sub(interval),
                next,
            }
        }
        Side::More => flushes_from(interval, edge_after(config, sent)),
    }
}

/// A flush, and the next one of its group.
fn flushes_from(interval: u64, first: u64) -> Flushes
    ensures { result ≡ flushes_from interval first }
{
    Flushes {
        first,
        next: first.saturating_add(interval).min(MAX_TIME),
    }
}

/// When the entry of a notice is exactly as old as `repeat_interval`.
fn edge_after(config: &Config, sent: &Sent) -> u64
    ensures { result ≡ edge_after config.now sent.now }
{
    let notice = sent.notice;
    let interval = config.route_of(&notice.group).repeat_interval;
    sent.report.ended.saturating_add(interval).min(MAX_TIME)
}

/// Whether a repeat is outside of the span at the first of its flushes, where fewer notices may fit, or is in it, where more may.
fn leaves_or_enters(side: Side, expectation: &Expectation, first: u64) -> bool
    ensures { result ≡ leaves_or_enters side expectation.now first }
{
    match side {
        Side::Fewer => !is_in_span(expectation, first),
        Side::More => is_in_span(expectation, first),
    }
}

fn is_in_span(expectation: &Expectation, at: u64) -> bool
    ensures { result ≡ is_in_span expectation.now at }
{
    expectation.from <= at && at <= expectation.to
}

/// Whether a notice is a repeat that fits, or its repeat would.
fn is_wanted(
    alloc: Global,
    side: Side,
    playback: &Playback,
    expectation: &Expectation,
    sent: &Sent,
) -> Result<bool, AllocError>
    ensures { IfOk result (λ wanted. wanted ≡ is_wanted side playback.now expectation.now sent.now) }
{
    match side {
        Side::Fewer => Ok(
            is_sent_for(playback, SentReason::Repeat, sent)
                && fits(alloc, playback, expectation, sent)?,
        ),
        Side::More => Ok(
            sent.is_delivered()
                && is_for_receiver(playback.config(), expectation, sent)
                && is_for_integration(playback.config(), expectation, sent)
                && repeats_as_wanted(alloc, &expectation.content, sent.notice)?,
        ),
    }
}

/// Whether the repeat of a notice has what is wanted: the firing alerts of that notice, and none that is resolved.
fn repeats_as_wanted(alloc: Global, wanted: &Content, notice: &Notice) -> Result<bool, AllocError>
    ensures { IfOk result (λ holds. holds ≡ repeats_as_wanted wanted.now notice.now) }
{
    let firing = notice.firing.as_slice();
    Ok(
        is_repeat_wanted(wanted.reason)
            && are_as_wanted(wanted.resolved.as_ref(), &[])
            && has_as_wanted(alloc, wanted.has_resolved.as_ref(), &[])?
            && are_as_wanted(wanted.firing.as_ref(), firing)
            && has_as_wanted(alloc, wanted.has.as_ref(), firing)?,
    )
}

fn is_repeat_wanted(reason: Option<SentReason>) -> bool
    ensures { result ≡ is_repeat_wanted reason }
{
    match reason {
        None => true,
        Some(reason) => reason.words() == "repeat",
    }
}

/// Whether a playback has a begin on the edge at this time, for the group and the integration of a notice.
fn have_edge_at(playbacks: &[Playback<'_>], notice: &Notice, at: u64) -> bool
    ensures { result ≡ list_any (has_edge_at notice.now at) playbacks.now }
{
    playbacks
        .iter()
        .any(|playback| has_edge_at(playback, notice, at))
}

fn has_edge_at(playback: &Playback, notice: &Notice, at: u64) -> bool
    ensures { result ≡ has_edge_at notice.now at playback.now }
{
    let begins = playback.begins();
    begins.iter().any(|begin| is_edge_at(&notice.group, notice.integration as usize, at, begin))
}

/// Whether a begin is of this group, at this time, and on the edge for an integration.
fn is_edge_at(group: &GroupName, integration: usize, at: u64, begin: &PreviewedBegin) -> bool
    ensures { result ≡ is_edge_at group.now integration at begin.now }
{
    begin.preview.time() == at
        && begin.preview.group() == group
        && is_edge(begin.preview.reasons(), integration, at)
}

/// Whether a begin at this time is on the edge for an integration.
fn is_edge(reasons: &[Reason], integration: usize, at: u64) -> bool
    ensures { result ≡ option_map_or (is_on_edge at) (slice_get reasons.now integration) false }
{
    match reasons.get(integration) {
        None => false,
        Some(reason) => is_on_edge(at, reason),
    }
}

/// Whether 1 ms later a notice would be repeated.
fn is_on_edge(at: u64, reason: &Reason) -> bool
    ensures { result ≡ is_on_edge at reason.now }
{
    match reason {
        Reason::NotYet { from } => at < *from && *from - at == 1,
        _ => false,
    }
}
