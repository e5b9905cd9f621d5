//! The spans of time in which a route is muted, from intervals on clocks.
//!
//! `expand_all` finds the spans of one name of `time_intervals`, `muted` those of a route that
//! names some.
ghost use Rattle.std.specs.Prelude.{◌≡◌, ◌≤◌, ◌+◌, ℕ, IfErr, IfOk, IsTrue, length, map, vec_len};
ghost use Rattle.std.specs.List.{list_any, sum_by};
ghost use Rattle.am_alerts.specs.Spans.{are_apart, is_muted};
ghost use Rattle.am_hours.specs.Merging.{IsRefusal};
ghost use Rattle.am_hours.specs.Muting.{IsNoSpans, any_muted, is_muted_by_time};
ghost use Rattle.am_hours.specs.Pieces.{contains_at, most_spans};

use crate::clock::Clock;
use crate::expansion::expand;
use crate::fault::HoursFault;
use crate::interval::Interval;
use crate::joining::{outside, union};
use am_alerts::limits::MAX_SPANS;
use am_alerts::spans::{Span, Spans};
use std::alloc::Global;

/// An interval on the clock of its zone.
#[derive(Clone, Copy)]
pub struct Timed<'a> {
    pub interval: &'a Interval,
    pub clock: &'a Clock,
}

/// Returns the spans in which one of these intervals holds: those of a name of `time_intervals`.
///
/// # Errors
/// - `TooMany`: there are more than 8,192 spans.
/// - `TooLong`: a span ends behind 10^15, which no clock of `Clock::new` leads to.
/// - `NoMemory`.
pub fn expand_all(alloc: Global, intervals: &[Timed<'_>]) -> Result<Spans, HoursFault>
    ensures held { IfOk result (λ spans. (t : ℕ) → is_muted spans t
        ≡ list_any (λ x. contains_at x.interval.now x.clock.now.pieces t) intervals.now) }
    ensures few { IfOk result (λ spans. length spans ≤ MAX_SPANS) }
    ensures refused { IfErr result (IsNoSpans
        (sum_by (λ x. most_spans x.interval.now x.clock.now.pieces) intervals.now)
        (λ t. list_any (λ x. contains_at x.interval.now x.clock.now.pieces t) intervals.now)) }
{
    let mut joined = Vec::new(alloc);
    for timed in intervals {
        let spans = expand(alloc, timed.interval, timed.clock)?;
        joined = union(alloc, &joined, &spans)?;
    }
    spans_of(alloc, joined)
}

/// Returns the spans in which a route is muted, from those of the names that mute it and of the
/// names in which it is active (`notify.TimeMuteStage`, `notify.TimeActiveStage`).
///
/// A route without active names is always active. Where it has some, it is muted before `horizon`
/// (in milliseconds from the start, as the spans) at each time that none of them holds.
///
/// # Errors
/// - `TooMany`: there are more than 8,192 spans, or would be before all are joined.
/// - `TooLong`: a span ends behind 10^15, as only a horizon behind it leads to.
/// - `NoMemory`.
pub fn muted(
    alloc: Global,
    horizon: u64,
    mute: &[&Spans],
    active: &[&Spans],
) -> Result<Spans, HoursFault>
    ensures held { IfOk result (λ spans. (t : ℕ) → is_muted spans t
        ≡ is_muted_by_time horizon (map (λ s. s.now) mute.now) (map (λ s. s.now) active.now) t) }
    ensures few { IfOk result (λ spans. length spans ≤ MAX_SPANS) }
    ensures refused { IfErr result (IsNoSpans
        (sum_by (λ s. length s.now) mute.now + sum_by (λ s. length s.now) active.now + 1)
        (λ t. is_muted_by_time horizon (map (λ s. s.now) mute.now) (map (λ s. s.now) active.now) t)) }
{
    let all_muted = union_of(alloc, mute)?;
    if active.is_empty() {
        return spans_of(alloc, all_muted);
    }
    let open = union_of(alloc, active)?;
    let idle = outside(alloc, &open, horizon)?;
    let joined = union(alloc, &all_muted, &idle)?;
    spans_of(alloc, joined)
}

/// The spans that hold the times that one of these lists holds.
fn union_of(alloc: Global, lists: &[&Spans]) -> Result<Vec<Span>, HoursFault>
    ensures held { IfOk result (λ spans. (t : ℕ) →
        is_muted spans.items t ≡ any_muted (map (λ s. s.now) lists.now) t) }
    ensures apart { IfOk result (λ spans. IsTrue (are_apart spans.items)) }
    ensures few { IfOk result (λ spans. vec_len spans ≤ MAX_SPANS) }
    ensures count { IfOk result (λ spans. vec_len spans ≤ sum_by (λ s. length s.now) lists.now) }
    ensures refused { IfErr result (IsRefusal (sum_by (λ s. length s.now) lists.now)) }
{
    let mut joined = Vec::new(alloc);
    for list in lists {
        joined = union(alloc, &joined, list.as_slice())?;
    }
    Ok(joined)
}

/// A list that routes may share. It takes no memory where it is empty.
fn spans_of(alloc: Global, list: Vec<Span>) -> Result<Spans, HoursFault>
    requires apart { IsTrue (are_apart list.items) }
    requires few { vec_len list ≤ MAX_SPANS }
    ensures value { IfOk result (λ spans. spans ≡ list.items) }
    ensures refused { IfErr result (IsNoSpans (vec_len list) (λ t. is_muted list.items t)) }
{
    if list.is_empty() {
        return Ok(Spans::none());
    }
    match Spans::new(alloc, list) {
        Ok(spans) => Ok(spans),
        Err(fault) => Err(HoursFault::from(fault)),
    }
}
