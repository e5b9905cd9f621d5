//! The spans of time in which an interval holds on a clock.
ghost use Rattle.std.specs.Prelude.{◌≡◌, ◌≤◌, ◌<◌, ℕ, ◌+◌, ◌*◌, ◌&&◌, ◌||◌};
ghost use Rattle.std.specs.Prelude.{◌==◌, IfErr, IfOk, IsTrue, OnOk, [], length, option_map, vec_len};
ghost use Rattle.std.specs.List.{list_all, list_any, sum_by};
ghost use Rattle.am_hours.specs.Intervals.{any_of, contains, is_during};
ghost use Rattle.am_hours.specs.Merging.{IsRefusal};
ghost use Rattle.am_hours.specs.Pieces.{contains_at, day_at, days_in, is_in, is_sound, minute_at, most_spans, ranges_in, shown};
ghost use Rattle.am_alerts.specs.Spans.{are_apart, is_muted};

use crate::clock::Clock;
use crate::fault::HoursFault;
use crate::interval::{Interval, TimeRange};
use crate::joining::add_span;
use crate::piece::Piece;
use am_alerts::limits::MAX_SPANS;
use am_alerts::spans::Span;
use std::alloc::Global;

/// Returns the spans of the times at which an interval holds on a clock.
///
/// # Errors
/// `TooMany`: there are more than 8,192 spans.
pub fn expand(alloc: Global, interval: &Interval, clock: &Clock) -> Result<Vec<Span>, HoursFault>
    ensures held { IfOk result (λ spans. (t : ℕ) →
        is_muted spans.items t ≡ contains_at interval.now clock.now.pieces t) }
    ensures apart { IfOk result (λ spans. IsTrue (are_apart spans.items)) }
    ensures few { IfOk result (λ spans. vec_len spans ≤ MAX_SPANS) }
    ensures count { IfOk result (λ spans. vec_len spans ≤ most_spans interval.now clock.now.pieces) }
    ensures refused { IfErr result (IsRefusal (most_spans interval.now clock.now.pieces)) }
{
    let minutes = minutes_of(alloc, interval.times())?;
    spans_on(alloc, interval, &minutes, clock.pieces())
}

fn spans_on(
    alloc: Global,
    interval: &Interval,
    minutes: &[Span],
    pieces: &[Piece],
) -> Result<Vec<Span>, HoursFault>
    requires sound { IsTrue (list_all is_sound pieces.now) }
    requires minutes { (m : ℕ) → m < 1440
        → is_muted minutes.now m ≡ any_of (is_during m) interval.now.times }
    ensures held { IfOk result (λ spans. (t : ℕ) →
        is_muted spans.items t ≡ contains_at interval.now pieces.now t) }
    ensures apart { IfOk result (λ spans. IsTrue (are_apart spans.items)) }
    ensures few { IfOk result (λ spans. vec_len spans ≤ MAX_SPANS) }
    ensures count { IfOk result (λ spans. vec_len spans ≤ sum_by (λ p. days_in p * length minutes.now) pieces.now) }
    ensures refused { IfErr result (IsRefusal (sum_by (λ p. days_in p * length minutes.now) pieces.now)) }
{
    let mut spans = Vec::new(alloc);
    for piece in pieces {
        add_piece(alloc, &mut spans, interval, minutes, piece)?;
    }
    Ok(spans)
}

/// Adds the spans in which an interval holds on a piece.
fn add_piece(
    alloc: Global,
    spans: &mut Vec<Span>,
    interval: &Interval,
    minutes: &[Span],
    piece: &Piece,
) -> Result<(), HoursFault>
    requires apart { IsTrue (are_apart spans.old.items) }
    requires few { vec_len spans.old ≤ MAX_SPANS }
    requires sound { IsTrue (is_sound piece.now) }
    requires minutes { (m : ℕ) → m < 1440
        → is_muted minutes.now m ≡ any_of (is_during m) interval.now.times }
    ensures held { OnOk result ((t : ℕ) → is_muted spans.new.items t
        ≡ (is_muted spans.old.items t || (is_in piece.now t && contains interval.now (shown piece.now t)))) }
    ensures apart { OnOk result (IsTrue (are_apart spans.new.items)) }
    ensures few { OnOk result (vec_len spans.new ≤ MAX_SPANS) }
    ensures count { OnOk result
        (vec_len spans.new ≤ vec_len spans.old + days_in piece.now * length minutes.now) }
    ensures refused { IfErr result (IsRefusal (vec_len spans.old + days_in piece.now * length minutes.now)) }
{
    for day in 0..piece.days() {
        if interval.is_on(&piece.shown_on(day)) {
            add_day(alloc, spans, minutes, piece, day)?;
        }
    }
    Ok(())
}

/// Adds the spans of some minutes on one day of a piece.
fn add_day(
    alloc: Global,
    spans: &mut Vec<Span>,
    minutes: &[Span],
    piece: &Piece,
    day: u64,
) -> Result<(), HoursFault>
    requires apart { IsTrue (are_apart spans.old.items) }
    requires few { vec_len spans.old ≤ MAX_SPANS }
    requires sound { IsTrue (is_sound piece.now) }
    requires day { day ≤ 20000000 }
    ensures held { OnOk result ((t : ℕ) → is_muted spans.new.items t
        ≡ (is_muted spans.old.items t || (is_in piece.now t
        && ((day_at piece.now t == day) && is_muted minutes.now (minute_at piece.now t))))) }
    ensures apart { OnOk result (IsTrue (are_apart spans.new.items)) }
    ensures few { OnOk result (vec_len spans.new ≤ MAX_SPANS) }
    ensures count { OnOk result (vec_len spans.new ≤ vec_len spans.old + length minutes.now) }
    ensures refused { IfErr result (IsRefusal (vec_len spans.old + length minutes.now)) }
{
    for span in minutes {
        add_span(alloc, spans, piece.span_on(day, *span))?;
    }
    Ok(())
}

/// The minutes of the day that ranges hold, as spans that are apart. Without a list, all minutes.
fn minutes_of(alloc: Global, times: Option<&[TimeRange]>) -> Result<Vec<Span>, HoursFault>
    ensures held { IfOk result (λ minutes. (m : ℕ) → m < 1440
        → is_muted minutes.items m ≡ any_of (is_during m) (option_map (λ times. times.now) times.entry)) }
    ensures count { IfOk result (λ minutes.
        vec_len minutes ≤ ranges_in (option_map (λ times. times.now) times.entry)) }
    ensures refused { IfErr result (IsRefusal (ranges_in (option_map (λ times. times.now) times.entry))) }
{
    let mut minutes = Vec::new(alloc);
    match times {
        None => add_span(alloc, &mut minutes, Span { from: 0, to: 1_440 })?,
        Some(times) => add_times(alloc, &mut minutes, times)?,
    }
    Ok(minutes)
}

fn add_times(alloc: Global, minutes: &mut Vec<Span>, times: &[TimeRange]) -> Result<(), HoursFault>
    requires { minutes.old.items ≡ [] }
    ensures held { OnOk result ((m : ℕ) → is_muted minutes.new.items m ≡ list_any (is_during m) times.now) }
    ensures count { OnOk result (vec_len minutes.new ≤ length times.now) }
    ensures refused { IfErr result (IsRefusal (length times.now)) }
{
    for time in times {
        let span = Span {
            from: time.from,
            to: time.to,
        };
        add_span(alloc, minutes, span)?;
    }
    Ok(())
}
