//! Lists of spans that are apart: adding a span, the union of two lists, and the time outside one.
ghost use Rattle.std.specs.Prelude.{◌≡◌, ◌≤◌, ℕ, ◌+◌, [], ◌∷◌, ◌++◌, ◌&&◌, ◌||◌, not};
ghost use Rattle.std.specs.Prelude.{nat_lt, length, IfErr, IfOk, IsTrue, OnOk, IsNone, IfSome, IfNone, vec_len};
ghost use Rattle.am_alerts.specs.Spans.{are_apart, holds, is_muted};
ghost use Rattle.am_hours.specs.Merging.{IsNext, IsRefusal, begin_by};

use crate::fault::HoursFault;
use am_alerts::limits::MAX_SPANS;
use am_alerts::spans::Span;
use std::alloc::Global;

/// Returns the spans that hold the times that `first` or `second` holds.
///
/// # Errors
/// `TooMany`: there would be more than 8,192 spans.
pub fn union(alloc: Global, first: &[Span], second: &[Span]) -> Result<Vec<Span>, HoursFault>
    requires first { IsTrue (are_apart first.now) }
    requires second { IsTrue (are_apart second.now) }
    ensures held { IfOk result (λ spans. (t : ℕ) →
        is_muted spans.items t ≡ (is_muted first.now t || is_muted second.now t)) }
    ensures apart { IfOk result (λ spans. IsTrue (are_apart spans.items)) }
    ensures few { IfOk result (λ spans. vec_len spans ≤ MAX_SPANS) }
    ensures count { IfOk result (λ spans. vec_len spans ≤ length first.now + length second.now) }
    ensures refused { IfErr result (IsRefusal (length first.now + length second.now)) }
{
    let mut joined = Vec::new(alloc);
    let mut one = first;
    let mut other = second;
    while let Some(next) = next_of(one, other) {
        push_span(&mut joined, next.span)?;
        one = next.first;
        other = next.second;
    }
    Ok(joined)
}

/// Returns the spans before `end` that hold the times that no span of the list holds.
///
/// # Errors
/// `TooMany`: there would be more than 8,192 spans.
pub fn outside(alloc: Global, spans: &[Span], end: u64) -> Result<Vec<Span>, HoursFault>
    requires { IsTrue (are_apart spans.now) }
    ensures held { IfOk result (λ gaps. (t : ℕ) →
        is_muted gaps.items t ≡ (nat_lt t end && not (is_muted spans.now t))) }
    ensures apart { IfOk result (λ gaps. IsTrue (are_apart gaps.items)) }
    ensures few { IfOk result (λ gaps. vec_len gaps ≤ MAX_SPANS) }
    ensures count { IfOk result (λ gaps. vec_len gaps ≤ length spans.now + 1) }
    ensures refused { IfErr result (IsRefusal (length spans.now + 1)) }
{
    let mut gaps = Vec::new(alloc);
    let mut at = 0u64;
    let mut rest = spans;
    while let [span, behind @ ..] = rest {
        let to = span.from.min(end);
        push_span(&mut gaps, Span { from: at, to })?;
        at = span.to;
        rest = behind;
    }
    push_span(&mut gaps, Span { from: at, to: end })?;
    Ok(gaps)
}

/// Adds a span to a list, and joins it to the spans that it touches.
///
/// # Errors
/// `TooMany`: there would be more than 8,192 spans. The list is then any.
pub(crate) fn add_span(alloc: Global, spans: &mut Vec<Span>, span: Span) -> Result<(), HoursFault>
    requires apart { IsTrue (are_apart spans.old.items) }
    requires few { vec_len spans.old ≤ MAX_SPANS }
    ensures held { OnOk result ((t : ℕ) →
        is_muted spans.new.items t ≡ (is_muted spans.old.items t || holds span t)) }
    ensures apart { OnOk result (IsTrue (are_apart spans.new.items)) }
    ensures few { OnOk result (vec_len spans.new ≤ MAX_SPANS) }
    ensures count { OnOk result (vec_len spans.new ≤ vec_len spans.old + 1) }
    ensures refused { IfErr result (IsRefusal (vec_len spans.old + 1)) }
{
    if all_begin_by(spans, span.from) {
        return push_span(spans, span);
    }
    if span.from < span.to {
        let joined = union(alloc, spans, &[span])?;
        *spans = joined;
    }
    Ok(())
}

/// A span of two lists that begins no later than the others, and what is left of the two.
#[derive(Drop)]
struct Next<'a> {
    span: Span,
    first: &'a [Span],
    second: &'a [Span],
}

fn next_of<'a>(first: &'a [Span], second: &'a [Span]) -> Option<Next<'a>>
    ensures some { IfSome result (λ n.
        IsNext first.now second.now n.span n.first.now n.second.now) }
    ensures none { IfNone result ((length first.now ≡ 0) × (length second.now ≡ 0)) }
{
    match (first, second) {
        ([], []) => None,
        ([span, first @ ..], []) => Some(Next {
            span: *span,
            first,
            second,
        }),
        ([], [span, second @ ..]) => Some(Next {
            span: *span,
            first,
            second,
        }),
        ([one, behind_one @ ..], [other, behind_other @ ..]) => {
            if one.from <= other.from {
                Some(Next {
                    span: *one,
                    first: behind_one,
                    second,
                })
            } else {
                Some(Next {
                    span: *other,
                    first,
                    second: behind_other,
                })
            }
        }
    }
}

/// Returns whether each span begins at a time at the latest, where they are apart.
fn all_begin_by(spans: &[Span], t: u64) -> bool
    requires { IsTrue (are_apart spans.now) }
    ensures { result ≡ begin_by t spans.now }
{
    match spans {
        [] => true,
        [.., last] => last.from <= t,
    }
}

/// Adds a span that begins no earlier than the others.
fn push_span(spans: &mut Vec<Span>, span: Span) -> Result<(), HoursFault>
    requires apart { IsTrue (are_apart spans.old.items) }
    requires begins { IsTrue (begin_by span.from spans.old.items) }
    requires few { vec_len spans.old ≤ MAX_SPANS }
    ensures held { OnOk result ((t : ℕ) →
        is_muted spans.new.items t ≡ (is_muted spans.old.items t || holds span t)) }
    ensures apart { OnOk result (IsTrue (are_apart spans.new.items)) }
    ensures begins { OnOk result (IsTrue (begin_by span.from spans.new.items)) }
    ensures few { OnOk result (vec_len spans.new ≤ MAX_SPANS) }
    ensures count { OnOk result (vec_len spans.new ≤ vec_len spans.old + 1) }
    ensures refused { IfErr result (IsRefusal (vec_len spans.old + 1)) }
{
    if span.to <= span.from {
        return Ok(());
    }
    match spans.pop() {
        None => spans.push(span)?,
        Some(last) => {
            if span.from <= last.to {
                let to = last.to.max(span.to);
                spans.push(Span {
                    from: last.from,
                    to,
                })?;
            } else {
                spans.push(last)?;
                push_within(spans, span)?;
            }
        }
    }
    Ok(())
}

/// Adds a span at the end of a list that may take one more.
fn push_within(spans: &mut Vec<Span>, span: Span) -> Result<(), HoursFault>
    ensures items { OnOk result (spans.new.items ≡ spans.old.items ++ span ∷ []) }
    ensures few { OnOk result (vec_len spans.new ≤ MAX_SPANS) }
    ensures refused { IfErr result (IsRefusal (vec_len spans.old + 1)) }
{
    if spans.len() >= MAX_SPANS {
        return Err(HoursFault::TooMany);
    }
    spans.push(span)?;
    Ok(())
}
