//! Spans of time in which a route is muted. `RouteSpec` has them, and the route at a position says
//! them.
//!
//! Several routes may share one list. A route without spans takes no memory for them.
ghost use Rattle.std.specs.Prelude.{◌≡◌, [], Err, IfErr, IfOk, IfSome, IsTrue, None, is_some};
ghost use Rattle.am_alerts.specs.Spans.{are_apart, begins_behind, end_in_time, holds, is_muted, muted_until, spans_fault};

use crate::limits::{MAX_SPANS, MAX_TIME};
use std::alloc::{AllocError, Global};
use std::marker::Model;
use std::sync::Arc;
use thiserror::Error;

/// A span of time, in milliseconds: from a time on, up to its end, which it leaves out.
#[derive(Clone, Copy, Debug, PartialEq, Eq)]
pub struct Span {
    pub from: u64,
    pub to: u64,
}

/// Why spans are none that a route may have. The first of these that holds is reported.
#[derive(Clone, Copy, Debug, PartialEq, Eq, Error)]
pub enum SpansFault {
    #[error("a span is empty, or doesn't begin behind the end of the one before")]
    BadOrder = 1,
    #[error("there are more than 8192 spans")]
    TooMany,
    #[error("a span ends behind 10^15 ms")]
    BadTime,
    #[error("out of memory")]
    NoMemory,
}

/// The spans in which a route is muted: in their order, with a gap between any two.
///
/// Contracts see them as their list.
#[derive(Debug, Drop)]
pub struct Spans {
    list: Option<Arc<Vec<Span>>>,
}

impl Model for Spans {
    ghost use Rattle.std.specs.Prelude.{List, [], IsTrue, Vec};
    ghost use Rattle.std.specs.Global.{Global};
    ghost use Rattle.std.specs.Option.{option_map_or};
    ghost use Rattle.std.specs.Arc.{arc_value};
    ghost use Rattle.am_alerts.specs.Spans.{are_apart};
    ghost use Rattle.am_alerts.specs.declared.spans.Span.{Span};

    ghost Value = { List Span };

    ghost view = { λ s. option_map_or (λ list. let v : Vec Span Global = arc_value list in v.items) s.list [] };

    ghost invariant = { λ s. IsTrue (are_apart (option_map_or (λ list. let v : Vec Span Global = arc_value list in v.items) s.list [])) };
}

impl Span {
    /// Whether the span holds a time.
    pub fn holds(&self, t: u64) -> bool
        ensures { result ≡ holds self.now t }
    {
        self.from <= t && t < self.to
    }
}

impl Spans {
    /// No spans: a route that is never muted. Takes no memory.
    pub fn none() -> Spans
        ensures { result ≡ [] }
    {
        Spans { list: None }
    }

    /// These spans. Refused in this order:
    ///
    /// - `BadOrder`: a span is empty, or doesn't begin behind the end of the one before, so
    ///   they overlap or touch.
    /// - `TooMany`: there are more than 8,192.
    /// - `BadTime`: one ends behind 10^15 ms.
    /// - `NoMemory`: out of memory.
    pub fn new(alloc: Global, list: Vec<Span>) -> Result<Spans, SpansFault>
        ensures value { IfOk result (λ spans. (spans ≡ list.items) × (spans_fault list.items ≡ None)) }
        ensures refused { IfSome (spans_fault list.items) (λ fault. result ≡ Err fault) }
        ensures others { spans_fault list.items ≡ None → IfErr result (λ fault. fault ≡ SpansFault.NoMemory) }
    {
        match fault_of(list.as_slice()) {
            Some(fault) => Err(fault),
            None => match Arc::new(alloc, list) {
                Ok(list) => Ok(Spans { list: Some(list) }),
                Err(_) => Err(SpansFault::NoMemory),
            },
        }
    }

    /// The spans, in their order.
    pub fn as_slice(&self) -> &[Span]
        ensures all { result.now ≡ self.now }
        ensures apart { IsTrue (are_apart self.now) }
    {
        match &self.list {
            None => &[],
            Some(list) => list.as_slice(),
        }
    }

    /// The same spans for one more route. Takes no memory, and is refused only where the count of
    /// owners is full.
    pub fn share(&self) -> Result<Spans, AllocError>
        ensures { IfOk result (λ spans. spans ≡ self.now) }
    {
        match &self.list {
            None => Ok(Spans { list: None }),
            Some(list) => Ok(Spans {
                list: Some(Arc::try_clone(list)?),
            }),
        }
    }
}

/// Until when the span lasts that holds a time, if one does: the route is muted until then.
pub fn muted_until(spans: &[Span], t: u64) -> Option<u64>
    ensures until { result ≡ muted_until spans.now t }
    ensures muted { is_some result ≡ is_muted spans.now t }
{
    let mut rest = spans;
    while let [span, behind @ ..] = rest {
        if span.holds(t) {
            return Some(span.to);
        }
        rest = behind;
    }
    None
}

fn fault_of(spans: &[Span]) -> Option<SpansFault>
    ensures { result ≡ spans_fault spans.now }
{
    if !are_apart(spans) {
        return Some(SpansFault::BadOrder);
    }
    if spans.len() > MAX_SPANS {
        return Some(SpansFault::TooMany);
    }
    if !end_in_time(spans) {
        return Some(SpansFault::BadTime);
    }
    None
}

fn end_in_time(spans: &[Span]) -> bool
    ensures { result ≡ end_in_time spans.now }
{
    for span in spans {
        if span.to > MAX_TIME {
            return false;
        }
    }
    true
}

fn are_apart(spans: &[Span]) -> bool
    ensures { result ≡ are_apart spans.now }
{
    let mut rest = spans;
    while let [span, behind @ ..] = rest {
        if span.from >= span.to || !begins_behind(behind, span.to) {
            return false;
        }
        rest = behind;
    }
    true
}

/// Whether the first of these spans, if there is one, begins behind a time.
fn begins_behind(spans: &[Span], end: u64) -> bool
    ensures { result ≡ begins_behind end spans.now }
{
    match spans {
        [] => true,
        [first, ..] => end < first.from,
    }
}
