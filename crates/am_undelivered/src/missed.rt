//! `Missed`: what an integration missed of a span of firing.
ghost use Rattle.std.specs.Prelude.{◌≡◌};
ghost use Rattle.am_undelivered.specs.Undelivered.{missed_of, same_missed};

use crate::fate::{Fate, is_seen, is_unflushed, same_fate};
use crate::recipient::Recipient;
use crate::span::Span;

/// What an integration missed of a span of firing.
#[derive(Clone, Copy)]
pub enum Missed {
    /// That the alert fires, since its flushes came to this.
    Page(Fate),
    /// That it was resolved.
    Clear(Fate),
}

/// Returns what an integration missed of a span, if it did; the span can be the last of its label set.
pub(crate) fn missed_of(is_last: bool, span: &Span, recipient: &Recipient) -> Option<Missed>
    ensures { result ≡ missed_of is_last span.now recipient.now }
{
    if !is_seen(recipient.page) {
        return Some(Missed::Page(recipient.page));
    }
    let clear = recipient.clear;
    if recipient.resolves
        && span.ends().is_some()
        && !is_seen(clear)
        && (is_last || !is_unflushed(clear))
    {
        Some(Missed::Clear(clear))
    } else {
        None
    }
}

/// Returns whether an integration missed the same.
pub(crate) fn same_missed(missed: Missed, other: Option<Missed>) -> bool
    ensures { result ≡ same_missed missed other }
{
    match (missed, other) {
        (Missed::Page(a), Some(Missed::Page(b))) => same_fate(a, b),
        (Missed::Clear(a), Some(Missed::Clear(b))) => same_fate(a, b),
        _ => false,
    }
}
