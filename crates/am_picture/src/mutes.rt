//! Which parts of an alert's spans are muted.
use crate::fold::{Cause, Fold, Mute};
use crate::span::Span;
use std::alloc::{AllocError, Global};

/// Returns the spans in which flushes left out alerts of a fold, by the alert.
pub(crate) fn sorted_mutes(alloc: Global, fold: &Fold) -> Result<Vec<Mute>, AllocError> {
    let mut mutes = Vec::new(alloc);
    for mute in fold.mutes.as_slice() {
        mutes.push(*mute)?;
    }
    mutes.sort_by_key(|mute| mute.member)?;
    Ok(mutes)
}

/// Returns the spans of one alert, which come first, and the others.
pub(crate) fn mutes_of(mutes: &[Mute], member: usize) -> (&[Mute], &[Mute]) {
    for index in 0..mutes.len() {
        if mutes[index].member != member {
            return (&mutes[..index], &mutes[index..]);
        }
    }
    (mutes, &[])
}

/// Returns the parts of an alert's spans in which flushes left it out. Where it didn't fire any more, its part is the time
/// of the flush alone. Spans and mutes are in the order of their times, and what is open goes on to the end.
pub(crate) fn muted_parts(
    alloc: Global,
    spans: &[Span],
    mutes: &[Mute],
    end: u64,
) -> Result<Vec<Mute>, AllocError> {
    let mut parts = Vec::new(alloc);
    let mut first: usize = 0;
    for mute in mutes {
        first = first_after(spans, first, mute.from);
        add_parts(spans, first, *mute, end, &mut parts)?;
    }
    Ok(parts)
}

/// The first span from a position on that ends after a time; the count of the spans where none does.
fn first_after(spans: &[Span], from: usize, at: u64) -> usize {
    for position in from..spans.len() {
        match spans[position].to {
            Some(to) if to <= at => {}
            _ => return position,
        }
    }
    spans.len()
}

/// Adds the parts of the spans from a position on that are in a mute.
fn add_parts(
    spans: &[Span],
    first: usize,
    mute: Mute,
    end: u64,
    parts: &mut Vec<Mute>,
) -> Result<(), AllocError> {
    let last = mute.to.unwrap_or(end);
    let before = parts.len();
    for position in first..spans.len() {
        let span = spans[position];
        if span.from >= last {
            break;
        }
        let to = span.to.unwrap_or(end).min(last);
        parts.push(part_of(mute, span.from.max(mute.from), to))?;
    }
    if parts.len() == before {
        parts.push(part_of(mute, mute.from, mute.from))?;
    }
    Ok(())
}

/// Makes one part of those that follow each other for one cause, or where one silence takes over from another: up to the end
/// of the last. Each flush that isn't like the one before it begins parts anew.
pub(crate) fn joined_parts(alloc: Global, parts: &[Mute]) -> Result<Vec<Mute>, AllocError> {
    let mut joined: Vec<Mute> = Vec::new(alloc);
    for part in parts {
        if !extend_last(&mut joined, *part) {
            joined.push(*part)?;
        }
    }
    Ok(joined)
}

/// Lets the last part go on to the end of one that begins where it ends, if their cause is one, or both are of silences.
/// Returns whether it did.
fn extend_last(joined: &mut Vec<Mute>, part: Mute) -> bool {
    match joined.last_mut() {
        Some(last) if last.to == Some(part.from) && goes_on(last.cause, part.cause) => {
            last.to = part.to;
            last.cause = part.cause;
            true
        }
        _ => false,
    }
}

/// Whether a part of the next cause goes on with the part before it.
fn goes_on(cause: Cause, next: Cause) -> bool {
    cause == next || (is_silenced(cause) && is_silenced(next))
}

fn is_silenced(cause: Cause) -> bool {
    matches!(cause, Cause::Silenced { .. })
}

fn part_of(mute: Mute, from: u64, to: u64) -> Mute {
    Mute {
        member: mute.member,
        from,
        to: Some(to),
        cause: mute.cause,
    }
}
