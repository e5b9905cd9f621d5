//! The overview of the whole time: how many alerts fire, and how many notices there are, piece by piece.
use crate::content::{push_count, push_with};
use crate::counts::{Counts, PIECES};
use crate::pen::{Pen, WHOLE};
use am_terms::clock::TimeFormat;
use std::alloc::AllocError;

/// The counts of a piece, and how high their bars are, in hundredths of the highest.
#[derive(Clone, Copy)]
struct Piece {
    notices: u64,
    failures: u64,
    firing: u64,
}

/// Adds the overview: closed it is a picture, open it is a list too.
pub(crate) fn push_overview<C: TimeFormat>(
    pen: &Pen<'_, C>,
    counts: &Counts,
    out: &mut String,
) -> Result<(), AllocError> {
    let most = most_of(counts);
    out.push_str("<details class=\"o\"><summary>")?;
    push_most(most, out)?;
    out.push_str("</summary>\n<ol>\n")?;
    for index in 0..PIECES {
        push_piece(pen, index, piece_at(counts, index as usize), most, out)?;
    }
    out.push_str("</ol></details>\n")
}

/// Adds what the highest bars are.
fn push_most(most: Piece, out: &mut String) -> Result<(), AllocError> {
    out.push_str("up to <b class=\"on\">")?;
    push_count(most.notices as usize, "notification", out)?;
    if most.failures > 0 {
        out.push_str("</b>, <b>")?;
        push_count(most.failures as usize, "failure", out)?;
    }
    out.push_str("</b> and <b class=\"oa\">")?;
    push_count(most.firing as usize, "firing alert", out)?;
    out.push_str("</b> per bar")
}

/// Adds a piece of the whole time.
fn push_piece<C: TimeFormat>(
    pen: &Pen<'_, C>,
    index: u64,
    piece: Piece,
    most: Piece,
    out: &mut String,
) -> Result<(), AllocError> {
    let highest = most.notices.max(most.failures);
    push_with(
        "<li style=\"--x:",
        index.saturating_mul(WHOLE / PIECES),
        out,
    )?;
    push_with(";--n:", hundredths(piece.notices, highest), out)?;
    push_with(";--f:", hundredths(piece.failures, highest), out)?;
    push_with(";--a:", hundredths(piece.firing, most.firing), out)?;
    out.push_str("\">")?;
    let length = pen.axis.end() / PIECES;
    let from = index.saturating_mul(length);
    pen.push_span(from, from.saturating_add(length), out)?;
    out.push_str(": ")?;
    push_counts(piece, out)?;
    out.push_str("<b></b></li>\n")
}

fn push_counts(piece: Piece, out: &mut String) -> Result<(), AllocError> {
    push_count(piece.notices as usize, "notification", out)?;
    if piece.failures > 0 {
        out.push_str(", ")?;
        push_count(piece.failures as usize, "failure", out)?;
    }
    out.push_str(", ")?;
    push_count(piece.firing as usize, "firing alert", out)
}

/// How much a count is of another, in hundredths: 0 alone where it is none.
fn hundredths(count: u64, most: u64) -> u64 {
    if count == 0 || most == 0 {
        return 0;
    }
    (count.saturating_mul(100) / most).max(3)
}

/// The counts of a piece.
fn piece_at(counts: &Counts, index: usize) -> Piece {
    Piece {
        notices: at(counts.notices.as_slice(), index),
        failures: at(counts.failures.as_slice(), index),
        firing: at(counts.firing.as_slice(), index),
    }
}

fn at(counts: &[u64], index: usize) -> u64 {
    counts.get(index).copied().unwrap_or(0)
}

/// The highest of the counts.
fn most_of(counts: &Counts) -> Piece {
    Piece {
        notices: most(counts.notices.as_slice()),
        failures: most(counts.failures.as_slice()),
        firing: most(counts.firing.as_slice()),
    }
}

fn most(counts: &[u64]) -> u64 {
    counts.iter().copied().max().unwrap_or(0)
}
