//! Classes of Unicode, as `\pL` and `\p{Greek}`.
ghost use Rattle.std.specs.Prelude.{◌≤◌, length};

use crate::fault::{FaultKind, Wrong};
use crate::names::is_known;
use crate::set::Set;
use crate::text::{after, before, char_at, find, is_at, spells};

/// A class of Unicode, and how many characters of the pattern write it.
#[derive(Clone, Copy)]
pub(crate) struct Property {
    pub(crate) kind: PropertyKind,
    pub(crate) length: usize,
}

/// What a class of Unicode is translated to.
#[derive(Clone, Copy)]
pub(crate) enum PropertyKind {
    Set(Set),
    /// The class whose name is between these indices.
    Named {
        negated: bool,
        from: usize,
        to: usize,
    },
}

/// How a class of Unicode begins.
pub(crate) fn start_text(is_negated: bool) -> &'static str
    ensures { length result.now ≤ 2 }
{
    if is_negated { "\\P" } else { "\\p" }
}

/// Reads from the backslash before `p` or `P` on.
pub(crate) fn read_property(text: &[char]) -> Result<Property, Wrong> {
    let Some((from, to, length)) = name_bounds(text) else {
        return Err(Wrong::of_first(FaultKind::InvalidRange, text.len()));
    };
    let written = is_at(text, 1, 'P');
    let flipped = is_at(text, from, '^') && from < to;
    let from = if flipped {
        from.saturating_add(1)
    } else {
        from
    };
    let name = after(before(text, to), from);
    if !is_known(name) {
        return Err(Wrong::of_first(FaultKind::InvalidRange, length));
    }
    let kind = kind_of(name, written != flipped, from, to);
    Ok(Property { kind, length })
}

/// Where the name begins and ends, and how many characters the class has.
fn name_bounds(text: &[char]) -> Option<(usize, usize, usize)> {
    if char_at(text, 2).is_none() {
        return Some((2, 2, 2));
    }
    if !is_at(text, 2, '{') {
        return Some((2, 3, 3));
    }
    let count = find(after(text, 3), '}')?;
    let to = count.saturating_add(3);
    Some((3, to, to.saturating_add(1)))
}

fn kind_of(name: &[char], negated: bool, from: usize, to: usize) -> PropertyKind {
    if spells(name, "C") {
        return PropertyKind::Set(if negated { Set::NotOther } else { Set::Other });
    }
    if spells(name, "Cs") {
        return PropertyKind::Set(if negated {
            Set::NotSurrogate
        } else {
            Set::Surrogate
        });
    }
    PropertyKind::Named { negated, from, to }
}
