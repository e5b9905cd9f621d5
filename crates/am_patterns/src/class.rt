//! What is in brackets.
ghost use Rattle.std.specs.Prelude.{◌≤◌, length};

use crate::escape::{Code, read_escape};
use crate::fault::{FaultKind, Wrong};
use crate::property::{Property, read_property};
use crate::set::Set;
use crate::text::{after, before, char_at, find_pair, is_at, spells};

/// The names of POSIX's classes.
const CLASSES: [&str; 14] = [
    "alnum", "alpha", "ascii", "blank", "cntrl", "digit", "graph", "lower", "print", "punct",
    "space", "upper", "word", "xdigit",
];

/// A part of what is in brackets, and how many characters of the pattern write it.
#[derive(Clone, Copy)]
pub(crate) enum Member {
    /// A class of POSIX, as `[:alpha:]`.
    Posix(usize),
    Property(Property),
    Set(Set),
    Range { low: u32, high: u32, length: usize },
}

/// How brackets begin.
pub(crate) fn start_text(is_negated: bool) -> &'static str
    ensures { length result.now ≤ 2 }
{
    if is_negated { "[^" } else { "[" }
}

/// Reads a part of what is in brackets. The second is false where no `:]` follows.
pub(crate) fn read_member(text: &[char], may_be_posix: bool) -> Result<Member, Wrong> {
    if may_be_posix && let Some(length) = posix_length(text) {
        if !is_posix(before(text, length)) {
            return Err(Wrong::of_first(FaultKind::InvalidRange, length));
        }
        return Ok(Member::Posix(length));
    }
    if is_at(text, 0, '\\') {
        if is_at(text, 1, 'p') || is_at(text, 1, 'P') {
            return Ok(Member::Property(read_property(text)?));
        }
        if let Some(set) = char_at(text, 1).and_then(Set::of_letter) {
            return Ok(Member::Set(set));
        }
    }
    read_range(text)
}

/// How many characters there are up to the next `:]`, if a class of POSIX can begin here.
fn posix_length(text: &[char]) -> Option<usize> {
    if !is_at(text, 0, '[') || !is_at(text, 1, ':') {
        return None;
    }
    let count = find_pair(after(text, 2), ':', ']')?;
    Some(count.saturating_add(4))
}

/// Whether a text is a class of POSIX.
fn is_posix(text: &[char]) -> bool {
    let start = if is_at(text, 2, '^') { 3 } else { 2 };
    let name = after(before(text, text.len().saturating_sub(2)), start);
    CLASSES.iter().any(|class| spells(name, class))
}

/// Reads a character, or two with a hyphen between them.
fn read_range(text: &[char]) -> Result<Member, Wrong> {
    let low = read_char(text)?;
    let rest = after(text, low.length);
    if !is_at(rest, 0, '-') || rest.len() < 2 || is_at(rest, 1, ']') {
        return Ok(Member::Range {
            low: low.code,
            high: low.code,
            length: low.length,
        });
    }
    let start = low.length.saturating_add(1);
    let high = match read_char(after(rest, 1)) {
        Ok(high) => high,
        Err(wrong) => return Err(wrong.behind(start)),
    };
    let length = start.saturating_add(high.length);
    if high.code < low.code {
        return Err(Wrong::of_first(FaultKind::InvalidRange, length));
    }
    Ok(Member::Range {
        low: low.code,
        high: high.code,
        length,
    })
}

/// Reads a character, which a backslash can write.
fn read_char(text: &[char]) -> Result<Code, Wrong> {
    match char_at(text, 0) {
        Some(c) if c != '\\' => Ok(Code {
            code: c as u32,
            length: 1,
        }),
        _ => read_escape(text),
    }
}
