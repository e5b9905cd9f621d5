//! The start of a group.
use crate::fault::{FaultKind, Wrong};
use crate::flags::{FlagGroup, Flags, read_flags};
use crate::text::{after, before, char_at, find, is_at};

/// What a parenthesis begins.
#[derive(Clone, Copy)]
pub(crate) enum Opening {
    /// A group that captures, and how many characters begin it.
    Capture(usize),
    Flags(FlagGroup),
}

/// Reads from the parenthesis on.
pub(crate) fn read_opening(text: &[char], flags: Flags) -> Result<Opening, Wrong> {
    if !is_at(text, 1, '?') {
        return Ok(Opening::Capture(1));
    }
    if is_at(text, 2, 'P') && is_at(text, 3, '<') && char_at(text, 4).is_some() {
        return Ok(Opening::Capture(read_name(text)?));
    }
    Ok(Opening::Flags(read_flags(text, flags)?))
}

/// Reads the start of a group with a name.
fn read_name(text: &[char]) -> Result<usize, Wrong> {
    let Some(count) = find(after(text, 4), '>') else {
        return Err(Wrong::of_first(FaultKind::InvalidName, text.len()));
    };
    let length = count.saturating_add(5);
    let name = before(after(text, 4), count);
    if name.is_empty() || !name.iter().all(|c| is_name_char(*c)) {
        return Err(Wrong::of_first(FaultKind::InvalidName, length));
    }
    Ok(length)
}

fn is_name_char(c: char) -> bool {
    c.is_ascii_alphanumeric() || c == '_'
}
