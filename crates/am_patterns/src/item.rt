//! What a backslash begins outside brackets.
ghost use Rattle.std.specs.Prelude.{◌≤◌, length, IfSome};

use crate::escape::read_escape;
use crate::fault::{FaultKind, Wrong};
use crate::property::{Property, read_property};
use crate::set::Set;
use crate::text::{char_at, is_at};

/// What a backslash begins.
#[derive(Clone, Copy)]
pub(crate) enum Item {
    /// The start of the text.
    Start,
    /// The end of the text.
    End,
    WordEdge,
    NoWordEdge,
    /// Characters that represent themselves up to `\E`.
    Quoted,
    Property(Property),
    Set(Set),
    /// A character's code, and how many characters of the pattern write it.
    Code(u32, usize),
}

impl Item {
    /// The text that represents a test of a place.
    pub(crate) fn test(self) -> Option<&'static str>
        ensures { IfSome result (λ text. length text.now ≤ 9) }
    {
        match self {
            Item::Start => Some("\\A"),
            Item::End => Some("\\z"),
            Item::WordEdge => Some("(?-u:\\b)"),
            Item::NoWordEdge => Some("(?-u:\\B)"),
            _ => None,
        }
    }
}

/// Reads from the backslash on.
pub(crate) fn read_item(text: &[char]) -> Result<Item, Wrong> {
    match char_at(text, 1) {
        Some('A') => Ok(Item::Start),
        Some('z') => Ok(Item::End),
        Some('b') => Ok(Item::WordEdge),
        Some('B') => Ok(Item::NoWordEdge),
        Some('C') => Err(Wrong::of_first(FaultKind::InvalidEscape, 2)),
        Some('Q') => Ok(Item::Quoted),
        _ => read_set_or_code(text),
    }
}

fn read_set_or_code(text: &[char]) -> Result<Item, Wrong> {
    if is_at(text, 1, 'p') || is_at(text, 1, 'P') {
        return Ok(Item::Property(read_property(text)?));
    }
    if let Some(set) = char_at(text, 1).and_then(Set::of_letter) {
        return Ok(Item::Set(set));
    }
    let code = read_escape(text)?;
    Ok(Item::Code(code.code, code.length))
}
