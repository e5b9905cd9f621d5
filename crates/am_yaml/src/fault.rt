//! Why a text is refused.
use std::alloc::{AllocError, AllocFailed};
use std::fmt;
use thiserror::Error;

/// What is at the location where a text is refused.
#[derive(Clone, Copy, Debug, PartialEq, Eq)]
pub enum Reason {
    /// A control character, a byte order mark, or one of the three Unicode line ends, on which readers differ.
    Character,
    /// A tab where only spaces indent.
    Tab,
    /// Something that can't be here; often a line that is indented as no line before it.
    Unexpected,
    /// A second document.
    Document,
    /// A directive, as `%YAML`.
    Directive,
    /// A tag, as `!!int`, or `!!str` before what is no scalar.
    Tag,
    /// An anchor that names no value, or has no name, or the name of another.
    Anchor,
    /// An alias of no anchor above.
    Alias,
    /// An alias of a value with a flag or a number in it, whose own text isn't known any more, where texts are wanted.
    Untold,
    /// A key that is no text on one line, of at most 1024 bytes.
    Key,
    /// A key that the mapping has already.
    Duplicate,
    /// A merge key, `<<`, whose value is no mapping, or which readers understand in different ways.
    Merge,
    /// A list of matchers that a merge has too: Alertmanager joins them.
    Joined,
    /// Anchored values that would be copied too often.
    Expansion,
    /// Collections that lie too deep.
    Depth,
    /// A plain scalar that starts with a character which YAML keeps for itself.
    Reserved,
    /// A quoted scalar without its end.
    Unterminated,
    /// A bracket without its end.
    Bracket,
    /// A brace without its end.
    Brace,
    /// An escape that YAML doesn't have.
    Escape,
    /// The first line of a block scalar says more than how it is written.
    Header,
    /// A number that JSON can't hold.
    Number,
    /// A number on which readers differ, as `010`.
    Octal,
    /// In a flow collection, what isn't a key with a value, or an item.
    Flow,
    /// A text that the check of what was read doesn't confirm. None is known.
    Unconfirmed,
}

/// Why nothing is made of a text.
#[derive(Clone, Copy, Debug, PartialEq, Eq, Error)]
pub enum YamlFault {
    /// What is at this line and column is refused. Both count from 1, the column in bytes.
    #[error("line {line}, column {column}: {reason}")]
    Refused {
        line: usize,
        column: usize,
        reason: Reason,
    },
    /// The text has more than 67,108,864 bytes.
    #[error("more than 64 MiB")]
    TooLong,
    /// Out of memory.
    #[error("no memory")]
    NoMemory,
}

/// A fault at an offset of the text.
#[derive(Clone, Copy, PartialEq, Eq)]
pub(crate) enum Stop {
    At { at: usize, reason: Reason },
    NoMemory,
}

impl From<AllocError> for Stop {
    fn from(_refused: AllocError) -> Stop {
        Stop::NoMemory
    }
}

impl<T: Drop> From<AllocFailed<T>> for Stop {
    fn from(_refused: AllocFailed<T>) -> Stop {
        Stop::NoMemory
    }
}

impl fmt::Display for Reason {
    fn fmt<W: fmt::Write>(&self, f: &mut fmt::Formatter<W>) -> fmt::Result {
        f.write_str(match self {
            Reason::Character => "a character that YAML doesn't allow here",
            Reason::Tab => "a tab in the indentation; write spaces",
            Reason::Unexpected => "this isn't expected here; is the indentation right?",
            Reason::Document => "a second document; a file has one",
            Reason::Directive => "a directive; leave it out",
            Reason::Tag => "a tag; leave it out",
            Reason::Anchor => "an anchor that can't be here",
            Reason::Alias => "no anchor of this name ends above this alias",
            Reason::Untold =>
                "an alias of a flag or a number where a text is wanted; write the text in quotes",
            Reason::Key => "a key that isn't a text on one line",
            Reason::Duplicate => "the mapping has this key already; remove one of the two",
            Reason::Merge =>
                "a merge that YAML's readers understand differently; write its fields out",
            Reason::Joined =>
                "Alertmanager adds these matchers to those of the merge; write them all in one list, without the merge's",
            Reason::Expansion => "aliases that make more than 4 MiB of copies",
            Reason::Depth => "more than 100 levels",
            Reason::Reserved => "a text that has to be in quotes",
            Reason::Unterminated => "its end is missing",
            Reason::Bracket => "this `[` has no end; write `]` behind its last item",
            Reason::Brace => "this `{` has no end; write `}` behind its last value",
            Reason::Escape => "an escape that YAML doesn't have",
            Reason::Header => "a wrong first line of a block scalar",
            Reason::Number => "a number that JSON can't hold; write it in quotes if it is a text",
            Reason::Octal => "a number with a leading zero; write it in quotes if it is a text",
            Reason::Flow => "this isn't expected between brackets",
            Reason::Unconfirmed => "this can't be confirmed",
        })
    }
}
