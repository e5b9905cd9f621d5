//! Why a pattern is rejected. The words are RE2's.
use std::alloc::{AllocError, AllocFailed};
use thiserror::Error;

/// What is wrong with a pattern. Go's `invalid UTF-8` isn't among them, since a pattern is text.
#[derive(Clone, Copy, Debug, PartialEq, Eq, Error)]
pub enum FaultKind {
    /// A range whose ends are in the wrong order, or a class of a name that Go doesn't have.
    #[error("invalid character class range")]
    InvalidRange,
    #[error("invalid escape sequence")]
    InvalidEscape,
    /// A group's name that is empty or has another character than ASCII letters, digits and `_`.
    #[error("invalid named capture")]
    InvalidName,
    /// What follows `(?` is no flags.
    #[error("invalid or unsupported Perl syntax")]
    InvalidFlags,
    /// A repetition of a repetition, as `a**`.
    #[error("invalid nested repetition operator")]
    NestedRepetition,
    /// A count above 1,000, or a least count above the greatest. Counts within counts are multiplied.
    #[error("invalid repeat count")]
    InvalidCount,
    #[error("missing closing ]")]
    MissingBracket,
    #[error("missing closing )")]
    MissingParenthesis,
    /// A repetition of nothing, as `*` at the start.
    #[error("missing argument to repetition operator")]
    MissingArgument,
    #[error("trailing backslash at end of expression")]
    TrailingBackslash,
    #[error("unexpected )")]
    UnexpectedParenthesis,
    /// More groups within one another than `MAX_GROUPS`.
    #[error("expression nests too deeply")]
    TooDeep,
    /// The end of `^(?:p)$` belongs to a quotation or to flags that `p` begins, as in `a)|b\Q`.
    #[error("expression that takes in what is around it")]
    Unframed,
}

/// What is wrong, and the part of the pattern, as byte offsets.
#[derive(Clone, Copy, Debug, PartialEq, Eq, Error)]
#[error("{kind}")]
pub struct PatternFault {
    pub kind: FaultKind,
    pub start: usize,
    pub end: usize,
}

/// Why there is no translation.
#[derive(Clone, Copy, Debug, PartialEq, Eq, Error)]
pub enum PatternError {
    #[error("{0}")]
    Rejected(PatternFault),
    #[error("out of memory")]
    NoMemory,
}

impl From<AllocError> for PatternError {
    ghost use Rattle.std.specs.Prelude.{◌≡◌};
    ghost use Rattle.am_patterns.specs.declared.fault.PatternError.TheVariants as pattern_error;

    ghost from_gives = { λ _ error. error ≡ pattern_error.NoMemory };

    fn from(_: AllocError) -> PatternError {
        PatternError::NoMemory
    }
}

/// What is wrong, and the part of the pattern, counted in characters from where the reader is.
#[derive(Clone, Copy)]
pub(crate) struct Wrong {
    pub(crate) kind: FaultKind,
    pub(crate) start: usize,
    pub(crate) end: usize,
}

impl Wrong {
    /// A fault of the first characters.
    pub(crate) fn of_first(kind: FaultKind, count: usize) -> Wrong {
        Wrong {
            kind,
            start: 0,
            end: count,
        }
    }

    /// The fault, counted from so many characters before.
    pub(crate) fn behind(self, count: usize) -> Wrong {
        Wrong {
            kind: self.kind,
            start: self.start.saturating_add(count),
            end: self.end.saturating_add(count),
        }
    }
}

/// Why reading ends before the pattern does.
#[derive(Clone, Copy)]
pub(crate) enum Stop {
    Wrong(Wrong),
    NoMemory,
}

impl From<AllocError> for Stop {
    fn from(_: AllocError) -> Stop {
        Stop::NoMemory
    }
}

impl<T: Drop> From<AllocFailed<T>> for Stop {
    fn from(_: AllocFailed<T>) -> Stop {
        Stop::NoMemory
    }
}

impl From<Wrong> for Stop {
    fn from(wrong: Wrong) -> Stop {
        Stop::Wrong(wrong)
    }
}
