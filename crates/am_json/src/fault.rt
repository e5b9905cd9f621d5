//! Why an input is rejected: the error kind and the pointer. All readers return these.
use std::alloc::{AllocError, AllocFailed};
use std::fmt;
use thiserror::Error;

/// Why a value of an input is refused at its pointer.
#[derive(Clone, Copy, Debug, PartialEq, Eq)]
pub enum FaultKind {
    /// A member that must be there isn't.
    Missing,
    /// Another kind of JSON value is wanted there.
    WrongType,
    /// The kind is right, and the value is refused.
    BadValue,
    /// No field of this name is known here. Strict mode rejects it.
    Unknown,
    /// A call of the board was refused for lack of capacity.
    Full,
    /// It has a meaning, which nothing here has.
    Unsupported,
}

/// Why bytes are no JSON value.
#[derive(Clone, Copy, Debug, PartialEq, Eq, Error)]
pub enum ParseFault {
    /// They are no JSON text in UTF-8, for what is at this line and column. Both count from 1, the
    /// column in bytes; 0 is the column of a line's end before it.
    #[error("not JSON: line {line}, column {column}")]
    NotJson { line: usize, column: usize },
    /// Out of memory.
    #[error("no memory")]
    NoMemory,
}

/// Why nothing is made of the JSON value of an input.
#[derive(Debug, Drop, Error)]
pub enum InputFault {
    /// A value is refused; the pointer is a JSON pointer.
    #[error("refused at {pointer}: {fault_kind}")]
    Refused {
        pointer: String,
        fault_kind: FaultKind,
    },
    /// Out of memory.
    #[error("no memory")]
    NoMemory,
}

impl From<AllocError> for InputFault {
    ghost use Rattle.std.specs.Prelude.{◌≡◌};
    ghost use Rattle.am_json.specs.declared.fault.InputFault.TheVariants as input_fault;

    ghost from_gives = { λ _ fault. fault ≡ input_fault.NoMemory };

    fn from(_refused: AllocError) -> InputFault {
        InputFault::NoMemory
    }
}

impl<T: Drop> From<AllocFailed<T>> for InputFault {
    ghost use Rattle.std.specs.Prelude.{◌≡◌};
    ghost use Rattle.am_json.specs.declared.fault.InputFault.TheVariants as input_fault;

    ghost from_gives = { λ _ fault. fault ≡ input_fault.NoMemory };

    fn from(_refused: AllocFailed<T>) -> InputFault {
        InputFault::NoMemory
    }
}

impl fmt::Display for FaultKind {
    fn fmt<W: fmt::Write>(&self, f: &mut fmt::Formatter<W>) -> fmt::Result {
        f.write_str(match self {
            FaultKind::Missing => "missing",
            FaultKind::WrongType => "kind",
            FaultKind::BadValue => "value",
            FaultKind::Unknown => "unknown",
            FaultKind::Full => "full",
            FaultKind::Unsupported => "unsupported",
        })
    }
}
