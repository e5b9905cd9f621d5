//! The words of a line, and what goes wrong.
use am_board::fault::{BoardFault, Fault, TakeFault};
use std::alloc::{AllocError, AllocFailed};
use std::io;

/// Why a bench ends before its time.
#[derive(Clone, Copy, Debug)]
pub enum BenchError {
    /// An allocation failed.
    NoMemory,
    /// The input can't be read.
    Unreadable,
    /// A line of the input names no piece, or has other sizes than the piece takes.
    BadLine,
    /// A call of the board was refused.
    Refused(Fault),
    /// The standard output or error takes no more.
    Unwritten,
}

impl From<AllocError> for BenchError {
    fn from(_error: AllocError) -> BenchError {
        BenchError::NoMemory
    }
}

impl<T: Drop> From<AllocFailed<T>> for BenchError {
    fn from(_refused: AllocFailed<T>) -> BenchError {
        BenchError::NoMemory
    }
}

impl From<Fault> for BenchError {
    fn from(fault: Fault) -> BenchError {
        BenchError::Refused(fault)
    }
}

impl From<BoardFault> for BenchError {
    fn from(fault: BoardFault) -> BenchError {
        match fault {
            BoardFault::NoMemory => BenchError::NoMemory,
            BoardFault::BadConfig(_) => BenchError::BadLine,
        }
    }
}

impl From<TakeFault> for BenchError {
    fn from(_fault: TakeFault) -> BenchError {
        BenchError::NoMemory
    }
}

impl From<io::Error> for BenchError {
    fn from(_error: io::Error) -> BenchError {
        BenchError::Unwritten
    }
}

/// Both values, or the first error. A value that comes alone is dropped here, so callers have nothing to drop.
pub fn both<A: Drop, B: Drop, E: Drop>(
    one: Result<A, E>,
    other: Result<B, E>,
) -> Result<(A, B), E> {
    let one = one?;
    Ok((one, other?))
}

/// The words of a line that are left.
#[derive(Drop)]
pub struct Words<'a> {
    rest: &'a str,
}

impl<'a> Words<'a> {
    /// The words of this line.
    pub fn of(line: &'a str) -> Words<'a> {
        Words { rest: line }
    }

    /// The next word. Words are one space apart.
    pub fn word(&mut self) -> &'a str {
        let (word, rest) = self.rest.split_once(' ').unwrap_or((self.rest, ""));
        self.rest = rest;
        word
    }

    /// The next word, as a size.
    pub fn size(&mut self) -> Result<usize, BenchError> {
        self.word()
            .parse::<usize>()
            .map_err(|_| BenchError::BadLine)
    }
}
