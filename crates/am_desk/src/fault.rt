//! Why a desk isn't made, opened or closed.
ghost use Rattle.std.specs.Prelude.{◌≡◌};
ghost use Rattle.am_desk.specs.Faults.{open_fault_of, open_fault_number, close_cause_number};
ghost use Rattle.am_desk.specs.declared.fault.BlankFault.TheVariants as blank_fault;

use am_board::config::ConfigFault;
use am_board::fault::BoardFault;
use std::alloc::AllocError;
use thiserror::Error;

/// Why no blank is made; checked in the order `BadCount`, `NoMemory`.
#[derive(Clone, Copy, Debug, PartialEq, Eq, Error)]
pub enum BlankFault {
    #[error("out of memory")]
    NoMemory = 1,
    #[error("a desk has 1 to 16 passes")]
    BadCount = 2,
}

impl From<AllocError> for BlankFault {
    ghost from_gives = { λ _ e. e ≡ blank_fault.NoMemory };

    fn from(_error: AllocError) -> BlankFault {
        BlankFault::NoMemory
    }
}

/// Why no desk is opened; checked in the order `BadConfig`, `NoMemory`. Either spends the blank.
#[derive(Clone, Copy, Debug, PartialEq, Eq, Error)]
pub enum OpenFault {
    #[error("out of memory")]
    NoMemory,
    #[error("the configuration is refused: {0}")]
    BadConfig(ConfigFault),
}

impl From<BoardFault> for OpenFault {
    ghost from_gives = { λ fault e. e ≡ open_fault_of fault };

    fn from(fault: BoardFault) -> OpenFault {
        match fault {
            BoardFault::NoMemory => OpenFault::NoMemory,
            BoardFault::BadConfig(reason) => OpenFault::BadConfig(reason),
        }
    }
}

impl OpenFault {
    /// Returns the number of this fault: 1 or 2.
    pub fn number(&self) -> u8
        ensures { result ≡ open_fault_number self.now }
    {
        match self {
            OpenFault::NoMemory => 1,
            OpenFault::BadConfig(_) => 2,
        }
    }
}

/// Why a desk isn't closed; checked in this order.
#[derive(Clone, Copy, Debug, PartialEq, Eq, Error)]
pub enum CloseCause {
    #[error("the passes aren't those of the desk, each once")]
    Missing,
    /// So many flushes are open, at least one.
    #[error("{0} flushes are open")]
    OpenFlush(usize),
}

impl CloseCause {
    /// Returns the number of this cause: 1 or 2.
    pub fn number(&self) -> u8
        ensures { result ≡ close_cause_number self.now }
    {
        match self {
            CloseCause::Missing => 1,
            CloseCause::OpenFlush(_) => 2,
        }
    }
}
