//! Why calls of a dispatcher fail.
ghost use Rattle.std.specs.Prelude.{◌≡◌};
ghost use Rattle.am_model.specs.declared.fault.Fault.TheVariants as fault;
ghost use Rattle.am_model.specs.declared.fault.BoardFault.TheVariants as board_fault;
ghost use Rattle.am_model.specs.declared.fault.LoadFault.TheVariants as load_fault;
ghost use Rattle.am_model.specs.declared.fault.TakeFault.TheVariants as take_fault;
ghost use Rattle.am_model.specs.Faults.{board_fault_number};

use crate::config::ConfigFault;
use std::alloc::AllocError;
use thiserror::Error;

/// Why an insert, a silence, a begin, a maintenance or a forgetting fails.
///
/// If several causes apply, the order is `HistoryFull`, `TooManyAlerts`, `TooManyGroups`,
/// `TooManySilences`, `TooManyOpen`, `NoMemory`. Exception: `NoMemory` can precede `TooManyGroups`
/// and `TooManyOpen`, while an insert's groups or a begin's integrations are looked for.
#[derive(Clone, Copy, Debug, PartialEq, Eq, Error)]
pub enum Fault {
    #[error("out of memory")]
    NoMemory = 1,
    #[error("the label set is new, and the limit of alerts is reached")]
    TooManyAlerts = 2,
    #[error("the insert would make more groups than the limit")]
    TooManyGroups = 3,
    #[error("the silence is new, and the limit of silences is reached")]
    TooManySilences = 4,
    #[error("the begin would open a flush, and the limit of open flushes is reached")]
    TooManyOpen = 5,
    #[error("the history is full")]
    HistoryFull = 6,
}

impl From<AllocError> for Fault {
    ghost from_gives = { λ _ e. e ≡ fault.NoMemory };

    fn from(_error: AllocError) -> Fault {
        Fault::NoMemory
    }
}

/// Why no board is made.
#[derive(Clone, Copy, Debug, PartialEq, Eq, Error)]
pub enum BoardFault {
    #[error("out of memory")]
    NoMemory,
    #[error("the configuration is refused: {0}")]
    BadConfig(ConfigFault),
}

impl From<AllocError> for BoardFault {
    ghost from_gives = { λ _ e. e ≡ board_fault.NoMemory };

    fn from(_error: AllocError) -> BoardFault {
        BoardFault::NoMemory
    }
}

/// Why a note fails. Neither board nor ticket changes.
///
/// The order is `Foreign`, `NotOpen`, `NotReady`, `Already`, `HistoryFull`, `NoMemory`.
#[derive(Clone, Copy, Debug, PartialEq, Eq, Error)]
pub enum NoteFault {
    #[error("out of memory")]
    NoMemory = 1,
    #[error("the history is full")]
    HistoryFull = 6,
    #[error("the ticket names another desk")]
    Foreign = 7,
    #[error("no open flush has the ticket's number")]
    NotOpen = 8,
    #[error("there is no such notice, or it isn't reported delivered")]
    NotReady = 9,
    #[error("the integration was noted before")]
    Already = 10,
}

/// Why a load is refused. The board doesn't change.
///
/// The order is `NoIntegration`, `Unordered`, `Ahead`, `HistoryFull`, `NoMemory`. The first two
/// are of the row and the configuration, at whatever time it is handed in. `Ahead` is of the time
/// too: a later load of the row can succeed.
#[derive(Clone, Copy, Debug, PartialEq, Eq, Error)]
pub enum LoadFault {
    #[error("out of memory")]
    NoMemory = 1,
    #[error("the history is full")]
    HistoryFull = 6,
    #[error("there is no such route, or its receiver has no such integration")]
    NoIntegration = 11,
    #[error("the row's label sets aren't in their order, each once")]
    Unordered = 12,
    #[error("the row's time is after the board's")]
    Ahead = 13,
}

impl From<AllocError> for LoadFault {
    ghost from_gives = { λ _ e. e ≡ load_fault.NoMemory };

    fn from(_error: AllocError) -> LoadFault {
        LoadFault::NoMemory
    }
}

/// Why a board's history isn't handed out. The board doesn't change.
///
/// The order is `TooManyCalls`, `NoMemory`.
#[derive(Clone, Copy, Debug, PartialEq, Eq, Error)]
pub enum TakeFault {
    #[error("out of memory")]
    NoMemory = 1,
    #[error("more records would be handed out than the limit")]
    TooManyCalls = 2,
}

impl From<AllocError> for TakeFault {
    ghost from_gives = { λ _ e. e ≡ take_fault.NoMemory };

    fn from(_error: AllocError) -> TakeFault {
        TakeFault::NoMemory
    }
}

/// Why a report isn't recorded; checked in the order `Stranger`, `Twice`. The ticket doesn't
/// change.
#[derive(Clone, Copy, Debug, PartialEq, Eq, Error)]
pub enum ReportFault {
    #[error("the report is of no notice of this ticket that has something to send")]
    Stranger = 1,
    #[error("the notice has a report already")]
    Twice = 2,
}

/// Why an own ticket isn't finished: no open flush has its number. The ticket is spent.
#[derive(Clone, Copy, Debug, PartialEq, Eq, Error)]
#[error("no open flush has the ticket's number")]
pub struct NotOpen;

impl BoardFault {
    /// Returns the number of this fault: 1 or 2.
    pub fn number(&self) -> u8
        ensures { result ≡ board_fault_number self.now }
    {
        match self {
            BoardFault::NoMemory => 1,
            BoardFault::BadConfig(_) => 2,
        }
    }
}
