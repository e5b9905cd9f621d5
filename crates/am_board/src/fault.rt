//! Why calls of a board fail. The types without a ticket are `am_model`'s.
ghost use Rattle.std.specs.Prelude.{◌≡◌};
ghost use Rattle.am_board.specs.Faults.{finish_fault_number, FinishFaultsAre};

use crate::ticket::Ticket;
pub use am_model::fault::{
    BoardFault, Fault, LoadFault, NotOpen, NoteFault, ReportFault, TakeFault,
};

/// Why a finish fails. It can have a ticket in it, which must be finished.
pub enum FinishFault {
    /// The ticket carries the id of another board, and is handed back.
    Foreign(Ticket),
    /// No open flush has the ticket's number. The ticket is spent.
    NotOpen,
}

impl FinishFault {
    /// Returns the number of this fault: 7 or 8.
    pub fn number(&self) -> u8
        ensures { result ≡ finish_fault_number self.now }
    {
        match self {
            FinishFault::Foreign(_) => 7,
            FinishFault::NotOpen => 8,
        }
    }
}

/// States the number of each fault of a finish.
///
/// `law::fault_numbers_are` states those of the other faults.
pub fn finish_fault_numbers_are()
    ensures { FinishFaultsAre }
{}
