//! Why a planned action isn't done.
use am_board::fault::{Fault, LoadFault};

/// Why a board doesn't do a planned action.
#[derive(Clone, Copy)]
pub(crate) enum ActFault {
    /// Out of memory.
    NoMemory,
    /// A limit leaves no capacity, or a log row doesn't fit.
    Refused,
}

impl From<Fault> for ActFault {
    ghost use Rattle.std.specs.Prelude.{◌≡◌};
    ghost use Rattle.am_simulation.specs.Acting.{act_fault_of_call};

    ghost from_gives = { λ of_call fault. fault ≡ act_fault_of_call of_call };

    fn from(fault: Fault) -> ActFault {
        match fault {
            Fault::NoMemory => ActFault::NoMemory,
            _ => ActFault::Refused,
        }
    }
}

impl From<LoadFault> for ActFault {
    ghost use Rattle.std.specs.Prelude.{◌≡◌};
    ghost use Rattle.am_simulation.specs.Acting.{act_fault_of_load};

    ghost from_gives = { λ of_load fault. fault ≡ act_fault_of_load of_load };

    fn from(fault: LoadFault) -> ActFault {
        match fault {
            LoadFault::NoMemory => ActFault::NoMemory,
            _ => ActFault::Refused,
        }
    }
}
