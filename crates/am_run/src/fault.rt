//! Why a run ends without its report, and with which status.
use am_json::fault::{FaultKind, InputFault, ParseFault};
use am_json::transfer::{ReadFault, Unwritable};
use thiserror::Error;

/// Why a run ends without its report.
#[derive(Debug, Drop, Error)]
pub enum RunFault {
    /// A read failed, or the input has more than 16,777,216 bytes.
    #[error("am-run: input not readable")]
    Unreadable,
    /// The input is no JSON text in UTF-8.
    #[error("am-run: scenario refused: not JSON")]
    NotJson,
    /// The scenario is rejected, at a JSON pointer.
    #[error("am-run: scenario refused at {pointer}: {fault_kind}")]
    Refused {
        pointer: String,
        fault_kind: FaultKind,
    },
    /// Out of memory.
    #[error("am-run: no memory")]
    NoMemory,
    /// A write failed. Some of the report may have been written.
    #[error("am-run: output not writable")]
    Unwritable,
}

impl RunFault {
    ghost use Rattle.std.specs.Prelude.{◌≡◌};
    ghost use Rattle.am_run.specs.Faults.{status_of};

    /// The status with which the program ends on this fault.
    pub fn status(&self) -> u8
        ensures { result ≡ status_of self.now }
    {
        match self {
            RunFault::Unreadable => 1,
            RunFault::NotJson | RunFault::Refused { .. } => 2,
            RunFault::NoMemory => 3,
            RunFault::Unwritable => 4,
        }
    }
}

impl From<ParseFault> for RunFault {
    ghost use Rattle.std.specs.Prelude.{◌≡◌};
    ghost use Rattle.am_run.specs.Faults.{fault_of_parse};

    ghost from_gives = { λ of_parse of_run. of_run ≡ fault_of_parse of_parse };

    fn from(fault: ParseFault) -> RunFault {
        match fault {
            ParseFault::NotJson { line: _, column: _ } => RunFault::NotJson,
            ParseFault::NoMemory => RunFault::NoMemory,
        }
    }
}

impl From<InputFault> for RunFault {
    ghost use Rattle.std.specs.Prelude.{◌≡◌};
    ghost use Rattle.am_run.specs.Faults.{fault_of_input};

    ghost from_gives = { λ of_input of_run. of_run ≡ fault_of_input of_input };

    fn from(fault: InputFault) -> RunFault {
        match fault {
            InputFault::Refused {
                pointer,
                fault_kind,
            } => RunFault::Refused {
                pointer,
                fault_kind,
            },
            InputFault::NoMemory => RunFault::NoMemory,
        }
    }
}

impl From<ReadFault> for RunFault {
    ghost use Rattle.std.specs.Prelude.{◌≡◌};
    ghost use Rattle.am_run.specs.Faults.{fault_of_read};

    ghost from_gives = { λ of_read of_run. of_run ≡ fault_of_read of_read };

    fn from(fault: ReadFault) -> RunFault {
        match fault {
            ReadFault::Unreadable => RunFault::Unreadable,
            ReadFault::NoMemory => RunFault::NoMemory,
        }
    }
}

impl From<Unwritable> for RunFault {
    ghost use Rattle.std.specs.Prelude.{◌≡◌};
    ghost use Rattle.am_run.specs.declared.fault.RunFault.TheVariants as run_fault;

    ghost from_gives = { λ _ of_run. of_run ≡ run_fault.Unwritable };

    fn from(_unwritable: Unwritable) -> RunFault {
        RunFault::Unwritable
    }
}
