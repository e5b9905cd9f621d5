//! Why a rehearsal ends without its output, or with an expectation that isn't met, and with which
//! status.
use am_command_line::exit_status::ExitStatus;
use am_json::fault::{FaultKind, InputFault};
use am_json::faults::{Faults, Refusal};
use am_json::transfer::Unwritable;
use thiserror::Error;

/// Why the program ends with a status that isn't 0.
#[derive(Debug, Drop, Error)]
pub enum RehearseFault {
    /// The rehearsal is refused; the pointer is a JSON pointer.
    #[error("am-rehearse: rehearsal refused at {pointer}: {fault_kind}")]
    Refused {
        pointer: String,
        fault_kind: FaultKind,
    },
    /// Alertmanager's configuration is refused for these faults.
    #[error("am-rehearse: rehearsal refused")]
    AllRefused {
        faults: Faults,
    },
    /// Out of memory.
    #[error("am-rehearse: no memory")]
    NoMemory,
    /// A write failed. Some of the output may have been written.
    #[error("am-rehearse: output not writable")]
    Unwritable,
    /// An expectation isn't met. The output was written whole.
    #[error("am-rehearse: an expectation isn't met")]
    Unmet,
}

impl RehearseFault {
    ghost use Rattle.std.specs.Prelude.{◌≡◌};
    ghost use Rattle.am_command_line.specs.ExitStatus.{code_of};
    ghost use Rattle.am_render.specs.Faults.{FaultEndsWith};
    ghost use Rattle.am_render.specs.Faults.{status_of};

    /// The status with which the program ends on this fault.
    pub fn status(&self) -> ExitStatus
        ensures code { code_of result ≡ status_of self.now }
        ensures ends { FaultEndsWith self.now result }
    {
        match self {
            RehearseFault::Refused { .. } | RehearseFault::AllRefused { .. } => {
                ExitStatus::Rejected
            }
            RehearseFault::NoMemory => ExitStatus::NoMemory,
            RehearseFault::Unwritable => ExitStatus::Unwritable,
            RehearseFault::Unmet => ExitStatus::Unmet,
        }
    }
}

impl From<InputFault> for RehearseFault {
    ghost use Rattle.std.specs.Prelude.{◌≡◌};
    ghost use Rattle.am_render.specs.Faults.{fault_of_input};

    ghost from_gives = { λ of_input fault. fault ≡ fault_of_input of_input };

    fn from(fault: InputFault) -> RehearseFault {
        match fault {
            InputFault::Refused {
                pointer,
                fault_kind,
            } => RehearseFault::Refused {
                pointer,
                fault_kind,
            },
            InputFault::NoMemory => RehearseFault::NoMemory,
        }
    }
}

impl From<Refusal> for RehearseFault {
    ghost use Rattle.std.specs.Prelude.{◌≡◌};
    ghost use Rattle.am_render.specs.Faults.{fault_of_refusal};

    ghost from_gives = { λ refusal fault. fault ≡ fault_of_refusal refusal };

    fn from(refusal: Refusal) -> RehearseFault {
        match refusal {
            Refusal::One(fault) => RehearseFault::from(fault),
            Refusal::All(faults) => RehearseFault::AllRefused { faults },
        }
    }
}

impl From<Unwritable> for RehearseFault {
    ghost use Rattle.std.specs.Prelude.{◌≡◌};
    ghost use Rattle.am_render.specs.declared.fault.RehearseFault.TheVariants as rehearse_fault;

    ghost from_gives = { λ _ fault. fault ≡ rehearse_fault.Unwritable };

    fn from(_unwritable: Unwritable) -> RehearseFault {
        RehearseFault::Unwritable
    }
}
