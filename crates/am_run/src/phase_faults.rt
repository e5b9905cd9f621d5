//! The faults of a phase. `phase` gathers them and reports the first at its end.
//!
//! The first failed call by lane and position counts, whichever came first in time. Out of memory
//! comes before all. An ending that fails counts as out of memory: a report, a note or a finish, all
//! jobs of a phase, or the close. None ever fails, but no contract says so.
ghost use Rattle.std.specs.Prelude.{◌≡◌, ◌≢◌, ◌↔◌, true, IfErr, IsOk, IsTrue};
ghost use Rattle.am_json.specs.Read.{IsRefusedBy, is_refusal};
ghost use Rattle.am_run.specs.PhaseFaults.{EndsAsFull, HasNoFault};

use am_board::fault::Fault;
use am_json::fault::{FaultKind, InputFault};
use am_json::pointer::JsonPointer;
use std::alloc::Global;

/// Which call of a phase was refused.
#[derive(Clone, Copy, PartialEq, Eq)]
pub enum Refused {
    /// A begin.
    Begin,
    /// A call of a lane.
    Call { lane: usize, call: usize },
}

/// What has gone wrong so far.
#[derive(Clone, Copy)]
pub struct PhaseFaults {
    no_memory: bool,
    first_refused: Option<Refused>,
}

impl Refused {
    /// The fault of the scenario, in whose phase of this index a call was refused.
    fn fault(self, alloc: Global, phase: usize) -> InputFault
        ensures { IsRefusedBy FaultKind.Full result }
    {
        let top = JsonPointer::Root;
        let phases = top.member("phases");
        let phase = phases.item(phase);
        match self {
            Refused::Begin => phase.member("flush").refuse(alloc, FaultKind::Full),
            Refused::Call { lane, call } => {
                let lanes = phase.member("lanes");
                let lane = lanes.item(lane);
                lane.item(call).refuse(alloc, FaultKind::Full)
            }
        }
    }
}

impl PhaseFaults {
    pub fn none() -> PhaseFaults
        ensures { HasNoFault result }
    {
        PhaseFaults {
            no_memory: false,
            first_refused: None,
        }
    }

    pub fn are_none(&self) -> bool
        ensures { IsTrue result ↔ HasNoFault self.now }
    {
        !self.no_memory && self.first_refused.is_none()
    }

    /// Adds a lack of memory, or an ending that failed.
    pub fn add_no_memory(&mut self)
        ensures { self.new.no_memory ≡ true }
    {
        self.no_memory = true;
    }

    /// Adds a call that was refused for this cause.
    pub fn refuse(&mut self, fault: Fault, refused: Refused)
        ensures heard { ¬ HasNoFault self.new }
        ensures full { EndsAsFull self.new → fault ≢ Fault.NoMemory }
    {
        match fault {
            Fault::NoMemory => self.add_no_memory(),
            _ => self.add(refused),
        }
    }

    /// Adds a refusal. The first one counts.
    fn add(&mut self, refused: Refused)
        ensures { ¬ HasNoFault self.new }
    {
        if self.first_refused.is_none() {
            self.first_refused = Some(refused);
        }
    }

    /// The fault of the phase of this index, if there was trouble: lack of memory comes first.
    pub fn verdict(&self, alloc: Global, phase: usize) -> Result<(), InputFault>
        ensures none { IsOk result ↔ HasNoFault self.now }
        ensures refused { IfErr result (IsRefusedBy FaultKind.Full) }
        ensures full { IfErr result (λ fault. IsTrue (is_refusal fault) → EndsAsFull self.now) }
    {
        if self.no_memory {
            return Err(InputFault::NoMemory);
        }
        match self.first_refused {
            None => Ok(()),
            Some(refused) => Err(refused.fault(alloc, phase)),
        }
    }
}
