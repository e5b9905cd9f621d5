//! The faults of an input, in the order of reading.
use crate::fault::{FaultKind, InputFault};
use crate::reader::{Object, is_one_of};
use std::alloc::Global;
use std::marker::Model;

/// The greatest number of faults that are listed.
pub const MAX_FAULTS: usize = 100;

/// A value that is refused.
#[derive(Debug, Drop)]
pub struct Fault {
    /// A JSON pointer.
    pub pointer: String,
    pub fault_kind: FaultKind,
}

/// The faults of an input in the order of reading, the first hundred of them. Contracts see them as a
/// list.
#[derive(Debug, Drop)]
pub struct Faults {
    listed: Vec<Fault>,
}

impl Model for Faults {
    ghost use Rattle.std.specs.Prelude.{◌≤◌, List, length};
    ghost use Rattle.am_json.specs.declared.faults.Fault.{Fault};
    ghost use Rattle.am_json.specs.declared.faults.TheConstants.{MAX_FAULTS};

    ghost Value = { List Fault };

    ghost view = { λ f. f.listed.items };

    ghost invariant = { λ f. length f.listed.items ≤ MAX_FAULTS };
}

/// Why nothing is read of an input.
#[derive(Drop)]
pub enum Refusal {
    /// For one fault, with which the reading ended.
    One(InputFault),
    /// For these faults. There is one at least.
    All(Faults),
}

impl From<InputFault> for Refusal {
    ghost use Rattle.std.specs.Prelude.{◌≡◌};
    ghost use Rattle.am_json.specs.declared.faults.Refusal.TheVariants as refusal;

    ghost from_gives = { λ fault given. given ≡ refusal.One fault };

    fn from(fault: InputFault) -> Refusal {
        Refusal::One(fault)
    }
}

impl Faults {
    ghost use Rattle.std.specs.Prelude.{◌≡◌, ◌<◌, ◌≤◌, ◌↔◌, [], length, IfErr, IfOk, IsTrue, OnOk, Ok, Some, None};
    ghost use Rattle.am_json.specs.Faults.{Ends, EndsReading, IsKept, with_fault};

    /// No faults.
    pub fn none(alloc: Global) -> Faults
        ensures { result ≡ [] }
    {
        Faults {
            listed: Vec::new(alloc),
        }
    }

    /// The faults.
    pub fn as_slice(&self) -> &[Fault]
        ensures faults { result.now ≡ self.now }
        ensures few { length self.now ≤ MAX_FAULTS }
    {
        self.listed.as_slice()
    }

    /// How many there are.
    pub fn len(&self) -> usize
        ensures { result ≡ length self.now }
    {
        self.listed.len()
    }

    /// Whether there are none.
    pub fn is_empty(&self) -> bool
        ensures { IsTrue result ↔ (self.now ≡ []) }
    {
        self.listed.is_empty()
    }

    /// Keeps the fault of a refused value, unless a hundred are kept. Another fault ends the reading.
    pub fn push(&mut self, fault: InputFault) -> Result<(), InputFault>
        ensures kept { OnOk result (self.new ≡ with_fault self.old fault) }
        ensures some { OnOk result (0 < length self.new) }
        ensures ends { IfErr result (Ends fault) }
    {
        match fault {
            InputFault::Refused {
                pointer,
                fault_kind,
            } => {
                if self.listed.len() < MAX_FAULTS {
                    self.listed.push(Fault {
                        pointer,
                        fault_kind,
                    })?;
                }
                Ok(())
            }
            other => Err(other),
        }
    }

    /// What was read; nothing where it is refused, and then its fault is kept.
    pub fn kept<T: Drop>(&mut self, read: Result<T, InputFault>) -> Result<Option<T>, InputFault>
        ensures kept { IfOk result (IsKept self.old self.new read) }
        ensures ends { IfErr result (EndsReading read) }
    {
        match read {
            Ok(read) => Ok(Some(read)),
            Err(fault) => {
                self.push(fault)?;
                Ok(None)
            }
        }
    }

    /// Refuses each member of an object, by name, that has none of these names.
    pub fn only(&mut self, object: &Object<'_, '_>, names: &[&str]) -> Result<(), InputFault> {
        for (name, value) in object.members().iter() {
            if !is_one_of(names, name.as_str()) {
                self.push(
                    object
                        .member(name.as_str(), value)
                        .refuse(FaultKind::Unknown),
                )?;
            }
        }
        Ok(())
    }
}
