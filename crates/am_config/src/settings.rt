//! Faults for what Alertmanager rejects in the settings of `global` and of integrations.
ghost use Rattle.std.specs.Prelude.{OnOk};
ghost use Rattle.am_config.specs.Collects.{Grows};

use am_json::fault::{FaultKind, InputFault};
use am_json::faults::Faults;
use am_json::reader::{Object, Reader};
use am_settings::findings::{Finding, Rejection, findings_in};
use am_settings::settings::{Part, wanted_in};
use serde_json::{Map, Value};
use std::alloc::AllocError;

/// What is made of settings that change nothing here.
#[derive(Clone, Copy, PartialEq, Eq)]
pub enum Checking {
    /// What Alertmanager rejects is rejected.
    AsAlertmanager,
    /// Only `send_resolved` and the names in `global` are looked at: a program that hands a configuration over can leave out the
    /// rest, which Alertmanager has read.
    NamesAlone,
}

/// Adds what is rejected in a part, the object that this value is, to the faults.
pub(crate) fn keep_findings(
    faults: &mut Faults,
    reader: &Reader<'_, '_>,
    part: Part,
    object: &Object<'_, '_>,
    global: Option<&Map<String, Value>>,
) -> Result<(), InputFault>
    ensures grows { OnOk result (Grows faults.old faults.new) }
{
    for finding in findings_in(reader.alloc(), part, object.members(), global)? {
        faults.push(fault_of(reader, &finding)?)?;
    }
    Ok(())
}

/// The fault of what was found in this value.
fn fault_of(reader: &Reader<'_, '_>, finding: &Finding) -> Result<InputFault, AllocError> {
    let mut pointer = reader.pointer().text(reader.alloc())?;
    pointer.push_str(finding.place.as_str())?;
    Ok(InputFault::Refused {
        pointer,
        fault_kind: match finding.rejection {
            Rejection::Missing => FaultKind::Missing,
            Rejection::WrongType => FaultKind::WrongType,
            Rejection::BadValue => FaultKind::BadValue,
            Rejection::Unknown => FaultKind::Unknown,
        },
    })
}

/// Adds the fields that a part doesn't have to the faults.
pub(crate) fn keep_unknown(
    faults: &mut Faults,
    part: Part,
    object: &Object<'_, '_>,
) -> Result<(), InputFault> {
    for (name, value) in object.members().iter() {
        if wanted_in(part, name.as_str()).is_none() {
            faults.push(
                object
                    .member(name.as_str(), value)
                    .refuse(FaultKind::Unknown),
            )?;
        }
    }
    Ok(())
}
