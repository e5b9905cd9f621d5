//! `Opening`: the configuration of a new board, and how it is read.
ghost use Rattle.std.specs.Prelude.{◌≡◌, IfErr, IfOk, IsTrue, None, option_copied};
ghost use Rattle.serde_json.specs.View.{view};
ghost use Rattle.am_json.specs.Configured.{DecodesToConfig, config_compares_texts};
ghost use Rattle.am_json.specs.Read.{Excludes};
ghost use Rattle.am_config.specs.IgnoredSettings.{nothing};
ghost use Rattle.am_model.specs.Config.{config_fault};
ghost use Rattle.am_protocol.specs.Opening.{IsClockedOpening, IsTheirOpening};

use crate::hours::read_hours;
use am_config::alertmanager::read_alertmanager;
use am_config::dropped::IgnoredSettings;
use am_config::hours::Hours;
use am_config::settings::Checking;
use am_json::config::read_config;
use am_json::fault::{FaultKind, InputFault};
use am_json::faults::{Faults, Refusal};
use am_json::reader::Reader;
use am_model::config::Config;
use std::alloc::Global;

/// The configuration of a new board.
#[derive(Drop)]
pub struct Opening {
    pub config: Config,
    /// What the configuration also says, which is ignored.
    pub ignored: IgnoredSettings,
}

/// Reads a configuration of our own.
pub(crate) fn read_own(value: &Reader<'_, '_>) -> Result<Opening, InputFault>
    ensures fault { IfOk result (λ opening. config_fault opening.config ≡ None) }
    ensures decoded { IfOk result (λ opening. DecodesToConfig value.now.mode (view value.now.value) opening.config) }
    ensures ignored { IfOk result (λ opening. opening.ignored ≡ nothing) }
    ensures refused { IfErr result (Excludes (λ config.
        DecodesToConfig value.now.mode (view value.now.value) config × IsTrue (config_compares_texts config))) }
{
    let config = read_config(value)?;
    Ok(Opening {
        config,
        ignored: IgnoredSettings::nothing(),
    })
}

/// Reads a configuration of Alertmanager, and the clocks of its time intervals.
pub(crate) fn read_clocked(value: &Reader<'_, '_>) -> Result<Opening, InputFault>
    ensures { IfOk result (IsClockedOpening value.now.mode (view value.now.value)) }
{
    let call = value.object()?;
    call.only(&["now", "alertmanager", "start", "horizon", "zones"])?;
    let hours = read_hours(value, &call)?;
    let config = call.required("alertmanager")?;
    let opening = read_theirs(&config, Some(&hours))?;
    Ok(opening)
}

/// Reads a configuration of Alertmanager. Without clocks one with a route that is muted by time is refused.
pub(crate) fn read_theirs(
    value: &Reader<'_, '_>,
    hours: Option<&Hours>,
) -> Result<Opening, InputFault>
    ensures { IfOk result (IsTheirOpening (option_copied hours.entry) (view value.now.value)) }
{
    match read_alertmanager(value, hours, Checking::NamesAlone) {
        Ok(read) => {
            if read.timed && hours.is_none() {
                return Err(value.refuse(FaultKind::Unsupported));
            }
            Ok(Opening {
                config: read.config,
                ignored: read.dropped,
            })
        }
        Err(Refusal::One(fault)) => Err(fault),
        Err(Refusal::All(faults)) => Err(first_of(value.alloc(), &faults)),
    }
}

/// The first of these faults.
fn first_of(alloc: Global, faults: &Faults) -> InputFault {
    match faults.as_slice().first() {
        None => InputFault::NoMemory,
        Some(fault) => match String::from_str(alloc, fault.pointer.as_str()) {
            Err(_) => InputFault::NoMemory,
            Ok(pointer) => InputFault::Refused {
                pointer,
                fault_kind: fault.fault_kind,
            },
        },
    }
}
