//! The clocks of a configuration's time intervals, by the start, the end and the zones of a story.
//!
//! They are read before the configuration, and without their faults: each fault comes in its own order. Where one of the
//! three has a fault, the intervals are read without clocks.
ghost use Rattle.std.specs.Prelude.{◌≡◌, ℕ, ℤ, IfOk, IfSome, IsOk, IsTrue, List, None, OnOk, Some, codes, false, is_ok};
ghost use Rattle.serde_json.specs.View.{members_view};
ghost use Rattle.am_json.specs.Decoding.{Has};
ghost use Rattle.am_json.specs.Read.{is_refusal};
ghost use Rattle.am_hours.specs.Zones.{IsOfFile};
ghost use Rattle.am_input.specs.Clocks.{AddsFiled, AreClocksOf, IsInstant, fits_years};
ghost use Rattle.am_input.specs.Request.{end_for};

use crate::input::read_until;
use crate::time;
use crate::zone_files::ZoneFiles;
use crate::zones::read_zones;
use am_alerts::text::Text;
use am_config::hours::{Hours, NamedZone, zone_names};
use am_hours::zone::Zone;
use am_json::fault::{FaultKind, InputFault};
use am_json::reader::{Object, Reader};
use jiff::Timestamp;
use std::alloc::{AllocError, Global};

/// How long the clocks go on behind the story's end, in milliseconds: 366 days. So it is known how long a route is muted.
const BEHIND: u64 = 31_622_400_000;

/// The first time at which a story with time intervals can start, in milliseconds from 1970: 0001-01-03.
const FIRST: i64 = -62_135_424_000_000;

/// The last time at which its clocks can end: 9999-11-28.
const LAST: i64 = 253_399_363_200_000;

/// Returns the clocks for a configuration of Alertmanager, if the story has a start, an end and zones without a fault.
pub fn read_hours<Z: ZoneFiles>(
    top: &Object<'_, '_>,
    config: &Reader<'_, '_>,
    until: Option<u64>,
    files: &mut Z,
) -> Result<Option<Hours>, InputFault>
    ensures { IfOk result (λ hours. (end : ℕ) → end_for until (members_view top.now.members) ≡ Some end
        → AreClocksOf end (members_view top.now.members) hours) }
{
    let Some(start) = start_of(top) else {
        return Ok(None);
    };
    let until = match read_until(top, until) {
        Err(fault) => return no_clocks(fault),
        Ok(until) => until,
    };
    let zones = match read_zones(top) {
        Err(fault) => return no_clocks(fault),
        Ok(zones) => zones,
    };
    let horizon = until + BEHIND;
    if !fits_years(start, horizon) {
        return Ok(None);
    }
    let mut zones = zones;
    add_files(top.alloc(), config, &mut zones, files)?;
    Ok(Some(Hours {
        start,
        from: 0,
        horizon,
        zones,
    }))
}

/// No clocks, where an end or a zone is refused. Lack of memory is handed on.
fn no_clocks(fault: InputFault) -> Result<Option<Hours>, InputFault>
    ensures none { IfOk result (λ hours. hours ≡ None) }
    ensures refused { IsOk result → IsTrue (is_refusal fault) }
{
    match fault {
        InputFault::NoMemory => Err(InputFault::NoMemory),
        InputFault::Refused { .. } => Ok(None),
    }
}

/// The start, if it is given without a fault.
fn start_of(top: &Object<'_, '_>) -> Option<Timestamp>
    ensures said { IfSome result (λ start. Has IsInstant (codes "start") (members_view top.now.members) start.nanosecond) }
    ensures unsaid { result ≡ None → (instant : ℤ) → Has IsInstant (codes "start") (members_view top.now.members) instant → ⊥ }
{
    let Some(member) = top.optional("start") else {
        return None;
    };
    match member.text() {
        Err(_) => None,
        Ok(text) => match text.parse::<Timestamp>() {
            Err(_) => None,
            Ok(start) => Some(start),
        },
    }
}

/// Whether the clocks from a start to a horizon show years from 1 to 9999.
fn fits_years(start: Timestamp, horizon: u64) -> bool
    ensures { result ≡ fits_years start.nanosecond horizon }
{
    let from = start.as_millisecond();
    match from.checked_add_unsigned(horizon) {
        None => false,
        Some(to) => from >= FIRST && to <= LAST,
    }
}

/// Adds the zones of the other names in a configuration that have a file.
fn add_files<Z: ZoneFiles>(
    alloc: Global,
    config: &Reader<'_, '_>,
    zones: &mut Vec<NamedZone>,
    files: &mut Z,
) -> Result<(), InputFault>
    ensures { OnOk result (AddsFiled zones.old.items zones.new.items) }
{
    match zone_names(config) {
        Err(InputFault::NoMemory) => Err(InputFault::NoMemory),
        Err(InputFault::Refused { .. }) => Ok(()),
        Ok(names) => Ok(add_named(alloc, names, zones, files)?),
    }
}

fn add_named<Z: ZoneFiles>(
    alloc: Global,
    names: Vec<Text>,
    zones: &mut Vec<NamedZone>,
    files: &mut Z,
) -> Result<(), AllocError>
    ensures { OnOk result (AddsFiled zones.old.items zones.new.items) }
{
    for name in names {
        add_file(alloc, name, zones, files)?;
    }
    Ok(())
}

/// Adds the zone of a name that has none yet, if it has a file.
fn add_file<Z: ZoneFiles>(
    alloc: Global,
    name: Text,
    zones: &mut Vec<NamedZone>,
    files: &mut Z,
) -> Result<(), AllocError>
    ensures { OnOk result (AddsFiled zones.old.items zones.new.items) }
{
    if zones.iter().any(|zone| zone.name == name) {
        return Ok(());
    }
    if let Some(zone) = zone_of(alloc, name.as_str(), files)? {
        zones.push(NamedZone { name, zone })?;
    }
    Ok(())
}

/// The zone of a file, if there is one.
fn zone_of<Z: ZoneFiles>(
    alloc: Global,
    name: &str,
    files: &mut Z,
) -> Result<Option<Zone>, AllocError>
    ensures { IfOk result (λ zone. IfSome zone (λ z. (bytes : List ℕ) × IsOfFile bytes z)) }
{
    let mut bytes = Vec::new(alloc);
    if !files.read(name, &mut bytes)? {
        return Ok(None);
    }
    match Zone::from_file(alloc, bytes.as_slice()) {
        Err(_) => Ok(None),
        Ok(zone) => Ok(Some(zone)),
    }
}

/// Refuses a story whose time intervals have no clocks, though routes name them: it says no start, or one that is no
/// time of the years 1 to 9999. A fault of its start, end or zones is given in its own order.
pub fn check_start(
    top: &Object<'_, '_>,
    until: Option<u64>,
    lacks_hours: bool,
) -> Result<(), InputFault>
    ensures { lacks_hours ≡ false → IsTrue (is_ok result) }
{
    if !lacks_hours {
        return Ok(());
    }
    let member = top.required("start")?;
    let has_fault = time::start(top).is_err()
        || read_until(top, until).is_err()
        || read_zones(top).is_err();
    if has_fault {
        return Ok(());
    }
    Err(member.refuse(FaultKind::BadValue))
}
