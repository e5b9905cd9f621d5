//! The clocks of the time intervals of an `alertmanager.yml`, as a line says them: from when on, how far, and the zones.
ghost use Rattle.std.specs.Prelude.{◌≡◌, ◌⊎◌, ◌+ℤ◌, ◌*ℤ◌, [], IfOk, IfSome, codes, int_div, pos};
ghost use Rattle.serde_json.specs.View.{members_view, view};
ghost use Rattle.am_json.specs.Decoding.{HasOr};
ghost use Rattle.am_hours.specs.Zones.{IsOfRule};
ghost use Rattle.am_protocol.specs.Hours.{AreZones, HasHours, IsInstant, IsOfEncoded, IsZone, ListsZones};

use crate::time::{now_at, time_or};
use am_alerts::text::Text;
use am_config::hours::{Hours, MAX_ZONES, NamedZone};
use am_hours::zone::{Zone, ZoneFault};
use am_json::fault::{FaultKind, InputFault};
use am_json::reader::{Object, Reader};
use base64::DecodeAllocError;
use base64::engine::general_purpose::STANDARD;
use jiff::Timestamp;

/// How long the clocks go on where a line doesn't say it, in milliseconds: 366 days.
const HORIZON: u64 = 31_622_400_000;

/// The first instant at which the clocks can begin, in milliseconds from 1970: 0001-01-03.
const FIRST: i64 = -62_135_424_000_000;

/// The last instant at which they can end: 9999-11-28.
const LAST: i64 = 253_399_363_200_000;

/// Reads the clocks of time intervals: `now` is when they begin, `horizon` how long they go on, and `start` the date and time that time 0
/// is.
///
/// # Errors
///
/// The first member that is refused. The call itself is refused where the clocks leave the years 1 to 9999.
pub(crate) fn read_hours(
    call: &Reader<'_, '_>,
    members: &Object<'_, '_>,
) -> Result<Hours, InputFault>
    ensures { IfOk result (HasHours (members_view members.now.members)) }
{
    let now = now_at(members)?;
    let origin = start_at(members)?;
    let horizon = time_or(members, "horizon", HORIZON)?;
    let zones = zones_at(members)?;
    match begin_of(origin, now, horizon) {
        None => Err(call.refuse(FaultKind::BadValue)),
        Some(start) => Ok(Hours {
            start,
            from: now,
            horizon,
            zones,
        }),
    }
}

/// When clocks begin at `now`, where time 0 is at this origin; none where they leave the years 1 to 9999 before the horizon.
fn begin_of(origin: Timestamp, now: u64, horizon: u64) -> Option<Timestamp>
    ensures { IfSome result (λ start. start.nanosecond ≡ (int_div origin.nanosecond (pos 1000000) +ℤ pos now) *ℤ pos 1000000) }
{
    let from = origin.as_millisecond().checked_add_unsigned(now)?;
    let to = from.checked_add_unsigned(horizon)?;
    if from < FIRST || to > LAST {
        return None;
    }
    Timestamp::from_millisecond(from).ok()
}

/// Reads the date and time that time 0 is: without the member the beginning of 1970.
fn start_at(call: &Object<'_, '_>) -> Result<Timestamp, InputFault>
    ensures { IfOk result (λ start.
        HasOr IsInstant (pos 0) (codes "start") (members_view call.now.members) start.nanosecond) }
{
    match call.optional("start") {
        None => Ok(Timestamp::UNIX_EPOCH),
        Some(member) => read_start(&member),
    }
}

fn read_start(start: &Reader<'_, '_>) -> Result<Timestamp, InputFault>
    ensures { IfOk result (λ read. IsInstant (view start.now.value) read.nanosecond) }
{
    match start.text()?.parse::<Timestamp>() {
        Ok(read) => Ok(read),
        Err(_) => Err(start.refuse(FaultKind::BadValue)),
    }
}

/// Reads the zones that a line names.
fn zones_at(call: &Object<'_, '_>) -> Result<Vec<NamedZone>, InputFault>
    ensures { IfOk result (λ zones. HasOr ListsZones [] (codes "zones") (members_view call.now.members) zones.items) }
{
    match call.optional("zones") {
        None => Ok(Vec::new(call.alloc())),
        Some(member) => read_zones(&member),
    }
}

fn read_zones(reader: &Reader<'_, '_>) -> Result<Vec<NamedZone>, InputFault>
    ensures { IfOk result (λ zones. ListsZones (view reader.now.value) zones.items) }
{
    let listed = reader.object()?;
    if listed.members().len() > MAX_ZONES {
        return Err(reader.refuse(FaultKind::BadValue));
    }
    Ok(read_listed(&listed)?)
}

/// Reads the zones of these members.
fn read_listed(listed: &Object<'_, '_>) -> Result<Vec<NamedZone>, InputFault>
    ensures { IfOk result (λ zones. AreZones (members_view listed.now.members) zones.items) }
{
    let mut zones = Vec::new(listed.alloc());
    for (name, value) in listed.members().iter() {
        let item = listed.member(name.as_str(), value);
        let zone = read_zone(&item)?;
        let text = Text::new(listed.alloc(), name.as_str())?;
        zones.push(NamedZone { name: text, zone })?;
    }
    Ok(zones)
}

/// Reads a zone: its rule, or its file in base64.
fn read_zone(reader: &Reader<'_, '_>) -> Result<Zone, InputFault>
    ensures { IfOk result (IsZone (view reader.now.value)) }
{
    let text = reader.text()?;
    match Zone::from_rule(text) {
        Ok(zone) => Ok(zone),
        Err(_) => read_encoded(reader, text),
    }
}

/// The zone of a file in base64, the text of this value.
fn read_encoded(reader: &Reader<'_, '_>, text: &str) -> Result<Zone, InputFault>
    ensures { IfOk result (IsOfEncoded text.now) }
{
    let bytes = match STANDARD.decode(reader.alloc(), text.as_bytes()) {
        Ok(bytes) => bytes,
        Err(DecodeAllocError::OutOfMemory) => return Err(InputFault::NoMemory),
        Err(_) => return Err(reader.refuse(FaultKind::BadValue)),
    };
    match Zone::from_file(reader.alloc(), bytes.as_slice()) {
        Ok(zone) => Ok(zone),
        Err(ZoneFault::NoMemory) => Err(InputFault::NoMemory),
        Err(_) => Err(reader.refuse(FaultKind::BadValue)),
    }
}
