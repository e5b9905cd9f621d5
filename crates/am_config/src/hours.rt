//! The zones of a configuration's time intervals, and when their clocks begin and end.
ghost use Rattle.std.specs.Prelude.{◌≡◌, ◌≤◌, IfOk, IfSome, IsTrue, find, vec_len};
ghost use Rattle.std.specs.Option.{option_copied};
ghost use Rattle.std.specs.Str.{bytes_eq};
ghost use Rattle.am_hours.specs.Pieces.{are_in_row};
ghost use Rattle.am_config.specs.Times.{IsClockAt, IsClockOf, is_utc};
ghost use Rattle.am_config.specs.declared.hours.TheConstants.{MAX_ZONES};

use crate::times::{INTERVALS, LISTS, LOCAL, LOCATION};
use am_alerts::text::Text;
use am_hours::clock::{Clock, ClockFault};
use am_hours::zone::Zone;
use am_json::fault::{FaultKind, InputFault};
use am_json::faults::Faults;
use am_json::reader::Reader;
use jiff::Timestamp;
use serde_json::{Map, Value};
use std::alloc::Global;
use std::marker::Model;

/// How many zones are looked for at most.
pub const MAX_ZONES: usize = 64;

/// A time zone, and its name in `location`.
#[derive(Drop)]
pub struct NamedZone {
    pub name: Text,
    pub zone: Zone,
}

/// The clocks of a configuration's time intervals, and the zones that are known by name. UTC and the empty name need no zone.
#[derive(Drop)]
pub struct Hours {
    /// When the clocks begin.
    pub start: Timestamp,
    /// Which time that is, in milliseconds, as the times in which routes are muted count.
    pub from: u64,
    /// How long the clocks go on, in milliseconds.
    pub horizon: u64,
    /// The zones that are known by name. Of two of one name the first counts.
    pub zones: Vec<NamedZone>,
}

impl Hours {
    /// Returns the clocks of these zones, from a start on to a horizon, in milliseconds from it.
    pub fn new(start: Timestamp, horizon: u64, zones: Vec<NamedZone>) -> Hours {
        Hours {
            start,
            from: 0,
            horizon,
            zones,
        }
    }

    /// The clock of a location from the start to the horizon, if its zone is known and has one.
    pub(crate) fn clock(&self, alloc: Global, location: &str) -> Result<Option<Clock>, InputFault>
        ensures { IfOk result (λ clock. IfSome clock (λ c. IsClockAt self.now location.now c.pieces)) }
    {
        if is_utc(location) {
            return self.clock_of(alloc, &Zone::utc());
        }
        match self.zone(location) {
            None => Ok(None),
            Some(known) => self.clock_of(alloc, &known.zone),
        }
    }

    /// The first zone of this name.
    fn zone(&self, name: &str) -> Option<&NamedZone>
        ensures { option_copied result ≡ find (λ known. bytes_eq known.name name.now) self.now.zones.items }
    {
        self.zones.iter().find(|known| known.name.as_str() == name)
    }

    /// The clock of a zone from the start to the horizon, if it has one so far.
    fn clock_of(&self, alloc: Global, zone: &Zone) -> Result<Option<Clock>, InputFault>
        ensures { IfOk result (λ clock. IfSome clock (λ c. IsClockOf self.now zone.now c.pieces)) }
    {
        match Clock::new(alloc, zone.time_zone(), self.start, self.horizon) {
            Ok(clock) => Ok(Some(in_row(clock))),
            Err(ClockFault::NoMemory) => Err(InputFault::NoMemory),
            Err(_) => Ok(None),
        }
    }
}

/// This clock. Contracts learn that its pieces are in a row.
fn in_row(clock: Clock) -> Clock
    ensures same { result ≡ clock }
    ensures row { IsTrue (are_in_row 0 clock.pieces clock.horizon) }
{
    let _ = clock.pieces();
    clock
}

fn is_utc(name: &str) -> bool
    ensures { result ≡ is_utc name.now }
{
    name.is_empty() || name == "UTC"
}

/// Whether a text has the form of a zone's name, as Go looks for it in a folder of zones.
pub(crate) fn may_be_zone(name: &str) -> bool {
    !name.starts_with(['/', '\\']) && !name.contains("..") && !name.contains('\0')
}

/// The zones that a configuration's time intervals name in `location`, each once, in their order, but
/// UTC and the empty name. At most 64 names. Names that can be no zone (`..`, a leading `/` or `\`)
/// aren't among them, nor is `Local`.
pub fn zone_names(reader: &Reader<'_, '_>) -> Result<Vec<Text>, InputFault>
    ensures few { IfOk result (λ names. vec_len names ≤ MAX_ZONES) }
{
    let mut names = ZoneNames {
        list: Vec::new(reader.alloc()),
    };
    if let Ok(top) = reader.object() {
        for name in LISTS {
            for definition in items_of(top.members(), name) {
                names.add_zones(reader.alloc(), definition)?;
            }
        }
    }
    Ok(names.list)
}

/// Adds a fault for each `location` of a configuration's time intervals that is none of these zones, nor UTC. What has another
/// fault, as `Local`, gets none here.
pub fn refuse_zones(
    faults: &mut Faults,
    reader: &Reader<'_, '_>,
    known: &[Text],
) -> Result<(), InputFault> {
    let Ok(top) = reader.object() else {
        return Ok(());
    };
    for name in LISTS {
        let Some(list) = top.optional(name) else {
            continue;
        };
        for (index, value) in items_of(top.members(), name).iter().enumerate() {
            refuse_in_definition(faults, &list.item(index, value), known)?;
        }
    }
    Ok(())
}

/// Adds a fault for each zone that isn't known in the intervals of a definition.
fn refuse_in_definition(
    faults: &mut Faults,
    reader: &Reader<'_, '_>,
    known: &[Text],
) -> Result<(), InputFault> {
    let Ok(definition) = reader.object() else {
        return Ok(());
    };
    let Some(list) = definition.optional(INTERVALS) else {
        return Ok(());
    };
    for (index, value) in items_of(definition.members(), INTERVALS).iter().enumerate() {
        refuse_in_interval(faults, &list.item(index, value), known)?;
    }
    Ok(())
}

fn refuse_in_interval(
    faults: &mut Faults,
    reader: &Reader<'_, '_>,
    known: &[Text],
) -> Result<(), InputFault> {
    let Ok(interval) = reader.object() else {
        return Ok(());
    };
    let Some(location) = interval.optional(LOCATION) else {
        return Ok(());
    };
    match location.text() {
        Ok(name) if is_looked_for(name) && !is_known(known, name) => {
            faults.push(location.refuse(FaultKind::BadValue))
        }
        _ => Ok(()),
    }
}

fn is_known(known: &[Text], name: &str) -> bool {
    known.iter().any(|zone| zone.as_str() == name)
}

/// Names of zones, each once. Contracts see how many they are.
#[derive(Drop)]
struct ZoneNames {
    list: Vec<Text>,
}

impl Model for ZoneNames {
    ghost use Rattle.std.specs.Prelude.{◌≤◌, ℕ, vec_len};
    ghost use Rattle.am_config.specs.declared.hours.TheConstants.{MAX_ZONES};

    ghost Value = { ℕ };

    ghost view = { λ z. vec_len z.list };

    ghost invariant = { λ z. vec_len z.list ≤ MAX_ZONES };
}

impl ZoneNames {
    /// Adds the zones of a definition's intervals.
    fn add_zones(&mut self, alloc: Global, definition: &Value) -> Result<(), InputFault> {
        if let Some(members) = definition.as_object() {
            for interval in items_of(members, INTERVALS) {
                if let Some(name) = location_of(interval) {
                    self.add(alloc, name)?;
                }
            }
        }
        Ok(())
    }

    /// Adds a zone, if there is capacity and it isn't there already.
    fn add(&mut self, alloc: Global, name: &str) -> Result<(), InputFault> {
        if self.list.len() < MAX_ZONES && is_looked_for(name) && !self.has(name) {
            self.list.push(Text::new(alloc, name)?)?;
        }
        Ok(())
    }

    fn has(&self, name: &str) -> bool {
        self.list.iter().any(|known| known.as_str() == name)
    }
}

/// The items of a member, if it is an array.
fn items_of<'v>(members: &'v Map<String, Value>, name: &str) -> &'v [Value] {
    match members.get(name).and_then(|value| value.as_array()) {
        None => &[],
        Some(items) => items.as_slice(),
    }
}

fn location_of(interval: &Value) -> Option<&str> {
    interval.as_object()?.get(LOCATION)?.as_str()
}

/// Whether a location is a zone that isn't known without its name.
fn is_looked_for(name: &str) -> bool {
    !is_utc(name) && name != LOCAL && may_be_zone(name)
}
