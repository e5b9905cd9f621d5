//! The time zones that a configuration names, and which of them aren't there.
use am_alerts::text::Text;
use am_config::hours::{refuse_zones, zone_names};
use am_hours::zone::Zone;
use am_input::zone_files::ZoneFiles;
use am_json::fault::InputFault;
use am_json::faults::Faults;
use am_json::reader::Reader;
use serde_json::Value;
use std::alloc::{AllocError, Global};

/// Returns a fault for each zone that a configuration of Alertmanager names and that no file has.
pub fn missing_zones<Z: ZoneFiles>(
    alloc: Global,
    config: &Value,
    files: &mut Z,
) -> Result<Faults, InputFault> {
    let reader = Reader::strict(alloc, config);
    let known = known_zones(alloc, &reader, files)?;
    let mut faults = Faults::none(alloc);
    refuse_zones(&mut faults, &reader, known.as_slice())?;
    Ok(faults)
}

/// Returns the zones that a configuration names and that a file has.
fn known_zones<Z: ZoneFiles>(
    alloc: Global,
    reader: &Reader<'_, '_>,
    files: &mut Z,
) -> Result<Vec<Text>, InputFault> {
    let mut known = Vec::new(alloc);
    for name in zone_names(reader)? {
        if has_zone(alloc, name.as_str(), files)? {
            known.push(name)?;
        }
    }
    Ok(known)
}

/// Returns whether there is a file of a zone's name, with a zone in it.
fn has_zone<Z: ZoneFiles>(alloc: Global, name: &str, files: &mut Z) -> Result<bool, AllocError> {
    let mut bytes = Vec::new(alloc);
    if !files.read(name, &mut bytes)? {
        return Ok(false);
    }
    Ok(Zone::from_file(alloc, bytes.as_slice()).is_ok())
}
