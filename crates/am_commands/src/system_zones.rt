//! `SystemZones`: the files of time zones of the system.
ghost use Rattle.std.specs.Prelude.{◌<◌};

use am_console::files::{FileFault, open};
use am_input::zone_files::ZoneFiles;
use am_json::device::Source;
use std::alloc::AllocError;
use std::rt::Files;

/// How many bytes the file of a time zone may have: 1 MiB.
const MAX_ZONE_FILE: usize = 1_048_576;

/// How many bytes are asked for at once.
const CHUNK: usize = 8_192;

/// The files of time zones of the system.
#[derive(Drop)]
pub struct SystemZones<'r, R> {
    rt: &'r R,
}

impl<'r, R> SystemZones<'r, R> {
    /// Returns the files of a runtime's system.
    pub fn new(rt: &'r R) -> SystemZones<'r, R> {
        SystemZones { rt }
    }
}

impl<'r, R: Files + AllocGlobal> ZoneFiles for SystemZones<'r, R> {
    fn read(&mut self, name: &str, into: &mut Vec<u8>) -> Result<bool, AllocError> {
        let path = format!(in self.rt.alloc(); "/usr/share/zoneinfo/{name}")?;
        match open(self.rt, path.as_str()) {
            Ok(mut file) => read_up_to(MAX_ZONE_FILE, &mut file, into),
            Err(FileFault::NoMemory) => Err(AllocError),
            Err(_) => Ok(false),
        }
    }
}

/// Adds all bytes of a source, and returns whether that could be done: every read succeeds, and there are at most so many.
fn read_up_to<S: Source>(
    most: usize,
    source: &mut S,
    into: &mut Vec<u8>,
) -> Result<bool, AllocError> {
    let mut chunk = [0u8; CHUNK];
    let mut left = most;
    for _read in 0..=most {
        let Ok(count) = source.read(&mut chunk) else {
            return Ok(false);
        };
        if count == 0 {
            return Ok(true);
        }
        if count > left {
            return Ok(false);
        }
        left -= count;
        into.extend_from_slice(&chunk[..count])?;
    }
    Ok(false)
}
