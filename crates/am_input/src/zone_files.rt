//! `ZoneFiles`: where the files of the time zones are read from that a configuration names and a story doesn't say.
use std::alloc::AllocError;

/// Where the files of time zones are read from.
pub trait ZoneFiles {
    /// Adds the bytes of a zone's file, and returns whether there is one that could be read, of at most 1 MiB.
    fn read(&mut self, name: &str, into: &mut Vec<u8>) -> Result<bool, AllocError>;
}
