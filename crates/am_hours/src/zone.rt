//! Time zones, from what a caller hands in: no zone is looked up by its name.
ghost use Rattle.std.specs.Prelude.{◌≡◌, ◌↔◌, Err, IfErr, IfOk, IsOk, IsSome};
ghost use Rattle.jiff.specs.Types.{TzifFault, UTC};
ghost use Rattle.jiff.specs.Words.{plain_zone, read_whole};
ghost use Rattle.jiff_tz.specs.TzifReader.{read_tzif};
ghost use Rattle.am_hours.specs.Zones.{IsFileFault, IsInJiff, IsOfFile, IsOfRule, OfJiff};
ghost use Rattle.am_hours.specs.declared.zone.ZoneFault.TheVariants.{BadFile, BadRule};

use jiff::Error as JiffError;
use jiff::tz::{TimeZone, Tzif};
use std::alloc::Global;
use std::marker::Model;
use thiserror::Error;

/// Why bytes or a rule make no zone.
#[derive(Clone, Copy, Debug, PartialEq, Eq, Error)]
pub enum ZoneFault {
    #[error("no POSIX rule, such as `CET-1CEST,M3.5.0,M10.5.0/3`")]
    BadRule = 1,
    #[error("no file of a time zone (TZif)")]
    BadFile,
    #[error("out of memory")]
    NoMemory,
}

/// A time zone. Contracts see jiff's zone, or what jiff read in a file.
#[derive(Drop)]
pub struct Zone {
    kind: ZoneKind,
}

#[derive(Drop)]
enum ZoneKind {
    Rule(TimeZone<'static>),
    File(Tzif),
}

impl Model for Zone {
    ghost use Rattle.am_hours.specs.Zones.{ZoneData, zone_of};

    ghost Value = { ZoneData };

    ghost view = { λ z. zone_of z.kind };
}

impl Zone {
    /// Returns UTC.
    pub fn utc() -> Zone
        ensures { result ≡ OfJiff UTC }
    {
        Zone {
            kind: ZoneKind::Rule(TimeZone::UTC),
        }
    }

    /// Returns the zone of a POSIX rule, such as `CET-1CEST,M3.5.0,M10.5.0/3`. That is the last
    /// line of the zone's file.
    ///
    /// # Errors
    /// `BadRule`: the text has another form.
    pub fn from_rule(rule: &str) -> Result<Zone, ZoneFault>
        ensures succeeds { IsOk result ↔ IsSome (read_whole rule.now) }
        ensures value { IfOk result (IsOfRule rule.now) }
        ensures refused { IfErr result (λ fault. fault ≡ BadRule) }
    {
        match TimeZone::posix(rule) {
            Ok(zone) => Ok(Zone {
                kind: ZoneKind::Rule(zone),
            }),
            Err(_) => Err(ZoneFault::BadRule),
        }
    }

    /// Returns the zone of the bytes of a file of `/usr/share/zoneinfo`.
    ///
    /// # Errors
    /// - `BadFile`: the bytes have another form, or their rule contradicts their table.
    /// - `NoMemory`: never at bytes of another form.
    pub fn from_file(alloc: Global, bytes: &[u8]) -> Result<Zone, ZoneFault>
        ensures value { IfOk result (IsOfFile bytes.now) }
        ensures refused { IfErr result (IsFileFault bytes.now) }
        ensures malformed { (fault : TzifFault) → read_tzif bytes.now ≡ Err fault → result ≡ Err BadFile }
    {
        match Tzif::parse(alloc, None, bytes) {
            Ok(zone) => Ok(Zone {
                kind: ZoneKind::File(zone),
            }),
            Err(JiffError::OutOfMemory) => Err(ZoneFault::NoMemory),
            Err(_) => Err(ZoneFault::BadFile),
        }
    }

    /// Returns the zone as `jiff` has it.
    pub fn time_zone(&self) -> TimeZone<'_>
        ensures { IsInJiff self.now (plain_zone result) }
    {
        match &self.kind {
            ZoneKind::Rule(zone) => *zone,
            ZoneKind::File(file) => TimeZone::tzif(file),
        }
    }
}
