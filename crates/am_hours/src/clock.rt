//! A zone's local clock from a start on, as pieces: each at one offset from UTC, in one month.
ghost use Rattle.std.specs.Prelude.{◌≡◌, ◌≤◌, ◌<◌, ◌↔◌, ◌+ℤ◌, ◌*ℤ◌, Err, IfErr, IfOk, IfSome, IsTrue, true};
ghost use Rattle.std.specs.Int.{int_div_euclid};
ghost use Rattle.std.specs.List.{All, list_all};
ghost use Rattle.std.specs.Prelude.{pos};
ghost use Rattle.jiff.specs.Words.{next_at, plain_zone};
ghost use Rattle.am_hours.specs.Clocks.{IsNoClock, IsNoPiece, IsPieceOf, stays, until_next};
ghost use Rattle.am_hours.specs.Pieces.{are_in_row, is_sound};
ghost use Rattle.am_hours.specs.Showing.{BeginsAsShown};
ghost use Rattle.am_hours.specs.declared.clock.ClockFault.TheVariants.{TooLong};
ghost use Rattle.am_hours.specs.declared.clock.TheConstants.{MAX_HORIZON};

use crate::local::{LocalTime, days_of_month_at, instant_at, left_in_month, milliseconds_at};
use crate::piece::Piece;
use jiff::Timestamp;
use jiff::tz::TimeZone;
use std::alloc::{AllocError, AllocFailed, Global};
use std::marker::Model;
use thiserror::Error;

/// The last time of a clock, in milliseconds from its start.
pub const MAX_HORIZON: u64 = 1_000_000_000_000_000;

/// Why there is no clock.
#[derive(Clone, Copy, Debug, PartialEq, Eq, Error)]
pub enum ClockFault {
    #[error("a time is not in the years 1 to 9999")]
    OutOfRange = 1,
    #[error("the horizon is above 10^15 milliseconds")]
    TooLong,
    #[error("the zone's changes don't run forward")]
    BadZone,
    #[error("out of memory")]
    NoMemory,
}

impl From<AllocError> for ClockFault {
    ghost use Rattle.std.specs.Prelude.{◌≡◌};
    ghost use Rattle.am_hours.specs.declared.clock.ClockFault.TheVariants.{NoMemory};

    ghost from_gives = { λ given fault. fault ≡ NoMemory };

    fn from(_: AllocError) -> ClockFault {
        ClockFault::NoMemory
    }
}

impl From<AllocFailed<Piece>> for ClockFault {
    ghost use Rattle.std.specs.Prelude.{◌≡◌};
    ghost use Rattle.am_hours.specs.declared.clock.ClockFault.TheVariants.{NoMemory};

    ghost from_gives = { λ given fault. fault ≡ NoMemory };

    fn from(_: AllocFailed<Piece>) -> ClockFault {
        ClockFault::NoMemory
    }
}

/// A local clock: what it shows at each time from 0 to a horizon, in milliseconds from a start.
#[derive(Drop)]
pub struct Clock {
    pieces: Vec<Piece>,
    horizon: u64,
}

impl Model for Clock {
    ghost use Rattle.std.specs.Prelude.{◌≡◌, true};
    ghost use Rattle.am_hours.specs.Pieces.{ClockData, are_in_row};

    ghost Value = { ClockData };

    ghost view = { λ c. record { pieces = c.pieces.items; horizon = c.horizon } };

    ghost invariant = { λ c. are_in_row 0 c.pieces.items c.horizon ≡ true };
}

impl Clock {
    /// Returns a zone's clock from a start on, whose parts of a millisecond are dropped.
    ///
    /// # Errors
    /// - `TooLong`: the horizon is above 10^15.
    /// - `OutOfRange`: a time, or the month behind it, isn't in the years 1 to 9999 of the clock.
    /// - `BadZone`: the changes of the zone's offset don't run forward.
    /// - `NoMemory`.
    pub fn new(
        alloc: Global,
        zone: TimeZone<'_>,
        start: Timestamp,
        horizon: u64,
    ) -> Result<Clock, ClockFault>
        ensures horizon { IfOk result (λ clock. clock.horizon ≡ horizon) }
        ensures shown { IfOk result (λ clock.
            All (BeginsAsShown (plain_zone zone.entry) (int_div_euclid start.nanosecond (pos 1000000))) clock.pieces) }
        ensures pieces { IfOk result (λ clock.
            All (IsPieceOf (plain_zone zone.entry) (int_div_euclid start.nanosecond (pos 1000000)) horizon) clock.pieces) }
        ensures long { (result ≡ Err TooLong) ↔ (MAX_HORIZON < horizon) }
        ensures refused { IfErr result (IsNoClock (plain_zone zone.entry) (int_div_euclid start.nanosecond (pos 1000000)) horizon) }
    {
        if horizon > MAX_HORIZON {
            return Err(ClockFault::TooLong);
        }
        let origin = milliseconds_at(start);
        let mut pieces = Vec::new(alloc);
        let mut at = 0u64;
        while at < horizon {
            let piece = piece_from(zone, origin, at, horizon)?;
            at = piece.to;
            pieces.push(piece)?;
        }
        Ok(Clock { pieces, horizon })
    }

    /// The pieces, in their order.
    pub fn pieces(&self) -> &[Piece]
        ensures pieces { result.now ≡ self.now.pieces }
        ensures row { IsTrue (are_in_row 0 self.now.pieces self.now.horizon) }
        ensures sound { IsTrue (list_all is_sound self.now.pieces) }
    {
        &self.pieces
    }

    /// The time at which the clock ends.
    pub fn horizon(&self) -> u64
        ensures { result ≡ self.now.horizon }
    {
        self.horizon
    }
}

/// The piece that begins at a time.
fn piece_from(zone: TimeZone<'_>, origin: i64, at: u64, horizon: u64) -> Result<Piece, ClockFault>
    requires at { at < horizon }
    requires horizon { horizon ≤ 1000000000000000 }
    ensures from { IfOk result (λ piece. piece.from ≡ at) }
    ensures to { IfOk result (λ piece. piece.to ≤ horizon) }
    ensures sound { IfOk result (λ piece. IsTrue (is_sound piece)) }
    ensures shown { IfOk result (BeginsAsShown (plain_zone zone.entry) origin) }
    ensures piece { IfOk result (IsPieceOf (plain_zone zone.entry) origin horizon) }
    ensures refused { IfErr result (IsNoPiece (plain_zone zone.entry) ((origin +ℤ pos at) *ℤ pos 1000000)) }
{
    let now = instant_at(origin, at)?;
    let civil = zone.to_datetime(now);
    let shown = LocalTime::of(civil)?;
    let stays = shorter(left_in_month(civil), until_change(zone, now)?);
    let days_of_month_at = days_of_month_at(zone, &shown)?;
    Ok(Piece {
        from: at,
        to: horizon.min(at + stays),
        time: shown.time,
        day: shown.day,
        month: shown.month,
        weekday: shown.weekday,
        year: shown.year,
        days_of_month_at,
    })
}

/// How long a clock stays as it is: to the end of the month, or to its next change if that is earlier.
fn shorter(left: u64, change: Option<u64>) -> u64
    ensures { result ≡ stays left change }
{
    match change {
        None => left,
        Some(change) => left.min(change),
    }
}

/// The milliseconds to the zone's next change, if there is one.
fn until_change(zone: TimeZone<'_>, now: Timestamp) -> Result<Option<u64>, ClockFault>
    ensures value { result ≡ until_next (next_at (plain_zone zone.entry) now.nanosecond) now.nanosecond }
    ensures some { IfOk result (λ change. IfSome change (λ left. 0 < left)) }
{
    match zone.following(now).next() {
        None => Ok(None),
        Some(change) => {
            let (then, now) = (change.timestamp().as_millisecond(), now.as_millisecond());
            if then <= now {
                return Err(ClockFault::BadZone);
            }
            Ok(Some(then.abs_diff(now)))
        }
    }
}
