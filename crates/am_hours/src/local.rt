//! What a zone's clock shows at an instant, and how long its months are.
ghost use Rattle.std.specs.Prelude.{◌≡◌, ◌≤◌, ◌<◌, ◌+ℤ◌, ◌*ℤ◌, ◌≤ℤ◌, ◌<ℤ◌, ◌↔◌, ◌^◌, pos, neg_ℤ, int_div, IfErr, IfOk, IsOk};
ghost use Rattle.std.specs.Int.{int_div_euclid};
ghost use Rattle.jiff.specs.Words.{civil_nanos, IsBetween, IsTimestampNanos, nanos_of_seconds, plain_zone};
ghost use Rattle.am_hours.specs.Clocks.{AreDaysOfMonth, days_between, left_in_month, month_later, month_start, offset_in, second_of};
ghost use Rattle.am_hours.specs.Showing.{IsLocal, milliseconds_in};
ghost use Rattle.am_hours.specs.declared.clock.ClockFault.TheVariants.{OutOfRange};

use crate::clock::ClockFault;
use crate::piece::DAY;
use jiff::Timestamp;
use jiff::civil::{Date, DateTime, Time};
use jiff::tz::{Offset, TimeZone};

/// The seconds of a day.
const DAY_SECONDS: u64 = 86_400;

/// A date and a time of day.
#[derive(Clone, Copy)]
pub(crate) struct LocalTime {
    pub(crate) year: u64,
    pub(crate) month: u64,
    pub(crate) day: u64,
    /// From 0 for Sunday.
    pub(crate) weekday: u64,
    /// The milliseconds from midnight.
    pub(crate) time: u64,
}

impl LocalTime {
    /// Returns the numbers of a date and time in the years 1 to 9999.
    pub(crate) fn of(shown: DateTime) -> Result<LocalTime, ClockFault>
        ensures shown { IfOk result (IsLocal shown) }
        ensures day { IfOk result (λ local. local.day ≤ 31) }
        ensures weekday { IfOk result (λ local. local.weekday < 7) }
        ensures time { IfOk result (λ local. local.time < 86400000) }
        ensures year { IfOk result (λ _. pos 0 <ℤ shown.date.year) }
        ensures refused { IfErr result (λ fault. fault ≡ OutOfRange) }
        ensures early { IfErr result (λ _. shown.date.year ≤ℤ pos 0) }
    {
        if shown.year() < 1 {
            return Err(ClockFault::OutOfRange);
        }
        Ok(LocalTime {
            year: shown.year() as u64,
            month: shown.month() as u64,
            day: shown.day() as u64,
            weekday: (shown.weekday().to_monday_zero_offset() as u64 + 1) % 7,
            time: milliseconds_of(shown),
        })
    }
}

/// Returns the milliseconds to the end of the month, on a clock whose offset stays.
pub(crate) fn left_in_month(shown: DateTime) -> u64
    ensures value { result ≡ left_in_month shown }
    ensures some { 0 < result }
    ensures bound { result ≤ 11059200000 }
{
    let days = shown.days_in_month() as u64 + 1 - shown.day() as u64;
    days * DAY - milliseconds_of(shown)
}

/// Returns the milliseconds since 1970 at an instant, without parts of a millisecond.
pub(crate) fn milliseconds_at(instant: Timestamp) -> i64
    ensures { result ≡ int_div_euclid instant.nanosecond (pos 1000000) }
{
    instant.as_nanosecond().div_euclid(1_000_000) as i64
}

/// Returns the instant at a time, in milliseconds from an instant in milliseconds since 1970.
pub(crate) fn instant_at(origin: i64, at: u64) -> Result<Timestamp, ClockFault>
    ensures value { IfOk result (λ instant. instant.nanosecond ≡ (origin +ℤ pos at) *ℤ pos 1000000) }
    ensures refused { IfErr result (λ fault. fault ≡ OutOfRange) }
    ensures succeeds { IsOk result ↔ IsTimestampNanos ((origin +ℤ pos at) *ℤ pos 1000000) }
{
    match Timestamp::from_nanosecond((origin as i128 + at as i128) * 1_000_000) {
        Err(_) => Err(ClockFault::OutOfRange),
        Ok(instant) => Ok(instant),
    }
}

/// Returns the days of a month as Alertmanager counts them: the whole 24 hours from its first
/// midnight to a month later on the clock (`timeinterval.daysInMonth`).
pub(crate) fn days_of_month_at(zone: TimeZone<'_>, local: &LocalTime) -> Result<u64, ClockFault>
    ensures counted { AreDaysOfMonth (plain_zone zone.entry) (pos local.now.year) local.now.month result }
    ensures refused { IfErr result (λ fault. fault ≡ OutOfRange) }
{
    let first = second_of(zone, month_start(local.year, local.month)?)?;
    let shown = zone.to_datetime(second_at(first)?);
    let next = second_of(zone, month_later(&LocalTime::of(shown)?)?)?;
    days_between(first, next)
}

/// The whole days from one second to another.
fn days_between(first: i64, next: i64) -> Result<u64, ClockFault>
    ensures value { result ≡ days_between first next }
    ensures refused { IfErr result (λ fault. fault ≡ OutOfRange) }
{
    if next < first {
        return Err(ClockFault::OutOfRange);
    }
    Ok(next.abs_diff(first) / DAY_SECONDS)
}

/// The local seconds a month behind a date and time, as Go's `Time.AddDate(0, 1, 0)`: a day that
/// the month hasn't runs over into the next.
fn month_later(local: &LocalTime) -> Result<i64, ClockFault>
    requires year { local.now.year < 2 ^ 32 }
    requires day { local.now.day ≤ 31 }
    requires time { local.now.time < 86400000 }
    ensures value { result ≡ month_later (pos local.now.year) local.now.month local.now.day local.now.time }
    ensures refused { IfErr result (λ fault. fault ≡ OutOfRange) }
{
    let start = if local.month < 12 {
        month_start(local.year, local.month + 1)?
    } else {
        month_start(local.year + 1, 1)?
    };
    let seconds = local.day.saturating_sub(1) * DAY_SECONDS + local.time / 1_000;
    Ok(start + seconds as i64)
}

/// The local seconds since 1970 at which a month begins.
fn month_start(year: u64, month: u64) -> Result<i64, ClockFault>
    ensures value { result ≡ month_start (pos year) month }
    ensures refused { IfErr result (λ fault. fault ≡ OutOfRange) }
    ensures bound { IfOk result (IsBetween (neg_ℤ (pos 377705023201)) (pos 253402207200)) }
{
    let (Ok(year), Ok(month)) = (i16::try_from(year), i8::try_from(month)) else {
        return Err(ClockFault::OutOfRange);
    };
    match Date::new(year, month, 1) {
        Err(_) => Err(ClockFault::OutOfRange),
        Ok(date) => local_seconds(DateTime::from_parts(date, Time::MIN)),
    }
}

/// The seconds since 1970 that a clock shows at a date and time.
fn local_seconds(local: DateTime) -> Result<i64, ClockFault>
    ensures value { IfOk result (λ seconds. seconds ≡ int_div (civil_nanos local) (pos 1000000000)) }
    ensures refused { IfErr result (λ fault. fault ≡ OutOfRange) }
    ensures succeeds { IsOk result ↔ IsTimestampNanos (civil_nanos local) }
{
    match Offset::UTC.to_timestamp(local) {
        Err(_) => Err(ClockFault::OutOfRange),
        Ok(instant) => Ok(instant.as_second()),
    }
}

/// The second, since 1970, that Go's `time.Date` gives for local seconds: by the offset at the
/// second that the offset at these seconds of UTC leads to.
fn second_of(zone: TimeZone<'_>, local: i64) -> Result<i64, ClockFault>
    ensures value { result ≡ second_of (plain_zone zone.entry) local }
    ensures refused { IfErr result (λ fault. fault ≡ OutOfRange) }
{
    let guess = local - offset_in(zone, local)?;
    Ok(local - offset_in(zone, guess)?)
}

/// The offset at a second since 1970.
fn offset_in(zone: TimeZone<'_>, second: i64) -> Result<i64, ClockFault>
    ensures value { result ≡ offset_in (plain_zone zone.entry) second }
    ensures refused { IfErr result (λ fault. fault ≡ OutOfRange) }
    ensures second { IfOk result (λ _. IsBetween (neg_ℤ (pos 377705023201)) (pos 253402207200) second) }
    ensures near { IfOk result (IsBetween (neg_ℤ (pos 93599)) (pos 93599)) }
{
    Ok(zone.to_offset(second_at(second)?).seconds() as i64)
}

fn second_at(second: i64) -> Result<Timestamp, ClockFault>
    ensures value { IfOk result (λ instant. instant.nanosecond ≡ nanos_of_seconds second) }
    ensures refused { IfErr result (λ fault. fault ≡ OutOfRange) }
    ensures succeeds { IsOk result ↔ IsTimestampNanos (nanos_of_seconds second) }
{
    match Timestamp::from_second(second) {
        Err(_) => Err(ClockFault::OutOfRange),
        Ok(instant) => Ok(instant),
    }
}

/// The milliseconds from midnight.
fn milliseconds_of(shown: DateTime) -> u64
    ensures value { result ≡ milliseconds_in shown }
    ensures bound { result < 86400000 }
{
    let seconds = shown.hour() as u64 * 3_600 + shown.minute() as u64 * 60 + shown.second() as u64;
    seconds * 1_000 + shown.subsec_nanosecond() as u64 / 1_000_000
}
