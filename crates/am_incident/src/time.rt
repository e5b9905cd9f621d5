//! Times in answers, as milliseconds since 1970.
use am_json::fault::{FaultKind, InputFault};
use am_json::reader::{Object, Reader};
use jiff::Timestamp;
use serde_json::Value;
use std::alloc::AllocError;

/// The last millisecond of the year 9999.
const LAST: u64 = 253_402_300_799_999;

/// Reads a time of Prometheus: seconds since 1970, perhaps with a fraction. Parts of a millisecond are dropped.
pub(crate) fn read_seconds(reader: &Reader<'_, '_>, value: &Value) -> Result<u64, InputFault> {
    let Value::Number(number) = value else {
        return Err(reader.refuse(FaultKind::WrongType));
    };
    let mut text = String::new(reader.alloc());
    write!(text, "{number}")?;
    match milliseconds_of(text.as_str()) {
        None => Err(reader.refuse(FaultKind::BadValue)),
        Some(milliseconds) => Ok(milliseconds),
    }
}

/// Returns the milliseconds of seconds in decimal digits, up to the year 9999.
fn milliseconds_of(seconds: &str) -> Option<u64> {
    let (whole, fraction) = match seconds.split_once('.') {
        None => (seconds, ""),
        Some(parts) => parts,
    };
    let whole = whole.parse::<u64>().ok()?.checked_mul(1_000)?;
    let milliseconds = whole.checked_add(fraction_of(fraction)?)?;
    if milliseconds > LAST {
        return None;
    }
    Some(milliseconds)
}

/// Returns the milliseconds of the digits behind the point.
fn fraction_of(digits: &str) -> Option<u64> {
    let mut milliseconds = 0u64;
    let mut weight = 100u64;
    for digit in digits.chars() {
        let digit = u64::from(digit.to_digit(10)?);
        milliseconds = milliseconds.saturating_add(digit.saturating_mul(weight));
        weight = weight.checked_div(10)?;
    }
    Some(milliseconds)
}

/// Reads the time of this name, which must be there.
pub(crate) fn required_time(object: &Object<'_, '_>, name: &str) -> Result<u64, InputFault> {
    read_time(&object.required(name)?)
}

/// Reads the time of this name, if it is there.
pub(crate) fn optional_time(
    object: &Object<'_, '_>,
    name: &str,
) -> Result<Option<u64>, InputFault> {
    match object.optional(name) {
        None => Ok(None),
        Some(reader) => Ok(Some(read_time(&reader)?)),
    }
}

/// Reads a time of Alertmanager, such as `2026-11-23T08:00:00.000Z` (RFC 3339), in the years from 1970 on.
fn read_time(reader: &Reader<'_, '_>) -> Result<u64, InputFault> {
    match time_of(reader.text()?) {
        None => Err(reader.refuse(FaultKind::BadValue)),
        Some(milliseconds) => Ok(milliseconds),
    }
}

fn time_of(text: &str) -> Option<u64> {
    let time = text.parse::<Timestamp>().ok()?;
    let milliseconds = u64::try_from(time.as_millisecond()).ok()?;
    if milliseconds > LAST {
        return None;
    }
    Some(milliseconds)
}

/// Adds a time as a story has it, such as `2026-11-23T08:00:00Z`.
pub(crate) fn push_time(at: u64, out: &mut String) -> Result<(), AllocError> {
    let time = match i64::try_from(at) {
        Ok(at) => Timestamp::from_millisecond(at).unwrap_or_default(),
        Err(_) => Timestamp::default(),
    };
    write!(out, "{time}")
}
