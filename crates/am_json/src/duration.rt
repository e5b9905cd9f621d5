//! Durations in JSON.
ghost use Rattle.std.specs.Prelude.{◌≡◌, ◌<◌, Ok, IfOk, MatchOption};
ghost use Rattle.std.specs.Result.{result_ok};
ghost use Rattle.serde_json.specs.Find.{get_member};
ghost use Rattle.serde_json.specs.View.{members_view, view};
ghost use Rattle.am_json.specs.Read.{duration_in, interval_in};

use crate::fault::{FaultKind, InputFault};
use crate::reader::{Object, Reader};
use am_alerts::duration::read_duration;

/// A duration, in milliseconds, or what it is if the member isn't there. `Kind` for what is no text,
/// `Value` for a text that is no duration, or one above 10^12.
pub fn duration_or(object: &Object<'_, '_>, name: &str, absent: u64) -> Result<u64, InputFault>
    ensures { MatchOption (get_member name.now (members_view object.now.members)) (result ≡ Ok absent)
        (λ member. result_ok result ≡ duration_in member) }
{
    match object.optional(name) {
        None => Ok(absent),
        Some(member) => duration(&member),
    }
}

/// A duration that isn't zero, in milliseconds, or what it is if the member isn't there. `Value` for
/// zero too.
pub fn interval_or(object: &Object<'_, '_>, name: &str, absent: u64) -> Result<u64, InputFault>
    ensures value { MatchOption (get_member name.now (members_view object.now.members)) (result ≡ Ok absent)
        (λ member. result_ok result ≡ interval_in member) }
    ensures some { 0 < absent → IfOk result (λ interval. 0 < interval) }
{
    match object.optional(name) {
        None => Ok(absent),
        Some(member) => interval(&member),
    }
}

/// Reads a duration, in milliseconds. `Kind` for what is no text, `Value` for a text that is no
/// duration, or one above 10^12.
pub fn duration(reader: &Reader<'_, '_>) -> Result<u64, InputFault>
    ensures { result_ok result ≡ duration_in (view reader.now.value) }
{
    match read_duration(reader.text()?) {
        Ok(duration) => Ok(duration),
        Err(_) => Err(reader.refuse(FaultKind::BadValue)),
    }
}

/// Reads a duration that isn't zero, in milliseconds. `Value` for zero too.
pub fn interval(reader: &Reader<'_, '_>) -> Result<u64, InputFault>
    ensures value { result_ok result ≡ interval_in (view reader.now.value) }
    ensures some { IfOk result (λ interval. 0 < interval) }
{
    match duration(reader)? {
        0 => Err(reader.refuse(FaultKind::BadValue)),
        interval => Ok(interval),
    }
}
