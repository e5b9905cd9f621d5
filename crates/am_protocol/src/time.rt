//! Times in lines: milliseconds, or the text of a duration.
ghost use Rattle.std.specs.Prelude.{◌≡◌, ℕ, None, Option, IfErr, IfOk, codes};
ghost use Rattle.std.specs.Result.{result_ok};
ghost use Rattle.serde_json.specs.View.{members_view, view};
ghost use Rattle.am_json.specs.Decoding.{Has, HasOr};
ghost use Rattle.am_json.specs.Read.{Excludes};
ghost use Rattle.am_protocol.specs.Time.{IsEnd, IsNow, IsTime, time_in};

use am_alerts::limits::MAX_TIME;
use am_json::duration::duration;
use am_json::fault::{FaultKind, InputFault};
use am_json::reader::{Object, Reader};

/// Reads a time: a number of milliseconds, or a duration as `4h30m`.
fn time(reader: &Reader<'_, '_>) -> Result<u64, InputFault>
    ensures { result_ok result ≡ time_in (view reader.now.value) }
{
    if reader.is_text() {
        duration(reader)
    } else {
        reader.number()
    }
}

/// Reads the time of a call, the member `now`. The greatest time, at which a board's clock would stay, is refused.
pub(crate) fn now_at(call: &Object<'_, '_>) -> Result<u64, InputFault>
    ensures decoded { IfOk result (Has IsNow (codes "now") (members_view call.now.members)) }
    ensures refused { IfErr result (Excludes (Has IsNow (codes "now") (members_view call.now.members))) }
{
    now(&call.required("now")?)
}

fn now(reader: &Reader<'_, '_>) -> Result<u64, InputFault>
    ensures decoded { IfOk result (IsNow (view reader.now.value)) }
    ensures refused { IfErr result (Excludes (IsNow (view reader.now.value))) }
{
    let now = time(reader)?;
    if now >= MAX_TIME {
        return Err(reader.refuse(FaultKind::BadValue));
    }
    Ok(now)
}

/// Reads a time that must be there.
pub(crate) fn time_at(object: &Object<'_, '_>, name: &str) -> Result<u64, InputFault>
    ensures decoded { IfOk result (Has IsTime name.now (members_view object.now.members)) }
    ensures refused { IfErr result (Excludes (Has IsTime name.now (members_view object.now.members))) }
{
    time(&object.required(name)?)
}

/// Reads a time, or what it is if the member isn't there.
pub(crate) fn time_or(object: &Object<'_, '_>, name: &str, absent: u64) -> Result<u64, InputFault>
    ensures decoded { IfOk result (HasOr IsTime absent name.now (members_view object.now.members)) }
    ensures refused { IfErr result (Excludes (HasOr IsTime absent name.now (members_view object.now.members))) }
{
    match object.optional(name) {
        None => Ok(absent),
        Some(member) => time(&member),
    }
}

/// Reads when an alert ends, the member `ends`: a time, or `null` for none.
pub(crate) fn ends(alert: &Object<'_, '_>) -> Result<Option<u64>, InputFault>
    ensures decoded { IfOk result (HasOr IsEnd None (codes "ends") (members_view alert.now.members)) }
    ensures refused { IfErr result (Excludes (λ (end : Option ℕ). HasOr IsEnd None (codes "ends") (members_view alert.now.members) end)) }
{
    match alert.optional("ends") {
        None => Ok(None),
        Some(member) => end(&member),
    }
}

fn end(member: &Reader<'_, '_>) -> Result<Option<u64>, InputFault>
    ensures decoded { IfOk result (IsEnd (view member.now.value)) }
    ensures refused { IfErr result (Excludes (λ (end : Option ℕ). IsEnd (view member.now.value) end)) }
{
    if member.is_null() {
        return Ok(None);
    }
    Ok(Some(time(member)?))
}
