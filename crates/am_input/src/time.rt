//! The time of the start, and how it is read.
ghost use Rattle.std.specs.Prelude.{IfErr, IfOk, codes};
ghost use Rattle.serde_json.specs.Find.{get_member};
ghost use Rattle.serde_json.specs.View.{members_view};
ghost use Rattle.am_json.specs.Read.{Excludes};
ghost use Rattle.am_input.specs.Request.{DecodesToStart};

use am_json::fault::{FaultKind, InputFault};
use am_json::reader::Object;
use am_terms::dated::UtcDates;

/// When the rehearsal starts, if it is given: a text of RFC 3339, of the years 0 to 9999 of UTC.
pub fn start(top: &Object<'_, '_>) -> Result<Option<UtcDates>, InputFault>
    ensures decoded { IfOk result (λ start.
        DecodesToStart (get_member (codes "start") (members_view top.now.members)) start) }
    ensures refused { IfErr result (Excludes (DecodesToStart (get_member (codes "start") (members_view top.now.members)))) }
{
    let Some(member) = top.optional("start") else {
        return Ok(None);
    };
    match UtcDates::read(member.text()?) {
        None => Err(member.refuse(FaultKind::BadValue)),
        Some(start) => Ok(Some(start)),
    }
}
