//! Spans of time of alerts, silences and outages, and how they are read.
ghost use Rattle.std.specs.Prelude.{◌<◌, ℕ, IfErr, IfOk, IfSome, Option, codes};
ghost use Rattle.serde_json.specs.View.{members_view};
ghost use Rattle.am_json.specs.Decoding.{HasIf, IsDuration};
ghost use Rattle.am_json.specs.Read.{Excludes};

use am_json::duration::{duration, duration_or};
use am_json::fault::{FaultKind, InputFault};
use am_json::reader::{FromJson, Object, Reader};

/// From a time on, and before another, if there is another (milliseconds from the start).
#[derive(Clone, Copy)]
pub struct Span {
    pub from: u64,
    pub to: Option<u64>,
}

impl Span {
    ghost use Rattle.am_plans.specs.Decoding.{DecodesToSpan};

    /// Reads the members `from`, the start where it isn't there, and `to` of an object. It isn't empty.
    pub fn of(object: &Object<'_, '_>) -> Result<Span, InputFault>
        ensures decoded { IfOk result (DecodesToSpan (members_view object.now.members)) }
        ensures refused { IfErr result (Excludes (DecodesToSpan (members_view object.now.members))) }
    {
        let from = duration_or(object, "from", 0)?;
        let to = read_end(object, from)?;
        Ok(Span { from, to })
    }
}

/// The end of a span that begins at `from`, if it has one: a later time.
fn read_end(object: &Object<'_, '_>, from: u64) -> Result<Option<u64>, InputFault>
    ensures to { IfOk result (HasIf IsDuration (codes "to") (members_view object.now.members)) }
    ensures later { IfOk result (λ to. IfSome to (λ to. from < to)) }
    ensures refused { IfErr result (Excludes (λ (to : Option ℕ).
        HasIf IsDuration (codes "to") (members_view object.now.members) to × IfSome to (λ to. from < to))) }
{
    let Some(member) = object.optional("to") else {
        return Ok(None);
    };
    let to = duration(&member)?;
    if to <= from {
        return Err(member.refuse(FaultKind::BadValue));
    }
    Ok(Some(to))
}

impl<'v> FromJson<'v> for Span {
    ghost use Rattle.std.specs.Prelude.{true};
    ghost use Rattle.am_plans.specs.Decoding.{IsSpan};

    ghost decodes_to = { λ mode value span. IsSpan mode value span };

    ghost never_refused = { λ _. true };

    fn read(reader: &Reader<'v, '_>) -> Result<Span, InputFault> {
        let span = reader.object()?;
        span.only(&["from", "to"])?;
        Ok(Span::of(&span)?)
    }
}
