//! The alerts of a rehearsal with their spans, and how they are read.
ghost use Rattle.std.specs.Prelude.{◌≡◌, ◌≢◌, IfErr, IfOk, None, OnOk, Some, false, nat_le};
ghost use Rattle.std.specs.Option.{option_map_or};
ghost use Rattle.serde_json.specs.Find.{get_member};
ghost use Rattle.serde_json.specs.View.{members_view};
ghost use Rattle.am_json.specs.Decoding.{HasNone};
ghost use Rattle.am_json.specs.Read.{Excludes};
ghost use Rattle.am_plans.specs.Decoding.{AreSpansIn, follow};

use crate::span::Span;
use am_alerts::labels::Labels;
use am_json::fault::{FaultKind, InputFault};
use am_json::labels::read_labels;
use am_json::reader::{FromJson, Object, Reader};

/// A label set, and when an alert with it fires.
#[derive(Drop)]
pub struct AlertItem {
    pub labels: Labels,
    /// One after the other.
    pub spans: Vec<Span>,
    /// Whether they are in a list.
    pub is_listed: bool,
}

impl<'v> FromJson<'v> for AlertItem {
    ghost use Rattle.std.specs.Prelude.{true};
    ghost use Rattle.am_plans.specs.Decoding.{DecodesToAlert};

    ghost decodes_to = { λ mode value alert. DecodesToAlert mode value alert };

    ghost never_refused = { λ _. true };

    fn read(reader: &Reader<'v, '_>) -> Result<AlertItem, InputFault> {
        let alert = reader.object()?;
        alert.only(&["labels", "from", "to", "spans"])?;
        let labels = read_labels(&alert.required("labels")?)?;
        let (spans, is_listed) = read_spans(&alert)?;
        Ok(AlertItem {
            labels,
            spans,
            is_listed,
        })
    }
}

/// The spans of an alert, and whether they are in a list.
fn read_spans(alert: &Object<'_, '_>) -> Result<(Vec<Span>, bool), InputFault>
    ensures decoded { IfOk result (λ read. AreSpansIn alert.now.mode (members_view alert.now.members) read.0.items) }
    ensures refused { IfErr result (Excludes (AreSpansIn alert.now.mode (members_view alert.now.members))) }
{
    let Some(listed) = alert.optional("spans") else {
        let mut spans = Vec::new(alert.alloc());
        spans.push(Span::of(alert)?)?;
        return Ok((spans, false));
    };
    refuse(alert, "from")?;
    refuse(alert, "to")?;
    let spans = listed.list::<Span>()?;
    if !follow_each_other(spans.as_slice()) {
        return Err(listed.refuse(FaultKind::BadValue));
    }
    Ok((spans, true))
}

/// Refuses a member, if it is there.
pub(crate) fn refuse(alert: &Object<'_, '_>, name: &str) -> Result<(), InputFault>
    ensures none { OnOk result (HasNone name.now (members_view alert.now.members)) }
    ensures there { IfErr result (λ _. get_member name.now (members_view alert.now.members) ≢ None) }
{
    match alert.optional(name) {
        None => Ok(()),
        Some(member) => Err(member.refuse(FaultKind::BadValue)),
    }
}

/// Whether each span but the last has an end, and none starts before the one before it has ended.
fn follow_each_other(spans: &[Span]) -> bool
    ensures { result ≡ follow (Some 0) spans.now }
{
    let mut ended = Some(0);
    for span in spans {
        if !has_ended(ended, span.from) {
            return false;
        }
        ended = span.to;
    }
    true
}

/// Whether there is an end, and it isn't later than a time.
fn has_ended(end: Option<u64>, time: u64) -> bool
    ensures { result ≡ option_map_or (λ e. nat_le e time) end false }
{
    match end {
        None => false,
        Some(end) => end <= time,
    }
}
