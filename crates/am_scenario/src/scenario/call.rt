//! The calls of a lane, and how they are read.
ghost use Rattle.std.specs.Prelude.{None, IfErr, IfOk, IfSome, IsTrue, Option, codes};
ghost use Rattle.serde_json.specs.View.{members_view, view};
ghost use Rattle.am_alerts.specs.Matcher.{compare_texts};
ghost use Rattle.am_json.specs.Decoding.{HasIf, HasOr};
ghost use Rattle.am_json.specs.Read.{Excludes};
ghost use Rattle.am_mute.specs.Silence.{SilenceData};
ghost use Rattle.am_scenario.specs.Decoding.{IsEnd, DecodesToAlert, DecodesToSilence};

use am_alerts::alert::Alert;
use am_alerts::matcher::Matcher;
use am_json::config::most_matchers;
use am_json::fault::{FaultKind, InputFault};
use am_json::labels::read_labels;
use am_json::reader::{FromJson, Object, Reader};
use am_mute::silence::Silence;

/// A call of the board.
#[derive(Drop)]
pub enum LaneCall {
    Insert(Alert),
    Silence(Silence),
    Maintain,
}

impl<'v> FromJson<'v> for LaneCall {
    ghost use Rattle.am_scenario.specs.Decoding.{DecodesToCall, call_compares_texts};

    ghost decodes_to = { λ mode value call. DecodesToCall mode value call };

    ghost never_refused = { λ call. call_compares_texts call };

    fn read(reader: &Reader<'v, '_>) -> Result<LaneCall, InputFault> {
        let call = reader.object()?;
        let insert = read_insert(&call)?;
        let silence = read_silence(&call)?;
        let maintain = call.optional("maintain");
        match (insert, silence, maintain) {
            (Some(alert), None, None) => Ok(LaneCall::Insert(alert)),
            (None, Some(silence), None) => Ok(LaneCall::Silence(silence)),
            (None, None, Some(_)) => Ok(LaneCall::Maintain),
            (None, None, None) => Err(reader.refuse(FaultKind::Missing)),
            _ => Err(reader.refuse(FaultKind::BadValue)),
        }
    }
}

/// The alert of an insert, if the call has one.
fn read_insert(call: &Object<'_, '_>) -> Result<Option<Alert>, InputFault>
    ensures decoded { IfOk result (HasIf (DecodesToAlert call.now.mode) (codes "insert") (members_view call.now.members)) }
    ensures refused { IfErr result (Excludes (HasIf (DecodesToAlert call.now.mode) (codes "insert")
        (members_view call.now.members))) }
{
    match call.optional("insert") {
        None => Ok(None),
        Some(reader) => Ok(Some(read_alert(&reader)?)),
    }
}

fn read_alert(reader: &Reader<'_, '_>) -> Result<Alert, InputFault>
    ensures decoded { IfOk result (DecodesToAlert reader.now.mode (view reader.now.value)) }
    ensures refused { IfErr result (Excludes (DecodesToAlert reader.now.mode (view reader.now.value))) }
{
    let insert = reader.object()?;
    let labels = read_labels(&insert.required("labels")?)?;
    let starts = insert.required("starts")?.number()?;
    let ends = read_ends(&insert)?;
    match Alert::new(labels, starts, ends) {
        Ok(alert) => Ok(alert),
        Err(_) => Err(reader.refuse(FaultKind::BadValue)),
    }
}

/// When an alert ends, if it says that.
fn read_ends(insert: &Object<'_, '_>) -> Result<Option<u64>, InputFault>
    ensures decoded { IfOk result (HasOr IsEnd None (codes "ends") (members_view insert.now.members)) }
    ensures refused { IfErr result (Excludes (HasOr IsEnd None (codes "ends") (members_view insert.now.members))) }
{
    match insert.optional("ends") {
        None => Ok(None),
        Some(member) => read_end(&member),
    }
}

/// A time, or `null` for none.
fn read_end(member: &Reader<'_, '_>) -> Result<Option<u64>, InputFault>
    ensures decoded { IfOk result (IsEnd (view member.now.value)) }
    ensures refused { IfErr result (Excludes (IsEnd (view member.now.value))) }
{
    if member.is_null() {
        return Ok(None);
    }
    Ok(Some(member.number()?))
}

/// The silence that is set, if the call has one.
fn read_silence(call: &Object<'_, '_>) -> Result<Option<Silence>, InputFault>
    ensures decoded { IfOk result (HasIf (DecodesToSilence call.now.mode) (codes "silence") (members_view call.now.members)) }
    ensures refused { IfErr result (Excludes (λ (silence : Option SilenceData).
        HasIf (DecodesToSilence call.now.mode) (codes "silence") (members_view call.now.members) silence
        × IfSome silence (λ s. IsTrue (compare_texts s.matchers)))) }
{
    match call.optional("silence") {
        None => Ok(None),
        Some(reader) => Ok(Some(read_set(&reader)?)),
    }
}

fn read_set(reader: &Reader<'_, '_>) -> Result<Silence, InputFault>
    ensures decoded { IfOk result (DecodesToSilence reader.now.mode (view reader.now.value)) }
    ensures refused { IfErr result (Excludes (λ silence.
        DecodesToSilence reader.now.mode (view reader.now.value) silence × IsTrue (compare_texts silence.matchers))) }
{
    let silence = reader.object()?;
    let id = silence.required("id")?.number()?;
    let matchers = silence.required("matchers")?.list::<Matcher>()?;
    let start = silence.required("start")?.number()?;
    let end = silence.required("end")?.number()?;
    let most = most_matchers(silence.mode());
    if matchers.len() > most {
        return Err(reader.refuse(FaultKind::BadValue));
    }
    match Silence::new(id, matchers, start, end) {
        Ok(silence) => Ok(silence),
        Err(_) => Err(reader.refuse(FaultKind::BadValue)),
    }
}
