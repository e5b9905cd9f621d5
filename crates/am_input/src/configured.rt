//! The configuration of a rehearsal: `config`, or Alertmanager's own.
ghost use Rattle.std.specs.Prelude.{◌≡◌, ℕ, IfErr, IfOk, IsTrue, None, Some, codes, false, is_ok, option_map};
ghost use Rattle.std.specs.Prelude.{IsSome, IsSomeAnd, MatchOption};
ghost use Rattle.std.specs.Option.{option_copied};
ghost use Rattle.serde_json.specs.Data.{Data};
ghost use Rattle.serde_json.specs.Find.{as_object, get_member};
ghost use Rattle.serde_json.specs.View.{members_view, view};
ghost use Rattle.am_json.specs.Configured.{DecodesToConfig};
ghost use Rattle.am_json.specs.Decoding.{HasNone};
ghost use Rattle.am_json.specs.Read.{Excludes};
ghost use Rattle.am_json.specs.declared.reader.Mode.TheVariants.{Strict};
ghost use Rattle.am_input.specs.Clocks.{AreAny, AreClocksOf, AreGiven};
ghost use Rattle.am_input.specs.Configured.{DecodesWithoutRegexes, HasTheirs, IsConfigFor, IsConfigIn, IsConfigOf};
ghost use Rattle.am_input.specs.Configured.{IsReadOfTheirs, DecodesPlainly, form_in};
ghost use Rattle.am_input.specs.DispatcherChanges.{DecodesAt, ReloadDecodesTo, is_ours};
ghost use Rattle.am_input.specs.Request.{RefusesAll, end_for};

use crate::form::{Form, alertmanager_in, form_of};
use crate::hours::read_hours;
use crate::zone_files::ZoneFiles;
use am_config::alertmanager::read_alertmanager;
use am_config::dropped::IgnoredSettings;
use am_config::hours::Hours;
use am_config::settings::Checking;
use am_json::config::read_config;
use am_json::fault::{FaultKind, InputFault};
use am_json::faults::Refusal;
use am_json::reader::{Object, Reader};
use am_model::config::Config;
use am_plans::dispatcher_change::Reload;
use serde_json::Value;
use std::alloc::Global;

/// A configuration, and what of it is ignored.
#[derive(Drop)]
pub struct Configured {
    pub config: Config,
    pub ignored: IgnoredSettings,
    /// Whether routes name time intervals that have no clocks: no story says when it starts.
    pub lacks_hours: bool,
}

/// Reads the configuration of a story, or the one that is given in its place, with the clocks of the story that runs
/// until `until` or else until its own end.
pub fn read_configured<Z: ZoneFiles>(
    top: &Object<'_, '_>,
    given: Option<&Value>,
    until: Option<u64>,
    files: &mut Z,
) -> Result<Configured, Refusal>
    ensures decoded { IfOk result (λ read. (end : ℕ) → end_for until (members_view top.now.members) ≡ Some end
        → IsConfigFor (AreClocksOf end (members_view top.now.members)) (option_map (λ g. view g.now) given.entry)
        top.now.mode (members_view top.now.members) read.config) }
    ensures unended { IfOk result (λ read.
        IsConfigFor AreAny (option_map (λ g. view g.now) given.entry) top.now.mode (members_view top.now.members) read.config) }
    ensures timed { option_map (λ g. view g.now) given.entry ≡ None → HasNone (codes "alertmanager") (members_view top.now.members)
        → IfOk result (λ read. read.lacks_hours ≡ false) }
    ensures refused { option_map (λ g. view g.now) given.entry ≡ None → HasNone (codes "alertmanager") (members_view top.now.members)
        → IfErr result (RefusesAll (DecodesPlainly top.now.mode (members_view top.now.members))) }
    ensures own { (file : Data) → option_map (λ g. view g.now) given.entry ≡ Some file → form_in file ≡ Form.Own
        → IfErr result (RefusesAll (DecodesWithoutRegexes Strict file)) }
{
    let hours = read_hours_for(top, given, until, files)?;
    match given {
        None => Ok(read_in_story(top, hours.as_ref())?),
        Some(given) => Ok(read_file(top.alloc(), given, hours.as_ref())?),
    }
}

/// Reads the clocks of a story for its configuration, or for the one that is given in its place, if that is one of
/// Alertmanager.
fn read_hours_for<Z: ZoneFiles>(
    top: &Object<'_, '_>,
    given: Option<&Value>,
    until: Option<u64>,
    files: &mut Z,
) -> Result<Option<Hours>, InputFault>
    ensures clocks { IfOk result (λ hours. (end : ℕ) → end_for until (members_view top.now.members) ≡ Some end
        → MatchOption (option_map (λ g. view g.now) given.entry)
        (IsSome (get_member (codes "alertmanager") (members_view top.now.members))
        → AreClocksOf end (members_view top.now.members) hours)
        (λ file. HasTheirs (form_in file) file → AreClocksOf end (members_view top.now.members) hours)) }
    ensures in_story { option_map (λ g. view g.now) given.entry ≡ None → HasNone (codes "alertmanager") (members_view top.now.members)
        → IsTrue (is_ok result) }
    ensures own { (file : Data) → option_map (λ g. view g.now) given.entry ≡ Some file → form_in file ≡ Form.Own
        → IsTrue (is_ok result) }
{
    let Some(given) = given else {
        return read_hours_in(top, until, files);
    };
    match alertmanager_in(given) {
        None => Ok(None),
        Some(theirs) => {
            let config = Reader::strict(top.alloc(), theirs);
            read_hours(top, &config, until, files)
        }
    }
}

/// Reads the clocks of a story for its own configuration, if that is Alertmanager's.
fn read_hours_in<Z: ZoneFiles>(
    top: &Object<'_, '_>,
    until: Option<u64>,
    files: &mut Z,
) -> Result<Option<Hours>, InputFault>
    ensures clocks { IfOk result (λ hours. (end : ℕ) → end_for until (members_view top.now.members) ≡ Some end
        → IsSome (get_member (codes "alertmanager") (members_view top.now.members))
        → AreClocksOf end (members_view top.now.members) hours) }
    ensures own { HasNone (codes "alertmanager") (members_view top.now.members) → IsTrue (is_ok result) }
{
    match top.optional("alertmanager") {
        None => Ok(None),
        Some(config) => read_hours(top, &config, until, files),
    }
}

/// Reads the clocks of a story for the configuration of a reload, if that is Alertmanager's.
fn read_hours_at<Z: ZoneFiles>(
    top: &Object<'_, '_>,
    reload: &Object<'_, '_>,
    until: Option<u64>,
    files: &mut Z,
) -> Result<Option<Hours>, InputFault>
    ensures clocks { IfOk result (λ hours. (end : ℕ) → end_for until (members_view top.now.members) ≡ Some end
        → IsSome (get_member (codes "alertmanager") (members_view reload.now.members))
        → AreClocksOf end (members_view top.now.members) hours) }
    ensures own { HasNone (codes "alertmanager") (members_view reload.now.members) → IsTrue (is_ok result) }
{
    match reload.optional("alertmanager") {
        None => Ok(None),
        Some(config) => read_hours(top, &config, until, files),
    }
}

/// Reads the configuration of a reload, with the clocks of its story that runs until `until` or else until its own
/// end.
pub(crate) fn read_reload<Z: ZoneFiles>(
    top: &Object<'_, '_>,
    reload: Reload<'_>,
    until: Option<u64>,
    files: &mut Z,
) -> Result<Configured, Refusal>
    ensures decoded { IfOk result (λ read. (end : ℕ) → end_for until (members_view top.now.members) ≡ Some end
        → ReloadDecodesTo (AreClocksOf end (members_view top.now.members)) top.now.mode (view reload.entry.value.now) read.config) }
    ensures timed { IsTrue (is_ours (Some (view reload.entry.value.now))) → IfOk result (λ read. read.lacks_hours ≡ false) }
    ensures refused { IsTrue (is_ours (Some (view reload.entry.value.now)))
        → IfErr result (RefusesAll (DecodesAt top.now.mode (members_view top.now.members) (Some (view reload.entry.value.now)))) }
{
    let list = top.member("reload", reload.value);
    match reload.index {
        None => read_at(top, &list, until, files),
        Some(index) => read_at(top, &list.item(index, reload.value), until, files),
    }
}

/// Reads the configuration of the reload here.
fn read_at<Z: ZoneFiles>(
    top: &Object<'_, '_>,
    reload: &Reader<'_, '_>,
    until: Option<u64>,
    files: &mut Z,
) -> Result<Configured, Refusal>
    ensures decoded { IfOk result (λ read. (end : ℕ) → end_for until (members_view top.now.members) ≡ Some end
        → ReloadDecodesTo (AreClocksOf end (members_view top.now.members)) reload.now.mode (view reload.now.value) read.config) }
    ensures timed { IsTrue (is_ours (Some (view reload.now.value))) → IfOk result (λ read. read.lacks_hours ≡ false) }
    ensures refused { IsTrue (is_ours (Some (view reload.now.value))) → IfErr result (RefusesAll (λ config.
        IsSomeAnd (as_object (view reload.now.value)) (λ fields. DecodesPlainly reload.now.mode fields config))) }
{
    let object = reload.object()?;
    let hours = read_hours_at(top, &object, until, files)?;
    Ok(read_in_story(&object, hours.as_ref())?)
}

/// Reads a configuration that is given to a story, with the story's clocks. A story that is none gives it no clocks.
pub fn configured_for<Z: ZoneFiles>(
    alloc: Global,
    story: &Value,
    given: &Value,
    until: Option<u64>,
    files: &mut Z,
) -> Result<Configured, Refusal>
    ensures decoded { IfOk result (λ read. IsConfigOf AreAny (form_in (view given.now)) (view given.now) read.config) }
    ensures own { form_in (view given.now) ≡ Form.Own → IfErr result (RefusesAll (DecodesWithoutRegexes Strict (view given.now))) }
{
    let reader = Reader::strict(alloc, story);
    let Ok(top) = reader.object() else {
        return read_file(alloc, given, None);
    };
    read_configured(&top, Some(given), until, files)
}

/// Reads the configuration of a file: one of Alertmanager, one of our own, or that of a story.
pub fn read_file(alloc: Global, value: &Value, hours: Option<&Hours>) -> Result<Configured, Refusal>
    ensures decoded { IfOk result (λ read.
        IsConfigOf (AreGiven (option_copied hours.entry)) (form_in (view value.now)) (view value.now) read.config) }
    ensures own { form_in (view value.now) ≡ Form.Own → IfErr result (RefusesAll (DecodesWithoutRegexes Strict (view value.now))) }
{
    let reader = Reader::strict(alloc, value);
    match form_of(value) {
        Form::Story => Ok(read_in_story(&reader.object()?, hours)?),
        Form::Own => Ok(read_own(&reader)?),
        Form::Alertmanager => Ok(read_theirs(&reader, hours)?),
    }
}

/// Reads the configuration in a story. It is in `config` or, as Alertmanager has it, in `alertmanager`, which is
/// rejected next to `config`.
fn read_in_story(top: &Object<'_, '_>, hours: Option<&Hours>) -> Result<Configured, Refusal>
    ensures decoded { IfOk result (λ read.
        IsConfigIn (AreGiven (option_copied hours.entry)) top.now.mode (members_view top.now.members) read.config) }
    ensures timed { HasNone (codes "alertmanager") (members_view top.now.members) → IfOk result (λ read. read.lacks_hours ≡ false) }
    ensures refused { HasNone (codes "alertmanager") (members_view top.now.members)
        → IfErr result (RefusesAll (DecodesPlainly top.now.mode (members_view top.now.members))) }
{
    let Some(member) = top.optional("alertmanager") else {
        return Ok(read_own(&top.required("config")?)?);
    };
    if top.optional("config").is_some() {
        return Err(Refusal::One(member.refuse(FaultKind::BadValue)));
    }
    Ok(read_theirs(&member, hours)?)
}

/// Reads a configuration of our own.
fn read_own(reader: &Reader<'_, '_>) -> Result<Configured, InputFault>
    ensures decoded { IfOk result (λ read. DecodesToConfig reader.now.mode (view reader.now.value) read.config) }
    ensures timed { IfOk result (λ read. read.lacks_hours ≡ false) }
    ensures refused { IfErr result (Excludes (DecodesWithoutRegexes reader.now.mode (view reader.now.value))) }
{
    Ok(Configured {
        config: read_config(reader)?,
        ignored: IgnoredSettings::nothing(),
        lacks_hours: false,
    })
}

/// Reads a configuration of Alertmanager.
fn read_theirs(reader: &Reader<'_, '_>, hours: Option<&Hours>) -> Result<Configured, Refusal>
    ensures { IfOk result (λ read. IsReadOfTheirs (AreGiven (option_copied hours.entry)) (view reader.now.value) read.config) }
{
    let read = read_alertmanager(reader, hours, Checking::AsAlertmanager)?;
    Ok(Configured {
        config: read.config,
        ignored: read.dropped,
        lacks_hours: read.timed && hours.is_none(),
    })
}
