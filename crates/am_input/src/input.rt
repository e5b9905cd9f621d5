//! What a rehearsal asks for, and how it is read, in the strict mode of `am_json`.
//!
//! The inserts of each span and the silences are planned in the order of their times, each with the
//! pointer of its value. An alert's span is two inserts: one without an end at its start, one with
//! its end at that time, as Prometheus sends them. The configuration is `am_json`'s, or
//! Alertmanager's own (`configured`), whose faults are all reported; of the rest the first fault
//! is. Contracts say by definitions over the JSON value's fields what was read for `output`,
//! `start`, `until`, `reload`, `restart`, `maintain`, `remove_empty_groups`, `alerts`, `silences`,
//! `outages` and `expect` (`Request`, `Decoding`, `Planned`, `Expected`).
ghost use Rattle.std.specs.Prelude.{◌≡◌, ◌≤◌, ◌<◌, ℕ, [], IfErr, IfOk, IsTrue, List, Some, codes, false};
ghost use Rattle.std.specs.Result.{result_ok};
ghost use Rattle.serde_json.specs.Find.{get_member};
ghost use Rattle.serde_json.specs.View.{members_view, view};
ghost use Rattle.am_terms.specs.declared.rehearsal.TheConstants.{MAX_UNTIL};
ghost use Rattle.am_json.specs.Decoding.{HasOr, IsList};
ghost use Rattle.am_json.specs.Read.{Excludes, has_only};
ghost use Rattle.am_input.specs.Clocks.{AreClocksOf};
ghost use Rattle.am_input.specs.Configured.{IsConfigFor, file_in, member_names};
ghost use Rattle.am_input.specs.DispatcherChanges.{AreDispatcherChangesIn};
ghost use Rattle.am_plans.specs.Configs.{configs_of};
ghost use Rattle.am_plans.specs.Decoding.{DecodesToOutage, have_targets};
ghost use Rattle.am_plans.specs.Expected.{AreExpectedIn, HaveNoRegexIn, last_end};
ghost use Rattle.am_plans.specs.Planned.{ArePlannedWithoutRegexes, ArePlannedIn};
ghost use Rattle.am_terms.specs.declared.rehearsal.Outage.{Outage};
ghost use Rattle.am_terms.specs.declared.rehearsal.Rehearsal.{Rehearsal};
ghost use Rattle.am_input.specs.declared.input.Requested.{Requested};
ghost use Rattle.am_input.specs.declared.input.Input.{Input};
ghost use Rattle.am_input.specs.Request.{DecodesToStart, IsRequestIn, IsWithoutRegexes, IsRequestWithoutRegexes};
ghost use Rattle.am_input.specs.Request.{RefusesAll, Requests, end_for, maintain_in, output_for, ticks_in};

use crate::configured::{Configured, read_configured};
use crate::dispatcher_changes::{HandedOver, both, either, read_dispatcher_changes};
use crate::hours::check_start;
use crate::time;
use crate::zone_files::ZoneFiles;
use crate::zones::read_zones;
use am_config::dropped::IgnoredSettings;
use am_json::duration::{duration, interval};
use am_json::fault::{FaultKind, InputFault};
use am_json::faults::Refusal;
use am_json::pointer::JsonPointer;
use am_json::reader::{Object, Reader};
use am_model::config::Config;
use am_plans::configs::Configs;
use am_plans::expectation::read_expectations;
use am_plans::origin::Origin;
use am_plans::outage::read_outages;
use am_plans::planned::read_plans;
use am_terms::dated::UtcDates;
use am_terms::dispatcher_change::DispatcherChange;
use am_terms::expectation::Expectation;
use am_terms::rehearsal::{MAX_UNTIL, Outage, Rehearsal, Upkeep};
use serde_json::Value;
use std::alloc::Global;

/// How often maintenance is made, where the rehearsal doesn't say: every 15 minutes, in milliseconds.
pub const MAINTAIN: u64 = 900_000;

/// How often empty groups are removed, where the rehearsal doesn't say: every 30 seconds, in
/// milliseconds.
pub const REMOVE_EMPTY_GROUPS: u64 = 30_000;

/// The members of a rehearsal.
pub(crate) const MEMBERS: [&str; 14] = [
    "config",
    "alertmanager",
    "reload",
    "restart",
    "start",
    "zones",
    "until",
    "alerts",
    "silences",
    "maintain",
    "remove_empty_groups",
    "outages",
    "expect",
    "output",
];

/// A rehearsal as it was read, and what is to be printed of it.
#[derive(Drop)]
pub struct Input {
    pub rehearsal: Rehearsal,
    /// The reloads and restarts, in the order of their times.
    pub dispatcher_changes: Vec<DispatcherChange>,
    /// Where the plans of the rehearsal are in the input, by pointer.
    pub origins: Vec<Origin>,
    /// The time of the start, if it is given.
    pub start: Option<UtcDates>,
    pub expectations: Vec<Expectation>,
    pub output: Output,
    /// What of Alertmanager's configurations is dropped.
    pub dropped: IgnoredSettings,
}

/// What a story asks for besides what happens in it.
#[derive(Drop)]
struct Requested {
    start: Option<UtcDates>,
    expectations: Vec<Expectation>,
    output: Output,
}

/// What is printed.
#[derive(Clone, Copy, PartialEq, Eq)]
pub enum Output {
    /// A line for each event, but one for a run of like flushes, a table and the expectations.
    Timeline,
    /// A line for each event, a table and the expectations. Only the command line asks for it.
    Full,
    /// The lines on notices alone.
    Notices,
    /// The lines on delivered notices alone. Only the command line asks for it.
    Delivered,
    /// A JSON object on each line.
    Json,
    /// A page with a picture.
    Html,
}

/// What the command line says in place of a story's own output and end.
#[derive(Clone, Copy, PartialEq, Eq)]
pub struct Overrides {
    pub output: Option<Output>,
    pub until: Option<u64>,
}

/// What is in place of parts of a story.
#[derive(Clone, Copy)]
pub struct Changes<'c> {
    /// A file's value, with a configuration in it.
    pub config: Option<&'c Value>,
    pub overrides: Overrides,
}

/// Reads a whole rehearsal. The first fault in the order of reading is answered; of Alertmanager's
/// configuration all faults. The zones that its time intervals name and the rehearsal doesn't say are those of `files`.
pub fn read_input<Z: ZoneFiles>(
    alloc: Global,
    value: &Value,
    changes: Changes<'_>,
    files: &mut Z,
) -> Result<Input, Refusal>
    ensures decoded { IfOk result (λ input. IsRequestIn changes.entry (view value.now) input.output input.start
        input.expectations.items input.dispatcher_changes.items input.rehearsal) }
    ensures refused { IfErr result (RefusesAll (λ (input : Input).
        IsRequestWithoutRegexes changes.entry (view value.now) input.output input.start
        input.expectations.items input.dispatcher_changes.items input.rehearsal)) }
{
    let reader = Reader::strict(alloc, value);
    let top = reader.object()?;
    top.only(&MEMBERS)?;
    let configured = read_configured(&top, changes.config, changes.overrides.until, files)?;
    let until = read_until(&top, changes.overrides.until)?;
    let handed = read_dispatcher_changes(&top, changes, until, files)?;
    Ok(read_planned(&top, configured, handed, until, changes)?)
}

/// Reads what is planned against a configuration, and those of reloads and restarts.
fn read_planned(
    top: &Object<'_, '_>,
    configured: Configured,
    handed: HandedOver,
    until: u64,
    changes: Changes<'_>,
) -> Result<Input, InputFault>
    requires most { until ≤ MAX_UNTIL }
    requires ends { end_for changes.overrides.until (members_view top.now.members) ≡ Some until }
    requires hands_over { AreDispatcherChangesIn top.now.mode (file_in changes) until
        (members_view top.now.members) handed.dispatcher_changes.items }
    requires known { IsTrue (has_only top.now.mode member_names (members_view top.now.members)) }
    requires configures { IsConfigFor (AreClocksOf until (members_view top.now.members)) (file_in changes)
        top.now.mode (members_view top.now.members) configured.config }
    ensures decoded { IfOk result (λ input. Requests top.now.mode changes.entry (members_view top.now.members) input.output input.start
        input.expectations.items input.dispatcher_changes.items input.rehearsal) }
    ensures refused { configured.lacks_hours ≡ false → handed.lacks_hours ≡ false → IfErr result (Excludes (λ (input : Input).
        Requests top.now.mode changes.entry (members_view top.now.members) input.output input.start
        input.expectations.items input.dispatcher_changes.items input.rehearsal
        × (input.rehearsal.config ≡ configured.config) × (input.dispatcher_changes.items ≡ handed.dispatcher_changes.items)
        × IsWithoutRegexes top.now.mode changes.entry (members_view top.now.members) input.dispatcher_changes.items input.rehearsal)) }
{
    let Configured {
        config,
        ignored,
        lacks_hours,
    } = configured;
    let HandedOver {
        dispatcher_changes,
        ignored: ignored_later,
        lacks_hours: lacks_later,
    } = handed;
    let overrides = changes.overrides;
    read_zones(top)?;
    check_start(top, overrides.until, either(lacks_hours, lacks_later))?;
    let later = dispatcher_changes.as_slice();
    let (rehearsal, origins) = read_rehearsal(top, config, later, until)?;
    let requested = read_requested(top, &rehearsal, later, overrides.output)?;
    let Requested {
        start,
        expectations,
        output,
    } = requested;
    Ok(Input {
        rehearsal,
        dispatcher_changes,
        origins,
        start,
        expectations,
        output,
        dropped: both(ignored, ignored_later),
    })
}

/// Reads how the output of a rehearsal shows times, what is expected of it and what is printed.
fn read_requested(
    top: &Object<'_, '_>,
    rehearsal: &Rehearsal,
    dispatcher_changes: &[DispatcherChange],
    output: Option<Output>,
) -> Result<Requested, InputFault>
    ensures output { IfOk result (λ requested.
        output_for output (get_member (codes "output") (members_view top.now.members)) ≡ Some requested.output) }
    ensures start { IfOk result (λ requested. DecodesToStart (get_member (codes "start") (members_view top.now.members)) requested.start) }
    ensures expectations { IfOk result (λ requested.
        AreExpectedIn top.now.mode (configs_of rehearsal.now.config dispatcher_changes.now) rehearsal.now.until
        (last_end rehearsal.now.until (members_view top.now.members)) rehearsal.now.plans.items
        (get_member (codes "expect") (members_view top.now.members)) requested.expectations.items) }
    ensures refused { IfErr result (Excludes (λ (requested : Requested).
        DecodesToStart (get_member (codes "start") (members_view top.now.members)) requested.start
        × (output_for output (get_member (codes "output") (members_view top.now.members)) ≡ Some requested.output)
        × AreExpectedIn top.now.mode (configs_of rehearsal.now.config dispatcher_changes.now) rehearsal.now.until
        (last_end rehearsal.now.until (members_view top.now.members)) rehearsal.now.plans.items
        (get_member (codes "expect") (members_view top.now.members)) requested.expectations.items
        × HaveNoRegexIn top.now.mode (get_member (codes "expect") (members_view top.now.members)))) }
{
    let start = time::start(top)?;
    let output = read_output(top, output)?;
    let plans = rehearsal.plans.as_slice();
    let configs = Configs {
        own: &rehearsal.config,
        later: dispatcher_changes,
    };
    let expectations = read_expectations(top, &configs, rehearsal.until, plans)?;
    Ok(Requested {
        start,
        expectations,
        output,
    })
}

/// Reads what happens until `until` under a configuration, and those of changes of the dispatcher, and where the planned actions are in
/// the input.
fn read_rehearsal(
    top: &Object<'_, '_>,
    config: Config,
    dispatcher_changes: &[DispatcherChange],
    until: u64,
) -> Result<(Rehearsal, Vec<Origin>), InputFault>
    requires { until ≤ MAX_UNTIL }
    ensures config { IfOk result (λ read. read.0.config ≡ config) }
    ensures until { IfOk result (λ read. read.0.until ≡ until) }
    ensures maintain { IfOk result (λ read.
        maintain_in (get_member (codes "maintain") (members_view top.now.members)) ≡ Some read.0.upkeep.maintain) }
    ensures ticks { IfOk result (λ read. ticks_in (get_member (codes "remove_empty_groups") (members_view top.now.members))
        ≡ Some read.0.upkeep.remove_empty_groups) }
    ensures plans { IfOk result (λ read. ArePlannedIn top.now.mode (members_view top.now.members) read.0.plans.items) }
    ensures outages { IfOk result (λ read.
        HasOr (IsList (DecodesToOutage top.now.mode)) [] (codes "outages") (members_view top.now.members) read.0.outages.items) }
    ensures targets { IfOk result (λ read. IsTrue (have_targets (configs_of config dispatcher_changes.now) read.0.outages.items)) }
    ensures refused { IfErr result (Excludes (λ (r : Rehearsal).
        (maintain_in (get_member (codes "maintain") (members_view top.now.members)) ≡ Some r.upkeep.maintain)
        × (ticks_in (get_member (codes "remove_empty_groups") (members_view top.now.members))
        ≡ Some r.upkeep.remove_empty_groups)
        × HasOr (IsList (DecodesToOutage top.now.mode)) [] (codes "outages") (members_view top.now.members) r.outages.items
        × IsTrue (have_targets (configs_of config dispatcher_changes.now) r.outages.items)
        × ArePlannedWithoutRegexes top.now.mode (members_view top.now.members) r.plans.items)) }
{
    let maintain = read_maintain(top)?;
    let remove_empty_groups = read_ticks(top)?;
    let upkeep = Upkeep {
        maintain,
        remove_empty_groups,
    };
    let outages = read_outages_under(top, &config, dispatcher_changes)?;
    let (plans, origins) = read_plans(top)?;
    let rehearsal = Rehearsal {
        config,
        until,
        upkeep,
        plans,
        outages,
    };
    Ok((rehearsal, origins))
}

fn read_outages_under(
    top: &Object<'_, '_>,
    config: &Config,
    dispatcher_changes: &[DispatcherChange],
) -> Result<Vec<Outage>, InputFault>
    ensures decoded { IfOk result (λ outages.
        HasOr (IsList (DecodesToOutage top.now.mode)) [] (codes "outages") (members_view top.now.members) outages.items) }
    ensures targets { IfOk result (λ outages. IsTrue (have_targets (configs_of config.now dispatcher_changes.now) outages.items)) }
    ensures refused { IfErr result (Excludes (λ (outages : List Outage).
        HasOr (IsList (DecodesToOutage top.now.mode)) [] (codes "outages") (members_view top.now.members) outages
        × IsTrue (have_targets (configs_of config.now dispatcher_changes.now) outages))) }
{
    let configs = Configs {
        own: config,
        later: dispatcher_changes,
    };
    read_outages(top, &configs)
}

/// The time between two maintenances, in milliseconds.
pub(crate) fn read_maintain(top: &Object<'_, '_>) -> Result<u64, InputFault>
    ensures value { result_ok result ≡ maintain_in (get_member (codes "maintain") (members_view top.now.members)) }
    ensures some { IfOk result (λ interval. 0 < interval) }
{
    match top.optional("maintain") {
        None => Ok(MAINTAIN),
        Some(member) => interval(&member),
    }
}

/// The time between two removals of empty groups, in milliseconds.
pub(crate) fn read_ticks(top: &Object<'_, '_>) -> Result<u64, InputFault>
    ensures value { result_ok result ≡ ticks_in (get_member (codes "remove_empty_groups") (members_view top.now.members)) }
    ensures some { IfOk result (λ interval. 0 < interval) }
{
    match top.optional("remove_empty_groups") {
        None => Ok(REMOVE_EMPTY_GROUPS),
        Some(member) => interval(&member),
    }
}

/// The last time, as the command line says it, or else the member; `Value` above `MAX_UNTIL`.
pub(crate) fn read_until(top: &Object<'_, '_>, requested: Option<u64>) -> Result<u64, InputFault>
    ensures until { IfOk result (λ until. end_for requested (members_view top.now.members) ≡ Some until) }
    ensures most { IfOk result (λ until. until ≤ MAX_UNTIL) }
    ensures refused { IfErr result (λ _. (until : ℕ) → end_for requested (members_view top.now.members) ≡ Some until → MAX_UNTIL < until) }
{
    let until = end_of(top, requested)?;
    if until > MAX_UNTIL {
        let pointer = JsonPointer::Root;
        return Err(
            pointer
                .member("until")
                .refuse(top.alloc(), FaultKind::BadValue),
        );
    }
    Ok(until)
}

/// The last time, whichever it is.
fn end_of(top: &Object<'_, '_>, requested: Option<u64>) -> Result<u64, InputFault>
    ensures { result_ok result ≡ end_for requested (members_view top.now.members) }
{
    match requested {
        Some(until) => Ok(until),
        None => duration(&top.required("until")?),
    }
}

/// What is printed, as the command line says it, or else the member; the timeline, where it isn't said.
pub(crate) fn read_output(
    top: &Object<'_, '_>,
    requested: Option<Output>,
) -> Result<Output, InputFault>
    ensures { result_ok result ≡ output_for requested (get_member (codes "output") (members_view top.now.members)) }
{
    if let Some(output) = requested {
        return Ok(output);
    }
    let Some(member) = top.optional("output") else {
        return Ok(Output::Timeline);
    };
    match member.text()? {
        "timeline" => Ok(Output::Timeline),
        "notices" => Ok(Output::Notices),
        "json" => Ok(Output::Json),
        "html" => Ok(Output::Html),
        _ => Err(member.refuse(FaultKind::BadValue)),
    }
}
