//! All faults of a story.
use crate::configured::{Configured, read_configured, read_reload};
use crate::dispatcher_changes::HandedOver;
use crate::hours::check_start;
use crate::input::{MEMBERS, Overrides, read_maintain, read_output, read_ticks, read_until};
use crate::time;
use crate::zone_files::ZoneFiles;
use crate::zones::read_zones;
use am_json::fault::InputFault;
use am_json::faults::{Faults, Refusal};
use am_json::reader::{FromJson, Object, Reader};
use am_plans::alert::AlertItem;
use am_plans::configs::Configs;
use am_plans::dispatcher_change::{item_faults, read_items, reloads_in};
use am_plans::expectation::expectation_faults;
use am_plans::outage::OutageItem;
use am_plans::planned::read_plans;
use am_plans::silence::SilenceItem;
use am_plans::target::check;
use am_terms::dispatcher_change::Carryover;
use am_terms::rehearsal::{MAX_UNTIL, TimedAction};
use serde_json::Value;
use std::alloc::Global;

/// Whose receivers the outages and expectations of a story name.
#[derive(Clone, Copy)]
pub enum ReceiversOf<'c> {
    /// Those of the story's own configuration.
    Own,
    /// Those of a configuration in its place. `None`: nobody knows it here, so no receiver is looked for.
    Given(Option<&'c Configured>),
}

/// Returns the faults of a story, a hundred at most, in the order of reading.
pub fn story_faults<Z: ZoneFiles>(
    alloc: Global,
    value: &Value,
    receivers: ReceiversOf<'_>,
    overrides: Overrides,
    files: &mut Z,
) -> Result<Faults, InputFault> {
    let mut faults = Faults::none(alloc);
    keep_faults(alloc, &mut faults, value, receivers, overrides, files)?;
    Ok(faults)
}

/// Keeps the faults of a story.
fn keep_faults<Z: ZoneFiles>(
    alloc: Global,
    faults: &mut Faults,
    value: &Value,
    receivers: ReceiversOf<'_>,
    overrides: Overrides,
    files: &mut Z,
) -> Result<(), InputFault> {
    let reader = Reader::strict(alloc, value);
    let Some(top) = faults.kept(reader.object())? else {
        return Ok(());
    };
    faults.only(&top, &MEMBERS)?;
    match receivers {
        ReceiversOf::Given(config) => plan_faults(alloc, faults, &top, config, overrides, files),
        ReceiversOf::Own => faults_with_own(alloc, faults, &top, overrides, files),
    }
}

/// Keeps the faults of a story's own configuration, and of what is planned against it.
fn faults_with_own<Z: ZoneFiles>(
    alloc: Global,
    faults: &mut Faults,
    top: &Object<'_, '_>,
    overrides: Overrides,
    files: &mut Z,
) -> Result<(), InputFault> {
    match read_configured(top, None, overrides.until, files) {
        Ok(configured) => plan_faults(alloc, faults, top, Some(&configured), overrides, files),
        Err(refusal) => {
            keep_all(alloc, faults, refusal)?;
            plan_faults(alloc, faults, top, None, overrides, files)
        }
    }
}

/// Keeps the faults for which a configuration is refused.
fn keep_all(alloc: Global, faults: &mut Faults, refusal: Refusal) -> Result<(), InputFault> {
    match refusal {
        Refusal::One(fault) => faults.push(fault),
        Refusal::All(all) => {
            for fault in all.as_slice() {
                let pointer = String::from_str(alloc, fault.pointer.as_str())?;
                let fault_kind = fault.fault_kind;
                faults.push(InputFault::Refused {
                    pointer,
                    fault_kind,
                })?;
            }
            Ok(())
        }
    }
}

/// Keeps the faults of all but the configuration, with this one where it is read.
fn plan_faults<Z: ZoneFiles>(
    alloc: Global,
    faults: &mut Faults,
    top: &Object<'_, '_>,
    configured: Option<&Configured>,
    overrides: Overrides,
    files: &mut Z,
) -> Result<(), InputFault> {
    let later = later_faults(alloc, faults, top, overrides.until, files)?;
    let lacks_hours = configured.is_some_and(|configured| configured.lacks_hours);
    faults.kept(time::start(top))?;
    faults.kept(check_start(top, overrides.until, lacks_hours || later.read.lacks_hours))?;
    match configured {
        Some(configured) if later.is_whole => {
            let configs = Configs {
                own: &configured.config,
                later: later.read.dispatcher_changes.as_slice(),
            };
            event_faults(faults, top, Some(&configs), overrides)
        }
        _ => event_faults(faults, top, None, overrides),
    }
}

/// The reloads whose configurations are read.
#[derive(Drop)]
struct Later {
    read: HandedOver,
    /// Whether these are all reloads of the story.
    is_whole: bool,
}

/// Keeps the faults of reloads and restarts. Where none is at fault by itself, the fault of all together is kept.
fn later_faults<Z: ZoneFiles>(
    alloc: Global,
    faults: &mut Faults,
    top: &Object<'_, '_>,
    until: Option<u64>,
    files: &mut Z,
) -> Result<Later, InputFault> {
    let before = faults.len();
    item_faults(faults, top)?;
    if faults.len() == before {
        if let Ok(until) = read_until(top, until) {
            faults.kept(read_items(top, until))?;
        }
    }
    let mut later = Later {
        read: HandedOver::nothing(alloc),
        is_whole: true,
    };
    for reload in reloads_in(top)? {
        match read_reload(top, reload, until, files) {
            Ok(configured) => later.read.add(0, Carryover::All, configured)?,
            Err(refusal) => {
                later.is_whole = false;
                keep_all(alloc, faults, refusal)?;
            }
        }
    }
    Ok(later)
}

/// Keeps the faults of what happens in a story, and of what is to be printed.
fn event_faults(
    faults: &mut Faults,
    top: &Object<'_, '_>,
    configs: Option<&Configs<'_>>,
    overrides: Overrides,
) -> Result<(), InputFault> {
    faults.kept(read_zones(top))?;
    let until = faults.kept(read_until(top, overrides.until))?;
    each::<AlertItem>(faults, top, "alerts")?;
    each::<SilenceItem>(faults, top, "silences")?;
    faults.kept(read_maintain(top))?;
    faults.kept(read_ticks(top))?;
    outage_faults(faults, top, configs)?;
    let plans = plans_in(top)?;
    let plans = plans.as_ref().map(Vec::as_slice);
    expectation_faults(faults, top, configs, until.unwrap_or(MAX_UNTIL), plans)?;
    faults.kept(read_output(top, overrides.output))?;
    Ok(())
}

/// Returns the planned actions, if nothing of them is at fault.
fn plans_in(top: &Object<'_, '_>) -> Result<Option<Vec<TimedAction>>, InputFault> {
    match read_plans(top) {
        Ok((plans, _)) => Ok(Some(plans)),
        Err(InputFault::NoMemory) => Err(InputFault::NoMemory),
        Err(InputFault::Refused { .. }) => Ok(None),
    }
}

/// Keeps the fault of each item of a list, if it is there.
fn each<'v, T: FromJson<'v>>(
    faults: &mut Faults,
    top: &Object<'v, '_>,
    name: &str,
) -> Result<(), InputFault> {
    let Some(member) = top.optional(name) else {
        return Ok(());
    };
    let Some(values) = faults.kept(member.array())? else {
        return Ok(());
    };
    for (index, value) in values.iter().enumerate() {
        faults.kept(T::read(&member.item(index, value)))?;
    }
    Ok(())
}

/// Keeps the fault of each outage: of what it says, or of its receiver.
fn outage_faults(
    faults: &mut Faults,
    top: &Object<'_, '_>,
    configs: Option<&Configs<'_>>,
) -> Result<(), InputFault> {
    let Some(member) = top.optional("outages") else {
        return Ok(());
    };
    let Some(values) = faults.kept(member.array())? else {
        return Ok(());
    };
    for (index, value) in values.iter().enumerate() {
        let reader = member.item(index, value);
        if let Some(OutageItem { outage }) = faults.kept(OutageItem::read(&reader))? {
            if let Some(configs) = configs {
                let receiver = outage.receiver.as_str();
                let pointer = *reader.pointer();
                faults.kept(check(
                    reader.alloc(),
                    configs,
                    receiver,
                    outage.integration,
                    pointer,
                ))?;
            }
        }
    }
    Ok(())
}
