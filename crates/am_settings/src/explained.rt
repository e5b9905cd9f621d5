//! Why a value of an `alertmanager.yml` was rejected, if it is in `global` or in an integration.
use crate::findings::{Reason, Rejection, findings_in};
use crate::kinds::part_of_list;
use crate::settings::Part;
use serde_json::Value;
use std::alloc::{AllocError, Global};

/// The value whose settings are looked into, and the pointer from it on.
#[derive(Clone, Copy)]
struct Settings<'v, 'p> {
    part: Part,
    value: &'v Value,
    /// `global` of the same configuration, unless this is it.
    global: Option<&'v Value>,
    below: &'p str,
}

/// The reason for which a value of a document was rejected, if it is in the settings of `global` or of an integration.
pub fn reason_for(
    alloc: Global,
    top: &Value,
    pointer: &str,
    rejection: Rejection,
) -> Result<Option<Reason>, AllocError> {
    let Some(settings) = settings_at(top, pointer) else {
        return Ok(None);
    };
    let Some(members) = settings.value.as_object() else {
        return Ok(None);
    };
    let global = settings.global.and_then(Value::as_object);
    let findings = findings_in(alloc, settings.part, members, global)?;
    for finding in &findings {
        if finding.place.as_str() == settings.below && finding.rejection == rejection {
            return Ok(Some(finding.reason));
        }
    }
    Ok(None)
}

/// The settings that a pointer leads into.
fn settings_at<'v, 'p>(top: &'v Value, pointer: &'p str) -> Option<Settings<'v, 'p>> {
    match pointer.split_once("/receivers/") {
        None => global_at(top, pointer),
        Some((config, way)) => integration_at(top.pointer(config)?, way),
    }
}

/// `global`, if a pointer leads into it.
fn global_at<'v, 'p>(top: &'v Value, pointer: &'p str) -> Option<Settings<'v, 'p>> {
    let (config, _) = pointer.split_once("/global/")?;
    let below = pointer.get(config.len().saturating_add(GLOBAL.len())..)?;
    let value = top.pointer(config)?.get("global")?;
    Some(Settings {
        part: Part::Global,
        value,
        global: None,
        below,
    })
}

/// The step of a pointer to `global`.
const GLOBAL: &str = "/global";

/// The integration of a configuration to which this way below `receivers` leads.
fn integration_at<'v, 'p>(config: &'v Value, way: &'p str) -> Option<Settings<'v, 'p>> {
    let (receiver, way) = way.split_once('/')?;
    let (list, way) = way.split_once('/')?;
    let index = match way.find('/') {
        None => way,
        Some(end) => way.get(..end)?,
    };
    let below = way.get(index.len()..)?;
    let part = part_of_list(list)?;
    let receivers = config.get("receivers")?;
    let items = item_of(receivers, receiver)?.get(list)?;
    Some(Settings {
        part,
        value: item_of(items, index)?,
        global: config.get("global"),
        below,
    })
}

/// The item of a list whose index a pointer says.
fn item_of<'v>(list: &'v Value, index: &str) -> Option<&'v Value> {
    list.as_array()?.get(index.parse::<usize>().ok()?)
}
