//! What is wrong where a receiver is named that a configuration doesn't have, in words.
use crate::spelling::Nearest;
use serde_json::Value;
use std::alloc::{AllocError, Global};

/// Says that there is no such receiver, and which one is probably meant.
pub(crate) fn no_receiver(
    alloc: Global,
    top: &Value,
    pointer: &str,
    text: &str,
) -> Result<String, AllocError> {
    if text.is_empty() {
        return format!(in alloc; "the root route has to name a receiver");
    }
    match nearest_receiver(alloc, top, pointer, text)? {
        None if lacks_receivers(top, pointer) => format!(in alloc;
            "receiver `{text}` isn't defined, since `receivers` is missing; write receivers: [{{name: {text}}}]"
        ),
        None => format!(in alloc; "receiver `{text}` isn't defined"),
        Some(meant) => format!(in alloc;
            "receiver `{text}` isn't defined; did you mean `{meant}`?"
        ),
    }
}

/// Returns whether the configuration of a route has no receivers at all.
fn lacks_receivers(top: &Value, pointer: &str) -> bool {
    let Some((config, _)) = pointer.split_once("/route") else {
        return false;
    };
    match top.pointer(config) {
        None => false,
        Some(config) => config.get("receivers").is_none(),
    }
}

/// Returns the name of the receiver that is probably meant: one of the configuration that the location belongs to. What an outage or an
/// expectation names can be of any configuration of the story.
fn nearest_receiver<'v>(
    alloc: Global,
    top: &'v Value,
    pointer: &str,
    text: &'v str,
) -> Result<Option<&'v str>, AllocError> {
    let mut nearest = Nearest::to(text);
    if pointer.starts_with("/route") || pointer.starts_with("/children") {
        consider_receivers(alloc, top, &mut nearest)?;
    } else if let Some(reload) = reload_of(top, pointer) {
        consider_configured(alloc, reload, &mut nearest)?;
    } else {
        consider_configured(alloc, top, &mut nearest)?;
        if !pointer.starts_with("/config") && !pointer.starts_with("/alertmanager") {
            consider_reloads(alloc, top, &mut nearest)?;
        }
    }
    Ok(nearest.found())
}

/// Returns the reload that a location of a story belongs to.
fn reload_of<'v>(top: &'v Value, pointer: &str) -> Option<&'v Value> {
    let behind = pointer.strip_prefix("/reload/")?;
    let reload = top.get("reload")?;
    let (step, _) = behind.split_once('/')?;
    match step.parse::<usize>() {
        Ok(index) => reload.as_array()?.get(index),
        Err(_) => Some(reload),
    }
}

/// Tries the receivers of all reloads of a story.
fn consider_reloads<'v>(
    alloc: Global,
    top: &'v Value,
    nearest: &mut Nearest<'v>,
) -> Result<(), AllocError> {
    let Some(reload) = top.get("reload") else {
        return Ok(());
    };
    let Some(list) = reload.as_array() else {
        return consider_configured(alloc, reload, nearest);
    };
    for reload in list {
        consider_configured(alloc, reload, nearest)?;
    }
    Ok(())
}

/// Tries the receivers of the configuration that a story or a reload has.
fn consider_configured<'v>(
    alloc: Global,
    story: &'v Value,
    nearest: &mut Nearest<'v>,
) -> Result<(), AllocError> {
    match story.get("alertmanager").or(story.get("config")) {
        None => Ok(()),
        Some(config) => consider_receivers(alloc, config, nearest),
    }
}

/// Tries the receivers of a configuration.
fn consider_receivers<'v>(
    alloc: Global,
    config: &'v Value,
    nearest: &mut Nearest<'v>,
) -> Result<(), AllocError> {
    let Some(receivers) = config.get("receivers").and_then(Value::as_array) else {
        return Ok(());
    };
    for receiver in receivers {
        if let Some(name) = receiver.get("name").and_then(Value::as_str) {
            nearest.consider(alloc, name)?;
        }
    }
    Ok(())
}
