//! The time intervals that the routes of a file name.
use am_config::written::WrittenRoutes;
use am_input::form::alertmanager_in;
use serde_json::Value;
use std::alloc::{AllocError, Global};

/// The lists of a route, each of the names of time intervals.
const LISTS: [&str; 2] = ["mute_time_intervals", "active_time_intervals"];

/// Returns the routes of a file below the root; none where it isn't a configuration of Alertmanager.
pub fn written_routes<'v>(alloc: Global, file: &'v Value) -> Result<WrittenRoutes<'v>, AllocError> {
    match alertmanager_in(file).and_then(|config| config.get("route")) {
        None => Ok(WrittenRoutes::none(alloc)),
        Some(root) => WrittenRoutes::below(alloc, root),
    }
}

/// Adds the names of the time intervals of the route at a position, if it has some. The root has none.
pub fn push_times(
    alloc: Global,
    written: &WrittenRoutes<'_>,
    position: u32,
    lines: &mut String,
) -> Result<(), AllocError> {
    let index = (position as usize).checked_sub(1);
    let Some(route) = index.and_then(|index| written.as_slice().get(index)) else {
        return Ok(());
    };
    for list in LISTS {
        if let Some(names) = route.get(list).and_then(Value::as_array) {
            push_names(alloc, list, names.as_slice(), lines)?;
        }
    }
    Ok(())
}

/// Adds a list of names, if it has one.
fn push_names(
    alloc: Global,
    list: &str,
    names: &[Value],
    lines: &mut String,
) -> Result<(), AllocError> {
    if names.is_empty() {
        return Ok(());
    }
    write!(lines, "; {list} [")?;
    let mut separator = "";
    for name in names {
        lines.push_str(separator)?;
        match name.as_str() {
            Some(name) => lines.push_str(name)?,
            None => lines.push_str(name.to_string(alloc)?.as_str())?,
        }
        separator = ", ";
    }
    lines.push(']')
}
