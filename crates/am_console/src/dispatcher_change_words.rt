//! What is wrong with a reload or a restart of a story, in words.
use am_alerts::duration::read_duration;
use am_json::fault::FaultKind;
use am_plans::dispatcher_change::MAX_DISPATCHER_CHANGES;
use serde_json::Value;
use std::alloc::{AllocError, Global};

/// Returns what is wrong with the value at a JSON pointer of a story, where that is a reload or a
/// restart, or a field of one.
pub fn explain_dispatcher_change(
    alloc: Global,
    story: &Value,
    pointer: &str,
    fault_kind: FaultKind,
) -> Result<Option<String>, AllocError> {
    if let Some(name) = name_below(pointer, "/reload") {
        return explain_reload(alloc, story, pointer, name, fault_kind);
    }
    match name_below(pointer, "/restart") {
        None => Ok(None),
        Some(name) => explain_restart(alloc, story, pointer, name, fault_kind),
    }
}

/// Returns the name of a field of an item of a list, or of the one item in place of a list; no letters for
/// the item itself.
fn name_below<'p>(pointer: &'p str, list: &str) -> Option<&'p str> {
    let rest = pointer.strip_prefix(list)?;
    if rest.is_empty() {
        return Some(rest);
    }
    let below = rest.strip_prefix("/")?;
    match below.split_once('/') {
        None if is_number(below) => Some(""),
        None => Some(below),
        Some((number, name)) if is_number(number) && !name.contains('/') => Some(name),
        Some(_) => None,
    }
}

fn is_number(text: &str) -> bool {
    text.parse::<usize>().is_ok()
}

fn explain_reload(
    alloc: Global,
    story: &Value,
    pointer: &str,
    name: &str,
    fault_kind: FaultKind,
) -> Result<Option<String>, AllocError> {
    let words = match (fault_kind, name) {
        (FaultKind::WrongType, "") =>
            "a reload has the fields `at`, and `config`, `alertmanager` or `file`",
        (FaultKind::Missing, "config") => {
            "the reload has no configuration; add `config`, `alertmanager` or `file`"
        }
        (FaultKind::BadValue, "alertmanager") => {
            "a reload has one configuration: `config`, `alertmanager` or `file`"
        }
        (FaultKind::BadValue, _) => return bad_field(alloc, story, pointer, name),
        _ => return Ok(None),
    };
    Ok(Some(String::from_str(alloc, words)?))
}

fn explain_restart(
    alloc: Global,
    story: &Value,
    pointer: &str,
    name: &str,
    fault_kind: FaultKind,
) -> Result<Option<String>, AllocError> {
    match (fault_kind, name) {
        (FaultKind::WrongType, "") => Ok(Some(String::from_str(
            alloc,
            "a restart has the fields `at` and `keeps`",
        )?)),
        (FaultKind::BadValue, "keeps") => no_carryover(alloc, story, pointer),
        (FaultKind::BadValue, _) => bad_field(alloc, story, pointer, name),
        _ => Ok(None),
    }
}

/// Says what a restart can keep.
fn no_carryover(alloc: Global, story: &Value, pointer: &str) -> Result<Option<String>, AllocError> {
    match story.pointer(pointer).and_then(Value::as_str) {
        None => Ok(None),
        Some(text) => Ok(Some(format!(in alloc;
            "`{text}` isn't right for `keeps`; write log or nothing"
        )?)),
    }
}

/// Says that there are too many items, or what is wrong with the time of one.
fn bad_field(
    alloc: Global,
    story: &Value,
    pointer: &str,
    name: &str,
) -> Result<Option<String>, AllocError> {
    match name {
        "" => Ok(Some(format!(in alloc;
            "there are too many reloads and restarts: at most {MAX_DISPATCHER_CHANGES}"
        )?)),
        "at" => match story.pointer(pointer).and_then(Value::as_str) {
            None => Ok(None),
            Some(text) => bad_time(alloc, story, text),
        },
        _ => Ok(None),
    }
}

/// Says why nothing can be reloaded or restarted at a time, if the text is one.
fn bad_time(alloc: Global, story: &Value, text: &str) -> Result<Option<String>, AllocError> {
    let Ok(at) = read_duration(text) else {
        return Ok(None);
    };
    if at == 0 {
        return Ok(Some(format!(in alloc;
            "`{text}` is the start of the story; a reload or a restart comes later"
        )?));
    }
    let count = count_at(story.get("reload"), at).saturating_add(count_at(
        story.get("restart"),
        at,
    ));
    if count > 1 {
        return Ok(Some(format!(in alloc; "another reload or restart comes at `{text}`")?));
    }
    Ok(Some(format!(in alloc; "`{text}` is after the end of the story")?))
}

/// Returns how many items of a list, or of the one item, come at a time.
fn count_at(list: Option<&Value>, at: u64) -> usize {
    let Some(list) = list else {
        return 0;
    };
    let Some(items) = list.as_array() else {
        return if comes_at(list, at) { 1 } else { 0 };
    };
    let mut count = 0usize;
    for item in items {
        if comes_at(item, at) {
            count = count.saturating_add(1);
        }
    }
    count
}

fn comes_at(item: &Value, at: u64) -> bool {
    match item.get("at").and_then(Value::as_str) {
        None => false,
        Some(text) => match read_duration(text) {
            Ok(time) => time == at,
            Err(_) => false,
        },
    }
}
