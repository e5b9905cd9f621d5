//! What is wrong with a route, a receiver or an alert, in words, where the pointer alone doesn't say which of several causes it is.
use am_json::fault::FaultKind;
use serde_json::Value;
use std::alloc::{AllocError, Global};

/// Returns what is wrong with the value at a JSON pointer, if it is one of these.
pub fn explain_config(
    alloc: Global,
    top: &Value,
    pointer: &str,
    fault_kind: FaultKind,
) -> Result<Option<String>, AllocError> {
    let (above, last) = ends_of(pointer);
    let value = top.pointer(pointer);
    match fault_kind {
        FaultKind::BadValue => bad_value(alloc, top, above, last, value),
        FaultKind::Unknown => unknown(alloc, above, last),
        FaultKind::WrongType if pointer.is_empty() && value.is_some_and(Value::is_null) => {
            said(alloc, "the file is empty")
        }
        _ => Ok(None),
    }
}

/// Returns the pointer above the last step, and that step.
fn ends_of(pointer: &str) -> (&str, &str) {
    match pointer.rsplit_once('/') {
        None => ("", pointer),
        Some(ends) => ends,
    }
}

fn said(alloc: Global, words: &str) -> Result<Option<String>, AllocError> {
    Ok(Some(String::from_str(alloc, words)?))
}

fn bad_value(
    alloc: Global,
    top: &Value,
    above: &str,
    last: &str,
    value: Option<&Value>,
) -> Result<Option<String>, AllocError> {
    let (_, list) = ends_of(above);
    match (list, last, value) {
        ("group_by", index, Some(Value::String(name))) if is_earlier(top.pointer(above), index) => {
            Ok(Some(format!(in alloc; "`{name}` is there twice; write it once")?))
        }
        (_, "name", Some(Value::String(name))) if has_twin(top, above, name.as_str()) => {
            Ok(Some(format!(in alloc;
                "there is another receiver `{name}`; give one of them another name"
            )?))
        }
        ("route", "matchers" | "match" | "match_re", Some(_)) if is_root(top, above) => said(
            alloc,
            "the root route takes every alert, so it has no matchers; write them in a route below it",
        ),
        ("route", "continue", Some(_)) if is_root(top, above) => said(
            alloc,
            "the root route has no siblings, so it has no `continue`; leave it out",
        ),
        ("times", _, Some(Value::Object(_))) => over_midnight(alloc, value),
        _ => Ok(None),
    }
}

/// Returns whether an item of a list is in it earlier too.
fn is_earlier(list: Option<&Value>, index: &str) -> bool {
    let Some(items) = list.and_then(Value::as_array) else {
        return false;
    };
    let Ok(index) = index.parse::<usize>() else {
        return false;
    };
    match items.get(index) {
        None => false,
        Some(item) => items.iter().take(index).any(|earlier| earlier == item),
    }
}

/// Returns whether a receiver before the one at a pointer has this name.
fn has_twin(top: &Value, receiver: &str, name: &str) -> bool {
    let (list, index) = ends_of(receiver);
    if !list.ends_with("/receivers") {
        return false;
    }
    let Some(items) = top.pointer(list).and_then(Value::as_array) else {
        return false;
    };
    let Ok(index) = index.parse::<usize>() else {
        return false;
    };
    items.iter().take(index).any(|earlier| earlier.get("name").and_then(Value::as_str)
        == Some(name))
}

/// Returns whether the route at a pointer is a root: the same fields have receivers.
fn is_root(top: &Value, route: &str) -> bool {
    let (config, _) = ends_of(route);
    match top.pointer(config) {
        None => false,
        Some(config) => config.get("receivers").is_some(),
    }
}

/// Returns how to write a range of times that ends on the next day, if it is one.
fn over_midnight(alloc: Global, range: Option<&Value>) -> Result<Option<String>, AllocError> {
    let (Some(from), Some(to)) = (text_in(range, "start_time"), text_in(range, "end_time")) else {
        return Ok(None);
    };
    if from <= to || from.len() != to.len() {
        return Ok(None);
    }
    Ok(Some(format!(in alloc;
        "a range ends on its day: write two, {from} to 24:00 and 00:00 to {to}"
    )?))
}

fn text_in<'v>(object: Option<&'v Value>, name: &str) -> Option<&'v str> {
    object?.get(name)?.as_str()
}

/// Returns which field of an alert is meant by one of Alertmanager's API.
fn unknown(alloc: Global, above: &str, name: &str) -> Result<Option<String>, AllocError> {
    let (list, _) = ends_of(above);
    if list != "/alerts" && list != "/silences" {
        return Ok(None);
    }
    let meant = match name {
        "start" | "starts" | "startsAt" | "starts_at" => "from",
        "end" | "ends" | "endsAt" | "ends_at" => "to",
        _ => return Ok(None),
    };
    Ok(Some(format!(in alloc;
        "no field `{name}` is known here; did you mean `{meant}`, a duration from the story's start?"
    )?))
}
