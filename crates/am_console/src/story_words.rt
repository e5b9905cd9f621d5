//! What is wrong with a story's expectations, in words.
use am_alerts::duration::read_duration;
use am_alerts::limits::MAX_MATCHERS;
use am_json::fault::{FaultKind, InputFault};
use am_plans::causes::{Cause, cause_of_matchers, cause_of_set};
use am_plans::expectation::MAX_EXPECTATIONS;
use serde_json::Value;
use std::alloc::{AllocError, Global};

/// A field of an expectation, and what is there.
#[derive(Clone, Copy)]
struct Field<'v, 'p> {
    story: &'v Value,
    expectation: &'v Value,
    name: &'p str,
    /// Whether the value is an item of the field's list.
    is_item: bool,
    value: &'v Value,
}

/// Returns what is wrong with the value at a JSON pointer of a story, where it is about an expectation.
pub fn explain_story(
    alloc: Global,
    story: &Value,
    pointer: &str,
    fault_kind: FaultKind,
) -> Result<Option<String>, AllocError> {
    if pointer == "/expect" && fault_kind == FaultKind::BadValue {
        return Ok(Some(format!(in alloc;
            "there are too many expectations: at most {MAX_EXPECTATIONS}"
        )?));
    }
    match field_at(story, pointer) {
        None => Ok(None),
        Some(field) => explain_field(alloc, &field, fault_kind),
    }
}

/// Returns what is wrong with a field of an expectation, if it is known here.
fn explain_field(
    alloc: Global,
    field: &Field<'_, '_>,
    fault_kind: FaultKind,
) -> Result<Option<String>, AllocError> {
    match (fault_kind, field.name) {
        (FaultKind::WrongType, "count" | "at_most") => no_count(alloc, field),
        (FaultKind::BadValue, "has" | "has_resolved" | "of") if !field.is_item => {
            bad_matchers(alloc, field)
        }
        (FaultKind::BadValue, "firing" | "resolved" | "exactly") if field.is_item => {
            bad_set(alloc, field)
        }
        (FaultKind::BadValue, "from" | "to" | "within") => bad_time(alloc, field),
        (FaultKind::BadValue, "integration") => no_integration(alloc, field),
        (FaultKind::BadValue, _) => match words_together(field) {
            None => Ok(None),
            Some(words) => Ok(Some(String::from_str(alloc, words)?)),
        },
        _ => Ok(None),
    }
}

/// Returns the field that a pointer leads to, if it is one of an expectation.
fn field_at<'v, 'p>(story: &'v Value, pointer: &'p str) -> Option<Field<'v, 'p>> {
    let (number, rest) = pointer.strip_prefix("/expect/")?.split_once('/')?;
    let expectations = story.get("expect")?.as_array()?;
    let expectation = expectations.as_slice().get(number.parse::<usize>().ok()?)?;
    let (name, is_item) = match rest.split_once('/') {
        None => (rest, false),
        Some((_, below)) if below.contains('/') => return None,
        Some((name, _)) => (name, true),
    };
    let value = story.pointer(pointer)?;
    Some(Field {
        story,
        expectation,
        name,
        is_item,
        value,
    })
}

/// Returns whether the expectation has a field.
fn has(field: &Field<'_, '_>, name: &str) -> bool {
    field.expectation.get(name).is_some()
}

/// Says that a number counts nothing.
fn no_count(alloc: Global, field: &Field<'_, '_>) -> Result<Option<String>, AllocError> {
    match field.value {
        Value::Number(number) => {
            let name = field.name;
            Ok(Some(format!(in alloc;
                "`{number}` isn't right for `{name}`: write a whole number from 0 on"
            )?))
        }
        _ => Ok(None),
    }
}

/// Says why matchers match no alert in time, if it is that.
fn bad_matchers(alloc: Global, field: &Field<'_, '_>) -> Result<Option<String>, AllocError> {
    if field.name == "of" && !has(field, "within") {
        let words =
            "`of` says from which alert on `within` counts; write `within` too, or `has` in its place";
        return Ok(Some(String::from_str(alloc, words)?));
    }
    let count = field.value.as_array().map(Vec::len).unwrap_or(0);
    if count == 0 || count > MAX_MATCHERS {
        let name = field.name;
        return Ok(Some(format!(in alloc; "`{name}` needs 1 to {MAX_MATCHERS} matchers")?));
    }
    let resolves = match field.name {
        "has" => false,
        "has_resolved" => true,
        _ => is_resolved(field),
    };
    let cause = cause_of_matchers(alloc, field.story, field.value, resolves);
    in_words(alloc, cause, "an alert that all of these match")
}

/// Returns whether `when` says that the alert is resolved.
fn is_resolved(field: &Field<'_, '_>) -> bool {
    field.expectation.get("when").and_then(Value::as_str) == Some("resolved")
}

/// Says why no alert has a label set in time, if it is that.
fn bad_set(alloc: Global, field: &Field<'_, '_>) -> Result<Option<String>, AllocError> {
    let resolves = field.name == "resolved";
    let cause = cause_of_set(alloc, field.story, field.value, resolves);
    in_words(alloc, cause, "an alert with exactly these labels")
}

fn in_words(
    alloc: Global,
    cause: Result<Cause, InputFault>,
    alert: &str,
) -> Result<Option<String>, AllocError> {
    match cause {
        Err(_) => Ok(None),
        Ok(Cause::NoAlert) => Ok(Some(format!(in alloc; "the story doesn't have {alert}")?)),
        Ok(Cause::NeverResolved) => Ok(Some(format!(in alloc;
            "the story has {alert}, and it is never resolved"
        )?)),
        Ok(Cause::AfterEnd) => Ok(Some(format!(in alloc;
            "the story has {alert} only after its end"
        )?)),
    }
}

/// Says what is wrong with a time that is one.
fn bad_time(alloc: Global, field: &Field<'_, '_>) -> Result<Option<String>, AllocError> {
    let Some(text) = field.value.as_str() else {
        return Ok(None);
    };
    if field.name == "within" {
        return words_with_within(alloc, field);
    }
    if has(field, "at") {
        let words = "`at` is one time: leave out `from` and `to`";
        return Ok(Some(String::from_str(alloc, words)?));
    }
    if read_duration(text).is_err() {
        return Ok(None);
    }
    if field.name == "to" {
        return Ok(Some(format!(in alloc; "`{text}` comes before `from`")?));
    }
    Ok(Some(format!(in alloc; "`{text}` is after the end of the story")?))
}

fn words_with_within(alloc: Global, field: &Field<'_, '_>) -> Result<Option<String>, AllocError> {
    if has(field, "at") || has(field, "from") || has(field, "to") {
        let words = "`within` says the time: leave out `at`, `from` and `to`";
        return Ok(Some(String::from_str(alloc, words)?));
    }
    Ok(None)
}

/// Says that no receiver has an integration, where none is named.
fn no_integration(alloc: Global, field: &Field<'_, '_>) -> Result<Option<String>, AllocError> {
    if has(field, "receiver") {
        return Ok(None);
    }
    match field.value.as_str() {
        Some(text) => Ok(Some(format!(in alloc;
            "no receiver has an integration `{text}`; write its kind, such as webhook, or webhook/0, or its number"
        )?)),
        None => Ok(Some(format!(in alloc;
            "no receiver has an integration of this number; they are counted from 0"
        )?)),
    }
}

/// Returns whether a value is a list without items.
fn is_empty(value: &Value) -> bool {
    match value.as_array() {
        None => false,
        Some(items) => items.is_empty(),
    }
}

/// Returns which fields a field excludes, in words.
fn words_together(field: &Field<'_, '_>) -> Option<&'static str> {
    match field.name {
        "exactly" if is_empty(field.value) => {
            Some("`exactly` lists no alert, and a notification has one")
        }
        "exactly" if !field.is_item => {
            Some(
                "`exactly` says which alerts fire, and that none is resolved: leave out `firing` and `resolved`",
            )
        }
        "firing" if !field.is_item => {
            Some("neither `firing` nor `resolved` lists an alert, and a notification has one")
        }
        "when" if !has(field, "within") => Some("`when` goes with `within` and `of`"),
        "none" if has(field, "of") => {
            Some("`none` is of every notification, and `of` says of which alert; write `never`")
        }
        "never" if has(field, "none") => { Some("one of `none` and `never` is enough") }
        _ => None,
    }
}
