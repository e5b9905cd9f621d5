//! What is wrong with a value, in words.
use crate::durations::rewritten;
use crate::fields::{FIELDS, FieldKind, INTEGRATION_LISTS, in_words, kind_in};
use crate::spelling::Nearest;
use crate::spot::{Spot, parted};
use crate::unknown_receiver::no_receiver;
use serde_json::{Map, Value};
use std::alloc::{AllocError, Global};

/// How a value is wrong.
///
/// It has the variants of `am_json`'s `FaultKind`, and `Bounds` has limits of several crates. This crate
/// uses none of them: it is proved at the same time as they are. Both are made elsewhere, by a match
/// over `FaultKind` and from the limits' own constants.
#[derive(Clone, Copy, PartialEq, Eq)]
pub enum Wrong {
    /// A field that must be there isn't.
    Missing,
    /// Another kind of value is wanted.
    WrongType,
    /// The kind is right, and the value is rejected.
    BadValue,
    /// No field of this name is known there.
    Unknown,
    /// A limit leaves no capacity for it.
    Full,
    /// It has a meaning that the program doesn't follow.
    Unsupported,
}

impl Wrong {
    /// Returns the error kind's name, for programs.
    pub fn name(self) -> &'static str {
        match self {
            Wrong::Missing => "missing",
            Wrong::WrongType => "kind",
            Wrong::BadValue => "value",
            Wrong::Unknown => "unknown",
            Wrong::Full => "full",
            Wrong::Unsupported => "unsupported",
        }
    }
}

/// What a whole file has to be.
#[derive(Clone, Copy)]
pub enum FileShape {
    /// Fields, as a story has.
    Fields,
    /// A list, as Alertmanager answers.
    List,
}

/// The limits that are named where one is passed.
#[derive(Clone, Copy)]
pub struct Bounds {
    /// Routes below the root of a configuration's own list.
    pub children: usize,
    /// Routes below the root of a tree.
    pub routes: usize,
    /// Levels at which they are.
    pub levels: usize,
    pub receivers: usize,
    /// Integrations of a receiver.
    pub integrations: usize,
    /// Inhibition rules.
    pub rules: usize,
    /// Matchers of a route.
    pub matchers: usize,
    /// Names in a list of label names.
    pub names: usize,
    /// Bytes of a label's name.
    pub name_bytes: usize,
    /// Bytes of a label's value.
    pub value_bytes: usize,
    /// Days of a story.
    pub days: usize,
}

/// Returns what is wrong with the value at a JSON pointer, in a line that names what to write in its place where that is
/// known.
pub fn explain(
    alloc: Global,
    top: &Value,
    pointer: &str,
    wrong: Wrong,
    shape: FileShape,
    bounds: &Bounds,
) -> Result<String, AllocError> {
    let spot = Spot::of(alloc, top, pointer, kind_of_file(shape))?;
    match wrong {
        Wrong::Missing => missing(alloc, top, &spot, shape),
        Wrong::WrongType => wrong_type(alloc, &spot),
        Wrong::BadValue => bad_value(alloc, top, pointer, &spot, bounds),
        Wrong::Unknown => unknown(alloc, &spot),
        Wrong::Full => full(alloc, top, &spot),
        Wrong::Unsupported => unsupported(alloc, &spot),
    }
}

fn missing(
    alloc: Global,
    top: &Value,
    spot: &Spot<'_>,
    shape: FileShape,
) -> Result<String, AllocError> {
    let name = spot.name.as_str();
    if name == "config" {
        return missing_config(alloc, top);
    }
    let to_write = match shape {
        FileShape::Fields => to_write(name),
        FileShape::List => to_give(name),
    };
    format!(in alloc; "`{name}` is missing{to_write}")
}

/// Returns what to write where a story or a configuration lacks a field, as it is said behind that.
fn to_write(name: &str) -> &'static str {
    match name {
        "until" => "; write when the story ends, such as until: 1h",
        "labels" => "; write the alert's labels, such as labels: {alertname: DiskFull}",
        "matchers" => "; write which alerts are silenced, such as matchers: [alertname=DiskFull]",
        "to" => "; write when the silence ends, such as to: 2h",
        "at" => "; write when it comes, such as at: 30m",
        "keeps" => "; write keeps: log or keeps: nothing",
        "of" => "; write from which alert on `within` counts, such as of: [alertname=DiskFull]",
        "route" => "; write route: {receiver: team}",
        "receiver" => "; write where alerts go, such as receiver: team",
        "receivers" => "; write them, such as receivers: [{name: team}]",
        "name" => "; write one, such as name: team",
        "metric" | "values" | "result" => "; give the answer to a range query",
        _ => "",
    }
}

/// Returns what to give where an answer of Alertmanager's lacks a field, as it is said behind that.
fn to_give(name: &str) -> &'static str {
    match name {
        "labels" => "; give the answer of /api/v2/alerts",
        "matchers" | "name" | "value" => "; give the answer of /api/v2/silences",
        _ => "",
    }
}

/// Says that a story has no configuration; where it looks like a configuration itself, that a story has to be round it.
fn missing_config(alloc: Global, top: &Value) -> Result<String, AllocError> {
    if top.get("receivers").is_some() {
        return format!(in alloc;
            "this is a configuration, not a story; give it with --config, and a story of its alerts"
        );
    }
    format!(in alloc;
        "the story has no configuration; add `config` or `alertmanager`, or give one with --config"
    )
}

fn wrong_type(alloc: Global, spot: &Spot<'_>) -> Result<String, AllocError> {
    let found = kind_in_words(spot.value);
    let kind = match spot.kind {
        Some(kind) => kind,
        None => return format!(in alloc; "another kind of value is wanted here, not {found}"),
    };
    let words = in_words(kind, spot.item.is_some());
    let verb = match words {
        "fields" | "labels and their values" => "are",
        _ => "is",
    };
    let hint = match spot.value {
        Some(Value::Number(_) | Value::Bool(_)) if is_text(kind) => " (write it in quotes)",
        Some(Value::String(text)) if spot.item.is_none() => {
            let list = as_list(alloc, kind, text.as_str())?;
            return format!(in alloc; "{words} {verb} wanted here, not {found}{list}");
        }
        _ => "",
    };
    format!(in alloc; "{words} {verb} wanted here, not {found}{hint}")
}

/// Returns how a text is written as a list, if a list of texts is wanted, as it is said behind that.
fn as_list(alloc: Global, kind: FieldKind, text: &str) -> Result<String, AllocError> {
    match kind {
        FieldKind::Texts | FieldKind::Matchers if text.is_empty() || text.contains('\'') => {
            Ok(String::new(alloc))
        }
        FieldKind::Texts if text.contains(',') => Ok(String::new(alloc)),
        FieldKind::Texts if is_label_name(text) => format!(in alloc; "; write [{text}]"),
        FieldKind::Texts | FieldKind::Matchers => format!(in alloc; "; write ['{text}']"),
        _ => Ok(String::new(alloc)),
    }
}

/// Returns what is wanted of a whole file.
fn kind_of_file(shape: FileShape) -> FieldKind {
    match shape {
        FileShape::Fields => FieldKind::Object,
        FileShape::List => FieldKind::Objects,
    }
}

fn is_text(kind: FieldKind) -> bool {
    matches!(kind, FieldKind::Text | FieldKind::Texts | FieldKind::Labels)
}

/// Returns the kind of a value, in words.
fn kind_in_words(value: Option<&Value>) -> &'static str {
    match value {
        None => "nothing",
        Some(Value::Null) => "null",
        Some(Value::Bool(_)) => "true or false",
        Some(Value::Number(_)) => "a number",
        Some(Value::String(_)) => "a text",
        Some(Value::Array(_)) => "a list",
        Some(Value::Object(_)) => "fields",
    }
}

fn unknown(alloc: Global, spot: &Spot<'_>) -> Result<String, AllocError> {
    let name = spot.name.as_str();
    if let ("match" | "match_re", Some(labels)) = (name, spot.value.and_then(Value::as_object)) {
        return in_matchers(alloc, name, labels);
    }
    if kind_in(name).is_some() {
        return format!(in alloc; "`{name}` doesn't belong here");
    }
    match nearest_field(alloc, name)? {
        None => format!(in alloc; "no field `{name}` is known here"),
        Some(meant) => format!(in alloc;
            "no field `{name}` is known here; did you mean `{meant}`?"
        ),
    }
}

/// Says how the labels of `match` or `match_re` are written as matchers, where only these can be.
fn in_matchers(
    alloc: Global,
    name: &str,
    labels: &Map<String, Value>,
) -> Result<String, AllocError> {
    let operator = if name == "match" { "=" } else { "=~" };
    let mut words = format!(in alloc; "`{name}` doesn't belong here; write matchers: [")?;
    for (index, (label, value)) in labels.iter().take(MAX_SHOWN).enumerate() {
        if index > 0 {
            words.push_str(", ")?;
        }
        let value = value.as_str().unwrap_or("..");
        write!(words, "'{label}{operator}\"{value}\"'")?;
    }
    if labels.len() > MAX_SHOWN {
        words.push_str(", ..")?;
    }
    words.push(']')?;
    Ok(words)
}

/// How many matchers a message writes out.
const MAX_SHOWN: usize = 3;

/// Returns the name of the known field that is probably meant.
fn nearest_field(alloc: Global, name: &str) -> Result<Option<&str>, AllocError> {
    let mut nearest = Nearest::to(name);
    for (known, _) in &FIELDS {
        nearest.consider(alloc, known)?;
    }
    for known in INTEGRATION_LISTS {
        nearest.consider(alloc, known)?;
    }
    Ok(nearest.found())
}

fn unsupported(alloc: Global, spot: &Spot<'_>) -> Result<String, AllocError> {
    let name = spot.name.as_str();
    format!(in alloc; "`{name}` isn't supported")
}

/// Says that a limit is reached. Where routes group by all labels, each alert takes a group of its own.
fn full(alloc: Global, top: &Value, spot: &Spot<'_>) -> Result<String, AllocError> {
    let each = if groups_by_all(top) {
        "; the story makes a group for each alert, since `group_by` is `...`"
    } else {
        ""
    };
    match spot.name.as_str() {
        "until" => format!(in alloc;
            "the history has no capacity for all flushes until then{each}"
        ),
        "silences" => format!(in alloc; "there is no capacity for another silence"),
        _ => format!(in alloc; "there is no capacity for another alert or group{each}"),
    }
}

/// Returns whether the root groups by all labels.
fn groups_by_all(top: &Value) -> bool {
    for suffix in [
        "/route/group_by/0",
        "/config/route/group_by/0",
        "/alertmanager/route/group_by/0",
    ] {
        if top
            .pointer(suffix)
            .is_some_and(|name| name.as_str() == Some("..."))
        {
            return true;
        }
    }
    false
}

fn bad_value(
    alloc: Global,
    top: &Value,
    pointer: &str,
    spot: &Spot<'_>,
    bounds: &Bounds,
) -> Result<String, AllocError> {
    if spot.is_label {
        return bad_label(alloc, pointer, spot, bounds);
    }
    let name = spot.name.as_str();
    let Some(text) = spot.text() else {
        return bad_list(alloc, pointer, spot, bounds);
    };
    match spot.kind {
        Some(FieldKind::Duration) => bad_duration(alloc, name, text, bounds),
        Some(FieldKind::Matchers) => no_matcher(alloc, text),
        Some(FieldKind::Integration) => format!(in alloc;
            "the receiver has no integration `{text}`; write its kind, such as webhook, or webhook/0, or its number"
        ),
        Some(FieldKind::Texts) => bad_name(alloc, text),
        Some(FieldKind::Text) => bad_text(alloc, top, pointer, name, text),
        _ => too_many(alloc, spot, bounds),
    }
}

/// Says how a matcher is written. Two quotes are those around a value; another number of them can be a quote within it.
fn no_matcher(alloc: Global, text: &str) -> Result<String, AllocError> {
    let quotes = text.bytes().filter(|byte| *byte == b'"').count();
    let hint = match quotes {
        0 | 2 => "",
        _ => "; write \\\" for a quote within the value",
    };
    format!(in alloc;
        "`{text}` is no matcher; write it as severity=\"critical\" or dc=~\"a|b\"{hint}"
    )
}

/// Says what is wrong with a value that is no text.
fn bad_list(
    alloc: Global,
    pointer: &str,
    spot: &Spot<'_>,
    bounds: &Bounds,
) -> Result<String, AllocError> {
    if !matches!(spot.kind, Some(FieldKind::Matchers)) {
        return too_many(alloc, spot, bounds);
    }
    let most = bounds.matchers;
    if pointer.starts_with("/silences") {
        format!(in alloc; "a silence needs 1 to {most} matchers")
    } else {
        too_many(alloc, spot, bounds)
    }
}

/// Says what is wrong with a label, or with a matcher that is written as one, in one cause where it is known.
fn bad_label(
    alloc: Global,
    pointer: &str,
    spot: &Spot<'_>,
    bounds: &Bounds,
) -> Result<String, AllocError> {
    let name = spot.name.as_str();
    let value = spot.text().unwrap_or("");
    let name_bytes = bounds.name_bytes;
    let value_bytes = bounds.value_bytes;
    if !is_label_name(name) {
        return format!(in alloc;
            "`{name}` is no label name: it has letters, digits and `_`, and begins with no digit"
        );
    }
    if name.len() > name_bytes || value.len() > value_bytes {
        return format!(in alloc;
            "a label's name has at most {name_bytes} bytes, and its value {value_bytes}"
        );
    }
    let (above, _) = parted(pointer);
    if above.ends_with("match_re") {
        return format!(in alloc;
            "`{value}` is a pattern that isn't right; patterns have RE2's form"
        );
    }
    format!(in alloc;
        "`{name}` isn't right here: a name has letters, digits and `_`, a value at most {value_bytes} bytes"
    )
}

fn is_label_name(name: &str) -> bool {
    let begins_one = match name.as_bytes().first() {
        None => false,
        Some(first) => !first.is_ascii_digit(),
    };
    begins_one
        && name
            .bytes()
            .all(|byte| byte.is_ascii_alphanumeric() || byte == b'_')
}

fn bad_duration(
    alloc: Global,
    name: &str,
    text: &str,
    bounds: &Bounds,
) -> Result<String, AllocError> {
    match rewritten(alloc, text)? {
        None => format!(in alloc; "`{text}` is no duration; write 90s, 5m or 2h30m"),
        Some(written) => misplaced_duration(alloc, name, text, written.as_str(), bounds),
    }
}

/// Says how a duration has to be written; where it is written so, why it can't be there.
fn misplaced_duration(
    alloc: Global,
    name: &str,
    text: &str,
    written: &str,
    bounds: &Bounds,
) -> Result<String, AllocError> {
    if written != text && text != "0" {
        return format!(in alloc; "`{text}` is no duration; write {written}");
    }
    if name == "until" {
        let days = bounds.days;
        return format!(in alloc; "`{text}` is too long: a story has at most {days} days");
    }
    let range = range_of(name);
    format!(in alloc; "`{text}` is out of range for `{name}`{range}")
}

/// Returns which durations a field can have, as it is said behind its name.
fn range_of(name: &str) -> &'static str {
    match name {
        "to" => ": it comes after `from`",
        "group_interval" | "repeat_interval" => ": it is above 0s, and at most 11574d",
        "group_wait" => ": it is at most 11574d",
        _ => "",
    }
}

fn bad_name(alloc: Global, text: &str) -> Result<String, AllocError> {
    format!(in alloc; "`{text}` is no label name: letters, digits and `_`, and no digit first")
}

fn bad_text(
    alloc: Global,
    top: &Value,
    pointer: &str,
    name: &str,
    text: &str,
) -> Result<String, AllocError> {
    match name {
        "receiver" => no_receiver(alloc, top, pointer, text),
        "reason" => no_reason(alloc, text),
        "name" if text.is_empty() => format!(in alloc; "the name is empty"),
        _ => {
            let fault = fault_of_text(name);
            format!(in alloc; "`{text}` {fault}")
        }
    }
}

/// Returns what is wrong with the text of a field, as it is said behind the text.
fn fault_of_text(name: &str) -> &'static str {
    match name {
        "start" => "is no time of RFC 3339; write 2026-11-23T08:00:00Z",
        "output" => "is no output; write timeline, notices, json or html",
        "answer" => "is no answer; write done, again or never",
        "when" => "isn't right here; write firing or resolved, with `within` and `of`",
        "name" => "can't be the name: another has it, or it has other letters than names may have",
        _ => "isn't allowed here",
    }
}

/// The reasons for which a notification is sent, in the timeline's words.
const REASONS: [&str; 6] = [
    "first notice",
    "log entry expired",
    "new alert",
    "all resolved",
    "newly resolved",
    "repeat",
];

/// Says that no notification is sent for such a reason, and which one is probably meant.
fn no_reason(alloc: Global, text: &str) -> Result<String, AllocError> {
    let mut nearest = Nearest::to(text);
    for reason in REASONS {
        nearest.consider(alloc, reason)?;
    }
    match nearest.found() {
        None => format!(in alloc;
            "`{text}` is no reason; write first notice, log entry expired, new alert, all resolved, newly resolved or repeat"
        ),
        Some(meant) => format!(in alloc; "`{text}` is no reason; did you mean `{meant}`?"),
    }
}

/// Says which limit a list or a number passes, if it can be given.
fn too_many(alloc: Global, spot: &Spot<'_>, bounds: &Bounds) -> Result<String, AllocError> {
    let (what, most, and) = match spot.name.as_str() {
        "group_by" if has_all(spot.value) => {
            return format!(in alloc;
                "`...` groups by all labels, so no other name can be next to it"
            );
        }
        "children" => ("there are too many routes", bounds.children, ""),
        "receivers" if spot.item.is_some() => {
            (
                "the receiver has too many integrations",
                bounds.integrations,
                "",
            )
        }
        "receivers" => ("there are too many receivers", bounds.receivers, ""),
        "integrations" => ("there are too many integrations", bounds.integrations, ""),
        "inhibit" | "inhibit_rules" => ("there are too many inhibition rules", bounds.rules, ""),
        "group_by" | "equal" => ("there are too many names", bounds.names, ""),
        "matchers" | "match" | "match_re" | "source" | "target" => (
            "these matchers aren't allowed here",
            bounds.matchers,
            ", and none at the root",
        ),
        name => return too_large(alloc, name, bounds),
    };
    format!(in alloc; "{what}: at most {most}{and}")
}

/// Returns whether a list has `...`, which takes all labels.
fn has_all(list: Option<&Value>) -> bool {
    let Some(names) = list.and_then(Value::as_array) else {
        return false;
    };
    names.iter().any(|name| name.as_str() == Some("..."))
}

/// Says which two limits a tree or a label set passes one of, if it is one.
fn too_large(alloc: Global, name: &str, bounds: &Bounds) -> Result<String, AllocError> {
    match name {
        "routes" => format!(in alloc;
            "there are too many routes: at most {} below the root, at {} levels",
            bounds.routes, bounds.levels
        ),
        "labels" | "firing" | "resolved" => format!(in alloc;
            "this is no label set: 1 to {} labels, each with a name of at most {} bytes and a value of at most {}",
            bounds.names, bounds.name_bytes, bounds.value_bytes
        ),
        _ => not_allowed(alloc, name),
    }
}

fn not_allowed(alloc: Global, name: &str) -> Result<String, AllocError> {
    match name {
        "spans" => format!(in alloc;
            "the spans don't follow each other, or one before the last has no end"
        ),
        "alertmanager" => format!(in alloc;
            "a story has one configuration: `config` or `alertmanager`"
        ),
        "integration" => format!(in alloc;
            "the receiver has no integration of this number; they are counted from 0"
        ),
        "none" => format!(in alloc; "`none` is of every notification: leave out what says which"),
        "never" | "count" | "at_most" => format!(in alloc;
            "one of `none`, `never`, `count` and `at_most` is enough"
        ),
        _ => format!(in alloc; "this value isn't allowed for `{name}`"),
    }
}
