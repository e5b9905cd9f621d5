//! What is wrong with a time interval, a zone or the start that these need, in words.
use am_json::fault::FaultKind;
use jiff::Timestamp;
use serde_json::Value;
use std::alloc::{AllocError, Global};

/// Returns what is wrong with the value at a JSON pointer, where it is about time intervals.
pub fn explain_times(
    alloc: Global,
    top: &Value,
    pointer: &str,
    fault_kind: FaultKind,
) -> Result<Option<String>, AllocError> {
    let (above, name) = ends_of(pointer);
    let text = top.pointer(pointer).and_then(Value::as_str);
    match (fault_kind, text) {
        (FaultKind::Missing, _) if pointer == "/start" => {
            let words =
                "a route names time intervals, and they need the story's `start`; write start: 2026-11-23T08:00:00Z";
            Ok(Some(format!(in alloc; "{words}")?))
        }
        (FaultKind::Unsupported, Some(text)) if name == "location" => Ok(Some(format!(in alloc;
            "`{text}` is the zone of a machine; write the zone's name, such as Europe/Berlin"
        )?)),
        (FaultKind::BadValue, Some(text)) => bad_text(alloc, pointer, above, name, text),
        (FaultKind::BadValue, None) => bad_list(alloc, pointer, above, name),
        _ => Ok(None),
    }
}

/// The last two names of a pointer that are no numbers, the last one behind.
fn ends_of(pointer: &str) -> (&str, &str) {
    let count = count_names(pointer);
    let name = nth_name(pointer, count.saturating_sub(1));
    if count < 2 {
        return ("", name);
    }
    (nth_name(pointer, count.saturating_sub(2)), name)
}

fn count_names(pointer: &str) -> usize {
    let mut count = 0usize;
    for part in pointer.split('/') {
        if !is_number(part) {
            count = count.saturating_add(1);
        }
    }
    count
}

fn nth_name(pointer: &str, index: usize) -> &str {
    let mut seen = 0usize;
    for part in pointer.split('/') {
        if !is_number(part) {
            if seen == index {
                return part;
            }
            seen = seen.saturating_add(1);
        }
    }
    ""
}

fn is_number(part: &str) -> bool {
    !part.is_empty() && part.bytes().all(|byte| byte.is_ascii_digit())
}

fn bad_text(
    alloc: Global,
    pointer: &str,
    above: &str,
    name: &str,
    text: &str,
) -> Result<Option<String>, AllocError> {
    let wanted = match name {
        "start" if pointer == "/start" && text.parse::<Timestamp>().is_ok() => {
            "no start of time intervals: they are known in the years 1 to 9999"
        }
        "location" => "no time zone: neither the story's `zones` nor the system's files have it",
        "weekdays" => "no range of weekdays; write monday:friday or sunday",
        "days_of_month" => "no range of days; write 1:7, 15 or -3:-1",
        "months" => "no range of months; write january:march, 5 or 11:12",
        "years" => "no range of years; write 2026:2028 or 2026",
        "start_time" | "end_time" => "no such time of day; write 08:00, or 24:00 for the day's end",
        "mute_time_intervals" | "active_time_intervals" => {
            "no time interval; `time_intervals` has no such name"
        }
        _ if above == "zones" && pointer.starts_with("/zones/") => {
            "no rule of a time zone; write it as CET-1CEST,M3.5.0,M10.5.0/3"
        }
        _ => return Ok(None),
    };
    Ok(Some(format!(in alloc; "`{text}` is {wanted}")?))
}

fn bad_list(
    alloc: Global,
    pointer: &str,
    above: &str,
    name: &str,
) -> Result<Option<String>, AllocError> {
    let words = match name {
        "zones" if pointer == "/zones" => "there are too many zones: at most 64",
        "times" => "no such range of times: at most 32, each with its start before its end",
        "weekdays" | "days_of_month" | "months" | "years" => "no such range, or more than 32",
        "mute_time_intervals" | "active_time_intervals" if above == "route" => {
            "the root route can't be muted by time intervals"
        }
        "time_intervals" | "mute_time_intervals" | "active_time_intervals" => {
            "too many time intervals: at most 1,024 names, 32 intervals each, and 8,192 spans of time a route"
        }
        _ => return Ok(None),
    };
    Ok(Some(format!(in alloc; "{words}")?))
}
