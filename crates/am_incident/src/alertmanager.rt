//! Reads what Alertmanager answers at `/api/v2/alerts` and `/api/v2/silences`.
use crate::incident::{Incident, SeenAlert, SeenSilence, SeenSpan};
use crate::labels::read_labels;
use crate::time::{optional_time, required_time};
use crate::yaml::escape_of;
use am_json::fault::{FaultKind, InputFault};
use am_json::reader::{Object, Reader};
use std::alloc::AllocError;

/// How long a story goes on behind the last update of an alert: 5 minutes, in milliseconds.
const CONTINUES: u64 = 300_000;

/// Reads the alerts that Alertmanager has. One that has ended by the last update of all has an end.
pub fn read_alerts(reader: &Reader<'_, '_>) -> Result<Incident, InputFault> {
    let mut alerts = Vec::new(reader.alloc());
    let latest = push_alerts(reader, &mut alerts)?;
    for alert in alerts.iter_mut() {
        drop_ends_behind(latest, &mut alert.spans);
    }
    Ok(Incident {
        alerts,
        silences: Vec::new(reader.alloc()),
        end: latest.saturating_add(CONTINUES),
    })
}

/// Adds the alerts that fired for some time, and returns when the last of all was updated.
fn push_alerts(reader: &Reader<'_, '_>, alerts: &mut Vec<SeenAlert>) -> Result<u64, InputFault> {
    let mut latest = 0u64;
    for (index, value) in reader.array()?.iter().enumerate() {
        let (alert, updated) = read_alert(&reader.item(index, value))?;
        latest = latest.max(updated);
        if has_fired(&alert) {
            alerts.push(alert)?;
        }
    }
    Ok(latest)
}

/// Returns whether an alert has no end, or one behind its start.
fn has_fired(alert: &SeenAlert) -> bool {
    alert
        .spans
        .iter()
        .any(|span| span.to.is_none_or(|to| to > span.from))
}

/// Takes the ends away that come behind a time.
fn drop_ends_behind(time: u64, spans: &mut Vec<SeenSpan>) {
    for span in spans.iter_mut() {
        if let Some(to) = span.to {
            if to > time {
                span.to = None;
            }
        }
    }
}

/// Reads an alert, and when it was updated last. It has a label at least.
fn read_alert(reader: &Reader<'_, '_>) -> Result<(SeenAlert, u64), InputFault> {
    let alert = reader.object()?;
    let (span, updated) = read_times(&alert)?;
    let mut spans = Vec::new(alert.alloc());
    spans.push(span)?;
    let set = alert.required("labels")?;
    let labels = read_labels(&set.object()?, &[])?;
    if labels.is_empty() {
        return Err(set.refuse(FaultKind::BadValue));
    }
    Ok((SeenAlert { labels, spans }, updated))
}

/// Reads the span of an alert, and when it was updated last.
fn read_times(alert: &Object<'_, '_>) -> Result<(SeenSpan, u64), InputFault> {
    let from = required_time(alert, "startsAt")?;
    let to = optional_time(alert, "endsAt")?;
    let updated = optional_time(alert, "updatedAt")?.unwrap_or(from);
    Ok((SeenSpan { from, to }, updated.max(from)))
}

/// Reads the silences that Alertmanager has.
pub fn read_silences(reader: &Reader<'_, '_>) -> Result<Vec<SeenSilence>, InputFault> {
    let values = reader.array()?;
    let mut silences = Vec::new(reader.alloc());
    for (index, value) in values.iter().enumerate() {
        silences.push(read_silence(&reader.item(index, value))?)?;
    }
    Ok(silences)
}

fn read_silence(reader: &Reader<'_, '_>) -> Result<SeenSilence, InputFault> {
    let silence = reader.object()?;
    let matchers = read_matchers(&silence.required("matchers")?)?;
    let (from, to) = read_ends(&silence)?;
    Ok(SeenSilence { matchers, from, to })
}

/// Reads when a silence starts and when it ends.
fn read_ends(silence: &Object<'_, '_>) -> Result<(u64, u64), InputFault> {
    let from = required_time(silence, "startsAt")?;
    let to = required_time(silence, "endsAt")?;
    Ok((from, to))
}

fn read_matchers(list: &Reader<'_, '_>) -> Result<Vec<String>, InputFault> {
    let values = list.array()?;
    let mut matchers = Vec::new(list.alloc());
    for (index, value) in values.iter().enumerate() {
        matchers.push(read_matcher(&list.item(index, value))?)?;
    }
    Ok(matchers)
}

/// Reads a matcher as the text of it, such as `job!~"test-.*"`.
fn read_matcher(reader: &Reader<'_, '_>) -> Result<String, InputFault> {
    let matcher = reader.object()?;
    let name = matcher.required("name")?;
    let value = matcher.required("value")?;
    let operator = read_operator(&matcher)?;
    let (name, value) = (name.text()?, value.text()?);
    let mut text = String::from_str(reader.alloc(), name)?;
    push_quoted(operator, value, &mut text)?;
    Ok(text)
}

fn read_operator(matcher: &Object<'_, '_>) -> Result<&'static str, InputFault> {
    let is_pattern = matcher.flag_or("isRegex", false)?;
    let is_equal = matcher.flag_or("isEqual", true)?;
    Ok(match (is_equal, is_pattern) {
        (true, false) => "=",
        (false, false) => "!=",
        (true, true) => "=~",
        (false, true) => "!~",
    })
}

/// Adds an operator, and the value in quotes.
fn push_quoted(operator: &str, value: &str, out: &mut String) -> Result<(), AllocError> {
    out.push_str(operator)?;
    out.push('"')?;
    for character in value.chars() {
        match escape_of(character) {
            Some(escape) => out.push_str(escape)?,
            None => out.push(character)?,
        }
    }
    out.push('"')
}
