//! Alerts and silences that answers have more than once, as of two Prometheus servers or of a silence that was edited.
use crate::incident::{Incident, SeenAlert, SeenSilence, SeenSpan};
use crate::yaml::push_quoted;
use std::alloc::{AllocError, Global};
use std::collections::BTreeMap;
use std::mem;

impl Incident {
    /// Makes one of alerts with the same labels, whose spans are joined where they meet, and one of silences with the same matchers
    /// that meet. What comes first keeps its position.
    pub fn join_repeats(&mut self, alloc: Global) -> Result<(), AllocError> {
        let alerts = mem::replace(&mut self.alerts, Vec::new(alloc));
        let mut first: BTreeMap<String, usize> = BTreeMap::new(alloc);
        for alert in alerts {
            join_alert(alloc, alert, &mut first, &mut self.alerts)?;
        }
        let silences = mem::replace(&mut self.silences, Vec::new(alloc));
        for silence in silences {
            join_silence(alloc, silence, &mut self.silences)?;
        }
        Ok(())
    }
}

/// Adds an alert to others, or its spans to the one of the same labels. `first` has where each label set is.
fn join_alert(
    alloc: Global,
    alert: SeenAlert,
    first: &mut BTreeMap<String, usize>,
    alerts: &mut Vec<SeenAlert>,
) -> Result<(), AllocError> {
    let key = key_of(alloc, alert.labels.as_slice())?;
    let Some(index) = first.get(key.as_str()).copied() else {
        first.insert(key, alerts.len())?;
        alerts.push(alert)?;
        return Ok(());
    };
    if let Some(known) = alerts.get_mut(index) {
        for span in &alert.spans {
            join_span(alloc, *span, &mut known.spans)?;
        }
    }
    Ok(())
}

/// Returns a text that labels have in common only if they are the same.
fn key_of(alloc: Global, labels: &[(String, String)]) -> Result<String, AllocError> {
    let mut key = String::new(alloc);
    for (name, value) in labels {
        push_quoted(name.as_str(), &mut key)?;
        push_quoted(value.as_str(), &mut key)?;
    }
    Ok(key)
}

/// Adds a span to others, which are in order and apart, as one with those that it meets.
fn join_span(alloc: Global, span: SeenSpan, spans: &mut Vec<SeenSpan>) -> Result<(), AllocError> {
    let mut wide = span;
    let mut joined = Vec::new(alloc);
    let mut at = 0usize;
    for other in spans.iter() {
        if ends_before(&wide, other.from) {
            joined.push(*other)?;
        } else if ends_before(other, wide.from) {
            joined.push(*other)?;
            at = joined.len();
        } else {
            wide = hull(wide, *other);
        }
    }
    let end = joined.len();
    joined.insert(at.min(end), wide)?;
    *spans = joined;
    Ok(())
}

/// Returns whether a span ends before a time.
fn ends_before(span: &SeenSpan, time: u64) -> bool {
    span.to.is_some_and(|to| to < time)
}

/// Returns the span from the start of the earlier one to the end of the later one.
fn hull(span: SeenSpan, other: SeenSpan) -> SeenSpan {
    let to = match (span.to, other.to) {
        (Some(to), Some(end)) => Some(to.max(end)),
        _ => None,
    };
    SeenSpan {
        from: span.from.min(other.from),
        to,
    }
}

/// Adds a silence to others, as one with those of the same matchers that it meets.
fn join_silence(
    alloc: Global,
    silence: SeenSilence,
    silences: &mut Vec<SeenSilence>,
) -> Result<(), AllocError> {
    let mut wide = silence;
    let mut at: Option<usize> = None;
    let others = mem::replace(silences, Vec::new(alloc));
    for other in others {
        if meets(&wide, &other) {
            wide.from = wide.from.min(other.from);
            wide.to = wide.to.max(other.to);
            let _ = at.get_or_insert(silences.len());
        } else {
            silences.push(other)?;
        }
    }
    let end = silences.len();
    silences.insert(at.unwrap_or(end).min(end), wide)?;
    Ok(())
}

/// Returns whether two silences have the same matchers, and one begins before the other has ended or as it ends.
fn meets(silence: &SeenSilence, other: &SeenSilence) -> bool {
    silence.from <= other.to && other.from <= silence.to && silence.matchers == other.matchers
}
