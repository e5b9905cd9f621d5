//! Reads what Prometheus answers to a range query of `ALERTS{alertstate="firing"}`.
//!
//! A run of samples is a span in which the alert fired. It ends a step after its last sample, where the step is the least
//! time between two samples of a series. An alert with a sample at the last time of all still fires at the end.
use crate::incident::{Incident, SeenAlert, SeenSpan};
use crate::labels::read_labels;
use crate::time::read_seconds;
use am_json::fault::{FaultKind, InputFault};
use am_json::reader::{Object, Reader};
use std::alloc::{AllocError, Global};

/// The step where no series has two samples: a minute, in milliseconds.
const STEP: u64 = 60_000;

/// The label that says an alert that fires from one that is pending.
const STATE: &str = "alertstate";

/// The labels that Prometheus adds to those of an alert in `ALERTS`.
const ADDED: [&str; 2] = ["__name__", STATE];

/// An alert, with the times at which it fired.
#[derive(Drop)]
struct Series {
    labels: Vec<(String, String)>,
    samples: Vec<u64>,
}

/// How spans are made of samples, in milliseconds.
#[derive(Clone, Copy)]
struct Pace {
    /// How long an alert fires behind its last sample.
    step: u64,
    /// How far apart the samples of a span are at most.
    gap: u64,
    /// The time of the latest sample of all.
    latest: u64,
}

/// Reads the answer of the API, or its `data`, or the list of series alone. Samples more than `gap` milliseconds apart
/// belong to different spans; without a gap that is twice the step. A gap below the step is the step.
pub fn read_prometheus(reader: &Reader<'_, '_>, gap: Option<u64>) -> Result<Incident, InputFault> {
    let series = read_answer(reader)?;
    let step = step_of(series.as_slice());
    let pace = Pace {
        step,
        gap: gap.unwrap_or(step.saturating_mul(2)).max(step),
        latest: latest_of(series.as_slice()),
    };
    Ok(incident_of(reader.alloc(), series, pace)?)
}

fn read_answer(reader: &Reader<'_, '_>) -> Result<Vec<Series>, InputFault> {
    if !reader.is_object() {
        return read_list(reader);
    }
    let top = reader.object()?;
    match top.optional("data") {
        None => read_result(&top),
        Some(data) => read_result(&data.object()?),
    }
}

fn read_result(object: &Object<'_, '_>) -> Result<Vec<Series>, InputFault> {
    read_list(&object.required("result")?)
}

fn read_list(reader: &Reader<'_, '_>) -> Result<Vec<Series>, InputFault> {
    let values = reader.array()?;
    let mut all = Vec::new(reader.alloc());
    for (index, value) in values.iter().enumerate() {
        if let Some(series) = read_series(&reader.item(index, value))? {
            all.push(series)?;
        }
    }
    Ok(all)
}

/// Reads a series, unless it is of a pending alert.
fn read_series(reader: &Reader<'_, '_>) -> Result<Option<Series>, InputFault> {
    let object = reader.object()?;
    let Some(labels) = read_metric(&object.required("metric")?)? else {
        return Ok(None);
    };
    let samples = read_samples(&object.required("values")?)?;
    Ok(Some(Series { labels, samples }))
}

/// Reads the labels of an alert, unless it is pending. An alert has one at least.
fn read_metric(reader: &Reader<'_, '_>) -> Result<Option<Vec<(String, String)>>, InputFault> {
    let metric = reader.object()?;
    if !is_firing(&metric)? {
        return Ok(None);
    }
    let labels = read_labels(&metric, &ADDED)?;
    if labels.is_empty() {
        return Err(reader.refuse(FaultKind::BadValue));
    }
    Ok(Some(labels))
}

fn is_firing(metric: &Object<'_, '_>) -> Result<bool, InputFault> {
    match metric.optional(STATE) {
        None => Ok(true),
        Some(state) => Ok(state.text()? == "firing"),
    }
}

/// Reads the times of samples, which ascend.
fn read_samples(reader: &Reader<'_, '_>) -> Result<Vec<u64>, InputFault> {
    let values = reader.array()?;
    let mut samples = Vec::new(reader.alloc());
    let mut last: Option<u64> = None;
    for (index, value) in values.iter().enumerate() {
        let at = read_sample(&reader.item(index, value), last)?;
        samples.push(at)?;
        last = Some(at);
    }
    Ok(samples)
}

/// Reads the time of a sample, which comes behind that of the sample before.
fn read_sample(reader: &Reader<'_, '_>, last: Option<u64>) -> Result<u64, InputFault> {
    let time = match reader.array()? {
        [time, ..] => time,
        [] => return Err(reader.refuse(FaultKind::BadValue)),
    };
    let at = read_seconds(&reader.item(0, time), time)?;
    match last {
        Some(last) if last >= at => Err(reader.refuse(FaultKind::BadValue)),
        _ => Ok(at),
    }
}

/// Returns the least time between two samples of a series.
fn step_of(all: &[Series]) -> u64 {
    let mut step: Option<u64> = None;
    for series in all {
        let mut last: Option<u64> = None;
        for at in &series.samples {
            if let Some(before) = last {
                let apart = at.saturating_sub(before);
                step = Some(step.unwrap_or(apart).min(apart));
            }
            last = Some(*at);
        }
    }
    step.unwrap_or(STEP)
}

fn incident_of(alloc: Global, all: Vec<Series>, pace: Pace) -> Result<Incident, AllocError> {
    let mut alerts = Vec::new(alloc);
    for series in all {
        push_alert(alloc, series, pace, &mut alerts)?;
    }
    Ok(Incident {
        alerts,
        silences: Vec::new(alloc),
        end: pace.latest.saturating_add(pace.step),
    })
}

/// Adds the alert of a series, if it fired.
fn push_alert(
    alloc: Global,
    series: Series,
    pace: Pace,
    alerts: &mut Vec<SeenAlert>,
) -> Result<(), AllocError> {
    let Series { labels, samples } = series;
    let spans = spans_of(alloc, samples.as_slice(), pace)?;
    if !spans.is_empty() {
        alerts.push(SeenAlert { labels, spans })?;
    }
    Ok(())
}

/// Returns the time of the latest sample of all.
fn latest_of(all: &[Series]) -> u64 {
    let mut latest = 0u64;
    for series in all {
        if let Some(last) = series.samples.last() {
            latest = latest.max(*last);
        }
    }
    latest
}

/// Returns the spans of samples. The one with the latest sample of all has no end.
fn spans_of(alloc: Global, samples: &[u64], pace: Pace) -> Result<Vec<SeenSpan>, AllocError> {
    let mut spans: Vec<SeenSpan> = Vec::new(alloc);
    let mut last: Option<u64> = None;
    for at in samples {
        let is_new = match last {
            None => true,
            Some(before) => at.saturating_sub(before) > pace.gap,
        };
        if is_new {
            spans.push(SeenSpan {
                from: *at,
                to: None,
            })?;
        }
        if let Some(span) = spans.last_mut() {
            span.to = Some(at.saturating_add(pace.step));
        }
        last = Some(*at);
    }
    if last == Some(pace.latest) {
        if let Some(span) = spans.last_mut() {
            span.to = None;
        }
    }
    Ok(spans)
}
