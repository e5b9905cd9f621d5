//! What the command line of `story` changes in an incident: external labels, and alerts that are left out.
ghost use Rattle.std.specs.Prelude.{◌<◌, length};

use crate::label_words::labels_of;
use crate::matchers::matchers_of;
use am_alerts::labels::{LabelFault, Labels};
use am_alerts::matcher::Matcher;
use am_command_line::exit_status::ExitStatus;
use am_command_line::request::StoryRequest;
use am_console::console::Console;
use am_incident::incident::{Incident, SeenAlert};
use std::alloc::{AllocError, Global};
use std::mem;

/// Adds the external labels of the command line to each alert, as Prometheus does when it sends them, and leaves out the alerts that
/// match. The error is the status.
pub fn edit_incident<R: Eprint + AllocGlobal>(
    rt: &R,
    console: &Console,
    request: &StoryRequest<'_>,
    incident: &mut Incident,
) -> Result<(), ExitStatus> {
    add_labels(rt, console, request.labels.as_slice(), incident)?;
    let matchers = matchers_of(rt, console, "--drop", request.drops.as_slice())?;
    match drop_alerts(rt.alloc(), matchers.as_slice(), incident) {
        Ok(()) => Ok(()),
        Err(_) => Err(console.complain_of_memory(rt)),
    }
}

/// Adds labels to each alert. The error is the status.
fn add_labels<R: Eprint + AllocGlobal>(
    rt: &R,
    console: &Console,
    words: &[&str],
    incident: &mut Incident,
) -> Result<(), ExitStatus> {
    if words.is_empty() {
        return Ok(());
    }
    let labels = labels_of(rt, console, words)?;
    for index in 0..labels.len() {
        let (name, value) = labels.pair(index);
        if incident.add_label(rt.alloc(), name, value).is_err() {
            return Err(console.complain_of_memory(rt));
        }
    }
    Ok(())
}

/// Leaves out the alerts that one of the matchers matches.
fn drop_alerts(
    alloc: Global,
    matchers: &[Matcher],
    incident: &mut Incident,
) -> Result<(), AllocError> {
    if matchers.is_empty() {
        return Ok(());
    }
    let alerts = mem::replace(&mut incident.alerts, Vec::new(alloc));
    for alert in alerts {
        if !has_match(alloc, matchers, &alert)? {
            incident.alerts.push(alert)?;
        }
    }
    Ok(())
}

/// Returns whether one of the matchers matches an alert. None matches labels that no story can have.
fn has_match(alloc: Global, matchers: &[Matcher], alert: &SeenAlert) -> Result<bool, AllocError> {
    let mut pairs = Vec::new(alloc);
    for (name, value) in &alert.labels {
        pairs.push((name.as_str(), value.as_str()))?;
    }
    let labels = match Labels::read(alloc, pairs.as_slice()) {
        Ok(labels) => labels,
        Err(LabelFault::NoMemory) => return Err(AllocError),
        Err(_) => return Ok(false),
    };
    for matcher in matchers {
        if matcher.matches(alloc, &labels)? {
            return Ok(true);
        }
    }
    Ok(false)
}
