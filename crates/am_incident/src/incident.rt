//! `Incident`: what happened, and the story of it.
use crate::time::push_time;
use crate::yaml::{push_key, push_quoted};
use am_command_line::durations::push_duration;
use std::alloc::{AllocError, Global};

/// The story of an answer without alerts.
const EMPTY: &str = "\
# Made of an answer without alerts: nothing fired then, or the query asks for something else.
until: 0s
alerts: []
";

/// What happened, in milliseconds since 1970.
#[derive(Drop)]
pub struct Incident {
    pub alerts: Vec<SeenAlert>,
    pub silences: Vec<SeenSilence>,
    /// Until when it is known what happened.
    pub end: u64,
}

/// An alert, with the spans in which it fired, the earliest first.
#[derive(Drop)]
pub struct SeenAlert {
    pub labels: Vec<(String, String)>,
    pub spans: Vec<SeenSpan>,
}

/// A span in which an alert fired; without an end it fires at the end still.
#[derive(Clone, Copy)]
pub struct SeenSpan {
    pub from: u64,
    pub to: Option<u64>,
}

/// A silence, with its matchers as texts.
#[derive(Drop)]
pub struct SeenSilence {
    pub matchers: Vec<String>,
    pub from: u64,
    pub to: u64,
}

impl Incident {
    /// Adds a label to each alert that has none of its name.
    pub fn add_label(&mut self, alloc: Global, name: &str, value: &str) -> Result<(), AllocError> {
        for alert in self.alerts.iter_mut() {
            add_label(alloc, &mut alert.labels, name, value)?;
        }
        Ok(())
    }

    /// Returns when the first alert fired; where there is none, the end.
    fn start(&self) -> u64 {
        let mut start = self.end;
        for alert in &self.alerts {
            for span in &alert.spans {
                start = start.min(span.from);
            }
        }
        start
    }

    /// Returns when the first alert fired, if a story from then on would last longer than `longest` milliseconds.
    pub fn too_early(&self, alloc: Global, longest: u64) -> Result<Option<String>, AllocError> {
        let start = self.start();
        if self.end.saturating_sub(start) <= longest {
            return Ok(None);
        }
        let mut time = String::new(alloc);
        push_time(start, &mut time)?;
        Ok(Some(time))
    }

    /// Returns the story, in YAML, without a configuration. It starts when the first alert fired; where none fired, it is
    /// empty, and a comment says so. A silence that ends later than a story can, in milliseconds from its start, ends then.
    pub fn story(&self, alloc: Global, longest: u64) -> Result<String, AllocError> {
        let mut out = String::new(alloc);
        self.push_story(longest, &mut out)?;
        Ok(out)
    }

    fn push_story(&self, longest: u64, out: &mut String) -> Result<(), AllocError> {
        if self.alerts.is_empty() {
            return out.push_str(EMPTY);
        }
        let start = self.start();
        out.push_str("# Made of what happened. Play it with --config alertmanager.yml.\nstart: ")?;
        push_time(start, out)?;
        out.push_str("\nuntil: ")?;
        push_duration(self.end.saturating_sub(start), out)?;
        out.push_str("\nalerts:\n")?;
        for alert in &self.alerts {
            push_alert(alert, start, out)?;
        }
        push_silences(
            self.silences.as_slice(),
            start,
            start.saturating_add(longest),
            out,
        )
    }
}

/// Adds a label to these, which are in the order of their names, unless there is one of its name.
fn add_label(
    alloc: Global,
    labels: &mut Vec<(String, String)>,
    name: &str,
    value: &str,
) -> Result<(), AllocError> {
    let behind = labels.iter().position(|label| label.0.as_str() >= name);
    if let Some(index) = behind {
        if labels
            .get(index)
            .is_some_and(|label| label.0.as_str() == name)
        {
            return Ok(());
        }
    }
    let label = (
        String::from_str(alloc, name)?,
        String::from_str(alloc, value)?,
    );
    let end = labels.len();
    labels.insert(behind.unwrap_or(end).min(end), label)?;
    Ok(())
}

/// Adds an alert: a line with its labels, and one with all spans in which it fired.
fn push_alert(alert: &SeenAlert, start: u64, out: &mut String) -> Result<(), AllocError> {
    out.push_str("- labels: {")?;
    push_labels(alert.labels.as_slice(), out)?;
    out.push_str("}\n  spans: [")?;
    let mut separator = "";
    for span in &alert.spans {
        out.push_str(separator)?;
        push_span(*span, start, out)?;
        separator = ", ";
    }
    out.push_str("]\n")
}

fn push_labels(labels: &[(String, String)], out: &mut String) -> Result<(), AllocError> {
    let mut separator = "";
    for (name, value) in labels {
        out.push_str(separator)?;
        push_key(name.as_str(), out)?;
        out.push_str(": ")?;
        push_quoted(value.as_str(), out)?;
        separator = ", ";
    }
    Ok(())
}

fn push_span(span: SeenSpan, start: u64, out: &mut String) -> Result<(), AllocError> {
    out.push_str("{from: ")?;
    push_duration(span.from.saturating_sub(start), out)?;
    if let Some(to) = span.to {
        out.push_str(", to: ")?;
        push_duration(to.saturating_sub(start), out)?;
    }
    out.push('}')
}

/// Adds the silences that last beyond the start, if there are any. Each ends at the last time at the latest.
fn push_silences(
    silences: &[SeenSilence],
    start: u64,
    last: u64,
    out: &mut String,
) -> Result<(), AllocError> {
    let mut head = "silences:\n";
    for silence in silences {
        let to = silence.to.min(last);
        if to > silence.from.max(start) {
            out.push_str(head)?;
            push_silence(silence, start, to, out)?;
            head = "";
        }
    }
    Ok(())
}

fn push_silence(
    silence: &SeenSilence,
    start: u64,
    to: u64,
    out: &mut String,
) -> Result<(), AllocError> {
    out.push_str("- matchers: [")?;
    push_matchers(silence.matchers.as_slice(), out)?;
    out.push_str("]\n  from: ")?;
    push_duration(silence.from.saturating_sub(start), out)?;
    out.push_str("\n  to: ")?;
    push_duration(to.saturating_sub(start), out)?;
    out.push('\n')
}

fn push_matchers(matchers: &[String], out: &mut String) -> Result<(), AllocError> {
    let mut separator = "";
    for matcher in matchers {
        out.push_str(separator)?;
        push_quoted(matcher.as_str(), out)?;
        separator = ", ";
    }
    Ok(())
}
