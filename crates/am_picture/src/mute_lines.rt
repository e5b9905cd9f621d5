//! What is said of the mutes of an alert: from when on flushes left it out, and why. `mute_lists` keeps it.
use crate::content::{push_short, push_with};
use crate::fold::{Cause, Mute};
use crate::gather::Gathered;
use crate::pen::Pen;
use am_terms::clock::TimeFormat;
use std::alloc::AllocError;

/// Returns the parts that are drawn: of those that end at one position the first.
pub(crate) fn drawn_parts<C: TimeFormat>(
    pen: &Pen<'_, C>,
    parts: &[Mute],
) -> Result<Vec<Mute>, AllocError> {
    let mut drawn = Vec::new(pen.alloc);
    let mut last: Option<u64> = None;
    for part in parts {
        let end = Some(pen.axis.position(end_of(pen, part)));
        if last != end {
            drawn.push(*part)?;
            last = end;
        }
    }
    Ok(drawn)
}

/// Returns when a part ends.
pub(crate) fn end_of<C: TimeFormat>(pen: &Pen<'_, C>, part: &Mute) -> u64 {
    part.to.unwrap_or(pen.axis.end())
}

/// Returns an element for each part: when flushes left out an alert while it fired, and why. A cause that stays is there once.
pub(crate) fn parts_text<C: TimeFormat>(
    pen: &Pen<'_, C>,
    gathered: &Gathered,
    parts: &[Mute],
) -> Result<String, AllocError> {
    let mut text = String::new(pen.alloc);
    let mut said: Option<Cause> = None;
    for part in parts {
        text.push_str("<u")?;
        pen.push_from("", part.from, end_of(pen, part), &mut text)?;
        pen.push_time(part.from, &mut text)?;
        if said == Some(part.cause) {
            text.push_str(" again")?;
        } else {
            push_cause(pen, gathered, part.cause, &mut text)?;
        }
        text.push_str("</u>")?;
        said = Some(part.cause);
    }
    Ok(text)
}

/// Adds why flushes left out an alert. The alert because of which one is inhibited has a line of its own, to which this leads.
fn push_cause<C: TimeFormat>(
    pen: &Pen<'_, C>,
    gathered: &Gathered,
    cause: Cause,
    out: &mut String,
) -> Result<(), AllocError> {
    match cause {
        Cause::Silenced { until } => {
            out.push_str(" silenced until ")?;
            pen.push_until(until, out)
        }
        Cause::Inhibited { rule, by } => {
            out.push_str(" inhibited by ")?;
            push_source(gathered, by, out)?;
            push_with(" (rule ", rule as u64, out)?;
            out.push_str(")")
        }
    }
}

/// Adds a link to the line of an alert, if that is drawn.
fn push_source(gathered: &Gathered, by: Option<usize>, out: &mut String) -> Result<(), AllocError> {
    let Some(index) = by else {
        return out.push_str("another alert");
    };
    let Some(alert) = gathered.alerts.as_slice().get(index) else {
        return out.push_str("another alert");
    };
    let name = alert.labels.get("alertname").unwrap_or("another alert");
    if !alert.is_drawn {
        return push_short(name, out);
    }
    push_with("<a href=\"#a", index as u64, out)?;
    out.push_str("\">")?;
    push_short(name, out)?;
    out.push_str("</a>")
}
