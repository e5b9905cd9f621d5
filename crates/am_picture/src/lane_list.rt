//! The lanes of a fold: for each integration what came of the flushes.
use crate::content::{push_content, push_with};
use crate::fold::Fold;
use crate::lane::{Item, Lane, QuietCause, QuietItem};
use crate::notices::push_sent;
use crate::pen::Pen;
use crate::scene::Place;
use am_terms::clock::TimeFormat;
use std::alloc::AllocError;

/// Adds the lanes of a fold that are drawn.
pub(crate) fn push_lanes<C: TimeFormat>(
    pen: &Pen<'_, C>,
    place: Place<'_>,
    fold: &Fold,
    out: &mut String,
) -> Result<(), AllocError> {
    for position in fold.lanes.as_slice() {
        match place.scene.gathered.lanes.as_slice().get(*position) {
            Some(lane) if lane.is_drawn() => push_lane(pen, place, lane, out)?,
            _ => {}
        }
    }
    Ok(())
}

/// Adds a lane: its integrations, and how often it was flushed.
fn push_lane<C: TimeFormat>(
    pen: &Pen<'_, C>,
    place: Place<'_>,
    lane: &Lane,
    out: &mut String,
) -> Result<(), AllocError> {
    for (integration, name) in lane.integrations.as_slice().iter().enumerate() {
        out.push_str("<h4>")?;
        push_content(lane.route.as_str(), out)?;
        out.push_str(" → ")?;
        push_content(lane.receiver.as_str(), out)?;
        out.push_str(" <i>")?;
        push_content(name.as_str(), out)?;
        out.push_str("</i></h4><ul>")?;
        push_items(pen, place, lane, integration, out)?;
        out.push_str("</ul>")?;
    }
    push_flushes(pen, lane, out)
}

/// Adds how often a lane was flushed; and when, where nothing else says it.
fn push_flushes<C: TimeFormat>(
    pen: &Pen<'_, C>,
    lane: &Lane,
    out: &mut String,
) -> Result<(), AllocError> {
    let flushes = lane.flushes;
    push_with("<p>", flushes.count, out)?;
    out.push_str(if flushes.count == 1 {
        " flush"
    } else {
        " flushes"
    })?;
    if lane.items.is_empty() && flushes.count > 0 {
        out.push_str(", ")?;
        pen.push_span(flushes.first, flushes.last, out)?;
    }
    out.push_str("</p>")
}

/// Adds what came of the flushes for an integration.
fn push_items<C: TimeFormat>(
    pen: &Pen<'_, C>,
    place: Place<'_>,
    lane: &Lane,
    integration: usize,
    out: &mut String,
) -> Result<(), AllocError> {
    for item in lane.items.as_slice() {
        match item {
            Item::Sent(sent) if sent.integration as usize == integration => {
                push_sent(pen, place, sent, out)?;
            }
            Item::Quiet(quiet) if quiet.integration == integration => {
                push_quiet(pen, quiet, out)?;
            }
            _ => {}
        }
    }
    Ok(())
}

/// Adds flushes one after another that sent nothing.
fn push_quiet<C: TimeFormat>(
    pen: &Pen<'_, C>,
    quiet: &QuietItem,
    out: &mut String,
) -> Result<(), AllocError> {
    out.push_str("<li")?;
    pen.push_from("q", quiet.flushes.first, quiet.flushes.last, out)?;
    pen.push_time(quiet.flushes.first, out)?;
    match quiet.cause {
        QuietCause::NothingFiring => out.push_str(" nothing fires")?,
        QuietCause::RouteMuted { until } => {
            out.push_str(" route muted until ")?;
            pen.push_until(until, out)?;
        }
    }
    if quiet.flushes.count > 1 {
        push_with("; ", quiet.flushes.count, out)?;
        out.push_str(" flushes until ")?;
        pen.push_time(quiet.flushes.last, out)?;
    }
    out.push_str("</li>")
}
