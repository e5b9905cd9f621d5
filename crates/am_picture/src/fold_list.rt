//! The folds of a page: a row for each, with its alerts and its lanes.
use crate::alerts::StoryAlert;
use crate::content::{push_count, push_labels, push_own_labels, push_short, push_with};
use crate::fold::{Fold, Member};
use crate::gather::Gathered;
use crate::lane_list::push_lanes;
use crate::mute_lists::push_mutes;
use crate::order::{Sections, State};
use crate::pen::Pen;
use crate::scene::{Place, Scene};
use crate::span::Span;
use am_terms::clock::TimeFormat;
use std::alloc::AllocError;

/// How many folds there are up to the end of a section that is open.
const OPEN: usize = 150;

/// How many folds the first section has at most that is open.
const OPEN_FIRST: usize = 500;

/// How many alerts of a fold are listed before those that are folded.
const MEMBERS: usize = 12;

/// A section: folds to which the same happened, below a title.
#[derive(Clone, Copy)]
struct Section<'s> {
    title: &'static str,
    folds: &'s [usize],
}

/// Adds the folds, section by section.
pub(crate) fn push_folds<C: TimeFormat>(
    pen: &Pen<'_, C>,
    scene: Scene<'_>,
    sections: &Sections,
    out: &mut String,
) -> Result<(), AllocError> {
    let titled = [
        Section {
            title: "With failures",
            folds: sections.failed.as_slice(),
        },
        Section {
            title: "With an alert that no delivered notification has",
            folds: sections.undelivered.as_slice(),
        },
        Section {
            title: "With mutes",
            folds: sections.muted.as_slice(),
        },
        Section {
            title: "Without any of these",
            folds: sections.others.as_slice(),
        },
    ];
    let mut before: usize = 0;
    for section in &titled {
        if !section.folds.is_empty() {
            push_section(pen, scene, *section, before, out)?;
            before = before.saturating_add(section.folds.len());
        }
    }
    Ok(())
}

/// Adds a section, behind so many folds.
fn push_section<C: TimeFormat>(
    pen: &Pen<'_, C>,
    scene: Scene<'_>,
    section: Section<'_>,
    before: usize,
    out: &mut String,
) -> Result<(), AllocError> {
    let count = section.folds.len();
    let is_open = before.saturating_add(count) <= OPEN || (before == 0 && count <= OPEN_FIRST);
    out.push_str(if is_open {
        "<details class=\"s\" open=\"\"><summary>"
    } else {
        "<details class=\"s\"><summary>"
    })?;
    out.push_str(section.title)?;
    push_with(": <span>", count as u64, out)?;
    out.push_str("</span></summary>\n")?;
    for index in section.folds {
        if let Some(fold) = scene.gathered.folds.as_slice().get(*index) {
            push_fold(
                pen,
                Place {
                    scene,
                    fold: *index,
                },
                fold,
                out,
            )?;
        }
    }
    out.push_str("</details>\n")
}

/// Adds a fold.
fn push_fold<C: TimeFormat>(
    pen: &Pen<'_, C>,
    place: Place<'_>,
    fold: &Fold,
    out: &mut String,
) -> Result<(), AllocError> {
    let gathered = place.scene.gathered;
    out.push_str("<details class=\"g\"><summary>")?;
    push_state(State::of(gathered, fold), out)?;
    push_labels(pen.alloc, &fold.labels, out)?;
    if fold.labels.len() == 0 {
        push_receivers(gathered, fold, out)?;
    }
    out.push_str("</summary>")?;
    push_members(pen, place, fold, out)?;
    push_lanes(pen, place, fold, out)?;
    out.push_str("</details>\n")
}

/// Adds the receivers of a fold, which has no labels to be known by.
fn push_receivers(gathered: &Gathered, fold: &Fold, out: &mut String) -> Result<(), AllocError> {
    out.push_str(" <small>")?;
    for position in fold.lanes.as_slice() {
        match gathered.lanes.as_slice().get(*position) {
            Some(lane) if lane.is_drawn() => {
                out.push_str(" → ")?;
                push_short(lane.receiver.as_str(), out)?;
            }
            _ => {}
        }
    }
    out.push_str("</small>")
}

/// Adds what went wrong in a fold.
fn push_state(state: State, out: &mut String) -> Result<(), AllocError> {
    if state.failures > 0 {
        out.push_str("<em class=\"x\">")?;
        push_count(state.failures, "failure", out)?;
        out.push_str("</em> ")?;
    }
    if state.undelivered > 0 {
        push_with("<em>", state.undelivered as u64, out)?;
        out.push_str(" not notified</em> ")?;
    }
    if state.is_muted {
        out.push_str("<i>muted</i> ")?;
    }
    Ok(())
}

/// Adds the alerts of a fold.
fn push_members<C: TimeFormat>(
    pen: &Pen<'_, C>,
    place: Place<'_>,
    fold: &Fold,
    out: &mut String,
) -> Result<(), AllocError> {
    out.push_str("<ol>")?;
    for (position, member) in fold.members.as_slice().iter().enumerate() {
        if position == MEMBERS {
            push_more(fold.members.len(), out)?;
        }
        push_member(pen, place, fold, position, *member, out)?;
    }
    out.push_str("</ol>")?;
    if fold.members.len() > MEMBERS {
        out.push_str("</details>")?;
    }
    Ok(())
}

/// Begins the list of the alerts that are folded.
fn push_more(count: usize, out: &mut String) -> Result<(), AllocError> {
    let more = count.saturating_sub(MEMBERS) as u64;
    push_with("</ol><details><summary>and ", more, out)?;
    let next = MEMBERS.saturating_add(1) as u64;
    push_with(" more</summary><ol start=\"", next, out)?;
    out.push_str("\">")
}

/// Adds an alert of a fold: the labels that the fold doesn't have, when it fires, and when flushes left it out.
fn push_member<C: TimeFormat>(
    pen: &Pen<'_, C>,
    place: Place<'_>,
    fold: &Fold,
    position: usize,
    member: Member,
    out: &mut String,
) -> Result<(), AllocError> {
    let Some(alert) = place.scene.gathered.alerts.as_slice().get(member.alert) else {
        return Ok(());
    };
    out.push_str("<li")?;
    if member.is_first && alert.is_source {
        push_with(" id=\"a", member.alert as u64, out)?;
        out.push_str("\"")?;
    }
    out.push_str(if alert.is_missed {
        " class=\"u\">"
    } else {
        ">"
    })?;
    push_own_labels(pen.alloc, &alert.labels, &fold.labels, out)?;
    push_spans(pen, alert, out)?;
    push_mutes(place.scene.lists, place.fold, position, out)?;
    out.push_str("</li>")
}

/// Adds when an alert fires. Of the spans that end at one position the first is drawn.
fn push_spans<C: TimeFormat>(
    pen: &Pen<'_, C>,
    alert: &StoryAlert,
    out: &mut String,
) -> Result<(), AllocError> {
    let mut drawn: Option<u64> = None;
    for span in alert.spans.as_slice() {
        let end = end_of(pen, span);
        if drawn != Some(pen.axis.position(end)) {
            out.push_str("<b")?;
            pen.push_from("", span.from, end, out)?;
            push_times(pen, span, out)?;
            out.push_str("</b>")?;
            drawn = Some(pen.axis.position(end));
        }
    }
    Ok(())
}

/// Adds from when to when an alert fires.
fn push_times<C: TimeFormat>(
    pen: &Pen<'_, C>,
    span: &Span,
    out: &mut String,
) -> Result<(), AllocError> {
    match span.to {
        None => {
            out.push_str("since ")?;
            pen.push_brief(span.from, out)
        }
        Some(to) => {
            pen.push_brief(span.from, out)?;
            out.push_str(" to ")?;
            pen.push_brief(to, out)
        }
    }
}

/// When a span ends: an alert that isn't resolved fires up to the end.
fn end_of<C: TimeFormat>(pen: &Pen<'_, C>, span: &Span) -> u64 {
    span.to.unwrap_or(pen.axis.end())
}
