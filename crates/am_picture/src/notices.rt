//! The lines on notices: when one came, what it came to, why it was sent, and its alerts.
use crate::content::{push_count, push_with};
use crate::lane::{Kind, SentItem};
use crate::numbers::push_numbers;
use crate::parts::notice_of;
use crate::pen::Pen;
use crate::scene::Place;
use am_alerts::alert::Alert;
use am_model::notice::{Notice, Report};
use am_model::reason::Reason;
use am_retry::Outcome;
use am_terms::clock::TimeFormat;
use am_timeline::line::sent_words;
use am_timeline::sent::{Sent, expiry_before};
use std::alloc::AllocError;

/// Adds the line on a notice, if its begin is there.
pub(crate) fn push_sent<C: TimeFormat>(
    pen: &Pen<'_, C>,
    place: Place<'_>,
    item: &SentItem,
    out: &mut String,
) -> Result<(), AllocError> {
    let Some(playback) = place.scene.story.playbacks.get(item.begin.dispatcher) else {
        return Ok(());
    };
    let Some(begin) = playback.begins().get(item.begin.begin) else {
        return Ok(());
    };
    let Some(reason) = begin.preview.reasons().get(item.integration as usize) else {
        return Ok(());
    };
    match notice_of(playback.history(), begin.index, item.integration) {
        None => Ok(()),
        Some(notice) => {
            push_mark(pen, item, reason, out)?;
            push_outcome(pen, item, notice, out)?;
            let sent = Sent {
                begin,
                notice,
                outcome: item.outcome,
                report: report_of(item, notice),
            };
            push_reason(pen, expiry_before(playback, &sent), reason, out)?;
            push_alerts(pen, place, "; firing", notice.firing.as_slice(), out)?;
            push_alerts(pen, place, "; resolved", notice.resolved.as_slice(), out)?;
            out.push_str("</li>")
        }
    }
}

/// Adds the front of a line: the mark, from when the sending began where that is seen, and the time.
fn push_mark<C: TimeFormat>(
    pen: &Pen<'_, C>,
    item: &SentItem,
    reason: &Reason,
    out: &mut String,
) -> Result<(), AllocError> {
    let kind = if item.is_delivered() {
        Kind::of(reason)
    } else {
        Kind::Failed
    };
    let start = pen.axis.position(item.since);
    let end = pen.axis.position(item.at);
    let width = end.saturating_sub(start);
    out.push_str("<li")?;
    pen.push_position(
        kind.class(),
        end,
        if width > 1 { Some(width) } else { None },
        out,
    )?;
    pen.push_time(item.at, out)?;
    out.push_str(" ")
}

/// Adds what a notice came to, unless its first attempt succeeded in time.
fn push_outcome<C: TimeFormat>(
    pen: &Pen<'_, C>,
    item: &SentItem,
    notice: &Notice,
    out: &mut String,
) -> Result<(), AllocError> {
    let is_late = notice.deadline < item.at;
    if item.is_delivered() && item.attempts == 1 && !is_late {
        return Ok(());
    }
    out.push_str(match item.outcome {
        Outcome::Delivered => "delivered after ",
        Outcome::Refused => "refused after ",
        Outcome::Expired => "expired after ",
        Outcome::Starved => "starved after ",
    })?;
    push_count(item.attempts as usize, "attempt", out)?;
    out.push_str(" since ")?;
    pen.push_time(item.since, out)?;
    if is_late {
        out.push_str(", past its deadline ")?;
        pen.push_time(notice.deadline, out)?;
        out.push_str(", at which Alertmanager cuts it off")?;
    }
    out.push_str(": ")
}

/// Adds why a notice was sent, where the log entry had expired at this time, if it had.
fn push_reason<C: TimeFormat>(
    pen: &Pen<'_, C>,
    expiry: Option<u64>,
    reason: &Reason,
    out: &mut String,
) -> Result<(), AllocError> {
    let words = sent_words(expiry, reason);
    out.push_str(words)?;
    match expiry {
        Some(at) if *reason == Reason::FirstNotice => {
            out.push_str(" at ")?;
            pen.push_time(at, out)
        }
        _ => Ok(()),
    }
}

fn report_of(item: &SentItem, notice: &Notice) -> Report {
    Report {
        board_id: notice.board_id,
        ticket: notice.ticket,
        integration: item.integration,
        outcome: item.outcome,
        attempts: item.attempts,
        ended: item.at,
    }
}

/// Adds alerts by their positions in the fold, from 1 on, if there are any. A fold with one alert needs no numbers.
fn push_alerts<C: TimeFormat>(
    pen: &Pen<'_, C>,
    place: Place<'_>,
    words: &str,
    alerts: &[Alert],
    out: &mut String,
) -> Result<(), AllocError> {
    if alerts.is_empty() {
        return Ok(());
    }
    out.push_str(words)?;
    if is_alone(place) {
        return Ok(());
    }
    if alerts.len() > 1 {
        push_with(" ", alerts.len() as u64, out)?;
        out.push_str(":")?;
    }
    out.push_str(" ")?;
    let numbers = numbers_of(pen, place, alerts)?;
    push_numbers(numbers.as_slice(), out)
}

/// Whether a fold has one alert.
fn is_alone(place: Place<'_>) -> bool {
    match place.scene.gathered.folds.as_slice().get(place.fold) {
        None => false,
        Some(fold) => fold.members.len() == 1,
    }
}

/// The positions of alerts in their fold, from 1 on, in their order.
fn numbers_of<C: TimeFormat>(
    pen: &Pen<'_, C>,
    place: Place<'_>,
    alerts: &[Alert],
) -> Result<Vec<usize>, AllocError> {
    let mut numbers = Vec::new(pen.alloc);
    for alert in alerts {
        if let Some(position) = place.scene.gathered.position_in(place.fold, alert.labels()) {
            numbers.push(position.saturating_add(1))?;
        }
    }
    numbers.sort()?;
    Ok(numbers)
}
