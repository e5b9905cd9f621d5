//! `Axis`: the position of each time, and the round times along it.
ghost use Rattle.std.specs.Prelude.{◌≤◌, ◌^◌};

use crate::content::push_number;
use crate::pen::{DAY, Pen, WHOLE, parts_of};
use crate::story::{Change, Story};
use crate::ticks::Ticks;
use am_model::record::{Call, Record};
use am_terms::clock::TimeFormat;
use am_terms::event::Event;
use am_timeline::playback::Playback;
use std::alloc::AllocError;

/// From which position on a time is left of its line, in thousandths.
const LATE: u64 = 960;

/// The latest end that is shown, in milliseconds: some 34 years.
const LATEST: u64 = 1_099_511_627_776;

/// The times from 0 to an end, from left to right.
#[derive(Clone, Copy)]
pub(crate) struct Axis {
    end: u64,
    ghost some: { 1 ≤ end },
    ghost few: { end ≤ 2 ^ 40 },
}

impl Axis {
    /// Returns the axis of a story, up to the last thing that happens in it.
    pub(crate) fn of(story: &Story<'_>) -> Axis {
        Axis {
            end: last_of(story).max(1_000).min(LATEST),
        }
    }

    /// Returns the end, in milliseconds.
    pub(crate) fn end(&self) -> u64 {
        self.end
    }

    /// Returns the position of a time, in thousandths. A time after the end has the position of the end.
    pub(crate) fn position(&self, at: u64) -> u64
        ensures { result ≤ 1000 }
    {
        let end = self.end;
        if at < end { at * WHOLE / end } else { WHOLE }
    }
}

/// The last time at which something happens.
fn last_of(story: &Story<'_>) -> u64 {
    let mut last: u64 = 0;
    for playback in story.playbacks {
        last = last_of_dispatcher(playback).max(last);
    }
    last
}

fn last_of_dispatcher(playback: &Playback<'_>) -> u64 {
    let mut last = last_record(playback.history());
    for event in playback.events() {
        last = ended_by(event).max(last);
    }
    last
}

fn last_record(history: &[Record]) -> u64 {
    match history.last() {
        None => 0,
        Some(record) => time_of(&record.call),
    }
}

fn time_of(call: &Call) -> u64 {
    match call {
        Call::Insert { now, .. }
        | Call::Silence { now, .. }
        | Call::Begin { now }
        | Call::Finish { now, .. }
        | Call::Maintain { now }
        | Call::RemoveEmptyGroups { now }
        | Call::Forget { now }
        | Call::Load { now, .. }
        | Call::Note { now, .. } => *now,
    }
}

fn ended_by(event: &Event) -> u64 {
    match event {
        Event::Begun { begin: _ } => 0,
        Event::Sent { begin: _, report } => report.get().ended,
    }
}

/// Adds the round times, and a line for each over all that is below, as well as one for each reload and restart.
pub(crate) fn push_axis<C: TimeFormat>(
    pen: &Pen<'_, C>,
    changes: &[Change<'_>],
    out: &mut String,
) -> Result<(), AllocError> {
    let ticks = Ticks::new(pen.axis.end(), pen.calendar.behind);
    out.push_str("<div class=\"grid\">")?;
    for position in 0..ticks.count() {
        if let Some(at) = ticks.at(position) {
            push_line("", pen.axis.position(at), out)?;
        }
    }
    for change in changes {
        push_line(" class=\"c\"", pen.axis.position(change.at), out)?;
    }
    out.push_str("</div>\n")?;
    push_times(pen, &ticks, out)
}

/// Adds a line of a class at a position.
fn push_line(class: &str, position: u64, out: &mut String) -> Result<(), AllocError> {
    out.push_str("<i")?;
    out.push_str(class)?;
    out.push_str(" style=\"--x:")?;
    push_number(position, out)?;
    out.push_str("\"></i>")
}

/// Adds the times of the ticks.
fn push_times<C: TimeFormat>(
    pen: &Pen<'_, C>,
    ticks: &Ticks,
    out: &mut String,
) -> Result<(), AllocError> {
    out.push_str("<div class=\"axis\">")?;
    let mut is_first = true;
    for position in 0..ticks.count() {
        if let Some(at) = ticks.at(position) {
            push_tick(pen, ticks.step, at, is_first, out)?;
            is_first = false;
        }
    }
    out.push_str("</div>\n")
}

/// Adds the time of a tick, and its day where that is a new one.
fn push_tick<C: TimeFormat>(
    pen: &Pen<'_, C>,
    step: u64,
    at: u64,
    is_first: bool,
    out: &mut String,
) -> Result<(), AllocError> {
    let position = pen.axis.position(at);
    out.push_str(if position > LATE {
        "<span class=\"l\" style=\"--x:"
    } else {
        "<span style=\"--x:"
    })?;
    push_number(position, out)?;
    out.push_str("\">")?;
    let mut text = String::new(pen.alloc);
    pen.push_whole_time(at, &mut text)?;
    let (date, time) = parts_of(text.as_str());
    out.push_str(without_seconds(step, time))?;
    if pen.calendar.is_dated {
        out.push_str("Z")?;
        if is_first || is_new_day(pen.calendar.behind, step, at) {
            out.push_str(" <b>")?;
            out.push_str(date)?;
            out.push_str("</b>")?;
        }
    }
    out.push_str("</span>")
}

/// Whether the tick before this one, a step earlier, is on another day.
fn is_new_day(behind: u64, step: u64, at: u64) -> bool {
    let now = behind.saturating_add(at);
    now / DAY != now.saturating_sub(step) / DAY
}

/// A time without its seconds, where no tick has any.
fn without_seconds(step: u64, time: &str) -> &str {
    if step >= 60_000 {
        return time.strip_suffix(":00").unwrap_or(time);
    }
    time
}
