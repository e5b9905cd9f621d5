//! `Pen`: what times look like on a page, as text and as positions.
ghost use Rattle.std.specs.Prelude.{◌≤◌};

use crate::axis::Axis;
use crate::content::push_with;
use am_terms::clock::TimeFormat;
use std::alloc::{AllocError, Global};

/// How many thousandths the whole time has.
pub(crate) const WHOLE: u64 = 1_000;

/// The milliseconds of a day.
pub(crate) const DAY: u64 = 86_400_000;

/// What times look like on a page.
#[derive(Drop)]
pub(crate) struct Pen<'c, C: TimeFormat> {
    pub(crate) alloc: Global,
    clock: &'c C,
    pub(crate) axis: Axis,
    pub(crate) calendar: Calendar,
    /// Whether positions are classes, for which `push_positions` has the rules. It pays on a page with many elements.
    pub(crate) is_dense: bool,
}

/// The times of a story as its clock shows them.
#[derive(Clone, Copy)]
pub(crate) struct Calendar {
    /// Whether they have dates.
    pub(crate) is_dated: bool,
    /// How much of the day is over at the start, in milliseconds; 0 without dates.
    pub(crate) behind: u64,
}

impl<'c, C: TimeFormat> Pen<'c, C> {
    /// Returns the pen of a clock and an axis.
    pub(crate) fn new(
        alloc: Global,
        clock: &'c C,
        axis: Axis,
        is_dense: bool,
    ) -> Result<Pen<'c, C>, AllocError> {
        let calendar = calendar_of(alloc, clock)?;
        Ok(Pen {
            alloc,
            clock,
            axis,
            calendar,
            is_dense,
        })
    }

    /// Adds a time: as it is counted, or its time of day, with the date where the story goes on for more than a day.
    pub(crate) fn push_time(&self, at: u64, out: &mut String) -> Result<(), AllocError> {
        let text = time_text(self.alloc, self.clock, at)?;
        let (date, time) = parts_of(text.as_str());
        self.push_parts(date, time, out)
    }

    /// Adds a time without its seconds, if there are none.
    pub(crate) fn push_brief(&self, at: u64, out: &mut String) -> Result<(), AllocError> {
        let text = time_text(self.alloc, self.clock, at)?;
        let (date, time) = parts_of(text.as_str());
        self.push_parts(date, time.strip_suffix(":00").unwrap_or(time), out)
    }

    fn push_parts(&self, date: &str, time: &str, out: &mut String) -> Result<(), AllocError> {
        if !self.calendar.is_dated {
            return out.push_str(time);
        }
        if !self.is_in_a_day() {
            let (_, day) = date.split_once('-').unwrap_or(("", date));
            out.push_str(day)?;
            out.push_str(" ")?;
        }
        out.push_str(time)?;
        out.push_str("Z")
    }

    /// Adds a time with all that the clock shows.
    pub(crate) fn push_whole_time(&self, at: u64, out: &mut String) -> Result<(), AllocError> {
        self.clock.push_time(at, out)
    }

    /// Adds the time at which something ends: with its date where that is after all that the page shows.
    pub(crate) fn push_until(&self, at: u64, out: &mut String) -> Result<(), AllocError> {
        if at > self.axis.end() {
            return self.push_whole_time(at, out);
        }
        self.push_time(at, out)
    }

    /// Adds two times.
    pub(crate) fn push_span(&self, from: u64, to: u64, out: &mut String) -> Result<(), AllocError> {
        self.push_time(from, out)?;
        out.push_str(" to ")?;
        self.push_time(to, out)
    }

    /// Adds the class of an element, if it has one, and its position, from one time to another, and ends its tag.
    pub(crate) fn push_from(
        &self,
        class: &str,
        from: u64,
        to: u64,
        out: &mut String,
    ) -> Result<(), AllocError> {
        let start = self.axis.position(from);
        let width = self.axis.position(to).saturating_sub(start);
        self.push_position(class, start, Some(width), out)
    }

    /// Adds the class of an element, if it has one, and its position and width, in thousandths, and ends its tag.
    pub(crate) fn push_position(
        &self,
        class: &str,
        start: u64,
        width: Option<u64>,
        out: &mut String,
    ) -> Result<(), AllocError> {
        if self.is_dense {
            return push_classes(class, start, width, out);
        }
        if !class.is_empty() {
            out.push_str(" class=\"")?;
            out.push_str(class)?;
            out.push_str("\"")?;
        }
        push_with(" style=\"--x:", start, out)?;
        if let Some(width) = width {
            push_with(";--w:", width, out)?;
        }
        out.push_str("\">")
    }

    /// Whether the story begins and ends on one day.
    fn is_in_a_day(&self) -> bool {
        self.calendar.behind.saturating_add(self.axis.end()) < DAY
    }
}

/// Adds a class, if there is one, and those of a position and a width.
fn push_classes(
    class: &str,
    start: u64,
    width: Option<u64>,
    out: &mut String,
) -> Result<(), AllocError> {
    out.push_str(" class=\"")?;
    if !class.is_empty() {
        out.push_str(class)?;
        out.push_str(" ")?;
    }
    push_with("x", start, out)?;
    if let Some(width) = width {
        push_with(" w", width, out)?;
    }
    out.push_str("\">")
}

/// Adds the rules of the classes that positions and widths have.
pub(crate) fn push_positions(out: &mut String) -> Result<(), AllocError> {
    for position in 0..WHOLE + 1 {
        push_rule("x", position, out)?;
        push_rule("w", position, out)?;
    }
    Ok(())
}

/// Adds the rule of the class of a number.
fn push_rule(name: &str, number: u64, out: &mut String) -> Result<(), AllocError> {
    out.push_str(".")?;
    push_with(name, number, out)?;
    out.push_str("{--")?;
    out.push_str(name)?;
    push_with(":", number, out)?;
    out.push_str("}\n")
}

/// The text of a time.
pub(crate) fn time_text<C: TimeFormat>(
    alloc: Global,
    clock: &C,
    at: u64,
) -> Result<String, AllocError> {
    let mut text = String::new(alloc);
    clock.push_time(at, &mut text)?;
    Ok(text)
}

/// The date and the time of day of a text as `2026-11-23T00:00:30Z`. Any other text has no date.
pub(crate) fn parts_of(text: &str) -> (&str, &str) {
    match text.split_once('T') {
        None => ("", text),
        Some((date, time)) => (date, time.strip_suffix("Z").unwrap_or(time)),
    }
}

/// How a clock shows times, by what it shows for the start.
fn calendar_of<C: TimeFormat>(alloc: Global, clock: &C) -> Result<Calendar, AllocError> {
    let text = time_text(alloc, clock, 0)?;
    let (date, time) = parts_of(text.as_str());
    let is_dated = !date.is_empty();
    let behind = if is_dated { milliseconds_of(time) } else { 0 };
    Ok(Calendar { is_dated, behind })
}

/// How much of its day is over at a time as `08:30:17.250`, in whole seconds, as milliseconds.
fn milliseconds_of(time: &str) -> u64 {
    let (whole, _) = time.split_once('.').unwrap_or((time, ""));
    let (hours, rest) = whole.split_once(':').unwrap_or((whole, ""));
    let (minutes, seconds) = rest.split_once(':').unwrap_or((rest, ""));
    number(hours) * 3_600_000 + number(minutes) * 60_000 + number(seconds) * 1_000
}

/// A number of two digits; 0 for any other text.
fn number(text: &str) -> u64
    ensures { result ≤ 99 }
{
    text.parse::<u64>().unwrap_or(0).min(99)
}
