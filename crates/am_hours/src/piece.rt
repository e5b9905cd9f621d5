//! Pieces of a local clock: stretches of time at one offset from UTC and in one month.
ghost use Rattle.std.specs.Prelude.{◌≡◌, ◌+◌, ◌*◌, ◌≤◌, ◌<◌, ◌&&◌, ◌==◌, ℕ, IsTrue, min};
ghost use Rattle.am_hours.specs.Pieces.{day_at, days_in, is_in, is_sound, minute_at, shown_on};
ghost use Rattle.am_alerts.specs.Spans.{holds};

use crate::interval::Shown;
use am_alerts::spans::Span;

/// The milliseconds of a day.
pub(crate) const DAY: u64 = 86_400_000;

/// The milliseconds of a minute.
const MINUTE: u64 = 60_000;

/// A stretch of time, in milliseconds from a start, in which a local clock runs at one offset from
/// UTC and shows one month. It counts `from` and leaves out `to`.
#[derive(Clone, Copy)]
pub struct Piece {
    pub from: u64,
    pub to: u64,
    /// The milliseconds from midnight at `from`, on the clock.
    pub time: u64,
    /// The day of the month at `from`.
    pub day: u64,
    /// The month, from 1.
    pub month: u64,
    /// The day of the week at `from`, from 0 for Sunday.
    pub weekday: u64,
    pub year: u64,
    /// The days of the month as Alertmanager counts them: see `Shown`.
    pub days_of_month_at: u64,
}

impl Piece {
    /// Returns what the clock shows at midnight, so many days after the first.
    pub(crate) fn shown_on(&self, day: u64) -> Shown
        requires sound { IsTrue (is_sound self.now) }
        requires day { day ≤ 20000000 }
        ensures { result ≡ shown_on self.now day 0 }
    {
        Shown {
            minute: 0,
            day: self.day + day,
            month: self.month,
            weekday: (self.weekday + day) % 7,
            year: self.year,
            days_of_month_at: self.days_of_month_at,
        }
    }

    /// Returns on how many days the clock is in this piece.
    pub(crate) fn days(&self) -> u64
        requires { IsTrue (is_sound self.now) }
        ensures value { result ≡ days_in self.now }
        ensures bound { result ≤ 20000000 }
        ensures all { (t : ℕ) → IsTrue (is_in self.now t) → day_at self.now t < result }
    {
        (self.time + (self.to - self.from)) / DAY + 1
    }

    /// Returns the span of the minutes of a span on one day, as far as it lies in this piece.
    pub(crate) fn span_on(&self, day: u64, minutes: Span) -> Span
        requires sound { IsTrue (is_sound self.now) }
        requires day { day ≤ 20000000 }
        ensures { (t : ℕ) → holds result t
            ≡ (is_in self.now t && ((day_at self.now t == day) && holds minutes (minute_at self.now t))) }
    {
        let midnight = day * DAY;
        let from = self.from + (midnight + minute_time(minutes.from)).saturating_sub(self.time);
        let to = self.from + (midnight + minute_time(minutes.to)).saturating_sub(self.time);
        Span {
            from,
            to: to.min(self.to),
        }
    }
}

/// The milliseconds from midnight to a minute, or to the end of the day at the latest.
fn minute_time(minute: u64) -> u64
    ensures value { result ≡ min minute 1440 * 60000 }
    ensures bound { result ≤ 86400000 }
{
    minute.min(1_440) * MINUTE
}
