//! Times as dates with times of day, in UTC.
ghost use Rattle.std.specs.Prelude.{◌≡◌, ◌+◌, ◌*◌, ◌^◌, ◌<◌, ◌≤◌, ◌++◌, ◌/◌, ◌<ℤ◌, pos, None, IfSome, IsSomeAnd, OnOk, string_bytes};
ghost use Rattle.am_terms.specs.UtcDates.{day_after, day_at, day_text, days_in_month, four_digits, is_leap_year, next_day};
ghost use Rattle.am_terms.specs.UtcDates.{IsReadFrom, IsStartAt, StartData, behind_midnight, dated, instant_text, time_at};

use crate::clock::{TimeFormat, push_counted, push_three_digits, push_two_digits};
use jiff::Timestamp;
use jiff::civil::DateTime;
use jiff::tz::Offset;
use std::alloc::AllocError;
use std::marker::Model;

/// The milliseconds of a day.
const DAY: u64 = 86_400_000;

/// The last year in which a rehearsal can start.
const LAST_YEAR: u64 = 9_999;

/// The format of dates in UTC: `2026-11-23T00:00:30Z` or `2026-11-23T00:00:30.345Z` (RFC 3339).
#[derive(Drop)]
pub struct UtcDates {
    day: Day,
    /// The milliseconds of that day before the start.
    milliseconds: u64,
}

impl Model for UtcDates {
    ghost use Rattle.std.specs.Prelude.{◌<◌, ◌≤◌};
    ghost use Rattle.am_terms.specs.UtcDates.{StartData};

    ghost Value = { StartData };

    ghost view = { λ d. record { day = d.day; milliseconds = d.milliseconds } };

    ghost invariant = { λ d. (d.day.year ≤ 9999) × (d.milliseconds < 86400000) };
}

/// A day of the Gregorian calendar.
#[derive(Drop)]
struct Day {
    year: u64,
    month: u64,
    day: u64,
}

impl Model for Day {
    ghost use Rattle.am_terms.specs.UtcDates.{DayData};

    ghost Value = { DayData };

    ghost view = { λ d. record { year = d.year; month = d.month; day = d.day } };
}

impl UtcDates {
    /// Returns the format of a rehearsal that starts at this time, if the text is one.
    ///
    /// That is a time as `2026-11-23T00:00:00Z` or `2026-11-23T01:00:00+01:00` (RFC 3339), in the
    /// years 0 to 9999 of UTC. Parts of a millisecond are dropped.
    pub fn read(text: &str) -> Option<UtcDates>
        ensures decoded { IfSome result (IsReadFrom text.now) }
        ensures refused { result ≡ None → (start : StartData) → IsReadFrom text.now start → ⊥ }
    {
        let start = text.parse::<Timestamp>().ok()?;
        UtcDates::from_utc(Offset::UTC.to_datetime(start))
    }

    fn from_utc(start: DateTime) -> Option<UtcDates>
        ensures decoded { IfSome result (IsStartAt start) }
        ensures refused { result ≡ None → start.date.year <ℤ pos 0 }
    {
        let year = u64::try_from(start.year()).ok()?;
        let month = u64::try_from(start.month()).ok()?;
        let day = u64::try_from(start.day()).ok()?;
        let milliseconds = milliseconds_of(start)?;
        if year > LAST_YEAR || milliseconds >= DAY {
            return None;
        }
        let day = Day { year, month, day };
        Some(UtcDates { day, milliseconds })
    }

    /// The day of a time.
    fn day_at(&self, at: u64) -> Day
        ensures { result ≡ day_at self.now at }
    {
        let behind = self.behind_midnight(at);
        self.day.after(at / DAY + behind / DAY)
    }

    /// How many milliseconds of its day are over at a time.
    fn time_at(&self, at: u64) -> u64
        ensures { result ≡ time_at self.now at }
    {
        self.behind_midnight(at) % DAY
    }

    fn behind_midnight(&self, at: u64) -> u64
        ensures value { result ≡ behind_midnight self.now at }
        ensures bound { result < 2 * 86400000 }
    {
        self.milliseconds + at % DAY
    }
}

/// How many milliseconds of its day are over.
fn milliseconds_of(start: DateTime) -> Option<u64>
    ensures { IsSomeAnd result (λ milliseconds. milliseconds ≡ start.time.hour * 3600000 + start.time.minute * 60000
        + start.time.second * 1000 + start.time.subsec_nanosecond / 1000000) }
{
    let hours = u64::try_from(start.hour()).ok()?;
    let minutes = u64::try_from(start.minute()).ok()?;
    let seconds = u64::try_from(start.second()).ok()?;
    let nanoseconds = u64::try_from(start.subsec_nanosecond()).ok()?;
    Some(hours * 3_600_000 + minutes * 60_000 + seconds * 1_000 + nanoseconds / 1_000_000)
}

impl Day {
    /// The day so many days later.
    fn after(&self, days: u64) -> Day
        requires year { self.now.year ≤ 9999 }
        requires few { days < 2 ^ 63 }
        ensures { result ≡ day_after days self.now }
    {
        let mut day = Day {
            year: self.year,
            month: self.month,
            day: self.day,
        };
        for _later in 0..days {
            day = day.next();
        }
        day
    }

    /// The next day.
    fn next(&self) -> Day
        requires { self.now.year < 2 ^ 63 + 9999 }
        ensures { result ≡ next_day self.now }
    {
        if self.day < days_in_month(self.year, self.month) {
            return Day {
                year: self.year,
                month: self.month,
                day: self.day + 1,
            };
        }
        if self.month < 12 {
            return Day {
                year: self.year,
                month: self.month + 1,
                day: 1,
            };
        }
        Day {
            year: self.year + 1,
            month: 1,
            day: 1,
        }
    }
}

fn days_in_month(year: u64, month: u64) -> u64
    ensures value { result ≡ days_in_month year month }
    ensures bound { result < 32 }
{
    match month {
        2 => { if is_leap_year(year) { 29 } else { 28 } }
        4 | 6 | 9 | 11 => 30,
        _ => 31,
    }
}

fn is_leap_year(year: u64) -> bool
    ensures { result ≡ is_leap_year year }
{
    year % 4 == 0 && (year % 100 != 0 || year % 400 == 0)
}

impl TimeFormat for UtcDates {
    ghost times = { dated };

    fn push_time(&self, at: u64, out: &mut String) -> Result<(), AllocError> {
        let day = self.day_at(at);
        push_instant(&day, self.time_at(at), out)
    }

    fn width(&self) -> usize {
        24
    }
}

#[tactic(auto, unfolding(crate::specs::UtcDates::instant_text))]
fn push_instant(day: &Day, time: u64, out: &mut String) -> Result<(), AllocError>
    ensures { OnOk result (string_bytes out.new ≡ string_bytes out.old ++ instant_text day.now time) }
{
    push_day(day, out)?;
    out.push_str("T")?;
    push_counted(time, out)?;
    out.push_str("Z")
}

#[tactic(auto, unfolding(crate::specs::UtcDates::day_text))]
fn push_day(day: &Day, out: &mut String) -> Result<(), AllocError>
    ensures { OnOk result (string_bytes out.new ≡ string_bytes out.old ++ day_text day.now) }
{
    push_four_digits(day.year, out)?;
    out.push_str("-")?;
    push_two_digits(day.month, out)?;
    out.push_str("-")?;
    push_two_digits(day.day, out)
}

fn push_four_digits(number: u64, out: &mut String) -> Result<(), AllocError>
    ensures { OnOk result (string_bytes out.new ≡ string_bytes out.old ++ four_digits number) }
{
    if number < 1_000 {
        out.push_str("0")?;
    }
    push_three_digits(number, out)
}
