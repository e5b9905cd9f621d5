//! Intervals of time, as Alertmanager has them (`timeinterval.TimeInterval`).
ghost use Rattle.std.specs.Prelude.{◌≡◌, option_map};
ghost use Rattle.std.specs.List.{list_any};
ghost use Rattle.am_hours.specs.Intervals.{any_of, contains, is_between, is_during, is_on, is_on_date, items_of, index_in};

use std::marker::Model;

/// A range of minutes of the day, which leaves out its end: `08:30` to `24:00` is 510 to 1440.
#[derive(Clone, Copy)]
pub struct TimeRange {
    pub from: u64,
    pub to: u64,
}

/// A range of numbers, which counts both its ends: months, weekdays (Sunday is 0) or years.
#[derive(Clone, Copy)]
pub struct InclusiveRange {
    pub first: u64,
    pub last: u64,
}

/// A day of the month.
#[derive(Clone, Copy)]
pub enum MonthDay {
    /// This day, from 1.
    FromStart(u64),
    /// So many days before the last: `-1` is 0.
    BeforeLast(u64),
}

/// A range of days of the month, which counts both its ends.
#[derive(Clone, Copy)]
pub struct DayRange {
    pub first: MonthDay,
    pub last: MonthDay,
}

/// What a local clock shows.
#[derive(Clone, Copy)]
pub struct Shown {
    /// The minute of the day, from 0 to 1439.
    pub minute: u64,
    /// The day of the month, from 1.
    pub day: u64,
    /// The month, from 1.
    pub month: u64,
    /// The day of the week, from 0 for Sunday.
    pub weekday: u64,
    pub year: u64,
    /// The days of the month as Alertmanager counts them: the whole 24 hours from its first
    /// midnight to the next month's. One less where clocks go forward in the month.
    pub days_of_month_at: u64,
}

/// An interval: where a list is there, one of its elements has to hold. So an empty list never
/// holds, and no list always does.
#[derive(Drop)]
pub struct Interval {
    times: Option<Vec<TimeRange>>,
    days_of_month: Option<Vec<DayRange>>,
    months: Option<Vec<InclusiveRange>>,
    weekdays: Option<Vec<InclusiveRange>>,
    years: Option<Vec<InclusiveRange>>,
}

impl Model for Interval {
    ghost use Rattle.am_hours.specs.Intervals.{IntervalData, items_of};

    ghost Value = { IntervalData };

    ghost view = { λ i. record {
      times = items_of i.times;
      days_of_month = items_of i.days_of_month;
      months = items_of i.months;
      weekdays = items_of i.weekdays;
      years = items_of i.years;
    } };
}

impl Interval {
    /// Returns the interval of these lists.
    pub fn new(
        times: Option<Vec<TimeRange>>,
        days_of_month: Option<Vec<DayRange>>,
        months: Option<Vec<InclusiveRange>>,
        weekdays: Option<Vec<InclusiveRange>>,
        years: Option<Vec<InclusiveRange>>,
    ) -> Interval
        ensures times { result.times ≡ items_of times }
        ensures days_of_month { result.days_of_month ≡ items_of days_of_month }
        ensures months { result.months ≡ items_of months }
        ensures weekdays { result.weekdays ≡ items_of weekdays }
        ensures years { result.years ≡ items_of years }
    {
        Interval {
            times,
            days_of_month,
            months,
            weekdays,
            years,
        }
    }

    /// Returns whether the interval holds while a clock shows this
    /// (`timeinterval.TimeInterval.ContainsTime`).
    pub fn contains(&self, shown: &Shown) -> bool
        ensures { result ≡ contains self.now shown.now }
    {
        is_during_any(&self.times, shown.minute) && self.is_on(shown)
    }

    /// Returns whether the interval holds at some minute of the date that a clock shows.
    pub fn is_on(&self, shown: &Shown) -> bool
        ensures { result ≡ is_on_date self.now shown.now }
    {
        is_on_any(&self.days_of_month, shown.days_of_month_at, shown.day)
            && is_between_any(&self.months, shown.month)
            && is_between_any(&self.weekdays, shown.weekday)
            && is_between_any(&self.years, shown.year)
    }

    /// The ranges of minutes, if there is a list.
    pub fn times(&self) -> Option<&[TimeRange]>
        ensures { option_map (λ times. times.now) result ≡ self.now.times }
    {
        match &self.times {
            None => None,
            Some(times) => Some(times.as_slice()),
        }
    }
}

impl MonthDay {
    /// Returns the day of a month of so many days.
    fn day_in(self, days: u64) -> u64
        ensures { result ≡ index_in days self }
    {
        match self {
            MonthDay::FromStart(day) => day,
            MonthDay::BeforeLast(before) => days.saturating_sub(before),
        }
    }
}

fn is_during_any(times: &Option<Vec<TimeRange>>, minute: u64) -> bool
    ensures { result ≡ any_of (is_during minute) (items_of times.now) }
{
    match times {
        None => true,
        Some(times) => is_during_one(times, minute),
    }
}

fn is_during_one(times: &[TimeRange], minute: u64) -> bool
    ensures { result ≡ list_any (is_during minute) times.now }
{
    for time in times {
        if time.from <= minute && minute < time.to {
            return true;
        }
    }
    false
}

fn is_between_any(ranges: &Option<Vec<InclusiveRange>>, number: u64) -> bool
    ensures { result ≡ any_of (is_between number) (items_of ranges.now) }
{
    match ranges {
        None => true,
        Some(ranges) => is_between_one(ranges, number),
    }
}

fn is_between_one(ranges: &[InclusiveRange], number: u64) -> bool
    ensures { result ≡ list_any (is_between number) ranges.now }
{
    for range in ranges {
        if range.first <= number && number <= range.last {
            return true;
        }
    }
    false
}

fn is_on_any(ranges: &Option<Vec<DayRange>>, days: u64, day: u64) -> bool
    ensures { result ≡ any_of (is_on days day) (items_of ranges.now) }
{
    match ranges {
        None => true,
        Some(ranges) => is_on_one(ranges, days, day),
    }
}

fn is_on_one(ranges: &[DayRange], days: u64, day: u64) -> bool
    ensures { result ≡ list_any (is_on days day) ranges.now }
{
    for range in ranges {
        if range.has(days, day) {
            return true;
        }
    }
    false
}

impl DayRange {
    /// Returns whether a day of a month of so many days is in the range.
    fn has(&self, days: u64, day: u64) -> bool
        ensures { result ≡ is_on days day self.now }
    {
        let first = self.first.day_in(days);
        let last = self.last.day_in(days).min(days);
        first <= day && day <= last
    }
}
