//! Reads the ranges of an interval from the texts of Alertmanager's file, by the rules of the
//! `UnmarshalYAML` functions of its package `timeinterval`.
//!
//! Letters count in either case. Exception: Alertmanager also takes `İ` for `i`, and this doesn't.
ghost use Rattle.std.specs.Prelude.{◌≡◌, ◌≢◌, ◌≤◌, ◌<◌, [], ◌∷◌, map, pos, neg_ℤ, length, Ok, Err, IfOk, IfSome, MatchResult};
ghost use Rattle.jiff.specs.Words.{IsBetween};
ghost use Rattle.am_hours.specs.Intervals.{IsGoodMonthDay, IsGoodDayRange};
ghost use Rattle.am_hours.specs.Reading.{day_in, month_day, days_of, digits_in, ends_of, in_short_month, minute_in, month_in, months_of};
ghost use Rattle.am_hours.specs.Reading.{number_in};
ghost use Rattle.am_hours.specs.Reading.{numbers_from, or_zero, index_among, indexes_from, times_of, weekdays_of, years_of};

use crate::interval::{DayRange, InclusiveRange, MonthDay, TimeRange};
use thiserror::Error;

/// Why a text is no range.
#[derive(Clone, Copy, Debug, PartialEq, Eq, Error)]
pub enum RangeFault {
    #[error("a range has one colon at most")]
    BadForm = 1,
    #[error("not a day of the week, such as `monday`")]
    BadWeekday,
    #[error("not a day of the month: 1 to 31, or -31 to -1 from its end")]
    BadDay,
    #[error("not a month, by its name or as a number")]
    BadMonth,
    #[error("not a year")]
    BadYear,
    #[error("not a time of day from `00:00` to `24:00`")]
    BadTime,
    #[error("the end is before the start")]
    EndBeforeStart,
    #[error("the start is counted from the end of the month, so the end must be too")]
    EndFromStart,
}

const WEEKDAYS: [&str; 7] = [
    "sunday",
    "monday",
    "tuesday",
    "wednesday",
    "thursday",
    "friday",
    "saturday",
];

const MONTHS: [&str; 12] = [
    "january",
    "february",
    "march",
    "april",
    "may",
    "june",
    "july",
    "august",
    "september",
    "october",
    "november",
    "december",
];

/// Reads a range of weekdays, such as `monday:friday` or `sunday`. Sunday is 0.
///
/// # Errors
/// - `BadForm`: there is more than one colon.
/// - `BadWeekday`: a part isn't the English name of a day.
/// - `EndBeforeStart`: as in `saturday:sunday`.
pub fn read_weekdays(text: &str) -> Result<InclusiveRange, RangeFault>
    ensures value { result ≡ weekdays_of text.now }
    ensures ordered { IfOk result (λ range. range.first ≤ range.last) }
    ensures days { IfOk result (λ range. range.last < 7) }
{
    let (first, last) = parts_of(text)?;
    let first = index_named(&WEEKDAYS, first).ok_or(RangeFault::BadWeekday)?;
    let last = index_named(&WEEKDAYS, last).ok_or(RangeFault::BadWeekday)?;
    ordered(first, last)
}

/// Reads a range of months, such as `january:march`, `1:3` or `may`.
///
/// A number can be any: one below 1 or above 12 is no month, and nothing else is wrong with it.
///
/// # Errors
/// - `BadForm`: there is more than one colon.
/// - `BadMonth`: a part is neither the English name of a month nor a whole number.
/// - `EndBeforeStart`: as in `november:february`.
pub fn read_months(text: &str) -> Result<InclusiveRange, RangeFault>
    ensures value { result ≡ months_of text.now }
    ensures ordered { IfOk result (λ range. range.first ≤ range.last) }
{
    let (first, last) = parts_of(text)?;
    let first = month_of(first)?;
    let last = month_of(last)?;
    numbers(first, last)
}

/// Reads a range of years, such as `2026:2028` or `2026`.
///
/// # Errors
/// - `BadForm`: there is more than one colon.
/// - `BadYear`: a part isn't a whole number.
/// - `EndBeforeStart`: as in `2027:2026`.
pub fn read_years(text: &str) -> Result<InclusiveRange, RangeFault>
    ensures value { result ≡ years_of text.now }
    ensures ordered { IfOk result (λ range. range.first ≤ range.last) }
{
    let (first, last) = parts_of(text)?;
    let first = whole_number(first).ok_or(RangeFault::BadYear)?;
    let last = whole_number(last).ok_or(RangeFault::BadYear)?;
    numbers(first, last)
}

/// Reads a range of days of the month, such as `1:7`, `-3:-1` or `15`.
///
/// # Errors
/// - `BadForm`: there is more than one colon.
/// - `BadDay`: a part isn't a whole number, or is 0, below -31 or above 31.
/// - `EndFromStart`: as in `-3:5`.
/// - `EndBeforeStart`: the end is before the start in a month of 28 days, which is taken for each
///   month here, and where `-1` counts as the 27th. So `28:-1` is refused too.
pub fn read_days(text: &str) -> Result<DayRange, RangeFault>
    ensures value { result ≡ days_of text.now }
    ensures good { IfOk result IsGoodDayRange }
{
    let (first, last) = parts_of(text)?;
    let first = day_of(first)?;
    let last = day_of(last)?;
    if first < 0 && last > 0 {
        return Err(RangeFault::EndFromStart);
    }
    if in_short_month(last) < in_short_month(first) {
        return Err(RangeFault::EndBeforeStart);
    }
    Ok(DayRange {
        first: month_day_of(first),
        last: month_day_of(last),
    })
}

/// Reads a range of times of day, each as `HH:MM`, from `00:00` to `24:00`. The end is left out.
///
/// # Errors
/// - `BadTime`: a text has another form.
/// - `EndBeforeStart`: the end isn't behind the start.
pub fn read_times(from: &str, to: &str) -> Result<TimeRange, RangeFault>
    ensures value { result ≡ times_of from.now to.now }
    ensures ordered { IfOk result (λ range. range.from < range.to) }
    ensures day { IfOk result (λ range. range.to ≤ 1440) }
{
    let from = minute_of(from).ok_or(RangeFault::BadTime)?;
    let to = minute_of(to).ok_or(RangeFault::BadTime)?;
    if to <= from {
        return Err(RangeFault::EndBeforeStart);
    }
    Ok(TimeRange { from, to })
}

/// The parts before and behind a colon, or the whole text twice.
fn parts_of(text: &str) -> Result<(&str, &str), RangeFault>
    ensures { MatchResult result (λ ends. ends_of text.now ≡ Ok (ends.0.now, ends.1.now)) (λ fault. ends_of text.now ≡ Err fault) }
{
    match text.split_once(':') {
        None => Ok((text, text)),
        Some((_, last)) if last.contains(':') => Err(RangeFault::BadForm),
        Some(parts) => Ok(parts),
    }
}

fn ordered(first: u64, last: u64) -> Result<InclusiveRange, RangeFault>
    ensures value { result ≡ indexes_from first last }
    ensures ordered { IfOk result (λ range. range.first ≤ range.last) }
    ensures last { IfOk result (λ range. range.last ≡ last) }
{
    if last < first {
        return Err(RangeFault::EndBeforeStart);
    }
    Ok(InclusiveRange { first, last })
}

/// A range of numbers. One below 0 is read as 0, which no month and no year of a clock is either.
fn numbers(first: i64, last: i64) -> Result<InclusiveRange, RangeFault>
    ensures value { result ≡ numbers_from first last }
    ensures ordered { IfOk result (λ range. range.first ≤ range.last) }
{
    if last < first {
        return Err(RangeFault::EndBeforeStart);
    }
    ordered(from_zero(first), from_zero(last))
}

fn from_zero(number: i64) -> u64
    ensures { result ≡ or_zero number }
{
    u64::try_from(number).unwrap_or(0)
}

/// The index of a text in a list of names, in either case.
fn index_named(names: &[&str], text: &str) -> Option<u64>
    ensures value { result ≡ index_among (map (λ name. name.now) names.now) text.now }
    ensures index { IfSome result (λ index. index < length names.now) }
{
    let mut index = 0u64;
    for name in names {
        if text.eq_ignore_ascii_case(name) {
            return Some(index);
        }
        index += 1;
    }
    None
}

fn month_of(text: &str) -> Result<i64, RangeFault>
    ensures { result ≡ month_in text.now }
{
    match index_named(&MONTHS, text) {
        Some(index) => Ok(index as i64 + 1),
        None => whole_number(text).ok_or(RangeFault::BadMonth),
    }
}

/// Reads a whole number, as Go's `strconv.Atoi`.
fn whole_number(text: &str) -> Option<i64>
    ensures { result ≡ number_in text.now }
{
    text.parse::<i64>().ok()
}

fn day_of(text: &str) -> Result<i64, RangeFault>
    ensures value { result ≡ day_in text.now }
    ensures range { IfOk result (λ day. IsBetween (neg_ℤ (pos 31)) (pos 31) day × (day ≢ pos 0)) }
{
    match whole_number(text) {
        Some(day) if day != 0 && day >= -31 && day <= 31 => Ok(day),
        _ => Err(RangeFault::BadDay),
    }
}

/// Where a day is in a month of 28 days, as Alertmanager compares it: a day of the end is one
/// earlier than it would be.
fn in_short_month(day: i64) -> i64
    requires { IsBetween (neg_ℤ (pos 31)) (pos 31) day }
    ensures { result ≡ in_short_month day }
{
    if day < 0 { 28 + day } else { day }
}

fn month_day_of(day: i64) -> MonthDay
    requires range { IsBetween (neg_ℤ (pos 31)) (pos 31) day }
    requires some { day ≢ pos 0 }
    ensures value { result ≡ month_day day }
    ensures good { IsGoodMonthDay result }
{
    if day < 0 {
        MonthDay::BeforeLast((-(day + 1)) as u64)
    } else {
        MonthDay::FromStart(day as u64)
    }
}

/// The minutes from midnight of a text such as `08:30`.
fn minute_of(text: &str) -> Option<u64>
    ensures value { result ≡ minute_in text.now }
    ensures bound { IfSome result (λ minute. minute ≤ 1440) }
{
    if text == "24:00" {
        return Some(1_440);
    }
    let [a, b, b':', c, d] = text.as_bytes() else {
        return None;
    };
    let hours = two_digits(*a, *b)?;
    let minutes = two_digits(*c, *d)?;
    if hours > 23 || minutes > 59 {
        return None;
    }
    Some(hours * 60 + minutes)
}

fn two_digits(tens: u8, ones: u8) -> Option<u64>
    ensures value { result ≡ digits_in (tens ∷ ones ∷ []) }
    ensures bound { IfSome result (λ number. number < 100) }
{
    Some(digit(tens)? * 10 + digit(ones)?)
}

fn digit(byte: u8) -> Option<u64>
    ensures value { result ≡ digits_in (byte ∷ []) }
    ensures bound { IfSome result (λ digit. digit < 10) }
{
    match byte {
        b'0'..=b'9' => Some((byte - b'0') as u64),
        _ => None,
    }
}
