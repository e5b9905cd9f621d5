//! The intervals of a definition: the ranges of each list, and the clock of the location.
ghost use Rattle.std.specs.Prelude.{◌≡◌, [], IfOk, IsSomeAnd, OnOk, codes, unwrap_or};
ghost use Rattle.serde_json.specs.View.{members_view, view};
ghost use Rattle.am_json.specs.Decoding.{IsList, IsObject};
ghost use Rattle.am_hours.specs.Intervals.{items_of};
ghost use Rattle.am_hours.specs.Reading.{days_of};
ghost use Rattle.am_config.specs.Collects.{Collects};
ghost use Rattle.am_config.specs.Said.{IsScalar, Says, SaysIf};
ghost use Rattle.am_config.specs.Times.{HasClock, HasDayTimes, HasTimed, IsOnClock, IsRange, numbers_of, pieces_in, timed_in};

use crate::clocks::{Clocks, Placed, SharedClock};
use crate::collected::{keep, only};
use crate::hours::may_be_zone;
use crate::optional::{items_up_to, non_null};
use crate::scalar::{optional_text, required_text, text_of};
use crate::times::{LOCAL, LOCATION};
use am_alerts::text::Text;
use am_hours::interval::{DayRange, InclusiveRange, Interval, TimeRange};
use am_hours::reading::{
    RangeFault, read_days, read_months, read_times, read_weekdays, read_years,
};
use am_json::fault::{FaultKind, InputFault};
use am_json::faults::Faults;
use am_json::reader::{Object, Reader};
use serde_json::Value;

/// The members of an interval.
const INTERVAL: [&str; 6] = [
    "times",
    "weekdays",
    "days_of_month",
    "months",
    "years",
    LOCATION,
];

/// The members of a range of times of day.
const RANGE: [&str; 2] = ["start_time", "end_time"];

/// How many ranges a list of an interval may have.
const MAX_RANGES: usize = 32;

/// Which numbers a list has.
#[derive(Clone, Copy)]
enum Numbers {
    Weekdays,
    Months,
    Years,
}

/// Reads an interval and the clock of its location; without `clocks` it has none.
pub(crate) fn read_interval(
    faults: &mut Faults,
    clocks: &mut Option<Clocks<'_>>,
    reader: &Reader<'_, '_>,
) -> Result<Option<Placed>, InputFault>
    ensures hours { OnOk result (clocks.new ≡ clocks.old) }
    ensures placed { IfOk result (λ placed. Collects faults.old faults.new
        (IsSomeAnd placed (λ p. IsObject (HasTimed clocks.old) (view reader.now.value) (timed_in p)))) }
{
    let Some(interval) = keep(faults, reader.object())? else {
        return Ok(None);
    };
    only(faults, &interval, &INTERVAL)?;
    let times = read_day_times(faults, &interval)?;
    let weekdays = read_ranges(faults, &interval, "weekdays", Numbers::Weekdays)?;
    let days = read_days_of_month(faults, &interval)?;
    let months = read_ranges(faults, &interval, "months", Numbers::Months)?;
    let years = read_ranges(faults, &interval, "years", Numbers::Years)?;
    let clock = read_location(faults, clocks, reader, &interval)?;
    Ok(Some(Placed {
        interval: Interval::new(times, days, months, weekdays, years),
        clock,
    }))
}

/// Reads where an interval's clock is; without `clocks` none is, nor where it is refused.
fn read_location(
    faults: &mut Faults,
    clocks: &mut Option<Clocks<'_>>,
    reader: &Reader<'_, '_>,
    interval: &Object<'_, '_>,
) -> Result<Option<SharedClock>, InputFault>
    ensures hours { OnOk result (clocks.new ≡ clocks.old) }
    ensures clock { IfOk result (λ clock. Collects faults.old faults.new
        (HasClock clocks.old (members_view interval.now.members) (pieces_in clock))) }
{
    let location = optional_text(faults, interval, LOCATION)?;
    let clock = clock_of(clocks, reader, interval, &location);
    let Some(clock) = keep(faults, clock)? else {
        return Ok(None);
    };
    Ok(clock)
}

/// The clock of a location, which is refused there, or that of UTC where there is none.
fn clock_of(
    clocks: &mut Option<Clocks<'_>>,
    reader: &Reader<'_, '_>,
    interval: &Object<'_, '_>,
    location: &Option<Text>,
) -> Result<Option<SharedClock>, InputFault>
    ensures hours { clocks.new ≡ clocks.old }
    ensures clock { IfOk result (λ clock. IsOnClock clocks.old (unwrap_or location.now []) (pieces_in clock)) }
{
    match location {
        None => clock_at(clocks, reader, ""),
        Some(name) => clock_at(clocks, &interval.required(LOCATION)?, name.as_str()),
    }
}

/// The clock of a location, which is refused at this value; without `clocks` there is none.
fn clock_at(
    clocks: &mut Option<Clocks<'_>>,
    reader: &Reader<'_, '_>,
    location: &str,
) -> Result<Option<SharedClock>, InputFault>
    ensures hours { clocks.new ≡ clocks.old }
    ensures clock { IfOk result (λ clock. IsOnClock clocks.old location.now (pieces_in clock)) }
{
    if location == LOCAL {
        return Err(reader.refuse(FaultKind::Unsupported));
    }
    if !may_be_zone(location) {
        return Err(reader.refuse(FaultKind::BadValue));
    }
    let Some(clocks) = clocks else {
        return Ok(None);
    };
    match clocks.clock(reader.alloc(), location)? {
        None => Err(reader.refuse(FaultKind::BadValue)),
        Some(clock) => Ok(Some(clock)),
    }
}

/// Reads a list of ranges of numbers. None where it is null, absent or refused.
fn read_ranges(
    faults: &mut Faults,
    interval: &Object<'_, '_>,
    name: &str,
    numbers: Numbers,
) -> Result<Option<Vec<InclusiveRange>>, InputFault>
    ensures { IfOk result (λ ranges. Collects faults.old faults.new
        (SaysIf (IsList (IsRange (numbers_of numbers))) name.now (members_view interval.now.members) (items_of ranges))) }
{
    match non_null(interval, name) {
        None => Ok(None),
        Some(member) => ranges_in(faults, &member, numbers),
    }
}

/// Reads the ranges of numbers in an array. None where it is refused.
fn ranges_in(
    faults: &mut Faults,
    member: &Reader<'_, '_>,
    numbers: Numbers,
) -> Result<Option<Vec<InclusiveRange>>, InputFault>
    ensures { IfOk result (λ ranges. Collects faults.old faults.new
        (IsSomeAnd (items_of ranges) (IsList (IsRange (numbers_of numbers)) (view member.now.value)))) }
{
    let Some(items) = items_up_to(faults, member, MAX_RANGES)? else {
        return Ok(None);
    };
    let mut ranges = Vec::new(member.alloc());
    for (index, value) in items.iter().enumerate() {
        let item = member.item(index, value);
        let Some(range) = read_range(faults, &item, value, numbers)? else {
            continue;
        };
        ranges.push(range)?;
    }
    Ok(Some(ranges))
}

/// Reads a range of numbers.
fn read_range(
    faults: &mut Faults,
    item: &Reader<'_, '_>,
    value: &Value,
    numbers: Numbers,
) -> Result<Option<InclusiveRange>, InputFault>
    ensures { IfOk result (λ range. Collects faults.old faults.new
        (IsSomeAnd range (IsRange (numbers_of numbers) (view value.now)))) }
{
    let Some(text) = keep(faults, text_of(item, value))? else {
        return Ok(None);
    };
    match read_numbers(numbers, text.as_str()) {
        Ok(range) => Ok(Some(range)),
        Err(_) => {
            faults.push(item.refuse(FaultKind::BadValue))?;
            Ok(None)
        }
    }
}

fn read_numbers(numbers: Numbers, text: &str) -> Result<InclusiveRange, RangeFault>
    ensures { result ≡ numbers_of numbers text.now }
{
    match numbers {
        Numbers::Weekdays => read_weekdays(text),
        Numbers::Months => read_months(text),
        Numbers::Years => read_years(text),
    }
}

/// Reads the ranges of days of the month. None where they are null, absent or refused.
fn read_days_of_month(
    faults: &mut Faults,
    interval: &Object<'_, '_>,
) -> Result<Option<Vec<DayRange>>, InputFault>
    ensures { IfOk result (λ ranges. Collects faults.old faults.new
        (SaysIf (IsList (IsRange days_of)) (codes "days_of_month") (members_view interval.now.members) (items_of ranges))) }
{
    match non_null(interval, "days_of_month") {
        None => Ok(None),
        Some(member) => days_in(faults, &member),
    }
}

/// Reads the ranges of days in an array. None where it is refused.
fn days_in(
    faults: &mut Faults,
    member: &Reader<'_, '_>,
) -> Result<Option<Vec<DayRange>>, InputFault>
    ensures { IfOk result (λ ranges. Collects faults.old faults.new
        (IsSomeAnd (items_of ranges) (IsList (IsRange days_of) (view member.now.value)))) }
{
    let Some(items) = items_up_to(faults, member, MAX_RANGES)? else {
        return Ok(None);
    };
    let mut ranges = Vec::new(member.alloc());
    for (index, value) in items.iter().enumerate() {
        let item = member.item(index, value);
        let Some(range) = read_day_range(faults, &item, value)? else {
            continue;
        };
        ranges.push(range)?;
    }
    Ok(Some(ranges))
}

/// Reads a range of days of the month.
fn read_day_range(
    faults: &mut Faults,
    item: &Reader<'_, '_>,
    value: &Value,
) -> Result<Option<DayRange>, InputFault>
    ensures { IfOk result (λ range. Collects faults.old faults.new (IsSomeAnd range (IsRange days_of (view value.now)))) }
{
    let Some(text) = keep(faults, text_of(item, value))? else {
        return Ok(None);
    };
    match read_days(text.as_str()) {
        Ok(range) => Ok(Some(range)),
        Err(_) => {
            faults.push(item.refuse(FaultKind::BadValue))?;
            Ok(None)
        }
    }
}

/// Reads the ranges of times of day. None where they are null, absent or refused.
fn read_day_times(
    faults: &mut Faults,
    interval: &Object<'_, '_>,
) -> Result<Option<Vec<TimeRange>>, InputFault>
    ensures { IfOk result (λ ranges. Collects faults.old faults.new
        (SaysIf (IsList (IsObject HasDayTimes)) (codes "times") (members_view interval.now.members) (items_of ranges))) }
{
    match non_null(interval, "times") {
        None => Ok(None),
        Some(member) => day_times_in(faults, &member),
    }
}

/// Reads the ranges of times of day in an array. None where it is refused.
fn day_times_in(
    faults: &mut Faults,
    member: &Reader<'_, '_>,
) -> Result<Option<Vec<TimeRange>>, InputFault>
    ensures { IfOk result (λ ranges. Collects faults.old faults.new
        (IsSomeAnd (items_of ranges) (IsList (IsObject HasDayTimes) (view member.now.value)))) }
{
    let Some(items) = items_up_to(faults, member, MAX_RANGES)? else {
        return Ok(None);
    };
    let mut ranges = Vec::new(member.alloc());
    for (index, value) in items.iter().enumerate() {
        let item = member.item(index, value);
        let Some(range) = read_day_time(faults, &item)? else {
            continue;
        };
        ranges.push(range)?;
    }
    Ok(Some(ranges))
}

/// Reads a range of times of day.
fn read_day_time(
    faults: &mut Faults,
    reader: &Reader<'_, '_>,
) -> Result<Option<TimeRange>, InputFault>
    ensures { IfOk result (λ range. Collects faults.old faults.new
        (IsSomeAnd range (IsObject HasDayTimes (view reader.now.value)))) }
{
    let Some(range) = keep(faults, reader.object())? else {
        return Ok(None);
    };
    only(faults, &range, &RANGE)?;
    let from = read_minute(faults, &range, "start_time")?;
    let to = read_minute(faults, &range, "end_time")?;
    let Some(from) = from else {
        return Ok(None);
    };
    let Some(to) = to else {
        return Ok(None);
    };
    match read_times(from.as_str(), to.as_str()) {
        Ok(range) => Ok(Some(range)),
        Err(_) => {
            faults.push(reader.refuse(FaultKind::BadValue))?;
            Ok(None)
        }
    }
}

/// Reads a time of day.
fn read_minute(
    faults: &mut Faults,
    range: &Object<'_, '_>,
    name: &str,
) -> Result<Option<Text>, InputFault>
    ensures { IfOk result (λ minute. Collects faults.old faults.new
        (IsSomeAnd minute (Says IsScalar name.now (members_view range.now.members)))) }
{
    let Some(text) = keep(faults, required_text(range, name))? else {
        return Ok(None);
    };
    if is_minute(text.as_str()) {
        return Ok(Some(text));
    }
    faults.push(range.required(name)?.refuse(FaultKind::BadValue))?;
    Ok(None)
}

/// Whether a text is a time of day, by the range that begins at midnight and ends there.
fn is_minute(text: &str) -> bool {
    !matches!(read_times("00:00", text), Err(RangeFault::BadTime))
}
