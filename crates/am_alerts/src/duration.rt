//! Durations as texts.
ghost use Rattle.std.specs.Prelude.{◌≡◌, ◌≤◌, [], MatchOption, length, not};
ghost use Rattle.std.specs.Char.{is_ascii_digit};
ghost use Rattle.std.specs.List.{prefix_len};
ghost use Rattle.std.specs.Option.{option_map};
ghost use Rattle.std.specs.Str.Parse.{AllDigits, digits_value};
ghost use Rattle.am_alerts.specs.Duration.{duration_of, within_limit, value_of_counts, symbol_of, millis_of, DurationsAreSums};
ghost use Rattle.am_alerts.specs.Duration.{front_digits, behind_digits, before_digit, from_digit, capped, unit_named, IsFirstPart};

use crate::limits::MAX_DURATION;
use thiserror::Error;

/// Why a text is no duration.
#[derive(Clone, Copy, Debug, PartialEq, Eq, Error)]
pub enum DurationFault {
    /// The text is not of a duration's form.
    #[error("no duration")]
    BadDuration = 1,
    /// The text is of a duration's form, and denotes more than 10^12 milliseconds.
    #[error("a duration above 10^12 milliseconds")]
    TooLong = 2,
}

/// A unit of time, as durations name it.
#[derive(Clone, Copy)]
enum TimeUnit {
    Year,
    Week,
    Day,
    Hour,
    Minute,
    Second,
    Millisecond,
}

/// The units, in the order in which a duration names them.
const TIME_UNITS: [TimeUnit; 7] = [
    TimeUnit::Year,
    TimeUnit::Week,
    TimeUnit::Day,
    TimeUnit::Hour,
    TimeUnit::Minute,
    TimeUnit::Second,
    TimeUnit::Millisecond,
];

impl TimeUnit {
    fn symbol(self) -> &'static [u8]
        ensures { result.now ≡ symbol_of self }
    {
        match self {
            TimeUnit::Year => b"y",
            TimeUnit::Week => b"w",
            TimeUnit::Day => b"d",
            TimeUnit::Hour => b"h",
            TimeUnit::Minute => b"m",
            TimeUnit::Second => b"s",
            TimeUnit::Millisecond => b"ms",
        }
    }

    fn millis(self) -> u64
        ensures { result ≡ millis_of self }
    {
        match self {
            TimeUnit::Year => 365 * 86_400_000,
            TimeUnit::Week => 7 * 86_400_000,
            TimeUnit::Day => 86_400_000,
            TimeUnit::Hour => 3_600_000,
            TimeUnit::Minute => 60_000,
            TimeUnit::Second => 1_000,
            TimeUnit::Millisecond => 1,
        }
    }
}

/// A count with a unit's symbol at the front of a text, and what is behind them.
#[derive(Clone, Copy)]
struct Part<'a> {
    count: u64,
    symbol: &'a [u8],
    rest: &'a [u8],
}

/// Reads a duration, as Prometheus' configuration writes durations, in milliseconds.
///
/// A duration is `0`, or one or more counts with units: `y`, `w`, `d`, `h`, `m`, `s` and `ms`, in
/// this order, each at most once. A count is one or more decimal digits, and a year has 365 days.
///
/// `BadDuration` for a text of another form, and `TooLong` where the sum of the counts is above
/// 10^12 milliseconds, however many digits they have. It takes no memory.
pub fn read_duration(text: &str) -> Result<u64, DurationFault>
    ensures { result ≡ within_limit (duration_of text.now) }
{
    if text.is_empty() {
        return Err(DurationFault::BadDuration);
    }
    if text == "0" {
        return Ok(0);
    }
    match sum_of_parts(text.as_bytes()) {
        None => Err(DurationFault::BadDuration),
        Some(sum) if sum > MAX_DURATION => Err(DurationFault::TooLong),
        Some(sum) => Ok(sum),
    }
}

/// A text is a duration of a value exactly where it is `0` and the value is 0, or it is one or more
/// counts with units in their order and the value is their sum. So it has one value at most.
pub fn durations_are_sums()
    ensures { DurationsAreSums }
{}

/// The sum of a text's counts with units, or the greatest number where it is above that.
fn sum_of_parts(text: &[u8]) -> Option<u64>
    ensures { result ≡ option_map capped (value_of_counts text.now) }
{
    let mut sum: u64 = 0;
    let mut units: &[TimeUnit] = &TIME_UNITS;
    let mut rest = text;
    while !rest.is_empty() {
        let part = first_part(rest)?;
        let (unit, later) = unit_named(units, part.symbol)?;
        sum = sum.saturating_add(part.count.saturating_mul(unit.millis()));
        units = later;
        rest = part.rest;
    }
    Some(sum)
}

/// The unit of this symbol, and those behind it.
fn unit_named<'a>(units: &'a [TimeUnit], symbol: &[u8]) -> Option<(TimeUnit, &'a [TimeUnit])>
    ensures { option_map (λ found. (found.0, found.1.now)) result ≡ unit_named symbol.now units.now }
{
    let mut rest = units;
    while let [unit, later @ ..] = rest {
        if unit.symbol() == symbol {
            return Some((*unit, later));
        }
        rest = later;
    }
    None
}

/// The count at the front of a text, with the bytes behind it up to the next count.
fn first_part(text: &[u8]) -> Option<Part<'_>>
    ensures { MatchOption result (front_digits text.now ≡ [])
        (λ part. IsFirstPart text.now part.count part.symbol.now part.rest.now) }
{
    let (digits, behind) = split_digits(text);
    if digits.is_empty() {
        return None;
    }
    let (symbol, rest) = split_symbol(behind);
    let count = count_of(digits);
    Some(Part {
        count,
        symbol,
        rest,
    })
}

/// The digits at the front of a text, and the text behind them.
#[tactic(auto, using(crate::proofs::Durations::cut_digits))]
fn split_digits(text: &[u8]) -> (&[u8], &[u8])
    ensures digits { result.0.now ≡ front_digits text.now }
    ensures behind { result.1.now ≡ behind_digits text.now }
{
    text.split_at(digits_len(text))
}

fn digits_len(text: &[u8]) -> usize
    ensures count { result ≡ prefix_len is_ascii_digit text.now }
    ensures in_range { result ≤ length text.now }
{
    text.iter().take_while(|b| b.is_ascii_digit()).count()
}

/// The bytes up to the first digit of a text, and the text from there.
#[tactic(auto, using(crate::proofs::Durations::cut_symbol))]
fn split_symbol(text: &[u8]) -> (&[u8], &[u8])
    ensures symbol { result.0.now ≡ before_digit text.now }
    ensures rest { result.1.now ≡ from_digit text.now }
{
    text.split_at(symbol_len(text))
}

fn symbol_len(text: &[u8]) -> usize
    ensures count { result ≡ prefix_len (λ b. not (is_ascii_digit b)) text.now }
    ensures in_range { result ≤ length text.now }
{
    text.iter().take_while(|b| !b.is_ascii_digit()).count()
}

/// The number that the digits write, or the greatest number where it is above that.
fn count_of(digits: &[u8]) -> u64
    requires { AllDigits 10 digits.now }
    ensures { result ≡ capped (digits_value 10 digits.now) }
{
    let mut count: u64 = 0;
    for digit in digits {
        count = count
            .saturating_mul(10)
            .saturating_add(u64::from(*digit - b'0'));
    }
    count
}
