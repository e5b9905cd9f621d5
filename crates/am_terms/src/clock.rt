//! `TimeFormat`: how times are shown. Every text of a timeline is generic over it.
ghost use Rattle.std.specs.Prelude.{◌≡◌, ◌++◌, ◌<◌, OnOk, decimal, replicate, string_bytes};
ghost use Rattle.am_terms.specs.TimeFormatData.{column, counted, counted_text, fraction_text, three_digits, two_digits};

use std::alloc::AllocError;

/// Shows times, which are in milliseconds from the start of a rehearsal.
pub trait TimeFormat {
    ghost use Rattle.std.specs.Prelude.{◌≡◌, ◌++◌, OnOk, string_bytes};
    ghost use Rattle.am_terms.specs.TimeFormatData.{TimeFormatData};

    ghost times: { Self → TimeFormatData };

    /// Adds the text of a time.
    fn push_time(&self, at: u64, out: &mut String) -> Result<(), AllocError>
        ensures { OnOk result (string_bytes out.new ≡ string_bytes out.old ++ (times self.now).text at) };

    /// Returns the width of the column of times, in characters.
    fn width(&self) -> usize
        ensures { result ≡ (times self.now).width };
}

/// The format of times since the start: `00:05:30` or `00:05:30.001`, with as many hours as needed.
#[derive(Clone, Copy, Drop)]
pub struct Elapsed;

impl TimeFormat for Elapsed {
    ghost times = { λ _. counted };

    fn push_time(&self, at: u64, out: &mut String) -> Result<(), AllocError> {
        push_counted(at, out)
    }

    fn width(&self) -> usize {
        12
    }
}

/// Adds a time as it is counted from the start, as `Elapsed` shows it.
#[tactic(auto, unfolding(crate::specs::TimeFormatData::counted_text))]
pub fn push_counted(at: u64, out: &mut String) -> Result<(), AllocError>
    ensures { OnOk result (string_bytes out.new ≡ string_bytes out.old ++ counted_text at) }
{
    push_two_digits(at / 3_600_000, out)?;
    out.push_str(":")?;
    push_two_digits(at / 60_000 % 60, out)?;
    out.push_str(":")?;
    push_two_digits(at / 1_000 % 60, out)?;
    push_fraction(at % 1_000, out)
}

fn push_fraction(milliseconds: u64, out: &mut String) -> Result<(), AllocError>
    ensures { OnOk result (string_bytes out.new ≡ string_bytes out.old ++ fraction_text milliseconds) }
{
    if milliseconds == 0 {
        return Ok(());
    }
    out.push_str(".")?;
    push_three_digits(milliseconds, out)
}

pub(crate) fn push_three_digits(number: u64, out: &mut String) -> Result<(), AllocError>
    ensures { OnOk result (string_bytes out.new ≡ string_bytes out.old ++ three_digits number) }
{
    if number < 100 {
        out.push_str("0")?;
    }
    push_two_digits(number, out)
}

pub(crate) fn push_two_digits(number: u64, out: &mut String) -> Result<(), AllocError>
    ensures { OnOk result (string_bytes out.new ≡ string_bytes out.old ++ two_digits number) }
{
    if number < 10 {
        out.push_str("0")?;
    }
    push_number(number, out)
}

/// Adds a number in decimal digits.
pub fn push_number(number: u64, out: &mut String) -> Result<(), AllocError>
    ensures { OnOk result (string_bytes out.new ≡ string_bytes out.old ++ decimal number) }
{
    write!(out, "{number}")
}

/// Adds a time in its column, with blanks behind it.
pub fn push_column<C: TimeFormat>(clock: &C, at: u64, out: &mut String) -> Result<(), AllocError>
    ensures { OnOk result (string_bytes out.new ≡ string_bytes out.old ++ column (C.times clock.now) at) }
{
    let start = out.len();
    clock.push_time(at, out)?;
    let shown = out.len().saturating_sub(start);
    push_blanks(clock.width().saturating_sub(shown), out)?;
    out.push_str("  ")
}

fn push_blanks(count: usize, out: &mut String) -> Result<(), AllocError>
    ensures { OnOk result (string_bytes out.new ≡ string_bytes out.old ++ replicate count 32) }
{
    for _blank in 0..count {
        out.push_str(" ")?;
    }
    Ok(())
}
