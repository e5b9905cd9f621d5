//! Lists of numbers, as `1-3,5`.
use crate::content::push_number;
use std::alloc::AllocError;

/// How many numbers and ranges are listed.
const MOST: usize = 40;

/// Numbers from one to another.
#[derive(Clone, Copy)]
struct Range {
    first: usize,
    last: usize,
}

/// Adds numbers in their order, those in a row as a range. A list that is too long ends with `…`.
pub(crate) fn push_numbers(numbers: &[usize], out: &mut String) -> Result<(), AllocError> {
    let mut listed: usize = 0;
    let mut range: Option<Range> = None;
    for number in numbers {
        match range {
            Some(last) if *number <= last.last.saturating_add(1) => {
                range = Some(Range {
                    first: last.first,
                    last: *number,
                });
            }
            _ => {
                push_range(range, listed, out)?;
                listed = listed.saturating_add(1);
                range = Some(Range {
                    first: *number,
                    last: *number,
                });
            }
        }
        if listed > MOST {
            return out.push_str(",…");
        }
    }
    push_range(range, listed, out)
}

/// Adds a range, behind a comma unless it is the first.
fn push_range(range: Option<Range>, listed: usize, out: &mut String) -> Result<(), AllocError> {
    let Some(range) = range else {
        return Ok(());
    };
    out.push_str(if listed > 1 { "," } else { "#" })?;
    push_number(range.first as u64, out)?;
    if range.last > range.first {
        out.push_str("-")?;
        push_number(range.last as u64, out)?;
    }
    Ok(())
}
