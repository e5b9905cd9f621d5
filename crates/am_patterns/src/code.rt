//! Characters in a translation.
ghost use Rattle.std.specs.Prelude.{◌+◌, ◌*◌, ◌<◌, ◌≤◌, length, string_len, OnOk};

use std::alloc::AllocError;

/// A class that no character is in. A code that is no character is written as this.
fn nothing() -> &'static str
    ensures { length result.now ≤ 18 }
{
    "[^\\x00-\\x{10FFFF}]"
}

/// Whether a character has a meaning of its own outside brackets.
fn is_special(c: char) -> bool {
    matches!(
        c,
        '\\' | '.' | '+' | '*' | '?' | '(' | ')' | '|' | '[' | '{' | '^' | '$'
    )
}

/// Whether a character has a meaning of its own in brackets.
fn is_special_in_class(c: char) -> bool {
    matches!(c, '\\' | '[' | ']' | '^' | '-' | '&' | '~')
}

/// Writes an ASCII character if it is wanted.
pub(crate) fn push_if(out: &mut String, is_wanted: bool, c: char) -> Result<(), AllocError>
    requires { c < 128 }
    ensures { OnOk result (string_len out.new ≤ string_len out.old + 1) }
{
    if is_wanted {
        return out.push(c);
    }
    Ok(())
}

/// Writes the character of a code, outside brackets.
pub(crate) fn push_code(out: &mut String, code: u32) -> Result<(), AllocError>
    ensures { OnOk result (string_len out.new ≤ string_len out.old + 18) }
{
    let Some(c) = char::from_u32(code) else {
        return out.push_str(nothing());
    };
    push_if(out, is_special(c), '\\')?;
    out.push(c)
}

/// Writes the characters between two codes, in brackets. Codes that are no characters are left out.
pub(crate) fn push_range(out: &mut String, low: u32, high: u32) -> Result<(), AllocError>
    ensures { OnOk result (string_len out.new ≤ string_len out.old + 21) }
{
    let from = char::from_u32(low).unwrap_or('\u{E000}');
    let to = char::from_u32(high).unwrap_or('\u{D7FF}');
    if to < from {
        return out.push_str(nothing());
    }
    push_in_class(out, from)?;
    if from == to {
        return Ok(());
    }
    push_if(out, true, '-')?;
    push_in_class(out, to)
}

fn push_in_class(out: &mut String, c: char) -> Result<(), AllocError>
    ensures { OnOk result (string_len out.new ≤ string_len out.old + 5) }
{
    push_if(out, is_special_in_class(c), '\\')?;
    out.push(c)
}

/// Writes characters as they are.
pub(crate) fn push_all(out: &mut String, text: &[char]) -> Result<(), AllocError>
    ensures { OnOk result (string_len out.new ≤ string_len out.old + 4 * length text.now) }
{
    for c in text {
        out.push(*c)?;
    }
    Ok(())
}
