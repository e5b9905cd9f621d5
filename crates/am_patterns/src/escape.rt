//! Escapes of one character.
use crate::fault::{FaultKind, Wrong};
use crate::text::{after, char_at, is_at};

/// The greatest code of a character.
const MAX_CODE: u32 = 0x10FFFF;

/// A character's code, and how many characters of the pattern write it.
#[derive(Clone, Copy)]
pub(crate) struct Code {
    pub(crate) code: u32,
    pub(crate) length: usize,
}

fn invalid(length: usize) -> Wrong {
    Wrong::of_first(FaultKind::InvalidEscape, length)
}

/// Reads from a backslash on.
pub(crate) fn read_escape(text: &[char]) -> Result<Code, Wrong> {
    let Some(c) = char_at(text, 1) else {
        return Err(Wrong {
            kind: FaultKind::TrailingBackslash,
            start: 1,
            end: 1,
        });
    };
    match c {
        '0' => Ok(read_octal(text)),
        '1'..='7' if octal_at(text, 2).is_some() => Ok(read_octal(text)),
        'x' if is_at(text, 2, '{') => read_braces(text),
        'x' => read_hex(text),
        _ => match code_of(c) {
            Some(code) => Ok(Code { code, length: 2 }),
            None => Err(invalid(2)),
        },
    }
}

/// The code that a character represents behind a backslash.
fn code_of(c: char) -> Option<u32> {
    match c {
        'a' => Some(7),
        't' => Some(9),
        'n' => Some(10),
        'v' => Some(11),
        'f' => Some(12),
        'r' => Some(13),
        _ if c.is_ascii() && !c.is_ascii_alphanumeric() => Some(c as u32),
        _ => None,
    }
}

/// The value of an octal digit.
fn octal_at(text: &[char], index: usize) -> Option<u32> {
    char_at(text, index)?.to_digit(8)
}

/// The value of a hexadecimal digit.
fn hex_at(text: &[char], index: usize) -> Option<u32> {
    char_at(text, index)?.to_digit(16)
}

/// Reads one, two or three octal digits behind a backslash.
fn read_octal(text: &[char]) -> Code {
    let first = octal_at(text, 1).unwrap_or(0);
    let Some(second) = octal_at(text, 2) else {
        return Code {
            code: first,
            length: 2,
        };
    };
    let two = first.saturating_mul(8).saturating_add(second);
    let Some(third) = octal_at(text, 3) else {
        return Code {
            code: two,
            length: 3,
        };
    };
    Code {
        code: two.saturating_mul(8).saturating_add(third),
        length: 4,
    }
}

/// Reads two hexadecimal digits behind `\x`.
fn read_hex(text: &[char]) -> Result<Code, Wrong> {
    match (hex_at(text, 2), hex_at(text, 3)) {
        (Some(high), Some(low)) => Ok(Code {
            code: high.saturating_mul(16).saturating_add(low),
            length: 4,
        }),
        _ => Err(invalid(text.len().min(4))),
    }
}

/// Reads hexadecimal digits in the braces behind `\x`.
fn read_braces(text: &[char]) -> Result<Code, Wrong> {
    let mut code = 0u32;
    for (index, c) in after(text, 3).iter().enumerate() {
        let length = index.saturating_add(4);
        if *c == '}' && index > 0 {
            return Ok(Code { code, length });
        }
        let Some(digit) = c.to_digit(16) else {
            return Err(invalid(length));
        };
        code = code.saturating_mul(16).saturating_add(digit);
        if code > MAX_CODE {
            return Err(invalid(length));
        }
    }
    Err(invalid(text.len()))
}
