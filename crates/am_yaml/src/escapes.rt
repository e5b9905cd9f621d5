//! The text between double quotes.
ghost use Rattle.std.specs.Prelude.{◌≡◌, ◌<◌, IfOk, IfSome, OnOk, nat_lt};
ghost use Rattle.std.specs.Char.{digit_value};
ghost use Rattle.am_yaml.specs.Escapes.{IsUnescaped, at_escape, behind_after, character_of as character_at, code_after};
ghost use Rattle.am_yaml.specs.Escapes.{control_of as control_behind, digit_after, digits_behind as digits_at, outside_after};
ghost use Rattle.am_yaml.specs.Escapes.{sign_of as sign_behind, unescaped_after};
ghost use Rattle.am_yaml.specs.EscapedLines.{unescaped_in};

use crate::scalars::Folding;
use std::alloc::{AllocError, Global};

/// How far an escape was read.
#[derive(Clone, Copy, PartialEq, Eq)]
pub(crate) enum Escape {
    /// There is none.
    Outside,
    /// Behind a backslash.
    Behind,
    /// So many digits are left, and the code of those before.
    Digits(u8, u32),
    /// It is none of YAML's.
    Broken,
}

/// The text between double quotes as far as it was read.
#[derive(Drop)]
pub(crate) struct Unescaping {
    folding: Folding,
    escape: Escape,
}

fn control_of(byte: u8) -> Option<char>
    ensures { result ≡ control_behind byte }
{
    match byte {
        b'0' => Some('\0'),
        b'a' => Some('\u{7}'),
        b'b' => Some('\u{8}'),
        b't' | b'\t' => Some('\t'),
        b'n' => Some('\n'),
        b'v' => Some('\u{b}'),
        b'f' => Some('\u{c}'),
        b'r' => Some('\r'),
        b'e' => Some('\u{1b}'),
        _ => None,
    }
}

/// The character that a byte behind a backslash represents.
fn sign_of(byte: u8) -> Option<char>
    ensures { result ≡ sign_behind byte }
{
    match byte {
        b' ' => Some(' '),
        b'"' => Some('"'),
        b'\\' => Some('\\'),
        b'N' => Some('\u{85}'),
        b'_' => Some('\u{a0}'),
        b'L' => Some('\u{2028}'),
        b'P' => Some('\u{2029}'),
        _ => control_of(byte),
    }
}

fn digits_behind(byte: u8) -> u8
    ensures { result ≡ digits_at byte }
{
    match byte {
        b'x' => 2,
        b'u' => 4,
        b'U' => 8,
        _ => 0,
    }
}

/// The value of a hexadecimal digit, or 36 of another byte.
fn digit_of(byte: u8) -> u32
    ensures value { (nat_lt result 16) ≡ (nat_lt (digit_value byte) 16) }
    ensures digit { result < 16 → result ≡ digit_value byte }
{
    match byte {
        b'0'..=b'9' => u32::from(byte - b'0'),
        b'a'..=b'f' => u32::from(byte - b'a') + 10,
        b'A'..=b'F' => u32::from(byte - b'A') + 10,
        _ => 36,
    }
}

fn character_of(code: u32) -> Option<char>
    ensures { result ≡ character_at code }
{
    if code < 55296 {
        char::from_u32(code)
    } else if 57343 < code && code < 1_114_112 {
        char::from_u32(code)
    } else {
        None
    }
}

impl Unescaping {
    /// Adds a byte.
    fn add(&mut self, byte: u8) -> Result<(), AllocError>
        ensures { OnOk result (unescaped_in self.new ≡ unescaped_after (unescaped_in self.old) byte) }
    {
        let escape = self.escape;
        match escape {
            Escape::Outside => self.add_outside(byte),
            Escape::Behind => self.add_behind(byte),
            Escape::Digits(left, code) => self.add_digit(left, code, byte),
            Escape::Broken => Ok(()),
        }
    }

    fn add_outside(&mut self, byte: u8) -> Result<(), AllocError>
        requires { self.old.escape ≡ Escape.Outside }
        ensures { OnOk result (unescaped_in self.new ≡ outside_after (unescaped_in self.old).words byte) }
    {
        if byte == b'\\' {
            self.folding.settle()?;
            self.escape = Escape::Behind;
            Ok(())
        } else {
            self.folding.add(byte)
        }
    }

    /// Adds a byte behind a backslash.
    fn add_behind(&mut self, byte: u8) -> Result<(), AllocError>
        ensures { OnOk result (unescaped_in self.new ≡ behind_after (unescaped_in self.old).words byte) }
    {
        self.escape = Escape::Outside;
        if byte == b'\n' {
            self.folding.skip_end();
            return Ok(());
        }
        match sign_of(byte) {
            Some(character) => self.folding.add_character(character),
            None => {
                let left = digits_behind(byte);
                self.escape = if left > 0 {
                    Escape::Digits(left, 0)
                } else {
                    Escape::Broken
                };
                Ok(())
            }
        }
    }

    /// Adds a digit, of which so many were left.
    fn add_digit(&mut self, left: u8, code: u32, byte: u8) -> Result<(), AllocError>
        ensures { OnOk result (unescaped_in self.new ≡ digit_after (unescaped_in self.old).words left code byte) }
    {
        let digit = digit_of(byte);
        if code < 1_114_112 && digit < 16 {
            self.add_code(left, code * 16 + digit)
        } else {
            self.escape = Escape::Broken;
            Ok(())
        }
    }

    /// Adds the character of a code, if no digits are left.
    fn add_code(&mut self, left: u8, code: u32) -> Result<(), AllocError>
        ensures { OnOk result (unescaped_in self.new ≡ code_after (unescaped_in self.old).words left code) }
    {
        if left > 1 {
            self.escape = Escape::Digits(left - 1, code);
            return Ok(());
        }
        match character_of(code) {
            Some(character) => {
                self.escape = Escape::Outside;
                self.folding.add_character(character)
            }
            None => {
                self.escape = Escape::Broken;
                Ok(())
            }
        }
    }
}

/// Returns the text of bytes between double quotes, unless an escape is none of YAML's.
pub(crate) fn unescape(alloc: Global, bytes: &[u8]) -> Result<Option<Vec<u8>>, AllocError>
    ensures { IfOk result (λ found. IfSome found (λ v. IsUnescaped bytes.now v.items)) }
{
    let mut unescaping = Unescaping {
        folding: Folding::new(alloc),
        escape: Escape::Outside,
    };
    for byte in bytes {
        unescaping.add(*byte)?;
    }
    let Unescaping { folding, escape } = unescaping;
    match escape {
        Escape::Outside => Ok(Some(folding.end()?)),
        Escape::Behind | Escape::Digits(_, _) | Escape::Broken => Ok(None),
    }
}
