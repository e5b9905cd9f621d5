//! Reading a text.
ghost use Rattle.std.specs.Prelude.{◌≡◌, ◌≢◌, ◌<◌, ◌≤◌, ◌↔◌, drop, length, string_bytes, IfErr, IfOk, IfSome};
ghost use Rattle.serde_json.specs.Data.{depth};
ghost use Rattle.serde_json.specs.View.{view};
ghost use Rattle.am_yaml.specs.Fault.{AtLocation};
ghost use Rattle.am_yaml.specs.Location.{IsLocationIn, IsLocationOf};
ghost use Rattle.am_yaml.specs.Spelling.{IsSpelledIn, IsYamlOf, mark_of, without_returns as without_carriage_returns};

use crate::block::Lead;
use crate::cursor::END;
use crate::fault::{Reason, Stop, YamlFault};
use crate::location::Location;
use crate::measure::is_within;
use crate::parser::{MAX_DEPTH, Parser};
use crate::rows::Kind;
use crate::scalars::byte_at;
use crate::spelling::{spelled, string_of};
use crate::unclosed::named;
use serde_json::Value;
use std::alloc::Global;

/// How many bytes a text may have: 64 MiB.
pub const MAX_INPUT: usize = 67_108_864;

/// The value that a YAML document says, as JSON, or the first fault.
pub fn read_yaml(alloc: Global, text: &str) -> Result<Value, YamlFault>
    ensures too_long { (result ≡ Err YamlFault.TooLong) ↔ (MAX_INPUT < length text.now) }
    ensures nests { IfOk result (λ value. depth (view value) ≤ MAX_DEPTH) }
    ensures spelled { IfOk result (λ value. IsYamlOf text.now (view value)) }
    ensures placed { IfErr result (AtLocation (IsLocationIn text.now)) }
{
    if text.len() > MAX_INPUT {
        return Err(YamlFault::TooLong);
    }
    let Some(text) = without_mark(text) else {
        return Err(YamlFault::Refused {
            line: 1,
            column: 1,
            reason: Reason::Character,
        });
    };
    match read_lines(alloc, text) {
        Ok(value) => Ok(value),
        Err(stop) => Err(fault_in(text, stop)),
    }
}

/// Returns the text behind a byte order mark, if it begins with one.
pub(crate) fn without_mark(text: &str) -> Option<&str>
    ensures { IfSome result (λ rest. (mark_of text.now ≤ 3) × (mark_of text.now ≤ length text.now)
        × (rest.now ≡ drop (mark_of text.now) text.now)) }
{
    let mark = mark_in(text.as_bytes());
    text.get(mark..)
}

/// How many bytes the byte order mark takes.
fn mark_in(bytes: &[u8]) -> usize
    ensures is { result ≡ mark_of bytes.now }
    ensures few { result ≤ 3 }
{
    if byte_at(bytes, 0) == 239 && byte_at(bytes, 1) == 187 && byte_at(bytes, 2) == 191 {
        3
    } else {
        0
    }
}

/// Reads a text whose lines end as they do on Unix or on Windows.
fn read_lines(alloc: Global, text: &str) -> Result<Value, Stop>
    ensures nests { IfOk result (λ value. depth (view value) ≤ MAX_DEPTH) }
    ensures spelled { IfOk result (λ value. IsSpelledIn (without_carriage_returns text.now) (view value)) }
{
    check_characters(text)?;
    if text.as_bytes().contains(&b'\r') {
        let unix = without_returns(alloc, text)?;
        return match read_document(alloc, unix.as_str()) {
            Ok(value) => Ok(value),
            Err(stop) => Err(with_returns(text, stop)),
        };
    }
    read_document(alloc, text)
}

/// Refuses characters that YAML doesn't allow, and those on which its readers differ.
fn check_characters(text: &str) -> Result<(), Stop> {
    for (at, character) in text.char_indices() {
        let is_allowed = match character {
            '\t' | '\n' | ' '..='~' => true,
            '\r' => text.as_bytes().get(at.saturating_add(1)) == Some(&b'\n'),
            '\u{2028}' | '\u{2029}' | '\u{feff}' | '\u{fffe}' | '\u{ffff}' => false,
            _ => character >= '\u{a0}',
        };
        if !is_allowed {
            return Err(Stop::At {
                at,
                reason: Reason::Character,
            });
        }
    }
    Ok(())
}

/// The text without its carriage returns.
pub(crate) fn without_returns(alloc: Global, text: &str) -> Result<String, Stop>
    ensures { IfOk result (λ unix. string_bytes unix ≡ without_carriage_returns text.now) }
{
    let bytes = text.as_bytes();
    let mut unix = Vec::new(alloc);
    for byte in bytes {
        if *byte != b'\r' {
            unix.push(*byte)?;
        }
    }
    string_of(unix, 0)
}

/// The fault, at its offset in the text that still has its carriage returns.
fn with_returns(text: &str, stop: Stop) -> Stop {
    match stop {
        Stop::At { at, reason } => Stop::At {
            at: offset_with_returns(text, at),
            reason,
        },
        Stop::NoMemory => Stop::NoMemory,
    }
}

/// The offset in a text that still has its carriage returns, of the byte at this offset in the text without them.
pub(crate) fn offset_with_returns(text: &str, unix: usize) -> usize {
    let mut seen = 0usize;
    for (at, byte) in text.as_bytes().iter().enumerate() {
        if *byte != b'\r' {
            if seen == unix {
                return at;
            }
            seen = seen.saturating_add(1);
        }
    }
    text.len()
}

/// Reads a text with one document.
fn read_document(alloc: Global, text: &str) -> Result<Value, Stop>
    ensures nests { IfOk result (λ value. depth (view value) ≤ MAX_DEPTH) }
    ensures spelled { IfOk result (λ value. IsSpelledIn text.now (view value)) }
{
    let mut parser = Parser::new(alloc, text, &[]);
    match parser.whole_document() {
        Ok(value) => drop(value),
        Err(stop) => return Err(named(stop, parser.open)),
    }
    let value = spelled(alloc, text.as_bytes(), parser.rows.as_slice())?;
    if !is_within(&value, MAX_DEPTH) {
        return Err(Stop::At {
            at: 0,
            reason: Reason::Depth,
        });
    }
    Ok(value)
}

impl Parser<'_> {
    /// Reads the document, behind which nothing can be.
    pub(crate) fn whole_document(&mut self) -> Result<Value, Stop> {
        self.cursor.to_content()?;
        let value = self.document()?;
        self.end_document()?;
        Ok(value)
    }

    /// Reads the document, and what is before it.
    fn document(&mut self) -> Result<Value, Stop> {
        if self.cursor.column() == 0 && self.cursor.byte() == b'%' {
            return Err(self.cursor.stop(Reason::Directive));
        }
        if self.cursor.is_marker() {
            if self.cursor.byte() != b'-' {
                return Err(self.cursor.stop(Reason::Document));
            }
            self.skip_marker()?;
            return self.node(Lead::Start, 0, MAX_DEPTH);
        }
        if self.cursor.byte() == END {
            return self.no_value();
        }
        self.block(0, MAX_DEPTH)
    }

    fn skip_marker(&mut self) -> Result<(), Stop> {
        let at = self.cursor.at();
        for _ in 0..3 {
            self.cursor.step();
        }
        self.rows.add(Kind::Marker, at, self.cursor.at())
    }

    /// Refuses what is behind the document.
    fn end_document(&mut self) -> Result<(), Stop> {
        if self.cursor.is_marker() && self.cursor.byte() == b'.' {
            self.skip_marker()?;
            self.cursor.end_line()?;
        } else if self.cursor.is_marker() {
            return Err(self.cursor.stop(Reason::Document));
        } else if self.cursor.byte() != END {
            return Err(self.cursor.stop(Reason::Unexpected));
        }
        if self.cursor.byte() != END {
            return Err(self.cursor.stop(Reason::Document));
        }
        Ok(())
    }
}

/// The fault at its line and column.
fn fault_in(text: &str, stop: Stop) -> YamlFault
    ensures placed { AtLocation (IsLocationOf text.now) result }
    ensures other { result ≢ YamlFault.TooLong }
{
    let Stop::At { at, reason } = stop else {
        return YamlFault::NoMemory;
    };
    let end = at.min(text.len());
    let Location { line, column } = Location::behind(&text.as_bytes()[..end]);
    YamlFault::Refused {
        line,
        column,
        reason,
    }
}
