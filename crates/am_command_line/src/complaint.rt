//! Lines on what is wrong.
use am_yaml::location::Location;
use serde_json::{Map, Number, Value};
use std::alloc::{AllocError, AllocFailed, Global};

/// What is wrong in a file.
#[derive(Drop)]
pub struct Complaint<'a> {
    pub file: &'a str,
    /// Where, if that is known.
    pub location: Option<Location>,
    /// The JSON pointer of the value, if there is one.
    pub pointer: Option<&'a str>,
    /// The kind of error, for programs.
    pub kind: &'a str,
    /// What is wrong, for people.
    pub message: &'a str,
}

impl Complaint<'_> {
    /// Returns the complaint as a line of text, without its end: `FILE:LINE:COLUMN: MESSAGE (at POINTER)`.
    pub fn text(&self, alloc: Global, is_colored: bool) -> Result<String, AllocError> {
        let mut text = String::new(alloc);
        self.push_text(is_colored, &mut text)?;
        Ok(text)
    }

    fn push_text(&self, is_colored: bool, text: &mut String) -> Result<(), AllocError> {
        let (bold, plain) = if is_colored {
            ("\u{1b}[1m", "\u{1b}[0m")
        } else {
            ("", "")
        };
        text.push_str(bold)?;
        self.push_location(text)?;
        text.push_str(plain)?;
        text.push(' ')?;
        push_shown(text, self.message)?;
        match self.pointer {
            None => Ok(()),
            Some("") => text.push_str(" (at the top)"),
            Some(pointer) => {
                text.push_str(" (at ")?;
                push_shown(text, pointer)?;
                text.push(')')
            }
        }
    }

    fn push_location(&self, text: &mut String) -> Result<(), AllocError> {
        text.push_str(self.file)?;
        match self.location {
            None => text.push(':'),
            Some(Location { line, column }) => write!(text, ":{line}:{column}:"),
        }
    }

    /// Returns the complaint as a JSON object, without a line's end.
    pub fn json(&self, alloc: Global) -> Result<String, AllocError> {
        let mut object = Map::new(alloc);
        match self.put_fields(alloc, &mut object) {
            Ok(()) => Value::Object(object).to_string(alloc),
            Err(_) => Err(AllocError),
        }
    }

    fn put_fields(&self, alloc: Global, object: &mut Map<String, Value>) -> Result<(), Refused> {
        put_text(alloc, object, "file", self.file)?;
        if let Some(Location { line, column }) = self.location {
            put_number(alloc, object, "line", line)?;
            put_number(alloc, object, "column", column)?;
        }
        if let Some(pointer) = self.pointer {
            put_text(alloc, object, "pointer", pointer)?;
        }
        put_text(alloc, object, "kind", self.kind)?;
        put_text(alloc, object, "message", self.message)
    }
}

/// Adds a text in one line: control characters as `\u{1b}`.
fn push_shown(out: &mut String, text: &str) -> Result<(), AllocError> {
    for character in text.chars() {
        match character {
            '\0'..='\u{1f}' | '\u{7f}'..='\u{9f}' => {
                write!(out, "\\u{{{:x}}}", character as u32)?
            }
            _ => out.push(character)?,
        }
    }
    Ok(())
}

/// Out of memory.
#[derive(Clone, Copy)]
struct Refused;

impl From<AllocError> for Refused {
    fn from(_refused: AllocError) -> Refused {
        Refused
    }
}

impl<T: Drop> From<AllocFailed<T>> for Refused {
    fn from(_refused: AllocFailed<T>) -> Refused {
        Refused
    }
}

fn put_text(
    alloc: Global,
    object: &mut Map<String, Value>,
    name: &str,
    text: &str,
) -> Result<(), Refused> {
    let text = Value::String(String::from_str(alloc, text)?);
    object.insert(String::from_str(alloc, name)?, text)?;
    Ok(())
}

fn put_number(
    alloc: Global,
    object: &mut Map<String, Value>,
    name: &str,
    number: usize,
) -> Result<(), Refused> {
    let number = Value::Number(Number::from(number as u64));
    object.insert(String::from_str(alloc, name)?, number)?;
    Ok(())
}
