//! `JsonPointer`: where a value is in an input. Faults carry its text.
//!
//! In the name of a field `~` and `/` are written `~0` and `~1`.
ghost use Rattle.am_json.specs.Read.{IsRefusedBy};

use crate::fault::{FaultKind, InputFault};
use std::alloc::{AllocError, Global};

/// Where a value is in an input: the way down to it from the top. Its text is a JSON pointer.
#[derive(Clone, Copy)]
pub enum JsonPointer<'a> {
    Root,
    Member {
        above: &'a JsonPointer<'a>,
        name: &'a str,
    },
    Item {
        above: &'a JsonPointer<'a>,
        index: usize,
    },
}

impl<'a> JsonPointer<'a> {
    /// The pointer of a member of the object here.
    pub fn member(&'a self, name: &'a str) -> JsonPointer<'a> {
        JsonPointer::Member { above: self, name }
    }

    /// The pointer of an item of the array here.
    pub fn item(&'a self, index: usize) -> JsonPointer<'a> {
        JsonPointer::Item { above: self, index }
    }

    /// The fault that refuses what is here.
    pub fn refuse(&self, alloc: Global, fault_kind: FaultKind) -> InputFault
        ensures { IsRefusedBy fault_kind result }
    {
        match self.text(alloc) {
            Ok(pointer) => InputFault::Refused {
                pointer,
                fault_kind,
            },
            Err(_) => InputFault::NoMemory,
        }
    }

    /// The pointer as a JSON pointer.
    pub fn text(&self, alloc: Global) -> Result<String, AllocError> {
        let mut pointer = String::new(alloc);
        self.push_text(&mut pointer)?;
        Ok(pointer)
    }

    fn push_text(&self, out: &mut String) -> Result<(), AllocError> {
        match self {
            JsonPointer::Root => Ok(()),
            JsonPointer::Member { above, name } => {
                above.push_text(out)?;
                out.push_str("/")?;
                push_name(name, out)
            }
            JsonPointer::Item { above, index } => {
                above.push_text(out)?;
                write!(out, "/{index}")
            }
        }
    }
}

/// Adds a member's name, as a JSON pointer writes it: `~` as `~0`, and `/` as `~1`.
fn push_name(name: &str, out: &mut String) -> Result<(), AllocError> {
    for character in name.chars() {
        match character {
            '~' => out.push_str("~0")?,
            '/' => out.push_str("~1")?,
            _ => out.push(character)?,
        }
    }
    Ok(())
}
