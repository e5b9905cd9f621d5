//! What a JSON pointer points to.
use crate::fields::{FieldKind, kind_in};
use serde_json::Value;
use std::alloc::{AllocError, Global};

/// A location in a value: the nearest member's name on the way to it, and what is there.
#[derive(Drop)]
pub(crate) struct Spot<'v> {
    /// The name of the member, or of the one that has the list.
    pub(crate) name: String,
    /// The number of the item in the member's list, if it is one.
    pub(crate) item: Option<usize>,
    /// The value, if there is one.
    pub(crate) value: Option<&'v Value>,
    /// What is wanted there, if that is known.
    pub(crate) kind: Option<FieldKind>,
    /// Whether it is a label of a label set.
    pub(crate) is_label: bool,
}

impl<'v> Spot<'v> {
    /// Returns the location that a JSON pointer has in a value. `whole` is wanted at the top of it.
    pub(crate) fn of(
        alloc: Global,
        top: &'v Value,
        pointer: &str,
        whole: FieldKind,
    ) -> Result<Spot<'v>, AllocError> {
        let value = top.pointer(pointer);
        let (above, last) = parted(pointer);
        if is_list(top.pointer(above)) {
            let (_, name) = parted(above);
            return Ok(Spot {
                name: unescaped(alloc, name)?,
                item: last.parse::<usize>().ok(),
                value,
                kind: kind_in_list(above, name, whole),
                is_label: false,
            });
        }
        let (_, parent) = parted(above);
        let is_label = kind_in(parent) == Some(FieldKind::Labels);
        let kind = match parent {
            "limits" => Some(FieldKind::Number),
            _ if is_label => Some(FieldKind::Text),
            _ if pointer.is_empty() => Some(whole),
            _ => kind_in(last),
        };
        Ok(Spot {
            name: unescaped(alloc, last)?,
            item: None,
            value,
            kind,
            is_label,
        })
    }

    /// Returns the text that is there, if it is one.
    pub(crate) fn text(&self) -> Option<&'v str> {
        self.value?.as_str()
    }
}

/// Returns what the list of this name takes. A list at the top takes what is wanted there.
fn kind_in_list(above: &str, name: &str, whole: FieldKind) -> Option<FieldKind> {
    if above.is_empty() {
        return Some(whole);
    }
    kind_in(name)
}

fn is_list(value: Option<&Value>) -> bool {
    match value {
        None => false,
        Some(value) => value.is_array(),
    }
}

/// Returns the pointer above the last step, and that step as it is written.
pub(crate) fn parted(pointer: &str) -> (&str, &str) {
    match pointer.rsplit_once('/') {
        None => ("", pointer),
        Some(parts) => parts,
    }
}

fn unescaped(alloc: Global, step: &str) -> Result<String, AllocError> {
    let slashes = step.replace(alloc, "~1", "/")?;
    slashes.as_str().replace(alloc, "~0", "~")
}
