//! Texts in JSON or YAML.
ghost use Rattle.std.specs.Prelude.{IfErr, IfOk};
ghost use Rattle.serde_json.specs.View.{view};
ghost use Rattle.am_yaml.specs.Document.{IsReadAs, Refuses};

use crate::fault::YamlFault;
use crate::location::Location;
use crate::reader::read_yaml;
use serde_json::Value;
use std::alloc::Global;
use thiserror::Error;

/// Why no value is read from bytes.
#[derive(Clone, Copy, Debug, PartialEq, Eq, Error)]
pub enum DocumentFault {
    /// They are no text in UTF-8 from this location on.
    #[error("not UTF-8")]
    NotText { line: usize, column: usize },
    /// They are no JSON, for what is at this location, though they begin as an object or an array does.
    #[error("not JSON")]
    NotJson { line: usize, column: usize },
    /// They are neither JSON nor YAML as it is read here.
    #[error("{fault}")]
    NotYaml { fault: YamlFault },
    /// Out of memory.
    #[error("no memory")]
    NoMemory,
}

/// Returns the value of a text in JSON or YAML. JSON is tried first, and of two members of one name in JSON the last
/// counts.
pub fn read_document(alloc: Global, bytes: &[u8]) -> Result<Value, DocumentFault>
    ensures value { IfOk result (λ value. IsReadAs bytes.now (view value)) }
    ensures refused { IfErr result (Refuses bytes.now) }
{
    match Value::from_slice(alloc, bytes) {
        Ok(value) => Ok(value),
        Err(refused) if refused.is_memory() => Err(DocumentFault::NoMemory),
        Err(refused) => match std::str::from_utf8(bytes) {
            Err(fault) => Err(not_text(bytes, fault.valid_up_to())),
            Ok(text) => match read_yaml(alloc, text) {
                Ok(value) => Ok(value),
                Err(fault) => Err(refuse(text, fault, refused.line(), refused.column())),
            },
        },
    }
}

/// Returns the fault of bytes of which so many are text.
fn not_text(bytes: &[u8], valid: usize) -> DocumentFault {
    let Location { line, column } = Location::behind(&bytes[..valid.min(bytes.len())]);
    DocumentFault::NotText { line, column }
}

/// Returns the fault of a text that is refused as YAML, and as JSON at this line and column.
fn refuse(text: &str, fault: YamlFault, line: usize, column: usize) -> DocumentFault {
    if fault == YamlFault::NoMemory {
        return DocumentFault::NoMemory;
    }
    if text.trim_start().starts_with(['{', '[']) {
        // (the reader of JSON gives the end of a line the column 0 of the next one)
        let column = column.max(1);
        return DocumentFault::NotJson { line, column };
    }
    DocumentFault::NotYaml { fault }
}
