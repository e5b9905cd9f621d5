//! A text that is read whole from a source, with its value.
ghost use Rattle.std.specs.Prelude.{◌≡◌, ◌≤◌, ◌<◌, ◌+◌, ◌⊎◌, ◌↔◌, IfErr, IfOk, OnOk, length};
ghost use Rattle.serde_json.specs.View.{view};
ghost use Rattle.am_json.specs.declared.transfer.TheConstants.{MAX_INPUT};
ghost use Rattle.am_console.specs.Source.{IsReadFrom, RefusesSource};

use am_json::device::Source;
use am_json::transfer::{MAX_INPUT, ReadFault, read_all};
use am_yaml::document::{DocumentFault, read_document};
use serde_json::Value;
use std::alloc::Global;

/// A text in JSON or YAML, and its value.
#[derive(Drop)]
pub struct SourceText {
    pub text: Vec<u8>,
    pub value: Value,
}

/// Why a source has no value.
#[derive(Clone, Copy)]
pub enum SourceFault {
    /// A read failed, or the text has more than 67,108,864 bytes.
    Unreadable,
    /// The text is neither JSON nor YAML.
    NotRead { fault: DocumentFault },
    /// Out of memory.
    NoMemory,
}

impl From<ReadFault> for SourceFault {
    ghost use Rattle.std.specs.Prelude.{◌≡◌};
    ghost use Rattle.am_console.specs.Source.{fault_of_read};

    ghost from_gives = { λ of_read fault. fault ≡ fault_of_read of_read };

    fn from(fault: ReadFault) -> SourceFault {
        match fault {
            ReadFault::Unreadable => SourceFault::Unreadable,
            ReadFault::NoMemory => SourceFault::NoMemory,
        }
    }
}

impl From<DocumentFault> for SourceFault {
    ghost use Rattle.std.specs.Prelude.{◌≡◌};
    ghost use Rattle.am_console.specs.Source.{fault_of_document};

    ghost from_gives = { λ of_document fault. fault ≡ fault_of_document of_document };

    fn from(fault: DocumentFault) -> SourceFault {
        match fault {
            DocumentFault::NoMemory => SourceFault::NoMemory,
            fault => SourceFault::NotRead { fault },
        }
    }
}

/// Reads a text in JSON or YAML to its end, and returns it with its value.
///
/// The value is that of a JSON text where it is one. Of YAML nothing is said.
///
/// # Errors
///
/// `Unreadable` exactly if a read failed, or gave more than 67,108,864 bytes. `NotRead` only for a text that is no JSON.
pub fn read_source<S: Source>(alloc: Global, source: &mut S) -> Result<SourceText, SourceFault>
    ensures reads { S.reads source.new ≤ S.reads source.old + (MAX_INPUT + 1) }
    ensures unreadable { (result ≡ Err SourceFault.Unreadable)
        ↔ ((S.failed source.old < S.failed source.new)
        ⊎ (length (S.given source.old) + MAX_INPUT < length (S.given source.new))) }
    ensures read { IfOk result (λ source_text.
        IsReadFrom (S.given source.old) (S.given source.new) source_text.text.items (view source_text.value)) }
    ensures ended { OnOk result (S.ended source.new ≡ S.ended source.old + 1) }
    ensures refused { IfErr result
        (RefusesSource (S.given source.old) (S.given source.new) (S.ended source.old) (S.ended source.new)) }
{
    let text = read_all(alloc, source, MAX_INPUT)?;
    let value = read_document(alloc, text.as_slice())?;
    Ok(SourceText { text, value })
}
