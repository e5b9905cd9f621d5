//! Reading a whole input and writing a whole text.
ghost use Rattle.std.specs.Prelude.{◌≡◌, ◌≤◌, ◌<◌, ◌+◌, ◌++◌, ◌⊎◌, ◌↔◌, length, IfOk, IsErr, OnErr, OnOk, is_ok, if◌then◌else◌};
ghost use Rattle.am_json.specs.Bytes.{Breaks};

use crate::device::{Sink, Source};
use std::alloc::Global;
use thiserror::Error;

/// How many bytes a file or a line may have: 64 MiB.
pub const MAX_INPUT: usize = 67_108_864;

/// How many bytes are asked for at once.
const CHUNK: usize = 8_192;

/// Why an input wasn't read to its end.
#[derive(Clone, Copy, Debug, PartialEq, Eq, Error)]
pub enum ReadFault {
    /// A read failed, or the input has more bytes than it may have.
    #[error("input not readable")]
    Unreadable,
    /// Out of memory.
    #[error("no memory")]
    NoMemory,
}

/// A write failed. Some of the bytes may have been written.
#[derive(Clone, Copy, Debug, PartialEq, Eq, Error)]
#[error("output not writable")]
pub struct Unwritable;

/// Reads to the end of an input that has at most so many bytes. A read that fails isn't tried again.
/// No more than one byte beyond the greatest input is asked for.
pub fn read_all<S: Source>(alloc: Global, source: &mut S, most: usize) -> Result<Vec<u8>, ReadFault>
    ensures whole { IfOk result (λ input.
        S.given source.new ≡ S.given source.old ++ input.items) }
    ensures ended { OnOk result (S.ended source.new ≡ S.ended source.old + 1) }
    ensures reads { S.reads source.new ≤ S.reads source.old + (most + 1) }
    ensures unreadable { (result ≡ Err ReadFault.Unreadable)
        ↔ ((S.failed source.old < S.failed source.new)
        ⊎ (length (S.given source.old) + most < length (S.given source.new))) }
{
    let mut input = Vec::new(alloc);
    let mut chunk = [0u8; CHUNK];
    loop {
        let wanted = CHUNK.min((most - input.len()).saturating_add(1));
        let given = match source.read(&mut chunk[..wanted]) {
            Ok(given) => given,
            Err(_) => return Err(ReadFault::Unreadable),
        };
        if given == 0 {
            return Ok(input);
        }
        if given > most - input.len() {
            return Err(ReadFault::Unreadable);
        }
        if input.extend_from_slice(&chunk[..given]).is_err() {
            return Err(ReadFault::NoMemory);
        }
    }
}

/// Writes all of these bytes. A write that takes none has failed. Where one fails, the front of the
/// bytes may have been written.
pub fn write_all<K: Sink>(sink: &mut K, bytes: &[u8]) -> Result<(), Unwritable>
    ensures whole { OnOk result (K.taken sink.new ≡ K.taken sink.old ++ bytes.now) }
    ensures part { OnErr result (Breaks (λ text. text ≡ bytes.now) (K.taken sink.old) (K.taken sink.new)) }
    ensures failed { K.failed sink.new ≡ K.failed sink.old + (if is_ok result then 0 else 1) }
    ensures unwritable { IsErr result ↔ (K.failed sink.old < K.failed sink.new) }
{
    let mut rest = bytes;
    while !rest.is_empty() {
        match sink.write(rest) {
            Err(_) | Ok(0) => return Err(Unwritable),
            Ok(taken) => rest = &rest[taken..],
        }
    }
    Ok(())
}
