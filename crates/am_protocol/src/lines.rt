//! `Line`: a line of an input, of which the parts come one after the other.
//!
//! It reads nothing: whoever has bytes hands them in, and learns what is behind the line feed.
ghost use Rattle.std.specs.Prelude.{◌≡◌, ◌≢◌, ◌≤◌, ◌<◌, ◌++◌, ◌∷◌, ◌⊎◌, [], ◌↔◌, List, ℕ, ◌==◌};
ghost use Rattle.std.specs.Prelude.{IfSome, IsNone, IsSome, IsTrue, length, vec_len};
ghost use Rattle.std.specs.List.{position};
ghost use Rattle.am_json.specs.declared.transfer.TheConstants.{MAX_INPUT};
ghost use Rattle.am_protocol.specs.Lines.{Adds, IsKept};

use am_json::transfer::MAX_INPUT;
use std::alloc::Global;

/// What came of reading a line.
#[derive(Clone, Copy)]
pub enum LineRead {
    /// The line is there, without its line feed.
    Complete,
    /// It has more than 67,108,864 bytes. It was read to its end, and isn't kept.
    TooLong,
    /// There was no memory for it. It was read to its end, and isn't kept.
    NoMemory,
    /// No line is left: nothing of one has come.
    End,
}

impl LineRead {
    /// Whether no line is left.
    pub fn is_end(self) -> bool
        ensures { IsTrue result ↔ (self ≡ LineRead.End) }
    {
        matches!(self, LineRead::End)
    }
}

/// A line, as far as it has come.
#[derive(Drop)]
pub struct Line {
    /// What comes of reading it, if it is whole.
    pub read: LineRead,
    /// What is kept of it.
    pub text: Vec<u8>,
}

impl Line {
    /// Returns a line of which nothing has come.
    pub fn new(alloc: Global) -> Line
        ensures read { result.read ≡ LineRead.End }
        ensures text { result.text.items ≡ [] }
    {
        Line {
            read: LineRead::End,
            text: Vec::new(alloc),
        }
    }

    /// Begins the next line.
    pub fn clear(&mut self)
        ensures read { self.new.read ≡ LineRead.End }
        ensures text { self.new.text.items ≡ [] }
    {
        self.read = LineRead::End;
        self.text.clear();
    }

    /// Adds what there is of a line, and returns what is behind its line feed. None: there is no line feed, and all was added.
    pub fn add<'a>(&mut self, bytes: &'a [u8]) -> Option<&'a [u8]>
        requires { vec_len self.old.text ≤ MAX_INPUT }
        ensures whole { IfSome result (λ behind. (part : List ℕ)
            × (bytes.now ≡ part ++ 10 ∷ behind.now) × Adds part self.old self.new) }
        ensures part { IsNone result → Adds bytes.now self.old self.new }
        ensures known { IsSome result → self.new.read ≢ LineRead.End }
        ensures begun { self.new.read ≢ LineRead.End → (self.old.read ≢ LineRead.End) ⊎ (0 < length bytes.now) }
        ensures short { vec_len self.new.text ≤ MAX_INPUT }
    {
        match find_feed(bytes) {
            Some(length) => {
                self.read = keep(&mut self.text, &bytes[..length], self.read);
                Some(&bytes[length + 1..])
            }
            None if bytes.is_empty() => None,
            None => {
                self.read = keep(&mut self.text, bytes, self.read);
                None
            }
        }
    }
}

/// Returns the index of the first line feed.
fn find_feed(bytes: &[u8]) -> Option<usize>
    ensures within { IfSome result (λ n. n < length bytes.now) }
    ensures first { result ≡ position (λ b. b == 10) bytes.now }
{
    bytes.iter().position(|byte| *byte == b'\n')
}

/// Adds a part of a line to what was kept of it.
fn keep(text: &mut Vec<u8>, part: &[u8], read: LineRead) -> LineRead
    requires { vec_len text.old ≤ MAX_INPUT }
    ensures kept { (line : List ℕ) → IsKept read line text.old.items → IsKept result (line ++ part.now) text.new.items }
    ensures begun { result ≢ LineRead.End }
    ensures short { vec_len text.new ≤ MAX_INPUT }
{
    match read {
        LineRead::TooLong | LineRead::NoMemory => read,
        LineRead::Complete | LineRead::End => {
            if part.len() > MAX_INPUT - text.len() {
                text.clear();
                LineRead::TooLong
            } else if text.extend_from_slice(part).is_err() {
                text.clear();
                LineRead::NoMemory
            } else {
                LineRead::Complete
            }
        }
    }
}
