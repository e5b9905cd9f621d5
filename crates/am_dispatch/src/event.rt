//! `Event`: a read or a write, as contracts see it.
use am_ghost::GhostList;

/// A read of a peer's bytes, or a write of bytes to it. Its bytes exist in proofs alone, and take no memory.
#[derive(Drop)]
pub enum Event {
    /// A read gave these bytes.
    Given(GhostList<u8>),
    /// A read reported the end of the input.
    Ended,
    /// A read failed.
    Unread,
    /// A write took these bytes.
    Taken(GhostList<u8>),
    /// A write failed.
    Unwritten,
}
