//! Why the program ends before its input does, and with which status.
use thiserror::Error;

/// Why the program ends before its input does.
#[derive(Debug, Drop, Error)]
pub enum ServeFault {
    /// A read failed.
    #[error("input not readable")]
    Unreadable,
    /// A write failed. Some of the answer may have been written.
    #[error("output not writable")]
    Unwritable,
}

impl ServeFault {
    /// Returns the status with which the program ends on this fault.
    pub fn status(&self) -> u8 {
        match self {
            ServeFault::Unreadable => 1,
            ServeFault::Unwritable => 4,
        }
    }
}
