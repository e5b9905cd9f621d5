//! The id of a rehearsal's board.

/// The id of a rehearsal's board.
pub const BOARD_ID: u64 = 1;
