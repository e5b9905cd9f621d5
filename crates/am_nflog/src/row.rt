//! `LogRow`: the last success of an integration for a group.

use crate::members::Members;

/// What an integration was last notified of in a group, and when. Each success replaces the row of the one before.
#[derive(Debug, Drop)]
pub struct LogRow<N: Ord> {
    /// When the notice succeeded, in milliseconds.
    pub time: u64,
    /// The alerts that fired in it.
    pub firing: Members<N>,
    /// The alerts that were resolved in it.
    pub resolved: Members<N>,
    /// From this time on a collection removes the row, in milliseconds.
    pub expiry: u64,
}
