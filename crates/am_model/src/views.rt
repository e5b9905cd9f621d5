//! What a board returns of its state: log rows, groups and counts.
ghost use Rattle.std.specs.Prelude.{◌≡◌, IfOk};

use crate::group::GroupName;
use am_alerts::alert::Alert;
use am_alerts::labels::Labels;
use am_alerts::sequence::Sequence;
use std::alloc::{AllocError, Global};

/// A log row. Times are in milliseconds, and label sets are in their order.
#[derive(Debug, Drop)]
pub struct RowView {
    pub group: GroupName,
    pub integration: u32,
    pub time: u64,
    pub expiry: u64,
    pub firing: Sequence<Labels>,
    pub resolved: Sequence<Labels>,
}

impl RowView {
    /// Returns a copy of this row.
    pub fn copy(&self, alloc: Global) -> Result<RowView, AllocError>
        ensures { IfOk result (λ row. row ≡ self.now) }
    {
        Ok(RowView {
            group: self.group.copy(alloc)?,
            integration: self.integration,
            time: self.time,
            expiry: self.expiry,
            firing: self.firing.copy(alloc)?,
            resolved: self.resolved.copy(alloc)?,
        })
    }
}

/// A group. Its alerts are in the order of their labels.
#[derive(Debug, Drop)]
pub struct GroupView {
    pub group: GroupName,
    /// When it is flushed next, in milliseconds.
    pub due: u64,
    /// Whether it was flushed since it was made.
    pub flushed: bool,
    pub alerts: Sequence<Alert>,
}

/// The counts of a board.
#[derive(Clone, Copy, Debug, PartialEq, Eq)]
pub struct Summary {
    /// Accepted calls.
    pub calls: usize,
    pub groups: usize,
    /// Alerts over all groups.
    pub alerts: usize,
    /// Open flushes.
    pub flushes: usize,
    /// Rows of the log.
    pub entries: usize,
}

/// The counts of a board, without alerts and log rows.
#[derive(Clone, Copy, Debug, PartialEq, Eq)]
pub struct Glance {
    /// Accepted calls.
    pub calls: usize,
    pub groups: usize,
    /// Open flushes.
    pub flushes: usize,
}
