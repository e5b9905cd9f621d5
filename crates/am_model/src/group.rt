//! `GroupName`: what identifies a group. Notices, records and views have one.
ghost use Rattle.std.specs.Prelude.{◌≡◌, IfOk};

use am_alerts::labels::Labels;
use am_alerts::sequence::Copied;
use std::alloc::{AllocError, Global};

/// The name of a group: the position of its route, and its group labels.
///
/// Names are ordered by position, then by labels.
#[derive(Debug, Drop, PartialEq, Eq, PartialOrd, Ord, Hash)]
pub struct GroupName {
    pub route: u32,
    pub labels: Labels,
}

impl GroupName {
    /// Returns a copy of this name.
    pub fn copy(&self, alloc: Global) -> Result<GroupName, AllocError>
        ensures { IfOk result (λ name. name ≡ self.now) }
    {
        Ok(GroupName {
            route: self.route,
            labels: self.labels.copy(alloc)?,
        })
    }
}

impl Copied for GroupName {
    fn copied(&self, alloc: Global) -> Result<GroupName, AllocError> {
        self.copy(alloc)
    }
}
