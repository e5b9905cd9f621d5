//! `Notice` and `Report`: what a courier sends, and how that ended. Tickets have the notices, and
//! record the reports.
ghost use Rattle.std.specs.Prelude.{◌≡◌, ◌≤◌, IfOk};
ghost use Rattle.am_model.specs.Notice.{is_nothing};

use crate::group::GroupName;
use am_alerts::alert::Alert;
use am_alerts::limits::{MAX_DURATION, MAX_TIME};
use am_alerts::sequence::{Copied, Sequence};
use am_retry::Outcome;
use std::alloc::{AllocError, Global};
use std::marker::Model;

/// The greatest deadline, in milliseconds: the greatest time and the greatest interval together.
pub const MAX_DEADLINE: u64 = MAX_TIME + MAX_DURATION;

/// The least time from a flush's begin to its deadline, in milliseconds.
pub const MIN_FLUSH_TIMEOUT: u64 = 10_000;

/// A notification of one integration, for one flush of a group. Alerts are in the order of their
/// labels.
#[derive(Debug, Drop)]
pub struct Notice {
    /// The id of the desk.
    pub board_id: u64,
    /// The number of the flush.
    pub ticket: u64,
    /// An attempt can start before this time, in milliseconds. It is at most `MAX_DEADLINE`.
    pub deadline: u64,
    pub group: GroupName,
    /// The integration's position in its receiver.
    pub integration: u32,
    pub firing: Sequence<Alert>,
    pub resolved: Sequence<Alert>,
}

impl Model for Notice {
    ghost use Rattle.std.specs.Prelude.{◌≤◌};
    ghost use Rattle.am_model.specs.Notice.{NoticeData};
    ghost use Rattle.am_model.specs.declared.notice.TheConstants.{MAX_DEADLINE};

    ghost Value = { NoticeData };

    ghost view = { λ n.
        record {
          board_id = n.board_id;
          ticket = n.ticket;
          deadline = n.deadline;
          group = n.group;
          integration = n.integration;
          firing = n.firing;
          resolved = n.resolved;
        } };

    ghost invariant = { λ n. n.deadline ≤ MAX_DEADLINE };
}

/// The end of the sending of a notice.
#[derive(Clone, Copy, Debug)]
pub struct Report {
    pub board_id: u64,
    pub ticket: u64,
    pub integration: u32,
    pub outcome: Outcome,
    /// The number of attempts.
    pub attempts: u64,
    /// When the last attempt ended, or when the sending started; in milliseconds.
    pub ended: u64,
}

impl Notice {
    /// Returns whether there is nothing to send.
    pub fn nothing(&self) -> bool
        ensures nothing { result ≡ is_nothing self.now }
        ensures within { self.now.deadline ≤ MAX_DEADLINE }
    {
        self.firing.is_empty() && self.resolved.is_empty()
    }

    /// Returns a copy of this notice.
    pub fn copy(&self, alloc: Global) -> Result<Notice, AllocError>
        ensures { IfOk result (λ notice. notice ≡ self.now) }
    {
        Ok(Notice {
            board_id: self.board_id,
            ticket: self.ticket,
            deadline: self.deadline,
            group: self.group.copy(alloc)?,
            integration: self.integration,
            firing: self.firing.copy(alloc)?,
            resolved: self.resolved.copy(alloc)?,
        })
    }
}

impl Copied for Notice {
    fn copied(&self, alloc: Global) -> Result<Notice, AllocError> {
        self.copy(alloc)
    }
}
