//! `Fold`: a label set by which routes group, with its alerts.
use am_alerts::labels::Labels;
use std::alloc::{AllocError, Global};

/// A label set by which routes group.
#[derive(Drop)]
pub(crate) struct Fold {
    pub(crate) labels: Labels,
    /// Its alerts, in the order in which they came. Lines name them by their positions, from 1 on.
    pub(crate) members: Vec<Member>,
    /// The positions of its lanes.
    pub(crate) lanes: Vec<usize>,
    /// When flushes left out which alerts.
    pub(crate) mutes: Vec<Mute>,
}

/// An alert of a fold.
#[derive(Clone, Copy)]
pub(crate) struct Member {
    pub(crate) alert: usize,
    /// The lane whose flushes say when it is muted. They all have the same silences and rules.
    pub(crate) lead: usize,
    /// Whether this is the first drawn fold with the alert. Others name it by a link to this.
    pub(crate) is_first: bool,
}

/// A span in which flushes left out an alert.
#[derive(Clone, Copy)]
pub(crate) struct Mute {
    pub(crate) member: usize,
    pub(crate) from: u64,
    /// The first flush that didn't; none where there is none.
    pub(crate) to: Option<u64>,
    pub(crate) cause: Cause,
}

/// Why a flush left out an alert.
#[derive(Clone, Copy, PartialEq, Eq)]
pub(crate) enum Cause {
    /// A silence mutes it, until this time.
    Silenced { until: u64 },
    /// A rule mutes it, because of the alert at an index.
    Inhibited { rule: usize, by: Option<usize> },
}

impl Fold {
    /// Returns a fold without alerts.
    pub(crate) fn new(alloc: Global, labels: Labels) -> Fold {
        Fold {
            labels,
            members: Vec::new(alloc),
            lanes: Vec::new(alloc),
            mutes: Vec::new(alloc),
        }
    }

    /// Adds an alert that a lane got first, and returns its position.
    pub(crate) fn add_member(&mut self, alert: usize, lead: usize) -> Result<usize, AllocError> {
        let position = self.members.len();
        self.members.push(Member {
            alert,
            lead,
            is_first: false,
        })?;
        Ok(position)
    }

    /// Notes which lane of the present dispatcher got an alert first.
    pub(crate) fn lead(&mut self, position: usize, lead: usize) {
        if let Some(member) = self.members.get_mut(position) {
            member.lead = lead;
        }
    }

    /// Adds a lane.
    pub(crate) fn add_lane(&mut self, lane: usize) -> Result<(), AllocError> {
        self.lanes.push(lane)?;
        Ok(())
    }

    /// Adds a span that begins, and returns its position.
    pub(crate) fn mute(&mut self, mute: Mute) -> Result<usize, AllocError> {
        let position = self.mutes.len();
        self.mutes.push(mute)?;
        Ok(position)
    }

    /// Ends a span.
    pub(crate) fn unmute(&mut self, position: usize, to: u64) {
        if let Some(mute) = self.mutes.get_mut(position) {
            mute.to = Some(to);
        }
    }
}
