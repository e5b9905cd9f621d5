//! What a flush of all groups came to.
use std::fmt::{Display, Error, Formatter, Write};

/// What begins and finishes at one time came to.
#[derive(Clone, Copy)]
pub struct Tally {
    /// Groups with a flush.
    pub flushed: usize,
    /// Groups of which nobody was notified.
    pub quiet: usize,
    pub notices: usize,
    /// Alerts in notices.
    pub notified: usize,
    /// Alerts that left their groups.
    pub left: usize,
}

impl Tally {
    pub fn new() -> Tally {
        Tally {
            flushed: 0,
            quiet: 0,
            notices: 0,
            notified: 0,
            left: 0,
        }
    }

    pub fn add_quiet(&mut self, removed: usize) {
        self.quiet = self.quiet.saturating_add(1);
        self.left = self.left.saturating_add(removed);
    }

    pub fn add_notice(&mut self, alerts: usize) {
        self.notices = self.notices.saturating_add(1);
        self.notified = self.notified.saturating_add(alerts);
    }

    pub fn add_flush(&mut self, removed: usize) {
        self.flushed = self.flushed.saturating_add(1);
        self.left = self.left.saturating_add(removed);
    }

    /// Adds what another thread's calls came to.
    pub fn add(&mut self, other: &Tally) {
        self.flushed = self.flushed.saturating_add(other.flushed);
        self.quiet = self.quiet.saturating_add(other.quiet);
        self.notices = self.notices.saturating_add(other.notices);
        self.notified = self.notified.saturating_add(other.notified);
        self.left = self.left.saturating_add(other.left);
    }
}

impl Display for Tally {
    fn fmt<W: Write>(&self, f: &mut Formatter<W>) -> Result<(), Error> {
        let (flushed, quiet, notices) = (self.flushed, self.quiet, self.notices);
        let (notified, left) = (self.notified, self.left);
        write!(f, "flushed {flushed}, quiet {quiet}, ")?;
        write!(
            f,
            "notices {notices}, alerts notified {notified}, left {left}"
        )
    }
}
