//! `Alert`: a label set with a start and an end.
ghost use Rattle.std.specs.Prelude.{◌≡◌, ◌≢◌, ◌≤◌, [], IfOk, IfSome, None};
ghost use Rattle.am_alerts.specs.AlertData.{alert_fault, alert_of, is_resolved};
ghost use Rattle.am_alerts.specs.Fault.{ok_unless};
ghost use Rattle.am_alerts.specs.Labels.{IsLabelSet};

use crate::labels::Labels;
use crate::limits::MAX_TIME;
use crate::sequence::Copied;
use std::alloc::{AllocError, Global};
use std::marker::Model;
use thiserror::Error;

/// Why labels and times make no alert.
#[derive(Clone, Copy, Debug, PartialEq, Eq, Error)]
pub enum AlertFault {
    #[error("an alert needs a label")]
    NoLabels = 1,
    #[error("a time is above 10^15")]
    BadTime = 2,
    #[error("the alert ends before it starts")]
    EndBeforeStart = 3,
}

/// An alert: its labels, when it starts and, where it is known, when it ends (milliseconds).
/// Its label set identifies it.
#[derive(Debug, Drop)]
pub struct Alert {
    labels: Labels,
    starts: u64,
    ends: Option<u64>,
}

impl Model for Alert {
    ghost use Rattle.am_alerts.specs.AlertData.{AlertData};

    ghost Value = { AlertData };

    ghost use Rattle.std.specs.Prelude.{◌≡◌, None};
    ghost use Rattle.am_alerts.specs.AlertData.{alert_fault, alert_of};

    ghost view = { λ a. alert_of a.labels a.starts a.ends };

    ghost invariant = { λ a. alert_fault (alert_of a.labels a.starts a.ends) ≡ None };
}

impl Alert {
    /// An alert of these labels. Refused in this order: `NoLabels`, `BadTime` (above 10^15),
    /// `EndBeforeStart` (an end at the start is accepted). Takes no memory.
    pub fn new(labels: Labels, starts: u64, ends: Option<u64>) -> Result<Alert, AlertFault>
        ensures { result ≡ ok_unless (alert_fault (alert_of labels starts ends)) (alert_of labels starts ends) }
    {
        if labels.pairs().is_empty() {
            return Err(AlertFault::NoLabels);
        }
        let end = ends.unwrap_or(starts);
        if starts > MAX_TIME || end > MAX_TIME {
            return Err(AlertFault::BadTime);
        }
        if end < starts {
            return Err(AlertFault::EndBeforeStart);
        }
        Ok(Alert {
            labels,
            starts,
            ends,
        })
    }

    /// The alert's labels: at least one.
    pub fn labels(&self) -> &Labels
        ensures labels { result.now ≡ self.now.labels }
        ensures some { self.now.labels ≢ [] }
    {
        &self.labels
    }

    /// When the alert starts, in milliseconds.
    pub fn starts(&self) -> u64
        ensures starts { result ≡ self.now.starts }
        ensures bounded { result ≤ MAX_TIME }
    {
        self.starts
    }

    /// When the alert ends, in milliseconds, if that is known.
    pub fn ends(&self) -> Option<u64>
        ensures ends { result ≡ self.now.ends }
        ensures bounded { IfSome result (λ end. end ≤ MAX_TIME) }
        ensures behind { IfSome result (λ end. self.now.starts ≤ end) }
    {
        self.ends
    }

    /// Whether the alert has an end that has come at `t`.
    pub fn resolved_at(&self, t: u64) -> bool
        ensures { result ≡ is_resolved self.now t }
    {
        match self.ends {
            None => false,
            Some(end) => end <= t,
        }
    }

    /// A copy of this alert.
    pub fn copy(&self, alloc: Global) -> Result<Alert, AllocError>
        ensures { IfOk result (λ alert. alert ≡ self.now) }
    {
        Ok(Alert {
            labels: self.labels.copy(alloc)?,
            starts: self.starts,
            ends: self.ends,
        })
    }

    /// A copy of this alert as one that fires at a time at which it isn't resolved: it has no end.
    pub fn copy_without_end(&self, alloc: Global) -> Result<Alert, AllocError>
        ensures { IfOk result (λ alert. alert ≡ alert_of self.now.labels self.now.starts None) }
    {
        Ok(Alert {
            labels: self.labels.copy(alloc)?,
            starts: self.starts,
            ends: None,
        })
    }
}

impl Copied for Alert {
    fn copied(&self, alloc: Global) -> Result<Alert, AllocError> {
        self.copy(alloc)
    }
}
