//! What a rehearsal that ran returns, with its board.
//!
//! A long rehearsal has many thousands of events, and nearly all are quiet begins. So an event is small: a report is boxed.
ghost use Rattle.std.specs.Prelude.{◌≡◌, IfOk};

use crate::shared_preview::SharedPreview;
use am_model::boxed::Boxed;
use am_model::notice::Report;
use std::alloc::{AllocError, Global};

/// A begin that took a group, with its preview.
#[derive(Drop)]
pub struct PreviewedBegin {
    /// The position of the begin's record in the history.
    pub index: usize,
    /// What it was to do, and why. It was computed before the begin.
    pub preview: SharedPreview,
}

/// One event of a rehearsal.
#[derive(Drop)]
pub enum Event {
    /// The begin at this position among the previewed begins took a group.
    Begun { begin: u32 },
    /// The sending of a notice ended. The begin at this position opened its flush.
    Sent { begin: u32, report: Boxed<Report> },
}

impl Event {
    /// Returns a copy of this event.
    pub fn copy(&self, alloc: Global) -> Result<Event, AllocError>
        ensures { IfOk result (λ event. event ≡ self.now) }
    {
        match self {
            Event::Begun { begin } => Ok(Event::Begun { begin: *begin }),
            Event::Sent { begin, report } => Ok(Event::Sent {
                begin: *begin,
                report: Boxed::new(alloc, *report.get())?,
            }),
        }
    }
}
