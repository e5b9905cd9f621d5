//! `Lane`: what a route did with a label set.
use am_model::reason::Reason;
use am_retry::Outcome;
use std::alloc::{AllocError, Global};

/// The groups of one route, receiver and label set, of one dispatcher after another.
#[derive(Drop)]
pub(crate) struct Lane {
    pub(crate) fold: usize,
    pub(crate) route: String,
    pub(crate) receiver: String,
    /// The name of each integration.
    pub(crate) integrations: Vec<String>,
    /// Whether the filter wants its receiver and its route.
    pub(crate) is_named: bool,
    /// Whether an alert came into it that the filter's matchers match.
    pub(crate) is_matched: bool,
    pub(crate) flushes: Flushes,
    /// What came of its flushes, in the order of the events.
    pub(crate) items: Vec<Item>,
    /// For each integration the item of the flushes that send it nothing, if the last one did so.
    pub(crate) quiet: Vec<Option<usize>>,
    /// The alerts that the last flush left out.
    pub(crate) muted: Vec<OpenMute>,
    pub(crate) last: Option<BeginRef>,
}

/// How many flushes there were, and when.
#[derive(Clone, Copy)]
pub(crate) struct Flushes {
    pub(crate) count: u64,
    pub(crate) first: u64,
    pub(crate) last: u64,
}

/// A begin: the position of its dispatcher, and its own among the begins.
#[derive(Clone, Copy)]
pub(crate) struct BeginRef {
    pub(crate) dispatcher: usize,
    pub(crate) begin: usize,
}

/// An alert that is left out, and the span of the fold that has begun for it.
#[derive(Clone, Copy)]
pub(crate) struct OpenMute {
    pub(crate) member: usize,
    pub(crate) mute: usize,
}

/// What came of flushes for an integration.
#[derive(Clone, Copy)]
pub(crate) enum Item {
    Sent(SentItem),
    Quiet(QuietItem),
}

/// A notice whose sending ended.
#[derive(Clone, Copy)]
pub(crate) struct SentItem {
    pub(crate) begin: BeginRef,
    /// The position of its integration.
    pub(crate) integration: u32,
    pub(crate) outcome: Outcome,
    pub(crate) attempts: u64,
    /// When its flush was begun.
    pub(crate) since: u64,
    /// When its sending ended.
    pub(crate) at: u64,
}

/// Flushes one after another that send nothing for one cause.
#[derive(Clone, Copy)]
pub(crate) struct QuietItem {
    /// The position of its integration.
    pub(crate) integration: usize,
    pub(crate) cause: QuietCause,
    pub(crate) flushes: Flushes,
}

/// Why a flush sends an integration nothing, where its entry of the log isn't the cause.
#[derive(Clone, Copy, PartialEq, Eq)]
pub(crate) enum QuietCause {
    NothingFiring,
    RouteMuted { until: u64 },
}

/// What the mark of a notice shows.
#[derive(Clone, Copy, PartialEq, Eq)]
pub(crate) enum Kind {
    /// Delivered: the first notice.
    First,
    /// Delivered: an alert is new.
    New,
    /// Delivered: all alerts are resolved.
    AllResolved,
    /// Delivered: some alerts are newly resolved.
    SomeResolved,
    /// Delivered: a repeat, or a notice for another reason.
    Repeat,
    /// Given up.
    Failed,
}

impl Kind {
    /// Returns what the mark of a delivered notice shows that is sent for this reason.
    pub(crate) fn of(reason: &Reason) -> Kind {
        match reason {
            Reason::FirstNotice => Kind::First,
            Reason::NewAlert => Kind::New,
            Reason::AllResolved => Kind::AllResolved,
            Reason::NewlyResolved => Kind::SomeResolved,
            Reason::Repeat
            | Reason::NothingLeft
            | Reason::NothingFiring
            | Reason::NotYet { .. }
            | Reason::RouteMuted { .. } => Kind::Repeat,
        }
    }

    /// Returns the class of its mark.
    pub(crate) fn class(self) -> &'static str {
        match self {
            Kind::First => "f",
            Kind::New => "n",
            Kind::AllResolved => "r",
            Kind::SomeResolved => "s",
            Kind::Repeat => "p",
            Kind::Failed => "x",
        }
    }
}

impl QuietCause {
    /// Returns the cause of a reason, if it is one.
    pub(crate) fn of(reason: &Reason) -> Option<QuietCause> {
        match reason {
            Reason::NothingFiring => Some(QuietCause::NothingFiring),
            Reason::RouteMuted { until } => Some(QuietCause::RouteMuted { until: *until }),
            Reason::FirstNotice
            | Reason::NewAlert
            | Reason::AllResolved
            | Reason::NewlyResolved
            | Reason::Repeat
            | Reason::NothingLeft
            | Reason::NotYet { .. } => None,
        }
    }
}

impl Flushes {
    /// Returns no flush.
    pub(crate) fn none() -> Flushes {
        Flushes {
            count: 0,
            first: 0,
            last: 0,
        }
    }

    /// Returns these and one more.
    pub(crate) fn with(self, at: u64) -> Flushes {
        Flushes {
            count: self.count.saturating_add(1),
            first: if self.count == 0 { at } else { self.first },
            last: at,
        }
    }
}

impl SentItem {
    /// Returns whether it was delivered.
    pub(crate) fn is_delivered(&self) -> bool {
        self.outcome == Outcome::Delivered
    }
}

impl Lane {
    /// Returns whether it is drawn.
    pub(crate) fn is_drawn(&self) -> bool {
        self.is_named && self.is_matched
    }

    /// Notes whether the filter's matchers match an alert of it.
    pub(crate) fn match_if(&mut self, is_matched: bool) {
        self.is_matched = self.is_matched || is_matched;
    }

    /// Adds a notice whose sending ended.
    pub(crate) fn add_sent(&mut self, sent: SentItem) -> Result<(), AllocError> {
        self.items.push(Item::Sent(sent))?;
        Ok(())
    }

    /// Adds a flush, with its reasons.
    pub(crate) fn add_flush(&mut self, at: u64, reasons: &[Reason]) -> Result<(), AllocError> {
        self.flushes = self.flushes.with(at);
        for (integration, reason) in reasons.iter().enumerate() {
            self.add_reason(at, integration, reason)?;
        }
        Ok(())
    }

    /// Adds why a flush sends an integration nothing, if its entry isn't why.
    fn add_reason(
        &mut self,
        at: u64,
        integration: usize,
        reason: &Reason,
    ) -> Result<(), AllocError> {
        let last = self.quiet.get(integration).copied().unwrap_or(None);
        let now = match QuietCause::of(reason) {
            None => None,
            Some(cause) => Some(self.add_quiet(at, integration, cause, last)?),
        };
        if let Some(quiet) = self.quiet.get_mut(integration) {
            *quiet = now;
        }
        Ok(())
    }

    /// Adds a flush to the last item of an integration, or an item for it. Returns the item's position.
    fn add_quiet(
        &mut self,
        at: u64,
        integration: usize,
        cause: QuietCause,
        last: Option<usize>,
    ) -> Result<usize, AllocError> {
        if let Some(position) = last {
            if self.extend(position, at, cause) {
                return Ok(position);
            }
        }
        let position = self.items.len();
        self.items.push(Item::Quiet(QuietItem {
            integration,
            cause,
            flushes: Flushes::none().with(at),
        }))?;
        Ok(position)
    }

    /// Adds a flush to an item, if it has this cause. Returns whether it has.
    fn extend(&mut self, position: usize, at: u64, cause: QuietCause) -> bool {
        match self.items.get_mut(position) {
            Some(Item::Quiet(quiet)) if quiet.cause == cause => {
                quiet.flushes = quiet.flushes.with(at);
                true
            }
            _ => false,
        }
    }
}

/// Returns no item for each of so many integrations.
pub(crate) fn nothing_quiet(alloc: Global, count: usize) -> Result<Vec<Option<usize>>, AllocError> {
    let mut quiet = Vec::new(alloc);
    for _integration in 0..count {
        quiet.push(None)?;
    }
    Ok(quiet)
}
