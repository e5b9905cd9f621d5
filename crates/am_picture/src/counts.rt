//! `Counts`: how much happens in each piece of the whole time, and in all of it.
use crate::alerts::StoryAlert;
use crate::axis::Axis;
use crate::gather::Gathered;
use crate::lane::{Item, Lane, QuietCause};
use crate::pen::WHOLE;
use std::alloc::{AllocError, Global};

/// How many pieces of the whole time are counted, each as long as the others.
pub(crate) const PIECES: u64 = 50;

/// How much happens in each piece of the whole time.
#[derive(Drop)]
pub(crate) struct Counts {
    /// Delivered notices.
    pub(crate) notices: Vec<u64>,
    /// Notices that were given up.
    pub(crate) failures: Vec<u64>,
    /// Alerts that fire at some time of it.
    pub(crate) firing: Vec<u64>,
}

/// How much there is of everything that is drawn.
#[derive(Clone, Copy)]
pub(crate) struct Totals {
    pub(crate) groups: usize,
    pub(crate) alerts: usize,
    /// The delivered notices.
    pub(crate) notices: usize,
    /// The notices that were given up.
    pub(crate) failures: usize,
    /// The alerts that no delivered notice has.
    pub(crate) undelivered: usize,
}

impl Counts {
    /// Returns how much happens in each piece of the whole time.
    pub(crate) fn of(
        alloc: Global,
        axis: &Axis,
        gathered: &Gathered,
    ) -> Result<Counts, AllocError> {
        let mut counts = Counts {
            notices: zeros(alloc)?,
            failures: zeros(alloc)?,
            firing: firing_of(alloc, axis, gathered.alerts.as_slice())?,
        };
        for lane in gathered.lanes.as_slice() {
            if lane.is_drawn() {
                counts.add_items(axis, lane.items.as_slice());
            }
        }
        Ok(counts)
    }

    fn add_items(&mut self, axis: &Axis, items: &[Item]) {
        for item in items {
            if let Item::Sent(sent) = item {
                let counts = if sent.is_delivered() {
                    &mut self.notices
                } else {
                    &mut self.failures
                };
                add_one(counts, piece_of(axis, sent.at));
            }
        }
    }
}

impl Totals {
    /// Returns how much there is of everything.
    pub(crate) fn of(gathered: &Gathered) -> Totals {
        let mut totals = Totals {
            groups: 0,
            alerts: 0,
            notices: 0,
            failures: 0,
            undelivered: 0,
        };
        for lane in gathered.lanes.as_slice() {
            if lane.is_drawn() {
                totals.add_lane(lane);
            }
        }
        for alert in gathered.alerts.as_slice() {
            if alert.is_drawn {
                totals.add_alert(alert);
            }
        }
        totals
    }

    fn add_lane(&mut self, lane: &Lane) {
        let failures = failures_in(lane);
        self.groups = self.groups.saturating_add(1);
        self.failures = self.failures.saturating_add(failures);
        self.notices = self.notices.saturating_add(notices_in(lane));
    }

    fn add_alert(&mut self, alert: &StoryAlert) {
        self.alerts = self.alerts.saturating_add(1);
        if alert.is_missed {
            self.undelivered = self.undelivered.saturating_add(1);
        }
    }
}

/// Returns how many notices of a lane were given up.
pub(crate) fn failures_in(lane: &Lane) -> usize {
    let items = lane.items.as_slice();
    items.iter().filter(|item| is_failure(item)).count()
}

/// Returns how many notices of a lane were delivered.
pub(crate) fn notices_in(lane: &Lane) -> usize {
    let items = lane.items.as_slice();
    items.iter().filter(|item| is_notice(item)).count()
}

/// Returns whether a time interval muted flushes of a lane.
pub(crate) fn is_route_muted(lane: &Lane) -> bool {
    let items = lane.items.as_slice();
    items.iter().any(|item| is_mute(item))
}

fn is_failure(item: &Item) -> bool {
    match item {
        Item::Sent(sent) => !sent.is_delivered(),
        Item::Quiet(_) => false,
    }
}

fn is_notice(item: &Item) -> bool {
    match item {
        Item::Sent(sent) => sent.is_delivered(),
        Item::Quiet(_) => false,
    }
}

fn is_mute(item: &Item) -> bool {
    match item {
        Item::Sent(_) => false,
        Item::Quiet(quiet) => matches!(quiet.cause, QuietCause::RouteMuted { .. }),
    }
}

/// The piece that a time is in.
fn piece_of(axis: &Axis, at: u64) -> usize {
    let piece = axis.position(at) * PIECES / WHOLE;
    piece.min(PIECES - 1) as usize
}

fn zeros(alloc: Global) -> Result<Vec<u64>, AllocError> {
    vec![in alloc; 0u64; PIECES as usize]
}

fn add_one(counts: &mut Vec<u64>, piece: usize) {
    if let Some(count) = counts.get_mut(piece) {
        *count = count.saturating_add(1);
    }
}

/// How many alerts fire at some time of each piece.
fn firing_of(alloc: Global, axis: &Axis, alerts: &[StoryAlert]) -> Result<Vec<u64>, AllocError> {
    let mut starts = zeros(alloc)?;
    let mut ends = zeros(alloc)?;
    for alert in alerts {
        if alert.is_drawn {
            add_spans(axis, alert, &mut starts, &mut ends);
        }
    }
    summed(alloc, starts.as_slice(), ends.as_slice())
}

/// Adds when an alert starts to fire, and when it is resolved. Spans that touch in a piece are one.
fn add_spans(axis: &Axis, alert: &StoryAlert, starts: &mut Vec<u64>, ends: &mut Vec<u64>) {
    let mut last: Option<usize> = None;
    for span in alert.spans.as_slice() {
        let first = piece_of(axis, span.from);
        match last {
            Some(ended) if ended == first => {}
            _ => {
                if let Some(ended) = last {
                    add_one(ends, ended);
                }
                add_one(starts, first);
            }
        }
        last = span.to.map(|to| piece_of(axis, to));
    }
    if let Some(ended) = last {
        add_one(ends, ended);
    }
}

/// How many have started up to a piece, less those that ended before it.
fn summed(alloc: Global, starts: &[u64], ends: &[u64]) -> Result<Vec<u64>, AllocError> {
    let mut counts = Vec::new(alloc);
    let mut fire: u64 = 0;
    for (piece, started) in starts.iter().enumerate() {
        fire = fire.saturating_add(*started);
        counts.push(fire)?;
        fire = fire.saturating_sub(ends.get(piece).copied().unwrap_or(0));
    }
    Ok(counts)
}
