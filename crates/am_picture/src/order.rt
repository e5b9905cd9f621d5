//! `Sections`: the folds of a page in their order: what went wrong first.
use crate::counts::{failures_in, is_route_muted};
use crate::fold::Fold;
use crate::gather::{Gathered, is_drawn};
use std::alloc::{AllocError, Global};

/// The folds of a page, by what became of them, each in the order in which their alerts came.
#[derive(Drop)]
pub(crate) struct Sections {
    /// A notice was given up.
    pub(crate) failed: Vec<usize>,
    /// No delivered notice has one of their alerts.
    pub(crate) undelivered: Vec<usize>,
    /// Flushes left out alerts.
    pub(crate) muted: Vec<usize>,
    pub(crate) others: Vec<usize>,
}

/// What became of a fold.
#[derive(Clone, Copy)]
pub(crate) struct State {
    pub(crate) failures: usize,
    /// The alerts that no delivered notice has.
    pub(crate) undelivered: usize,
    /// Whether flushes left out alerts.
    pub(crate) is_muted: bool,
}

impl Sections {
    /// Returns the folds that are drawn, in their order.
    pub(crate) fn of(alloc: Global, gathered: &Gathered) -> Result<Sections, AllocError> {
        let mut sections = Sections {
            failed: Vec::new(alloc),
            undelivered: Vec::new(alloc),
            muted: Vec::new(alloc),
            others: Vec::new(alloc),
        };
        for (index, fold) in gathered.folds.as_slice().iter().enumerate() {
            if is_drawn(gathered.lanes.as_slice(), fold) {
                sections.add(index, State::of(gathered, fold))?;
            }
        }
        Ok(sections)
    }

    fn add(&mut self, index: usize, state: State) -> Result<(), AllocError> {
        if state.failures > 0 {
            self.failed.push(index)?;
        } else if state.undelivered > 0 {
            self.undelivered.push(index)?;
        } else if state.is_muted {
            self.muted.push(index)?;
        } else {
            self.others.push(index)?;
        }
        Ok(())
    }
}

impl State {
    /// Returns what became of a fold.
    pub(crate) fn of(gathered: &Gathered, fold: &Fold) -> State {
        let mut state = State {
            failures: 0,
            undelivered: 0,
            is_muted: !fold.mutes.is_empty(),
        };
        for lane in fold.lanes.as_slice() {
            if let Some(lane) = gathered.lanes.as_slice().get(*lane) {
                if lane.is_drawn() {
                    state.failures = state.failures.saturating_add(failures_in(lane));
                    state.is_muted = state.is_muted || is_route_muted(lane);
                }
            }
        }
        for member in fold.members.as_slice() {
            if let Some(alert) = gathered.alerts.as_slice().get(member.alert) {
                if alert.is_missed {
                    state.undelivered = state.undelivered.saturating_add(1);
                }
            }
        }
        state
    }
}
