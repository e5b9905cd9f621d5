//! `Alerts`: the alerts of a story, each once.
use crate::span::{Span, add_insert};
use am_alerts::alert::Alert;
use am_alerts::labels::Labels;
use am_seed::Seed;
use std::alloc::{AllocError, Global};
use std::collections::HashMap;

/// The alerts of a story, in the order of their first inserts.
#[derive(Drop)]
pub(crate) struct Alerts {
    alloc: Global,
    list: Vec<StoryAlert>,
    by_labels: HashMap<Labels, usize, Seed>,
}

/// An alert of a story.
#[derive(Drop)]
pub(crate) struct StoryAlert {
    pub(crate) labels: Labels,
    /// When it fires.
    pub(crate) spans: Vec<Span>,
    /// Whether an integration missed a span of it, or the end of one.
    pub(crate) is_missed: bool,
    /// Whether another alert is inhibited because of it.
    pub(crate) is_source: bool,
    /// Whether a group of it is drawn.
    pub(crate) is_drawn: bool,
    /// How many dispatchers there were up to the last one that got it.
    pub(crate) dispatchers: usize,
}

impl Alerts {
    /// Returns no alerts.
    pub(crate) fn new(alloc: Global, seed: Seed) -> Alerts {
        Alerts {
            alloc,
            list: Vec::new(alloc),
            by_labels: HashMap::with_hasher(alloc, seed),
        }
    }

    /// Returns the alerts, in their order.
    pub(crate) fn as_slice(&self) -> &[StoryAlert] {
        self.list.as_slice()
    }

    /// Returns the index of an alert, if it is there.
    pub(crate) fn index_of(&self, labels: &Labels) -> Option<usize> {
        self.by_labels.get(labels).copied()
    }

    /// Adds that an alert fires, or when it was resolved, and returns its index.
    pub(crate) fn insert(&mut self, alert: &Alert) -> Result<usize, AllocError> {
        let index = self.index_for(alert.labels())?;
        if let Some(known) = self.list.get_mut(index) {
            add_insert(&mut known.spans, alert)?;
        }
        Ok(index)
    }

    fn index_for(&mut self, labels: &Labels) -> Result<usize, AllocError> {
        if let Some(index) = self.index_of(labels) {
            return Ok(index);
        }
        let index = self.list.len();
        self.by_labels.insert(labels.copy(self.alloc)?, index)?;
        self.list.push(StoryAlert {
            labels: labels.copy(self.alloc)?,
            spans: Vec::new(self.alloc),
            is_missed: false,
            is_source: false,
            is_drawn: false,
            dispatchers: 0,
        })?;
        Ok(index)
    }

    /// Notes that a dispatcher got an alert. Returns whether it is new to it.
    pub(crate) fn reach(&mut self, index: usize, dispatchers: usize) -> bool {
        match self.list.get_mut(index) {
            None => false,
            Some(alert) => {
                let is_new = alert.dispatchers != dispatchers;
                alert.dispatchers = dispatchers;
                is_new
            }
        }
    }

    /// Notes that an integration missed a span of an alert, or the end of one.
    pub(crate) fn miss(&mut self, labels: &Labels) {
        if let Some(index) = self.index_of(labels) {
            if let Some(alert) = self.list.get_mut(index) {
                alert.is_missed = true;
            }
        }
    }

    /// Notes that another alert is inhibited because of one, and returns its index, if it is there.
    pub(crate) fn cite(&mut self, labels: &Labels) -> Option<usize> {
        let index = self.index_of(labels)?;
        if let Some(alert) = self.list.get_mut(index) {
            alert.is_source = true;
        }
        Some(index)
    }

    /// Notes that a fold with an alert is drawn. Returns whether it is the first.
    pub(crate) fn draw(&mut self, index: usize) -> bool {
        match self.list.get_mut(index) {
            None => false,
            Some(alert) => {
                let is_first = !alert.is_drawn;
                alert.is_drawn = true;
                is_first
            }
        }
    }
}
