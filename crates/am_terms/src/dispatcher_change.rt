//! Changes of the dispatcher during a rehearsal: a reload of the configuration, and a restart.

use am_model::config::Config;

/// A dispatcher stops, and another takes its place at once.
#[derive(Drop)]
pub struct DispatcherChange {
    /// When, in milliseconds from the start of the rehearsal; not zero.
    pub at: u64,
    /// The configuration of the new dispatcher.
    pub config: Config,
    pub carryover: Carryover,
}

/// What a new dispatcher has of the one before it.
#[derive(Clone, Copy, PartialEq, Eq)]
pub enum Carryover {
    /// Its alerts, its silences and its log, as after a reload.
    All,
    /// Its silences and its log, as after a restart that finds its data folder. Alerts come again
    /// from whoever sends them.
    Log,
    /// Nothing, as after a restart that finds no data folder. Alerts come again from whoever sends
    /// them.
    Nothing,
}
