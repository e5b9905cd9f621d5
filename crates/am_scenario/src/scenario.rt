//! `Scenario` and its parts.
ghost use Rattle.std.specs.Prelude.{◌≤◌, vec_len};
ghost use Rattle.am_scenario.specs.declared.scenario.TheConstants.{MAX_LANES};
ghost use Rattle.am_alerts.specs.declared.limits.TheConstants.{MAX_TIME};
ghost use Rattle.am_pool.specs.declared.limits.TheConstants.{MAX_WORKERS};

use am_alerts::limits::MAX_TIME;
use am_model::config::Config;
use am_pool::MAX_WORKERS;

mod call;
mod items;
mod read;
mod script;

pub use call::LaneCall;
pub use read::read_scenario;
pub use script::{Script, ScriptedAnswer};

/// How many lanes a phase may have.
pub const MAX_LANES: usize = 15;

/// A scenario: a configuration, what is answered to notices, and what happens.
#[derive(Drop)]
pub struct Scenario {
    pub config: Config,
    /// How many couriers send at once.
    pub workers: usize,
    /// Of two scripts for one notice the first counts.
    pub scripts: Vec<Script>,
    pub phases: Vec<Phase>,
    ghost some_workers: { 1 ≤ workers },
    ghost few_workers: { workers ≤ MAX_WORKERS },
}

/// What happens at one time: the groups that are due are flushed, if `flush` is set, and the
/// lanes make their calls.
#[derive(Drop)]
pub struct Phase {
    /// The time, in milliseconds.
    pub at: u64,
    pub flush: bool,
    pub lanes: Vec<Lane>,
    ghost at_in_range: { at ≤ MAX_TIME },
    ghost few_lanes: { vec_len lanes ≤ MAX_LANES },
}

/// Calls that are made one after the other.
#[derive(Drop)]
pub struct Lane {
    pub calls: Vec<LaneCall>,
}
