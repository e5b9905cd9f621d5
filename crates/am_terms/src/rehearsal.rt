//! What a rehearsal is made of.
ghost use Rattle.std.specs.Prelude.{◌≤◌};
ghost use Rattle.am_terms.specs.declared.rehearsal.TheConstants.{MAX_UNTIL};

use am_alerts::alert::Alert;
use am_alerts::text::Text;
use am_model::config::Config;
use am_model::views::RowView;
use am_mute::silence::Silence;
use am_retry::Answer;

/// The latest end of a rehearsal: 366 days, in milliseconds.
///
/// So an outage without an end is tried a bounded number of times.
pub const MAX_UNTIL: u64 = 31_622_400_000;

/// A configuration, what happens to it, and how its integrations answer.
#[derive(Drop)]
pub struct Rehearsal {
    pub config: Config,
    /// The last time at which something happens, except the ends of notices in flight; at most
    /// `MAX_UNTIL`.
    pub until: u64,
    pub upkeep: Upkeep,
    /// The planned actions, in the order of their times.
    pub plans: Vec<TimedAction>,
    /// The outages. If two cover an attempt, the first one answers.
    pub outages: Vec<Outage>,
    ghost ends: { until ≤ MAX_UNTIL },
}

/// How often a dispatcher tidies up, in milliseconds; not zero.
#[derive(Clone, Copy)]
pub struct Upkeep {
    /// The time between two maintenances.
    pub maintain: u64,
    /// The time between two ticks, at which empty groups are removed.
    pub remove_empty_groups: u64,
    ghost continues: { 1 ≤ maintain },
    ghost ticks: { 1 ≤ remove_empty_groups },
}

/// An action and its time.
#[derive(Drop)]
pub struct TimedAction {
    pub at: u64,
    pub act: Action,
}

/// An alert, a silence or a log row that a rehearsal puts into its board.
#[derive(Drop)]
pub enum Action {
    /// An alert is inserted, for the first time or again, as when it is resolved.
    Insert(Alert),
    /// A silence is set.
    Silence(Silence),
    /// A row that the log of the dispatcher before it had is put into the log.
    Load(RowView),
}

/// How an integration answers the attempts of a span.
#[derive(Drop)]
pub struct Outage {
    /// The name of the integration's receiver.
    pub receiver: Text,
    /// Its position in the receiver; none means every integration.
    pub integration: Option<u32>,
    /// The first time that it covers.
    pub from: u64,
    /// The first time that it no longer covers; none means that it has no end.
    pub to: Option<u64>,
    pub answer: Answer,
    /// How long an attempt takes, in milliseconds.
    pub takes: u64,
}
