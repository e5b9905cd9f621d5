//! The status of a label set: what mutes it, and where it goes.

use am_alerts::sequence::Sequence;
use am_mute::mute::MuteCause;

/// What mutes a label set at a time, and its routes.
#[derive(Debug, Drop)]
pub struct LabelStatus {
    /// The time of the board, in milliseconds.
    pub time: u64,
    /// Each silence that mutes it, then each inhibition rule that does, in their order.
    pub mutes: Sequence<MuteCause>,
    /// Its routes, by position.
    pub routes: Sequence<RouteStatus>,
}

/// A route of a label set.
#[derive(Clone, Copy, Debug, PartialEq, Eq)]
pub struct RouteStatus {
    /// The position of the route.
    pub route: u32,
    /// Until when its time intervals mute it, in milliseconds, if they do.
    pub muted_until: Option<u64>,
}
