//! What a begin would do, and why.
//!
//! Muted alerts are listed whether they fire or are resolved. What fires and what is resolved is in
//! the notices of the begin.
use crate::group::GroupName;
use crate::reason::Reason;
use am_alerts::labels::Labels;
use am_alerts::sequence::Sequence;
use am_mute::mute::MuteCause;

/// A muted alert of a group, with its cause.
#[derive(Debug, Drop)]
pub struct MutedAlert {
    /// The alert's label set.
    pub labels: Labels,
    /// The first silence that mutes it, else the first rule.
    pub cause: MuteCause,
}

/// What a begin would do with the group that it would take.
#[derive(Debug, Drop)]
pub struct Preview {
    /// The time of the begin, in milliseconds.
    pub time: u64,
    /// The group that it would take.
    pub group: GroupName,
    /// The group's muted alerts, in the order in which their label sets came into it.
    pub muted: Sequence<MutedAlert>,
    /// Why each integration of the group's receiver is notified or not, by position.
    pub reasons: Sequence<Reason>,
}
