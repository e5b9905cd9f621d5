//! `Remark`: what is said of a begin.
use am_model::reason::Reason;

/// What is said of a begin.
#[derive(Clone, Copy)]
pub(crate) enum Remark {
    /// Nothing is left of the group: it has no alerts, or muted ones.
    NoneLeft,
    /// Some alerts of the group are muted.
    Muted,
    /// The receiver of the group has no integrations.
    NoIntegrations,
    /// The integration at this position isn't asked, for this reason. The begin can be on the edge for it.
    NotAsked {
        integration: usize,
        reason: Reason,
        edge: Option<Edge>,
    },
    /// The integration at this position is asked, but has nothing to send.
    NothingToSend {
        integration: usize,
    },
}

/// A flush that is on the edge for an integration, and the next one: the notice is repeated at one of the two.
#[derive(Clone, Copy)]
pub(crate) struct Edge {
    /// When this one begins, in milliseconds.
    pub(crate) at: u64,
    /// When the next one begins, in milliseconds.
    pub(crate) next: u64,
}
