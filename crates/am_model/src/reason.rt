//! `Reason`: why a begin notifies an integration, or why not. Previews have one for each
//! integration.
ghost use Rattle.std.specs.Prelude.{◌≡◌};
ghost use Rattle.am_model.specs.look_back.Reasons.{notifies};

/// Why a begin that takes a group notifies an integration of its receiver, or why not.
///
/// Where no time interval mutes the group's route, it is the first case of
/// `notify.DedupStage.needsUpdate` that applies. Exactly one applies. The
/// entry is the log row of the group and the integration; the alerts are those of the group that
/// are neither silenced nor inhibited.
#[derive(Clone, Copy, Debug, PartialEq, Eq)]
pub enum Reason {
    /// There is no entry, and an alert fires.
    FirstNotice,
    /// An alert fires that the entry doesn't have as firing.
    NewAlert,
    /// Alerts are left, none of them fires, and the entry has some as firing.
    AllResolved,
    /// Alerts fire, and the entry has all of them as firing. A resolved one isn't in it as
    /// resolved, and the integration is notified of resolved alerts.
    NewlyResolved,
    /// Alerts fire and nothing is new, and the entry is older than the route's `repeat_interval`.
    Repeat,
    /// Not notified: every alert of the group is silenced or inhibited, or there is none.
    NothingLeft,
    /// Not notified: alerts are left, none of them fires, and no entry has any as firing.
    NothingFiring,
    /// Not notified: alerts fire and nothing is new, and the entry isn't older than
    /// `repeat_interval`.
    NotYet {
        /// The first time, in milliseconds, at which a begin would repeat it, if nothing changes
        /// until then.
        from: u64,
    },
    /// Not notified: a time interval mutes the group's route.
    RouteMuted {
        /// The first time, in milliseconds, at which it isn't muted.
        until: u64,
    },
}

impl Reason {
    /// Returns whether an integration is notified for this reason.
    pub fn notifies(&self) -> bool
        ensures { result ≡ notifies self.now }
    {
        match self {
            Reason::FirstNotice
            | Reason::NewAlert
            | Reason::AllResolved
            | Reason::NewlyResolved
            | Reason::Repeat => true,
            Reason::NothingLeft
            | Reason::NothingFiring
            | Reason::NotYet { .. }
            | Reason::RouteMuted { .. } => false,
        }
    }
}
