//! The configuration of a dispatcher: receivers, rules, limits.
ghost use Rattle.std.specs.Prelude.{◌≡◌, ◌≤◌, ◌↔◌, ◌++◌, IsTrue, OnOk, find, string_bytes};
ghost use Rattle.std.specs.List.{list_all, list_any};
ghost use Rattle.std.specs.Option.{option_copied};
ghost use Rattle.std.specs.Str.{bytes_eq};
ghost use Rattle.am_alerts.specs.Fault.{ok_unless};
ghost use Rattle.am_alerts.specs.RoutingTree.{last_of};
ghost use Rattle.am_model.specs.Config.{AreAllowed, IsWithin, is_within, are_allowed, has_receiver, has_receivers};
ghost use Rattle.am_model.specs.Config.{has_many_integrations, has_good_kinds, default_limits, greatest_limits};
ghost use Rattle.am_model.specs.Config.{receivers_fault, bounds_fault, config_fault, kind_at};
ghost use Rattle.am_model.specs.Configured.{route_of, route_muted, integrations_named, integration_text};

mod receivers;

use crate::group::GroupName;
use am_alerts::labels::is_label_name;
use am_alerts::limits::{MAX_DURATION, MAX_ROUTES};
use am_alerts::route::{Child, Route, Routes};
use am_alerts::sequence::Sequence;
use am_alerts::spans::muted_until;
use am_alerts::text::Text;
use am_mute::inhibit::InhibitRule;
pub use receivers::Receivers;
use std::alloc::AllocError;
use thiserror::Error;

/// The greatest number of receivers of a configuration.
pub const MAX_RECEIVERS: usize = 4_096;

/// The greatest number of integrations of a receiver.
pub const MAX_INTEGRATIONS: usize = 64;

/// The greatest number of inhibition rules of a configuration.
pub const MAX_RULES: usize = 4_096;

/// The greatest number of known alerts.
pub const MAX_ALERTS: usize = 4_000_000;

/// The greatest number of groups.
pub const MAX_GROUPS: usize = 500_000;

/// The greatest number of silences.
pub const MAX_SILENCES: usize = 65_536;

/// The greatest number of open flushes.
pub const MAX_FLUSHES: usize = 500_000;

/// The greatest number of records that a board keeps.
pub const MAX_HISTORY: usize = 64_000_000;

/// The greatest number of records that a board hands out.
///
/// The stamps of inserts and the numbers of flushes grow with the calls of a board's whole life.
pub const MAX_HANDED: usize = 1_000_000_000_000_000;

/// One way by which a receiver is notified.
#[derive(Debug, Drop)]
pub struct Integration {
    /// Its kind, as `hook`. It has the form of a label name.
    pub kind: Text,
    /// Whether it is notified of resolved alerts too.
    pub send_resolved: bool,
}

/// A receiver: a name, and the integrations that are notified, each by itself.
#[derive(Debug, Drop)]
pub struct Receiver {
    pub name: Text,
    pub integrations: Sequence<Integration>,
}

/// The limits of a dispatcher. Each is at least 1 and at most its greatest value.
///
/// Memory isn't taken before it is needed: a limit says when a call is refused.
#[derive(Clone, Copy, Debug, PartialEq, Eq)]
pub struct Limits {
    /// Known alerts.
    pub alerts: usize,
    pub groups: usize,
    pub silences: usize,
    /// Open flushes.
    pub flushes: usize,
    /// Records of the history.
    pub history: usize,
}

impl Default for Limits {
    ghost is_default = { λ limits. limits ≡ default_limits };

    /// Returns the limits of a small dispatcher.
    fn default() -> Limits {
        Limits {
            alerts: 65_536,
            groups: 4_096,
            silences: 1_024,
            flushes: 64,
            history: 1_048_576,
        }
    }
}

/// The configuration of a dispatcher.
#[derive(Debug, Drop)]
pub struct Config {
    pub routes: Routes,
    pub receivers: Receivers,
    pub rules: Sequence<InhibitRule>,
    /// How long a log row stays at most, in milliseconds.
    pub retention: u64,
    pub limits: Limits,
}

/// Why a configuration is rejected: the first cause that applies, in this order.
#[derive(Clone, Copy, Debug, PartialEq, Eq, Error)]
pub enum ConfigFault {
    #[error("a route names a receiver that isn't there")]
    UnknownReceiver = 1,
    #[error("two receivers have one name")]
    ReceiverTwice = 2,
    #[error("there are too many receivers")]
    TooManyReceivers = 3,
    #[error("a receiver has too many integrations")]
    TooManyIntegrations = 4,
    #[error("the kind of an integration is no label name")]
    BadKind = 5,
    #[error("there are too many inhibition rules")]
    TooManyRules = 6,
    #[error("the retention is zero or above 10^12")]
    BadRetention = 7,
    #[error("a limit is zero or above its greatest value")]
    BadLimit = 8,
}

/// Returns the kind of the integration at a position, or the empty text where there is none.
pub fn kind_at(integrations: &[Integration], position: usize) -> &str
    ensures { result.now ≡ kind_at integrations.now position }
{
    match integrations.get(position) {
        None => "",
        Some(integration) => integration.kind.as_str(),
    }
}

impl Config {
    /// Returns the receiver of this name, if there is one.
    pub fn receiver(&self, name: &str) -> Option<&Receiver>
        ensures { option_copied result ≡ find (λ r. bytes_eq r.name name.now) self.now.receivers }
    {
        self.receivers.named(name)
    }

    /// Returns the route of a group, or the root where no route has the group's position.
    ///
    /// A group of a board has one.
    pub fn route_of(&self, group: &GroupName) -> &Route
        ensures { result.now ≡ route_of self.now group.now }
    {
        if group.route <= self.routes.last() {
            self.routes.route(group.route)
        } else {
            self.routes.root()
        }
    }

    /// Returns until when a group's route is muted at a time, in milliseconds, if it is.
    pub fn route_muted(&self, group: &GroupName, t: u64) -> Option<u64>
        ensures { result ≡ route_muted self.now group.now t }
    {
        if group.route <= self.routes.last() {
            muted_until(self.routes.muted(group.route), t)
        } else {
            None
        }
    }

    /// Returns the integrations of a group's receiver, or none where there is no such receiver.
    ///
    /// A group of a board has one.
    pub fn integrations_of(&self, group: &GroupName) -> &[Integration]
        ensures { result.now ≡ integrations_named (route_of self.now group.now).receiver self.now.receivers }
    {
        match self.receiver(self.route_of(group).receiver.as_str()) {
            None => &[],
            Some(receiver) => receiver.integrations.as_slice(),
        }
    }

    /// Returns the integrations of the receiver of this name, or none where there is none.
    pub fn integrations_named(&self, name: &str) -> &[Integration]
        ensures { result.now ≡ integrations_named name.now self.now.receivers }
    {
        match self.receiver(name) {
            None => &[],
            Some(receiver) => receiver.integrations.as_slice(),
        }
    }

    /// Adds an integration of a group's receiver: its kind, `/` and its position.
    pub fn push_integration(
        &self,
        group: &GroupName,
        position: usize,
        out: &mut String,
    ) -> Result<(), AllocError>
        ensures { OnOk result (string_bytes out.new
            ≡ string_bytes out.old ++ integration_text self.now group.now position) }
    {
        out.push_str(kind_at(self.integrations_of(group), position))?;
        out.push_str("/")?;
        write!(out, "{position}")
    }

    /// Returns whether a dispatcher can have this configuration. Never allocates.
    ///
    /// # Errors
    ///
    /// The first cause that applies, in the order of `ConfigFault`.
    pub fn check(&self) -> Result<(), ConfigFault>
        ensures fault { result ≡ ok_unless (config_fault self.now) tt }
        ensures few { last_of self.now.routes ≤ MAX_ROUTES }
        ensures limits { OnOk result (AreAllowed self.now.limits) }
    {
        self.check_receivers()?;
        self.check_bounds()
    }

    /// Refuses the routes' receivers and the receivers themselves.
    fn check_receivers(&self) -> Result<(), ConfigFault>
        ensures fault { result ≡ ok_unless (receivers_fault self.now) tt }
        ensures few { last_of self.now.routes ≤ MAX_ROUTES }
    {
        let receivers = self.receivers.as_slice();
        if !self.has_receivers() {
            return Err(ConfigFault::UnknownReceiver);
        }
        if self.receivers.has_twice() {
            return Err(ConfigFault::ReceiverTwice);
        }
        if receivers.len() > MAX_RECEIVERS {
            return Err(ConfigFault::TooManyReceivers);
        }
        if has_many_integrations(receivers) {
            return Err(ConfigFault::TooManyIntegrations);
        }
        if !have_good_kinds(receivers) {
            return Err(ConfigFault::BadKind);
        }
        Ok(())
    }

    /// Refuses the number of rules, the retention and the limits.
    fn check_bounds(&self) -> Result<(), ConfigFault>
        ensures fault { result ≡ ok_unless (bounds_fault self.now) tt }
        ensures limits { OnOk result (AreAllowed self.now.limits) }
    {
        if self.rules.len() > MAX_RULES {
            return Err(ConfigFault::TooManyRules);
        }
        if self.retention == 0 || self.retention > MAX_DURATION {
            return Err(ConfigFault::BadRetention);
        }
        if !self.limits.are_allowed() {
            return Err(ConfigFault::BadLimit);
        }
        Ok(())
    }

    /// Whether each route's receiver is there.
    fn has_receivers(&self) -> bool
        ensures value { result ≡ has_receivers self.now }
        ensures few { last_of self.now.routes ≤ MAX_ROUTES }
    {
        let receivers = &self.receivers;
        let children = self.routes.children();
        receivers.has(self.routes.root().receiver.as_str()) && have_receivers(receivers, children)
    }
}

/// Whether the receiver of each of these routes is there.
fn have_receivers(receivers: &Receivers, children: &[Child]) -> bool
    ensures { result ≡ list_all (λ c. has_receiver receivers.now c.route.receiver) children.now }
{
    children
        .iter()
        .all(|child| receivers.has(child.route.receiver.as_str()))
}

/// Whether a receiver has more integrations than it may.
fn has_many_integrations(receivers: &[Receiver]) -> bool
    ensures { result ≡ list_any has_many_integrations receivers.now }
{
    receivers
        .iter()
        .any(|r| r.integrations.len() > MAX_INTEGRATIONS)
}

/// Whether the kinds of all integrations have the form of label names.
fn have_good_kinds(receivers: &[Receiver]) -> bool
    ensures { result ≡ list_all has_good_kinds receivers.now }
{
    receivers.iter().all(|receiver| receiver.has_good_kinds())
}

impl Receiver {
    fn has_good_kinds(&self) -> bool
        ensures { result ≡ has_good_kinds self.now }
    {
        self.integrations
            .as_slice()
            .iter()
            .all(|i| is_label_name(i.kind.as_str()))
    }
}

impl Limits {
    /// Returns the greatest limits that a dispatcher may have. No group waits for the flush of another.
    pub fn greatest() -> Limits
        ensures { result ≡ greatest_limits }
    {
        Limits {
            alerts: MAX_ALERTS,
            groups: MAX_GROUPS,
            silences: MAX_SILENCES,
            flushes: MAX_FLUSHES,
            history: MAX_HISTORY,
        }
    }

    fn are_allowed(&self) -> bool
        ensures value { result ≡ are_allowed self.now }
        ensures exact { IsTrue result ↔ AreAllowed self.now }
    {
        is_within(self.alerts, MAX_ALERTS)
            && is_within(self.groups, MAX_GROUPS)
            && is_within(self.silences, MAX_SILENCES)
            && is_within(self.flushes, MAX_FLUSHES)
            && is_within(self.history, MAX_HISTORY)
    }
}

fn is_within(limit: usize, most: usize) -> bool
    ensures value { result ≡ is_within limit most }
    ensures exact { IsTrue result ↔ IsWithin limit most }
{
    1 <= limit && limit <= most
}
