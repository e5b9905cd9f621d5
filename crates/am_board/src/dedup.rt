//! Which integrations need an update, and why, by the log (`notify.DedupStage`).
//!
//! Where the group's route is muted, or nothing is unmuted, none does (`common_reason`). Else one walk
//! over the integrations finds the reason of each. `update_reason` of `am_nflog` alone decides: an
//! integration is notified if its reason says so. It compares the label sets where they are in the
//! group.
ghost use Rattle.std.specs.Prelude.{◌≡◌, ℕ, ◌+◌, ◌<◌, ◌≤◌, ◌^◌, ◌++◌, ◌∷◌, [], IfOk, IfSome, OnOk, false, true, if◌then◌else◌};
ghost use Rattle.std.specs.Prelude.{None};
ghost use Rattle.std.specs.Option.{option_copied};
ghost use Rattle.am_alerts.specs.RoutingTree.{last_of};
ghost use Rattle.am_model.specs.Configured.{integrations_of};
ghost use Rattle.am_model.specs.look_back.Reasons.{notifies, reason_of_update};
ghost use Rattle.am_board.specs.Beginning.{AreRising, alert_sets_of, copies_of};
ghost use Rattle.am_board.specs.Dedup.{EndsInTime, AreDecided, common_reason, is_nothing, reason_for, reason_by_row};
ghost use Rattle.am_board.specs.Look.{IsLook, state_seen};

use crate::group::GroupName;
use crate::look::Look;
use crate::reason::Reason;
use crate::unmuted::UnmutedMembers;
use am_alerts::labels::Labels;
use am_nflog::{LogKey, LogRow, UpdateReason, update_reason};
use std::alloc::{AllocError, Global};

/// An integration that needs an update.
#[derive(Clone, Copy)]
pub(crate) struct Update {
    pub(crate) integration: u32,
    pub(crate) send_resolved: bool,
}

/// Those of a receiver's integrations that need an update, and why each does or doesn't, if that is
/// wanted.
#[derive(Drop)]
pub(crate) struct Decided {
    pub(crate) reasons: Vec<Reason>,
    pub(crate) notified: Vec<Update>,
}

impl Decided {
    /// No integration needs an update, and no reason is wanted.
    fn nobody(alloc: Global) -> Decided
        ensures reasons { result.reasons.items ≡ [] }
        ensures notified { result.notified.items ≡ [] }
    {
        Decided {
            reasons: Vec::new(alloc),
            notified: Vec::new(alloc),
        }
    }
}

/// Decides whether each integration of a group's receiver needs an update about what is unmuted, and
/// why. None does where the group's route is muted until a time.
pub(crate) fn decide(
    look: &Look,
    group: &GroupName,
    muted_until: Option<u64>,
    unmuted: &UnmutedMembers,
) -> Result<Decided, AllocError>
    requires look { IsLook look.now }
    requires rising { AreRising (copies_of look.now.t unmuted.now) }
    requires route { group.now.route ≤ last_of look.now.config.now.routes }
    ensures { IfOk result (AreDecided look.now.why
        (reason_for look.now.config.now (state_seen look.now) group.now muted_until
        (alert_sets_of (copies_of look.now.t unmuted.now)) look.now.t)
        (integrations_of look.now.config.now group.now)) }
{
    match common_reason(muted_until, unmuted) {
        Some(reason) => decide_alike(look, group, reason),
        None => decide_each(look, group, unmuted),
    }
}

/// Returns the reason that all integrations have, where there is one for which none is notified.
fn common_reason(muted_until: Option<u64>, unmuted: &UnmutedMembers) -> Option<Reason>
    ensures { (t : ℕ) → result ≡ common_reason muted_until (alert_sets_of (copies_of t unmuted.now)) }
{
    if let Some(until) = muted_until {
        return Some(Reason::RouteMuted { until });
    }
    if unmuted.is_empty() {
        Some(Reason::NothingLeft)
    } else {
        None
    }
}

/// Decides that no integration is notified, for this reason.
fn decide_alike(look: &Look, group: &GroupName, reason: Reason) -> Result<Decided, AllocError>
    requires { notifies reason ≡ false }
    ensures { IfOk result (AreDecided look.now.why (λ i. reason) (integrations_of look.now.config.now group.now)) }
{
    if !look.why {
        return Ok(Decided::nobody(look.alloc));
    }
    let integrations = look.config.integrations_of(group);
    let mut reasons = Vec::with_capacity(look.alloc, integrations.len())?;
    for _ in integrations {
        reasons.push(reason)?;
    }
    Ok(Decided {
        reasons,
        notified: Vec::new(look.alloc),
    })
}

/// Decides for each integration by its row of the log.
fn decide_each(
    look: &Look,
    group: &GroupName,
    unmuted: &UnmutedMembers,
) -> Result<Decided, AllocError>
    requires look { IsLook look.now }
    requires rising { AreRising (copies_of look.now.t unmuted.now) }
    requires some { is_nothing (alert_sets_of (copies_of look.now.t unmuted.now)) ≡ false }
    requires route { group.now.route ≤ last_of look.now.config.now.routes }
    ensures { IfOk result (AreDecided look.now.why
        (reason_for look.now.config.now (state_seen look.now) group.now None (alert_sets_of (copies_of look.now.t unmuted.now)) look.now.t)
        (integrations_of look.now.config.now group.now)) }
{
    let route = look.config.routes.route(group.route);
    let repeat_interval = route.repeat_interval;
    let integrations = look.config.integrations_of(group);
    let wanted = if look.why { integrations.len() } else { 0 };
    let mut reasons = Vec::with_capacity(look.alloc, wanted)?;
    let mut notified = Vec::new(look.alloc);
    let mut key = LogKey {
        group: group.copy(look.alloc)?,
        integration: 0,
    };
    for integration in integrations {
        let row = look.state.log.get(&key);
        let update = Update {
            integration: key.integration,
            send_resolved: integration.send_resolved,
        };
        let reason = reason(row, unmuted, update.send_resolved, repeat_interval, look.t);
        push_if(&mut reasons, look.why, reason)?;
        push_if(&mut notified, reason.notifies(), update)?;
        key.integration += 1;
    }
    Ok(Decided { reasons, notified })
}

/// Adds an item to a list, if it is wanted there.
fn push_if<T: Copy>(list: &mut Vec<T>, is_wanted: bool, item: T) -> Result<(), AllocError>
    ensures { OnOk result (list.new.items ≡ list.old.items ++ (if is_wanted then item ∷ [] else [])) }
{
    if !is_wanted {
        return Ok(());
    }
    list.push(item)?;
    Ok(())
}

/// Returns why an integration with this log row is notified about what is unmuted, or why not.
fn reason(
    logged: Option<&LogRow<Labels>>,
    unmuted: &UnmutedMembers,
    send_resolved: bool,
    repeat_interval: u64,
    t: u64,
) -> Reason
    requires rising { AreRising (copies_of t unmuted.now) }
    requires some { is_nothing (alert_sets_of (copies_of t unmuted.now)) ≡ false }
    requires fits { IfSome (option_copied logged) (λ row. row.time + repeat_interval + 1 < 2 ^ 64) }
    ensures { result
        ≡ reason_by_row (option_copied logged.entry) (alert_sets_of (copies_of t unmuted.now)) send_resolved repeat_interval t }
{
    let firing = unmuted.firing.as_slice();
    let resolved = unmuted.resolved.as_slice();
    let update = update_reason(logged, firing, resolved, send_resolved, repeat_interval, t);
    reason_of_update(update, repeat_interval)
}

/// Returns the reason of an update, or of none, under this repeat interval.
fn reason_of_update(update: UpdateReason, repeat_interval: u64) -> Reason
    requires { EndsInTime repeat_interval update }
    ensures { result ≡ reason_of_update repeat_interval update }
{
    match update {
        UpdateReason::FirstNotice => Reason::FirstNotice,
        UpdateReason::NewAlert => Reason::NewAlert,
        UpdateReason::AllResolved => Reason::AllResolved,
        UpdateReason::NewlyResolved => Reason::NewlyResolved,
        UpdateReason::Repeat => Reason::Repeat,
        UpdateReason::NothingFiring => Reason::NothingFiring,
        UpdateReason::NotYet { since } => Reason::NotYet {
            from: since + repeat_interval + 1,
        },
    }
}
