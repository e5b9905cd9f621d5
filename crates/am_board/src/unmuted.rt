//! What is unmuted in a group: its alerts that are neither silenced nor inhibited, and none where a
//! time interval mutes its route (the mute stages and the time stages of `notify`).
//!
//! `UnmutedMembers` are references, by which it is decided whom to notify. Only where an
//! integration is to be notified is an `Unmuted` made of them, and the label sets: a begin that
//! notifies nobody copies no alert.
ghost use Rattle.std.specs.Prelude.{◌≡◌, ℕ, ◌&&◌, [], IfOk, filter, map};
ghost use Rattle.std.specs.List.{IsDistinct};
ghost use Rattle.am_alerts.specs.AlertData.{is_resolved};
ghost use Rattle.am_nflog.specs.Members.{is_empty};
ghost use Rattle.am_model.specs.Begin.{alert_cmp, copied, label_sets};
ghost use Rattle.am_board.specs.Beginning.{AreRising, alert_sets_of, copies_at, leaving_member, sent_where, copies_of};
ghost use Rattle.am_model.specs.Insert.{same_alert};
ghost use Rattle.am_model.specs.Lists.{in_order};

use crate::flush::{AlertSets, LeavingAlert};
use crate::group::Member;
use am_alerts::alert::Alert;
use am_alerts::labels::Labels;
use am_alerts::sequence::Sequence;
use am_nflog::{Lends, Members};
use std::alloc::{AllocError, Global};

/// The alerts of a group that aren't muted, by labels, as they are in it: those that fire, and
/// those that are resolved.
#[derive(Drop)]
pub(crate) struct UnmutedMembers<'m> {
    pub(crate) firing: Vec<&'m Member>,
    pub(crate) resolved: Vec<&'m Member>,
}

impl<'m> UnmutedMembers<'m> {
    /// Nothing is unmuted.
    pub(crate) fn nothing(alloc: Global) -> UnmutedMembers<'m>
        ensures firing { result.firing.items ≡ [] }
        ensures resolved { result.resolved.items ≡ [] }
    {
        UnmutedMembers {
            firing: Vec::new(alloc),
            resolved: Vec::new(alloc),
        }
    }

    pub(crate) fn is_empty(&self) -> bool
        ensures { (t : ℕ) → result ≡ (is_empty (copies_of t self.now).firing && is_empty (copies_of t self.now).resolved) }
    {
        self.firing.is_empty() && self.resolved.is_empty()
    }

    /// What a flush at `t` copies of this.
    pub(crate) fn copies(&self, alloc: Global, t: u64) -> Result<Unmuted, AllocError>
        ensures { IfOk result (λ unmuted. unmuted ≡ copies_of t self.now) }
    {
        Ok(Unmuted {
            firing: copies_at(alloc, self.firing.as_slice(), t)?,
            resolved: copies_at(alloc, self.resolved.as_slice(), t)?,
        })
    }
}

impl Lends<Labels> for &Member {
    ghost use Rattle.am_board.specs.Beginning.{lent_labels};

    ghost lent = { lent_labels };

    fn lend(&self) -> &Labels {
        self.alert.labels()
    }
}

/// Copies of the alerts of a group that aren't muted, by labels: those that fire, without an end,
/// and those that are resolved.
#[derive(Drop)]
pub(crate) struct Unmuted {
    pub(crate) firing: Sequence<Alert>,
    pub(crate) resolved: Sequence<Alert>,
}

impl Unmuted {
    /// Whether a notice of this has nothing to send.
    pub(crate) fn is_nothing(&self, send_resolved: bool) -> bool
        ensures { result ≡ (is_empty self.now.firing && is_empty (sent_where send_resolved self.now)) }
    {
        self.firing.is_empty() && (!send_resolved || self.resolved.is_empty())
    }

    /// The resolved alerts that are sent.
    pub(crate) fn sent(
        &self,
        alloc: Global,
        send_resolved: bool,
    ) -> Result<Sequence<Alert>, AllocError>
        ensures { IfOk result (λ sent. sent ≡ sent_where send_resolved self.now) }
    {
        if send_resolved {
            self.resolved.copy(alloc)
        } else {
            Ok(Sequence::empty(alloc))
        }
    }

    /// The label sets of this.
    pub(crate) fn sets(&self, alloc: Global) -> Result<AlertSets, AllocError>
        requires { AreRising self.now }
        ensures { IfOk result (λ sets. sets ≡ alert_sets_of self.now) }
    {
        Ok(AlertSets {
            firing: Members::new(alloc, labels_of(alloc, self.firing.as_slice())?)?,
            resolved: Members::new(alloc, labels_of(alloc, self.resolved.as_slice())?)?,
        })
    }
}

/// The members that are resolved at `t`, muted ones too.
pub(crate) fn leaving_at(
    alloc: Global,
    members: &[Member],
    t: u64,
) -> Result<Vec<LeavingAlert>, AllocError>
    ensures { IfOk result (λ leaving. leaving.items ≡ map leaving_member (filter (λ m. is_resolved m.alert t) members.now)) }
{
    let mut leaving = Vec::new(alloc);
    for member in members {
        if member.alert.resolved_at(t) {
            leaving.push(LeavingAlert {
                labels: member.alert.labels().copy(alloc)?,
                stamp: member.stamp,
            })?;
        }
    }
    Ok(leaving)
}

/// Alerts in the order of their labels.
pub(crate) fn by_labels(mut alerts: Vec<Alert>) -> Sequence<Alert>
    ensures { IsDistinct same_alert alerts.items → result ≡ in_order alert_cmp alerts.items }
{
    alerts.sort_unstable_by(|a, b| a.labels().cmp(b.labels()));
    Sequence::from(alerts)
}

/// What a flush at `t` copies of these members.
fn copies_at(alloc: Global, members: &[&Member], t: u64) -> Result<Sequence<Alert>, AllocError>
    ensures { IfOk result (λ copies. copies ≡ copies_at t members.now) }
{
    let mut copies = Vec::with_capacity(alloc, members.len())?;
    for member in members {
        copies.push(copied_at(alloc, &member.alert, t)?)?;
    }
    Ok(Sequence::from(copies))
}

/// What a flush at `t` copies of an alert: one that fires has no end.
fn copied_at(alloc: Global, alert: &Alert, t: u64) -> Result<Alert, AllocError>
    ensures { IfOk result (λ copy. copy ≡ copied t alert.now) }
{
    if alert.resolved_at(t) {
        alert.copy(alloc)
    } else {
        alert.copy_without_end(alloc)
    }
}

/// The label sets of alerts.
fn labels_of(alloc: Global, alerts: &[Alert]) -> Result<Vec<Labels>, AllocError>
    ensures { IfOk result (λ all. all.items ≡ label_sets alerts.now) }
{
    let mut all = Vec::with_capacity(alloc, alerts.len())?;
    for alert in alerts {
        all.push(alert.labels().copy(alloc)?)?;
    }
    Ok(all)
}
