//! Known alerts: a table by label set. Contracts see it as the list in the order of arrival, so a
//! look-up is `position` and a put is `upsert` of the definitions.
//!
//! Invariant: each alert is under its labels.
ghost use Rattle.std.specs.Prelude.{◌≡◌, ◌<◌, ◌≤◌, [], count_by, length, not, position, slice_index_or, IfSome, OnOk, Some};
ghost use Rattle.am_alerts.specs.Labels.{same_label_set};
ghost use Rattle.am_board.specs.Forgetting.{is_idle_but_for};
ghost use Rattle.am_model.specs.Insert.{same_alert};
ghost use Rattle.am_model.specs.Lists.{upsert, without};

use am_alerts::alert::Alert;
use am_alerts::labels::Labels;
use am_seed::Seed;
use indexmap::{IndexMap, IndexSet};
use std::alloc::{AllocError, Global};
use std::marker::Model;

/// The known alerts, each label set once, in the order of arrival.
#[derive(Drop)]
pub(crate) struct Known {
    alerts: IndexMap<Labels, Alert, Seed>,
}

impl Model for Known {
    ghost use Rattle.std.specs.Map.{values_of};
    ghost use Rattle.indexmap.specs.IndexMap.{spare};
    ghost use Rattle.am_board.specs.Keyed.{AreKeyed};
    ghost use Rattle.am_board.specs.Known.{KnownAlerts, labels_of};

    ghost Value = { KnownAlerts };

    ghost view = { λ k. record { items = values_of k.alerts.entries; space = spare k.alerts } };

    ghost invariant = { λ k. AreKeyed labels_of k.alerts.entries };
}

impl Known {
    /// No alerts.
    pub(crate) fn new(alloc: Global, seed: Seed) -> Known
        ensures { result.items ≡ [] }
    {
        Known {
            alerts: IndexMap::with_hasher(alloc, seed),
        }
    }

    /// How many alerts are known.
    pub(crate) fn len(&self) -> usize
        ensures { result ≡ length self.now.items }
    {
        self.as_slice().len()
    }

    /// The alerts, in the order in which their labels first came.
    pub(crate) fn as_slice(&self) -> &[Alert]
        ensures value { result.now ≡ self.now.items }
    {
        self.alerts.values().as_slice()
    }

    /// The alert at an index.
    pub(crate) fn at(&self, i: usize) -> &Alert
        requires { i < length self.now.items }
        ensures { result.now ≡ slice_index_or self.now.items i result.now }
    {
        &self.as_slice()[i]
    }

    /// The index of the alert with these labels.
    pub(crate) fn find(&self, labels: &Labels) -> Option<usize>
        ensures index { result ≡ position (λ a. same_label_set labels.now a.labels) self.now.items }
        ensures within { IfSome result (λ i. i < length self.now.items) }
    {
        self.alerts.get_index_of(labels)
    }

    /// Reserves memory for so many more alerts.
    pub(crate) fn reserve(&mut self, more: usize) -> Result<(), AllocError>
        ensures items { self.new.items ≡ self.old.items }
        ensures space { OnOk result (more ≤ self.new.space) }
    {
        self.alerts.reserve(more)
    }

    /// Puts an alert in place of the one that is known at an index, or adds it under its labels.
    pub(crate) fn put(&mut self, index: Option<usize>, labels: Labels, alert: Alert)
        requires labels { labels ≡ alert.labels }
        requires index { index ≡ position (same_alert alert) self.old.items }
        requires within { IfSome index (λ i. i < length self.old.items) }
        requires space { 0 < self.old.space }
        ensures { self.new.items ≡ upsert same_alert alert self.old.items }
    {
        match index {
            Some(i) => self.alerts[i] = alert,
            None => {
                self.alerts.insert(labels, alert).unwrap();
            }
        }
    }

    /// Puts an alert in place of the one with its labels, which is known at an index.
    pub(crate) fn replace(&mut self, i: usize, alert: Alert)
        requires index { Some i ≡ position (same_alert alert) self.old.items }
        requires within { i < length self.old.items }
        ensures { self.new.items ≡ upsert same_alert alert self.old.items }
    {
        self.alerts[i] = alert;
    }

    /// Removes the alerts that are resolved at `t` and whose label set isn't one of these. Returns
    /// how many.
    pub(crate) fn drop_idle(&mut self, sets: &IndexSet<Labels, Seed>, t: u64) -> usize
        ensures items { self.new.items ≡ without (is_idle_but_for sets.now.keys t) self.old.items }
        ensures count { result ≡ count_by (is_idle_but_for sets.now.keys t) self.old.items }
    {
        let before = self.alerts.len();
        self.alerts.retain(
            |_labels: &Labels, alert: &mut Alert| -> bool
                ensures { (result ≡ not (is_idle_but_for sets.entry.now.keys t alert.old)) × (alert.new ≡ alert.old) }
            { !is_idle(alert, sets, t) },
        );
        before - self.alerts.len()
    }
}

/// Whether an alert is resolved at `t`, and its label set isn't one of these.
pub(crate) fn is_idle(alert: &Alert, sets: &IndexSet<Labels, Seed>, t: u64) -> bool
    ensures { result ≡ is_idle_but_for sets.now.keys t alert.now }
{
    alert.resolved_at(t) && !sets.contains(alert.labels())
}
