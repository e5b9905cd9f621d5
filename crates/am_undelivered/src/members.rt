//! `Members`: the label sets of each group of a dispatcher. Contracts see them as `MembersData`: the dispatcher's position and
//! configuration, and the label sets that were added.
//!
//! Invariant: a group has exactly those that a route leads to it.
ghost use Rattle.std.specs.Prelude.{◌≡◌, ◌≤◌, ◌&&◌, ◌||◌, [], All, ℕ, List, OnOk};
ghost use Rattle.std.specs.List.{list_any};
ghost use Rattle.am_alerts.specs.Labels.{same_label_set};
ghost use Rattle.am_alerts.specs.RoutingTree.{last_of};
ghost use Rattle.am_alerts.specs.declared.labels.Label.{Label};
ghost use Rattle.am_model.specs.Insert.{name_in};
ghost use Rattle.am_model.specs.State.{same_name};
ghost use Rattle.am_model.specs.declared.group.GroupName as named;
ghost use Rattle.am_undelivered.specs.Spans.{has_member, held, with_member};
ghost use Rattle.am_undelivered.specs.Sets.{is_among};

use crate::label_sets::LabelSets;
use am_alerts::labels::Labels;
use am_model::config::Config;
use am_model::group::GroupName;
use am_seed::Seed;
use std::alloc::{AllocError, Global};
use std::collections::HashMap;
use std::marker::Model;

/// The label sets of each group of a dispatcher.
#[derive(Drop)]
pub(crate) struct Members<'s> {
    alloc: Global,
    seed: Seed,
    part: usize,
    config: &'s Config,
    lists: HashMap<GroupName, Vec<Labels>, Seed>,
    added: LabelSets,
}

impl<'s> Model for Members<'s> {
    ghost use Rattle.std.specs.Coded.{codes};
    ghost use Rattle.std.specs.Prelude.{◌≡◌, ◌&&◌, List};
    ghost use Rattle.am_alerts.specs.Labels.{same_label_set};
    ghost use Rattle.am_alerts.specs.Layout.{forest_code};
    ghost use Rattle.am_alerts.specs.declared.labels.Label.{Label};
    ghost use Rattle.am_model.specs.look_back.Presence.{goes_to};
    ghost use Rattle.am_model.specs.declared.group.GroupName as named;
    ghost use Rattle.am_undelivered.specs.Spans.{MembersData, held};
    ghost use Rattle.am_undelivered.specs.Sets.{is_among};

    ghost Value = { MembersData };

    ghost coded = { Prim.hlevel (codes, forest_code) };

    ghost view = { λ m. record { part = m.part; config = m.config.now; sets = m.added } };

    ghost invariant = { λ m. (name : named.GroupName) (labels : List Label)
        → is_among labels (held m.lists name) ≡ (is_among labels m.added && goes_to m.config.now name labels) };
}

impl<'s> Members<'s> {
    /// Returns those of the dispatcher at a position: no label set was added yet.
    pub(crate) fn new(alloc: Global, seed: Seed, part: usize, config: &'s Config) -> Members<'s>
        ensures { result ≡ record { part = part; config = config.now; sets = [] } }
    {
        Members {
            alloc,
            seed,
            part,
            config,
            lists: HashMap::with_hasher(alloc, seed),
            added: LabelSets::new(alloc, seed),
        }
    }

    /// Returns the position of the dispatcher.
    pub(crate) fn part(&self) -> usize
        ensures { result ≡ self.now.part }
    {
        self.part
    }

    /// Returns the configuration.
    pub(crate) fn config(&self) -> &'s Config
        ensures { result.now ≡ self.now.config }
    {
        self.config
    }

    /// Adds a label set to its groups, unless it was added. On a failure it may have none.
    pub(crate) fn add(&mut self, labels: &Labels) -> Result<(), AllocError>
        ensures { OnOk result (self.new ≡ with_member labels.now self.old) }
    {
        if self.added.has(labels) {
            return Ok(());
        }
        let positions = self.config.routes.of(self.alloc, labels)?;
        self.added.add(labels)?;
        match add_to_all(
            self.alloc,
            self.config,
            labels,
            positions.as_slice(),
            &mut self.lists,
        ) {
            Ok(()) => Ok(()),
            Err(error) => {
                // Some of its groups may have it.
                *self = Members::new(self.alloc, self.seed, self.part, self.config);
                Err(error)
            }
        }
    }

    /// The label sets of a group.
    pub(crate) fn in_group(&self, name: &GroupName) -> &[Labels]
        ensures { (labels : List Label) → is_among labels result.now ≡ has_member self.now name.now labels }
    {
        match self.lists.get(name) {
            None => &[],
            Some(list) => list.as_slice(),
        }
    }
}

/// Adds a label set to its groups of the routes at these positions.
fn add_to_all(
    alloc: Global,
    config: &Config,
    labels: &Labels,
    positions: &[u32],
    lists: &mut HashMap<GroupName, Vec<Labels>, Seed>,
) -> Result<(), AllocError>
    requires { All (λ p. p ≤ last_of config.now.routes) positions.now }
    ensures { OnOk result ((name : named.GroupName) (l : List Label) → is_among l (held lists.new name)
        ≡ (is_among l (held lists.old name) || (same_label_set labels.now l
        && list_any (λ p. same_name name (name_in config.now labels.now p)) positions.now))) }
{
    for position in positions {
        let group = GroupName {
            route: *position,
            labels: config.routes.group_labels(alloc, *position, labels)?,
        };
        add_to(alloc, labels, group, lists)?;
    }
    Ok(())
}

/// Adds a label set to a group.
fn add_to(
    alloc: Global,
    labels: &Labels,
    group: GroupName,
    lists: &mut HashMap<GroupName, Vec<Labels>, Seed>,
) -> Result<(), AllocError>
    ensures { OnOk result ((name : named.GroupName) (l : List Label) → is_among l (held lists.new name)
        ≡ (is_among l (held lists.old name) || (same_label_set labels.now l && same_name name group))) }
{
    let added = labels.copy(alloc)?;
    match lists.get_mut(&group) {
        Some(list) => list.push(added)?,
        None => {
            let list = vec![in alloc; added]?;
            lists.insert(group, list)?;
        }
    }
    Ok(())
}
