//! A cache of the names of the groups that known alerts go to. When alerts are forgotten their
//! names go, and the others move, since names are by index.
//!
//! A name in it is the group's own shared copy where the group exists. It is not replaced when the
//! group goes: the next group of that name takes it over.
//!
//! Next to a name is where the alert was found in that group (`Destination`). A maintenance moves
//! groups, and a finish alerts: this is a hint, which no contract mentions. An insert looks there
//! first, and compares the name and the labels that it finds (`Groups::spot`). A known alert is then
//! found by one look-up by hash, in the table of known alerts.
ghost use Rattle.std.specs.Prelude.{◌≡◌, ◌<◌, [], IfSome, List, length, position};
ghost use Rattle.am_board.specs.Forgetting.{is_idle_but_for, TestsFirst};
ghost use Rattle.am_alerts.specs.AlertData.{AlertData};
ghost use Rattle.am_alerts.specs.Labels.{same_label_set};
ghost use Rattle.am_alerts.specs.declared.labels.Label.{Label};
ghost use Rattle.am_board.specs.GroupNameCache.{AreKept};
ghost use Rattle.am_mute.specs.Sources.{IsAt};
ghost use Rattle.am_model.specs.Insert.{names_for};
ghost use Rattle.am_model.specs.Lists.{without};
ghost use Rattle.am_model.specs.declared.config.Config.{Config};

use crate::again::Spot;
use crate::group::GroupName;
use crate::known::is_idle;
use am_alerts::alert::Alert;
use am_alerts::labels::Labels;
use am_alerts::sequence::Sequence;
use am_seed::Seed;
use indexmap::IndexSet;
use std::alloc::{AllocError, Global};
use std::marker::Model;
use std::sync::atomic::{AtomicU32, Ordering};

/// The name of a group that a known alert goes to, and where the alert was in that group when it was
/// last looked for.
///
/// Contracts see the name. The alert may have moved since, or be gone. Two atomics take less memory
/// than a `Spot`, and a board stays one that threads can read.
#[derive(Drop)]
pub(crate) struct Destination {
    name: GroupName,
    group: AtomicU32,
    member: AtomicU32,
}

impl Model for Destination {
    ghost use Rattle.am_model.specs.declared.group.GroupName.{GroupName};

    ghost Value = { GroupName };

    ghost view = { λ d. d.name };
}

impl Destination {
    /// A group of this name, in which the alert is here or will be.
    pub(crate) fn new(name: GroupName, spot: Spot) -> Destination
        ensures { result ≡ name }
    {
        Destination {
            name,
            group: AtomicU32::new(number_of(spot.group)),
            member: AtomicU32::new(number_of(spot.member)),
        }
    }

    /// The name of the group.
    pub(crate) fn name(&self) -> &GroupName
        ensures { result.now ≡ self.now }
    {
        &self.name
    }

    /// Where the alert was when it was last looked for.
    pub(crate) fn hint(&self) -> Spot {
        Spot {
            group: self.group.load(Ordering::SeqCst) as usize,
            member: self.member.load(Ordering::SeqCst) as usize,
        }
    }

    /// Notes where the alert is.
    pub(crate) fn note(&self, spot: Spot) {
        self.group.store(number_of(spot.group), Ordering::SeqCst);
        self.member.store(number_of(spot.member), Ordering::SeqCst);
    }
}

/// An index in fewer bytes. Where it is too large there is nothing.
fn number_of(index: usize) -> u32 {
    index.min(u32::MAX as usize) as u32
}

/// The names of the groups that known alerts go to.
///
/// They follow from the label set and the configuration, so they are computed once. This only saves
/// time: names that aren't cached are computed again.
#[derive(Drop)]
pub(crate) struct GroupNameCache {
    /// By the index of the alert among the known ones.
    names: Vec<Option<Sequence<Destination>>>,
}

impl Model for GroupNameCache {
    ghost use Rattle.std.specs.Prelude.{List, Option};
    ghost use Rattle.am_model.specs.declared.group.GroupName.{GroupName};

    ghost Value = { List (Option (List GroupName)) };

    ghost view = { λ d. d.names.items };
}

impl GroupNameCache {
    /// No names.
    pub(crate) fn new(alloc: Global) -> GroupNameCache
        ensures { result ≡ [] }
    {
        GroupNameCache {
            names: Vec::new(alloc),
        }
    }

    /// Returns the cached names of the known alert at an index, if there are any.
    pub(crate) fn of(&self, index: Option<usize>) -> Option<&Sequence<Destination>>
        ensures { (config : Config) (known : List AlertData) (labels : List Label) → AreKept config known self.now
            → index ≡ position (λ a. same_label_set labels a.labels) known
            → IfSome result (λ names. names.now ≡ names_for config labels) }
    {
        let names = self.names.as_slice().get(index?)?;
        names.as_ref()
    }

    /// Caches names for the known alert at an index, if there are any and memory allows.
    pub(crate) fn keep(&mut self, index: usize, names: Option<Sequence<Destination>>)
        ensures { (config : Config) (known : List AlertData) → AreKept config known self.old → index < length known
            → ((a : AlertData) → IsAt known index a → IfSome names (λ names. names ≡ names_for config a.labels))
            → AreKept config known self.new }
    {
        if let Some(names) = names {
            let _ = self.put(index, names);
        }
    }

    /// Puts names at an index. Where there is no memory there are none there.
    fn put(&mut self, index: usize, names: Sequence<Destination>) -> Result<(), AllocError>
        ensures { (config : Config) (known : List AlertData) → AreKept config known self.old → index < length known
            → ((a : AlertData) → IsAt known index a → names ≡ names_for config a.labels) → AreKept config known self.new }
    {
        while self.names.len() <= index {
            self.names.push(None)?;
        }
        self.names[index] = Some(names);
        Ok(())
    }

    /// Drops the names of those of these known alerts that are resolved at `t` and whose label set
    /// isn't one of these. The others move to the indexes that their alerts get.
    pub(crate) fn drop_idle(&mut self, known: &[Alert], sets: &IndexSet<Labels, Seed>, t: u64)
        ensures { (config : Config) → AreKept config known.now self.old
            → AreKept config (without (is_idle_but_for sets.now.keys t) known.now) self.new }
    {
        let mut rest = known;
        self.names.retain(
            |_names: &Option<Sequence<Destination>>| -> bool
                ensures { TestsFirst sets.entry.now.keys t rest.entry.now result rest.exit.now }
            {
                match rest.split_first() {
                    None => false,
                    Some((alert, others)) => {
                        rest = others;
                        !is_idle(alert, sets, t)
                    }
                }
            },
        );
    }
}
