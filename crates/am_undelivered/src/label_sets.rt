//! `LabelSets`: the label sets that were added. Contracts see it as the list of them.
//!
//! Invariant: the set has exactly the label sets that were added.
ghost use Rattle.std.specs.Prelude.{◌≡◌, ◌++◌, ◌∷◌, [], OnErr, OnOk, map};
ghost use Rattle.am_timeline.specs.Timeline.{labels_of};
ghost use Rattle.am_undelivered.specs.Sets.{is_among};

use am_alerts::alert::Alert;
use am_alerts::labels::Labels;
use am_ghost::GhostList;
use am_model::preview::MutedAlert;
use am_seed::Seed;
use std::alloc::{AllocError, Global};
use std::collections::HashSet;
use std::marker::Model;

/// The label sets that were added.
#[derive(Drop)]
pub struct LabelSets {
    alloc: Global,
    sets: HashSet<Labels, Seed>,
    added: GhostList<Labels>,
}

impl Model for LabelSets {
    ghost use Rattle.std.specs.Prelude.{◌≡◌, List};
    ghost use Rattle.std.specs.HashSet.{contains};
    ghost use Rattle.am_alerts.specs.Labels.{same_label_set};
    ghost use Rattle.am_alerts.specs.declared.labels.Label.{Label};
    ghost use Rattle.am_undelivered.specs.Sets.{is_among};

    ghost Value = { List (List Label) };

    ghost view = { λ s. s.added.items };

    ghost invariant = { λ s. (labels : List Label) → contains same_label_set s.sets labels ≡ is_among labels s.added.items };
}

impl LabelSets {
    /// Of none.
    pub(crate) fn new(alloc: Global, seed: Seed) -> LabelSets
        ensures { result ≡ [] }
    {
        LabelSets {
            alloc,
            sets: HashSet::with_hasher(alloc, seed),
            added: GhostList::new(),
        }
    }

    /// Whether this label set was added.
    pub(crate) fn has(&self, labels: &Labels) -> bool
        ensures { result ≡ is_among labels.now self.now }
    {
        self.sets.contains(labels)
    }

    /// Adds a label set. On a failure it is as before.
    pub(crate) fn add(&mut self, labels: &Labels) -> Result<(), AllocError>
        ensures added { OnOk result (self.new ≡ self.old ++ labels.now ∷ []) }
        ensures unchanged { OnErr result (self.new ≡ self.old) }
    {
        self.sets.insert(labels.copy(self.alloc)?)?;
        self.added.add(labels);
        Ok(())
    }

    /// Adds the label sets of these muted alerts.
    pub(crate) fn add_muted(&mut self, muted: &[MutedAlert]) -> Result<(), AllocError>
        ensures { OnOk result (self.new ≡ self.old ++ map (λ m. m.labels) muted.now) }
    {
        for alert in muted {
            self.add(&alert.labels)?;
        }
        Ok(())
    }

    /// Adds the label sets of these alerts.
    pub(crate) fn add_alerts(&mut self, alerts: &[Alert]) -> Result<(), AllocError>
        ensures { OnOk result (self.new ≡ self.old ++ map labels_of alerts.now) }
    {
        for alert in alerts {
            self.add(alert.labels())?;
        }
        Ok(())
    }
}
