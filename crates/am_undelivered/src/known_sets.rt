//! `KnownSets`: label sets, each once, in the order in which they came. Contracts see the list of them.
ghost use Rattle.std.specs.Prelude.{◌≡◌, [], OnOk};
ghost use Rattle.am_undelivered.specs.Spans.{with_label_set};

use crate::label_sets::LabelSets;
use am_alerts::labels::Labels;
use am_seed::Seed;
use std::alloc::{AllocError, Global};
use std::marker::Model;

/// Label sets, each once.
#[derive(Drop)]
pub struct KnownSets {
    alloc: Global,
    sets: LabelSets,
    list: Vec<Labels>,
}

impl Model for KnownSets {
    ghost use Rattle.std.specs.Prelude.{◌≡◌, List};
    ghost use Rattle.am_alerts.specs.declared.labels.Label.{Label};

    ghost Value = { List (List Label) };

    ghost view = { λ k. k.list.items };

    ghost invariant = { λ k. k.sets ≡ k.list.items };
}

impl KnownSets {
    /// Of none.
    pub(crate) fn new(alloc: Global, seed: Seed) -> KnownSets
        ensures { result ≡ [] }
    {
        KnownSets {
            alloc,
            sets: LabelSets::new(alloc, seed),
            list: Vec::new(alloc),
        }
    }

    /// The label sets, in the order in which they came.
    pub(crate) fn as_slice(&self) -> &[Labels]
        ensures { result.now ≡ self.now }
    {
        self.list.as_slice()
    }

    /// Adds a label set, unless it is there.
    pub(crate) fn add(&mut self, labels: &Labels) -> Result<(), AllocError>
        ensures { OnOk result (self.new ≡ with_label_set labels.now self.old) }
    {
        if self.sets.has(labels) {
            return Ok(());
        }
        let added = labels.copy(self.alloc)?;
        self.list.reserve(1)?;
        self.sets.add(labels)?;
        self.list.push(added)?;
        Ok(())
    }
}
