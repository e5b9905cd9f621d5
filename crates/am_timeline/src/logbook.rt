//! `Logbook`: a history with when the log entries expired whose lack its flushes found.
ghost use Rattle.std.specs.Prelude.{◌≡◌, ◌+◌, IfOk, drop};
ghost use Rattle.am_model.specs.Outcomes.{outcomes_in};
ghost use Rattle.am_timeline.specs.Expiry.{expired};

mod entries;
mod log;

use crate::finishes::Finishes;
use am_model::config::Config;
use am_model::record::Record;
use am_retry::Outcome;
use am_seed::Seed;
use am_terms::event::PreviewedBegin;
use entries::{FlushKey, expired_entries};
use std::alloc::{AllocError, Global};
use std::collections::HashMap;
use std::marker::Model;

/// A configuration, a history and the previews of its begins. Contracts see these three.
#[derive(Drop)]
pub struct Logbook<'s> {
    config: &'s Config,
    history: &'s [Record],
    begins: &'s [PreviewedBegin],
    finishes: Finishes<'s>,
    /// When the entries expired whose lack flushes found.
    expiries: HashMap<FlushKey, u64, Seed>,
    seed: Seed,
}

impl<'s> Model for Logbook<'s> {
    ghost use Rattle.std.specs.Coded.{codes};
    ghost use Rattle.std.specs.HashMap.{get};
    ghost use Rattle.std.specs.Prelude.{◌≡◌, ℕ};
    ghost use Rattle.am_alerts.specs.Layout.{forest_code};
    ghost use Rattle.am_timeline.specs.Entries.{same_flush_key};
    ghost use Rattle.am_timeline.specs.Expiry.{expired};
    ghost use Rattle.am_timeline.specs.Playback.{LogbookData};

    ghost Value = { LogbookData };

    ghost coded = { Prim.hlevel (codes, forest_code) };

    ghost view = { λ l.
        record {
          config = l.config.now;
          history = l.history.now;
          begins = l.begins.now;
        } };

    ghost invariant = { λ l. (l.finishes ≡ l.history.now) × ((index integration : ℕ)
        → get same_flush_key l.expiries (record { index = index; integration = integration })
        ≡ expired l.config.now l.history.now index integration) };
}

impl<'s> Logbook<'s> {
    /// Returns the logbook of this configuration, this history and the previews of its begins. Its expired entries are those of logged
    /// successes and of loaded rows. Cost: the history.
    ///
    /// The hashes of all texts on the rehearsal start from the seed: whoever writes labels and knows it can make them collide.
    pub fn new(
        alloc: Global,
        seed: Seed,
        config: &'s Config,
        history: &'s [Record],
        begins: &'s [PreviewedBegin],
    ) -> Result<Logbook<'s>, AllocError>
        ensures { IfOk result (λ log. log ≡ record { config = config.now; history = history.now; begins = begins.now }) }
    {
        let finishes = Finishes::of(alloc, seed, history)?;
        let expiries = expired_entries(alloc, seed, config, history)?;
        Ok(Logbook {
            config,
            history,
            begins,
            finishes,
            expiries,
            seed,
        })
    }

    pub fn config(&self) -> &'s Config
        ensures { result.now ≡ self.now.config }
    {
        self.config
    }

    pub fn history(&self) -> &'s [Record]
        ensures { result.now ≡ self.now.history }
    {
        self.history
    }

    pub fn begins(&self) -> &'s [PreviewedBegin]
        ensures { result.now ≡ self.now.begins }
    {
        self.begins
    }

    /// Returns the seed from which hashes start.
    pub fn seed(&self) -> Seed {
        self.seed
    }

    /// Returns the outcomes with which the flush of this number is finished after the record at an index; none where it isn't.
    pub(crate) fn outcomes_after(&self, number: u64, index: usize) -> &'s [(u32, Outcome)]
        ensures { result.now ≡ outcomes_in number (drop (index + 1) self.now.history) }
    {
        self.finishes.outcomes_after(number, index)
    }

    /// Returns when the log entry of an integration expired whose lack the flush that began at an index found, in milliseconds,
    /// if there was one.
    pub(crate) fn expired(&self, index: usize, integration: usize) -> Option<u64>
        ensures { result ≡ expired self.now.config self.now.history index integration }
    {
        self.expiries.get(&FlushKey { index, integration }).copied()
    }
}
