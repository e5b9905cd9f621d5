//! `Print`: what the texts of a rehearsal are printed of.
ghost use Rattle.std.specs.Prelude.{◌≡◌};

use crate::playback::Playback;
use am_model::config::Config;
use am_terms::clock::TimeFormat;
use std::alloc::Global;

/// A playback, and the clock that shows its times. All that prints a part of a text is lent it.
#[derive(Drop)]
pub(crate) struct Print<'p, 's, C: TimeFormat> {
    pub(crate) alloc: Global,
    pub(crate) playback: &'p Playback<'s>,
    pub(crate) clock: &'p C,
}

impl<'p, 's, C: TimeFormat> Print<'p, 's, C> {
    /// Returns the configuration of the playback.
    pub(crate) fn config(&self) -> &'s Config
        ensures { result.now ≡ self.now.playback.now.config }
    {
        let playback = self.playback;
        playback.config
    }
}
