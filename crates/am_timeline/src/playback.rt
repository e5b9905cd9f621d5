//! `Playback`: a rehearsal that ran, as all texts read it.
ghost use Rattle.std.specs.Prelude.{◌≡◌, ◌+◌, drop, option_copied};
ghost use Rattle.am_timeline.specs.Expiry.{expired};
ghost use Rattle.am_timeline.specs.Playback.{notice_for, notices_at};
ghost use Rattle.am_model.specs.Outcomes.{outcomes_in};
ghost use Rattle.am_model.specs.look_back.Entry.{reports_put};
ghost use Rattle.am_model.specs.look_back.Past.{notices_in};

use crate::logbook::Logbook;
use am_model::config::Config;
use am_model::notice::Notice;
use am_model::record::{Loaded, Record, Reply};
use am_retry::Outcome;
use am_terms::event::{Event, PreviewedBegin};
use std::marker::Model;

/// A rehearsal that ran: its configuration, history, previews and events.
#[derive(Drop)]
pub struct Playback<'s> {
    pub(crate) log: &'s Logbook<'s>,
    pub(crate) config: &'s Config,
    pub(crate) history: &'s [Record],
    pub(crate) begins: &'s [PreviewedBegin],
    pub(crate) events: &'s [Event],
}

impl<'s> Model for Playback<'s> {
    ghost use Rattle.std.specs.Coded.{codes};
    ghost use Rattle.std.specs.Prelude.{◌≡◌};
    ghost use Rattle.am_alerts.specs.Layout.{forest_code};
    ghost use Rattle.am_timeline.specs.Playback.{PlaybackData};

    ghost Value = { PlaybackData };

    ghost coded = { Prim.hlevel (codes, forest_code) };

    ghost view = { λ s.
        record {
          config = s.config.now;
          history = s.history.now;
          begins = s.begins.now;
          events = s.events.now;
        } };

    ghost invariant = { λ s. s.log.now ≡ record { config = s.config.now; history = s.history.now; begins = s.begins.now } };
}

impl<'s> Playback<'s> {
    /// Returns the playback of these events of a logbook's rehearsal.
    pub fn new(log: &'s Logbook<'s>, events: &'s [Event]) -> Playback<'s>
        ensures { result ≡ record {
          config = log.now.config;
          history = log.now.history;
          begins = log.now.begins;
          events = events.now;
        } }
    {
        Playback {
            log,
            config: log.config(),
            history: log.history(),
            begins: log.begins(),
            events,
        }
    }

    /// Returns the same playback with these events in place of its own.
    pub fn with_events(&self, events: &'s [Event]) -> Playback<'s>
        ensures { result ≡ record self.now { events = events.now } }
    {
        Playback::new(self.log, events)
    }

    /// Returns the logbook.
    pub fn logbook(&self) -> &'s Logbook<'s>
        ensures { result.now ≡ record { config = self.now.config; history = self.now.history; begins = self.now.begins } }
    {
        self.log
    }

    /// Returns the configuration.
    pub fn config(&self) -> &'s Config
        ensures { result.now ≡ self.now.config }
    {
        self.config
    }

    /// Returns the history.
    pub fn history(&self) -> &'s [Record]
        ensures { result.now ≡ self.now.history }
    {
        self.history
    }

    /// Returns what the begins were to do.
    pub fn begins(&self) -> &'s [PreviewedBegin]
        ensures { result.now ≡ self.now.begins }
    {
        self.begins
    }

    /// Returns the events.
    pub fn events(&self) -> &'s [Event]
        ensures { result.now ≡ self.now.events }
    {
        self.events
    }

    /// Returns the outcomes with which the flush of this number is finished after the record at an index; none where it isn't.
    pub(crate) fn outcomes_after(&self, number: u64, index: usize) -> &'s [(u32, Outcome)]
        ensures { result.now ≡ outcomes_in number (drop (index + 1) self.now.history) }
    {
        self.log.outcomes_after(number, index)
    }

    /// Returns when the log entry of an integration expired whose lack the flush that began at an index found, in milliseconds,
    /// if there was one.
    pub(crate) fn expired(&self, index: usize, integration: usize) -> Option<u64>
        ensures { result ≡ expired self.now.config self.now.history index integration }
    {
        self.log.expired(index, integration)
    }
}

/// Returns the notices of the record at an index, or none where no flush was opened there.
pub(crate) fn notices_at(history: &[Record], index: usize) -> &[Notice]
    ensures { result.now ≡ notices_at history.now index }
{
    match history.get(index) {
        None => &[],
        Some(record) => notices_in(&record.reply),
    }
}

/// Returns the notices of a flush that was begun.
pub fn notices_in(reply: &Reply) -> &[Notice]
    ensures { result.now ≡ notices_in reply.now }
{
    match reply {
        Reply::Flush { opened, .. } => opened.get().notices.as_slice(),
        _ => &[],
    }
}

/// Returns whether a reply is that the row that was handed in was put into the log.
pub fn is_put(reply: &Reply) -> bool
    ensures { result ≡ reports_put reply.now }
{
    match reply {
        Reply::Loaded(Loaded::Put) => true,
        _ => false,
    }
}

/// Returns the notice for an integration, if there is one.
pub(crate) fn notice_for(integration: usize, notices: &[Notice]) -> Option<&Notice>
    ensures { option_copied result ≡ notice_for integration notices.now }
{
    notices
        .iter()
        .find(|notice| notice.integration as usize == integration)
}

/// Returns the records after the one at an index.
pub(crate) fn later_than(history: &[Record], index: usize) -> &[Record]
    ensures { result.now ≡ drop (index + 1) history.now }
{
    if index < history.len() {
        &history[index + 1..]
    } else {
        &[]
    }
}
