//! Tallies: what each receiver got, counted in one pass over the events.
ghost use Rattle.std.specs.Prelude.{◌≡◌, ◌<◌, ℕ, IfOk, List, OnOk, if◌then◌else◌};
ghost use Rattle.std.specs.Str.{bytes_eq};
ghost use Rattle.am_model.specs.Configured.{route_of};
ghost use Rattle.am_timeline.specs.Tally.{CanGrow, no_tally, tally_in, tally_of, with_delivered, with_event, with_failed};
ghost use Rattle.am_timeline.specs.Tally.{with_notice, with_sent};

use crate::playback::Playback;
use crate::sent::{Sent, sent_of};
use am_model::config::Config;
use am_seed::Seed;
use am_terms::event::Event;
use std::alloc::{AllocError, Global};
use std::collections::HashMap;

/// What a receiver got. Times are in milliseconds.
#[derive(Clone, Copy)]
pub struct Tally {
    /// Delivered notices.
    pub delivered: u64,
    pub failed: u64,
    /// When the sending of the first delivered notice ended.
    pub first: Option<u64>,
    /// When that of the last ended.
    pub last: Option<u64>,
}

/// The tallies of receivers, by their names. No entry: a receiver that got nothing.
pub type Tallies<'s> = HashMap<&'s str, Tally, Seed>;

/// Returns what each receiver got. Cost: the events.
pub fn tallies<'s>(alloc: Global, playback: &Playback<'s>) -> Result<Tallies<'s>, AllocError>
    ensures { IfOk result (λ tallies. (name : List ℕ)
        → tally_in tallies name ≡ tally_of playback.now name playback.now.events) }
{
    let mut tallies = HashMap::with_hasher(alloc, playback.logbook().seed());
    for event in playback.events {
        add_event(playback, event, playback.events.len(), &mut tallies)?;
    }
    Ok(tallies)
}

/// Returns what the receiver of this name got.
pub fn tally_of(tallies: &Tallies<'_>, name: &str) -> Tally
    ensures { result ≡ tally_in tallies.now name.now }
{
    match tallies.get(name) {
        None => no_tally(),
        Some(tally) => *tally,
    }
}

/// The tally of a receiver that got nothing.
fn no_tally() -> Tally
    ensures { result ≡ no_tally }
{
    Tally {
        delivered: 0,
        failed: 0,
        first: None,
        last: None,
    }
}

/// Adds the notice whose sending an event ended, if there is one. Counts are below the limit.
fn add_event<'s>(
    playback: &Playback<'s>,
    event: &Event,
    limit: usize,
    tallies: &mut Tallies<'s>,
) -> Result<(), AllocError>
    requires { (name : List ℕ) → CanGrow limit (tally_in tallies.old name) }
    ensures { OnOk result ((name : List ℕ)
        → tally_in tallies.new name ≡ with_event playback.now name event.now (tally_in tallies.old name)) }
{
    match sent_of(playback, event) {
        None => Ok(()),
        Some(sent) => add_sent(playback.config(), &sent, limit, tallies),
    }
}

/// Adds a notice to the tally of its receiver.
fn add_sent<'s>(
    config: &'s Config,
    sent: &Sent,
    limit: usize,
    tallies: &mut Tallies<'s>,
) -> Result<(), AllocError>
    requires { (name : List ℕ) → CanGrow limit (tally_in tallies.old name) }
    ensures { OnOk result ((name : List ℕ)
        → tally_in tallies.new name ≡ with_sent config.now name sent.now (tally_in tallies.old name)) }
{
    let name = receiver_of(config, sent);
    let tally = tally_of(tallies, name).with_notice(sent, limit);
    put(name, tally, tallies)
}

/// The name of the receiver that a notice was for.
fn receiver_of<'s>(config: &'s Config, sent: &Sent) -> &'s str
    ensures { result.now ≡ (route_of config.now sent.now.notice.group).receiver }
{
    let notice = sent.notice;
    config.route_of(&notice.group).receiver.as_str()
}

/// Puts the tally of the receiver of this name.
fn put<'s>(name: &'s str, tally: Tally, tallies: &mut Tallies<'s>) -> Result<(), AllocError>
    ensures { OnOk result ((other : List ℕ)
        → tally_in tallies.new other ≡ (if bytes_eq name.now other then tally else tally_in tallies.old other)) }
{
    tallies.insert(name, tally)?;
    Ok(())
}

impl Tally {
    /// The tally with a notice. Counts are below the limit.
    fn with_notice(self, sent: &Sent, limit: usize) -> Tally
        requires { CanGrow limit self }
        ensures { result ≡ with_notice sent.now self }
    {
        if sent.is_delivered() {
            self.with_delivered(sent.report.ended, limit)
        } else {
            self.with_failed(limit)
        }
    }

    /// The tally with a notice that was delivered at this time. The count is below the limit.
    fn with_delivered(self, ended: u64, limit: usize) -> Tally
        requires { self.delivered < limit }
        ensures { result ≡ with_delivered ended self }
    {
        Tally {
            delivered: self.delivered + 1,
            failed: self.failed,
            first: Some(self.first.unwrap_or(ended)),
            last: Some(ended),
        }
    }

    /// The tally with a notice that failed. The count is below the limit.
    fn with_failed(self, limit: usize) -> Tally
        requires { self.failed < limit }
        ensures { result ≡ with_failed self }
    {
        Tally {
            delivered: self.delivered,
            failed: self.failed + 1,
            first: self.first,
            last: self.last,
        }
    }
}
