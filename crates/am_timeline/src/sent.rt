//! Notices whose sending ended.
ghost use Rattle.std.specs.Prelude.{◌≡◌};
ghost use Rattle.am_timeline.specs.Timeline.{expiry_before};
ghost use Rattle.am_timeline.specs.Playback.{is_delivered, outcome_after, sent_by, sent_of};

use crate::playback::{Playback, notice_for, notices_at};
use am_model::notice::{Notice, Report};
use am_model::outcome::outcome_of;
use am_retry::Outcome;
use am_terms::event::{Event, PreviewedBegin};
use std::marker::Model;

/// A notice whose sending ended.
#[derive(Drop)]
pub struct Sent<'s> {
    /// The begin of its flush.
    pub begin: &'s PreviewedBegin,
    pub notice: &'s Notice,
    /// What it came to, as the finish of its flush says.
    pub outcome: Outcome,
    /// How its sending ended.
    pub report: Report,
}

impl<'s> Model for Sent<'s> {
    ghost use Rattle.am_timeline.specs.Playback.{SentData};

    ghost Value = { SentData };

    ghost view = { λ s.
        record {
          begin = s.begin.now;
          notice = s.notice.now;
          outcome = s.outcome;
          report = s.report;
        } };
}

impl<'s> Sent<'s> {
    /// Returns whether it was delivered.
    pub fn is_delivered(&self) -> bool
        ensures { result ≡ is_delivered self.now.outcome }
    {
        match self.outcome {
            Outcome::Delivered => true,
            Outcome::Refused | Outcome::Expired | Outcome::Starved => false,
        }
    }
}

/// Returns the notice whose sending this event ended, if there is one.
pub fn sent_of<'s>(playback: &Playback<'s>, event: &Event) -> Option<Sent<'s>>
    ensures { result ≡ sent_of playback.now event.now }
{
    match event {
        Event::Begun { begin: _ } => None,
        Event::Sent { begin, report } => match playback.begins.get(*begin as usize) {
            None => None,
            Some(begin) => sent_by(playback, *report.get(), begin),
        },
    }
}

/// The notice of a begin that a report is on, if there is one.
fn sent_by<'s>(
    playback: &Playback<'s>,
    report: Report,
    begin: &'s PreviewedBegin,
) -> Option<Sent<'s>>
    ensures { result ≡ sent_by playback.now.history report begin.now }
{
    let notice = notice_for(
        report.integration as usize,
        notices_at(playback.history, begin.index),
    )?;
    let outcome = outcome_after(playback, begin.index, notice)?;
    Some(Sent {
        begin,
        notice,
        outcome,
        report,
    })
}

/// What a notice that was begun at an index came to, as the finish of its flush in the later records
/// says.
fn outcome_after(playback: &Playback, index: usize, notice: &Notice) -> Option<Outcome>
    ensures { result ≡ outcome_after playback.now.history index notice.now }
{
    outcome_of(
        playback.outcomes_after(notice.ticket, index),
        notice.integration,
    )
}

/// Returns when the log entry expired whose lack a notice found, in milliseconds, if it had.
pub fn expiry_before(playback: &Playback, sent: &Sent) -> Option<u64>
    ensures { result ≡ expiry_before playback.now sent.now }
{
    let notice = sent.notice;
    playback.expired(sent.begin.index, notice.integration as usize)
}
