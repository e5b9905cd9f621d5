//! `Flush`: a flush, and what it came to for each alert of its group. Contracts see it as `FlushData`.
ghost use Rattle.std.specs.Prelude.{◌≡◌, ◌+◌, ◌==◌, IfOk, OnOk, drop, false, find, map, option_copied};
ghost use Rattle.std.specs.Option.{option_map_or};
ghost use Rattle.am_timeline.specs.Playback.{is_delivered, notices_at};
ghost use Rattle.am_undelivered.specs.Spans.{fate_at, fate_by, fate_unsent, flush_of, is_left_out, is_not_yet, listed};
ghost use Rattle.am_undelivered.specs.Spans.{mute_end, position_for, route_muted_until, sent_of};

use crate::fate::Fate;
use crate::label_sets::LabelSets;
use crate::recipient::Recipient;
use am_alerts::labels::Labels;
use am_model::config::{Config, Integration};
use am_model::group::GroupName;
use am_model::notice::Notice;
use am_model::outcome::outcome_of;
use am_model::reason::Reason;
use am_retry::Outcome;
use am_seed::Seed;
use am_terms::event::PreviewedBegin;
use am_terms::shared_preview::SharedPreview;
use am_timeline::finishes::Finishes;
use am_timeline::integration_name::position_of;
use am_timeline::playback::{Playback, notices_in};
use std::alloc::{AllocError, Global};
use std::marker::Model;

/// A notice, as a flush is seen.
#[derive(Drop)]
pub struct Sent {
    pub integration: u32,
    pub delivered: bool,
    /// The label sets that it lists as firing.
    pub firing: LabelSets,
    /// The label sets that it lists as resolved.
    pub resolved: LabelSets,
}

/// A flush of a group.
#[derive(Drop)]
pub struct Flush<'s> {
    /// The position of its dispatcher.
    part: usize,
    /// The position of its begin.
    begin: usize,
    config: &'s Config,
    preview: &'s SharedPreview,
    /// The name of the group's receiver.
    receiver: &'s str,
    /// The integrations of that.
    integrations: &'s [Integration],
    /// The label sets that are muted.
    muted: LabelSets,
    sent: Vec<Sent>,
}

impl<'s> Model for Flush<'s> {
    ghost use Rattle.std.specs.Coded.{codes};
    ghost use Rattle.std.specs.Prelude.{◌≡◌, map};
    ghost use Rattle.am_alerts.specs.Layout.{forest_code};
    ghost use Rattle.am_model.specs.Configured.{integrations_named, route_of};
    ghost use Rattle.am_undelivered.specs.Spans.{FlushData};

    ghost Value = { FlushData };

    ghost coded = { Prim.hlevel (codes, forest_code) };

    ghost view = { λ f.
        record {
          part = f.part;
          begin = f.begin;
          config = f.config.now;
          preview = f.preview.now;
          sent = f.sent.items;
        } };

    ghost invariant = { λ f. (f.muted ≡ map (λ m. m.labels) f.preview.now.muted)
        × (f.receiver.now ≡ (route_of f.config.now f.preview.now.group).receiver)
        × (f.integrations.now ≡ integrations_named (route_of f.config.now f.preview.now.group).receiver f.config.now.receivers) };
}

impl<'s> Flush<'s> {
    /// Returns the flush of the begin at a position, which is this one. The finishes are those of its dispatcher.
    pub(crate) fn of(
        alloc: Global,
        seed: Seed,
        at: (usize, usize),
        playback: &Playback<'s>,
        finishes: &Finishes<'s>,
        previewed: &'s PreviewedBegin,
    ) -> Result<Flush<'s>, AllocError>
        requires { finishes.now ≡ playback.now.history }
        ensures { IfOk result (λ flush. flush ≡ flush_of at.0 playback.now at.1 previewed.now) }
    {
        let preview = &previewed.preview;
        let mut muted = LabelSets::new(alloc, seed);
        muted.add_muted(preview.muted())?;
        let notices = notices_at(playback, previewed.index);
        let sent = all_sent(alloc, seed, finishes, previewed.index, notices)?;
        let config = playback.config();
        Ok(Flush {
            part: at.0,
            begin: at.1,
            config,
            preview,
            receiver: config.route_of(preview.group()).receiver.as_str(),
            integrations: config.integrations_of(preview.group()),
            muted,
            sent,
        })
    }

    /// Returns the position of the dispatcher.
    pub(crate) fn part(&self) -> usize
        ensures { result ≡ self.now.part }
    {
        self.part
    }

    /// Returns the group.
    pub(crate) fn group(&self) -> &GroupName
        ensures { result.now ≡ self.now.preview.group }
    {
        self.preview.group()
    }

    /// Returns the time of the begin, in milliseconds.
    pub(crate) fn time(&self) -> u64
        ensures { result ≡ self.now.preview.time }
    {
        self.preview.time()
    }

    /// Returns the position of an integration in the receiver, if the flush is for it.
    pub(crate) fn position_for(&self, recipient: &Recipient) -> Option<usize>
        ensures { result ≡ position_for self.now recipient.now }
    {
        if self.receiver != recipient.receiver.as_str() {
            return None;
        }
        position_of(recipient.kind.as_str(), recipient.index, self.integrations)
    }

    /// Returns what it came to for the integration at a position and an alert that fires, or is resolved.
    pub(crate) fn fate(&self, labels: &Labels, fires: bool, position: usize) -> Fate
        ensures { result ≡ fate_at self.now labels.now fires position }
    {
        if self.leaves_out(labels) {
            return Fate::Muted {
                part: self.part,
                begin: self.begin,
            };
        }
        match sent_for(position, self.sent.as_slice()) {
            Some(sent) => fate_by(labels, fires, sent),
            None => fate_unsent(fires, self.preview.reasons().get(position)),
        }
    }

    /// Whether it leaves a label set out: it or its route is muted.
    fn leaves_out(&self, labels: &Labels) -> bool
        ensures { result ≡ is_left_out self.now.preview labels.now }
    {
        route_muted_until(self.preview).is_some() || self.muted.has(labels)
    }
}

/// The notice for the integration at a position, if there is one.
fn sent_for(position: usize, sent: &[Sent]) -> Option<&Sent>
    ensures { option_copied result ≡ find (λ s. s.integration == position) sent.now }
{
    sent.iter()
        .find(|sent| sent.integration as usize == position)
}

/// What a notice came to for a label set.
fn fate_by(labels: &Labels, fires: bool, sent: &Sent) -> Fate
    ensures { result ≡ fate_by labels.now fires sent.now }
{
    let listed = if fires { &sent.firing } else { &sent.resolved };
    if !listed.has(labels) {
        return Fate::Unlisted;
    }
    if sent.delivered {
        Fate::Seen
    } else {
        Fate::Failed
    }
}

/// What a flush came to without a notice, for this reason.
fn fate_unsent(fires: bool, reason: Option<&Reason>) -> Fate
    ensures { result ≡ fate_unsent fires (option_copied reason.entry) }
{
    match reason {
        Some(Reason::NotYet { .. }) if fires => Fate::Seen,
        _ => Fate::Unlisted,
    }
}

/// Returns until when the route of a begin is muted, in milliseconds, if it is: all reasons say the same.
pub(crate) fn route_muted_until(preview: &SharedPreview) -> Option<u64>
    ensures { result ≡ route_muted_until preview.now }
{
    let reason = preview.reasons().first()?;
    mute_end(reason)
}

/// Returns until when the route is muted, as a reason says.
fn mute_end(reason: &Reason) -> Option<u64>
    ensures { result ≡ mute_end reason.now }
{
    match reason {
        Reason::RouteMuted { until } => Some(*until),
        Reason::FirstNotice
        | Reason::NewAlert
        | Reason::AllResolved
        | Reason::NewlyResolved
        | Reason::Repeat
        | Reason::NothingLeft
        | Reason::NothingFiring
        | Reason::NotYet { .. } => None,
    }
}

/// The notices of the record at an index, or none where no flush was opened there.
fn notices_at<'s>(playback: &Playback<'s>, index: usize) -> &'s [Notice]
    ensures { result.now ≡ notices_at playback.now.history index }
{
    match playback.history().get(index) {
        None => &[],
        Some(record) => notices_in(&record.reply),
    }
}

/// These notices of the begin at an index, as the flush is seen.
fn all_sent(
    alloc: Global,
    seed: Seed,
    finishes: &Finishes<'_>,
    index: usize,
    notices: &[Notice],
) -> Result<Vec<Sent>, AllocError>
    ensures { IfOk result (λ sent. sent.items ≡ map (sent_of (drop (index + 1) finishes.now)) notices.now) }
{
    let mut sent = Vec::with_capacity(alloc, notices.len())?;
    for notice in notices {
        sent.push(sent_of(alloc, seed, finishes, index, notice)?)?;
    }
    Ok(sent)
}

fn sent_of(
    alloc: Global,
    seed: Seed,
    finishes: &Finishes<'_>,
    index: usize,
    notice: &Notice,
) -> Result<Sent, AllocError>
    ensures { IfOk result (λ sent. sent ≡ sent_of (drop (index + 1) finishes.now) notice.now) }
{
    let mut firing = LabelSets::new(alloc, seed);
    firing.add_alerts(notice.firing.as_slice())?;
    let mut resolved = LabelSets::new(alloc, seed);
    resolved.add_alerts(notice.resolved.as_slice())?;
    let outcomes = finishes.outcomes_after(notice.ticket, index);
    Ok(Sent {
        integration: notice.integration,
        delivered: is_delivered(outcome_of(outcomes, notice.integration)),
        firing,
        resolved,
    })
}

/// Whether this is that a notice was delivered.
fn is_delivered(outcome: Option<Outcome>) -> bool
    ensures { result ≡ option_map_or is_delivered outcome false }
{
    match outcome {
        Some(Outcome::Delivered) => true,
        Some(Outcome::Refused | Outcome::Expired | Outcome::Starved) | None => false,
    }
}
