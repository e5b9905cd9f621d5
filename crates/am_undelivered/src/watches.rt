//! `Watches`: the spans of firing of all label sets, while a rehearsal is looked back on.
ghost use Rattle.std.specs.Prelude.{◌≡◌, ◌+◌, List, IfOk, OnOk, if◌then◌else◌, option_copied};
ghost use Rattle.std.specs.HashMap.{get};
ghost use Rattle.std.specs.Option.{option_map};
ghost use Rattle.am_alerts.specs.Labels.{same_label_set};
ghost use Rattle.am_alerts.specs.declared.labels.Label.{Label};
ghost use Rattle.am_model.specs.look_back.Entry.{alert_in};
ghost use Rattle.am_model.specs.Records.{now_of};
ghost use Rattle.am_undelivered.specs.Spans.{AreBefore, AreKnown, Flushed, Inserted, after_fact, after_facts, begin_at, facts_in};
ghost use Rattle.am_undelivered.specs.Spans.{flushed, inserts_at, sets_after, sets_in, spans_in, with_member, with_set};
ghost use Rattle.am_undelivered.specs.Sets.{is_among};

use crate::flush::Flush;
use crate::known_sets::KnownSets;
use crate::members::Members;
use crate::span::Spans;
use am_alerts::alert::Alert;
use am_alerts::labels::Labels;
use am_model::config::Config;
use am_model::record::Call;
use am_seed::Seed;
use am_terms::event::PreviewedBegin;
use am_timeline::finishes::Finishes;
use am_timeline::playback::Playback;
use std::alloc::{AllocError, Global};
use std::collections::HashMap;

/// The spans of firing of each label set, and the label sets that were inserted.
#[derive(Drop)]
pub struct Watches {
    alloc: Global,
    seed: Seed,
    spans: HashMap<Labels, Spans, Seed>,
    sets: KnownSets,
}

impl Watches {
    /// Returns those of a rehearsal.
    pub(crate) fn of(
        alloc: Global,
        seed: Seed,
        playbacks: &[Playback<'_>],
    ) -> Result<Watches, AllocError>
        ensures spans { IfOk result (λ w. (labels : List Label) → get same_label_set w.spans labels ≡ spans_in playbacks.now labels) }
        ensures sets { IfOk result (λ w. w.sets ≡ sets_in playbacks.now) }
    {
        let mut watches = Watches {
            alloc,
            seed,
            spans: HashMap::with_hasher(alloc, seed),
            sets: KnownSets::new(alloc, seed),
        };
        for (part, playback) in playbacks.iter().enumerate() {
            watches.add_part(part, playback)?;
        }
        Ok(watches)
    }

    /// The label sets, in the order of their first inserts.
    pub(crate) fn sets(&self) -> &[Labels]
        ensures { result.now ≡ self.now.sets }
    {
        self.sets.as_slice()
    }

    /// The spans of a label set.
    pub(crate) fn spans(&self, labels: &Labels) -> Option<&Spans>
        ensures { option_copied result ≡ get same_label_set self.now.spans labels.now }
    {
        self.spans.get(labels)
    }

    /// Adds what happens under the dispatcher at a position.
    fn add_part(&mut self, part: usize, playback: &Playback<'_>) -> Result<(), AllocError>
        requires { AreBefore part (get same_label_set self.old.spans) }
        ensures spans { OnOk result ((labels : List Label) → get same_label_set self.new.spans labels
            ≡ after_facts labels (facts_in part playback.now) (get same_label_set self.old.spans labels)) }
        ensures sets { OnOk result (self.new.sets ≡ sets_after (facts_in part playback.now) self.old.sets) }
        ensures before { OnOk result (AreBefore (part + 1) (get same_label_set self.new.spans)) }
    {
        let history = playback.history();
        let finishes = Finishes::of(self.alloc, self.seed, history)?;
        let mut members = Members::new(self.alloc, self.seed, part, playback.config());
        let mut begin = 0;
        for (index, record) in history.iter().enumerate() {
            match begin_at(playback.begins(), index, begin) {
                None => self.add_call(&record.call, &mut members)?,
                Some(previewed) => {
                    let at = (part, begin);
                    let flush = Flush::of(
                        self.alloc, self.seed, at, playback, &finishes, previewed,
                    )?;
                    self.add_flush(&flush, &members);
                    begin += 1;
                }
            }
        }
        Ok(())
    }

    /// Adds a call to the dispatcher of these members, if it is an insert.
    fn add_call(&mut self, call: &Call, members: &mut Members<'_>) -> Result<(), AllocError>
        ensures part { OnOk result (members.new.part ≡ members.old.part) }
        ensures config { OnOk result (members.new.config ≡ members.old.config) }
        ensures spans { OnOk result ((labels : List Label) → get same_label_set self.new.spans labels
            ≡ after_facts labels (inserts_at members.old.part members.old.config (now_of call.now) (alert_in call.now))
            (get same_label_set self.old.spans labels)) }
        ensures sets { OnOk result (self.new.sets ≡ sets_after
            (inserts_at members.old.part members.old.config (now_of call.now) (alert_in call.now)) self.old.sets) }
        ensures known { AreKnown members.old (get same_label_set self.old.spans)
            → OnOk result (AreKnown members.new (get same_label_set self.new.spans)) }
    {
        match call {
            Call::Insert { now, alert } => self.add_insert(*now, alert, members),
            _ => Ok(()),
        }
    }

    /// Adds an insert at a time to the dispatcher of these members.
    fn add_insert(
        &mut self,
        now: u64,
        alert: &Alert,
        members: &mut Members<'_>,
    ) -> Result<(), AllocError>
        ensures members { OnOk result (members.new ≡ with_member alert.now.labels members.old) }
        ensures spans { OnOk result ((labels : List Label) → get same_label_set self.new.spans labels
            ≡ after_fact labels (Inserted members.old.part members.old.config now alert.now)
            (get same_label_set self.old.spans labels)) }
        ensures sets { OnOk result (self.new.sets
            ≡ with_set (Inserted members.old.part members.old.config now alert.now) self.old.sets) }
    {
        members.add(alert.labels())?;
        self.sets.add(alert.labels())?;
        add_to_spans(
            self.alloc,
            members.part(),
            members.config(),
            now,
            alert,
            &mut self.spans,
        )
    }

    /// Adds a flush of the dispatcher of these members.
    fn add_flush(&mut self, flush: &Flush<'_>, members: &Members<'_>)
        requires part { members.now.part ≡ flush.now.part }
        requires config { members.now.config ≡ flush.now.config }
        requires known { AreKnown members.now (get same_label_set self.old.spans) }
        ensures spans { (labels : List Label) → get same_label_set self.new.spans labels
            ≡ after_fact labels (Flushed flush.now) (get same_label_set self.old.spans labels) }
        ensures sets { self.new.sets ≡ self.old.sets }
        ensures known { AreKnown members.now (get same_label_set self.new.spans) }
    {
        flush_all(flush, members.in_group(flush.group()), &mut self.spans);
    }
}

/// Adds an insert at a time, under the dispatcher at a position, to the spans of its label set.
fn add_to_spans(
    alloc: Global,
    part: usize,
    config: &Config,
    now: u64,
    alert: &Alert,
    spans: &mut HashMap<Labels, Spans, Seed>,
) -> Result<(), AllocError>
    ensures { OnOk result ((labels : List Label) → get same_label_set spans.new labels
        ≡ after_fact labels (Inserted part config.now now alert.now) (get same_label_set spans.old labels)) }
{
    match spans.get_mut(alert.labels()) {
        Some(there) => there.insert(alloc, part, config, now, alert)?,
        None => {
            if let Some(first) = Spans::first(alloc, part, config, now, alert)? {
                spans.insert(alert.labels().copy(alloc)?, first)?;
            }
        }
    }
    Ok(())
}

/// Adds a flush to the spans of these label sets.
fn flush_all(flush: &Flush<'_>, members: &[Labels], spans: &mut HashMap<Labels, Spans, Seed>)
    ensures { (labels : List Label) → get same_label_set spans.new labels
        ≡ (if is_among labels members.now then option_map (flushed flush.now labels) (get same_label_set spans.old labels)
        else get same_label_set spans.old labels) }
{
    for labels in members {
        flush_set(flush, labels, spans);
    }
}

/// Adds a flush to the spans of a label set.
fn flush_set(flush: &Flush<'_>, labels: &Labels, spans: &mut HashMap<Labels, Spans, Seed>)
    ensures { (l : List Label) → get same_label_set spans.new l
        ≡ (if same_label_set labels.now l then option_map (flushed flush.now l) (get same_label_set spans.old l)
        else get same_label_set spans.old l) }
{
    if let Some(there) = spans.get_mut(labels) {
        there.flush(flush, labels);
    }
}

/// The begin at a position, if its record is the one at this index.
fn begin_at(begins: &[PreviewedBegin], index: usize, begin: usize) -> Option<&PreviewedBegin>
    ensures { option_copied result ≡ begin_at begins.now index begin }
{
    let previewed = begins.get(begin)?;
    if previewed.index == index {
        Some(previewed)
    } else {
        None
    }
}
