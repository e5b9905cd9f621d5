//! `Span` and `Spans`: the spans of firing of a label set. Contracts see them as `SpanData` and `SpansData`.
ghost use Rattle.std.specs.Prelude.{◌≡◌, ◌∷◌, ◌++◌, [], IfOk, None, OnOk, Some, map, not};
ghost use Rattle.am_alerts.specs.AlertData.{has_come};
ghost use Rattle.am_undelivered.specs.Spans.{begun_span, flushed, flushed_span, inserted, inserted_again, is_unflushed, notified_by};
ghost use Rattle.am_undelivered.specs.Spans.{with_flush};

use crate::fate::is_unflushed;
use crate::flush::Flush;
use crate::notified::notify;
use crate::recipient::{Recipient, add_recipients};
use am_alerts::alert::Alert;
use am_alerts::labels::Labels;
use am_model::config::Config;
use std::alloc::{AllocError, Global};
use std::marker::Model;
use std::mem::replace;

/// A span of firing of a label set.
#[derive(Drop)]
pub struct Span {
    since: u64,
    ends: Option<u64>,
    recipients: Vec<Recipient>,
}

impl Model for Span {
    ghost use Rattle.am_undelivered.specs.Spans.{SpanData};

    ghost Value = { SpanData };

    ghost view = { λ s. record { since = s.since; ends = s.ends; recipients = s.recipients.items } };
}

/// The spans of firing of a label set.
#[derive(Drop)]
pub struct Spans {
    before: Vec<Span>,
    last: Span,
    /// The position of the dispatcher of the last insert.
    part: usize,
}

impl Model for Spans {
    ghost use Rattle.am_undelivered.specs.Spans.{SpansData};

    ghost Value = { SpansData };

    ghost view = { λ s. record { before = s.before.items; last = s.last; part = s.part } };
}

impl Span {
    /// Returns the span that begins with an insert.
    fn begun(alloc: Global, config: &Config, alert: &Alert) -> Result<Span, AllocError>
        ensures { IfOk result (λ span. span ≡ begun_span config.now alert.now) }
    {
        let mut recipients = Vec::new(alloc);
        add_recipients(alloc, config, alert.labels(), &mut recipients)?;
        Ok(Span {
            since: alert.starts(),
            ends: alert.ends(),
            recipients,
        })
    }

    /// Inserts its alert again, which may have other routes now.
    fn insert(&mut self, alloc: Global, config: &Config, alert: &Alert) -> Result<(), AllocError>
        ensures { OnOk result (self.new ≡ inserted_again config.now alert.now self.old) }
    {
        self.ends = alert.ends();
        keep_flushed(&mut self.recipients);
        add_recipients(alloc, config, alert.labels(), &mut self.recipients)
    }

    /// Adds a flush of a group of its label set.
    fn flush(&mut self, flush: &Flush<'_>, labels: &Labels)
        ensures { self.new ≡ flushed_span flush.now labels.now self.old }
    {
        let fires = !has_come(self.ends, flush.time());
        notify_all(flush, labels, fires, &mut self.recipients);
    }

    /// Since when the alert fires, in milliseconds.
    pub(crate) fn since(&self) -> u64
        ensures { result ≡ self.now.since }
    {
        self.since
    }

    /// Until when it fires, in milliseconds, if an end is known.
    pub(crate) fn ends(&self) -> Option<u64>
        ensures { result ≡ self.now.ends }
    {
        self.ends
    }

    /// The integrations that are to be notified of it.
    pub(crate) fn recipients(&self) -> &[Recipient]
        ensures { result.now ≡ self.now.recipients }
    {
        self.recipients.as_slice()
    }
}

impl Spans {
    /// Returns the spans of an alert whose first insert is at a time, in milliseconds, under the dispatcher at a position; none where it
    /// doesn't fire then.
    pub(crate) fn first(
        alloc: Global,
        part: usize,
        config: &Config,
        now: u64,
        alert: &Alert,
    ) -> Result<Option<Spans>, AllocError>
        ensures { IfOk result (λ spans. spans ≡ inserted part config.now now alert.now None) }
    {
        if has_come(alert.ends(), now) {
            return Ok(None);
        }
        Ok(Some(Spans {
            before: Vec::new(alloc),
            last: Span::begun(alloc, config, alert)?,
            part,
        }))
    }

    /// Adds an insert at a time, in milliseconds, under the dispatcher at a position.
    pub(crate) fn insert(
        &mut self,
        alloc: Global,
        part: usize,
        config: &Config,
        now: u64,
        alert: &Alert,
    ) -> Result<(), AllocError>
        ensures { OnOk result (Some self.new ≡ inserted part config.now now alert.now (Some self.old)) }
    {
        self.part = part;
        if !has_come(self.last.ends, now) {
            return self.last.insert(alloc, config, alert);
        }
        if has_come(alert.ends(), now) {
            return Ok(());
        }
        let next = Span::begun(alloc, config, alert)?;
        let over = replace(&mut self.last, next);
        self.before.push(over)?;
        Ok(())
    }

    /// Adds a flush of a group of the label set.
    pub(crate) fn flush(&mut self, flush: &Flush<'_>, labels: &Labels)
        ensures { self.new ≡ flushed flush.now labels.now self.old }
    {
        if self.part == flush.part() {
            self.last.flush(flush, labels);
        }
    }

    /// The spans before the last one.
    pub(crate) fn before(&self) -> &[Span]
        ensures { result.now ≡ self.now.before }
    {
        self.before.as_slice()
    }

    /// The last span.
    pub(crate) fn last(&self) -> &Span
        ensures { result.now ≡ self.now.last }
    {
        &self.last
    }
}

/// Adds what a flush came to for each integration, and an alert that fires or is resolved.
fn notify_all(flush: &Flush<'_>, labels: &Labels, fires: bool, recipients: &mut Vec<Recipient>)
    ensures { recipients.new.items ≡ map (notified_by flush.now labels.now fires) recipients.old.items }
{
    for index in 0..recipients.len() {
        notify(flush, labels, fires, &mut recipients[index]);
    }
}

/// Leaves those of these integrations for which a flush came.
fn keep_flushed(recipients: &mut Vec<Recipient>)
    ensures { recipients.new.items ≡ with_flush recipients.old.items }
{
    recipients.retain(
        |recipient: &Recipient| -> bool
            ensures { result ≡ not (is_unflushed recipient.now.page) }
        { !is_unflushed(recipient.page) },
    );
}

/// Whether there is an end, and it has come at a time.
fn has_come(end: Option<u64>, t: u64) -> bool
    ensures { result ≡ has_come end t }
{
    match end {
        None => false,
        Some(end) => end <= t,
    }
}
