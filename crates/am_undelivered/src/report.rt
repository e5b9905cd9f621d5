//! The spans of firing of which an integration that should have been notified wasn't, or not of the end.
//!
//! All follows from the histories of a rehearsal and from what its begins were to do. Cost: the histories; each flush costs the alerts
//! of its group.
ghost use Rattle.std.specs.Prelude.{◌≡◌, ◌++◌, false, IfOk, None, OnOk, Some, codes, find, is_some, option_copied, string_bytes};
ghost use Rattle.am_alerts.specs.Labels.{same_label_set};
ghost use Rattle.std.specs.List.{flat_map, list_all};
ghost use Rattle.std.specs.Option.{option_map_or};
ghost use Rattle.am_undelivered.specs.Spans.{sets_in, spans_in};
ghost use Rattle.am_undelivered.specs.Undelivered.{behind_empty_line, cause_at, fate_text, fired_text, left_out_front};
ghost use Rattle.am_undelivered.specs.Undelivered.{left_out_text, lines_by};
ghost use Rattle.am_undelivered.specs.Undelivered.{missed_line, missed_of, missed_text, muted_text, no_integrations_line, preview_at};
ghost use Rattle.am_undelivered.specs.Undelivered.{recipient_line, recipient_text, same_missed, set_lines, span_front, span_lines};
ghost use Rattle.am_undelivered.specs.Undelivered.{subject_text, when_text};
ghost use Rattle.am_undelivered.specs.Undelivered.{spans_lines, undelivered_text, unflushed_text, whom_text};

use crate::fate::Fate;
use crate::flush::route_muted_until;
use crate::missed::{Missed, missed_of, same_missed};
use crate::recipient::Recipient;
use crate::span::{Span, Spans};
use crate::watches::Watches;
use am_alerts::labels::Labels;
use am_model::preview::MutedAlert;
use am_terms::clock::TimeFormat;
use am_terms::shared_preview::SharedPreview;
use am_timeline::integration_name::push_name_of;
use am_timeline::muted::push_cause;
use am_timeline::playback::Playback;
use am_timeline::shown::{push_set, push_text};
use std::alloc::{AllocError, Global};

/// What integrations missed in a rehearsal.
#[derive(Drop)]
pub struct UndeliveredReport {
    /// An empty line and a line for each span that is missed, or whose end is; nothing where there is none.
    pub text: String,
    /// The label sets that have such a line.
    pub sets: Vec<Labels>,
}

/// Returns an empty line and a line for each span of firing of which an integration that should have been notified wasn't, or not of
/// the end; nothing where there is none. The playbacks are those of a rehearsal's dispatchers, one after another.
///
/// The spans are in the order of the first inserts of their label sets.
pub fn undelivered_text<C: TimeFormat>(
    alloc: Global,
    playbacks: &[Playback<'_>],
    clock: &C,
) -> Result<String, AllocError>
    ensures { IfOk result (λ text. string_bytes text ≡ undelivered_text playbacks.now (C.times clock.now)) }
{
    Ok(undelivered(alloc, playbacks, clock)?.text)
}

/// Returns what integrations missed: the text of `undelivered_text`, and the label sets with a line in it.
pub fn undelivered<C: TimeFormat>(
    alloc: Global,
    playbacks: &[Playback<'_>],
    clock: &C,
) -> Result<UndeliveredReport, AllocError>
    ensures { IfOk result (λ found. string_bytes found.text ≡ undelivered_text playbacks.now (C.times clock.now)) }
{
    let mut sets = Vec::new(alloc);
    let text = text_and_sets(alloc, playbacks, clock, &mut sets)?;
    Ok(UndeliveredReport { text, sets })
}

/// Returns the text of `undelivered_text`, and adds the label sets with a line in it.
fn text_and_sets<C: TimeFormat>(
    alloc: Global,
    playbacks: &[Playback<'_>],
    clock: &C,
    sets: &mut Vec<Labels>,
) -> Result<String, AllocError>
    ensures { IfOk result (λ text. string_bytes text ≡ undelivered_text playbacks.now (C.times clock.now)) }
{
    let Some(first) = playbacks.first() else {
        return Ok(String::new(alloc));
    };
    let watches = Watches::of(alloc, first.logbook().seed(), playbacks)?;
    let mut lines = String::new(alloc);
    for labels in watches.sets() {
        if let Some(spans) = watches.spans(labels) {
            let length = lines.len();
            push_spans(playbacks, clock, labels, spans, &mut lines)?;
            note_set(alloc, labels, length < lines.len(), sets)?;
        }
    }
    behind_empty_line(alloc, lines)
}

/// Adds a label set, if it has a line.
fn note_set(
    alloc: Global,
    labels: &Labels,
    has_line: bool,
    sets: &mut Vec<Labels>,
) -> Result<(), AllocError> {
    if has_line {
        sets.push(labels.copy(alloc)?)?;
    }
    Ok(())
}

fn behind_empty_line(alloc: Global, lines: String) -> Result<String, AllocError>
    ensures { IfOk result (λ text. string_bytes text ≡ behind_empty_line (string_bytes lines)) }
{
    if lines.is_empty() {
        return Ok(lines);
    }
    let mut text = String::new(alloc);
    text.push_str("\n")?;
    text.push_str(lines.as_str())?;
    Ok(text)
}

/// A span of a label set, and whether it is the last one.
#[derive(Clone, Copy)]
struct SpanOf<'s> {
    labels: &'s Labels,
    is_last: bool,
    span: &'s Span,
}

/// Adds the lines on the spans of a label set.
fn push_spans<C: TimeFormat>(
    playbacks: &[Playback<'_>],
    clock: &C,
    labels: &Labels,
    spans: &Spans,
    out: &mut String,
) -> Result<(), AllocError>
    ensures { OnOk result (string_bytes out.new
        ≡ string_bytes out.old ++ spans_lines playbacks.now (C.times clock.now) labels.now spans.now) }
{
    push_earlier(playbacks, clock, labels, spans.before(), out)?;
    let of = SpanOf {
        labels,
        is_last: true,
        span: spans.last(),
    };
    push_span(playbacks, clock, of, out)
}

/// Adds the lines on spans of a label set, which aren't the last one.
fn push_earlier<C: TimeFormat>(
    playbacks: &[Playback<'_>],
    clock: &C,
    labels: &Labels,
    spans: &[Span],
    out: &mut String,
) -> Result<(), AllocError>
    ensures { OnOk result (string_bytes out.new
        ≡ string_bytes out.old ++ flat_map (span_lines playbacks.now (C.times clock.now) labels.now false) spans.now) }
{
    for span in spans {
        let of = SpanOf {
            labels,
            is_last: false,
            span,
        };
        push_span(playbacks, clock, of, out)?;
    }
    Ok(())
}

/// Adds the lines on a span.
fn push_span<C: TimeFormat>(
    playbacks: &[Playback<'_>],
    clock: &C,
    of: SpanOf<'_>,
    out: &mut String,
) -> Result<(), AllocError>
    ensures { OnOk result (string_bytes out.new
        ≡ string_bytes out.old ++ span_lines playbacks.now (C.times clock.now) of.entry.labels.now of.entry.is_last of.entry.span.now) }
{
    match of.span.recipients().first() {
        None => push_no_integrations(clock, of, out),
        Some(first) => {
            let missed = missed_of(of.is_last, of.span, first);
            push_lines(playbacks, clock, of, missed, out)
        }
    }
}

/// Adds that no receiver of a label set has integrations.
#[tactic(auto, unfolding(crate::specs::Undelivered::no_integrations_line))]
fn push_no_integrations<C: TimeFormat>(
    clock: &C,
    of: SpanOf<'_>,
    out: &mut String,
) -> Result<(), AllocError>
    ensures { OnOk result (string_bytes out.new
        ≡ string_bytes out.old ++ no_integrations_line (C.times clock.now) of.entry.labels.now of.entry.span.now) }
{
    push_front(clock, of, None, out)?;
    out.push_str("no integrations\n")
}

/// Adds one line for all integrations, which missed the same, or else one for each that missed something.
fn push_lines<C: TimeFormat>(
    playbacks: &[Playback<'_>],
    clock: &C,
    of: SpanOf<'_>,
    first: Option<Missed>,
    out: &mut String,
) -> Result<(), AllocError>
    ensures { OnOk result (string_bytes out.new
        ≡ string_bytes out.old ++ lines_by playbacks.now (C.times clock.now) of.entry.labels.now of.entry.is_last of.entry.span.now first) }
{
    match first {
        None => push_each(playbacks, clock, of, out),
        Some(missed) => {
            if have_all_missed(of, missed) {
                push_line(playbacks, clock, of, None, missed, out)
            } else {
                push_each(playbacks, clock, of, out)
            }
        }
    }
}

/// Whether all integrations missed this of a span.
fn have_all_missed(of: SpanOf<'_>, missed: Missed) -> bool
    ensures { result ≡ list_all (λ r. same_missed missed (missed_of of.entry.is_last of.entry.span.now r)) of.entry.span.now.recipients }
{
    for recipient in of.span.recipients() {
        if !same_missed(missed, missed_of(of.is_last, of.span, recipient)) {
            return false;
        }
    }
    true
}

/// Adds a line for each integration that missed something of a span.
fn push_each<C: TimeFormat>(
    playbacks: &[Playback<'_>],
    clock: &C,
    of: SpanOf<'_>,
    out: &mut String,
) -> Result<(), AllocError>
    ensures { OnOk result (string_bytes out.new ≡ string_bytes out.old
        ++ flat_map (recipient_line playbacks.now (C.times clock.now) of.entry.labels.now of.entry.is_last of.entry.span.now)
        of.entry.span.now.recipients) }
{
    for recipient in of.span.recipients() {
        push_recipient(playbacks, clock, of, recipient, out)?;
    }
    Ok(())
}

/// Adds the line on an integration, if it missed something of a span.
fn push_recipient<C: TimeFormat>(
    playbacks: &[Playback<'_>],
    clock: &C,
    of: SpanOf<'_>,
    recipient: &Recipient,
    out: &mut String,
) -> Result<(), AllocError>
    ensures { OnOk result (string_bytes out.new ≡ string_bytes out.old
        ++ recipient_line playbacks.now (C.times clock.now) of.entry.labels.now of.entry.is_last of.entry.span.now recipient.now) }
{
    match missed_of(of.is_last, of.span, recipient) {
        None => Ok(()),
        Some(missed) => push_line(playbacks, clock, of, Some(recipient), missed, out),
    }
}

/// Adds a line on a span: for an integration or for all, and what was missed.
#[tactic(auto, unfolding(crate::specs::Undelivered::missed_line))]
fn push_line<C: TimeFormat>(
    playbacks: &[Playback<'_>],
    clock: &C,
    of: SpanOf<'_>,
    whom: Option<&Recipient>,
    missed: Missed,
    out: &mut String,
) -> Result<(), AllocError>
    ensures { OnOk result (string_bytes out.new ≡ string_bytes out.old
        ++ missed_line playbacks.now (C.times clock.now) of.entry.labels.now of.entry.span.now
        (whom_text (option_copied whom.entry)) missed) }
{
    push_front(clock, of, whom, out)?;
    push_missed(playbacks, clock, of, missed, out)?;
    out.push_str("\n")
}

/// Adds the front of a line: the label set, for whom, and when it fired.
fn push_front<C: TimeFormat>(
    clock: &C,
    of: SpanOf<'_>,
    whom: Option<&Recipient>,
    out: &mut String,
) -> Result<(), AllocError>
    ensures { OnOk result (string_bytes out.new ≡ string_bytes out.old
        ++ span_front (C.times clock.now) of.entry.labels.now of.entry.span.now (whom_text (option_copied whom.entry))) }
{
    push_subject(of.labels, whom, out)?;
    push_when(clock, of.span, out)
}

/// Adds the label set, and for whom.
fn push_subject(
    labels: &Labels,
    whom: Option<&Recipient>,
    out: &mut String,
) -> Result<(), AllocError>
    ensures { OnOk result (string_bytes out.new
        ≡ string_bytes out.old ++ subject_text labels.now (whom_text (option_copied whom.entry))) }
{
    out.push_str("undelivered ")?;
    push_set(labels, out)?;
    push_whom(whom, out)
}

/// Adds when a span fired.
fn push_when<C: TimeFormat>(clock: &C, span: &Span, out: &mut String) -> Result<(), AllocError>
    ensures { OnOk result (string_bytes out.new ≡ string_bytes out.old ++ when_text (C.times clock.now) span.now) }
{
    out.push_str(": ")?;
    push_fired(clock, span.since(), span.ends(), out)?;
    out.push_str("; ")
}

/// Adds an integration, if one is named.
fn push_whom(whom: Option<&Recipient>, out: &mut String) -> Result<(), AllocError>
    ensures { OnOk result (string_bytes out.new ≡ string_bytes out.old ++ whom_text (option_copied whom.entry)) }
{
    match whom {
        None => Ok(()),
        Some(recipient) => push_integration(recipient, out),
    }
}

/// Adds an integration: its receiver and its name.
fn push_integration(recipient: &Recipient, out: &mut String) -> Result<(), AllocError>
    ensures { OnOk result (string_bytes out.new ≡ string_bytes out.old ++ recipient_text recipient.now) }
{
    out.push_str(" -> ")?;
    push_text(recipient.receiver.as_str(), out)?;
    out.push_str(" ")?;
    push_name_of(recipient.kind.as_str(), recipient.index, out)
}

/// Adds since when an alert fires, or from when to when it fired.
fn push_fired<C: TimeFormat>(
    clock: &C,
    since: u64,
    ends: Option<u64>,
    out: &mut String,
) -> Result<(), AllocError>
    ensures { OnOk result (string_bytes out.new ≡ string_bytes out.old ++ fired_text (C.times clock.now) since ends) }
{
    match ends {
        None => push_fires_since(clock, since, out),
        Some(end) => push_fired_to(clock, since, end, out),
    }
}

fn push_fires_since<C: TimeFormat>(
    clock: &C,
    since: u64,
    out: &mut String,
) -> Result<(), AllocError>
    ensures { OnOk result (string_bytes out.new ≡ string_bytes out.old ++ fired_text (C.times clock.now) since None) }
{
    out.push_str("fires since ")?;
    clock.push_time(since, out)
}

fn push_fired_to<C: TimeFormat>(
    clock: &C,
    since: u64,
    end: u64,
    out: &mut String,
) -> Result<(), AllocError>
    ensures { OnOk result (string_bytes out.new ≡ string_bytes out.old ++ fired_text (C.times clock.now) since (Some end)) }
{
    out.push_str("fired ")?;
    clock.push_time(since, out)?;
    out.push_str(" to ")?;
    clock.push_time(end, out)
}

/// Adds what was missed of a span, and why.
fn push_missed<C: TimeFormat>(
    playbacks: &[Playback<'_>],
    clock: &C,
    of: SpanOf<'_>,
    missed: Missed,
    out: &mut String,
) -> Result<(), AllocError>
    ensures { OnOk result (string_bytes out.new ≡ string_bytes out.old
        ++ missed_text playbacks.now (C.times clock.now) of.entry.labels.now (is_some of.entry.span.now.ends) missed) }
{
    match missed {
        Missed::Page(fate) => push_fate(playbacks, clock, of, true, fate, out),
        Missed::Clear(fate) => push_clear(playbacks, clock, of, fate, out),
    }
}

/// Adds that the end of an alert was missed, and why.
fn push_clear<C: TimeFormat>(
    playbacks: &[Playback<'_>],
    clock: &C,
    of: SpanOf<'_>,
    fate: Fate,
    out: &mut String,
) -> Result<(), AllocError>
    ensures { OnOk result (string_bytes out.new ≡ string_bytes out.old
        ++ (codes "resolved unseen: "
        ++ fate_text playbacks.now (C.times clock.now) of.entry.labels.now false (is_some of.entry.span.now.ends) fate)) }
{
    out.push_str("resolved unseen: ")?;
    push_fate(playbacks, clock, of, false, fate, out)
}

/// Adds why an integration wasn't notified that an alert fires, or of its end.
fn push_fate<C: TimeFormat>(
    playbacks: &[Playback<'_>],
    clock: &C,
    of: SpanOf<'_>,
    fires: bool,
    fate: Fate,
    out: &mut String,
) -> Result<(), AllocError>
    ensures { OnOk result (string_bytes out.new ≡ string_bytes out.old
        ++ fate_text playbacks.now (C.times clock.now) of.entry.labels.now fires (is_some of.entry.span.now.ends) fate) }
{
    match fate {
        Fate::Unflushed => out.push_str(unflushed_text(fires, of.span.ends().is_some())),
        Fate::Unlisted => out.push_str("a flush sent nothing of it"),
        Fate::Muted { part, begin } => {
            out.push_str(left_out_front(fires))?;
            push_cause_at(clock, of.labels, preview_at(playbacks, part, begin), out)
        }
        Fate::Failed => out.push_str("every notice failed"),
        Fate::Seen => Ok(()),
    }
}

fn left_out_front(fires: bool) -> &'static str
    ensures { result.now ≡ left_out_front fires }
{
    if fires {
        "muted at each flush:"
    } else {
        "muted at a flush:"
    }
}

fn unflushed_text(fires: bool, is_over: bool) -> &'static str
    ensures { result.now ≡ unflushed_text fires is_over }
{
    if !fires {
        "no flush had it since"
    } else if is_over {
        "resolved before a flush of its group"
    } else {
        "no flush of its group since"
    }
}

/// The begin at a position of the dispatcher at a position.
fn preview_at<'s>(
    playbacks: &[Playback<'s>],
    part: usize,
    begin: usize,
) -> Option<&'s SharedPreview>
    ensures { option_copied result ≡ preview_at playbacks.now part begin }
{
    let playback = playbacks.get(part)?;
    let previewed = playback.begins().get(begin)?;
    Some(&previewed.preview)
}

/// Adds why a begin left a label set out, if it is there.
fn push_cause_at<C: TimeFormat>(
    clock: &C,
    labels: &Labels,
    preview: Option<&SharedPreview>,
    out: &mut String,
) -> Result<(), AllocError>
    ensures { OnOk result (string_bytes out.new
        ≡ string_bytes out.old ++ cause_at (C.times clock.now) labels.now (option_copied preview.entry)) }
{
    let Some(preview) = preview else {
        return Ok(());
    };
    let until = route_muted_until(preview);
    push_left_out(clock, labels, preview.muted(), until, out)
}

/// Adds why a begin left a label set out, which is one of these muted alerts, or whose route is muted until a time.
fn push_left_out<C: TimeFormat>(
    clock: &C,
    labels: &Labels,
    muted: &[MutedAlert],
    until: Option<u64>,
    out: &mut String,
) -> Result<(), AllocError>
    ensures { OnOk result (string_bytes out.new
        ≡ string_bytes out.old ++ left_out_text (C.times clock.now) labels.now muted.now until) }
{
    match until {
        None => push_muted(clock, labels, muted, out),
        Some(until) => push_route_muted(clock, until, out),
    }
}

fn push_route_muted<C: TimeFormat>(
    clock: &C,
    until: u64,
    out: &mut String,
) -> Result<(), AllocError>
    ensures { OnOk result (string_bytes out.new
        ≡ string_bytes out.old ++ (codes " route muted until " ++ (C.times clock.now).text until)) }
{
    out.push_str(" route muted until ")?;
    clock.push_time(until, out)
}

/// Adds why a label set is one of these muted alerts.
fn push_muted<C: TimeFormat>(
    clock: &C,
    labels: &Labels,
    muted: &[MutedAlert],
    out: &mut String,
) -> Result<(), AllocError>
    ensures { OnOk result (string_bytes out.new
        ≡ string_bytes out.old ++ muted_text (C.times clock.now) labels.now muted.now) }
{
    match muted_in(labels, muted) {
        None => Ok(()),
        Some(alert) => push_cause(clock, &alert.cause, out),
    }
}

/// The first of these muted alerts that has a label set.
fn muted_in<'s>(labels: &Labels, muted: &'s [MutedAlert]) -> Option<&'s MutedAlert>
    ensures { option_copied result ≡ find (λ m. same_label_set m.labels labels.now) muted.now }
{
    muted.iter().find(|alert| alert.labels == *labels)
}
