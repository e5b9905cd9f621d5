//! The timeline: a line for each event of a rehearsal.
ghost use Rattle.std.specs.Prelude.{◌≡◌, ◌++◌, [], IfOk, OnOk, codes, string_bytes};
ghost use Rattle.std.specs.Option.{option_map_or};
ghost use Rattle.am_timeline.specs.Playback.{sent_of};
ghost use Rattle.am_timeline.specs.Timeline.{content_text, delivered_text, event_lines, failed_text, late_text, line_for};
ghost use Rattle.am_timeline.specs.Timeline.{outcome_text, own_lines, past_text, retries_text, sent_line, timeline_text};

use crate::alerts::push_alerts;
use crate::begun::push_begun;
use crate::frame::Frame;
use crate::groups::push_target;
use crate::line::{push_attempts, push_retries, push_sent_reason, push_time};
use crate::playback::Playback;
use crate::print::Print;
use crate::sent::{Sent, expiry_before, sent_of};
use am_model::config::Config;
use am_model::notice::Notice;
use am_model::reason::Reason;
use am_retry::Outcome;
use am_terms::clock::TimeFormat;
use am_terms::event::{Event, PreviewedBegin};
use std::alloc::{AllocError, Global};

/// Returns the timeline of a rehearsal: the lines on all events, in their order.
///
/// A notice has the reason of its integration in the preview of its begin, and the outcome in the
/// finish of its flush. Cost: the events, and a look-up for each notice.
pub fn timeline_text<C: TimeFormat>(
    alloc: Global,
    playback: &Playback,
    clock: &C,
) -> Result<String, AllocError>
    ensures { IfOk result (λ text. string_bytes text ≡ timeline_text playback.now (C.times clock.now)) }
{
    let print = Print {
        alloc,
        playback,
        clock,
    };
    let mut out = String::new(alloc);
    for event in playback.events {
        push_event(&print, event, &mut out)?;
    }
    Ok(out)
}

/// Adds the lines on an event.
fn push_event<C: TimeFormat>(
    print: &Print<'_, '_, C>,
    event: &Event,
    out: &mut String,
) -> Result<(), AllocError>
    ensures { OnOk result (string_bytes out.new
        ≡ string_bytes out.old ++ event_lines print.now.playback.now (C.times print.now.clock.now) event.now) }
{
    let playback = print.playback;
    match event {
        Event::Begun { begin } => match playback.begins.get(*begin as usize) {
            None => Ok(()),
            Some(begin) => push_own(print, begin, out),
        },
        Event::Sent { .. } => push_sent_by(print, event, out),
    }
}

/// Adds the lines on a begin, each with its own time.
fn push_own<C: TimeFormat>(
    print: &Print<'_, '_, C>,
    begin: &PreviewedBegin,
    out: &mut String,
) -> Result<(), AllocError>
    ensures { OnOk result (string_bytes out.new
        ≡ string_bytes out.old ++ own_lines print.now.playback.now (C.times print.now.clock.now) begin.now) }
{
    let frame = Frame {
        time: begin.preview.time(),
        ending: "\n",
    };
    push_begun(print, &frame, begin, out)
}

/// Adds the line on the notice whose sending ended by this, if there is one.
pub(crate) fn push_sent_by<C: TimeFormat>(
    print: &Print<'_, '_, C>,
    event: &Event,
    out: &mut String,
) -> Result<(), AllocError>
    ensures { OnOk result (string_bytes out.new ≡ string_bytes out.old
        ++ option_map_or (sent_line print.now.playback.now (C.times print.now.clock.now)) (sent_of print.now.playback.now event.now) []) }
{
    match sent_of(print.playback, event) {
        None => Ok(()),
        Some(sent) => push_sent(print, &sent, out),
    }
}

/// Adds the line on a notice whose sending came to its end, with the reason of its integration, if it has one.
pub(crate) fn push_sent<C: TimeFormat>(
    print: &Print<'_, '_, C>,
    sent: &Sent,
    out: &mut String,
) -> Result<(), AllocError>
    ensures { OnOk result (string_bytes out.new
        ≡ string_bytes out.old ++ sent_line print.now.playback.now (C.times print.now.clock.now) sent.now) }
{
    let notice = sent.notice;
    let reasons = sent.begin.preview.reasons();
    match reasons.get(notice.integration as usize) {
        None => Ok(()),
        Some(reason) => push_line(print, sent, reason, out),
    }
}

fn push_line<C: TimeFormat>(
    print: &Print<'_, '_, C>,
    sent: &Sent,
    reason: &Reason,
    out: &mut String,
) -> Result<(), AllocError>
    ensures { OnOk result (string_bytes out.new
        ≡ string_bytes out.old ++ line_for print.now.playback.now (C.times print.now.clock.now) sent.now reason.now) }
{
    push_outcome(print, sent, out)?;
    push_content(
        print.clock,
        expiry_before(print.playback, sent),
        reason,
        sent.notice,
        out,
    )
}

/// Adds what a notice came to.
fn push_outcome<C: TimeFormat>(
    print: &Print<'_, '_, C>,
    sent: &Sent,
    out: &mut String,
) -> Result<(), AllocError>
    ensures { OnOk result (string_bytes out.new
        ≡ string_bytes out.old ++ outcome_text sent.now.outcome print.now.playback.now.config (C.times print.now.clock.now) sent.now) }
{
    match sent.outcome {
        Outcome::Delivered => push_delivery(print.config(), print.clock, sent, out),
        Outcome::Refused => push_failure(print, sent, " refused", out),
        Outcome::Expired => push_failure(print, sent, " expired", out),
        Outcome::Starved => push_failure(print, sent, " starved", out),
    }
}

/// Adds that a notice was delivered.
fn push_delivery<C: TimeFormat>(
    config: &Config,
    clock: &C,
    sent: &Sent,
    out: &mut String,
) -> Result<(), AllocError>
    ensures { OnOk result (string_bytes out.new
        ≡ string_bytes out.old ++ delivered_text config.now (C.times clock.now) sent.now) }
{
    let notice = sent.notice;
    push_time(clock, sent.report.ended, "notice  ", out)?;
    push_target(config, &notice.group, notice.integration as usize, out)?;
    push_delivered(clock, sent, out)
}

/// Adds after how many attempts a notice was delivered, and whether that was late.
fn push_delivered<C: TimeFormat>(clock: &C, sent: &Sent, out: &mut String) -> Result<(), AllocError>
    ensures { OnOk result (string_bytes out.new ≡ string_bytes out.old
        ++ (codes " delivered" ++ retries_text (C.times clock.now) sent.now.report.attempts sent.now.begin.preview.time
        ++ late_text (C.times clock.now) sent.now)) }
{
    out.push_str(" delivered")?;
    push_retries(clock, sent.report.attempts, sent.begin.preview.time(), out)?;
    push_if_late(clock, sent, out)
}

/// Adds that a notice wasn't delivered, and what it came to.
fn push_failure<C: TimeFormat>(
    print: &Print<'_, '_, C>,
    sent: &Sent,
    word: &str,
    out: &mut String,
) -> Result<(), AllocError>
    ensures { OnOk result (string_bytes out.new
        ≡ string_bytes out.old ++ failed_text print.now.playback.now.config (C.times print.now.clock.now) sent.now word.now) }
{
    let notice = sent.notice;
    push_time(print.clock, sent.report.ended, "failed  ", out)?;
    push_target(
        print.config(),
        &notice.group,
        notice.integration as usize,
        out,
    )?;
    out.push_str(word)?;
    push_attempts(
        print.clock,
        sent.report.attempts,
        sent.begin.preview.time(),
        out,
    )?;
    push_if_late(print.clock, sent, out)
}

/// Adds that a sending ended after the deadline of its flush, if it did.
///
/// An attempt that has begun goes on here until it ends. Alertmanager cuts it off at the deadline.
fn push_if_late<C: TimeFormat>(clock: &C, sent: &Sent, out: &mut String) -> Result<(), AllocError>
    ensures { OnOk result (string_bytes out.new
        ≡ string_bytes out.old ++ late_text (C.times clock.now) sent.now) }
{
    let notice = sent.notice;
    if notice.deadline < sent.report.ended {
        return push_late(clock, notice.deadline, out);
    }
    Ok(())
}

/// Adds that a sending ended after this deadline.
fn push_late<C: TimeFormat>(clock: &C, deadline: u64, out: &mut String) -> Result<(), AllocError>
    ensures { OnOk result (string_bytes out.new
        ≡ string_bytes out.old ++ past_text (C.times clock.now) deadline) }
{
    out.push_str(", past its deadline ")?;
    clock.push_time(deadline, out)?;
    out.push_str(", at which Alertmanager cuts it off")
}

/// Adds why a notice was sent, where the log entry had expired at this time, if it had; and its alerts.
fn push_content<C: TimeFormat>(
    clock: &C,
    expiry: Option<u64>,
    reason: &Reason,
    notice: &Notice,
    out: &mut String,
) -> Result<(), AllocError>
    ensures { OnOk result (string_bytes out.new
        ≡ string_bytes out.old ++ content_text (C.times clock.now) expiry reason.now notice.now) }
{
    out.push_str(": ")?;
    push_sent_reason(clock, expiry, reason, out)?;
    push_alerts("; firing ", notice.firing.as_slice(), out)?;
    push_alerts("; resolved ", notice.resolved.as_slice(), out)?;
    out.push_str("\n")
}
