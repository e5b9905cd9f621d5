//! The timeline as JSON.
ghost use Rattle.std.specs.Prelude.{◌≡◌, ◌++◌, ◌∷◌, [], IfOk, OnOk, codes, string_bytes};
ghost use Rattle.std.specs.Option.{option_map_or};
ghost use Rattle.serde_json.specs.Data.{no_members};
ghost use Rattle.serde_json.specs.View.{members_view};
ghost use Rattle.am_timeline.specs.Json.{content_members, edge_members, json_of_begun, json_of_event, json_of_remark, json_of_sent};
ghost use Rattle.am_timeline.specs.Json.{json_text, late_members, left_members, muted_member, not_asked_members, nothing_to_send_members};
ghost use Rattle.am_timeline.specs.Json.{number_at, object_line, outcome_members, outcome_word, put_all, reason_members, remark_event};
ghost use Rattle.am_timeline.specs.Json.{remark_members, said_members, sending_members, sent_event, sent_members, sent_reason_members};
ghost use Rattle.am_timeline.specs.Json.{sets_data, text_at, timed_members, unasked_members};
ghost use Rattle.am_timeline.specs.Playback.{sent_of};

mod object;

use crate::line::{expiry_if_first, reason_words};
use crate::playback::Playback;
use crate::print::Print;
use crate::remark::{Edge, Remark};
use crate::remarks::{Printer, push_remarks};
use crate::sent::{Sent, expiry_before, sent_of};
use am_model::config::Config;
use am_model::group::GroupName;
use am_model::notice::Notice;
use am_model::preview::MutedAlert;
use am_model::reason::Reason;
use am_retry::Outcome;
use am_terms::clock::TimeFormat;
use am_terms::event::{Event, PreviewedBegin};
use am_terms::shared_preview::SharedPreview;
use object::{Object, sets_of};
use std::alloc::{AllocError, Global};

/// Returns the timeline with one JSON object for each of its lines, in the same order.
///
/// Each object has `event` (`notice`, `failed`, `quiet` or `muted`), `at` (milliseconds from the
/// start), `time` (as the format shows it), `route` and `group` (the group labels). Where they
/// apply it has:
/// - `receiver`, `integration` (as `hook/0`), `outcome`, `attempts`, `reason`;
/// - `since`, `from`, `until`, `expired`, the `deadline` that a sending missed, and `edge`, the next flush, where a notice is
///   repeated at this one or there (milliseconds);
/// - `firing` and `resolved` (lists of label sets);
/// - `muted` (a list of objects with `labels`, `cause`, and `until` or `by` and `rule`).
pub fn json_text<C: TimeFormat>(
    alloc: Global,
    playback: &Playback,
    clock: &C,
) -> Result<String, AllocError>
    ensures { IfOk result (λ text. string_bytes text ≡ json_text playback.now (C.times clock.now)) }
{
    let print = Print {
        alloc,
        playback,
        clock,
    };
    let mut out = String::new(alloc);
    for event in playback.events {
        push_event(&print, event, &mut out)?;
    }
    Ok(out)
}

/// Adds the lines on an event.
fn push_event<C: TimeFormat>(
    print: &Print<'_, '_, C>,
    event: &Event,
    out: &mut String,
) -> Result<(), AllocError>
    ensures { OnOk result (string_bytes out.new
        ≡ string_bytes out.old ++ json_of_event print.now.playback.now (C.times print.now.clock.now) event.now) }
{
    let playback = print.playback;
    match event {
        Event::Begun { begin } => match playback.begins.get(*begin as usize) {
            None => Ok(()),
            Some(begin) => push_begun(print, begin, out),
        },
        Event::Sent { .. } => push_sent_by(print, event, out),
    }
}

/// Adds the line on the notice whose sending ended by this, if there is one.
fn push_sent_by<C: TimeFormat>(
    print: &Print<'_, '_, C>,
    event: &Event,
    out: &mut String,
) -> Result<(), AllocError>
    ensures { OnOk result (string_bytes out.new ≡ string_bytes out.old
        ++ option_map_or (json_of_sent print.now.playback.now (C.times print.now.clock.now))
        (sent_of print.now.playback.now event.now) []) }
{
    match sent_of(print.playback, event) {
        None => Ok(()),
        Some(sent) => push_sent(print, &sent, out),
    }
}

/// Adds the line on a notice whose sending came to its end, with the reason of its integration, if it has one.
fn push_sent<C: TimeFormat>(
    print: &Print<'_, '_, C>,
    sent: &Sent,
    out: &mut String,
) -> Result<(), AllocError>
    ensures { OnOk result (string_bytes out.new
        ≡ string_bytes out.old ++ json_of_sent print.now.playback.now (C.times print.now.clock.now) sent.now) }
{
    let notice = sent.notice;
    let reasons = sent.begin.preview.reasons();
    match reasons.get(notice.integration as usize) {
        None => Ok(()),
        Some(reason) => push_sent_for(print, sent, reason, out),
    }
}

fn push_sent_for<C: TimeFormat>(
    print: &Print<'_, '_, C>,
    sent: &Sent,
    reason: &Reason,
    out: &mut String,
) -> Result<(), AllocError>
    ensures { OnOk result (string_bytes out.new ≡ string_bytes out.old
        ++ object_line (sent_members print.now.playback.now (C.times print.now.clock.now) sent.now reason.now)) }
{
    let object = sent_object(print, sent, reason)?;
    object.push_line(out)
}

/// Returns the object of a notice that was sent for a reason.
#[tactic(auto, using(crate::proofs::Members::put_more), unfolding(crate::specs::Json::sent_members))]
fn sent_object<C: TimeFormat>(
    print: &Print<'_, '_, C>,
    sent: &Sent,
    reason: &Reason,
) -> Result<Object, AllocError>
    ensures { IfOk result (λ o. members_view o.members.entries
        ≡ put_all no_members (sent_members print.now.playback.now (C.times print.now.clock.now) sent.now reason.now)) }
{
    let mut object = sending_object(print, sent)?;
    put_sent_reason(expiry_before(print.playback, sent), reason, &mut object)?;
    put_content(print.alloc, sent.notice, &mut object)?;
    Ok(object)
}

/// Returns what is reported of every notice whose sending came to its end.
#[tactic(auto, using(crate::proofs::Members::put_more), unfolding(crate::specs::Json::sending_members))]
fn sending_object<C: TimeFormat>(
    print: &Print<'_, '_, C>,
    sent: &Sent,
) -> Result<Object, AllocError>
    ensures { IfOk result (λ o. members_view o.members.entries
        ≡ put_all no_members (sending_members print.now.playback.now.config (C.times print.now.clock.now) sent.now)) }
{
    let notice = sent.notice;
    let event = sent_event(sent.outcome);
    let mut object = Object::new(print, event, sent.report.ended, &notice.group)?;
    object.put_integration(print.config(), &notice.group, notice.integration as usize)?;
    put_outcome(sent, &mut object)?;
    Ok(object)
}

/// Puts how a sending went.
fn put_outcome(sent: &Sent, object: &mut Object) -> Result<(), AllocError>
    ensures { OnOk result (members_view object.new.members.entries
        ≡ put_all (members_view object.old.members.entries) (outcome_members sent.now)) }
{
    put_outcome_word(sent, object)?;
    put_attempts(sent, object)?;
    put_since(sent, object)?;
    put_if_late(sent, object)?;
    Ok(())
}

fn put_outcome_word(sent: &Sent, object: &mut Object) -> Result<(), AllocError>
    ensures { OnOk result (members_view object.new.members.entries
        ≡ put_all (members_view object.old.members.entries) (text_at (codes "outcome") (outcome_word sent.now.outcome) ∷ [])) }
{
    object.put_text("outcome", outcome_word(sent.outcome))
}

fn put_attempts(sent: &Sent, object: &mut Object) -> Result<(), AllocError>
    ensures { OnOk result (members_view object.new.members.entries
        ≡ put_all (members_view object.old.members.entries) (number_at (codes "attempts") sent.now.report.attempts ∷ [])) }
{
    object.put_number("attempts", sent.report.attempts)
}

fn put_since(sent: &Sent, object: &mut Object) -> Result<(), AllocError>
    ensures { OnOk result (members_view object.new.members.entries
        ≡ put_all (members_view object.old.members.entries) (number_at (codes "since") sent.now.begin.preview.time ∷ [])) }
{
    object.put_number("since", sent.begin.preview.time())
}

/// Puts the deadline of a notice whose sending ended after it.
#[tactic(auto, unfolding(crate::specs::Json::put_all))]
fn put_if_late(sent: &Sent, object: &mut Object) -> Result<(), AllocError>
    ensures { OnOk result (members_view object.new.members.entries
        ≡ put_all (members_view object.old.members.entries) (late_members sent.now)) }
{
    let notice = sent.notice;
    if notice.deadline < sent.report.ended {
        return object.put_number("deadline", notice.deadline);
    }
    Ok(())
}

/// Puts the alerts of a notice.
fn put_content(alloc: Global, notice: &Notice, object: &mut Object) -> Result<(), AllocError>
    ensures { OnOk result (members_view object.new.members.entries
        ≡ put_all (members_view object.old.members.entries) (content_members notice.now)) }
{
    put_firing(alloc, notice, object)?;
    put_resolved(alloc, notice, object)?;
    Ok(())
}

fn put_firing(alloc: Global, notice: &Notice, object: &mut Object) -> Result<(), AllocError>
    ensures { OnOk result (members_view object.new.members.entries
        ≡ put_all (members_view object.old.members.entries) ((codes "firing", sets_data notice.now.firing) ∷ [])) }
{
    object.put("firing", sets_of(alloc, notice.firing.as_slice())?)
}

fn put_resolved(alloc: Global, notice: &Notice, object: &mut Object) -> Result<(), AllocError>
    ensures { OnOk result (members_view object.new.members.entries
        ≡ put_all (members_view object.old.members.entries) ((codes "resolved", sets_data notice.now.resolved) ∷ [])) }
{
    object.put("resolved", sets_of(alloc, notice.resolved.as_slice())?)
}

/// Returns what happened to a notice that came to this.
fn sent_event(outcome: Outcome) -> &'static str
    ensures { result.now ≡ sent_event outcome }
{
    match outcome {
        Outcome::Delivered => "notice",
        Outcome::Refused | Outcome::Expired | Outcome::Starved => "failed",
    }
}

fn outcome_word(outcome: Outcome) -> &'static str
    ensures { result.now ≡ outcome_word outcome }
{
    match outcome {
        Outcome::Delivered => "delivered",
        Outcome::Refused => "refused",
        Outcome::Expired => "expired",
        Outcome::Starved => "starved",
    }
}

/// Puts why a notice was sent, where the log entry had expired at this time, if it had.
fn put_sent_reason(
    expiry: Option<u64>,
    reason: &Reason,
    object: &mut Object,
) -> Result<(), AllocError>
    ensures { OnOk result (members_view object.new.members.entries
        ≡ put_all (members_view object.old.members.entries) (sent_reason_members expiry reason.now)) }
{
    match expiry_if_first(expiry, reason) {
        None => put_reason(reason, object),
        Some(at) => put_timed("log entry expired", "expired", at, object),
    }
}

fn put_reason(reason: &Reason, object: &mut Object) -> Result<(), AllocError>
    ensures { OnOk result (members_view object.new.members.entries
        ≡ put_all (members_view object.old.members.entries) (reason_members reason.now)) }
{
    match reason {
        Reason::NotYet { from } => put_timed("nothing new", "from", *from, object),
        Reason::RouteMuted { until } => put_timed("route muted", "until", *until, object),
        Reason::FirstNotice
        | Reason::NewAlert
        | Reason::AllResolved
        | Reason::NewlyResolved
        | Reason::Repeat
        | Reason::NothingLeft
        | Reason::NothingFiring => object.put_text("reason", reason_words(reason)),
    }
}

/// Puts a reason with a time.
#[tactic(auto, using(crate::proofs::Members::put_more))]
fn put_timed(words: &str, name: &str, at: u64, object: &mut Object) -> Result<(), AllocError>
    ensures { OnOk result (members_view object.new.members.entries
        ≡ put_all (members_view object.old.members.entries) (timed_members words.now name.now at)) }
{
    object.put_text("reason", words)?;
    object.put_number(name, at)?;
    Ok(())
}

/// Adds the lines on a begin: the muted alerts, and each integration that isn't notified, with its
/// reason.
fn push_begun<C: TimeFormat>(
    print: &Print<'_, '_, C>,
    begin: &PreviewedBegin,
    out: &mut String,
) -> Result<(), AllocError>
    ensures { OnOk result (string_bytes out.new
        ≡ string_bytes out.old ++ json_of_begun print.now.playback.now (C.times print.now.clock.now) begin.now) }
{
    push_remarks(&Objects { print }, print.playback, begin, out)
}

/// Prints remarks as objects.
#[derive(Drop)]
struct Objects<'o, 'p, 's, C: TimeFormat> {
    print: &'o Print<'p, 's, C>,
}

impl<'o, 'p, 's, C: TimeFormat> Printer for Objects<'o, 'p, 's, C> {
    ghost line = { λ p o remark. json_of_remark p.print.now.playback.now.config (C.times p.print.now.clock.now) o remark };

    fn push(
        &self,
        preview: &SharedPreview,
        remark: Remark,
        out: &mut String,
    ) -> Result<(), AllocError> {
        push_remark(self.print, preview, remark, out)
    }
}

/// Adds the line on a remark.
fn push_remark<C: TimeFormat>(
    print: &Print<'_, '_, C>,
    preview: &SharedPreview,
    remark: Remark,
    out: &mut String,
) -> Result<(), AllocError>
    ensures { OnOk result (string_bytes out.new ≡ string_bytes out.old
        ++ json_of_remark print.now.playback.now.config (C.times print.now.clock.now) preview.now remark) }
{
    let object = remark_object(print, preview, remark)?;
    object.push_line(out)
}

#[tactic(auto, using(crate::proofs::Members::put_more), unfolding(crate::specs::Json::remark_members))]
fn remark_object<C: TimeFormat>(
    print: &Print<'_, '_, C>,
    preview: &SharedPreview,
    remark: Remark,
) -> Result<Object, AllocError>
    ensures { IfOk result (λ o. members_view o.members.entries ≡ put_all no_members
        (remark_members print.now.playback.now.config (C.times print.now.clock.now) preview.now remark)) }
{
    let event = remark_event(remark);
    let mut object = Object::new(print, event, preview.time(), preview.group())?;
    put_said(print.config(), preview, remark, &mut object)?;
    Ok(object)
}

/// Returns what happened at a begin of which this is said.
fn remark_event(remark: Remark) -> &'static str
    ensures { result.now ≡ remark_event remark }
{
    match remark {
        Remark::Muted => "muted",
        Remark::NoneLeft
        | Remark::NoIntegrations
        | Remark::NotAsked { .. }
        | Remark::NothingToSend { .. } => "quiet",
    }
}

/// Puts what is said of a begin.
fn put_said(
    config: &Config,
    preview: &SharedPreview,
    remark: Remark,
    object: &mut Object,
) -> Result<(), AllocError>
    ensures { OnOk result (members_view object.new.members.entries
        ≡ put_all (members_view object.old.members.entries) (said_members config.now preview.now remark)) }
{
    match remark {
        Remark::NoneLeft => put_left(preview.muted(), object),
        Remark::Muted => object.put_muted(preview.muted()),
        Remark::NoIntegrations => put_unasked(config, preview.group(), object),
        Remark::NotAsked {
            integration,
            reason,
            edge,
        } => put_not_asked(config, preview.group(), integration, &reason, edge, object),
        Remark::NothingToSend { integration } => {
            put_nothing_to_send(config, preview.group(), integration, object)
        }
    }
}

/// Puts that nothing is left of a group: no alerts, or muted ones.
fn put_left(muted: &[MutedAlert], object: &mut Object) -> Result<(), AllocError>
    ensures { OnOk result (members_view object.new.members.entries
        ≡ put_all (members_view object.old.members.entries) (left_members muted.now)) }
{
    object.put_text("reason", "nothing left")?;
    object.put_muted(muted)?;
    Ok(())
}

/// Puts that a group's receiver has no integrations.
#[tactic(auto, using(crate::proofs::Members::put_more))]
fn put_unasked(config: &Config, group: &GroupName, object: &mut Object) -> Result<(), AllocError>
    ensures { OnOk result (members_view object.new.members.entries
        ≡ put_all (members_view object.old.members.entries) (unasked_members config.now group.now)) }
{
    object.put_receiver(config, group)?;
    object.put_text("reason", "no integrations")?;
    Ok(())
}

/// Puts an integration that isn't asked at a begin, and why; it can be on the edge for it.
#[tactic(auto, using(crate::proofs::Members::put_more))]
fn put_not_asked(
    config: &Config,
    group: &GroupName,
    position: usize,
    reason: &Reason,
    edge: Option<Edge>,
    object: &mut Object,
) -> Result<(), AllocError>
    ensures { OnOk result (members_view object.new.members.entries ≡ put_all (members_view object.old.members.entries)
        (not_asked_members config.now group.now position reason.now edge)) }
{
    object.put_integration(config, group, position)?;
    put_reason(reason, object)?;
    put_edge(edge, object)?;
    Ok(())
}

/// Puts when the next flush begins, if a begin is on the edge.
#[tactic(auto, unfolding(crate::specs::Json::put_all))]
fn put_edge(edge: Option<Edge>, object: &mut Object) -> Result<(), AllocError>
    ensures { OnOk result (members_view object.new.members.entries
        ≡ put_all (members_view object.old.members.entries) (edge_members edge)) }
{
    match edge {
        None => Ok(()),
        Some(edge) => object.put_number("edge", edge.next),
    }
}

/// Puts an integration that is asked at a begin, but has nothing to send.
#[tactic(auto, using(crate::proofs::Members::put_more))]
fn put_nothing_to_send(
    config: &Config,
    group: &GroupName,
    position: usize,
    object: &mut Object,
) -> Result<(), AllocError>
    ensures { OnOk result (members_view object.new.members.entries
        ≡ put_all (members_view object.old.members.entries) (nothing_to_send_members config.now group.now position)) }
{
    object.put_integration(config, group, position)?;
    object.put_text("reason", "all resolved, which it isn't sent")?;
    Ok(())
}
