//! The lines of the timeline on begins.
ghost use Rattle.std.specs.Prelude.{◌≡◌, ◌++◌, OnOk, string_bytes};
ghost use Rattle.am_timeline.specs.Timeline.{begun_lines, edge_text, nothing_left_text, quiet_reason_text, remark_line, remark_target};
ghost use Rattle.am_timeline.specs.Timeline.{remark_text, remark_word, time_behind};

use crate::frame::Frame;
use crate::groups::{push_group, push_group_receiver, push_target};
use crate::line::{push_reason, push_time};
use crate::muted::push_muted;
use crate::print::Print;
use crate::remark::{Edge, Remark};
use crate::remarks::{Printer, push_remarks};
use am_model::config::Config;
use am_model::group::GroupName;
use am_model::preview::MutedAlert;
use am_model::reason::Reason;
use am_terms::clock::TimeFormat;
use am_terms::event::PreviewedBegin;
use am_terms::shared_preview::SharedPreview;
use std::alloc::AllocError;

/// Prints remarks in a frame.
#[derive(Drop)]
struct Lines<'l, 'p, 's, C: TimeFormat> {
    print: &'l Print<'p, 's, C>,
    frame: &'l Frame<'l>,
}

impl<'l, 'p, 's, C: TimeFormat> Printer for Lines<'l, 'p, 's, C> {
    ghost line = { λ l o remark.
        remark_line l.print.now.playback.now.config (C.times l.print.now.clock.now) l.frame.now o remark };

    fn push(
        &self,
        preview: &SharedPreview,
        remark: Remark,
        out: &mut String,
    ) -> Result<(), AllocError> {
        push_remark(self.print, self.frame, preview, remark, out)
    }
}

/// Adds the lines on a begin: which alerts are muted, and each integration that isn't notified, with its
/// reason.
pub(crate) fn push_begun<C: TimeFormat>(
    print: &Print<'_, '_, C>,
    frame: &Frame<'_>,
    begin: &PreviewedBegin,
    out: &mut String,
) -> Result<(), AllocError>
    ensures { OnOk result (string_bytes out.new
        ≡ string_bytes out.old ++ begun_lines print.now.playback.now (C.times print.now.clock.now) frame.now begin.now) }
{
    let lines = Lines { print, frame };
    push_remarks(&lines, print.playback, begin, out)
}

fn push_remark<C: TimeFormat>(
    print: &Print<'_, '_, C>,
    frame: &Frame<'_>,
    preview: &SharedPreview,
    remark: Remark,
    out: &mut String,
) -> Result<(), AllocError>
    ensures { OnOk result (string_bytes out.new ≡ string_bytes out.old
        ++ remark_line print.now.playback.now.config (C.times print.now.clock.now) frame.now preview.now remark) }
{
    push_time(print.clock, frame.time, remark_word(remark), out)?;
    push_remark_target(print.config(), preview.group(), remark, out)?;
    out.push_str(": ")?;
    push_remark_text(print.clock, preview.muted(), remark, out)?;
    out.push_str(frame.ending)
}

fn remark_word(remark: Remark) -> &'static str
    ensures { result.now ≡ remark_word remark }
{
    match remark {
        Remark::Muted => "muted   ",
        Remark::NoneLeft
        | Remark::NoIntegrations
        | Remark::NotAsked { .. }
        | Remark::NothingToSend { .. } => "quiet   ",
    }
}

/// Adds of whom something is said: a group, its receiver or an integration of that.
fn push_remark_target(
    config: &Config,
    group: &GroupName,
    remark: Remark,
    out: &mut String,
) -> Result<(), AllocError>
    ensures { OnOk result (string_bytes out.new
        ≡ string_bytes out.old ++ remark_target config.now group.now remark) }
{
    match remark {
        Remark::NoneLeft | Remark::Muted => push_group(config, group, out),
        Remark::NoIntegrations => push_group_receiver(config, group, out),
        Remark::NotAsked { integration, .. } => push_target(config, group, integration, out),
        Remark::NothingToSend { integration } => push_target(config, group, integration, out),
    }
}

/// Adds what is said, where these alerts are muted.
fn push_remark_text<C: TimeFormat>(
    clock: &C,
    muted: &[MutedAlert],
    remark: Remark,
    out: &mut String,
) -> Result<(), AllocError>
    ensures { OnOk result (string_bytes out.new
        ≡ string_bytes out.old ++ remark_text (C.times clock.now) muted.now remark) }
{
    match remark {
        Remark::NoneLeft => push_muted_or_none(clock, muted, out),
        Remark::Muted => push_muted(clock, muted, out),
        Remark::NoIntegrations => out.push_str("no integrations"),
        Remark::NotAsked { reason, edge, .. } => push_quiet_reason(clock, &reason, edge, out),
        Remark::NothingToSend { .. } => out.push_str("all resolved, which it isn't sent"),
    }
}

fn push_muted_or_none<C: TimeFormat>(
    clock: &C,
    muted: &[MutedAlert],
    out: &mut String,
) -> Result<(), AllocError>
    ensures { OnOk result (string_bytes out.new
        ≡ string_bytes out.old ++ nothing_left_text (C.times clock.now) muted.now) }
{
    if muted.len() == 0 {
        return out.push_str("no alerts");
    }
    push_muted(clock, muted, out)
}

/// Adds why an integration isn't asked at a begin; it can be on the edge for it.
fn push_quiet_reason<C: TimeFormat>(
    clock: &C,
    reason: &Reason,
    edge: Option<Edge>,
    out: &mut String,
) -> Result<(), AllocError>
    ensures { OnOk result (string_bytes out.new
        ≡ string_bytes out.old ++ quiet_reason_text (C.times clock.now) reason.now edge) }
{
    match edge {
        None => push_reason(clock, reason, out),
        Some(edge) => push_edge(clock, edge, out),
    }
}

/// Adds that a notice is repeated at one of two flushes.
#[tactic(auto, unfolding(crate::specs::Timeline::edge_text))]
fn push_edge<C: TimeFormat>(clock: &C, edge: Edge, out: &mut String) -> Result<(), AllocError>
    ensures { OnOk result (string_bytes out.new ≡ string_bytes out.old ++ edge_text (C.times clock.now) edge) }
{
    push_behind(clock, "repeat at ", edge.at, out)?;
    push_behind(clock, " or ", edge.next, out)?;
    out.push_str(": on the edge")
}

/// Adds a time behind a word.
#[tactic(auto, unfolding(crate::specs::Timeline::time_behind))]
fn push_behind<C: TimeFormat>(
    clock: &C,
    word: &str,
    at: u64,
    out: &mut String,
) -> Result<(), AllocError>
    ensures { OnOk result (string_bytes out.new ≡ string_bytes out.old ++ time_behind (C.times clock.now) word.now at) }
{
    out.push_str(word)?;
    clock.push_time(at, out)
}
