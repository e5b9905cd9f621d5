//! The remarks on a begin. What is said is decided here, and printed elsewhere: by the timeline, and as JSON.
ghost use Rattle.std.specs.Prelude.{◌≡◌, ◌++◌, [], OnOk, string_bytes};
ghost use Rattle.std.specs.List.{flat_map, list_all};
ghost use Rattle.std.specs.Option.{option_map_or};
ghost use Rattle.am_timeline.specs.Timeline.{edge_of, is_left, is_sent_nothing, next_flush, nothing_left, remark_on, remarks};
ghost use Rattle.am_timeline.specs.Timeline.{remarks_from, remarks_on_integrations};

use crate::line::is_on_edge;
use crate::playback::{Playback, notice_for, notices_at};
use crate::remark::{Edge, Remark};
use am_alerts::limits::MAX_TIME;
use am_model::config::Config;
use am_model::notice::Notice;
use am_model::reason::Reason;
use am_terms::event::PreviewedBegin;
use am_terms::shared_preview::SharedPreview;
use std::alloc::AllocError;

/// Prints remarks, each as a line.
pub(crate) trait Printer {
    ghost use Rattle.std.specs.Prelude.{◌≡◌, ◌++◌, ℕ, List, OnOk, string_bytes};
    ghost use Rattle.am_model.specs.declared.preview.Preview as previews;
    ghost use Rattle.am_timeline.specs.declared.remark.Remark as said;

    ghost line: { Self → previews.Preview → said.Remark → List ℕ };

    /// Adds the line on a remark on the begin that has this preview.
    fn push(
        &self,
        preview: &SharedPreview,
        remark: Remark,
        out: &mut String,
    ) -> Result<(), AllocError>
        ensures { OnOk result (string_bytes out.new ≡ string_bytes out.old ++ line self.now preview.now remark) };
}

/// Adds the lines on a begin: which alerts are muted, and who is sent nothing.
pub(crate) fn push_remarks<P: Printer>(
    printer: &P,
    playback: &Playback,
    begin: &PreviewedBegin,
    out: &mut String,
) -> Result<(), AllocError>
    ensures { OnOk result (string_bytes out.new ≡ string_bytes out.old
        ++ flat_map (P.line printer.now begin.now.preview) (remarks playback.now begin.now)) }
{
    let preview = &begin.preview;
    if nothing_left(preview.reasons()) {
        return printer.push(preview, Remark::NoneLeft, out);
    }
    if preview.muted().len() != 0 {
        printer.push(preview, Remark::Muted, out)?;
    }
    let notices = notices_at(playback.history, begin.index);
    push_on_integrations(printer, playback.config, preview, notices, out)
}

/// Returns whether nothing is left of a group, by the reasons of its receiver's integrations.
fn nothing_left(reasons: &[Reason]) -> bool
    ensures { result ≡ nothing_left reasons.now }
{
    reasons.len() != 0 && are_left(reasons)
}

fn are_left(reasons: &[Reason]) -> bool
    ensures { result ≡ list_all is_left reasons.now }
{
    reasons.iter().all(|reason| is_left(reason))
}

fn is_left(reason: &Reason) -> bool
    ensures { result ≡ is_left reason.now }
{
    match reason {
        Reason::NothingLeft => true,
        _ => false,
    }
}

/// Adds the lines on the integrations at a begin.
fn push_on_integrations<P: Printer>(
    printer: &P,
    config: &Config,
    preview: &SharedPreview,
    notices: &[Notice],
    out: &mut String,
) -> Result<(), AllocError>
    ensures { OnOk result (string_bytes out.new ≡ string_bytes out.old
        ++ flat_map (P.line printer.now preview.now) (remarks_on_integrations config.now preview.now notices.now)) }
{
    if preview.reasons().len() == 0 {
        return printer.push(preview, Remark::NoIntegrations, out);
    }
    push_on_each(printer, config, preview, notices, out)
}

#[tactic(auto, using(crate::proofs::RemarkLines::lines_before))]
fn push_on_each<P: Printer>(
    printer: &P,
    config: &Config,
    preview: &SharedPreview,
    notices: &[Notice],
    out: &mut String,
) -> Result<(), AllocError>
    ensures { OnOk result (string_bytes out.new ≡ string_bytes out.old
        ++ flat_map (P.line printer.now preview.now) (remarks_from config.now preview.now notices.now 0 preview.now.reasons)) }
{
    for (position, reason) in preview.reasons().iter().enumerate() {
        let remark = remark_on(config, preview, notices, position, reason);
        push_if_any(printer, preview, remark, out)?;
    }
    Ok(())
}

/// Adds the line on a remark, if there is one.
fn push_if_any<P: Printer>(
    printer: &P,
    preview: &SharedPreview,
    remark: Option<Remark>,
    out: &mut String,
) -> Result<(), AllocError>
    ensures { OnOk result (string_bytes out.new
        ≡ string_bytes out.old ++ option_map_or (P.line printer.now preview.now) remark []) }
{
    match remark {
        None => Ok(()),
        Some(remark) => printer.push(preview, remark, out),
    }
}

/// Returns what is said of an integration at a begin; nothing where there is something to send.
fn remark_on(
    config: &Config,
    preview: &SharedPreview,
    notices: &[Notice],
    integration: usize,
    reason: &Reason,
) -> Option<Remark>
    ensures { result ≡ remark_on config.now preview.now notices.now integration reason.now }
{
    if !reason.notifies() {
        return Some(Remark::NotAsked {
            integration,
            reason: *reason,
            edge: edge_of(config, preview, reason),
        });
    }
    if is_sent_nothing(notices, integration) {
        return Some(Remark::NothingToSend { integration });
    }
    None
}

/// Returns a begin that is on the edge for an integration, with the next flush.
fn edge_of(config: &Config, preview: &SharedPreview, reason: &Reason) -> Option<Edge>
    ensures { result ≡ edge_of config.now preview.now reason.now }
{
    let at = preview.time();
    if is_on_edge(at, reason) {
        let next = next_flush(config, preview);
        return Some(Edge { at, next });
    }
    None
}

/// Returns when the group of a begin is flushed next, in milliseconds.
fn next_flush(config: &Config, preview: &SharedPreview) -> u64
    ensures { result ≡ next_flush config.now preview.now }
{
    let interval = config.route_of(preview.group()).group_interval;
    preview.time().saturating_add(interval).min(MAX_TIME)
}

/// Returns whether an integration needs an update, but its notice has nothing to send.
fn is_sent_nothing(notices: &[Notice], position: usize) -> bool
    ensures { result ≡ is_sent_nothing notices.now position }
{
    match notice_for(position, notices) {
        None => false,
        Some(notice) => notice.nothing(),
    }
}
