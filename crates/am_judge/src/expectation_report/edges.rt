//! The repeats on the edge on which an answer depends, as text.
ghost use Rattle.std.specs.Prelude.{◌≡◌, ◌++◌, OnOk, string_bytes};
ghost use Rattle.am_judge.specs.ExpectationReport.{all_edges, edge_line, edge_text, edges_by, edges_in, edges_of, edges_text};
ghost use Rattle.am_judge.specs.ExpectationReport.{flushes_text};

use crate::edge::{Flushes, Side, depends_on_edge, edge_of};
use crate::expectation_report::came::push_getter;
use crate::judged::Question;
use am_model::config::Config;
use am_terms::clock::TimeFormat;
use am_terms::event::Event;
use am_timeline::playback::Playback;
use am_timeline::sent::{Sent, sent_of};
use std::alloc::AllocError;

/// Adds the repeats on the edge on which the answer to an expectation depends; nothing where it doesn't.
pub(crate) fn push_edges<C: TimeFormat>(
    question: &Question<'_>,
    clock: &C,
    out: &mut String,
) -> Result<(), AllocError>
    ensures { OnOk result (string_bytes out.new ≡ string_bytes out.old
        ++ edges_text question.now.playbacks.now (C.times clock.now) question.now.expectation.now) }
{
    if depends_on_edge(question)? {
        return push_all_edges(question, clock, out);
    }
    Ok(())
}

/// Adds the repeats on the edge of all playbacks.
fn push_all_edges<C: TimeFormat>(
    question: &Question<'_>,
    clock: &C,
    out: &mut String,
) -> Result<(), AllocError>
    ensures { OnOk result (string_bytes out.new ≡ string_bytes out.old
        ++ all_edges question.now.playbacks.now (C.times clock.now) question.now.expectation.now) }
{
    let playbacks = question.playbacks;
    for playback in playbacks {
        push_edges_in(question, clock, playback, out)?;
    }
    Ok(())
}

/// Adds those of a playback.
fn push_edges_in<C: TimeFormat>(
    question: &Question<'_>,
    clock: &C,
    playback: &Playback,
    out: &mut String,
) -> Result<(), AllocError>
    ensures { OnOk result (string_bytes out.new ≡ string_bytes out.old
        ++ edges_in question.now.playbacks.now (C.times clock.now) question.now.expectation.now playback.now) }
{
    let events = playback.events();
    for event in events {
        push_edges_by(question, clock, playback, event, out)?;
    }
    Ok(())
}

/// Adds those of the notice whose sending ended by this.
fn push_edges_by<C: TimeFormat>(
    question: &Question<'_>,
    clock: &C,
    playback: &Playback,
    event: &Event,
    out: &mut String,
) -> Result<(), AllocError>
    ensures { OnOk result (string_bytes out.new ≡ string_bytes out.old
        ++ edges_by question.now.playbacks.now (C.times clock.now) question.now.expectation.now playback.now event.now) }
{
    match sent_of(playback, event) {
        None => Ok(()),
        Some(sent) => push_edges_of(question, clock, playback, &sent, out),
    }
}

/// Adds the repeats that a notice is and that follows it, if they count otherwise at the first of their flushes.
fn push_edges_of<C: TimeFormat>(
    question: &Question<'_>,
    clock: &C,
    playback: &Playback,
    sent: &Sent,
    out: &mut String,
) -> Result<(), AllocError>
    ensures { OnOk result (string_bytes out.new ≡ string_bytes out.old
        ++ edges_of question.now.playbacks.now (C.times clock.now) question.now.expectation.now playback.now sent.now) }
{
    let alloc = question.alloc;
    let playbacks = question.playbacks;
    let expectation = question.expectation;
    let own = edge_of(alloc, Side::Fewer, playbacks, expectation, playback, sent)?;
    push_edge(playback.config(), clock, sent, own, out)?;
    let next = edge_of(alloc, Side::More, playbacks, expectation, playback, sent)?;
    push_edge(playback.config(), clock, sent, next, out)
}

/// Adds the line on a repeat on the edge, if there is one.
fn push_edge<C: TimeFormat>(
    config: &Config,
    clock: &C,
    sent: &Sent,
    edge: Option<Flushes>,
    out: &mut String,
) -> Result<(), AllocError>
    ensures { OnOk result (string_bytes out.new ≡ string_bytes out.old
        ++ edge_text config.now (C.times clock.now) sent.now edge) }
{
    match edge {
        None => Ok(()),
        Some(flushes) => push_line(config, clock, sent, flushes, out),
    }
}

/// Adds the line on a repeat on the edge.
#[tactic(auto, unfolding(crate::specs::ExpectationReport::edge_line))]
fn push_line<C: TimeFormat>(
    config: &Config,
    clock: &C,
    sent: &Sent,
    flushes: Flushes,
    out: &mut String,
) -> Result<(), AllocError>
    ensures { OnOk result (string_bytes out.new ≡ string_bytes out.old
        ++ edge_line config.now (C.times clock.now) sent.now flushes) }
{
    push_flushes(clock, flushes, out)?;
    push_getter(config, sent.notice, out)?;
    out.push_str(": the answer depends on it\n")
}

/// Adds the two flushes of a repeat on the edge.
#[tactic(auto, unfolding(crate::specs::ExpectationReport::flushes_text))]
fn push_flushes<C: TimeFormat>(
    clock: &C,
    flushes: Flushes,
    out: &mut String,
) -> Result<(), AllocError>
    ensures { OnOk result (string_bytes out.new ≡ string_bytes out.old ++ flushes_text (C.times clock.now) flushes) }
{
    out.push_str("  edge      repeat at ")?;
    clock.push_time(flushes.first, out)?;
    out.push_str(" or ")?;
    clock.push_time(flushes.next, out)
}
