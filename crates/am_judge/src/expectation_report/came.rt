//! The notices that came, as text.
ghost use Rattle.std.specs.Prelude.{◌≡◌, ◌++◌, IfOk, OnOk, string_bytes};
ghost use Rattle.std.specs.List.{list_any};
ghost use Rattle.am_judge.specs.Expectation.{has_in_scope};
ghost use Rattle.am_judge.specs.ExpectationReport.{all_got, came_front, came_line, getter_text, got_alerts_text, got_by, got_if_shown};
ghost use Rattle.am_judge.specs.ExpectationReport.{got_in, got_text, is_shown, nearest_text, none_text, resolved_word, unfitting_text};

use crate::expectation::{fits, has_in_scope, is_in_scope};
use crate::expectation_report::differences::push_differences;
use crate::expectation_report::nearest::nearest_of;
use crate::judged::Question;
use am_alerts::alert::Alert;
use am_model::config::Config;
use am_model::notice::Notice;
use am_terms::clock::TimeFormat;
use am_terms::event::Event;
use am_terms::expectation::Expectation;
use am_timeline::alerts::push_alerts;
use am_timeline::groups::push_integration;
use am_timeline::playback::Playback;
use am_timeline::sent::{Sent, sent_of};
use am_timeline::shown::push_text;
use std::alloc::AllocError;

/// Adds the notices that came: those that fit, or else those in scope, or else the nearest.
pub(crate) fn push_got<C: TimeFormat>(
    question: &Question<'_>,
    clock: &C,
    out: &mut String,
) -> Result<(), AllocError>
    ensures { OnOk result (string_bytes out.new ≡ string_bytes out.old
        ++ got_text question.now.playbacks.now (C.times clock.now) question.now.expectation.now) }
{
    if question.fitting == 0 {
        return push_unfitting(question, clock, out);
    }
    push_all_got(question, true, clock, out)
}

/// Adds those in scope, or else the nearest.
fn push_unfitting<C: TimeFormat>(
    question: &Question<'_>,
    clock: &C,
    out: &mut String,
) -> Result<(), AllocError>
    ensures { OnOk result (string_bytes out.new ≡ string_bytes out.old
        ++ unfitting_text question.now.playbacks.now (C.times clock.now) question.now.expectation.now) }
{
    if have_in_scope(question.playbacks, question.expectation) {
        return push_all_got(question, false, clock, out);
    }
    push_none(question, clock, out)
}

/// Adds that none came in scope, and the nearest.
#[tactic(auto, unfolding(crate::specs::ExpectationReport::none_text))]
fn push_none<C: TimeFormat>(
    question: &Question<'_>,
    clock: &C,
    out: &mut String,
) -> Result<(), AllocError>
    ensures { OnOk result (string_bytes out.new ≡ string_bytes out.old
        ++ none_text question.now.playbacks.now (C.times clock.now) question.now.expectation.now) }
{
    out.push_str("  got       none\n")?;
    push_nearest(question, clock, out)
}

/// Whether a playback has a notice in scope.
fn have_in_scope(playbacks: &[Playback<'_>], expectation: &Expectation) -> bool
    ensures { result ≡ list_any (has_in_scope expectation.now) playbacks.now }
{
    playbacks
        .iter()
        .any(|playback| has_in_scope(playback, expectation))
}

/// Adds the notices of all playbacks that are shown.
fn push_all_got<C: TimeFormat>(
    question: &Question<'_>,
    some_fit: bool,
    clock: &C,
    out: &mut String,
) -> Result<(), AllocError>
    ensures { OnOk result (string_bytes out.new ≡ string_bytes out.old
        ++ all_got some_fit question.now.playbacks.now (C.times clock.now) question.now.expectation.now) }
{
    let playbacks = question.playbacks;
    for playback in playbacks {
        push_got_in(question, some_fit, playback, clock, out)?;
    }
    Ok(())
}

/// Adds the notices of a playback that are shown.
fn push_got_in<C: TimeFormat>(
    question: &Question<'_>,
    some_fit: bool,
    playback: &Playback,
    clock: &C,
    out: &mut String,
) -> Result<(), AllocError>
    ensures { OnOk result (string_bytes out.new ≡ string_bytes out.old
        ++ got_in some_fit (C.times clock.now) question.now.expectation.now playback.now) }
{
    let events = playback.events();
    for event in events {
        push_got_by(question, some_fit, playback, clock, event, out)?;
    }
    Ok(())
}

/// Adds the notice that is shown whose sending ended by this, if there is one.
fn push_got_by<C: TimeFormat>(
    question: &Question<'_>,
    some_fit: bool,
    playback: &Playback,
    clock: &C,
    event: &Event,
    out: &mut String,
) -> Result<(), AllocError>
    ensures { OnOk result (string_bytes out.new ≡ string_bytes out.old
        ++ got_by some_fit playback.now (C.times clock.now) question.now.expectation.now event.now) }
{
    match sent_of(playback, event) {
        None => Ok(()),
        Some(sent) => push_if_shown(question, some_fit, playback, clock, &sent, out),
    }
}

fn push_if_shown<C: TimeFormat>(
    question: &Question<'_>,
    some_fit: bool,
    playback: &Playback,
    clock: &C,
    sent: &Sent,
    out: &mut String,
) -> Result<(), AllocError>
    ensures { OnOk result (string_bytes out.new ≡ string_bytes out.old
        ++ got_if_shown some_fit playback.now (C.times clock.now) question.now.expectation.now sent.now) }
{
    if is_shown(question, some_fit, playback, sent)? {
        return push_line(question, "  got       ", playback, clock, sent, out);
    }
    Ok(())
}

/// Whether a notice is shown: one that fits, or one in scope where none fits.
fn is_shown(
    question: &Question<'_>,
    some_fit: bool,
    playback: &Playback,
    sent: &Sent,
) -> Result<bool, AllocError>
    ensures { IfOk result (λ shown. shown ≡ is_shown some_fit playback.now question.now.expectation.now sent.now) }
{
    if some_fit {
        return fits(question.alloc, playback, question.expectation, sent);
    }
    Ok(is_in_scope(playback.config(), question.expectation, sent))
}

/// Adds the nearest notice, and how it differs; nothing where none was delivered to the receiver.
#[tactic(auto, unfolding(crate::specs::ExpectationReport::nearest_text))]
fn push_nearest<C: TimeFormat>(
    question: &Question<'_>,
    clock: &C,
    out: &mut String,
) -> Result<(), AllocError>
    ensures { OnOk result (string_bytes out.new ≡ string_bytes out.old
        ++ nearest_text question.now.playbacks.now (C.times clock.now) question.now.expectation.now) }
{
    match nearest_of(question.alloc, question.playbacks, question.expectation)? {
        None => Ok(()),
        Some(found) => push_line(
            question,
            "  nearest   ",
            found.playback,
            clock,
            &found.sent,
            out,
        ),
    }
}

/// Adds a notice behind a word, and how it differs from what is expected.
#[tactic(auto, unfolding(crate::specs::ExpectationReport::came_line))]
fn push_line<C: TimeFormat>(
    question: &Question<'_>,
    word: &str,
    playback: &Playback,
    clock: &C,
    sent: &Sent,
    out: &mut String,
) -> Result<(), AllocError>
    ensures { OnOk result (string_bytes out.new ≡ string_bytes out.old
        ++ came_line word.now playback.now (C.times clock.now) question.now.expectation.now sent.now) }
{
    push_front(word, playback.config(), clock, sent, out)?;
    out.push_str(": ")?;
    push_got_alerts(sent.notice, out)?;
    push_differences(question.alloc, playback, question.expectation, sent, out)?;
    out.push_str("\n")
}

/// Adds when a notice came and to whom, behind a word.
#[tactic(auto, unfolding(crate::specs::ExpectationReport::came_front))]
fn push_front<C: TimeFormat>(
    word: &str,
    config: &Config,
    clock: &C,
    sent: &Sent,
    out: &mut String,
) -> Result<(), AllocError>
    ensures { OnOk result (string_bytes out.new ≡ string_bytes out.old
        ++ came_front word.now config.now (C.times clock.now) sent.now) }
{
    out.push_str(word)?;
    clock.push_time(sent.report.ended, out)?;
    push_getter(config, sent.notice, out)
}

/// Adds who got a notice.
#[tactic(auto, unfolding(crate::specs::ExpectationReport::getter_text))]
pub(crate) fn push_getter(
    config: &Config,
    notice: &Notice,
    out: &mut String,
) -> Result<(), AllocError>
    ensures { OnOk result (string_bytes out.new ≡ string_bytes out.old ++ getter_text config.now notice.now) }
{
    out.push_str(" -> ")?;
    push_text(config.route_of(&notice.group).receiver.as_str(), out)?;
    out.push_str(" ")?;
    push_integration(config, &notice.group, notice.integration as usize, out)
}

/// Adds the firing and resolved alerts of a notice.
#[tactic(auto, unfolding(crate::specs::ExpectationReport::got_alerts_text))]
fn push_got_alerts(notice: &Notice, out: &mut String) -> Result<(), AllocError>
    ensures { OnOk result (string_bytes out.new ≡ string_bytes out.old ++ got_alerts_text notice.now) }
{
    let firing = notice.firing.as_slice();
    push_alerts("firing ", firing, out)?;
    push_alerts(resolved_word(firing), notice.resolved.as_slice(), out)
}

/// The word before the resolved alerts, behind those that fire.
fn resolved_word(firing: &[Alert]) -> &'static str
    ensures { result.now ≡ resolved_word firing.now }
{
    match firing {
        [] => "resolved ",
        [_, ..] => "; resolved ",
    }
}
