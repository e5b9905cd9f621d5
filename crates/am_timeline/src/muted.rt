//! Muted alerts with their causes, as text.
ghost use Rattle.std.specs.Prelude.{◌≡◌, ◌++◌, OnOk, codes, decimal, string_bytes};
ghost use Rattle.std.specs.List.{flat_map};
ghost use Rattle.am_timeline.specs.Timeline.{cause_shown, cause_text, cause_words, muted_alert_text, muted_text};
ghost use Rattle.am_timeline.specs.Shown.{set_shown};

use crate::shown::push_set;
use am_alerts::labels::Labels;
use am_model::preview::MutedAlert;
use am_mute::mute::MuteCause;
use am_terms::clock::{TimeFormat, push_number};
use std::alloc::AllocError;

/// Adds muted alerts, each with its cause.
pub(crate) fn push_muted<C: TimeFormat>(
    clock: &C,
    muted: &[MutedAlert],
    out: &mut String,
) -> Result<(), AllocError>
    ensures { OnOk result (string_bytes out.new ≡ string_bytes out.old ++ muted_text (C.times clock.now) muted.now) }
{
    match muted {
        [] => Ok(()),
        [first, rest @ ..] => {
            push_muted_alert(clock, first, out)?;
            push_more_muted(clock, rest, out)
        }
    }
}

fn push_more_muted<C: TimeFormat>(
    clock: &C,
    muted: &[MutedAlert],
    out: &mut String,
) -> Result<(), AllocError>
    ensures { OnOk result (string_bytes out.new ≡ string_bytes out.old
        ++ flat_map (λ m. codes "; " ++ muted_alert_text (C.times clock.now) m) muted.now) }
{
    for alert in muted {
        out.push_str("; ")?;
        push_muted_alert(clock, alert, out)?;
    }
    Ok(())
}

fn push_muted_alert<C: TimeFormat>(
    clock: &C,
    alert: &MutedAlert,
    out: &mut String,
) -> Result<(), AllocError>
    ensures { OnOk result (string_bytes out.new
        ≡ string_bytes out.old ++ muted_alert_text (C.times clock.now) alert.now) }
{
    push_set(&alert.labels, out)?;
    push_cause(clock, &alert.cause, out)
}

/// Adds why an alert is muted.
pub fn push_cause<C: TimeFormat>(
    clock: &C,
    cause: &MuteCause,
    out: &mut String,
) -> Result<(), AllocError>
    ensures { OnOk result (string_bytes out.new ≡ string_bytes out.old ++ cause_text (C.times clock.now) cause.now) }
{
    out.push_str(cause_words(cause))?;
    push_muting(clock, cause, out)
}

/// Adds until when an alert is silenced, or because of which alert it is inhibited.
fn push_muting<C: TimeFormat>(
    clock: &C,
    cause: &MuteCause,
    out: &mut String,
) -> Result<(), AllocError>
    ensures { OnOk result (string_bytes out.new ≡ string_bytes out.old ++ cause_shown (C.times clock.now) cause.now) }
{
    match cause {
        MuteCause::Silenced { id: _, until } => clock.push_time(*until, out),
        MuteCause::Inhibited { rule, by } => push_rule(*rule, by, out),
    }
}

fn cause_words(cause: &MuteCause) -> &'static str
    ensures { result.now ≡ cause_words cause.now }
{
    match cause {
        MuteCause::Silenced { .. } => " silenced until ",
        MuteCause::Inhibited { .. } => " inhibited by ",
    }
}

/// Adds because of which alert one is inhibited, and by which rule.
fn push_rule(rule: usize, by: &Labels, out: &mut String) -> Result<(), AllocError>
    ensures { OnOk result (string_bytes out.new
        ≡ string_bytes out.old ++ (set_shown by.now ++ codes " (rule " ++ decimal rule ++ codes ")")) }
{
    push_set(by, out)?;
    out.push_str(" (rule ")?;
    push_number(rule as u64, out)?;
    out.push_str(")")
}
