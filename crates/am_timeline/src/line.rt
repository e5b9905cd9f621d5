//! The parts of lines.
ghost use Rattle.std.specs.Prelude.{◌≡◌, ◌++◌, OnOk, string_bytes};
ghost use Rattle.am_timeline.specs.Timeline.{attempts_text, expired_text, expiry_if_first, time_text, reason_text, reason_words};
ghost use Rattle.am_timeline.specs.Timeline.{is_on_edge, repeat_text, retries_text, sent_reason_text, sent_words};

use am_model::reason::Reason;
use am_terms::clock::{TimeFormat, push_column, push_number};
use std::alloc::AllocError;

/// Adds the front of a line: a time and a word.
pub(crate) fn push_time<C: TimeFormat>(
    clock: &C,
    at: u64,
    word: &str,
    out: &mut String,
) -> Result<(), AllocError>
    ensures { OnOk result (string_bytes out.new
        ≡ string_bytes out.old ++ time_text (C.times clock.now) at word.now) }
{
    push_column(clock, at, out)?;
    out.push_str(word)
}

pub(crate) fn push_retries<C: TimeFormat>(
    clock: &C,
    attempts: u64,
    since: u64,
    out: &mut String,
) -> Result<(), AllocError>
    ensures { OnOk result (string_bytes out.new
        ≡ string_bytes out.old ++ retries_text (C.times clock.now) attempts since) }
{
    if attempts == 1 {
        return Ok(());
    }
    push_attempts(clock, attempts, since, out)
}

pub(crate) fn push_attempts<C: TimeFormat>(
    clock: &C,
    attempts: u64,
    since: u64,
    out: &mut String,
) -> Result<(), AllocError>
    ensures { OnOk result (string_bytes out.new
        ≡ string_bytes out.old ++ attempts_text (C.times clock.now) attempts since) }
{
    out.push_str(" after ")?;
    push_number(attempts, out)?;
    out.push_str(if attempts == 1 {
        " attempt"
    } else {
        " attempts"
    })?;
    out.push_str(" since ")?;
    clock.push_time(since, out)
}

pub(crate) fn push_reason<C: TimeFormat>(
    clock: &C,
    reason: &Reason,
    out: &mut String,
) -> Result<(), AllocError>
    ensures { OnOk result (string_bytes out.new
        ≡ string_bytes out.old ++ reason_text (C.times clock.now) reason.now) }
{
    out.push_str(reason_words(reason))?;
    push_repeat(clock, reason, out)
}

/// Returns whether a begin at this time, in milliseconds, is on the edge for an integration: 1 ms later it would be repeated.
pub(crate) fn is_on_edge(at: u64, reason: &Reason) -> bool
    ensures { result ≡ is_on_edge at reason.now }
{
    match reason {
        Reason::NotYet { from } => at < *from && *from - at == 1,
        _ => false,
    }
}

/// Adds why a notice was sent, where the log entry had expired at this time, if it had.
pub(crate) fn push_sent_reason<C: TimeFormat>(
    clock: &C,
    expiry: Option<u64>,
    reason: &Reason,
    out: &mut String,
) -> Result<(), AllocError>
    ensures { OnOk result (string_bytes out.new
        ≡ string_bytes out.old ++ sent_reason_text (C.times clock.now) expiry reason.now) }
{
    match expiry_if_first(expiry, reason) {
        None => push_reason(clock, reason, out),
        Some(at) => push_expired(clock, at, out),
    }
}

/// Returns when the entry expired whose lack makes a notice a first one, if it had.
pub(crate) fn expiry_if_first(expiry: Option<u64>, reason: &Reason) -> Option<u64>
    ensures { result ≡ expiry_if_first expiry reason.now }
{
    match reason {
        Reason::FirstNotice => expiry,
        _ => None,
    }
}

fn push_expired<C: TimeFormat>(clock: &C, at: u64, out: &mut String) -> Result<(), AllocError>
    ensures { OnOk result (string_bytes out.new ≡ string_bytes out.old ++ expired_text (C.times clock.now) at) }
{
    out.push_str("log entry expired at ")?;
    clock.push_time(at, out)
}

/// Returns why a notice was sent, in words without a time, where the log entry had expired at this time, if it had.
pub fn sent_words(expiry: Option<u64>, reason: &Reason) -> &'static str
    ensures { result.now ≡ sent_words expiry reason.now }
{
    match expiry_if_first(expiry, reason) {
        None => reason_words(reason),
        Some(_) => "log entry expired",
    }
}

pub(crate) fn reason_words(reason: &Reason) -> &'static str
    ensures { result.now ≡ reason_words reason.now }
{
    match reason {
        Reason::FirstNotice => "first notice",
        Reason::NewAlert => "new alert",
        Reason::AllResolved => "all resolved",
        Reason::NewlyResolved => "newly resolved",
        Reason::Repeat => "repeat",
        Reason::NothingLeft => "nothing left",
        Reason::NothingFiring => "nothing fires",
        Reason::NotYet { .. } => "nothing new, repeat from ",
        Reason::RouteMuted { .. } => "route muted until ",
    }
}

/// Adds from when on a notice is repeated that isn't yet, or until when the route is muted.
fn push_repeat<C: TimeFormat>(
    clock: &C,
    reason: &Reason,
    out: &mut String,
) -> Result<(), AllocError>
    ensures { OnOk result (string_bytes out.new
        ≡ string_bytes out.old ++ repeat_text (C.times clock.now) reason.now) }
{
    match reason {
        Reason::NotYet { from } => clock.push_time(*from, out),
        Reason::RouteMuted { until } => clock.push_time(*until, out),
        Reason::FirstNotice
        | Reason::NewAlert
        | Reason::AllResolved
        | Reason::NewlyResolved
        | Reason::Repeat
        | Reason::NothingLeft
        | Reason::NothingFiring => Ok(()),
    }
}
