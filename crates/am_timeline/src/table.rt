//! The table of receivers.
ghost use Rattle.std.specs.Prelude.{◌≡◌, ◌++◌, IfOk, ℕ, List, OnOk, codes, string_bytes};
ghost use Rattle.std.specs.List.{flat_map};
ghost use Rattle.std.specs.Option.{option_map_or};
ghost use Rattle.am_timeline.specs.Table.{count_text, is_for, receiver_line, table_text};
ghost use Rattle.am_timeline.specs.Tally.{counts_of, ends_of, tally_in, tally_line, tally_of};

use crate::playback::Playback;
use crate::sent::Sent;
use crate::shown::push_text;
use crate::tally::{Tallies, Tally, tallies, tally_of};
use am_model::config::{Config, Receiver};
use am_terms::clock::{TimeFormat, push_number};
use std::alloc::{AllocError, Global};

/// Returns an empty line, and a line for each receiver in the configuration's order. Cost: the events and the receivers.
///
/// A line has the receiver's delivered notices, its failures, and the times of the first and last
/// delivered notice.
pub fn table_text<C: TimeFormat>(
    alloc: Global,
    playback: &Playback,
    clock: &C,
) -> Result<String, AllocError>
    ensures { IfOk result (λ text. string_bytes text ≡ table_text playback.now (C.times clock.now)) }
{
    let tallies = tallies(alloc, playback)?;
    let mut out = String::new(alloc);
    out.push_str("\n")?;
    push_receivers(
        playback,
        clock,
        &tallies,
        playback.config.receivers.as_slice(),
        &mut out,
    )?;
    Ok(out)
}

fn push_receivers<C: TimeFormat>(
    playback: &Playback,
    clock: &C,
    tallies: &Tallies<'_>,
    receivers: &[Receiver],
    out: &mut String,
) -> Result<(), AllocError>
    requires { (name : List ℕ) → tally_in tallies.now name ≡ tally_of playback.now name playback.now.events }
    ensures { OnOk result (string_bytes out.new ≡ string_bytes out.old
        ++ flat_map (receiver_line playback.now (C.times clock.now)) receivers.now) }
{
    for receiver in receivers {
        push_receiver(playback, clock, tallies, receiver, out)?;
    }
    Ok(())
}

fn push_receiver<C: TimeFormat>(
    playback: &Playback,
    clock: &C,
    tallies: &Tallies<'_>,
    receiver: &Receiver,
    out: &mut String,
) -> Result<(), AllocError>
    requires { (name : List ℕ) → tally_in tallies.now name ≡ tally_of playback.now name playback.now.events }
    ensures { OnOk result (string_bytes out.new ≡ string_bytes out.old
        ++ receiver_line playback.now (C.times clock.now) receiver.now) }
{
    let name = receiver.name.as_str();
    let tally = tally_of(tallies, name);
    push_line(clock, name, tally, out)
}

/// Adds the line of the receiver of this name, which got this.
#[tactic(auto, unfolding(crate::specs::Tally::tally_line))]
fn push_line<C: TimeFormat>(
    clock: &C,
    name: &str,
    tally: Tally,
    out: &mut String,
) -> Result<(), AllocError>
    ensures { OnOk result (string_bytes out.new ≡ string_bytes out.old ++ tally_line (C.times clock.now) name.now tally) }
{
    out.push_str("receiver ")?;
    push_text(name, out)?;
    out.push_str(": ")?;
    push_counts(tally, out)?;
    push_ends(clock, tally, out)?;
    out.push_str("\n")
}

/// Adds how many notices a receiver got, and how many failed.
#[tactic(auto, unfolding(crate::specs::Tally::counts_of))]
fn push_counts(tally: Tally, out: &mut String) -> Result<(), AllocError>
    ensures { OnOk result (string_bytes out.new ≡ string_bytes out.old ++ counts_of tally) }
{
    push_count(tally.delivered, " notice", out)?;
    out.push_str(", ")?;
    push_count(tally.failed, " failure", out)
}

/// Adds how many of something there are.
pub fn push_count(count: u64, word: &str, out: &mut String) -> Result<(), AllocError>
    ensures { OnOk result (string_bytes out.new ≡ string_bytes out.old ++ count_text count word.now) }
{
    push_number(count, out)?;
    out.push_str(word)?;
    if count != 1 {
        out.push_str("s")?;
    }
    Ok(())
}

/// Returns whether a notice was for the receiver of this name.
pub fn is_for(config: &Config, name: &str, sent: &Sent) -> bool
    ensures { result ≡ is_for config.now name.now sent.now }
{
    let notice = sent.notice;
    config.route_of(&notice.group).receiver.as_str() == name
}

/// Adds when a receiver got its first notice, and when its last.
#[tactic(auto, unfolding(crate::specs::Tally::ends_of))]
fn push_ends<C: TimeFormat>(clock: &C, tally: Tally, out: &mut String) -> Result<(), AllocError>
    ensures { OnOk result (string_bytes out.new ≡ string_bytes out.old ++ ends_of (C.times clock.now) tally) }
{
    out.push_str(", first ")?;
    push_end(clock, tally.first, out)?;
    out.push_str(", last ")?;
    push_end(clock, tally.last, out)
}

/// Adds a time, or `none` where there is none.
fn push_end<C: TimeFormat>(clock: &C, end: Option<u64>, out: &mut String) -> Result<(), AllocError>
    ensures { OnOk result (string_bytes out.new
        ≡ string_bytes out.old ++ option_map_or (C.times clock.now).text end (codes "none")) }
{
    match end {
        None => out.push_str("none"),
        Some(at) => clock.push_time(at, out),
    }
}
