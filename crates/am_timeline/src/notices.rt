//! The notices of a rehearsal, as text.
ghost use Rattle.std.specs.Prelude.{◌≡◌, ◌++◌, IfOk, OnOk, string_bytes};
ghost use Rattle.am_timeline.specs.Notices.{line_if_wanted, notice_of_event, notices_text};

use crate::playback::Playback;
use crate::print::Print;
use crate::sent::{Sent, sent_of};
use crate::timeline::push_sent;
use am_terms::clock::TimeFormat;
use am_terms::event::Event;
use std::alloc::{AllocError, Global};

/// Returns the lines of the timeline on notices, in their order: on all, or without `failures` on the delivered ones.
pub fn notices_text<C: TimeFormat>(
    alloc: Global,
    playback: &Playback,
    clock: &C,
    failures: bool,
) -> Result<String, AllocError>
    ensures { IfOk result (λ text. string_bytes text ≡ notices_text failures playback.now (C.times clock.now)) }
{
    let print = Print {
        alloc,
        playback,
        clock,
    };
    let mut out = String::new(alloc);
    for event in playback.events {
        push_notice_of(&print, failures, event, &mut out)?;
    }
    Ok(out)
}

/// Adds the line on the notice whose sending came to its end by this, if there is one that is wanted.
fn push_notice_of<C: TimeFormat>(
    print: &Print<'_, '_, C>,
    failures: bool,
    event: &Event,
    out: &mut String,
) -> Result<(), AllocError>
    ensures { OnOk result (string_bytes out.new
        ≡ string_bytes out.old ++ notice_of_event failures print.now.playback.now (C.times print.now.clock.now) event.now) }
{
    match sent_of(print.playback, event) {
        None => Ok(()),
        Some(sent) => push_if_wanted(print, failures, &sent, out),
    }
}

fn push_if_wanted<C: TimeFormat>(
    print: &Print<'_, '_, C>,
    failures: bool,
    sent: &Sent,
    out: &mut String,
) -> Result<(), AllocError>
    ensures { OnOk result (string_bytes out.new
        ≡ string_bytes out.old ++ line_if_wanted failures print.now.playback.now (C.times print.now.clock.now) sent.now) }
{
    if failures || sent.is_delivered() {
        return push_sent(print, sent, out);
    }
    Ok(())
}
