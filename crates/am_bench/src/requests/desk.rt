//! Calls on a desk: those that take no memory, and those that a limit refuses, which get none.
ghost use Rattle.std.specs.Prelude.{◌≡◌};
ghost use Rattle.am_desk.specs.Terms.{terms};

use crate::config::INTERVAL;
use crate::requests::probe::Probe;
use crate::requests::values::{alert, config, matchers};
use crate::words::both;
use am_alerts::alert::Alert;
use am_board::begin::Begun;
use am_board::config::Config;
use am_desk::{Blank, Brand, CloseFault, Closed, Desk, Name, OwnTicket, Pass};
use am_mute::silence::Silence;
use std::alloc::{AllocError, Global};
use std::sync::Wait;

/// The id of the desk.
const BOARD_ID: u64 = 3;

/// How calls are named that take memory.
const INSERT: &str = "with memory: Desk::insert";

const SILENCE: &str = "with memory: Desk::silence";

const BEGIN: &str = "with memory: Desk::begin";

pub fn make_calls<R: Wait>(probe: &Probe, rt: &R, alloc: Global) -> Result<(), AllocError> {
    let (config, blank) = both(limited(alloc), blank(alloc))?;
    make_calls_on::<Brand, R>(probe, rt, alloc, config, blank)
}

/// The blank of a desk with two passes.
fn blank(alloc: Global) -> Result<Blank, AllocError> {
    match Blank::new(alloc, BOARD_ID, 2) {
        Ok(blank) => Ok(blank),
        Err(_) => Err(AllocError),
    }
}

/// A configuration by which two alerts and a silence can be known, and eight records kept.
fn limited(alloc: Global) -> Result<Config, AllocError> {
    let mut config = config(alloc)?;
    config.limits.alerts = 2;
    config.limits.silences = 1;
    config.limits.history = 8;
    Ok(config)
}

fn make_calls_on<N: Name, R: Wait>(
    probe: &Probe,
    rt: &R,
    alloc: Global,
    config: Config,
    blank: Blank,
) -> Result<(), AllocError>
    requires { (blank ≡ N.plan) × (terms config blank.id ≡ N.terms) }
{
    let Ok((desk, mut passes)) = Desk::<N>::open(alloc, config, blank) else {
        return Err(AllocError);
    };
    let made = match passes.as_mut_slice() {
        [zero, one] => play(probe, rt, alloc, &desk, zero, one),
        _ => Err(AllocError),
    };
    close(probe, desk, passes);
    made
}

/// Two alerts are flushed while they fire, and again when one of them is resolved. Then the history
/// is full.
fn play<N: Name, R: Wait>(
    probe: &Probe,
    rt: &R,
    alloc: Global,
    desk: &Desk<N>,
    zero: &mut Pass<N>,
    one: &mut Pass<N>,
) -> Result<(), AllocError> {
    let first = alert(alloc, "1", None)?;
    let second = alert(alloc, "2", None)?;
    let ended = alert(alloc, "1", Some(40_000))?;
    let silenced = silence_of(alloc, 1)?;
    insert(probe, rt, alloc, desk, zero, INSERT, first);
    insert(probe, rt, alloc, desk, zero, INSERT, second);
    silence(probe, rt, alloc, desk, zero, SILENCE, silenced);
    refuse_more(probe, rt, alloc, desk, zero)?;
    flush(probe, rt, alloc, desk, zero, BEGIN, 30_000);
    look(probe, desk, zero, one);
    insert(probe, rt, alloc, desk, one, INSERT, ended);
    flush(probe, rt, alloc, desk, one, BEGIN, 30_000 + INTERVAL);
    look(probe, desk, zero, one);
    refuse_all(probe, rt, alloc, desk, zero)
}

/// Makes calls with one alert and with one silence too many.
fn refuse_more<N: Name, R: Wait>(
    probe: &Probe,
    rt: &R,
    alloc: Global,
    desk: &Desk<N>,
    pass: &mut Pass<N>,
) -> Result<(), AllocError> {
    let call = "without memory: Desk::insert, an alert too many";
    insert(probe, rt, alloc, desk, pass, call, alert(alloc, "3", None)?);
    let call = "without memory: Desk::silence, a silence too many";
    silence(probe, rt, alloc, desk, pass, call, silence_of(alloc, 2)?);
    Ok(())
}

/// Makes calls for which the history has no capacity.
fn refuse_all<N: Name, R: Wait>(
    probe: &Probe,
    rt: &R,
    alloc: Global,
    desk: &Desk<N>,
    pass: &mut Pass<N>,
) -> Result<(), AllocError> {
    let call = "without memory: Desk::insert, the history is full";
    insert(probe, rt, alloc, desk, pass, call, alert(alloc, "2", None)?);
    let call = "without memory: Desk::silence, the history is full";
    silence(probe, rt, alloc, desk, pass, call, silence_of(alloc, 1)?);
    let call = "without memory: Desk::begin, the history is full";
    flush(probe, rt, alloc, desk, pass, call, 30_000 + 2 * INTERVAL);
    probe.ask("without memory: Desk::maintain, the history is full");
    let maintained = desk.maintain(rt, alloc, pass, 30_000 + 2 * INTERVAL);
    probe.show(&maintained);
    probe.ask("without memory: Desk::remove_empty_groups, the history is full");
    let removed = desk.remove_empty_groups(rt, alloc, pass, 30_000 + 2 * INTERVAL);
    probe.show(&removed);
    Ok(())
}

fn insert<N: Name, R: Wait>(
    probe: &Probe,
    rt: &R,
    alloc: Global,
    desk: &Desk<N>,
    pass: &mut Pass<N>,
    call: &str,
    alert: Alert,
) {
    probe.ask(call);
    let inserted = desk.insert(rt, alloc, pass, 0, alert);
    probe.show(&inserted);
}

fn silence<N: Name, R: Wait>(
    probe: &Probe,
    rt: &R,
    alloc: Global,
    desk: &Desk<N>,
    pass: &mut Pass<N>,
    call: &str,
    silence: Silence,
) {
    probe.ask(call);
    let silenced = desk.silence(rt, alloc, pass, 0, silence);
    probe.show(&silenced);
}

/// A silence of this id, of no alert that is there.
fn silence_of(alloc: Global, id: u64) -> Result<Silence, AllocError> {
    match Silence::new(id, matchers(alloc, "inst", "9")?, 5, 10) {
        Ok(silence) => Ok(silence),
        Err(_) => Err(AllocError),
    }
}

/// Begins a flush, and finishes it with nothing recorded.
fn flush<N: Name, R: Wait>(
    probe: &Probe,
    rt: &R,
    alloc: Global,
    desk: &Desk<N>,
    pass: &mut Pass<N>,
    call: &str,
    now: u64,
) {
    probe.ask(call);
    match desk.begin(rt, alloc, pass, now) {
        Ok(Begun::Flush(ticket)) => {
            probe.show(&"flush");
            finish(probe, rt, desk, pass, OwnTicket::new(ticket), now);
        }
        Ok(
            Begun::Quiet {
                group: _,
                removed: _,
            },
        ) => probe.show(&"quiet"),
        Ok(Begun::NothingDue) => probe.show(&"nothing due"),
        Err(fault) => probe.show(&fault),
    }
}

fn finish<N: Name, R: Wait>(
    probe: &Probe,
    rt: &R,
    desk: &Desk<N>,
    pass: &mut Pass<N>,
    own: OwnTicket<N>,
    now: u64,
) {
    probe.ask("Desk::finish_own");
    let finished = desk.finish_own(rt, pass, own, now);
    probe.show(&finished);
}

fn look<N: Name>(probe: &Probe, desk: &Desk<N>, zero: &mut Pass<N>, one: &mut Pass<N>) {
    probe.ask("Desk::glance");
    let glance = desk.glance(zero);
    probe.show(&glance);
    probe.ask("Desk::meet");
    desk.meet(zero, one);
    probe.show(&"met");
}

fn close<N: Name>(probe: &Probe, desk: Desk<N>, passes: Vec<Pass<N>>) {
    probe.ask("Desk::close");
    match desk.close(passes) {
        Ok(closed) => {
            probe.show(&"closed");
            sum_up(probe, &closed);
            drop(closed);
        }
        Err(
            CloseFault {
                cause,
                desk,
                passes,
            },
        ) => {
            probe.show(&cause);
            drop(passes);
            drop(desk);
        }
    }
}

fn sum_up(probe: &Probe, closed: &Closed) {
    probe.ask("Closed::summary");
    let summary = closed.summary();
    probe.show(&summary);
}
