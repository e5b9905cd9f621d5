//! Calls on a desk that hands its history out, and on one that takes rows over besides.
ghost use Rattle.std.specs.Prelude.{◌≡◌};
ghost use Rattle.am_desk.specs.Terms.{resumed, terms};

use crate::requests::probe::Probe;
use crate::requests::values::{alert, config, row};
use crate::words::both;
use am_alerts::alert::Alert;
use am_board::begin::Begun;
use am_board::config::Config;
use am_board::views::RowView;
use am_desk::{Archive, Blank, Brand, CloseFault, Desk, Lasting, Name, OwnTicket, Pass, Resumed};
use std::alloc::{AllocError, Global};
use std::sync::Wait;

/// The id of the desks.
const BOARD_ID: u64 = 4;

/// When the rows are loaded.
const LOADED: u64 = 100;

/// When the group is due: its wait is 30 seconds, and the board's time is that of the loads by then.
const DUE: u64 = LOADED + 30_000;

pub fn make_calls<R: Wait>(probe: &Probe, rt: &R, alloc: Global) -> Result<(), AllocError> {
    let (lasting, blank) = both(limited(alloc), blank_of(alloc))?;
    open_lasting_on::<Brand>(probe, alloc, lasting, blank)?;
    let (config, blank) = both(limited(alloc), blank_of(alloc))?;
    make_calls_on::<Brand, R>(probe, rt, alloc, config, blank)
}

/// The blank of a desk with one pass.
fn blank_of(alloc: Global) -> Result<Blank, AllocError> {
    match Blank::new(alloc, BOARD_ID, 1) {
        Ok(blank) => Ok(blank),
        Err(_) => Err(AllocError),
    }
}

/// A configuration by which four records are kept.
fn limited(alloc: Global) -> Result<Config, AllocError> {
    let mut config = config(alloc)?;
    config.limits.history = 4;
    Ok(config)
}

fn open_lasting_on<N: Name>(
    probe: &Probe,
    alloc: Global,
    config: Config,
    blank: Blank,
) -> Result<(), AllocError>
    requires { (blank ≡ N.plan) × (terms config blank.id ≡ N.terms) }
{
    probe.ask("with memory: Desk::open_lasting");
    let Ok((desk, passes, archive)) = Desk::<N, Lasting>::open_lasting(alloc, config, blank) else {
        return Err(AllocError);
    };
    probe.show(&"opened");
    drop(archive);
    drop(passes);
    drop(desk);
    Ok(())
}

fn make_calls_on<N: Name, R: Wait>(
    probe: &Probe,
    rt: &R,
    alloc: Global,
    config: Config,
    blank: Blank,
) -> Result<(), AllocError>
    requires { (blank ≡ N.plan) × (resumed config blank.id ≡ N.terms) }
{
    probe.ask("with memory: Desk::open_resumed");
    let Ok((desk, mut passes, mut archive)) = Desk::<N, Lasting, Resumed>::open_resumed(
        alloc, config, blank,
    ) else {
        return Err(AllocError);
    };
    probe.show(&"opened");
    let made = match passes.as_mut_slice() {
        [pass] => play(probe, rt, alloc, &desk, pass, &mut archive),
        _ => Err(AllocError),
    };
    close(probe, desk, passes, &mut archive);
    made
}

/// Loads rows, inserts two alerts in one call, takes the history while their flush is open and once it
/// is finished, and loads until the history is full.
fn play<N: Name, R: Wait>(
    probe: &Probe,
    rt: &R,
    alloc: Global,
    desk: &Desk<N, Lasting, Resumed>,
    pass: &mut Pass<N, Resumed>,
    archive: &mut Archive<N>,
) -> Result<(), AllocError> {
    load_rows(probe, rt, alloc, desk, pass)?;
    insert_two(probe, rt, alloc, desk, pass)?;
    take(
        probe,
        rt,
        alloc,
        desk,
        pass,
        archive,
        "Desk::take_history, without an open flush",
    );
    flush(probe, rt, alloc, desk, pass, archive);
    for _ in 0..3 {
        let last = row(alloc, 0, LOADED, &["2"])?;
        load(
            probe,
            rt,
            alloc,
            desk,
            pass,
            "with memory: Desk::load",
            last,
        );
    }
    let late = row(alloc, 0, LOADED, &["2"])?;
    let call = "without memory: Desk::load, the history is full";
    load(probe, rt, alloc, desk, pass, call, late);
    Ok(())
}

/// Loads a row, and then rows that are refused before memory is asked for.
fn load_rows<N: Name, R: Wait>(
    probe: &Probe,
    rt: &R,
    alloc: Global,
    desk: &Desk<N, Lasting, Resumed>,
    pass: &mut Pass<N, Resumed>,
) -> Result<(), AllocError> {
    let first = row(alloc, 0, LOADED, &["1"])?;
    load(
        probe,
        rt,
        alloc,
        desk,
        pass,
        "with memory: Desk::load",
        first,
    );
    let stray = row(alloc, 2, LOADED, &["1"])?;
    let call = "without memory: Desk::load, there is no such integration";
    load(probe, rt, alloc, desk, pass, call, stray);
    let unordered = row(alloc, 0, LOADED, &["2", "1"])?;
    let call = "without memory: Desk::load, the label sets aren't in order";
    load(probe, rt, alloc, desk, pass, call, unordered);
    let ahead = row(alloc, 0, LOADED + 1, &["1"])?;
    let call = "without memory: Desk::load, the row is ahead";
    load(probe, rt, alloc, desk, pass, call, ahead);
    Ok(())
}

fn load<N: Name, R: Wait>(
    probe: &Probe,
    rt: &R,
    alloc: Global,
    desk: &Desk<N, Lasting, Resumed>,
    pass: &mut Pass<N, Resumed>,
    call: &str,
    row: RowView,
) {
    probe.ask(call);
    let loaded = desk.load(rt, alloc, pass, row, LOADED);
    probe.show(&loaded);
}

fn insert_two<N: Name, R: Wait>(
    probe: &Probe,
    rt: &R,
    alloc: Global,
    desk: &Desk<N, Lasting, Resumed>,
    pass: &mut Pass<N, Resumed>,
) -> Result<(), AllocError> {
    let alerts = two(alloc)?;
    probe.ask("with memory: Desk::insert_all");
    let answers = desk.insert_all(rt, alloc, pass, 0, alerts);
    probe.show(&answers);
    Ok(())
}

fn two(alloc: Global) -> Result<Vec<Alert>, AllocError> {
    let mut alerts = Vec::new(alloc);
    alerts.push(alert(alloc, "1", None)?)?;
    alerts.push(alert(alloc, "2", None)?)?;
    Ok(alerts)
}

fn take<N: Name, R: Wait>(
    probe: &Probe,
    rt: &R,
    alloc: Global,
    desk: &Desk<N, Lasting, Resumed>,
    pass: &mut Pass<N, Resumed>,
    archive: &mut Archive<N>,
    call: &str,
) {
    probe.ask(call);
    match desk.take_history(rt, alloc, pass, archive) {
        Ok(taken) => probe.show(&taken.len()),
        Err(fault) => probe.show(&fault),
    }
}

/// Begins a flush, takes the history meanwhile, and finishes the flush with nothing recorded.
fn flush<N: Name, R: Wait>(
    probe: &Probe,
    rt: &R,
    alloc: Global,
    desk: &Desk<N, Lasting, Resumed>,
    pass: &mut Pass<N, Resumed>,
    archive: &mut Archive<N>,
) {
    match desk.begin(rt, alloc, pass, DUE) {
        Ok(Begun::Flush(ticket)) => {
            let own = OwnTicket::new(ticket);
            let call = "with memory: Desk::take_history, with an open flush";
            take(probe, rt, alloc, desk, pass, archive, call);
            probe.ask("Desk::finish_own, after a take");
            let finished = desk.finish_own(rt, pass, own, DUE);
            probe.show(&finished);
        }
        Ok(
            Begun::Quiet {
                group: _,
                removed: _,
            },
        ) => {}
        Ok(Begun::NothingDue) => {}
        Err(_) => {}
    }
}

fn close<N: Name>(
    probe: &Probe,
    desk: Desk<N, Lasting, Resumed>,
    passes: Vec<Pass<N, Resumed>>,
    archive: &mut Archive<N>,
) {
    probe.ask("Desk::close_resumed");
    match desk.close_resumed(passes, archive) {
        Ok(board) => {
            probe.show(&"closed");
            drop(board);
        }
        Err(
            CloseFault {
                cause,
                desk,
                passes,
            },
        ) => {
            probe.show(&cause);
            drop(passes);
            drop(desk);
        }
    }
}
