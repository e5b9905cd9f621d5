//! Threads that wait until a group is due.
ghost use Rattle.std.specs.Prelude.{◌≡◌};
ghost use Rattle.am_desk.specs.Terms.{terms};

use super::counts::{close, open, put, take};
use super::hanging::begin;
use super::{alert, config};
use am_alerts::alert::Alert;
use am_alerts::labels::Labels;
use am_board::begin::Begun;
use am_board::config::Config;
use am_desk::{Blank, Brand, Desk, Name, Pass, Woken};
use std::alloc::Global;
use std::process::Abort;
use std::rt::Clock;
use std::sync::{Barrier, Wait};
use std::test::Fail;
use std::thread::{Threads, join};

/// One route by alertname, and the integration `hook/0`.
const CONFIG: &str =
    r#"{"receivers":[{"name":"team","integrations":[{"kind":"hook"}]}],"route":{"receiver":"team","group_by":["alertname"]}}"#;

/// When a group is due whose alert comes at 0, in milliseconds.
const DUE: u64 = 30_000;

/// When the first alert comes, whose group is due at `EARLY + DUE`, and then not again.
const EARLY: u64 = 10_000;

/// When alerts come whose wait is over: their groups are due at once, also one that was made before.
const LATE: u64 = DUE + 1;

/// How long a thread waits at most. One that isn't woken waits so long, and fails.
const MOST: u64 = 20_000;

/// How often a thread is woken.
const ROUNDS: u64 = 1_000;

/// A route whose groups wait 300 seconds for their first flush, and for each after it, and one of theirs
/// that waits 640.
const SLOW: &str =
    r#"{"receivers":[{"name":"team","integrations":[{"kind":"hook"}]}],"route":{"receiver":"team","group_by":["alertname"]},
    "children":[{"name":"slow","receiver":"team","group_wait":"640s","matchers":[["team","=","slow"]]}]}"#;

/// When the group of an alert that is over is due again, which is flushed at `DUE`.
const EMPTIED: u64 = DUE + 300_000;

/// How long a thread sleeps, in milliseconds, while another begins to wait.
const AWHILE: u64 = 100;

#[test]
fn a_wait_ends_in_time(rt: HostRuntime) -> Result<(), Fail> {
    let alloc = rt.alloc();
    let config = config(alloc, CONFIG)?;
    wait_alone_on::<Brand, _>(&rt, alloc, config, Blank::new(alloc, 7, 1)?);
    Ok(())
}

#[test]
fn no_wake_up_is_lost(rt: HostRuntime) -> Result<(), Fail> {
    let alloc = rt.alloc();
    let config = config(alloc, CONFIG)?;
    wake_on::<Brand, _>(&rt, alloc, config, Blank::new(alloc, 7, 2)?);
    Ok(())
}

fn wait_alone_on<N: Name, R: Wait + Clock + Abort>(
    rt: &R,
    alloc: Global,
    config: Config,
    blank: Blank,
)
    requires { (blank ≡ N.plan) × (terms config blank.id ≡ N.terms) }
{
    let (desk, mut passes) = open::<N>(rt, alloc, config, blank);
    let mut pass = take(rt, &mut passes);
    is_later(rt, desk.wait_due(rt, &mut pass, 0, 20), None, 20);
    insert(rt, alloc, &desk, &mut pass, 0, 0);
    is_later(rt, desk.wait_due(rt, &mut pass, 0, 20), Some(DUE), 20);
    is_due(rt, desk.wait_due(rt, &mut pass, DUE - 20, MOST), DUE);
    is_due(rt, desk.wait_due(rt, &mut pass, LATE, MOST), LATE);
    desk.end_waits(rt);
    let woken = desk.wait_due(rt, &mut pass, LATE, MOST);
    assert_eq!(rt; woken, Woken::Ended);
    put(rt, &mut passes, pass);
    drop(close(rt, desk, passes));
}

/// The time is up, at this time or later.
fn is_later(rt: &impl Abort, woken: Woken, due: Option<u64>, least: u64) {
    match woken {
        Woken::Later { next, at } => assert!(rt; next == due && least <= at),
        _ => panic!(rt; "nothing is due yet"),
    }
}

/// A group is due, at this time or later.
fn is_due(rt: &impl Abort, woken: Woken, least: u64) -> u64 {
    match woken {
        Woken::Due { due, at } => {
            assert!(rt; due <= at && least <= at);
            at
        }
        Woken::Later { next: _, at: _ } => panic!(rt; "a wake-up was lost"),
        Woken::Ended => panic!(rt; "the waits have ended"),
    }
}

fn insert<N: Name, R: Wait + Abort>(
    rt: &R,
    alloc: Global,
    desk: &Desk<N>,
    pass: &mut Pass<N>,
    now: u64,
    number: u64,
) {
    let Ok(name) = format!(in alloc; "A{number}") else {
        panic!(rt; "no memory")
    };
    let Ok(alert) = alert(alloc, &[("alertname", name.as_str())]) else {
        panic!(rt; "no memory")
    };
    assert!(rt; desk.insert(rt, alloc, pass, now, alert).is_ok());
}

fn wake_on<N: Name + Send + Sync, R: Threads + Wait + Clock + Abort + Sync>(
    rt: &R,
    alloc: Global,
    config: Config,
    blank: Blank,
)
    requires { (blank ≡ N.plan) × (terms config blank.id ≡ N.terms) }
{
    let (desk, mut passes) = open::<N>(rt, alloc, config, blank);
    let one = take(rt, &mut passes);
    let zero = take(rt, &mut passes);
    let (zero, one) = wait_and_wake(rt, alloc, &desk, zero, one);
    assert_eq!(rt; (zero.calls(), one.calls()), (2 * ROUNDS + 2, ROUNDS + 2));
    put(rt, &mut passes, zero);
    put(rt, &mut passes, one);
    drop(close(rt, desk, passes));
}

/// One thread waits, and the other wakes it.
fn wait_and_wake<N: Name + Send + Sync, R: Threads + Wait + Clock + Abort + Sync>(
    rt: &R,
    alloc: Global,
    desk: &Desk<N>,
    zero: Pass<N>,
    one: Pass<N>,
) -> (Pass<N>, Pass<N>) {
    let turn = Barrier::new(2);
    join(
        rt,
        || flush_each(rt, alloc, desk, zero, &turn),
        || insert_each(rt, alloc, desk, one, &turn),
    )
}

/// Waits for each group and flushes it, and then until waits are ended.
fn flush_each<N: Name, R: Wait + Clock + Abort>(
    rt: &R,
    alloc: Global,
    desk: &Desk<N>,
    pass: Pass<N>,
    turn: &Barrier,
) -> Pass<N> {
    let mut pass = pass;
    let mut now = LATE;
    for number in 0..=ROUNDS {
        turn.wait(rt);
        now = is_due(rt, desk.wait_due(rt, &mut pass, now, MOST), now);
        assert!(rt; number > 0 || now < EARLY + DUE);
        let own = begin(rt, alloc, desk, &mut pass, now);
        assert!(rt; desk.finish_own(rt, &mut pass, own, now).is_ok());
    }
    turn.wait(rt);
    let woken = desk.wait_due(rt, &mut pass, now, MOST);
    assert_eq!(rt; woken, Woken::Ended);
    pass
}

/// Inserts a known alert, and then one of a group of its own in each turn, and ends the waits.
fn insert_each<N: Name, R: Wait + Abort>(
    rt: &R,
    alloc: Global,
    desk: &Desk<N>,
    pass: Pass<N>,
    turn: &Barrier,
) -> Pass<N> {
    let mut pass = pass;
    insert(rt, alloc, desk, &mut pass, EARLY, 0);
    for number in 0..=ROUNDS {
        turn.wait(rt);
        insert(rt, alloc, desk, &mut pass, LATE, number);
    }
    turn.wait(rt);
    desk.end_waits(rt);
    pass
}

#[test]
fn one_that_sleeps_on_is_woken(rt: HostRuntime) -> Result<(), Fail> {
    let alloc = rt.alloc();
    let config = config(alloc, SLOW)?;
    sleep_on::<Brand, _>(&rt, alloc, config, Blank::new(alloc, 7, 2)?);
    Ok(())
}

fn sleep_on<N: Name + Send + Sync, R: Threads + Wait + Clock + Abort + Sync>(
    rt: &R,
    alloc: Global,
    config: Config,
    blank: Blank,
)
    requires { (blank ≡ N.plan) × (terms config blank.id ≡ N.terms) }
{
    let (desk, mut passes) = open::<N>(rt, alloc, config, blank);
    let mut one = take(rt, &mut passes);
    let zero = take(rt, &mut passes);
    empty_one(rt, alloc, &desk, &mut one);
    let (zero, one) = sleep_and_hasten(rt, alloc, &desk, zero, one);
    put(rt, &mut passes, zero);
    put(rt, &mut passes, one);
    drop(close(rt, desk, passes));
}

/// Leaves a group without alerts, which is due at `EMPTIED`.
fn empty_one<N: Name, R: Wait + Abort>(rt: &R, alloc: Global, desk: &Desk<N>, pass: &mut Pass<N>) {
    let over = alert_at(rt, alloc, "A", "soon", 0, Some(1));
    assert!(rt; desk.insert(rt, alloc, pass, 0, over).is_ok());
    match desk.begin(rt, alloc, pass, DUE) {
        Ok(Begun::Quiet { group: _, removed }) => assert_eq!(rt; removed, 1),
        Ok(Begun::Flush(_ticket)) => panic!(rt; "nobody was paged before"),
        Ok(Begun::NothingDue) => panic!(rt; "a due group"),
        Err(_) => panic!(rt; "a begin"),
    }
    assert_eq!(rt; desk.next_due(rt, pass), Some(EMPTIED));
}

fn alert_at(
    rt: &impl Abort,
    alloc: Global,
    name: &str,
    team: &str,
    starts: u64,
    ends: Option<u64>,
) -> Alert {
    let Ok(labels) = Labels::read(alloc, &[("alertname", name), ("team", team)]) else {
        panic!(rt; "no memory")
    };
    let Ok(alert) = Alert::new(labels, starts, ends) else {
        panic!(rt; "an alert")
    };
    alert
}

/// One thread sleeps until `EMPTIED`, and the other makes a group due before.
fn sleep_and_hasten<N: Name + Send + Sync, R: Threads + Wait + Clock + Abort + Sync>(
    rt: &R,
    alloc: Global,
    desk: &Desk<N>,
    zero: Pass<N>,
    one: Pass<N>,
) -> (Pass<N>, Pass<N>) {
    let turn = Barrier::new(2);
    join(
        rt,
        || sleep_long(rt, desk, zero, &turn),
        || hasten(rt, alloc, desk, one, &turn),
    )
}

/// Waits, and is woken before the time is up.
fn sleep_long<N: Name, R: Wait + Clock + Abort>(
    rt: &R,
    desk: &Desk<N>,
    pass: Pass<N>,
    turn: &Barrier,
) -> Pass<N> {
    let mut pass = pass;
    turn.wait(rt);
    match desk.wait_due(rt, &mut pass, DUE, MOST) {
        Woken::Later { next, at } => {
            assert!(rt; next == Some(2 * DUE) && at < DUE + MOST);
        }
        Woken::Due { due: _, at: _ } => panic!(rt; "nothing is due yet"),
        Woken::Ended => panic!(rt; "the waits have ended"),
    }
    pass
}

/// While the other thread sleeps, the group that it sleeps for goes, and this thread waits awhile. Then a
/// group is due after the other's time, which leaves it asleep, and then one before.
fn hasten<N: Name, R: Wait + Clock + Abort>(
    rt: &R,
    alloc: Global,
    desk: &Desk<N>,
    pass: Pass<N>,
    turn: &Barrier,
) -> Pass<N> {
    let mut pass = pass;
    turn.wait(rt);
    is_later(
        rt,
        desk.wait_due(rt, &mut pass, DUE, AWHILE),
        Some(EMPTIED),
        DUE,
    );
    let removed = desk.remove_empty_groups(rt, alloc, &mut pass, DUE);
    assert!(rt; removed.is_ok());
    is_later(rt, desk.wait_due(rt, &mut pass, DUE, AWHILE), None, DUE);
    let slow = alert_at(rt, alloc, "B", "slow", DUE, None);
    assert!(rt; desk.insert(rt, alloc, &mut pass, DUE, slow).is_ok());
    let soon = alert_at(rt, alloc, "C", "soon", DUE, None);
    assert!(rt; desk.insert(rt, alloc, &mut pass, DUE, soon).is_ok());
    pass
}
