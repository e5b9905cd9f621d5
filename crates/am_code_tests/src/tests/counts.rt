//! Two threads that insert on one desk.
ghost use Rattle.std.specs.Prelude.{◌≡◌};
ghost use Rattle.am_desk.specs.Terms.{terms};

use super::{alert, config};
use am_alerts::alert::Alert;
use am_board::config::Config;
use am_board::record::Reply;
use am_desk::{Blank, Brand, CloseFault, Closed, Desk, Name, Origin, Pass};
use std::alloc::Global;
use std::process::Abort;
use std::sync::Wait;
use std::test::Fail;
use std::thread::{Threads, join};

/// One route by alertname, and the integration `hook/0`.
const CONFIG: &str =
    r#"{"receivers":[{"name":"team","integrations":[{"kind":"hook"}]}],"route":{"receiver":"team","group_by":["alertname"]}}"#;

/// How many alerts each thread inserts.
const INSERTS: u64 = 1_000;

#[test]
fn a_thousand_inserts_each(rt: HostRuntime) -> Result<(), Fail> {
    let alloc = rt.alloc();
    let config = config(alloc, CONFIG)?;
    a_thousand_inserts_on::<Brand, _>(&rt, alloc, config, Blank::new(alloc, 7, 2)?);
    Ok(())
}

fn a_thousand_inserts_on<N: Name + Send + Sync, R: Threads + Wait + Abort + Sync>(
    rt: &R,
    alloc: Global,
    config: Config,
    blank: Blank,
)
    requires { (blank ≡ N.plan) × (terms config blank.id ≡ N.terms) }
{
    let (desk, mut passes) = open::<N>(rt, alloc, config, blank);
    insert_all(rt, alloc, &desk, &mut passes);
    let closed = close(rt, desk, passes);
    are_stamped(rt, &closed);
    drop(closed);
}

/// Inserts with two passes in threads of their own, and with one once more.
fn insert_all<N: Name + Send + Sync, R: Threads + Wait + Abort + Sync>(
    rt: &R,
    alloc: Global,
    desk: &Desk<N>,
    passes: &mut Vec<Pass<N>>,
) {
    let one = take(rt, passes);
    let zero = take(rt, passes);
    let (mut zero, one) = insert_concurrently(rt, alloc, desk, zero, one);
    assert_eq!(rt; (zero.calls(), one.calls()), (INSERTS, INSERTS));
    insert_last(rt, alloc, desk, &mut zero);
    put(rt, passes, zero);
    put(rt, passes, one);
}

/// A desk of this configuration and blank, with its passes.
pub fn open<N: Name>(
    rt: &impl Abort,
    alloc: Global,
    config: Config,
    blank: Blank,
) -> (Desk<N>, Vec<Pass<N>>)
    requires { (blank ≡ N.plan) × (terms config blank.id ≡ N.terms) }
{
    let Ok(opened) = Desk::<N>::open(alloc, config, blank) else {
        panic!(rt; "a good configuration")
    };
    opened
}

/// The pass with the greatest number of those that are left.
pub fn take<N: Name, L: Origin>(rt: &impl Abort, passes: &mut Vec<Pass<N, L>>) -> Pass<N, L> {
    let Some(pass) = passes.pop() else {
        panic!(rt; "a pass")
    };
    pass
}

pub fn put<N: Name, L: Origin>(rt: &impl Abort, passes: &mut Vec<Pass<N, L>>, pass: Pass<N, L>) {
    assert!(rt; passes.push(pass).is_ok());
}

/// Each pass inserts in a thread of its own.
fn insert_concurrently<N: Name + Send + Sync, R: Threads + Wait + Abort + Sync>(
    rt: &R,
    alloc: Global,
    desk: &Desk<N>,
    zero: Pass<N>,
    one: Pass<N>,
) -> (Pass<N>, Pass<N>) {
    join(
        rt,
        || insert_many(rt, alloc, desk, zero),
        || insert_many(rt, alloc, desk, one),
    )
}

/// Inserts alerts of its own, with a glance after each: `calls` never falls, and is at least the
/// pass's own.
fn insert_many<N: Name, R: Wait + Abort>(
    rt: &R,
    alloc: Global,
    desk: &Desk<N>,
    mut pass: Pass<N>,
) -> Pass<N> {
    let mut seen = 0;
    for number in 0..INSERTS {
        insert(rt, alloc, desk, &mut pass, number);
        let calls = desk.glance(&mut pass).calls;
        assert!(rt; seen <= calls && pass.calls() <= calls as u64);
        seen = calls;
    }
    pass
}

/// Inserts an alert of this pass and number.
fn insert<N: Name, R: Wait + Abort>(
    rt: &R,
    alloc: Global,
    desk: &Desk<N>,
    pass: &mut Pass<N>,
    number: u64,
) {
    let alert = numbered(rt, alloc, pass.number(), number);
    assert!(rt; desk.insert(rt, alloc, pass, 0, alert).is_ok());
}

fn numbered(rt: &impl Abort, alloc: Global, pass: u32, number: u64) -> Alert {
    let Ok(inst) = format!(in alloc; "{pass}-{number}") else {
        panic!(rt; "no memory")
    };
    let Ok(alert) = alert(alloc, &[("alertname", "A"), ("inst", inst.as_str())]) else {
        panic!(rt; "no memory")
    };
    alert
}

/// One more, after which everything is there.
fn insert_last<N: Name, R: Wait + Abort>(
    rt: &R,
    alloc: Global,
    desk: &Desk<N>,
    pass: &mut Pass<N>,
) {
    insert(rt, alloc, desk, pass, INSERTS);
    let glance = desk.glance(pass);
    assert_eq!(rt;
        (glance.calls, glance.groups, glance.flushes),
        (2_001, 1, 0)
    );
}

/// Closes a desk with all its passes.
pub fn close<N: Name>(rt: &impl Abort, desk: Desk<N>, passes: Vec<Pass<N>>) -> Closed {
    match desk.close(passes) {
        Ok(closed) => closed,
        Err(
            CloseFault {
                cause,
                desk: _desk,
                passes: _passes,
            },
        ) => panic!(rt; "not closed: {cause}"),
    }
}

/// The stamps go up from 1, one for each record.
fn are_stamped(rt: &impl Abort, closed: &Closed) {
    let mut stamp: u64 = 0;
    for record in closed.history() {
        stamp = stamp.saturating_add(1);
        match &record.reply {
            Reply::Inserted(inserted) => assert_eq!(rt; inserted.stamp, stamp),
            _ => panic!(rt; "an insert"),
        }
    }
    assert_eq!(rt; stamp, 2_001);
}
