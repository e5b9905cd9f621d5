//! A pager whose flushes each end by themselves: a courier that hangs holds its own flush alone.
ghost use Rattle.std.specs.Prelude.{◌≡◌, ◌≤◌};
ghost use Rattle.am_alerts.specs.declared.limits.TheConstants.{MAX_TIME};
ghost use Rattle.am_desk.specs.Terms.{terms};

use super::counts::{close, open, put, take};
use super::{alert, config};
use am_board::begin::Begun;
use am_board::config::{Config, Limits};
use am_board::notice::{Notice, Report};
use am_board::record::{Call, Record};
use am_desk::{Blank, Brand, Desk, Kind, Name, OwnTicket, Pass};
use am_pool::{AttemptTrace, Courier, Sent, Tried, deliver};
use am_retry::Answer;
use std::alloc::{AllocError, Global};
use std::process::Abort;
use std::sync::{Barrier, Mutex, Wait};
use std::test::Fail;
use std::thread::{Threads, for_each_mut, join};

/// A group of the root for each alertname, whose receiver is down, and one of the child's.
const CONFIG: &str =
    r#"{"receivers":[{"name":"down","integrations":[{"kind":"hook"}]},{"name":"up","integrations":[{"kind":"hook"}]}],
    "route":{"receiver":"down","group_by":["alertname"]},"children":[{"name":"up","receiver":"up","matchers":[["team","=","up"]]}]}"#;

/// How many couriers hang, each with a flush of its own.
const HANGING: usize = 500;

/// When the groups of the receiver that is down are due, in milliseconds.
const DUE: u64 = 30_000;

/// When the group of the other receiver is due.
const LATER: u64 = DUE + 1;

/// Where the couriers that hang meet the thread that pages the other receiver.
#[derive(Drop)]
pub struct Outage {
    /// All of them hang, and the thread is there.
    begun: Barrier,
    /// The thread lets them go.
    over: Barrier,
}

/// A courier whose attempt succeeds, once the outage is over where there is one.
#[derive(Drop)]
struct Phone<'o, R: Wait> {
    rt: &'o R,
    outage: Option<&'o Outage>,
    trace: AttemptTrace,
}

impl<R: Wait> Courier for Phone<'_, R> {
    ghost tries = { λ c. c.trace.tries };

    ghost refusals = { λ c. c.trace.refusals };

    fn send(&mut self, notice: &Notice, attempt: u64, at: u64) -> Result<Sent, AllocError> {
        if let Some(outage) = self.outage {
            outage.begun.wait(self.rt);
            outage.over.wait(self.rt);
        }
        let sent = Sent {
            answer: Answer::Done,
            ended: at,
        };
        self.trace.add_try(&Tried::new(notice, attempt, at, &sent));
        Ok(sent)
    }
}

/// A flush that a thread takes over, to send its notice and to finish it.
struct Flush<N: Name> {
    own: Option<OwnTicket<N>>,
}

#[test]
fn a_page_while_500_hang(rt: HostRuntime) -> Result<(), Fail> {
    let alloc = rt.alloc();
    let config = Config {
        limits: Limits::greatest(),
        ..config(alloc, CONFIG)?
    };
    page_on::<Brand, _>(&rt, alloc, config, Blank::new(alloc, 7, 2)?);
    Ok(())
}

fn page_on<N: Name + Send + Sync, R: Threads + Wait + Abort + Sync>(
    rt: &R,
    alloc: Global,
    config: Config,
    blank: Blank,
)
    requires { (blank ≡ N.plan) × (terms config blank.id ≡ N.terms) }
{
    let (desk, mut passes) = open::<N>(rt, alloc, config, blank);
    let one = take(rt, &mut passes);
    let mut zero = take(rt, &mut passes);
    insert_all(rt, alloc, &desk, &mut zero);
    let mut flushes = begin_all(rt, alloc, &desk, &mut zero);
    let (zero, one) = page_all(rt, alloc, &desk, flushes.as_mut_slice(), zero, one);
    put(rt, &mut passes, zero);
    put(rt, &mut passes, one);
    all_ended(rt, flushes);
    let closed = close(rt, desk, passes);
    is_first(rt, closed.history());
    drop(closed);
}

/// An alert for each group, those of the receiver that is down first.
fn insert_all<N: Name, R: Wait + Abort>(rt: &R, alloc: Global, desk: &Desk<N>, pass: &mut Pass<N>) {
    for number in 0..HANGING {
        insert(rt, alloc, desk, pass, number, false);
    }
    insert(rt, alloc, desk, pass, HANGING, true);
}

/// Inserts the alert of a group, whose receiver is up or down. Those of the one that is up are a millisecond later.
fn insert<N: Name, R: Wait + Abort>(
    rt: &R,
    alloc: Global,
    desk: &Desk<N>,
    pass: &mut Pass<N>,
    number: usize,
    is_up: bool,
) {
    let Ok(name) = format!(in alloc; "A{number}") else {
        panic!(rt; "no memory")
    };
    let made = if is_up {
        alert(alloc, &[("alertname", name.as_str()), ("team", "up")])
    } else {
        alert(alloc, &[("alertname", name.as_str())])
    };
    let Ok(alert) = made else {
        panic!(rt; "no memory")
    };
    assert!(rt;
        desk.insert(rt, alloc, pass, u64::from(is_up), alert)
            .is_ok()
    );
}

/// Begins the flushes of the receiver that is down: all that are due first.
fn begin_all<N: Name, R: Wait + Abort>(
    rt: &R,
    alloc: Global,
    desk: &Desk<N>,
    pass: &mut Pass<N>,
) -> Vec<Flush<N>> {
    let mut flushes = Vec::new(alloc);
    for _ in 0..HANGING {
        let Ok(()) = flushes.reserve(1) else {
            panic!(rt; "no memory")
        };
        let own = Some(begin(rt, alloc, desk, pass, DUE));
        flushes.push_reserved(Flush { own });
    }
    flushes
}

/// Begins a flush that is due.
pub fn begin<N: Name, K: Kind, R: Wait + Abort>(
    rt: &R,
    alloc: Global,
    desk: &Desk<N, K>,
    pass: &mut Pass<N>,
    now: u64,
) -> OwnTicket<N> {
    match desk.begin(rt, alloc, pass, now) {
        Ok(Begun::Flush(ticket)) => OwnTicket::new(ticket),
        Ok(
            Begun::Quiet {
                group: _,
                removed: _,
            },
        ) => panic!(rt; "a flush"),
        Ok(Begun::NothingDue) => panic!(rt; "a due group"),
        Err(_) => panic!(rt; "a begin"),
    }
}

/// Each flush in a thread of its own, which shares a pass with the others to finish it; and one more
/// thread, which pages the other receiver.
fn page_all<N: Name + Send + Sync, R: Threads + Wait + Abort + Sync>(
    rt: &R,
    alloc: Global,
    desk: &Desk<N>,
    flushes: &mut [Flush<N>],
    zero: Pass<N>,
    one: Pass<N>,
) -> (Pass<N>, Pass<N>) {
    let outage = Outage {
        begun: Barrier::new(HANGING + 1),
        over: Barrier::new(HANGING + 1),
    };
    let shared = Mutex::new(one);
    let (zero, ()) = join(
        rt,
        || page_other(rt, alloc, desk, zero, &outage),
        || send_all(rt, desk, &shared, &outage, flushes),
    );
    (zero, shared.into_inner())
}

fn send_all<N: Name + Send + Sync, R: Threads + Wait + Abort + Sync>(
    rt: &R,
    desk: &Desk<N>,
    shared: &Mutex<Pass<N>>,
    outage: &Outage,
    flushes: &mut [Flush<N>],
) {
    for_each_mut(
        rt,
        flushes,
        HANGING,
        &|_, flush: &mut Flush<N>| { flush.end(rt, desk, shared, outage) },
    );
}

impl<N: Name> Flush<N> {
    /// Sends the notice, which hangs, and then finishes the flush.
    fn end<R: Wait + Abort>(
        &mut self,
        rt: &R,
        desk: &Desk<N>,
        shared: &Mutex<Pass<N>>,
        outage: &Outage,
    ) {
        match self.own.take() {
            None => panic!(rt; "a flush"),
            Some(own) => {
                let own = send(rt, own, Some(outage), DUE);
                let mut pass = shared.lock(rt);
                finish(rt, desk, &mut pass, own, DUE);
            }
        }
    }
}

/// Sends the notice of a flush, and records the report.
pub fn send<N: Name, R: Wait + Abort>(
    rt: &R,
    own: OwnTicket<N>,
    outage: Option<&Outage>,
    now: u64,
) -> OwnTicket<N>
    requires { now ≤ MAX_TIME }
{
    let mut own = own;
    let report = report(rt, own.ticket().notices(), outage, now);
    assert!(rt; own.record(report).is_ok());
    own
}

fn report<R: Wait + Abort>(rt: &R, notices: &[Notice], outage: Option<&Outage>, now: u64) -> Report
    requires { now ≤ MAX_TIME }
{
    assert_eq!(rt; notices.len(), 1);
    let notice = &notices[0];
    assert!(rt; !notice.nothing());
    let mut phone = Phone {
        rt,
        outage,
        trace: AttemptTrace::new(),
    };
    deliver(&mut phone, notice, now)
}

/// Finishes a flush whose notice was delivered.
pub fn finish<N: Name, R: Wait + Abort>(
    rt: &R,
    desk: &Desk<N>,
    pass: &mut Pass<N>,
    own: OwnTicket<N>,
    now: u64,
) {
    match desk.finish_own(rt, pass, own, now) {
        Ok(finished) => assert_eq!(rt; finished.logged, 1),
        Err(_not_open) => panic!(rt; "an open flush"),
    }
}

/// Flushes the group of the other receiver while all couriers hang, and then lets them go.
fn page_other<N: Name, R: Wait + Abort>(
    rt: &R,
    alloc: Global,
    desk: &Desk<N>,
    pass: Pass<N>,
    outage: &Outage,
) -> Pass<N> {
    let mut pass = pass;
    outage.begun.wait(rt);
    let own = begin(rt, alloc, desk, &mut pass, LATER);
    let own = send(rt, own, None, LATER);
    finish(rt, desk, &mut pass, own, LATER);
    assert_eq!(rt; desk.glance(&mut pass).flushes, HANGING);
    outage.over.wait(rt);
    pass
}

/// No flush was left by its thread.
fn all_ended<N: Name>(rt: &impl Abort, flushes: Vec<Flush<N>>) {
    let mut left = flushes;
    while !left.is_empty() {
        let Flush { own } = left.pop().unwrap();
        match own {
            None => {}
            Some(_own) => panic!(rt; "a flush that was left"),
        }
    }
    left.destroy_empty();
}

/// Of all flushes the one that began last was finished first.
fn is_first(rt: &impl Abort, history: &[Record]) {
    let mut finished: usize = 0;
    for record in history {
        if let Call::Finish {
            now: _,
            number,
            outcomes: _,
        } = &record.call
        {
            finished = finished.saturating_add(1);
            assert_eq!(rt; finished == 1, *number == HANGING as u64 + 1);
        }
    }
    assert_eq!(rt; finished, HANGING + 1);
}
