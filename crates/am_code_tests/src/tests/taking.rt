//! A desk that hands its history out, with two passes and space for four records and one group.
ghost use Rattle.std.specs.Prelude.{◌≡◌};
ghost use Rattle.am_desk.specs.Terms.{terms};

use super::counts::{put, take};
use super::hanging::begin;
use super::{alert, config};
use am_alerts::alert::Alert;
use am_board::board::Board;
use am_board::config::{Config, Limits};
use am_board::fault::Fault;
use am_board::record::{Record, Reply};
use am_desk::{Archive, Blank, Brand, CloseFault, Desk, Lasting, Name, Pass};
use std::alloc::Global;
use std::process::Abort;
use std::sync::Wait;
use std::test::Fail;

/// One route by alertname, and the integration `hook/0`.
const CONFIG: &str =
    r#"{"receivers":[{"name":"team","integrations":[{"kind":"hook"}]}],"route":{"receiver":"team","group_by":["alertname"]}}"#;

/// How many records the desk keeps.
const KEPT: usize = 4;

/// When the group is due.
const DUE: u64 = 30_000;

#[test]
fn a_history_is_handed_out(rt: HostRuntime) -> Result<(), Fail> {
    let alloc = rt.alloc();
    let read = config(alloc, CONFIG)?;
    let limits = Limits {
        groups: 1,
        history: KEPT,
        ..read.limits
    };
    let config = Config { limits, ..read };
    hand_out_on::<Brand, _>(&rt, alloc, config, Blank::new(alloc, 7, 2)?);
    Ok(())
}

fn hand_out_on<N: Name, R: Wait + Abort>(rt: &R, alloc: Global, config: Config, blank: Blank)
    requires { (blank ≡ N.plan) × (terms config blank.id ≡ N.terms) }
{
    let Ok((desk, mut passes, mut archive)) = Desk::<N, Lasting>::open_lasting(alloc, config, blank)
    else {
        panic!(rt; "a good configuration")
    };
    let mut one = take(rt, &mut passes);
    let mut zero = take(rt, &mut passes);
    fill(rt, alloc, &desk, &mut zero, &mut one);
    take_all(rt, alloc, &desk, &mut one, &mut archive, 4);
    insert_several(rt, alloc, &desk, &mut one);
    take_all(rt, alloc, &desk, &mut zero, &mut archive, 8);
    flush(rt, alloc, &desk, &mut zero, &mut archive);
    insert(rt, alloc, &desk, &mut one);
    put(rt, &mut passes, zero);
    put(rt, &mut passes, one);
    let board = close(rt, desk, passes, &mut archive);
    assert_eq!(rt; (archive.taken(), board.history().len()), (9, 2));
    drop(board);
}

/// The passes insert in turn until the history is full.
fn fill<N: Name, R: Wait + Abort>(
    rt: &R,
    alloc: Global,
    desk: &Desk<N, Lasting>,
    p: &mut Pass<N>,
    q: &mut Pass<N>,
) {
    insert(rt, alloc, desk, p);
    insert(rt, alloc, desk, q);
    insert(rt, alloc, desk, p);
    insert(rt, alloc, desk, q);
    let refused = desk.insert(rt, alloc, p, 0, named(rt, alloc, "A"));
    assert_eq!(rt; refused.err(), Some(Fault::HistoryFull));
}

fn insert<N: Name, R: Wait + Abort>(
    rt: &R,
    alloc: Global,
    desk: &Desk<N, Lasting>,
    pass: &mut Pass<N>,
) {
    let inserted = desk.insert(rt, alloc, pass, 0, named(rt, alloc, "A"));
    assert!(rt; inserted.is_ok());
}

fn named(rt: &impl Abort, alloc: Global, name: &str) -> Alert {
    let Ok(alert) = alert(alloc, &[("alertname", name)]) else {
        panic!(rt; "no memory")
    };
    alert
}

/// Inserts by one call until the history is full. The second alert would need a group more.
fn insert_several<N: Name, R: Wait + Abort>(
    rt: &R,
    alloc: Global,
    desk: &Desk<N, Lasting>,
    pass: &mut Pass<N>,
) {
    let mut alerts = Vec::new(alloc);
    for name in ["A", "B", "A", "A", "A", "A"] {
        assert!(rt; alerts.push(named(rt, alloc, name)).is_ok());
    }
    let Ok(answers) = desk.insert_all(rt, alloc, pass, 0, alerts) else {
        panic!(rt; "no memory")
    };
    let mut refused = Vec::new(alloc);
    for (number, answer) in answers.into_iter().enumerate() {
        if let Err(fault) = answer {
            assert!(rt; refused.push((number, fault)).is_ok());
        }
    }
    let wanted = [(1, Fault::TooManyGroups), (5, Fault::HistoryFull)];
    assert_eq!(rt; refused.as_slice(), wanted.as_slice());
}

/// Takes the record of a begin while its flush is open, and finishes it.
fn flush<N: Name, R: Wait + Abort>(
    rt: &R,
    alloc: Global,
    desk: &Desk<N, Lasting>,
    pass: &mut Pass<N>,
    archive: &mut Archive<N>,
) {
    let own = begin(rt, alloc, desk, pass, DUE);
    let taken = desk.take_history(rt, alloc, pass, archive);
    let finished = desk.finish_own(rt, pass, own, DUE);
    assert!(rt; taken.is_ok_and(|taken| taken.len() == 1) && finished.is_ok());
}

/// Takes the history: its records are the last, up to the stamp `last`.
fn take_all<N: Name, R: Wait + Abort>(
    rt: &R,
    alloc: Global,
    desk: &Desk<N, Lasting>,
    pass: &mut Pass<N>,
    archive: &mut Archive<N>,
    last: u64,
) {
    let Ok(taken) = desk.take_history(rt, alloc, pass, archive) else {
        panic!(rt; "no memory")
    };
    assert_eq!(rt; (taken.len(), archive.taken()), (KEPT, last));
    assert!(rt; are_stamped(taken.as_slice(), last));
    assert_eq!(rt; desk.glance(pass).calls as u64, last);
}

/// Whether these records are inserts, whose stamps go up by one to the last.
fn are_stamped(records: &[Record], last: u64) -> bool {
    let mut stamp = last.saturating_sub(records.len() as u64);
    for record in records {
        stamp = stamp.saturating_add(1);
        match &record.reply {
            Reply::Inserted(inserted) if inserted.stamp == stamp => {}
            _ => return false,
        }
    }
    stamp == last
}

fn close<N: Name>(
    rt: &impl Abort,
    desk: Desk<N, Lasting>,
    passes: Vec<Pass<N>>,
    archive: &mut Archive<N>,
) -> Board {
    match desk.close_with(passes, archive) {
        Ok(board) => board,
        Err(
            CloseFault {
                cause,
                desk: _desk,
                passes: _passes,
            },
        ) => panic!(rt; "not closed: {cause}"),
    }
}
