//! A restart: the rows of one desk's log are stored, and a new desk takes them over. It pages nobody whom the first one paged.
ghost use Rattle.std.specs.Prelude.{◌≡◌};
ghost use Rattle.am_desk.specs.Terms.{resumed, terms};

use super::counts::{close, open, put, take};
use super::hanging::{begin, finish, send};
use super::{alert, config};
use am_alerts::alert::Alert;
use am_board::begin::Begun;
use am_board::board::Board;
use am_board::config::Config;
use am_board::fault::LoadFault;
use am_board::record::Loaded;
use am_board::views::RowView;
use am_desk::{
    Archive, Blank, Brand, CloseFault, Desk, Kind, Lasting, Name, Origin, Pass, Resumed,
};
use std::alloc::Global;
use std::process::Abort;
use std::sync::Wait;
use std::test::Fail;

/// One route by alertname, and the integration `hook/0`.
const CONFIG: &str =
    r#"{"receivers":[{"name":"team","integrations":[{"kind":"hook"}]}],"route":{"receiver":"team","group_by":["alertname"]}}"#;

/// When the group is due at first.
const DUE: u64 = 30_000;

/// When the new desk begins. The alert's start is long past by then, so its group is due at once.
const AGAIN: u64 = DUE + 1;

#[test]
fn a_restart_pages_nobody_again(rt: HostRuntime) -> Result<(), Fail> {
    let alloc = rt.alloc();
    let rows = page_on::<Brand, _>(&rt, alloc, config(alloc, CONFIG)?, Blank::new(alloc, 7, 1)?);
    resume_on::<Brand, _>(
        &rt,
        alloc,
        config(alloc, CONFIG)?,
        Blank::new(alloc, 8, 1)?,
        rows,
    );
    Ok(())
}

#[test]
fn a_restart_without_rows_pages_again(rt: HostRuntime) -> Result<(), Fail> {
    let alloc = rt.alloc();
    let rows = page_on::<Brand, _>(&rt, alloc, config(alloc, CONFIG)?, Blank::new(alloc, 7, 1)?);
    drop(rows);
    drop(page_on::<Brand, _>(&rt, alloc, config(alloc, CONFIG)?, Blank::new(alloc, 8, 1)?));
    Ok(())
}

/// Pages on a new desk, and returns the rows of its log.
fn page_on<N: Name, R: Wait + Abort>(
    rt: &R,
    alloc: Global,
    config: Config,
    blank: Blank,
) -> Vec<RowView>
    requires { (blank ≡ N.plan) × (terms config blank.id ≡ N.terms) }
{
    let (desk, mut passes) = open::<N>(rt, alloc, config, blank);
    let mut pass = take(rt, &mut passes);
    insert(rt, alloc, &desk, &mut pass, 0);
    let own = begin(rt, alloc, &desk, &mut pass, DUE);
    let own = send(rt, own, None, DUE);
    finish(rt, &desk, &mut pass, own, DUE);
    let rows = rows_of(rt, alloc, &desk, &mut pass);
    assert_eq!(rt; rows.len(), 1);
    put(rt, &mut passes, pass);
    drop(close(rt, desk, passes));
    rows
}

fn insert<N: Name, K: Kind, L: Origin, R: Wait + Abort>(
    rt: &R,
    alloc: Global,
    desk: &Desk<N, K, L>,
    pass: &mut Pass<N, L>,
    now: u64,
) {
    assert!(rt; desk.insert(rt, alloc, pass, now, firing(rt, alloc)).is_ok());
}

fn firing(rt: &impl Abort, alloc: Global) -> Alert {
    let Ok(alert) = alert(alloc, &[("alertname", "A")]) else {
        panic!(rt; "no memory")
    };
    alert
}

fn rows_of<N: Name, K: Kind, L: Origin, R: Wait + Abort>(
    rt: &R,
    alloc: Global,
    desk: &Desk<N, K, L>,
    pass: &mut Pass<N, L>,
) -> Vec<RowView> {
    let Ok(rows) = desk.rows(rt, alloc, pass) else {
        panic!(rt; "no memory")
    };
    rows
}

fn resume_on<N: Name, R: Wait + Abort>(
    rt: &R,
    alloc: Global,
    config: Config,
    blank: Blank,
    rows: Vec<RowView>,
)
    requires { (blank ≡ N.plan) × (resumed config blank.id ≡ N.terms) }
{
    let Ok((desk, mut passes, mut archive)) = Desk::<N, Lasting, Resumed>::open_resumed(
        alloc, config, blank,
    ) else {
        panic!(rt; "a good configuration")
    };
    let mut pass = take(rt, &mut passes);
    refuse(rt, alloc, &desk, &mut pass, rows.as_slice());
    load(rt, alloc, &desk, &mut pass, rows, Loaded::Put);
    let rows = rows_of(rt, alloc, &desk, &mut pass);
    load(rt, alloc, &desk, &mut pass, rows, Loaded::Kept);
    stay_quiet(rt, alloc, &desk, &mut pass);
    assert_eq!(rt; pass.calls(), 4);
    let taken = desk.take_history(rt, alloc, &mut pass, &mut archive);
    assert!(rt; taken.is_ok_and(|taken| taken.len() == 4));
    put(rt, &mut passes, pass);
    let board = close_resumed(rt, desk, passes, &mut archive);
    assert_eq!(rt; (archive.taken(), board.history().len()), (4, 0));
    drop(board);
}

/// A row of an integration that isn't there, and one that is ahead of the call, are refused.
fn refuse<N: Name, R: Wait + Abort>(
    rt: &R,
    alloc: Global,
    desk: &Desk<N, Lasting, Resumed>,
    pass: &mut Pass<N, Resumed>,
    rows: &[RowView],
) {
    assert_eq!(rt; rows.len(), 1);
    let (Ok(ahead), Ok(copy)) = (rows[0].copy(alloc), rows[0].copy(alloc)) else {
        panic!(rt; "no memory")
    };
    let stray = RowView {
        integration: 1,
        ..copy
    };
    let refused = desk.load(rt, alloc, pass, stray, AGAIN);
    assert_eq!(rt; refused.err(), Some(LoadFault::NoIntegration));
    let refused = desk.load(rt, alloc, pass, ahead, DUE - 1);
    assert_eq!(rt; refused.err(), Some(LoadFault::Ahead));
}

/// Loads a row.
fn load<N: Name, R: Wait + Abort>(
    rt: &R,
    alloc: Global,
    desk: &Desk<N, Lasting, Resumed>,
    pass: &mut Pass<N, Resumed>,
    rows: Vec<RowView>,
    wanted: Loaded,
) {
    assert_eq!(rt; rows.len(), 1);
    for row in rows {
        let loaded = desk.load(rt, alloc, pass, row, AGAIN);
        assert_eq!(rt; loaded.ok(), Some(wanted));
    }
}

/// The alert comes again, and its group is due. Nobody is paged.
fn stay_quiet<N: Name, R: Wait + Abort>(
    rt: &R,
    alloc: Global,
    desk: &Desk<N, Lasting, Resumed>,
    pass: &mut Pass<N, Resumed>,
) {
    insert(rt, alloc, desk, pass, AGAIN);
    match desk.begin(rt, alloc, pass, AGAIN) {
        Ok(
            Begun::Quiet {
                group: _,
                removed: _,
            },
        ) => {}
        Ok(Begun::Flush(_ticket)) => panic!(rt; "a page that was sent before"),
        Ok(Begun::NothingDue) => panic!(rt; "a due group"),
        Err(_) => panic!(rt; "a begin"),
    }
}

fn close_resumed<N: Name>(
    rt: &impl Abort,
    desk: Desk<N, Lasting, Resumed>,
    passes: Vec<Pass<N, Resumed>>,
    archive: &mut Archive<N>,
) -> Board {
    match desk.close_resumed(passes, archive) {
        Ok(board) => board,
        Err(
            CloseFault {
                cause,
                desk: _desk,
                passes: _passes,
            },
        ) => panic!(rt; "not closed: {cause}"),
    }
}
