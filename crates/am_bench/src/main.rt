//! Measures calls: those of a board are timed, and those that promise to take no memory are made for
//! whoever counts the requests.
//!
//! Each line of the standard input names a piece and its sizes, one space apart:
//!
//! - `flushes ALERTS GROUPS`: new inserts, the same again, in their order and in another; a
//!   `take_history`; a first flush of all groups, and a quiet one; one alert gets an end, is flushed and
//!   forgotten, while all others stay; inserts of the same alerts with an end, in that other order; a
//!   flush by which all of them leave; a maintenance that drops all groups and rows, and a forgetting of
//!   all alerts. A word more names a row (`row`): its step, after those that it needs alone.
//! - `longest ALERTS GROUPS`: the same, with each insert, begin and finish timed, and the longest reported.
//! - `routes ALERTS GROUPS`: the same where each alert goes to 16 routes, so many groups of each.
//! - `floor ALERTS GROUPS`: inserts and flushes as in `flushes`, of an array in place of a board (`floor`).
//! - `desk ALERTS GROUPS THREADS`: new inserts, the same in another order, the same once more in batches, a
//!   first flush and a quiet one, through a desk (`lanes`) by so many threads at once, 16 at most. Here the
//!   wall's clock counts.
//! - `inhibition SOURCES TARGETS`: a flush of groups of 16 targets; for each target there is one
//!   source that inhibits it, for the first one the last source that came, for the next one the source
//!   before that, and so on.
//! - `silences ALERTS GROUPS SILENCES`: a first flush of all groups after the silences were set, a
//!   quiet one, and one after one of the silences was changed. Every eleventh alert has a silence
//!   that mutes it, as long as there are silences. A word more names a row.
//! - `open FLUSHES GROUPS`: so many groups get a flush that stays open, and all groups are due again.
//!   Then half of the other groups are flushed in batches of 100: begins, a `next_due` for each, and a note
//!   and a finish for each of as many of the open flushes, the oldest. Then the other half, and the
//!   newest. So the number of open flushes stays, to within a batch.
//! - `receivers RECEIVERS ROUTES`: so many routes at one level, each to one of so many receivers: the
//!   tree is made, and a board opened; alerts of 1,000 of the routes are inserted; a begin for each, which
//!   stays open.
//! - `requests`: calls that promise to take no memory, and some that take it (`requests`). Nothing is
//!   timed.
//!
//! Alerts are built before the calls that are timed. Each piece has a board of its own. A label set
//! has six labels, and a group is of one alertname and cluster. Inserts and begins are a millisecond
//! apart. What the calls came to is written to the standard output, the same at each run. The standard
//! error says when a step begins, and what it took: for each insert, for each alert of the flushed
//! groups, and for all.
#![tactic(auto)]

mod alerts;
mod config;
mod desk;
mod floor;
mod flushes;
mod hanging;
mod inhibition;
mod lanes;
mod piece;
mod receivers;
mod requests;
mod row;
mod silences;
mod tally;
mod watch;
mod words;

use piece::run_line;
use requests::probe::Probe;
use std::alloc::Global;
use std::rt::Clock;
use std::sync::Wait;
use std::thread::Threads;
use std::time::CpuClock;
use words::BenchError;

/// The line that asks for the calls whose requests for memory are counted.
const REQUESTS: &str = "requests";

fn main(rt: HostRuntime) -> Result<(), BenchError> {
    let probe = Probe::new(rt.stdout());
    run_all(&rt, &probe, rt.alloc())
}

/// Runs the pieces that the lines of the input name, one after the other.
fn run_all<R: Input + Print + Eprint + Clock + CpuClock + Threads + Wait + Sync>(
    rt: &R,
    probe: &Probe,
    alloc: Global,
) -> Result<(), BenchError> {
    for line in rt.lines(alloc) {
        match line {
            Ok(line) if line.as_str() == REQUESTS => requests::make_calls(probe, rt, alloc)?,
            Ok(line) => run_line(rt, alloc, line.as_str())?,
            Err(_) => return Err(BenchError::Unreadable),
        }
    }
    Ok(())
}
