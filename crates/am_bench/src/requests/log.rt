//! Calls on the notification log.
ghost use Rattle.std.specs.Prelude.{◌≡◌, IsTrue};
ghost use Rattle.std.specs.Ordering.{nat_cmp};
ghost use Rattle.am_nflog.specs.Members.{is_ascending};

use crate::requests::probe::Probe;
use am_nflog::{LogKey, LogRow, Members, NfLog, needs_update};
use am_seed::Seed;
use std::alloc::{AllocError, Global};

pub fn make_calls(probe: &Probe, alloc: Global) -> Result<(), AllocError> {
    keep_rows(probe, alloc)?;
    merge_rows(probe, alloc)?;
    ask_update(probe, &row(alloc, 100)?);
    Ok(())
}

fn key() -> LogKey<u64>
    ensures { result ≡ record { group = 1; integration = 0 } }
{
    LogKey {
        group: 1,
        integration: 0,
    }
}

/// A row at this time, in which 1 and 3 fired and nothing was resolved; it is collected from 1,000 on.
fn row(alloc: Global, time: u64) -> Result<LogRow<u64>, AllocError> {
    Ok(LogRow {
        time,
        firing: members(alloc, &[1, 3])?,
        resolved: members(alloc, &[])?,
        expiry: 1_000,
    })
}

fn members(alloc: Global, list: &[u64]) -> Result<Members<u64>, AllocError>
    requires { IsTrue (is_ascending nat_cmp list.now) }
{
    Members::new(alloc, list.to_vec(alloc)?)
}

/// Makes a key known, and puts a row at it.
fn keep_rows(probe: &Probe, alloc: Global) -> Result<(), AllocError> {
    probe.ask("NfLog::new");
    let mut log: NfLog<u64, u64> = NfLog::new(alloc, Seed::fixed())?;
    probe.show(&log.len());
    probe.ask("with memory: NfLog::reserve");
    log.reserve(key())?;
    probe.show(&log.len());
    let row = row(alloc, 100)?;
    probe.ask("NfLog::put");
    log.put(&key(), row);
    probe.show(&log.len());
    collect(probe, &mut log);
    Ok(())
}

/// Looks for the row, asks for its key once more, and has the row collected and the key forgotten.
fn collect(probe: &Probe, log: &mut NfLog<u64, u64>) {
    probe.ask("NfLog::get");
    let row = log.get(&key());
    probe.show(&row.is_some());
    probe.ask("NfLog::reserve, of a known key");
    let reserved = log.reserve(key());
    probe.show(&reserved);
    probe.ask("NfLog::collect");
    let gone = log.collect(1_000);
    probe.show(&gone);
    probe.ask("NfLog::forget");
    log.forget(&[2]);
    probe.show(&log.len());
}

/// Merges a row into an empty log, and then at its key one of the same time and a later one.
fn merge_rows(probe: &Probe, alloc: Global) -> Result<(), AllocError> {
    let mut log: NfLog<u64, u64> = NfLog::new(alloc, Seed::fixed())?;
    let first = row(alloc, 100)?;
    let same = row(alloc, 100)?;
    let later = row(alloc, 101)?;
    merge(probe, &mut log, "with memory: NfLog::merge", first);
    merge(
        probe,
        &mut log,
        "NfLog::merge, of a row that isn't later",
        same,
    );
    merge(probe, &mut log, "NfLog::merge, at a known key", later);
    Ok(())
}

fn merge(probe: &Probe, log: &mut NfLog<u64, u64>, call: &str, row: LogRow<u64>) {
    probe.ask(call);
    let merged = log.merge(key(), row);
    probe.show(&merged);
}

fn ask_update(probe: &Probe, row: &LogRow<u64>) {
    probe.ask("Members::share");
    let shared = row.firing.share();
    probe.show(&shared.is_ok());
    probe.ask("needs_update");
    let is_needed = needs_update(Some(row), &[&1], &[&2], true, 50, 100);
    probe.show(&is_needed);
}
