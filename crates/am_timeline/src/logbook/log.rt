//! `Log`: what is kept of a history while its expired log entries are found.
ghost use Rattle.std.specs.Prelude.{◌≡◌, ◌∷◌, ◌&&◌, ◌||◌, ◌==◌, [], ℕ, OnOk, Some, not, if◌then◌else◌};
ghost use Rattle.std.specs.Prelude.{max, min, nat_eq};
ghost use Rattle.std.specs.HashMap.{get};
ghost use Rattle.std.specs.HashSet.{contains};
ghost use Rattle.std.specs.Option.{option_map, option_or};
ghost use Rattle.am_alerts.specs.declared.limits.TheConstants.{MAX_TIME};
ghost use Rattle.am_model.specs.Finish.{is_delivered};
ghost use Rattle.am_model.specs.State.{same_name};
ghost use Rattle.am_model.specs.Records.{now_of};
ghost use Rattle.am_model.specs.look_back.Entry.{row_put};
ghost use Rattle.am_model.specs.look_back.Past.{Past, is_flush, is_flush_of, is_note};
ghost use Rattle.am_model.specs.declared.group.GroupName as named;
ghost use Rattle.am_timeline.specs.declared.logbook.log.LastEntry.TheVariants as entries;
ghost use Rattle.am_timeline.specs.LastEntry.{entry_loaded, entry_of_row};
ghost use Rattle.am_timeline.specs.Log.{Follows, finish_logs, has_success, is_logged, logs_by, same_log_key, same_note_key};

use crate::playback::is_put;
use am_alerts::limits::MAX_TIME;
use am_model::group::GroupName;
use am_model::notice::Notice;
use am_model::outcome::outcome_of;
use am_model::record::{Call, Record, Reply};
use am_model::views::RowView;
use am_retry::Outcome;
use am_seed::Seed;
use std::alloc::{AllocError, Global};
use std::collections::{HashMap, HashSet};
use std::marker::Model;

/// A group, and the position of an integration of its receiver.
#[derive(Drop, PartialEq, Eq, Hash)]
pub struct LogKey {
    pub group: GroupName,
    pub integration: usize,
}

/// What gave a group and an integration their entry of the log last.
#[derive(Clone, Copy)]
pub enum LastEntry {
    /// A success, which was logged at this time, in milliseconds.
    Logged(u64),
    /// A row that was loaded, with its expiry, in milliseconds.
    Loaded(u64),
}

/// The number of a flush, and the position of an integration that it notifies.
#[derive(Clone, Copy, PartialEq, Eq, Hash)]
pub struct NoteKey {
    pub number: u64,
    pub integration: u32,
}

/// The record that began a flush.
#[derive(Drop)]
pub struct Begun<'h> {
    begin: &'h Record,
}

impl<'h> Model for Begun<'h> {
    ghost use Rattle.am_model.specs.declared.record.Record as records;

    ghost Value = { records.Record };

    ghost view = { λ b. b.begin.now };
}

/// What is kept of a history: the flushes, their notes, and the last entries.
#[derive(Drop)]
pub struct Log<'h> {
    /// The last flush of each number.
    pub begun: HashMap<u64, Begun<'h>, Seed>,
    pub noted: HashSet<NoteKey, Seed>,
    /// The last entry of each group and integration.
    pub logged: HashMap<LogKey, LastEntry, Seed>,
    /// The time of the last record, in milliseconds.
    pub clock: u64,
}

/// Of no records.
pub fn empty_log<'h>(alloc: Global, seed: Seed) -> Log<'h>
    ensures { Follows result [] }
{
    Log {
        begun: HashMap::with_hasher(alloc, seed),
        noted: HashSet::with_hasher(alloc, seed),
        logged: HashMap::with_hasher(alloc, seed),
        clock: 0,
    }
}

/// Adds a record.
pub fn add_record<'h>(alloc: Global, added: &'h Record, log: &mut Log<'h>) -> Result<(), AllocError>
    ensures { OnOk result ((past : Past) → Follows log.old past → Follows log.new (added.now ∷ past)) }
{
    let time = next_time(log.clock, &added.call);
    add_logged(alloc, &log.begun, &log.noted, added, time, &mut log.logged)?;
    add_noted(&added.call, &mut log.noted)?;
    add_begun(added, &mut log.begun)?;
    log.clock = time;
    Ok(())
}

/// The time of a call, after this one: the time that it handed in, or this if that is later.
pub fn next_time(clock: u64, call: &Call) -> u64
    ensures { result ≡ max clock (min (now_of call.now) MAX_TIME) }
{
    clock.max(now_of(call).min(MAX_TIME))
}

/// The time that a call handed in.
fn now_of(call: &Call) -> u64
    ensures { result ≡ now_of call.now }
{
    match call {
        Call::Insert { now, .. }
        | Call::Silence { now, .. }
        | Call::Begin { now }
        | Call::Finish { now, .. }
        | Call::Maintain { now }
        | Call::RemoveEmptyGroups { now }
        | Call::Forget { now }
        | Call::Load { now, .. }
        | Call::Note { now, .. } => *now,
    }
}

/// Adds the flush that a record begins, if it does.
fn add_begun<'h>(
    added: &'h Record,
    begun: &mut HashMap<u64, Begun<'h>, Seed>,
) -> Result<(), AllocError>
    ensures { OnOk result ((number : ℕ) → get nat_eq begun.new number
        ≡ (if is_flush number added.now.reply then Some added.now else get nat_eq begun.old number)) }
{
    if let Reply::Flush { opened, .. } = &added.reply {
        begun.insert(opened.get().number, Begun { begin: added })?;
    }
    Ok(())
}

/// Adds what a call notes, if it does.
fn add_noted(call: &Call, noted: &mut HashSet<NoteKey, Seed>) -> Result<(), AllocError>
    ensures { OnOk result ((number integration : ℕ)
        → contains same_note_key noted.new (record { number = number; integration = integration })
        ≡ (is_note number integration call.now
        || contains same_note_key noted.old (record { number = number; integration = integration }))) }
{
    if let Call::Note {
        number,
        integration,
        ..
    } = call
    {
        noted.insert(NoteKey {
            number: *number,
            integration: *integration,
        })?;
    }
    Ok(())
}

/// Adds the entries that a record gives: by the successes that its call logs, or by the row that it loads.
fn add_logged(
    alloc: Global,
    begun: &HashMap<u64, Begun<'_>, Seed>,
    noted: &HashSet<NoteKey, Seed>,
    added: &Record,
    time: u64,
    logged: &mut HashMap<LogKey, LastEntry, Seed>,
) -> Result<(), AllocError>
    ensures { OnOk result ((name : named.GroupName) (integration : ℕ)
        → get same_log_key logged.new (record { group = name; integration = integration })
        ≡ (if logs_by (λ k. get nat_eq begun.now k) (λ k i. contains same_note_key noted.now (record { number = k; integration = i }))
        name integration added.now.call then Some (entries.Logged time)
        else option_or (entry_loaded name integration added.now)
        (get same_log_key logged.old (record { group = name; integration = integration })))) }
{
    match &added.call {
        Call::Finish {
            number,
            outcomes,
            ..
        } => match begun.get(number) {
            None => Ok(()),
            Some(flush) => {
                let finish = Finish {
                    number: *number,
                    outcomes: outcomes.as_slice(),
                    noted,
                    time,
                };
                log_finish(alloc, flush.begin, &finish, logged)
            }
        },
        Call::Note {
            number,
            integration,
            ..
        } => match begun.get(number) {
            None => Ok(()),
            Some(flush) => log_note(alloc, flush.begin, *integration as usize, time, logged),
        },
        Call::Load { row, .. } => log_load(alloc, row.get(), &added.reply, logged),
        _ => Ok(()),
    }
}

/// Adds the entry of a row that was handed in, if the reply to its load says that it was put into the log.
fn log_load(
    alloc: Global,
    row: &RowView,
    reply: &Reply,
    logged: &mut HashMap<LogKey, LastEntry, Seed>,
) -> Result<(), AllocError>
    ensures { OnOk result ((name : named.GroupName) (i : ℕ)
        → get same_log_key logged.new (record { group = name; integration = i })
        ≡ option_or (option_map entry_of_row (row_put name i reply.now (Some row.now)))
        (get same_log_key logged.old (record { group = name; integration = i }))) }
{
    if !is_put(reply) {
        return Ok(());
    }
    let entry = LastEntry::Loaded(row.expiry);
    add_entry(alloc, &row.group, row.integration as usize, entry, logged)
}

/// Logs a success of an integration at this time, for the group of a flush.
fn log_note(
    alloc: Global,
    flush: &Record,
    integration: usize,
    time: u64,
    logged: &mut HashMap<LogKey, LastEntry, Seed>,
) -> Result<(), AllocError>
    ensures { OnOk result ((name : named.GroupName) (i : ℕ)
        → get same_log_key logged.new (record { group = name; integration = i })
        ≡ (if is_flush_of name flush.now.reply && (integration == i)
        then Some (entries.Logged time) else get same_log_key logged.old (record { group = name; integration = i }))) }
{
    match &flush.reply {
        Reply::Flush { group, .. } => {
            add_entry(alloc, group, integration, LastEntry::Logged(time), logged)
        }
        _ => Ok(()),
    }
}

/// Adds the entry of a group and an integration.
fn add_entry(
    alloc: Global,
    group: &GroupName,
    integration: usize,
    entry: LastEntry,
    logged: &mut HashMap<LogKey, LastEntry, Seed>,
) -> Result<(), AllocError>
    ensures { OnOk result ((name : named.GroupName) (i : ℕ)
        → get same_log_key logged.new (record { group = name; integration = i })
        ≡ (if same_name name group.now && (integration == i)
        then Some entry else get same_log_key logged.old (record { group = name; integration = i }))) }
{
    let key = LogKey {
        group: group.copy(alloc)?,
        integration,
    };
    logged.insert(key, entry)?;
    Ok(())
}

/// Logs the successes of a flush by its finish.
fn log_finish(
    alloc: Global,
    flush: &Record,
    finish: &Finish<'_>,
    logged: &mut HashMap<LogKey, LastEntry, Seed>,
) -> Result<(), AllocError>
    ensures { OnOk result ((name : named.GroupName) (i : ℕ)
        → get same_log_key logged.new (record { group = name; integration = i })
        ≡ (if finish_logs (λ k. contains same_note_key finish.now.noted.now (record { number = finish.now.number; integration = k }))
        finish.now.outcomes.now name i flush.now
        then Some (entries.Logged finish.now.time)
        else get same_log_key logged.old (record { group = name; integration = i }))) }
{
    match &flush.reply {
        Reply::Flush { group, opened } => {
            log_notices(
                alloc,
                group,
                opened.get().notices.as_slice(),
                finish,
                logged,
            )
        }
        _ => Ok(()),
    }
}

/// Logs the successes of these notices of a flush by its finish.
fn log_notices(
    alloc: Global,
    group: &GroupName,
    notices: &[Notice],
    finish: &Finish<'_>,
    logged: &mut HashMap<LogKey, LastEntry, Seed>,
) -> Result<(), AllocError>
    ensures { OnOk result ((name : named.GroupName) (i : ℕ)
        → get same_log_key logged.new (record { group = name; integration = i })
        ≡ (if same_name name group.now
        && is_logged (λ k. contains same_note_key finish.now.noted.now (record { number = finish.now.number; integration = k }))
        finish.now.outcomes.now i notices.now
        then Some (entries.Logged finish.now.time)
        else get same_log_key logged.old (record { group = name; integration = i }))) }
{
    for notice in notices {
        if finish.is_new_success(notice) {
            let entry = LastEntry::Logged(finish.time);
            add_entry(alloc, group, notice.integration as usize, entry, logged)?;
        }
    }
    Ok(())
}

/// The finish of a flush.
#[derive(Drop)]
struct Finish<'f> {
    /// The flush's number.
    number: u64,
    outcomes: &'f [(u32, Outcome)],
    /// What was noted before.
    noted: &'f HashSet<NoteKey, Seed>,
    /// In milliseconds.
    time: u64,
}

impl<'f> Finish<'f> {
    /// Whether the integration of a notice succeeded, and that wasn't noted.
    fn is_new_success(&self, notice: &Notice) -> bool
        ensures { result
            ≡ (has_success (λ k. contains same_note_key self.now.noted.now (record { number = self.now.number; integration = k }))
            self.now.outcomes.now notice.now
            && not (contains same_note_key self.now.noted.now
            (record { number = self.now.number; integration = notice.now.integration }))) }
    {
        let key = NoteKey {
            number: self.number,
            integration: notice.integration,
        };
        !self.noted.contains(&key)
            && (notice.nothing() || is_delivered(outcome_of(self.outcomes, notice.integration)))
    }
}

fn is_delivered(outcome: Option<Outcome>) -> bool
    ensures { result ≡ is_delivered outcome }
{
    match outcome {
        Some(Outcome::Delivered) => true,
        _ => false,
    }
}
