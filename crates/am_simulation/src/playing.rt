//! Plays the parts of a rehearsal (`parts`) one after another, each by a board of its own.
//!
//! A dispatcher that keeps the log gets the rows of the board before it as loads, in front of its own
//! plans. Boards are in boxes: the proof of a function that lets a whole board go takes half a minute.
ghost use Rattle.std.specs.Prelude.{◌≡◌, ◌<◌, ◌≤◌, ◌+◌, ◌++◌, ◌&&◌, [], if◌then◌else◌, length, nat_lt, not, None, IfErr, IfOk, OnErr, OnOk};
ghost use Rattle.std.specs.List.{count_by, flat_map, list_any};
ghost use Rattle.std.specs.Option.{option_copied};
ghost use Rattle.am_model.specs.Carry.{is_led_to};
ghost use Rattle.am_model.specs.Rekey.{rekeyed};
ghost use Rattle.am_simulation.specs.Playing.{is_taken, carries_log, last_board, rows_before, taken_count, taken_over};
ghost use Rattle.am_simulation.specs.Playing.{ArePlayed, IsPlayedNext, IsTakeFault, IsCauseOfPartFault, IsCauseOfPartsFault, PlaysPart};
ghost use Rattle.am_simulation.specs.Simulations.{setting_of};
ghost use Rattle.am_simulation.specs.Play.{PlaysTo};
ghost use Rattle.am_simulation.specs.CauseOfFault.{IsCauseOfFault};
ghost use Rattle.am_terms.specs.declared.rehearsal.TheConstants.{MAX_UNTIL};

use crate::dispatcher_change::loads;
use crate::parts::Part;
use crate::play::{Conditions, LoadedPart, PlayFault, Played, play_loaded};
use am_board::board::Board;
use am_board::config::Config;
use am_model::rekey::{Rekeying, is_led_to};
use am_model::views::RowView;
use am_seed::Seed;
use am_terms::dispatcher_change::Carryover;
use am_terms::rehearsal::{Outage, Upkeep};
use am_terms::watch::Watch;
use std::alloc::{AllocError, Global};

/// A part of a rehearsal that ran to its end.
#[derive(Drop)]
pub struct PlayedPart {
    pub played: Box<Played>,
    /// How many log rows the board before it had; zero for the first part.
    pub rows: usize,
    /// How many of these were taken over.
    pub taken: usize,
}

/// Why a rehearsal of several dispatchers doesn't run to its end.
#[derive(Clone, Copy)]
pub struct PartFault {
    /// The position of the part that doesn't.
    pub part: usize,
    pub fault: PlayFault,
}

/// Runs the parts of a rehearsal to their ends, one after another.
///
/// `upkeep` says how often each dispatcher removes what is over. Each part starts with an empty board
/// at the start of its span. Before its own plans come loads of the log rows that it takes over of the
/// board before it, if it keeps the log (`am_model::rekey`). Notices that are in flight at its end are
/// sent to their own end, or fail at the cut of its span. `watch` is called at each step. Hashes start
/// from `seed`, on which nothing depends.
///
/// Clause `played`: each part plays to its board and events (`PlaysTo`), step by step.
/// `law::rehearsals_have_one_play`: there is only one such pair. `law::plays_have_their_inputs`: the
/// inserts, silences and loads of the history are the planned ones. The reasons of each begin are those
/// that the history before it gives. The events have each begin that took a group, once and in order.
/// The board has the id `BOARD_ID`. The numbers of log rows are right (`PlaysPart`).
///
/// Clause `refused`: the parts before the failing one run. For that one a fault other than `NoMemory`
/// comes only where it is the cause (`IsCauseOfFault`).
///
/// # Errors
///
/// The first of these on the way, with the position of its part:
/// - `BadConfig`: no board takes the configuration.
/// - `PlanRefused`: the planned action at this position comes next, and the board refuses it: at a
///   limit, or a log row that doesn't fit. The position counts with the loads in front.
/// - `Full`: a begin, a maintenance or a removal of empty groups comes next, and the history has no
///   capacity for it.
/// - `NoMemory`.
///
/// Cost: its board calls, with a preview for each begin, and at each event the notices of one flush.
pub fn play_parts<W: Watch>(
    alloc: Global,
    seed: Seed,
    parts: Vec<Part>,
    upkeep: Upkeep,
    outages: &[Outage],
    watch: &mut W,
) -> Result<Vec<PlayedPart>, PartFault>
    ensures played { IfOk result (λ played. ArePlayed upkeep outages.now None parts.items played.items) }
    ensures refused { IfErr result (IsCauseOfPartsFault upkeep outages.now parts.items) }
{
    let conditions = Conditions {
        alloc,
        seed,
        upkeep,
        outages,
    };
    let mut played = Vec::new(alloc);
    for part in parts {
        match play_next(&conditions, part, &mut played, watch) {
            Ok(()) => {}
            Err(fault) => {
                return Err(PartFault {
                    part: played.len(),
                    fault,
                });
            }
        }
    }
    Ok(played)
}

/// Plays a part after these, and adds it.
fn play_next<W: Watch>(
    conditions: &Conditions<'_>,
    part: Part,
    played: &mut Vec<PlayedPart>,
    watch: &mut W,
) -> Result<(), PlayFault>
    ensures added { OnOk result
        (IsPlayedNext conditions.now.upkeep conditions.now.outages.now part played.old.items played.new.items) }
    ensures kept { OnErr result (played.new.items ≡ played.old.items) }
    ensures refused { IfErr result
        (IsCauseOfPartFault conditions.now.upkeep conditions.now.outages.now (last_board None played.old.items) part) }
{
    played.reserve(1)?;
    let before = last_board(played.as_slice());
    let next = play_part(conditions, before, part, watch)?;
    played.push_reserved(next);
    Ok(())
}

/// Returns the board of the last of these parts, if there is one.
fn last_board(played: &[PlayedPart]) -> Option<&Board>
    ensures { option_copied result ≡ last_board None played.now }
{
    match played.last() {
        None => None,
        Some(last) => Some(&last.played.board),
    }
}

/// Plays a part after a board.
fn play_part<W: Watch>(
    conditions: &Conditions<'_>,
    before: Option<&Board>,
    part: Part,
    watch: &mut W,
) -> Result<PlayedPart, PlayFault>
    ensures played { IfOk result
        (PlaysPart conditions.now.upkeep conditions.now.outages.now (option_copied before.entry) part) }
    ensures refused { IfErr result
        (IsCauseOfPartFault conditions.now.upkeep conditions.now.outages.now (option_copied before.entry) part) }
{
    let alloc = conditions.alloc;
    let Part {
        config,
        span,
        until,
        plans: mut own,
        carryover,
    } = part;
    let log = take_over(alloc, before, carryover, span.since, &config)?;
    let mut plans = loads(alloc, span.since, log.found)?;
    plans.append(&mut own)?;
    let loaded = LoadedPart {
        config,
        span,
        until,
        plans,
    };
    let played = play_boxed(conditions, loaded, watch)?;
    Ok(PlayedPart {
        played,
        rows: log.rows,
        taken: log.taken,
    })
}

/// `play_loaded`, with what ran in a box.
fn play_boxed<W: Watch>(
    conditions: &Conditions<'_>,
    part: LoadedPart,
    watch: &mut W,
) -> Result<Box<Played>, PlayFault>
    requires until { part.until ≤ MAX_UNTIL }
    ensures played { IfOk result (λ played. PlaysTo (setting_of conditions.now part) part.config part.plans.items
        played.value.board played.value.events.items) }
    ensures refused { IfErr result (IsCauseOfFault (setting_of conditions.now part) part.config part.plans.items) }
{
    let played = play_loaded(conditions, part, watch)?;
    match Box::new(conditions.alloc, played) {
        Ok(played) => Ok(played),
        Err(refused) => {
            drop(refused);
            Err(PlayFault::NoMemory)
        }
    }
}

/// What a dispatcher takes over of the log of the board before it.
#[derive(Drop)]
struct TakenLog {
    /// The rows by which the new log finds them again.
    found: Vec<RowView>,
    /// How many rows the log had.
    rows: usize,
    /// How many of these were taken over.
    taken: usize,
}

/// Returns what a dispatcher of this configuration takes over of the log of the board before it at
/// `at` (milliseconds).
fn take_over(
    alloc: Global,
    before: Option<&Board>,
    carryover: Carryover,
    at: u64,
    config: &Config,
) -> Result<TakenLog, PlayFault>
    ensures found { IfOk result (λ log. log.found.items ≡ taken_over carryover config.now (option_copied before.entry)) }
    ensures rows { IfOk result (λ log. log.rows ≡ length (rows_before (option_copied before.entry))) }
    ensures taken { IfOk result (λ log. log.taken ≡ taken_count carryover at config.now (option_copied before.entry)) }
    ensures refused { IfErr result (IsTakeFault config.now) }
{
    match before {
        None => Ok(TakenLog::nothing(alloc, 0)),
        Some(board) => {
            let rows = board.rows(alloc)?;
            if carries_log(carryover) {
                find_all(alloc, board.config(), config, at, rows.as_slice())
            } else {
                Ok(TakenLog::nothing(alloc, rows.len()))
            }
        }
    }
}

fn carries_log(carryover: Carryover) -> bool
    ensures { result ≡ carries_log carryover }
{
    match carryover {
        Carryover::All | Carryover::Log => true,
        Carryover::Nothing => false,
    }
}

/// Finds these rows of a log again under a new configuration, and counts those that are taken over
/// at `at` (milliseconds).
fn find_all(
    alloc: Global,
    old: &Config,
    new: &Config,
    at: u64,
    rows: &[RowView],
) -> Result<TakenLog, PlayFault>
    ensures found { IfOk result (λ log. log.found.items ≡ flat_map (rekeyed (record { old = old.now; new = new.now })) rows.now) }
    ensures rows { IfOk result (λ log. log.rows ≡ length rows.now) }
    ensures taken { IfOk result (λ log. log.taken ≡ count_by (is_taken at (record { old = old.now; new = new.now })) rows.now) }
    ensures refused { IfErr result (IsTakeFault new.now) }
{
    if new.check().is_err() {
        return Err(PlayFault::BadConfig);
    }
    let reload = Rekeying::new(alloc, old, new)?;
    let mut log = TakenLog::nothing(alloc, rows.len());
    for i in 0..rows.len() {
        let row = &rows[i];
        let found = reload.rows(alloc, row)?;
        let taken = is_taken(alloc, at, new, row, found.as_slice())?;
        log.add(found, taken)?;
    }
    Ok(log)
}

/// Returns whether a row is taken over at `at` (milliseconds), if the log finds it again by these.
fn is_taken(
    alloc: Global,
    at: u64,
    new: &Config,
    row: &RowView,
    found: &[RowView],
) -> Result<bool, AllocError>
    ensures { IfOk result (λ taken. taken ≡ (not (nat_lt row.now.expiry at) && list_any (is_led_to new.now) found.now)) }
{
    if row.expiry < at {
        return Ok(false);
    }
    one_is_led_to(alloc, new, found)
}

/// Returns whether an alert of one of these rows goes to the row's group.
fn one_is_led_to(alloc: Global, config: &Config, rows: &[RowView]) -> Result<bool, AllocError>
    ensures { IfOk result (λ one. one ≡ list_any (is_led_to config.now) rows.now) }
{
    for row in rows {
        if is_led_to(alloc, config, row)? {
            return Ok(true);
        }
    }
    Ok(false)
}

impl TakenLog {
    /// Nothing of a log of so many rows.
    fn nothing(alloc: Global, rows: usize) -> TakenLog
        ensures found { result.found.items ≡ [] }
        ensures rows { result.rows ≡ rows }
        ensures taken { result.taken ≡ 0 }
    {
        TakenLog {
            found: Vec::new(alloc),
            rows,
            taken: 0,
        }
    }

    /// Adds the rows by which one row of the log is found again, and counts it if it is taken over.
    fn add(&mut self, mut found: Vec<RowView>, taken: bool) -> Result<(), AllocError>
        requires { self.old.taken < self.old.rows }
        ensures found { OnOk result (self.new.found.items ≡ self.old.found.items ++ found.items) }
        ensures rows { self.new.rows ≡ self.old.rows }
        ensures taken { OnOk result (self.new.taken ≡ self.old.taken + (if taken then 1 else 0)) }
    {
        if taken {
            self.taken += 1;
        }
        self.found.append(&mut found)
    }
}
