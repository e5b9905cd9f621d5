//! What a new dispatcher of a rehearsal is given before its own plans: `loads` of log rows, and
//! what of the plans before it still counts (`set_again`).
//!
//! The plans that were done are gone through from the end. So the first action of a label set or of
//! a silence's id is the one that counts, and each is looked up once.
ghost use Rattle.std.specs.Prelude.{◌≡◌, ◌++◌, ◌∷◌, ◌&&◌, ◌||◌, [], IfOk, OnOk, if◌then◌else◌, not, reverse};
ghost use Rattle.am_simulation.specs.DispatcherChange.{carries_silences, loads, planned_at, replaces, set_again, still_counts};
ghost use Rattle.am_simulation.specs.DispatcherChange.{window_of};
ghost use Rattle.am_simulation.specs.Seen.{is_seen, SeesNothing};
ghost use Rattle.am_terms.specs.declared.rehearsal.Action.{Action};

use am_alerts::labels::Labels;
use am_alerts::matcher::Matcher;
use am_model::views::RowView;
use am_mute::silence::Silence;
use am_seed::Seed;
use am_terms::dispatcher_change::Carryover;
use am_terms::rehearsal::{Action, TimedAction};
use std::alloc::{AllocError, Global};
use std::collections::HashSet;

/// Returns loads of these log rows at `at` (milliseconds), in their order.
///
/// # Errors
///
/// `AllocError`: out of memory.
pub(crate) fn loads(
    alloc: Global,
    at: u64,
    rows: Vec<RowView>,
) -> Result<Vec<TimedAction>, AllocError>
    ensures { IfOk result (λ plans. plans.items ≡ loads at rows.items) }
{
    let mut plans = Vec::with_capacity(alloc, rows.len())?;
    for row in rows {
        plans.push(TimedAction {
            at,
            act: Action::Load(row),
        })?;
    }
    Ok(plans)
}

/// Returns what of these plans is set again at `at` (milliseconds), in their order.
///
/// This is the last insert of each label set, if the alert fires or ended just before, and the last
/// silence of each id, if it isn't over and silences are kept.
///
/// # Errors
///
/// `AllocError`: out of memory.
///
/// Cost: one look-up for each plan, whose hashes start from `seed`, and a copy of each action that is set again.
pub(crate) fn set_again(
    alloc: Global,
    seed: Seed,
    carryover: Carryover,
    at: u64,
    done: &[TimedAction],
) -> Result<Vec<TimedAction>, AllocError>
    ensures { IfOk result (λ plans. plans.items ≡ set_again carryover at done.now) }
{
    let mut plans = last_first(alloc, seed, carryover, at, done)?;
    plans.reverse();
    Ok(plans)
}

/// What is set again, the last first.
fn last_first(
    alloc: Global,
    seed: Seed,
    carryover: Carryover,
    at: u64,
    done: &[TimedAction],
) -> Result<Vec<TimedAction>, AllocError>
    ensures { IfOk result (λ plans. plans.items ≡ reverse (set_again carryover at done.now)) }
{
    let mut later = Seen::new(alloc, seed);
    let mut again = Vec::new(alloc);
    for index in (0..done.len()).rev() {
        let act = &done[index].act;
        add_if_kept(alloc, carryover, at, act, &mut later, &mut again)?;
    }
    Ok(again)
}

/// Adds an action if it still counts, and none was seen that replaces it. From then on it is seen.
fn add_if_kept(
    alloc: Global,
    carryover: Carryover,
    at: u64,
    act: &Action,
    later: &mut Seen,
    again: &mut Vec<TimedAction>,
) -> Result<(), AllocError>
    ensures seen { OnOk result ((other : Action) → is_seen later.new other ≡ (replaces act.now other || is_seen later.old other)) }
    ensures added { OnOk result (again.new.items
        ≡ (if not (is_seen later.old act.now) && still_counts carryover at act.now then again.old.items ++ planned_at at act.now ∷ []
        else again.old.items)) }
{
    let is_last = later.see(alloc, act)?;
    if is_last && still_counts(carryover, at, act) {
        again.push(TimedAction {
            at,
            act: copy_action(alloc, act)?,
        })?;
    }
    Ok(())
}

/// Returns whether an action still counts at a time.
fn still_counts(carryover: Carryover, at: u64, act: &Action) -> bool
    ensures { result ≡ still_counts carryover at act.now }
{
    match act {
        Action::Insert(alert) => match alert.ends() {
            None => true,
            Some(end) => at < end + window_of(carryover),
        },
        Action::Silence(silence) => carries_silences(carryover) && !silence.is_over(at),
        Action::Load(_) => false,
    }
}

/// How long after its end a resolved alert still comes to a new dispatcher, in milliseconds.
fn window_of(carryover: Carryover) -> u64
    ensures { result ≡ window_of carryover }
{
    match carryover {
        // What Alertmanager has itself, it collects each 30 minutes (`mem.Alerts`).
        Carryover::All => 1_800_000,
        // Prometheus sends a resolved alert again for 15 minutes (`rules.resolvedRetention`).
        Carryover::Log | Carryover::Nothing => 900_000,
    }
}

/// Returns whether silences come to a new dispatcher. They come wherever the log does today
/// (`carries_log`), but are another file of Alertmanager's.
fn carries_silences(carryover: Carryover) -> bool
    ensures { result ≡ carries_silences carryover }
{
    match carryover {
        Carryover::All | Carryover::Log => true,
        Carryover::Nothing => false,
    }
}

/// A copy of an action.
fn copy_action(alloc: Global, act: &Action) -> Result<Action, AllocError>
    ensures { IfOk result (λ copy. copy ≡ act.now) }
{
    match act {
        Action::Insert(alert) => Ok(Action::Insert(alert.copy(alloc)?)),
        Action::Silence(silence) => Ok(Action::Silence(copy_silence(alloc, silence)?)),
        Action::Load(row) => Ok(Action::Load(row.copy(alloc)?)),
    }
}

/// A copy of a silence.
fn copy_silence(alloc: Global, silence: &Silence) -> Result<Silence, AllocError>
    ensures { IfOk result (λ copy. copy ≡ silence.now) }
{
    let matchers = copy_matchers(alloc, silence.matchers())?;
    let id = silence.id();
    match Silence::new(id, matchers, silence.start(), silence.end()) {
        Ok(copy) => Ok(copy),
        Err(_) => unreachable!(),
    }
}

/// Copies of matchers. A pattern is built again: it was built before, so only memory can be missing.
fn copy_matchers(alloc: Global, matchers: &[Matcher]) -> Result<Vec<Matcher>, AllocError>
    ensures { IfOk result (λ copies. copies.items ≡ matchers.now) }
{
    let mut copies = Vec::with_capacity(alloc, matchers.len())?;
    for matcher in matchers {
        match Matcher::new(alloc, matcher.parts().copy(alloc)?) {
            Ok(copy) => copies.push(copy)?,
            Err(_) => return Err(AllocError),
        }
    }
    Ok(copies)
}

/// The label sets and the silence ids of actions.
#[derive(Drop)]
struct Seen {
    sets: HashSet<Labels, Seed>,
    ids: HashSet<u64, Seed>,
}

impl Seen {
    /// Of no actions.
    fn new(alloc: Global, seed: Seed) -> Seen
        ensures { SeesNothing result }
    {
        Seen {
            sets: HashSet::with_hasher(alloc, seed),
            ids: HashSet::with_hasher(alloc, seed),
        }
    }

    /// Adds an action's label set or id, and returns whether it is new.
    fn see(&mut self, alloc: Global, act: &Action) -> Result<bool, AllocError>
        ensures is_new { IfOk result (λ is_new. is_new ≡ not (is_seen self.old act.now)) }
        ensures seen { OnOk result ((other : Action) → is_seen self.new other ≡ (replaces act.now other || is_seen self.old other)) }
    {
        match act {
            Action::Insert(alert) => Ok(self.sets.insert(alert.labels().copy(alloc)?)?),
            Action::Silence(silence) => Ok(self.ids.insert(silence.id())?),
            Action::Load(_) => Ok(true),
        }
    }
}
