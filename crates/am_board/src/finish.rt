//! Finishes: `finish_flush` never allocates.
//!
//! It walks once over the notified integrations and logs each success that wasn't noted
//! (`log_rest`). Then it marks the group as one without an open flush and, if all succeeded, takes
//! the resolved alerts out of it (`take_out`).
//! Each is looked up, and marked if its stamp is that of the begin. All marked alerts go in one
//! walk. A row takes the label sets that its integration shares with the flush.
ghost use Rattle.std.specs.Prelude.{◌≡◌, ◌&&◌, not, ℕ, ◌+◌, ◌<◌, ◌^◌, List, [], ◌∷◌};
ghost use Rattle.std.specs.Prelude.{length, map, count_by, slice_index_or, IsTrue, All, IsPermutation};
ghost use Rattle.std.specs.List.{list_all, IsDistinct};
ghost use Rattle.std.specs.VecDeque.{deque_len};
ghost use Rattle.am_nflog.specs.Log.{is_known};
ghost use Rattle.am_model.specs.Finish.{has_succeeded as succeeds, is_delivered as says_delivered, is_leaving, log_with};
ghost use Rattle.am_board.specs.Group.{names_of};
ghost use Rattle.am_board.specs.Marks.{is_marked, marks_of};
ghost use Rattle.am_model.specs.Records.{entry};
ghost use Rattle.am_model.specs.Insert.{same_group};
ghost use Rattle.am_board.specs.Refinement.{IsNotified, notified_state_of, member_state, stamped, group_state};
ghost use Rattle.am_board.specs.LogRows.{log_rows};
ghost use Rattle.am_model.specs.Lists.{without, changed_where};
ghost use Rattle.am_board.specs.Finishing.{row_of_sets, logged_of, rows_with, leaves_where, without_leaving, KnowTheSame};
ghost use Rattle.am_model.specs.State.{same_name, is_named, members_in};
ghost use Rattle.am_board.specs.Step.{StateInvariant, AppliesCall};
ghost use Rattle.am_model.specs.declared.config.Config.{Config as ConfigData};
ghost use Rattle.am_model.specs.declared.views.RowView.{RowView};

use crate::flush::{AlertSets, LeavingAlert, Notified, OpenFlush};
use crate::group::{Group, GroupName};
use crate::groups::Groups;
use crate::record::{Call, Finished, Record, Reply};
use crate::state::State;
use am_alerts::labels::Labels;
use am_alerts::sequence::Sequence;
use am_model::outcome::outcome_of;
use am_nflog::{LogKey, NfLog};
use am_retry::Outcome;

/// Finishes the open flush at an index, with these outcomes. Takes no memory.
pub(crate) fn finish_flush(
    state: &mut State,
    pass: u32,
    f: usize,
    outcomes: Vec<(u32, Outcome)>,
    now: u64,
) -> Finished
    requires index { f < deque_len state.old.flushes }
    requires good { (config : ConfigData) × StateInvariant config state.old }
    ensures closed { deque_len state.new.flushes + 1 ≡ deque_len state.old.flushes }
    ensures accepted { (config : ConfigData) → StateInvariant config state.old → (id : ℕ) → (o : OpenFlush)
        → AppliesCall config id
        (entry pass (Call.Finish now (slice_index_or state.old.flushes.items f o).number outcomes.items) (Reply.Finished result))
        state.old state.new }
{
    let t = state.time(now);
    state.clock = t;
    let OpenFlush {
        number,
        group,
        kept_for,
        notified,
        sets: _,
        leaving,
    } = state.flushes.remove(f).unwrap();
    let successes = log_rest(&mut state.log, notified, outcomes.as_slice(), kept_for, t);
    let removed = take_out(&mut state.groups, group, leaving.as_slice(), successes.all);
    let finished = Finished {
        logged: successes.logged,
        removed,
    };
    let call = Call::Finish {
        now,
        number,
        outcomes: Sequence::from(outcomes),
    };
    let reply = Reply::Finished(finished);
    state.history.push_reserved(Record { pass, call, reply });
    finished
}

/// What became of the integrations that a flush notified.
#[derive(Clone, Copy)]
struct Successes {
    /// How many successes were logged.
    logged: usize,
    /// Whether every integration succeeded.
    all: bool,
}

/// Logs each success that wasn't noted. Returns how many, and whether all integrations succeeded.
fn log_rest(
    log: &mut NfLog<GroupName, Labels>,
    notified: Vec<Notified>,
    outcomes: &[(u32, Outcome)],
    kept_for: u64,
    t: u64,
) -> Successes
    requires known { All (λ a. IsTrue (is_known same_name log.old a.key)) notified.items }
    requires fits { t + kept_for < 2 ^ 64 }
    ensures known { KnowTheSame log.new log.old }
    ensures count { result.logged ≡ length (logged_of outcomes.now notified.items) }
    ensures all { result.all ≡ list_all (λ a. succeeds outcomes.now (notified_state_of a)) notified.items }
    ensures rows { (f : OpenFlush) → f.kept_for ≡ kept_for → All (IsNotified log.old f) notified.items
        → IsPermutation (log_rows log.new) (rows_with f t outcomes.now notified.items (log_rows log.old)) }
{
    let mut logged: usize = 0;
    let mut all = true;
    for one in notified {
        if has_succeeded(&one, outcomes) {
            logged += log_one(log, one, kept_for, t);
        } else {
            all = false;
        }
    }
    Successes { logged, all }
}

/// Logs the success of a notified integration, unless it was noted. Returns how many rows that
/// makes.
fn log_one(log: &mut NfLog<GroupName, Labels>, notified: Notified, kept_for: u64, t: u64) -> usize
    requires known { IsTrue (is_known same_name log.old notified.key) }
    requires fits { t + kept_for < 2 ^ 64 }
    ensures known { KnowTheSame log.new log.old }
    ensures count { (outcomes : List (ℕ × Outcome)) → IsTrue (succeeds outcomes (notified_state_of notified))
        → result ≡ length (logged_of outcomes (notified ∷ [])) }
    ensures rows { (outcomes : List (ℕ × Outcome)) → IsTrue (succeeds outcomes (notified_state_of notified))
        → (f : OpenFlush) → f.kept_for ≡ kept_for → IsNotified log.old f notified
        → (rows : List RowView) → IsPermutation (log_rows log.old) rows
        → IsPermutation (log_rows log.new) (rows_with f t outcomes (notified ∷ []) rows) }
{
    let Notified {
        key,
        nothing: _,
        sets,
    } = notified;
    match sets {
        Some(sets) => {
            log_sets(log, &key, sets, kept_for, t);
            1
        }
        None => 0,
    }
}

/// Logs the label sets of a notification under its key.
pub(crate) fn log_sets(
    log: &mut NfLog<GroupName, Labels>,
    key: &LogKey<GroupName>,
    sets: AlertSets,
    kept_for: u64,
    t: u64,
)
    requires known { IsTrue (is_known same_name log.old key.now) }
    requires fits { t + kept_for < 2 ^ 64 }
    ensures known { KnowTheSame log.new log.old }
    ensures rows { (rows : List RowView) → IsPermutation (log_rows log.old) rows
        → IsPermutation (log_rows log.new) (log_with (row_of_sets key.now sets t kept_for) rows) }
{
    log.put(key, sets.into_row(t, kept_for));
}

/// Marks the group of a flush as one without an open flush, and takes the alerts that were resolved
/// at the begin out of it, if all integrations succeeded.
///
/// Returns how many.
fn take_out(
    groups: &mut Groups,
    name: GroupName,
    leaving: &[LeavingAlert],
    all_succeeded: bool,
) -> usize
    ensures names { names_of groups.new.items ≡ names_of groups.old.items }
    ensures marks { IsDistinct same_group (map group_state groups.old.items) → (n : GroupName)
        → is_marked (marks_of groups.new.items) n ≡ (is_marked (marks_of groups.old.items) n && not (same_name n name)) }
    ensures groups { IsDistinct same_group (map group_state groups.old.items)
        → map group_state groups.new.items
        ≡ changed_where (is_named name) (without_leaving all_succeeded leaving.now) (map group_state groups.old.items) }
    ensures count { result ≡ count_by (leaves_where all_succeeded leaving.now) (members_in (map group_state groups.old.items) name) }
{
    let Some(i) = groups.find(&name) else {
        return 0;
    };
    groups.close(i, name);
    if !all_succeeded {
        return 0;
    }
    groups.take_leaving(i, leaving)
}

/// Takes out of a group the alerts that are as they were when they were found resolved.
///
/// Returns how many.
pub(crate) fn take_leaving(group: &mut Group, leaving: &[LeavingAlert]) -> usize
    ensures group { group_state group.new ≡ record (group_state group.old) {
      members = without (is_leaving (map stamped leaving.now)) (map member_state group.old.members.items);
    } }
    ensures opened { group.new.is_open ≡ group.old.is_open }
    ensures count { result ≡ count_by (is_leaving (map stamped leaving.now)) (map member_state group.old.members.items) }
{
    group.members.take_leaving(leaving)
}

/// Returns whether a notified integration succeeded.
fn has_succeeded(notified: &Notified, outcomes: &[(u32, Outcome)]) -> bool
    ensures { result ≡ succeeds outcomes.now (notified_state_of notified.now) }
{
    notified.sets.is_none()
        || notified.nothing
        || is_delivered(outcome_of(outcomes, notified.key.integration))
}

/// Returns whether an outcome is Delivered.
pub(crate) fn is_delivered(outcome: Option<Outcome>) -> bool
    ensures { result ≡ says_delivered outcome }
{
    match outcome {
        Some(Outcome::Delivered) => true,
        _ => false,
    }
}
