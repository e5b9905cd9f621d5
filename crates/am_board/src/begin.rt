//! Begins: `take` picks the group and opens a flush or ends it at once. A begin with its preview is the
//! same, where it is wanted why.
//!
//! Steps, if the history has capacity: `choose` picks the group, and `prepare` sorts it and notes what
//! no silence mutes. `plan` finds what is unmuted and whom to notify (`found`), and `begin_planned`
//! ends the begin. A begin that opens a flush allocates in this order:
//! - the references to the unmuted alerts, the integrations to notify, what is shown;
//! - the copies of these alerts, and all else that goes into the board and the ticket;
//! - the capacity of the history, the open flush, the log keys.
//!
//! `TooManyOpen` comes once it is known that an integration needs an update. Log keys of a failed
//! begin can stay known: a known key without a row shows nowhere.
ghost use Rattle.std.specs.Prelude.{◌≡◌, ◌≢◌, ◌+◌, ◌<◌, ◌≤◌, [], None, length, map};
ghost use Rattle.std.specs.Prelude.{All, IfSome, IsTrue, Ok, OnOk, vec_len, vec_capacity};
ghost use Rattle.std.specs.List.{IsDistinct};
ghost use Rattle.std.specs.VecDeque.{deque_len};
ghost use Rattle.am_alerts.specs.RoutingTree.{last_of, route_at};
ghost use Rattle.am_nflog.specs.Log.{is_known};
ghost use Rattle.am_nflog.specs.declared.key.LogKey.{LogKey};
ghost use Rattle.am_mute.specs.Sources.{AreLearnt};
ghost use Rattle.am_model.specs.Begin.{notified_of, taken};
ghost use Rattle.am_model.specs.Insert.{same_member};
ghost use Rattle.am_board.specs.Refinement.{state_of, group_state};
ghost use Rattle.am_board.specs.LogRows.{log_rows};
ghost use Rattle.am_board.specs.Beginning.{IsPlan, IsPlannedFlush, IsChoice, IsChosen, IsEnd, IsTaking};
ghost use Rattle.am_board.specs.Beginning.{Begins, BeginsShown, with_preview};
ghost use Rattle.am_model.specs.State.{time, same_name};
ghost use Rattle.am_board.specs.Step.{StateInvariant};
ghost use Rattle.am_model.specs.declared.config.TheConstants.{MAX_INTEGRATIONS};
ghost use Rattle.am_model.specs.declared.config.Config.{Config as ConfigData};
ghost use Rattle.am_board.specs.declared.group.Group.{Group};
ghost use Rattle.am_model.specs.declared.group.GroupName.{GroupName};

use crate::config::Config;
use crate::fault::Fault;
use crate::flush::OpenFlush;
use crate::group::GroupName;
use crate::look::Look;
use crate::plan::{PlannedFlush, plan};
use crate::record::{Call, Record, Reply};
use crate::state::State;
use crate::ticket::Ticket;
use am_alerts::labels::Labels;
use am_alerts::limits::MAX_TIME;
pub use am_model::notice::MIN_FLUSH_TIMEOUT;
use am_model::preview::Preview;
use am_mute::sources::Sources;
use am_nflog::{LogKey, NfLog};
use std::alloc::{AllocError, Global};

/// The reply to a begin. A ticket in it must be finished.
pub enum Begun {
    /// No group without an open flush is due.
    NothingDue,
    /// No integration needs an update; `removed` resolved alerts left the group.
    Quiet { group: GroupName, removed: usize },
    /// A flush was opened.
    Flush(Ticket),
}

/// How many label sets are noted for each known alert at most, before all are noted anew.
///
/// An alert is noted once for each of its groups, and again where its group notes anew.
const NOTED_PER_ALERT: usize = 4;

/// A begin as it is called: the board's id, the pass, and its own time in milliseconds.
#[derive(Clone, Copy)]
pub(crate) struct BeginCall {
    pub(crate) id: u64,
    pub(crate) pass: u32,
    pub(crate) now: u64,
}

/// The group that a begin takes.
#[derive(Clone, Copy)]
pub(crate) struct ChosenGroup {
    pub(crate) call: BeginCall,
    /// The time of the call.
    pub(crate) t: u64,
    /// The index of the group.
    pub(crate) index: usize,
    /// When it is due again.
    pub(crate) due: u64,
}

/// Takes the group that is due first and has no open flush, and opens a flush of it unless no
/// integration needs an update.
pub(crate) fn take_group(
    alloc: Global,
    config: &Config,
    state: &mut State,
    sources: &Sources,
    call: BeginCall,
) -> Result<Begun, Fault>
    requires good { StateInvariant config.now state.old }
    requires sources { AreLearnt config.now.rules state.old.known.items sources.now }
    requires times { All (λ row. row.time ≤ MAX_TIME) (log_rows state.old.log) }
    ensures { Begins config.now call state.old state.new result }
{
    match take(alloc, config, state, sources, call, false) {
        Ok((begun, _)) => Ok(begun),
        Err(fault) => Err(fault),
    }
}

/// Takes a group as `take_group` does, and returns with the reply what a preview shows, if it is
/// wanted why.
pub(crate) fn take(
    alloc: Global,
    config: &Config,
    state: &mut State,
    sources: &Sources,
    call: BeginCall,
    why: bool,
) -> Result<(Begun, Option<Preview>), Fault>
    requires good { StateInvariant config.now state.old }
    requires sources { AreLearnt config.now.rules state.old.known.items sources.now }
    requires times { All (λ row. row.time ≤ MAX_TIME) (log_rows state.old.log) }
    ensures { BeginsShown config.now call why state.old state.new result }
{
    if !state.has_space(2, config.limits.history) {
        return Err(Fault::HistoryFull);
    }
    let Some(chosen) = choose(config, state, call) else {
        let t = state.time(call.now);
        return with_preview(begin_nothing(state, call, t), None);
    };
    prepare(alloc, state, chosen.index, chosen.t);
    take_prepared(alloc, config, state, sources, chosen, why)
}

/// Opens a flush of a group that is prepared, unless no integration needs an update.
fn take_prepared(
    alloc: Global,
    config: &Config,
    state: &mut State,
    sources: &Sources,
    chosen: ChosenGroup,
    why: bool,
) -> Result<(Begun, Option<Preview>), Fault>
    requires good { StateInvariant config.now state.old }
    requires sources { AreLearnt config.now.rules state.old.known.items sources.now }
    requires times { All (λ row. row.time ≤ MAX_TIME) (log_rows state.old.log) }
    requires space { vec_len state.old.history + deque_len state.old.flushes + 2 ≤ config.now.limits.history }
    requires taking { IsTaking config.now state.old chosen }
    ensures { BeginsShown config.now chosen.call why state.old state.new result }
{
    let look = Look {
        alloc,
        config,
        state,
        sources,
        t: chosen.t,
        why,
    };
    let group = look.state.groups.at(chosen.index);
    let (planned, preview) = plan(&look, chosen.call.id, group)?;
    with_preview(begin_planned(alloc, state, chosen, planned), preview)
}

/// Returns with the reply to a begin what is shown of it.
fn with_preview(
    begun: Result<Begun, Fault>,
    preview: Option<Preview>,
) -> Result<(Begun, Option<Preview>), Fault>
    ensures { result ≡ with_preview begun preview }
{
    match begun {
        Ok(begun) => Ok((begun, preview)),
        Err(fault) => Err(fault),
    }
}

/// Returns the group that a begin takes: the one that is due first and has no open flush.
fn choose(config: &Config, state: &State, call: BeginCall) -> Option<ChosenGroup>
    requires { StateInvariant config.now state.now }
    ensures { IsChoice config.now state.now call result }
{
    let t = state.time(call.now);
    let Some(index) = state.groups.first_due(t) else {
        return None;
    };
    let due = due_again(config, state.groups.at(index).name.route, t);
    Some(ChosenGroup {
        call,
        t,
        index,
        due,
    })
}

/// Opens the planned flush of a begin, or ends the begin where none is planned.
fn begin_planned(
    alloc: Global,
    state: &mut State,
    chosen: ChosenGroup,
    planned: Option<PlannedFlush>,
) -> Result<Begun, Fault>
    requires index { chosen.index < length state.old.groups.items }
    requires none { IfSome planned (λ p. vec_len p.outcomes ≡ 0) }
    requires space { IfSome planned (λ p. vec_len p.notices ≤ vec_capacity p.outcomes) }
    requires few { IfSome planned (λ p. vec_len p.notices ≤ MAX_INTEGRATIONS) }
    ensures { (config : ConfigData) (g : Group) → StateInvariant config state.old → IsChosen config state.old chosen g
        → IsPlan config chosen.call.id (deque_len state.old.flushes) (state_of state.old) chosen.t (group_state g) (Ok planned)
        → IsEnd config chosen.call state.old state.new result }
{
    match planned {
        None => begin_quiet(alloc, state, chosen),
        Some(planned) => begin_flush(alloc, state, chosen, planned),
    }
}

/// Computes the order by labels of the alerts of the group at an index, and notes those that no
/// silence mutes at `t`.
fn prepare(alloc: Global, state: &mut State, index: usize, t: u64)
    requires index { index < length state.old.groups.items }
    requires apart { All (λ g. IsDistinct same_member g.members) (map group_state state.old.groups.items) }
    ensures { state.new ≡ state.old }
{
    let limit = state.known.len().saturating_mul(NOTED_PER_ALERT);
    state
        .groups
        .prepare(index, alloc, &mut state.silences, t, limit);
}

/// When a group of this route that is taken at `t` is due again.
fn due_again(config: &Config, route: u32, t: u64) -> u64
    requires route { route ≤ last_of config.now.routes }
    requires time { t ≤ MAX_TIME }
    ensures { result ≡ t + (route_at config.now.routes route).group_interval }
{
    t.saturating_add(config.routes.route(route).group_interval)
}

/// Ends a begin for which no group is due.
fn begin_nothing(state: &mut State, call: BeginCall, t: u64) -> Result<Begun, Fault>
    ensures { (config : ConfigData) → StateInvariant config state.old
        → t ≡ time (state_of state.old) call.now → taken (state_of state.old) t ≡ None
        → IsEnd config call state.old state.new result }
{
    state.history.reserve(state.flushes.len() + 1)?;
    state.clock = t;
    state.history.push_reserved(Record {
        pass: call.pass,
        call: Call::Begin { now: call.now },
        reply: Reply::NothingDue,
    });
    Ok(Begun::NothingDue)
}

/// Ends a begin that notifies no integration.
fn begin_quiet(alloc: Global, state: &mut State, chosen: ChosenGroup) -> Result<Begun, Fault>
    requires { chosen.index < length state.old.groups.items }
    ensures { (config : ConfigData) (g : Group) → StateInvariant config state.old → IsChosen config state.old chosen g
        → notified_of config (state_of state.old) chosen.t (group_state g) ≡ []
        → IsEnd config chosen.call state.old state.new result }
{
    let name = state.groups.at(chosen.index).name.copy(alloc)?;
    let recorded = name.copy(alloc)?;
    state.history.reserve(state.flushes.len() + 1)?;

    state.clock = chosen.t;
    let removed = state.groups.begin_quiet(chosen.index, chosen.due, chosen.t);
    state.history.push_reserved(Record {
        pass: chosen.call.pass,
        call: Call::Begin {
            now: chosen.call.now,
        },
        reply: Reply::Quiet {
            group: recorded,
            removed,
        },
    });
    Ok(Begun::Quiet {
        group: name,
        removed,
    })
}

/// Opens the planned flush of a begin.
fn begin_flush(
    alloc: Global,
    state: &mut State,
    chosen: ChosenGroup,
    planned: PlannedFlush,
) -> Result<Begun, Fault>
    requires index { chosen.index < length state.old.groups.items }
    requires none { vec_len planned.outcomes ≡ 0 }
    requires space { vec_len planned.notices ≤ vec_capacity planned.outcomes }
    requires few { vec_len planned.notices ≤ MAX_INTEGRATIONS }
    ensures { (config : ConfigData) (g : Group) → StateInvariant config state.old → IsChosen config state.old chosen g
        → notified_of config (state_of state.old) chosen.t (group_state g) ≢ []
        → IsPlannedFlush config chosen.call.id (state_of state.old) chosen.t (group_state g) planned
        → IsEnd config chosen.call state.old state.new result }
{
    state.history.reserve(state.flushes.len() + 2)?;
    state.flushes.reserve(1)?;
    reserve_rows(alloc, &mut state.log, &planned.flush)?;

    state.clock = chosen.t;
    state.groups.begin(chosen.index, chosen.due);
    state.next_number = state.next_number.saturating_add(1);
    state.flushes.push_back_reserved(planned.flush);
    state.history.push_reserved(Record {
        pass: chosen.call.pass,
        call: Call::Begin {
            now: chosen.call.now,
        },
        reply: Reply::Flush {
            group: planned.recorded_group,
            opened: planned.recorded,
        },
    });
    Ok(Begun::Flush(Ticket {
        board_id: chosen.call.id,
        number: planned.number,
        group: planned.group,
        deadline: planned.deadline,
        notices: planned.notices,
        outcomes: planned.outcomes,
    }))
}

/// Makes the log keys of a flush known.
fn reserve_rows(
    alloc: Global,
    log: &mut NfLog<GroupName, Labels>,
    flush: &OpenFlush,
) -> Result<(), AllocError>
    ensures rows { log_rows log.new ≡ log_rows log.old }
    ensures known { (key : LogKey GroupName) → IsTrue (is_known same_name log.old key) → IsTrue (is_known same_name log.new key) }
    ensures notified { OnOk result
        (All (λ a. a.key.group ≡ flush.now.group → IsTrue (is_known same_name log.new a.key)) flush.now.notified.items) }
{
    for notified in flush.notified.as_slice() {
        log.reserve(LogKey {
            group: flush.group.copy(alloc)?,
            integration: notified.key.integration,
        })?;
    }
    Ok(())
}
