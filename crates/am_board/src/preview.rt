//! When a begin takes a group, what it would do, and why; and a begin with its preview.
//!
//! A preview changes nothing. Where a begin would sort the group, a preview sorts it for itself
//! alone. It uses what an earlier begin noted of the silences.
ghost use Rattle.std.specs.Prelude.{◌≡◌, ◌≢◌, ◌≤◌, All, IfErr, IfOk, IsOk, None, OnErr, map};
ghost use Rattle.am_mute.specs.Sources.{AreLearnt};
ghost use Rattle.am_board.specs.History.{records_at, reply_of, state_at, with_record, IsFresh, IsReplyAt};
ghost use Rattle.am_model.specs.Begin.{next_due};
ghost use Rattle.am_model.specs.Causes.{begin_cause};
ghost use Rattle.am_model.specs.Records.{entry};
ghost use Rattle.am_model.specs.State.{time};
ghost use Rattle.am_model.specs.look_back.Preview.{preview, preview_at};
ghost use Rattle.am_board.specs.Refinement.{flush_state, state_of};
ghost use Rattle.am_board.specs.LogRows.{log_rows};
ghost use Rattle.am_board.specs.Marks.{AreMarked};
ghost use Rattle.am_board.specs.Step.{IsCaused, StateInvariant};

use crate::begin::{BeginCall, Begun, take};
use crate::board::Board;
use crate::config::Config;
use crate::fault::Fault;
use crate::found::Found;
use crate::look::Look;
use crate::notice::MAX_DEADLINE;
use crate::record::Call;
use crate::state::State;
use am_alerts::limits::MAX_TIME;
pub use am_model::preview::{MutedAlert, Preview};
use am_mute::sources::Sources;
use std::alloc::{AllocError, Global};

impl Board {
    /// Returns what a begin at `now` (milliseconds) would do, and why.
    ///
    /// That is the group that it would take, and the muted alerts with their causes. For each
    /// integration it is the reason why it is notified or not. None where no group without an open
    /// flush is due.
    ///
    /// The reasons are those that the history gives (`law::previews_look_back`). A begin at once
    /// notifies exactly the integrations whose reason says so (`law::reasons_are_exact`).
    ///
    /// Clause `answers`: where no group is due it takes no memory. Else it makes lists, which do.
    pub fn preview(&self, alloc: Global, now: u64) -> Result<Option<Preview>, AllocError>
        ensures preview { IfOk result (λ found. found ≡ preview self.now.config self.now.history now) }
        ensures answers { preview self.now.config self.now.history now ≡ None → IsOk result }
    {
        preview_of(alloc, &self.config, &self.state, &self.sources, now)
    }

    /// Begins as `begin` does, and returns with its reply what `preview` would return before it.
    ///
    /// Cheaper than both: the begin goes on with what the preview found.
    ///
    /// # Errors
    ///
    /// Those of `begin`, in its order. `NoMemory` can come from the preview too.
    pub fn begin_previewed(
        &mut self,
        alloc: Global,
        pass: u32,
        now: u64,
    ) -> Result<(Begun, Option<Preview>), Fault>
        ensures previewed { IfOk result (λ both. both.1 ≡ preview self.old.config self.old.history now) }
        ensures recorded { IfOk result (λ both. self.new ≡ with_record self.old (entry pass (Call.Begin now) (reply_of both.0))) }
        ensures reply { IfOk result (λ both. IsReplyAt self.old (Call.Begin now) (reply_of both.0)) }
        ensures fresh { IfOk result (λ both. IsFresh self.old.id both.0) }
        ensures cause { let s = state_at self.old in IsCaused (begin_cause self.old.config (records_at self.old) s (time s now)) result }
        ensures refused { OnErr result (self.new ≡ self.old) }
        ensures unhindered { self.old.config.limits.groups ≤ self.old.config.limits.flushes
            → IfErr result (λ fault. fault ≢ Fault.TooManyOpen) }
    {
        let call = BeginCall {
            id: self.id,
            pass,
            now,
        };
        take(
            alloc,
            &self.config,
            &mut self.state,
            &self.sources,
            call,
            true,
        )
    }

    /// Returns when the next group without an open flush is due, in milliseconds, if there is one.
    ///
    /// From this time on, and not before, a begin takes a group, if nothing changes until then.
    /// Never allocates.
    pub fn next_due(&self) -> Option<u64>
        ensures { result ≡ next_due (state_at self.now) }
    {
        next_due_of(&self.state)
    }
}

/// When the next group is due of those that have no open flush.
fn next_due_of(state: &State) -> Option<u64>
    requires { AreMarked (map flush_state state.now.flushes.items) state.now.groups.items }
    ensures { result ≡ next_due (state_of state.now) }
{
    match state.groups.first_due(MAX_DEADLINE) {
        None => None,
        Some(index) => Some(state.groups.at(index).due),
    }
}

/// What a begin at `now` is to do; none where no group without an open flush is due.
fn preview_of(
    alloc: Global,
    config: &Config,
    state: &State,
    sources: &Sources,
    now: u64,
) -> Result<Option<Preview>, AllocError>
    requires good { StateInvariant config.now state.now }
    requires sources { AreLearnt config.now.rules state.now.known.items sources.now }
    requires times { All (λ row. row.time ≤ MAX_TIME) (log_rows state.now.log) }
    ensures preview { IfOk result (λ preview. preview ≡ preview_at config.now (state_of state.now) (time (state_of state.now) now)) }
    ensures answers { preview_at config.now (state_of state.now) (time (state_of state.now) now) ≡ None → IsOk result }
{
    let t = state.time(now);
    let Some(index) = state.groups.first_due(t) else {
        return Ok(None);
    };
    let look = Look {
        alloc,
        config,
        state,
        sources,
        t,
        why: true,
    };
    let found = Found::of(&look, state.groups.at(index))?;
    Ok(found.preview)
}
