//! The history of a board: `Board::history` shows the records that it keeps, and
//! `Board::take_history` hands them out. A program that runs for long calls it now and then, so
//! that the board's memory doesn't grow with its calls.
//!
//! The replies depend on all calls that a board ever accepted. So its laws go on speaking of the
//! whole history, whose beginning is what was handed out.
ghost use Rattle.std.specs.Prelude.{◌≡◌, ◌≤◌, ◌++◌, [], None, length, IfOk, IsOk, OnOk, OnErr};
ghost use Rattle.am_model.specs.declared.config.TheConstants.{MAX_HANDED};
ghost use Rattle.am_model.specs.look_back.Laws.{LooksBack};
ghost use Rattle.am_model.specs.Replay.{IsLegal};
ghost use Rattle.am_board.specs.History.{handed_out, state_at, take_cause, KeepsLimits};
ghost use Rattle.am_board.specs.Step.{IsTakeCaused};

use crate::board::Board;
use crate::config::MAX_HANDED;
use crate::fault::TakeFault;
use crate::record::Record;
use std::alloc::Global;
use std::mem::replace;

impl Board {
    /// Returns the records that are kept: the accepted calls with their replies, in order.
    ///
    /// Clause `history`: they follow those that were handed out. Clause `legal`: the whole history
    /// is legal. Clause `looks_back`: looking back from its end finds the alerts and rows that
    /// `groups` and `rows` return, and the reason of each notification
    /// (`law::legal_histories_look_back`). Clauses `within`, `limits`: no limit is passed. Clause
    /// `few`: at most 10^15 records were handed out.
    pub fn history(&self) -> &[Record]
        ensures history { self.now.handed ++ result.now ≡ self.now.history }
        ensures legal { IsLegal self.now.config self.now.id self.now.history }
        ensures looks_back { LooksBack self.now.config self.now.history }
        ensures within { length result.now ≤ self.now.config.limits.history }
        ensures limits { KeepsLimits self.now }
        ensures few { length self.now.handed ≤ MAX_HANDED }
    {
        self.state.history.as_slice()
    }

    /// Hands out the records that are kept. The board goes on as before, and keeps none of them.
    ///
    /// The records are moved. Memory is allocated for the finishes of the open flushes alone. Clause
    /// `records`: they follow those that were handed out before, up to the last accepted call. So
    /// all that was ever handed out, in order, is a beginning of one legal history
    /// (`law::beginnings_are_legal`). Clause `frugal`: without an open flush it never allocates.
    ///
    /// # Errors
    ///
    /// In this order, and each changes nothing:
    /// - `TooManyCalls`: more than 10^15 records would be handed out. The board then takes calls
    ///   until `HistoryFull`.
    /// - `NoMemory`, which comes only with an open flush.
    ///
    /// `NoMemory` can't hold a board at `HistoryFull`. There each begin is refused, so no
    /// further flush opens. A finish allocates nothing, and its capacity is kept. After the last
    /// finish no flush is open, and the take succeeds.
    ///
    /// Cost: constant. The walk over the records is there for proofs alone, and a built program has
    /// no code of it (`GhostList::add_all`). Dropping the records frees each.
    pub fn take_history(&mut self, alloc: Global) -> Result<Vec<Record>, TakeFault>
        ensures records { IfOk result (λ taken. self.old.handed ++ taken.items ≡ self.old.history) }
        ensures after { OnOk result (self.new ≡ handed_out self.old) }
        ensures cause { IsTakeCaused (take_cause self.old) result }
        ensures frugal { (state_at self.old).flushes ≡ [] → take_cause self.old ≡ None → IsOk result }
        ensures refused { OnErr result (self.new ≡ self.old) }
    {
        let handed = self.handed + self.state.history.len();
        if handed > MAX_HANDED {
            return Err(TakeFault::TooManyCalls);
        }
        let fresh = Vec::with_capacity(alloc, self.state.flushes.len())?;
        let taken = replace(&mut self.state.history, fresh);
        self.past.add_all(taken.as_slice());
        self.handed = handed;
        Ok(taken)
    }
}
