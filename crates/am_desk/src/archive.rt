//! `Archive`: the right to take a desk's history, and `Desk::take_history`. A program that runs for
//! long takes it now and then. Then the desk's memory doesn't grow with its calls.
//!
//! Seen lists and counts of calls go on speaking of the whole history, whose beginning is what was
//! handed out.
ghost use Rattle.std.specs.Prelude.{◌≡◌, ◌≤◌, ◌++◌, length, IfOk, IfErr, OnOk, OnErr};
ghost use Rattle.am_model.specs.Replay.{IsLegal};
ghost use Rattle.am_desk.specs.Calls.{IsTakeRefused};
ghost use Rattle.am_desk.specs.Glances.{HasCapacity};
ghost use Rattle.am_desk.specs.Known.{Observes};

use crate::desk::Desk;
use crate::kind::{Lasting, Origin};
use crate::name::Name;
use crate::pass::Pass;
use crate::word::Token;
use am_board::fault::TakeFault;
use am_board::record::Record;
use std::alloc::Global;
use std::marker::{Model, PhantomData};
use std::sync::Wait;

/// The right to take the history of one desk. It can't be copied, and a desk has one.
///
/// Contracts see the records that were handed out, in order.
#[derive(Drop)]
pub struct Archive<N: Name> {
    pub(crate) taken: u64,
    pub(crate) seat: Token,
    pub(crate) of: PhantomData<N>,
}

impl<N: Name> Model for Archive<N> {
    ghost use Rattle.std.specs.Prelude.{◌≡◌, List, []};
    ghost use Rattle.am_model.specs.declared.record.Record.{Record as Line};
    ghost use Rattle.am_desk.specs.Known.{IsArchive, handed_by};

    ghost Value = { List Line };

    ghost view = { λ a. handed_by a.seat.me.0 };

    ghost invariant = { λ a. (a.seat.table_id ≡ N.plan.table) × (a.seat.me.1 ≡ []) × IsArchive N.terms a.taken a.seat.me.0 };
}

impl<N: Name> Archive<N> {
    /// Returns how many records were handed out.
    ///
    /// A program takes the history when `glance` has many more calls.
    pub fn taken(&self) -> u64
        ensures { result ≡ length self.now }
    {
        self.taken
    }
}

impl<N: Name, L: Origin> Desk<N, Lasting, L> {
    /// Hands out the records that the desk keeps. It goes on as before, and keeps none of them.
    ///
    /// Clause `records`: they follow those that were handed out before. Clause `all`: with them, all
    /// that the pass has then seen is handed out. So what was ever handed out, in order, is a beginning
    /// of one legal history, whatever other threads call.
    ///
    /// # Errors
    ///
    /// In this order, and the archive has what it had:
    /// - `TooManyCalls`: the word would have no capacity for as many calls as the limit of the history,
    ///   or more than 10^15 records would be handed out. The desk then takes calls until `HistoryFull`.
    ///   The word counts fewer than 2^64 calls, divided by one more than the limit of groups, and by
    ///   one more than that of open flushes (`limits_are`). So the last take comes after 69 million
    ///   million calls at the limits of `Limits::default`, but after 9,786,680 at those of
    ///   `Limits::greatest`: give a desk that is to last a lower limit of open flushes.
    /// - `NoMemory`, which comes only with an open flush.
    ///
    /// Cost: as `Board::take_history`, and 16 loads of the word. Other calls wait meanwhile.
    pub fn take_history<R: Wait>(
        &self,
        rt: &R,
        alloc: Global,
        pass: &mut Pass<N, L>,
        archive: &mut Archive<N>,
    ) -> Result<Vec<Record>, TakeFault>
        ensures records { IfOk result (λ taken. archive.old ++ taken.items ≡ archive.new) }
        ensures all { OnOk result ((archive.new ≡ pass.new.log) × (pass.new.taken ≡ length pass.new.log)) }
        ensures looks { Observes N.terms pass.old pass.new }
        ensures capacity { OnOk result (HasCapacity N.terms.config.limits (length pass.new.log)) }
        ensures refused { IfErr result (λ fault. IsTakeRefused N.terms fault pass.new.log) }
        ensures stays { OnErr result (archive.new ≡ archive.old) }
    {
        self.kept
            .lock(rt)
            .take_history(&self.table.shared, alloc, pass, archive)
    }
}
