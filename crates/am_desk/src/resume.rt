//! A desk that takes over the rows of a log, as after a restart: `Desk::open_resumed`, and `Desk::load`.
//!
//! A row says what a group's last notice showed, and when it was delivered. So a desk that has the rows
//! of the one before sends no notice again that this one sent.
ghost use Rattle.std.specs.Prelude.{true, ◌≡◌, ◌≤◌, None, [], ℕ, All, length, IfOk, IfErr, OnOk};
ghost use Rattle.am_model.specs.Config.{config_fault};
ghost use Rattle.am_model.specs.Records.{entry};
ghost use Rattle.am_model.specs.Replay.{IsLegal};
ghost use Rattle.am_model.specs.Views.{glance};
ghost use Rattle.am_model.specs.declared.record.Call.TheVariants as call;
ghost use Rattle.am_model.specs.declared.record.Reply.TheVariants as reply;
ghost use Rattle.am_desk.specs.Blanks.{IsCount};
ghost use Rattle.am_desk.specs.Calls.{Called, IsLoadRefused, why_load};
ghost use Rattle.am_desk.specs.Desks.{AreFresh, Complete, IsPrefixViewOf, IsCauseOfUnclosed, IsCauseOfUnopened};
ghost use Rattle.am_desk.specs.History.{made};
ghost use Rattle.am_desk.specs.Terms.{resumed};

use crate::archive::Archive;
use crate::blank::Blank;
use crate::desk::{CloseFault, Desk, end, open};
use crate::fault::OpenFault;
use crate::kind::{Lasting, Resumed};
use crate::name::Name;
use crate::pass::Pass;
use am_board::board::Board;
use am_board::config::Config;
use am_board::fault::LoadFault;
use am_board::record::Loaded;
use am_board::views::RowView;
use std::alloc::Global;
use std::sync::Wait;

impl<N: Name> Desk<N, Lasting, Resumed> {
    /// Returns the desk of a blank with its passes and its archive, as `open_lasting` does. It has no
    /// rows yet: load them before the first begin.
    ///
    /// # Errors
    ///
    /// Those of `open`.
    pub fn open_resumed(
        alloc: Global,
        config: Config,
        blank: Blank,
    ) -> Result<(Desk<N, Lasting, Resumed>, Vec<Pass<N, Resumed>>, Archive<N>), OpenFault>
        requires { (blank ≡ N.plan) × (resumed config blank.id ≡ N.terms) }
        ensures passes { IfOk result (λ r. AreFresh 0 r.1.items × (length r.1.items ≡ N.plan.passes)) }
        ensures archive { IfOk result (λ r. r.2 ≡ []) }
        ensures count { OnOk result (IsCount N.plan.passes) }
        ensures allowed { OnOk result (config_fault N.terms.config ≡ None) }
        ensures refused { IfErr result (IsCauseOfUnopened N.terms.config) }
    {
        open::<N, Lasting, Resumed>(alloc, config, blank)
    }

    /// Calls `Board::load` under the lock: it takes over a row that another log had.
    ///
    /// From then on the row counts as one of this desk's own. `rows` returned the rows of the desk
    /// before; where its configuration was another, `carry::carried` returns those to load.
    ///
    /// Clause `done`: the record is the last of the pass's seen list.
    ///
    /// # Errors
    ///
    /// Those of `Board::load`, in the same order: `NoIntegration`, `Unordered`, `Ahead`, `HistoryFull`,
    /// `NoMemory`. What the pass then knows is as for `insert`.
    pub fn load<R: Wait>(
        &self,
        rt: &R,
        alloc: Global,
        pass: &mut Pass<N, Resumed>,
        row: RowView,
        now: u64,
    ) -> Result<Loaded, LoadFault>
        ensures done { IfOk result (λ loaded. Called N.terms pass.old (λ h. why_load true N.terms pass.new now row h ≡ None)
            (entry pass.old.number (call.Load now row) (reply.Loaded loaded)) pass.new) }
        ensures refused { IfErr result (λ fault. IsLoadRefused N.terms pass.old (why_load true N.terms pass.new now row) fault pass.new) }
    {
        let mut held = self.hold(rt, now);
        let loaded = held.keeper.load(&self.table.shared, alloc, pass, row, now);
        self.let_go(held);
        loaded
    }

    /// Returns the board of the desk, as `close_with` does, and with the same errors.
    ///
    /// Its history has loads among the desk's eight calls. Each row represents a notice that was
    /// reported delivered or had nothing to send, or is one that a load handed in
    /// (`am_model::law::logged_only_after_delivery`).
    pub fn close_resumed(
        self,
        passes: Vec<Pass<N, Resumed>>,
        archive: &mut Archive<N>,
    ) -> Result<Board, CloseFault<N, Lasting, Resumed>>
        ensures terms { IfOk result (λ board. resumed board.config board.id ≡ N.terms) }
        ensures legal { IfOk result (λ board. IsLegal N.terms.config N.terms.id board.history) }
        ensures handed { IfOk result (λ board. board.handed ≡ archive.old) }
        ensures archive { archive.new ≡ archive.old }
        ensures finished { IfOk result (λ board. (glance N.terms.config board.history).flushes ≡ 0) }
        ensures seen { IfOk result (λ board. All (λ p. IsPrefixViewOf p board.history) passes.items) }
        ensures others { IfOk result (λ board. (k : ℕ) → N.plan.passes ≤ k → made k board.history ≡ 0) }
        ensures complete { OnOk result (Complete N.plan.passes passes.items) }
        ensures refused { IfErr result (λ e. IsCauseOfUnclosed N.terms N.plan.passes passes.items e.cause e.passes.items) }
    {
        match end(self, passes) {
            Ok((table, mut keeper)) => {
                keeper.meet_archive(&table.shared, archive);
                Ok(keeper.into_board())
            }
            Err(fault) => Err(fault),
        }
    }
}
