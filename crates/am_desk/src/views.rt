//! What a desk has, as values that threads read and compare, and when the next group is due.
//!
//! Each view takes the lock, shows the pass the whole history, and then calls the board's view. It
//! is of the history that the pass has then seen, and adds no record. Other calls wait meanwhile.
ghost use Rattle.std.specs.Prelude.{◌≡◌, ◌≤◌, None, IfOk, IsOk, length};
ghost use Rattle.std.specs.List.{list_any};
ghost use Rattle.am_model.specs.Begin.{next_due};
ghost use Rattle.am_model.specs.Maintenance.{has_no_alerts};
ghost use Rattle.am_model.specs.Replay.{replay};
ghost use Rattle.am_model.specs.Views.{row_views, group_views, summary, summary_data};
ghost use Rattle.am_model.specs.look_back.Preview.{preview};
ghost use Rattle.am_desk.specs.Calls.{most};
ghost use Rattle.am_desk.specs.Known.{Observes};

use crate::desk::Desk;
use crate::kind::{Kind, Origin};
use crate::name::Name;
use crate::pass::Pass;
use am_board::preview::Preview;
use am_board::views::{GroupView, RowView, Summary};
use std::alloc::{AllocError, Global};
use std::sync::Wait;

impl<N: Name, K: Kind, L: Origin> Desk<N, K, L> {
    /// Returns the numbers of calls, groups, alerts, open flushes and log rows. Never allocates.
    ///
    /// `glance` has three of them without the lock. Cost: as `Board::summary`.
    pub fn summary<R: Wait>(&self, rt: &R, pass: &mut Pass<N, L>) -> Summary
        ensures looks { Observes N.terms pass.old pass.new }
        ensures summary { summary_data result ≡ summary N.terms.config pass.new.log }
        ensures within { (result.calls ≤ most K.takes pass.new.taken N.terms.config.limits.history)
            × (result.groups ≤ N.terms.config.limits.groups)
            × (result.flushes ≤ N.terms.config.limits.flushes) }
    {
        self.kept.lock(rt).show(&self.table.shared, pass).summary()
    }

    /// Returns copies of the log's rows, by route position, group labels and integration.
    ///
    /// It fails only out of memory; the pass has then seen the history all the same.
    pub fn rows<R: Wait>(
        &self,
        rt: &R,
        alloc: Global,
        pass: &mut Pass<N, L>,
    ) -> Result<Vec<RowView>, AllocError>
        ensures looks { Observes N.terms pass.old pass.new }
        ensures rows { IfOk result (λ rows. rows.items ≡ row_views (replay N.terms.config pass.new.log)) }
    {
        self.kept
            .lock(rt)
            .show(&self.table.shared, pass)
            .rows(alloc)
    }

    /// Returns copies of the groups, by route position and group labels.
    ///
    /// It fails as `rows` does.
    pub fn groups<R: Wait>(
        &self,
        rt: &R,
        alloc: Global,
        pass: &mut Pass<N, L>,
    ) -> Result<Vec<GroupView>, AllocError>
        ensures looks { Observes N.terms pass.old pass.new }
        ensures groups { IfOk result (λ groups. groups.items ≡ group_views (replay N.terms.config pass.new.log)) }
        ensures within { IfOk result (λ groups. length groups.items ≤ N.terms.config.limits.groups) }
    {
        self.kept
            .lock(rt)
            .show(&self.table.shared, pass)
            .groups(alloc)
    }

    /// Returns what a begin at `now` (milliseconds) would do, and why, as `Board::preview` does.
    ///
    /// None where no group without an open flush is due. Another thread's call can come before the
    /// begin: a preview and a begin are two calls.
    ///
    /// Clause `answers`: where no group is due it takes no memory. Else it fails as `rows` does.
    pub fn preview<R: Wait>(
        &self,
        rt: &R,
        alloc: Global,
        pass: &mut Pass<N, L>,
        now: u64,
    ) -> Result<Option<Preview>, AllocError>
        ensures looks { Observes N.terms pass.old pass.new }
        ensures preview { IfOk result (λ found. found ≡ preview N.terms.config pass.new.log now) }
        ensures answers { preview N.terms.config pass.new.log now ≡ None → IsOk result }
    {
        self.kept
            .lock(rt)
            .show(&self.table.shared, pass)
            .preview(alloc, now)
    }

    /// Returns when the next group without an open flush is due, in milliseconds, if there is one.
    ///
    /// A thread that begins flushes sleeps until then by `wait_due`. Never allocates.
    pub fn next_due<R: Wait>(&self, rt: &R, pass: &mut Pass<N, L>) -> Option<u64>
        ensures looks { Observes N.terms pass.old pass.new }
        ensures due { result ≡ next_due (replay N.terms.config pass.new.log) }
    {
        self.kept.lock(rt).show(&self.table.shared, pass).next_due()
    }

    /// Returns whether some group has no alerts: `remove_empty_groups` would remove it. Never
    /// allocates.
    pub fn has_empty_groups<R: Wait>(&self, rt: &R, pass: &mut Pass<N, L>) -> bool
        ensures looks { Observes N.terms pass.old pass.new }
        ensures empty { result ≡ list_any has_no_alerts (replay N.terms.config pass.new.log).groups }
    {
        self.kept
            .lock(rt)
            .show(&self.table.shared, pass)
            .has_empty_groups()
    }
}
