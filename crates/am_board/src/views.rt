//! What a board has, as values that callers can read and compare: counts, log rows and groups.
ghost use Rattle.std.specs.Prelude.{◌≡◌, ◌+◌, ◌*◌, ◌≤◌, ◌++◌, [], ◌∷◌, All, IfOk, OnOk, length, map, sum_by, vec_len};
ghost use Rattle.std.specs.List.{IsDistinct, list_any};
ghost use Rattle.std.specs.Option.{option_copied};
ghost use Rattle.am_model.specs.declared.config.TheConstants.{MAX_GROUPS, MAX_FLUSHES, MAX_HISTORY};
ghost use Rattle.am_board.specs.History.{state_at};
ghost use Rattle.am_model.specs.Insert.{same_member};
ghost use Rattle.am_board.specs.Refinement.{state_of, group_state};
ghost use Rattle.am_board.specs.LogRows.{row_under, log_rows};
ghost use Rattle.am_board.specs.Step.{MAX_CALLS};
ghost use Rattle.am_model.specs.Laws.{IsConsistent};
ghost use Rattle.am_model.specs.Maintenance.{has_no_alerts};
ghost use Rattle.am_model.specs.Views.{row_views, group_view, group_views, summary, summary_at, summary_data, glance, glance_at};

use crate::board::Board;
use crate::group::{Group, GroupName, Member};
use crate::state::State;
use crate::unmuted::by_labels;
use am_alerts::alert::Alert;
use am_alerts::labels::Labels;
use am_alerts::sequence::copy_all;
pub use am_model::views::{Glance, GroupView, RowView, Summary};
use am_nflog::{LogKey, LogRow, NfLog};
use std::alloc::{AllocError, Global};

impl Board {
    /// Returns the numbers of calls, groups and open flushes. Never allocates; reads three lengths.
    ///
    /// The calls are all that were ever accepted.
    pub fn glance(&self) -> Glance
        ensures glance { result ≡ glance self.now.config self.now.history }
        ensures within { (result.calls ≤ length self.now.handed + self.now.config.limits.history)
            × (result.groups ≤ self.now.config.limits.groups)
            × (result.flushes ≤ self.now.config.limits.flushes) }
        ensures bounds { (result.calls ≤ length self.now.handed + MAX_HISTORY)
            × (result.groups ≤ MAX_GROUPS)
            × (result.flushes ≤ MAX_FLUSHES) }
    {
        glance_of(self.handed, &self.state)
    }

    /// Returns whether some group has no alerts: `remove_empty_groups` would remove it.
    ///
    /// Never allocates; reads one number.
    pub fn has_empty_groups(&self) -> bool
        ensures { result ≡ list_any has_no_alerts (state_at self.now).groups }
    {
        self.state.groups.has_empty()
    }

    /// Returns the numbers of calls, groups, alerts, open flushes and log rows. Never allocates.
    ///
    /// The calls are all that were ever accepted. Cost: the groups and the log's keys.
    pub fn summary(&self) -> Summary
        ensures summary { summary_data result ≡ summary self.now.config self.now.history }
        ensures within { (result.calls ≤ length self.now.handed + self.now.config.limits.history)
            × (result.groups ≤ self.now.config.limits.groups)
            × (result.flushes ≤ self.now.config.limits.flushes) }
    {
        summary_of(self.handed, &self.state)
    }

    /// Returns copies of the log's rows, by route position, group labels and integration.
    pub fn rows(&self, alloc: Global) -> Result<Vec<RowView>, AllocError>
        ensures { IfOk result (λ rows. rows.items ≡ row_views (state_at self.now)) }
    {
        rows_of(alloc, &self.state)
    }

    /// Returns copies of the groups, by route position and group labels.
    pub fn groups(&self, alloc: Global) -> Result<Vec<GroupView>, AllocError>
        ensures groups { IfOk result (λ groups. groups.items ≡ group_views (state_at self.now)) }
        ensures within { IfOk result (λ groups. length groups.items ≤ self.now.config.limits.groups) }
    {
        groups_of(alloc, &self.state)
    }
}

/// How much there is in a state, without alerts and rows, after so many records that were handed
/// out.
fn glance_of(handed: usize, state: &State) -> Glance
    requires { handed + vec_len state.now.history ≤ MAX_CALLS }
    ensures { result ≡ glance_at (handed + vec_len state.now.history) (state_of state.now) }
{
    Glance {
        calls: handed + state.history.len(),
        groups: state.groups.len(),
        flushes: state.flushes.len(),
    }
}

/// How much there is in a state, after so many records that were handed out.
fn summary_of(handed: usize, state: &State) -> Summary
    requires calls { handed + vec_len state.now.history ≤ MAX_CALLS }
    requires alerts { sum_by (λ g. length g.members) (state_of state.now).groups ≤ 16_384 * state.now.inserts }
    requires inserts { state.now.inserts ≤ MAX_CALLS }
    ensures { summary_data result ≡ summary_at (handed + vec_len state.now.history) (state_of state.now) }
{
    Summary {
        calls: handed + state.history.len(),
        groups: state.groups.len(),
        alerts: count_alerts(state.groups.as_slice()),
        flushes: state.flushes.len(),
        entries: count_rows(&state.log),
    }
}

/// The number of alerts over all groups.
fn count_alerts(groups: &[Group]) -> usize
    requires { sum_by (λ g. length g.members.items) groups.now ≤ usize.MAX }
    ensures { result ≡ sum_by (λ g. length g.members.items) groups.now }
{
    let mut count: usize = 0;
    for group in groups {
        count += group.members.len();
    }
    count
}

/// The number of rows of the log.
fn count_rows(log: &NfLog<GroupName, Labels>) -> usize
    ensures { result ≡ length (log_rows log.now) }
{
    let mut count: usize = 0;
    for i in 0..log.len() {
        if log.row(i).1.is_some() {
            count += 1;
        }
    }
    count
}

/// The rows of the log of a state, in their order.
fn rows_of(alloc: Global, state: &State) -> Result<Vec<RowView>, AllocError>
    requires { IsConsistent (state_of state.now) }
    ensures { IfOk result (λ rows. rows.items ≡ row_views (state_of state.now)) }
{
    let mut rows = copy_rows(alloc, &state.log)?;
    rows.sort_unstable_by(|a, b| a
        .group
        .cmp(&b.group)
        .then(a.integration.cmp(&b.integration)));
    Ok(rows)
}

/// The rows of a log, in the order of its keys.
fn copy_rows(alloc: Global, log: &NfLog<GroupName, Labels>) -> Result<Vec<RowView>, AllocError>
    ensures { IfOk result (λ rows. rows.items ≡ log_rows log.now) }
{
    let mut rows = Vec::new(alloc);
    for i in 0..log.len() {
        let (key, row) = log.row(i);
        push_row(alloc, &mut rows, key, row)?;
    }
    Ok(rows)
}

/// Adds the row of a key, if it has one.
fn push_row(
    alloc: Global,
    rows: &mut Vec<RowView>,
    key: &LogKey<GroupName>,
    row: Option<&LogRow<Labels>>,
) -> Result<(), AllocError>
    ensures { OnOk result (rows.new.items ≡ rows.old.items ++ log_rows ((key.now, option_copied row.entry) ∷ [])) }
{
    if let Some(row) = row {
        rows.push(row_view(alloc, key, row)?)?;
    }
    Ok(())
}

fn row_view(
    alloc: Global,
    key: &LogKey<GroupName>,
    row: &LogRow<Labels>,
) -> Result<RowView, AllocError>
    ensures { IfOk result (λ view. view ≡ row_under (key.now, row.now)) }
{
    Ok(RowView {
        group: key.group.copy(alloc)?,
        integration: key.integration,
        time: row.time,
        expiry: row.expiry,
        firing: copy_all(alloc, row.firing.as_slice())?,
        resolved: copy_all(alloc, row.resolved.as_slice())?,
    })
}

/// The groups of a state, in their order.
fn groups_of(alloc: Global, state: &State) -> Result<Vec<GroupView>, AllocError>
    requires { IsConsistent (state_of state.now) }
    ensures { IfOk result (λ groups. groups.items ≡ group_views (state_of state.now)) }
{
    let mut groups = views_of(alloc, state.groups.as_slice())?;
    groups.sort_unstable_by(|a, b| a.group.cmp(&b.group));
    Ok(groups)
}

/// The views of these groups, in which no two alerts have one label set.
fn views_of(alloc: Global, groups: &[Group]) -> Result<Vec<GroupView>, AllocError>
    requires { All (λ g. IsDistinct same_member g.members) (map group_state groups.now) }
    ensures { IfOk result (λ views. views.items ≡ map (λ g. group_view (group_state g)) groups.now) }
{
    let mut views = Vec::with_capacity(alloc, groups.len())?;
    for group in groups {
        views.push(group_view(alloc, group)?)?;
    }
    Ok(views)
}

fn group_view(alloc: Global, group: &Group) -> Result<GroupView, AllocError>
    requires { IsDistinct same_member (group_state group.now).members }
    ensures { IfOk result (λ view. view ≡ group_view (group_state group.now)) }
{
    let alerts = alerts_of(alloc, group.members.as_slice())?;
    Ok(GroupView {
        group: group.name.copy(alloc)?,
        due: group.due,
        flushed: group.flushed,
        alerts: by_labels(alerts),
    })
}

/// The alerts of these members.
fn alerts_of(alloc: Global, members: &[Member]) -> Result<Vec<Alert>, AllocError>
    ensures { IfOk result (λ alerts. alerts.items ≡ map (λ m. m.alert) members.now) }
{
    let mut alerts = Vec::with_capacity(alloc, members.len())?;
    for member in members {
        alerts.push(member.alert.copy(alloc)?)?;
    }
    Ok(alerts)
}
