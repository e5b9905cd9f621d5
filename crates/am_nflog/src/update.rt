//! Why an integration needs an update about a group, or why not (`notify.DedupStage`). Cost: the
//! two lists and those of the row, once each.
ghost use Rattle.std.specs.Prelude.{◌≡◌, IsTrue, map};
ghost use Rattle.std.specs.Option.{option_copied};
ghost use Rattle.am_nflog.specs.Members.{is_ascending, is_subset};
ghost use Rattle.am_nflog.specs.Needed.{is_update, needed, reason_ended, reason_unlogged, update_reason, NumberingKeepsNeeded};

use crate::lends::Lends;
use crate::row::LogRow;
use std::cmp::Ordering;

/// Why an integration needs an update about a group, or why not.
#[derive(Clone, Copy)]
pub enum UpdateReason {
    /// There is no row, and an alert fires.
    FirstNotice,
    /// An alert fires that the row doesn't have as firing.
    NewAlert,
    /// No alert fires, and the row has some as firing, whether or not resolved alerts are sent.
    AllResolved,
    /// Resolved alerts are sent, and one is resolved that the row doesn't have as resolved.
    NewlyResolved,
    /// The row is older than the repeat interval.
    Repeat,
    /// No update is needed: no alert fires, and no row has any as firing.
    NothingFiring,
    /// No update is needed: nothing is new, and the row, of this time, isn't older than the repeat interval.
    NotYet { since: u64 },
}

impl UpdateReason {
    /// Whether an update is needed for this reason.
    pub fn is_update(&self) -> bool
        ensures { result ≡ is_update self.now }
    {
        match self {
            UpdateReason::FirstNotice
            | UpdateReason::NewAlert
            | UpdateReason::AllResolved
            | UpdateReason::NewlyResolved
            | UpdateReason::Repeat => true,
            UpdateReason::NothingFiring | UpdateReason::NotYet { .. } => false,
        }
    }
}

/// Why an integration needs an update or why not, given the row that was logged for it, the alerts that fire now and those that
/// are resolved now, both strictly ascending.
///
/// `repeat` is the route's repeat interval and `t` the time of the call, in milliseconds. It is the first case that applies, as
/// `needsUpdate` of Alertmanager's DedupStage has them: without a row `NothingFiring` or `FirstNotice`, and else `NewAlert`,
/// `NothingFiring`, `AllResolved`, `NewlyResolved`, `Repeat` or `NotYet`.
///
/// A sum of time and interval above `u64::MAX` is later than every `t`.
pub fn update_reason<N: Ord, F: Lends<N>>(
    logged: Option<&LogRow<N>>,
    firing: &[F],
    resolved: &[F],
    send_resolved: bool,
    repeat: u64,
    t: u64,
) -> UpdateReason
    requires firing_ascending { IsTrue (is_ascending N.cmp (map F.lent firing.now)) }
    requires resolved_ascending { IsTrue (is_ascending N.cmp (map F.lent resolved.now)) }
    ensures { result
        ≡ update_reason N.eq (option_copied logged.entry) (map F.lent firing.now) (map F.lent resolved.now) send_resolved repeat t }
{
    let Some(row) = logged else {
        return unlogged(firing);
    };
    if !is_subset(firing, row.firing.as_slice()) {
        return UpdateReason::NewAlert;
    }
    if firing.is_empty() {
        return ended(row);
    }
    if send_resolved && !is_subset(resolved, row.resolved.as_slice()) {
        return UpdateReason::NewlyResolved;
    }
    match row.time.checked_add(repeat) {
        Some(due) if due < t => UpdateReason::Repeat,
        _ => UpdateReason::NotYet { since: row.time },
    }
}

/// The reason where nothing was logged.
fn unlogged<F>(firing: &[F]) -> UpdateReason
    ensures { result ≡ reason_unlogged firing.now }
{
    if firing.is_empty() {
        UpdateReason::NothingFiring
    } else {
        UpdateReason::FirstNotice
    }
}

/// The reason where no alert fires.
fn ended<N: Ord>(row: &LogRow<N>) -> UpdateReason
    ensures { result ≡ reason_ended row.now }
{
    if row.firing.as_slice().is_empty() {
        UpdateReason::NothingFiring
    } else {
        UpdateReason::AllResolved
    }
}

/// Whether an integration needs an update: whether there is a reason for it, by `update_reason`.
pub fn needs_update<N: Ord, F: Lends<N>>(
    logged: Option<&LogRow<N>>,
    firing: &[F],
    resolved: &[F],
    send_resolved: bool,
    repeat: u64,
    t: u64,
) -> bool
    requires firing_ascending { IsTrue (is_ascending N.cmp (map F.lent firing.now)) }
    requires resolved_ascending { IsTrue (is_ascending N.cmp (map F.lent resolved.now)) }
    ensures { result ≡ needed N.eq (option_copied logged.entry) (map F.lent firing.now) (map F.lent resolved.now) send_resolved repeat t }
{
    update_reason(logged, firing, resolved, send_resolved, repeat, t).is_update()
}

/// Whether each of `some` is one of `all`, both strictly ascending: one pass over `all` finds them in turn.
pub fn is_subset<N: Ord, F: Lends<N>>(some: &[F], all: &[N]) -> bool
    requires some_ascending { IsTrue (is_ascending N.cmp (map F.lent some.now)) }
    requires all_ascending { IsTrue (is_ascending N.cmp all.now) }
    ensures { result ≡ is_subset N.eq (map F.lent some.now) all.now }
{
    let mut missing = some;
    for next in all {
        let Some((first, rest)) = missing.split_first() else {
            return true;
        };
        match first.lend().cmp(next) {
            Ordering::Less => return false,
            Ordering::Equal => missing = rest,
            Ordering::Greater => {}
        }
    }
    missing.is_empty()
}

/// Needing an update is a matter of which alerts are the same: under a one-to-one numbering of the alerts it comes out at the
/// numbers as it does at the alerts. So a log can be kept with numbers for its alerts. The function does nothing.
pub fn numbering_keeps_needed<M: Eq, N: Eq>()
    ensures { NumberingKeepsNeeded M.eq N.eq }
{}
