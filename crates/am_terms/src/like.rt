//! Whether two previews differ in their times at most.
ghost use Rattle.std.specs.Prelude.{◌≡◌, ◌↔◌, IsTrue};
ghost use Rattle.am_mute.specs.declared.mute.MuteCause.TheVariants.{Inhibited, Silenced};
ghost use Rattle.am_terms.specs.Like.{IsLike};

use am_alerts::labels::Labels;
use am_model::group::GroupName;
use am_model::preview::{MutedAlert, Preview};
use am_model::reason::Reason;
use am_mute::mute::MuteCause;

/// Returns whether two previews are of one group, with the same muted alerts and the same reasons.
pub(crate) fn are_like(one: &Preview, other: &Preview) -> bool
    ensures { IsTrue result ↔ IsLike one.now other.now }
{
    // (groups differ most often, and cost least)
    is_same_group(&one.group, &other.group)
        && are_same_reasons(one.reasons.as_slice(), other.reasons.as_slice())
        && are_same_muted(one.muted.as_slice(), other.muted.as_slice())
}

fn are_same_reasons(some: &[Reason], others: &[Reason]) -> bool
    ensures { IsTrue result ↔ (some.now ≡ others.now) }
{
    some == others
}

fn is_same_group(one: &GroupName, other: &GroupName) -> bool
    ensures { IsTrue result ↔ (one.now ≡ other.now) }
{
    one == other
}

fn are_same_muted(some: &[MutedAlert], others: &[MutedAlert]) -> bool
    ensures { IsTrue result ↔ (some.now ≡ others.now) }
{
    if some.len() != others.len() {
        return false;
    }
    for index in 0..some.len() {
        if !is_same_muted(&some[index], &others[index]) {
            return false;
        }
    }
    true
}

fn is_same_muted(one: &MutedAlert, other: &MutedAlert) -> bool
    ensures { IsTrue result ↔ (one.now ≡ other.now) }
{
    is_same_set(&one.labels, &other.labels) && is_same_cause(&one.cause, &other.cause)
}

fn is_same_set(one: &Labels, other: &Labels) -> bool
    ensures { IsTrue result ↔ (one.now ≡ other.now) }
{
    one == other
}

fn is_same_cause(one: &MuteCause, other: &MuteCause) -> bool
    ensures { IsTrue result ↔ (one.now ≡ other.now) }
{
    match one {
        MuteCause::Silenced { id, until } => is_silenced_by(*id, *until, other),
        MuteCause::Inhibited { rule, by } => is_inhibited_by(*rule, by, other),
    }
}

fn is_silenced_by(id: u64, until: u64, cause: &MuteCause) -> bool
    ensures { IsTrue result ↔ (Silenced id until ≡ cause.now) }
{
    match cause {
        MuteCause::Silenced {
            id: other,
            until: end,
        } => id == *other && until == *end,
        MuteCause::Inhibited { .. } => false,
    }
}

fn is_inhibited_by(rule: usize, by: &Labels, cause: &MuteCause) -> bool
    ensures { IsTrue result ↔ (Inhibited rule by.now ≡ cause.now) }
{
    match cause {
        MuteCause::Silenced { .. } => false,
        MuteCause::Inhibited {
            rule: other,
            by: source,
        } => rule == *other && is_same_set(by, source),
    }
}
