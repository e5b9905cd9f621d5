//! What a begin finds in the group that it takes: what is unmuted, and whom to notify. A preview shows
//! it, with the reasons.
//!
//! A muted route is found first: a plain begin then looks at no alert.
ghost use Rattle.std.specs.Prelude.{◌≡◌, ◌≤◌, IfOk, map, true};
ghost use Rattle.std.specs.List.{IsDistinct, filter_map};
ghost use Rattle.am_alerts.specs.RoutingTree.{last_of};
ghost use Rattle.am_model.specs.Configured.{integrations_of, route_muted};
ghost use Rattle.am_model.specs.Insert.{same_member};
ghost use Rattle.am_model.specs.look_back.Preview.{reason_of};
ghost use Rattle.am_board.specs.Beginning.{IsUnmuted, copies_of};
ghost use Rattle.am_board.specs.Found.{Finds, shown_of};
ghost use Rattle.am_board.specs.Look.{IsLook, state_seen};
ghost use Rattle.am_board.specs.Members.{labels_of};
ghost use Rattle.am_board.specs.Order.{indexes_in_order};
ghost use Rattle.am_board.specs.Refinement.{group_state, member_state};
ghost use Rattle.am_board.specs.Walk.{cause_seen, muted_at};

use crate::dedup::{Decided, Update, decide};
use crate::group::Group;
use crate::look::Look;
use crate::members::Members;
use crate::reason::Reason;
use crate::unmuted::UnmutedMembers;
use crate::walk::{MutedIndex, Walk, in_group_order};
use am_alerts::sequence::Sequence;
use am_model::preview::Preview;
use std::alloc::AllocError;

/// What a begin finds in its group, and what is shown of it, if it is wanted why.
#[derive(Drop)]
pub(crate) struct Found<'m> {
    pub(crate) unmuted: UnmutedMembers<'m>,
    /// The integrations that need an update.
    pub(crate) notified: Vec<Update>,
    pub(crate) preview: Option<Preview>,
}

impl<'m> Found<'m> {
    /// What a begin finds in a group that it takes.
    pub(crate) fn of(look: &Look, group: &'m Group) -> Result<Found<'m>, AllocError>
        requires look { IsLook look.now }
        requires route { group.now.name.route ≤ last_of look.now.config.now.routes }
        requires apart { IsDistinct same_member (group_state group.now).members }
        ensures { IfOk result (Finds look.now (group_state group.now)) }
    {
        let until = look.config.route_muted(&group.name, look.t);
        let (unmuted, muted) = unmuted_and_muted(look, group, until)?;
        let decided = decide(look, &group.name, until, &unmuted)?;
        let Decided { reasons, notified } = decided;
        let preview = shown(look, group, muted, reasons)?;
        Ok(Found {
            unmuted,
            notified,
            preview,
        })
    }
}

/// The alerts of a group that aren't muted, which are none where its route is muted until a time; and
/// those that are, if it is wanted why.
fn unmuted_and_muted<'m>(
    look: &Look,
    group: &'m Group,
    until: Option<u64>,
) -> Result<(UnmutedMembers<'m>, Vec<MutedIndex>), AllocError>
    requires look { IsLook look.now }
    requires apart { IsDistinct same_member (group_state group.now).members }
    requires until { until ≡ route_muted look.now.config.now group.now.name look.now.t }
    ensures unmuted { IfOk result (λ both.
        IsUnmuted look.now.config.now (state_seen look.now) look.now.t (group_state group.now) (copies_of look.now.t both.0)) }
    ensures muted { look.now.why ≡ true → IfOk result (λ both. both.1.items
        ≡ filter_map (muted_at (cause_seen look.now) group.now.members.items) (indexes_in_order (map labels_of group.now.members.items))) }
{
    if until.is_some() {
        let muted = muted_in(look, &group.members)?;
        return Ok((UnmutedMembers::nothing(look.alloc), muted));
    }
    let walk = Walk::over(look, &group.members)?;
    let Walk {
        firing,
        resolved,
        muted,
    } = walk;
    Ok((UnmutedMembers { firing, resolved }, muted))
}

/// The muted alerts of a group whose route is muted too, if it is wanted why.
fn muted_in(look: &Look, members: &Members) -> Result<Vec<MutedIndex>, AllocError>
    requires look { IsLook look.now }
    requires apart { IsDistinct same_member (map member_state members.now.items) }
    ensures { look.now.why ≡ true → IfOk result (λ muted. muted.items
        ≡ filter_map (muted_at (cause_seen look.now) members.now.items) (indexes_in_order (map labels_of members.now.items))) }
{
    if !look.why {
        return Ok(Vec::new(look.alloc));
    }
    let walk = Walk::over(look, members)?;
    let Walk {
        firing: _,
        resolved: _,
        muted,
    } = walk;
    Ok(muted)
}

/// What is shown of a group with these muted alerts and these reasons, if it is wanted why.
fn shown(
    look: &Look,
    group: &Group,
    muted: Vec<MutedIndex>,
    reasons: Vec<Reason>,
) -> Result<Option<Preview>, AllocError>
    requires muted { look.now.why ≡ true → muted.items
        ≡ filter_map (muted_at (cause_seen look.now) group.now.members.items) (indexes_in_order (map labels_of group.now.members.items)) }
    requires reasons { look.now.why ≡ true → reasons.items
        ≡ map (reason_of look.now.config.now (state_seen look.now) look.now.t (group_state group.now))
        (integrations_of look.now.config.now group.now.name) }
    ensures { IfOk result (λ preview. preview ≡ shown_of look.now (group_state group.now)) }
{
    if !look.why {
        return Ok(None);
    }
    let members = group.members.as_slice();
    Ok(Some(Preview {
        time: look.t,
        group: group.name.copy(look.alloc)?,
        muted: in_group_order(look.alloc, members, muted)?,
        reasons: Sequence::from(reasons),
    }))
}
