//! The flush to open: all that its begin puts into the board and its ticket.
//!
//! Copies are made only where an integration is to be notified. The label sets are made once then:
//! the open flush and each notified integration share them, so a note or the finish moves them into
//! the log and never allocates.
ghost use Rattle.std.specs.Prelude.{◌≡◌, ◌≤◌, IfOk, map};
ghost use Rattle.std.specs.List.{IsDistinct};
ghost use Rattle.am_alerts.specs.RoutingTree.{last_of};
ghost use Rattle.am_model.specs.Begin.{notified_of};
ghost use Rattle.am_model.specs.Insert.{same_member};
ghost use Rattle.am_board.specs.Beginning.{AreRising, IsFlushNotifying, IsPlannedFlush, IsUnmuted, alert_sets_of};
ghost use Rattle.am_board.specs.Beginning.{notice_of_update, notified_for_update, update_of};
ghost use Rattle.am_board.specs.Found.{Finds, Plans, PlansShown};
ghost use Rattle.am_board.specs.Look.{IsLook, state_seen};
ghost use Rattle.am_board.specs.Refinement.{group_state};

use crate::begin::MIN_FLUSH_TIMEOUT;
use crate::dedup::Update;
use crate::fault::Fault;
use crate::flush::{AlertSets, Notified, OpenFlush};
use crate::found::Found;
use crate::group::{Group, GroupName};
use crate::look::Look;
use crate::notice::{MAX_DEADLINE, Notice};
use crate::record::Opened;
use crate::unmuted::{Unmuted, leaving_at};
use am_alerts::sequence::copy_all;
use am_model::boxed::Boxed;
use am_model::preview::Preview;
use am_nflog::LogKey;
use am_retry::Outcome;
use std::alloc::{AllocError, Global};

/// All that the begin of a flush puts into the board and its ticket.
#[derive(Drop)]
pub(crate) struct PlannedFlush {
    pub(crate) flush: OpenFlush,
    pub(crate) number: u64,
    pub(crate) deadline: u64,
    /// For the ticket.
    pub(crate) group: GroupName,
    pub(crate) notices: Vec<Notice>,
    pub(crate) outcomes: Vec<(u32, Outcome)>,
    /// For the record.
    pub(crate) recorded_group: GroupName,
    pub(crate) recorded: Boxed<Opened>,
}

/// What is to be done with the group that a begin takes: the flush to open, unless no integration
/// needs an update, and what is shown, if it is wanted why.
pub(crate) fn plan(
    look: &Look,
    id: u64,
    group: &Group,
) -> Result<(Option<PlannedFlush>, Option<Preview>), Fault>
    requires look { IsLook look.now }
    requires route { group.now.name.route ≤ last_of look.now.config.now.routes }
    requires apart { IsDistinct same_member (group_state group.now).members }
    ensures { PlansShown look.now id (group_state group.now) result }
{
    let found = Found::of(look, group)?;
    let planned = plan_found(look, id, group, &found)?;
    Ok((planned, found.preview))
}

/// Returns the flush of a group in which this is found, unless no integration needs an update.
fn plan_found(
    look: &Look,
    id: u64,
    group: &Group,
    found: &Found,
) -> Result<Option<PlannedFlush>, Fault>
    requires look { IsLook look.now }
    requires route { group.now.name.route ≤ last_of look.now.config.now.routes }
    requires found { Finds look.now (group_state group.now) found.now }
    ensures { Plans look.now id (group_state group.now) result }
{
    let notified = found.notified.as_slice();
    if notified.is_empty() {
        return Ok(None);
    }
    if look.state.flushes.len() >= look.config.limits.flushes {
        return Err(Fault::TooManyOpen);
    }
    let copies = found.unmuted.copies(look.alloc, look.t)?;
    let planned = open(look, id, group, &copies, notified)?;
    Ok(Some(planned))
}

/// Returns the flush to open of a group, for these integrations.
fn open(
    look: &Look,
    id: u64,
    group: &Group,
    unmuted: &Unmuted,
    notified: &[Update],
) -> Result<PlannedFlush, AllocError>
    requires look { IsLook look.now }
    requires route { group.now.name.route ≤ last_of look.now.config.now.routes }
    requires rising { AreRising unmuted.now }
    requires unmuted { IsUnmuted look.now.config.now (state_seen look.now) look.now.t (group_state group.now) unmuted.now }
    requires notified { notified.now
        ≡ map update_of (notified_of look.now.config.now (state_seen look.now) look.now.t (group_state group.now)) }
    ensures { IfOk result (IsPlannedFlush look.now.config.now id (state_seen look.now) look.now.t (group_state group.now)) }
{
    let alloc = look.alloc;
    let number = look.state.next_number;
    let route = look.config.routes.route(group.name.route);
    let interval = route.group_interval.max(MIN_FLUSH_TIMEOUT);
    let deadline = look.t.saturating_add(interval);
    let kept_for = look
        .config
        .retention
        .min(route.repeat_interval.saturating_mul(2));
    let opening = Opening {
        alloc,
        board_id: id,
        number,
        deadline,
        kept_for,
        group,
        unmuted,
        notified,
        t: look.t,
    };
    let notices = opening.notices()?;
    Ok(PlannedFlush {
        flush: opening.flush()?,
        number,
        deadline,
        group: group.name.copy(alloc)?,
        recorded_group: group.name.copy(alloc)?,
        recorded: recorded(alloc, number, deadline, notices.as_slice())?,
        outcomes: Vec::with_capacity(alloc, notices.len())?,
        notices,
    })
}

/// Returns what the record keeps of a flush, besides its group.
fn recorded(
    alloc: Global,
    number: u64,
    deadline: u64,
    notices: &[Notice],
) -> Result<Boxed<Opened>, AllocError>
    ensures { IfOk result (λ opened. opened ≡ record { number = number; deadline = deadline; notices = notices.now }) }
{
    let notices = copy_all(alloc, notices)?;
    Boxed::new(
        alloc,
        Opened {
            number,
            deadline,
            notices,
        },
    )
}

/// A flush that is opened: of which group, when, and whom it notifies of what.
#[derive(Clone, Copy)]
struct Opening<'b> {
    alloc: Global,
    board_id: u64,
    number: u64,
    deadline: u64,
    /// How long its rows stay in the log, in milliseconds.
    kept_for: u64,
    group: &'b Group,
    unmuted: &'b Unmuted,
    notified: &'b [Update],
    t: u64,
}

impl<'b> Opening<'b> {
    /// Returns the open flush, with the label sets that its integrations share.
    fn flush(&self) -> Result<OpenFlush, AllocError>
        requires { AreRising self.now.unmuted.now }
        ensures { IfOk result (IsFlushNotifying self.now.number self.now.kept_for self.now.group.now self.now.unmuted.now
            self.now.notified.now self.now.t) }
    {
        let sets = self.unmuted.sets(self.alloc)?;
        Ok(OpenFlush {
            number: self.number,
            group: self.group.name.copy(self.alloc)?,
            kept_for: self.kept_for,
            notified: self.notified_with(&sets)?,
            sets,
            leaving: leaving_at(self.alloc, self.group.members.as_slice(), self.t)?,
        })
    }

    /// Returns a notice for each integration that needs an update.
    fn notices(&self) -> Result<Vec<Notice>, AllocError>
        requires { self.now.deadline ≤ MAX_DEADLINE }
        ensures items { IfOk result (λ notices. notices.items
            ≡ map (notice_of_update self.now.board_id self.now.number self.now.deadline self.now.group.now.name self.now.unmuted.now)
            self.now.notified.now) }
    {
        let mut notices = Vec::with_capacity(self.alloc, self.notified.len())?;
        for update in self.notified {
            notices.push(Notice {
                board_id: self.board_id,
                ticket: self.number,
                deadline: self.deadline,
                group: self.group.name.copy(self.alloc)?,
                integration: update.integration,
                firing: self.unmuted.firing.copy(self.alloc)?,
                resolved: self.unmuted.sent(self.alloc, update.send_resolved)?,
            })?;
        }
        Ok(notices)
    }

    /// Returns the integrations of the flush, each with what its log row will have.
    fn notified_with(&self, sets: &AlertSets) -> Result<Vec<Notified>, AllocError>
        requires sets { sets.now ≡ alert_sets_of self.now.unmuted.now }
        ensures { IfOk result (λ all. all.items
            ≡ map (notified_for_update self.now.group.now.name self.now.unmuted.now) self.now.notified.now) }
    {
        let mut all = Vec::with_capacity(self.alloc, self.notified.len())?;
        for update in self.notified {
            all.push(Notified {
                key: LogKey {
                    group: self.group.name.copy(self.alloc)?,
                    integration: update.integration,
                },
                nothing: self.unmuted.is_nothing(update.send_resolved),
                sets: Some(sets.share()?),
            })?;
        }
        Ok(all)
    }
}
