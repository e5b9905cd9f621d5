//! The clock of a dispatcher's part of a rehearsal.
//!
//! A part goes step by step: `next` says what comes next, `step` does it. A step is a removal
//! of empty groups, the end of the sending of a notice, the finish of a flush, a planned action, a
//! maintenance or a begin. The earliest comes first, and of one time in this order, so a begin sees
//! everything of its time. A begin that took a group is followed by another at once. All steps but
//! the ends of failed sendings are calls of a board: this module decides only when they are made.
//!
//! Empty groups are removed at ticks, which come at each multiple of `remove_empty_groups` after the
//! dispatcher's start. A tick at which no group is empty is no step, and makes no record. A tick comes
//! first of its time: a group that is emptied then stays until the next one.
//!
//! Answers of outages depend on the time alone. So the notices of a flush are sent by `deliver` as
//! soon as it is begun, and their reports wait until the clock comes to their ends. When as many
//! flushes are open as the limit allows, groups stay due, and no begin is tried until a flush is
//! finished.
ghost use Rattle.std.specs.Prelude.{◌≡◌, ◌≢◌, ◌<◌, ◌≤◌, ◌+◌, ◌-◌, [], false, IfErr, IfOk, OnOk, None, Some};
ghost use Rattle.std.specs.Prelude.{length, slice_get, vec_len};
ghost use Rattle.std.specs.List.{range_with_len};
ghost use Rattle.std.specs.Option.{IsSomeAnd};
ghost use Rattle.am_alerts.specs.declared.limits.TheConstants.{MAX_TIME};
ghost use Rattle.am_model.specs.Config.{config_fault};
ghost use Rattle.am_model.specs.Replay.{IsLegal};
ghost use Rattle.am_simulation.specs.Simulations.{scene_in, setting_in, setting_of};
ghost use Rattle.am_simulation.specs.Simulations.{IsAllowed, IsHindered, IsOwnFault, IsPlanFault, IsStopped};
ghost use Rattle.am_simulation.specs.EventOrder.{begin_indices};
ghost use Rattle.am_simulation.specs.Faults.{fault_of_call};
ghost use Rattle.am_simulation.specs.Next.{begins_on, next, next_but_begins, next_begin, next_plan, next_removal};
ghost use Rattle.am_simulation.specs.Planned.{refuses};
ghost use Rattle.am_simulation.specs.Play.{PlaysTo, Reaches};
ghost use Rattle.am_simulation.specs.Previews.{previews_of};
ghost use Rattle.am_simulation.specs.Scene.{opening_scene};
ghost use Rattle.am_simulation.specs.Steps.{after_plan, with_sending, IsDone, IsSendingAdded, Steps};
ghost use Rattle.am_simulation.specs.CauseOfFault.{own_cause, IsCauseOfFault};
ghost use Rattle.am_simulation.specs.declared.limits.TheConstants.{BOARD_ID};
ghost use Rattle.am_terms.specs.declared.rehearsal.TheConstants.{MAX_UNTIL};
ghost use Rattle.am_simulation.specs.declared.next.Step.TheVariants as step;

use crate::acting::ActFault;
use crate::flights::Flights;
use crate::limits::BOARD_ID;
use crate::next::{Next, Step, comes_by, earlier, in_time, tick_after};
use crate::previewing::PreviewingBoard;
use crate::sending::{Sending, ends_of};
use crate::span::Span;
use crate::taken::Taken;
use am_board::board::Board;
use am_board::config::Config;
use am_board::fault::{BoardFault, Fault};
use am_board::own_ticket::OwnTicket;
use am_board::record::Record;
use am_seed::Seed;
use am_terms::event::{Event, PreviewedBegin};
use am_terms::rehearsal::{Outage, TimedAction, Upkeep};
use am_terms::watch::Watch;
use std::alloc::{AllocError, Global};
use std::collections::VecDeque;
use std::marker::Brand;

/// A rehearsal that ran to its end: its board, which keeps its whole history, the previews of its
/// begins, and its events in order.
#[derive(Drop)]
pub struct Played {
    pub board: Board,
    pub begins: Vec<PreviewedBegin>,
    pub events: Vec<Event>,
    /// What the hashes of its board start from. Those of what is made of it can do so too.
    pub seed: Seed,
    ghost whole: { board.handed ≡ [] },
    ghost ours: { board.id ≡ BOARD_ID },
    ghost previews: { begins.items ≡ previews_of board.config board.history },
    ghost begun: { begin_indices events.items ≡ range_with_len 0 (vec_len begins) },
}

impl Played {
    /// Returns all records of the board: the accepted calls with their replies, in order.
    pub fn history(&self) -> &[Record]
        ensures history { result.now ≡ self.now.board.history }
        ensures legal { IsLegal self.now.board.config self.now.board.id self.now.board.history }
    {
        self.board.history()
    }
}

/// Why a rehearsal doesn't run to its end.
#[derive(Clone, Copy, PartialEq, Eq)]
pub enum PlayFault {
    /// Out of memory.
    NoMemory,
    /// No dispatcher may have the configuration.
    BadConfig,
    /// The board refuses the planned action at this position: at a limit of the configuration, or a
    /// log row that doesn't fit.
    PlanRefused(usize),
    /// The history has no capacity for the begins, maintenances or removals until then.
    Full,
}

/// What all dispatchers of a rehearsal share.
#[derive(Clone, Copy)]
pub(crate) struct Conditions<'o> {
    pub(crate) alloc: Global,
    /// What hashes start from.
    pub(crate) seed: Seed,
    pub(crate) upkeep: Upkeep,
    pub(crate) outages: &'o [Outage],
}

/// What one dispatcher has of a rehearsal, with its loads of log rows in front of its plans.
#[derive(Drop)]
pub(crate) struct LoadedPart {
    pub(crate) config: Config,
    pub(crate) span: Span,
    /// The last time of its plans, maintenances, removals and begins.
    pub(crate) until: u64,
    pub(crate) plans: Vec<TimedAction>,
}

/// Runs the part of a rehearsal that one dispatcher has to its end. It starts with an empty board.
/// Notices that are in flight at the end are sent to their own end.
///
/// The clock starts at `span.since`, and the first maintenance and the first tick come their time
/// after that. An attempt that would end after `span.cut` fails at the cut, without another try. No
/// attempt begins from the cut on.
pub(crate) fn play_loaded<W: Watch>(
    conditions: &Conditions<'_>,
    part: LoadedPart,
    watch: &mut W,
) -> Result<Played, PlayFault>
    requires until { part.until ≤ MAX_UNTIL }
    ensures played { IfOk result (λ played.
        PlaysTo (setting_of conditions.now part) part.config part.plans.items played.board played.events.items) }
    ensures refused { IfErr result (IsCauseOfFault (setting_of conditions.now part) part.config part.plans.items) }
{
    let mut simulation = Simulation::open(conditions, part)?;
    match simulation.run(watch) {
        Ok(()) => Ok(simulation.into_played()?),
        Err(fault) => {
            simulation.abandon();
            Err(fault)
        }
    }
}

/// A rehearsal that is being played.
struct Simulation<'o> {
    alloc: Global,
    seed: Seed,
    board: PreviewingBoard,
    outages: &'o [Outage],
    /// The last time of plans, maintenances, removals and begins.
    until: u64,
    upkeep: Upkeep,
    span: Span,
    /// How many actions were planned.
    count: usize,
    /// The planned actions that are still to come.
    plans: VecDeque<TimedAction>,
    sendings: Flights,
    /// The current time.
    clock: u64,
    next_maintenance: u64,
    /// Whether a begin has just taken a group, so another comes at once.
    is_beginning: bool,
    /// Whether the limit of open flushes is reached.
    is_blocked: bool,
}

impl<'o> Simulation<'o> {
    /// A rehearsal at its start.
    fn open(conditions: &Conditions<'o>, part: LoadedPart) -> Result<Simulation<'o>, PlayFault>
        ensures setting { IfOk result (λ simulation. setting_in simulation ≡ setting_of conditions.now part) }
        ensures scene { IfOk result (λ simulation.
            scene_in simulation ≡ opening_scene (setting_of conditions.now part) part.config part.plans.items) }
        ensures counted { IfOk result (λ simulation. simulation.count ≡ length part.plans.items) }
        ensures faultless { OnOk result (config_fault part.config ≡ None) }
        ensures refused { IfErr result (λ fault. (fault ≡ PlayFault.BadConfig) × (config_fault part.config ≢ None)) }
    {
        let alloc = conditions.alloc;
        let seed = conditions.seed;
        let upkeep = conditions.upkeep;
        let LoadedPart {
            config,
            span,
            until,
            plans,
        } = part;
        Ok(Simulation {
            alloc,
            seed,
            board: PreviewingBoard::new(alloc, seed, config)?,
            outages: conditions.outages,
            until,
            upkeep,
            span,
            count: plans.len(),
            plans: VecDeque::from_vec(plans),
            sendings: Flights::new(alloc),
            clock: span.since,
            next_maintenance: span.since.saturating_add(upkeep.maintain),
            is_beginning: false,
            is_blocked: false,
        })
    }

    /// Plays to the end.
    ///
    /// It ends: a step adds a record, of which the board takes only so many, or it ends what a record began.
    fn run<W: Watch>(&mut self, watch: &mut W) -> Result<(), PlayFault>
        requires until { self.old.until ≤ MAX_UNTIL }
        requires faultless { config_fault self.old.board.board.config ≡ None }
        ensures reached { OnOk result (Reaches (setting_in self.old) (scene_in self.old) (scene_in self.new)) }
        ensures over { OnOk result (next (setting_in self.old) (scene_in self.new) ≡ None) }
        ensures stopped { IfErr result (IsStopped (setting_in self.old) self.old.count (scene_in self.old)) }
    {
        loop {
            watch.note(self.clock);
            match self.next() {
                None => return Ok(()),
                Some(next) => self.step(next)?,
            }
        }
    }

    /// Returns the next step, if there is one.
    fn next(&self) -> Option<Next>
        ensures { result ≡ next (setting_in self.now) (scene_in self.now) }
    {
        if self.begins_on() {
            return Some(Next {
                at: self.clock,
                what: Step::Begin,
            });
        }
        let first = self.next_but_begins();
        // No begin comes before the current time. So none is looked for.
        if comes_by(self.clock, first) {
            return first;
        }
        earlier(first, self.next_begin())
    }

    /// Returns whether a begin has just taken a group, and another comes at once.
    fn begins_on(&self) -> bool
        ensures { result ≡ begins_on (setting_in self.now) (scene_in self.now) }
    {
        self.is_beginning && self.clock <= self.until
    }

    /// Returns the next step that is no begin, if there is one.
    fn next_but_begins(&self) -> Option<Next>
        ensures { result ≡ next_but_begins (setting_in self.now) (scene_in self.now) }
    {
        let over = earlier(
            self.sendings.next_end(),
            self.sendings.next_finish(self.clock),
        );
        let maintenance = in_time(self.until, self.next_maintenance, Step::Maintenance);
        let others = earlier(over, earlier(self.next_plan(), maintenance));
        earlier(self.next_removal(), others)
    }

    /// Returns the removal at the next tick, if some group is empty.
    fn next_removal(&self) -> Option<Next>
        ensures { result ≡ next_removal (setting_in self.now) (scene_in self.now) }
    {
        if !self.board.has_empty_groups() {
            return None;
        }
        let tick = tick_after(self.span.since, self.upkeep.remove_empty_groups, self.clock);
        in_time(self.until, tick, Step::Removal)
    }

    fn next_plan(&self) -> Option<Next>
        ensures { result ≡ next_plan self.now.until self.now.plans.items }
    {
        match self.plans.front() {
            None => None,
            Some(plan) => in_time(self.until, plan.at, Step::Plan),
        }
    }

    /// Returns the begin of the group that is due next, if no begin waits for a finish.
    fn next_begin(&self) -> Option<Next>
        ensures { result ≡ next_begin (setting_in self.now) (scene_in self.now) }
    {
        if self.is_blocked {
            return None;
        }
        match self.board.next_due() {
            None => None,
            Some(due) => in_time(self.until, due.max(self.clock), Step::Begin),
        }
    }

    /// Does the next step.
    fn step(&mut self, coming: Next) -> Result<(), PlayFault>
        requires until { self.old.until ≤ MAX_UNTIL }
        requires comes { next (setting_in self.old) (scene_in self.old) ≡ Some coming }
        ensures same { setting_in self.new ≡ setting_in self.old }
        ensures counted { self.new.count ≡ self.old.count }
        ensures done { OnOk result (Steps (setting_in self.old) (scene_in self.old) (scene_in self.new)) }
        ensures allowed { OnOk result (IsAllowed (scene_in self.old) coming coming.what) }
        ensures hindered { IfErr result (IsHindered self.old.count (scene_in self.old) coming) }
    {
        match coming.what {
            Step::End(position, index) => self.end(position, index),
            Step::Finish(position) => {
                self.finish(position);
                Ok(())
            }
            Step::Plan => match self.plans.pop_front() {
                None => unreachable!(),
                Some(plan) => self.act(plan),
            },
            Step::Maintenance => self.make_maintenance(coming.at),
            Step::Removal => self.remove_empty_groups(coming.at),
            Step::Begin => self.begin(coming.at),
        }
    }

    /// Hands the board the end at an index of the flush at a position.
    fn end(&mut self, position: usize, index: usize) -> Result<(), PlayFault>
        requires { IsSomeAnd (slice_get self.old.sendings position) (λ s. index < length s.ends) }
        ensures same { setting_in self.new ≡ setting_in self.old }
        ensures counted { self.new.count ≡ self.old.count }
        ensures done { OnOk result (IsDone (setting_in self.old) (scene_in self.old) 0 (scene_in self.new) (step.End position index)) }
        ensures memory { IfErr result (λ fault. fault ≡ PlayFault.NoMemory) }
    {
        let end = self.sendings.take_end(position, index);
        self.clock = end.at;
        self.sendings
            .report(self.alloc, &mut self.board, position, end)?;
        Ok(())
    }

    /// Finishes the flush at a position.
    fn finish(&mut self, position: usize)
        requires { position < length self.old.sendings }
        ensures same { setting_in self.new ≡ setting_in self.old }
        ensures counted { self.new.count ≡ self.old.count }
        ensures done { IsDone (setting_in self.old) (scene_in self.old) 0 (scene_in self.new) (step.Finish position) }
        ensures left { length self.new.sendings < length self.old.sendings }
    {
        let sending = self.sendings.remove(position);
        let Sending {
            own,
            begin: _,
            ends: _,
        } = sending;
        self.is_blocked = false;
        self.board.finish(own, self.clock);
    }

    /// Does what was planned, which is planned no more.
    fn act(&mut self, plan: TimedAction) -> Result<(), PlayFault>
        ensures same { setting_in self.new ≡ setting_in self.old }
        ensures counted { self.new.count ≡ self.old.count }
        ensures done { OnOk result (scene_in self.new ≡ after_plan (scene_in self.old) plan self.old.plans.items) }
        ensures allowed { OnOk result (refuses self.old.board.board plan.at plan.act ≡ false) }
        ensures hindered { IfErr result
            (IsPlanFault (refuses self.old.board.board plan.at plan.act) (self.old.count - (length self.old.plans.items + 1))) }
    {
        let TimedAction { at, act } = plan;
        self.clock = at;
        match self.board.act(self.alloc, at, act) {
            Ok(()) => Ok(()),
            Err(ActFault::NoMemory) => Err(PlayFault::NoMemory),
            Err(ActFault::Refused) => {
                let index = self.count.saturating_sub(self.plans.len() + 1);
                Err(PlayFault::PlanRefused(index))
            }
        }
    }

    fn make_maintenance(&mut self, at: u64) -> Result<(), PlayFault>
        ensures same { setting_in self.new ≡ setting_in self.old }
        ensures counted { self.new.count ≡ self.old.count }
        ensures done { OnOk result (IsDone (setting_in self.old) (scene_in self.old) at (scene_in self.new) step.Maintenance) }
        ensures allowed { OnOk result (own_cause self.old.board.board at step.Maintenance ≡ None) }
        ensures hindered { IfErr result (IsOwnFault (own_cause self.old.board.board at step.Maintenance)) }
    {
        self.clock = at;
        self.next_maintenance = at.saturating_add(self.upkeep.maintain);
        match self.board.maintain(self.alloc, at) {
            Ok(()) => Ok(()),
            Err(fault) => Err(full_or_memory(fault)),
        }
    }

    fn remove_empty_groups(&mut self, at: u64) -> Result<(), PlayFault>
        ensures same { setting_in self.new ≡ setting_in self.old }
        ensures counted { self.new.count ≡ self.old.count }
        ensures done { OnOk result (IsDone (setting_in self.old) (scene_in self.old) at (scene_in self.new) step.Removal) }
        ensures allowed { OnOk result (own_cause self.old.board.board at step.Removal ≡ None) }
        ensures hindered { IfErr result (IsOwnFault (own_cause self.old.board.board at step.Removal)) }
    {
        self.clock = at;
        match self.board.remove_empty_groups(self.alloc, at) {
            Ok(()) => Ok(()),
            Err(fault) => Err(full_or_memory(fault)),
        }
    }

    /// Begins a flush.
    fn begin(&mut self, at: u64) -> Result<(), PlayFault>
        requires { at ≤ MAX_TIME }
        ensures same { setting_in self.new ≡ setting_in self.old }
        ensures counted { self.new.count ≡ self.old.count }
        ensures done { OnOk result (IsDone (setting_in self.old) (scene_in self.old) at (scene_in self.new) step.Begin) }
        ensures hindered { IfErr result (IsOwnFault (own_cause self.old.board.board at step.Begin)) }
    {
        self.clock = at;
        let begin = self.board.taken();
        match self.board.begin(self.alloc, at) {
            Ok(Taken::Nothing) => {
                self.is_beginning = false;
                Ok(())
            }
            Ok(Taken::Quiet) => {
                self.is_beginning = true;
                Ok(())
            }
            Ok(Taken::Flush(own)) => {
                self.is_beginning = true;
                self.send(begin, own, at)
            }
            Err(fault) => match fault {
                // The groups that are left stay due.
                Fault::TooManyOpen => {
                    self.is_beginning = false;
                    self.is_blocked = true;
                    Ok(())
                }
                _ => Err(full_or_memory(fault)),
            },
        }
    }

    /// Sends the notices of a flush from `at` on.
    fn send(&mut self, begin: u32, own: OwnTicket<BOARD_ID>, at: u64) -> Result<(), PlayFault>
        requires { at ≤ MAX_TIME }
        ensures same { setting_in self.new ≡ setting_in self.old }
        ensures counted { self.new.count ≡ self.old.count }
        ensures sent { OnOk result (IsSendingAdded (setting_in self.old) at own begin (scene_in self.old) (scene_in self.new)) }
        ensures memory { IfErr result (λ fault. fault ≡ PlayFault.NoMemory) }
    {
        let ticket = own.ticket();
        let receiver = &self.board.config().route_of(ticket.group()).receiver;
        match ends_of::<Brand>(
            self.alloc,
            self.outages,
            receiver,
            self.span.cut,
            ticket,
            at,
        ) {
            Ok(ends) => self.add(Sending { own, begin, ends }, at),
            Err(_) => {
                self.board.finish(own, at);
                Err(PlayFault::NoMemory)
            }
        }
    }

    /// Adds a flush that is in flight. Where memory lacks, it is finished.
    fn add(&mut self, sending: Sending, at: u64) -> Result<(), PlayFault>
        ensures same { setting_in self.new ≡ setting_in self.old }
        ensures counted { self.new.count ≡ self.old.count }
        ensures added { OnOk result (scene_in self.new ≡ with_sending sending (scene_in self.old)) }
        ensures memory { IfErr result (λ fault. fault ≡ PlayFault.NoMemory) }
    {
        match self.sendings.push(sending) {
            Ok(()) => Ok(()),
            Err(sending) => {
                let Sending {
                    own,
                    begin: _,
                    ends: _,
                } = sending;
                self.board.finish(own, at);
                Err(PlayFault::NoMemory)
            }
        }
    }

    /// What ran to its end.
    fn into_played(self) -> Result<Played, AllocError>
        requires { length self.sendings ≡ 0 }
        ensures board { IfOk result (λ played. played.board ≡ self.entry.board.board) }
        ensures events { IfOk result (λ played. played.events.items ≡ self.entry.board.events.items) }
    {
        let Simulation {
            alloc: _,
            seed,
            board,
            outages: _,
            until: _,
            upkeep: _,
            span: _,
            count: _,
            plans: _,
            sendings,
            clock: _,
            next_maintenance: _,
            is_beginning: _,
            is_blocked: _,
        } = self;
        sendings.destroy_empty();
        let (board, begins, events) = board.into_parts()?;
        Ok(Played {
            board,
            begins,
            events,
            seed,
        })
    }

    /// Finishes the open flushes as they are, and gives up.
    fn abandon(mut self) {
        while !self.sendings.is_empty() {
            self.finish(0);
        }
        drop(self.into_played());
    }
}

/// Why a call that isn't planned is refused.
fn full_or_memory(fault: Fault) -> PlayFault
    ensures { result ≡ fault_of_call fault }
{
    match fault {
        Fault::NoMemory => PlayFault::NoMemory,
        _ => PlayFault::Full,
    }
}

impl From<BoardFault> for PlayFault {
    ghost use Rattle.std.specs.Prelude.{◌≡◌};
    ghost use Rattle.am_simulation.specs.Faults.{fault_of_board};

    ghost from_gives = { λ of_board fault. fault ≡ fault_of_board of_board };

    fn from(fault: BoardFault) -> PlayFault {
        match fault {
            BoardFault::NoMemory => PlayFault::NoMemory,
            BoardFault::BadConfig(_) => PlayFault::BadConfig,
        }
    }
}

impl From<AllocError> for PlayFault {
    ghost use Rattle.std.specs.Prelude.{◌≡◌};
    ghost use Rattle.am_simulation.specs.declared.play.PlayFault.TheVariants as play_fault;

    ghost from_gives = { λ _ fault. fault ≡ play_fault.NoMemory };

    fn from(_refused: AllocError) -> PlayFault {
        PlayFault::NoMemory
    }
}
