//! `Board` and its calls. Each hands the board's fields to the module of the call. `note` and
//! `finish` first compare the ticket's id with the board's. The history is in `history`.
ghost use Rattle.std.specs.Prelude.{◌≡◌, ◌≢◌, ◌≤◌, ◌↔◌, None, Some, IfOk, IfErr, OnOk, OnErr, IsErrOf};
ghost use Rattle.std.specs.Option.{option_map};
ghost use Rattle.am_alerts.specs.Fault.{ok_unless};
ghost use Rattle.am_model.specs.Causes.{insert_cause, silence_cause, begin_cause, maintain_cause, removal_cause, forget_cause, load_cause};
ghost use Rattle.am_model.specs.Causes.{note_cause};
ghost use Rattle.am_model.specs.Config.{AreAllowed, config_fault};
ghost use Rattle.am_board.specs.History.{opening, state_at, records_at, IsReplyAt, with_record, reply_of, IsFresh};
ghost use Rattle.am_board.specs.History.{HandsBack, IsForeign, IsNotOpen};
ghost use Rattle.am_model.specs.Records.{entry, call_of_silence, IsNoteOf};
ghost use Rattle.am_model.specs.State.{time, flush_numbered};
ghost use Rattle.am_board.specs.Step.{IsCaused, IsLoadCaused, IsNoteCaused};

use crate::begin::{BeginCall, Begun, take_group};
use crate::config::Config;
use crate::destinations::GroupNameCache;
use crate::fault::{BoardFault, Fault, FinishFault, LoadFault, NoteFault};
use crate::finish::finish_flush;
use crate::flush::find_flush;
use crate::forget::{forget_idle, renew};
use crate::insert::{Arrival, put_alert};
use crate::load::load_row;
use crate::maintain::{remove_empty, sweep};
use crate::note::note_success;
use crate::record::{
    Call, EmptyGroupsRemoved, Finished, Forgotten, Inserted, Loaded, Maintained, Noted, Record,
    Reply, Silenced,
};
use crate::silence::put_silence;
use crate::state::State;
use crate::ticket::Ticket;
use am_alerts::alert::Alert;
use am_ghost::GhostList;
use am_model::views::RowView;
use am_mute::silence::Silence;
use am_mute::sources::Sources;
use am_seed::Seed;
use std::alloc::Global;
use std::marker::Model;

/// A dispatcher of one thread: known alerts, groups, silences, open flushes, the log, the history.
///
/// Contracts see its configuration, its id, its whole history, and how much of that it handed out.
#[derive(Drop)]
pub struct Board {
    pub(crate) config: Config,
    pub(crate) id: u64,
    pub(crate) state: State,
    /// What was learned about the known alerts as inhibition sources. An index.
    pub(crate) sources: Sources,
    /// The names of the known alerts' groups. A cache.
    pub(crate) destinations: GroupNameCache,
    /// The number of records that were handed out.
    pub(crate) handed: usize,
    /// The records that were handed out, in proofs alone.
    pub(crate) past: GhostList<Record>,
}

impl Model for Board {
    ghost use Rattle.std.specs.Coded.{codes};
    ghost use Rattle.std.specs.Prelude.{◌++◌};
    ghost use Rattle.am_alerts.specs.Layout.{forest_code};
    ghost use Rattle.am_board.specs.History.{BoardData};

    ghost Value = { BoardData };

    ghost coded = { Prim.hlevel (codes, forest_code) };

    ghost use Rattle.am_board.specs.Board.{IsSound};

    ghost view = { λ b. record {
      config = b.config;
      id = b.id;
      handed = b.past.items;
      history = b.past.items ++ b.state.history.items;
    } };

    ghost invariant = { IsSound };
}

impl Board {
    /// Returns an empty dispatcher of this configuration, whose tickets carry this id.
    ///
    /// Everybody knows what its hashes start from: whoever chooses labels can make them collide, and
    /// a call then takes time in proportion to all that collide. This will do for tests, and where
    /// whoever chooses labels gains nothing from it. Else use `seeded`.
    ///
    /// # Errors
    ///
    /// `BadConfig` exactly where `Config::check` fails. Never allocates.
    pub fn new(alloc: Global, config: Config, id: u64) -> Result<Board, BoardFault>
        ensures { result ≡ ok_unless (option_map BoardFault.BadConfig (config_fault config)) (opening config id) }
    {
        Board::seeded(alloc, config, id, Seed::fixed())
    }

    /// Returns the dispatcher that `new` returns, whose hashes start from this seed.
    ///
    /// A program draws one at its start (`Seed::draw`). No reply depends on it.
    ///
    /// # Errors
    ///
    /// As `new`. Never allocates.
    pub fn seeded(alloc: Global, config: Config, id: u64, seed: Seed) -> Result<Board, BoardFault>
        ensures { result ≡ ok_unless (option_map BoardFault.BadConfig (config_fault config)) (opening config id) }
    {
        match config.check() {
            Err(fault) => Err(BoardFault::BadConfig(fault)),
            Ok(()) => Ok(Board {
                config,
                id,
                state: State::new(alloc, seed)?,
                sources: Sources::new(alloc, seed),
                destinations: GroupNameCache::new(alloc),
                handed: 0,
                past: GhostList::new(),
            }),
        }
    }

    /// Adds an alert to the known ones and to the groups of its routes, or replaces it there.
    ///
    /// Missing groups are made. `now` is in milliseconds (`dispatch.processAlert`).
    ///
    /// # Errors
    ///
    /// In this order, and each changes nothing:
    /// - `HistoryFull`: the history has no capacity for the record.
    /// - `TooManyAlerts`: the label set is new, and the limit of known alerts is reached.
    /// - `TooManyGroups`: with the missing groups there would be more than the limit.
    /// - `NoMemory`, which can precede `TooManyGroups` while the groups are looked for.
    ///
    /// Cost: constant on average for a known label set; a new one is matched with all routes and
    /// inhibition rules.
    pub fn insert(
        &mut self,
        alloc: Global,
        pass: u32,
        now: u64,
        alert: Alert,
    ) -> Result<Inserted, Fault>
        ensures recorded { IfOk result
            (λ inserted. self.new ≡ with_record self.old (entry pass (Call.Insert now alert) (Reply.Inserted inserted))) }
        ensures reply { IfOk result (λ inserted. IsReplyAt self.old (Call.Insert now alert) (Reply.Inserted inserted)) }
        ensures cause { IsCaused (insert_cause self.old.config (records_at self.old) (state_at self.old) alert) result }
        ensures refused { OnErr result (self.new ≡ self.old) }
    {
        let arrival = Arrival {
            pass,
            time: now,
            alert,
        };
        let inserted = put_alert(
            alloc,
            &self.config,
            &mut self.state,
            &mut self.destinations,
            arrival,
        );
        let rules = self.config.rules.as_slice();
        let known = self.state.known.as_slice();
        // Where memory for it is refused a later insert learns it.
        let _ = self.sources.learn(alloc, rules, known);
        inserted
    }

    /// Adds a silence, or replaces the one with its id. `now` is in milliseconds.
    ///
    /// # Errors
    ///
    /// In this order, and each changes nothing:
    /// - `HistoryFull`: the history has no capacity for the record.
    /// - `TooManySilences`: the id is new, and the limit of silences is reached.
    /// - `NoMemory`.
    pub fn silence(
        &mut self,
        alloc: Global,
        pass: u32,
        now: u64,
        silence: Silence,
    ) -> Result<Silenced, Fault>
        ensures recorded { IfOk result
            (λ silenced. self.new ≡ with_record self.old (entry pass (call_of_silence now silence) (Reply.Silenced silenced))) }
        ensures reply { IfOk result (λ silenced. IsReplyAt self.old (call_of_silence now silence) (Reply.Silenced silenced)) }
        ensures cause { IsCaused (silence_cause self.old.config (records_at self.old) (state_at self.old) silence) result }
        ensures refused { OnErr result (self.new ≡ self.old) }
    {
        put_silence(alloc, &self.config, &mut self.state, pass, now, silence)
    }

    /// Starts a flush of the group that was due first, unless no integration needs an update.
    ///
    /// Among the due groups without an open flush it takes the first by due time, route and group
    /// labels. `now` is in milliseconds (`dispatch.aggrGroup.flush`). It reserves all that the
    /// finish needs.
    ///
    /// # Errors
    ///
    /// In this order, and each changes nothing:
    /// - `HistoryFull`: the history has no capacity for this record and the finish's, also if
    ///   nothing is due.
    /// - `TooManyOpen`: it would open a flush, and the limit of open flushes is reached. The group
    ///   stays due.
    /// - `NoMemory`, which can precede `TooManyOpen` while the log is read.
    ///
    /// Clause `fresh`: the ticket carries the board's id, and has no outcome. Clause `unhindered`: where
    /// the limit of open flushes is that of groups, `TooManyOpen` never comes.
    pub fn begin(&mut self, alloc: Global, pass: u32, now: u64) -> Result<Begun, Fault>
        ensures recorded { IfOk result (λ begun. self.new ≡ with_record self.old (entry pass (Call.Begin now) (reply_of begun))) }
        ensures reply { IfOk result (λ begun. IsReplyAt self.old (Call.Begin now) (reply_of begun)) }
        ensures fresh { IfOk result (IsFresh self.old.id) }
        ensures cause { let s = state_at self.old in IsCaused (begin_cause self.old.config (records_at self.old) s (time s now)) result }
        ensures refused { OnErr result (self.new ≡ self.old) }
        ensures unhindered { self.old.config.limits.groups ≤ self.old.config.limits.flushes
            → IfErr result (λ fault. fault ≢ Fault.TooManyOpen) }
    {
        let call = BeginCall {
            id: self.id,
            pass,
            now,
        };
        take_group(alloc, &self.config, &mut self.state, &self.sources, call)
    }

    /// Logs the success of the notice at `index` of a ticket, before its flush is finished.
    ///
    /// `now` is in milliseconds (`notify.SetNotifiesStage`).
    ///
    /// # Errors
    ///
    /// In this order, and each changes nothing:
    /// - `Foreign`: the ticket carries another board's id.
    /// - `NotOpen`: no open flush has the ticket's number.
    /// - `NotReady`: no such notice, its integration wasn't notified, or it isn't reported
    ///   delivered.
    /// - `Already`: it was noted before.
    /// - `HistoryFull`, then `NoMemory`, for the record.
    pub fn note(
        &mut self,
        _alloc: Global,
        pass: u32,
        ticket: &Ticket,
        index: usize,
        now: u64,
    ) -> Result<Noted, NoteFault>
        ensures noted { OnOk result
            ((r : Record) × IsNoteOf pass now ticket.now index r × (self.new ≡ with_record self.old r)
            × IsReplyAt self.old r.call r.reply) }
        ensures cause { IsNoteCaused
            (note_cause self.old.config self.old.id (records_at self.old) (state_at self.old) ticket.now index) result }
        ensures refused { OnErr result (self.new ≡ self.old) }
        ensures foreign { IsErrOf result NoteFault.Foreign ↔ (ticket.now.board_id ≢ self.old.id) }
    {
        if ticket.board_id() != self.id {
            return Err(NoteFault::Foreign);
        }
        note_success(&self.config, &mut self.state, pass, ticket, index, now)
    }

    /// Ends a flush: logs each success that wasn't noted, and removes resolved alerts.
    ///
    /// Those that were resolved at the begin leave, if every notified integration succeeded.
    /// Exception: an alert that was inserted again since stays. `now` is in milliseconds. Never
    /// allocates.
    ///
    /// # Errors
    ///
    /// In this order, and each changes nothing of the board:
    /// - `Foreign`: the ticket carries another board's id. Clause `handed_back`: the ticket comes
    ///   back.
    /// - `NotOpen`: no open flush has the ticket's number. The ticket is spent.
    pub fn finish(&mut self, pass: u32, ticket: Ticket, now: u64) -> Result<Finished, FinishFault>
        ensures recorded { IfOk result (λ finished.
            self.new ≡ with_record self.old (entry pass (Call.Finish now ticket.number ticket.outcomes) (Reply.Finished finished))) }
        ensures reply { IfOk result
            (λ finished. IsReplyAt self.old (Call.Finish now ticket.number ticket.outcomes) (Reply.Finished finished)) }
        ensures foreign { IsForeign result ↔ (ticket.board_id ≢ self.old.id) }
        ensures not_open { IsNotOpen result
            ↔ ((ticket.board_id ≡ self.old.id) × (flush_numbered (state_at self.old).flushes ticket.number ≡ None)) }
        ensures refused { OnErr result (self.new ≡ self.old) }
        ensures handed_back { IfErr result (HandsBack ticket) }
    {
        if self.id != ticket.board_id() {
            return Err(FinishFault::Foreign(ticket));
        }
        let Ticket {
            board_id: _,
            number,
            group: _,
            deadline: _,
            notices: _,
            outcomes,
        } = ticket;
        let Some(f) = find_flush(&self.state.flushes, number) else {
            return Err(FinishFault::NotOpen);
        };
        Ok(finish_flush(&mut self.state, pass, f, outcomes, now))
    }

    /// Removes the groups without alerts and the expired log rows.
    ///
    /// A row has expired if its expiry is at or before `now` (milliseconds). A maintenance also
    /// rebuilds the set of due times, if a group went or the set is incomplete.
    ///
    /// # Errors
    ///
    /// In this order, and each changes nothing: `HistoryFull`, then `NoMemory` for the record.
    pub fn maintain(&mut self, _alloc: Global, pass: u32, now: u64) -> Result<Maintained, Fault>
        ensures recorded { IfOk result
            (λ maintained. self.new ≡ with_record self.old (entry pass (Call.Maintain now) (Reply.Maintained maintained))) }
        ensures reply { IfOk result (λ maintained. IsReplyAt self.old (Call.Maintain now) (Reply.Maintained maintained)) }
        ensures cause { IsCaused (maintain_cause self.old.config (records_at self.old) (state_at self.old)) result }
        ensures refused { OnErr result (self.new ≡ self.old) }
    {
        sweep(&self.config, &mut self.state, pass, now)
    }

    /// Removes the groups without alerts, and nothing else: the log rows stay.
    ///
    /// An alert that comes for a removed group makes it anew, and it waits for its `group_wait`. A
    /// group that is still there waits for its next flush instead. Alertmanager's dispatcher removes
    /// such groups every 30 seconds. [`Board::has_empty_groups`] says whether there are any. It also
    /// rebuilds the set of due times, as a maintenance does.
    ///
    /// # Errors
    ///
    /// In this order, and each changes nothing: `HistoryFull`, then `NoMemory` for the record.
    pub fn remove_empty_groups(
        &mut self,
        _alloc: Global,
        pass: u32,
        now: u64,
    ) -> Result<EmptyGroupsRemoved, Fault>
        ensures recorded { IfOk result
            (λ removed. self.new ≡ with_record self.old (entry pass (Call.RemoveEmptyGroups now) (Reply.EmptyGroupsRemoved removed))) }
        ensures reply { IfOk result (λ removed. IsReplyAt self.old (Call.RemoveEmptyGroups now) (Reply.EmptyGroupsRemoved removed)) }
        ensures cause { IsCaused (removal_cause self.old.config (records_at self.old) (state_at self.old)) result }
        ensures refused { OnErr result (self.new ≡ self.old) }
    {
        remove_empty(&self.config, &mut self.state, pass, now)
    }

    /// Forgets the known alerts that are resolved and in no group, and the silences that are over.
    ///
    /// An alert is resolved if its end is at or before `now` (milliseconds), a silence is over if
    /// its end is. Until they are forgotten both count for the limits of names and of silences, so a
    /// program that runs for long calls this now and then (Alertmanager's GC of alerts and of
    /// silences). A resolved alert still counts while it is in a group, as where a notification of
    /// that group fails.
    ///
    /// A forgotten label set that is inserted again counts as a new one for the limit. Its groups
    /// are as they were, with their due times and log rows. A silence that is set again under a
    /// forgotten id isn't `replaced`.
    ///
    /// # Errors
    ///
    /// In this order, and each changes nothing: `HistoryFull`, then `NoMemory`.
    ///
    /// Cost: one look-up for each alert of a group, and two for each resolved one that is known.
    /// Where an alert went, all that are left are matched anew with the sources of the inhibition
    /// rules. Cached group names stay.
    pub fn forget(&mut self, alloc: Global, pass: u32, now: u64) -> Result<Forgotten, Fault>
        ensures recorded { IfOk result
            (λ forgotten. self.new ≡ with_record self.old (entry pass (Call.Forget now) (Reply.Forgotten forgotten))) }
        ensures reply { IfOk result (λ forgotten. IsReplyAt self.old (Call.Forget now) (Reply.Forgotten forgotten)) }
        ensures cause { IsCaused (forget_cause self.old.config (records_at self.old) (state_at self.old)) result }
        ensures refused { OnErr result (self.new ≡ self.old) }
    {
        let forgotten = forget_idle(
            alloc,
            &self.config,
            &mut self.state,
            &mut self.destinations,
            pass,
            now,
        )?;
        renew(
            alloc,
            &self.config,
            self.state.known.as_slice(),
            forgotten.alerts,
            &mut self.sources,
        );
        Ok(forgotten)
    }

    /// Takes over a row that another board's log had, as `rows` returns it (`nflog.Log.Merge`).
    ///
    /// It is put into the log, unless its expiry is before `now` (milliseconds), or the log has a row
    /// for its group and integration of the same time or a later one; the reply says which. From
    /// then on it counts as a row of this board's own. `carry::carried` returns the rows to load
    /// for those of a board with another configuration.
    ///
    /// # Errors
    ///
    /// In this order, and each changes nothing:
    /// - `NoIntegration`: no route has the row's position, or its receiver has no such integration.
    /// - `Unordered`: the row's label sets aren't in ascending order, each once.
    /// - `Ahead`: the row's time is after the call's.
    /// - `HistoryFull`: the history has no capacity for the record.
    /// - `NoMemory`.
    ///
    /// A row that `rows` of a board returned has none of the first three under that board's
    /// configuration, nor has one that `carried` returned for it under the new configuration, if
    /// `now` isn't before the last call of that board (`am_model::law::rows_may_be_loaded`).
    pub fn load(
        &mut self,
        alloc: Global,
        pass: u32,
        row: RowView,
        now: u64,
    ) -> Result<Loaded, LoadFault>
        ensures recorded { IfOk result
            (λ loaded. self.new ≡ with_record self.old (entry pass (Call.Load now row) (Reply.Loaded loaded))) }
        ensures reply { IfOk result (λ loaded. IsReplyAt self.old (Call.Load now row) (Reply.Loaded loaded)) }
        ensures cause { IsLoadCaused
            (load_cause self.old.config (records_at self.old) (state_at self.old) (time (state_at self.old) now) row) result }
        ensures refused { OnErr result (self.new ≡ self.old) }
    {
        load_row(alloc, &self.config, &mut self.state, pass, now, row)
    }

    /// Returns the configuration, which `Config::check` accepts.
    pub fn config(&self) -> &Config
        ensures config { result.now ≡ self.now.config }
        ensures limits { AreAllowed self.now.config.limits }
        ensures faultless { config_fault self.now.config ≡ None }
    {
        &self.config
    }

    /// Returns the id that the board's tickets carry.
    pub fn id(&self) -> u64
        ensures { result ≡ self.now.id }
    {
        self.id
    }
}
