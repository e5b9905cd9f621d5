//! A board that keeps what each of its begins was to do, and what happened.
//!
//! `PreviewingBoard` begins with a preview. By its invariant the previews are those
//! that the definitions give for its history (`Previews`). Each of these begins is once among the
//! events, in order (`EventOrder`). Its board hands nothing out, so it keeps its whole history.
ghost use Rattle.std.specs.Prelude.{◌≡◌, ◌≤◌, ◌+◌, ◌++◌, ◌∷◌, ◌⊎◌, [], Some, None, IfOk, IfErr, OnOk, OnErr, length, vec_len, vec_capacity};
ghost use Rattle.std.specs.List.{list_any, range_with_len};
ghost use Rattle.std.specs.Option.{option_map};
ghost use Rattle.am_board.specs.History.{records_at, opening, reply_of, state_at, IsFresh};
ghost use Rattle.am_board.specs.Step.{IsCaused, IsLoadCaused};
ghost use Rattle.am_model.specs.Begin.{next_due};
ghost use Rattle.am_model.specs.Causes.{insert_cause, load_cause, maintain_cause, removal_cause, silence_cause};
ghost use Rattle.am_model.specs.Config.{config_fault};
ghost use Rattle.am_model.specs.Maintenance.{has_no_alerts};
ghost use Rattle.am_model.specs.Records.{call_of_silence};
ghost use Rattle.am_model.specs.State.{time};
ghost use Rattle.am_model.specs.declared.record.Call.TheVariants as call;
ghost use Rattle.am_simulation.specs.Acting.{IsActed};
ghost use Rattle.am_simulation.specs.EventOrder.{begin_indices};
ghost use Rattle.am_simulation.specs.Planned.{call_of, input_trace, no_inputs, refuses, with_inputs};
ghost use Rattle.am_simulation.specs.PreviewLog.{IsReady};
ghost use Rattle.am_simulation.specs.Previews.{takes_group, previews_of, preview_where};
ghost use Rattle.am_simulation.specs.Steps.{with_call, with_note};
ghost use Rattle.am_simulation.specs.Taking.{begun_where, cause_of_none, IsOwn, IsTaken};
ghost use Rattle.am_terms.specs.declared.event.Event.TheVariants.{Sent};
ghost use Rattle.am_simulation.specs.declared.limits.TheConstants.{BOARD_ID};

use crate::acting::ActFault;
use crate::limits::BOARD_ID;
use crate::preview_log::PreviewLog;
use crate::taken::Taken;
use am_alerts::alert::Alert;
use am_board::begin::Begun;
use am_board::board::Board;
use am_board::config::Config;
use am_board::fault::{BoardFault, Fault, LoadFault, NoteFault};
use am_board::notice::Report;
use am_board::own_ticket::OwnTicket;
use am_board::preview::Preview;
use am_board::views::RowView;
use am_model::boxed::Boxed;
use am_mute::silence::Silence;
use am_seed::Seed;
use am_terms::event::{Event, PreviewedBegin};
use am_terms::rehearsal::Action;
use std::alloc::{AllocError, Global};

/// The pass of each call: there is one thread.
const PASS: u32 = 0;

/// A board, what each of its begins that took a group was to do, and what happened.
#[derive(Drop)]
pub(crate) struct PreviewingBoard {
    board: Board,
    begins: PreviewLog,
    events: Vec<Event>,
    ghost ours: { board.id ≡ BOARD_ID },
    ghost whole: { board.handed ≡ [] },
    ghost previews: { begins.items ≡ previews_of board.config board.history },
    ghost begun: { begin_indices events.items ≡ range_with_len 0 (length begins.items) },
}

impl PreviewingBoard {
    /// A board of this configuration, with nothing in it.
    pub(crate) fn new(
        alloc: Global,
        seed: Seed,
        config: Config,
    ) -> Result<PreviewingBoard, BoardFault>
        ensures input_trace { IfOk result (λ opened. input_trace opened.board ≡ no_inputs config) }
        ensures board { IfOk result (λ opened. opened.board ≡ opening config BOARD_ID) }
        ensures events { IfOk result (λ opened. opened.events.items ≡ []) }
        ensures faultless { OnOk result (config_fault config ≡ None) }
        ensures refused { IfErr result (λ fault. option_map BoardFault.BadConfig (config_fault config) ≡ Some fault) }
    {
        let board = Board::seeded(alloc, config, BOARD_ID, seed)?;
        Ok(PreviewingBoard {
            board,
            begins: PreviewLog::new(alloc, seed),
            events: Vec::new(alloc),
        })
    }

    /// The board, what its begins were to do, and what happened.
    pub(crate) fn into_parts(self) -> Result<(Board, Vec<PreviewedBegin>, Vec<Event>), AllocError>
        ensures board { IfOk result (λ parts. parts.0 ≡ self.board) }
        ensures ours { IfOk result (λ parts. parts.0.id ≡ BOARD_ID) }
        ensures whole { IfOk result (λ parts. parts.0.handed ≡ []) }
        ensures previews { IfOk result (λ parts. parts.1.items ≡ previews_of parts.0.config parts.0.history) }
        ensures begun { IfOk result (λ parts. begin_indices parts.2.items ≡ range_with_len 0 (vec_len parts.1)) }
        ensures events { IfOk result (λ parts. parts.2.items ≡ self.events.items) }
    {
        let PreviewingBoard {
            board,
            begins,
            events,
        } = self;
        match begins.into_vec() {
            Ok(begins) => Ok((board, begins, events)),
            Err(refused) => {
                drop(board);
                Err(refused)
            }
        }
    }

    pub(crate) fn config(&self) -> &Config
        ensures { result.now ≡ self.now.board.config }
    {
        self.board.config()
    }

    /// How many begins took a group.
    pub(crate) fn taken(&self) -> u32
        ensures { result ≡ length (begin_indices self.now.events.items) }
    {
        self.begins.len()
    }

    /// When the next group is due that has no open flush, in milliseconds.
    pub(crate) fn next_due(&self) -> Option<u64>
        ensures { result ≡ next_due (state_at self.now.board) }
    {
        self.board.next_due()
    }

    /// Does what is planned.
    pub(crate) fn act(&mut self, alloc: Global, now: u64, act: Action) -> Result<(), ActFault>
        ensures called { IfOk result (λ _. self.new.board ≡ with_call self.old.board (call_of now act)) }
        ensures events { self.new.events ≡ self.old.events }
        ensures cause { IsActed (refuses self.old.board now act) result }
    {
        match act {
            Action::Insert(alert) => self.insert(alloc, now, alert)?,
            Action::Silence(silence) => self.silence(alloc, now, silence)?,
            Action::Load(row) => self.load(alloc, now, row)?,
        }
        Ok(())
    }

    pub(crate) fn insert(&mut self, alloc: Global, now: u64, alert: Alert) -> Result<(), Fault>
        ensures input_trace { IfOk result (λ _.
            input_trace self.new.board ≡ with_inputs (input_trace self.old.board) (call.Insert now alert ∷ [])) }
        ensures called { IfOk result (λ _. self.new.board ≡ with_call self.old.board (call.Insert now alert)) }
        ensures events { self.new.events ≡ self.old.events }
        ensures cause { IsCaused
            (insert_cause self.old.board.config (records_at self.old.board) (state_at self.old.board) alert) result }
    {
        let _inserted = self.board.insert(alloc, PASS, now, alert)?;
        Ok(())
    }

    pub(crate) fn silence(&mut self, alloc: Global, now: u64, silence: Silence) -> Result<(), Fault>
        ensures input_trace { IfOk result (λ _.
            input_trace self.new.board ≡ with_inputs (input_trace self.old.board) (call_of_silence now silence ∷ [])) }
        ensures called { IfOk result (λ _. self.new.board ≡ with_call self.old.board (call_of_silence now silence)) }
        ensures events { self.new.events ≡ self.old.events }
        ensures cause { IsCaused
            (silence_cause self.old.board.config (records_at self.old.board) (state_at self.old.board) silence) result }
    {
        let _silenced = self.board.silence(alloc, PASS, now, silence)?;
        Ok(())
    }

    pub(crate) fn load(&mut self, alloc: Global, now: u64, row: RowView) -> Result<(), LoadFault>
        ensures input_trace { IfOk result (λ _.
            input_trace self.new.board ≡ with_inputs (input_trace self.old.board) (call.Load now row ∷ [])) }
        ensures called { IfOk result (λ _. self.new.board ≡ with_call self.old.board (call.Load now row)) }
        ensures events { self.new.events ≡ self.old.events }
        ensures cause { IsLoadCaused
            (load_cause self.old.board.config (records_at self.old.board) (state_at self.old.board)
            (time (state_at self.old.board) now) row) result }
    {
        let _loaded = self.board.load(alloc, PASS, row, now)?;
        Ok(())
    }

    pub(crate) fn maintain(&mut self, alloc: Global, now: u64) -> Result<(), Fault>
        ensures input_trace { input_trace self.new.board ≡ input_trace self.old.board }
        ensures called { IfOk result (λ _. self.new.board ≡ with_call self.old.board (call.Maintain now)) }
        ensures events { self.new.events ≡ self.old.events }
        ensures cause { IsCaused
            (maintain_cause self.old.board.config (records_at self.old.board) (state_at self.old.board)) result }
    {
        let _maintained = self.board.maintain(alloc, PASS, now)?;
        Ok(())
    }

    pub(crate) fn remove_empty_groups(&mut self, alloc: Global, now: u64) -> Result<(), Fault>
        ensures input_trace { input_trace self.new.board ≡ input_trace self.old.board }
        ensures called { IfOk result (λ _. self.new.board ≡ with_call self.old.board (call.RemoveEmptyGroups now)) }
        ensures events { self.new.events ≡ self.old.events }
        ensures cause { IsCaused
            (removal_cause self.old.board.config (records_at self.old.board) (state_at self.old.board)) result }
    {
        let _removed = self.board.remove_empty_groups(alloc, PASS, now)?;
        Ok(())
    }

    /// Returns whether some group has no alerts.
    pub(crate) fn has_empty_groups(&self) -> bool
        ensures { result ≡ list_any has_no_alerts (state_at self.now.board).groups }
    {
        self.board.has_empty_groups()
    }

    /// Keeps that the sending of a notice came to its end, whose flush was opened by the begin at this
    /// index among those that took a group.
    pub(crate) fn keep_sent(
        &mut self,
        alloc: Global,
        begin: u32,
        report: Report,
    ) -> Result<(), AllocError>
        ensures input_trace { input_trace self.new.board ≡ input_trace self.old.board }
        ensures board { self.new.board ≡ self.old.board }
        ensures events { IfOk result (λ _. self.new.events.items ≡ self.old.events.items ++ Sent begin report ∷ []) }
    {
        let boxed = Boxed::new(alloc, report)?;
        self.events.reserve(1)?;
        self.events.push_reserved(Event::Sent {
            begin,
            report: boxed,
        });
        Ok(())
    }

    /// Logs the success of the notice at an index of a ticket, if the board takes the note.
    pub(crate) fn note(
        &mut self,
        alloc: Global,
        own: &OwnTicket<BOARD_ID>,
        index: usize,
        now: u64,
    ) -> Result<(), AllocError>
        ensures input_trace { input_trace self.new.board ≡ input_trace self.old.board }
        ensures noted { OnOk result (self.new.board ≡ with_note now own.now index self.old.board) }
        ensures events { self.new.events ≡ self.old.events }
    {
        match self.board.note(alloc, PASS, own.ticket(), index, now) {
            Ok(_noted) => Ok(()),
            Err(NoteFault::NoMemory) => Err(AllocError),
            Err(_) => Ok(()),
        }
    }

    /// Finishes a flush. Does nothing if it isn't open.
    pub(crate) fn finish(&mut self, own: OwnTicket<BOARD_ID>, now: u64)
        ensures input_trace { input_trace self.new.board ≡ input_trace self.old.board }
        ensures called { self.new.board ≡ with_call self.old.board (call.Finish now own.number own.outcomes) }
        ensures events { self.new.events ≡ self.old.events }
    {
        match self.board.finish_own(PASS, own, now) {
            Ok(_finished) => {}
            Err(_not_open) => {}
        }
    }

    /// Takes the group that is due first, and keeps what is to be done with it.
    pub(crate) fn begin(&mut self, alloc: Global, now: u64) -> Result<Taken, Fault>
        ensures input_trace { input_trace self.new.board ≡ input_trace self.old.board }
        ensures taken { IfOk result (IsTaken self.old.board self.old.events.items now self.new.board self.new.events.items) }
        ensures cause { IfErr result (λ fault. (fault ≡ Fault.NoMemory) ⊎ (cause_of_none self.old.board now ≡ Some fault)) }
        ensures refused { OnErr result (self.new.board ≡ self.old.board) }
        ensures events { OnErr result (self.new.events.items ≡ self.old.events.items) }
    {
        self.begins.make_ready()?;
        self.events.reserve(1)?;
        let index = self.board.history().len();
        let both = match self.board.begin_previewed(alloc, PASS, now) {
            Ok(both) => both,
            Err(fault) => return Err(fault),
        };
        let (begun, preview) = both;
        push_shown(&mut self.begins, &mut self.events, index, preview, &begun);
        Ok(own(begun))
    }
}

/// What a begin of the board came to.
fn own(begun: Begun) -> Taken
    requires { IsFresh BOARD_ID begun }
    ensures { IsOwn begun result }
{
    match begun {
        Begun::NothingDue => Taken::Nothing,
        Begun::Quiet {
            group: _,
            removed: _,
        } => Taken::Quiet,
        Begun::Flush(ticket) => Taken::Flush(OwnTicket::new(ticket)),
    }
}

/// Adds what a begin was to do whose record is at this index, and that it was made, if it took a
/// group.
fn push_shown(
    begins: &mut PreviewLog,
    events: &mut Vec<Event>,
    index: usize,
    preview: Option<Preview>,
    begun: &Begun,
)
    requires space { IsReady begins.old }
    requires events_space { vec_len events.old + 1 ≤ vec_capacity events.old }
    requires begun { begin_indices events.old.items ≡ range_with_len 0 (length begins.old.items) }
    ensures previews { begins.new.items ≡ begins.old.items ++ preview_where (takes_group (reply_of begun.now)) index preview }
    ensures begun { begin_indices events.new.items ≡ range_with_len 0 (length begins.new.items) }
    ensures events { events.new.items
        ≡ events.old.items ++ begun_where preview (takes_group (reply_of begun.now)) (length begins.old.items) }
{
    match (begun, preview) {
        (Begun::NothingDue, _) | (_, None) => {}
        (_, Some(preview)) => {
            events.push_reserved(Event::Begun {
                begin: begins.len(),
            });
            begins.push(index, preview);
        }
    }
}
