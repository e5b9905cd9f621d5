//! What a session does with what a line asks: the calls of its board, and the answers.
ghost use Rattle.std.specs.Prelude.{◌≡◌, ◌≢◌, ◌<◌, ◌++◌, [], ◌∷◌, codes, IfErr, IfOk, IsOk, IsSome, Ok, OnOk, Some, option_copied};
ghost use Rattle.std.specs.VecDeque.{deque_capacity, deque_len};
ghost use Rattle.json.specs.Print.{print};
ghost use Rattle.am_model.specs.Begin.{next_due};
ghost use Rattle.am_model.specs.Records.{call_of_silence};
ghost use Rattle.am_model.specs.Replay.{IsLegal};
ghost use Rattle.am_model.specs.Status.{label_status};
ghost use Rattle.am_model.specs.Views.{group_views, row_views};
ghost use Rattle.am_model.specs.look_back.Preview.{preview};
ghost use Rattle.am_board.specs.History.{IsFresh, kept_of, opening, reply_of, state_at};
ghost use Rattle.am_protocol.specs.Begun.{begun_flush, begun_tokens};
ghost use Rattle.am_protocol.specs.Check.{checked_tokens};
ghost use Rattle.am_protocol.specs.Lines.{IsOneLine};
ghost use Rattle.am_protocol.specs.Logged.{finished_tokens, noted_tokens};
ghost use Rattle.am_protocol.specs.Reply.{reply_tokens};
ghost use Rattle.am_protocol.specs.Status.{status_tokens};
ghost use Rattle.am_protocol.specs.View.{due_tokens, group_view_tokens, listed, outlook_tokens, row_tokens};
ghost use Rattle.am_session.specs.Refusal.{IsCauseOfUnopened};
ghost use Rattle.am_session.specs.Session.{Begins, Does, Finishes, KeepsTicket, Leaves};
ghost use Rattle.am_session.specs.Session.{Loads, Makes, Notes, Opens, Reports, Takes};
ghost use Rattle.am_session.specs.Session.{AnswersSummary, InsertsAll, InsertsOne, taken_tokens};
ghost use Rattle.am_session.specs.Ticket.{ticket_tokens};
ghost use Rattle.am_session.specs.declared.ticket.TheConstants.{BOARD_ID};

use crate::route_names::RouteNames;
use crate::row::row_of;
use crate::session::Session;
use crate::ticket::{BOARD_ID, find_notice, find_ticket, record_at, rises_with, write_tickets};
use am_alerts::labels::Labels;
use am_board::begin::Begun;
use am_board::board::Board;
use am_board::config::Config;
use am_board::fault::{BoardFault, LoadFault, NoteFault, TakeFault};
use am_board::own_ticket::OwnTicket;
use am_board::record::{Call, Finished, Record, Reply};
use am_board::ticket::Ticket;
use am_model::preview::Preview;
use am_model::views::RowView;
use am_protocol::answer::Answer;
use am_protocol::begun::{put_why, write_quiet};
use am_protocol::check::{LinePart, write_checked};
use am_protocol::fault::LineFault;
use am_protocol::inserts::InsertEnd;
use am_protocol::logged::{write_finished, write_noted};
use am_protocol::opening::Opening;
use am_protocol::reply::{begin, end, put_flush, write_named, write_opened, write_reply};
use am_protocol::request::{
    Finishing, Insertion, ListedInsert, Loading, Noting, Reporting, Request, Silencing,
};
use am_protocol::status::write_status;
use am_protocol::view::{write_due, write_list, write_outlook, write_summary};
use am_seed::Seed;
use std::alloc::{AllocError, Global};
use std::collections::VecDeque;
use std::mem::replace;

/// The pass of each call: one process makes them all.
const PASS: u32 = 0;

impl Session {
    /// Returns a session whose board has this configuration. Hashes start from this seed.
    pub fn open(alloc: Global, seed: Seed, config: Config) -> Result<Session, LineFault>
        ensures board { IfOk result (λ session. session.board ≡ opening config BOARD_ID) }
        ensures tickets { IfOk result (λ session. session.tickets.items ≡ []) }
        ensures refused { IfErr result (IsCauseOfUnopened config) }
    {
        let board = open_board(alloc, seed, config)?;
        let names = RouteNames::of(alloc, seed, &board.config().routes)?;
        Ok(Session {
            board,
            tickets: VecDeque::new(alloc),
            is_rising: true,
            names,
            seed,
        })
    }

    /// Does what a line asks, and writes the answer. For the history there is `take_history`.
    pub fn answer(
        &mut self,
        alloc: Global,
        request: Request,
        answer: &mut Answer,
    ) -> Result<(), LineFault>
        requires { request ≢ Request.TakeHistory }
        ensures answered { OnOk result (Does self.old request self.new answer.old answer.new) }
        ensures refused { IfErr result (Leaves self.old request self.new) }
    {
        match request {
            Request::Open(opening) => self.reopen(alloc, opening, answer),
            Request::Insert(insertion) => self.insert(alloc, insertion, answer),
            Request::Inserts(inserts) => self.insert_all(alloc, inserts, answer),
            Request::Silence(silencing) => self.silence(alloc, silencing, answer),
            Request::Begin(timed) => self.begin(alloc, timed.now, answer),
            Request::Report(reporting) => self.report(reporting, answer),
            Request::Note(noting) => self.note(alloc, noting, answer),
            Request::Finish(finishing) => self.finish(alloc, finishing, answer),
            Request::Maintain(timed) => self.maintain(alloc, timed.now, answer),
            Request::RemoveEmptyGroups(timed) => self.remove_empty_groups(alloc, timed.now, answer),
            Request::Forget(timed) => self.forget(alloc, timed.now, answer),
            Request::Load(loading) => self.load(alloc, loading, answer),
            Request::NextDue => self.show_due(answer),
            Request::Outlook(timed) => self.show_outlook(alloc, timed.now, answer),
            Request::Status(asked) => self.show_status(alloc, &asked.labels, asked.now, answer),
            Request::Rows => self.show_rows(alloc, answer),
            Request::Groups => self.show_groups(alloc, answer),
            Request::Summary => self.show_summary(answer),
            Request::Tickets => self.show_tickets(answer),
            Request::TakeHistory => unreachable!(),
            Request::Check(part) => show_checked(&part, answer),
        }
    }

    /// Finishes the open flushes with what was reported, and has a new board in the place of the old one.
    fn reopen(
        &mut self,
        alloc: Global,
        requested: Opening,
        answer: &mut Answer,
    ) -> Result<(), LineFault>
        ensures answered { OnOk result (Opens self.new requested answer.old answer.new) }
        ensures refused { IfErr result (Leaves self.old (Request.Open requested) self.new) }
    {
        let Opening { config, ignored } = requested;
        let board = open_board(alloc, self.seed, config)?;
        let names = RouteNames::of(alloc, self.seed, &board.config().routes)?;
        let open = replace(&mut self.tickets, VecDeque::new(alloc));
        self.is_rising = true;
        finish_all(&mut self.board, open);
        put(&mut self.board, board);
        self.names = names;
        answered(write_opened(self.board.config(), &ignored, answer))
    }

    fn insert(
        &mut self,
        alloc: Global,
        insertion: Insertion,
        answer: &mut Answer,
    ) -> Result<(), LineFault>
        ensures answered { OnOk result
            (Makes self.old self.new (Call.Insert insertion.now insertion.alert) answer.old answer.new) }
        ensures tickets { self.new.tickets.items ≡ self.old.tickets.items }
        ensures refused { IfErr result (Leaves self.old (Request.Insert insertion) self.new) }
    {
        let Insertion { now, alert } = insertion;
        match self.board.insert(alloc, PASS, now, alert) {
            Ok(inserted) => self.answer_with(&Reply::Inserted(inserted), answer),
            Err(fault) => Err(LineFault::of_board("/insert", fault)),
        }
    }

    /// Makes several inserts, in their order, and answers all. Memory for what became of each comes before the first.
    fn insert_all(
        &mut self,
        alloc: Global,
        inserts: Vec<ListedInsert>,
        answer: &mut Answer,
    ) -> Result<(), LineFault>
        ensures answered { OnOk result (InsertsAll self.old inserts.items self.new answer.old answer.new) }
        ensures refused { IfErr result (Leaves self.old (Request.Inserts inserts) self.new) }
    {
        let mut ends = Vec::with_capacity(alloc, inserts.len())?;
        for insert in inserts {
            let end = self.insert_listed(alloc, insert);
            ends.push_reserved(end);
        }
        answered(write_list(self.board.config(), "inserts", ends.as_slice(), answer))
    }

    /// Makes one of several inserts. One that is refused changes nothing.
    fn insert_listed(&mut self, alloc: Global, insert: ListedInsert) -> InsertEnd
        ensures { InsertsOne self.old insert result self.new }
    {
        match insert {
            ListedInsert::Refused(fault) => InsertEnd::Refused(LineFault::from(fault)),
            ListedInsert::Read(Insertion { now, alert }) => match self
                .board
                .insert(alloc, PASS, now, alert)
            {
                Ok(inserted) => InsertEnd::Made(inserted),
                Err(fault) => InsertEnd::Refused(LineFault::of_board("/inserts", fault)),
            },
        }
    }

    fn silence(
        &mut self,
        alloc: Global,
        silencing: Silencing,
        answer: &mut Answer,
    ) -> Result<(), LineFault>
        ensures answered { OnOk result
            (Makes self.old self.new (call_of_silence silencing.now silencing.silence) answer.old answer.new) }
        ensures tickets { self.new.tickets.items ≡ self.old.tickets.items }
        ensures refused { IfErr result (Leaves self.old (Request.Silence silencing) self.new) }
    {
        let Silencing { now, silence } = silencing;
        match self.board.silence(alloc, PASS, now, silence) {
            Ok(silenced) => self.answer_with(&Reply::Silenced(silenced), answer),
            Err(fault) => Err(LineFault::of_board("/silence", fault)),
        }
    }

    fn begin(&mut self, alloc: Global, now: u64, answer: &mut Answer) -> Result<(), LineFault>
        ensures answered { OnOk result (Begins self.old self.new now answer.old answer.new) }
        ensures refused { IfErr result (Leaves self.old (Request.Begin (record { now = now })) self.new) }
    {
        // (the memory for a ticket comes before the ticket)
        self.tickets.reserve(1)?;
        match self.board.begin_previewed(alloc, PASS, now) {
            Ok((begun, preview)) => self.keep(begun, preview, answer),
            Err(fault) => Err(LineFault::of_board("/begin", fault)),
        }
    }

    /// Writes the answer to a begin, and keeps its ticket where it has one.
    fn keep(
        &mut self,
        begun: Begun,
        preview: Option<Preview>,
        answer: &mut Answer,
    ) -> Result<(), LineFault>
        requires fresh { IsFresh BOARD_ID begun }
        requires space { deque_len self.old.tickets < deque_capacity self.old.tickets }
        ensures answered { OnOk result (answer.new ≡ answer.old ++ begun_tokens self.old.board.config (reply_of begun) preview) }
        ensures untold { IfErr result (λ fault. fault ≡ LineFault.Untold) }
        ensures board { self.new.board ≡ self.old.board }
        ensures tickets { KeepsTicket begun self.old.tickets.items self.new.tickets.items }
    {
        match begun {
            Begun::NothingDue => self.answer_with(&Reply::NothingDue, answer),
            Begun::Quiet { group, removed } => {
                let preview = preview.as_ref();
                answered(write_quiet(self.board.config(), &group, removed, preview, answer))
            }
            Begun::Flush(ticket) => self.keep_ticket(ticket, preview.as_ref(), answer),
        }
    }

    /// Keeps the ticket of a flush that was begun, and writes the answer.
    fn keep_ticket(
        &mut self,
        ticket: Ticket,
        preview: Option<&Preview>,
        answer: &mut Answer,
    ) -> Result<(), LineFault>
        requires ours { ticket.board_id ≡ BOARD_ID }
        requires space { deque_len self.old.tickets < deque_capacity self.old.tickets }
        ensures answered { OnOk result (answer.new ≡ answer.old
            ++ begun_flush self.old.board.config ticket.number ticket.group ticket.deadline ticket.notices
            (option_copied preview.entry)) }
        ensures untold { IfErr result (λ fault. fault ≡ LineFault.Untold) }
        ensures board { self.new.board ≡ self.old.board }
        ensures tickets { self.new.tickets.items ≡ self.old.tickets.items ++ ticket ∷ [] }
    {
        let written = write_begun(self.board.config(), &ticket, preview, answer);
        self.is_rising = self.is_rising && rises_with(&self.tickets, ticket.number());
        self.tickets.push_back_reserved(OwnTicket::new(ticket));
        answered(written)
    }

    fn report(&mut self, reporting: Reporting, answer: &mut Answer) -> Result<(), LineFault>
        ensures answered { OnOk result (Reports self.old self.new reporting answer.old answer.new) }
        ensures board { self.new.board ≡ self.old.board }
        ensures refused { IfErr result (Leaves self.old (Request.Report reporting) self.new) }
    {
        let Some(index) = find_ticket(&self.tickets, self.is_rising, reporting.ticket) else {
            return Err(LineFault::not_open("/report/ticket"));
        };
        match record_at(
            &mut self.tickets,
            index,
            reporting.integration,
            reporting.outcome,
        ) {
            Ok(()) => answered(write_named("reported", answer)),
            Err(fault) => Err(LineFault::of_report(fault)),
        }
    }

    fn note(&mut self, alloc: Global, noting: Noting, answer: &mut Answer) -> Result<(), LineFault>
        ensures answered { OnOk result (Notes self.old self.new noting answer.old answer.new) }
        ensures tickets { self.new.tickets.items ≡ self.old.tickets.items }
        ensures refused { IfErr result (Leaves self.old (Request.Note noting) self.new) }
    {
        let Some(index) = find_ticket(&self.tickets, self.is_rising, noting.ticket) else {
            return Err(LineFault::not_open("/note/ticket"));
        };
        let own = &self.tickets[index];
        let Some(notice) = find_notice(own, noting.integration) else {
            return Err(LineFault::of_note(NoteFault::NotReady));
        };
        let ticket = own.ticket();
        let row = self
            .board
            .noted_row(alloc, ticket, noting.integration, noting.now);
        match self.board.note(alloc, PASS, ticket, notice, noting.now) {
            Ok(_) => self.answer_noted(row, answer),
            Err(fault) => Err(LineFault::of_note(fault)),
        }
    }

    fn finish(
        &mut self,
        alloc: Global,
        finishing: Finishing,
        answer: &mut Answer,
    ) -> Result<(), LineFault>
        ensures answered { OnOk result (Finishes self.old self.new finishing answer.old answer.new) }
        ensures refused { IfErr result (Leaves self.old (Request.Finish finishing) self.new) }
    {
        let Some(index) = find_ticket(&self.tickets, self.is_rising, finishing.ticket) else {
            return Err(LineFault::not_open("/finish/ticket"));
        };
        let own = self.tickets.remove(index).unwrap();
        let rows = self.board.finished_rows(alloc, own.ticket(), finishing.now);
        match self.board.finish_own(PASS, own, finishing.now) {
            Ok(finished) => self.answer_finished(finished, rows, answer),
            Err(_not_open) => Err(LineFault::Spent),
        }
    }

    /// Takes over a row of another board's log.
    fn load(
        &mut self,
        alloc: Global,
        loading: Loading,
        answer: &mut Answer,
    ) -> Result<(), LineFault>
        ensures answered { OnOk result (Loads self.old self.new loading answer.old answer.new) }
        ensures tickets { self.new.tickets.items ≡ self.old.tickets.items }
        ensures refused { IfErr result (Leaves self.old (Request.Load loading) self.new) }
    {
        let Loading { now, row } = loading;
        let Some(row) = row_of(alloc, self.board.config(), &self.names, row)? else {
            return Err(LineFault::of_load(LoadFault::NoIntegration));
        };
        match self.board.load(alloc, PASS, row, now) {
            Ok(loaded) => self.answer_with(&Reply::Loaded(loaded), answer),
            Err(fault) => Err(LineFault::of_load(fault)),
        }
    }

    fn maintain(&mut self, alloc: Global, now: u64, answer: &mut Answer) -> Result<(), LineFault>
        ensures answered { OnOk result (Makes self.old self.new (Call.Maintain now) answer.old answer.new) }
        ensures tickets { self.new.tickets.items ≡ self.old.tickets.items }
        ensures refused { IfErr result (Leaves self.old (Request.Maintain (record { now = now })) self.new) }
    {
        match self.board.maintain(alloc, PASS, now) {
            Ok(maintained) => self.answer_with(&Reply::Maintained(maintained), answer),
            Err(fault) => Err(LineFault::of_board("/maintain", fault)),
        }
    }

    fn remove_empty_groups(
        &mut self,
        alloc: Global,
        now: u64,
        answer: &mut Answer,
    ) -> Result<(), LineFault>
        ensures answered { OnOk result (Makes self.old self.new (Call.RemoveEmptyGroups now) answer.old answer.new) }
        ensures tickets { self.new.tickets.items ≡ self.old.tickets.items }
        ensures refused { IfErr result (Leaves self.old (Request.RemoveEmptyGroups (record { now = now })) self.new) }
    {
        match self.board.remove_empty_groups(alloc, PASS, now) {
            Ok(removed) => self.answer_with(&Reply::EmptyGroupsRemoved(removed), answer),
            Err(fault) => Err(LineFault::of_board("/remove_empty_groups", fault)),
        }
    }

    fn forget(&mut self, alloc: Global, now: u64, answer: &mut Answer) -> Result<(), LineFault>
        ensures answered { OnOk result (Makes self.old self.new (Call.Forget now) answer.old answer.new) }
        ensures tickets { self.new.tickets.items ≡ self.old.tickets.items }
        ensures refused { IfErr result (Leaves self.old (Request.Forget (record { now = now })) self.new) }
    {
        match self.board.forget(alloc, PASS, now) {
            Ok(forgotten) => self.answer_with(&Reply::Forgotten(forgotten), answer),
            Err(fault) => Err(LineFault::of_board("/forget", fault)),
        }
    }

    /// Hands out the records that the board keeps, and returns the line that has them. The line is made first: where
    /// something is refused, the board still keeps them.
    pub fn take_history(&mut self, alloc: Global) -> Result<Vec<u8>, LineFault>
        ensures answered { IfOk result (λ text. Takes self.old self.new text.items) }
        ensures tickets { self.new.tickets.items ≡ self.old.tickets.items }
        ensures refused { IfErr result (Leaves self.old Request.TakeHistory self.new) }
    {
        let line = self.history_line(alloc)?;
        match self.board.take_history(alloc) {
            Ok(_records) => Ok(line),
            Err(TakeFault::NoMemory) => Err(LineFault::NoMemory),
            Err(TakeFault::TooManyCalls) => Err(LineFault::NotMade {
                pointer: "/take_history",
                kind: "TooManyCalls",
                message: "more records would be handed out than the limit",
            }),
        }
    }

    /// The line that has the records that the board keeps. They follow those that were handed out before.
    fn history_line(&self, alloc: Global) -> Result<Vec<u8>, AllocError>
        ensures line { IfOk result (λ text. text.items ≡ print (taken_tokens self.now.board) ++ 10 ∷ []) }
        ensures one { IfOk result (λ text. IsOneLine text.items) }
        ensures follow { self.now.board.history ≡ self.now.board.handed ++ kept_of self.now.board }
        ensures legal { IsLegal self.now.board.config self.now.board.id self.now.board.history }
    {
        let mut answer = Answer::new(alloc);
        write_list(self.board.config(), "taken", self.kept(), &mut answer)?;
        answer.into_line()
    }

    /// The records that the board keeps.
    fn kept(&self) -> &[Record]
        ensures records { result.now ≡ kept_of self.now.board }
        ensures follow { self.now.board.history ≡ self.now.board.handed ++ kept_of self.now.board }
        ensures legal { IsLegal self.now.board.config self.now.board.id self.now.board.history }
    {
        self.board.history()
    }

    fn show_due(&self, answer: &mut Answer) -> Result<(), LineFault>
        ensures answered { OnOk result (answer.new ≡ answer.old ++ due_tokens (next_due (state_at self.now.board))) }
        ensures refused { IfErr result (λ fault. fault ≡ LineFault.NoMemory) }
    {
        Ok(write_due(self.board.next_due(), answer)?)
    }

    fn show_summary(&self, answer: &mut Answer) -> Result<(), LineFault>
        ensures answered { OnOk result (AnswersSummary self.now.board answer.old answer.new) }
        ensures refused { IfErr result (λ fault. fault ≡ LineFault.NoMemory) }
    {
        Ok(write_summary(&self.board.summary(), answer)?)
    }

    fn show_tickets(&self, answer: &mut Answer) -> Result<(), LineFault>
        ensures answered { OnOk result (answer.new ≡ answer.old
            ++ listed (codes "tickets") (ticket_tokens self.now.board.config) self.now.tickets.items) }
        ensures refused { IfErr result (λ fault. fault ≡ LineFault.NoMemory) }
    {
        Ok(write_tickets(self.board.config(), &self.tickets, answer)?)
    }

    fn show_outlook(&self, alloc: Global, now: u64, answer: &mut Answer) -> Result<(), LineFault>
        ensures answered { OnOk result (answer.new ≡ answer.old
            ++ outlook_tokens self.now.board.config (preview self.now.board.config self.now.board.history now)) }
        ensures refused { IfErr result (λ fault. fault ≡ LineFault.NoMemory) }
    {
        let preview = self.board.preview(alloc, now)?;
        Ok(write_outlook(self.board.config(), preview.as_ref(), answer)?)
    }

    fn show_status(
        &self,
        alloc: Global,
        labels: &Labels,
        now: u64,
        answer: &mut Answer,
    ) -> Result<(), LineFault>
        ensures answered { OnOk result (answer.new ≡ answer.old ++ status_tokens self.now.board.config
            (label_status self.now.board.config (state_at self.now.board) labels.now now)) }
        ensures refused { IfErr result (λ fault. fault ≡ LineFault.NoMemory) }
    {
        let status = self.board.status(alloc, labels, now)?;
        Ok(write_status(self.board.config(), &status, answer)?)
    }

    fn show_rows(&self, alloc: Global, answer: &mut Answer) -> Result<(), LineFault>
        ensures answered { OnOk result (answer.new ≡ answer.old
            ++ listed (codes "rows") (row_tokens self.now.board.config) (row_views (state_at self.now.board))) }
        ensures refused { IfErr result (λ fault. fault ≡ LineFault.NoMemory) }
    {
        let rows = self.board.rows(alloc)?;
        Ok(write_list(self.board.config(), "rows", rows.as_slice(), answer)?)
    }

    fn show_groups(&self, alloc: Global, answer: &mut Answer) -> Result<(), LineFault>
        ensures answered { OnOk result (answer.new ≡ answer.old
            ++ listed (codes "groups") (group_view_tokens self.now.board.config) (group_views (state_at self.now.board))) }
        ensures refused { IfErr result (λ fault. fault ≡ LineFault.NoMemory) }
    {
        let groups = self.board.groups(alloc)?;
        Ok(write_list(self.board.config(), "groups", groups.as_slice(), answer)?)
    }

    /// Writes the reply to a call that was made.
    fn answer_with(&self, reply: &Reply, answer: &mut Answer) -> Result<(), LineFault>
        ensures answered { OnOk result (answer.new ≡ answer.old ++ reply_tokens self.now.board.config reply.now) }
        ensures untold { IfErr result (λ fault. fault ≡ LineFault.Untold) }
    {
        answered(write_reply(self.board.config(), reply, answer))
    }

    /// Writes that a success was noted, with the row that the note logged. Where there was no memory for the row, that is said in
    /// the answer's place: the note was made.
    fn answer_noted(
        &self,
        row: Result<Option<RowView>, AllocError>,
        answer: &mut Answer,
    ) -> Result<(), LineFault>
        requires { IfOk row (λ row. IsSome row) }
        ensures answered { OnOk result ((logged : RowView) × (row ≡ Ok (Some logged))
            × (answer.new ≡ answer.old ++ noted_tokens self.now.board.config logged)) }
        ensures untold { IfErr result (λ fault. fault ≡ LineFault.Untold) }
    {
        match row {
            Ok(Some(row)) => answered(write_noted(self.board.config(), &row, answer)),
            Ok(None) => unreachable!(),
            Err(_) => Err(LineFault::Untold),
        }
    }

    /// Writes what a finish did, with the rows that it logged. Where there was no memory for them, that is said in the answer's
    /// place: the finish was made.
    fn answer_finished(
        &self,
        finished: Finished,
        rows: Result<Vec<RowView>, AllocError>,
        answer: &mut Answer,
    ) -> Result<(), LineFault>
        ensures answered { OnOk result (IfOk rows (λ rows.
            answer.new ≡ answer.old ++ finished_tokens self.now.board.config finished rows.items)) }
        ensures listed { OnOk result (IsOk rows) }
        ensures untold { IfErr result (λ fault. fault ≡ LineFault.Untold) }
    {
        match rows {
            Ok(rows) => answered(write_finished(
                self.board.config(),
                finished,
                rows.as_slice(),
                answer,
            )),
            Err(_) => Err(LineFault::Untold),
        }
    }

    /// Ends the session: the flushes that are open are finished with what was reported.
    pub fn close(self) {
        let Session {
            mut board,
            tickets,
            is_rising: _,
            names: _,
            seed: _,
        } = self;
        finish_all(&mut board, tickets);
        drop(board);
    }
}

/// Writes that a part of a line would be read, as it was.
fn show_checked(part: &LinePart, answer: &mut Answer) -> Result<(), LineFault>
    ensures answered { OnOk result (answer.new ≡ answer.old ++ checked_tokens part.now) }
    ensures refused { IfErr result (λ fault. fault ≡ LineFault.NoMemory) }
{
    Ok(write_checked(part, answer)?)
}

/// Writes the flush of a ticket that was begun, and why.
fn write_begun(
    config: &Config,
    ticket: &Ticket,
    preview: Option<&Preview>,
    answer: &mut Answer,
) -> Result<(), AllocError>
    ensures { OnOk result (answer.new ≡ answer.old
        ++ begun_flush config.now ticket.now.number ticket.now.group ticket.now.deadline ticket.now.notices
        (option_copied preview.entry)) }
{
    begin("flush", answer)?;
    put_flush(
        config,
        ticket.number(),
        ticket.group(),
        ticket.deadline(),
        ticket.notices(),
        answer,
    )?;
    put_why(config, preview, answer)?;
    end(answer)
}

/// Puts a board in the place of another one, which goes.
fn put(index: &mut Board, board: Board)
    ensures { index.new ≡ board }
{
    drop(replace(index, board));
}

/// An empty board of the program.
fn open_board(alloc: Global, seed: Seed, config: Config) -> Result<Board, LineFault>
    ensures board { IfOk result (λ board. board ≡ opening config BOARD_ID) }
    ensures refused { IfErr result (IsCauseOfUnopened config) }
{
    match Board::seeded(alloc, config, BOARD_ID, seed) {
        Ok(board) => Ok(board),
        Err(BoardFault::NoMemory) => Err(LineFault::NoMemory),
        // (the readers of configurations look at them already)
        Err(BoardFault::BadConfig(_)) => Err(LineFault::NotMade {
            pointer: "",
            kind: "value",
            message: "no board has this configuration",
        }),
    }
}

/// Finishes these flushes with what was reported.
fn finish_all(board: &mut Board, tickets: VecDeque<OwnTicket<BOARD_ID>>)
    requires { board.old.id ≡ BOARD_ID }
{
    let mut left = tickets;
    while !left.is_empty() {
        let own = left.pop_front().unwrap();
        let _ = board.finish_own(PASS, own, 0);
    }
    left.destroy_empty();
}

/// A call was made: where its answer can't be written, that is said in its place.
fn answered(written: Result<(), AllocError>) -> Result<(), LineFault>
    ensures ok { OnOk result (IsOk written) }
    ensures kept { IsOk written → IsOk result }
    ensures err { IfErr result (λ fault. fault ≡ LineFault.Untold) }
{
    match written {
        Ok(()) => Ok(()),
        Err(_) => Err(LineFault::Untold),
    }
}
