//! The notices in flight: a `Sending` for each flush, whose ends are reported to the board.
ghost use Rattle.std.specs.Prelude.{◌≡◌, ◌≤◌, ◌<◌, ◌+◌, ◌++◌, ◌^◌, Some, IfOk, OnOk, length, remove, slice_get, if◌then◌else◌};
ghost use Rattle.am_alerts.specs.declared.limits.TheConstants.{MAX_TIME};
ghost use Rattle.am_simulation.specs.Answers.{answer_of, AreEndsOf, IsEndOf};
ghost use Rattle.am_simulation.specs.Next.{next_end_of};
ghost use Rattle.am_simulation.specs.Steps.{is_success, sent_events, with_note, with_report};

use crate::courier::{OutageCourier, Outages};
use crate::limits::BOARD_ID;
use crate::next::{End, Next, Step, earlier};
use crate::previewing::PreviewingBoard;
use am_alerts::text::Text;
use am_board::notice::{Notice, Report};
use am_board::own_ticket::OwnTicket;
use am_board::ticket::Ticket;
use am_pool::deliver_by;
use am_retry::Outcome;
use am_terms::rehearsal::Outage;
use std::alloc::{AllocError, Global};
use std::marker::Model;

/// A flush whose notices are in flight.
pub(crate) struct Sending {
    pub(crate) own: OwnTicket<BOARD_ID>,
    /// The position of its begin among the previewed begins.
    pub(crate) begin: u32,
    /// The ends that are still to come, by index.
    pub(crate) ends: Vec<End>,
}

impl Model for Sending {
    ghost use Rattle.am_simulation.specs.Scene.{SendingData};

    ghost Value = { SendingData };

    ghost view = { λ s. record { ticket = s.own; begin = s.begin; ends = s.ends.items } };
}

impl Sending {
    /// Takes out the end at an index.
    pub(crate) fn take_end(&mut self, index: usize) -> End
        requires { index < length self.old.ends }
        ensures end { slice_get self.old.ends index ≡ Some result }
        ensures left { self.new ≡ record (self.old) { ends = remove self.old.ends index } }
    {
        self.ends.remove(index)
    }

    /// Records how a notice went. A report on another notice changes nothing, nor does a second one.
    pub(crate) fn record(&mut self, report: Report)
        ensures { self.new ≡ record (self.old) { ticket = with_report (Some report) self.old.ticket } }
    {
        let _ = self.own.record(report);
    }
}

/// Returns the first of these ends of the flush at a position, the first of which has this index.
pub(crate) fn next_end_of(position: usize, index: usize, ends: &[End]) -> Option<Next>
    requires { index + length ends.now < 2 ^ 64 }
    ensures { result ≡ next_end_of position index ends.now }
{
    match ends.split_first() {
        None => None,
        Some((end, ends)) => earlier(
            Some(Next {
                at: end.at,
                what: Step::End(position, index),
            }),
            next_end_of(position, index + 1, ends),
        ),
    }
}

/// Sends the notices of a ticket from `start` (milliseconds) on, and returns their ends.
///
/// The outages, the receiver and the time at which the dispatcher is stopped (`cut`) are those that
/// the type names.
pub(crate) fn ends_of<O: Outages>(
    alloc: Global,
    outages: &[Outage],
    receiver: &Text,
    cut: Option<u64>,
    ticket: &Ticket,
    start: u64,
) -> Result<Vec<End>, AllocError>
    requires start { start ≤ MAX_TIME }
    requires outages { outages.now ≡ O.outages }
    requires receiver { receiver.now ≡ O.receiver }
    requires cut { cut ≡ O.cut }
    ensures { IfOk result (λ ends.
        AreEndsOf (answer_of O.cut O.outages O.receiver) O.cut start 0 ticket.now.notices ends.items) }
{
    let notices = ticket.notices();
    let mut courier = OutageCourier::<O>::new(outages, receiver, cut);
    let mut ends = Vec::with_capacity(alloc, notices.len())?;
    for (index, notice) in notices.iter().enumerate() {
        ends.push(end_of(&mut courier, index, notice, start))?;
    }
    Ok(ends)
}

/// Sends the notice at an index of a ticket from `start` (milliseconds) on, and returns its end.
fn end_of<O: Outages>(
    courier: &mut OutageCourier<'_, O>,
    index: usize,
    notice: &Notice,
    start: u64,
) -> End
    requires { start ≤ MAX_TIME }
    ensures { IsEndOf (answer_of O.cut O.outages O.receiver) O.cut start index notice.now result }
{
    if notice.nothing() {
        return End {
            at: start,
            index,
            report: None,
        };
    }
    let deadline = courier.tried_until(notice.deadline);
    let report = deliver_by(courier, notice, deadline, start);
    End {
        at: report.ended,
        index,
        report: Some(report),
    }
}

/// Records the end of a notice of a flush, and notes a success.
pub(crate) fn report_end(
    alloc: Global,
    board: &mut PreviewingBoard,
    sending: &mut Sending,
    end: End,
) -> Result<(), AllocError>
    ensures flush { (sending.new.begin ≡ sending.old.begin) × (sending.new.ends ≡ sending.old.ends) }
    ensures sending { OnOk result (sending.new ≡ record (sending.old) { ticket = with_report end.report sending.old.ticket }) }
    ensures events { OnOk result (board.new.events.items ≡ board.old.events.items ++ sent_events sending.old.begin end.report) }
    ensures board { OnOk result (board.new.board
        ≡ (if is_success end.report then with_note end.at (with_report end.report sending.old.ticket) end.index board.old.board
        else board.old.board)) }
{
    keep_report(alloc, board, sending, end.report)?;
    if is_success(end.report) {
        return board.note(alloc, &sending.own, end.index, end.at);
    }
    Ok(())
}

/// Keeps the report on a notice of a flush, if there is one.
fn keep_report(
    alloc: Global,
    board: &mut PreviewingBoard,
    sending: &mut Sending,
    report: Option<Report>,
) -> Result<(), AllocError>
    ensures flush { (sending.new.begin ≡ sending.old.begin) × (sending.new.ends ≡ sending.old.ends) }
    ensures sending { OnOk result (sending.new ≡ record (sending.old) { ticket = with_report report sending.old.ticket }) }
    ensures events { OnOk result (board.new.events.items ≡ board.old.events.items ++ sent_events sending.old.begin report) }
    ensures board { board.new.board ≡ board.old.board }
{
    match report {
        None => Ok(()),
        Some(report) => {
            board.keep_sent(alloc, sending.begin, report)?;
            sending.record(report);
            Ok(())
        }
    }
}

/// Whether a sending that came to this end is a success.
fn is_success(report: Option<Report>) -> bool
    ensures { result ≡ is_success report }
{
    match report {
        None => true,
        Some(report) => report.outcome == Outcome::Delivered,
    }
}
