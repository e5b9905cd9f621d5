//! Calls on tickets and their notices.
use crate::requests::board::BOARD_ID;
use crate::requests::delivery::Pager;
use crate::requests::probe::Probe;
use am_board::notice::{Notice, Report};
use am_board::own_ticket::OwnTicket;
use am_pool::deliver;
use am_retry::Outcome;

/// Sends and records each notice of a ticket of the program's board.
pub fn make_calls(own: &mut OwnTicket<BOARD_ID>, probe: &Probe) {
    for index in 0..own.ticket().notices().len() {
        send(own, probe, index);
    }
    refuse(own, probe);
}

/// Sends the notice at an index, if there is something to send, and records the report.
fn send(own: &mut OwnTicket<BOARD_ID>, probe: &Probe, index: usize) {
    if let Some(notice) = own.ticket().notices().get(index) {
        if let Some(report) = send_notice(probe, notice) {
            record(own, probe, report);
        }
    }
}

fn record(own: &mut OwnTicket<BOARD_ID>, probe: &Probe, report: Report) {
    probe.ask("Ticket::record");
    let recorded = own.record(report);
    probe.show(&recorded);
}

/// Records a report of a stranger.
fn refuse(own: &mut OwnTicket<BOARD_ID>, probe: &Probe) {
    probe.ask("Ticket::record, refused");
    let refused = own.record(Report {
        board_id: 1,
        ticket: 99,
        integration: 0,
        outcome: Outcome::Delivered,
        attempts: 1,
        ended: 0,
    });
    probe.show(&refused);
}

fn send_notice(probe: &Probe, notice: &Notice) -> Option<Report> {
    if notice.nothing() {
        return None;
    }
    probe.ask("deliver");
    let report = deliver(&mut Pager::new(1), notice, 30_000);
    probe.show(&report);
    Some(report)
}
