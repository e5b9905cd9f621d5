//! The tickets of the flushes that are open, and what is answered about them.
ghost use Rattle.std.specs.Prelude.{◌≡◌, ◌<◌, ◌++◌, ◌∷◌, [], ◌==◌, IfErr, IfSome};
ghost use Rattle.std.specs.Prelude.{IsTrue, None, OnErr, OnOk, Some, codes, length, slice_get};
ghost use Rattle.std.specs.VecDeque.{deque_len};
ghost use Rattle.std.specs.List.{flat_map, position};
ghost use Rattle.json.specs.Token.{key};
ghost use Rattle.am_protocol.specs.Record.{report_tokens};
ghost use Rattle.am_protocol.specs.View.{listed};
ghost use Rattle.am_model.specs.Ticket.{outcome_of, recorded, report_fault};
ghost use Rattle.am_session.specs.Ticket.{HasFaultAt, IsRecordedAt, are_rising, numbers, report_on, reports_tokens, ticket_tokens};

use am_board::fault::ReportFault;
use am_board::notice::{Notice, Report};
use am_board::own_ticket::OwnTicket;
use am_board::ticket::Ticket;
use am_model::config::Config;
use am_protocol::answer::Answer;
use am_protocol::record::write_report;
use am_protocol::reply::put_flush;
use am_retry::Outcome;
use std::alloc::AllocError;
use std::collections::VecDeque;

/// The id of each board of the program, which its tickets carry. There is one board at a time, and its tickets are spent
/// before the next.
pub const BOARD_ID: u64 = 1;

/// Records how the sending to an integration ended, in the ticket at an index.
pub fn record_at(
    tickets: &mut VecDeque<OwnTicket<BOARD_ID>>,
    index: usize,
    integration: u32,
    outcome: Outcome,
) -> Result<(), ReportFault>
    requires { index < deque_len tickets.old }
    ensures ok { OnOk result (IsRecordedAt tickets.old.items index integration outcome tickets.new.items) }
    ensures fault { IfErr result (HasFaultAt tickets.old.items index integration outcome) }
    ensures err { OnErr result (tickets.new.items ≡ tickets.old.items) }
{
    record(&mut tickets[index], integration, outcome)
}

/// Records how the sending to an integration ended.
fn record(
    own: &mut OwnTicket<BOARD_ID>,
    integration: u32,
    outcome: Outcome,
) -> Result<(), ReportFault>
    ensures ok { OnOk result ((report_fault own.old (report_on own.old integration outcome) ≡ None)
        × (own.new ≡ recorded own.old (report_on own.old integration outcome))) }
    ensures fault { IfErr result (λ fault. report_fault own.old (report_on own.old integration outcome) ≡ Some fault) }
    ensures err { OnErr result (own.new ≡ own.old) }
{
    let ticket = own.ticket().number();
    own.record(Report {
        board_id: BOARD_ID,
        ticket,
        integration,
        outcome,
        attempts: 1,
        ended: 0,
    })
}

/// Returns the index of the first ticket of a number: by halves where the numbers rise.
pub fn find_ticket(
    tickets: &VecDeque<OwnTicket<BOARD_ID>>,
    is_rising: bool,
    number: u64,
) -> Option<usize>
    requires { IsTrue is_rising → IsTrue (are_rising (numbers tickets.now.items)) }
    ensures within { IfSome result (λ index. index < length tickets.now.items) }
    ensures first { result ≡ position (λ t. t.number == number) tickets.now.items }
{
    if is_rising {
        find_by_halves(tickets, number)
    } else {
        tickets.iter().position(|own| number_of(own) == number)
    }
}

/// Returns the index of the ticket of a number, where the numbers rise.
fn find_by_halves(tickets: &VecDeque<OwnTicket<BOARD_ID>>, number: u64) -> Option<usize>
    requires { IsTrue (are_rising (numbers tickets.now.items)) }
    ensures within { IfSome result (λ index. index < length tickets.now.items) }
    ensures first { result ≡ position (λ t. t.number == number) tickets.now.items }
{
    let mut low = 0;
    let mut high = tickets.len();
    while low < high {
        let middle = low + (high - low) / 2;
        let found = number_of(&tickets[middle]);
        if found == number {
            return Some(middle);
        }
        if found < number {
            low = middle + 1;
        } else {
            high = middle;
        }
    }
    None
}

/// Whether the numbers of these tickets still rise with one more of this number behind them.
pub fn rises_with(tickets: &VecDeque<OwnTicket<BOARD_ID>>, number: u64) -> bool
    ensures { IsTrue result → IsTrue (are_rising (numbers tickets.now.items))
        → IsTrue (are_rising (numbers tickets.now.items ++ number ∷ [])) }
{
    match tickets.back() {
        None => true,
        Some(last) => number_of(last) < number,
    }
}

fn number_of(own: &OwnTicket<BOARD_ID>) -> u64
    ensures { result ≡ own.now.number }
{
    own.ticket().number()
}

/// Returns the index of the notice of an integration in a ticket.
pub fn find_notice(own: &OwnTicket<BOARD_ID>, integration: u32) -> Option<usize>
    ensures { result ≡ position (λ n. n.integration == integration) own.now.notices }
{
    index_of_notice(own.ticket().notices(), integration)
}

fn index_of_notice(notices: &[Notice], integration: u32) -> Option<usize>
    ensures { result ≡ position (λ n. n.integration == integration) notices.now }
{
    notices
        .iter()
        .position(|notice| notice.integration == integration)
}

/// Writes the flushes that are open: `{"tickets":[..]}`.
pub fn write_tickets(
    config: &Config,
    tickets: &VecDeque<OwnTicket<BOARD_ID>>,
    answer: &mut Answer,
) -> Result<(), AllocError>
    ensures { OnOk result (answer.new ≡ answer.old ++ listed (codes "tickets") (ticket_tokens config.now) tickets.now.items) }
{
    answer.open()?;
    answer.key("tickets")?;
    answer.open_list()?;
    add_tickets(config, tickets, answer)?;
    answer.close_list()?;
    answer.close()
}

fn add_tickets(
    config: &Config,
    tickets: &VecDeque<OwnTicket<BOARD_ID>>,
    answer: &mut Answer,
) -> Result<(), AllocError>
    ensures { OnOk result (answer.new ≡ answer.old ++ flat_map (ticket_tokens config.now) tickets.now.items) }
{
    for i in 0..tickets.len() {
        write_ticket(config, tickets[i].ticket(), answer)?;
    }
    Ok(())
}

/// Writes an open flush: its ticket as the begin answered it, and what was reported since.
fn write_ticket(config: &Config, ticket: &Ticket, answer: &mut Answer) -> Result<(), AllocError>
    ensures { OnOk result (answer.new ≡ answer.old ++ ticket_tokens config.now ticket.now) }
{
    answer.open()?;
    put_flush(
        config,
        ticket.number(),
        ticket.group(),
        ticket.deadline(),
        ticket.notices(),
        answer,
    )?;
    put_reports(ticket, answer)?;
    answer.close()
}

/// Adds what was reported on each notice of a ticket: its outcome, or `null`.
fn put_reports(ticket: &Ticket, answer: &mut Answer) -> Result<(), AllocError>
    ensures { OnOk result (answer.new ≡ answer.old ++ key (codes "reports") ∷ reports_tokens ticket.now) }
{
    answer.key("reports")?;
    answer.open_list()?;
    add_reports(ticket, answer)?;
    answer.close_list()
}

fn add_reports(ticket: &Ticket, answer: &mut Answer) -> Result<(), AllocError>
    ensures { OnOk result (answer.new ≡ answer.old
        ++ flat_map (λ n. report_tokens n.integration (outcome_of ticket.now.outcomes n.integration)) ticket.now.notices) }
{
    for (index, notice) in ticket.notices().iter().enumerate() {
        write_reported(ticket, index, notice, answer)?;
    }
    Ok(())
}

/// Writes what was reported on the notice at an index of a ticket.
fn write_reported(
    ticket: &Ticket,
    index: usize,
    notice: &Notice,
    answer: &mut Answer,
) -> Result<(), AllocError>
    requires { slice_get ticket.now.notices index ≡ Some notice.now }
    ensures { OnOk result (answer.new ≡ answer.old
        ++ report_tokens notice.now.integration (outcome_of ticket.now.outcomes notice.now.integration)) }
{
    write_report(notice.integration, ticket.outcome(index), answer)
}
