//! What a line is answered by: itself, what it asks for, or its fault.
//!
//! Contracts say of each line how it is answered, as `AnswersLine` of specs/Line.antt has it.
ghost use Rattle.std.specs.Prelude.{◌≡◌, ◌≢◌, List, ℕ, IfErr, IfOk, IsErrAnd, IsFalse, IsTrue};
ghost use Rattle.am_protocol.specs.Fault.{fault_line};
ghost use Rattle.am_protocol.specs.Lines.{IsOneLine, IsRead};
ghost use Rattle.am_session.specs.Line.{IsOpenedBy, Opened, OpensNone, begins_remark, is_remark};
ghost use Rattle.am_session.specs.Refusal.{IsCauseOfUnopened};
ghost use Rattle.am_session.specs.Session.{IsAnswered, IsRequest, IsAnswerTo, IsUnread, Leaves, Refuses};

use crate::session::Session;
use am_json::reader::{Reader, parse};
use am_protocol::answer::Answer;
use am_protocol::fault::LineFault;
use am_protocol::lines::LineRead;
use am_protocol::opening::Opening;
use am_protocol::reply::write_opened;
use am_protocol::request::{Request, read_request};
use am_seed::Seed;
use std::alloc::{AllocError, Global};

/// Whether a line is answered by itself: a comment, or an empty one.
pub fn is_echoed(read: LineRead, line: &[u8]) -> bool
    ensures echoed { IsTrue result → (read ≡ LineRead.Complete) × IsTrue (is_remark line.now) }
    ensures other { IsFalse result → read ≡ LineRead.Complete → IsFalse (is_remark line.now) }
{
    match read {
        LineRead::Complete => is_remark(line),
        LineRead::TooLong | LineRead::NoMemory | LineRead::End => false,
    }
}

fn is_remark(line: &[u8]) -> bool
    ensures { result ≡ is_remark line.now }
{
    match line.first() {
        None => true,
        Some(byte) => begins_remark(*byte, line.len()),
    }
}

/// Whether a line of so many bytes is a comment, or a carriage return alone, by its first byte.
fn begins_remark(byte: u8, length: usize) -> bool
    ensures { result ≡ begins_remark byte length }
{
    byte == b'#' || (byte == b'\r' && length == 1)
}

/// Makes the line that says a fault.
pub fn fault_text(alloc: Global, fault: &LineFault) -> Result<Vec<u8>, AllocError>
    ensures text { IfOk result (λ line. line.items ≡ fault_line fault.now) }
    ensures one { IfOk result (λ line. IsOneLine line.items) }
{
    let mut answer = Answer::new(alloc);
    fault.write(&mut answer)?;
    answer.into_line()
}

/// Opens the session that a line asks for, and makes the line that answers it.
pub fn open(
    alloc: Global,
    seed: Seed,
    read: LineRead,
    line: &[u8],
) -> Result<(Session, Vec<u8>), LineFault>
    ensures answered { IfOk result (λ made. (text : List ℕ) → IsRead read text line.now → Opened text made.1.items made.0) }
    ensures refused { IfErr result (λ fault. (text : List ℕ) → IsRead read text line.now → OpensNone text fault) }
    ensures unread { read ≡ LineRead.NoMemory → IsErrAnd result (λ fault. fault ≡ LineFault.NoMemory) }
{
    match request_of(alloc, read, line)? {
        Request::Open(opening) => open_session(alloc, seed, opening),
        _ => Err(LineFault::NotMade {
            pointer: "",
            kind: "NoBoard",
            message: "the first line has to be a configuration: config or alertmanager",
        }),
    }
}

/// Opens a session, and makes the line that answers its opening.
fn open_session(
    alloc: Global,
    seed: Seed,
    opening: Opening,
) -> Result<(Session, Vec<u8>), LineFault>
    ensures answered { IfOk result (λ made. IsOpenedBy opening made.1.items made.0) }
    ensures refused { IfErr result (IsCauseOfUnopened opening.config) }
{
    let Opening { config, ignored } = opening;
    let mut answer = Answer::new(alloc);
    write_opened(&config, &ignored, &mut answer)?;
    let line = answer.into_line()?;
    Ok((Session::open(alloc, seed, config)?, line))
}

/// Does what a line asks of a session, and makes the line that answers it.
pub fn respond(
    alloc: Global,
    session: &mut Session,
    read: LineRead,
    line: &[u8],
) -> Result<Vec<u8>, LineFault>
    ensures answered { IfOk result (λ answer. (text : List ℕ) → IsRead read text line.now
        → IsAnswered session.old text answer.items session.new) }
    ensures refused { IfErr result (λ fault. (text : List ℕ) → IsRead read text line.now
        → Refuses session.old text session.new fault) }
    ensures unread { read ≡ LineRead.NoMemory → IsErrAnd result (λ fault. fault ≡ LineFault.NoMemory) }
{
    let request = request_of(alloc, read, line)?;
    answer_request(alloc, session, request)
}

/// Does what is asked of a session, and makes the line that answers it.
fn answer_request(
    alloc: Global,
    session: &mut Session,
    request: Request,
) -> Result<Vec<u8>, LineFault>
    ensures answered { IfOk result (λ text. IsAnswerTo session.old request text.items session.new) }
    ensures refused { IfErr result (Leaves session.old request session.new) }
{
    if matches!(request, Request::TakeHistory) {
        session.take_history(alloc)
    } else {
        make_line(alloc, session, request)
    }
}

/// Does what is asked of a session, except for its history, and makes the line that answers it.
fn make_line(alloc: Global, session: &mut Session, request: Request) -> Result<Vec<u8>, LineFault>
    requires { request ≢ Request.TakeHistory }
    ensures answered { IfOk result (λ text. IsAnswerTo session.old request text.items session.new) }
    ensures refused { IfErr result (Leaves session.old request session.new) }
{
    let mut answer = Answer::new(alloc);
    session.answer(alloc, request, &mut answer)?;
    match answer.into_line() {
        Ok(line) => Ok(line),
        Err(_) => Err(LineFault::Untold),
    }
}

/// What a line asks.
fn request_of(alloc: Global, read: LineRead, line: &[u8]) -> Result<Request, LineFault>
    ensures requested { IfOk result (λ request. (text : List ℕ) → IsRead read text line.now → IsRequest text request) }
    ensures refused { IfErr result (λ fault. (text : List ℕ) → IsRead read text line.now → IsUnread text fault) }
    ensures unread { read ≡ LineRead.NoMemory → IsErrAnd result (λ fault. fault ≡ LineFault.NoMemory) }
{
    match read {
        LineRead::TooLong => Err(LineFault::TooLong),
        LineRead::NoMemory => Err(LineFault::NoMemory),
        LineRead::Complete | LineRead::End => request_in(alloc, line),
    }
}

/// What the text of a line asks.
fn request_in(alloc: Global, line: &[u8]) -> Result<Request, LineFault>
    ensures requested { IfOk result (IsRequest line.now) }
    ensures refused { IfErr result (IsUnread line.now) }
{
    let value = parse(alloc, line)?;
    Ok(read_request(&Reader::strict(alloc, &value))?)
}
