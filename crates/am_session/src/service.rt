//! `Service`: lines that are answered in process. Whoever calls it hands in a line, and reads the answer.
//!
//! Each line has an answer. Where there is no memory, that is one that needs none.
ghost use Rattle.std.specs.Prelude.{◌≡◌, ◌++◌, [], ◌∷◌, List, ℕ, None, Some, IfOk, IsFalse};
ghost use Rattle.am_protocol.specs.Fault.{AnswersFault};
ghost use Rattle.am_protocol.specs.Lines.{IsRead};
ghost use Rattle.am_session.specs.Line.{AnswersLine, is_remark};
ghost use Rattle.am_session.specs.Service.{text_of};

use crate::line::{fault_text, is_echoed, open, respond};
use crate::session::Session;
use am_json::transfer::MAX_INPUT;
use am_protocol::fault::{LineFault, no_memory_line};
use am_protocol::lines::LineRead;
use am_seed::Seed;
use std::alloc::{AllocError, Global};
use std::mem::replace;

/// The text of an answer: a line, with its line feed.
#[derive(Drop)]
pub enum AnswerText {
    /// It was made.
    Made(Vec<u8>),
    /// It is always there, and needs no memory.
    Ready(&'static str),
}

impl AnswerText {
    /// Returns its bytes.
    pub fn bytes(&self) -> &[u8]
        ensures { result.now ≡ text_of self.now }
    {
        match self {
            AnswerText::Made(text) => text.as_slice(),
            AnswerText::Ready(text) => text.as_bytes(),
        }
    }
}

/// A board, if a line has opened one, and the answer to the last line.
pub struct Service {
    pub session: Option<Session>,
    pub seed: Seed,
    pub answer: AnswerText,
}

impl Service {
    /// Returns a service without a board. Hashes of its boards start from this seed. Its first answer is empty.
    pub fn new(seed: Seed) -> Service
        ensures session { result.session ≡ None }
        ensures seed { result.seed ≡ seed }
        ensures answer { text_of result.answer ≡ [] }
    {
        Service {
            session: None,
            seed,
            answer: AnswerText::Ready(""),
        }
    }

    /// Answers a line, and keeps the answer until the next call. The line feed at the end of a line isn't handed in.
    pub fn call(&mut self, alloc: Global, line: &[u8])
        ensures answered { AnswersLine self.old.session line.now (text_of self.new.answer) self.new.session }
        ensures seed { self.new.seed ≡ self.old.seed }
    {
        let text = self.answer_to(alloc, line);
        self.answer = text;
    }

    /// Answers a line by itself, by what it asks for, or by its fault.
    fn answer_to(&mut self, alloc: Global, line: &[u8]) -> AnswerText
        ensures answered { AnswersLine self.old.session line.now (text_of result) self.new.session }
        ensures seed { self.new.seed ≡ self.old.seed }
    {
        let read = read_of(line);
        if !is_echoed(read, line) {
            return self.answer_read(alloc, read, line);
        }
        match echoed(alloc, line) {
            Ok(text) => AnswerText::Made(text),
            Err(_) => self.answer_read(alloc, LineRead::NoMemory, line),
        }
    }

    /// Answers a line that isn't answered by itself.
    pub fn answer_read(&mut self, alloc: Global, read: LineRead, line: &[u8]) -> AnswerText
        requires { read ≡ LineRead.Complete → IsFalse (is_remark line.now) }
        ensures answered { (text : List ℕ) → IsRead read text line.now
            → AnswersLine self.old.session text (text_of result) self.new.session }
        ensures seed { self.new.seed ≡ self.old.seed }
    {
        match &mut self.session {
            Some(session) => answer_next(alloc, session, read, line),
            None => self.answer_first(alloc, read, line),
        }
    }

    /// Answers a line while there is no board, and keeps the session that it opens.
    fn answer_first(&mut self, alloc: Global, read: LineRead, line: &[u8]) -> AnswerText
        requires session { self.old.session ≡ None }
        requires other { read ≡ LineRead.Complete → IsFalse (is_remark line.now) }
        ensures answered { (text : List ℕ) → IsRead read text line.now
            → AnswersLine None text (text_of result) self.new.session }
        ensures seed { self.new.seed ≡ self.old.seed }
    {
        match open(alloc, self.seed, read, line) {
            Ok((session, answer)) => {
                self.keep(session);
                AnswerText::Made(answer)
            }
            Err(fault) => fault_answer(alloc, &fault),
        }
    }

    /// Has this session from now on.
    fn keep(&mut self, session: Session)
        ensures session { self.new.session ≡ Some session }
        ensures seed { self.new.seed ≡ self.old.seed }
    {
        if let Some(old) = replace(&mut self.session, Some(session)) {
            old.close();
        }
    }
}

impl Drop for Service {
    fn drop(self) {
        let Service {
            session,
            seed: _,
            answer,
        } = self;
        if let Some(session) = session {
            session.close();
        }
        drop(answer);
    }
}

/// Answers a line of a session that isn't answered by itself.
fn answer_next(alloc: Global, session: &mut Session, read: LineRead, line: &[u8]) -> AnswerText
    requires { read ≡ LineRead.Complete → IsFalse (is_remark line.now) }
    ensures { (text : List ℕ) → IsRead read text line.now
        → AnswersLine (Some session.old) text (text_of result) (Some session.new) }
{
    match respond(alloc, session, read, line) {
        Ok(answer) => AnswerText::Made(answer),
        Err(fault) => fault_answer(alloc, &fault),
    }
}

/// Whether a line is read, or too long.
fn read_of(line: &[u8]) -> LineRead
    ensures { IsRead result line.now line.now }
{
    if line.len() <= MAX_INPUT {
        LineRead::Complete
    } else {
        LineRead::TooLong
    }
}

/// Makes the answer to a line that is answered by itself.
fn echoed(alloc: Global, line: &[u8]) -> Result<Vec<u8>, AllocError>
    ensures { IfOk result (λ text. text.items ≡ line.now ++ 10 ∷ []) }
{
    let mut text = Vec::with_capacity(alloc, line.len() + 1)?;
    text.extend_from_slice(line)?;
    text.push(b'\n')?;
    Ok(text)
}

/// Returns the line that says a fault.
fn fault_answer(alloc: Global, fault: &LineFault) -> AnswerText
    ensures { AnswersFault fault.now (text_of result) }
{
    if let Some(line) = fault.ready_line() {
        return AnswerText::Ready(line);
    }
    match fault_text(alloc, fault) {
        Ok(line) => AnswerText::Made(line),
        Err(_) => AnswerText::Ready(no_memory_line()),
    }
}
