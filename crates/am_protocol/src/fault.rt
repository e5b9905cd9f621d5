//! `LineFault`: why a line isn't answered by what it asks for, and the text of that.
ghost use Rattle.std.specs.Prelude.{◌≡◌, ◌++◌, IfSome, IsTrue, None, OnOk, codes};
ghost use Rattle.am_protocol.specs.Fault.{changes_nothing, IsOfBoard, IsOfLoad, IsOfNote, IsOfReport, IsRefusedAs};
ghost use Rattle.am_protocol.specs.Fault.{fault_line, fault_tokens, kind_of, column_member, message_of, pointer_of};
ghost use Rattle.am_protocol.specs.Fault.{refusal_kind};
ghost use Rattle.am_protocol.specs.Lines.{IsOneLine};

use crate::answer::Answer;
use crate::reply::{begin, end};
use crate::wanted::refusal_message;
use am_json::fault::{FaultKind, InputFault, ParseFault};
use am_model::fault::{Fault, LoadFault, NoteFault, ReportFault};
use std::alloc::AllocError;

/// What is written of these faults. It needs no memory.
const NO_MEMORY_LINE: &str =
    "{\"error\":{\"pointer\":\"\",\"kind\":\"memory\",\"message\":\"out of memory\"}}\n";

const UNTOLD_LINE: &str =
    "{\"error\":{\"pointer\":\"\",\"kind\":\"untold\",\"message\":\"the call was made, and there was no memory to write its answer\"}}\n";

const SPENT_LINE: &str =
    "{\"error\":{\"pointer\":\"\",\"kind\":\"NotOpen\",\"message\":\"no open flush has this ticket\"}}\n";

/// Returns the line that says that there was no memory. It needs none.
pub fn no_memory_line() -> &'static str
    ensures line { result.now ≡ fault_line LineFault.NoMemory }
    ensures one { IsOneLine result.now }
{
    NO_MEMORY_LINE
}

/// Why a line isn't answered by what it asks for. The board and the tickets are as before, except after `Untold` and `Spent`.
#[derive(Drop)]
pub enum LineFault {
    /// It is no JSON text, for what is at this column. It counts in bytes, from 1.
    NotJson {
        column: usize,
    },
    /// It has more than 67,108,864 bytes.
    TooLong,
    /// Out of memory.
    NoMemory,
    /// The call was made, and memory for the text of its answer was refused.
    Untold,
    /// The ticket was there, and the board has no open flush of its number. The ticket is gone.
    Spent,
    /// A value is refused; the pointer is a JSON pointer.
    Refused {
        pointer: String,
        fault_kind: FaultKind,
    },
    /// The call is refused. The pointer is a JSON pointer, the kind is for programs, the message for people.
    NotMade {
        pointer: &'static str,
        kind: &'static str,
        message: &'static str,
    },
}

impl From<ParseFault> for LineFault {
    ghost use Rattle.am_protocol.specs.Fault.{IsOfParse};

    ghost from_gives = { λ fault given. IsOfParse fault given };

    fn from(fault: ParseFault) -> LineFault {
        match fault {
            ParseFault::NotJson { line: _, column } => LineFault::NotJson { column },
            ParseFault::NoMemory => LineFault::NoMemory,
        }
    }
}

impl From<InputFault> for LineFault {
    ghost use Rattle.am_protocol.specs.Fault.{IsOfInput};

    ghost from_gives = { λ fault given. IsOfInput fault given };

    fn from(fault: InputFault) -> LineFault {
        match fault {
            InputFault::Refused {
                pointer,
                fault_kind,
            } => LineFault::Refused {
                pointer,
                fault_kind,
            },
            InputFault::NoMemory => LineFault::NoMemory,
        }
    }
}

impl From<AllocError> for LineFault {
    ghost use Rattle.std.specs.Prelude.{◌≡◌};
    ghost use Rattle.am_protocol.specs.declared.fault.LineFault.TheVariants as line_fault;

    ghost from_gives = { λ _ given. given ≡ line_fault.NoMemory };

    fn from(_refused: AllocError) -> LineFault {
        LineFault::NoMemory
    }
}

impl LineFault {
    /// Returns the fault of a call that the board refuses; the pointer is that of the call.
    pub fn of_board(pointer: &'static str, fault: Fault) -> LineFault
        ensures { IsOfBoard pointer.now fault result }
    {
        let (kind, message) = match fault {
            Fault::NoMemory => return LineFault::NoMemory,
            Fault::TooManyAlerts => (
                "TooManyNames",
                "the label set is new, and the limit of alerts is reached",
            ),
            Fault::TooManyGroups => (
                "TooManyGroups",
                "the insert would make more groups than the limit",
            ),
            Fault::TooManySilences => (
                "TooManySilences",
                "the silence is new, and the limit of silences is reached",
            ),
            Fault::TooManyOpen => (
                "TooManyOpen",
                "the begin would open a flush, and the limit of open flushes is reached",
            ),
            Fault::HistoryFull => (
                "HistoryFull",
                "the board keeps as many records as it may have; take_history hands them out",
            ),
        };
        LineFault::NotMade {
            pointer,
            kind,
            message,
        }
    }

    /// Returns the fault of a note that the board refuses.
    pub fn of_note(fault: NoteFault) -> LineFault
        ensures { IsOfNote fault result }
    {
        match fault {
            NoteFault::NoMemory => LineFault::NoMemory,
            NoteFault::HistoryFull => LineFault::of_board("/note", Fault::HistoryFull),
            NoteFault::Foreign | NoteFault::NotOpen => LineFault::not_open("/note/ticket"),
            NoteFault::NotReady => LineFault::NotMade {
                pointer: "/note/integration",
                kind: "NotReady",
                message: "the flush has no notice for the integration, or it isn't reported delivered",
            },
            NoteFault::Already => LineFault::NotMade {
                pointer: "/note/integration",
                kind: "Already",
                message: "the integration was noted before",
            },
        }
    }

    /// Returns the fault of a load that the board refuses.
    pub fn of_load(fault: LoadFault) -> LineFault
        ensures { IsOfLoad fault result }
    {
        let (pointer, kind, message) = match fault {
            LoadFault::NoMemory => return LineFault::NoMemory,
            LoadFault::HistoryFull => return LineFault::of_board("/load", Fault::HistoryFull),
            LoadFault::NoIntegration => (
                "/load/row",
                "NoIntegration",
                "there is no route of this name, its receiver is another or has no such integration, \
                 or the group's labels aren't the row's",
            ),
            LoadFault::Unordered => (
                "/load/row",
                "Unordered",
                "the label sets aren't in the order of rows, each once",
            ),
            LoadFault::Ahead => (
                "/load/row/moment",
                "Ahead",
                "the row's time is after the board's",
            ),
        };
        LineFault::NotMade {
            pointer,
            kind,
            message,
        }
    }

    /// Returns the fault of a report that isn't recorded.
    pub fn of_report(fault: ReportFault) -> LineFault
        ensures { IsOfReport fault result }
    {
        match fault {
            ReportFault::Stranger => LineFault::NotMade {
                pointer: "/report/integration",
                kind: "Stranger",
                message: "the flush has no notice for the integration that has something to send",
            },
            ReportFault::Twice => LineFault::NotMade {
                pointer: "/report/integration",
                kind: "Twice",
                message: "the notice has a report already",
            },
        }
    }

    /// Returns the fault of a ticket of which no flush is open.
    pub fn not_open(pointer: &'static str) -> LineFault
        ensures { IsRefusedAs result pointer.now (codes "NotOpen") }
    {
        LineFault::NotMade {
            pointer,
            kind: "NotOpen",
            message: "no open flush has this ticket",
        }
    }

    /// Returns the line that says the fault, if that needs no memory. After each other fault all is as before.
    pub fn ready_line(&self) -> Option<&'static str>
        ensures line { IfSome result (λ line. line.now ≡ fault_line self.now) }
        ensures one { IfSome result (λ line. IsOneLine line.now) }
        ensures none { result ≡ None → IsTrue (changes_nothing self.now) }
    {
        match self {
            LineFault::NoMemory => Some(no_memory_line()),
            LineFault::Untold => Some(UNTOLD_LINE),
            LineFault::Spent => Some(SPENT_LINE),
            _ => None,
        }
    }

    /// Writes the fault: `{"error":{"pointer":"/insert/labels","kind":"missing","message":".."}}`. For what isn't JSON
    /// there is a `column` too.
    pub fn write(&self, answer: &mut Answer) -> Result<(), AllocError>
        ensures { OnOk result (answer.new ≡ answer.old ++ fault_tokens self.now) }
    {
        let (kind, message) = self.words();
        begin("error", answer)?;
        answer.put_text("pointer", self.pointer())?;
        answer.put_text("kind", kind)?;
        self.put_column(answer)?;
        answer.put_text("message", message)?;
        end(answer)
    }

    /// Adds the column of what isn't JSON.
    fn put_column(&self, answer: &mut Answer) -> Result<(), AllocError>
        ensures { OnOk result (answer.new ≡ answer.old ++ column_member self.now) }
    {
        match self {
            LineFault::NotJson { column } => answer.put_number("column", *column as u64),
            _ => Ok(()),
        }
    }

    fn pointer(&self) -> &str
        ensures { result.now ≡ pointer_of self.now }
    {
        match self {
            LineFault::Refused {
                pointer,
                fault_kind: _,
            } => pointer.as_str(),
            LineFault::NotMade { pointer, .. } => pointer,
            _ => "",
        }
    }

    /// The kind, for programs, and the message, for people.
    fn words(&self) -> (&'static str, &'static str)
        ensures kind { result.0.now ≡ kind_of self.now }
        ensures message { result.1.now ≡ message_of self.now }
    {
        match self {
            LineFault::NotJson { .. } => (
                "json",
                "the line is no JSON text in UTF-8, or nests too deep",
            ),
            LineFault::TooLong => ("length", "the line has more than 67,108,864 bytes"),
            LineFault::NoMemory => ("memory", "out of memory"),
            LineFault::Untold => (
                "untold",
                "the call was made, and there was no memory to write its answer",
            ),
            LineFault::Spent => ("NotOpen", "no open flush has this ticket"),
            LineFault::Refused {
                pointer,
                fault_kind,
            } => (
                refusal_kind(*fault_kind),
                refusal_message(pointer.as_str(), *fault_kind),
            ),
            LineFault::NotMade { kind, message, .. } => (kind, message),
        }
    }
}

/// Returns a kind's name, which is as the readers of files name it.
fn refusal_kind(fault_kind: FaultKind) -> &'static str
    ensures { result.now ≡ refusal_kind fault_kind }
{
    match fault_kind {
        FaultKind::Missing => "missing",
        FaultKind::WrongType => "kind",
        FaultKind::BadValue => "value",
        FaultKind::Unknown => "unknown",
        FaultKind::Full => "full",
        FaultKind::Unsupported => "unsupported",
    }
}
