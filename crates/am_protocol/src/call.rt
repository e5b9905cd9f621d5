//! `CallName`: the names of the calls, one of which is the name of a line's one member.
ghost use Rattle.std.specs.Prelude.{◌≡◌, IfOk, IfErr, IsSomeAnd, find};
ghost use Rattle.std.specs.Str.{bytes_eq};
ghost use Rattle.serde_json.specs.Data.{member, no_members};
ghost use Rattle.serde_json.specs.View.{members_view, view};
ghost use Rattle.am_json.specs.Read.{IsRefusedBy};
ghost use Rattle.am_protocol.specs.Call.{call_named, call_text, count_fault};

use am_json::fault::{FaultKind, InputFault};
use am_json::reader::{Object, Reader};
use serde_json::Value;

/// Which call a line asks for. The first three each open a board.
#[derive(Clone, Copy)]
pub enum CallName {
    Config,
    Alertmanager,
    Open,
    Insert,
    Inserts,
    Silence,
    Begin,
    Report,
    Note,
    Finish,
    Maintain,
    RemoveEmptyGroups,
    Forget,
    Load,
    NextDue,
    Outlook,
    Status,
    Rows,
    Groups,
    Summary,
    Tickets,
    TakeHistory,
    Check,
}

/// All calls.
const CALLS: [CallName; 23] = [
    CallName::Config,
    CallName::Alertmanager,
    CallName::Open,
    CallName::Insert,
    CallName::Inserts,
    CallName::Silence,
    CallName::Begin,
    CallName::Report,
    CallName::Note,
    CallName::Finish,
    CallName::Maintain,
    CallName::RemoveEmptyGroups,
    CallName::Forget,
    CallName::Load,
    CallName::NextDue,
    CallName::Outlook,
    CallName::Status,
    CallName::Rows,
    CallName::Groups,
    CallName::Summary,
    CallName::Tickets,
    CallName::TakeHistory,
    CallName::Check,
];

impl CallName {
    /// Returns the name of the call in a line.
    fn text(self) -> &'static str
        ensures { result.now ≡ call_text self }
    {
        match self {
            CallName::Config => "config",
            CallName::Alertmanager => "alertmanager",
            CallName::Open => "open",
            CallName::Insert => "insert",
            CallName::Inserts => "inserts",
            CallName::Silence => "silence",
            CallName::Begin => "begin",
            CallName::Report => "report",
            CallName::Note => "note",
            CallName::Finish => "finish",
            CallName::Maintain => "maintain",
            CallName::RemoveEmptyGroups => "remove_empty_groups",
            CallName::Forget => "forget",
            CallName::Load => "load",
            CallName::NextDue => "next_due",
            CallName::Outlook => "outlook",
            CallName::Status => "status",
            CallName::Rows => "rows",
            CallName::Groups => "groups",
            CallName::Summary => "summary",
            CallName::Tickets => "tickets",
            CallName::TakeHistory => "take_history",
            CallName::Check => "check",
        }
    }
}

/// Returns the call of a name, if there is one.
pub(crate) fn call_named(name: &str) -> Option<CallName>
    ensures { result ≡ call_named name.now }
{
    CALLS.iter().copied().find(|call| call.text() == name)
}

/// Returns the name and the value of a line's one member. With none, or with several, the line is refused as a whole.
pub(crate) fn only_member<'v>(
    reader: &Reader<'v, '_>,
    line: &Object<'v, '_>,
) -> Result<(&'v str, &'v Value), InputFault>
    ensures one { IfOk result (λ found. members_view line.now.members ≡ member found.0.now (view found.1.now) no_members) }
    ensures refused { IfErr result (λ fault. IsSomeAnd (count_fault (members_view line.now.members)) (λ kind. IsRefusedBy kind fault)) }
{
    let members = line.members();
    let count = members.len();
    if count > 1 {
        return Err(reader.refuse(FaultKind::BadValue));
    }
    match members.first_key_value() {
        Some((name, value)) => Ok((name.as_str(), value)),
        None => Err(reader.refuse(FaultKind::Missing)),
    }
}
