//! What is wanted where a value is refused, in words for people.
//!
//! The reader of a value says its pointer and the kind of the fault alone. The rule goes by these: at each pointer there is one.
ghost use Rattle.std.specs.Prelude.{◌≡◌, nat_eq};
ghost use Rattle.std.specs.List.{ends_with, starts_with};
ghost use Rattle.am_protocol.specs.Wanted.{argument_message, check_message, insert_message, is_member, load_message};
ghost use Rattle.am_protocol.specs.Wanted.{open_message, refusal_message, silence_message, value_message};

use am_json::fault::FaultKind;

/// Returns the message for a value that is refused at a pointer by this kind of fault.
pub(crate) fn refusal_message(pointer: &str, fault_kind: FaultKind) -> &'static str
    ensures { result.now ≡ refusal_message pointer.now fault_kind }
{
    match fault_kind {
        FaultKind::Missing => {
            if pointer == "" {
                "the line has no call: it has to be an object with one member"
            } else if pointer == "/check" {
                "a check has one member: matchers, labels, config, alertmanager or open"
            } else {
                "this member is missing"
            }
        }
        FaultKind::WrongType => {
            if pointer == "" {
                "a line has to be an object with one member, the call"
            } else {
                "another type of JSON value is wanted here; numbers are whole, from 0 on"
            }
        }
        FaultKind::BadValue => value_message(pointer.as_bytes()),
        FaultKind::Unknown => "no member of this name is known here",
        FaultKind::Full => "there is no space for this",
        FaultKind::Unsupported => {
            if pointer == "/alertmanager" || pointer == "/check/alertmanager" {
                "a route is muted by time: the call open says which day that is"
            } else {
                "this can't be reproduced exactly"
            }
        }
    }
}

/// Returns the message for a value that isn't accepted.
fn value_message(pointer: &[u8]) -> &'static str
    ensures { result.now ≡ value_message pointer.now }
{
    if begins(pointer, b"/insert") || begins(pointer, b"/status") {
        insert_message(pointer)
    } else if begins(pointer, b"/silence") {
        silence_message(pointer)
    } else if begins(pointer, b"/load/row") {
        load_message(pointer)
    } else if begins(pointer, b"/check") {
        check_message(pointer)
    } else if begins(pointer, b"/open") {
        open_message(pointer)
    } else {
        argument_message(pointer)
    }
}

/// Returns the message for an insert or a status, in which a label can have the name of a member.
fn insert_message(pointer: &[u8]) -> &'static str
    ensures { result.now ≡ insert_message pointer.now }
{
    if is_member(pointer, b"/now", b"/labels/now") {
        "a now has to be below 10^15 ms; a text has to be a duration such as 1h30m"
    } else if is_member(pointer, b"/starts", b"/labels/starts") {
        "starts after 10^15 ms, or is a text that is no duration such as 1h30m"
    } else if is_member(pointer, b"/ends", b"/labels/ends") {
        "ends before it starts, or after 10^15 ms, or is a text that is no duration such as 1h30m"
    } else {
        "there have to be 1 to 64 labels with a value, each name once; a name has letters, digits and _, and no digit first; \
         a name over 1,024 bytes or a value over 16,384 is too long"
    }
}

/// Returns the message for a silence.
fn silence_message(pointer: &[u8]) -> &'static str
    ensures { result.now ≡ silence_message pointer.now }
{
    if ends(pointer, b"/now") {
        "a now has to be below 10^15 ms; a text has to be a duration such as 1h30m"
    } else if ends(pointer, b"/starts") {
        "starts after 10^15 ms, or is a text that is no duration such as 1h30m"
    } else if ends(pointer, b"/ends") {
        "ends before it starts, or after 10^15 ms, or is a text that is no duration such as 1h30m"
    } else if ends(pointer, b"/matchers") {
        "a silence has 1 to 128 matchers"
    } else {
        "a matcher has to be a label name, one of = != =~ !~, and a value; a name over 1,024 bytes or a value over 16,384 is too long; \
         after =~ and !~ the value has to be a regex"
    }
}

/// Returns the message for a row that is loaded.
fn load_message(pointer: &[u8]) -> &'static str
    ensures { result.now ≡ load_message pointer.now }
{
    if ends(pointer, b"/row/moment") {
        "a time has to be a number of milliseconds, or a duration such as 1h30m"
    } else if ends(pointer, b"/row/expiry") {
        "a time has to be a number of milliseconds, or a duration such as 1h30m"
    } else if ends(pointer, b"/row/integration") {
        "a position is at most 4,294,967,295"
    } else {
        "there have to be 1 to 64 labels with a value, each name once; a name has letters, digits and _, and no digit first; \
         a name over 1,024 bytes or a value over 16,384 is too long"
    }
}

/// Returns the message for a configuration with the clocks of its time intervals.
fn open_message(pointer: &[u8]) -> &'static str
    ensures { result.now ≡ open_message pointer.now }
{
    if begins(pointer, b"/open/alertmanager") {
        if ends(pointer, b"/location") {
            "a location has to be one of zones; UTC needs none"
        } else {
            "no board may have this: am-rehearse check says what is wanted; up to the horizon a route can be muted 8,192 times"
        }
    } else if begins(pointer, b"/open/zones") {
        "there can be 64 zones, each a POSIX rule such as CET-1CEST,M3.5.0,M10.5.0/3, or its file in base64"
    } else if ends(pointer, b"/now") {
        "a now has to be below 10^15 ms; a text has to be a duration such as 1h30m"
    } else if ends(pointer, b"/start") {
        "a start has to be a date and time such as 2026-11-23T08:00:00Z"
    } else if ends(pointer, b"/horizon") {
        "a time has to be a number of milliseconds, or a duration such as 1h30m"
    } else {
        "from now to the horizon times have to be in the years 1 to 9999; without a start they count from 1970"
    }
}

/// Returns the message for a part of another line, in a check.
fn check_message(pointer: &[u8]) -> &'static str
    ensures { result.now ≡ check_message pointer.now }
{
    if ends(pointer, b"/check/matchers") {
        "a silence has 1 to 128 matchers"
    } else if begins(pointer, b"/check/matchers") {
        "a matcher has to be a label name, one of = != =~ !~, and a value; a name over 1,024 bytes or a value over 16,384 is too long; \
         after =~ and !~ the value has to be a regex"
    } else if begins(pointer, b"/check/labels") {
        "there have to be 1 to 64 labels with a value, each name once; a name has letters, digits and _, and no digit first; \
         a name over 1,024 bytes or a value over 16,384 is too long"
    } else if begins(pointer, b"/check/config") {
        "no board may have this: docs/scenarios.md has what is wanted"
    } else if begins(pointer, b"/check/alertmanager") {
        "no board may have this: am-rehearse check says what is wanted"
    } else if begins(pointer, b"/check/open") {
        "no board may have this: the call open says what is wanted"
    } else {
        "a check has one member: matchers, labels, config, alertmanager or open"
    }
}

/// Returns the message for a configuration, or for an argument of another call.
fn argument_message(pointer: &[u8]) -> &'static str
    ensures { result.now ≡ argument_message pointer.now }
{
    if begins(pointer, b"/config") {
        "no board may have this: docs/scenarios.md has what is wanted"
    } else if begins(pointer, b"/alertmanager") {
        "no board may have this: am-rehearse check says what is wanted"
    } else if ends(pointer, b"/now") {
        "a now has to be below 10^15 ms; a text has to be a duration such as 1h30m"
    } else if ends(pointer, b"/outcome") {
        "an outcome is delivered, refused, expired or starved"
    } else if ends(pointer, b"/integration") {
        "a position is at most 4,294,967,295"
    } else {
        "a line has one member, the call"
    }
}

/// Whether a pointer is that of a member, and not of a label with its name.
fn is_member(pointer: &[u8], member: &[u8], label: &[u8]) -> bool
    ensures { result ≡ is_member pointer.now member.now label.now }
{
    ends(pointer, member) && !ends(pointer, label)
}

fn begins(pointer: &[u8], part: &[u8]) -> bool
    ensures { result ≡ starts_with nat_eq pointer.now part.now }
{
    pointer.starts_with(part)
}

fn ends(pointer: &[u8], part: &[u8]) -> bool
    ensures { result ≡ ends_with nat_eq pointer.now part.now }
{
    pointer.ends_with(part)
}
