//! Whole patterns.
ghost use Rattle.std.specs.Prelude.{◌≡◌, ◌+◌, ◌*◌, ◌≤◌, false, chars, IsTrue, IfOk, IfSome, None, Ok, length, string_bytes, string_len};
ghost use Rattle.am_patterns.specs.Simple.{is_simple};
ghost use Rattle.am_patterns.specs.Translation.{anchored, greatest_length, grouped, IsValue};

use crate::fault::{FaultKind, PatternError, PatternFault, Stop, Wrong};
use crate::simple::is_simple;
use crate::text::byte_offset;
use crate::translator::Translator;
use std::alloc::{AllocError, Global};

/// How many groups of a pattern can be within one another.
pub const MAX_GROUPS: usize = 250;

/// How many bytes `anchored` puts before a pattern.
const FRAME: usize = 4;

/// Returns the pattern of the kit's `regex` that has the same matches as a pattern of Go's `regexp`.
/// Tests show this, not the contract.
///
/// # Errors
///
/// `Rejected` where Go rejects the pattern, and where more than `MAX_GROUPS` groups are open.
/// `NoMemory` if there is no memory.
pub fn translate(alloc: Global, pattern: &str) -> Result<String, PatternError>
    ensures { IfOk result (λ text. string_len text ≤ 64 * length (chars pattern.now)) }
{
    let text = characters(alloc, pattern)?;
    match Translator::new(alloc).run(&text) {
        Ok(translation) => Ok(translation),
        Err(Stop::NoMemory) => Err(PatternError::NoMemory),
        Err(Stop::Wrong(wrong)) => Err(PatternError::Rejected(located(&text, wrong))),
    }
}

/// Returns the value that a matcher has for a pattern of Go's: `^(?:v)$`, in the syntax of the kit's
/// `regex`, has the same matches as `^(?:p)$` in Go's. `None`: the pattern is simple, and is its own
/// value. A fault's offsets are those in `p`.
///
/// A pattern is simple if it has only characters that represent themselves, dots, bars, `^`, `$`,
/// groups, special characters behind a backslash, and operators of one character, each behind a
/// character, a dot or a group. The value of another pattern isn't simple.
///
/// # Errors
///
/// As `translate`. `Rejected` also where the end of `^(?:p)$` belongs to a quotation or to flags
/// that `p` begins, as in `a)|b\Q`. Never for a simple pattern.
pub fn translate_value(alloc: Global, pattern: &str) -> Result<Option<String>, PatternError>
    ensures simple { IsTrue (is_simple pattern.now) → result ≡ Ok None }
    ensures value { IfOk result (IsValue pattern.now) }
{
    if is_simple(pattern) {
        return Ok(None);
    }
    let whole = translate_whole(alloc, pattern)?;
    let Some(value) = without_frame(whole.as_str()) else {
        return Err(unframed(pattern));
    };
    Ok(Some(not_simple(alloc, value)?))
}

/// The translation of `^(?:p)$`.
fn translate_whole(alloc: Global, pattern: &str) -> Result<String, PatternError>
    ensures { IfOk result (λ text. string_len text ≤ greatest_length pattern.now) }
{
    let framed = anchored(alloc, pattern)?;
    match translate(alloc, framed.as_str()) {
        Err(PatternError::Rejected(fault)) => Err(within(alloc, pattern, fault)),
        outcome => outcome,
    }
}

/// What is between `^(?:` and `)$`. `None` where a text has none of them at its ends.
fn without_frame(text: &str) -> Option<&str>
    ensures { IfSome result (λ value. text.now ≡ anchored value.now) }
{
    text.strip_prefix("^(?:")?.strip_suffix(")$")
}

/// The fault of a pattern of which the end of `^(?:p)$` becomes a part.
fn unframed(pattern: &str) -> PatternError {
    PatternError::Rejected(PatternFault {
        kind: FaultKind::Unframed,
        start: 0,
        end: pattern.len(),
    })
}

/// A pattern with the same matches that isn't simple: the pattern, or a group of it.
fn not_simple(alloc: Global, pattern: &str) -> Result<String, AllocError>
    ensures written { IfOk result (λ text. is_simple (string_bytes text) ≡ false) }
    ensures length { IfOk result (λ text. string_len text ≤ length pattern.now + 4) }
{
    if !is_simple(pattern) {
        return String::from_str(alloc, pattern);
    }
    grouped(alloc, pattern)
}

/// `(?:p)`.
fn grouped(alloc: Global, pattern: &str) -> Result<String, AllocError>
    ensures { IfOk result (λ text. string_bytes text ≡ grouped pattern.now) }
{
    let mut text = String::from_str(alloc, "(?:")?;
    text.push_str(pattern)?;
    text.push_str(")")?;
    Ok(text)
}

/// The characters of a text.
fn characters(alloc: Global, text: &str) -> Result<Vec<char>, AllocError>
    ensures { IfOk result (λ v. v.items ≡ chars text.now) }
{
    let characters = text.chars().collect(alloc)?;
    Ok(characters)
}

/// `^(?:p)$`.
fn anchored(alloc: Global, pattern: &str) -> Result<String, AllocError>
    ensures { IfOk result (λ text. string_bytes text ≡ anchored pattern.now) }
{
    let mut text = String::from_str(alloc, "^(?:")?;
    text.push_str(pattern)?;
    text.push_str(")$")?;
    Ok(text)
}

/// The fault of `^(?:p)$`, with offsets in `p`: those of the fault that `p` has alone, if it has one.
fn within(alloc: Global, pattern: &str, fault: PatternFault) -> PatternError {
    let length = pattern.len();
    let (start, end) = match translate(alloc, pattern) {
        Err(PatternError::NoMemory) => return PatternError::NoMemory,
        Err(PatternError::Rejected(own)) => (own.start, own.end),
        Ok(_) => (
            fault.start.saturating_sub(FRAME).min(length),
            fault.end.saturating_sub(FRAME).min(length),
        ),
    };
    PatternError::Rejected(PatternFault {
        kind: fault.kind,
        start,
        end,
    })
}

/// The fault, with byte offsets.
fn located(text: &[char], wrong: Wrong) -> PatternFault {
    PatternFault {
        kind: wrong.kind,
        start: byte_offset(text, wrong.start),
        end: byte_offset(text, wrong.end),
    }
}
