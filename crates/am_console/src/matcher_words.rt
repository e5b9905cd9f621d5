//! Matchers and patterns, and what is wrong with one, in words.
ghost use Rattle.std.specs.Prelude.{◌≡◌, ◌≢◌, IfErr, IfOk, IsErr};
ghost use Rattle.am_alerts.specs.declared.matcher.MatcherFault.{MatcherFault};
ghost use Rattle.am_console.specs.MatcherWords.{IsMatcherOf, IsNoMatcher};

use am_alerts::limits::MAX_VALUE_BYTES;
use am_alerts::matcher::{Matcher, MatcherFault, MatcherParts, Operator};
use am_alerts::text::Text;
use am_json::fault::FaultKind;
use am_json::matcher_text::parts_of_text;
use am_json::translated::translated_matcher;
use am_patterns::fault::{self, PatternError, PatternFault};
use am_patterns::{translate, translate_value};
use serde_json::Value;
use std::alloc::{AllocError, Global};

/// The fields that have matchers.
const FIELDS: [&str; 8] = [
    "has",
    "has_resolved",
    "of",
    "matchers",
    "source",
    "target",
    "source_matchers",
    "target_matchers",
];

/// The fields of an `alertmanager.yml` that have a pattern for each name.
const PATTERN_FIELDS: [&str; 3] = ["match_re", "source_match_re", "target_match_re"];

/// What to write for a backslash.
const WRITE_BACKSLASH: &str = "write \\\\ for a backslash";

/// What to write where a quotation takes in what is behind the pattern.
const END_QUOTATION: &str = "end \\Q with \\E";

/// Returns the matcher that a text writes.
pub fn matcher_of(alloc: Global, text: &str) -> Result<Matcher, MatcherFault>
    ensures written { IfOk result (IsMatcherOf text.now) }
    ensures refused { IfErr result (λ fault. fault ≢ MatcherFault.NoMemory → IsNoMatcher text.now) }
{
    match parts_of_text(alloc, text) {
        Ok(Some(parts)) => translated_matcher(alloc, parts),
        Ok(None) => Err(MatcherFault::BadName),
        Err(_) => Err(MatcherFault::NoMemory),
    }
}

/// Returns what is wrong with a text that a matcher isn't made of, in words.
pub fn words_for(alloc: Global, text: &str, fault: MatcherFault) -> Result<String, AllocError>
    ensures { fault ≡ MatcherFault.NoMemory → IsErr result }
{
    match fault {
        MatcherFault::NoMemory => Err(AllocError),
        MatcherFault::BadName => format!(in alloc;
            "`{text}` is no matcher; write it as severity=\"critical\" or dc=~\"a|b\""
        ),
        MatcherFault::BadPattern => words_or(
            alloc,
            text,
            "has a pattern that is too big, or nests too deeply, once it is built",
        ),
        MatcherFault::TooLong => words_or(
            alloc,
            text,
            "is too long: a name has at most 1,024 bytes, and a value 16,384",
        ),
    }
}

/// Returns what is wrong with the pattern of a matcher that is written as one text, or else these words.
fn words_or(alloc: Global, text: &str, other: &str) -> Result<String, AllocError> {
    if let Some(parts) = parts_of_text(alloc, text)?
        && (parts.op == Operator::Like || parts.op == Operator::NotLike)
        && let Some(words) = pattern_words(alloc, parts.value.as_str())?
    {
        return format!(in alloc; "`{text}`{words}");
    }
    format!(in alloc; "`{text}` {other}")
}

/// Returns what is wrong with a pattern, behind its text, if something is.
fn pattern_words(alloc: Global, pattern: &str) -> Result<Option<String>, AllocError> {
    match translate_value(alloc, pattern) {
        Ok(Some(value)) if value.len() > MAX_VALUE_BYTES && pattern.len() <= MAX_VALUE_BYTES => {
            let count = value.len();
            Ok(Some(format!(in alloc;
                " has {count} bytes once the pattern is written in the syntax of Rust's `regex`, and can have 16,384"
            )?))
        }
        Ok(_) => Ok(None),
        Err(PatternError::NoMemory) => Err(AllocError),
        Err(PatternError::Rejected(fault)) => Ok(Some(fault_words(alloc, pattern, fault)?)),
    }
}

/// Returns RE2's words for a fault, the part of the pattern, the number of its first character, and what to write.
fn fault_words(alloc: Global, pattern: &str, fault: PatternFault) -> Result<String, AllocError> {
    let before = pattern.get(..fault.start).unwrap_or("");
    let number = before.chars().count().saturating_add(1);
    let part = pattern.get(fault.start..fault.end).unwrap_or(pattern);
    let hint = match unclosed(alloc, pattern, fault)? {
        Some(hint) => hint,
        None => hint_for(fault.kind),
    };
    format!(in alloc; ": {fault}: `{part}`, from character {number} of the pattern; {hint}")
}

/// Returns what to write where a pattern is rejected because its end makes the parenthesis behind it a character.
fn unclosed(
    alloc: Global,
    pattern: &str,
    fault: PatternFault,
) -> Result<Option<&'static str>, AllocError> {
    if fault.kind != fault::FaultKind::MissingParenthesis {
        return Ok(None);
    }
    match translate(alloc, pattern) {
        Ok(_) => Ok(Some(END_QUOTATION)),
        Err(PatternError::NoMemory) => Err(AllocError),
        Err(PatternError::Rejected(own)) if own.kind == fault::FaultKind::TrailingBackslash => {
            Ok(Some(WRITE_BACKSLASH))
        }
        Err(PatternError::Rejected(_)) => Ok(None),
    }
}

/// Returns what to write in place of what RE2 rejects.
fn hint_for(kind: fault::FaultKind) -> &'static str {
    match kind {
        fault::FaultKind::InvalidRange => "write a range as [a-z]",
        fault::FaultKind::InvalidEscape | fault::FaultKind::TrailingBackslash => { WRITE_BACKSLASH }
        fault::FaultKind::InvalidName => "write a name as (?P<name>a)",
        fault::FaultKind::InvalidFlags => "RE2 has no (?=a), (?!a), (?<=a) and (?<name>a)",
        fault::FaultKind::NestedRepetition => "put what is repeated into a group, as (?:a*)*",
        fault::FaultKind::InvalidCount => {
            "a count is at most 1,000, also counts within counts, multiplied"
        }
        fault::FaultKind::MissingBracket => "write \\[ for a bracket",
        fault::FaultKind::MissingParenthesis | fault::FaultKind::UnexpectedParenthesis => {
            "write \\( or \\) for a parenthesis"
        }
        fault::FaultKind::MissingArgument => "write .* for any text, and \\* for a star",
        fault::FaultKind::TooDeep => "at most 250 groups can be in one another",
        fault::FaultKind::Unframed => END_QUOTATION,
    }
}

/// Returns what is wrong with the matcher, or the pattern, at a JSON pointer, if it is written as one text and its pattern is wrong, or it
/// is too long.
pub fn explain_matcher(
    alloc: Global,
    top: &Value,
    pointer: &str,
    fault_kind: FaultKind,
) -> Result<Option<String>, AllocError> {
    let Some(text) = top.pointer(pointer).and_then(Value::as_str) else {
        return Ok(None);
    };
    if fault_kind != FaultKind::BadValue {
        return Ok(None);
    }
    if is_of_patterns(top, pointer) {
        return explain_pattern(alloc, text);
    }
    if !is_of_matchers(pointer) {
        return Ok(None);
    }
    match matcher_of(alloc, text) {
        Ok(_) | Err(MatcherFault::BadName) => Ok(None),
        Err(fault) => Ok(Some(words_for(alloc, text, fault)?)),
    }
}

/// Returns what is wrong with a pattern, if something is.
fn explain_pattern(alloc: Global, pattern: &str) -> Result<Option<String>, AllocError> {
    if let Some(words) = pattern_words(alloc, pattern)? {
        return Ok(Some(format!(in alloc; "`{pattern}`{words}")?));
    }
    // (any name will do: the pattern is built for its size)
    let parts = MatcherParts {
        name: Text::new(alloc, "a")?,
        op: Operator::Like,
        value: Text::new(alloc, pattern)?,
    };
    match translated_matcher(alloc, parts) {
        Err(MatcherFault::BadPattern) => Ok(Some(format!(in alloc;
            "`{pattern}` is too big, or nests too deeply, once it is built"
        )?)),
        Err(MatcherFault::NoMemory) => Err(AllocError),
        _ => Ok(None),
    }
}

/// Returns whether a pointer leads to a pattern: of a name, or of a matcher of three texts.
fn is_of_patterns(top: &Value, pointer: &str) -> bool {
    let Some((parent, last)) = pointer.rsplit_once('/') else {
        return false;
    };
    if PATTERN_FIELDS.contains(&last_of(parent)) {
        return true;
    }
    let operator = top
        .pointer(parent)
        .and_then(|matcher| matcher.get(1))
        .and_then(Value::as_str);
    last == "2" && is_of_matchers(parent) && (operator == Some("=~") || operator == Some("!~"))
}

/// Returns whether a pointer leads to an item of a list of matchers.
fn is_of_matchers(pointer: &str) -> bool {
    match pointer.rsplit_once('/') {
        None => false,
        Some((list, _)) => FIELDS.contains(&last_of(list)),
    }
}

/// Returns what is behind the last slash of a pointer.
fn last_of(pointer: &str) -> &str {
    match pointer.rsplit_once('/') {
        None => pointer,
        Some((_, name)) => name,
    }
}
