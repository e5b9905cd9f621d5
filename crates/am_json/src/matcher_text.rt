//! Matchers as amtool and `alertmanager.yml` write them: `severity="critical"`, `dc=~"a|b"`.
//!
//! They are read as Alertmanager's classic parser does: escapes count with quotes and without, and
//! a backslash that escapes nothing is itself. A comma outside of quotes, a backslash at the end
//! and a lone quote are rejected. What the name can be is the matcher's own rule.
ghost use Rattle.std.specs.Prelude.{◌≡◌, ◌≢◌, ◌<◌, ◌≤◌, ◌++◌, ℕ, List, None, Some, true, false, length, slice_index, string_bytes};
ghost use Rattle.std.specs.Prelude.{IfOk, IfSome, MatchOption, option_map};
ghost use Rattle.std.specs.List.{position};
ghost use Rattle.am_alerts.specs.declared.matcher.MatcherParts.{MatcherParts};
ghost use Rattle.am_alerts.specs.declared.matcher.Operator.{Operator};
ghost use Rattle.am_alerts.specs.Matcher.{operator_text};
ghost use Rattle.am_json.specs.MatcherText.{IsMatcherText, IsUnquoted, begins_operator, unescaped};

use am_alerts::matcher::{MatcherParts, Operator};
use am_alerts::text::Text;
use std::alloc::{AllocError, Global};

/// The parts of a matcher that is written as one text, or `None` where the text is no matcher's. Whether
/// the name has the form of a label name isn't looked at.
///
/// A name, an operator and a value, with ASCII blanks around each. The value is in quotes, or it has no
/// quote in it and no comma, which would begin another matcher. In both forms `\"`, `\\` and `\n` are
/// for a quote, a backslash and a line feed, and another backslash for itself; none is at the end.
pub fn parts_of_text(alloc: Global, text: &str) -> Result<Option<MatcherParts>, AllocError>
    ensures { IfOk result (λ parts.
        MatchOption parts ((m : MatcherParts) → IsMatcherText text.now m → ⊥) (IsMatcherText text.now)) }
{
    let Some((name, op, written)) = split(text) else {
        return Ok(None);
    };
    let Some(inner) = without_quotes(written.trim_ascii()) else {
        return Ok(None);
    };
    let Some(value) = unescaped(alloc, inner)? else {
        return Ok(None);
    };
    Ok(Some(MatcherParts {
        name: Text::new(alloc, name.trim_ascii())?,
        op,
        value: Text::from(value),
    }))
}

/// What is before the operator, the operator, and what is behind it.
fn split(text: &str) -> Option<(&str, Operator, &str)>
    ensures is { IfSome result (λ parts. text.now ≡ parts.0.now ++ (operator_text parts.1 ++ parts.2.now)) }
    ensures begins { IfSome result (λ parts. position begins_operator text.now ≡ Some (length parts.0.now)) }
    ensures longest { IfSome result (λ parts. parts.1 ≡ Operator.Equal → slice_index parts.2.now 0 ≢ 126) }
    ensures none { result ≡ None → (name value : List ℕ) (op : Operator) → text.now ≡ name ++ (operator_text op ++ value)
        → position begins_operator text.now ≢ Some (length name) }
{
    let (name, rest) = text.split_at(operator_index(text)?);
    let (op, value) = operator_in(rest)?;
    Some((name, op, value))
}

/// Where the operator begins: with the first `=` or `!`.
fn operator_index(text: &str) -> Option<usize>
    ensures { result ≡ position begins_operator text.now }
{
    text.bytes().position(|byte| byte == b'=' || byte == b'!')
}

/// The longest operator with which a text begins, and what is behind it.
fn operator_in(text: &str) -> Option<(Operator, &str)>
    ensures is { IfSome result (λ read. text.now ≡ operator_text read.0 ++ read.1.now) }
    ensures longest { IfSome result (λ read. read.0 ≡ Operator.Equal → slice_index read.1.now 0 ≢ 126) }
    ensures none { result ≡ None → (value : List ℕ) (op : Operator) → text.now ≢ operator_text op ++ value }
{
    if let Some(value) = text.strip_prefix("=~") {
        return Some((Operator::Like, value));
    }
    if let Some(value) = text.strip_prefix("!~") {
        return Some((Operator::NotLike, value));
    }
    if let Some(value) = text.strip_prefix("!=") {
        return Some((Operator::NotEqual, value));
    }
    match text.strip_prefix("=") {
        None => None,
        Some(value) => Some((Operator::Equal, value)),
    }
}

/// What is in the quotes of a value, or the whole where it is in none and needs none.
fn without_quotes(written: &str) -> Option<&str>
    ensures { MatchOption result ((inner : List ℕ) → IsUnquoted written.now inner → ⊥)
        (λ inner. IsUnquoted written.now inner.now) }
{
    match written.strip_prefix('"') {
        Some(quoted) => quoted.strip_suffix('"'),
        None if written.contains('"') || written.contains(',') => None,
        None => Some(written),
    }
}

/// What is written so with escapes. `None` where a quote has no backslash before it, or where the last
/// backslash has nothing behind it.
fn unescaped(alloc: Global, written: &str) -> Result<Option<String>, AllocError>
    ensures { IfOk result (λ value. option_map string_bytes value ≡ unescaped false written.now) }
{
    let mut value = String::new(alloc);
    let mut rest = written;
    while let Some((plain, behind)) = rest.split_once('\\') {
        if plain.contains('"') {
            return Ok(None);
        }
        if behind.is_empty() {
            return Ok(None);
        }
        value.push_str(plain)?;
        rest = push_escaped(behind, &mut value)?;
    }
    if rest.contains('"') {
        return Ok(None);
    }
    value.push_str(rest)?;
    Ok(Some(value))
}

/// Adds what a backslash before this text represents, with the character that it escapes; answers what is left.
fn push_escaped<'t>(behind: &'t str, value: &mut String) -> Result<&'t str, AllocError>
    requires { 0 < length behind.now }
    ensures holds { IfOk result (λ rest. (added : List ℕ) × (string_bytes value.new ≡ string_bytes value.old ++ added)
        × (unescaped true behind.now ≡ option_map (λ r. added ++ r) (unescaped false rest.now))) }
    ensures less { IfOk result (λ rest. length rest.now ≤ length behind.now) }
{
    if let Some(rest) = behind.strip_prefix('n') {
        value.push('\n')?;
        return Ok(rest);
    }
    if let Some(rest) = behind.strip_prefix('"') {
        value.push('"')?;
        return Ok(rest);
    }
    value.push('\\')?;
    match behind.strip_prefix('\\') {
        Some(rest) => Ok(rest),
        None => Ok(behind),
    }
}
