//! Texts and numbers as content of elements. Each text that isn't the page's own goes through `escape` of `am_timeline`.
use am_alerts::labels::Labels;
use am_timeline::escape::{push_cut, push_escaped};
use am_timeline::shown::push_text;
use std::alloc::{AllocError, Global};

/// How many characters of a text are shown.
const MOST: usize = 700;

/// Adds a text as content of an element. A mark that turns the direction of writing is its number: it would turn the rest
/// of the line.
pub(crate) fn push_content(text: &str, out: &mut String) -> Result<(), AllocError> {
    let mut from: usize = 0;
    for (at, c) in text.char_indices() {
        if is_direction(c) {
            push_escaped(text.get(from..at).unwrap_or(""), out)?;
            push_direction(c, out)?;
            from = at.saturating_add(c.len_utf8());
        }
    }
    push_escaped(text.get(from..).unwrap_or(""), out)
}

/// Adds at most `MOST` characters of a text, and `…` if it has more.
pub(crate) fn push_short(text: &str, out: &mut String) -> Result<(), AllocError> {
    push_cut(text, MOST, out)
}

/// Adds a label set: a value of plain characters has no quotes.
pub(crate) fn push_labels(
    alloc: Global,
    labels: &Labels,
    out: &mut String,
) -> Result<(), AllocError> {
    let mut text = String::new(alloc);
    for (name, value) in labels.pairs() {
        push_label(name, value, &mut text)?;
    }
    out.push_str("{")?;
    push_short(text.as_str(), out)?;
    out.push_str("}")
}

/// Adds the labels of an alert that its fold doesn't have, if there are any.
pub(crate) fn push_own_labels(
    alloc: Global,
    labels: &Labels,
    fold: &Labels,
    out: &mut String,
) -> Result<(), AllocError> {
    let mut text = String::new(alloc);
    for (name, value) in labels.pairs() {
        if fold.get(name) != Some(value) {
            push_label(name, value, &mut text)?;
        }
    }
    push_short(text.as_str(), out)
}

/// Adds a label behind the others.
fn push_label(name: &str, value: &str, out: &mut String) -> Result<(), AllocError> {
    if !out.is_empty() {
        out.push_str(", ")?;
    }
    out.push_str(name)?;
    out.push_str("=")?;
    push_value(value, out)
}

/// Adds a value, in quotes unless it has plain characters alone.
pub(crate) fn push_value(value: &str, out: &mut String) -> Result<(), AllocError> {
    if is_plain(value) {
        return out.push_str(value);
    }
    out.push_str("\"")?;
    push_upright(value, out)?;
    out.push_str("\"")
}

/// Adds the text of a value, with marks of direction as in `push_content`.
fn push_upright(value: &str, out: &mut String) -> Result<(), AllocError> {
    let mut from: usize = 0;
    for (at, c) in value.char_indices() {
        if is_direction(c) {
            push_text(value.get(from..at).unwrap_or(""), out)?;
            push_direction(c, out)?;
            from = at.saturating_add(c.len_utf8());
        }
    }
    push_text(value.get(from..).unwrap_or(""), out)
}

/// Adds the number of a mark of direction.
fn push_direction(mark: char, out: &mut String) -> Result<(), AllocError> {
    write!(out, "\\u{{{:x}}}", mark as u32)
}

/// Whether a character turns the direction of writing, and has no width of its own.
fn is_direction(c: char) -> bool {
    matches!(c, '\u{61c}' | '\u{200e}' | '\u{200f}' | '\u{202a}'..='\u{202e}' | '\u{2066}'..='\u{2069}')
}

/// Whether a value has plain characters alone: those of a host with a port, or of a path.
fn is_plain(value: &str) -> bool {
    !value.is_empty() && value.chars().all(|c| is_plain_char(c))
}

fn is_plain_char(c: char) -> bool {
    matches!(c, 'a'..='z' | 'A'..='Z' | '0'..='9' | '_' | '.' | ':' | '/' | '-')
}

/// Adds a number.
pub(crate) fn push_number(number: u64, out: &mut String) -> Result<(), AllocError> {
    write!(out, "{number}")
}

/// Adds a text of the page's own and then a number.
pub(crate) fn push_with(front: &str, number: u64, out: &mut String) -> Result<(), AllocError> {
    out.push_str(front)?;
    push_number(number, out)
}

/// Adds a number and a noun, which is in the plural but after 1.
pub(crate) fn push_count(count: usize, noun: &str, out: &mut String) -> Result<(), AllocError> {
    push_number(count as u64, out)?;
    out.push_str(" ")?;
    out.push_str(noun)?;
    if count != 1 {
        out.push_str("s")?;
    }
    Ok(())
}
