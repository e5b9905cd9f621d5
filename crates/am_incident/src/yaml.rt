//! Texts in YAML.
use std::alloc::AllocError;

/// Names that YAML doesn't read as texts, in one of their spellings at least.
const NO_TEXTS: [&str; 8] = ["null", "true", "false", "yes", "no", "on", "off", "y"];

/// Adds a label's name as a key.
pub(crate) fn push_key(name: &str, out: &mut String) -> Result<(), AllocError> {
    let is_plain = name
        .bytes()
        .all(|byte| byte.is_ascii_alphanumeric() || byte == b'_');
    let is_other = NO_TEXTS
        .iter()
        .any(|other| name.eq_ignore_ascii_case(other))
        || name.len() < 2;
    if is_plain && !is_other {
        return out.push_str(name);
    }
    push_quoted(name, out)
}

/// Adds a text in double quotes.
pub(crate) fn push_quoted(text: &str, out: &mut String) -> Result<(), AllocError> {
    out.push('"')?;
    for character in text.chars() {
        match escape_of(character) {
            Some(escape) => out.push_str(escape)?,
            None => push_shown(character, out)?,
        }
    }
    out.push('"')
}

/// Adds a character, by its number where YAML does not allow it as itself.
fn push_shown(character: char, out: &mut String) -> Result<(), AllocError> {
    match character {
        '\0'..='\u{1f}'
        | '\u{7f}'..='\u{9f}'
        | '\u{2028}'
        | '\u{2029}'
        | '\u{feff}'
        | '\u{fffe}'
        | '\u{ffff}' => { write!(out, "\\u{:04x}", character as u32) }
        _ => out.push(character),
    }
}

/// Returns what is in double quotes for a character that can't be there itself, in YAML as in a matcher.
pub(crate) fn escape_of(character: char) -> Option<&'static str> {
    match character {
        '"' => Some("\\\""),
        '\\' => Some("\\\\"),
        '\n' => Some("\\n"),
        _ => None,
    }
}
