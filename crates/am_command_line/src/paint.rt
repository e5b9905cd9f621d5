//! Colors of a timeline.
use std::alloc::{AllocError, Global};

/// The words of a timeline's lines, each with its color.
const COLORS: [(&str, &str); 4] = [
    ("  notice  ", GREEN),
    ("  failed  ", RED),
    ("  muted   ", YELLOW),
    ("  quiet   ", FAINT),
];

const GREEN: &str = "\u{1b}[32m";

const RED: &str = "\u{1b}[31m";

const YELLOW: &str = "\u{1b}[33m";

const FAINT: &str = "\u{1b}[2m";

/// Returns the text of a timeline with a color for each line that has one.
pub fn painted(alloc: Global, text: &str) -> Result<String, AllocError> {
    let mut out = String::new(alloc);
    for line in text.split_inclusive('\n') {
        push_painted(line, &mut out)?;
    }
    Ok(out)
}

/// Adds a line in its color. The last line of a text may have no end.
fn push_painted(line: &str, out: &mut String) -> Result<(), AllocError> {
    let content = line.strip_suffix("\n").unwrap_or(line);
    let Some(color) = color_of(content) else {
        return out.push_str(line);
    };
    write!(out, "{color}{content}\u{1b}[0m")?;
    if content.len() < line.len() {
        out.push('\n')?;
    }
    Ok(())
}

/// Returns the color of a line, by its word, or by what became of an expectation.
fn color_of(line: &str) -> Option<&'static str> {
    if line.starts_with("expect ") {
        let is_unmet = line.ends_with(": not met");
        return Some(if is_unmet { RED } else { GREEN });
    }
    for (word, color) in &COLORS {
        if line.contains(*word) {
            return Some(*color);
        }
    }
    None
}
