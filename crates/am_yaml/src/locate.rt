//! Where values are in a text.
ghost use Rattle.std.specs.Prelude.{◌≡◌, ◌≤◌, ℕ, drop, length, IfOk};
ghost use Rattle.am_yaml.specs.Location.{IsLocationIn};

use crate::fault::Stop;
use crate::location::Location;
use crate::parser::Parser;
use crate::path::{Step, steps_of};
use crate::reader::{offset_with_returns, without_mark, without_returns};
use std::alloc::{AllocError, Global};

/// What of a member is looked for.
#[derive(Clone, Copy, PartialEq, Eq)]
pub enum Part {
    Key,
    Value,
}

/// Returns where a value is in a text of YAML or JSON, or the key of its member, by its JSON pointer: of two members
/// of one name in JSON the last one. Where the text hasn't it, or can't be read up to it, it is the key of the last value
/// on the way that it has.
pub fn locate(alloc: Global, text: &str, pointer: &str, part: Part) -> Result<Location, AllocError>
    ensures { IfOk result (λ location. IsLocationIn text.now location.line location.column) }
{
    let steps = steps_of(alloc, pointer)?;
    let text = behind_mark(text);
    let at = offset_in_lines(alloc, text, steps.as_slice(), part)?;
    let end = at.min(text.len());
    Ok(Location::behind(&text.as_bytes()[..end]))
}

/// Returns the text behind a byte order mark, if it begins with one.
fn behind_mark(text: &str) -> &str
    ensures { (mark : ℕ) × (mark ≤ 3) × (mark ≤ length text.now) × (result.now ≡ drop mark text.now) }
{
    match without_mark(text) {
        Some(rest) => rest,
        None => text,
    }
}

/// Returns the offset in a text whose lines end as they do on Unix or on Windows.
fn offset_in_lines(
    alloc: Global,
    text: &str,
    steps: &[Step],
    part: Part,
) -> Result<usize, AllocError> {
    if !text.as_bytes().contains(&b'\r') {
        return offset_of(alloc, text, steps, part);
    }
    let Ok(unix) = without_returns(alloc, text) else {
        return Err(AllocError);
    };
    let at = offset_of(alloc, unix.as_str(), steps, part)?;
    Ok(offset_with_returns(text, at))
}

fn offset_of(alloc: Global, text: &str, steps: &[Step], part: Part) -> Result<usize, AllocError> {
    let mut parser = Parser::new(alloc, text, steps);
    parser.let_repeat();
    if parser.whole_document() == Err(Stop::NoMemory) {
        return Err(AllocError);
    }
    let path = parser.path;
    if part == Part::Value && path.is_whole() {
        Ok(path.value_at())
    } else {
        Ok(path.key_at())
    }
}
