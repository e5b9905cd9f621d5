//! Scalars that Alertmanager reads into a text.
//!
//! Its reader of YAML keeps such a scalar as the file has it, so `7` is the text `7`. An integer
//! of JSON is written in plain decimal digits, and the reader of YAML here gives an integer only for
//! those. The text of other numbers and of flags isn't known any more (`True` is a flag too), so they
//! are refused. In `match` and `match_re` the reader of YAML keeps each text itself; there a flag is
//! one of JSON, which has one text.
ghost use Rattle.std.specs.Prelude.{◌≡◌, Some, None, IfOk, IfSome, string_bytes};
ghost use Rattle.serde_json.specs.View.{members_view, view};
ghost use Rattle.am_config.specs.Collects.{Collects};
ghost use Rattle.am_config.specs.Matchers.{matched_text_in};
ghost use Rattle.am_config.specs.Said.{IsScalar, IsTextUnlessEmpty, Says, SaysOr, non_empty};

use crate::collected::keep;
use crate::optional::{missing, said};
use am_alerts::text::Text;
use am_json::fault::{FaultKind, InputFault};
use am_json::faults::Faults;
use am_json::reader::{Object, Reader};
use serde_json::Value;
use std::alloc::{AllocError, Global};

/// The text of this value, or `Kind` where it isn't known.
pub(crate) fn text_of(reader: &Reader<'_, '_>, value: &Value) -> Result<Text, InputFault>
    ensures { IfOk result (IsScalar (view value.now)) }
{
    if let Some(digits) = digits_of(reader.alloc(), value)? {
        return Ok(Text::from(digits));
    }
    match value.as_str() {
        None => Err(reader.refuse(FaultKind::WrongType)),
        Some(text) => Ok(Text::new(reader.alloc(), text)?),
    }
}

/// The text of this value of `match` or `match_re`, or `Kind` where it isn't known.
pub(crate) fn matched_text_of(reader: &Reader<'_, '_>, value: &Value) -> Result<Text, InputFault>
    ensures { IfOk result (λ text. matched_text_in (view value.now) ≡ Some text) }
{
    match value.as_bool() {
        Some(true) => Ok(Text::new(reader.alloc(), "true")?),
        Some(false) => Ok(Text::new(reader.alloc(), "false")?),
        None => text_of(reader, value),
    }
}

/// The text of this value, if it is known and isn't empty.
pub(crate) fn known_text(alloc: Global, value: &Value) -> Result<Option<Text>, AllocError> {
    let text = match (digits_of(alloc, value)?, value.as_str()) {
        (Some(digits), _) => Text::from(digits),
        (None, Some(text)) => Text::new(alloc, text)?,
        (None, None) => return Ok(None),
    };
    Ok(Some(text).filter(|text| !text.as_str().is_empty()))
}

/// The digits of an integer, behind its sign.
fn digits_of(alloc: Global, value: &Value) -> Result<Option<String>, AllocError>
    ensures { IfOk result (λ digits. IfSome digits (λ d. IsScalar (view value.now) (string_bytes d))) }
{
    if let Some(number) = value.as_u64() {
        return Ok(Some(format!(in alloc; "{number}")?));
    }
    match value.as_i64() {
        Some(number) => Ok(Some(format!(in alloc; "{number}")?)),
        None => Ok(None),
    }
}

/// A text that isn't null and isn't empty.
pub(crate) fn optional_text(
    faults: &mut Faults,
    object: &Object<'_, '_>,
    name: &str,
) -> Result<Option<Text>, InputFault>
    ensures { IfOk result (λ text. Collects faults.old faults.new
        (SaysOr IsTextUnlessEmpty None name.now (members_view object.now.members) text)) }
{
    let Some(value) = said(object, name) else {
        return Ok(None);
    };
    let Some(text) = keep(faults, text_of(&object.member(name, value), value))? else {
        return Ok(None);
    };
    Ok(non_empty(text))
}

/// A text, unless it is empty.
fn non_empty(text: Text) -> Option<Text>
    ensures { result ≡ non_empty text }
{
    if text.as_str().is_empty() {
        return None;
    }
    Some(text)
}

/// A text that has to be there, or `Missing`.
pub(crate) fn required_text(object: &Object<'_, '_>, name: &str) -> Result<Text, InputFault>
    ensures { IfOk result (Says IsScalar name.now (members_view object.now.members)) }
{
    match said(object, name) {
        None => Err(missing(object, name)),
        Some(value) => text_of(&object.member(name, value), value),
    }
}
