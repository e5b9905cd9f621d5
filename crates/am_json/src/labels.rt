//! Label sets in JSON.
ghost use Rattle.std.specs.Prelude.{◌≡◌, IfErr, IfOk};
ghost use Rattle.am_alerts.specs.declared.labels.LabelFault.{LabelFault};
ghost use Rattle.serde_json.specs.View.{view};
ghost use Rattle.std.specs.List.{list_all};
ghost use Rattle.am_json.specs.Configured.{DecodesToLabels, DecodesToPairs, has_short_value};
ghost use Rattle.am_json.specs.Read.{Excludes};
ghost use Rattle.am_json.specs.declared.fault.InputFault.{InputFault};

use crate::config::FEW_BYTES;
use crate::fault::{FaultKind, InputFault};
use crate::reader::{FromJson, Mode, Reader};
use am_alerts::labels::{LabelFault, Labels, is_label_name};
use am_alerts::limits::{MAX_NAME_BYTES, MAX_VALUE_BYTES};

/// The name of a label and its value: an array of two texts.
impl<'v> FromJson<'v> for (&'v str, &'v str) {
    ghost use Rattle.std.specs.Prelude.{true};
    ghost use Rattle.am_json.specs.Configured.{IsPair};

    ghost decodes_to = { λ mode value pair. IsPair value pair };

    ghost never_refused = { λ _. true };

    fn read(reader: &Reader<'v, '_>) -> Result<(&'v str, &'v str), InputFault> {
        let (name, value) = reader.pair()?;
        Ok((name.text()?, value.text()?))
    }
}

impl<'v> FromJson<'v> for Labels {
    ghost use Rattle.std.specs.Prelude.{true};
    ghost use Rattle.am_json.specs.Configured.{DecodesToLabels};

    ghost decodes_to = { λ mode value labels. DecodesToLabels mode value labels };

    ghost never_refused = { λ _. true };

    fn read(reader: &Reader<'v, '_>) -> Result<Labels, InputFault> {
        read_labels(reader)
    }
}

/// Reads a label set: an array of pairs of a name and a value, or in the strict mode also an object
/// whose members are the labels. Refused as a whole, or in the strict mode at the label at fault: of
/// two of one name the second.
pub fn read_labels(reader: &Reader<'_, '_>) -> Result<Labels, InputFault>
    ensures decoded { IfOk result (DecodesToLabels reader.now.mode (view reader.now.value)) }
    ensures refused { IfErr result (Excludes (DecodesToLabels reader.now.mode (view reader.now.value))) }
{
    let pairs = read_pairs(reader)?;
    match Labels::read(reader.alloc(), pairs.as_slice()) {
        Ok(labels) => Ok(labels),
        Err(fault) => Err(refuse_labels(reader, pairs.as_slice(), fault)),
    }
}

fn read_pairs<'v>(reader: &Reader<'v, '_>) -> Result<Vec<(&'v str, &'v str)>, InputFault>
    ensures decoded { IfOk result (λ pairs. DecodesToPairs reader.now.mode (view reader.now.value) pairs.items) }
    ensures refused { IfErr result (Excludes (DecodesToPairs reader.now.mode (view reader.now.value))) }
{
    match reader.mode() {
        Mode::Lenient => read_lenient_pairs(reader),
        Mode::Strict => read_strict_pairs(reader),
    }
}

/// The pairs of an array, whose values are no longer than those of a scenario.
fn read_lenient_pairs<'v>(reader: &Reader<'v, '_>) -> Result<Vec<(&'v str, &'v str)>, InputFault>
    ensures decoded { IfOk result (λ pairs. DecodesToPairs Mode.Lenient (view reader.now.value) pairs.items) }
    ensures refused { IfErr result (Excludes (DecodesToPairs Mode.Lenient (view reader.now.value))) }
{
    let pairs = reader.list::<(&str, &str)>()?;
    if !have_short_values(pairs.as_slice()) {
        return Err(reader.refuse(FaultKind::BadValue));
    }
    Ok(pairs)
}

fn have_short_values(pairs: &[(&str, &str)]) -> bool
    ensures { result ≡ list_all has_short_value pairs.now }
{
    pairs.iter().all(|pair| pair.1.len() <= FEW_BYTES)
}

/// The members of an object, or else the pairs of an array.
fn read_strict_pairs<'v>(reader: &Reader<'v, '_>) -> Result<Vec<(&'v str, &'v str)>, InputFault>
    ensures decoded { IfOk result (λ pairs. DecodesToPairs Mode.Strict (view reader.now.value) pairs.items) }
    ensures refused { IfErr result (Excludes (DecodesToPairs Mode.Strict (view reader.now.value))) }
{
    if reader.is_object() {
        return reader.object()?.texts();
    }
    reader.list::<(&str, &str)>()
}

/// The fault that refuses pairs which are no label set for this cause.
fn refuse_labels(reader: &Reader<'_, '_>, pairs: &[(&str, &str)], cause: LabelFault) -> InputFault
    ensures { cause ≡ LabelFault.NoMemory → result ≡ InputFault.NoMemory }
{
    match cause {
        LabelFault::NoMemory => InputFault::NoMemory,
        _ => refuse_pairs(reader, pairs, cause),
    }
}

fn refuse_pairs(reader: &Reader<'_, '_>, pairs: &[(&str, &str)], fault: LabelFault) -> InputFault {
    let pointer = reader.pointer();
    for (position, (name, value)) in pairs.iter().enumerate() {
        if is_at_fault(&pairs[..position], name, value, fault) {
            return if reader.is_object() {
                reader.refuse_at(&pointer.member(name), FaultKind::BadValue)
            } else {
                reader.refuse_at(&pointer.item(position), FaultKind::BadValue)
            };
        }
    }
    reader.refuse(FaultKind::BadValue)
}

/// Whether a fault of pairs is that of this one, which comes behind these.
fn is_at_fault(before: &[(&str, &str)], name: &str, value: &str, fault: LabelFault) -> bool {
    match fault {
        LabelFault::BadName => !is_label_name(name),
        LabelFault::TooLong => name.len() > MAX_NAME_BYTES || value.len() > MAX_VALUE_BYTES,
        LabelFault::Twice => {
            !value.is_empty()
                && before
                    .iter()
                    .any(|(earlier, value)| *earlier == name && !value.is_empty())
        }
        LabelFault::Empty | LabelFault::TooMany | LabelFault::NoMemory => false,
    }
}
