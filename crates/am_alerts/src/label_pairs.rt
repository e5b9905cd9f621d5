//! Pairs of a name and a value, before they are checked and are a label set.
//!
//! Cost: the square of the number of pairs that have a value, at most 64.
ghost use Rattle.std.specs.Prelude.{◌≡◌, ◌&&◌, filter, length, IfOk, bytes_eq};
ghost use Rattle.std.specs.List.{list_any};
ghost use Rattle.am_alerts.specs.Fault.{ok_unless, first_fault};
ghost use Rattle.am_alerts.specs.Labels.{has_value, has_text_twice, names_of, with_values, label_in, labels_in, pair_fault, set_fault};

use crate::labels::{LabelFault, is_label_name};
use crate::limits::{MAX_LABELS, MAX_NAME_BYTES, MAX_VALUE_BYTES};
use std::alloc::{AllocError, Global};

/// Refuses the first pair that is no label, by `BadName`, then by `TooLong`.
pub(crate) fn check_pairs(pairs: &[(&str, &str)]) -> Result<(), LabelFault>
    ensures { result ≡ ok_unless (first_fault pair_fault (labels_in pairs.now)) tt }
{
    for pair in pairs {
        check_pair(pair)?;
    }
    Ok(())
}

fn check_pair(pair: &(&str, &str)) -> Result<(), LabelFault>
    ensures { result ≡ ok_unless (pair_fault (label_in pair.now)) tt }
{
    if !is_label_name(pair.0) {
        return Err(LabelFault::BadName);
    }
    if pair.0.len() > MAX_NAME_BYTES || pair.1.len() > MAX_VALUE_BYTES {
        return Err(LabelFault::TooLong);
    }
    Ok(())
}

/// Refuses pairs of which those with a value are no label set, by `TooMany`, `Twice` and `Empty`.
pub(crate) fn check_set(pairs: &[(&str, &str)]) -> Result<(), LabelFault>
    ensures { result ≡ ok_unless (set_fault (with_values (labels_in pairs.now))) tt }
{
    let count = count_values(pairs);
    if count > MAX_LABELS {
        return Err(LabelFault::TooMany);
    }
    if has_name_twice(pairs) {
        return Err(LabelFault::Twice);
    }
    if count == 0 {
        return Err(LabelFault::Empty);
    }
    Ok(())
}

/// The pairs that have a value.
pub(crate) fn with_values<'a, 'b>(
    alloc: Global,
    pairs: &[(&'a str, &'b str)],
) -> Result<Vec<(&'a str, &'b str)>, AllocError>
    ensures { IfOk result (λ kept. labels_in kept.items ≡ with_values (labels_in pairs.now)) }
{
    let mut kept = Vec::with_capacity(alloc, pairs.len())?;
    for pair in pairs {
        if has_value(pair) {
            kept.push(*pair)?;
        }
    }
    Ok(kept)
}

fn has_value(pair: &(&str, &str)) -> bool
    ensures { result ≡ has_value (label_in pair.now) }
{
    pair.1.len() > 0
}

fn count_values(pairs: &[(&str, &str)]) -> usize
    ensures { result ≡ length (filter (λ p. has_value (label_in p)) pairs.now) }
{
    pairs.iter().filter(|pair| has_value(pair)).count()
}

fn has_name_twice(pairs: &[(&str, &str)]) -> bool
    ensures { result ≡ has_text_twice (names_of (with_values (labels_in pairs.now))) }
{
    for (i, pair) in pairs.iter().enumerate() {
        if has_value(pair) && has_name(&pairs[i + 1..], pair.0) {
            return true;
        }
    }
    false
}

fn has_name(pairs: &[(&str, &str)], name: &str) -> bool
    ensures { result ≡ list_any (λ p. has_value (label_in p) && bytes_eq p.0.now name.now) pairs.now }
{
    pairs.iter().any(|pair| has_value(pair) && pair.0 == name)
}
