//! Labels of alerts in answers.
use am_json::fault::InputFault;
use am_json::reader::{Object, is_one_of};
use serde_json::Value;

/// Reads the members of an object as labels, without those of these names. A label with an empty value is none.
pub(crate) fn read_labels(
    object: &Object<'_, '_>,
    left_out: &[&str],
) -> Result<Vec<(String, String)>, InputFault> {
    let mut labels = Vec::new(object.alloc());
    for (name, value) in object.members().iter() {
        if !is_one_of(left_out, name.as_str()) {
            push_label(object, name.as_str(), value, &mut labels)?;
        }
    }
    Ok(labels)
}

fn push_label<'v>(
    object: &Object<'v, '_>,
    name: &str,
    value: &'v Value,
    labels: &mut Vec<(String, String)>,
) -> Result<(), InputFault> {
    let text = object.member(name, value).text()?;
    if text.is_empty() {
        return Ok(());
    }
    let name = String::from_str(object.alloc(), name)?;
    labels.push((name, String::from_str(object.alloc(), text)?))?;
    Ok(())
}
