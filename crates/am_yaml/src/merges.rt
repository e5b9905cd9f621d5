//! What a merge key, `<<`, adds to a mapping.
ghost use Rattle.std.specs.Prelude.{◌≡◌, IfOk, OnOk, Some, is_some, option_map};
ghost use Rattle.serde_json.specs.Find.{get_member};
ghost use Rattle.serde_json.specs.View.{items_view, members_view, view};
ghost use Rattle.am_yaml.specs.Merges.{merged_with, put_missing, with_items, with_mapping, with_missing};

use serde_json::{Map, Value, put};
use std::alloc::{AllocError, Global};

/// Why nothing is merged.
pub(crate) enum MergeFault {
    /// The value is no mapping, and no sequence of mappings.
    Kind,
    NoMemory,
}

impl From<AllocError> for MergeFault {
    fn from(_refused: AllocError) -> MergeFault {
        MergeFault::NoMemory
    }
}

/// Returns the value of a name.
pub(crate) fn member_of<'v>(members: &'v Map<String, Value>, name: &str) -> Option<&'v Value>
    ensures { option_map (λ v. view v.now) result ≡ get_member name.now (members_view members.now.entries) }
{
    members.get(name)
}

/// Returns a copy of the value of a name.
pub(crate) fn copy_of(members: &Map<String, Value>, name: &str) -> Result<Option<Value>, AllocError>
    ensures { IfOk result (λ found. option_map view found ≡ get_member name.now (members_view members.now.entries)) }
{
    match member_of(members, name) {
        Some(value) => Ok(Some(value.clone()?)),
        None => Ok(None),
    }
}

/// Adds a member unless one has its name.
fn add_new(
    alloc: Global,
    members: &mut Map<String, Value>,
    name: &str,
    value: &Value,
) -> Result<(), AllocError>
    ensures { OnOk result (members_view members.new.entries ≡ put_missing name.now (view value.now) (members_view members.old.entries)) }
{
    match member_of(members, name) {
        Some(_) => Ok(()),
        None => put(members, alloc, name, value.clone()?),
    }
}

/// Adds the members whose names aren't there.
pub(crate) fn add_missing(
    alloc: Global,
    members: &mut Map<String, Value>,
    others: &Map<String, Value>,
) -> Result<(), AllocError>
    ensures { OnOk result (members_view members.new.entries ≡ with_missing (members_view members.old.entries)
        (members_view others.now.entries)) }
{
    for (name, value) in others.iter() {
        add_new(alloc, members, name.as_str(), value)?;
    }
    Ok(())
}

/// Adds the members of a mapping whose names aren't there.
fn add_mapping(
    alloc: Global,
    members: &mut Map<String, Value>,
    value: &Value,
) -> Result<(), MergeFault>
    ensures { OnOk result (with_mapping (members_view members.old.entries) (view value.now) ≡ Some (members_view members.new.entries)) }
{
    match value {
        Value::Object(others) => {
            add_missing(alloc, members, others)?;
            Ok(())
        }
        _ => Err(MergeFault::Kind),
    }
}

/// Adds the members of each mapping whose names aren't there.
fn add_items(
    alloc: Global,
    members: &mut Map<String, Value>,
    items: &Vec<Value>,
) -> Result<(), MergeFault>
    ensures { OnOk result (with_items (members_view members.old.entries) (items_view items.now.items)
        ≡ Some (members_view members.new.entries)) }
{
    for item in items {
        add_mapping(alloc, members, item)?;
    }
    Ok(())
}

/// Adds the members of a mapping, or of each of a sequence, whose names aren't there.
pub(crate) fn merge(
    alloc: Global,
    members: &mut Map<String, Value>,
    value: &Value,
) -> Result<(), MergeFault>
    ensures { OnOk result (merged_with (members_view members.old.entries) (view value.now) ≡ Some (members_view members.new.entries)) }
{
    match value {
        Value::Array(items) => add_items(alloc, members, items),
        Value::Object(others) => {
            add_missing(alloc, members, others)?;
            Ok(())
        }
        _ => Err(MergeFault::Kind),
    }
}
