//! Lists whose JSON values are let go one by one, each as soon as it was read: its memory serves what
//! is made of the next.
//!
//! Such a value is taken out of the one that holds it, and is read as a value of its own. A fault in
//! it is then given at its pointer in the other (`under`).
ghost use Rattle.std.specs.Prelude.{◌≡◌, IfErr, IfOk, IsErrAnd, IsTrue, List, option_map, vec_len};
ghost use Rattle.std.specs.List.{list_all};
ghost use Rattle.std.specs.Result.{result_ok};
ghost use Rattle.serde_json.specs.Find.{as_array, get};
ghost use Rattle.serde_json.specs.View.{items_view, view};
ghost use Rattle.am_json.specs.Decoding.{DecodeEach, IsList};
ghost use Rattle.am_json.specs.Read.{Excludes, IsRefusedBy, is_refusal};

use am_json::fault::{FaultKind, InputFault};
use am_json::pointer::JsonPointer;
use serde_json::Value;
use std::alloc::{AllocError, Global};

/// What is read from a value of its own, in the lenient mode.
pub trait FromOwned: Drop + Sized {
    ghost use Rattle.std.specs.Prelude.{Bool};
    ghost use Rattle.serde_json.specs.Data.{Data};

    // What a JSON value says.
    ghost decodes_to: { Data → Self → Type 0 };

    // Whether what says this is never refused.
    ghost never_refused: { Self → Bool };

    /// Reads it, and lets the value go. The first fault is answered, at its pointer in the value.
    fn read_owned(alloc: Global, value: Value) -> Result<Self, InputFault>
        ensures decoded { IfOk result (decodes_to (view value)) }
        ensures refused { IfErr result (Excludes (λ x. decodes_to (view value) x × IsTrue (never_refused x))) };
}

/// The items of an array, or `Kind`.
pub fn read_list<T: FromOwned>(alloc: Global, value: Value) -> Result<Vec<T>, InputFault>
    ensures decoded { IfOk result (λ items. IsList T.decodes_to (view value) items.items) }
    ensures refused { IfErr result (Excludes (λ (items : List T).
        IsList T.decodes_to (view value) items × IsTrue (list_all T.never_refused items))) }
{
    let values = into_array(alloc, value)?;
    read_items::<T>(alloc, values)
}

/// The values in an array, or `Kind`.
pub fn into_array(alloc: Global, value: Value) -> Result<Vec<Value>, InputFault>
    ensures items { option_map (λ values. items_view values.items) (result_ok result) ≡ as_array (view value) }
    ensures refused { IfErr result (IsRefusedBy FaultKind.WrongType) }
{
    match value {
        Value::Array(values) => Ok(values),
        _ => Err(JsonPointer::Root.refuse(alloc, FaultKind::WrongType)),
    }
}

/// The items of a list, each read wholly before the next.
pub fn read_items<T: FromOwned>(alloc: Global, values: Vec<Value>) -> Result<Vec<T>, InputFault>
    ensures count { IfOk result (λ items. vec_len items ≡ vec_len values) }
    ensures decoded { IfOk result (λ items. DecodeEach T.decodes_to (items_view values.items) items.items) }
    ensures refused { IfErr result (Excludes (λ (items : List T).
        DecodeEach T.decodes_to (items_view values.items) items × IsTrue (list_all T.never_refused items))) }
{
    let mut items = Vec::new(alloc);
    for value in values {
        let index = items.len();
        items.push(read_item::<T>(alloc, index, value)?)?;
    }
    Ok(items)
}

/// The item at an index of a list.
fn read_item<T: FromOwned>(alloc: Global, index: usize, value: Value) -> Result<T, InputFault>
    ensures decoded { IfOk result (T.decodes_to (view value)) }
    ensures refused { IfErr result (Excludes (λ x. T.decodes_to (view value) x × IsTrue (T.never_refused x))) }
{
    let root = JsonPointer::Root;
    let item = T::read_owned(alloc, value);
    under(alloc, &root.item(index), item)
}

/// The member of this name of an object, whose other members are let go.
pub fn into_member(value: Value, name: &str) -> Option<Value>
    ensures { option_map view result ≡ get name.now (view value) }
{
    match value {
        Value::Object(mut members) => members.remove(name),
        _ => None,
    }
}

/// Returns what was read from a value at this pointer; a fault gets the pointer.
pub fn under<X: Drop>(
    alloc: Global,
    above: &JsonPointer<'_>,
    read: Result<X, InputFault>,
) -> Result<X, InputFault>
    ensures decoded { result_ok result ≡ result_ok read }
    ensures refused { IfErr result (λ fault. IsErrAnd read (λ below. IsTrue (is_refusal fault) → IsTrue (is_refusal below))) }
{
    match read {
        Ok(item) => Ok(item),
        Err(InputFault::NoMemory) => Err(InputFault::NoMemory),
        Err(
            InputFault::Refused {
                pointer,
                fault_kind,
            },
        ) => match joined(alloc, above, pointer.as_str()) {
            Ok(pointer) => Err(InputFault::Refused {
                pointer,
                fault_kind,
            }),
            Err(_) => Err(InputFault::NoMemory),
        },
    }
}

/// A pointer, and one below it.
fn joined(alloc: Global, above: &JsonPointer<'_>, below: &str) -> Result<String, AllocError> {
    let mut pointer = above.text(alloc)?;
    pointer.push_str(below)?;
    Ok(pointer)
}
