//! Faults that are collected: what is read without one is what the value says.
ghost use Rattle.std.specs.Prelude.{◌≡◌, IfOk, IsSome, IsTrue, OnOk, map};
ghost use Rattle.std.specs.Result.{result_ok};
ghost use Rattle.serde_json.specs.View.{members_view};
ghost use Rattle.am_json.specs.Read.{are_named};
ghost use Rattle.am_config.specs.Collects.{Collects};

use am_json::fault::{FaultKind, InputFault};
use am_json::faults::Faults;
use am_json::reader::{Object, is_one_of};

/// What was read; nothing where it is refused, and then its fault is kept.
pub(crate) fn keep<T: Drop>(
    faults: &mut Faults,
    read: Result<T, InputFault>,
) -> Result<Option<T>, InputFault>
    ensures kept { IfOk result (λ kept. kept ≡ result_ok read) }
    ensures collects { IfOk result (λ kept. Collects faults.old faults.new (IsSome kept)) }
{
    match read {
        Ok(read) => Ok(Some(read)),
        Err(fault) => {
            faults.push(fault)?;
            Ok(None)
        }
    }
}

/// Refuses each member of an object, by name, that has none of these names.
pub(crate) fn only(
    faults: &mut Faults,
    object: &Object<'_, '_>,
    names: &[&str],
) -> Result<(), InputFault>
    ensures { OnOk result (Collects faults.old faults.new
        (IsTrue (are_named (map (λ name. name.now) names.now) (members_view object.now.members)))) }
{
    for (name, value) in object.members().iter() {
        if is_one_of(names, name.as_str()) {
            continue;
        }
        let member = object.member(name.as_str(), value);
        faults.push(member.refuse(FaultKind::Unknown))?;
    }
    Ok(())
}
