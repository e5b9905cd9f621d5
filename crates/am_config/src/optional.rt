//! Fields that can be absent or null.
ghost use Rattle.std.specs.Prelude.{◌≡◌, ◌↔◌, [], Some, None, IfOk, IfSome, IsSome, IsTrue, OnOk, option_map};
ghost use Rattle.std.specs.Result.{result_ok};
ghost use Rattle.serde_json.specs.Find.{as_array, get_member};
ghost use Rattle.serde_json.specs.View.{items_view, members_view, view};
ghost use Rattle.am_alerts.specs.declared.matcher.Operator.{Operator};
ghost use Rattle.am_json.specs.Decoding.{IsFlag, IsObject};
ghost use Rattle.am_json.specs.Read.{number_in};
ghost use Rattle.am_config.specs.Collects.{Collects};
ghost use Rattle.am_config.specs.Matchers.{AreInArray, ArePairs};
ghost use Rattle.am_config.specs.Routes.{IsPeriod, IsWait};
ghost use Rattle.am_config.specs.Said.{ListsNothing, SaysOr, said};

use crate::collected::keep;
use am_json::duration::{duration, interval};
use am_json::fault::{FaultKind, InputFault};
use am_json::faults::Faults;
use am_json::reader::{Object, Reader};
use serde_json::Value;

/// The value of a member that says something: `null` says nothing.
pub(crate) fn said<'v>(object: &Object<'v, '_>, name: &str) -> Option<&'v Value>
    ensures { option_map (λ v. view v.now) result ≡ said name.now (members_view object.now.members) }
{
    let Some(value) = value_in(object, name) else {
        return None;
    };
    if value.is_null() {
        return None;
    }
    Some(value)
}

/// The value of a member that is there.
fn value_in<'v>(object: &Object<'v, '_>, name: &str) -> Option<&'v Value>
    ensures { option_map (λ v. view v.now) result ≡ get_member name.now (members_view object.now.members) }
{
    object.members().get(name)
}

/// A member that says something.
pub(crate) fn non_null<'v, 'q>(object: &'q Object<'v, '_>, name: &'q str) -> Option<Reader<'v, 'q>>
    ensures { option_map (λ r. view r.value) result ≡ said name.now (members_view object.now.members) }
{
    match said(object, name) {
        None => None,
        Some(value) => Some(object.member(name, value)),
    }
}

/// A member that has to say something, or `Missing`.
pub(crate) fn required<'v, 'q>(
    object: &'q Object<'v, '_>,
    name: &'q str,
) -> Result<Reader<'v, 'q>, InputFault>
    ensures { option_map (λ r. view r.value) (result_ok result) ≡ said name.now (members_view object.now.members) }
{
    match non_null(object, name) {
        None => Err(missing(object, name)),
        Some(member) => Ok(member),
    }
}

/// The fault of a member that has to say something.
pub(crate) fn missing(object: &Object<'_, '_>, name: &str) -> InputFault {
    match object.required(name) {
        Err(missing) => missing,
        Ok(member) => member.refuse(FaultKind::Missing),
    }
}

/// The items of an array that may have so many. More are refused unread.
pub(crate) fn items_up_to<'v>(
    faults: &mut Faults,
    member: &Reader<'v, '_>,
    most: usize,
) -> Result<Option<&'v [Value]>, InputFault>
    ensures items { IfOk result (λ items. IfSome items (λ s. as_array (view member.now.value) ≡ Some (items_view s.now))) }
    ensures collects { IfOk result (λ items. Collects faults.old faults.new (IsSome items)) }
{
    let Some(items) = keep(faults, member.array())? else {
        return Ok(None);
    };
    if items.len() > most {
        faults.push(member.refuse(FaultKind::BadValue))?;
        return Ok(None);
    }
    Ok(Some(items))
}

/// A flag, or what it is where it is null or absent.
pub(crate) fn flag_or(
    faults: &mut Faults,
    object: &Object<'_, '_>,
    name: &str,
    without_member: bool,
) -> Result<bool, InputFault>
    ensures { IfOk result (λ flag. Collects faults.old faults.new
        (SaysOr IsFlag without_member name.now (members_view object.now.members) flag)) }
{
    match non_null(object, name) {
        None => Ok(without_member),
        Some(member) => Ok(keep(faults, member.flag())?.unwrap_or(without_member)),
    }
}

/// A duration that isn't null, in milliseconds. A zero can be a number.
pub(crate) fn optional_duration(
    faults: &mut Faults,
    object: &Object<'_, '_>,
    name: &str,
) -> Result<Option<u64>, InputFault>
    ensures { IfOk result (λ wait. Collects faults.old faults.new
        (SaysOr IsWait None name.now (members_view object.now.members) wait)) }
{
    match non_null(object, name) {
        None => Ok(None),
        Some(member) => wait_in(faults, &member),
    }
}

/// A duration, in milliseconds. A zero can be a number.
fn wait_in(faults: &mut Faults, member: &Reader<'_, '_>) -> Result<Option<u64>, InputFault>
    ensures { IfOk result (λ wait. Collects faults.old faults.new (IsWait (view member.now.value) wait)) }
{
    if is_zero(member) {
        return Ok(Some(0));
    }
    let wait = keep(faults, duration(member))?;
    Ok(wait)
}

/// A duration that isn't null, in milliseconds; zero is refused.
pub(crate) fn optional_interval(
    faults: &mut Faults,
    object: &Object<'_, '_>,
    name: &str,
) -> Result<Option<u64>, InputFault>
    ensures { IfOk result (λ interval. Collects faults.old faults.new
        (SaysOr IsPeriod None name.now (members_view object.now.members) interval)) }
{
    match non_null(object, name) {
        None => Ok(None),
        Some(member) => interval_in(faults, &member),
    }
}

/// A duration, in milliseconds; zero is refused.
fn interval_in(faults: &mut Faults, member: &Reader<'_, '_>) -> Result<Option<u64>, InputFault>
    ensures { IfOk result (λ interval. Collects faults.old faults.new (IsPeriod (view member.now.value) interval)) }
{
    if is_zero(member) {
        faults.push(member.refuse(FaultKind::BadValue))?;
        return Ok(None);
    }
    let found = keep(faults, interval(member))?;
    Ok(found)
}

/// Whether a value is the number 0, the one duration that is written without a unit.
pub(crate) fn is_zero(member: &Reader<'_, '_>) -> bool
    ensures { IsTrue result ↔ (number_in (view member.now.value) ≡ Some 0) }
{
    match member.number() {
        Ok(number) => number == 0,
        Err(_) => false,
    }
}

/// Whether an array that isn't null has an item. Another kind is refused.
pub(crate) fn has_items(
    faults: &mut Faults,
    object: &Object<'_, '_>,
    name: &str,
) -> Result<bool, InputFault> {
    let Some(member) = non_null(object, name) else {
        return Ok(false);
    };
    let items = faults.kept(member.array())?;
    Ok(items.is_some_and(|items| !items.is_empty()))
}

/// Refuses an array that isn't null and has an item, and another kind.
pub(crate) fn refuse_items(
    faults: &mut Faults,
    object: &Object<'_, '_>,
    name: &str,
) -> Result<(), InputFault>
    ensures matchers { OnOk result (Collects faults.old faults.new (SaysOr AreInArray [] name.now (members_view object.now.members) [])) }
    ensures nothing { OnOk result (Collects faults.old faults.new (ListsNothing name.now (members_view object.now.members))) }
{
    let Some(member) = non_null(object, name) else {
        return Ok(());
    };
    let Some(items) = keep(faults, member.array())? else {
        return Ok(());
    };
    if items.is_empty() {
        return Ok(());
    }
    faults.push(member.refuse(FaultKind::BadValue))
}

/// Refuses an object that isn't null and has a member, and another kind.
pub(crate) fn refuse_members(
    faults: &mut Faults,
    object: &Object<'_, '_>,
    name: &str,
) -> Result<(), InputFault>
    ensures { OnOk result (Collects faults.old faults.new ((op : Operator) →
        SaysOr (IsObject (ArePairs op)) [] name.now (members_view object.now.members) [])) }
{
    let Some(member) = non_null(object, name) else {
        return Ok(());
    };
    let Some(pairs) = keep(faults, member.object())? else {
        return Ok(());
    };
    if pairs.members().is_empty() {
        return Ok(());
    }
    faults.push(member.refuse(FaultKind::BadValue))
}
