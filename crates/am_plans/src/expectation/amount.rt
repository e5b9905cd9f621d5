//! How many notices an expectation wants.
ghost use Rattle.std.specs.Prelude.{◌≡◌, ◌&&◌, ◌||◌, IfErr, IfOk, None, OnOk, Some, false, true, is_some};
ghost use Rattle.serde_json.specs.Find.{get_member};
ghost use Rattle.serde_json.specs.View.{members_view};
ghost use Rattle.am_json.specs.Read.{Excludes, number_in};
ghost use Rattle.am_plans.specs.Expected.{IsAmountIn, amount_of, member_if, says_content};

use am_json::fault::{FaultKind, InputFault};
use am_json::reader::Object;
use am_terms::expectation::Amount;

/// The amount that `none`, `never`, `count` or `at_most` says, of which one is said at most; at least one notice
/// where none of them is.
pub(crate) fn read_amount(item: &Object<'_, '_>) -> Result<Amount, InputFault>
    ensures decoded { IfOk result (IsAmountIn (members_view item.now.members)) }
    ensures refused { IfErr result (Excludes (IsAmountIn (members_view item.now.members))) }
{
    let is_none = item.flag_or("none", false)?;
    let is_never = item.flag_or("never", false)?;
    let count = read_number(item, "count")?;
    let at_most = read_number(item, "at_most")?;
    check_alone(item, is_none)?;
    check_once(item, is_none, is_never)?;
    let amount = amount_or_refuse(item, says_never(is_none, is_never), count, at_most)?;
    Ok(amount)
}

/// Whether one of the two flags says that there is no notice.
fn says_never(is_none: bool, is_never: bool) -> bool
    ensures { result ≡ (is_none || is_never) }
{
    is_none || is_never
}

/// Rejects `none` with fields that say what a notice has.
fn check_alone(item: &Object<'_, '_>, is_none: bool) -> Result<(), InputFault>
    ensures alone { OnOk result ((is_none && says_content (members_view item.now.members)) ≡ false) }
    ensures refused { IfErr result (λ _. (is_none && says_content (members_view item.now.members)) ≡ true) }
{
    if is_none && says_content(item) {
        return Err(item.required("none")?.refuse(FaultKind::BadValue));
    }
    Ok(())
}

/// Rejects `never` with `none`.
fn check_once(item: &Object<'_, '_>, is_none: bool, is_never: bool) -> Result<(), InputFault>
    ensures once { OnOk result ((is_none && is_never) ≡ false) }
    ensures refused { IfErr result (λ _. (is_none && is_never) ≡ true) }
{
    if is_none && is_never {
        return Err(item.required("never")?.refuse(FaultKind::BadValue));
    }
    Ok(())
}

fn amount_or_refuse(
    item: &Object<'_, '_>,
    is_never: bool,
    count: Option<u64>,
    at_most: Option<u64>,
) -> Result<Amount, InputFault>
    ensures amount { IfOk result (λ amount. amount_of is_never count at_most ≡ Some amount) }
    ensures refused { IfErr result (λ _. amount_of is_never count at_most ≡ None) }
{
    match amount_of(is_never, count, at_most) {
        None => Err(second_of(item, at_most)),
        Some(amount) => Ok(amount),
    }
}

/// A number, if the member of this name is there.
fn read_number(item: &Object<'_, '_>, name: &str) -> Result<Option<u64>, InputFault>
    ensures number { IfOk result (λ number.
        member_if number_in (get_member name.now (members_view item.now.members)) ≡ Some number) }
    ensures refused { IfErr result (λ _.
        member_if number_in (get_member name.now (members_view item.now.members)) ≡ None) }
{
    match item.optional(name) {
        None => Ok(None),
        Some(member) => Ok(Some(member.number()?)),
    }
}

fn amount_of(is_never: bool, count: Option<u64>, at_most: Option<u64>) -> Option<Amount>
    ensures { result ≡ amount_of is_never count at_most }
{
    match (is_never, count, at_most) {
        (false, None, None) => Some(Amount::AtLeastOne),
        (false, Some(count), None) => Some(Amount::Exactly(count)),
        (false, None, Some(most)) => Some(Amount::AtMost(most)),
        (false, Some(_), Some(_)) => None,
        (true, None, None) => Some(Amount::AtMost(0)),
        (true, None, Some(_)) => None,
        (true, Some(_), _) => None,
    }
}

/// The fault of an expectation that says two amounts, at the second of them.
fn second_of(item: &Object<'_, '_>, at_most: Option<u64>) -> InputFault {
    let name = if at_most.is_some() {
        "at_most"
    } else {
        "count"
    };
    match item.required(name) {
        Ok(member) => member.refuse(FaultKind::BadValue),
        Err(fault) => fault,
    }
}

/// Whether an expectation says what a notice has to say. `of` does too.
fn says_content(item: &Object<'_, '_>) -> bool
    ensures { result ≡ says_content (members_view item.now.members) }
{
    has_member(item, "firing")
        || has_member(item, "resolved")
        || has_member(item, "exactly")
        || has_member(item, "has")
        || has_member(item, "has_resolved")
        || has_member(item, "of")
        || has_member(item, "reason")
}

fn has_member(item: &Object<'_, '_>, name: &str) -> bool
    ensures { result ≡ is_some (get_member name.now (members_view item.now.members)) }
{
    item.optional(name).is_some()
}
