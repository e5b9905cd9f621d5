//! The options of a route that the routes below it inherit.
ghost use Rattle.std.specs.Prelude.{◌≡◌, IfOk, None, OnOk, codes, false};
ghost use Rattle.std.specs.List.{list_all, list_any};
ghost use Rattle.std.specs.Str.{bytes_eq};
ghost use Rattle.serde_json.specs.View.{items_view, members_view, view};
ghost use Rattle.serde_json.specs.declared.value.Value.{Value};
ghost use Rattle.am_config.specs.Collects.{Collects, Grows};
ghost use Rattle.am_config.specs.Routes.{AreLabels, HasOptions, IsGrouping, is_all};
ghost use Rattle.am_config.specs.Rules.{IsLabelName};
ghost use Rattle.am_config.specs.Said.{IsTextUnlessEmpty, SaysOr};

use crate::collected::keep;
use crate::inhibit::label_name;
use crate::optional::{non_null, optional_duration, optional_interval};
use crate::route::Routing;
use crate::scalar::optional_text;
use am_alerts::limits::MAX_LABEL_NAMES;
use am_alerts::route::GroupBy;
use am_alerts::sequence::Sequence;
use am_alerts::text::Text;
use am_alerts::tree::Options;
use am_json::fault::{FaultKind, InputFault};
use am_json::faults::Faults;
use am_json::reader::{Object, Reader};
use serde_json::Value;

/// The item of `group_by` that means all labels.
const ALL_LABELS: &str = "...";

/// Reads what a route says of its receiver, its groups and its times.
pub(crate) fn read_options(
    faults: &mut Faults,
    routing: &Routing<'_>,
    route: &Object<'_, '_>,
) -> Result<Options, InputFault>
    ensures { IfOk result (λ options. Collects faults.old faults.new (HasOptions (members_view route.now.members) options)) }
{
    let receiver = read_receiver(faults, routing, route)?;
    let group_by = read_group_by(faults, route)?;
    let group_wait = optional_duration(faults, route, "group_wait")?;
    let group_interval = optional_interval(faults, route, "group_interval")?;
    let repeat_interval = optional_interval(faults, route, "repeat_interval")?;
    Ok(Options {
        receiver,
        group_by,
        group_wait,
        group_interval,
        repeat_interval,
    })
}

/// Reads the name of a receiver, which is refused where there is none of the name. The empty text says
/// none.
fn read_receiver(
    faults: &mut Faults,
    routing: &Routing<'_>,
    route: &Object<'_, '_>,
) -> Result<Option<Text>, InputFault>
    ensures { IfOk result (λ receiver. Collects faults.old faults.new
        (SaysOr IsTextUnlessEmpty None (codes "receiver") (members_view route.now.members) receiver)) }
{
    let Some(name) = optional_text(faults, route, "receiver")? else {
        return Ok(None);
    };
    check_receiver(faults, routing, route, name.as_str())?;
    Ok(Some(name))
}

/// Refuses the name of a receiver that there isn't.
fn check_receiver(
    faults: &mut Faults,
    routing: &Routing<'_>,
    route: &Object<'_, '_>,
    name: &str,
) -> Result<(), InputFault>
    ensures { OnOk result (Grows faults.old faults.new) }
{
    if routing.has_receiver(name) {
        return Ok(());
    }
    faults.push(route.required("receiver")?.refuse(FaultKind::BadValue))
}

/// Reads the labels by which a route groups. `...` represents all of them, and with no other. An empty
/// array says nothing.
fn read_group_by(faults: &mut Faults, route: &Object<'_, '_>) -> Result<Option<GroupBy>, InputFault>
    ensures { IfOk result (λ group_by. Collects faults.old faults.new
        (SaysOr IsGrouping None (codes "group_by") (members_view route.now.members) group_by)) }
{
    match non_null(route, "group_by") {
        None => Ok(None),
        Some(member) => group_by_in(faults, &member),
    }
}

fn group_by_in(faults: &mut Faults, member: &Reader<'_, '_>) -> Result<Option<GroupBy>, InputFault>
    ensures { IfOk result (λ group_by. Collects faults.old faults.new (IsGrouping (view member.now.value) group_by)) }
{
    let Some(items) = keep(faults, member.array())? else {
        return Ok(None);
    };
    if items.is_empty() {
        return Ok(None);
    }
    if are_all_labels(items) {
        return Ok(Some(GroupBy::All));
    }
    if items.len() > MAX_LABEL_NAMES || items.iter().any(is_all_labels) {
        faults.push(member.refuse(FaultKind::BadValue))?;
        return Ok(None);
    }
    let names = read_names(faults, member, items)?;
    Ok(Some(GroupBy::Names(Sequence::from(names))))
}

/// Whether each item means all labels.
fn are_all_labels(items: &[Value]) -> bool
    ensures { result ≡ list_all (λ (item : Value). is_all (view item)) items.now }
{
    items.iter().all(is_all_labels)
}

fn is_all_labels(item: &Value) -> bool
    ensures { result ≡ is_all (view item.now) }
{
    match item.as_str() {
        None => false,
        Some(text) => text == ALL_LABELS,
    }
}

/// Reads names of labels, each of which is once.
fn read_names<'v>(
    faults: &mut Faults,
    member: &Reader<'v, '_>,
    items: &'v [Value],
) -> Result<Vec<Text>, InputFault>
    ensures { IfOk result (λ names. Collects faults.old faults.new (AreLabels (items_view items.now) names.items)) }
{
    let mut names = Vec::new(member.alloc());
    for (index, value) in items.iter().enumerate() {
        let item = member.item(index, value);
        let Some(name) = keep(faults, further_name(names.as_slice(), &item))? else {
            continue;
        };
        names.push(name)?;
    }
    Ok(names)
}

/// Reads the name of a label that comes behind these. One of these is refused.
fn further_name(before: &[Text], item: &Reader<'_, '_>) -> Result<Text, InputFault>
    ensures name { IfOk result (IsLabelName (view item.now.value)) }
    ensures further { IfOk result (λ name. list_any (λ known. bytes_eq known name) before.now ≡ false) }
{
    let name = label_name(item)?;
    if before.contains(&name) {
        return Err(item.refuse(FaultKind::BadValue));
    }
    Ok(name)
}
