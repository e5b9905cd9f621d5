//! The reloads and restarts of a story, and how they are read, except for the configurations of reloads.
ghost use Rattle.std.specs.Prelude.{◌≡◌, ◌==◌, ◌&&◌, ◌∷◌, [], IfErr, IfOk, IsTrue, List, OnOk, length, map, nat_le, nat_lt};
ghost use Rattle.std.specs.Prelude.{not, option_map};
ghost use Rattle.std.specs.List.{list_any};
ghost use Rattle.std.specs.Result.{result_ok};
ghost use Rattle.serde_json.specs.Find.{as_array, get_member};
ghost use Rattle.serde_json.specs.View.{items_view, members_view, view};
ghost use Rattle.am_json.specs.Decoding.{DecodeEach, HasOr};
ghost use Rattle.am_json.specs.Read.{Excludes};
ghost use Rattle.am_plans.specs.declared.dispatcher_change.TheConstants.{MAX_DISPATCHER_CHANGES};
ghost use Rattle.am_plans.specs.DispatcherChange.{AddsItems, AreItemsIn, DecodesTo, DecodesToReload, DecodesToRestart, IsListOrOne};
ghost use Rattle.am_plans.specs.DispatcherChange.{ItemData, item_of, carryover_in, may_all_follow, may_follow, name_of};

use am_json::duration::interval;
use am_json::fault::{FaultKind, InputFault};
use am_json::faults::Faults;
use am_json::reader::{Object, Reader};
use am_terms::dispatcher_change::Carryover;
use serde_json::Value;

/// How many reloads and restarts a story may have, both together.
pub const MAX_DISPATCHER_CHANGES: usize = 8;

/// A reload or a restart of a story.
#[derive(Drop)]
pub struct DispatcherChangeItem<'v> {
    /// When, in milliseconds from the start of the story.
    pub at: u64,
    pub carryover: Carryover,
    /// Where the configuration of a reload is given.
    pub reload: Option<Reload<'v>>,
}

/// A reload in the input.
#[derive(Clone, Copy)]
pub struct Reload<'v> {
    pub value: &'v Value,
    /// Its number in the list of reloads, if it is in one.
    pub index: Option<usize>,
}

/// Which of the two lists an item is in.
#[derive(Clone, Copy)]
enum Kind {
    Reload,
    Restart,
}

/// Reads the reloads and restarts of a story that ends at `until`, in the order of their times.
pub fn read_items<'v>(
    top: &Object<'v, '_>,
    until: u64,
) -> Result<Vec<DispatcherChangeItem<'v>>, InputFault>
    ensures decoded { IfOk result (λ items. AreItemsIn top.now.mode until (members_view top.now.members) (map item_of items.items)) }
    ensures refused { IfErr result (Excludes (AreItemsIn top.now.mode until (members_view top.now.members))) }
{
    let mut items = Vec::new(top.alloc());
    add_all(top, Kind::Reload, until, &mut items)?;
    add_all(top, Kind::Restart, until, &mut items)?;
    items.sort_unstable_by(|a, b| a.at.cmp(&b.at));
    Ok(items)
}

/// Keeps the fault of each reload and restart, except those of configurations.
pub fn item_faults(faults: &mut Faults, top: &Object<'_, '_>) -> Result<(), InputFault> {
    list_faults(faults, top, Kind::Reload)?;
    list_faults(faults, top, Kind::Restart)
}

fn list_faults(faults: &mut Faults, top: &Object<'_, '_>, kind: Kind) -> Result<(), InputFault> {
    let name = name_of(kind);
    let Some(value) = member_of(top, name) else {
        return Ok(());
    };
    let member = top.member(name, value);
    let Some(values) = array_of(value) else {
        faults.kept(read_item(&member, value, None, kind))?;
        return Ok(());
    };
    for (index, value) in values.iter().enumerate() {
        let item = member.item(index, value);
        faults.kept(read_item(&item, value, Some(index), kind))?;
    }
    Ok(())
}

/// Returns the reloads that are objects, in the order of the input.
pub fn reloads_in<'v>(top: &Object<'v, '_>) -> Result<Vec<Reload<'v>>, InputFault> {
    let mut reloads = Vec::new(top.alloc());
    let Some(value) = member_of(top, "reload") else {
        return Ok(reloads);
    };
    let Some(values) = array_of(value) else {
        push_object(value, None, &mut reloads)?;
        return Ok(reloads);
    };
    for (index, value) in values.iter().enumerate() {
        push_object(value, Some(index), &mut reloads)?;
    }
    Ok(reloads)
}

fn push_object<'v>(
    value: &'v Value,
    index: Option<usize>,
    reloads: &mut Vec<Reload<'v>>,
) -> Result<(), InputFault> {
    if value.is_object() {
        reloads.push(Reload { value, index })?;
    }
    Ok(())
}

/// Adds the items of a list.
fn add_all<'v>(
    top: &Object<'v, '_>,
    kind: Kind,
    until: u64,
    items: &mut Vec<DispatcherChangeItem<'v>>,
) -> Result<(), InputFault>
    ensures added { OnOk result ((more : List ItemData) × AddsItems until (map item_of items.old.items) (map item_of items.new.items) more
        × HasOr (IsListOrOne (DecodesTo kind top.now.mode)) [] (name_of kind) (members_view top.now.members) more) }
    ensures refused { IfErr result (Excludes (λ more. IsTrue (may_all_follow until (map item_of items.old.items) more)
        × HasOr (IsListOrOne (DecodesTo kind top.now.mode)) [] (name_of kind) (members_view top.now.members) more)) }
{
    let name = name_of(kind);
    let Some(value) = member_of(top, name) else {
        return Ok(());
    };
    add_value(&top.member(name, value), value, kind, until, items)
}

/// Adds the items of an array, or else the one item that a value is.
fn add_value<'v>(
    member: &Reader<'v, '_>,
    value: &'v Value,
    kind: Kind,
    until: u64,
    items: &mut Vec<DispatcherChangeItem<'v>>,
) -> Result<(), InputFault>
    requires { member.now.value ≡ value.now }
    ensures added { OnOk result ((more : List ItemData) × AddsItems until (map item_of items.old.items) (map item_of items.new.items) more
        × IsListOrOne (DecodesTo kind member.now.mode) (view value.now) more) }
    ensures refused { IfErr result (Excludes (λ more. IsTrue (may_all_follow until (map item_of items.old.items) more)
        × IsListOrOne (DecodesTo kind member.now.mode) (view value.now) more)) }
{
    match array_of(value) {
        None => add(member, value, None, kind, until, items),
        Some(values) => add_each(member, values, kind, until, items),
    }
}

fn member_of<'v>(top: &Object<'v, '_>, name: &str) -> Option<&'v Value>
    ensures { option_map (λ v. view v.now) result ≡ get_member name.now (members_view top.now.members) }
{
    top.members().get(name)
}

fn array_of(value: &Value) -> Option<&[Value]>
    ensures { option_map (λ s. items_view s.now) result ≡ as_array (view value.now) }
{
    match value.as_array() {
        None => None,
        Some(values) => Some(values.as_slice()),
    }
}

fn name_of(kind: Kind) -> &'static str
    ensures { result.now ≡ name_of kind }
{
    match kind {
        Kind::Reload => "reload",
        Kind::Restart => "restart",
    }
}

/// Adds each item of an array.
fn add_each<'v>(
    member: &Reader<'v, '_>,
    values: &'v [Value],
    kind: Kind,
    until: u64,
    items: &mut Vec<DispatcherChangeItem<'v>>,
) -> Result<(), InputFault>
    ensures added { OnOk result ((more : List ItemData) × AddsItems until (map item_of items.old.items) (map item_of items.new.items) more
        × DecodeEach (DecodesTo kind member.now.mode) (items_view values.now) more) }
    ensures refused { IfErr result (Excludes (λ more. IsTrue (may_all_follow until (map item_of items.old.items) more)
        × DecodeEach (DecodesTo kind member.now.mode) (items_view values.now) more)) }
{
    for (index, value) in values.iter().enumerate() {
        let item = member.item(index, value);
        add(&item, value, Some(index), kind, until, items)?;
    }
    Ok(())
}

/// Adds an item, unless there are too many, it comes after the end, or another one comes at its time.
fn add<'v>(
    reader: &Reader<'v, '_>,
    value: &'v Value,
    index: Option<usize>,
    kind: Kind,
    until: u64,
    items: &mut Vec<DispatcherChangeItem<'v>>,
) -> Result<(), InputFault>
    requires { reader.now.value ≡ value.now }
    ensures added { OnOk result ((item : ItemData) × AddsItems until (map item_of items.old.items) (map item_of items.new.items) (item ∷ [])
        × DecodesTo kind reader.now.mode (view value.now) item) }
    ensures refused { IfErr result (Excludes (λ item. IsTrue (may_follow until (map item_of items.old.items) item.at)
        × DecodesTo kind reader.now.mode (view value.now) item)) }
{
    let item = read_item(reader, value, index, kind)?;
    if !may_follow(until, items.as_slice(), item.at) {
        return Err(refuse(reader, items.len()));
    }
    items.push(item)?;
    Ok(())
}

/// Refuses an item behind so many: for its time, or itself where there are too many.
fn refuse(reader: &Reader<'_, '_>, before: usize) -> InputFault {
    if before < MAX_DISPATCHER_CHANGES {
        let pointer = reader.pointer();
        return pointer
            .member("at")
            .refuse(reader.alloc(), FaultKind::BadValue);
    }
    reader.refuse(FaultKind::BadValue)
}

fn may_follow(until: u64, before: &[DispatcherChangeItem<'_>], at: u64) -> bool
    ensures { result ≡ (nat_lt (length before.now) MAX_DISPATCHER_CHANGES
        && nat_le at until && not (list_any (λ i. i.at == at) before.now)) }
{
    before.len() < MAX_DISPATCHER_CHANGES && at <= until && !has_one_at(before, at)
}

fn has_one_at(items: &[DispatcherChangeItem<'_>], at: u64) -> bool
    ensures { result ≡ list_any (λ i. i.at == at) items.now }
{
    items.iter().any(|item| item.at == at)
}

fn read_item<'v>(
    reader: &Reader<'v, '_>,
    value: &'v Value,
    index: Option<usize>,
    kind: Kind,
) -> Result<DispatcherChangeItem<'v>, InputFault>
    requires { reader.now.value ≡ value.now }
    ensures decoded { IfOk result (λ item. DecodesTo kind reader.now.mode (view value.now) (item_of item)) }
    ensures refused { IfErr result (Excludes (DecodesTo kind reader.now.mode (view value.now))) }
{
    match kind {
        Kind::Reload => read_reload(reader, value, index),
        Kind::Restart => read_restart(reader),
    }
}

/// Reads a reload, except its configuration.
fn read_reload<'v>(
    reader: &Reader<'v, '_>,
    value: &'v Value,
    index: Option<usize>,
) -> Result<DispatcherChangeItem<'v>, InputFault>
    requires { reader.now.value ≡ value.now }
    ensures decoded { IfOk result (λ item. DecodesToReload reader.now.mode (view value.now) (item_of item)) }
    ensures refused { IfErr result (Excludes (DecodesToReload reader.now.mode (view value.now))) }
{
    let reload = reader.object()?;
    reload.only(&["at", "config", "alertmanager"])?;
    let at = interval(&reload.required("at")?)?;
    Ok(DispatcherChangeItem {
        at,
        carryover: Carryover::All,
        reload: Some(Reload { value, index }),
    })
}

fn read_restart<'v>(reader: &Reader<'v, '_>) -> Result<DispatcherChangeItem<'v>, InputFault>
    ensures decoded { IfOk result (λ item. DecodesToRestart reader.now.mode (view reader.now.value) (item_of item)) }
    ensures refused { IfErr result (Excludes (DecodesToRestart reader.now.mode (view reader.now.value))) }
{
    let restart = reader.object()?;
    restart.only(&["at", "keeps"])?;
    let at = interval(&restart.required("at")?)?;
    let carryover = read_carryover(&restart.required("keeps")?)?;
    Ok(DispatcherChangeItem {
        at,
        carryover,
        reload: None,
    })
}

/// Reads what a restart keeps.
fn read_carryover(reader: &Reader<'_, '_>) -> Result<Carryover, InputFault>
    ensures { result_ok result ≡ carryover_in (view reader.now.value) }
{
    match reader.text()? {
        "log" => Ok(Carryover::Log),
        "nothing" => Ok(Carryover::Nothing),
        _ => Err(reader.refuse(FaultKind::BadValue)),
    }
}
