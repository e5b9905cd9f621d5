//! The expectations of a rehearsal, and how they are read.
//!
//! An expectation without `to` reaches to the end of the rehearsal, and not to the ends of the
//! notices in flight then.
ghost use Rattle.std.specs.Prelude.{◌≡◌, ◌≤◌, ◌<◌, ℕ, IfErr, IfOk, List, OnOk, Option, Some, codes, is_some, length, true};
ghost use Rattle.serde_json.specs.Find.{as_object, as_str, get_member};
ghost use Rattle.serde_json.specs.View.{members_view, view};
ghost use Rattle.am_json.specs.Read.{Excludes};
ghost use Rattle.am_plans.specs.Configs.{configs_in};
ghost use Rattle.am_plans.specs.Decoding.{Denies};
ghost use Rattle.am_plans.specs.Expected.{AreExpectedIn, HaveNoRegexIn, IsExpectedIn};
ghost use Rattle.am_plans.specs.Expected.{IsExpectedOf, IsKnownIn, HasNoRegex, HasNoRegexIn};
ghost use Rattle.am_plans.specs.Expected.{has_alerts, last_end, member_if, until_in};

pub(crate) mod alerts;
mod amount;
pub(crate) mod content;
mod receivers;
pub(crate) mod span;
mod target;

use crate::configs::Configs;
use alerts::check_alerts;
use am_alerts::text::Text;
use am_json::duration::duration;
use am_json::fault::{FaultKind, InputFault};
use am_json::faults::Faults;
use am_json::reader::{Object, Reader};
use am_terms::expectation::Expectation;
use am_terms::rehearsal::TimedAction;
use amount::read_amount;
use content::read_content;
use receivers::check_target;
use serde_json::Value;
use span::read_span;
use target::read_target;

/// How many expectations a story may have.
///
/// Each is compared with every alert and every notice, so their number bounds the time.
pub const MAX_EXPECTATIONS: usize = 1_024;

/// The fields of an expectation.
const MEMBERS: [&str; 19] = [
    "name",
    "at",
    "from",
    "to",
    "within",
    "of",
    "when",
    "receiver",
    "integration",
    "has",
    "has_resolved",
    "exactly",
    "firing",
    "resolved",
    "reason",
    "none",
    "never",
    "count",
    "at_most",
];

/// What is expected of a rehearsal that ends at `until`, under these configurations and with these planned actions.
///
/// An expectation that no rehearsal of the story could meet, or that each would, is refused: of a receiver or an
/// integration that isn't there, of alerts that never fire so, or of a span that begins after the end. The end is that of
/// the story, or `until` if that is later.
pub fn read_expectations(
    top: &Object<'_, '_>,
    configs: &Configs<'_>,
    until: u64,
    plans: &[TimedAction],
) -> Result<Vec<Expectation>, InputFault>
    ensures decoded { IfOk result (λ expectations. AreExpectedIn top.now.mode (configs_in configs.now) until
        (last_end until (members_view top.now.members)) plans.now
        (get_member (codes "expect") (members_view top.now.members)) expectations.items) }
    ensures refused { IfErr result (Excludes (λ expectations. AreExpectedIn top.now.mode (configs_in configs.now) until
        (last_end until (members_view top.now.members)) plans.now
        (get_member (codes "expect") (members_view top.now.members)) expectations
        × HaveNoRegexIn top.now.mode (get_member (codes "expect") (members_view top.now.members)))) }
{
    let last = last_end(top, until);
    match top.optional("expect") {
        None => Ok(Vec::new(top.alloc())),
        Some(member) => read_list(&member, configs, until, last, plans),
    }
}

/// The end of a story: its own, or `until` if that is later.
fn last_end(top: &Object<'_, '_>, until: u64) -> u64
    ensures { result ≡ last_end until (members_view top.now.members) }
{
    match own_end(top) {
        None => until,
        Some(own) => until.max(own),
    }
}

/// The end that a story says, if it says one.
fn own_end(top: &Object<'_, '_>) -> Option<u64>
    ensures { result ≡ until_in (members_view top.now.members) }
{
    match top.optional("until") {
        None => None,
        Some(member) => duration(&member).ok(),
    }
}

fn read_list(
    member: &Reader<'_, '_>,
    configs: &Configs<'_>,
    until: u64,
    last: u64,
    plans: &[TimedAction],
) -> Result<Vec<Expectation>, InputFault>
    ensures decoded { IfOk result (λ expectations.
        AreExpectedIn member.now.mode (configs_in configs.now) until last plans.now (Some (view member.now.value)) expectations.items) }
    ensures refused { IfErr result (Excludes (λ expectations.
        AreExpectedIn member.now.mode (configs_in configs.now) until last plans.now (Some (view member.now.value)) expectations
        × HaveNoRegexIn member.now.mode (Some (view member.now.value)))) }
{
    let mut expectations = Vec::new(member.alloc());
    let values = member.array()?;
    refuse_many(member, values)?;
    for (index, value) in values.iter().enumerate() {
        let item = member.item(index, value);
        expectations.push(read_known(&item, configs, until, last, plans)?)?;
    }
    Ok(expectations)
}

/// Refuses more expectations than a story may have.
fn refuse_many(member: &Reader<'_, '_>, values: &[Value]) -> Result<(), InputFault>
    ensures few { OnOk result (length values.now ≤ MAX_EXPECTATIONS) }
    ensures refused { IfErr result (λ _. MAX_EXPECTATIONS < length values.now) }
{
    if values.len() > MAX_EXPECTATIONS {
        return Err(member.refuse(FaultKind::BadValue));
    }
    Ok(())
}

/// Keeps the fault of each expectation of a rehearsal that ends at `until`: of what it says, of its target, or of its
/// alerts. One that counts from an alert is passed over where the planned actions aren't known.
pub fn expectation_faults(
    faults: &mut Faults,
    top: &Object<'_, '_>,
    configs: Option<&Configs<'_>>,
    until: u64,
    plans: Option<&[TimedAction]>,
) -> Result<(), InputFault> {
    let Some(member) = top.optional("expect") else {
        return Ok(());
    };
    let Some(values) = faults.kept(member.array())? else {
        return Ok(());
    };
    if faults.kept(refuse_many(&member, values))?.is_none() {
        return Ok(());
    }
    let last = last_end(top, until);
    for (index, value) in values.iter().enumerate() {
        if plans.is_none() && value.get("within").is_some() {
            continue;
        }
        let reader = member.item(index, value);
        let fault = fault_of(&reader, configs, until, last, plans);
        faults.kept(fault)?;
    }
    Ok(())
}

/// The first fault of an expectation; none of its target where the configurations aren't known, and of its alerts where the
/// planned actions aren't.
fn fault_of(
    reader: &Reader<'_, '_>,
    configs: Option<&Configs<'_>>,
    until: u64,
    last: u64,
    plans: Option<&[TimedAction]>,
) -> Result<(), InputFault> {
    let expectation = read_expectation(reader, until, last, plans.unwrap_or(&[]))?;
    if let Some(configs) = configs {
        check_target(reader.alloc(), configs, &expectation, reader.pointer())?;
    }
    match plans {
        None => Ok(()),
        Some(plans) => check_content(reader, last, plans, &expectation),
    }
}

/// An expectation whose target and whose alerts are there.
fn read_known(
    reader: &Reader<'_, '_>,
    configs: &Configs<'_>,
    until: u64,
    last: u64,
    plans: &[TimedAction],
) -> Result<Expectation, InputFault>
    ensures decoded { IfOk result (IsKnownIn reader.now.mode (configs_in configs.now) until last plans.now (view reader.now.value)) }
    ensures refused { IfErr result (Excludes (λ x.
        IsKnownIn reader.now.mode (configs_in configs.now) until last plans.now (view reader.now.value) x
        × HasNoRegexIn reader.now.mode (view reader.now.value))) }
{
    let expectation = read_expectation(reader, until, last, plans)?;
    check_target(reader.alloc(), configs, &expectation, reader.pointer())?;
    check_content(reader, last, plans, &expectation)?;
    Ok(expectation)
}

fn check_content(
    reader: &Reader<'_, '_>,
    last: u64,
    plans: &[TimedAction],
    expectation: &Expectation,
) -> Result<(), InputFault>
    ensures alerts { OnOk result (has_alerts last plans.now expectation.now.content ≡ true) }
    ensures refused { is_some (as_object (view reader.now.value)) ≡ true →
        IfErr result (Denies (has_alerts last plans.now expectation.now.content)) }
{
    let item = reader.object()?;
    check_alerts(&item, last, plans, &expectation.content, reader.pointer())
}

/// What is expected of a span, up to `until` where no end is said, for a receiver and an integration,
/// where these are said.
fn read_expectation(
    reader: &Reader<'_, '_>,
    until: u64,
    last: u64,
    plans: &[TimedAction],
) -> Result<Expectation, InputFault>
    ensures decoded { IfOk result (IsExpectedIn reader.now.mode until last plans.now (view reader.now.value)) }
    ensures refused { IfErr result (Excludes (λ x. IsExpectedIn reader.now.mode until last plans.now (view reader.now.value) x
        × HasNoRegexIn reader.now.mode (view reader.now.value))) }
{
    let item = reader.object()?;
    item.only(&MEMBERS)?;
    Ok(read_members(&item, until, last, plans)?)
}

fn read_members(
    item: &Object<'_, '_>,
    until: u64,
    last: u64,
    plans: &[TimedAction],
) -> Result<Expectation, InputFault>
    ensures decoded { IfOk result (IsExpectedOf item.now.mode until last plans.now (members_view item.now.members)) }
    ensures refused { IfErr result (Excludes (λ x.
        IsExpectedOf item.now.mode until last plans.now (members_view item.now.members) x
        × HasNoRegex item.now.mode (members_view item.now.members))) }
{
    let name = read_name(item, "name")?;
    let (from, to) = read_span(item, until, last, plans)?;
    let receiver = read_name(item, "receiver")?;
    let (kind, integration) = read_target(item)?;
    let content = read_content(item)?;
    let amount = read_amount(item)?;
    Ok(Expectation {
        name,
        from,
        to,
        receiver,
        kind,
        integration,
        content,
        amount,
    })
}

/// A text, if the member of this name is there.
fn read_name(item: &Object<'_, '_>, member: &str) -> Result<Option<Text>, InputFault>
    ensures decoded { IfOk result (λ name.
        member_if as_str (get_member member.now (members_view item.now.members)) ≡ Some name) }
    ensures refused { IfErr result (Excludes (λ (name : Option (List ℕ)).
        member_if as_str (get_member member.now (members_view item.now.members)) ≡ Some name)) }
{
    match item.optional(member) {
        None => Ok(None),
        Some(member) => Ok(Some(Text::new(item.alloc(), member.text()?)?)),
    }
}
