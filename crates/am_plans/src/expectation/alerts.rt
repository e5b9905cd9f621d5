//! Whether a story has the alerts of an expectation.
ghost use Rattle.std.specs.Prelude.{◌≡◌, ◌&&◌, IfErr, OnOk, false, option_copied, true};
ghost use Rattle.std.specs.List.{list_all};
ghost use Rattle.am_plans.specs.Decoding.{Denies};
ghost use Rattle.am_plans.specs.Expected.{are_inserted, has_alerts, has_insert, inserts_set, is_matched, says_none};
ghost use Rattle.am_plans.specs.Expected.{wants_none};

use crate::expectation::span::{does_as_said, first_insert};
use am_alerts::labels::Labels;
use am_alerts::matcher::Matcher;
use am_alerts::sequence::Sequence;
use am_json::fault::{FaultKind, InputFault};
use am_json::pointer::JsonPointer;
use am_json::reader::Object;
use am_terms::expectation::Content;
use am_terms::rehearsal::{Action, TimedAction};
use std::alloc::Global;

/// Refuses an expectation, `item` at this pointer, that no notice can meet by the last time: it lists no alert, or one that
/// these actions never let fire or resolve.
pub(crate) fn check_alerts(
    item: &Object<'_, '_>,
    last: u64,
    plans: &[TimedAction],
    wanted: &Content,
    pointer: &JsonPointer<'_>,
) -> Result<(), InputFault>
    ensures alerts { OnOk result (has_alerts last plans.now wanted.now ≡ true) }
    ensures refused { IfErr result (Denies (has_alerts last plans.now wanted.now)) }
{
    let alloc = item.alloc();
    let firing = &pointer.member(firing_name(item));
    check_some(alloc, wanted, firing)?;
    let has = &pointer.member("has");
    check_matched(alloc, last, plans, false, wanted.has.as_ref(), has)?;
    let has_resolved = &pointer.member("has_resolved");
    check_matched(
        alloc,
        last,
        plans,
        true,
        wanted.has_resolved.as_ref(),
        has_resolved,
    )?;
    check_sets(alloc, last, plans, false, wanted.firing.as_ref(), firing)?;
    let resolved = &pointer.member("resolved");
    check_sets(alloc, last, plans, true, wanted.resolved.as_ref(), resolved)
}

/// Refuses a notice that has no alerts.
fn check_some(alloc: Global, wanted: &Content, pointer: &JsonPointer<'_>) -> Result<(), InputFault>
    ensures some { OnOk result (wants_none wanted.now ≡ false) }
    ensures refused { IfErr result (λ _. wants_none wanted.now ≡ true) }
{
    if says_none(wanted.firing.as_ref()) && says_none(wanted.resolved.as_ref()) {
        return Err(pointer.refuse(alloc, FaultKind::BadValue));
    }
    Ok(())
}

/// Whether label sets are said, and there are none.
fn says_none(sets: Option<&Sequence<Labels>>) -> bool
    ensures { result ≡ says_none (option_copied sets.entry) }
{
    match sets {
        None => false,
        Some(sets) => sets.as_slice().is_empty(),
    }
}

/// The member that says which alerts fire.
fn firing_name(item: &Object<'_, '_>) -> &'static str {
    match item.optional("exactly") {
        None => "firing",
        Some(_) => "exactly",
    }
}

/// Refuses matchers that match none of the alerts that fire, or that are resolved.
fn check_matched(
    alloc: Global,
    last: u64,
    plans: &[TimedAction],
    resolves: bool,
    matchers: Option<&Sequence<Matcher>>,
    pointer: &JsonPointer<'_>,
) -> Result<(), InputFault>
    ensures matched { OnOk result (is_matched last plans.now resolves (option_copied matchers.entry) ≡ true) }
    ensures refused { IfErr result (Denies (is_matched last plans.now resolves (option_copied matchers.entry))) }
{
    match matchers {
        None => Ok(()),
        Some(matchers) => match first_insert(alloc, last, resolves, matchers.as_slice(), plans)? {
            None => Err(pointer.refuse(alloc, FaultKind::BadValue)),
            Some(_) => Ok(()),
        },
    }
}

/// Refuses the first label set that none of the alerts has that fire, or that are resolved.
fn check_sets(
    alloc: Global,
    last: u64,
    plans: &[TimedAction],
    resolves: bool,
    sets: Option<&Sequence<Labels>>,
    pointer: &JsonPointer<'_>,
) -> Result<(), InputFault>
    ensures inserted { OnOk result (are_inserted last plans.now resolves (option_copied sets.entry) ≡ true) }
    ensures refused { IfErr result (λ _. are_inserted last plans.now resolves (option_copied sets.entry) ≡ false) }
{
    match sets {
        None => Ok(()),
        Some(sets) => {
            let sets = sets.as_slice();
            if have_inserts(last, plans, resolves, sets) {
                return Ok(());
            }
            let index = first_unknown(last, plans, resolves, sets);
            Err(pointer.item(index).refuse(alloc, FaultKind::BadValue))
        }
    }
}

fn have_inserts(last: u64, plans: &[TimedAction], resolves: bool, sets: &[Labels]) -> bool
    ensures { result ≡ list_all (has_insert last plans.now resolves) sets.now }
{
    sets.iter()
        .all(|labels| has_insert(last, plans, resolves, labels))
}

/// The first label set that no alert has.
fn first_unknown(last: u64, plans: &[TimedAction], resolves: bool, sets: &[Labels]) -> usize {
    sets.iter()
        .position(|labels| !has_insert(last, plans, resolves, labels))
        .unwrap_or(0)
}

/// Whether an alert with this label set fires, or is resolved, by the last time.
pub(crate) fn has_insert(last: u64, plans: &[TimedAction], resolves: bool, labels: &Labels) -> bool
    ensures { result ≡ has_insert last plans.now resolves labels.now }
{
    plans.iter().any(|plan| plan.at <= last && inserts_set(resolves, labels, &plan.act))
}

fn inserts_set(resolves: bool, labels: &Labels, action: &Action) -> bool
    ensures { result ≡ inserts_set resolves labels.now action.now }
{
    match action {
        Action::Silence(_) | Action::Load(_) => false,
        Action::Insert(alert) => does_as_said(alert, resolves) && alert.labels() == labels,
    }
}
