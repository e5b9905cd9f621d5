//! The planned actions of a rehearsal, in the order of their times.
//!
//! An alert's span is two inserts: one without an end at its start, one with its end at that time.
ghost use Rattle.std.specs.Prelude.{◌≡◌, ◌<◌, ◌+◌, ◌&&◌, [], ◌∷◌, IfErr, IfOk, OnOk, map};
ghost use Rattle.std.specs.List.{flat_map, list_all};
ghost use Rattle.serde_json.specs.View.{members_view};
ghost use Rattle.am_json.specs.Read.{Excludes};
ghost use Rattle.am_plans.specs.Decoding.{Denies};
ghost use Rattle.am_plans.specs.Planned.{AddsPlans, ArePlannedWithoutRegexes, ArePlannedIn, insert_of};
ghost use Rattle.am_plans.specs.Planned.{inserts_in, inserts_of, plans_of, set_of, sets_from};
ghost use Rattle.am_plans.specs.Planned.{may_insert, may_insert_all, may_insert_in, may_set};
ghost use Rattle.am_json.specs.declared.fault.InputFault.TheVariants.{NoMemory};

use crate::alert::AlertItem;
use crate::origin::Origin;
use crate::silence::SilenceItem;
use crate::span::Span;
use am_alerts::alert::Alert;
use am_alerts::labels::Labels;
use am_json::fault::InputFault;
use am_json::reader::Object;
use am_mute::silence::Silence;
use am_terms::rehearsal::{Action, TimedAction};
use std::alloc::Global;

/// A plan, and where it is in the input.
#[derive(Drop)]
struct Planned {
    plan: TimedAction,
    origin: Origin,
    /// Its number in the order of the input.
    number: usize,
}

/// Reads the planned actions of a story, in the order of their times, and where each is in the input.
pub fn read_plans(top: &Object<'_, '_>) -> Result<(Vec<TimedAction>, Vec<Origin>), InputFault>
    ensures decoded { IfOk result (λ read. ArePlannedIn top.now.mode (members_view top.now.members) read.0.items) }
    ensures refused { IfErr result (Excludes (ArePlannedWithoutRegexes top.now.mode (members_view top.now.members))) }
{
    let alerts = top.list_or_none::<AlertItem>("alerts")?;
    let silences = top.list_or_none::<SilenceItem>("silences")?;
    Ok(in_order(top.alloc(), alerts, silences)?)
}

/// The plans that these alerts and silences make, in the order of their times, those of one time
/// in the order of the input; and where each is there.
fn in_order(
    alloc: Global,
    alerts: Vec<AlertItem>,
    silences: Vec<SilenceItem>,
) -> Result<(Vec<TimedAction>, Vec<Origin>), InputFault>
    ensures plans { IfOk result (λ read. read.0.items ≡ plans_of alerts.items silences.items) }
    ensures refused { IfErr result (Denies (list_all may_insert_all alerts.items && list_all may_set silences.items)) }
{
    let mut planned = Vec::new(alloc);
    add_alerts(alloc, alerts.as_slice(), &mut planned)?;
    add_silences(alloc, silences, &mut planned)?;
    planned.sort_unstable_by(|a, b| a.plan.at.cmp(&b.plan.at).then(a.number.cmp(&b.number)));
    Ok(split(alloc, planned)?)
}

/// The plans, and where they are in the input.
fn split(
    alloc: Global,
    planned: Vec<Planned>,
) -> Result<(Vec<TimedAction>, Vec<Origin>), InputFault>
    ensures plans { IfOk result (λ read. read.0.items ≡ map (λ p. p.plan) planned.items) }
    ensures starved { IfErr result (λ fault. fault ≡ NoMemory) }
{
    let mut plans = Vec::with_capacity(alloc, planned.len())?;
    let mut origins = Vec::with_capacity(alloc, planned.len())?;
    for one in planned {
        let Planned {
            plan,
            origin,
            number: _,
        } = one;
        plans.push(plan)?;
        origins.push(origin)?;
    }
    Ok((plans, origins))
}

/// Adds the inserts of alerts.
fn add_alerts(
    alloc: Global,
    alerts: &[AlertItem],
    planned: &mut Vec<Planned>,
) -> Result<(), InputFault>
    ensures adds { OnOk result (AddsPlans planned.old.items planned.new.items (flat_map inserts_of alerts.now)) }
    ensures refused { IfErr result (Denies (list_all may_insert_all alerts.now)) }
{
    for (item, alert) in alerts.iter().enumerate() {
        add_alert(alloc, item, alert, planned)?;
    }
    Ok(())
}

/// Adds the inserts of an alert: one at the start of each of its spans, and one at the end, by which
/// it is resolved.
fn add_alert(
    alloc: Global,
    item: usize,
    alert: &AlertItem,
    planned: &mut Vec<Planned>,
) -> Result<(), InputFault>
    ensures adds { OnOk result (AddsPlans planned.old.items planned.new.items (inserts_of alert.now)) }
    ensures refused { IfErr result (Denies (may_insert_all alert.now)) }
{
    let spans = alert.spans.as_slice();
    for (number, span) in spans.iter().enumerate() {
        let origin = origin_of(item, number, alert.is_listed);
        add_span(alloc, &alert.labels, span, origin, planned)?;
    }
    Ok(())
}

/// Where a span of an alert is.
fn origin_of(item: usize, number: usize, is_listed: bool) -> Origin {
    Origin::Alert {
        item,
        span: if is_listed { Some(number) } else { None },
    }
}

fn add_span(
    alloc: Global,
    labels: &Labels,
    span: &Span,
    origin: Origin,
    planned: &mut Vec<Planned>,
) -> Result<(), InputFault>
    ensures adds { OnOk result (AddsPlans planned.old.items planned.new.items (inserts_in labels.now span.now)) }
    ensures refused { IfErr result (Denies (may_insert_in labels.now span.now)) }
{
    add_insert(alloc, labels, span.from, None, origin, planned)?;
    if span.to.is_some() {
        add_insert(alloc, labels, span.from, span.to, origin, planned)?;
    }
    Ok(())
}

fn add_insert(
    alloc: Global,
    labels: &Labels,
    starts: u64,
    ends: Option<u64>,
    origin: Origin,
    planned: &mut Vec<Planned>,
) -> Result<(), InputFault>
    ensures adds { OnOk result (AddsPlans planned.old.items planned.new.items (insert_of labels.now starts ends ∷ [])) }
    ensures refused { IfErr result (Denies (may_insert labels.now starts ends)) }
{
    let Ok(alert) = Alert::new(labels.copy(alloc)?, starts, ends) else {
        return Err(origin.refuse_value(alloc));
    };
    let plan = TimedAction {
        at: ends.unwrap_or(starts),
        act: Action::Insert(alert),
    };
    add(plan, origin, planned)
}

/// Adds silences.
fn add_silences(
    alloc: Global,
    silences: Vec<SilenceItem>,
    planned: &mut Vec<Planned>,
) -> Result<(), InputFault>
    ensures adds { OnOk result (AddsPlans planned.old.items planned.new.items (sets_from 1 silences.items)) }
    ensures refused { IfErr result (Denies (list_all may_set silences.items)) }
{
    for (item, silence) in silences.into_iter().enumerate() {
        add_silence(alloc, item, silence, planned)?;
    }
    Ok(())
}

/// Adds a silence. Its id is its position in the input, from 1.
fn add_silence(
    alloc: Global,
    item: usize,
    silence: SilenceItem,
    planned: &mut Vec<Planned>,
) -> Result<(), InputFault>
    requires { item < usize.MAX }
    ensures adds { OnOk result (AddsPlans planned.old.items planned.new.items (set_of (item + 1) silence ∷ [])) }
    ensures refused { IfErr result (Denies (may_set silence)) }
{
    let SilenceItem {
        matchers,
        from,
        to,
        set,
    } = silence;
    let origin = Origin::Silence { item };
    let id = item as u64 + 1;
    let Ok(silence) = Silence::new(id, matchers, from, to) else {
        return Err(origin.refuse_value(alloc));
    };
    let plan = TimedAction {
        at: set,
        act: Action::Silence(silence),
    };
    add(plan, origin, planned)
}

/// Adds a plan behind the others.
fn add(plan: TimedAction, origin: Origin, planned: &mut Vec<Planned>) -> Result<(), InputFault>
    ensures adds { OnOk result (AddsPlans planned.old.items planned.new.items (plan ∷ [])) }
    ensures starved { IfErr result (λ fault. fault ≡ NoMemory) }
{
    let number = planned.len();
    planned.push(Planned {
        plan,
        origin,
        number,
    })?;
    Ok(())
}
