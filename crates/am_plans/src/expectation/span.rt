//! The span of an expectation: its times, or so long from when an alert fires or is resolved.
ghost use Rattle.std.specs.Prelude.{◌≡◌, ◌≢◌, ◌≤◌, ◌<◌, ◌&&◌, ℕ, IfErr, IfOk, IsSomeAnd, IsTrue};
ghost use Rattle.std.specs.Prelude.{MatchOption, None, OnOk, Some, codes, nat_le};
ghost use Rattle.std.specs.Result.{result_ok};
ghost use Rattle.serde_json.specs.Find.{get_member};
ghost use Rattle.serde_json.specs.View.{members_view, view};
ghost use Rattle.am_json.specs.Decoding.{HasNone};
ghost use Rattle.am_json.specs.Read.{Excludes, duration_in, is_refusal};
ghost use Rattle.am_plans.specs.Expected.{IsAt, IsEndOf, IsFromTo, IsOwnSpan, IsSpanFrom, IsSpanIn};
ghost use Rattle.am_plans.specs.Expected.{IsSpanWithin, HasNoRegexAt, does_as_said};
ghost use Rattle.am_plans.specs.Expected.{first_insert, inserts, member_or, resolves_in};

use crate::alert::refuse;
use crate::expectation::content::read_matchers;
use am_alerts::alert::Alert;
use am_alerts::matcher::{Matcher, all_match};
use am_json::duration::duration;
use am_json::fault::{FaultKind, InputFault};
use am_json::reader::{Object, Reader};
use am_terms::rehearsal::{Action, TimedAction};
use std::alloc::{AllocError, Global};

/// The time `at`, or from `from` to `to`, both counted in, or what `within` says. A span whose end isn't said ends at
/// `until`, and begins by `last`.
pub(crate) fn read_span(
    item: &Object<'_, '_>,
    until: u64,
    last: u64,
    plans: &[TimedAction],
) -> Result<(u64, u64), InputFault>
    ensures decoded { IfOk result (λ span.
        IsSpanIn item.now.mode until last plans.now (members_view item.now.members) span.0 span.1) }
    ensures refused { IfErr result (Excludes (λ (span : ℕ × ℕ).
        IsSpanIn item.now.mode until last plans.now (members_view item.now.members) span.0 span.1
        × HasNoRegexAt item.now.mode (codes "of") (members_view item.now.members))) }
{
    let Some(within) = item.optional("within") else {
        return read_own_span(item, until, last);
    };
    refuse_together(item, &within, "at")?;
    refuse_together(item, &within, "from")?;
    refuse_together(item, &within, "to")?;
    read_within(item, &within, last, plans)
}

/// Refuses a member if another is there too.
pub(crate) fn refuse_together(
    item: &Object<'_, '_>,
    member: &Reader<'_, '_>,
    other: &str,
) -> Result<(), InputFault>
    ensures none { OnOk result (HasNone other.now (members_view item.now.members)) }
    ensures there { IfErr result (λ _. get_member other.now (members_view item.now.members) ≢ None) }
{
    match item.optional(other) {
        None => Ok(()),
        Some(_) => Err(member.refuse(FaultKind::BadValue)),
    }
}

/// The span that an expectation without `within` says.
fn read_own_span(item: &Object<'_, '_>, until: u64, last: u64) -> Result<(u64, u64), InputFault>
    ensures decoded { IfOk result (λ span. IsOwnSpan until last (members_view item.now.members) span.0 span.1) }
    ensures refused { IfErr result (Excludes (λ (span : ℕ × ℕ).
        IsOwnSpan until last (members_view item.now.members) span.0 span.1)) }
{
    refuse(item, "of")?;
    refuse(item, "when")?;
    read_times(item, until, last)
}

/// The time `at`, or from `from` to `to`.
fn read_times(item: &Object<'_, '_>, until: u64, last: u64) -> Result<(u64, u64), InputFault>
    ensures decoded { IfOk result (λ span. IsSpanFrom until last (members_view item.now.members) span.0 span.1) }
    ensures refused { IfErr result (Excludes (λ (span : ℕ × ℕ).
        IsSpanFrom until last (members_view item.now.members) span.0 span.1)) }
{
    match item.optional("at") {
        None => read_from_to(item, until, last),
        Some(at) => read_at(item, &at),
    }
}

fn read_at(item: &Object<'_, '_>, at: &Reader<'_, '_>) -> Result<(u64, u64), InputFault>
    ensures decoded { IfOk result (λ span. IsAt (members_view item.now.members) (view at.now.value) span.0 span.1) }
    ensures refused { IfErr result (Excludes (λ (span : ℕ × ℕ).
        IsAt (members_view item.now.members) (view at.now.value) span.0 span.1)) }
{
    refuse(item, "from")?;
    refuse(item, "to")?;
    let time = duration(at)?;
    Ok((time, time))
}

fn read_from_to(item: &Object<'_, '_>, until: u64, last: u64) -> Result<(u64, u64), InputFault>
    ensures decoded { IfOk result (λ span. IsFromTo until last (members_view item.now.members) span.0 span.1) }
    ensures refused { IfErr result (Excludes (λ (span : ℕ × ℕ).
        IsFromTo until last (members_view item.now.members) span.0 span.1)) }
{
    let from = read_from(item)?;
    let to = read_to(item, from, until, last)?;
    Ok((from, to))
}

/// The beginning of a span; the start of the rehearsal, where it isn't said.
fn read_from(item: &Object<'_, '_>) -> Result<u64, InputFault>
    ensures { result_ok result ≡ member_or duration_in (Some 0) (get_member (codes "from") (members_view item.now.members)) }
{
    match item.optional("from") {
        None => Ok(0),
        Some(member) => duration(&member),
    }
}

/// The end of a span that begins at `from`; `until`, where it isn't said and the span begins by `last`.
fn read_to(item: &Object<'_, '_>, from: u64, until: u64, last: u64) -> Result<u64, InputFault>
    ensures to { IfOk result (λ to.
        member_or duration_in (Some until) (get_member (codes "to") (members_view item.now.members)) ≡ Some to) }
    ensures ordered { IfOk result (λ to.
        MatchOption (get_member (codes "to") (members_view item.now.members)) (from ≤ last) (λ _. from ≤ to)) }
    ensures refused { IfErr result (Excludes (λ (to : ℕ).
        (member_or duration_in (Some until) (get_member (codes "to") (members_view item.now.members)) ≡ Some to)
        × MatchOption (get_member (codes "to") (members_view item.now.members)) (from ≤ last) (λ _. from ≤ to))) }
{
    let Some(member) = item.optional("to") else {
        check_begins(item, from, last)?;
        return Ok(until);
    };
    let to = duration(&member)?;
    if to < from {
        return Err(member.refuse(FaultKind::BadValue));
    }
    Ok(to)
}

/// Refuses a span that begins after the last time.
fn check_begins(item: &Object<'_, '_>, from: u64, last: u64) -> Result<(), InputFault>
    ensures begins { OnOk result (from ≤ last) }
    ensures refused { IfErr result (λ _. last < from) }
{
    if from > last {
        return Err(item.required("from")?.refuse(FaultKind::BadValue));
    }
    Ok(())
}

/// So long from the first time on at which an alert that matches fires, or is resolved, by the last time.
fn read_within(
    item: &Object<'_, '_>,
    within: &Reader<'_, '_>,
    last: u64,
    plans: &[TimedAction],
) -> Result<(u64, u64), InputFault>
    ensures decoded { IfOk result (λ span.
        IsSpanWithin item.now.mode last plans.now (members_view item.now.members) (view within.now.value) span.0 span.1) }
    ensures refused { IfErr result (Excludes (λ (span : ℕ × ℕ).
        IsSpanWithin item.now.mode last plans.now (members_view item.now.members) (view within.now.value) span.0 span.1
        × HasNoRegexAt item.now.mode (codes "of") (members_view item.now.members))) }
{
    let resolves = read_when(item)?;
    let of = item.required("of")?;
    let matchers = read_matchers(&of)?;
    let from = first_time(&of, last, resolves, matchers.as_slice(), plans)?;
    let to = end_of(within, from)?;
    Ok((from, to))
}

/// The first time of such an alert. `Value` where the plans have none.
fn first_time(
    of: &Reader<'_, '_>,
    last: u64,
    resolves: bool,
    matchers: &[Matcher],
    plans: &[TimedAction],
) -> Result<u64, InputFault>
    ensures first { IfOk result (λ time. first_insert last resolves matchers.now plans.now ≡ Some time) }
    ensures refused { IfErr result (λ fault. IsTrue (is_refusal fault) → first_insert last resolves matchers.now plans.now ≡ None) }
{
    match first_insert(of.alloc(), last, resolves, matchers, plans)? {
        None => Err(of.refuse(FaultKind::BadValue)),
        Some(time) => Ok(time),
    }
}

/// The end of a duration that begins at `from`. `Value` above 2^64 - 1.
fn end_of(within: &Reader<'_, '_>, from: u64) -> Result<u64, InputFault>
    ensures last { IfOk result (λ to. IsSomeAnd (duration_in (view within.now.value)) (IsEndOf from to)) }
    ensures refused { IfErr result (λ _. (to : ℕ) → IsSomeAnd (duration_in (view within.now.value)) (IsEndOf from to) → ⊥) }
{
    let length = duration(within)?;
    if length > u64::MAX - from {
        return Err(within.refuse(FaultKind::BadValue));
    }
    Ok(from + length)
}

/// Whether `when` says that the alert is resolved; it fires, where it isn't said.
pub(crate) fn read_when(item: &Object<'_, '_>) -> Result<bool, InputFault>
    ensures { result_ok result ≡ resolves_in (members_view item.now.members) }
{
    let Some(member) = item.optional("when") else {
        return Ok(false);
    };
    match member.text()? {
        "firing" => Ok(false),
        "resolved" => Ok(true),
        _ => Err(member.refuse(FaultKind::BadValue)),
    }
}

/// The time of the first of these actions by the last time that inserts an alert which matches, as firing or with its end.
pub(crate) fn first_insert(
    alloc: Global,
    last: u64,
    resolves: bool,
    matchers: &[Matcher],
    plans: &[TimedAction],
) -> Result<Option<u64>, AllocError>
    ensures { IfOk result (λ time. time ≡ first_insert last resolves matchers.now plans.now) }
{
    for plan in plans {
        if inserts_by(alloc, last, resolves, matchers, plan)? {
            return Ok(Some(plan.at));
        }
    }
    Ok(None)
}

/// Whether an action inserts such an alert by the last time.
fn inserts_by(
    alloc: Global,
    last: u64,
    resolves: bool,
    matchers: &[Matcher],
    plan: &TimedAction,
) -> Result<bool, AllocError>
    ensures { IfOk result (λ does. does ≡ (nat_le plan.now.at last && inserts resolves matchers.now plan.now.act)) }
{
    if plan.at > last {
        return Ok(false);
    }
    inserts(alloc, resolves, matchers, &plan.act)
}

fn inserts(
    alloc: Global,
    resolves: bool,
    matchers: &[Matcher],
    action: &Action,
) -> Result<bool, AllocError>
    ensures { IfOk result (λ does. does ≡ inserts resolves matchers.now action.now) }
{
    match action {
        Action::Silence(_) | Action::Load(_) => Ok(false),
        Action::Insert(alert) => {
            if !does_as_said(alert, resolves) {
                return Ok(false);
            }
            all_match(alloc, matchers, alert.labels())
        }
    }
}

/// Whether an alert has its end, or fires.
pub(crate) fn does_as_said(alert: &Alert, resolves: bool) -> bool
    ensures { result ≡ does_as_said resolves alert.now }
{
    if resolves {
        alert.ends().is_some()
    } else {
        alert.ends().is_none()
    }
}
