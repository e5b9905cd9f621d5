//! What an expectation wants a notice to say.
ghost use Rattle.std.specs.Prelude.{◌≡◌, IfErr, IfOk, IsTrue, List, OnOk, Option, codes, true};
ghost use Rattle.std.specs.Option.{option_map_or};
ghost use Rattle.std.specs.Result.{result_ok};
ghost use Rattle.am_alerts.specs.Matcher.{compare_texts};
ghost use Rattle.am_alerts.specs.declared.matcher.MatcherParts.{MatcherParts};
ghost use Rattle.serde_json.specs.Find.{get_member};
ghost use Rattle.serde_json.specs.View.{members_view, view};
ghost use Rattle.am_json.specs.Read.{Excludes};
ghost use Rattle.am_plans.specs.Expected.{AreFiringIn, AreMatchersIn, AreMatchersOf, AreResolvedIn, AreSetsIn, HasContentIn, HasNoRegex};
ghost use Rattle.am_plans.specs.Expected.{member_if, reason_in};
ghost use Rattle.am_plans.specs.Expected.{SaysExactly, said_or_of};

use crate::expectation::span::{read_when, refuse_together};
use am_alerts::labels::Labels;
use am_alerts::limits::MAX_MATCHERS;
use am_alerts::matcher::Matcher;
use am_alerts::sequence::Sequence;
use am_json::fault::{FaultKind, InputFault};
use am_json::reader::{Object, Reader};
use am_terms::expectation::{Content, SentReason, reason_named};

/// What a notice has to say. `has` or `has_resolved`, as `when` says, is `of` where it isn't said; `exactly` says
/// both sets, of which that of the resolved alerts is empty.
pub(crate) fn read_content(item: &Object<'_, '_>) -> Result<Content, InputFault>
    ensures decoded { IfOk result (HasContentIn item.now.mode (members_view item.now.members)) }
    ensures refused { IfErr result (Excludes (λ content. HasContentIn item.now.mode (members_view item.now.members) content
        × HasNoRegex item.now.mode (members_view item.now.members))) }
{
    let resolves = read_when(item)?;
    let has = read_has(item, "has", !resolves)?;
    let has_resolved = read_has(item, "has_resolved", resolves)?;
    check_exactly(item)?;
    let firing = read_firing(item)?;
    let resolved = read_resolved(item)?;
    let reason = read_reason(item)?;
    Ok(Content {
        has,
        has_resolved,
        firing,
        resolved,
        reason,
    })
}

/// Rejects `exactly` with `firing` or `resolved`.
fn check_exactly(item: &Object<'_, '_>) -> Result<(), InputFault>
    ensures alone { OnOk result (SaysExactly (members_view item.now.members)) }
    ensures refused { IfErr result (λ _. SaysExactly (members_view item.now.members) → ⊥) }
{
    let Some(exactly) = item.optional("exactly") else {
        return Ok(());
    };
    refuse_together(item, &exactly, "firing")?;
    refuse_together(item, &exactly, "resolved")
}

/// The matchers of a member, or else those of `of` if they represent it.
fn read_has(
    item: &Object<'_, '_>,
    name: &str,
    or_of: bool,
) -> Result<Option<Sequence<Matcher>>, InputFault>
    ensures decoded { IfOk result (AreMatchersIn item.now.mode (said_or_of or_of name.now (members_view item.now.members))) }
    ensures refused { IfErr result (Excludes (λ (matchers : Option (List MatcherParts)).
        AreMatchersIn item.now.mode (said_or_of or_of name.now (members_view item.now.members)) matchers
        × IsTrue (option_map_or compare_texts matchers true))) }
{
    if let Some(member) = item.optional(name) {
        return Ok(Some(read_matchers(&member)?));
    }
    if !or_of {
        return Ok(None);
    }
    match item.optional("of") {
        None => Ok(None),
        Some(member) => Ok(Some(read_matchers(&member)?)),
    }
}

/// Matchers, 1 to 32.
pub(crate) fn read_matchers(member: &Reader<'_, '_>) -> Result<Sequence<Matcher>, InputFault>
    ensures decoded { IfOk result (AreMatchersOf member.now.mode (view member.now.value)) }
    ensures refused { IfErr result (Excludes (λ (matchers : List MatcherParts).
        AreMatchersOf member.now.mode (view member.now.value) matchers × IsTrue (compare_texts matchers))) }
{
    let matchers = member.list_up_to::<Matcher>(MAX_MATCHERS)?;
    if matchers.is_empty() {
        return Err(member.refuse(FaultKind::BadValue));
    }
    Ok(Sequence::from(matchers))
}

/// The label sets that fire.
fn read_firing(item: &Object<'_, '_>) -> Result<Option<Sequence<Labels>>, InputFault>
    ensures decoded { IfOk result (AreFiringIn item.now.mode (members_view item.now.members)) }
    ensures refused { IfErr result (Excludes (AreFiringIn item.now.mode (members_view item.now.members))) }
{
    match item.optional("exactly") {
        None => read_sets(item, "firing"),
        Some(_) => read_sets(item, "exactly"),
    }
}

/// The label sets that are resolved.
fn read_resolved(item: &Object<'_, '_>) -> Result<Option<Sequence<Labels>>, InputFault>
    ensures decoded { IfOk result (AreResolvedIn item.now.mode (members_view item.now.members)) }
    ensures refused { IfErr result (Excludes (AreResolvedIn item.now.mode (members_view item.now.members))) }
{
    match item.optional("exactly") {
        None => read_sets(item, "resolved"),
        Some(_) => Ok(Some(Sequence::empty(item.alloc()))),
    }
}

fn read_sets(item: &Object<'_, '_>, name: &str) -> Result<Option<Sequence<Labels>>, InputFault>
    ensures decoded { IfOk result (AreSetsIn item.now.mode (get_member name.now (members_view item.now.members))) }
    ensures refused { IfErr result (Excludes (AreSetsIn item.now.mode (get_member name.now (members_view item.now.members)))) }
{
    match item.optional(name) {
        None => Ok(None),
        Some(member) => Ok(Some(Sequence::from(member.list::<Labels>()?))),
    }
}

/// The reason for which a notice is sent.
fn read_reason(item: &Object<'_, '_>) -> Result<Option<SentReason>, InputFault>
    ensures { result_ok result ≡ member_if reason_in (get_member (codes "reason") (members_view item.now.members)) }
{
    let Some(member) = item.optional("reason") else {
        return Ok(None);
    };
    match reason_named(member.text()?) {
        None => Err(member.refuse(FaultKind::BadValue)),
        Some(reason) => Ok(Some(reason)),
    }
}
