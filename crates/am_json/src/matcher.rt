//! Matchers and inhibition rules in JSON.
ghost use Rattle.std.specs.Prelude.{◌≡◌, ◌≢◌, ◌≤◌, [], IfErr, IfOk, IsSomeAnd, IsTrue, List, MatchOption, length};
ghost use Rattle.serde_json.specs.View.{members_view, view};
ghost use Rattle.serde_json.specs.Find.{as_str};
ghost use Rattle.am_alerts.specs.Matcher.{compare_texts, compares_texts, operator_text};
ghost use Rattle.am_alerts.specs.declared.matcher.MatcherParts.{MatcherParts};
ghost use Rattle.am_alerts.specs.declared.matcher.Operator.{Operator};
ghost use Rattle.am_json.specs.Configured.{DecodesToMatcher, IsMatcher, IsWritten, most_matchers};
ghost use Rattle.am_json.specs.Decoding.{HasOr, IsList};
ghost use Rattle.am_json.specs.Read.{Excludes};
ghost use Rattle.am_json.specs.MatcherText.{IsMatcherText};

use crate::config::{FEW_BYTES, most_matchers};
use crate::fault::{FaultKind, InputFault};
use crate::matcher_text::parts_of_text;
use crate::reader::{FromJson, Mode, Object, Reader};
use crate::translated::translated_matcher;
use am_alerts::labels::is_label_name;
use am_alerts::limits::MAX_NAME_BYTES;
use am_alerts::matcher::{Matcher, MatcherFault, MatcherParts, Operator};
use am_alerts::text::Text;
use am_mute::inhibit::{InhibitRule, RuleFault};

/// Where the name is in a matcher of three texts.
const NAME: usize = 0;

/// Where the operator is.
const OPERATOR: usize = 1;

/// Where the value is.
const VALUE: usize = 2;

/// Three texts, or in the strict mode also one. In the strict mode a pattern is Go's. A pattern that
/// needs a regex can be refused for its size.
impl<'v> FromJson<'v> for Matcher {
    ghost use Rattle.am_alerts.specs.Matcher.{compares_texts};
    ghost use Rattle.am_json.specs.Configured.{DecodesToMatcher};

    ghost decodes_to = { λ mode value matcher. DecodesToMatcher mode value matcher };

    ghost never_refused = { λ matcher. compares_texts matcher };

    fn read(reader: &Reader<'v, '_>) -> Result<Matcher, InputFault> {
        match reader.mode() {
            Mode::Lenient => read_lenient(reader),
            Mode::Strict => read_strict(reader),
        }
    }
}

/// Three texts, whose pattern is of the kit's `regex`. The value is no longer than one of a scenario.
fn read_lenient(reader: &Reader<'_, '_>) -> Result<Matcher, InputFault>
    ensures decoded { IfOk result (DecodesToMatcher Mode.Lenient (view reader.now.value)) }
    ensures refused { IfErr result (Excludes (λ m.
        DecodesToMatcher Mode.Lenient (view reader.now.value) m × IsTrue (compares_texts m))) }
{
    let parts = three_texts(reader)?;
    if parts.value.as_str().len() > FEW_BYTES {
        return Err(reader.refuse(FaultKind::BadValue));
    }
    let is_of_name = has_bad_name(&parts);
    match Matcher::new(reader.alloc(), parts) {
        Ok(matcher) => Ok(matcher),
        Err(fault) => Err(refusal(reader, fault, is_of_name)),
    }
}

/// One text, or else three, whose pattern is Go's.
fn read_strict(reader: &Reader<'_, '_>) -> Result<Matcher, InputFault>
    ensures decoded { IfOk result (DecodesToMatcher Mode.Strict (view reader.now.value)) }
    ensures refused { IfErr result (Excludes (λ m.
        DecodesToMatcher Mode.Strict (view reader.now.value) m × IsTrue (compares_texts m))) }
{
    let parts = written(reader)?;
    let is_of_name = has_bad_name(&parts);
    match translated_matcher(reader.alloc(), parts) {
        Ok(matcher) => Ok(matcher),
        Err(fault) => Err(refusal(reader, fault, is_of_name)),
    }
}

/// The parts of one text, or else of three.
fn written(reader: &Reader<'_, '_>) -> Result<MatcherParts, InputFault>
    ensures decoded { IfOk result (IsWritten (view reader.now.value)) }
    ensures refused { IfErr result (Excludes (IsWritten (view reader.now.value))) }
{
    if reader.is_text() {
        return one_text(reader);
    }
    three_texts(reader)
}

fn one_text(reader: &Reader<'_, '_>) -> Result<MatcherParts, InputFault>
    ensures decoded { IfOk result (λ m. IsSomeAnd (as_str (view reader.now.value)) (λ text. IsMatcherText text m)) }
    ensures refused { IfErr result (Excludes (λ m. IsSomeAnd (as_str (view reader.now.value)) (λ text. IsMatcherText text m))) }
{
    let Some(parts) = parts_of_text(reader.alloc(), reader.text()?)? else {
        return Err(reader.refuse(FaultKind::BadValue));
    };
    Ok(parts)
}

fn three_texts(reader: &Reader<'_, '_>) -> Result<MatcherParts, InputFault>
    ensures decoded { IfOk result (IsMatcher (view reader.now.value)) }
    ensures refused { IfErr result (Excludes (IsMatcher (view reader.now.value))) }
{
    let (name, operator, value) = reader.three_texts()?;
    let Some(op) = operator_of(operator) else {
        return Err(reader.refuse_at(&reader.pointer().item(OPERATOR), FaultKind::BadValue));
    };
    Ok(MatcherParts {
        name: Text::new(reader.alloc(), name)?,
        op,
        value: Text::new(reader.alloc(), value)?,
    })
}

/// Whether the name is no label name, or has too many bytes.
fn has_bad_name(parts: &MatcherParts) -> bool {
    let name = parts.name.as_str();
    !is_label_name(name) || name.len() > MAX_NAME_BYTES
}

/// The fault of parts that make no matcher, at one of three texts if there are three.
fn refusal(reader: &Reader<'_, '_>, fault: MatcherFault, is_of_name: bool) -> InputFault {
    if fault == MatcherFault::NoMemory {
        return InputFault::NoMemory;
    }
    if reader.is_text() {
        return reader.refuse(FaultKind::BadValue);
    }
    let part = if is_of_name { NAME } else { VALUE };
    reader.refuse_at(&reader.pointer().item(part), FaultKind::BadValue)
}

/// The operator that is written so.
fn operator_of(text: &str) -> Option<Operator>
    ensures { MatchOption result ((op : Operator) → operator_text op ≢ text.now) (λ op. operator_text op ≡ text.now) }
{
    match text {
        "=" => Some(Operator::Equal),
        "!=" => Some(Operator::NotEqual),
        "=~" => Some(Operator::Like),
        "!~" => Some(Operator::NotLike),
        _ => None,
    }
}

impl<'v> FromJson<'v> for InhibitRule {
    ghost use Rattle.am_json.specs.Configured.{DecodesToRule, rule_compares_texts};

    ghost decodes_to = { λ mode value rule. DecodesToRule mode value rule };

    ghost never_refused = { λ rule. rule_compares_texts rule };

    fn read(reader: &Reader<'v, '_>) -> Result<InhibitRule, InputFault> {
        let rule = reader.object()?;
        rule.only(&["source", "target", "equal"])?;
        let source = read_side(reader, &rule, "source")?;
        let target = read_side(reader, &rule, "target")?;
        let equal = rule.list_or_none::<Text>("equal")?;
        match InhibitRule::new(source, target, equal) {
            Ok(rule) => Ok(rule),
            Err(fault) => {
                let list = list_at_fault(fault);
                Err(reader.refuse_at(&reader.pointer().member(list), FaultKind::BadValue))
            }
        }
    }
}

/// The matchers of one side of a rule. They are counted before the first is read: each can want much
/// memory.
fn read_side(
    reader: &Reader<'_, '_>,
    rule: &Object<'_, '_>,
    name: &'static str,
) -> Result<Vec<Matcher>, InputFault>
    ensures decoded { IfOk result (λ matchers. HasOr (IsList (DecodesToMatcher rule.now.mode)) [] name.now
        (members_view rule.now.members) matchers.items) }
    ensures few { IfOk result (λ matchers. length matchers.items ≤ most_matchers rule.now.mode) }
    ensures refused { IfErr result (Excludes (λ (matchers : List MatcherParts).
        HasOr (IsList (DecodesToMatcher rule.now.mode)) [] name.now (members_view rule.now.members) matchers
        × IsTrue (compare_texts matchers) × (length matchers ≤ most_matchers rule.now.mode))) }
{
    let Some(member) = rule.optional(name) else {
        return Ok(Vec::new(rule.alloc()));
    };
    let most = most_matchers(rule.mode());
    if member.array()?.len() > most {
        let side = reader.pointer().member(name);
        return Err(reader.refuse_at(&side, FaultKind::BadValue));
    }
    member.list::<Matcher>()
}

/// Which list of a rule is at fault. Too many matchers were refused before.
fn list_at_fault(fault: RuleFault) -> &'static str {
    match fault {
        RuleFault::TooManyNames => "equal",
        RuleFault::TooManyMatchers => "source",
    }
}
