//! Inhibition rules of an `alertmanager.yml`.
ghost use Rattle.std.specs.Prelude.{[], IfOk, IsSomeAnd, codes};
ghost use Rattle.serde_json.specs.View.{members_view, view};
ghost use Rattle.am_json.specs.Decoding.{IsList, IsObject};
ghost use Rattle.am_config.specs.Collects.{Collects};
ghost use Rattle.am_config.specs.Rules.{HasRule, HasRules, IsLabelName};
ghost use Rattle.am_config.specs.Said.{SaysOr};

use crate::collected::{keep, only};
use crate::matchers::{MatcherMembers, read_matchers};
use crate::optional::{items_up_to, non_null};
use am_alerts::labels::is_label_name;
use am_alerts::limits::MAX_LABEL_NAMES;
use am_alerts::text::Text;
use am_json::fault::{FaultKind, InputFault};
use am_json::faults::Faults;
use am_json::reader::{Object, Reader};
use am_model::config::MAX_RULES;
use am_mute::inhibit::InhibitRule;

/// The members of a rule. Its name, of later releases, is for people.
const MEMBERS: [&str; 8] = [
    "name",
    "source_match",
    "source_match_re",
    "source_matchers",
    "target_match",
    "target_match_re",
    "target_matchers",
    "equal",
];

/// The matchers of the alerts that inhibit.
const SOURCE: MatcherMembers = MatcherMembers {
    equal: "source_match",
    like: "source_match_re",
    texts: "source_matchers",
};

/// The matchers of the alerts that are inhibited.
const TARGET: MatcherMembers = MatcherMembers {
    equal: "target_match",
    like: "target_match_re",
    texts: "target_matchers",
};

/// Reads the inhibition rules. More than `MAX_RULES` are refused unread.
pub(crate) fn read_rules(
    faults: &mut Faults,
    top: &Object<'_, '_>,
) -> Result<Vec<InhibitRule>, InputFault>
    ensures { IfOk result (λ rules. Collects faults.old faults.new (HasRules (members_view top.now.members) rules.items)) }
{
    let mut rules = Vec::new(top.alloc());
    let Some(member) = non_null(top, "inhibit_rules") else {
        return Ok(rules);
    };
    let Some(items) = items_up_to(faults, &member, MAX_RULES)? else {
        return Ok(rules);
    };
    for (index, value) in items.iter().enumerate() {
        let Some(rule) = read_rule(faults, &member.item(index, value))? else {
            continue;
        };
        rules.push(rule)?;
    }
    Ok(rules)
}

fn read_rule(
    faults: &mut Faults,
    reader: &Reader<'_, '_>,
) -> Result<Option<InhibitRule>, InputFault>
    ensures { IfOk result (λ read. Collects faults.old faults.new (IsSomeAnd read (IsObject HasRule (view reader.now.value)))) }
{
    let Some(rule) = keep(faults, reader.object())? else {
        return Ok(None);
    };
    only(faults, &rule, &MEMBERS)?;
    let source = read_matchers(faults, &rule, &SOURCE)?;
    let target = read_matchers(faults, &rule, &TARGET)?;
    let equal = read_equal(faults, &rule)?;
    match InhibitRule::new(source, target, equal) {
        Ok(rule) => Ok(Some(rule)),
        Err(_) => {
            faults.push(reader.refuse(FaultKind::BadValue))?;
            Ok(None)
        }
    }
}

/// Reads the names of the labels in which two alerts have to agree. More than `MAX_LABEL_NAMES` are refused unread.
fn read_equal(faults: &mut Faults, rule: &Object<'_, '_>) -> Result<Vec<Text>, InputFault>
    ensures { IfOk result (λ names. Collects faults.old faults.new
        (SaysOr (IsList IsLabelName) [] (codes "equal") (members_view rule.now.members) names.items)) }
{
    let mut names = Vec::new(rule.alloc());
    let Some(member) = non_null(rule, "equal") else {
        return Ok(names);
    };
    let Some(items) = items_up_to(faults, &member, MAX_LABEL_NAMES)? else {
        return Ok(names);
    };
    for (index, value) in items.iter().enumerate() {
        let Some(name) = keep(faults, label_name(&member.item(index, value)))? else {
            continue;
        };
        names.push(name)?;
    }
    Ok(names)
}

/// Reads the name of a label.
pub(crate) fn label_name(reader: &Reader<'_, '_>) -> Result<Text, InputFault>
    ensures { IfOk result (IsLabelName (view reader.now.value)) }
{
    let name = reader.text()?;
    if !is_label_name(name) {
        return Err(reader.refuse(FaultKind::BadValue));
    }
    Ok(Text::new(reader.alloc(), name)?)
}
