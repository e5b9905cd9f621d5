//! `InhibitRule`: source and target matchers, and the names of `equal`. A configuration has a list.
ghost use Rattle.std.specs.Prelude.{◌≡◌, ◌≤◌, length};
ghost use Rattle.am_alerts.specs.Fault.{ok_unless};
ghost use Rattle.am_mute.specs.Inhibit.{rule_fault, rule_of};

use am_alerts::limits::{MAX_LABEL_NAMES, MAX_MATCHERS};
use am_alerts::matcher::Matcher;
use am_alerts::sequence::Sequence;
use am_alerts::text::Text;
use std::marker::Model;
use thiserror::Error;

/// Why matchers and names make no inhibition rule.
#[derive(Clone, Copy, Debug, PartialEq, Eq, Error)]
pub enum RuleFault {
    #[error("there are more than 128 source matchers or target matchers")]
    TooManyMatchers = 1,
    #[error("there are more than 64 names in `equal`")]
    TooManyNames = 2,
}

/// Mutes the label sets that its target matchers match while a known alert fires that its source
/// matchers match and that has the same labels under the names of `equal`.
#[derive(Debug, Drop)]
pub struct InhibitRule {
    source: Sequence<Matcher>,
    target: Sequence<Matcher>,
    equal: Sequence<Text>,
}

impl Model for InhibitRule {
    ghost use Rattle.am_mute.specs.Inhibit.{RuleData};

    ghost Value = { RuleData };

    ghost use Rattle.std.specs.Prelude.{◌≡◌, None};
    ghost use Rattle.am_mute.specs.Inhibit.{rule_fault, rule_of};

    ghost view = { λ r. rule_of r.source r.target r.equal };

    ghost invariant = { λ r. rule_fault (rule_of r.source r.target r.equal) ≡ None };
}

impl InhibitRule {
    /// An inhibition rule. Refused in this order: `TooManyMatchers` (more than 128 on one side),
    /// `TooManyNames` (more than 64 in `equal`; one that is twice counts twice). An empty
    /// list of matchers matches every label set. Takes no memory.
    pub fn new(
        source: Vec<Matcher>,
        target: Vec<Matcher>,
        equal: Vec<Text>,
    ) -> Result<InhibitRule, RuleFault>
        ensures { let rule = rule_of source.items target.items equal.items in
            result ≡ ok_unless (rule_fault rule) rule }
    {
        if source.len() > MAX_MATCHERS || target.len() > MAX_MATCHERS {
            return Err(RuleFault::TooManyMatchers);
        }
        if equal.len() > MAX_LABEL_NAMES {
            return Err(RuleFault::TooManyNames);
        }
        Ok(InhibitRule {
            source: Sequence::from(source),
            target: Sequence::from(target),
            equal: Sequence::from(equal),
        })
    }

    /// The matchers of the alerts that inhibit: at most 128.
    pub fn source(&self) -> &[Matcher]
        ensures source { result.now ≡ self.now.source }
        ensures few { length self.now.source ≤ MAX_MATCHERS }
    {
        self.source.as_slice()
    }

    /// The matchers of the label sets that are inhibited: at most 128.
    pub fn target(&self) -> &[Matcher]
        ensures target { result.now ≡ self.now.target }
        ensures few { length self.now.target ≤ MAX_MATCHERS }
    {
        self.target.as_slice()
    }

    /// The names of the labels in which the two have to agree: at most 64.
    pub fn equal(&self) -> &[Text]
        ensures equal { result.now ≡ self.now.equal }
        ensures few { length self.now.equal ≤ MAX_LABEL_NAMES }
    {
        self.equal.as_slice()
    }
}
