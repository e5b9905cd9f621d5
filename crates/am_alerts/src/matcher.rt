//! Matchers. Routes, silences and inhibition rules are made of them.
//!
//! A pattern of plain texts with bars between them, as `critical|warning`, isn't built: a match
//! compares the value with each text. Any other is built once, by `Matcher::new`, at most 10 MiB.
//! What searches for it isn't stored: the kit's `regex::Matcher` borrows the pattern, so no value
//! can keep both. Each search changes it, so threads could not share it. `Matcher::matches` makes it
//! anew and takes an allocator.
//! Where one list of matchers meets many label sets, `Searchers` keeps it from one to the next.
ghost use Rattle.std.specs.Prelude.{◌≡◌, ◌⊎◌, Err, IfErr, IfOk, IfSome, IsOk, IsTrue, None, option_copied};
ghost use Rattle.am_alerts.specs.Labels.{value_of};
ghost use Rattle.am_alerts.specs.Matcher.{compares_texts, compare_texts, has_pattern, is_passed, matches_parts, match_all, matcher_fault};
ghost use Rattle.am_alerts.specs.Matcher.{is_text, operator_text, pattern_of};
ghost use Rattle.am_alerts.specs.Pattern.{PatternRows, PatternsMatch};

use crate::labels::{Labels, is_label_name};
use crate::limits::{MAX_NAME_BYTES, MAX_VALUE_BYTES};
use crate::pattern::{Pattern, PatternFault};
use crate::plain::{is_one_of, is_plain_pattern};
use crate::sequence::Copied;
use crate::text::Text;
use std::alloc::{AllocError, Global};
use std::marker::Model;
use thiserror::Error;

/// How a matcher compares.
#[derive(Clone, Copy, Debug, PartialEq, Eq, Hash)]
pub enum Operator {
    Equal,
    NotEqual,
    /// The value is a pattern `p`, which is built as `^(?:p)$` and has to match.
    Like,
    /// The same, and it must not match.
    NotLike,
}

/// What a matcher is made of.
#[derive(Debug, Drop)]
pub struct MatcherParts {
    pub name: Text,
    pub op: Operator,
    pub value: Text,
}

/// Why parts make no matcher.
#[derive(Clone, Copy, Debug, PartialEq, Eq, Error)]
pub enum MatcherFault {
    #[error("the name is no label name")]
    BadName = 1,
    #[error("the name has more than 1,024 bytes, or the value more than 16,384")]
    TooLong = 2,
    /// For its syntax, or for the size that it has once it is built.
    #[error("the pattern is refused")]
    BadPattern = 3,
    #[error("out of memory")]
    NoMemory = 4,
}

/// A test of one label's value. A label that isn't there has the empty text as its value.
#[derive(Debug, Drop)]
pub struct Matcher {
    parts: MatcherParts,
    /// Made once, where the matcher doesn't compare texts.
    pattern: Option<Pattern>,
}

impl Model for Matcher {
    ghost use Rattle.am_alerts.specs.declared.matcher.MatcherParts.{MatcherParts};

    ghost Value = { MatcherParts };

    ghost view = { λ m. m.parts };

    ghost use Rattle.am_alerts.specs.Matcher.{IsMatcher};

    ghost invariant = { λ m. IsMatcher m.parts m.pattern };
}

impl Operator {
    /// The operator as it is written: `=`, `!=`, `=~` or `!~`.
    pub fn text(self) -> &'static str
        ensures { result.now ≡ operator_text self }
    {
        match self {
            Operator::Equal => "=",
            Operator::NotEqual => "!=",
            Operator::Like => "=~",
            Operator::NotLike => "!~",
        }
    }
}

impl MatcherParts {
    /// A copy of these parts.
    pub fn copy(&self, alloc: Global) -> Result<MatcherParts, AllocError>
        ensures { IfOk result (λ parts. parts ≡ self.now) }
    {
        Ok(MatcherParts {
            name: self.name.copy(alloc)?,
            op: self.op,
            value: self.value.copy(alloc)?,
        })
    }
}

impl MatcherParts {
    /// Whether a matcher of these parts compares texts, and searches for no pattern.
    fn compares_texts(&self) -> bool
        ensures { result ≡ compares_texts self.now }
    {
        match self.op {
            Operator::Equal | Operator::NotEqual => true,
            Operator::Like | Operator::NotLike => is_plain_pattern(self.value.as_str()),
        }
    }

    /// Whether a value is the text that these parts are compared with, or one of the texts.
    fn is_text(&self, value: &str) -> bool
        ensures { result ≡ is_text self.now.op self.now.value value.now }
    {
        let wanted = self.value.as_str();
        match self.op {
            Operator::Equal | Operator::NotEqual => value == wanted,
            Operator::Like | Operator::NotLike => is_one_of(wanted, value),
        }
    }
}

impl Copied for MatcherParts {
    fn copied(&self, alloc: Global) -> Result<MatcherParts, AllocError> {
        self.copy(alloc)
    }
}

impl From<PatternFault> for MatcherFault {
    ghost use Rattle.std.specs.Prelude.{◌≡◌};
    ghost use Rattle.am_alerts.specs.Matcher.{of_pattern_fault};

    ghost from_gives = { λ given fault. fault ≡ of_pattern_fault given };

    fn from(fault: PatternFault) -> MatcherFault {
        match fault {
            PatternFault::BadPattern => MatcherFault::BadPattern,
            PatternFault::NoMemory => MatcherFault::NoMemory,
        }
    }
}

impl Matcher {
    /// The matcher of these parts. Refused in this order: `BadName`, `TooLong` (the name has more
    /// than 1,024 bytes, or the value more than 16,384), `BadPattern` (the operator is `Like` or
    /// `NotLike`, and `^(?:value)$` is no pattern, or one that is too big once it is built),
    /// `NoMemory`. Without a pattern it takes no memory, and neither with one of plain texts with
    /// bars between them, as `critical|warning`.
    pub fn new(alloc: Global, parts: MatcherParts) -> Result<Matcher, MatcherFault>
        ensures refused { IfSome (matcher_fault parts) (λ fault. result ≡ Err fault) }
        ensures value { IfOk result (λ matcher. matcher ≡ parts) }
        ensures pattern { IfOk result (λ _. IsTrue (has_pattern parts)) }
        ensures others { matcher_fault parts ≡ None → IfErr result
            (λ fault. (fault ≡ MatcherFault.BadPattern) ⊎ (fault ≡ MatcherFault.NoMemory)) }
        ensures made { IsTrue (compares_texts parts) → matcher_fault parts ≡ None → IsOk result }
    {
        if !is_label_name(parts.name.as_str()) {
            return Err(MatcherFault::BadName);
        }
        if parts.name.as_str().len() > MAX_NAME_BYTES
            || parts.value.as_str().len() > MAX_VALUE_BYTES
        {
            return Err(MatcherFault::TooLong);
        }
        let pattern = pattern_of(alloc, &parts)?;
        Ok(Matcher { parts, pattern })
    }

    pub fn parts(&self) -> &MatcherParts
        ensures parts { result.now ≡ self.now }
        ensures sound { matcher_fault self.now ≡ None }
        ensures pattern { IsTrue (has_pattern self.now) }
    {
        &self.parts
    }

    /// Whether the value that a label set has under the matcher's name passes its test. Only a
    /// pattern takes memory, and not if it is plain texts with bars between them.
    pub fn matches(&self, alloc: Global, labels: &Labels) -> Result<bool, AllocError>
        ensures value { IfOk result (λ matched. matched ≡ matches_parts self.now labels.now) }
        ensures answers { IsTrue (compares_texts self.now) → IsOk result }
    {
        let value = self.value_in(labels);
        let same = match &self.pattern {
            None => self.parts.is_text(value),
            Some(pattern) => pattern.has_match(alloc, value)?,
        };
        Ok(self.is_passed(same))
    }

    /// The pattern that the value has to match, or must not match, if the matcher doesn't compare
    /// texts.
    pub(crate) fn pattern(&self) -> Option<&Pattern>
        ensures { option_copied result ≡ pattern_of self.now }
    {
        self.pattern.as_ref()
    }

    /// The value that the matcher tests: a label that isn't there has the empty text.
    pub(crate) fn value_in<'l>(&self, labels: &'l Labels) -> &'l str
        ensures { result.now ≡ value_of self.now.name labels.now }
    {
        labels.get(self.parts.name.as_str()).unwrap_or("")
    }

    /// Whether the test is passed by a value that is, or matches, what the matcher looks for, or
    /// by one that isn't or doesn't.
    pub(crate) fn is_passed(&self, same: bool) -> bool
        ensures { result ≡ is_passed self.now.op same }
    {
        match self.parts.op {
            Operator::Equal | Operator::Like => same,
            Operator::NotEqual | Operator::NotLike => !same,
        }
    }
}

/// The pattern that a matcher of these parts searches for.
fn pattern_of(alloc: Global, parts: &MatcherParts) -> Result<Option<Pattern>, PatternFault>
    ensures value { IfOk result (λ pattern. pattern ≡ pattern_of parts.now) }
    ensures read { IfOk result (λ _. IsTrue (has_pattern parts.now)) }
    ensures made { IsTrue (compares_texts parts.now) → IsOk result }
{
    if parts.compares_texts() {
        return Ok(None);
    }
    Ok(Some(Pattern::whole(alloc, parts.value.as_str())?))
}

/// Whether a label set matches each of these matchers. It matches an empty list.
pub fn all_match(alloc: Global, matchers: &[Matcher], labels: &Labels) -> Result<bool, AllocError>
    ensures value { IfOk result (λ matched. matched ≡ match_all matchers.now labels.now) }
    ensures answers { IsTrue (compare_texts matchers.now) → IsOk result }
{
    for matcher in matchers {
        if !matcher.matches(alloc, labels)? {
            return Ok(false);
        }
    }
    Ok(true)
}

/// A pattern has a match in a text exactly where it matches a part of the text that begins between
/// characters; and the worked rows of patterns hold.
pub fn patterns_match()
    ensures matches { PatternsMatch }
    ensures rows { PatternRows }
{}
