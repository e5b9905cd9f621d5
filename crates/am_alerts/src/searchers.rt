//! A list of matchers that meets many label sets, as the source matchers of an inhibition rule do.
//!
//! What searches for a pattern is made when the first match needs it, and used again by later ones.
ghost use Rattle.std.specs.Prelude.{◌≡◌, ◌≤◌, IfOk, IfSome, IsOk, IsTrue, OnErr, OnOk, vec_len};
ghost use Rattle.am_alerts.specs.Matcher.{compares_texts, compare_texts, matches_parts, match_all, pattern_of};
ghost use Rattle.am_alerts.specs.Searchers.{with_pattern, with_pattern_of, AreFirstPatterns, IsAt};

use crate::labels::Labels;
use crate::matcher::Matcher;
use crate::pattern::{Pattern, Searcher};
use std::alloc::{AllocError, Global};
use std::marker::Model;

/// A list of matchers with what searches for their patterns, which the first match that needs it
/// makes and later ones use again. So label sets that meet the same matchers one after the other
/// cost less than by `all_match`. Contracts see it as the list of matchers.
#[derive(Drop)]
pub struct Searchers<'m> {
    matchers: &'m [Matcher],
    /// For the first patterns of the list, in its order.
    searchers: Vec<Searcher<'m>>,
}

impl<'m> Model for Searchers<'m> {
    ghost use Rattle.std.specs.Prelude.{List};
    ghost use Rattle.am_alerts.specs.declared.matcher.MatcherParts.{MatcherParts};

    ghost Value = { List MatcherParts };

    ghost view = { λ s. s.matchers.now };

    ghost use Rattle.am_alerts.specs.Searchers.{AreFirstPatterns};

    ghost invariant = { λ s. AreFirstPatterns s.searchers.items s.matchers.now };
}

impl<'m> Searchers<'m> {
    /// These matchers, of which no label set was asked yet. Takes no memory.
    pub fn new(alloc: Global, matchers: &'m [Matcher]) -> Searchers<'m>
        ensures { result ≡ matchers.now }
    {
        Searchers {
            matchers,
            searchers: Vec::new(alloc),
        }
    }

    /// Whether a label set matches each of the matchers, as `all_match` has it. It matches an
    /// empty list. Only a pattern takes memory; where that is refused, the call can be made again.
    pub fn all_match(&mut self, alloc: Global, labels: &Labels) -> Result<bool, AllocError>
        ensures value { IfOk result (λ matched. matched ≡ match_all self.old labels.now) }
        ensures answers { IsTrue (compare_texts self.old) → IsOk result }
        ensures kept { self.new ≡ self.old }
    {
        all_match_by(alloc, self.matchers, &mut self.searchers, labels)
    }
}

fn all_match_by<'m>(
    alloc: Global,
    matchers: &'m [Matcher],
    searchers: &mut Vec<Searcher<'m>>,
    labels: &Labels,
) -> Result<bool, AllocError>
    requires { AreFirstPatterns searchers.old.items matchers.now }
    ensures value { IfOk result (λ matched. matched ≡ match_all matchers.now labels.now) }
    ensures answers { IsTrue (compare_texts matchers.now) → IsOk result }
    ensures kept { AreFirstPatterns searchers.new.items matchers.now }
{
    let mut patterns = 0;
    for matcher in matchers {
        if !matches_by(alloc, matcher, patterns, searchers, labels)? {
            return Ok(false);
        }
        if matcher.pattern().is_some() {
            patterns += 1;
        }
    }
    Ok(true)
}

/// Whether a label set matches a matcher. If that has a pattern, what searches for it is at
/// `index`, or is put there if the list ends before it.
fn matches_by<'m>(
    alloc: Global,
    matcher: &'m Matcher,
    index: usize,
    searchers: &mut Vec<Searcher<'m>>,
    labels: &Labels,
) -> Result<bool, AllocError>
    requires reached { index ≤ vec_len searchers.old }
    requires index { IfSome (pattern_of matcher.now) (IsAt index searchers.old.items) }
    ensures value { IfOk result (λ matched. matched ≡ matches_parts matcher.now labels.now) }
    ensures answers { IsTrue (compares_texts matcher.now) → IsOk result }
    ensures put { OnOk result (searchers.new.items
        ≡ with_pattern_of (pattern_of matcher.now) index searchers.old.items) }
    ensures unchanged { OnErr result (searchers.new.items ≡ searchers.old.items) }
{
    let Some(pattern) = matcher.pattern() else {
        return matcher.matches(alloc, labels);
    };
    reach(alloc, pattern, index, searchers)?;
    let found = searchers[index].has_match(matcher.value_in(labels));
    Ok(matcher.is_passed(found))
}

/// Puts what searches for a pattern behind the others, if these end at its index.
fn reach<'m>(
    alloc: Global,
    pattern: &'m Pattern,
    index: usize,
    searchers: &mut Vec<Searcher<'m>>,
) -> Result<(), AllocError>
    ensures put { OnOk result
        (searchers.new.items ≡ with_pattern pattern.now index searchers.old.items) }
    ensures unchanged { OnErr result (searchers.new.items ≡ searchers.old.items) }
{
    if index == searchers.len() {
        searchers.push(Searcher::new(alloc, pattern)?)?;
    }
    Ok(())
}
