//! Matchers of Alertmanager's texts. Their patterns are Go's, and become those of the kit's
//! `regex`.
ghost use Rattle.std.specs.Prelude.{◌≡◌, ◌||◌, false, IfErr, IfOk, IsTrue, Ok};
ghost use Rattle.am_alerts.specs.Matcher.{compares_texts, takes_text};
ghost use Rattle.am_alerts.specs.declared.matcher.MatcherParts.{MatcherParts};
ghost use Rattle.am_patterns.specs.Simple.{is_simple};
ghost use Rattle.am_json.specs.Configured.{IsSound};
ghost use Rattle.am_json.specs.Translated.{IsTranslated};

use am_alerts::matcher::{Matcher, MatcherFault, MatcherParts, Operator};
use am_alerts::text::Text;
use am_patterns::fault::PatternError;
use am_patterns::translate_value;
use std::alloc::Global;

/// Returns the matcher that is made of these parts, whose pattern, if they have one, is Go's.
///
/// # Errors
///
/// As `Matcher::new`. `BadPattern` also where Go rejects the pattern. `TooLong` is for the length of
/// the translation. Never for parts of a matcher that compares texts.
pub fn translated_matcher(alloc: Global, written: MatcherParts) -> Result<Matcher, MatcherFault>
    ensures value { IfOk result (IsTranslated written) }
    ensures sound { IfOk result IsSound }
    ensures refused { IfErr result (λ _. (m : MatcherParts) → IsTranslated written m → IsSound m → IsTrue (compares_texts m) → ⊥) }
{
    let parts = translated(alloc, written)?;
    match Matcher::new(alloc, parts) {
        Ok(matcher) => Ok(matcher),
        Err(fault) => Err(fault),
    }
}

/// The parts with the value that a matcher has.
fn translated(alloc: Global, written: MatcherParts) -> Result<MatcherParts, MatcherFault>
    ensures value { IfOk result (IsTranslated written) }
    ensures unchanged { IsTrue (takes_text written.op || is_simple written.value) → result ≡ Ok written }
{
    if takes_text(written.op) {
        return Ok(written);
    }
    with_translation(alloc, written)
}

/// Whether an operator takes a text, and not a pattern.
fn takes_text(op: Operator) -> bool
    ensures { result ≡ takes_text op }
{
    match op {
        Operator::Equal | Operator::NotEqual => true,
        Operator::Like | Operator::NotLike => false,
    }
}

/// Parts with a pattern, with its translation.
fn with_translation(alloc: Global, written: MatcherParts) -> Result<MatcherParts, MatcherFault>
    requires { takes_text written.op ≡ false }
    ensures value { IfOk result (IsTranslated written) }
    ensures unchanged { IsTrue (is_simple written.value) → result ≡ Ok written }
{
    match translate_value(alloc, written.value.as_str()) {
        Ok(None) => Ok(written),
        Ok(Some(value)) => Ok(MatcherParts {
            name: written.name,
            op: written.op,
            value: Text::from(value),
        }),
        Err(PatternError::NoMemory) => Err(MatcherFault::NoMemory),
        Err(PatternError::Rejected(_)) => Err(MatcherFault::BadPattern),
    }
}
