//! Patterns, which are regular expressions in the syntax of the crate `regex`. Those that are plain
//! texts (`plain`) aren't built.
//!
//! A match is stated over the pattern's text: what the grammar reads in `^(?:p)$`, and its leftmost
//! match. The kit can refuse any pattern for its size, so only tests show that a good one is
//! accepted.
ghost use Rattle.std.specs.Prelude.{◌≡◌, IfOk, IsTrue, string_bytes};
ghost use Rattle.am_alerts.specs.Pattern.{anchored, is_pattern, has_match};

use regex::{Error, Matcher, Regex};
use std::alloc::{AllocError, Global};
use std::marker::Model;
use thiserror::Error;

/// Why a text makes no pattern.
#[derive(Clone, Copy, Debug, PartialEq, Eq, Error)]
pub(crate) enum PatternFault {
    #[error("the pattern is refused")]
    BadPattern,
    #[error("out of memory")]
    NoMemory,
}

/// A compiled pattern. Contracts see it as its text.
#[derive(Debug, Drop)]
pub(crate) struct Pattern {
    regex: Regex,
}

impl Model for Pattern {
    ghost use Rattle.std.specs.Prelude.{List, ℕ};
    ghost use Rattle.regex.specs.Strings.{regex_source};

    ghost Value = { List ℕ };

    ghost view = { λ p. regex_source p.regex };

    ghost use Rattle.am_alerts.specs.Pattern.{IsCompiled};

    ghost invariant = { λ p. IsCompiled p.regex };
}

impl Pattern {
    /// The pattern that takes a text as a whole: `^(?:p)$`. `BadPattern` where `regex` refuses it
    /// for another cause than memory: by its syntax, or for the size that it has once it is built.
    pub(crate) fn whole(alloc: Global, text: &str) -> Result<Pattern, PatternFault>
        ensures value { IfOk result (λ pattern. pattern ≡ anchored text.now) }
        ensures read { IfOk result (λ _. IsTrue (is_pattern (anchored text.now))) }
    {
        let Ok(source) = anchored(alloc, text) else {
            return Err(PatternFault::NoMemory);
        };
        match Regex::new(alloc, source.as_str()) {
            Ok(regex) => Ok(Pattern { regex }),
            Err(Error::OutOfMemory) => Err(PatternFault::NoMemory),
            Err(_) => Err(PatternFault::BadPattern),
        }
    }

    /// Whether the pattern has a match in a text.
    pub(crate) fn has_match(&self, alloc: Global, text: &str) -> Result<bool, AllocError>
        ensures { IfOk result (λ found. found ≡ has_match self.now text.now) }
    {
        let mut matcher = self.regex.matcher(alloc)?;
        Ok(matcher.is_match(text))
    }
}

/// What searches for a pattern, which it keeps from one search to the next. Contracts see it as the
/// pattern's text.
#[derive(Drop)]
pub(crate) struct Searcher<'p> {
    regex: &'p Regex,
    search: Matcher<'p>,
}

impl<'p> Model for Searcher<'p> {
    ghost use Rattle.std.specs.Prelude.{List, ℕ};
    ghost use Rattle.regex.specs.Strings.{regex_source};

    ghost Value = { List ℕ };

    ghost view = { λ s. regex_source s.regex.now };

    ghost use Rattle.am_alerts.specs.Pattern.{SearchesFor};

    ghost invariant = { λ s. SearchesFor s.regex.now s.search };
}

impl<'p> Searcher<'p> {
    pub(crate) fn new(alloc: Global, pattern: &'p Pattern) -> Result<Searcher<'p>, AllocError>
        ensures { IfOk result (λ searcher. searcher ≡ pattern.now) }
    {
        let regex = &pattern.regex;
        let search = regex.matcher(alloc)?;
        Ok(Searcher { regex, search })
    }

    /// Whether the pattern has a match in a text.
    pub(crate) fn has_match(&mut self, text: &str) -> bool
        ensures found { result ≡ has_match self.old text.now }
        ensures kept { self.new ≡ self.old }
    {
        self.search.is_match(text)
    }
}

fn anchored(alloc: Global, text: &str) -> Result<String, AllocError>
    ensures { IfOk result (λ source. string_bytes source ≡ anchored text.now) }
{
    let mut source = String::from_str(alloc, "^(?:")?;
    source.push_str(text)?;
    source.push_str(")$")?;
    Ok(source)
}
