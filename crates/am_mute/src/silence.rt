//! `Silence`: matchers and a span.
ghost use Rattle.std.specs.Prelude.{◌≡◌, ◌≢◌, ◌≤◌, [], length, IfOk, IsOk, IsTrue};
ghost use Rattle.am_alerts.specs.Fault.{ok_unless};
ghost use Rattle.am_mute.specs.Silence.{is_over, silence_fault, silence_of, silence_mutes};
ghost use Rattle.am_alerts.specs.Matcher.{compare_texts};

use am_alerts::labels::Labels;
use am_alerts::limits::{MAX_MATCHERS, MAX_TIME};
use am_alerts::matcher::{Matcher, all_match};
use am_alerts::sequence::Sequence;
use std::alloc::{AllocError, Global};
use std::marker::Model;
use thiserror::Error;

/// Why matchers and times make no silence.
#[derive(Clone, Copy, Debug, PartialEq, Eq, Error)]
pub enum SilenceFault {
    #[error("a silence needs a matcher")]
    NoMatchers = 1,
    #[error("there are more than 128 matchers")]
    TooManyMatchers = 2,
    #[error("the silence starts after its end, or a time is above 10^15")]
    BadTimes = 3,
}

/// Mutes the label sets that all its matchers match, from its start up to its end, which is the
/// first time at which it mutes no more (milliseconds). Its id keeps it from other silences.
#[derive(Debug, Drop)]
pub struct Silence {
    id: u64,
    matchers: Sequence<Matcher>,
    start: u64,
    end: u64,
}

impl Model for Silence {
    ghost use Rattle.am_mute.specs.Silence.{SilenceData};

    ghost Value = { SilenceData };

    ghost use Rattle.std.specs.Prelude.{◌≡◌, None};
    ghost use Rattle.am_mute.specs.Silence.{silence_fault, silence_of};

    ghost view = { λ s. silence_of s.id s.matchers s.start s.end };

    ghost invariant = { λ s. silence_fault (silence_of s.id s.matchers s.start s.end) ≡ None };
}

impl Silence {
    /// A silence of these matchers. Refused in this order: `NoMatchers`, `TooManyMatchers` (more
    /// than 128), `BadTimes` (the start is after the end, or one of them is above 10^15; an end
    /// at the start is accepted, and mutes nothing). Takes no memory.
    pub fn new(
        id: u64,
        matchers: Vec<Matcher>,
        start: u64,
        end: u64,
    ) -> Result<Silence, SilenceFault>
        ensures { let silence = silence_of id matchers.items start end in
            result ≡ ok_unless (silence_fault silence) silence }
    {
        if matchers.is_empty() {
            return Err(SilenceFault::NoMatchers);
        }
        if matchers.len() > MAX_MATCHERS {
            return Err(SilenceFault::TooManyMatchers);
        }
        if start > end || end > MAX_TIME {
            return Err(SilenceFault::BadTimes);
        }
        Ok(Silence {
            id,
            matchers: Sequence::from(matchers),
            start,
            end,
        })
    }

    pub fn id(&self) -> u64
        ensures { result ≡ self.now.id }
    {
        self.id
    }

    /// The silence's matchers: 1 to 128.
    pub fn matchers(&self) -> &[Matcher]
        ensures matchers { result.now ≡ self.now.matchers }
        ensures some { self.now.matchers ≢ [] }
        ensures few { length self.now.matchers ≤ MAX_MATCHERS }
    {
        self.matchers.as_slice()
    }

    /// The first time at which the silence mutes, in milliseconds.
    pub fn start(&self) -> u64
        ensures start { result ≡ self.now.start }
        ensures ordered { result ≤ self.now.end }
    {
        self.start
    }

    /// The time from which on the silence mutes no more, in milliseconds.
    pub fn end(&self) -> u64
        ensures end { result ≡ self.now.end }
        ensures bounded { result ≤ MAX_TIME }
    {
        self.end
    }

    /// Whether this silence mutes nothing any more from `t` on (milliseconds).
    pub fn is_over(&self, t: u64) -> bool
        ensures { result ≡ is_over t self.now }
    {
        self.end <= t
    }

    /// Whether this silence mutes a label set at `t`.
    pub(crate) fn mutes(&self, alloc: Global, labels: &Labels, t: u64) -> Result<bool, AllocError>
        ensures value { IfOk result (λ mutes. mutes ≡ silence_mutes self.now t labels.now) }
        ensures answers { IsTrue (compare_texts self.now.matchers) → IsOk result }
    {
        if t < self.start || self.end <= t {
            return Ok(false);
        }
        all_match(alloc, self.matchers(), labels)
    }
}
