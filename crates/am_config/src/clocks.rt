//! The clocks of a configuration's time intervals: one for each location, and the spans in which intervals
//! hold by them.
ghost use Rattle.std.specs.Prelude.{◌≡◌, ◌&&◌, ◌-◌, ℕ, IfOk, IfSome, find, map, nat_le};
ghost use Rattle.std.specs.Option.{option_copied};
ghost use Rattle.std.specs.Str.{bytes_eq};
ghost use Rattle.am_alerts.specs.Spans.{is_muted};
ghost use Rattle.am_config.specs.Later.{span_later};
ghost use Rattle.am_config.specs.Made.{HoldsAlike};
ghost use Rattle.am_config.specs.Times.{AreHeld, IsClockAt, timed_in};

use crate::hours::Hours;
use am_alerts::spans::{Span, Spans};
use am_alerts::text::Text;
use am_hours::clock::Clock;
use am_hours::fault::HoursFault;
use am_hours::interval::Interval;
use am_hours::muting::{Timed, expand_all};
use am_json::fault::InputFault;
use std::alloc::{AllocError, Global};
use std::marker::Model;
use std::sync::Arc;

/// A clock that intervals share. Contracts see the clock.
#[derive(Drop)]
pub(crate) struct SharedClock {
    clock: Arc<Clock>,
}

impl Model for SharedClock {
    ghost use Rattle.std.specs.Arc.{arc_value};
    ghost use Rattle.am_hours.specs.Pieces.{ClockData};

    ghost Value = { ClockData };

    ghost view = { λ s. arc_value s.clock };
}

impl SharedClock {
    fn new(alloc: Global, clock: Clock) -> Result<SharedClock, InputFault>
        ensures { IfOk result (λ shared. shared ≡ clock) }
    {
        Ok(SharedClock {
            clock: Arc::new(alloc, clock)?,
        })
    }

    /// The same clock for one more interval.
    fn share(&self) -> Result<SharedClock, AllocError>
        ensures { IfOk result (λ shared. shared ≡ self.now) }
    {
        Ok(SharedClock {
            clock: Arc::try_clone(&self.clock)?,
        })
    }

    fn as_clock(&self) -> &Clock
        ensures { result.now ≡ self.now }
    {
        &self.clock
    }
}

/// A clock, and the location that says its zone.
#[derive(Drop)]
struct NamedClock {
    location: Text,
    clock: SharedClock,
}

/// An interval, and its clock, unless it was refused.
#[derive(Drop)]
pub(crate) struct Placed {
    pub(crate) interval: Interval,
    pub(crate) clock: Option<SharedClock>,
}

/// The clocks that were made, one for each location. Contracts see from when on and to when they go, and by
/// which zones.
#[derive(Drop)]
pub(crate) struct Clocks<'h> {
    hours: &'h Hours,
    made: Vec<NamedClock>,
}

impl<'h> Model for Clocks<'h> {
    ghost use Rattle.am_config.specs.Made.{AreMade};
    ghost use Rattle.am_config.specs.declared.hours.Hours.{Hours};

    ghost Value = { Hours };

    ghost view = { λ c. c.hours.now };

    ghost invariant = { λ c. AreMade c.hours.now c.made.items };
}

impl<'h> Clocks<'h> {
    pub(crate) fn new(alloc: Global, hours: &'h Hours) -> Clocks<'h>
        ensures { result ≡ hours.now }
    {
        Clocks {
            hours,
            made: Vec::new(alloc),
        }
    }

    /// How long they go on.
    pub(crate) fn horizon(&self) -> u64
        ensures { result ≡ self.now.horizon }
    {
        self.hours.horizon
    }

    /// Spans that count from where the clocks begin, as times count.
    pub(crate) fn in_time(&self, alloc: Global, spans: Spans) -> Result<Spans, HoursFault>
        ensures { IfOk result (λ moved. (t : ℕ) →
            is_muted moved t ≡ (nat_le self.now.from t && is_muted spans (t - self.now.from))) }
    {
        if self.hours.from == 0 {
            return Ok(spans);
        }
        if spans.as_slice().is_empty() {
            return Ok(spans);
        }
        later(alloc, spans.as_slice(), self.hours.from)
    }

    /// The clock of a location. None where its zone isn't known, or has no clock from the start to the
    /// horizon.
    pub(crate) fn clock(
        &mut self,
        alloc: Global,
        location: &str,
    ) -> Result<Option<SharedClock>, InputFault>
        ensures hours { self.new ≡ self.old }
        ensures clock { IfOk result (λ clock. IfSome clock (λ c. IsClockAt self.old location.now c.pieces)) }
    {
        if let Some(made) = made_at(&self.made, location) {
            return Ok(Some(made.clock.share()?));
        }
        let Some(clock) = self.hours.clock(alloc, location)? else {
            return Ok(None);
        };
        let clock = SharedClock::new(alloc, clock)?;
        let shared = clock.share()?;
        let location = Text::new(alloc, location)?;
        self.made.push(NamedClock { location, clock })?;
        Ok(Some(shared))
    }
}

/// The clock that was made for a location.
fn made_at<'c>(made: &'c [NamedClock], location: &str) -> Option<&'c NamedClock>
    ensures { option_copied result ≡ find (λ known. bytes_eq known.location location.now) made.now }
{
    made.iter()
        .find(|known| known.location.as_str() == location)
}

/// The spans in which one of these intervals holds. One without a clock never does.
pub(crate) fn expand(alloc: Global, placed: &[Placed]) -> Result<Spans, HoursFault>
    ensures { IfOk result (AreHeld (map timed_in placed.now)) }
{
    let timed = timed_of(alloc, placed)?;
    expand_all(alloc, timed.as_slice())
}

/// The intervals that have a clock, and their clocks.
fn timed_of(alloc: Global, placed: &[Placed]) -> Result<Vec<Timed<'_>>, HoursFault>
    ensures { IfOk result (λ timed. HoldsAlike timed.items placed.now) }
{
    let mut timed = Vec::new(alloc);
    for one in placed {
        let Some(clock) = &one.clock else {
            continue;
        };
        let interval = &one.interval;
        let clock = clock.as_clock();
        timed
            .push(Timed { interval, clock })
            .map_err(|_| HoursFault::NoMemory)?;
    }
    Ok(timed)
}

/// These spans, so many milliseconds later.
fn later(alloc: Global, spans: &[Span], by: u64) -> Result<Spans, HoursFault>
    ensures { IfOk result (λ moved. moved ≡ map (span_later by) spans.now) }
{
    let mut moved = Vec::with_capacity(alloc, spans.len()).map_err(|_| HoursFault::NoMemory)?;
    for span in spans {
        moved.push(span_later(*span, by)?)?;
    }
    Ok(Spans::new(alloc, moved)?)
}

/// A span, so many milliseconds later.
fn span_later(span: Span, by: u64) -> Result<Span, HoursFault>
    ensures { IfOk result (λ moved. moved ≡ span_later by span) }
{
    match (span.from.checked_add(by), span.to.checked_add(by)) {
        (Some(from), Some(to)) => Ok(Span { from, to }),
        _ => Err(HoursFault::TooLong),
    }
}
