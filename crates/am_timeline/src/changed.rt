//! The events of a rehearsal that say something new.
ghost use Rattle.std.specs.Prelude.{◌≡◌, ◌||◌, IfOk, filter, is_some, nat_lt, not};
ghost use Rattle.am_timeline.specs.Changed.{begins_compared, is_change, is_new};
ghost use Rattle.am_timeline.specs.Runs.{run_at};

use crate::fold_list::Folds;
use crate::playback::Playback;
use crate::runs::begins_compared;
use am_terms::clock::TimeFormat;
use am_terms::event::Event;
use std::alloc::{AllocError, Global};

/// Returns the events without the flushes that say the same as the flush before of their group, in their order.
///
/// The end of a sending is always there. Cost: the lines of each begin whose preview isn't like the last one of its group.
pub fn changed_events<C: TimeFormat>(
    alloc: Global,
    playback: &Playback<'_>,
    clock: &C,
) -> Result<Vec<Event>, AllocError>
    ensures { IfOk result (λ events. events.items
        ≡ filter (is_change (begins_compared playback.now (C.times clock.now))) playback.now.events) }
{
    let folds = begins_compared(alloc, playback, clock)?;
    new_events(alloc, playback.begins().len(), &folds, playback.events())
}

/// Those of these events that say something new, by the runs of so many begins.
fn new_events(
    alloc: Global,
    count: usize,
    folds: &Folds,
    events: &[Event],
) -> Result<Vec<Event>, AllocError>
    ensures { IfOk result (λ kept. kept.items ≡ filter (is_new count folds.now) events.now) }
{
    let mut kept = Vec::new(alloc);
    for event in events {
        if is_new(count, folds, event) {
            kept.push(event.copy(alloc)?)?;
        }
    }
    Ok(kept)
}

/// Whether an event says something new, by the runs of so many begins.
fn is_new(count: usize, folds: &Folds, event: &Event) -> bool
    ensures { result ≡ is_new count folds.now event.now }
{
    match event {
        Event::Begun { begin } => begins_run(count, folds, *begin as usize),
        Event::Sent { .. } => true,
    }
}

/// Whether the begin at a position begins a run. One that isn't there says something new too.
fn begins_run(count: usize, folds: &Folds, position: usize) -> bool
    ensures { result ≡ (not (nat_lt position count) || is_some (run_at position folds.now.0 folds.now.1)) }
{
    position >= count || folds.run_at(position).is_some()
}
