//! The clocks around calls.
use std::rt::Clock;
use std::time::{CpuClock, Duration, Instant};

/// What the clocks show.
#[derive(Clone, Copy)]
struct Time {
    wall: Instant,
    /// The processor time of this thread.
    processor: Duration,
}

/// A step that is timed.
#[derive(Clone, Copy)]
pub struct Watch {
    /// Nothing where a clock can't be read.
    started: Option<Time>,
}

impl Watch {
    /// Says that a step begins, and starts to time it.
    pub fn of(rt: &(impl Eprint + Clock + CpuClock), step: &str) -> Watch {
        let _ = eprintln!(rt; "{step} begins");
        Watch::start(rt)
    }

    /// Starts to time a step, or a part of one.
    pub fn start(clock: &(impl Clock + CpuClock)) -> Watch {
        Watch {
            started: look(clock),
        }
    }

    /// Ends the step, and reports what it took. Where a clock fails nothing is reported.
    pub fn stop(&self, rt: &(impl Eprint + Clock + CpuClock), step: &str, count: usize) {
        if let Some(took) = self.took(rt) {
            took.print(rt, step, count);
        }
    }

    fn took(&self, clock: &(impl Clock + CpuClock)) -> Option<Took> {
        let (started, ended) = (self.started?, look(clock)?);
        Some(Took {
            wall: ended.wall.duration_since(started.wall),
            processor: ended.processor.saturating_sub(started.processor),
        })
    }
}

/// What a step took, or all parts of one that is done in parts.
#[derive(Clone, Copy)]
pub struct Took {
    wall: Duration,
    processor: Duration,
}

impl Took {
    pub fn nothing() -> Took {
        Took {
            wall: Duration::ZERO,
            processor: Duration::ZERO,
        }
    }

    /// Adds a part, which this watch was started for. Where a clock fails nothing is added.
    pub fn add(&mut self, clock: &(impl Clock + CpuClock), watch: &Watch) {
        if let Some(part) = watch.took(clock) {
            self.wall = self.wall.saturating_add(part.wall);
            self.processor = self.processor.saturating_add(part.processor);
        }
    }

    /// Says how long it took for each of so many: by the wall's clock, and of a processor; and the
    /// processor's time of all.
    pub fn print(&self, rt: &impl Eprint, step: &str, count: usize) {
        let (wall, each, all) = (
            each(self.wall, count),
            each(self.processor, count),
            self.processor.as_micros(),
        );
        let _ = eprintln!(rt;
            "{step}: {count}, each {wall} ns, of a processor {each} ns, all {all} us"
        );
    }
}

fn look(clock: &(impl Clock + CpuClock)) -> Option<Time> {
    Some(Time {
        wall: Instant::now(clock).ok()?,
        processor: clock.thread_cpu_time().ok()?,
    })
}

/// How many nanoseconds that is for each of so many.
fn each(duration: Duration, count: usize) -> u128 {
    duration.as_nanos().checked_div(count as u128).unwrap_or(0)
}

/// The longest that one call took.
#[derive(Clone, Copy)]
pub struct Longest {
    /// Whether calls are timed one by one. That costs some 500 ns a call.
    is_on: bool,
    /// Of a processor.
    time: Duration,
}

impl Longest {
    pub fn new(is_on: bool) -> Longest {
        Longest {
            is_on,
            time: Duration::ZERO,
        }
    }

    /// The processor's time before a call. Nothing where calls aren't timed.
    pub fn start(&self, clock: &impl CpuClock) -> Option<Duration> {
        if self.is_on {
            clock.thread_cpu_time().ok()
        } else {
            None
        }
    }

    /// Notes how long a call took that began at this time. Without one no clock is read.
    pub fn stop(&mut self, clock: &impl CpuClock, started: Option<Duration>) {
        if let Some(started) = started {
            if let Ok(ended) = clock.thread_cpu_time() {
                self.time = self.time.max(ended.saturating_sub(started));
            }
        }
    }

    /// Prints the longest call, if calls are timed, and begins anew.
    pub fn print(&mut self, rt: &impl Eprint, call: &str) {
        if self.is_on {
            let longest = self.time.as_nanos();
            let _ = eprintln!(rt; "longest {call}: {longest} ns");
            self.time = Duration::ZERO;
        }
    }
}
