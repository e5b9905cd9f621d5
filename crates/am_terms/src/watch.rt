//! `Watch`: who follows a rehearsal while it runs.

/// Who follows a rehearsal while it runs.
pub trait Watch {
    /// Notes that the simulated clock is at a time, in milliseconds from the start. It is called at each step.
    fn note(&mut self, clock: u64);

    /// Notes that the rehearsal isn't played any more.
    fn end(&mut self);
}
