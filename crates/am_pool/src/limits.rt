//! The limits of a pool.

/// The greatest number of couriers, each in a thread of its own.
pub const MAX_WORKERS: usize = 8;

/// The greatest number of jobs of one run.
pub const MAX_JOBS: usize = 8_192;

/// The parts of the right to know that each number was taken: one a worker, and one for the filler.
pub(crate) const ALL_PARTS: u64 = 9;
