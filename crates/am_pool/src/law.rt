//! The law of the queue, the limits and the faults' numbers, which verifiers read.
ghost use Rattle.am_pool.specs.Dealt.{DealsEachOnce};
ghost use Rattle.am_pool.specs.Laws.{LimitsAre, PoolFaultsAre};

use crate::fault::PoolFault;

const POOL_FAULTS: [(PoolFault, u8); 3] = [
    (PoolFault::NoMemory, PoolFault::NoMemory as u8),
    (PoolFault::TooManyJobs, PoolFault::TooManyJobs as u8),
    (PoolFault::BadWorkers, PoolFault::BadWorkers as u8),
];

/// States that each number that was put is once among the taken and the remaining, and no other is.
///
/// So says the rule of the queue at every step of `run_jobs`, whatever the schedule.
pub fn queue_deals_each_number_once()
    ensures { DealsEachOnce }
{}

/// States how many workers and jobs a pool can have.
pub fn limits_are()
    ensures { LimitsAre }
{}

/// States the number of each fault.
pub fn fault_numbers_are()
    ensures { PoolFaultsAre }
{}
