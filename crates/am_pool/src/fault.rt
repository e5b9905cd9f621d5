//! Why jobs aren't sent.
ghost use Rattle.std.specs.Prelude.{◌≡◌};
ghost use Rattle.am_pool.specs.declared.fault.PoolFault.TheVariants as pool_fault;

use std::alloc::AllocError;
use thiserror::Error;

/// Why no job was sent; checked in the order `BadWorkers`, `TooManyJobs`, `NoMemory`.
#[derive(Clone, Copy, Debug, PartialEq, Eq, Error)]
pub enum PoolFault {
    #[error("out of memory")]
    NoMemory = 1,
    #[error("there are more than 8,192 jobs")]
    TooManyJobs = 2,
    #[error("there are no workers, or more than 8")]
    BadWorkers = 3,
}

impl From<AllocError> for PoolFault {
    ghost from_gives = { λ _ e. e ≡ pool_fault.NoMemory };

    fn from(_error: AllocError) -> PoolFault {
        PoolFault::NoMemory
    }
}
