//! The sending of notices: `Courier`, `deliver` for one notice, `run_jobs` for many in threads.
//!
//! A courier makes the attempts. `am_retry` says when there is another one and how they end. All
//! times are in milliseconds.
#![tactic(auto)]

mod courier;
mod delivery;
mod fault;
mod law;
mod limits;
mod pool;
mod queue;
mod trace;
mod worker;

pub use courier::{Courier, Sent, Tried};
pub use delivery::{deliver, deliver_by};
pub use fault::PoolFault;
pub use law::{fault_numbers_are, limits_are, queue_deals_each_number_once};
pub use limits::{MAX_JOBS, MAX_WORKERS};
pub use pool::run_jobs;
pub use queue::Hand;
pub use trace::AttemptTrace;
pub use worker::Job;
