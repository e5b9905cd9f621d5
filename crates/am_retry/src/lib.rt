//! When a notice is attempted, when it is attempted again, and how that ends.
//!
//! Alertmanager's retry stage attempts a notification until it is done, is refused for good, or
//! runs out of time. Here that is a machine of plain numbers: it says when to attempt, learns how
//! the attempt went, and takes no memory. All times and waits are in milliseconds.
#![tactic(auto)]

mod law;
mod outcome;
mod retry;

pub use law::{limits_are, machine_gives_retry_outcome};
pub use outcome::{Answer, Outcome};
pub use retry::{Retry, Step};
