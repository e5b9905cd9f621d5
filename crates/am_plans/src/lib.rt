//! Reads what happens in a story, and what is expected of it, as JSON values: alerts and silences as planned actions,
//! outages, expectations.
//!
//! It doesn't read the configuration, so it is proved at the same time as `am_config`.
#![tactic(auto)]

pub mod alert;
pub mod causes;
pub mod configs;
pub mod dispatcher_change;
pub mod expectation;
pub mod law;
pub mod origin;
pub mod outage;
pub mod planned;
pub mod silence;
mod span;
pub mod target;
