//! The spans of firing of a rehearsal that an integration wasn't notified of, or of whose end, and why.
#![tactic(auto)]

mod fate;
mod flush;
mod known_sets;
mod label_sets;
mod members;
mod missed;
mod notified;
mod recipient;
pub mod report;
mod span;
mod watches;
