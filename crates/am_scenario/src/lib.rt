//! Scenarios of `am-run`: what they are, and how they are read from JSON.
//!
//! All times are in milliseconds. What a JSON value decodes to is defined in specs/Decoding.antt.
#![tactic(auto)]

pub mod scenario;
