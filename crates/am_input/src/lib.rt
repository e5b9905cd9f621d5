//! Reads a story, as a JSON value: what happens in it, under which configuration, and what is to be printed of it; or
//! its faults with their pointers.
//!
//! `read_input` stops at the first fault but those of an `alertmanager.yml`, and its contract says what was read.
//! `story_faults` goes over a refused story once more and lists all of its faults.
#![tactic(auto)]

pub mod configured;
pub mod dispatcher_changes;
pub mod faults;
pub mod form;
mod hours;
pub mod input;
mod time;
pub mod zone_files;
mod zones;
