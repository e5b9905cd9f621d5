//! The command line of am-rehearse: its words, and the words in which it says what is wrong in a file.
#![tactic(auto)]

pub mod command;
pub mod complaint;
pub mod completions;
pub mod durations;
pub mod exit_status;
pub mod explain;
mod fields;
pub mod manual;
pub mod paint;
pub mod request;
pub mod spelling;
mod spot;
mod unknown_receiver;
