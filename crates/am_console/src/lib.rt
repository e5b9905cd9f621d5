//! What the commands of `am-rehearse` read from and print to.
//!
//! A command reads its files, and prints each fault to standard error, with file, line and column.
//! It returns the status with which the program ends.
#![tactic(auto)]

pub mod bounds;
mod config_words;
pub mod console;
mod dispatcher_change_words;
pub mod files;
pub mod foreign;
pub mod matcher_words;
pub mod progress;
mod setting_words;
pub mod source;
pub mod story_words;
mod time_words;
