//! The commands of `am-rehearse` that play nothing, and what `play` and `compare` share with them.
#![tactic(auto)]

pub mod check;
mod config;
pub mod faults;
pub mod folders;
pub mod given;
pub mod ignored;
mod implied;
pub mod json;
mod label_words;
mod lint;
pub mod matchers;
pub mod once;
pub mod reload_files;
mod route_lines;
pub mod routes;
pub mod story;
mod story_edits;
mod story_warnings;
pub mod system_zones;
mod times;
mod tree;
mod warnings;
pub mod wrapped;
mod zones;
