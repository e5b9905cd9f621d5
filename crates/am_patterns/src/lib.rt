//! Patterns in RE2's syntax, as Go's `regexp` reads them, turned into the syntax of the kit's `regex`.
//! Where labels are matched, both have the same matches in any text.
//!
//! The crate depends on no other crate of the repository.
#![tactic(auto)]

mod class;
mod code;
mod escape;
pub mod fault;
mod flags;
mod group;
mod item;
mod names;
mod pattern;
mod property;
mod repetition;
mod set;
mod simple;
mod text;
mod translator;

pub use pattern::{MAX_GROUPS, translate, translate_value};
