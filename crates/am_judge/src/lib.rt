//! Judges the expectations of a story by a rehearsal that ran, and reports on them: as lines below the
//! timeline, and as XML of JUnit.
#![tactic(auto)]

mod edge;
mod expectation;
pub mod expectation_report;
pub mod judged;
pub mod junit;
