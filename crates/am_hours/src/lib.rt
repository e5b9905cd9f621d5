//! The calendar of Alertmanager's time intervals (`timeinterval.TimeInterval` 0.25): when an
//! interval holds, and in which spans of time from a start.
//!
//! `interval` has the intervals, `reading` reads their ranges from text. A `Clock` is a zone's
//! local time from a start on, as pieces of one offset in one month. `expansion` gives the spans
//! in which an interval holds on a clock. `joining` gives the union of spans, and the time outside.
#![tactic(auto)]

pub mod clock;
pub mod expansion;
pub mod fault;
pub mod interval;
pub mod joining;
pub mod law;
mod local;
pub mod muting;
pub mod piece;
pub mod reading;
pub mod zone;
