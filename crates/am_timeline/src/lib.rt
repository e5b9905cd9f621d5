//! The texts of a rehearsal that ran: the timeline, its notices, the table of receivers, and the same as
//! JSON. Other texts of a rehearsal are built of its pieces.
//!
//! Each text is one of the history, of what the begins were to do and of what happened, in its
//! order. A line on a notice takes its content from the begin's record, and its outcome from the
//! finish in a later record. Only the attempts and the end come from the events. So a line on a
//! notice is one of a flush of the history. All times are in milliseconds from the start of the
//! rehearsal. No text has a number that changes where something else is added, or a control
//! character other than line feeds.
#![tactic(auto)]

pub mod alerts;
mod alike;
mod begun;
pub mod changed;
pub mod comparison;
pub mod escape;
pub mod filtered;
pub mod finishes;
mod fold_list;
mod frame;
pub mod groups;
pub mod integration_name;
pub mod json;
pub mod law;
pub mod line;
pub mod logbook;
pub mod muted;
pub mod notices;
pub mod playback;
mod print;
mod remark;
mod remarks;
mod runs;
pub mod sent;
mod sent_notice;
pub mod short_timeline;
pub mod shown;
pub mod table;
mod tally;
pub mod timeline;
