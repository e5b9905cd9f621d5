//! A rehearsal that ran, as one page of HTML.
//!
//! `page` gathers what is drawn (`gather`), and then writes the page from top to bottom. Time runs
//! from left to right, in thousandths of the page's own width. A `Fold` is a label set by which
//! routes group. It has its alerts, and a `Lane` for each route that has such a group. Each notice
//! and each label set of a fold is on the page once: as a mark while the fold is closed, and as a
//! line to read once it is open.
//!
//! Times are in milliseconds from the start.
#![tactic(auto)]

mod alerts;
mod axis;
mod bands;
mod content;
mod counts;
mod fold;
mod fold_list;
mod gather;
mod heading;
mod lane;
mod lane_list;
mod legend;
mod missed_list;
mod mute_lines;
mod mute_lists;
mod mutes;
mod new_lane;
mod notices;
mod numbers;
mod order;
mod overview;
pub mod page;
mod parts;
mod pen;
mod scene;
mod script;
mod span;
pub mod story;
mod style;
mod ticks;
mod verdicts;
