//! Rehearsals: alerts, silences and outages run against a board on a simulated clock, and what each
//! begin was to do is kept. `parts::parts_of` makes a part for each dispatcher: the first one, and
//! one for each reload and restart. `playing::play_parts` plays the parts.
//!
//! All times are in milliseconds from the start of the rehearsal.
#![tactic(auto)]

mod acting;
mod courier;
mod dispatcher_change;
mod flight_keys;
mod flights;
mod law;
mod limits;
mod next;
pub mod parts;
pub mod play;
pub mod playing;
mod preview_log;
mod previewing;
mod sending;
pub mod span;
mod taken;

pub use law::{
    limits_are, plays_have_their_inputs, rehearsals_have_one_play, sendings_end_by_the_cut,
};
pub use limits::BOARD_ID;
