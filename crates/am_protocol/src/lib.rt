//! The lines of `am-dispatch`: what a line asks of a board, and the text of what the board answers.
//!
//! - `lines` finds the lines in what is given. `call` has the names of the calls, and `request` reads what a line asks: `opening`
//!   a configuration, `hours` the clocks of its time intervals, and `check` a part of another line.
//! - `answer` is the JSON text of an answer; contracts see its tokens. `parts`, `reply`, `view`, `status` and `record` write what
//!   the board's replies, views and records say, `begun` why a begin did so, `logged` which rows a note or a finish logged,
//!   `fault` why a line is refused,
//!   `wanted` what it has to be, and `inserts` what became of several inserts of one line.
#![tactic(auto)]

pub mod answer;
pub mod begun;
pub mod call;
pub mod check;
pub mod fault;
mod hours;
pub mod inserts;
pub mod lines;
pub mod logged;
pub mod opening;
mod parts;
pub mod record;
pub mod reply;
pub mod request;
pub mod status;
mod time;
pub mod view;
mod wanted;
