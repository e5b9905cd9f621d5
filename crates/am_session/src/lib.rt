//! A board that answers lines: what `am-dispatch` is made of.
//!
//! - `session` has the board and the tickets of its open flushes, and makes the calls. `ticket` records reports and writes what is
//!   open, `row` has the rows of the log that are loaded, `route_names` the positions of routes by their names.
//! - `line` has what a line is answered by. `service` answers lines one after the other without reading or writing anything.
#![tactic(auto)]

pub mod line;
mod route_names;
mod row;
pub mod service;
pub mod session;
mod ticket;
