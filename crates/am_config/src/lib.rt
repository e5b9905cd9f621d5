//! Alertmanager's own configuration, as JSON: read as a dispatcher's configuration, or all its
//! faults with their pointers.
//!
//! It follows release 0.25, with the receivers of later ones. The order of reading is fixed, since
//! the fields of an object come by name and not as the text has them.
#![tactic(auto)]

pub mod alertmanager;
mod clocks;
mod collected;
mod definitions;
pub mod dropped;
pub mod hours;
mod inhibit;
mod intervals;
pub mod law;
mod matchers;
mod names;
mod optional;
mod options;
mod receiver;
mod route;
mod scalar;
pub mod settings;
mod times;
pub mod written;
