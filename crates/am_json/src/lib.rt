//! What the programs share: devices whose bytes contracts see, a JSON reader with pointers, and the
//! form of a configuration.
#![tactic(auto)]

mod answer;
pub mod config;
pub mod default_waits;
pub mod device;
pub mod duration;
pub mod fault;
pub mod faults;
pub mod io_trace;
pub mod labels;
pub mod law;
mod matcher;
pub mod matcher_text;
pub mod pointer;
pub mod reader;
mod refusal;
mod route;
pub mod transfer;
pub mod translated;
