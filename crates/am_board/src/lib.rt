//! The dispatcher of one thread: `Board`, its tickets, and the history of every call.
//!
//! The definitions are those of `am_model`; this crate has none of its own of what a call replies.
//! Its modules:
//!
//! - `board`, `history`, `ticket`, `preview`, `status`, `views`, `logged`, `fault`: the public calls and
//!   types.
//! - `state`, `known`, `groups`, `group`, `members`, `silences`, `flush`: the stored state. Contracts see the
//!   tables as plain lists in the order of arrival, with their capacity.
//! - `due`, `order`, `noted`, `unsilenced`, `destinations`: indexes and caches, which only save time. No contract above
//!   them mentions them.
//! - `insert` (with `again`), `silence`, `begin` (with `look`, `found`, `walk`, `unmuted`, `dedup`, `plan`),
//!   `note`, `finish`, `maintain`, `forget`, `load`: one module for each call, named after it.
//!
//! Each module of a call has one function over the plain state with the exact contract. It relies
//! on `StateInvariant` and ensures `AppliesCall` or `LeavesUnchanged` (specs/Step.antt). The
//! board's method hands its fields over. `state_of` (specs/Refinement.antt) reads the stored state
//! as a state of `am_model`. `IsSound` (specs/Board.antt) is the board's invariant: the whole
//! history is legal, and the stored state agrees with its replay. proofs/lemmas/invariant carries it
//! over each call.
#![tactic(auto)]

mod again;
pub mod begin;
pub mod board;
mod dedup;
mod destinations;
mod due;
pub mod fault;
mod finish;
mod flush;
mod forget;
mod found;
pub mod group;
mod groups;
pub mod history;
mod insert;
mod known;
mod load;
mod logged;
mod look;
mod maintain;
mod members;
mod note;
mod noted;
mod order;
pub mod own_ticket;
mod plan;
pub mod preview;
mod silence;
mod silences;
mod state;
pub mod status;
pub mod ticket;
mod unmuted;
mod unsilenced;
pub mod views;
mod walk;

pub use am_model::{config, law, notice, reason, record};
