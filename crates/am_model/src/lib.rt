//! The definitions of the dispatcher, the plain data that contracts compare, and the laws of legal
//! histories. Contracts of other crates cite them. It stores nothing.
//!
//! - `carry`: which rows a log under another configuration takes over, with specs `Carry`.
//! - `boxed`: a value behind a pointer, for the large parts of a record.
//! - `rekey`: which rows it has as Alertmanager's log finds them again, with specs `Rekey`;
//!   `route_keys`: the keys of routes, by which it does, with specs `RouteKeys`.
//! - `config`, `fault`, `group`, `notice`, `outcome`, `preview`, `reason`, `record`, `status`,
//!   `views`: the data, each type with its own calls.
//! - `law`: the laws, as public calls without a body.
//! - specs `Config`, `Configured`, `Faults`, `Notice`, `Records`, `Status`, `Ticket`,
//!   `Views`: what is defined of one type, with the data that contracts see.
//! - specs `State`, `Insert`, `Begin`, `Note`, `Finish`, `Maintenance` (silences and upkeep),
//!   `Forget`, `Load`: the state, over plain lists in the order of arrival, with the reply of each call and
//!   the state after it.
//! - specs `Replay`: the reply that is due at a state, the replay of a history, and when one is
//!   legal. `Causes`: the first cause of a failed call. `Laws`: what is true after every legal
//!   history.
//! - specs `look_back`: the same looked for from the end of a history, without a state: `Past`,
//!   `Presence`, `Entry`, `Interval`, `Reasons`, `Laws`. `Preview` takes the group and what mutes
//!   its alerts from the state, and the reasons from there.
//! - specs `Lists`: upsert, without, changed where, in order, least.
//! - proofs `legal` and `looking_back` prove the laws; `examples` runs the definitions on worked
//!   rows; `lists` has the lemmas on lists for all crates above.
//!
//! The definitions are total: a call that isn't legal only moves the clock, and ties take the
//! first. The state doesn't have the board's id; only the reply and legality take it. An outcome of
//! an integration is that of the first pair that names it. Rows are in the order of arrival; a row
//! that is put again after a collection comes last.
#![tactic(auto)]

pub mod boxed;
pub mod carry;
pub mod config;
pub mod fault;
pub mod group;
pub mod law;
pub mod notice;
pub mod outcome;
pub mod preview;
pub mod reason;
pub mod record;
pub mod rekey;
pub mod route_keys;
pub mod status;
pub mod views;
