//! Silences and inhibition, which mute notifications, as Alertmanager has them.
//!
//! `muted` and `mute_cause` are the rules, over plain lists. `muted_with`, `muted_under` and
//! `mute_cause_with` give the same by indexes: `sources` for inhibition, `silence_index` for
//! silences. `mute_causes` lists all that mutes a label set.
#![tactic(auto)]

pub mod causes;
pub mod inhibit;
pub mod law;
pub mod mute;
mod places;
pub mod silence;
mod silence_index;
pub mod silences;
pub mod sources;
mod target;
