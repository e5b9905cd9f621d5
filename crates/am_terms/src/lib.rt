//! What a story, its play and the texts on it share: what a rehearsal is made of, what happens in
//! it, how times are shown, and what is expected. Readers, players and writers of a story need only
//! these, so each is proved without the others. All times are in milliseconds from the start of the
//! rehearsal.
#![tactic(auto)]

pub mod clock;
pub mod dated;
pub mod dispatcher_change;
pub mod event;
pub mod expectation;
pub mod law;
mod like;
pub mod rehearsal;
pub mod shared_preview;
pub mod watch;
