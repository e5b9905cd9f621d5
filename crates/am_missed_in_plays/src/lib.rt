//! Laws of whole rehearsals, with no premise on the playbacks: each span of firing that an integration
//! missed has its cause, and none is missed for long where a receiver answers. They are for whoever reads
//! what went undelivered, and follow from the laws of plays and of missed spans. It stores nothing.
//!
//! - `law`: the laws, as public calls without a body.
//! - specs `Rehearsals`: what every rehearsal has. `SpansInTime`: a flush by the latest time, and why it
//!   notified nobody of a span.
//! - proofs: `HaveRun` ties the dispatchers of a rehearsal to their plays, `Begun` finds the flush, and
//!   `Delivered` its delivered notices. `Examples` runs the definitions on a worked rehearsal.
#![tactic(auto)]

pub mod law;
