//! Laws of rehearsals for whoever is on call: no flush waits for another, nothing that is due is
//! passed over, and pages are delivered in time. They follow from the definitions of plays, and ask
//! nothing of a driver. It stores nothing.
//!
//! - `law`: the laws, as public calls without a body.
//! - specs `Plays`: what every play has, and what passing over a group that is due is.
//!   `PlaysInTime`: which groups are served, and by when they are paged. `PlaysDeliver`: by when a
//!   page is delivered. `PlaysRecover`: by when, once the outages of a receiver are over.
//! - proofs: `StepKinds` has the one analysis of the kinds of steps, `Moves` what each does to the
//!   board. `Promises` is what is known of each sending. `Sound`, `PassedOver`, `InFlight` and
//!   `FlushesEnd` carry invariants over steps. `Examples` runs the definitions on worked plays.
#![tactic(auto)]

pub mod law;
