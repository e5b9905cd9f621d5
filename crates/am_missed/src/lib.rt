//! A law of rehearsals for whoever reads what went undelivered: each span of firing that an
//! integration missed has a cause at each of its flushes. It follows from the laws of paging and the
//! definition of spans. It stores nothing.
//!
//! - `law`: the law, as a public call without a body.
//! - specs `Causes`: which flushes come in a span, and what kept an integration from being notified.
//! - proofs: `Begins` ties a record that takes a group to its preview, `Fates` says what a flush comes
//!   to, `Inserts` and `Recipients` what a span has at a flush, `Kept` what it has later. `Examples`
//!   runs the definitions on worked rehearsals.
#![tactic(auto)]

pub mod law;
