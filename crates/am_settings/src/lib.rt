//! The settings of an `alertmanager.yml` that say how and where something is sent: which fields
//! `global` and each kind of integrations have, which of them are required or exclude each other,
//! and what Alertmanager rejects in them.
#![tactic(auto)]

mod addresses;
pub mod explained;
pub mod findings;
mod integration_rows;
pub mod kinds;
pub mod settings;
mod shared_rows;
