//! The notification log: for each group and integration the last notice that succeeded, and whether a further one is needed.
//!
//! A row says when an integration was last notified of a group, and of which alerts: by this log, or by the log that the row was
//! loaded from. `update_reason` compares it with the alerts of now. This is what Alertmanager's nflog and DedupStage do on a single
//! node. All times and durations are in milliseconds.
#![tactic(auto)]

mod key;
mod lends;
mod log;
mod members;
mod row;
mod update;

pub use key::LogKey;
pub use lends::Lends;
pub use log::NfLog;
pub use members::Members;
pub use row::LogRow;
pub use update::{UpdateReason, is_subset, needs_update, numbering_keeps_needed, update_reason};
