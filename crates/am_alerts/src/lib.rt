//! Label sets, alerts, matchers, routes and durations, as Alertmanager has them.
//!
//! Invariants: the labels of a set are in the order of their names, which differ. Each has a value
//! and is within the limits. The hash is that of their run. A routing tree has none of the faults
//! of `Routes::new`.
#![tactic(auto)]

pub mod alert;
pub mod duration;
mod label_pairs;
pub mod label_text;
pub mod labels;
pub mod law;
pub mod limits;
pub mod matcher;
pub mod packed_labels;
mod pattern;
mod plain;
pub mod route;
mod route_layout;
mod routes;
pub mod searchers;
pub mod sequence;
pub mod spans;
pub mod text;
pub mod tree;
