//! Stories of what really happened: an answer of Prometheus or Alertmanager, read and written as a story in YAML.
#![tactic(auto)]

pub mod alertmanager;
pub mod incident;
mod labels;
pub mod prometheus;
mod repeats;
mod time;
mod yaml;
