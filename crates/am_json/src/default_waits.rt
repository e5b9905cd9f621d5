//! How long a route waits that doesn't say it: Alertmanager's defaults, in an `alertmanager.yml`
//! and in a story's own configuration.

/// How long a new group waits until it is flushed: 30 seconds, in milliseconds.
pub const GROUP_WAIT: u64 = 30_000;

/// How long a group waits from flush to flush: 5 minutes, in milliseconds.
pub const GROUP_INTERVAL: u64 = 300_000;

/// When a notice without news is repeated: after 4 hours, in milliseconds.
pub const REPEAT_INTERVAL: u64 = 14_400_000;
