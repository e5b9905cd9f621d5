//! The bounds of times, durations, labels and lists.

/// The greatest time of an alert or a silence, in milliseconds.
pub const MAX_TIME: u64 = 1_000_000_000_000_000;

/// The greatest duration, in milliseconds.
pub const MAX_DURATION: u64 = 1_000_000_000_000;

/// How many labels an alert may have.
pub const MAX_LABELS: usize = 64;

/// How many bytes the name of a label may have.
pub const MAX_NAME_BYTES: usize = 1_024;

/// How many bytes the value of a label, or what a matcher compares it with, may have.
pub const MAX_VALUE_BYTES: usize = 16_384;

/// How many matchers a list of matchers may have.
pub const MAX_MATCHERS: usize = 128;

/// How many names `group_by` or an inhibition rule's `equal` may have.
pub const MAX_LABEL_NAMES: usize = 64;

/// How many children the root route of one level may have.
pub const MAX_CHILDREN: usize = 63;

/// How many routes can be below the root of a tree.
pub const MAX_ROUTES: usize = 16_383;

/// At how many levels they can be.
pub const MAX_DEPTH: usize = 64;

/// In how many spans of time a route can be muted.
pub const MAX_SPANS: usize = 8_192;
