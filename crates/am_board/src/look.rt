//! What a begin looks at: a board's fields, at the time of the call.

use crate::config::Config;
use crate::state::State;
use am_mute::sources::Sources;
use std::alloc::Global;

/// What a begin at a time looks at, before it changes anything. A preview looks at the same.
#[derive(Clone, Copy)]
pub(crate) struct Look<'b> {
    pub(crate) alloc: Global,
    pub(crate) config: &'b Config,
    pub(crate) state: &'b State,
    /// What was learned about the known alerts as inhibition sources.
    pub(crate) sources: &'b Sources,
    /// The time of the call, in milliseconds.
    pub(crate) t: u64,
    /// Whether causes and reasons are wanted: to know that an alert is muted costs less than to know
    /// why.
    pub(crate) why: bool,
}
