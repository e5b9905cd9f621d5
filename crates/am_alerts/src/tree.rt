//! Routes that say only some of their options, with the routes below them.
use crate::matcher::Matcher;
use crate::route::{GroupBy, RouteFault};
use crate::sequence::Sequence;
use crate::spans::Spans;
use crate::text::Text;
use std::alloc::AllocError;
use thiserror::Error;

/// What a route says of itself. What it doesn't say it has from the nearest route above it that
/// does. Durations are in milliseconds.
#[derive(Debug, Drop)]
pub struct Options {
    pub receiver: Option<Text>,
    pub group_by: Option<GroupBy>,
    pub group_wait: Option<u64>,
    pub group_interval: Option<u64>,
    pub repeat_interval: Option<u64>,
}

/// A route below the root, except for the routes below it.
#[derive(Debug, Drop)]
pub struct RouteSpec {
    pub name: Text,
    pub options: Options,
    pub matchers: Sequence<Matcher>,
    /// Whether the search goes on among its siblings, which is written `continue`.
    pub continues: bool,
    /// When it is muted. The routes below it don't have this from it.
    pub muted: Spans,
}

/// A route below the root, with the routes right below it in their order.
#[derive(Drop)]
pub struct Node {
    pub rule: RouteSpec,
    pub routes: Vec<Node>,
}

/// Why a root and the routes below it make no routing tree.
#[derive(Clone, Copy, Debug, PartialEq, Eq, Error)]
pub enum TreeFault {
    #[error("{0}")]
    Unfit(RouteFault),
    #[error("out of memory")]
    NoMemory,
}

impl From<AllocError> for TreeFault {
    ghost use Rattle.std.specs.Prelude.{◌≡◌};
    ghost use Rattle.am_alerts.specs.declared.tree.TreeFault.TheVariants.{NoMemory};

    ghost from_gives = { λ given fault. fault ≡ NoMemory };

    fn from(_: AllocError) -> TreeFault {
        TreeFault::NoMemory
    }
}
