//! The alerts of a row: a set, stored as a strictly ascending list that several owners can share.
//!
//! No `Vec` comes back out of it. The flush, its notified integrations and their rows share one
//! list.
ghost use Rattle.std.specs.Prelude.{◌≡◌, IfOk, IsTrue};
ghost use Rattle.am_nflog.specs.Members.{is_ascending};

use std::alloc::{AllocError, Global};
use std::marker::Model;
use std::sync::Arc;

/// A set of alerts as the log keeps it: strictly ascending by their order.
///
/// Contracts see it as the list of its members. Several owners may share one list; it is let go with the last of them.
#[derive(Debug, Drop)]
pub struct Members<N: Ord> {
    list: Arc<Vec<N>>,
}

impl<N: Ord> Model for Members<N> {
    ghost use Rattle.std.specs.Prelude.{List, IsTrue};
    ghost use Rattle.std.specs.Arc.{arc_value};
    ghost use Rattle.am_nflog.specs.Members.{is_ascending};

    ghost Value = { List N };

    ghost view = { λ m. (arc_value m.list).items };

    ghost invariant = { λ m. IsTrue (is_ascending N.cmp (arc_value m.list).items) };
}

impl<N: Ord + Drop> Members<N> {
    /// The members, which the caller hands in strictly ascending. The list stays in the memory that it has; it takes memory only
    /// to be shared, and where that is refused the list is let go.
    pub fn new(alloc: Global, list: Vec<N>) -> Result<Self, AllocError>
        requires { IsTrue (is_ascending N.cmp list.items) }
        ensures { IfOk result (λ members. members ≡ list.items) }
    {
        Ok(Members {
            list: Arc::new(alloc, list)?,
        })
    }
}

impl<N: Ord> Members<N> {
    /// The members, strictly ascending.
    pub fn as_slice(&self) -> &[N]
        ensures all { result.now ≡ self.now }
        ensures ascending { IsTrue (is_ascending N.cmp self.now) }
    {
        self.list.as_slice()
    }

    /// One more owner of the same list. It takes no memory, and is refused only where the count of owners is full.
    pub fn share(&self) -> Result<Self, AllocError>
        ensures { IfOk result (λ members. members ≡ self.now) }
    {
        Ok(Members {
            list: Arc::try_clone(&self.list)?,
        })
    }
}
