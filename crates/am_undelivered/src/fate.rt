//! `Fate`: what the flushes of a group came to for an alert and an integration.
ghost use Rattle.std.specs.Prelude.{◌≡◌};
ghost use Rattle.am_undelivered.specs.Spans.{is_unflushed, joined, rank};
ghost use Rattle.am_undelivered.specs.Undelivered.{is_muted_at, is_seen, same_fate};

/// What the flushes of a group came to for an alert and an integration of the group's receiver.
#[derive(Clone, Copy)]
pub enum Fate {
    /// No flush came.
    Unflushed,
    /// A flush sent nothing of it, though nothing mutes it: no log entry lists it as firing, or it isn't in the group.
    Unlisted,
    /// The begin at this position left it out, and was the last that did. The dispatcher has this position.
    Muted { part: usize, begin: usize },
    /// A notice had it, and wasn't delivered.
    Failed,
    /// A delivered notice had it, or the log entry has it.
    Seen,
}

/// Returns what two flushes came to together: the fate that says more, and of equal ones the later.
pub(crate) fn joined(earlier: Fate, later: Fate) -> Fate
    ensures { result ≡ joined earlier later }
{
    if rank(later) < rank(earlier) {
        earlier
    } else {
        later
    }
}

fn rank(fate: Fate) -> u8
    ensures { result ≡ rank fate }
{
    match fate {
        Fate::Unflushed => 0,
        Fate::Unlisted => 1,
        Fate::Muted { .. } => 2,
        Fate::Failed => 3,
        Fate::Seen => 4,
    }
}

/// Returns whether an integration was notified.
pub(crate) fn is_seen(fate: Fate) -> bool
    ensures { result ≡ is_seen fate }
{
    match fate {
        Fate::Seen => true,
        Fate::Unflushed | Fate::Unlisted | Fate::Muted { .. } | Fate::Failed => false,
    }
}

/// Returns whether no flush came.
pub(crate) fn is_unflushed(fate: Fate) -> bool
    ensures { result ≡ is_unflushed fate }
{
    match fate {
        Fate::Unflushed => true,
        Fate::Unlisted | Fate::Muted { .. } | Fate::Failed | Fate::Seen => false,
    }
}

/// Returns whether two fates are the same.
pub(crate) fn same_fate(a: Fate, b: Fate) -> bool
    ensures { result ≡ same_fate a b }
{
    match a {
        Fate::Unflushed => matches!(b, Fate::Unflushed),
        Fate::Unlisted => matches!(b, Fate::Unlisted),
        Fate::Muted { part, begin } => is_muted_at(b, part, begin),
        Fate::Failed => matches!(b, Fate::Failed),
        Fate::Seen => matches!(b, Fate::Seen),
    }
}

fn is_muted_at(fate: Fate, part: usize, begin: usize) -> bool
    ensures { result ≡ is_muted_at part begin fate }
{
    match fate {
        Fate::Muted { part: p, begin: b } => p == part && b == begin,
        Fate::Unflushed | Fate::Unlisted | Fate::Failed | Fate::Seen => false,
    }
}
