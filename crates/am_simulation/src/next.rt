//! What a rehearsal does next.
ghost use Rattle.std.specs.Prelude.{◌≡◌, ◌≤◌};
ghost use Rattle.am_simulation.specs.Next.{comes_by, earlier, in_time, tick_after};

use am_board::notice::Report;

/// A step and its time, in milliseconds.
#[derive(Clone, Copy)]
pub(crate) struct Next {
    pub(crate) at: u64,
    pub(crate) what: Step,
}

/// One thing that a rehearsal does.
#[derive(Clone, Copy)]
pub(crate) enum Step {
    /// The empty groups are removed.
    Removal,
    /// The sending of a notice ends: the flush at the first position, the end at the second.
    End(usize, usize),
    /// The flush at this position is finished.
    Finish(usize),
    /// The next planned action.
    Plan,
    Maintenance,
    /// A begin of a flush.
    Begin,
}

/// The end of the sending of a notice.
#[derive(Clone, Copy)]
pub(crate) struct End {
    /// Its time, in milliseconds.
    pub(crate) at: u64,
    /// The notice's position in its ticket.
    pub(crate) index: usize,
    /// None where there is nothing to send.
    pub(crate) report: Option<Report>,
}

/// Returns the earlier of two steps; of one time, the first.
pub(crate) fn earlier(one: Option<Next>, other: Option<Next>) -> Option<Next>
    ensures { result ≡ earlier one other }
{
    match (one, other) {
        (None, other) => other,
        (one, None) => one,
        (Some(one), Some(other)) => {
            if other.at < one.at {
                Some(other)
            } else {
                Some(one)
            }
        }
    }
}

/// Returns a step at a time, unless that is after the end.
pub(crate) fn in_time(until: u64, at: u64, what: Step) -> Option<Next>
    ensures { result ≡ in_time until at what }
{
    if at <= until {
        Some(Next { at, what })
    } else {
        None
    }
}

/// Returns the first tick after `now`, in milliseconds. Ticks come at each multiple of `period`
/// after `since`, the start of the dispatcher.
pub(crate) fn tick_after(since: u64, period: u64, now: u64) -> u64
    requires { 1 ≤ period }
    ensures { result ≡ tick_after since period now }
{
    let past = now.saturating_sub(since) % period;
    now.saturating_add(period - past)
}

/// Returns whether a step comes by a time.
pub(crate) fn comes_by(now: u64, next: Option<Next>) -> bool
    ensures { result ≡ comes_by now next }
{
    match next {
        None => false,
        Some(next) => next.at <= now,
    }
}
