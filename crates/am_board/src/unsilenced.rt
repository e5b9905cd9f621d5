//! Label sets that no silence mutes, noted one behind the other.
//!
//! Whoever asks for the same label sets again, in the same order, remembers the index of the first.
//! Each is then compared with the one that is noted at its index, and no silence is looked at. An
//! index is only a hint: a stale one costs a look-up of the silences, and gives no wrong answer.
//!
//! Invariant: at each time from `since` on and before `until`, no silence mutes a label set of the
//! list. No silence starts after `since` and before `until`. So a silence that mutes later in this
//! span is active at `since` already, and its matchers are the same. A label set is therefore
//! matched once for each span, and each note moves `since` to its time. Where a silence comes, is
//! replaced or goes, the list is emptied, and the next one has another number.
//!
//! Another list needs a walk over all silences. Where these are many, it waits until as many alerts
//! were looked up without one: so changes of silences never cost more than the look-ups do.
ghost use Rattle.std.specs.Prelude.{◌≡◌, ◌<◌, ◌≤◌, ◌↔◌, List, false, true, All, IsTrue};
ghost use Rattle.am_mute.specs.Silence.{SilenceData, is_silenced};
ghost use Rattle.am_mute.specs.Sources.{IsAt};
ghost use Rattle.am_board.specs.Unsilenced.{AreUnsilenced, StartsOutside};

use am_alerts::labels::Labels;
use am_mute::silence::Silence;
use std::alloc::{AllocError, Global};

/// Up to how many silences are walked over as soon as a list is started.
const MAX_FREE: usize = 1_024;

/// An index in a list of this number. The default is an index in no list.
#[derive(Clone, Copy, Default)]
pub(crate) struct NotedIndex {
    number: u64,
    index: usize,
}

impl NotedIndex {
    /// The index behind this one.
    pub(crate) fn next(self) -> NotedIndex {
        NotedIndex {
            number: self.number,
            index: self.index.saturating_add(1),
        }
    }
}

/// Label sets that no silence mutes from `since` on and before `until`, in milliseconds.
///
/// This only saves time.
#[derive(Drop)]
pub(crate) struct Unsilenced {
    sets: Vec<Labels>,
    since: u64,
    until: u64,
    /// Each list that is started has a number of its own.
    number: u64,
    /// How many alerts came since the last walk over the silences, while no list was open to them.
    alerts: usize,
}

impl Unsilenced {
    /// Nothing noted, of whatever silences. Takes no memory.
    pub(crate) fn new(alloc: Global) -> Unsilenced
        ensures { (silences : List SilenceData) → AreUnsilenced silences result }
    {
        Unsilenced {
            sets: Vec::new(alloc),
            since: 0,
            until: 0,
            number: 0,
            alerts: 0,
        }
    }

    /// Forgets all that is noted.
    pub(crate) fn empty(&mut self)
        ensures { (silences : List SilenceData) → AreUnsilenced silences self.new }
    {
        self.sets.clear();
        self.since = 0;
        self.until = 0;
    }

    /// Whether what is noted counts at `t`.
    pub(crate) fn is_open(&self, t: u64) -> bool
        ensures { IsTrue result ↔ ((self.now.since ≤ t) × (t < self.now.until)) }
    {
        self.since <= t && t < self.until
    }

    /// Returns where the next label set will be noted, unless what was noted from `last` on counts.
    ///
    /// Starts another list where what is noted doesn't count at `t`, or is more than `limit`; not yet,
    /// and so returns nothing, while too few alerts came for so many silences. So many come now.
    pub(crate) fn start(
        &mut self,
        silences: &[Silence],
        last: NotedIndex,
        t: u64,
        limit: usize,
        alerts: usize,
    ) -> Option<NotedIndex>
        requires { AreUnsilenced silences.now self.old }
        ensures { AreUnsilenced silences.now self.new }
    {
        let is_open = self.is_open(t);
        if is_open && last.number == self.number {
            return None;
        }
        if !is_open || limit < self.sets.len() {
            self.alerts = self.alerts.saturating_add(alerts);
            if silences.len() > MAX_FREE && self.alerts < silences.len() {
                return None;
            }
            self.restart(silences, t);
        }
        Some(NotedIndex {
            number: self.number,
            index: self.sets.len(),
        })
    }

    /// Starts another list at `t`.
    fn restart(&mut self, silences: &[Silence], t: u64)
        ensures { AreUnsilenced silences.now self.new }
    {
        self.sets.clear();
        self.alerts = 0;
        self.since = t;
        self.until = next_change(silences, t);
        self.number = self.number.wrapping_add(1);
    }

    /// Notes a label set that no silence mutes at `t`.
    pub(crate) fn note(&mut self, labels: Labels, t: u64) -> Result<(), AllocError>
        requires since { self.old.since ≤ t }
        requires until { t < self.old.until }
        ensures { (silences : List SilenceData) → AreUnsilenced silences self.old
            → is_silenced labels t silences ≡ false → AreUnsilenced silences self.new }
    {
        self.sets.reserve(1)?;
        self.since = t;
        self.sets.push_reserved(labels);
        Ok(())
    }

    /// Whether a label set is noted at an index, and that counts at `t`.
    pub(crate) fn has(&self, index: NotedIndex, labels: &Labels, t: u64) -> bool
        ensures { (silences : List SilenceData) → AreUnsilenced silences self.now
            → result ≡ true → is_silenced labels.now t silences ≡ false }
    {
        index.number == self.number
            && self.is_open(t)
            && is_noted(self.sets.as_slice(), index.index, labels)
    }
}

/// Whether a label set is at this index.
fn is_noted(sets: &[Labels], index: usize, labels: &Labels) -> bool
    ensures { result ≡ true → IsAt sets.now index labels.now }
{
    index < sets.len() && sets[index] == *labels
}

/// Returns the first time after `t` at which one of these silences starts or ends; the greatest
/// number, if there is none.
fn next_change(silences: &[Silence], t: u64) -> u64
    ensures { All (StartsOutside t result) silences.now }
{
    let mut next = u64::MAX;
    for silence in silences {
        next = next.min(change_after(silence, t));
    }
    next
}

/// Returns the first time after `t` at which a silence starts or ends; the greatest number, if there
/// is none.
fn change_after(silence: &Silence, t: u64) -> u64
    ensures { StartsOutside t result silence.now }
{
    if t < silence.start() {
        silence.start()
    } else if t < silence.end() {
        silence.end()
    } else {
        u64::MAX
    }
}
