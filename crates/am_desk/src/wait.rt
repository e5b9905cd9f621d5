//! Threads that wait until a group is due: `Desk::wait_due`, and how the other calls wake them.
//!
//! Why no wake-up is lost: a thread reads when the next group is due, notes until when it sleeps
//! (`Watch`) and begins to sleep under one hold of the lock, each time that it does. No group is due
//! before what is noted, since each call that can make one due before compares under the lock, wakes all
//! threads, and takes the note back. It ends by `let_go`: a `Held` can't be dropped, so a call that
//! forgot that wouldn't compile. `Condvar` counts notifications, and a thread takes the count before it
//! gives the lock up. So a notification between that and its sleep ends the sleep.
//!
//! What the contracts say: what a wait returns follows from the history that the pass has then seen.
//! What no contract can say: that a thread sleeps, wakes or goes on. Tests of `am_code_tests` show it.
ghost use Rattle.std.specs.Prelude.{◌≡◌, ◌<◌, ◌≤◌, ◌+◌, false, min};
ghost use Rattle.am_alerts.specs.declared.limits.TheConstants.{MAX_TIME};
ghost use Rattle.am_model.specs.Begin.{next_due};
ghost use Rattle.am_model.specs.Replay.{replay};
ghost use Rattle.am_desk.specs.Known.{IsCellOf, Observes};
ghost use Rattle.am_desk.specs.Waits.{IsWoken, IsWakeup, StayDue, is_earlier, says_ended};

use crate::desk::Desk;
use crate::keeper::Keeper;
use crate::kind::{Kind, Origin};
use crate::name::Name;
use crate::pass::Pass;
use crate::word::Cell;
use am_alerts::limits::MAX_TIME;
use am_alerts::route::Routes;
use am_board::fault::Fault;
use am_board::record::Inserted;
use std::rt::Clock;
use std::sync::{MutexGuard, Wait};
use std::time::{Duration, Instant};

/// Why a wait for a due group ended. Times are in milliseconds, by the clock of the caller's `now`.
#[derive(Clone, Copy, Debug, PartialEq, Eq)]
pub enum Woken {
    /// At `at` a group without an open flush was due, since `due`. A begin at `at` takes it, unless
    /// another thread's call comes first.
    Due { due: u64, at: u64 },
    /// At `at` no group was due: the time is up, or a call made the next one due earlier. It is due
    /// at `next`, if there is one. Wait again.
    Later { next: Option<u64>, at: u64 },
    /// `end_waits` was called: no thread waits on this desk any more.
    ///
    /// No clause of `wait_due` can say so, since no history has that call: that it was made lies under
    /// the lock alone. `woken_at` says it of what lies there, and a test of the calls.
    Ended,
}

/// Until when threads sleep, and what shows cheaply that an insert wakes none. Under the lock.
#[derive(Drop)]
pub(crate) struct Watch {
    /// Each thread that sleeps, and that no call woke since, sleeps until this time at the latest.
    until: u64,
    is_ended: bool,
    /// The greatest time of a call. The board's isn't after it.
    latest: u64,
    /// The shortest and the longest `group_wait`.
    shortest: u64,
    longest: u64,
    /// The wait of each group that was made is over at this time.
    calm: u64,
}

/// The lock of a desk during a call. It can't be dropped: each call ends by `Desk::let_go`.
pub(crate) struct Held<'d, N: Name, K: Kind, L: Origin> {
    pub(crate) keeper: MutexGuard<'d, Keeper<N, K, L>>,
}

impl Watch {
    /// For a desk of these routes.
    pub(crate) fn new(routes: &Routes) -> Watch {
        Watch {
            until: 0,
            is_ended: false,
            latest: 0,
            shortest: shortest_wait(routes),
            longest: longest_wait(routes),
            calm: 0,
        }
    }

    /// Notes the time of a call.
    fn pass(&mut self, now: u64) {
        self.latest = self.latest.max(now.min(MAX_TIME));
    }

    /// Whether an insert at `now` of an alert of this start, which made so many groups, can have made a
    /// group due before a thread wakes by itself.
    ///
    /// If no wait is over that counts from the start, only the new groups can be, and the first of them
    /// is due when the shortest wait is over. Else an insert that made none can only hasten a group that
    /// wasn't flushed yet, and whose wait isn't over; so there is none if no group was made for the
    /// longest wait.
    fn can_hasten(&mut self, now: u64, starts: u64, made: usize) -> bool
        ensures stay { result ≡ false → StayDue self.old.latest self.old.shortest self.new.calm now starts }
        ensures new { result ≡ false → 0 < made → self.old.until ≤ min now MAX_TIME + self.old.shortest }
    {
        let now = now.min(MAX_TIME);
        if made > 0 {
            self.calm = self.calm.max(self.latest.saturating_add(self.longest));
        }
        if starts.saturating_add(self.shortest) >= self.latest {
            return made > 0 && now.saturating_add(self.shortest) < self.until;
        }
        made > 0 || now < self.calm
    }

    /// Notes that a thread sleeps until this time.
    fn note(&mut self, until: u64) {
        self.until = self.until.max(until);
    }

    /// Whether a group is due before a thread wakes by itself. All are to be woken then, and each that
    /// sleeps on notes that again.
    fn wakes(&mut self, due: Option<u64>) -> bool
        ensures { result ≡ is_earlier due self.old.until }
    {
        let Some(due) = due else {
            return false;
        };
        let wakes = due < self.until;
        if wakes {
            self.until = 0;
        }
        wakes
    }
}

/// The shortest wait of a group before its first flush.
fn shortest_wait(routes: &Routes) -> u64 {
    let mut shortest = u64::MAX;
    for position in 0..=routes.last() {
        shortest = shortest.min(routes.route(position).group_wait);
    }
    shortest
}

/// The longest wait of a group before its first flush.
fn longest_wait(routes: &Routes) -> u64 {
    let mut longest = 0;
    for position in 0..=routes.last() {
        longest = longest.max(routes.route(position).group_wait);
    }
    longest
}

impl<N: Name, K: Kind, L: Origin> Keeper<N, K, L> {
    /// When the next group without an open flush is due.
    fn next_due(&self) -> Option<u64>
        ensures { result ≡ next_due (replay N.terms.config self.now.history) }
    {
        self.board.next_due()
    }

    fn pass(&mut self, now: u64)
        ensures { self.new ≡ self.old }
    {
        self.watch.pass(now);
    }

    fn can_hasten(&mut self, now: u64, starts: u64, made: usize) -> bool
        ensures { self.new ≡ self.old }
    {
        self.watch.can_hasten(now, starts, made)
    }

    /// Whether the threads that sleep are to be woken. One comparison if none does.
    fn wakes(&mut self) -> bool
        ensures { self.new ≡ self.old }
    {
        if self.watch.until == 0 {
            return false;
        }
        let due = self.next_due();
        self.watch.wakes(due)
    }

    /// Until when a thread that waits at `now` is to sleep. None if it isn't to sleep.
    fn sleeps_until(&self, now: u64) -> Option<u64> {
        let until = self.next_due().unwrap_or(u64::MAX);
        if self.watch.is_ended || until <= now {
            return None;
        }
        Some(until)
    }

    /// Whether a thread that is to sleep until this time goes to sleep, which is noted each time: another
    /// thread's wake-up took back what was noted before.
    fn sleeps(&mut self, until: u64) -> bool
        ensures { self.new ≡ self.old }
    {
        if self.watch.is_ended || self.next_due().unwrap_or(u64::MAX) < until {
            return false;
        }
        self.watch.note(until);
        true
    }

    fn end_waits(&mut self)
        ensures { self.new ≡ self.old }
    {
        self.watch.is_ended = true;
    }

    /// What a wait found at `at`. The pass has seen the whole history.
    fn woken(&mut self, cell: &Cell, pass: &mut Pass<N, L>, at: u64) -> Woken
        requires { IsCellOf N.plan.table cell.now.table_id }
        ensures looks { Observes N.terms pass.old pass.new }
        ensures woken { IsWakeup (next_due (replay N.terms.config pass.new.log)) at result }
    {
        self.learn(cell, pass);
        woken_at(self.watch.is_ended, self.next_due(), at)
    }
}

impl<N: Name, K: Kind, L: Origin> Desk<N, K, L> {
    /// Waits until a group without an open flush is due, at most for so many milliseconds.
    ///
    /// `now` is the time by the caller's clock when it calls. It returns at once if a group is due
    /// then. Else the thread sleeps until the next one is due. A call by which a group is due earlier
    /// wakes it: it returns `Later`, or `Due` if that time has come. An insert into groups whose due
    /// time stays wakes nobody. `end_waits` ends it.
    ///
    /// Clause `woken`: what it returns is so after the history that the pass has then seen, which it
    /// adds nothing to. So a `Due` is never of a group that isn't due.
    ///
    /// A thread that begins flushes calls it in a loop, and then `begin` at `at` until nothing is due.
    pub fn wait_due<R: Wait + Clock>(
        &self,
        rt: &R,
        pass: &mut Pass<N, L>,
        now: u64,
        most: u64,
    ) -> Woken
        ensures looks { Observes N.terms pass.old pass.new }
        ensures woken { IsWoken now (next_due (replay N.terms.config pass.new.log)) result }
    {
        let started = Instant::now(rt).ok();
        let mut keeper = self.sleep(rt, started, now, most);
        let at = later(rt, started, now);
        keeper.woken(&self.table.shared, pass, at)
    }

    /// Ends the waits for due groups: each `wait_due` of any thread returns `Ended` from now on.
    ///
    /// Call it before you join threads that wait, and then close the desk. All other calls go on.
    pub fn end_waits<R: Wait>(&self, rt: &R) {
        let mut keeper = self.kept.lock(rt);
        keeper.end_waits();
        drop(keeper);
        self.changed.notify_all();
    }

    /// Takes the lock for a call at `now`.
    pub(crate) fn hold<R: Wait>(&self, rt: &R, now: u64) -> Held<'_, N, K, L> {
        let mut keeper = self.kept.lock(rt);
        keeper.pass(now);
        Held { keeper }
    }

    /// Ends a call: gives the lock up, and wakes the threads that sleep if a group is due before they
    /// wake by themselves.
    pub(crate) fn let_go(&self, held: Held<'_, N, K, L>) {
        let Held { mut keeper } = held;
        let wakes = keeper.wakes();
        drop(keeper);
        if wakes {
            self.changed.notify_all();
        }
    }

    /// Ends inserts at `now` of alerts that start then or later, which made so many groups.
    pub(crate) fn let_go_inserted(
        &self,
        held: Held<'_, N, K, L>,
        now: u64,
        starts: u64,
        made: usize,
    ) {
        let mut held = held;
        if held.keeper.can_hasten(now, starts, made) {
            self.let_go(held);
        } else {
            let Held { keeper } = held;
            drop(keeper);
        }
    }

    /// Returns the lock once there is something to return, or the time is up.
    fn sleep<R: Wait + Clock>(
        &self,
        rt: &R,
        started: Option<Instant>,
        now: u64,
        most: u64,
    ) -> MutexGuard<'_, Keeper<N, K, L>> {
        let keeper = self.kept.lock(rt);
        let at = later(rt, started, now);
        let Some(until) = keeper.sleeps_until(at) else {
            return keeper;
        };
        let left = Duration::from_millis(until.saturating_sub(at).min(most));
        let (keeper, _) = self
            .changed
            .wait_timeout_while(rt, keeper, left, |keeper| keeper.sleeps(until));
        keeper
    }
}

/// What a wait found at `at`, where the next group is due then, and whether waits are ended.
fn woken_at(is_ended: bool, next: Option<u64>, at: u64) -> Woken
    ensures woken { IsWakeup next at result }
    ensures ended { says_ended result ≡ is_ended }
{
    if is_ended {
        return Woken::Ended;
    }
    match next {
        None => Woken::Later { next, at },
        Some(due) => {
            if due <= at {
                Woken::Due { due, at }
            } else {
                Woken::Later { next, at }
            }
        }
    }
}

/// The time by a clock that was at `now` when the wait started. It stays there if the machine has no
/// clock.
fn later(clock: &impl Clock, started: Option<Instant>, now: u64) -> u64
    ensures { now ≤ result }
{
    let Some(started) = started else {
        return now;
    };
    match started.elapsed(clock) {
        Ok(elapsed) => {
            let seconds = elapsed.as_secs().saturating_mul(1_000);
            let millis = seconds.saturating_add(elapsed.subsec_millis() as u64);
            now.saturating_add(millis)
        }
        Err(_) => now,
    }
}

/// How many groups an insert made.
pub(crate) fn made_by(inserted: &Result<Inserted, Fault>) -> usize {
    match inserted {
        Ok(inserted) => inserted.made,
        Err(_) => 0,
    }
}
