ghost use Rattle.std.specs.Prelude.{◌≡◌, ℕ, ◌+◌, ◌*◌, ◌/◌, ◌<◌, ◌≤◌, min, List, [], ◌∷◌, ◌++◌};
ghost use Rattle.am_retry.specs.Attempts.{Response, latest, one_more, tries_of};
ghost use Rattle.am_retry.specs.Progress.{answered, due, started, time_left, IsAfterResponses, StepIsOf};
ghost use Rattle.am_retry.specs.declared.retry.Step.TheVariants.{Attempt, Over};

use crate::{Answer, Outcome};
use std::marker::Model;

/// 10^15 + 10^12: no end that is handed in counts as later.
const LATEST: u64 = 1_001_000_000_000_000;

/// The wait after the first attempt.
const FIRST_WAIT: u64 = 500;

/// No wait is longer than this.
const LONGEST_WAIT: u64 = 60_000;

/// What comes next.
#[derive(Clone, Copy, Debug, PartialEq, Eq)]
pub enum Step {
    /// An attempt is due at this time.
    Attempt(u64),
    /// No attempt is left to be made.
    Over(Outcome),
}

/// The attempts of one notice, from a start to a deadline.
///
/// The first attempt is due at the start. After the answer Again the next one is due at the end of
/// the last and a wait. The waits are 500, 750, 1125, 1687, ..: each is the one before times 3
/// divided by 2, rounded down, and at most 60,000. They grow as those of Alertmanager's retry stage
/// do, but have no random part. An attempt is made only before the deadline.
#[derive(Drop)]
pub struct Retry {
    deadline: u64,
    attempts: u64,
    ended: u64,
    wait: u64,
    step: Step,
}

impl Model for Retry {
    ghost use Rattle.std.specs.Prelude.{◌≡◌, ◌+◌, ◌*◌, ◌≤◌};
    ghost use Rattle.am_retry.specs.Attempts.{latest, wait_of};
    ghost use Rattle.am_retry.specs.Progress.{Progress, IsDue};

    ghost Value = { Progress };

    ghost view = { λ r. record {
      deadline = r.deadline;
      attempts = r.attempts;
      ended = r.ended;
      step = r.step;
    } };

    ghost invariant = { λ r. (r.wait ≡ wait_of r.attempts)
        × (r.deadline ≤ latest)
        × (r.ended ≤ latest)
        × (500 * r.attempts ≤ latest + 500)
        × IsDue r.step r.deadline r.attempts };
}

impl Retry {
    /// Attempts from `now` on, of which each is made before the deadline.
    pub fn start(now: u64, deadline: u64) -> Retry
        requires now { now ≤ latest }
        requires deadline { deadline ≤ latest }
        ensures value { result ≡ started now deadline }
        ensures holds { IsAfterResponses now deadline [] result }
    {
        Retry {
            deadline,
            attempts: 0,
            ended: now,
            wait: FIRST_WAIT,
            step: due_step(now, deadline),
        }
    }

    /// When the next attempt is due, or how the attempts ended. Asking changes nothing.
    pub fn next(&self) -> Step
        ensures value { result ≡ self.now.step }
        ensures in_time { (at : ℕ) → result ≡ Attempt at → at < self.now.deadline }

        // Whatever answers were taken: the next attempt is theirs, or the outcome is.
        ensures holds { (start deadline : ℕ) (responses : List Response)
            → IsAfterResponses start deadline responses self.now
            → StepIsOf start deadline responses result }
    {
        self.step
    }

    /// How many answers were taken.
    pub fn attempts(&self) -> u64
        ensures value { result ≡ self.now.attempts }
        ensures few { 500 * result ≤ latest + 500 }
    {
        self.attempts
    }

    /// The end of the last attempt, or the start where there was none.
    pub fn ended(&self) -> u64
        ensures value { result ≡ self.now.ended }
        ensures bound { result ≤ latest }
    {
        self.ended
    }

    /// Takes the answer to the attempt that is due, and the time at which it ended. An end before
    /// the attempt's own time counts as that time, and one after 10^15 + 10^12 as this. Where
    /// no attempt is due, nothing changes.
    pub fn answer(&mut self, answer: Answer, ended: u64)
        ensures value { self.new ≡ answered self.old answer ended }
        ensures over { (outcome : Outcome) → self.old.step ≡ Over outcome → self.new ≡ self.old }

        // Whatever answers led to the attempt that is due, the machine is after one more.
        ensures holds { (start deadline at : ℕ) (responses : List Response)
            → self.old.step ≡ Attempt at
            → IsAfterResponses start deadline responses self.old
            → IsAfterResponses start deadline (one_more responses answer ended) self.new }

        // That is one more attempt made: the one that was due.
        ensures tries { (start deadline at : ℕ) (responses : List Response)
            → self.old.step ≡ Attempt at
            → IsAfterResponses start deadline responses self.old
            → tries_of start (one_more responses answer ended)
            ≡ tries_of start responses
            ++ record { attempt = self.old.attempts + 1; at = at; answer = answer; ended = ended }
            ∷ [] }

        // Less time is left with each answer.
        ensures sooner { (at : ℕ) → self.old.step ≡ Attempt at
            → time_left self.new < time_left self.old }
    {
        let Step::Attempt(at) = self.step else {
            return;
        };
        self.attempts += 1;
        self.ended = at.max(ended.min(LATEST));
        self.step = match answer {
            Answer::Done => Step::Over(Outcome::Delivered),
            Answer::Never => Step::Over(Outcome::Refused),
            Answer::Again => due_step(self.ended + self.wait, self.deadline),
        };
        self.wait = next_wait(self.wait);
    }
}

/// An attempt at this time, if it is before the deadline.
fn due_step(at: u64, deadline: u64) -> Step
    ensures { result ≡ due at deadline }
{
    if at < deadline {
        Step::Attempt(at)
    } else {
        Step::Over(Outcome::Expired)
    }
}

/// The wait that follows this one.
fn next_wait(wait: u64) -> u64
    requires { wait ≤ 60_000 }
    ensures { result ≡ min (3 * wait / 2) 60_000 }
{
    (3 * wait / 2).min(LONGEST_WAIT)
}
