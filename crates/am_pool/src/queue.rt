//! The queue of job numbers, under a rule.
//!
//! Each put, take, split and join keeps the rule (`Dealt`), whatever the other threads do. By the
//! rule the numbers below one are gone, each into the list of one pass. The others are in the
//! queue, in order. A pass has parts of the right to know all. Whoever has every part and finds the
//! queue empty knows that each number was taken once.
ghost use Rattle.std.specs.Prelude.{◌≡◌, ◌+◌, ◌-◌, ◌<◌, [], ◌++◌, length, IfSome, IfNone, IfOk};
ghost use Rattle.crossbeam_queue.specs.Passes.{view, IsPassOf, ruled_capacity};
ghost use Rattle.am_pool.specs.declared.limits.TheConstants.{ALL_PARTS};
ghost use Rattle.am_pool.specs.Dealt.{hand, IsAll, IsTake};

use crossbeam_queue::protocol::{Join, Lesson, Outcome, Protocol, Split};
use crossbeam_queue::{Pass, RuledArrayQueue};
use std::alloc::{AllocError, Global};
use std::collections::LinkedList;
use std::sync::Wait;

/// What a pass of the queue knows, in proofs alone.
///
/// Its parts of the right to know all, how many numbers were put, and which of them it took, in
/// order.
pub struct Hand {
    pub parts: u64,
    pub put: u64,
    pub taken: LinkedList<usize>,
}

/// The rule of the queue, `Dealt`.
pub struct Dealing;

impl Protocol<usize, Hand> for Dealing {
    ghost use Rattle.std.specs.Prelude.{[]};
    ghost use Rattle.am_pool.specs.declared.limits.TheConstants.{ALL_PARTS};
    ghost use Rattle.am_pool.specs.Dealt.{hand, Dealt};

    ghost holds = { Dealt };

    ghost first = { hand ALL_PARTS 0 [] };
}

/// The split of a worker's pass off the filler's, and its join.
pub struct Cut;

impl Split<Hand> for Cut {
    ghost use Rattle.std.specs.Prelude.{◌-◌, []};
    ghost use Rattle.am_pool.specs.Dealt.{hand};

    ghost left = { λ v. hand (v.parts - 1) v.put v.taken };

    ghost right = { λ v. hand 1 v.put [] };
}

impl Join<Hand> for Cut {
    ghost use Rattle.std.specs.Prelude.{◌+◌, ◌++◌, []};
    ghost use Rattle.am_pool.specs.Dealt.{hand};

    ghost both = { λ v w. hand (v.parts + w.parts) v.put (v.taken ++ w.taken) };

    ghost spent = { hand 0 0 [] };
}

/// The step that puts the next number.
pub struct Puts;

impl Outcome<usize, Hand> for Puts {
    ghost use Rattle.std.specs.Prelude.{◌≡◌, ◌+◌};
    ghost use Rattle.am_pool.specs.Dealt.{hand};

    ghost then = { λ v x w. w ≡ hand v.parts (v.put + 1) v.taken };
}

impl Lesson<usize, Hand> for Puts {
    ghost use Rattle.std.specs.Prelude.{◌≤◌, length};

    ghost fact = { λ v items. length items ≤ v.put };
}

/// The step that takes the front number.
pub struct Takes;

impl Outcome<usize, Hand> for Takes {
    ghost use Rattle.am_pool.specs.Dealt.{IsTake};

    ghost then = { IsTake };
}

impl Lesson<usize, Hand> for Takes {
    ghost use Rattle.am_pool.specs.Dealt.{IsDrained};

    ghost fact = { IsDrained };
}

/// The numbers of the jobs that no worker has taken.
pub type JobQueue = RuledArrayQueue<usize, Hand, Dealing>;

/// The right to put numbers into the queue and to take them.
pub type JobPass = Pass<usize, Hand>;

/// Returns a queue with the numbers below `count`, which isn't 0, and the filler's pass.
pub fn fill<R: Wait>(rt: &R, alloc: Global, count: usize) -> Result<(JobQueue, JobPass), AllocError>
    requires { 0 < count }
    ensures { IfOk result (λ q. IsPassOf q.0 q.1 × (view q.1 ≡ hand ALL_PARTS count [])) }
{
    let (queue, mut pass) = JobQueue::ruled(alloc, count)?;
    for number in 0..count {
        put(rt, &queue, &mut pass, number);
    }
    Ok((queue, pass))
}

/// Puts the next number. The queue has capacity for it.
fn put<R: Wait>(rt: &R, queue: &JobQueue, pass: &mut JobPass, number: usize)
    requires pass { IsPassOf queue.now pass.old }
    requires whole { ((view pass.old).parts ≡ ALL_PARTS) × ((view pass.old).put ≡ number) }
    requires space { number < ruled_capacity queue.now }
    ensures pass { IsPassOf queue.now pass.new × (pass.new.id ≡ pass.old.id) }
    ensures one_more { view pass.new ≡ hand ALL_PARTS (number + 1) (view pass.old).taken }
{
    match queue.push_as::<Puts, R>(rt, pass, number) {
        Ok(()) => {}
        Err(_) => unreachable!(),
    }
}

/// Returns a worker's pass, split off the filler's.
pub fn split(queue: &JobQueue, pass: &mut JobPass) -> JobPass
    requires { IsPassOf queue.now pass.old × (1 < (view pass.old).parts) }
    ensures passes { IsPassOf queue.now pass.new × IsPassOf queue.now result }
    ensures left { let v = view pass.old in view pass.new ≡ hand (v.parts - 1) v.put v.taken }
    ensures right { view result ≡ hand 1 (view pass.old).put [] }
{
    queue.another::<Cut>(pass)
}

/// Joins a worker's pass into the filler's.
pub fn absorb(queue: &JobQueue, pass: &mut JobPass, other: JobPass)
    requires passes { IsPassOf queue.now pass.old × IsPassOf queue.now other }
    requires parts { (0 < (view pass.old).parts) × (0 < (view other).parts) }
    ensures pass { IsPassOf queue.now pass.new }
    ensures both { let v = view pass.old in let w = view other in
        view pass.new ≡ hand (v.parts + w.parts) v.put (v.taken ++ w.taken) }
{
    queue.absorb::<Cut>(pass, other);
}

/// Takes the next number, if there is one.
///
/// Clause `none`: where there is none, a pass with every part knows that each was taken once.
pub fn take<R: Wait>(rt: &R, queue: &JobQueue, pass: &mut JobPass) -> Option<usize>
    requires { IsPassOf queue.now pass.old × (0 < (view pass.old).parts) }
    ensures pass { IsPassOf queue.now pass.new }
    ensures some { IfSome result (λ k. IsTake (view pass.old) k (view pass.new)) }
    ensures none { IfNone result ((view pass.new ≡ view pass.old) × IsAll (view pass.old)) }
{
    queue.pop_as::<Takes, R>(rt, pass)
}
