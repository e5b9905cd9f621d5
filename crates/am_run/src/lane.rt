//! The lanes of a phase, each in a thread of its own, while the couriers send.
//!
//! A lane's state is made once, with the pass that the lane keeps for the whole run. Its thread
//! writes there and nowhere else. A thread is started for each lane of a phase, also for one
//! without calls. At the end of the run the passes go back into the vector that the opening gave,
//! for the close.
ghost use Rattle.std.specs.Prelude.{◌≡◌, ◌≢◌, ◌<◌, ◌≤◌, ◌∷◌, [], All, IfErr, IfOk, None, OnErr, OnOk, length, map, take, vec_len};
ghost use mathlib.Core.List.{IsPrefix};
ghost use Rattle.std.specs.List.{AllZip};
ghost use Rattle.am_pool.specs.Work.{IsReady};
ghost use Rattle.am_run.specs.Interleaving.{Meets, MeetsAll};
ghost use Rattle.am_run.specs.Lanes.{call_at};
ghost use Rattle.am_run.specs.LaneStates.{AfterLanes, AllRan, MadeCalls, NoneRefused, Ran, RefusesNext, passes_in};
ghost use Rattle.am_pool.specs.Sendings.{IsSendingOf};
ghost use Rattle.am_run.specs.Steps.{MadeRecords};

use crate::courier::Answering;
use crate::sending::send_jobs;
use am_board::fault::Fault;
use am_board::notice::Report;
use am_desk::{Desk, Name, Pass};
use am_pool::{Job, PoolFault};
use am_scenario::scenario::{Lane, LaneCall};
use std::alloc::{AllocError, Global};
use std::mem::replace;
use std::sync::Wait;
use std::thread::{Threads, for_each_mut, join_mut};

/// What a lane has: its pass, the calls that it is to make, and where one was refused. The thread of
/// a lane writes into its own state and nowhere else.
#[derive(Drop)]
pub struct LaneState<N: Name> {
    pass: Pass<N>,
    calls: Vec<LaneCall>,
    /// The position of the call that was refused, and why.
    refused: Option<(usize, Fault)>,
}

impl<N: Name> LaneState<N> {
    fn new(alloc: Global, pass: Pass<N>) -> LaneState<N>
        ensures pass { result.pass ≡ pass }
        ensures refused { result.refused ≡ None }
    {
        LaneState {
            pass,
            calls: Vec::new(alloc),
            refused: None,
        }
    }

    /// The position of the call that was refused, and why.
    pub fn refused(&self) -> Option<(usize, Fault)>
        ensures { result ≡ self.now.refused }
    {
        self.refused
    }

    pub fn into_pass(self) -> Pass<N>
        ensures { result ≡ self.pass }
    {
        let LaneState {
            pass,
            calls: _,
            refused: _,
        } = self;
        pass
    }

    /// Another pass meets the lane's: each of the two sees what the other has seen.
    fn meet(&mut self, desk: &Desk<N>, other: &mut Pass<N>)
        ensures met { MadeRecords [] other.old other.new × Meets other.old other.new self.old.pass self.new.pass }
        ensures refused { self.new.refused ≡ self.old.refused }
    {
        desk.meet(other, &mut self.pass);
    }

    /// Takes the calls of a lane.
    fn take(&mut self, lane: Lane)
        ensures pass { self.new.pass ≡ self.old.pass }
        ensures calls { self.new.calls ≡ lane.calls }
    {
        self.calls = lane.calls;
    }

    /// Makes the calls, up to the first that is refused.
    fn run<R: Wait>(&mut self, rt: &R, alloc: Global, desk: &Desk<N>, at: u64)
        ensures { Ran N.terms at self.old.calls.items self.old.pass self.new }
    {
        self.refused = None;
        let calls = replace(&mut self.calls, Vec::new(alloc));
        for (position, call) in calls.into_iter().enumerate() {
            if let Err(fault) = make(rt, alloc, desk, &mut self.pass, at, call) {
                self.refused = Some((position, fault));
                return;
            }
        }
    }
}

/// The states of the lanes, one for each pass, in their order. The vector keeps its capacity.
pub fn lane_states_for<N: Name>(
    alloc: Global,
    passes: &mut Vec<Pass<N>>,
) -> Result<Vec<LaneState<N>>, AllocError>
    ensures passes { IfOk result (λ lane_states. map (λ s. s.pass) lane_states.items ≡ passes.old.items) }
    ensures count { IfOk result (λ lane_states. vec_len lane_states ≡ vec_len passes.old) }
    ensures well { IfOk result (λ lane_states. NoneRefused lane_states.items) }
{
    let mut lane_states = Vec::new(alloc);
    lane_states.reserve(passes.len())?;
    while !passes.is_empty() {
        lane_states.push_reserved(LaneState::new(alloc, passes.remove(0)));
    }
    Ok(lane_states)
}

/// Each lane gets the state of its number.
pub fn take_lane_states<N: Name>(lane_states: &mut [LaneState<N>], lanes: Vec<Lane>)
    requires { vec_len lanes ≤ length lane_states.old }
    ensures passes { map (λ s. s.pass) lane_states.new ≡ map (λ s. s.pass) lane_states.old }
    ensures calls { map (λ s. s.calls) (take (vec_len lanes) lane_states.new) ≡ map (λ l. l.calls) lanes.items }
{
    for (number, lane) in lanes.into_iter().enumerate() {
        lane_states[number].take(lane);
    }
}

/// The main thread's pass meets those of the lanes, one after the other. It waits for nobody.
pub fn meet_lanes<N: Name>(desk: &Desk<N>, main: &mut Pass<N>, lane_states: &mut [LaneState<N>])
    ensures met { MeetsAll main.old main.new (passes_in lane_states.old) (passes_in lane_states.new) }
    ensures refused { map (λ s. s.refused) lane_states.new ≡ map (λ s. s.refused) lane_states.old }
{
    for lane_state in lane_states.iter_mut() {
        lane_state.meet(desk, main);
    }
}

/// Runs the lanes, each in a thread of its own, next to the couriers, who share the jobs.
pub fn run_concurrently<N: Name + Send + Sync, R: Threads + Wait + Sync, C: Answering + Send>(
    rt: &R,
    alloc: Global,
    desk: &Desk<N>,
    at: u64,
    lane_states: &mut [LaneState<N>],
    lanes: Vec<Lane>,
    couriers: &mut [C],
    jobs: &[Job<'_>],
) -> Result<Vec<Report>, PoolFault>
    requires lanes { vec_len lanes ≤ length lane_states.old }
    requires ready { All IsReady jobs.now }
    ensures lanes { AfterLanes N.terms at lanes.items lane_states.old lane_states.new }
    ensures reports { IfOk result (λ reports. AllZip (IsSendingOf C.answers) jobs.now reports.items) }
{
    if lanes.is_empty() {
        return send_jobs(rt, alloc, couriers, jobs);
    }
    let (taken, _others) = lane_states.split_at_mut(lanes.len());
    take_lane_states(taken, lanes);
    share(rt, alloc, desk, at, taken, couriers, jobs)
}

/// Runs the lanes in these lane states, of which there is one at least, next to the couriers.
fn share<N: Name + Send + Sync, R: Threads + Wait + Sync, C: Answering + Send>(
    rt: &R,
    alloc: Global,
    desk: &Desk<N>,
    at: u64,
    lane_states: &mut [LaneState<N>],
    couriers: &mut [C],
    jobs: &[Job<'_>],
) -> Result<Vec<Report>, PoolFault>
    requires lane_states { 0 < length lane_states.old }
    requires ready { All IsReady jobs.now }
    ensures lanes { AllRan N.terms at lane_states.old lane_states.new }
    ensures reports { IfOk result (λ reports. AllZip (IsSendingOf C.answers) jobs.now reports.items) }
{
    let (_, reports) = join_mut(
        rt,
        &mut ||
            requires { 0 < length lane_states.now }
            ensures { AllRan N.terms at lane_states.entry.now lane_states.exit.now }
        { run_lanes(rt, alloc, desk, at, lane_states) },
        &mut ||
            requires { All IsReady jobs.now }
            ensures { IfOk result (λ reports. AllZip (IsSendingOf C.answers) jobs.entry.now reports.items) }
        { send_jobs(rt, alloc, couriers, jobs) },
    );
    reports
}

/// Runs the lanes in these lane states, each in a thread of its own.
fn run_lanes<N: Name + Send + Sync, R: Threads + Wait + Sync>(
    rt: &R,
    alloc: Global,
    desk: &Desk<N>,
    at: u64,
    lane_states: &mut [LaneState<N>],
)
    requires { 0 < length lane_states.old }
    ensures { AllRan N.terms at lane_states.old lane_states.new }
{
    let threads = lane_states.len();
    for_each_mut(
        rt,
        lane_states,
        threads,
        &|_, lane_state: &mut LaneState<N>|
            ensures { Ran N.terms at lane_state.entry.now.calls.items lane_state.entry.now.pass lane_state.exit.now }
        { lane_state.run(rt, alloc, desk, at) },
    );
}

/// Makes a call of a lane.
fn make<N: Name, R: Wait>(
    rt: &R,
    alloc: Global,
    desk: &Desk<N>,
    pass: &mut Pass<N>,
    at: u64,
    call: LaneCall,
) -> Result<(), Fault>
    ensures made { OnOk result (MadeCalls (call_at at call ∷ []) pass.old pass.new) }
    ensures unmade { OnErr result (MadeCalls [] pass.old pass.new) }
    ensures begins { IsPrefix pass.old.log pass.new.log }
    ensures refused { IfErr result (λ fault. fault ≢ Fault.NoMemory → RefusesNext N.terms (call ∷ []) pass.new) }
{
    match call {
        LaneCall::Insert(alert) => {
            desk.insert(rt, alloc, pass, at, alert)?;
        }
        LaneCall::Silence(silence) => {
            desk.silence(rt, alloc, pass, at, silence)?;
        }
        LaneCall::Maintain => {
            desk.maintain(rt, alloc, pass, at)?;
        }
    }
    Ok(())
}
