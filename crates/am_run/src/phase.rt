//! The phases of a run.
//!
//! The main thread begins the flushes and meets the passes of the lanes. Then the lanes and the
//! couriers run in threads (`lane`). When all are joined, the main thread reads the lane states by
//! number and meets their passes. It records and notes the reports in the order of the jobs, and
//! finishes the flushes. Nothing that it does depends on which thread was first.
//!
//! A phase whose begin fails sends nothing, notes nothing and runs no lane. Where memory lacks for
//! the list of jobs, no lane runs and nothing is sent; where it lacks in `run_jobs`, nothing is
//! sent. The passes of all lanes are met, also those without a call in the phase: a meet costs six
//! loads.
ghost use Rattle.std.specs.Prelude.{◌≡◌, ◌<◌, ◌≤◌, ◌+◌, ◌++◌, ◌∷◌, [], ℕ, false};
ghost use Rattle.std.specs.Prelude.{true, All, IfErr, IfOk, IsTrue, OnOk, Ok, length, map, vec_len};
ghost use Rattle.std.specs.List.{AllZip, range_with_len};
ghost use Rattle.am_alerts.specs.declared.limits.TheConstants.{MAX_TIME};
ghost use Rattle.am_json.specs.Read.{IsRefusedBy, is_refusal};
ghost use Rattle.am_desk.specs.Desks.{AreFresh, IsPrefixViewOf};
ghost use Rattle.am_desk.specs.History.{made};
ghost use Rattle.am_desk.specs.Terms.{terms_of};
ghost use Rattle.am_model.specs.Replay.{IsLegal};
ghost use Rattle.am_run.specs.Interleaving.{BeforePhases, MeetsAll, RanConcurrently, RanBefore, RunsPhase};
ghost use Rattle.am_run.specs.LaneStates.{AnyRefused, HaveMade, MadeLanes, NoneRefused, passes_in};
ghost use Rattle.am_run.specs.Steps.{Begins, Finishes, FinishesOne, Grows, Notes, NotesAt, Sends};
ghost use Rattle.am_run.specs.Steps.{notes_of, notes_of_all, opened_of, recorded_all};
ghost use Rattle.am_run.specs.PhaseFaults.{EndsAsFull, HasNoFault};
ghost use Rattle.am_pool.specs.Sendings.{IsNotStarved, IsSentFrom};
ghost use Rattle.am_run.specs.Stops.{BeginsUntilFull, LanesStop, LanesStopBefore, PhaseStops};
ghost use Rattle.am_run.specs.Turns.{to_send};

use crate::courier::Answering;
use crate::lane::{LaneState, lane_states_for, meet_lanes, run_concurrently};
use crate::phase_faults::{PhaseFaults, Refused};
use crate::sending::{end_on, has_succeeded, jobs_of, last_end, none_starved};
use am_board::begin::Begun;
use am_board::fault::{Fault, NoteFault};
use am_board::notice::Report;
use am_desk::{CloseFault, Closed, Desk, Name, NotOpen, OwnTicket, Pass};
use am_json::fault::{FaultKind, InputFault};
use am_pool::PoolFault;
use am_scenario::scenario::{Lane, Phase};
use std::alloc::Global;
use std::sync::Wait;
use std::thread::Threads;

/// A run: its desk, and what has come of it.
#[derive(Drop)]
pub struct Run<N: Name> {
    alloc: Global,
    desk: Desk<N>,
    /// The main thread's, which begins, notes and finishes.
    main: Pass<N>,
    /// Lane i has state i, with the pass i + 1.
    lane_states: Vec<LaneState<N>>,
    /// Has capacity for all passes.
    passes: Vec<Pass<N>>,
    faults: PhaseFaults,
    /// The reports on the notices so far.
    reports: Vec<Report>,
    ghost seated: { vec_len lane_states + 1 ≡ N.plan.passes },
}

impl<N: Name + Send + Sync> Run<N> {
    ghost use Rattle.am_run.specs.Runs.{Gathers, Continues, IsWell, Preserves, Rests, RunsLanes, StopsLanes, lanes_of};

    /// A run on a desk with all its passes. Refused for lack of memory.
    pub fn new(alloc: Global, desk: Desk<N>, passes: Vec<Pass<N>>) -> Result<Run<N>, InputFault>
        requires { AreFresh 0 passes.items × (vec_len passes ≡ N.plan.passes) × (0 < N.plan.passes) }
        ensures lanes { IfOk result (λ run. HaveMade 0 [] (lanes_of run)) }
        ensures main { IfOk result (λ run. BeforePhases run.main (lanes_of run) run.reports.items) }
        ensures well { IfOk result IsWell }
        ensures refused { IfErr result (λ fault. fault ≡ InputFault.NoMemory) }
    {
        Run::seated(alloc, desk, passes)
    }

    /// A run in which lane i has the pass i + 1.
    fn seated(alloc: Global, desk: Desk<N>, mut passes: Vec<Pass<N>>) -> Result<Run<N>, InputFault>
        requires { AreFresh 0 passes.items × (vec_len passes ≡ N.plan.passes) × (0 < N.plan.passes) }
        ensures numbers { IfOk result (λ run. (run.main.number ≡ 0)
            × (map (λ s. s.pass.number) run.lane_states.items ≡ range_with_len 1 (vec_len run.lane_states))) }
        ensures lanes { IfOk result (λ run. HaveMade 0 [] (lanes_of run)) }
        ensures main { IfOk result (λ run. BeforePhases run.main (lanes_of run) run.reports.items) }
        ensures well { IfOk result IsWell }
        ensures refused { IfErr result (λ fault. fault ≡ InputFault.NoMemory) }
    {
        let main = passes.remove(0);
        let lane_states = lane_states_for(alloc, &mut passes)?;
        Ok(Run {
            alloc,
            desk,
            main,
            lane_states,
            passes,
            faults: PhaseFaults::none(),
            reports: Vec::new(alloc),
        })
    }

    /// The closed desk, and the reports on the notices.
    pub fn close(self) -> Result<(Closed, Vec<Report>), InputFault>
        ensures terms { IfOk result (λ r. terms_of r.0 ≡ N.terms) }
        ensures main { IfOk result (λ r. IsPrefixViewOf self.main r.0.history) }
        ensures reports { IfOk result (λ r. r.1 ≡ self.reports) }
        ensures lanes { IfOk result (λ r. All (λ p. IsPrefixViewOf p r.0.history) (lanes_of self)) }
        ensures others { IfOk result (λ r. (k : ℕ) → length (lanes_of self) < k → made k r.0.history ≡ 0) }
        ensures legal { IfOk result (λ r. IsLegal N.terms.config N.terms.id r.0.history) }
        ensures refused { IfErr result (λ fault. fault ≡ InputFault.NoMemory) }
    {
        let Run {
            alloc: _,
            desk,
            main,
            lane_states,
            mut passes,
            faults: _,
            reports,
        } = self;
        put_back(&mut passes, main, lane_states)?;
        Ok((close(desk, passes)?, reports))
    }

    /// Runs the phase of this index, with couriers for its notices. All flushes that it begins are
    /// finished, whatever happens; where a begin is refused, with nothing recorded.
    ///
    /// The calls of the lanes come after the begins, and before the notes and the finishes.
    pub fn run_phase<R: Threads + Wait + Sync, C: Answering + Send>(
        &mut self,
        rt: &R,
        couriers: &mut [C],
        index: usize,
        phase: Phase,
    ) -> Result<(), InputFault>
        requires { vec_len phase.lanes < N.plan.passes }
        ensures lanes { OnOk result (MadeLanes phase.at phase.lanes.items (lanes_of self.old) (lanes_of self.new)) }
        ensures turn { OnOk result (RunsPhase C.answers N.terms phase self.old.main self.new.main
            (lanes_of self.old) (lanes_of self.new) self.old.reports.items self.new.reports.items) }
        ensures well { OnOk result (IsWell self.new) }
        ensures refused { IfErr result (IsRefusedBy FaultKind.Full) }
        ensures full { IfErr result (λ fault. IsTrue (is_refusal fault) → IsWell self.old
            → PhaseStops N.terms phase self.old.main self.new.main (lanes_of self.old) (lanes_of self.new)) }
    {
        let Phase { at, flush, lanes } = phase;
        let mut tickets = Vec::new(self.alloc);
        if flush {
            self.begin_all(rt, at, &mut tickets);
        }
        let reports = self.send_all(rt, couriers, at, &mut tickets, lanes);
        self.finish_all(rt, at, tickets, reports.as_slice());
        self.keep(reports.as_slice());
        self.faults.verdict(self.alloc, index)
    }

    /// Begins flushes until no group is due, or the limit of open flushes is reached.
    fn begin_all<R: Wait>(&mut self, rt: &R, at: u64, tickets: &mut Vec<OwnTicket<N>>)
        ensures preserves { Preserves self.old self.new }
        ensures begins { HasNoFault self.new.faults
            → Begins N.terms true false at self.old.main self.new.main tickets.old.items tickets.new.items }
        ensures full { HasNoFault self.old.faults → EndsAsFull self.new.faults
            → BeginsUntilFull N.terms at self.old.main self.new.main }
    {
        // This ends, since each begin leaves a record.
        while self.begin(rt, at, tickets) {}
    }

    /// Begins a flush. Answers whether there can be more to begin.
    fn begin<R: Wait>(&mut self, rt: &R, at: u64, tickets: &mut Vec<OwnTicket<N>>) -> bool
        ensures preserves { Preserves self.old self.new }
        ensures begins { HasNoFault self.new.faults
            → Begins N.terms true result at self.old.main self.new.main tickets.old.items tickets.new.items }
        ensures grows { IsTrue result → Grows N.terms self.old.main self.new.main }
        ensures well { IsTrue result → self.new.faults ≡ self.old.faults }
        ensures full { HasNoFault self.old.faults → EndsAsFull self.new.faults
            → BeginsUntilFull N.terms at self.old.main self.new.main }
    {
        if tickets.reserve(1).is_err() {
            self.faults.add_no_memory();
            return false;
        }
        match self.desk.begin(rt, self.alloc, &mut self.main, at) {
            Ok(Begun::NothingDue) => false,
            Ok(
                Begun::Quiet {
                    group: _,
                    removed: _,
                },
            ) => true,
            Ok(Begun::Flush(ticket)) => {
                tickets.push_reserved(OwnTicket::new(ticket));
                true
            }
            // The groups that are left stay due.
            Err(Fault::TooManyOpen) => false,
            Err(fault) => {
                self.faults.refuse(fault, Refused::Begin);
                false
            }
        }
    }

    /// Runs the lanes, sends the notices and settles what was sent; does nothing where something has
    /// gone wrong. Answers the reports, by ticket and integration.
    fn send_all<R: Threads + Wait + Sync, C: Answering + Send>(
        &mut self,
        rt: &R,
        couriers: &mut [C],
        at: u64,
        tickets: &mut Vec<OwnTicket<N>>,
        lanes: Vec<Lane>,
    ) -> Vec<Report>
        requires start { at ≤ MAX_TIME }
        requires lanes { vec_len lanes < N.plan.passes }
        ensures lanes { RunsLanes at lanes.items self.old self.new }
        ensures reports { self.new.reports ≡ self.old.reports }
        ensures concurrent { HasNoFault self.new.faults
            → RanBefore self.old.main self.new.main (lanes_of self.old) (lanes_of self.new) }
        ensures sent { HasNoFault self.new.faults
            → Sends C.answers N.terms at result.items tickets.old.items tickets.new.items self.old.main self.new.main }
        ensures well { HasNoFault self.new.faults → NoneRefused self.new.lane_states.items }
        ensures full { StopsLanes (LanesStopBefore N.terms at lanes.items) self.old self.new }
        ensures idle { ¬ HasNoFault self.old.faults → self.new ≡ self.old }
    {
        if !self.faults.are_none() {
            return Vec::new(self.alloc);
        }
        let reports = self.run_concurrently(rt, couriers, at, tickets.as_slice(), lanes);
        self.settle_all(rt, at, tickets, reports.as_slice());
        reports
    }

    /// Runs the lanes, and sends at the same time the notices that have something to send. Answers the
    /// reports, by ticket and integration.
    ///
    /// The main thread's pass meets those of the lanes before they start and when they are joined: so it
    /// is known that their calls come after all that it has made, and before what it makes next.
    fn run_concurrently<R: Threads + Wait + Sync, C: Answering + Send>(
        &mut self,
        rt: &R,
        couriers: &mut [C],
        at: u64,
        tickets: &[OwnTicket<N>],
        lanes: Vec<Lane>,
    ) -> Vec<Report>
        requires start { at ≤ MAX_TIME }
        requires lanes { vec_len lanes < N.plan.passes }
        ensures lanes { RunsLanes at lanes.items self.old self.new }
        ensures reports { self.new.reports ≡ self.old.reports }
        ensures concurrent { HasNoFault self.new.faults
            → RanConcurrently self.old.main self.new.main (lanes_of self.old) (lanes_of self.new) }
        ensures sent { HasNoFault self.new.faults
            → AllZip (IsSentFrom C.answers at) (to_send (map opened_of tickets.now)) result.items }
        ensures well { HasNoFault self.new.faults → NoneRefused self.new.lane_states.items }
        ensures full { StopsLanes (LanesStop N.terms at lanes.items) self.old self.new }
    {
        let Ok(jobs) = jobs_of(self.alloc, tickets, at) else {
            self.faults.add_no_memory();
            return Vec::new(self.alloc);
        };
        let lane_states = self.lane_states.as_mut_slice();
        meet_lanes(&self.desk, &mut self.main, lane_states);
        let sent = run_concurrently(
            rt,
            self.alloc,
            &self.desk,
            at,
            lane_states,
            lanes,
            couriers,
            jobs.as_slice(),
        );
        hear_joined(&self.desk, &mut self.main, lane_states, &mut self.faults);
        self.hear_couriers(sent)
    }

    /// The reports of the couriers.
    fn hear_couriers(&mut self, sent: Result<Vec<Report>, PoolFault>) -> Vec<Report>
        ensures preserves { Preserves self.old self.new }
        ensures rests { Rests self.old self.new }
        ensures heard { HasNoFault self.new.faults → sent ≡ Ok result }
        ensures fed { HasNoFault self.new.faults → All IsNotStarved result.items }
        ensures full { EndsAsFull self.new.faults → EndsAsFull self.old.faults }
    {
        match sent {
            Ok(reports) => {
                if !none_starved(reports.as_slice()) {
                    self.faults.add_no_memory();
                }
                reports
            }
            // Only `NoMemory` ever comes: a scenario has 1 to 8 couriers, and at most 64 flushes
            // with 16 notices each are open.
            Err(_) => {
                self.faults.add_no_memory();
                Vec::new(self.alloc)
            }
        }
    }

    /// Keeps the reports of a phase.
    fn keep(&mut self, reports: &[Report])
        ensures { Gathers reports.now self.old self.new }
    {
        if self.reports.extend_from_slice(reports).is_err() {
            self.faults.add_no_memory();
        }
    }

    /// Records the reports, and notes each success.
    fn settle_all<R: Wait>(
        &mut self,
        rt: &R,
        at: u64,
        tickets: &mut Vec<OwnTicket<N>>,
        reports: &[Report],
    )
        ensures preserves { Preserves self.old self.new }
        ensures recorded { HasNoFault self.new.faults
            → tickets.new.items ≡ map (recorded_all reports.now) tickets.old.items }
        ensures noted { HasNoFault self.new.faults
            → Notes N.terms (notes_of_all at reports.now tickets.new.items) self.old.main self.new.main }
        ensures continues { Continues self.old self.new }
    {
        if !record_all(tickets, reports) {
            self.faults.add_no_memory();
            return;
        }
        self.note_all(rt, at, tickets.as_slice(), reports);
    }

    /// Notes each success of these flushes.
    fn note_all<R: Wait>(&mut self, rt: &R, at: u64, tickets: &[OwnTicket<N>], reports: &[Report])
        ensures preserves { Preserves self.old self.new }
        ensures noted { HasNoFault self.new.faults
            → Notes N.terms (notes_of_all at reports.now tickets.now) self.old.main self.new.main }
        ensures continues { Continues self.old self.new }
    {
        for own in tickets {
            self.settle(rt, at, own, reports);
        }
    }

    /// Notes each success of a flush, when the sending of its notice was over.
    fn settle<R: Wait>(&mut self, rt: &R, at: u64, own: &OwnTicket<N>, reports: &[Report])
        ensures preserves { Preserves self.old self.new }
        ensures noted { HasNoFault self.new.faults
            → Notes N.terms (notes_of at reports.now own.now own.now.notices) self.old.main self.new.main }
        ensures continues { Continues self.old self.new }
    {
        let ticket = own.ticket();
        for (index, notice) in ticket.notices().iter().enumerate() {
            let succeeded = has_succeeded(notice, ticket.outcome(index));
            if succeeded {
                let end = end_on(reports, ticket.number(), notice.integration, at);
                self.note(rt, end, own, index);
            }
        }
    }

    /// Logs the success of a notice. Where the history has no capacity the finish logs it.
    fn note<R: Wait>(&mut self, rt: &R, now: u64, own: &OwnTicket<N>, index: usize)
        ensures preserves { Preserves self.old self.new }
        ensures noted { HasNoFault self.new.faults → NotesAt N.terms now own.now index self.old.main self.new.main }
        ensures continues { Continues self.old self.new }
    {
        match self
            .desk
            .note(rt, self.alloc, &mut self.main, own.ticket(), index, now)
        {
            Ok(_) => {}
            Err(NoteFault::HistoryFull) => {}
            Err(_) => self.faults.add_no_memory(),
        }
    }

    /// Finishes the flushes, by number, each when the sending of its notices was over.
    fn finish_all<R: Wait>(
        &mut self,
        rt: &R,
        at: u64,
        tickets: Vec<OwnTicket<N>>,
        reports: &[Report],
    )
        ensures preserves { Preserves self.old self.new }
        ensures finished { HasNoFault self.new.faults
            → Finishes at reports.now tickets.items self.old.main self.new.main }
        ensures continues { Continues self.old self.new }
    {
        let mut left = tickets;
        while !left.is_empty() {
            let own = left.remove(0);
            let now = last_end(reports, own.ticket().number(), at);
            self.finish(rt, own, now);
        }
        left.destroy_empty();
    }

    fn finish<R: Wait>(&mut self, rt: &R, own: OwnTicket<N>, now: u64)
        ensures preserves { Preserves self.old self.new }
        ensures finished { HasNoFault self.new.faults → FinishesOne now own self.old.main self.new.main }
        ensures continues { Continues self.old self.new }
    {
        match self.desk.finish_own(rt, &mut self.main, own, now) {
            Ok(_) => {}
            Err(NotOpen) => self.faults.add_no_memory(),
        }
    }
}

/// The lanes are joined: their refused calls are added, and the main thread's pass meets theirs.
fn hear_joined<N: Name>(
    desk: &Desk<N>,
    main: &mut Pass<N>,
    lane_states: &mut [LaneState<N>],
    faults: &mut PhaseFaults,
)
    ensures heard { HasNoFault faults.new → HasNoFault faults.old × NoneRefused lane_states.old }
    ensures full { HasNoFault faults.old → EndsAsFull faults.new → AnyRefused lane_states.old }
    ensures met { MeetsAll main.old main.new (passes_in lane_states.old) (passes_in lane_states.new) }
    ensures refused { map (λ s. s.refused) lane_states.new ≡ map (λ s. s.refused) lane_states.old }
{
    hear_lanes(lane_states, faults);
    meet_lanes(desk, main, lane_states);
}

/// Adds the refused calls of the lanes, by lane.
fn hear_lanes<N: Name>(lane_states: &[LaneState<N>], faults: &mut PhaseFaults)
    ensures heard { HasNoFault faults.new → HasNoFault faults.old × NoneRefused lane_states.now }
    ensures full { HasNoFault faults.old → EndsAsFull faults.new → AnyRefused lane_states.now }
{
    for (lane, lane_state) in lane_states.iter().enumerate() {
        if let Some((call, fault)) = lane_state.refused() {
            faults.refuse(fault, Refused::Call { lane, call });
        }
    }
}

/// Records in each ticket those of the reports that are on it. Answers whether none was refused.
fn record_all<N: Name>(tickets: &mut Vec<OwnTicket<N>>, reports: &[Report]) -> bool
    ensures { IsTrue result → tickets.new.items ≡ map (recorded_all reports.now) tickets.old.items }
{
    for own in tickets.iter_mut() {
        if !record_on(own, reports) {
            return false;
        }
    }
    true
}

/// Records those of the reports that are on this ticket. Answers whether none was refused.
fn record_on<N: Name>(own: &mut OwnTicket<N>, reports: &[Report]) -> bool
    ensures { IsTrue result → own.new ≡ recorded_all reports.now own.old }
{
    let number = own.ticket().number();
    for report in reports {
        if report.ticket == number && own.record(*report).is_err() {
            return false;
        }
    }
    true
}

/// Puts the passes of a run together again.
fn put_back<N: Name>(
    passes: &mut Vec<Pass<N>>,
    main: Pass<N>,
    lane_states: Vec<LaneState<N>>,
) -> Result<(), InputFault>
    ensures passes { OnOk result (passes.new.items ≡ passes.old.items ++ main ∷ passes_in lane_states.items) }
    ensures refused { IfErr result (λ fault. fault ≡ InputFault.NoMemory) }
{
    passes.push(main)?;
    for lane_state in lane_states {
        passes.push(lane_state.into_pass())?;
    }
    Ok(())
}

/// Closes the desk of a run. No flush is open and no pass is missing, but no contract says so.
/// A close that fails counts as out of memory.
fn close<N: Name>(desk: Desk<N>, passes: Vec<Pass<N>>) -> Result<Closed, InputFault>
    ensures terms { IfOk result (λ closed. terms_of closed ≡ N.terms) }
    ensures prefixed { IfOk result (λ closed. All (λ p. IsPrefixViewOf p closed.history) passes.items) }
    ensures others { IfOk result (λ closed. (k : ℕ) → N.plan.passes ≤ k → made k closed.history ≡ 0) }
    ensures legal { IfOk result (λ closed. IsLegal N.terms.config N.terms.id closed.history) }
    ensures refused { IfErr result (λ fault. fault ≡ InputFault.NoMemory) }
{
    match desk.close(passes) {
        Ok(closed) => Ok(closed),
        Err(
            CloseFault {
                cause: _,
                desk: _desk,
                passes: _passes,
            },
        ) => Err(InputFault::NoMemory),
    }
}
