//! The run of a scenario: reads the whole input, builds the scenario, plays it, writes the report.
//!
//! `play_scenario` opens a desk with a pass for the main thread and one for each lane that a phase
//! can have. It runs the phases, closes the desk, and makes the report of the closed history and
//! the reports on the notices. How the contracts come about:
//!
//! - Each lane's pass has made exactly the lane's calls (`Plays`, `LaneStates`). A lane state knows
//!   that its pass made them all. If one failed, the run ends (`PhaseFaults`). From phase to phase
//!   a run knows it of all lanes (`HaveMade`), and the close knows it of the history.
//! - The main thread's pass has made its steps in each phase (`Turns`, `Steps`).
//! - The two are ordered by what the main thread's pass has seen (`Parts`, `Interleaving`). It
//!   meets the lanes' passes before they start, so their calls come after its begins. It meets them
//!   again when they are joined, so it has seen all of them before its notes. Starting and joining
//!   a thread orders these calls too, but no contract says so of a lock.
//! - That it has seen no others of theirs is known when it meets them again, or from the close.
//!   Until then a run says it under this premise (`AfterPhases`).
//! - Where two lists have the same records of each pass, and one begins the other, they are one
//!   list. So the history is cut at what the main thread's pass had seen after its begins, when the
//!   lanes were joined, and when a phase ended.
//! - Where a limit refuses a call, the pass that made it has seen the history at which it does
//!   (`Stops`). The play ends there, but its desk is closed too: the close shows that nobody made
//!   other calls (`IsCauseOfFull`).
//! - The list that the pass had seen by then shows where the begins stop for the open flushes, and
//!   where a note finds no capacity. The closed history begins with each such list. The first has
//!   just what came before the phase, and its begins.
ghost use Rattle.std.specs.Prelude.{◌≡◌, ◌≢◌, ◌≤◌, ◌<◌, ◌+◌, ◌++◌, ◌⊎◌, ◌↔◌, All, List, ℕ, length, vec_len};
ghost use Rattle.std.specs.Prelude.{IfErr, IfOk, IsTrue, None, OnOk, string_bytes};
ghost use Rattle.am_json.specs.Read.{IsRefusedBy, is_refusal};
ghost use Rattle.am_desk.specs.Desks.{AreFresh};
ghost use Rattle.am_desk.specs.Terms.{terms};
ghost use Rattle.am_model.specs.Config.{config_fault};
ghost use Rattle.am_model.specs.Replay.{IsLegal};
ghost use Rattle.am_model.specs.declared.record.Record.{Record};
ghost use Rattle.am_run.specs.Faults.{Refuses, status_of};
ghost use Rattle.am_run.specs.Plays.{IsPlay, IsPlayOf};
ghost use Rattle.am_run.specs.Runs.{HasRun, IsFresh, IsReportOnRun, lanes_of};
ghost use Rattle.am_run.specs.Stops.{EndsWith, PassesStop};
ghost use Rattle.am_run.specs.IsCauseOfFull.{IsStuck};
ghost use Rattle.am_run.specs.Report.{report_text};
ghost use Rattle.am_scenario.specs.Decoding.{IsScenarioIn};
ghost use Rattle.am_run.specs.declared.run.TheConstants.{BOARD_ID};
ghost use Rattle.am_scenario.specs.declared.scenario.TheConstants.{MAX_LANES};

use crate::courier::{Answering, Scripts, couriers_for};
use crate::fault::RunFault;
use crate::phase::Run;
use crate::report::report_text;
use am_board::config::Config;
use am_board::notice::Report;
use am_desk::{Blank, BlankFault, Brand, Closed, Desk, Name, OpenFault, Pass};
use am_json::device::{Sink, Source};
use am_json::fault::{FaultKind, InputFault};
use am_json::pointer::JsonPointer;
use am_json::reader::parse;
use am_json::transfer::{read_all, write_all};
use am_scenario::scenario::{Phase, Scenario, read_scenario};
use am_seed::Seed;
use std::alloc::{AllocError, Global};
use std::sync::Wait;
use std::thread::Threads;

/// How many bytes a scenario may have: 16 MiB.
pub const MAX_SCENARIO: usize = 16_777_216;

/// The id of the desk of a run.
pub const BOARD_ID: u64 = 1;

/// Reads a scenario from the source, runs it and writes its report to the sink.
///
/// The report is that of the scenario which the whole input decodes to, field by field, played as
/// `play_scenario` says it. It is made whole before its first byte is written: on every fault but
/// `Unwritable` the sink wasn't asked. An input is refused as `NotJson` only where it is none, and as
/// `Refused` only where it is the text of a JSON value; it was read whole before. Where that says a
/// scenario, and no matcher needs a regex, a fault at a pointer is `Full`, and a limit stops
/// the play. Hashes start from `seed`, on which nothing depends.
pub fn run_scenario<R: AllocGlobal + Threads + Wait + Sync, S: Source, K: Sink>(
    rt: &R,
    seed: Seed,
    source: &mut S,
    sink: &mut K,
) -> Result<(), RunFault>
    ensures reads { S.reads source.new ≤ S.reads source.old + (MAX_SCENARIO + 1) }
    ensures unreadable { (result ≡ Err RunFault.Unreadable)
        ↔ ((S.failed source.old < S.failed source.new)
        ⊎ (length (S.given source.old) + MAX_SCENARIO < length (S.given source.new))) }
    ensures unwritable { (result ≡ Err RunFault.Unwritable)
        ↔ (K.failed sink.old < K.failed sink.new) }
    ensures unwritten { IfErr result (λ fault.
        fault ≢ RunFault.Unwritable → sink.new ≡ sink.old) }
    ensures ended { OnOk result (S.ended source.new ≡ S.ended source.old + 1) }
    ensures written { OnOk result ((input : List ℕ) × (report : List ℕ) × IsPlay BOARD_ID input report
        × (S.given source.new ≡ S.given source.old ++ input)
        × (K.taken sink.new ≡ K.taken sink.old ++ report)) }
    ensures refused { IfErr result (λ fault. status_of fault ≡ 2 → (input : List ℕ) × Refuses input fault
        × (S.given source.new ≡ S.given source.old ++ input)
        × (S.ended source.new ≡ S.ended source.old + 1)) }
{
    let alloc = rt.alloc();
    let input = read_all(alloc, source, MAX_SCENARIO)?;
    let report = report_of(rt, alloc, seed, input.as_slice())?;
    Ok(write_all(sink, report.as_bytes())?)
}

/// The report on the scenario that these bytes are.
fn report_of<R: Threads + Wait + Sync>(
    rt: &R,
    alloc: Global,
    seed: Seed,
    input: &[u8],
) -> Result<String, RunFault>
    ensures report { IfOk result (λ text. IsPlay BOARD_ID input.now (string_bytes text)) }
    ensures refused { IfErr result (Refuses input.now) }
{
    let scenario = read(alloc, input)?;
    Ok(play_scenario(rt, alloc, seed, scenario)?)
}

/// The scenario that these bytes are. Of the JSON value nothing is kept.
fn read(alloc: Global, input: &[u8]) -> Result<Scenario, RunFault>
    ensures scenario { IfOk result (IsScenarioIn input.now) }
    ensures refused { IfErr result (Refuses input.now) }
{
    let value = parse(alloc, input)?;
    Ok(read_scenario(alloc, value)?)
}

/// Plays a scenario on a desk of its own, of the id `BOARD_ID`, and makes its report.
///
/// The report is the text of a legal history of the scenario's own configuration. The calls of the
/// pass i + 1 in the history are just those of lane i, phase after phase, in their order, each at
/// the time of its phase. The pass 0 is the main thread's. In each phase that asks for it it begins
/// flushes at the phase's time, until no group is due or `limits.flushes` are open. It notes each
/// success at the end of its sending, except where there is no capacity at the note's turn,
/// and finishes each flush when the sending of all its notices was over; it makes no other calls.
/// Attempt k of a notice is answered by the k-th item of the first script for it, or by the last; so
/// the scripts determine the reports. The history is made of a part for each phase, one after the
/// other: its begins, then the calls of its lanes, then its notes and finishes. How the calls of two
/// lanes of a phase are to each other isn't said.
///
/// # Errors
///
/// - `Refused` as `BadValue`: the configuration has a fault.
/// - `Refused` as `Full`: a limit stopped the play. Clause `full`: the phases before one ran
///   to their end. Then the history has no capacity for the next begin of that phase. Or all its
///   begins were made, and then the first calls of its lanes, and a limit refuses the next call of a
///   lane. No clause says that the pointer is that of the refused call.
/// - `NoMemory`. It comes before `Full`. No clause says that a report, a note, a finish or the close
///   of the desk never fails: one that did would give `NoMemory`.
pub fn play_scenario<R: Threads + Wait + Sync>(
    rt: &R,
    alloc: Global,
    seed: Seed,
    scenario: Scenario,
) -> Result<String, InputFault>
    ensures report { IfOk result (λ text. IsPlayOf BOARD_ID scenario (string_bytes text)) }
    ensures refused { IfErr result (λ fault. config_fault scenario.config ≡ None → IsRefusedBy FaultKind.Full fault) }
    ensures full { IfErr result (λ fault. config_fault scenario.config ≡ None → IsTrue (is_refusal fault) → IsStuck BOARD_ID scenario) }
{
    let blank = blank_for(alloc, seed, scenario.phases.as_slice())?;
    play_on::<Brand, Brand, R>(rt, alloc, scenario, blank)
}

/// Plays a scenario on the desk of this name, with couriers of the scripts of this name, and makes its
/// report.
fn play_on<N: Name + Send + Sync, S: Scripts + Send, R: Threads + Wait + Sync>(
    rt: &R,
    alloc: Global,
    scenario: Scenario,
    blank: Blank,
) -> Result<String, InputFault>
    requires name { (blank ≡ N.plan) × (terms scenario.config blank.id ≡ N.terms) }
    requires id { blank.id ≡ BOARD_ID }
    requires scripts { scenario.scripts.items ≡ S.scripts }
    requires lanes { All (λ p. vec_len p.lanes < blank.passes) scenario.phases.items }
    ensures report { IfOk result (λ text. IsPlayOf BOARD_ID scenario (string_bytes text)) }
    ensures refused { IfErr result (λ fault. config_fault scenario.config ≡ None → IsRefusedBy FaultKind.Full fault) }
    ensures full { IfErr result (λ fault. config_fault scenario.config ≡ None → IsTrue (is_refusal fault) → IsStuck BOARD_ID scenario) }
{
    let Scenario {
        config,
        workers,
        scripts,
        phases,
    } = scenario;
    let mut run = start::<N>(alloc, config, blank)?;
    let mut couriers = couriers_for::<S>(alloc, workers, scripts.as_slice())?;
    match run_phases(rt, &mut run, couriers.as_mut_slice(), phases) {
        Ok(()) => report_on_run(alloc, run),
        Err(fault) => Err(close_stopped(run, fault)),
    }
}

/// Closes the desk of a run that was stopped by a fault, and returns the fault.
///
/// Only the close shows that nobody made other calls. Without it, the passes might have seen calls
/// that the scenario doesn't ask for. Out of memory comes before the fault.
fn close_stopped<N: Name + Send + Sync>(run: Run<N>, fault: InputFault) -> InputFault
    ensures refused { IsRefusedBy FaultKind.Full fault → IsRefusedBy FaultKind.Full result }
    ensures full { IsTrue (is_refusal result) → IsTrue (is_refusal fault)
        × ((history : List Record) × EndsWith N.terms run.main (lanes_of run) history) }
{
    match run.close() {
        Ok(closed) => {
            drop(closed);
            fault
        }
        Err(_) => InputFault::NoMemory,
    }
}

/// A run on a desk of this name, before its first phase.
fn start<N: Name + Send + Sync>(
    alloc: Global,
    config: Config,
    blank: Blank,
) -> Result<Run<N>, InputFault>
    requires { (blank ≡ N.plan) × (terms config blank.id ≡ N.terms) }
    ensures fresh { IfOk result IsFresh }
    ensures refused { IfErr result (λ fault. config_fault config ≡ None → fault ≡ InputFault.NoMemory) }
{
    let (desk, passes) = open::<N>(alloc, config, blank)?;
    Run::new(alloc, desk, passes)
}

/// Runs the phases, one after the other, with these couriers for their notices.
fn run_phases<N: Name + Send + Sync, C: Answering + Send, R: Threads + Wait + Sync>(
    rt: &R,
    run: &mut Run<N>,
    couriers: &mut [C],
    phases: Vec<Phase>,
) -> Result<(), InputFault>
    requires fresh { IsFresh run.old }
    requires lanes { All (λ p. vec_len p.lanes < N.plan.passes) phases.items }
    ensures ran { OnOk result (HasRun C.answers N.terms phases.items run.new) }
    ensures refused { IfErr result (IsRefusedBy FaultKind.Full) }
    ensures full { IfErr result (λ fault. IsTrue (is_refusal fault)
        → PassesStop C.answers N.terms phases.items run.new.main (lanes_of run.new)) }
{
    for (index, phase) in phases.into_iter().enumerate() {
        run.run_phase(rt, couriers, index, phase)?;
    }
    Ok(())
}

/// Closes the desk of a run, and makes the report on what it did.
fn report_on_run<N: Name + Send + Sync>(alloc: Global, run: Run<N>) -> Result<String, InputFault>
    ensures report { IfOk result (λ text. IsReportOnRun N.terms run (string_bytes text)) }
    ensures refused { IfErr result (λ fault. fault ≡ InputFault.NoMemory) }
{
    let (closed, reports) = run.close()?;
    Ok(report_of_closed(alloc, closed, reports)?)
}

/// The report on what a closed desk did, which is let go.
fn report_of_closed(
    alloc: Global,
    closed: Closed,
    reports: Vec<Report>,
) -> Result<String, AllocError>
    ensures text { IfOk result (λ text.
        string_bytes text ≡ report_text closed.config reports.items closed.history) }
    ensures legal { IsLegal closed.config closed.id closed.history }
{
    let text = report_on(alloc, &closed, reports.as_slice());
    drop(closed);
    text
}

/// The report on what a closed desk did.
fn report_on(alloc: Global, closed: &Closed, reports: &[Report]) -> Result<String, AllocError>
    ensures text { IfOk result (λ text.
        string_bytes text ≡ report_text closed.now.config reports.now closed.now.history) }
    ensures legal { IsLegal closed.now.config closed.now.id closed.now.history }
{
    let history = closed.history();
    let rows = closed.rows(alloc)?;
    let groups = closed.groups(alloc)?;
    report_text(
        alloc,
        closed.config(),
        history,
        rows.as_slice(),
        groups.as_slice(),
        reports,
    )
}

/// The blank of a desk with a pass for the main thread and one for each lane of the phase that has
/// most of them. The hashes of the desk start from this seed.
pub fn blank_for(alloc: Global, seed: Seed, phases: &[Phase]) -> Result<Blank, InputFault>
    ensures id { IfOk result (λ blank. blank.id ≡ BOARD_ID) }
    ensures lanes { IfOk result (λ blank. All (λ p. vec_len p.lanes < blank.passes) phases.now) }
    ensures refused { IfErr result (λ fault. fault ≡ InputFault.NoMemory) }
{
    let lanes = most_lanes(phases);
    match Blank::new(alloc, BOARD_ID, 1 + lanes as u32) {
        Ok(blank) => Ok(blank.seeded(seed)),
        Err(BlankFault::NoMemory) => Err(InputFault::NoMemory),
        Err(BlankFault::BadCount) => unreachable!(),
    }
}

/// How many lanes the phase has that has most of them.
fn most_lanes(phases: &[Phase]) -> usize
    ensures most { All (λ p. vec_len p.lanes ≤ result) phases.now }
    ensures few { result ≤ MAX_LANES }
{
    let mut most = 0;
    for phase in phases {
        most = phase.lanes.len().max(most);
    }
    most
}

/// The desk of a run, with its passes.
pub fn open<N: Name>(
    alloc: Global,
    config: Config,
    blank: Blank,
) -> Result<(Desk<N>, Vec<Pass<N>>), InputFault>
    requires { (blank ≡ N.plan) × (terms config blank.id ≡ N.terms) }
    ensures passes { IfOk result (λ r. AreFresh 0 r.1.items × (vec_len r.1 ≡ N.plan.passes) × (0 < N.plan.passes)) }
    ensures refused { IfErr result (λ fault. config_fault config ≡ None → fault ≡ InputFault.NoMemory) }
{
    match Desk::<N>::open(alloc, config, blank) {
        Ok(opened) => Ok(opened),
        Err(OpenFault::NoMemory) => Err(InputFault::NoMemory),
        Err(OpenFault::BadConfig(_)) => {
            let top = JsonPointer::Root;
            Err(top.member("config").refuse(alloc, FaultKind::BadValue))
        }
    }
}
