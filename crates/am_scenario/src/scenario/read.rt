//! How a scenario is read.
//!
//! The length of a pair, a matcher, a script item or the list of lanes is looked at before its
//! items. Exception: the matchers of a silence are read before they are counted. A call with two
//! kinds is rejected after both were read. Any value of `maintain` is a maintenance. Other fields
//! of a call are ignored.
ghost use Rattle.std.specs.Prelude.{◌≡◌, ◌≤◌, ℕ, List, [], IfErr, IfOk, IsTrue, MatchOption, codes, length, vec_len};
ghost use Rattle.std.specs.List.{list_all};
ghost use Rattle.am_json.specs.Decoding.{IsList, IsNumber, HasOr};
ghost use Rattle.am_json.specs.Read.{Excludes};
ghost use Rattle.am_json.specs.declared.reader.Mode.TheVariants.{Lenient};
ghost use Rattle.am_pool.specs.declared.limits.TheConstants.{MAX_WORKERS};
ghost use Rattle.am_scenario.specs.Decoding.{DecodesToLane, DecodesToPhase, DecodesToScenario};
ghost use Rattle.am_scenario.specs.Decoding.{lane_compares_texts, phase_compares_texts, scenario_compares_texts};
ghost use Rattle.am_scenario.specs.declared.scenario.TheConstants.{MAX_LANES};
ghost use Rattle.serde_json.specs.Find.{get};
ghost use Rattle.serde_json.specs.View.{members_view, view};

use super::items::{FromOwned, into_array, into_member, read_items, read_list, under};
use super::{Lane, LaneCall, MAX_LANES, Phase, Scenario, Script};
use am_alerts::limits::MAX_TIME;
use am_json::config::read_config;
use am_json::fault::{FaultKind, InputFault};
use am_json::pointer::JsonPointer;
use am_json::reader::{FromJson, Object, Reader};
use am_pool::MAX_WORKERS;
use serde_json::Value;
use std::alloc::Global;

/// How many workers there are, where the scenario doesn't say.
const USUAL_WORKERS: usize = 2;

/// Reads a whole scenario. The first fault in the order of reading is answered. A pattern
/// that needs a regex can be too large; else what the value says is refused only for lack of memory.
///
/// Each call of a lane is let go as soon as it was read: of a large scenario the value and what is made
/// of it are never there whole at once.
pub fn read_scenario(alloc: Global, value: Value) -> Result<Scenario, InputFault>
    ensures decoded { IfOk result (DecodesToScenario (view value)) }
    ensures refused { IfErr result (Excludes (λ scenario.
        DecodesToScenario (view value) scenario × IsTrue (scenario_compares_texts scenario))) }
{
    let reader = Reader::top(alloc, &value);
    let top = reader.object()?;
    let config = read_config(&top.required("config")?)?;
    let workers = read_workers(&top)?;
    let scripts = top.list_or_none::<Script>("answers")?;
    let phases = read_phases(alloc, value)?;
    Ok(Scenario {
        config,
        workers,
        scripts,
        phases,
    })
}

/// How many workers there are to be.
fn read_workers(top: &Object<'_, '_>) -> Result<usize, InputFault>
    ensures bounds { IfOk result (λ workers. (1 ≤ workers) × (workers ≤ MAX_WORKERS)) }
    ensures decoded { IfOk result (HasOr IsNumber 2 (codes "workers") (members_view top.now.members)) }
    ensures refused { IfErr result (Excludes (λ (workers : ℕ). HasOr IsNumber 2 (codes "workers") (members_view top.now.members) workers
        × (1 ≤ workers) × (workers ≤ MAX_WORKERS))) }
{
    match top.optional("workers") {
        None => Ok(USUAL_WORKERS),
        Some(member) => {
            let number = member.number()?;
            if number < 1 || number > MAX_WORKERS as u64 {
                return Err(member.refuse(FaultKind::BadValue));
            }
            Ok(number as usize)
        }
    }
}

/// The phases of a scenario, whose other members are let go.
fn read_phases(alloc: Global, scenario: Value) -> Result<Vec<Phase>, InputFault>
    ensures decoded { IfOk result (λ phases. MatchOption (get (codes "phases") (view scenario)) ⊥
        (λ value. IsList (DecodesToPhase Lenient) value phases.items)) }
    ensures refused { IfErr result (Excludes (λ (phases : List Phase). MatchOption (get (codes "phases") (view scenario)) ⊥
        (λ value. IsList (DecodesToPhase Lenient) value phases) × IsTrue (list_all phase_compares_texts phases))) }
{
    let root = JsonPointer::Root;
    let pointer = root.member("phases");
    match into_member(scenario, "phases") {
        None => Err(pointer.refuse(alloc, FaultKind::Missing)),
        Some(phases) => under(alloc, &pointer, read_list::<Phase>(alloc, phases)),
    }
}

impl FromOwned for Phase {
    ghost use Rattle.am_json.specs.declared.reader.Mode.TheVariants.{Lenient};
    ghost use Rattle.am_scenario.specs.Decoding.{DecodesToPhase, phase_compares_texts};

    ghost decodes_to = { λ value phase. DecodesToPhase Lenient value phase };

    ghost never_refused = { λ phase. phase_compares_texts phase };

    fn read_owned(alloc: Global, value: Value) -> Result<Phase, InputFault> {
        let reader = Reader::top(alloc, &value);
        let phase = reader.object()?;
        let at = phase.required("at")?.number_up_to(MAX_TIME)?;
        let flush = phase.flag_or("flush", false)?;
        let lanes = read_lanes(alloc, value)?;
        Ok(Phase { at, flush, lanes })
    }
}

/// The lanes of a phase, if it has any; its other members are let go.
fn read_lanes(alloc: Global, phase: Value) -> Result<Vec<Lane>, InputFault>
    ensures bound { IfOk result (λ lanes. vec_len lanes ≤ MAX_LANES) }
    ensures decoded { IfOk result (λ lanes. MatchOption (get (codes "lanes") (view phase)) (lanes.items ≡ [])
        (λ value. IsList (DecodesToLane Lenient) value lanes.items)) }
    ensures refused { IfErr result (Excludes (λ (lanes : List Lane). MatchOption (get (codes "lanes") (view phase)) (lanes ≡ [])
        (λ value. IsList (DecodesToLane Lenient) value lanes)
        × IsTrue (list_all lane_compares_texts lanes) × (length lanes ≤ MAX_LANES))) }
{
    let root = JsonPointer::Root;
    let pointer = root.member("lanes");
    match into_member(phase, "lanes") {
        None => Ok(Vec::new(alloc)),
        Some(lanes) => under(alloc, &pointer, read_few_lanes(alloc, lanes)),
    }
}

/// The lanes in an array of a few. They are counted before the first is read.
fn read_few_lanes(alloc: Global, lanes: Value) -> Result<Vec<Lane>, InputFault>
    ensures bound { IfOk result (λ few. vec_len few ≤ MAX_LANES) }
    ensures decoded { IfOk result (λ few. IsList (DecodesToLane Lenient) (view lanes) few.items) }
    ensures refused { IfErr result (Excludes (λ (few : List Lane). IsList (DecodesToLane Lenient) (view lanes) few
        × IsTrue (list_all lane_compares_texts few) × (length few ≤ MAX_LANES))) }
{
    let values = into_array(alloc, lanes)?;
    if values.len() > MAX_LANES {
        return Err(JsonPointer::Root.refuse(alloc, FaultKind::BadValue));
    }
    read_items::<Lane>(alloc, values)
}

impl FromOwned for Lane {
    ghost use Rattle.am_json.specs.declared.reader.Mode.TheVariants.{Lenient};
    ghost use Rattle.am_scenario.specs.Decoding.{DecodesToLane, lane_compares_texts};

    ghost decodes_to = { λ value lane. DecodesToLane Lenient value lane };

    ghost never_refused = { λ lane. lane_compares_texts lane };

    fn read_owned(alloc: Global, value: Value) -> Result<Lane, InputFault> {
        let calls = read_list::<LaneCall>(alloc, value)?;
        Ok(Lane { calls })
    }
}

impl FromOwned for LaneCall {
    ghost use Rattle.am_json.specs.declared.reader.Mode.TheVariants.{Lenient};
    ghost use Rattle.am_scenario.specs.Decoding.{DecodesToCall, call_compares_texts};

    ghost decodes_to = { λ value call. DecodesToCall Lenient value call };

    ghost never_refused = { λ call. call_compares_texts call };

    fn read_owned(alloc: Global, value: Value) -> Result<LaneCall, InputFault> {
        LaneCall::read(&Reader::top(alloc, &value))
    }
}
