//! Makes calls that promise to take no memory, and prints each with its answer: those that work on
//! logs, boards, desks and tickets, and those that are handed an allocator. A call that only
//! hands out a number or a reference has nothing to ask with, and is left out. The name is written before the
//! call, and the answer after it, so requests for memory which come between the two writes are the
//! call's. A few calls that take memory are among them, as `with memory`: they show that requests are seen.
//! Calls that a limit refuses are there as `without memory`: the check `memory.py frugal` refuses each request that they make.

mod alerts;
mod board;
pub mod delivery;
mod desk;
mod log;
pub mod probe;
mod resumed;
mod routes;
mod silences;
mod ticket;
pub mod values;

use crate::requests::probe::Probe;
use crate::words::BenchError;
use std::alloc::Global;
use std::sync::Wait;

/// Makes the calls, lowest crates first.
pub fn make_calls<R: Wait>(probe: &Probe, rt: &R, alloc: Global) -> Result<(), BenchError> {
    alerts::make_calls(probe, alloc)?;
    routes::make_calls(probe, alloc)?;
    silences::make_calls(probe, alloc)?;
    log::make_calls(probe, alloc)?;
    board::make_calls(probe, alloc)?;
    desk::make_calls(probe, rt, alloc)?;
    resumed::make_calls(probe, rt, alloc)?;
    Ok(())
}
