//! `libfentdolmen`: the lines of `am-dispatch` in process, for C and whoever calls C.
//!
//! c/fentdolmen.h declares the functions for callers, and says what they owe; c/fentdolmen.c calls these, and has what comes of NULL.
//! docs/library.md has programs in C, Python, Go and Rust.
//!
//! `handle` has what C holds: a flag, and a pointer to a service of `am_session` while the flag is 1. Contracts see the service.
#![tactic(auto)]

ghost use Rattle.std.specs.Prelude.{◌≡◌};
ghost use Rattle.fentdolmen.specs.Calls.{Calls, Closes, Opens, Reads};

mod copy;
mod handle;

use am_seed::Seed;
use am_session::service::Service;
use copy::copy_from;
use handle::Fentdolmen;
use std::alloc::Global;

/// The version of this interface.
const VERSION: u32 = 1;

/// It was done.
const DONE: i32 = 0;

/// Out of memory.
const NO_MEMORY: i32 = 1;

/// The handle was open already, or it wasn't open.
const NOT_SO: i32 = 2;

/// Returns the version of this interface: 1.
#[unsafe(no_mangle)]
pub extern "C" fn fentdolmen_version() -> u32
    ensures { result ≡ 1 }
{
    VERSION
}

/// Opens a handle that is closed. Its boards hash from this seed. Returns 0; 1 without memory, and 2 if it is open. Then it is as
/// before.
#[unsafe(no_mangle)]
pub extern "C" fn fentdolmen_open_at(alloc: Global, f: &mut Fentdolmen, seed: u64) -> i32
    ensures { Opens f.old.held.kept seed result f.new.held.kept }
{
    if f.is_open() {
        return NOT_SO;
    }
    match Box::new(alloc, Service::new(Seed::new(seed))) {
        Ok(service) => {
            f.put(service);
            DONE
        }
        Err(_) => NO_MEMORY,
    }
}

/// Answers a line, copies as much of the answer into the buffer as fits, and returns the length of all of it. 0 if the handle is
/// closed.
#[unsafe(no_mangle)]
pub extern "C" fn fentdolmen_call_at(
    alloc: Global,
    f: &mut Fentdolmen,
    line: &[u8],
    into: &mut [u8],
) -> usize
    ensures { Calls f.old.held.kept line.now result f.new.held.kept into.old into.new }
{
    let Some(mut service) = f.take(alloc) else {
        return 0;
    };
    service.call(alloc, line);
    let length = copy_from(service.answer.bytes(), 0, into);
    f.put(service);
    length
}

/// Copies as much of the last answer, from a place on, into the buffer as fits, and returns the length of all of it. 0 if the handle
/// is closed.
#[unsafe(no_mangle)]
pub extern "C" fn fentdolmen_read_at(
    alloc: Global,
    f: &mut Fentdolmen,
    from: usize,
    into: &mut [u8],
) -> usize
    ensures { Reads f.old.held.kept from result f.new.held.kept into.old into.new }
{
    let Some(service) = f.take(alloc) else {
        return 0;
    };
    let length = copy_from(service.answer.bytes(), from, into);
    f.put(service);
    length
}

/// Closes a handle, and frees what it owns. Returns 0, and 2 if it isn't open.
#[unsafe(no_mangle)]
pub extern "C" fn fentdolmen_close_at(alloc: Global, f: &mut Fentdolmen) -> i32
    ensures { Closes f.old.held.kept result f.new.held.kept }
{
    match f.take(alloc) {
        Some(service) => {
            drop(service);
            DONE
        }
        None => NOT_SO,
    }
}
