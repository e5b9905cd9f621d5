//! The stored state of a board, which the module of each call changes.
ghost use Rattle.std.specs.Prelude.{◌≡◌, ◌+◌, ◌≤◌, ◌↔◌, IsTrue, IsOkAnd, max, min, vec_len};
ghost use Rattle.std.specs.VecDeque.{deque_len};
ghost use Rattle.am_board.specs.Refinement.{IsNew};

use crate::flush::OpenFlush;
use crate::group::GroupName;
use crate::groups::Groups;
use crate::known::Known;
use crate::record::Record;
use crate::silences::NotedSilences;
use am_alerts::labels::Labels;
use am_alerts::limits::MAX_TIME;
use am_nflog::NfLog;
use am_seed::Seed;
use std::alloc::{AllocError, Global};
use std::collections::VecDeque;

/// The stored state. `state_of` (specs/Refinement.antt) reads it as a state of `am_model`.
#[derive(Drop)]
pub(crate) struct State {
    /// The greatest time of any call so far, in milliseconds.
    pub(crate) clock: u64,
    /// The number of inserts so far.
    pub(crate) inserts: u64,
    pub(crate) known: Known,
    pub(crate) groups: Groups,
    pub(crate) silences: NotedSilences,
    pub(crate) log: NfLog<GroupName, Labels>,
    /// By number. A finish moves those before the flush, or those behind it, whichever are fewer.
    pub(crate) flushes: VecDeque<OpenFlush>,
    /// The number of the next flush.
    pub(crate) next_number: u64,
    /// The accepted calls that weren't handed out. It has capacity for the finish of each open flush.
    pub(crate) history: Vec<Record>,
}

impl State {
    /// Returns the state of an empty board. The hashes of its maps start from this seed.
    pub(crate) fn new(alloc: Global, seed: Seed) -> Result<State, AllocError>
        ensures { IsOkAnd result IsNew }
    {
        Ok(State {
            clock: 0,
            inserts: 0,
            known: Known::new(alloc, seed),
            groups: Groups::new(alloc, seed),
            silences: NotedSilences::new(alloc, seed),
            log: NfLog::new(alloc, seed)?,
            flushes: VecDeque::new(alloc),
            next_number: 1,
            history: Vec::new(alloc),
        })
    }

    /// Returns whether the history has capacity for so many records and the finish of each open
    /// flush.
    pub(crate) fn has_space(&self, records: usize, limit: usize) -> bool
        requires { records ≤ 2 }
        ensures { IsTrue result ↔ (vec_len self.now.history + deque_len self.now.flushes + records ≤ limit) }
    {
        self.history.as_slice().len() + self.flushes.len() + records <= limit
    }

    /// Returns the time of a call: times never go back, and end at 10^15.
    pub(crate) fn time(&self, now: u64) -> u64
        ensures { result ≡ max self.now.clock (min now MAX_TIME) }
    {
        self.clock.max(now.min(MAX_TIME))
    }
}
