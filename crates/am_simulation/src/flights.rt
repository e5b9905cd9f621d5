//! `Flights`: the flushes whose notices are in flight, in the order of their begins.
//!
//! Each has a key, by which its next end is found without a walk over all.
ghost use Rattle.std.specs.Prelude.{◌≡◌, ◌==◌, ◌<◌, ◌+◌, ◌++◌, [], ◌∷◌, IfErr, IfSome, OnOk, Some, length, remove, slice_get, slice_set};
ghost use Rattle.std.specs.Prelude.{if◌then◌else◌};
ghost use Rattle.std.specs.Option.{IsSomeAnd};
ghost use Rattle.am_simulation.specs.FlightKeys.{AreKeyed, IsEndTaken, IsEndOfKey, IsReported, next_time};
ghost use Rattle.am_simulation.specs.Next.{next_end, next_finish};

use crate::flight_keys::{EndKey, FlightKeys};
use crate::next::{End, Next, Step, earlier};
use crate::previewing::PreviewingBoard;
use crate::sending::{Sending, next_end_of, report_end};
use std::alloc::{AllocError, Global};
use std::collections::VecDeque;
use std::marker::Model;

/// The flushes whose notices are in flight, in the order of their begins.
pub(crate) struct Flights {
    list: VecDeque<Sending>,
    keys: FlightKeys,
}

impl Model for Flights {
    ghost use Rattle.std.specs.Prelude.{◌≡◌, true, List};
    ghost use Rattle.am_simulation.specs.FlightKeys.{AreKeyed};
    ghost use Rattle.am_simulation.specs.Scene.{SendingData};

    ghost Value = { List SendingData };

    ghost view = { λ f. f.list.items };

    ghost invariant = { λ f. f.keys.whole ≡ true → AreKeyed f.keys 0 f.keys.above f.list.items };
}

impl Flights {
    /// None.
    pub(crate) fn new(alloc: Global) -> Flights
        ensures { result ≡ [] }
    {
        Flights {
            list: VecDeque::new(alloc),
            keys: FlightKeys::new(alloc),
        }
    }

    pub(crate) fn is_empty(&self) -> bool
        ensures { result ≡ (length self.now == 0) }
    {
        self.list.is_empty()
    }

    /// Adds a flush. Where memory lacks, it is handed back.
    pub(crate) fn push(&mut self, sending: Sending) -> Result<(), Sending>
        ensures added { OnOk result (self.new ≡ self.old ++ sending ∷ []) }
        ensures back { IfErr result (λ back. back ≡ sending) }
    {
        let begin = sending.begin;
        let next = next_time(sending.ends.as_slice());
        match self.list.push_back(sending) {
            Ok(()) => {
                self.keys.add(begin, next);
                Ok(())
            }
            Err(refused) => Err(refused.value),
        }
    }

    /// Takes out the end at an index of the flush at a position.
    pub(crate) fn take_end(&mut self, position: usize, index: usize) -> End
        requires { IsSomeAnd (slice_get self.old position) (λ s. index < length s.ends) }
        ensures { IsSomeAnd (slice_get self.old position) (IsEndTaken self.old position index result self.new) }
    {
        let sending = &mut self.list[position];
        let begin = sending.begin;
        let from = next_time(sending.ends.as_slice());
        let end = sending.take_end(index);
        let to = next_time(sending.ends.as_slice());
        self.keys.change(begin, from, to);
        end
    }

    /// Records the end of a notice of the flush at a position, and notes a success.
    pub(crate) fn report(
        &mut self,
        alloc: Global,
        board: &mut PreviewingBoard,
        position: usize,
        end: End,
    ) -> Result<(), AllocError>
        requires { position < length self.old }
        ensures { OnOk result (IsSomeAnd (slice_get self.old position)
            (IsReported self.old board.old.board board.old.events.items position end self.new board.new.board board.new.events.items)) }
    {
        report_end(alloc, board, &mut self.list[position], end)
    }

    /// Takes out the flush at a position.
    pub(crate) fn remove(&mut self, position: usize) -> Sending
        requires { position < length self.old }
        ensures value { slice_get self.old position ≡ Some result }
        ensures items { self.new ≡ remove self.old position }
    {
        match self.list.remove(position) {
            None => unreachable!(),
            Some(sending) => {
                self.keys
                    .remove(sending.begin, next_time(sending.ends.as_slice()));
                sending
            }
        }
    }

    /// Returns the first end that is still to come of these flushes. Of one time the first flush comes
    /// first, and of one flush the first index.
    pub(crate) fn next_end(&self) -> Option<Next>
        ensures { result ≡ next_end 0 self.now }
    {
        if self.keys.whole {
            keyed_end(&self.list, &self.keys)
        } else {
            walk_ends(&self.list)
        }
    }

    /// Returns the finish, now, of the first of these flushes of which no end is to come.
    pub(crate) fn next_finish(&self, now: u64) -> Option<Next>
        ensures { result ≡ next_finish now 0 self.now }
    {
        if self.keys.whole {
            keyed_finish(&self.list, &self.keys, now)
        } else {
            walk_finishes(&self.list, now)
        }
    }

    /// Ends the list, which is empty.
    pub(crate) fn destroy_empty(self)
        requires { length self ≡ 0 }
    {
        let Flights { list, keys: _ } = self;
        list.destroy_empty();
    }
}

/// The time of the first of these ends, in milliseconds.
fn next_time(ends: &[End]) -> Option<u64>
    ensures { result ≡ next_time ends.now }
{
    match next_end_of(0, 0, ends) {
        None => None,
        Some(next) => Some(next.at),
    }
}

/// The first end that is still to come, found by the first key.
fn keyed_end(list: &VecDeque<Sending>, keys: &FlightKeys) -> Option<Next>
    requires { AreKeyed keys.now 0 keys.now.above list.now.items }
    ensures { result ≡ next_end 0 list.now.items }
{
    match keys.first_end() {
        None => None,
        Some(key) => match end_of_key(list, key) {
            None => walk_ends(list),
            Some(next) => Some(next),
        },
    }
}

/// The finish of the first flush of which no end is to come, found by the first key.
fn keyed_finish(list: &VecDeque<Sending>, keys: &FlightKeys, now: u64) -> Option<Next>
    requires { AreKeyed keys.now 0 keys.now.above list.now.items }
    ensures { result ≡ next_finish now 0 list.now.items }
{
    match keys.first_ready() {
        None => None,
        Some(begin) => match find_ready(list, begin) {
            None => walk_finishes(list, now),
            Some(position) => Some(Next {
                at: now,
                what: Step::Finish(position),
            }),
        },
    }
}

/// The first end that is still to come, found by a walk.
fn walk_ends(list: &VecDeque<Sending>) -> Option<Next>
    ensures { result ≡ next_end 0 list.now.items }
{
    let mut first = None;
    for position in 0..list.len() {
        first = earlier(
            first,
            next_end_of(position, 0, list[position].ends.as_slice()),
        );
    }
    first
}

/// The finish of the first flush of which no end is to come, found by a walk.
fn walk_finishes(list: &VecDeque<Sending>, now: u64) -> Option<Next>
    ensures { result ≡ next_finish now 0 list.now.items }
{
    for position in 0..list.len() {
        if list[position].ends.is_empty() {
            return Some(Next {
                at: now,
                what: Step::Finish(position),
            });
        }
    }
    None
}

/// The next end of the flush of a key, if it comes at the key's time.
fn end_of_key(list: &VecDeque<Sending>, key: EndKey) -> Option<Next>
    ensures { IfSome result (IsEndOfKey list.now.items key) }
{
    let position = find(list, key.begin)?;
    let next = next_end_of(position, 0, list[position].ends.as_slice())?;
    if next.at == key.at { Some(next) } else { None }
}

/// The position of the flush of this begin, if no end of it is to come.
fn find_ready(list: &VecDeque<Sending>, begin: u32) -> Option<usize>
    ensures { IfSome result (λ position. IsSomeAnd (slice_get list.now.items position)
        (λ s. (s.begin ≡ begin) × (s.ends ≡ []))) }
{
    let position = find(list, begin)?;
    if list[position].ends.is_empty() {
        Some(position)
    } else {
        None
    }
}

/// A position of the flush of this begin, if a search by halves comes to one. Begins rise.
fn find(list: &VecDeque<Sending>, begin: u32) -> Option<usize>
    ensures { IfSome result (λ position. IsSomeAnd (slice_get list.now.items position) (λ s. s.begin ≡ begin)) }
{
    let mut low = 0;
    let mut high = list.len();
    while low < high {
        let middle = low + (high - low) / 2;
        let found = list[middle].begin;
        if found == begin {
            return Some(middle);
        }
        if found < begin {
            low = middle + 1;
        } else {
            high = middle;
        }
    }
    None
}
