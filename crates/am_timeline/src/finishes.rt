//! `Finishes`: a history with the places of its finishes.
//!
//! Invariant: each number has the place of the first finish of its flush.
ghost use Rattle.std.specs.Prelude.{◌≡◌, ◌+◌, ℕ, IfOk, OnOk, Some, drop, if◌then◌else◌};
ghost use Rattle.std.specs.HashMap.{get};
ghost use Rattle.std.specs.Prelude.{nat_eq};
ghost use Rattle.am_model.specs.Outcomes.{outcomes_in};
ghost use Rattle.am_timeline.specs.Finishes.{first_finish, is_finish_of};

use crate::playback::later_than;
use am_model::outcome::outcomes_in;
use am_model::record::{Call, Record};
use am_retry::Outcome;
use am_seed::Seed;
use std::alloc::{AllocError, Global};
use std::collections::HashMap;
use std::marker::Model;

/// A history with the places of its finishes. Contracts see the history.
#[derive(Drop)]
pub struct Finishes<'s> {
    history: &'s [Record],
    /// The place of the first finish of each number.
    places: HashMap<u64, usize, Seed>,
}

impl<'s> Model for Finishes<'s> {
    ghost use Rattle.std.specs.Prelude.{◌≡◌, ℕ, List, nat_eq};
    ghost use Rattle.std.specs.HashMap.{get};
    ghost use Rattle.am_model.specs.declared.record.Record as recorded;
    ghost use Rattle.am_timeline.specs.Finishes.{first_finish};

    ghost Value = { List recorded.Record };

    ghost view = { λ f. f.history.now };

    ghost invariant = { λ f. (number : ℕ) → get nat_eq f.places number ≡ first_finish number 0 f.history.now };
}

impl<'s> Finishes<'s> {
    /// Returns the finishes of a history. Cost: the history.
    ///
    /// Hashes start from the seed.
    pub fn of(alloc: Global, seed: Seed, history: &'s [Record]) -> Result<Finishes<'s>, AllocError>
        ensures { IfOk result (λ finishes. finishes ≡ history.now) }
    {
        let places = first_places(alloc, seed, history)?;
        Ok(Finishes { history, places })
    }

    /// Returns the outcomes with which the flush of this number is finished after the record at an index; none where it isn't.
    ///
    /// Cost: one look-up, unless the flush of this number is finished up to that record too. No board does that.
    pub fn outcomes_after(&self, number: u64, index: usize) -> &'s [(u32, Outcome)]
        ensures { result.now ≡ outcomes_in number (drop (index + 1) self.now) }
    {
        match self.places.get(&number) {
            None => &[],
            Some(place) => {
                if index < *place {
                    outcomes_in(number, records_from(self.history, *place))
                } else {
                    outcomes_in(number, later_than(self.history, index))
                }
            }
        }
    }
}

/// The records from a place on.
fn records_from(history: &[Record], place: usize) -> &[Record]
    ensures { result.now ≡ drop place history.now }
{
    if place < history.len() {
        &history[place..]
    } else {
        &[]
    }
}

/// The place of the first finish of each number.
fn first_places(
    alloc: Global,
    seed: Seed,
    history: &[Record],
) -> Result<HashMap<u64, usize, Seed>, AllocError>
    ensures { IfOk result (λ places. (number : ℕ) → get nat_eq places number ≡ first_finish number 0 history.now) }
{
    let mut places = HashMap::with_hasher(alloc, seed);
    for index in (0..history.len()).rev() {
        add_place(&history[index].call, index, &mut places)?;
    }
    Ok(places)
}

/// Adds the place of a call, if it is a finish. The places that are there come after it.
fn add_place(
    call: &Call,
    place: usize,
    places: &mut HashMap<u64, usize, Seed>,
) -> Result<(), AllocError>
    ensures { OnOk result ((number : ℕ) → get nat_eq places.new number
        ≡ (if is_finish_of number call.now then Some place else get nat_eq places.old number)) }
{
    if let Call::Finish { number, .. } = call {
        places.insert(*number, place)?;
    }
    Ok(())
}
