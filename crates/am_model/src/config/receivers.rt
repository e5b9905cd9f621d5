//! The receivers of a configuration: a list, and a map from each name to its place. Contracts see
//! the list. A receiver is found in the time of one look-up, however many there are.
//!
//! Invariant: the map has the first place of each name, and it is known whether a name is twice.
ghost use Rattle.std.specs.Prelude.{◌≡◌, IfOk, find, length};
ghost use Rattle.std.specs.Option.{option_copied};
ghost use Rattle.std.specs.Str.{bytes_eq};
ghost use Rattle.am_model.specs.Receivers.{has_receiver, has_receiver_twice};

use crate::config::Receiver;
use std::alloc::{AllocError, Global};
use std::collections::HashMap;
use std::marker::Model;

/// The receivers of a configuration, in their order.
#[derive(Debug, Drop)]
pub struct Receivers {
    list: Vec<Receiver>,
    /// The place of the first receiver of each name.
    places: HashMap<String, usize>,
    /// Whether two receivers have one name.
    twice: bool,
}

impl Model for Receivers {
    ghost use Rattle.std.specs.Prelude.{◌≡◌, List};
    ghost use Rattle.am_model.specs.Receivers.{ArePlaced, has_receiver_twice};
    ghost use Rattle.am_model.specs.declared.config.Receiver.{Receiver};

    ghost Value = { List Receiver };

    ghost view = { λ r. r.list.items };

    ghost invariant = { λ r. ArePlaced 0 r.list.items r.places × (r.twice ≡ has_receiver_twice r.list.items) };
}

impl Receivers {
    /// Returns these receivers, which may have a name twice.
    ///
    /// # Errors
    ///
    /// `AllocError`: out of memory.
    pub fn new(alloc: Global, list: Vec<Receiver>) -> Result<Receivers, AllocError>
        ensures { IfOk result (λ receivers. receivers ≡ list.items) }
    {
        let mut places = HashMap::new(alloc);
        let mut twice = false;
        for i in 0..list.len() {
            let place = list.len() - 1 - i;
            let name = String::from_str(alloc, list[place].name.as_str())?;
            if places.insert(name, place)?.is_some() {
                twice = true;
            }
        }
        Ok(Receivers {
            list,
            places,
            twice,
        })
    }

    /// Returns the receivers, in their order.
    pub fn as_slice(&self) -> &[Receiver]
        ensures { result.now ≡ self.now }
    {
        self.list.as_slice()
    }

    /// Returns how many there are.
    pub fn len(&self) -> usize
        ensures { result ≡ length self.now }
    {
        self.list.len()
    }

    /// Returns the first receiver of this name, if there is one.
    pub fn named(&self, name: &str) -> Option<&Receiver>
        ensures { option_copied result ≡ find (λ r. bytes_eq r.name name.now) self.now }
    {
        match self.places.get(name) {
            None => None,
            Some(place) => self.list.get(*place),
        }
    }

    /// Returns whether there is a receiver of this name.
    pub fn has(&self, name: &str) -> bool
        ensures { result ≡ has_receiver self.now name.now }
    {
        self.places.contains_key(name)
    }

    /// Returns whether two receivers have one name.
    pub fn has_twice(&self) -> bool
        ensures { result ≡ has_receiver_twice self.now }
    {
        self.twice
    }
}
