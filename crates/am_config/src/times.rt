//! The names of definitions that routes list, and when routes are muted by them.
//!
//! Where there are clocks each name's spans are found once, and routes that list the same names share
//! theirs.
ghost use Rattle.std.specs.Prelude.{◌≡◌, ◌<◌, [], IfOk, IsSomeAnd, IsTrue, OnOk, length};
ghost use Rattle.std.specs.Option.{option_copied};
ghost use Rattle.serde_json.specs.View.{members_view, view};
ghost use Rattle.am_json.specs.Decoding.{IsList};
ghost use Rattle.am_config.specs.Collects.{Collects};
ghost use Rattle.am_config.specs.Said.{SaysOr};
ghost use Rattle.am_config.specs.Times.{HasMuted, HasTimes, IsFoundAt, IsIndexOf, MutedAt, lists_key};

use crate::collected::keep;
use crate::definitions::{Defined, MAX_DEFINITIONS, kept_spans};
use crate::hours::Hours;
use crate::optional::{items_up_to, non_null};
use crate::scalar::text_of;
use am_alerts::spans::Spans;
use am_hours::fault::HoursFault;
use am_json::fault::{FaultKind, InputFault};
use am_json::faults::Faults;
use am_json::reader::{Object, Reader};
use serde_json::Value;
use std::alloc::{AllocError, Global};
use std::collections::HashMap;
use std::marker::Model;

/// The members at the top that define names, and a route's list of names that mute it.
pub(crate) const LISTS: [&str; 2] = [MUTE, INTERVALS];

/// A route's list of names that mute it, and the old list of definitions.
pub(crate) const MUTE: &str = "mute_time_intervals";

/// A route's list of names in which it is active.
pub(crate) const ACTIVE: &str = "active_time_intervals";

/// The list of definitions, and in each of them that of its intervals.
pub(crate) const INTERVALS: &str = "time_intervals";

/// The zone of an interval.
pub(crate) const LOCATION: &str = "location";

/// The location that represents the zone of the machine.
pub(crate) const LOCAL: &str = "Local";

/// The definitions of a configuration, and what routes list of them. Contracts see the definitions.
#[derive(Drop)]
pub(crate) struct Times<'h> {
    defined: Defined<'h>,
    /// Whether a route lists the definition at an index.
    listed: Vec<bool>,
    /// The spans of routes, by the names that they list (`lists_key`).
    given: HashMap<Vec<usize>, Spans>,
}

impl<'h> Model for Times<'h> {
    ghost use Rattle.am_config.specs.Indexes.{AreGiven};
    ghost use Rattle.am_config.specs.Times.{TimesData};

    ghost Value = { TimesData };

    ghost view = { λ t. t.defined };

    ghost invariant = { λ t. AreGiven t.defined t.given };
}

impl<'h> Times<'h> {
    /// Reads the definitions. Without `hours` they have no spans.
    pub(crate) fn read(
        faults: &mut Faults,
        top: &Object<'_, '_>,
        hours: Option<&'h Hours>,
    ) -> Result<Times<'h>, InputFault>
        ensures { IfOk result (λ times. Collects faults.old faults.new
            (HasTimes (option_copied hours.entry) (members_view top.now.members) times)) }
    {
        let defined = Defined::read(faults, top, hours)?;
        let mut listed = Vec::new(top.alloc());
        for _ in 0..defined.len() {
            listed.push(false)?;
        }
        Ok(Times {
            defined,
            listed,
            given: HashMap::new(top.alloc()),
        })
    }

    /// Whether a route lists a name.
    pub(crate) fn is_listed(&self) -> bool {
        self.listed.iter().any(|is_listed| *is_listed)
    }

    /// Whether there is a name that no route lists.
    pub(crate) fn has_unlisted(&self) -> bool {
        self.listed.iter().any(|is_listed| !*is_listed)
    }

    /// Reads the names that a route lists, and finds the spans in which it is muted. Too many are refused
    /// at the list that mutes it, or at the other where it has no such list.
    pub(crate) fn read_muted(
        &mut self,
        faults: &mut Faults,
        route: &Object<'_, '_>,
    ) -> Result<Spans, InputFault>
        ensures times { OnOk result (self.new ≡ self.old) }
        ensures muted { IfOk result (λ spans. Collects faults.old faults.new
            (HasMuted self.old (members_view route.now.members) spans)) }
    {
        let mute = self.read_names(faults, route, MUTE)?;
        let active = self.read_names(faults, route, ACTIVE)?;
        let muted = self.muted_in(faults, route, &mute, &active)?;
        Ok(muted)
    }

    /// The spans in which a route with these lists is muted. Too many are refused at the first list that
    /// has a name.
    fn muted_in(
        &mut self,
        faults: &mut Faults,
        route: &Object<'_, '_>,
        mute: &[usize],
        active: &[usize],
    ) -> Result<Spans, InputFault>
        ensures times { OnOk result (self.new ≡ self.old) }
        ensures muted { IfOk result (λ spans. Collects faults.old faults.new (MutedAt self.old mute.now active.now spans)) }
    {
        if are_empty(mute, active) {
            return Ok(Spans::none());
        }
        let muted = self.muted_by(route.alloc(), mute, active);
        let list = route.required(first_list(mute))?;
        let kept = kept_spans(faults, &list, muted)?;
        Ok(kept)
    }

    /// Reads a route's list of names. One that nobody defines is refused.
    fn read_names(
        &mut self,
        faults: &mut Faults,
        route: &Object<'_, '_>,
        name: &str,
    ) -> Result<Vec<usize>, InputFault>
        ensures times { OnOk result (self.new ≡ self.old) }
        ensures names { IfOk result (λ indexes. Collects faults.old faults.new
            (SaysOr (IsList (IsIndexOf self.old.named)) [] name.now (members_view route.now.members) indexes.items)) }
    {
        let mut indexes = Vec::new(route.alloc());
        let Some(member) = non_null(route, name) else {
            return Ok(indexes);
        };
        let Some(items) = items_up_to(faults, &member, MAX_DEFINITIONS)? else {
            return Ok(indexes);
        };
        for (index, value) in items.iter().enumerate() {
            let item = member.item(index, value);
            let Some(found) = self.read_listed(faults, &item, value)? else {
                continue;
            };
            indexes.push(found)?;
        }
        Ok(indexes)
    }

    /// Reads a name that a route lists. One that nobody defines is refused.
    fn read_listed(
        &mut self,
        faults: &mut Faults,
        item: &Reader<'_, '_>,
        value: &Value,
    ) -> Result<Option<usize>, InputFault>
        ensures times { OnOk result (self.new ≡ self.old) }
        ensures index { IfOk result (λ index. Collects faults.old faults.new
            (IsSomeAnd index (IsIndexOf self.old.named (view value.now)))) }
    {
        let Some(name) = keep(faults, text_of(item, value))? else {
            return Ok(None);
        };
        match self.list(name.as_str()) {
            Some(found) => Ok(Some(found)),
            None => {
                self.refuse_unlisted(faults, item)?;
                Ok(None)
            }
        }
    }

    /// Refuses a name that nobody defines, unless a definition's name couldn't be read. Behind it there is
    /// a fault.
    fn refuse_unlisted(&self, faults: &mut Faults, item: &Reader<'_, '_>) -> Result<(), InputFault>
        ensures { OnOk result (0 < length faults.new) }
    {
        if !self.defined.are_listed() && faults.len() > 0 {
            return Ok(());
        }
        faults.push(item.refuse(FaultKind::BadValue))
    }

    /// The index of a definition that a route lists.
    fn list(&mut self, name: &str) -> Option<usize>
        ensures times { self.new ≡ self.old }
        ensures index { IsFoundAt self.old.named name.now result }
    {
        let index = self.defined.index_of(name)?;
        if let Some(is_listed) = self.listed.get_mut(index) {
            *is_listed = true;
        }
        Some(index)
    }

    /// The spans of a route with these names, which those before it share that have the same.
    fn muted_by(
        &mut self,
        alloc: Global,
        mute: &[usize],
        active: &[usize],
    ) -> Result<Spans, HoursFault>
        ensures times { self.new ≡ self.old }
        ensures muted { IfOk result (MutedAt self.old mute.now active.now) }
    {
        let key = lists_key(alloc, mute, active)?;
        if let Some(muted) = self.given.get(&key) {
            return Ok(muted.share()?);
        }
        let muted = self.defined.muted_by(alloc, mute, active)?;
        let shared = muted.share()?;
        self.given
            .insert(key, muted)
            .map_err(|_| HoursFault::NoMemory)?;
        Ok(shared)
    }
}

/// Whether neither list has a name.
fn are_empty(mute: &[usize], active: &[usize]) -> bool
    ensures { IsTrue result → (mute.now ≡ []) × (active.now ≡ []) }
{
    if mute.is_empty() {
        return active.is_empty();
    }
    false
}

/// The first list of a route that has a name, where the one that mutes has these.
fn first_list(mute: &[usize]) -> &'static str {
    if mute.is_empty() { ACTIVE } else { MUTE }
}

/// The key of a route's lists of names, each by the index of its definition: how many the first has,
/// and then both.
fn lists_key(alloc: Global, mute: &[usize], active: &[usize]) -> Result<Vec<usize>, AllocError>
    ensures { IfOk result (λ key. key.items ≡ lists_key mute.now active.now) }
{
    let mut key = Vec::new(alloc);
    key.push(mute.len())?;
    key.extend_from_slice(mute)?;
    key.extend_from_slice(active)?;
    Ok(key)
}
