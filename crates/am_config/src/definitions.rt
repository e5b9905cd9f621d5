//! The definitions of time intervals: their names, and the spans in which they hold.
//!
//! The old list `mute_time_intervals` is read first. The names of both are one set.
ghost use Rattle.std.specs.Prelude.{◌≡◌, ◌≢◌, ◌++◌, [], ◌∷◌, None, Ok, IfOk, IfSome, IsSomeAnd, OnOk, codes, false, length, map};
ghost use Rattle.std.specs.Option.{option_copied};
ghost use Rattle.serde_json.specs.View.{items_view, members_view, view};
ghost use Rattle.am_alerts.specs.Labels.{has_text_twice};
ghost use Rattle.am_json.specs.Decoding.{DecodeEach, IsList, IsObject};
ghost use Rattle.am_config.specs.Collects.{Adds, Collects};
ghost use Rattle.am_config.specs.Said.{IsScalar, Says};
ghost use Rattle.am_config.specs.Times.{HasDefinition, HasDefinitions, HasSpans, HasTimes, IsDefined, IsFoundAt, IsHeld, IsPlaced};
ghost use Rattle.am_config.specs.Times.{MutedAt, named_among, spans_at};

use crate::clocks::{Clocks, Placed, expand};
use crate::collected::{keep, only};
use crate::hours::Hours;
use crate::intervals::read_interval;
use crate::optional::{items_up_to, non_null};
use crate::scalar::required_text;
use crate::times::{INTERVALS, MUTE};
use am_alerts::spans::Spans;
use am_alerts::text::Text;
use am_hours::fault::HoursFault;
use am_hours::muting::muted;
use am_json::fault::{FaultKind, InputFault};
use am_json::faults::Faults;
use am_json::reader::{Object, Reader};
use serde_json::Value;
use std::alloc::Global;
use std::collections::HashMap;
use std::marker::Model;

/// The members of a definition.
const DEFINITION: [&str; 2] = ["name", INTERVALS];

/// How many names there can be.
pub(crate) const MAX_DEFINITIONS: usize = 1_024;

/// How many intervals a name may have.
const MAX_INTERVALS: usize = 32;

/// A name, and the spans in which one of its intervals holds.
#[derive(Drop)]
pub(crate) struct NamedSpans {
    pub(crate) name: Text,
    pub(crate) spans: Spans,
}

/// The definitions of a configuration. Contracts see them and their clocks.
#[derive(Drop)]
pub(crate) struct Defined<'h> {
    /// None where nobody asks for spans.
    clocks: Option<Clocks<'h>>,
    list: Vec<NamedSpans>,
    /// The index of each definition, by its name.
    indexes: HashMap<String, usize>,
    /// Whether each definition's name could be read.
    are_listed: bool,
}

impl<'h> Model for Defined<'h> {
    ghost use Rattle.am_config.specs.Indexes.{AreIndexed};
    ghost use Rattle.am_config.specs.Times.{TimesData};

    ghost Value = { TimesData };

    ghost view = { λ d. record { hours = d.clocks; named = d.list.items } };

    ghost invariant = { λ d. AreIndexed d.list.items d.indexes };
}

impl<'h> Defined<'h> {
    /// Reads the definitions. Without `hours` they have no spans.
    pub(crate) fn read(
        faults: &mut Faults,
        top: &Object<'_, '_>,
        hours: Option<&'h Hours>,
    ) -> Result<Defined<'h>, InputFault>
        ensures { IfOk result (λ defined. Collects faults.old faults.new
            (HasTimes (option_copied hours.entry) (members_view top.now.members) defined)) }
    {
        let mut defined = Defined::none(top.alloc(), hours);
        defined.read_member(faults, top, MUTE)?;
        defined.read_member(faults, top, INTERVALS)?;
        defined.check_once();
        Ok(defined)
    }

    /// No definitions.
    fn none(alloc: Global, hours: Option<&'h Hours>) -> Defined<'h>
        ensures hours { result.hours ≡ option_copied hours.entry }
        ensures none { result.named ≡ [] }
    {
        Defined {
            clocks: clocks_of(alloc, hours),
            list: Vec::new(alloc),
            indexes: HashMap::new(alloc),
            are_listed: true,
        }
    }

    /// Does nothing. Contracts learn that each name is once.
    fn check_once(&self)
        ensures { has_text_twice (map (λ d. d.name) self.now.named) ≡ false }
    {
        let _ = &self.list;
    }

    /// How many definitions there are.
    pub(crate) fn len(&self) -> usize
        ensures { result ≡ length self.now.named }
    {
        self.list.len()
    }

    /// Whether each definition's name could be read.
    pub(crate) fn are_listed(&self) -> bool {
        self.are_listed
    }

    /// The index of the definition of a name.
    pub(crate) fn index_of(&self, name: &str) -> Option<usize>
        ensures { IsFoundAt self.now.named name.now result }
    {
        self.indexes.get(name).copied()
    }

    fn read_member(
        &mut self,
        faults: &mut Faults,
        top: &Object<'_, '_>,
        name: &str,
    ) -> Result<(), InputFault>
        ensures hours { OnOk result (self.new.hours ≡ self.old.hours) }
        ensures added { OnOk result (Collects faults.old faults.new (Adds self.old.named self.new.named
            (HasDefinitions self.old.hours name.now (members_view top.now.members)))) }
    {
        match non_null(top, name) {
            None => Ok(()),
            Some(member) => self.read_list(faults, &member),
        }
    }

    fn read_list(&mut self, faults: &mut Faults, member: &Reader<'_, '_>) -> Result<(), InputFault>
        ensures hours { OnOk result (self.new.hours ≡ self.old.hours) }
        ensures added { OnOk result (Collects faults.old faults.new (Adds self.old.named self.new.named
            (IsList (IsObject (HasDefinition self.old.hours)) (view member.now.value)))) }
    {
        let most = MAX_DEFINITIONS.saturating_sub(self.len());
        let Some(items) = items_up_to(faults, member, most)? else {
            self.are_listed = false;
            return Ok(());
        };
        for (index, value) in items.iter().enumerate() {
            let item = member.item(index, value);
            self.read_definition(faults, &item)?;
        }
        Ok(())
    }

    /// Reads a definition, and adds it if its name could be read.
    fn read_definition(
        &mut self,
        faults: &mut Faults,
        reader: &Reader<'_, '_>,
    ) -> Result<(), InputFault>
        ensures hours { OnOk result (self.new.hours ≡ self.old.hours) }
        ensures added { OnOk result (Collects faults.old faults.new
            (IsDefined self.old self.new (view reader.now.value))) }
    {
        let Some(definition) = keep(faults, reader.object())? else {
            self.are_listed = false;
            return Ok(());
        };
        only(faults, &definition, &DEFINITION)?;
        let name = self.read_name(faults, &definition)?;
        let spans = self.read_spans(faults, &definition)?;
        let Some(name) = name else {
            return Ok(());
        };
        self.add(definition.alloc(), name, spans)?;
        Ok(())
    }

    /// Adds a definition whose name there isn't yet.
    fn add(&mut self, alloc: Global, name: Text, spans: Spans) -> Result<(), InputFault>
        requires { named_among name self.old.named ≡ None }
        ensures hours { OnOk result (self.new.hours ≡ self.old.hours) }
        ensures added { OnOk result (self.new.named ≡ self.old.named ++ (record { name = name; spans = spans }) ∷ []) }
    {
        let key = String::from_str(alloc, name.as_str())?;
        self.list.reserve(1)?;
        self.indexes.insert(key, self.list.len())?;
        self.list.push(NamedSpans { name, spans })?;
        Ok(())
    }

    /// Reads the name of a definition. The empty one, or one that there is, is refused.
    fn read_name(
        &mut self,
        faults: &mut Faults,
        definition: &Object<'_, '_>,
    ) -> Result<Option<Text>, InputFault>
        ensures same { OnOk result (self.new ≡ self.old) }
        ensures new { IfOk result (λ name. IfSome name (λ n. named_among n self.old.named ≡ None)) }
        ensures name { IfOk result (λ name. Collects faults.old faults.new
            (IsSomeAnd name (λ n. Says IsScalar (codes "name") (members_view definition.now.members) n × (n ≢ [])))) }
    {
        let Some(name) = keep(faults, required_text(definition, "name"))? else {
            self.are_listed = false;
            return Ok(None);
        };
        if name.as_str().is_empty() || self.index_of(name.as_str()).is_some() {
            faults.push(definition.required("name")?.refuse(FaultKind::BadValue))?;
            return Ok(None);
        }
        Ok(Some(name))
    }

    /// Reads the intervals of a definition, and finds the spans in which one of them holds. Too many spans
    /// are refused at the list.
    fn read_spans(
        &mut self,
        faults: &mut Faults,
        definition: &Object<'_, '_>,
    ) -> Result<Spans, InputFault>
        ensures same { OnOk result (self.new ≡ self.old) }
        ensures spans { IfOk result (λ spans. Collects faults.old faults.new
            (HasSpans self.old.hours (members_view definition.now.members) spans)) }
    {
        match non_null(definition, INTERVALS) {
            None => Ok(Spans::none()),
            Some(member) => spans_in(faults, &mut self.clocks, &member),
        }
    }

    /// The spans in which a route is muted that lists the definitions at these indexes.
    pub(crate) fn muted_by(
        &self,
        alloc: Global,
        mute: &[usize],
        active: &[usize],
    ) -> Result<Spans, HoursFault>
        ensures { IfOk result (MutedAt self.now mute.now active.now) }
    {
        let Some(clocks) = &self.clocks else {
            return Ok(Spans::none());
        };
        let muting = spans_at(alloc, &self.list, mute)?;
        let acting = spans_at(alloc, &self.list, active)?;
        let spans = muted(alloc, clocks.horizon(), &muting, &acting)?;
        clocks.in_time(alloc, spans)
    }
}

/// The clocks of these hours, if there are such.
fn clocks_of<'h>(alloc: Global, hours: Option<&'h Hours>) -> Option<Clocks<'h>>
    ensures { result ≡ option_copied hours.entry }
{
    match hours {
        None => None,
        Some(hours) => Some(Clocks::new(alloc, hours)),
    }
}

/// The spans of the definitions at these indexes.
fn spans_at<'d>(
    alloc: Global,
    named: &'d [NamedSpans],
    indexes: &[usize],
) -> Result<Vec<&'d Spans>, HoursFault>
    ensures { IfOk result (λ spans. map (λ s. s.now) spans.items ≡ spans_at named.now indexes.now) }
{
    let mut spans = Vec::new(alloc);
    for index in indexes {
        let Some(definition) = named.get(*index) else {
            continue;
        };
        spans
            .push(&definition.spans)
            .map_err(|_| HoursFault::NoMemory)?;
    }
    Ok(spans)
}

/// Reads the intervals in an array, and finds the spans in which one of them holds. Too many spans are
/// refused at the array.
fn spans_in(
    faults: &mut Faults,
    clocks: &mut Option<Clocks<'_>>,
    member: &Reader<'_, '_>,
) -> Result<Spans, InputFault>
    ensures hours { OnOk result (clocks.new ≡ clocks.old) }
    ensures spans { IfOk result (λ spans. Collects faults.old faults.new (IsHeld clocks.old (view member.now.value) spans)) }
{
    let Some(items) = items_up_to(faults, member, MAX_INTERVALS)? else {
        return Ok(Spans::none());
    };
    let placed = read_placed(faults, clocks, member, items)?;
    let spans = expand(member.alloc(), placed.as_slice());
    let kept = kept_spans(faults, member, spans)?;
    Ok(kept)
}

/// Reads the intervals of an array, each with its clock.
fn read_placed<'v>(
    faults: &mut Faults,
    clocks: &mut Option<Clocks<'_>>,
    member: &Reader<'v, '_>,
    items: &'v [Value],
) -> Result<Vec<Placed>, InputFault>
    ensures hours { OnOk result (clocks.new ≡ clocks.old) }
    ensures placed { IfOk result (λ placed. Collects faults.old faults.new
        (DecodeEach (IsPlaced clocks.old) (items_view items.now) placed.items)) }
{
    let mut placed = Vec::new(member.alloc());
    for (index, value) in items.iter().enumerate() {
        let item = member.item(index, value);
        let Some(read) = read_interval(faults, clocks, &item)? else {
            continue;
        };
        placed.push(read)?;
    }
    Ok(placed)
}

/// These spans; where there are too many this value is refused.
pub(crate) fn kept_spans(
    faults: &mut Faults,
    reader: &Reader<'_, '_>,
    spans: Result<Spans, HoursFault>,
) -> Result<Spans, InputFault>
    ensures { IfOk result (λ kept. Collects faults.old faults.new (spans ≡ Ok kept)) }
{
    match spans {
        Ok(spans) => Ok(spans),
        Err(HoursFault::NoMemory) => Err(InputFault::NoMemory),
        Err(_) => {
            faults.push(reader.refuse(FaultKind::BadValue))?;
            Ok(Spans::none())
        }
    }
}
