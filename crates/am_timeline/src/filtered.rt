//! The events of a rehearsal that concern a receiver, a route or some alerts.
//! No text of a line and no run changes; only events are left out.
ghost use Rattle.std.specs.Prelude.{◌≡◌, ◌==◌, ◌≤◌, ◌&&◌, ◌||◌, IfOk, IsTrue, OnOk, filter, length};
ghost use Rattle.std.specs.HashSet.{contains};
ghost use Rattle.am_alerts.specs.RoutingTree.{last_of};
ghost use Rattle.am_model.specs.Insert.{name_in};
ghost use Rattle.am_model.specs.look_back.Entry.{alert_in};
ghost use Rattle.am_model.specs.look_back.Presence.{goes_to};
ghost use Rattle.am_model.specs.State.{same_name};
ghost use Rattle.am_model.specs.declared.group.GroupName as named;
ghost use Rattle.am_timeline.specs.Filtered.{FindsMatches, brings, concerns, has_match, is_named, is_of, is_wanted, is_wanted_at};
ghost use Rattle.am_timeline.specs.Filtered.{insert_of, inserted_in, left_of, names_nothing};

use crate::playback::Playback;
use am_alerts::alert::Alert;
use am_alerts::labels::Labels;
use am_alerts::matcher::Matcher;
use am_alerts::route::Route;
use am_alerts::searchers::Searchers;
use am_alerts::sequence::Sequence;
use am_alerts::text::Text;
use am_model::config::Config;
use am_model::group::GroupName;
use am_model::record::{Call, Record};
use am_seed::Seed;
use am_terms::event::Event;
use std::alloc::{AllocError, Global};
use std::collections::HashSet;

/// What the lines of a timeline are to concern. What isn't named leaves nothing out.
#[derive(Drop)]
pub struct Filter {
    /// The name of a receiver.
    pub receiver: Option<Text>,
    /// The name of a route.
    pub route: Option<Text>,
    /// Matchers of one alert: the groups of each alert that all of them match.
    pub matchers: Sequence<Matcher>,
}

impl Filter {
    /// Returns the filter that names nothing. Never allocates.
    pub fn nothing(alloc: Global) -> Filter
        ensures { IsTrue (names_nothing result) }
    {
        Filter {
            receiver: None,
            route: None,
            matchers: Sequence::empty(alloc),
        }
    }

    /// Returns whether this filter names nothing.
    pub fn is_empty(&self) -> bool
        ensures { result ≡ names_nothing self.now }
    {
        self.receiver.is_none() && self.route.is_none() && self.matchers.len() == 0
    }
}

/// Which events of a playback are left.
#[derive(Drop)]
pub enum Selection {
    /// All of them, as they are: nobody copied them.
    All,
    /// These, in their order.
    Only(Vec<Event>),
}

impl Selection {
    /// Returns those that are left of these events.
    pub fn of<'s>(&'s self, events: &'s [Event]) -> &'s [Event]
        ensures { result.now ≡ left_of self.now events.now }
    {
        match self {
            Selection::All => events,
            Selection::Only(left) => left.as_slice(),
        }
    }
}

/// Returns the events of the groups that a filter wants, in their order. A filter that names nothing takes no memory.
///
/// A filter with matchers wants the groups that an inserted alert goes to which all of them match. Cost: the events; with
/// matchers also the inserts of the history, and the routes of those that match.
pub fn filtered_events(
    alloc: Global,
    playback: &Playback<'_>,
    wanted: &Filter,
) -> Result<Selection, AllocError>
    ensures { IfOk result (λ events. left_of events playback.now.events
        ≡ filter (concerns playback.now wanted.now) playback.now.events) }
{
    if wanted.is_empty() {
        return Ok(Selection::All);
    }
    let groups = groups_of_matches(alloc, playback, wanted.matchers.as_slice())?;
    let left = wanted_events(alloc, playback, wanted, &groups, playback.events)?;
    Ok(Selection::Only(left))
}

/// Those of these events that are of groups that are wanted.
fn wanted_events(
    alloc: Global,
    playback: &Playback<'_>,
    wanted: &Filter,
    groups: &HashSet<GroupName, Seed>,
    events: &[Event],
) -> Result<Vec<Event>, AllocError>
    requires { FindsMatches playback.now.config (inserted_in playback.now.history) wanted.now.matchers (contains same_name groups.now) }
    ensures { IfOk result (λ kept. kept.items ≡ filter (concerns playback.now wanted.now) events.now) }
{
    let mut kept = Vec::new(alloc);
    for event in events {
        if concerns(playback, wanted, groups, event) {
            kept.push(event.copy(alloc)?)?;
        }
    }
    Ok(kept)
}

/// Whether an event is of a group that is wanted.
fn concerns(
    playback: &Playback<'_>,
    wanted: &Filter,
    groups: &HashSet<GroupName, Seed>,
    event: &Event,
) -> bool
    requires { FindsMatches playback.now.config (inserted_in playback.now.history) wanted.now.matchers (contains same_name groups.now) }
    ensures { result ≡ concerns playback.now wanted.now event.now }
{
    match event {
        Event::Begun { begin } => is_wanted_at(playback, wanted, groups, *begin as usize),
        Event::Sent { begin, .. } => is_wanted_at(playback, wanted, groups, *begin as usize),
    }
}

/// Whether the begin at a position is of a group that is wanted.
fn is_wanted_at(
    playback: &Playback<'_>,
    wanted: &Filter,
    groups: &HashSet<GroupName, Seed>,
    position: usize,
) -> bool
    requires { FindsMatches playback.now.config (inserted_in playback.now.history) wanted.now.matchers (contains same_name groups.now) }
    ensures { result ≡ is_wanted_at playback.now wanted.now position }
{
    match playback.begins.get(position) {
        None => true,
        Some(begin) => is_wanted(playback, wanted, groups, begin.preview.group()),
    }
}

fn is_wanted(
    playback: &Playback<'_>,
    wanted: &Filter,
    groups: &HashSet<GroupName, Seed>,
    name: &GroupName,
) -> bool
    requires { FindsMatches playback.now.config (inserted_in playback.now.history) wanted.now.matchers (contains same_name groups.now) }
    ensures { result ≡ is_wanted playback.now wanted.now name.now }
{
    if is_of(playback, wanted, name) {
        return is_found(wanted, groups, name);
    }
    false
}

/// Whether a group is of the receiver and the route that a filter names.
fn is_of(playback: &Playback<'_>, wanted: &Filter, name: &GroupName) -> bool
    ensures { result ≡ is_of playback.now.config wanted.now name.now }
{
    is_of_route(wanted, playback.config.route_of(name))
}

fn is_of_route(wanted: &Filter, route: &Route) -> bool
    ensures { result ≡ (is_named wanted.now.receiver route.now.receiver && is_named wanted.now.route route.now.name) }
{
    is_to_receiver(wanted, route) && is_on_route(wanted, route)
}

/// Whether a route is to the receiver that a filter names.
fn is_to_receiver(wanted: &Filter, route: &Route) -> bool
    ensures { result ≡ is_named wanted.now.receiver route.now.receiver }
{
    match &wanted.receiver {
        None => true,
        Some(name) => route.receiver.as_str() == name.as_str(),
    }
}

/// Whether a route is the one that a filter names.
fn is_on_route(wanted: &Filter, route: &Route) -> bool
    ensures { result ≡ is_named wanted.now.route route.now.name }
{
    match &wanted.route {
        None => true,
        Some(name) => route.name.as_str() == name.as_str(),
    }
}

/// Whether a group is one of these, if a filter has matchers.
fn is_found(wanted: &Filter, groups: &HashSet<GroupName, Seed>, name: &GroupName) -> bool
    ensures { result ≡ ((length wanted.now.matchers == 0) || contains same_name groups.now name.now) }
{
    wanted.matchers.len() == 0 || groups.contains(name)
}

/// Returns the groups that alerts go to which all matchers match; none where there is no matcher.
fn groups_of_matches(
    alloc: Global,
    playback: &Playback<'_>,
    matchers: &[Matcher],
) -> Result<HashSet<GroupName, Seed>, AllocError>
    ensures { IfOk result (λ groups. FindsMatches playback.now.config (inserted_in playback.now.history) matchers.now
        (contains same_name groups)) }
{
    let seed = playback.logbook().seed();
    if matchers.len() == 0 {
        return Ok(HashSet::with_hasher(alloc, seed));
    }
    all_groups(alloc, seed, playback.config, playback.history, matchers)
}

fn all_groups(
    alloc: Global,
    seed: Seed,
    config: &Config,
    history: &[Record],
    matchers: &[Matcher],
) -> Result<HashSet<GroupName, Seed>, AllocError>
    ensures { IfOk result (λ groups. (name : named.GroupName)
        → contains same_name groups name ≡ has_match config.now (inserted_in history.now) matchers.now name) }
{
    let mut searchers = Searchers::new(alloc, matchers);
    let mut groups = HashSet::with_hasher(alloc, seed);
    for record in history {
        add_insert(alloc, config, &mut searchers, &record.call, &mut groups)?;
    }
    Ok(groups)
}

/// Adds the groups of the alert that a call inserts, if all matchers match it.
fn add_insert(
    alloc: Global,
    config: &Config,
    searchers: &mut Searchers<'_>,
    call: &Call,
    groups: &mut HashSet<GroupName, Seed>,
) -> Result<(), AllocError>
    ensures kept { searchers.new ≡ searchers.old }
    ensures groups { OnOk result ((name : named.GroupName) → contains same_name groups.new name
        ≡ (contains same_name groups.old name || has_match config.now (insert_of (alert_in call.now)) searchers.old name)) }
{
    match call {
        Call::Insert { now: _, alert } => add_match(alloc, config, searchers, alert, groups),
        _ => Ok(()),
    }
}

/// Adds the groups of an alert, if all matchers match it.
fn add_match(
    alloc: Global,
    config: &Config,
    searchers: &mut Searchers<'_>,
    alert: &Alert,
    groups: &mut HashSet<GroupName, Seed>,
) -> Result<(), AllocError>
    ensures kept { searchers.new ≡ searchers.old }
    ensures groups { OnOk result ((name : named.GroupName) → contains same_name groups.new name
        ≡ (contains same_name groups.old name || brings config.now searchers.old name alert.now)) }
{
    if searchers.all_match(alloc, alert.labels())? {
        return add_groups(alloc, config, alert.labels(), groups);
    }
    Ok(())
}

/// Adds the groups that a label set goes to.
fn add_groups(
    alloc: Global,
    config: &Config,
    labels: &Labels,
    groups: &mut HashSet<GroupName, Seed>,
) -> Result<(), AllocError>
    ensures { OnOk result ((name : named.GroupName) → contains same_name groups.new name
        ≡ (contains same_name groups.old name || goes_to config.now name labels.now)) }
{
    let positions = config.routes.of(alloc, labels)?;
    for position in &positions {
        add_group(alloc, config, labels, *position, groups)?;
    }
    Ok(())
}

/// Adds the group of a label set's route at a position.
fn add_group(
    alloc: Global,
    config: &Config,
    labels: &Labels,
    position: u32,
    groups: &mut HashSet<GroupName, Seed>,
) -> Result<(), AllocError>
    requires { position ≤ last_of config.now.routes }
    ensures { OnOk result ((name : named.GroupName) → contains same_name groups.new name
        ≡ (contains same_name groups.old name || same_name name (name_in config.now labels.now position))) }
{
    let group_labels = config.routes.group_labels(alloc, position, labels)?;
    groups.insert(GroupName {
        route: position,
        labels: group_labels,
    })?;
    Ok(())
}
