//! Inserts: `put_alert` writes an alert in place (`again`) if it is known, the names of its groups are
//! cached, they are at most 32, and each of them has it. For any other one `put_routed` finds the
//! groups first and changes the state last.
//!
//! Then memory is allocated in this order; before it, `put_again` may have reserved the history, and
//! then found a group without the alert. First comes the list of routes, unless the names are cached.
//! Next comes, for each group, its name and all that the insert puts into it (`find_placements`), in
//! one list, since a list more would cost each insert. Each name is found once. Next comes the list
//! for the name cache. Then, if no limit is passed, comes the capacity of the history, the known
//! alerts, the groups and each group (`reserve_insert`).
//! From the first change on nothing can fail. Groups are added last, and no two routes have one
//! group, so no index that was found moves, and each group needs capacity for one alert. At the end
//! the names are cached, if memory allows. `Board::insert` then has a new label set learned by the
//! index of sources, if memory allows.
//!
//! An alert whose label set is known gets the known one (`with_known_labels`), which takes no
//! memory. Its own goes, so each label set is stored once, however often its alert comes.
ghost use Rattle.std.specs.Prelude.{◌≡◌, ◌+◌, ◌<◌, ◌≤◌, ◌==◌, [], count_by, false, fold, is_none, length, map, position, None, All};
ghost use Rattle.std.specs.Prelude.{IfSome, IfOk, IfErr, OnOk, vec_len};
ghost use Rattle.am_alerts.specs.RoutingTree.{RoutingTree, last_of, routes_of};
ghost use Rattle.am_board.specs.GroupNameCache.{AreKept};
ghost use Rattle.am_board.specs.Group.{names_of, AreRouted, AddsAtMost, HasSpace};
ghost use Rattle.am_model.specs.Causes.{insert_cause, is_full, is_alert_too_many};
ghost use Rattle.am_model.specs.Insert.{same_alert, put_into_group, names_for, after_insert};
ghost use Rattle.am_board.specs.Refinement.{state_of, group_state};
ghost use Rattle.am_board.specs.Marks.{is_marked, marks_of};
ghost use Rattle.am_board.specs.Step.{MAX_CALLS, StateInvariant, IsAnswer};
ghost use Rattle.std.specs.List.{IsDistinct};
ghost use Rattle.am_board.specs.Inserting.{IsFound, AreFound, AreApart, IsToPut, index_in, target_of};
ghost use Rattle.am_board.specs.Inserting.{IsReservedState, IsReadyFor, IsEmptyWithSpace, HaveSpace};
ghost use Rattle.am_board.specs.Arrival.{Puts, insert_record};
ghost use Rattle.am_board.specs.Inserting.{AreRoutedPlacements, IsPlacementOf, IsWhereToPut, name_at, stamped_alert};
ghost use Rattle.am_model.specs.State.{MemberState, same_name};
ghost use Rattle.am_alerts.specs.declared.limits.TheConstants.{MAX_TIME};
ghost use Rattle.am_model.specs.declared.config.Config.{Config};
ghost use Rattle.am_model.specs.declared.group.GroupName.{GroupName};

use crate::again::put_again;
use crate::config::Config;
use crate::destinations::{Destination, GroupNameCache};
use crate::fault::Fault;
use crate::group::{Group, GroupName, Member};
use crate::groups::Groups;
use crate::known::Known;
use crate::members::Members;
use crate::record::{Call, Inserted, Record, Reply};
use crate::state::State;
use am_alerts::alert::Alert;
use am_alerts::labels::Labels;
use am_alerts::route::Routes;
use am_alerts::sequence::Sequence;
use am_seed::Seed;
use std::alloc::{AllocError, Global};

/// An alert that comes, and the call that brings it.
#[derive(Drop)]
pub(crate) struct Arrival {
    pub(crate) pass: u32,
    /// The call's own time, in milliseconds.
    pub(crate) time: u64,
    pub(crate) alert: Alert,
}

/// A group that an alert goes to by one of its routes.
#[derive(Drop)]
pub(crate) struct Target {
    pub(crate) name: GroupName,
    /// The index of the group, where it is there.
    pub(crate) index: Option<usize>,
}

/// What an insert puts into one group.
#[derive(Drop)]
pub(crate) struct Placement {
    pub(crate) name: GroupName,
    /// The index of the group, where it is there.
    pub(crate) index: Option<usize>,
    /// The name once more, as the table's key, for a group that has to be made.
    pub(crate) key: GroupName,
    /// The labels of the alert, as the table's key.
    pub(crate) labels: Labels,
    pub(crate) member: Member,
    /// How long the group waits for its first flush, in milliseconds.
    pub(crate) wait: u64,
    /// An empty list with capacity for one alert, for a group that has to be made.
    pub(crate) members: Members,
}

/// What an insert finds before it changes anything.
#[derive(Drop)]
pub(crate) struct Found {
    /// The index of the known alert with its labels, if there is one.
    pub(crate) index: Option<usize>,
    /// What it puts into each of the alert's groups, in the order of its routes.
    pub(crate) placements: Vec<Placement>,
}

/// Adds an alert to the known ones and to the groups of its routes, and caches the groups' names.
pub(crate) fn put_alert(
    alloc: Global,
    config: &Config,
    state: &mut State,
    destinations: &mut GroupNameCache,
    arrival: Arrival,
) -> Result<Inserted, Fault>
    requires good { StateInvariant config.now state.old }
    requires kept { AreKept config.now state.old.known.items destinations.old }
    ensures put { Puts config.now state.old state.new arrival result }
    ensures kept { AreKept config.now state.new.known.items destinations.new }
{
    let Arrival { pass, time, alert } = arrival;
    let index = find_index(config, state, &alert)?;
    let alert = with_known_labels(alloc, &state.known, index, alert);
    let arrival = Arrival { pass, time, alert };
    let kept = destinations.of(index);
    if let Some(inserted) = put_again(alloc, config, state, index, kept, &arrival)? {
        state.history.push_reserved(record_of(arrival, inserted));
        return Ok(inserted);
    }
    put_routed(alloc, config, state, destinations, index, arrival)
}

/// The record of an accepted insert.
fn record_of(arrival: Arrival, inserted: Inserted) -> Record
    ensures { result ≡ insert_record arrival inserted }
{
    Record {
        pass: arrival.pass,
        call: Call::Insert {
            now: arrival.time,
            alert: arrival.alert,
        },
        reply: Reply::Inserted(inserted),
    }
}

/// Adds an alert to the known ones and to the groups of its routes, which are looked for first, and
/// caches the groups' names.
fn put_routed(
    alloc: Global,
    config: &Config,
    state: &mut State,
    destinations: &mut GroupNameCache,
    index: Option<usize>,
    arrival: Arrival,
) -> Result<Inserted, Fault>
    requires good { StateInvariant config.now state.old }
    requires kept { AreKept config.now state.old.known.items destinations.old }
    requires index { index ≡ position (same_alert arrival.alert) state.old.known.items }
    requires within { IfSome index (λ i. i < length state.old.known.items) }
    requires space { is_full config.now (vec_len state.old.history) (state_of state.old) 1 ≡ false }
    requires names { is_alert_too_many config.now (state_of state.old) arrival.alert ≡ false }
    ensures put { Puts config.now state.old state.new arrival result }
    ensures kept { AreKept config.now state.new.known.items destinations.new }
{
    let kept = destinations.of(index);
    let stamp = state.inserts + 1;
    let alert = &arrival.alert;
    let placements = find_placements(alloc, config, &state.groups, kept, alert, stamp)?;
    let names = new_names(alloc, &state.groups, kept, placements.as_slice());
    let number = index.unwrap_or(state.known.len());
    let found = Found { index, placements };
    let inserted = put_found(alloc, config, state, found, arrival);
    if inserted.is_ok() {
        destinations.keep(number, names);
    }
    inserted
}

/// Returns the alert with the label set of the known alert at an index, if there is one.
///
/// The two label sets are equal. So the record and all copies of the alert share one in memory.
fn with_known_labels(alloc: Global, known: &Known, index: Option<usize>, alert: Alert) -> Alert
    requires index { index ≡ position (same_alert alert) known.now.items }
    requires within { IfSome index (λ i. i < length known.now.items) }
    ensures { result ≡ alert }
{
    let Some(i) = index else {
        return alert;
    };
    let Ok(labels) = known.at(i).labels().copy(alloc) else {
        return alert;
    };
    Alert::new(labels, alert.starts(), alert.ends()).unwrap_or(alert)
}

/// Adds an alert to the known ones and to the groups that were found for it.
fn put_found(
    alloc: Global,
    config: &Config,
    state: &mut State,
    found: Found,
    arrival: Arrival,
) -> Result<Inserted, Fault>
    requires good { StateInvariant config.now state.old }
    requires found { IsWhereToPut config.now state.old arrival.alert found }
    ensures { Puts config.now state.old state.new arrival result }
{
    let Found { index, placements } = found;
    let t = state.time(arrival.time);
    let stamp = state.inserts + 1;
    let made = count_missing(placements.as_slice());
    if state.groups.len() + made > config.limits.groups {
        return Err(Fault::TooManyGroups);
    }
    let labels = arrival.alert.labels().copy(alloc)?;
    let copy = arrival.alert.copy(alloc)?;
    reserve_insert(state, placements.as_slice())?;

    let inserted = Inserted {
        stamp,
        groups: placements.len(),
        made,
    };
    put_prepared(state, t, index, labels, copy, placements);
    let record = record_of(arrival, inserted);
    state.history.push_reserved(record);
    Ok(inserted)
}

/// Returns the index of the known alert with these labels, if there is one.
///
/// Fails where the history has no capacity, or where the labels are new and the limit is reached.
fn find_index(config: &Config, state: &State, alert: &Alert) -> Result<Option<usize>, Fault>
    ensures index { IfOk result (λ index. index ≡ position (same_alert alert.now) state.now.known.items) }
    ensures within { IfOk result (λ index. IfSome index (λ i. i < length state.now.known.items)) }
    ensures space { OnOk result (is_full config.now (vec_len state.now.history) (state_of state.now) 1 ≡ false) }
    ensures names { OnOk result (is_alert_too_many config.now (state_of state.now) alert.now ≡ false) }
    ensures refused { IfErr result (IsAnswer (insert_cause config.now (vec_len state.now.history) (state_of state.now) alert.now)) }
{
    if !state.has_space(1, config.limits.history) {
        return Err(Fault::HistoryFull);
    }
    let index = state.known.find(alert.labels());
    if index.is_none() && state.known.len() >= config.limits.alerts {
        return Err(Fault::TooManyAlerts);
    }
    Ok(index)
}

/// Adds an alert to the known ones and to its groups. All memory is reserved.
fn put_prepared(
    state: &mut State,
    t: u64,
    known: Option<usize>,
    labels: Labels,
    alert: Alert,
    placements: Vec<Placement>,
)
    requires labels { labels ≡ alert.labels }
    requires index { known ≡ position (same_alert alert) state.old.known.items }
    requires within { IfSome known (λ i. i < length state.old.known.items) }
    requires inserts { state.old.inserts ≤ MAX_CALLS }
    requires ready { IsReadyFor state.old placements.items }
    requires empty { All IsEmptyWithSpace placements.items }
    requires found { AreFound state.old.groups.items placements.items }
    requires apart { AreApart placements.items }
    ensures log { state.new.log ≡ state.old.log }
    ensures flushes { state.new.flushes ≡ state.old.flushes }
    ensures history { state.new.history ≡ state.old.history }
    ensures routed { (tree : RoutingTree) → AreRouted tree (names_of state.old.groups.items)
        → AreRoutedPlacements tree placements.items → AreRouted tree (names_of state.new.groups.items) }
    ensures marks { (name : GroupName)
        → is_marked (marks_of state.new.groups.items) name ≡ is_marked (marks_of state.old.groups.items) name }
    ensures state { (config : Config) → t ≤ MAX_TIME
        → All (IsPlacementOf config.routes (stamped_alert alert (state.old.inserts + 1))) placements.items
        → map (λ p. p.name) placements.items ≡ names_for config alert.labels
        → state_of state.new ≡ after_insert config (state_of state.old) t alert }
{
    state.clock = t;
    state.inserts += 1;
    state.known.put(known, labels, alert);
    put_placements(&mut state.groups, placements, t);
}

/// Reserves memory for an insert, and for the finish of each open flush.
fn reserve_insert(state: &mut State, placements: &[Placement]) -> Result<(), AllocError>
    requires distinct { IsDistinct same_name (names_of state.old.groups.items) }
    requires found { AreFound state.old.groups.items placements.now }
    ensures kept { IsReservedState state.old state.new }
    ensures ready { OnOk result (IsReadyFor state.new placements.now) }
{
    state.history.reserve(state.flushes.len() + 1)?;
    state.known.reserve(1)?;
    state.groups.reserve(placements.len())?;
    reserve_all(&mut state.groups, placements)
}

/// Returns what an insert puts into each group that its alert goes to, in the order of its routes,
/// by cached names if there are any.
fn find_placements(
    alloc: Global,
    config: &Config,
    groups: &Groups,
    kept: Option<&Sequence<Destination>>,
    alert: &Alert,
    stamp: u64,
) -> Result<Vec<Placement>, AllocError>
    requires kept { IfSome kept (λ names. names.now ≡ names_for config.now alert.now.labels) }
    ensures names { IfOk result (λ placements. map (λ p. p.name) placements.items ≡ names_for config.now alert.now.labels) }
    ensures found { IfOk result (λ placements.
        All (IsToPut config.now.routes groups.now.items (stamped_alert alert.now stamp)) placements.items) }
{
    match kept {
        Some(names) => find_named(
            alloc,
            &config.routes,
            groups,
            names.as_slice(),
            alert,
            stamp,
        ),
        None => find_routed(alloc, &config.routes, groups, alert, stamp),
    }
}

/// What the insert of an alert puts into each of the groups of these names, in their order.
fn find_named(
    alloc: Global,
    routes: &Routes,
    groups: &Groups,
    names: &[Destination],
    alert: &Alert,
    stamp: u64,
) -> Result<Vec<Placement>, AllocError>
    requires { AreRouted routes.now names.now }
    ensures names { IfOk result (λ placements. map (λ p. p.name) placements.items ≡ names.now) }
    ensures found { IfOk result (λ placements.
        All (IsToPut routes.now groups.now.items (stamped_alert alert.now stamp)) placements.items) }
{
    let mut placements = Vec::with_capacity(alloc, names.len())?;
    for destination in names {
        let name = destination.name();
        let index = groups.find(name);
        let name = name.copy(alloc)?;
        let target = Target { name, index };
        placements.push(prepare(alloc, groups.seed(), routes, target, alert, stamp)?)?;
    }
    Ok(placements)
}

/// Returns what the insert of an alert puts into each group that the alert goes to, in the order of
/// its routes, by names that it computes.
fn find_routed(
    alloc: Global,
    routes: &Routes,
    groups: &Groups,
    alert: &Alert,
    stamp: u64,
) -> Result<Vec<Placement>, AllocError>
    ensures names { IfOk result (λ placements. map (λ p. p.name) placements.items
        ≡ map (name_at routes.now alert.now.labels) (routes_of routes.now alert.now.labels)) }
    ensures found { IfOk result (λ placements.
        All (IsToPut routes.now groups.now.items (stamped_alert alert.now stamp)) placements.items) }
{
    let labels = alert.labels();
    let positions = routes.of(alloc, labels)?;
    let mut placements = Vec::with_capacity(alloc, positions.len())?;
    for route in &positions {
        let target = find_target(alloc, routes, groups, *route, labels)?;
        placements.push(prepare(alloc, groups.seed(), routes, target, alert, stamp)?)?;
    }
    Ok(placements)
}

/// The group that an alert of these labels goes to by one route.
fn find_target(
    alloc: Global,
    routes: &Routes,
    groups: &Groups,
    route: u32,
    labels: &Labels,
) -> Result<Target, AllocError>
    requires { route ≤ last_of routes.now }
    ensures name { IfOk result (λ target. target.name ≡ name_at routes.now labels.now route) }
    ensures found { IfOk result (IsFound groups.now.items) }
{
    let labels = routes.group_labels(alloc, route, labels)?;
    let name = GroupName { route, labels };
    let index = groups.find(&name);
    let name = own_name(alloc, groups, name, index)?;
    Ok(Target { name, index })
}

/// Returns the group's own copy of its name where the group exists, and else this name.
///
/// So the texts of a name are stored once.
fn own_name(
    alloc: Global,
    groups: &Groups,
    name: GroupName,
    index: Option<usize>,
) -> Result<GroupName, AllocError>
    requires index { index ≡ index_in name groups.now.items }
    requires within { IfSome index (λ i. i < length groups.now.items) }
    ensures { IfOk result (λ own. own ≡ name) }
{
    match index {
        Some(i) => groups.at(i).name.copy(alloc),
        None => Ok(name),
    }
}

/// Returns copies of the groups' names for the cache, unless they are cached or memory lacks, each
/// with where the alert will be in the group.
fn new_names(
    alloc: Global,
    groups: &Groups,
    kept: Option<&Sequence<Destination>>,
    placements: &[Placement],
) -> Option<Sequence<Destination>>
    ensures { IfSome result (λ names. names ≡ map (λ p. p.name) placements.now) }
{
    match kept {
        Some(_) => None,
        None => names_of(alloc, groups, placements).ok(),
    }
}

/// The names of the groups that these placements go to.
fn names_of(
    alloc: Global,
    groups: &Groups,
    placements: &[Placement],
) -> Result<Sequence<Destination>, AllocError>
    ensures { IfOk result (λ names. names ≡ map (λ p. p.name) placements.now) }
{
    let mut names = Vec::with_capacity(alloc, placements.len())?;
    for placement in placements {
        let name = placement.name.copy(alloc)?;
        let spot = groups.next_spot(placement.index);
        names.push(Destination::new(name, spot))?;
    }
    Ok(Sequence::from(names))
}

/// How many groups have to be made for these placements.
fn count_missing(placements: &[Placement]) -> usize
    ensures { result ≡ count_by (λ p. is_none p.index) placements.now }
{
    placements
        .iter()
        .filter(|placement| placement.index.is_none())
        .count()
}

/// What the insert of an alert puts into one of its groups.
fn prepare(
    alloc: Global,
    seed: Seed,
    routes: &Routes,
    target: Target,
    alert: &Alert,
    stamp: u64,
) -> Result<Placement, AllocError>
    requires { target.name.route ≤ last_of routes.now }
    ensures target { IfOk result (λ placement. target_of placement ≡ target) }
    ensures ready { IfOk result IsEmptyWithSpace }
    ensures placed { IfOk result (IsPlacementOf routes.now (stamped_alert alert.now stamp)) }
{
    let Target { name, index } = target;
    let alert = alert.copy(alloc)?;
    Ok(Placement {
        key: name.copy(alloc)?,
        labels: alert.labels().copy(alloc)?,
        wait: routes.route(name.route).group_wait,
        name,
        index,
        member: Member {
            alert,
            stamp,
            leaves: false,
        },
        members: list_for(alloc, seed, index)?,
    })
}

/// Returns the list of a group that has to be made, with capacity for one alert.
///
/// A group that exists needs none.
fn list_for(alloc: Global, seed: Seed, index: Option<usize>) -> Result<Members, AllocError>
    ensures empty { IfOk result (λ members. members.items ≡ []) }
    ensures space { index ≡ None → IfOk result (λ members. 0 < members.space) }
{
    match index {
        Some(_) => Ok(Members::new(alloc, seed)),
        None => Members::with_capacity(alloc, 1, seed),
    }
}

/// Reserves memory for one more alert in each group of these placements.
fn reserve_all(groups: &mut Groups, placements: &[Placement]) -> Result<(), AllocError>
    requires distinct { IsDistinct same_name (names_of groups.old.items) }
    requires found { AreFound groups.old.items placements.now }
    ensures names { names_of groups.new.items ≡ names_of groups.old.items }
    ensures marks { marks_of groups.new.items ≡ marks_of groups.old.items }
    ensures states { map group_state groups.new.items ≡ map group_state groups.old.items }
    ensures spare { groups.new.space ≡ groups.old.space }
    ensures space { OnOk result (HaveSpace groups.new.items placements.now) }
{
    for placement in placements {
        groups.reserve_found(placement.index, 1)?;
    }
    Ok(())
}

/// Puts each placement into its group, in their order.
fn put_placements(groups: &mut Groups, mut placements: Vec<Placement>, t: u64)
    requires spare { vec_len placements ≤ groups.old.space }
    requires space { HaveSpace groups.old.items placements.items }
    requires ready { All IsEmptyWithSpace placements.items }
    requires found { AreFound groups.old.items placements.items }
    requires apart { AreApart placements.items }
    ensures routed { (tree : RoutingTree) → AreRouted tree (names_of groups.old.items)
        → AreRoutedPlacements tree placements.items → AreRouted tree (names_of groups.new.items) }
    ensures marks { (name : GroupName) → is_marked (marks_of groups.new.items) name ≡ is_marked (marks_of groups.old.items) name }
    ensures state { (config : Config) (m : MemberState) → t ≤ MAX_TIME → All (IsPlacementOf config.routes m) placements.items
        → map group_state groups.new.items
        ≡ fold (put_into_group config t m) (map group_state groups.old.items) (map (λ p. p.name) placements.items) }
{
    placements.reverse();
    while let Some(placement) = placements.pop() {
        put_placement(groups, placement, t);
    }
}

/// Puts a placement into its group, which is made if it is missing.
fn put_placement(groups: &mut Groups, placement: Placement, t: u64)
    requires spare { 0 < groups.old.space }
    requires space { HasSpace 1 placement.name groups.old.items }
    requires ready { IsEmptyWithSpace placement }
    requires found { IsFound groups.old.items (target_of placement) }
    ensures spare { groups.old.space ≤ groups.new.space + 1 }
    ensures names { AddsAtMost (names_of groups.old.items) placement.name (names_of groups.new.items) }
    ensures marks { (name : GroupName) → is_marked (marks_of groups.new.items) name ≡ is_marked (marks_of groups.old.items) name }
    ensures others { (name : GroupName) → (name.route == placement.name.route) ≡ false
        → HasSpace 1 name groups.old.items → HasSpace 1 name groups.new.items }
    ensures state { (config : Config) (m : MemberState) → t ≤ MAX_TIME → IsPlacementOf config.routes m placement
        → map group_state groups.new.items ≡ put_into_group config t m (map group_state groups.old.items) placement.name }
{
    match placement.index {
        Some(i) => groups.insert(i, placement.labels, placement.member, placement.wait, t),
        None => {
            let mut group = Group {
                name: placement.name,
                due: t.saturating_add(placement.wait),
                flushed: false,
                is_open: false,
                members: placement.members,
            };
            group.insert(placement.labels, placement.member, placement.wait, t);
            groups.add(placement.key, group);
        }
    }
}
