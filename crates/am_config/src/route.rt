//! The tree of routes.
//!
//! The first route that the tree has no capacity for is rejected: there are 16,383 already, or it
//! is more than 64 levels below the root. Routes that it has no capacity for aren't read. An
//! empty `group_by` below the root is none, as in Alertmanager.
ghost use Rattle.std.specs.Prelude.{◌≡◌, ◌≢◌, ◌<◌, [], IfOk, IsSomeAnd, IsTrue, None, OnOk, codes, false, length, unwrap_or};
ghost use Rattle.serde_json.specs.View.{members_view, view};
ghost use Rattle.am_alerts.specs.Nested.{forest, settled_options};
ghost use Rattle.am_json.specs.Decoding.{IsFlag, IsObject};
ghost use Rattle.am_config.specs.Collects.{Collects};
ghost use Rattle.am_config.specs.Matchers.{AreMatchers};
ghost use Rattle.am_config.specs.Routes.{HasBelow, HasNode, HasRoute, HasRoutes, HasTree, default_route, route_matchers};
ghost use Rattle.am_config.specs.Said.{ListsNothing, SaysOr};
ghost use Rattle.am_config.specs.Trees.{tree_in};

use crate::collected::{keep, only};
use crate::matchers::{MatcherMembers, read_matchers};
use crate::names::RouteNames;
use crate::optional::{flag_or, non_null, refuse_items, refuse_members, required};
use crate::options::read_options;
use crate::receiver::receiver_names;
use crate::times::{ACTIVE, MUTE, Times};
use am_alerts::limits::{MAX_DEPTH, MAX_ROUTES};
use am_alerts::route::{GroupBy, Route};
use am_alerts::sequence::Sequence;
use am_alerts::text::Text;
use am_alerts::tree::{Node, Options, RouteSpec};
use am_json::default_waits::{GROUP_INTERVAL, GROUP_WAIT, REPEAT_INTERVAL};
use am_json::fault::{FaultKind, InputFault};
use am_json::faults::Faults;
use am_json::reader::{Object, Reader};
use std::alloc::{AllocError, Global};
use std::collections::BTreeSet;

/// The members of a route, the root among them.
const MEMBERS: [&str; 12] = [
    "receiver",
    "group_by",
    "group_wait",
    "group_interval",
    "repeat_interval",
    "matchers",
    "match",
    "match_re",
    "continue",
    MUTE,
    ACTIVE,
    "routes",
];

/// The members that hold a route's matchers.
const MATCHERS: MatcherMembers = MatcherMembers {
    equal: "match",
    like: "match_re",
    texts: "matchers",
};

/// A root, and the routes right below it.
#[derive(Drop)]
pub(crate) struct Tree {
    pub(crate) root: Route,
    pub(crate) routes: Vec<Node>,
}

/// What is known of the routes that were read.
#[derive(Drop)]
pub(crate) struct Routing<'h> {
    /// The names of the receivers, if they can be given.
    receivers: Option<BTreeSet<String>>,
    pub(crate) times: Times<'h>,
    names: RouteNames,
    /// The indexes of the route that is read and of those above it, each in its list; the lowest one behind.
    path: Vec<usize>,
    /// How many routes below the root were begun.
    begun: usize,
    /// Whether one wasn't, for lack of capacity.
    is_full: bool,
}

impl<'h> Routing<'h> {
    pub(crate) fn new(top: &Object<'_, '_>, times: Times<'h>) -> Result<Routing<'h>, InputFault>
        ensures { IfOk result (λ routing. routing.times ≡ times.entry) }
    {
        Ok(Routing {
            receivers: receiver_names(top)?,
            times,
            names: RouteNames::of_file(top)?,
            path: Vec::new(top.alloc()),
            begun: 0,
            is_full: false,
        })
    }

    /// Whether there is a receiver of this name, or none can be given.
    pub(crate) fn has_receiver(&self, name: &str) -> bool {
        match &self.receivers {
            None => true,
            Some(names) => names.contains(name),
        }
    }

    /// Counts another route, under which so many levels can be, itself the first. One that there is no
    /// capacity for isn't read, and the first such is refused.
    fn begins(
        &mut self,
        faults: &mut Faults,
        reader: &Reader<'_, '_>,
        levels: usize,
    ) -> Result<bool, InputFault>
        ensures times { OnOk result (self.new.times ≡ self.old.times) }
        ensures levels { IfOk result (λ begins. IsTrue begins → 0 < levels) }
        ensures collects { IfOk result (λ begins. Collects faults.old faults.new (IsTrue begins)) }
    {
        if self.begun < MAX_ROUTES && levels > 0 {
            self.begun += 1;
            return Ok(true);
        }
        self.refuse_further(faults, reader)?;
        Ok(false)
    }

    /// Refuses the first route that there is no capacity for. Behind it there is a fault.
    fn refuse_further(
        &mut self,
        faults: &mut Faults,
        reader: &Reader<'_, '_>,
    ) -> Result<(), InputFault>
        ensures times { OnOk result (self.new.times ≡ self.old.times) }
        ensures refused { OnOk result (0 < length faults.new) }
    {
        if self.is_full && faults.len() > 0 {
            return Ok(());
        }
        self.is_full = true;
        faults.push(reader.refuse(FaultKind::BadValue))
    }
}

/// Reads the tree of routes.
pub(crate) fn read_tree(
    faults: &mut Faults,
    routing: &mut Routing<'_>,
    top: &Object<'_, '_>,
) -> Result<Option<Tree>, InputFault>
    ensures { IfOk result (λ read. Collects faults.old faults.new
        (IsSomeAnd read (λ tree. HasRoutes routing.old.times (members_view top.now.members) (tree_in tree)))) }
{
    let Some(reader) = keep(faults, required(top, "route"))? else {
        return Ok(None);
    };
    read_root(faults, routing, &reader)
}

/// Reads the root, and the routes below it.
fn read_root(
    faults: &mut Faults,
    routing: &mut Routing<'_>,
    reader: &Reader<'_, '_>,
) -> Result<Option<Tree>, InputFault>
    ensures { IfOk result (λ read. Collects faults.old faults.new
        (IsSomeAnd read (λ tree. IsObject (HasTree routing.old.times) (view reader.now.value) (tree_in tree)))) }
{
    let Some(route) = keep(faults, reader.object())? else {
        return Ok(None);
    };
    only(faults, &route, &MEMBERS)?;
    let options = read_options(faults, routing, &route)?;
    refuse_unnamed(faults, &route, &options)?;
    refuse_matchers(faults, &route)?;
    refuse_continue(faults, &route)?;
    refuse_times(faults, &route)?;
    let root = root_of(route.alloc(), options)?;
    let routes = read_routes(faults, routing, &route, root.receiver.as_str(), MAX_DEPTH)?;
    Ok(Some(Tree { root, routes }))
}

/// Refuses a root that says no receiver, unless what it says is refused already.
fn refuse_unnamed(
    faults: &mut Faults,
    root: &Object<'_, '_>,
    options: &Options,
) -> Result<(), InputFault>
    ensures { OnOk result (Collects faults.old faults.new (options.now.receiver ≢ None)) }
{
    match &options.receiver {
        Some(_) => Ok(()),
        None => refuse_receiver(faults, root),
    }
}

/// Refuses a root whose receiver isn't known, unless it is refused already. Behind it there is a fault.
fn refuse_receiver(faults: &mut Faults, root: &Object<'_, '_>) -> Result<(), InputFault>
    ensures { OnOk result (0 < length faults.new) }
{
    let member = match required(root, "receiver") {
        Err(missing) => return faults.push(missing),
        Ok(member) => member,
    };
    if is_refused(faults, &member) {
        return Ok(());
    }
    faults.push(member.refuse(FaultKind::BadValue))
}

/// Whether a value that names no receiver is refused already: the empty text isn't.
fn is_refused(faults: &Faults, member: &Reader<'_, '_>) -> bool
    ensures { IsTrue result → 0 < length faults.now }
{
    if faults.len() == 0 {
        return false;
    }
    !member.text().is_ok_and(|text| text.is_empty())
}

/// Refuses the matchers of a root.
fn refuse_matchers(faults: &mut Faults, root: &Object<'_, '_>) -> Result<(), InputFault>
    ensures { OnOk result (Collects faults.old faults.new (AreMatchers route_matchers (members_view root.now.members) [])) }
{
    refuse_items(faults, root, MATCHERS.texts)?;
    refuse_members(faults, root, MATCHERS.equal)?;
    refuse_members(faults, root, MATCHERS.like)?;
    Ok(())
}

/// Refuses a root with `continue`.
fn refuse_continue(faults: &mut Faults, root: &Object<'_, '_>) -> Result<(), InputFault>
    ensures { OnOk result (Collects faults.old faults.new (SaysOr IsFlag false (codes "continue") (members_view root.now.members) false)) }
{
    let Some(member) = non_null(root, "continue") else {
        return Ok(());
    };
    let Some(continues) = keep(faults, member.flag())? else {
        return Ok(());
    };
    if continues {
        return faults.push(member.refuse(FaultKind::BadValue));
    }
    Ok(())
}

/// Refuses times at which a root is muted, or active alone.
fn refuse_times(faults: &mut Faults, root: &Object<'_, '_>) -> Result<(), InputFault>
    ensures { OnOk result (Collects faults.old faults.new (ListsNothing (codes "mute_time_intervals") (members_view root.now.members)
        × ListsNothing (codes "active_time_intervals") (members_view root.now.members))) }
{
    refuse_items(faults, root, MUTE)?;
    refuse_items(faults, root, ACTIVE)
}

/// The root: what it doesn't say is Alertmanager's default.
fn root_of(alloc: Global, options: Options) -> Result<Route, InputFault>
    ensures { IfOk result (λ root. root ≡ settled_options default_route (codes "root") options) }
{
    let Options {
        receiver,
        group_by,
        group_wait,
        group_interval,
        repeat_interval,
    } = options;
    Ok(Route {
        name: Text::new(alloc, "root")?,
        receiver: named_or_empty(alloc, receiver)?,
        group_by: group_by.unwrap_or(GroupBy::Names(Sequence::empty(alloc))),
        group_wait: group_wait.unwrap_or(GROUP_WAIT),
        group_interval: group_interval.unwrap_or(GROUP_INTERVAL),
        repeat_interval: repeat_interval.unwrap_or(REPEAT_INTERVAL),
    })
}

fn named_or_empty(alloc: Global, receiver: Option<Text>) -> Result<Text, InputFault>
    ensures { IfOk result (λ name. name ≡ unwrap_or receiver []) }
{
    match receiver {
        Some(receiver) => Ok(receiver),
        None => Ok(Text::new(alloc, "")?),
    }
}

/// Reads the routes below a route with this receiver, under which so many levels can be.
#[cycle(routes)]
fn read_routes(
    faults: &mut Faults,
    routing: &mut Routing<'_>,
    route: &Object<'_, '_>,
    receiver: &str,
    levels: usize,
) -> Result<Vec<Node>, InputFault>
    ensures times { OnOk result (routing.new.times ≡ routing.old.times) }
    ensures routes { IfOk result (λ routes. Collects faults.old faults.new
        (HasBelow routing.old.times (members_view route.now.members) (forest routes.items))) }
{
    let mut routes = Vec::new(route.alloc());
    let Some(member) = non_null(route, "routes") else {
        return Ok(routes);
    };
    let Some(items) = keep(faults, member.array())? else {
        return Ok(routes);
    };
    for (index, value) in items.iter().enumerate() {
        let item = member.item(index, value);
        let Some(node) = read_item(faults, routing, &item, index, receiver, levels)? else {
            continue;
        };
        routes.push(node)?;
    }
    Ok(routes)
}

/// Reads the route at an index, and those below it, if there is capacity for it.
#[cycle(routes)]
fn read_item(
    faults: &mut Faults,
    routing: &mut Routing<'_>,
    reader: &Reader<'_, '_>,
    index: usize,
    above: &str,
    levels: usize,
) -> Result<Option<Node>, InputFault>
    ensures times { OnOk result (routing.new.times ≡ routing.old.times) }
    ensures node { IfOk result (λ read. Collects faults.old faults.new
        (IsSomeAnd read (IsObject (HasNode routing.old.times) (view reader.now.value)))) }
{
    if !routing.begins(faults, reader, levels)? {
        return Ok(None);
    }
    routing.path.push(index)?;
    let node = read_node(faults, routing, reader, above, levels - 1)?;
    let _ = routing.path.pop();
    Ok(node)
}

/// Reads a route, and those below it, that is below a route with this receiver.
#[cycle(routes)]
fn read_node(
    faults: &mut Faults,
    routing: &mut Routing<'_>,
    reader: &Reader<'_, '_>,
    above: &str,
    levels: usize,
) -> Result<Option<Node>, InputFault>
    ensures times { OnOk result (routing.new.times ≡ routing.old.times) }
    ensures node { IfOk result (λ read. Collects faults.old faults.new
        (IsSomeAnd read (IsObject (HasNode routing.old.times) (view reader.now.value)))) }
{
    let Some(route) = keep(faults, reader.object())? else {
        return Ok(None);
    };
    let (rule, receiver) = read_rule(faults, routing, &route, above)?;
    let routes = read_routes(faults, routing, &route, receiver.as_str(), levels)?;
    Ok(Some(Node { rule, routes }))
}

/// Reads what a route says of itself, and its receiver: its own, or that of the route above it.
fn read_rule(
    faults: &mut Faults,
    routing: &mut Routing<'_>,
    route: &Object<'_, '_>,
    above: &str,
) -> Result<(RouteSpec, Text), InputFault>
    ensures times { OnOk result (routing.new.times ≡ routing.old.times) }
    ensures route { IfOk result (λ read. Collects faults.old faults.new
        (HasRoute routing.old.times (members_view route.now.members) read.0)) }
{
    only(faults, route, &MEMBERS)?;
    let options = read_options(faults, routing, route)?;
    let matchers = read_matchers(faults, route, &MATCHERS)?;
    let continues = flag_or(faults, route, "continue", false)?;
    let muted = routing.times.read_muted(faults, route)?;
    let receiver = receiver_or(route.alloc(), &options, above)?;
    let path = routing.path.as_slice();
    let name = routing.names.give(route.alloc(), receiver.as_str(), path)?;
    let rule = RouteSpec {
        name,
        options,
        matchers: Sequence::from(matchers),
        continues,
        muted,
    };
    Ok((rule, receiver))
}

/// The receiver that a route says, or the one above.
fn receiver_or(alloc: Global, options: &Options, above: &str) -> Result<Text, AllocError> {
    match &options.receiver {
        None => Text::new(alloc, above),
        Some(receiver) => receiver.copy(alloc),
    }
}
