//! Routes, and the checks on a root and the routes below it.
//!
//! Names of routes and grouping names have the form of a label name and no limit on bytes. Names of
//! receivers and names in `equal` have neither.
ghost use Rattle.std.specs.Prelude.{◌≡◌, ◌<◌, ◌≤◌, IfOk, bytes_eq, map};
ghost use Rattle.std.specs.List.{list_all, list_any};
ghost use Rattle.am_alerts.specs.Labels.{has_text_twice};
ghost use Rattle.am_alerts.specs.Route.{has_grouping_names, has_few_names, is_interval, has_good_intervals};
ghost use Rattle.am_alerts.specs.RoutingTree.{has_good_child_names, has_good_names, has_route_twice, is_small_child, are_small};
ghost use Rattle.am_alerts.specs.RoutingTree.{have_good_intervals, fault_where};

use crate::labels::is_label_name;
use crate::limits::{MAX_DURATION, MAX_LABEL_NAMES, MAX_MATCHERS};
use crate::matcher::Matcher;
pub use crate::routes::Routes;
use crate::sequence::Sequence;
use crate::text::Text;
use std::alloc::{AllocError, Global};
use std::collections::BTreeSet;
use thiserror::Error;

/// The labels by which a route groups.
#[derive(Debug, Drop)]
pub enum GroupBy {
    /// All of them, written `...`.
    All,
    /// These names; a name that is twice counts once.
    Names(Sequence<Text>),
}

/// Where alerts go, how they are grouped, and when their group is notified. Durations are in
/// milliseconds.
#[derive(Debug, Drop)]
pub struct Route {
    pub name: Text,
    pub receiver: Text,
    pub group_by: GroupBy,
    pub group_wait: u64,
    pub group_interval: u64,
    pub repeat_interval: u64,
}

/// A route below the root.
#[derive(Debug, Drop)]
pub struct Child {
    pub route: Route,
    pub matchers: Sequence<Matcher>,
    /// Whether the search goes on behind this child, which is written `continue`.
    pub continues: bool,
}

/// Why routes make no routing tree.
#[derive(Clone, Copy, Debug, PartialEq, Eq, Error)]
pub enum RouteFault {
    #[error("the root isn't named `root`, or a child's name or a grouping name is no label name")]
    BadName = 1,
    #[error("two routes have one name")]
    Twice = 2,
    #[error("too many routes, levels of them, grouping names or matchers")]
    TooMany = 3,
    #[error("an interval is zero or above 10^12")]
    BadInterval = 4,
}

impl GroupBy {
    /// A copy of it.
    pub(crate) fn copy(&self, alloc: Global) -> Result<GroupBy, AllocError>
        ensures { IfOk result (λ copy. copy ≡ self.now) }
    {
        match self {
            GroupBy::All => Ok(GroupBy::All),
            GroupBy::Names(names) => Ok(GroupBy::Names(names.copy(alloc)?)),
        }
    }
}

impl Route {
    /// A copy of this route.
    pub(crate) fn copy(&self, alloc: Global) -> Result<Route, AllocError>
        ensures { IfOk result (λ copy. copy ≡ self.now) }
    {
        Ok(Route {
            name: self.name.copy(alloc)?,
            receiver: self.receiver.copy(alloc)?,
            group_by: self.group_by.copy(alloc)?,
            group_wait: self.group_wait,
            group_interval: self.group_interval,
            repeat_interval: self.repeat_interval,
        })
    }
}

/// Why a root and the routes below it make no routing tree. `twice`: whether two of these have one
/// name. `fits`: whether those below the root are few and are at few levels.
pub(crate) fn fault_where(
    twice: bool,
    fits: bool,
    root: &Route,
    children: &[Child],
) -> Option<RouteFault>
    requires { twice ≡ has_route_twice root.now children.now }
    ensures { result ≡ fault_where fits root.now children.now }
{
    if !has_good_names(root, children) {
        return Some(RouteFault::BadName);
    }
    if twice {
        return Some(RouteFault::Twice);
    }
    if !(fits && are_small(root, children)) {
        return Some(RouteFault::TooMany);
    }
    if !have_good_intervals(root, children) {
        return Some(RouteFault::BadInterval);
    }
    None
}

fn has_good_names(root: &Route, children: &[Child]) -> bool
    ensures { result ≡ has_good_names root.now children.now }
{
    root.name.as_str() == "root" && has_grouping_names(root) && have_good_names(children)
}

fn have_good_names(children: &[Child]) -> bool
    ensures { result ≡ list_all has_good_child_names children.now }
{
    children.iter().all(|c| is_label_name(c.route.name.as_str()) && has_grouping_names(&c.route))
}

fn has_grouping_names(route: &Route) -> bool
    ensures { result ≡ has_grouping_names route.now }
{
    match &route.group_by {
        GroupBy::All => true,
        GroupBy::Names(names) => names.as_slice().iter().all(|n| is_label_name(n.as_str())),
    }
}

/// Whether two routes have one name. Takes no memory, and compares each two of the children.
pub(crate) fn has_route_twice(root: &Route, children: &[Child]) -> bool
    ensures { result ≡ has_route_twice root.now children.now }
{
    has_route(children, root.name.as_str()) || has_child_twice(children)
}

/// The same by a set of the names, for many routes: a child costs one look-up.
pub(crate) fn has_name_twice(
    alloc: Global,
    root: &Route,
    children: &[Child],
) -> Result<bool, AllocError>
    ensures { IfOk result (λ twice. twice ≡ has_route_twice root.now children.now) }
{
    let mut names = BTreeSet::new(alloc);
    for i in 0..children.len() {
        let child = &children[children.len() - 1 - i];
        if !names.insert(child.route.name.as_str())? {
            return Ok(true);
        }
    }
    Ok(names.contains(root.name.as_str()))
}

fn has_child_twice(children: &[Child]) -> bool
    ensures { result ≡ has_text_twice (map (λ c. c.route.name) children.now) }
{
    for (i, child) in children.iter().enumerate() {
        if has_route(&children[i + 1..], child.route.name.as_str()) {
            return true;
        }
    }
    false
}

fn has_route(children: &[Child], name: &str) -> bool
    ensures { result ≡ list_any (λ c. bytes_eq c.route.name name.now) children.now }
{
    children.iter().any(|c| c.route.name.as_str() == name)
}

fn are_small(root: &Route, children: &[Child]) -> bool
    ensures { result ≡ are_small root.now children.now }
{
    has_few_names(root) && are_small_children(children)
}

fn are_small_children(children: &[Child]) -> bool
    ensures { result ≡ list_all is_small_child children.now }
{
    children.iter().all(|c| has_few_names(&c.route) && c.matchers.len() <= MAX_MATCHERS)
}

fn has_few_names(route: &Route) -> bool
    ensures { result ≡ has_few_names route.now }
{
    match &route.group_by {
        GroupBy::All => true,
        GroupBy::Names(names) => names.len() <= MAX_LABEL_NAMES,
    }
}

fn have_good_intervals(root: &Route, children: &[Child]) -> bool
    ensures { result ≡ have_good_intervals root.now children.now }
{
    has_good_intervals(root) && children_have_good_intervals(children)
}

fn children_have_good_intervals(children: &[Child]) -> bool
    ensures { result ≡ list_all (λ c. has_good_intervals c.route) children.now }
{
    children.iter().all(|c| has_good_intervals(&c.route))
}

fn has_good_intervals(route: &Route) -> bool
    ensures { result ≡ has_good_intervals route.now }
{
    route.group_wait <= MAX_DURATION
        && is_interval(route.group_interval)
        && is_interval(route.repeat_interval)
}

fn is_interval(duration: u64) -> bool
    ensures { result ≡ is_interval duration }
{
    0 < duration && duration <= MAX_DURATION
}
