//! The routing tree: a root and the routes below it, at any depth. It leads an alert to its groups.
//! The first child that matches gets the alert, and the next ones while those before have `continue`.
//!
//! The routes below the root lie in a list, each before those below it. A route is known by its
//! position there. Cost of `Routes::of`: the routes whose parents match, and their matchers.
ghost use Rattle.std.specs.Prelude.{◌≡◌, ◌⊎◌, ◌+◌, ◌<◌, ◌≤◌, ◌++◌, ◌&&◌};
ghost use Rattle.std.specs.Prelude.{All, IfErr, IfOk, IsTrue, None, Some, length, nat_le, string_bytes};
ghost use Rattle.std.specs.List.Sorted.{IsStrictlyIncreasing};
ghost use Rattle.am_alerts.specs.Fault.{ok_unless};
ghost use Rattle.am_alerts.specs.Nested.{forest, nested_of};
ghost use Rattle.am_alerts.specs.Layout.{planted};
ghost use Rattle.am_alerts.specs.RouteLayouts.{IsPreorder, paired, part};
ghost use Rattle.am_alerts.specs.Route.{group_labels_of, key_text_of, has_good_intervals};
ghost use Rattle.am_alerts.specs.RoutingTree.{tree_of, children_of, last_of, route_at, below_at, matching, or_self, routes_of};
ghost use Rattle.am_alerts.specs.RoutingTree.{level_fault, tree_fault};
ghost use Rattle.am_alerts.specs.Spans.{muted_at};

use crate::labels::Labels;
use crate::limits::{MAX_CHILDREN, MAX_DEPTH, MAX_ROUTES};
use crate::matcher::all_match;
use crate::route::{
    Child, GroupBy, Route, RouteFault, fault_where, has_name_twice, has_route_twice,
};
use crate::route_layout::{RouteLayout, below_in, is_low, muted_in, push_nodes};
use crate::sequence::Sequence;
use crate::spans::Span;
use crate::tree::{Node, TreeFault};
use std::alloc::{AllocError, Global};
use std::marker::Model;

/// A root, at position 0, and the routes below it, at positions 1, 2, ..: each before those below
/// it, which come before its next sibling.
#[derive(Debug, Drop)]
pub struct Routes {
    root: Route,
    children: Sequence<Child>,
    layouts: Sequence<RouteLayout>,
}

impl Model for Routes {
    ghost use Rattle.std.specs.Coded.{codes};
    ghost use Rattle.am_alerts.specs.Layout.{forest_code};
    ghost use Rattle.am_alerts.specs.RoutingTree.{RoutingTree};

    ghost Value = { RoutingTree };

    ghost coded = { Prim.hlevel (codes, forest_code) };

    ghost use Rattle.am_alerts.specs.RouteLayouts.{IsPlanted, paired, tree_from};

    ghost view = { λ r. tree_from r.root (paired r.children r.layouts) };

    ghost invariant = { λ r. IsPlanted r.root (paired r.children r.layouts) };
}

impl Routes {
    /// The routing tree of a root and its children: one level. Refused in this order:
    ///
    /// - `BadName`: the root isn't named `root`, or a child's name or a grouping name is no label
    ///   name.
    /// - `Twice`: two routes have one name.
    /// - `TooMany`: there are more than 63 children, or a route has more than 64 grouping names,
    ///   or a child more than 128 matchers.
    /// - `BadInterval`: a duration is above 10^12, or `group_interval` or `repeat_interval` is
    ///   zero.
    ///
    /// Takes no memory.
    pub fn new(root: Route, children: Vec<Child>) -> Result<Routes, RouteFault>
        ensures { result ≡ ok_unless (level_fault (tree_of root children.items))
            (tree_of root children.items) }
    {
        let twice = has_route_twice(&root, children.as_slice());
        let fits = children.len() <= MAX_CHILDREN;
        match fault_where(twice, fits, &root, children.as_slice()) {
            Some(fault) => Err(fault),
            None => {
                let layouts = Vec::new(*children.allocator());
                Ok(Routes {
                    root,
                    children: Sequence::from(children),
                    layouts: Sequence::from(layouts),
                })
            }
        }
    }

    /// The routing tree of a root, which says everything, and the routes below it, at any depth:
    /// what a route doesn't say it has from the nearest route above it that does. `Unfit`: refused
    /// as `new` does, but that up to 16,383 routes can be below the root, at up to 64 levels.
    /// `NoMemory`: out of memory, which may come before the others.
    pub fn nested(alloc: Global, root: Route, routes: Vec<Node>) -> Result<Routes, TreeFault>
        ensures value { IfOk result (λ made. made ≡ nested_of root (forest routes.items)) }
        ensures refused { IfErr result (λ fault. (fault ≡ TreeFault.NoMemory)
            ⊎ ((cause : RouteFault) × (fault ≡ TreeFault.Unfit cause)
            × (tree_fault (nested_of root (forest routes.items)) ≡ Some cause))) }
    {
        let low = is_low(routes.as_slice(), MAX_DEPTH);
        let mut children = Vec::new(alloc);
        let mut layouts = Vec::new(alloc);
        push_nodes(alloc, &mut children, &mut layouts, &root, routes)?;
        let twice = has_name_twice(alloc, &root, children.as_slice())?;
        let fits = fit(children.len(), low);
        match fault_where(twice, fits, &root, children.as_slice()) {
            Some(fault) => Err(TreeFault::Unfit(fault)),
            None => Ok(Routes {
                root,
                children: Sequence::from(children),
                layouts: Sequence::from(layouts),
            }),
        }
    }

    /// The last position: how many routes are below the root.
    pub fn last(&self) -> u32
        ensures last { result ≡ last_of self.now }
        ensures few { result ≤ MAX_ROUTES }
    {
        self.children.len() as u32
    }

    /// How many routes are below the one at a position, which exists and isn't the root's: they
    /// are at the positions right behind it.
    pub fn below(&self, position: u32) -> u32
        requires some { 0 < position }
        requires exists { position ≤ last_of self.now }
        ensures { result ≡ below_at self.now position }
    {
        below_in(self.layouts.as_slice(), position as usize - 1) as u32
    }

    /// The route at a position, which exists.
    pub fn route(&self, position: u32) -> &Route
        requires { position ≤ last_of self.now }
        ensures route { result.now ≡ route_at self.now position }
        ensures intervals { IsTrue (has_good_intervals result.now) }
    {
        if position == 0 {
            &self.root
        } else {
            &self.children.as_slice()[position as usize - 1].route
        }
    }

    /// The spans of time in which the route at a position, which exists, is muted, in their order.
    /// The root never is.
    pub fn muted(&self, position: u32) -> &[Span]
        requires { position ≤ last_of self.now }
        ensures { result.now ≡ muted_at self.now position }
    {
        if position == 0 {
            &[]
        } else {
            muted_in(self.layouts.as_slice(), position as usize - 1)
        }
    }

    /// The labels of a set by which the route at a position, which exists, groups it.
    pub fn group_labels(
        &self,
        alloc: Global,
        position: u32,
        labels: &Labels,
    ) -> Result<Labels, AllocError>
        requires { position ≤ last_of self.now }
        ensures { IfOk result
            (λ group. group ≡ group_labels_of (route_at self.now position) labels.now) }
    {
        let route = self.route(position);
        match &route.group_by {
            GroupBy::All => labels.copy(alloc),
            GroupBy::Names(names) => labels.only(alloc, names.as_slice()),
        }
    }

    /// The text of a group of the route at a position, which exists: the route's name, `:` and
    /// the text of these labels, which are taken as its group labels and not cut.
    pub fn key_text(
        &self,
        alloc: Global,
        position: u32,
        labels: &Labels,
    ) -> Result<String, AllocError>
        requires { position ≤ last_of self.now }
        ensures { IfOk result
            (λ text. string_bytes text ≡ key_text_of (route_at self.now position) labels.now) }
    {
        let mut text = String::from_str(alloc, self.route(position).name.as_str())?;
        text.push_str(":")?;
        labels.push_text(&mut text)?;
        Ok(text)
    }

    /// The root, at position 0.
    pub fn root(&self) -> &Route
        ensures root { result.now ≡ self.now.root }
        ensures sound { tree_fault self.now ≡ None }
    {
        &self.root
    }

    /// The routes below the root, at positions 1, 2, ..
    pub fn children(&self) -> &[Child]
        ensures children { result.now ≡ children_of self.now }
        ensures few { last_of self.now ≤ MAX_ROUTES }
        ensures sound { tree_fault self.now ≡ None }
    {
        self.children.as_slice()
    }

    /// The positions of the routes of a label set, ascending: routes are tried in order, and one
    /// that matches gives those below it that match, or itself where none does, and ends the search
    /// among its siblings unless it goes on. If none matches, the root alone.
    pub fn of(&self, alloc: Global, labels: &Labels) -> Result<Vec<u32>, AllocError>
        ensures value { IfOk result (λ positions. positions.items ≡ routes_of self.now labels.now) }
        ensures ascending { IfOk result (λ positions. IsStrictlyIncreasing positions.items) }
        ensures some { IfOk result (λ positions. 0 < length positions.items) }
        ensures exist { IfOk result (λ positions. All (λ p. p ≤ last_of self.now) positions.items) }
    {
        routes_found(
            alloc,
            self.children.as_slice(),
            self.layouts.as_slice(),
            labels,
        )
    }
}

/// Whether so many routes can be below a root; `low`: whether they are at few levels.
fn fit(count: usize, low: bool) -> bool
    ensures { result ≡ (nat_le count MAX_ROUTES && low) }
{
    count <= MAX_ROUTES && low
}

/// The positions of a label set's routes.
fn routes_found(
    alloc: Global,
    children: &[Child],
    layouts: &[RouteLayout],
    labels: &Labels,
) -> Result<Vec<u32>, AllocError>
    requires few { length children.now ≤ MAX_ROUTES }
    requires preorder { IsPreorder (paired children.now layouts.now) }
    ensures { IfOk result (λ positions. positions.items
        ≡ or_self 0 (matching 1 (planted (paired children.now layouts.now)) labels.now)) }
{
    let mut found = Vec::new(alloc);
    push_matching(
        alloc,
        &mut found,
        children,
        layouts,
        0,
        children.len(),
        labels,
    )?;
    if found.is_empty() {
        found.push(0)?;
    }
    Ok(found)
}

/// Adds the positions of a label set's routes among those of one level and below them, which are
/// in the lists from one index up to another.
#[cycle(search)]
fn push_matching(
    alloc: Global,
    found: &mut Vec<u32>,
    children: &[Child],
    layouts: &[RouteLayout],
    from: usize,
    to: usize,
    labels: &Labels,
) -> Result<(), AllocError>
    requires few { length children.now ≤ MAX_ROUTES }
    requires ordered { from ≤ to }
    requires within { to ≤ length children.now }
    requires preorder { IsPreorder (part from to (paired children.now layouts.now)) }
    ensures { IfOk result (λ _. found.new.items ≡ found.old.items
        ++ matching (from + 1) (planted (part from to (paired children.now layouts.now))) labels.now) }
{
    let mut at = from;
    while at < to {
        let end = at + 1 + below_in(layouts, at);
        let child = &children[at];
        if all_match(alloc, child.matchers.as_slice(), labels)? {
            push_reached(alloc, found, children, layouts, at, end, labels)?;
            if !child.continues {
                return Ok(());
            }
        }
        at = end;
    }
    Ok(())
}

/// Adds the positions of a label set's routes below one that matches it, or its own where there are
/// none.
#[cycle(search)]
fn push_reached(
    alloc: Global,
    found: &mut Vec<u32>,
    children: &[Child],
    layouts: &[RouteLayout],
    at: usize,
    end: usize,
    labels: &Labels,
) -> Result<(), AllocError>
    requires few { length children.now ≤ MAX_ROUTES }
    requires ordered { at < end }
    requires within { end ≤ length children.now }
    requires preorder { IsPreorder (part (at + 1) end (paired children.now layouts.now)) }
    ensures { IfOk result (λ _. found.new.items ≡ found.old.items ++ or_self (at + 1)
        (matching (at + 2) (planted (part (at + 1) end (paired children.now layouts.now))) labels.now)) }
{
    let before = found.len();
    push_matching(alloc, found, children, layouts, at + 1, end, labels)?;
    if found.len() == before {
        found.push(at as u32 + 1)?;
    }
    Ok(())
}
