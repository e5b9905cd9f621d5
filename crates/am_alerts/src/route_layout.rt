//! Lays a tree of `Node`s out in the order of positions.
ghost use Rattle.std.specs.Prelude.{◌≡◌, ◌++◌, IfOk, map, nat_le, unwrap_or};
ghost use Rattle.am_alerts.specs.Forest.{height, listed};
ghost use Rattle.am_alerts.specs.Layout.{preorder};
ghost use Rattle.am_alerts.specs.Nested.{forest, settled_below, settled_options, settled_route};
ghost use Rattle.am_alerts.specs.RouteLayouts.{below_in, layout_of, muted_in, tree_below};

use crate::route::{Child, GroupBy, Route};
use crate::spans::{Span, Spans};
use crate::text::Text;
use crate::tree::{Node, Options, RouteSpec};
use std::alloc::{AllocError, Global};

/// Where a route is among the routes of a tree.
#[derive(Debug, Drop)]
pub(crate) struct RouteLayout {
    /// How many routes are below it, right behind it.
    pub(crate) below: usize,
    /// When the route is muted.
    pub(crate) muted: Spans,
}

/// How many routes are below one. A route without a layout is a leaf.
pub(crate) fn below_in(layouts: &[RouteLayout], at: usize) -> usize
    ensures { result ≡ below_in layouts.now at }
{
    match layouts.get(at) {
        Some(index) => index.below,
        None => 0,
    }
}

/// When a route is muted. A route without a layout never is.
pub(crate) fn muted_in(layouts: &[RouteLayout], at: usize) -> &[Span]
    ensures { result.now ≡ muted_in layouts.now at }
{
    match layouts.get(at) {
        Some(index) => index.muted.as_slice(),
        None => &[],
    }
}

/// Whether these routes are at so many levels at most.
pub(crate) fn is_low(nodes: &[Node], levels: usize) -> bool
    ensures { result ≡ nat_le (height (forest nodes.now)) levels }
{
    for node in nodes {
        if levels == 0 || !is_low(node.routes.as_slice(), levels - 1) {
            return false;
        }
    }
    true
}

/// Adds these routes, each before those below it, with their layouts. Each has what it doesn't say
/// from the route above them, which says everything.
#[cycle(push)]
pub(crate) fn push_nodes(
    alloc: Global,
    children: &mut Vec<Child>,
    layouts: &mut Vec<RouteLayout>,
    above: &Route,
    nodes: Vec<Node>,
) -> Result<(), AllocError>
    ensures children { IfOk result (λ _. children.new.items ≡ children.old.items
        ++ map (λ r. r.child) (listed (settled_below above.now (forest nodes.items)))) }
    ensures layouts { IfOk result (λ _. layouts.new.items ≡ layouts.old.items
        ++ map layout_of (preorder (settled_below above.now (forest nodes.items)))) }
{
    for node in nodes {
        let Node { rule, routes } = node;
        push_node(alloc, children, layouts, above, rule, routes)?;
    }
    Ok(())
}

/// Adds a route and those below it.
#[cycle(push)]
fn push_node(
    alloc: Global,
    children: &mut Vec<Child>,
    layouts: &mut Vec<RouteLayout>,
    above: &Route,
    rule: RouteSpec,
    routes: Vec<Node>,
) -> Result<(), AllocError>
    ensures children { IfOk result (λ _. children.new.items ≡ children.old.items
        ++ map (λ r. r.child) (listed (tree_below above.now rule (forest routes.items)))) }
    ensures layouts { IfOk result (λ _. layouts.new.items ≡ layouts.old.items
        ++ map layout_of (preorder (tree_below above.now rule (forest routes.items)))) }
{
    let (child, muted) = settled(alloc, above, rule)?;
    if routes.is_empty() {
        children.push(child)?;
        layouts.push(RouteLayout { below: 0, muted })?;
        return Ok(());
    }
    let route = child.route.copy(alloc)?;
    let at = layouts.len();
    children.push(child)?;
    layouts.push(RouteLayout {
        below: 0,
        muted: Spans::none(),
    })?;
    push_nodes(alloc, children, layouts, &route, routes)?;
    let below = layouts.len() - at - 1;
    layouts[at] = RouteLayout { below, muted };
    Ok(())
}

/// The route of a spec below one that says everything, and when it is muted.
fn settled(alloc: Global, above: &Route, rule: RouteSpec) -> Result<(Child, Spans), AllocError>
    ensures { IfOk result (λ made. made ≡ ((settled_route above.now rule).child, rule.muted)) }
{
    let RouteSpec {
        name,
        options,
        matchers,
        continues,
        muted,
    } = rule;
    let route = route_of(alloc, above, name, options)?;
    let child = Child {
        route,
        matchers,
        continues,
    };
    Ok((child, muted))
}

fn route_of(alloc: Global, above: &Route, name: Text, options: Options) -> Result<Route, AllocError>
    ensures { IfOk result (λ route. route ≡ settled_options above.now name options) }
{
    let Options {
        receiver,
        group_by,
        group_wait,
        group_interval,
        repeat_interval,
    } = options;
    let receiver = receiver_of(alloc, above, receiver)?;
    let group_by = group_by_of(alloc, above, group_by)?;
    Ok(Route {
        name,
        receiver,
        group_by,
        group_wait: group_wait.unwrap_or(above.group_wait),
        group_interval: group_interval.unwrap_or(above.group_interval),
        repeat_interval: repeat_interval.unwrap_or(above.repeat_interval),
    })
}

fn receiver_of(alloc: Global, above: &Route, said: Option<Text>) -> Result<Text, AllocError>
    ensures { IfOk result (λ receiver. receiver ≡ unwrap_or said above.now.receiver) }
{
    match said {
        Some(receiver) => Ok(receiver),
        None => above.receiver.copy(alloc),
    }
}

fn group_by_of(alloc: Global, above: &Route, said: Option<GroupBy>) -> Result<GroupBy, AllocError>
    ensures { IfOk result (λ group_by. group_by ≡ unwrap_or said above.now.group_by) }
{
    match said {
        Some(group_by) => Ok(group_by),
        None => above.group_by.copy(alloc),
    }
}
