//! Where routes are in their tree, and their options as text.
use am_alerts::route::{Child, GroupBy, Route, Routes};
use am_command_line::durations::push_duration;
use std::alloc::{AllocError, Global};

/// Where a route below the root is.
#[derive(Clone, Copy)]
pub struct RoutePosition {
    /// The position of the route right above it.
    pub above: usize,
    /// How many levels it is below the root.
    pub level: usize,
}

/// Returns where the routes below the root are, in the order of their positions. Cost: the routes, times their levels.
pub fn route_positions(alloc: Global, routes: &Routes) -> Result<Vec<RoutePosition>, AllocError> {
    let mut found = Vec::new(alloc);
    for _ in routes.children() {
        found.push(RoutePosition { above: 0, level: 1 })?;
    }
    for index in 0..routes.last() {
        let position = index + 1;
        let first = position as usize;
        let behind = first.saturating_add(routes.below(position) as usize);
        for lower in first..behind {
            if let Some(route_position) = found.get_mut(lower) {
                route_position.above = first;
                route_position.level = route_position.level.saturating_add(1);
            }
        }
    }
    Ok(found)
}

/// Returns where the route of an index below the root is.
pub fn place_at(places: &[RoutePosition], index: usize) -> RoutePosition {
    match places.get(index) {
        Some(place) => *place,
        None => RoutePosition { above: 0, level: 1 },
    }
}

/// Returns the route right above the one at this place.
pub fn route_above(routes: &Routes, place: RoutePosition) -> &Route {
    let index = place.above.checked_sub(1);
    match index.and_then(|index| routes.children().get(index)) {
        Some(above) => &above.route,
        None => routes.root(),
    }
}

/// Returns the labels by which the root groups, and its waits.
pub fn options_of(alloc: Global, root: &Route) -> Result<String, AllocError> {
    let mut options = String::new(alloc);
    push_group_by(&root.group_by, &mut options)?;
    push_waits(root, &mut options)?;
    Ok(options)
}

/// Returns what a route doesn't have from the route above it, and whether it has `continue`.
pub fn options_below(alloc: Global, child: &Child, above: &Route) -> Result<String, AllocError> {
    let route = &child.route;
    let mut options = String::new(alloc);
    if !groups_alike(&route.group_by, &above.group_by) {
        push_group_by(&route.group_by, &mut options)?;
    }
    for (name, wait, inherited) in [
        ("group_wait", route.group_wait, above.group_wait),
        ("group_interval", route.group_interval, above.group_interval),
        (
            "repeat_interval",
            route.repeat_interval,
            above.repeat_interval,
        ),
    ] {
        if wait != inherited {
            push_wait(name, wait, &mut options)?;
        }
    }
    if child.continues {
        options.push_str("; continue")?;
    }
    Ok(options)
}

/// Returns whether two routes group by the same labels.
fn groups_alike(group_by: &GroupBy, other: &GroupBy) -> bool {
    match (group_by, other) {
        (GroupBy::All, GroupBy::All) => true,
        (GroupBy::Names(names), GroupBy::Names(others)) => names == others,
        _ => false,
    }
}

/// Returns the three waits of a route.
pub fn waits_of(alloc: Global, route: &Route) -> Result<String, AllocError> {
    let mut waits = String::new(alloc);
    push_waits(route, &mut waits)?;
    Ok(waits)
}

fn push_waits(route: &Route, out: &mut String) -> Result<(), AllocError> {
    push_wait("group_wait", route.group_wait, out)?;
    push_wait("group_interval", route.group_interval, out)?;
    push_wait("repeat_interval", route.repeat_interval, out)
}

fn push_wait(name: &str, wait: u64, out: &mut String) -> Result<(), AllocError> {
    write!(out, "; {name} ")?;
    push_duration(wait, out)
}

fn push_group_by(group_by: &GroupBy, out: &mut String) -> Result<(), AllocError> {
    out.push_str("; group_by [")?;
    match group_by {
        GroupBy::All => out.push_str("...")?,
        GroupBy::Names(names) => {
            let mut separator = "";
            for name in names.as_slice() {
                write!(out, "{separator}{name}")?;
                separator = ", ";
            }
        }
    }
    out.push(']')
}
