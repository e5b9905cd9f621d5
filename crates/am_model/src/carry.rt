//! Carrying rows over: `carried` returns the rows that a log under a new configuration takes over
//! of one under an old configuration. After a restart `Board::load` takes each of them.
ghost use Rattle.std.specs.Prelude.{◌≡◌, ◌≤◌, fold, length, map, None, IfOk, OnOk};
ghost use Rattle.am_alerts.specs.RoutingTree.{last_of};
ghost use Rattle.am_model.specs.Carry.{index_at, position_of, moved_to, inherits, with_position, with_successor};
ghost use Rattle.am_model.specs.Carry.{with_successors, successors, own_or_all, moved, carried};
ghost use Rattle.am_model.specs.Config.{config_fault};
ghost use Rattle.am_model.specs.declared.config.TheConstants.{MAX_INTEGRATIONS};

use crate::config::{Config, Integration, kind_at};
use crate::views::RowView;
use am_alerts::labels::Labels;
use std::alloc::{AllocError, Global};

/// Returns the rows that a log under a new configuration takes over for a row of a log under an old
/// one. They are as the row, except for the route's position and the integration's.
///
/// There is one for each new route that has the row's receiver and puts an alert of the row into a
/// group with the row's group labels. Exception: if the route at the row's own position is one of
/// them, it has the row alone. Under an unchanged configuration each of the others has a row of its
/// own. The integration is the one of the same kind and the same index among the receiver's
/// integrations of its kind. There is no row where the receiver has none.
///
/// An alert of the row isn't sent a second time by a route that has the row. A second notification
/// can come in these cases:
/// - `group_by`, the receiver's name or the order of integrations of one kind changed.
/// - The alert goes to several routes of one receiver with the same group labels, and their
///   positions shifted. Then the route at the row's own position has the row alone, also where it is
///   another route than before, and one of the others may have none.
///
/// Alertmanager's log finds a row again by receiver, integration and group key. That key has the
/// matchers from the root down, so there each change of a matcher makes a first notice.
pub fn carried(
    alloc: Global,
    old: &Config,
    new: &Config,
    row: &RowView,
) -> Result<Vec<RowView>, AllocError>
    requires faultless { config_fault new.now ≡ None }
    ensures { IfOk result (λ rows. rows.items ≡ carried old.now new.now row.now) }
{
    let receiver = old.route_of(&row.group).receiver.as_str();
    let olds = old.integrations_of(&row.group);
    let news = new.integrations_named(receiver);
    match moved_to(olds, row.integration, news) {
        None => Ok(Vec::new(alloc)),
        Some(integration) => {
            let routes = takers(alloc, new, receiver, row)?;
            rows_at(alloc, row, integration, routes.as_slice())
        }
    }
}

/// Returns the position among new integrations of the one that is at a position among old ones.
pub(crate) fn moved_to(olds: &[Integration], position: u32, news: &[Integration]) -> Option<u32>
    requires { length news.now ≤ MAX_INTEGRATIONS }
    ensures { result ≡ moved_to olds.now position news.now }
{
    let position = position as usize;
    if position >= olds.len() {
        return None;
    }
    let index = index_at(olds, position);
    position_of(kind_at(olds, position), index, news)
}

/// Returns how many integrations of its kind are before the one at a position.
fn index_at(integrations: &[Integration], position: usize) -> usize
    requires { position ≤ length integrations.now }
    ensures { result ≡ index_at integrations.now position }
{
    let kind = kind_at(integrations, position);
    integrations[..position]
        .iter()
        .filter(|integration| integration.kind.as_str() == kind)
        .count()
}

/// Returns the position of the integration of a kind that has an index among those of this kind.
fn position_of(kind: &str, index: usize, integrations: &[Integration]) -> Option<u32>
    requires { length integrations.now ≤ MAX_INTEGRATIONS }
    ensures { result ≡ position_of kind.now index 0 integrations.now }
{
    let mut left = index;
    for i in 0..integrations.len() {
        if integrations[i].kind.as_str() == kind {
            if left == 0 {
                return Some(i as u32);
            }
            left -= 1;
        }
    }
    None
}

/// Returns the positions of the routes that take over a row of this receiver.
fn takers(
    alloc: Global,
    config: &Config,
    receiver: &str,
    row: &RowView,
) -> Result<Vec<u32>, AllocError>
    ensures { IfOk result (λ routes. routes.items
        ≡ own_or_all row.now.group.route (successors config.now receiver.now row.now)) }
{
    let mut routes = successors(alloc, config, receiver, row)?;
    prefer_own(&mut routes, row.group.route)?;
    Ok(routes)
}

/// Leaves the row's own position alone, if it is among these.
fn prefer_own(routes: &mut Vec<u32>, own: u32) -> Result<(), AllocError>
    ensures { OnOk result (routes.new.items ≡ own_or_all own routes.old.items) }
{
    if routes.as_slice().contains(&own) {
        routes.clear();
        routes.push(own)?;
    }
    Ok(())
}

/// Returns the positions of the routes that inherit a row of this receiver.
fn successors(
    alloc: Global,
    config: &Config,
    receiver: &str,
    row: &RowView,
) -> Result<Vec<u32>, AllocError>
    ensures { IfOk result (λ routes. routes.items ≡ successors config.now receiver.now row.now) }
{
    let mut routes = Vec::new(alloc);
    let group = &row.group.labels;
    add_all(
        alloc,
        config,
        receiver,
        group,
        row.firing.as_slice(),
        &mut routes,
    )?;
    add_all(
        alloc,
        config,
        receiver,
        group,
        row.resolved.as_slice(),
        &mut routes,
    )?;
    Ok(routes)
}

/// Adds the routes of these alerts that inherit.
fn add_all(
    alloc: Global,
    config: &Config,
    receiver: &str,
    group: &Labels,
    sets: &[Labels],
    routes: &mut Vec<u32>,
) -> Result<(), AllocError>
    ensures { OnOk result (routes.new.items
        ≡ fold (with_successors config.now receiver.now group.now) routes.old.items sets.now) }
{
    for labels in sets {
        add_successors(alloc, config, receiver, group, labels, routes)?;
    }
    Ok(())
}

/// Adds the routes of an alert that inherit.
fn add_successors(
    alloc: Global,
    config: &Config,
    receiver: &str,
    group: &Labels,
    labels: &Labels,
    routes: &mut Vec<u32>,
) -> Result<(), AllocError>
    ensures { OnOk result (routes.new.items ≡ with_successors config.now receiver.now group.now routes.old.items labels.now) }
{
    let found = config.routes.of(alloc, labels)?;
    for i in 0..found.len() {
        add_successor(alloc, config, receiver, group, labels, found[i], routes)?;
    }
    Ok(())
}

/// Adds a route, if it inherits.
fn add_successor(
    alloc: Global,
    config: &Config,
    receiver: &str,
    group: &Labels,
    labels: &Labels,
    route: u32,
    routes: &mut Vec<u32>,
) -> Result<(), AllocError>
    requires { route ≤ last_of config.now.routes }
    ensures { OnOk result (routes.new.items
        ≡ with_successor config.now receiver.now group.now labels.now routes.old.items route) }
{
    if inherits(alloc, config, receiver, group, labels, route)? {
        add_route(routes, route)?;
    }
    Ok(())
}

/// Returns whether a route has this receiver, and puts an alert into a group of these group labels.
fn inherits(
    alloc: Global,
    config: &Config,
    receiver: &str,
    group: &Labels,
    labels: &Labels,
    route: u32,
) -> Result<bool, AllocError>
    requires { route ≤ last_of config.now.routes }
    ensures { IfOk result (λ does. does ≡ inherits config.now receiver.now group.now labels.now route) }
{
    if config.routes.route(route).receiver.as_str() != receiver {
        return Ok(false);
    }
    let own = config.routes.group_labels(alloc, route, labels)?;
    Ok(*group == own)
}

/// Adds a position, unless it is there.
fn add_route(routes: &mut Vec<u32>, route: u32) -> Result<(), AllocError>
    ensures { OnOk result (routes.new.items ≡ with_position routes.old.items route) }
{
    if !routes.as_slice().contains(&route) {
        routes.push(route)?;
    }
    Ok(())
}

/// Returns a row for each of these routes.
pub(crate) fn rows_at(
    alloc: Global,
    row: &RowView,
    integration: u32,
    routes: &[u32],
) -> Result<Vec<RowView>, AllocError>
    ensures { IfOk result (λ rows. rows.items ≡ map (moved row.now integration) routes.now) }
{
    let mut rows = Vec::with_capacity(alloc, routes.len())?;
    for route in routes {
        rows.push(moved(alloc, row, integration, *route)?)?;
    }
    Ok(rows)
}

/// Returns a row under another integration and route.
fn moved(alloc: Global, row: &RowView, integration: u32, route: u32) -> Result<RowView, AllocError>
    ensures { IfOk result (λ copy. copy ≡ moved row.now integration route) }
{
    let mut copy = row.copy(alloc)?;
    copy.group.route = route;
    copy.integration = integration;
    Ok(copy)
}
