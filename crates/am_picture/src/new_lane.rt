//! New lanes: what they are known by, and what they have at first.
use crate::lane::{Flushes, Lane, nothing_quiet};
use am_model::config::Config;
use am_model::group::GroupName;
use am_timeline::filtered::Filter;
use am_timeline::integration_name::push_name;
use std::alloc::{AllocError, Global};

/// Returns which lane of a fold a group has: its route, receiver and integrations.
pub(crate) fn lane_name(
    alloc: Global,
    config: &Config,
    group: &GroupName,
) -> Result<String, AllocError> {
    let route = config.route_of(group);
    let mut name = String::new(alloc);
    name.push_str(route.name.as_str())?;
    name.push_str("\n")?;
    name.push_str(route.receiver.as_str())?;
    for integration in config.integrations_of(group) {
        name.push_str("\n")?;
        name.push_str(integration.kind.as_str())?;
    }
    Ok(name)
}

/// Returns the lane of a group in a fold, before its first flush.
pub(crate) fn new_lane(
    alloc: Global,
    config: &Config,
    filter: &Filter,
    fold: usize,
    group: &GroupName,
) -> Result<Lane, AllocError> {
    let route = config.route_of(group);
    let integrations = integrations_of(alloc, config, group)?;
    let quiet = nothing_quiet(alloc, integrations.len())?;
    Ok(Lane {
        fold,
        route: String::from_str(alloc, route.name.as_str())?,
        receiver: String::from_str(alloc, route.receiver.as_str())?,
        integrations,
        is_named: is_named(filter, route.name.as_str(), route.receiver.as_str()),
        is_matched: false,
        flushes: Flushes::none(),
        items: Vec::new(alloc),
        quiet,
        muted: Vec::new(alloc),
        last: None,
    })
}

/// Whether a filter wants a route and its receiver.
fn is_named(filter: &Filter, route: &str, receiver: &str) -> bool {
    let wants_route = match &filter.route {
        None => true,
        Some(name) => name.as_str() == route,
    };
    let wants_receiver = match &filter.receiver {
        None => true,
        Some(name) => name.as_str() == receiver,
    };
    wants_route && wants_receiver
}

/// The name of each integration of a group's receiver.
fn integrations_of(
    alloc: Global,
    config: &Config,
    group: &GroupName,
) -> Result<Vec<String>, AllocError> {
    let integrations = config.integrations_of(group);
    let mut names = Vec::new(alloc);
    for position in 0..integrations.len() {
        let mut name = String::new(alloc);
        push_name(integrations, position, &mut name)?;
        names.push(name)?;
    }
    Ok(names)
}
