//! What is odd in a configuration, though it is accepted.
use crate::implied::{Entry, Never, entries_of, never_reached};
use crate::lint::{Lint, Warnings};
use am_alerts::route::{Route, Routes};
use am_command_line::durations::push_duration;
use am_model::config::Config;
use serde_json::Value;
use std::alloc::{AllocError, Global};
use std::collections::{BTreeMap, BTreeSet};

/// Adds a warning for each route that no label set reaches or that shares its log entries, and for receivers, inhibition rules and
/// waits that can't be meant. `written` has the routes as the file has them, the root first; none where it isn't one of
/// Alertmanager.
pub fn push_warnings(
    alloc: Global,
    config: &Config,
    written: &[&Value],
    warnings: &mut Warnings<'_>,
) -> Result<(), AllocError> {
    push_routes(alloc, &config.routes, warnings)?;
    push_receivers(alloc, config, warnings)?;
    push_rules(config, warnings)?;
    push_waits(alloc, &config.routes, written, warnings)
}

/// Adds a warning for each route that no label set reaches, and for each that has the matchers and the receiver of one before it.
/// Cost: each route with its siblings, but no more than a million comparisons; routes with the same matchers are always found.
fn push_routes(
    alloc: Global,
    routes: &Routes,
    warnings: &mut Warnings<'_>,
) -> Result<(), AllocError> {
    let entries = entries_of(alloc, routes)?;
    let mut left = MAX_COMPARED;
    for (index, entry) in entries.iter().enumerate() {
        let name = &entry.child.route.name;
        match never_reached(alloc, entries.as_slice(), index, &mut left)? {
            Never::Reached => push_shared(entry, warnings)?,
            Never::Contradicts => {
                if warnings.begin(Lint::UnreachableRoute)? {
                    write!(warnings.lines, "no label set reaches route `{name}`: ")?;
                    warnings
                        .lines
                        .push_str("its matchers, with those above it, exclude each other")?;
                    warnings.end(Lint::UnreachableRoute)?;
                }
            }
            Never::Behind(earlier) => {
                if warnings.begin(Lint::UnreachableRoute)? {
                    write!(warnings.lines, "no label set reaches route `{name}`: ")?;
                    write!(
                        warnings.lines,
                        "route `{earlier}` before it takes them all, without `continue`"
                    )?;
                    warnings.end(Lint::UnreachableRoute)?;
                }
            }
        }
    }
    Ok(())
}

/// How many routes and matchers are compared.
const MAX_COMPARED: usize = 1_000_000;

/// Adds a warning on a route, if an earlier sibling has its matchers and its receiver.
fn push_shared(entry: &Entry<'_>, warnings: &mut Warnings<'_>) -> Result<(), AllocError> {
    if let Some(before) = entry.alike {
        if warnings.begin(Lint::SharedLogEntries)? {
            write!(
                warnings.lines,
                "routes `{}` and `{}` have the same matchers and receiver, so they share their \
                 entries in Alertmanager's notification log",
                before.route.name, entry.child.route.name
            )?;
            warnings.end(Lint::SharedLogEntries)?;
        }
    }
    Ok(())
}

/// Adds a warning for each receiver that no route names.
fn push_receivers(
    alloc: Global,
    config: &Config,
    warnings: &mut Warnings<'_>,
) -> Result<(), AllocError> {
    let mut used = BTreeSet::new(alloc);
    used.insert(config.routes.root().receiver.as_str())?;
    for child in config.routes.children() {
        used.insert(child.route.receiver.as_str())?;
    }
    for receiver in config.receivers.as_slice() {
        let is_used = used.contains(receiver.name.as_str());
        if !is_used && warnings.begin(Lint::UnusedReceiver)? {
            write!(warnings.lines, "no route has receiver `{}`", receiver.name)?;
            warnings.end(Lint::UnusedReceiver)?;
        }
    }
    Ok(())
}

/// Adds a warning for each inhibition rule that inhibits more than can be meant.
fn push_rules(config: &Config, warnings: &mut Warnings<'_>) -> Result<(), AllocError> {
    for (index, rule) in config.rules.as_slice().iter().enumerate() {
        if rule.target().is_empty() && warnings.begin(Lint::InhibitWithoutTarget)? {
            write!(
                warnings.lines,
                "inhibition rule {index} has no matchers of targets: it inhibits every alert"
            )?;
            warnings.end(Lint::InhibitWithoutTarget)?;
        }
        if rule.equal().is_empty() && warnings.begin(Lint::InhibitWithoutEqual)? {
            write!(
                warnings.lines,
                "inhibition rule {index} has no `equal`: an alert of its source inhibits each of its targets, \
                 of whatever cluster or instance"
            )?;
            warnings.end(Lint::InhibitWithoutEqual)?;
        }
    }
    Ok(())
}

/// A pair of waits that a route says, at which repeats come later than it says, or now and then.
#[derive(Clone, Copy)]
struct OddWaits<'r> {
    /// The first route with them.
    route: &'r Route,
    /// How many others have them.
    others: usize,
}

/// The pairs of waits of routes at which repeats come later than they say, or now and then, in the order of their first routes.
#[derive(Drop)]
struct OddRoutes<'r> {
    waits: Vec<OddWaits<'r>>,
    /// Their indexes, by `group_interval` and `repeat_interval`.
    indexes: BTreeMap<(u64, u64), usize>,
}

impl<'r> OddRoutes<'r> {
    /// Counts a route among those that have its waits.
    fn add(&mut self, route: &'r Route) -> Result<(), AllocError> {
        let key = (route.group_interval, route.repeat_interval);
        let found = self.indexes.get(&key).copied();
        if let Some(waits) = found.and_then(|index| self.waits.get_mut(index)) {
            waits.others = waits.others.saturating_add(1);
            return Ok(());
        }
        self.indexes.insert(key, self.waits.len())?;
        self.waits.push(OddWaits { route, others: 0 })?;
        Ok(())
    }
}

/// Adds a warning for each pair of waits at which repeats come later than a route says, or now and then.
fn push_waits(
    alloc: Global,
    routes: &Routes,
    written: &[&Value],
    warnings: &mut Warnings<'_>,
) -> Result<(), AllocError> {
    let mut odd = OddRoutes {
        waits: Vec::new(alloc),
        indexes: BTreeMap::new(alloc),
    };
    let mut below = routes.children().iter();
    for (index, value) in written.iter().enumerate() {
        let route = if index == 0 {
            Some(routes.root())
        } else {
            below.next().map(|child| &child.route)
        };
        match route {
            Some(route) if says_waits(value) && is_odd(route) => odd.add(route)?,
            _ => {}
        }
    }
    for waits in &odd.waits {
        push_wait(waits, warnings)?;
    }
    Ok(())
}

/// Returns whether a route's repeats come later than it says, or now and then.
fn is_odd(route: &Route) -> bool {
    let interval = route.group_interval;
    let repeat = route.repeat_interval;
    interval != 0 && repeat != 0 && (repeat < interval || repeat % interval == 0)
}

/// Returns whether a route of a file says how often it repeats or flushes.
fn says_waits(route: &Value) -> bool {
    ["group_interval", "repeat_interval"].iter().any(|name| route
        .get(*name)
        .is_some_and(|value| !value.is_null()))
}

fn push_wait(waits: &OddWaits<'_>, warnings: &mut Warnings<'_>) -> Result<(), AllocError> {
    let interval = waits.route.group_interval;
    let repeat = waits.route.repeat_interval;
    let lint = if repeat < interval {
        Lint::RepeatBelowInterval
    } else {
        Lint::RepeatOnTheEdge
    };
    if !warnings.begin(lint)? {
        return Ok(());
    }
    write!(warnings.lines, "route `{}`", waits.route.name)?;
    if waits.others > 0 {
        write!(warnings.lines, " (and {} more)", waits.others)?;
    }
    warnings.lines.push_str(" repeats after ")?;
    if lint == Lint::RepeatBelowInterval {
        push_duration(interval, warnings.lines)?;
        warnings.lines.push_str(", its `group_interval`: its `repeat_interval` is below it, ")?;
        push_duration(repeat, warnings.lines)?;
    } else {
        push_duration(repeat, warnings.lines)?;
        warnings.lines.push_str(" or after ")?;
        push_duration(repeat.saturating_add(interval), warnings.lines)?;
        warnings.lines.push_str(
            ", as milliseconds fall: `repeat_interval` is a multiple of `group_interval`; with ",
        )?;
        push_duration(repeat.saturating_sub(interval / 2), warnings.lines)?;
        warnings.lines.push_str(" it is ")?;
        push_duration(repeat, warnings.lines)?;
    }
    warnings.end(lint)
}
