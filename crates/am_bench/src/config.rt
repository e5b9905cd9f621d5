//! The configuration of a board.
use crate::alerts::{CRITICAL, WARNING, listed, matchers, text};
use crate::words::{BenchError, both};
use am_alerts::matcher::Matcher;
use am_alerts::route::{Child, GroupBy, Route, Routes};
use am_alerts::sequence::Sequence;
use am_alerts::text::Text;
use am_board::config::{Config, Integration, Limits, Receiver, Receivers};
use am_mute::inhibit::InhibitRule;
use std::alloc::Global;

/// How long a group of the root waits before its first flush, in milliseconds.
pub const WAIT: u64 = 30_000;

/// How long a group waits from flush to flush, in milliseconds.
pub const INTERVAL: u64 = 30_000_000;

/// When a notice is repeated, in milliseconds.
pub const REPEAT: u64 = 300_000_000;

/// The receiver of the root.
pub const TEAM: &str = "team";

/// How many routes an alert goes to at most.
const FAN: usize = 16;

/// Longer than any piece takes, in milliseconds.
const LONG: u64 = 1_000_000_000;

/// One route, which groups by alertname and cluster, and one receiver with one integration.
pub fn plain(alloc: Global) -> Result<Config, BenchError> {
    let (routes, receivers) = both(routes(alloc, Vec::new(alloc)), receivers(alloc))?;
    Ok(config(routes, receivers, Vec::new(alloc)))
}

/// The same, with a rule by which critical alerts inhibit warnings of their cluster and instance, and
/// with a route by which critical alerts aren't flushed.
pub fn inhibiting(alloc: Global) -> Result<Config, BenchError> {
    let critical = critical(alloc)?;
    let routes = routes(alloc, critical);
    let ((routes, receivers), rules) = both(both(routes, receivers(alloc)), rules(alloc))?;
    Ok(config(routes, receivers, rules))
}

/// The same as `plain`, with 16 routes that each alert goes to, one after the other.
pub fn fanned(alloc: Global) -> Result<Config, BenchError> {
    let children = fan(alloc)?;
    let (routes, receivers) = both(routes(alloc, children), receivers(alloc))?;
    Ok(config(routes, receivers, Vec::new(alloc)))
}

/// The root with these children.
fn routes(alloc: Global, children: Vec<Child>) -> Result<Routes, BenchError> {
    let (root, children) = both(route(alloc, "root", WAIT), Ok(children))?;
    Routes::new(root, children).map_err(|_| BenchError::BadLine)
}

/// The configuration of these routes, receivers and rules, with the greatest limits.
pub fn config(routes: Routes, receivers: Receivers, rules: Vec<InhibitRule>) -> Config {
    Config {
        routes,
        receivers,
        rules: Sequence::from(rules),
        retention: 432_000_000,
        limits: Limits::greatest(),
    }
}

fn receivers(alloc: Global) -> Result<Receivers, BenchError> {
    let receivers = listed(alloc, receiver(alloc, TEAM)?)?;
    Ok(Receivers::new(alloc, receivers)?)
}

/// The receiver of this name, with one integration.
pub fn receiver(alloc: Global, name: &str) -> Result<Receiver, BenchError> {
    let (name, integrations) = both(text(alloc, name), integrations(alloc))?;
    Ok(Receiver { name, integrations })
}

fn integrations(alloc: Global) -> Result<Sequence<Integration>, BenchError> {
    let kind = text(alloc, "hook")?;
    let send_resolved = true;
    let integrations = listed(
        alloc,
        Integration {
            kind,
            send_resolved,
        },
    )?;
    Ok(Sequence::from(integrations))
}

/// A route to the receiver, which groups by alertname and cluster.
pub fn route(alloc: Global, name: &str, group_wait: u64) -> Result<Route, BenchError> {
    let texts = both(text(alloc, name), text(alloc, TEAM));
    let grouping = names(alloc, &["alertname", "cluster"]);
    let ((name, receiver), grouping) = both(texts, grouping)?;
    Ok(Route {
        name,
        receiver,
        group_by: GroupBy::Names(Sequence::from(grouping)),
        group_wait,
        group_interval: INTERVAL,
        repeat_interval: REPEAT,
    })
}

/// The route of critical alerts, in a list.
pub fn critical(alloc: Global) -> Result<Vec<Child>, BenchError> {
    let child = child(alloc, "critical", LONG, CRITICAL, false)?;
    Ok(listed(alloc, child)?)
}

/// Routes of warnings, after each of which the next one is tried.
fn fan(alloc: Global) -> Result<Vec<Child>, BenchError> {
    let mut children = Vec::new(alloc);
    for number in 0..FAN {
        children.push(numbered(alloc, number)?)?;
    }
    Ok(children)
}

fn numbered(alloc: Global, number: usize) -> Result<Child, BenchError> {
    let name = format!(in alloc; "r{number}")?;
    let child = child(alloc, name.as_str(), WAIT, WARNING, true);
    drop(name);
    child
}

/// The route of a severity.
fn child(
    alloc: Global,
    name: &str,
    group_wait: u64,
    severity: &str,
    continues: bool,
) -> Result<Child, BenchError> {
    let matchers = matchers(alloc, "severity", severity);
    let (route, matchers) = both(route(alloc, name, group_wait), matchers)?;
    Ok(Child {
        route,
        matchers: Sequence::from(matchers),
        continues,
    })
}

/// The rule, in a list.
fn rules(alloc: Global) -> Result<Vec<InhibitRule>, BenchError> {
    let rule = rule(alloc)?;
    Ok(listed(alloc, rule)?)
}

fn rule(alloc: Global) -> Result<InhibitRule, BenchError> {
    let source = matchers(alloc, "severity", CRITICAL);
    let matchers = both(source, matchers(alloc, "severity", WARNING));
    rule_of(alloc, matchers)
}

/// The rule by which alerts that match one list inhibit those of their cluster and instance that match
/// the other.
pub fn rule_of(
    alloc: Global,
    matchers: Result<(Vec<Matcher>, Vec<Matcher>), BenchError>,
) -> Result<InhibitRule, BenchError> {
    let ((source, target), equal) = both(matchers, names(alloc, &["cluster", "instance"]))?;
    InhibitRule::new(source, target, equal).map_err(|_| BenchError::BadLine)
}

fn names(alloc: Global, texts: &[&str]) -> Result<Vec<Text>, BenchError> {
    let mut names = Vec::new(alloc);
    for text in texts {
        names.push(Text::new(alloc, text)?)?;
    }
    Ok(names)
}
