//! The lines of routes, as `routes` prints them.
ghost use Rattle.std.specs.Prelude.{◌≡◌, ◌++◌, ◌≤◌, All, IfOk, OnOk, codes, string_bytes};
ghost use Rattle.std.specs.List.{join_by};
ghost use Rattle.am_alerts.specs.Matcher.{operator_text};
ghost use Rattle.am_alerts.specs.RoutingTree.{children_of, last_of, route_at};
ghost use Rattle.am_commands.specs.Lines.{Adds, AreLines};
ghost use Rattle.am_commands.specs.RouteLines.{IsChildLine, IsReachedLine, IsRootLine, ShowsReached, ShowsTree};
ghost use Rattle.am_commands.specs.RouteLines.{indent, matcher_text, matchers_text, reached_text, receivers_text, route_text};

use crate::times::push_times;
use crate::tree::{options_below, options_of, place_at, route_above, route_positions, waits_of};
use am_alerts::label_text::push_escaped;
use am_alerts::labels::Labels;
use am_alerts::matcher::{Matcher, MatcherParts, Operator};
use am_alerts::route::{Child, Route, Routes};
use am_config::written::WrittenRoutes;
use std::alloc::{AllocError, Global};

/// The routes that a label set reaches.
#[derive(Drop)]
pub struct Reached {
    /// A line for each.
    pub lines: String,
    /// Their receivers, with commas between them.
    pub receivers: String,
}

/// Returns the routing tree, a line for each route.
pub fn tree_text(
    alloc: Global,
    routes: &Routes,
    written: &WrittenRoutes<'_>,
) -> Result<String, AllocError>
    ensures { IfOk result (λ text. ShowsTree routes.now (string_bytes text)) }
{
    let mut lines = String::new(alloc);
    push_root(alloc, routes.root(), &mut lines)?;
    push_children(alloc, routes, written, &mut lines)?;
    Ok(lines)
}

/// Adds the line of the root, with all of its options.
fn push_root(alloc: Global, root: &Route, lines: &mut String) -> Result<(), AllocError>
    ensures { OnOk result (Adds (IsRootLine root.now) (string_bytes lines.old) (string_bytes lines.new)) }
{
    let options = options_of(alloc, root)?;
    push_route(root, &[], lines)?;
    lines.push_str(options.as_str())?;
    lines.push_str("\n")
}

/// Adds the lines of the routes below the root. Each has what the route doesn't have from the one above it, and the names of its time
/// intervals.
fn push_children(
    alloc: Global,
    routes: &Routes,
    written: &WrittenRoutes<'_>,
    lines: &mut String,
) -> Result<(), AllocError>
    ensures { OnOk result (Adds (AreLines IsChildLine (children_of routes.now)) (string_bytes lines.old) (string_bytes lines.new)) }
{
    let places = route_positions(alloc, routes)?;
    let mut position = 0u32;
    for (index, child) in routes.children().iter().enumerate() {
        position = position.saturating_add(1);
        let place = place_at(places.as_slice(), index);
        let mut options = options_below(alloc, child, route_above(routes, place))?;
        push_times(alloc, written, position, &mut options)?;
        push_child(child, place.level, options.as_str(), lines)?;
    }
    Ok(())
}

/// Adds the line of a route below the root, with these options.
fn push_child(
    child: &Child,
    level: usize,
    options: &str,
    lines: &mut String,
) -> Result<(), AllocError>
    ensures { OnOk result (Adds (IsChildLine child.now) (string_bytes lines.old) (string_bytes lines.new)) }
{
    push_indent(level, lines)?;
    push_route(&child.route, child.matchers.as_slice(), lines)?;
    lines.push_str(options)?;
    lines.push_str("\n")
}

/// Adds two blanks for each level.
fn push_indent(level: usize, lines: &mut String) -> Result<(), AllocError>
    ensures { OnOk result (string_bytes lines.new ≡ string_bytes lines.old ++ indent level) }
{
    for _ in 0..level {
        lines.push_str("  ")?;
    }
    Ok(())
}

/// Adds a route's name, its matchers and its receiver.
fn push_route(route: &Route, matchers: &[Matcher], lines: &mut String) -> Result<(), AllocError>
    ensures { OnOk result (string_bytes lines.new ≡ string_bytes lines.old ++ route_text route.now matchers.now) }
{
    lines.push_str(route.name.as_str())?;
    if !matchers.is_empty() {
        lines.push_str(" ")?;
        push_matchers(matchers, lines)?;
    }
    write!(lines, " -> {}", route.receiver)
}

/// Adds matchers as `alertmanager.yml` writes them in braces.
pub fn push_matchers(matchers: &[Matcher], lines: &mut String) -> Result<(), AllocError>
    ensures { OnOk result (string_bytes lines.new ≡ string_bytes lines.old ++ matchers_text matchers.now) }
{
    lines.push_str("{")?;
    push_each(matchers, lines)?;
    lines.push_str("}")
}

/// Adds matchers with commas between them.
fn push_each(matchers: &[Matcher], lines: &mut String) -> Result<(), AllocError>
    ensures { OnOk result (string_bytes lines.new ≡ string_bytes lines.old ++ join_by matcher_text (codes ",") matchers.now) }
{
    for (index, matcher) in matchers.iter().enumerate() {
        if index > 0 {
            lines.push_str(",")?;
        }
        push_matcher(matcher.parts(), lines)?;
    }
    Ok(())
}

fn push_matcher(parts: &MatcherParts, lines: &mut String) -> Result<(), AllocError>
    ensures { OnOk result (string_bytes lines.new ≡ string_bytes lines.old ++ matcher_text parts.now) }
{
    lines.push_str(parts.name.as_str())?;
    lines.push_str(operator_text(parts.op))?;
    lines.push_str("\"")?;
    push_escaped(lines, parts.value.as_str())?;
    lines.push_str("\"")
}

fn operator_text(op: Operator) -> &'static str
    ensures { result.now ≡ operator_text op }
{
    match op {
        Operator::Equal => "=",
        Operator::NotEqual => "!=",
        Operator::Like => "=~",
        Operator::NotLike => "!~",
    }
}

/// Returns the routes that a label set reaches.
pub fn reached_by(
    alloc: Global,
    routes: &Routes,
    written: &WrittenRoutes<'_>,
    labels: &Labels,
) -> Result<Reached, AllocError>
    ensures lines { IfOk result (λ reached. ShowsReached routes.now labels.now (string_bytes reached.lines)) }
    ensures receivers { IfOk result (λ reached. string_bytes reached.receivers ≡ receivers_text routes.now labels.now) }
{
    let positions = routes.of(alloc, labels)?;
    let lines = lines_at(alloc, routes, written, labels, positions.as_slice())?;
    let receivers = receivers_at(alloc, routes, positions.as_slice())?;
    Ok(Reached { lines, receivers })
}

/// Returns a line for the route at each of these positions, which a label set reaches.
fn lines_at(
    alloc: Global,
    routes: &Routes,
    written: &WrittenRoutes<'_>,
    labels: &Labels,
    positions: &[u32],
) -> Result<String, AllocError>
    requires { All (λ p. p ≤ last_of routes.now) positions.now }
    ensures { IfOk result (λ lines. AreLines (IsReachedLine routes.now labels.now) positions.now (string_bytes lines)) }
{
    let mut lines = String::new(alloc);
    for position in positions {
        push_position(alloc, routes, written, labels, *position, &mut lines)?;
    }
    Ok(lines)
}

/// Adds the line of the route at a position, which the label set reaches.
fn push_position(
    alloc: Global,
    routes: &Routes,
    written: &WrittenRoutes<'_>,
    labels: &Labels,
    position: u32,
    lines: &mut String,
) -> Result<(), AllocError>
    requires { position ≤ last_of routes.now }
    ensures { OnOk result (Adds (IsReachedLine routes.now labels.now position) (string_bytes lines.old) (string_bytes lines.new)) }
{
    let route = routes.route(position);
    let group = routes.group_labels(alloc, position, labels)?;
    let mut options = waits_of(alloc, route)?;
    push_times(alloc, written, position, &mut options)?;
    push_reached(route, &group, options.as_str(), lines)
}

/// Adds the line of a route that a label set reaches, with its group and these options.
fn push_reached(
    route: &Route,
    group: &Labels,
    options: &str,
    lines: &mut String,
) -> Result<(), AllocError>
    ensures { OnOk result (string_bytes lines.new
        ≡ string_bytes lines.old ++ (reached_text route.now group.now ++ options.now ++ codes "\n")) }
{
    write!(lines, "{} -> {}; group ", route.name, route.receiver)?;
    group.push_text(lines)?;
    lines.push_str(options)?;
    lines.push_str("\n")
}

/// Returns the receivers of the routes at these positions, with commas between them.
fn receivers_at(alloc: Global, routes: &Routes, positions: &[u32]) -> Result<String, AllocError>
    requires { All (λ p. p ≤ last_of routes.now) positions.now }
    ensures { IfOk result (λ receivers.
        string_bytes receivers ≡ join_by (λ position. (route_at routes.now position).receiver) (codes ",") positions.now) }
{
    let mut receivers = String::new(alloc);
    for (index, position) in positions.iter().enumerate() {
        if index > 0 {
            receivers.push_str(",")?;
        }
        receivers.push_str(routes.route(*position).receiver.as_str())?;
    }
    Ok(receivers)
}
