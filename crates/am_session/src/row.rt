//! The rows that `load` hands to the board: lines name their routes, and a board has positions.
ghost use Rattle.std.specs.Prelude.{◌≡◌, ◌≤◌, [], ◌∷◌, IfOk, Some, option_copied, slice_get};
ghost use Rattle.std.specs.Option.{option_or};
ghost use Rattle.std.specs.Str.{bytes_eq};
ghost use Rattle.am_alerts.specs.RoutingTree.{last_of};
ghost use Rattle.am_session.specs.Row.{has_named_receiver, kind_of, no_labels, row_under, row_named};

use crate::route_names::RouteNames;
use am_alerts::labels::Labels;
use am_alerts::route::Routes;
use am_alerts::sequence::Sequence;
use am_alerts::text::Text;
use am_board::group::GroupName;
use am_model::config::{Config, kind_at};
use am_model::views::RowView;
use am_protocol::request::{NamedGroup, NamedRow};
use std::alloc::{AllocError, Global};

/// Returns a row as a board of this configuration has it. None where no route has its name, where its receiver is another
/// or its integration not of its kind, or where its group isn't one without labels, as it says: a row of another
/// configuration isn't taken for one of this. `names` are those of its routes.
pub fn row_of(
    alloc: Global,
    config: &Config,
    names: &RouteNames,
    named: NamedRow,
) -> Result<Option<RowView>, AllocError>
    requires { names.now ≡ config.now.routes ∷ [] }
    ensures { IfOk result (λ found. found ≡ row_named config.now named) }
{
    match names.find(named.group.route.as_str()) {
        Some(route) => row_under(alloc, config, route, named),
        None => Ok(None),
    }
}

/// Returns a row as it is under this route; None as `row_of` has it.
fn row_under(
    alloc: Global,
    config: &Config,
    route: u32,
    named: NamedRow,
) -> Result<Option<RowView>, AllocError>
    requires { route ≤ last_of config.now.routes }
    ensures { IfOk result (λ found. found ≡ row_under config.now named (Some route)) }
{
    let NamedRow {
        group: NamedGroup {
            route: _name,
            labels,
        },
        receiver,
        integration,
        kind,
        time,
        expiry,
        firing,
        resolved,
    } = named;
    let alert = first_of(firing.as_slice(), resolved.as_slice());
    let Some(labels) = group_labels(alloc, &config.routes, route, labels, alert)? else {
        return Ok(None);
    };
    let row = RowView {
        group: GroupName { route, labels },
        integration,
        time,
        expiry,
        firing: Sequence::from(firing),
        resolved: Sequence::from(resolved),
    };
    if has_named_receiver(config, &row, receiver) && has_kind(config, &row, kind.as_str()) {
        Ok(Some(row))
    } else {
        Ok(None)
    }
}

/// The first alert of a row.
fn first_of<'a>(firing: &'a [Labels], resolved: &'a [Labels]) -> Option<&'a Labels>
    ensures { option_copied result ≡ option_or (slice_get firing.now 0) (slice_get resolved.now 0) }
{
    match firing.first() {
        Some(labels) => Some(labels),
        None => resolved.first(),
    }
}

/// Returns the labels that a row names for its group. If it names none: an empty set if the group of its first alert has
/// none, else None.
fn group_labels(
    alloc: Global,
    routes: &Routes,
    route: u32,
    labels: Option<Labels>,
    alert: Option<&Labels>,
) -> Result<Option<Labels>, AllocError>
    requires { route ≤ last_of routes.now }
    ensures { IfOk result (λ found. found ≡ option_or labels (no_labels routes.now route (option_copied alert.entry))) }
{
    match labels {
        Some(labels) => Ok(Some(labels)),
        None => no_labels(alloc, routes, route, alert),
    }
}

/// Returns an empty set if the group of this alert has no labels; None if it has some, and without an alert.
fn no_labels(
    alloc: Global,
    routes: &Routes,
    route: u32,
    alert: Option<&Labels>,
) -> Result<Option<Labels>, AllocError>
    requires { route ≤ last_of routes.now }
    ensures { IfOk result (λ found. found ≡ no_labels routes.now route (option_copied alert.entry)) }
{
    let Some(alert) = alert else {
        return Ok(None);
    };
    let labels = routes.group_labels(alloc, route, alert)?;
    let count = labels.len();
    if count > 0 {
        return Ok(None);
    }
    Ok(Some(labels))
}

/// Whether the receiver of a row is the one of this name, where one is named.
fn has_named_receiver(config: &Config, row: &RowView, receiver: Option<Text>) -> bool
    ensures { result ≡ has_named_receiver config.now row.now receiver }
{
    match receiver {
        None => true,
        Some(name) => config.route_of(&row.group).receiver.as_str() == name.as_str(),
    }
}

/// Whether the integration of a row is of this kind.
fn has_kind(config: &Config, row: &RowView, kind: &str) -> bool
    ensures { result ≡ bytes_eq (kind_of config.now row.now) kind.now }
{
    kind_at(config.integrations_of(&row.group), row.integration as usize) == kind
}
