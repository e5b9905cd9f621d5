//! Finding rows again as Alertmanager does: `Rekeying` returns the rows that a log under a new
//! configuration has for those of one under an old one.
//!
//! Alertmanager's log knows an entry by the receiver's name, the integration's kind and index, the
//! route's key (`route_keys`) and the group labels. So a changed matcher makes a first notification.
//! `carry` is the other way, for programs that want none.
ghost use Rattle.std.specs.Prelude.{◌≡◌, ◌≤◌, ◌<◌, All, IfOk, None, filter, length, slice_index_or};
ghost use Rattle.std.specs.List.{list_any};
ghost use Rattle.am_alerts.specs.RoutingTree.{last_of};
ghost use Rattle.am_model.specs.Carry.{is_led_to};
ghost use Rattle.am_model.specs.Config.{config_fault};
ghost use Rattle.am_model.specs.Insert.{names_for};
ghost use Rattle.am_model.specs.Rekey.{has_receiver_at, rekeyed};
ghost use Rattle.am_model.specs.KeyIndex.{IsIndexOf};
ghost use Rattle.am_model.specs.RouteKeys.{keys_of, root_key};
ghost use Rattle.am_model.specs.State.{same_name};

use crate::carry::{moved_to, rows_at};
use crate::config::Config;
use crate::group::GroupName;
use crate::route_keys::{KeyIndex, index_of, positions_at, route_keys};
use crate::views::RowView;
use am_alerts::labels::Labels;
use am_alerts::text::Text;
use std::alloc::{AllocError, Global};
use std::marker::Model;

/// Two configurations, the one before a reload and the one after it, with the keys of their routes.
///
/// Contracts see the two.
#[derive(Drop)]
pub struct Rekeying<'c> {
    old: &'c Config,
    new: &'c Config,
    /// The keys of the old routes, by their positions.
    olds: Vec<Text>,
    /// Where the new routes are, by their keys.
    news: KeyIndex,
}

impl<'c> Model for Rekeying<'c> {
    ghost use Rattle.std.specs.Coded.{codes};
    ghost use Rattle.std.specs.Prelude.{◌≡◌, None};
    ghost use Rattle.am_alerts.specs.Layout.{forest_code};
    ghost use Rattle.am_model.specs.Config.{config_fault};
    ghost use Rattle.am_model.specs.KeyIndex.{IsIndexOf};
    ghost use Rattle.am_model.specs.Rekey.{Reload};
    ghost use Rattle.am_model.specs.RouteKeys.{keys_of};

    ghost Value = { Reload };

    ghost coded = { Prim.hlevel (codes, forest_code) };

    ghost view = { λ r. record { old = r.old.now; new = r.new.now } };

    ghost invariant = { λ r. (r.olds.items ≡ keys_of r.old.now.routes)
        × IsIndexOf (keys_of r.new.now.routes) r.news
        × (config_fault r.new.now ≡ None) };
}

impl<'c> Rekeying<'c> {
    /// Prepares a reload from an old configuration to a new one, which has no fault.
    ///
    /// # Errors
    ///
    /// `AllocError`: out of memory.
    ///
    /// Cost: the routes of both, their matchers, and for each route the matchers above it.
    pub fn new(alloc: Global, old: &'c Config, new: &'c Config) -> Result<Rekeying<'c>, AllocError>
        requires faultless { config_fault new.now ≡ None }
        ensures { IfOk result (λ r. r ≡ record { old = old.now; new = new.now }) }
    {
        let olds = route_keys(alloc, &old.routes)?;
        let news = route_keys(alloc, &new.routes)?;
        let news = index_of(alloc, news.as_slice())?;
        Ok(Rekeying {
            old,
            new,
            olds,
            news,
        })
    }

    /// Returns the rows that a log under the new configuration has for a row of one under the old.
    /// They are as the row, except for the route's position and the integration's.
    ///
    /// There is one for each new route that has the row's receiver and the key of the row's route.
    /// So if a matcher of the route changed, or of a route above it, there is none, save for other
    /// routes that have the old key now. Where Alertmanager's routes of one key share an entry,
    /// each has a row here. The integration is the
    /// one of the same kind and the same index among the receiver's integrations of its kind. There
    /// is no row where the receiver has none.
    ///
    /// # Errors
    ///
    /// `AllocError`: out of memory.
    ///
    /// Cost: a look-up of the key, receivers, and the routes of this key.
    pub fn rows(&self, alloc: Global, row: &RowView) -> Result<Vec<RowView>, AllocError>
        ensures { IfOk result (λ rows. rows.items ≡ rekeyed self.now row.now) }
    {
        let olds = self.olds.as_slice();
        found_again(alloc, self.old, self.new, olds, &self.news, row)
    }
}

/// Returns the rows that a log under a new configuration has for a row of one under an old one, by
/// the keys of the old routes and the indexes of those of the new ones.
fn found_again(
    alloc: Global,
    old: &Config,
    new: &Config,
    keys: &[Text],
    indexes: &KeyIndex,
    row: &RowView,
) -> Result<Vec<RowView>, AllocError>
    requires keys { keys.now ≡ keys_of old.now.routes }
    requires indexes { IsIndexOf (keys_of new.now.routes) indexes.now }
    requires faultless { config_fault new.now ≡ None }
    ensures { IfOk result (λ rows. rows.items ≡ rekeyed (record { old = old.now; new = new.now }) row.now) }
{
    let receiver = old.route_of(&row.group).receiver.as_str();
    let olds = old.integrations_of(&row.group);
    let news = new.integrations_named(receiver);
    match moved_to(olds, row.integration, news) {
        None => Ok(Vec::new(alloc)),
        Some(integration) => {
            let key = key_at(keys, row.group.route);
            let positions = positions_at(indexes, key);
            let routes = routes_of_receiver(alloc, new, receiver, positions)?;
            rows_at(alloc, row, integration, routes.as_slice())
        }
    }
}

/// Returns the key of the route at a position, or the root's where no route has the position.
fn key_at(keys: &[Text], position: u32) -> &Text
    requires { 0 < length keys.now }
    ensures { result.now ≡ slice_index_or keys.now position (slice_index_or keys.now 0 root_key) }
{
    let position = position as usize;
    if position < keys.len() {
        &keys[position]
    } else {
        &keys[0]
    }
}

/// Returns those of these positions whose routes have this receiver.
fn routes_of_receiver(
    alloc: Global,
    config: &Config,
    receiver: &str,
    positions: &[u32],
) -> Result<Vec<u32>, AllocError>
    requires { All (λ p. p ≤ last_of config.now.routes) positions.now }
    ensures { IfOk result (λ routes. routes.items ≡ filter (has_receiver_at config.now receiver.now) positions.now) }
{
    let mut routes = Vec::new(alloc);
    for position in positions {
        if config.routes.route(*position).receiver.as_str() == receiver {
            routes.push(*position)?;
        }
    }
    Ok(routes)
}

/// Returns whether an alert of a row, firing or resolved, goes to the row's own group under a
/// configuration. The group then finds the row.
///
/// # Errors
///
/// `AllocError`: out of memory.
///
/// Cost: the routes that are tried for each alert up to the first that goes there, and their
/// matchers.
pub fn is_led_to(alloc: Global, config: &Config, row: &RowView) -> Result<bool, AllocError>
    ensures { IfOk result (λ led. led ≡ is_led_to config.now row.now) }
{
    if one_leads(alloc, config, &row.group, row.firing.as_slice())? {
        return Ok(true);
    }
    one_leads(alloc, config, &row.group, row.resolved.as_slice())
}

/// Returns whether an alert of one of these label sets goes to a group.
fn one_leads(
    alloc: Global,
    config: &Config,
    group: &GroupName,
    sets: &[Labels],
) -> Result<bool, AllocError>
    ensures { IfOk result (λ led. led
        ≡ list_any (λ labels. list_any (same_name group.now) (names_for config.now labels)) sets.now) }
{
    for labels in sets {
        if leads(alloc, config, group, labels)? {
            return Ok(true);
        }
    }
    Ok(false)
}

/// Returns whether an alert with these labels goes to a group.
fn leads(
    alloc: Global,
    config: &Config,
    group: &GroupName,
    labels: &Labels,
) -> Result<bool, AllocError>
    ensures { IfOk result (λ leads. leads ≡ list_any (same_name group.now) (names_for config.now labels.now)) }
{
    let found = config.routes.of(alloc, labels)?;
    let is_routed = found.as_slice().contains(&group.route);
    if !is_routed {
        return Ok(false);
    }
    let own = config.routes.group_labels(alloc, group.route, labels)?;
    let same = group.labels == own;
    Ok(same)
}
