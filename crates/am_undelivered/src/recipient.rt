//! `Recipient`: an integration that is to be notified of a span of firing, and what came of it.
ghost use Rattle.std.specs.Prelude.{◌≡◌, ◌≤◌, OnOk};
ghost use Rattle.std.specs.List.{flat_map, list_any};
ghost use Rattle.am_alerts.specs.RoutingTree.{last_of, route_at};
ghost use Rattle.am_undelivered.specs.Spans.{recipients_from, recipients_named, recipients_of, same_recipient, unflushed};
ghost use Rattle.am_undelivered.specs.Spans.{with_recipient, with_recipients};

use crate::fate::Fate;
use am_alerts::labels::Labels;
use am_alerts::text::Text;
use am_model::config::{Config, Integration};
use am_timeline::integration_name::index_at;
use std::alloc::{AllocError, Global};

/// An integration that is to be notified of a span of firing.
#[derive(Drop)]
pub struct Recipient {
    /// The name of its receiver.
    pub receiver: Text,
    pub kind: Text,
    /// Its index among the receiver's integrations of its kind.
    pub index: usize,
    /// Whether it is notified of resolved alerts too.
    pub resolves: bool,
    /// What the flushes came to at which the alert fired.
    pub page: Fate,
    /// What those came to at which it was resolved.
    pub clear: Fate,
}

/// Adds the integrations to which the routes of a label set lead, each unless it is there.
pub(crate) fn add_recipients(
    alloc: Global,
    config: &Config,
    labels: &Labels,
    all: &mut Vec<Recipient>,
) -> Result<(), AllocError>
    ensures { OnOk result (all.new.items ≡ with_recipients all.old.items (recipients_of config.now labels.now)) }
{
    let positions = config.routes.of(alloc, labels)?;
    for position in &positions {
        add_of_route(alloc, config, *position, all)?;
    }
    Ok(())
}

/// Adds the integrations of the receiver of the route at a position.
fn add_of_route(
    alloc: Global,
    config: &Config,
    position: u32,
    all: &mut Vec<Recipient>,
) -> Result<(), AllocError>
    requires { position ≤ last_of config.now.routes }
    ensures { OnOk result (all.new.items
        ≡ with_recipients all.old.items (recipients_named config.now (route_at config.now.routes position).receiver)) }
{
    let receiver = config.routes.route(position).receiver.as_str();
    add_named(alloc, config, receiver, all)
}

/// Adds the integrations of the receiver of this name.
fn add_named(
    alloc: Global,
    config: &Config,
    receiver: &str,
    all: &mut Vec<Recipient>,
) -> Result<(), AllocError>
    ensures { OnOk result (all.new.items ≡ with_recipients all.old.items (recipients_named config.now receiver.now)) }
{
    let integrations = config.integrations_named(receiver);
    for (position, integration) in integrations.iter().enumerate() {
        let index = index_at(integrations, position);
        add_integration(alloc, receiver, index, integration, all)?;
    }
    Ok(())
}

/// Adds the integration of this index among those of its kind, unless it is there.
fn add_integration(
    alloc: Global,
    receiver: &str,
    index: usize,
    integration: &Integration,
    all: &mut Vec<Recipient>,
) -> Result<(), AllocError>
    ensures { OnOk result (all.new.items
        ≡ with_recipient all.old.items (unflushed receiver.now index integration.now)) }
{
    let added = Recipient {
        receiver: Text::new(alloc, receiver)?,
        kind: integration.kind.copy(alloc)?,
        index,
        resolves: integration.send_resolved,
        page: Fate::Unflushed,
        clear: Fate::Unflushed,
    };
    if !is_there(&added, all.as_slice()) {
        all.push(added)?;
    }
    Ok(())
}

/// Returns whether an integration is among these.
fn is_there(added: &Recipient, all: &[Recipient]) -> bool
    ensures { result ≡ list_any (same_recipient added.now) all.now }
{
    all.iter().any(|there| is_same(added, there))
}

/// Returns whether two integrations have one receiver and one name.
fn is_same(a: &Recipient, b: &Recipient) -> bool
    ensures { result ≡ same_recipient a.now b.now }
{
    a.receiver.as_str() == b.receiver.as_str()
        && a.kind.as_str() == b.kind.as_str()
        && a.index == b.index
}
