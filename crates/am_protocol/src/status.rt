//! The answer to a line that asks the status of a label set.
ghost use Rattle.std.specs.Prelude.{◌≡◌, ◌++◌, OnOk};
ghost use Rattle.am_alerts.specs.RoutingTree.{route_at};
ghost use Rattle.am_protocol.specs.Status.{status_members, status_tokens};

use crate::answer::{Answer, ToJson};
use crate::parts::put_optional;
use crate::reply::{begin, end};
use crate::view::put_cause;
use am_alerts::route::Route;
use am_model::config::Config;
use am_model::status::{LabelStatus, RouteStatus};
use am_mute::mute::MuteCause;
use std::alloc::AllocError;

/// Writes what mutes a label set, and its routes: `{"status":{"now":0,"muted":[..],"routes":[..]}}`.
pub fn write_status(
    config: &Config,
    status: &LabelStatus,
    answer: &mut Answer,
) -> Result<(), AllocError>
    ensures { OnOk result (answer.new ≡ answer.old ++ status_tokens config.now status.now) }
{
    begin("status", answer)?;
    put_status(
        config,
        status.time,
        status.mutes.as_slice(),
        status.routes.as_slice(),
        answer,
    )?;
    end(answer)
}

/// Adds the time, all that mutes the label set, and its routes.
fn put_status(
    config: &Config,
    time: u64,
    mutes: &[MuteCause],
    routes: &[RouteStatus],
    answer: &mut Answer,
) -> Result<(), AllocError>
    ensures { OnOk result (answer.new ≡ answer.old ++ status_members config.now time mutes.now routes.now) }
{
    answer.put_number("now", time)?;
    answer.put_list(config, "muted", mutes)?;
    answer.put_list(config, "routes", routes)
}

impl ToJson for MuteCause {
    ghost use Rattle.am_protocol.specs.Status.{cause_tokens};

    ghost tokens = { λ config cause. cause_tokens cause };

    fn write(&self, config: &Config, answer: &mut Answer) -> Result<(), AllocError> {
        answer.open()?;
        put_cause(config, self, answer)?;
        answer.close()
    }
}

impl ToJson for RouteStatus {
    ghost use Rattle.am_protocol.specs.Status.{route_status_tokens};

    ghost tokens = { route_status_tokens };

    fn write(&self, config: &Config, answer: &mut Answer) -> Result<(), AllocError> {
        answer.open()?;
        answer.put_text("route", route_at(config, self.route).name.as_str())?;
        put_optional("muted_until", self.muted_until, answer)?;
        answer.close()
    }
}

/// The route at a position. A route of a status has one.
fn route_at(config: &Config, position: u32) -> &Route
    ensures { result.now ≡ route_at config.now.routes position }
{
    if position <= config.routes.last() {
        config.routes.route(position)
    } else {
        config.routes.root()
    }
}
