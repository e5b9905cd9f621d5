//! Why a label set is muted, and where it goes.
//!
//! A status changes nothing. It looks at each silence and at each inhibition rule, where a begin
//! stops at the first that mutes.
ghost use Rattle.std.specs.Prelude.{◌≡◌, IfOk, map};
ghost use Rattle.am_alerts.specs.RoutingTree.{routes_of};
ghost use Rattle.am_board.specs.History.{state_at};
ghost use Rattle.am_board.specs.Refinement.{state_of};
ghost use Rattle.am_model.specs.State.{time};
ghost use Rattle.am_model.specs.Status.{label_status, label_status_at, route_status};
ghost use Rattle.am_mute.specs.Sources.{AreLearnt};

use crate::board::Board;
use crate::config::Config;
use crate::state::State;
use am_alerts::labels::Labels;
use am_alerts::sequence::Sequence;
use am_alerts::spans::muted_until;
pub use am_model::status::{LabelStatus, RouteStatus};
use am_mute::causes::mute_causes;
use am_mute::sources::Sources;
use std::alloc::{AllocError, Global};

impl Board {
    /// Returns what mutes a label set at `now` (milliseconds), and its routes.
    ///
    /// The label set needn't be a known alert's. Each silence that mutes it is listed, then each
    /// inhibition rule that does, with the first known alert because of which it does. Each of its
    /// routes has until when its time intervals mute it. It fails only out of memory.
    ///
    /// Cost: the silences and the routes, each with its matchers; for the rules as in a begin.
    pub fn status(
        &self,
        alloc: Global,
        labels: &Labels,
        now: u64,
    ) -> Result<LabelStatus, AllocError>
        ensures { IfOk result (λ status. status ≡ label_status self.now.config (state_at self.now) labels.now now) }
    {
        status_of(alloc, &self.config, &self.state, &self.sources, labels, now)
    }
}

/// What mutes a label set where a call comes at `now`, and its routes.
fn status_of(
    alloc: Global,
    config: &Config,
    state: &State,
    sources: &Sources,
    labels: &Labels,
    now: u64,
) -> Result<LabelStatus, AllocError>
    requires { AreLearnt config.now.rules state.now.known.items sources.now }
    ensures { IfOk result (λ status. status ≡ label_status config.now (state_of state.now) labels.now now) }
{
    let t = state.time(now);
    let rules = config.rules.as_slice();
    let known = state.known.as_slice();
    let silences = state.silences.all().as_slice();
    let mutes = mute_causes(alloc, labels, t, silences, rules, known, sources)?;
    let routes = route_statuses(alloc, config, labels, t)?;
    Ok(LabelStatus {
        time: t,
        mutes: Sequence::from(mutes),
        routes: Sequence::from(routes),
    })
}

/// The routes of a label set, with until when each is muted at `t`.
fn route_statuses(
    alloc: Global,
    config: &Config,
    labels: &Labels,
    t: u64,
) -> Result<Vec<RouteStatus>, AllocError>
    ensures { IfOk result (λ routes. routes.items ≡ map (route_status config.now t) (routes_of config.now.routes labels.now)) }
{
    let positions = config.routes.of(alloc, labels)?;
    let mut routes = Vec::with_capacity(alloc, positions.len())?;
    for position in &positions {
        routes.push(RouteStatus {
            route: *position,
            muted_until: muted_until(config.routes.muted(*position), t),
        })?;
    }
    Ok(routes)
}
