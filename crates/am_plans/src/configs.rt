//! The configurations under which a story runs. Outages and expectations are checked by them.
ghost use Rattle.std.specs.Prelude.{◌≡◌, is_some};
ghost use Rattle.std.specs.List.{list_any};
ghost use Rattle.am_plans.specs.Configs.{configs_in};
ghost use Rattle.am_plans.specs.Decoding.{has_target, some_has_target};

use am_model::config::Config;
use am_terms::dispatcher_change::DispatcherChange;

/// The configurations of a story.
#[derive(Drop)]
pub struct Configs<'c> {
    /// The one with which it starts.
    pub own: &'c Config,
    /// Those of its reloads and restarts are in these.
    pub later: &'c [DispatcherChange],
}

impl Configs<'_> {
    /// Returns whether one of the configurations has a receiver of this name, and the receiver what is said of its
    /// integrations.
    pub fn have_target(&self, receiver: &str, position: Option<u32>) -> bool
        ensures { result ≡ some_has_target (configs_in self.now) receiver.now position }
    {
        has_target(self.own, receiver, position) || later_has_target(self.later, receiver, position)
    }

    /// Returns whether one of the configurations has a receiver of this name.
    pub fn have_receiver(&self, name: &str) -> bool {
        self.own.receiver(name).is_some()
            || self.later.iter().any(|dispatcher_change| dispatcher_change
                .config
                .receiver(name)
                .is_some())
    }
}

fn later_has_target(later: &[DispatcherChange], receiver: &str, position: Option<u32>) -> bool
    ensures { result ≡ list_any (λ h. has_target h.config receiver.now position) later.now }
{
    later.iter().any(|dispatcher_change| has_target(&dispatcher_change.config, receiver, position))
}

fn has_target(config: &Config, receiver: &str, position: Option<u32>) -> bool
    ensures { result ≡ has_target config.now receiver.now position }
{
    match config.receiver(receiver) {
        None => false,
        Some(receiver) => match position {
            None => true,
            Some(position) => (position as usize) < receiver.integrations.len(),
        },
    }
}
