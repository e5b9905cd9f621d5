//! Whether a configuration of a story has the receiver and the integration of an expectation.
ghost use Rattle.std.specs.Prelude.{◌≡◌, IfErr, OnOk, false, true};
ghost use Rattle.std.specs.List.{list_any};
ghost use Rattle.am_plans.specs.Expected.{has_integration, has_kind, has_target, is_named, is_target};
ghost use Rattle.am_plans.specs.Expected.{some_has_target};
ghost use Rattle.am_plans.specs.Configs.{configs_in};

use crate::configs::Configs;
use am_json::fault::{FaultKind, InputFault};
use am_json::pointer::JsonPointer;
use am_model::config::{Config, Integration, Receiver};
use am_terms::dispatcher_change::DispatcherChange;
use am_terms::expectation::Expectation;
use std::alloc::Global;

/// Refuses a receiver that no configuration has, and an integration that the receiver hasn't in any; where no receiver is
/// named, one that none has.
pub(crate) fn check_target(
    alloc: Global,
    configs: &Configs<'_>,
    expectation: &Expectation,
    pointer: &JsonPointer<'_>,
) -> Result<(), InputFault>
    ensures target { OnOk result (some_has_target (configs_in configs.now) expectation.now ≡ true) }
    ensures refused { IfErr result (λ _. some_has_target (configs_in configs.now) expectation.now ≡ false) }
{
    if some_has_target(configs, expectation) {
        return Ok(());
    }
    let wrong = wrong_member(configs, expectation);
    Err(pointer.member(wrong).refuse(alloc, FaultKind::BadValue))
}

/// The member for which there is no target: the receiver, if there is none of its name, or else the integration.
fn wrong_member(configs: &Configs<'_>, expectation: &Expectation) -> &'static str {
    match &expectation.receiver {
        Some(name) if !configs.have_receiver(name.as_str()) => "receiver",
        _ => "integration",
    }
}

/// Whether a receiver of one of the configurations has what an expectation names.
fn some_has_target(configs: &Configs<'_>, expectation: &Expectation) -> bool
    ensures { result ≡ some_has_target (configs_in configs.now) expectation.now }
{
    has_target(configs.own, expectation) || later_has_target(configs.later, expectation)
}

fn later_has_target(later: &[DispatcherChange], expectation: &Expectation) -> bool
    ensures { result ≡ list_any (λ h. has_target h.config expectation.now) later.now }
{
    later.iter().any(|dispatcher_change| has_target(&dispatcher_change.config, expectation))
}

/// Whether a receiver of the configuration has what an expectation names. A receiver that it names is looked up.
fn has_target(config: &Config, expectation: &Expectation) -> bool
    ensures { result ≡ has_target config.now expectation.now }
{
    let receivers = &config.receivers;
    match &expectation.receiver {
        None => some_is_target(receivers.as_slice(), expectation),
        Some(name) => match receivers.named(name.as_str()) {
            None => false,
            Some(first) => {
                let has_more = receivers.has_twice();
                has_integration(expectation, first)
                    || (has_more && some_is_target(receivers.as_slice(), expectation))
            }
        },
    }
}

fn some_is_target(receivers: &[Receiver], expectation: &Expectation) -> bool
    ensures { result ≡ list_any (is_target expectation.now) receivers.now }
{
    receivers
        .iter()
        .any(|receiver| is_target(expectation, receiver))
}

fn is_target(expectation: &Expectation, receiver: &Receiver) -> bool
    ensures { result ≡ is_target expectation.now receiver.now }
{
    is_named(expectation, receiver) && has_integration(expectation, receiver)
}

/// Whether a receiver has the name that an expectation says, if it says one.
fn is_named(expectation: &Expectation, receiver: &Receiver) -> bool
    ensures { result ≡ is_named expectation.now.receiver receiver.now }
{
    match &expectation.receiver {
        None => true,
        Some(name) => receiver.name.as_str() == name.as_str(),
    }
}

/// Whether a receiver has an integration of the kind and at the position that an expectation says, where it says these.
fn has_integration(expectation: &Expectation, receiver: &Receiver) -> bool
    ensures { result ≡ has_integration expectation.now.kind expectation.now.integration receiver.now.integrations }
{
    let integrations = receiver.integrations.as_slice();
    match (&expectation.kind, expectation.integration) {
        (None, None) => true,
        (None, Some(position)) => (position as usize) < integrations.len(),
        (Some(kind), None) => has_kind(integrations, kind.as_str()),
        (Some(kind), Some(position)) => match integrations.get(position as usize) {
            None => false,
            Some(integration) => integration.kind.as_str() == kind.as_str(),
        },
    }
}

fn has_kind(integrations: &[Integration], kind: &str) -> bool
    ensures { result ≡ has_kind kind.now integrations.now }
{
    integrations
        .iter()
        .any(|integration| integration.kind.as_str() == kind)
}
