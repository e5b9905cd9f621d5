//! Groups, receivers and integrations, as text.
ghost use Rattle.std.specs.Prelude.{◌≡◌, ◌++◌, OnOk, string_bytes};
ghost use Rattle.am_timeline.specs.IntegrationName.{target_name};
ghost use Rattle.am_timeline.specs.Timeline.{group_shown, target_shown, group_receiver_text};

use crate::integration_name::push_name;
use crate::shown::{push_set, push_text};
use am_model::config::Config;
use am_model::group::GroupName;
use std::alloc::AllocError;

/// Adds a group, its receiver and one of the receiver's integrations.
pub(crate) fn push_target(
    config: &Config,
    group: &GroupName,
    position: usize,
    out: &mut String,
) -> Result<(), AllocError>
    ensures { OnOk result (string_bytes out.new
        ≡ string_bytes out.old ++ target_shown config.now group.now position) }
{
    push_group_receiver(config, group, out)?;
    out.push_str(" ")?;
    push_integration(config, group, position, out)
}

/// Adds a group and its receiver.
pub(crate) fn push_group_receiver(
    config: &Config,
    group: &GroupName,
    out: &mut String,
) -> Result<(), AllocError>
    ensures { OnOk result (string_bytes out.new ≡ string_bytes out.old ++ group_receiver_text config.now group.now) }
{
    push_group(config, group, out)?;
    out.push_str(" -> ")?;
    push_text(config.route_of(group).receiver.as_str(), out)
}

/// Adds a group: the name of its route and its group labels.
pub(crate) fn push_group(
    config: &Config,
    group: &GroupName,
    out: &mut String,
) -> Result<(), AllocError>
    ensures { OnOk result (string_bytes out.new ≡ string_bytes out.old ++ group_shown config.now group.now) }
{
    out.push_str(config.route_of(group).name.as_str())?;
    push_set(&group.labels, out)
}

/// Adds the name of an integration of a group's receiver.
pub fn push_integration(
    config: &Config,
    group: &GroupName,
    position: usize,
    out: &mut String,
) -> Result<(), AllocError>
    ensures { OnOk result (string_bytes out.new
        ≡ string_bytes out.old ++ target_name config.now group.now position) }
{
    push_name(config.integrations_of(group), position, out)
}
