//! The pointer of the fault for which a configuration is rejected as a whole.
use crate::config::limits_in;
use crate::fault::{FaultKind, InputFault};
use crate::reader::{FromJson, Mode, Reader};
use crate::route::ALL_LABELS;
use am_alerts::labels::is_label_name;
use am_alerts::route::RouteFault;
use am_model::config::{Config, ConfigFault, Limits, MAX_INTEGRATIONS, Receiver};

/// The fault that refuses a configuration for this cause: in the strict mode at the value at fault.
pub(crate) fn refuse_config(
    reader: &Reader<'_, '_>,
    config: &Config,
    cause: ConfigFault,
) -> InputFault {
    if reader.mode() == Mode::Lenient {
        return reader.refuse(FaultKind::BadValue);
    }
    let receivers = config.receivers.as_slice();
    match cause {
        ConfigFault::UnknownReceiver => refuse_receiver_of_route(reader, config),
        ConfigFault::ReceiverTwice => refuse_second_receiver(reader, receivers),
        ConfigFault::TooManyReceivers => refuse_member(reader, "receivers"),
        ConfigFault::TooManyIntegrations => refuse_integrations(reader, receivers),
        ConfigFault::BadKind => refuse_kind(reader, receivers),
        ConfigFault::TooManyRules => refuse_member(reader, "inhibit"),
        ConfigFault::BadRetention => refuse_member(reader, "retention"),
        ConfigFault::BadLimit => refuse_limit(reader, &config.limits),
    }
}

/// The fault that refuses more receivers than a configuration may have: in the strict mode at their list.
pub(crate) fn refuse_receivers(reader: &Reader<'_, '_>) -> InputFault {
    if reader.mode() == Mode::Lenient {
        return reader.refuse(FaultKind::BadValue);
    }
    refuse_member(reader, "receivers")
}

/// The fault that refuses routes that make no routing tree: in the strict mode at the value at fault.
pub(crate) fn refuse_routes(reader: &Reader<'_, '_>, cause: RouteFault) -> InputFault {
    if reader.mode() == Mode::Lenient {
        return reader.refuse(FaultKind::BadValue);
    }
    let looked = match cause {
        RouteFault::BadName => check_names(reader),
        RouteFault::Twice => check_once(reader),
        RouteFault::TooMany => return refuse_member(reader, "children"),
        RouteFault::BadInterval => Ok(()),
    };
    match looked {
        Ok(()) => reader.refuse(FaultKind::BadValue),
        Err(fault) => fault,
    }
}

fn refuse_member(reader: &Reader<'_, '_>, name: &str) -> InputFault {
    reader.refuse_at(&reader.pointer().member(name), FaultKind::BadValue)
}

/// Refuses the first route's receiver that isn't there.
fn refuse_receiver_of_route(reader: &Reader<'_, '_>, config: &Config) -> InputFault {
    let top = reader.pointer();
    if config
        .receiver(config.routes.root().receiver.as_str())
        .is_none()
    {
        let root = top.member("route");
        return reader.refuse_at(&root.member("receiver"), FaultKind::BadValue);
    }
    let children = top.member("children");
    for (index, child) in config.routes.children().iter().enumerate() {
        if config.receiver(child.route.receiver.as_str()).is_none() {
            let child = children.item(index);
            return reader.refuse_at(&child.member("receiver"), FaultKind::BadValue);
        }
    }
    reader.refuse(FaultKind::BadValue)
}

/// Refuses the first receiver that has the name of one before it.
fn refuse_second_receiver(reader: &Reader<'_, '_>, receivers: &[Receiver]) -> InputFault {
    let pointer = reader.pointer().member("receivers");
    for (index, receiver) in receivers.iter().enumerate() {
        let name = receiver.name.as_str();
        if receivers[..index]
            .iter()
            .any(|earlier| earlier.name.as_str() == name)
        {
            let receiver = pointer.item(index);
            return reader.refuse_at(&receiver.member("name"), FaultKind::BadValue);
        }
    }
    reader.refuse(FaultKind::BadValue)
}

/// Refuses the first receiver's integrations that are too many.
fn refuse_integrations(reader: &Reader<'_, '_>, receivers: &[Receiver]) -> InputFault {
    let pointer = reader.pointer().member("receivers");
    for (index, receiver) in receivers.iter().enumerate() {
        if receiver.integrations.len() > MAX_INTEGRATIONS {
            let receiver = pointer.item(index);
            return reader.refuse_at(&receiver.member("integrations"), FaultKind::BadValue);
        }
    }
    reader.refuse(FaultKind::BadValue)
}

/// Refuses the first integration's kind that has no label name's form.
fn refuse_kind(reader: &Reader<'_, '_>, receivers: &[Receiver]) -> InputFault {
    let pointer = reader.pointer().member("receivers");
    for (index, receiver) in receivers.iter().enumerate() {
        if let Some(bad) = bad_kind(receiver) {
            let receiver = pointer.item(index);
            let integrations = receiver.member("integrations");
            let integration = integrations.item(bad);
            return reader.refuse_at(&integration.member("kind"), FaultKind::BadValue);
        }
    }
    reader.refuse(FaultKind::BadValue)
}

/// The position of the first integration whose kind has no label name's form.
fn bad_kind(receiver: &Receiver) -> Option<usize> {
    receiver
        .integrations
        .as_slice()
        .iter()
        .position(|integration| !is_label_name(integration.kind.as_str()))
}

/// Refuses the first limit that is zero or above its greatest value.
fn refuse_limit(reader: &Reader<'_, '_>, limits: &Limits) -> InputFault {
    let most = limits_in(reader.mode());
    let pointer = reader.pointer().member("limits");
    for (name, limit, greatest) in [
        ("names", limits.alerts, most.alerts),
        ("groups", limits.groups, most.groups),
        ("silences", limits.silences, most.silences),
        ("flushes", limits.flushes, most.flushes),
        ("history", limits.history, most.history),
    ] {
        if limit == 0 || limit > greatest {
            return reader.refuse_at(&pointer.member(name), FaultKind::BadValue);
        }
    }
    reader.refuse(FaultKind::BadValue)
}

/// Refuses the first name of a child, or by which a route groups, that has no label name's form.
fn check_names(reader: &Reader<'_, '_>) -> Result<(), InputFault> {
    let config = reader.object()?;
    let root = config.required("route")?.object()?;
    root.list_or_none::<GroupingName>("group_by")?;
    config.list_or_none::<NamesOfChild>("children")?;
    Ok(())
}

/// Refuses the first name of a child that the root has, or a child before it.
fn check_once(reader: &Reader<'_, '_>) -> Result<(), InputFault> {
    let config = reader.object()?;
    let names = config.list_or_none::<NameOfChild<'_>>("children")?;
    let children = reader.pointer().member("children");
    for (index, child) in names.iter().enumerate() {
        let is_second = names[..index]
            .iter()
            .any(|earlier| earlier.name == child.name);
        if is_second || child.name == "root" {
            let child = children.item(index);
            return Err(
                child
                    .member("name")
                    .refuse(reader.alloc(), FaultKind::BadValue),
            );
        }
    }
    Ok(())
}

/// An item of `group_by`, which has the form of a label name or represents all labels.
#[derive(Drop)]
struct GroupingName;

/// The name of a child, which has the form of a label name, and those by which it groups.
#[derive(Drop)]
struct NamesOfChild;

/// The name of a child.
#[derive(Drop)]
struct NameOfChild<'v> {
    name: &'v str,
}

impl<'v> FromJson<'v> for GroupingName {
    fn read(reader: &Reader<'v, '_>) -> Result<GroupingName, InputFault> {
        let name = reader.text()?;
        if name != ALL_LABELS && !is_label_name(name) {
            return Err(reader.refuse(FaultKind::BadValue));
        }
        Ok(GroupingName)
    }
}

impl<'v> FromJson<'v> for NamesOfChild {
    fn read(reader: &Reader<'v, '_>) -> Result<NamesOfChild, InputFault> {
        let child = reader.object()?;
        let name = child.required("name")?;
        if !is_label_name(name.text()?) {
            return Err(name.refuse(FaultKind::BadValue));
        }
        child.list_or_none::<GroupingName>("group_by")?;
        Ok(NamesOfChild)
    }
}

impl<'v> FromJson<'v> for NameOfChild<'v> {
    fn read(reader: &Reader<'v, '_>) -> Result<NameOfChild<'v>, InputFault> {
        let child = reader.object()?;
        let name = child.required("name")?.text()?;
        Ok(NameOfChild { name })
    }
}
