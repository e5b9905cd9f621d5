//! Receivers and their integrations.
ghost use Rattle.std.specs.Prelude.{◌≡◌, ◌≢◌, [], IfOk, IsSomeAnd, OnOk, codes, map};
ghost use Rattle.serde_json.specs.View.{members_view, view};
ghost use Rattle.am_json.specs.Decoding.{HasOr, IsObject};
ghost use Rattle.am_config.specs.Collects.{Collects, Grows};
ghost use Rattle.am_config.specs.Receivers.{HasIntegration, HasList, HasLists, HasReceiver, HasReceivers, kind_in, kinds};
ghost use Rattle.am_config.specs.Said.{IsScalar, IsSet, Says};

use crate::collected::{keep, only};
use crate::dropped::IgnoredSettings;
use crate::optional::{items_up_to, non_null, required};
use crate::scalar::required_text;
use crate::settings::{Checking, keep_findings};
use am_alerts::sequence::Sequence;
use am_alerts::text::Text;
use am_json::fault::{FaultKind, InputFault};
use am_json::faults::Faults;
use am_json::reader::{Object, Reader};
use am_model::config::{Integration, MAX_INTEGRATIONS, MAX_RECEIVERS, Receiver};
use am_settings::kinds::{KINDS, Kind};
use am_settings::settings::Part;
use serde_json::{Map, Value};
use std::collections::BTreeSet;

/// The members of a receiver.
const MEMBERS: [&str; 19] = [
    "name",
    "webhook_configs",
    "email_configs",
    "pagerduty_configs",
    "opsgenie_configs",
    "wechat_configs",
    "slack_configs",
    "victorops_configs",
    "pushover_configs",
    "sns_configs",
    "telegram_configs",
    "discord_configs",
    "webex_configs",
    "msteams_configs",
    "msteamsv2_configs",
    "jira_configs",
    "rocketchat_configs",
    "mattermost_configs",
    "incidentio_configs",
];

/// How integrations are read.
#[derive(Clone, Copy)]
struct Context<'v> {
    /// The members of `global`, if there is one.
    global: Option<&'v Map<String, Value>>,
    checking: Checking,
}

/// The names of all receivers, if they can be given.
pub(crate) fn receiver_names(top: &Object<'_, '_>) -> Result<Option<BTreeSet<String>>, InputFault> {
    let mut names = BTreeSet::new(top.alloc());
    let mut unread = Faults::none(top.alloc());
    let Some(member) = non_null(top, "receivers") else {
        return Ok(Some(names));
    };
    let Ok(items) = member.array() else {
        return Ok(None);
    };
    for (index, value) in items.iter().enumerate() {
        match name_in(&mut unread, &member.item(index, value))? {
            None => return Ok(None),
            Some(name) => {
                names.insert(String::from_str(top.alloc(), name.as_str())?)?;
            }
        }
    }
    Ok(Some(names))
}

/// The name of a receiver, or why it can't be given.
fn name_in(unread: &mut Faults, reader: &Reader<'_, '_>) -> Result<Option<Text>, InputFault> {
    match unread.kept(reader.object())? {
        None => Ok(None),
        Some(receiver) => unread.kept(required_text(&receiver, "name")),
    }
}

/// Reads the receivers. More than `MAX_RECEIVERS` are refused unread.
pub(crate) fn read_receivers(
    faults: &mut Faults,
    dropped: &mut IgnoredSettings,
    top: &Object<'_, '_>,
    checking: Checking,
) -> Result<Vec<Receiver>, InputFault>
    ensures { IfOk result (λ receivers. Collects faults.old faults.new
        (HasReceivers (members_view top.now.members) receivers.items)) }
{
    let mut receivers = Vec::new(top.alloc());
    let mut names = BTreeSet::new(top.alloc());
    let Some(member) = non_null(top, "receivers") else {
        return Ok(receivers);
    };
    let Some(items) = items_up_to(faults, &member, MAX_RECEIVERS)? else {
        return Ok(receivers);
    };
    let context = Context {
        global: top.members().get("global").and_then(Value::as_object),
        checking,
    };
    for (index, value) in items.iter().enumerate() {
        let item = member.item(index, value);
        let Some(receiver) = read_receiver(faults, dropped, &names, &item, context)? else {
            continue;
        };
        names.insert(String::from_str(top.alloc(), receiver.name.as_str())?)?;
        receivers.push(receiver)?;
    }
    Ok(receivers)
}

/// Reads a receiver that comes behind those of these names.
fn read_receiver(
    faults: &mut Faults,
    dropped: &mut IgnoredSettings,
    before: &BTreeSet<String>,
    reader: &Reader<'_, '_>,
    context: Context<'_>,
) -> Result<Option<Receiver>, InputFault>
    ensures { IfOk result (λ read. Collects faults.old faults.new
        (IsSomeAnd read (IsObject HasReceiver (view reader.now.value)))) }
{
    let Some(receiver) = keep(faults, reader.object())? else {
        return Ok(None);
    };
    only(faults, &receiver, &MEMBERS)?;
    let name = keep(faults, read_name(before, &receiver))?;
    let integrations = read_integrations(faults, dropped, &receiver, context)?;
    refuse_many(faults, reader, integrations.len())?;
    match name {
        None => Ok(None),
        Some(name) => Ok(Some(Receiver {
            name,
            integrations: Sequence::from(integrations),
        })),
    }
}

/// Refuses a receiver with so many integrations where they are too many.
fn refuse_many(faults: &mut Faults, reader: &Reader<'_, '_>, count: usize) -> Result<(), InputFault>
    ensures { OnOk result (Grows faults.old faults.new) }
{
    if count <= MAX_INTEGRATIONS {
        return Ok(());
    }
    faults.push(reader.refuse(FaultKind::BadValue))
}

/// Reads the name of a receiver; one of these, or none, is refused.
fn read_name(before: &BTreeSet<String>, receiver: &Object<'_, '_>) -> Result<Text, InputFault>
    ensures name { IfOk result (Says IsScalar (codes "name") (members_view receiver.now.members)) }
    ensures named { IfOk result (λ name. name ≢ []) }
{
    let member = required(receiver, "name")?;
    let name = required_text(receiver, "name")?;
    if name.as_str().is_empty() || before.contains(name.as_str()) {
        return Err(member.refuse(FaultKind::BadValue));
    }
    Ok(name)
}

fn read_integrations(
    faults: &mut Faults,
    dropped: &mut IgnoredSettings,
    receiver: &Object<'_, '_>,
    context: Context<'_>,
) -> Result<Vec<Integration>, InputFault>
    ensures { IfOk result (λ integrations. Collects faults.old faults.new
        (HasLists kinds (members_view receiver.now.members) integrations.items)) }
{
    let all = all_kinds();
    let mut integrations = Vec::new(receiver.alloc());
    for kind in all {
        let mut list = read_list(faults, dropped, receiver, kind, context)?;
        integrations.append(&mut list)?;
    }
    Ok(integrations)
}

/// The kinds, in the order of a receiver's integrations.
fn all_kinds() -> &'static [Kind]
    ensures { map kind_in result.now ≡ kinds }
{
    &KINDS
}

/// Reads a receiver's integrations of one kind.
fn read_list(
    faults: &mut Faults,
    dropped: &mut IgnoredSettings,
    receiver: &Object<'_, '_>,
    kind: &Kind,
    context: Context<'_>,
) -> Result<Vec<Integration>, InputFault>
    ensures { IfOk result (λ integrations. Collects faults.old faults.new
        (HasList (kind_in kind.now) (members_view receiver.now.members) integrations.items)) }
{
    let mut integrations = Vec::new(receiver.alloc());
    let Some(member) = non_null(receiver, kind.list) else {
        return Ok(integrations);
    };
    let Some(items) = keep(faults, member.array())? else {
        return Ok(integrations);
    };
    for (index, value) in items.iter().enumerate() {
        let item = member.item(index, value);
        let Some(integration) = read_integration(faults, dropped, &item, kind, context)? else {
            continue;
        };
        integrations.push(integration)?;
    }
    Ok(integrations)
}

/// Reads an integration of a kind.
fn read_integration(
    faults: &mut Faults,
    dropped: &mut IgnoredSettings,
    reader: &Reader<'_, '_>,
    kind: &Kind,
    context: Context<'_>,
) -> Result<Option<Integration>, InputFault>
    ensures { IfOk result (λ read. Collects faults.old faults.new
        (IsSomeAnd read (IsObject (HasIntegration (kind_in kind.now)) (view reader.now.value)))) }
{
    let Some(settings) = keep(faults, reader.object())? else {
        return Ok(None);
    };
    check_settings(faults, reader, kind.part, &settings, context)?;
    note_settings(dropped, &settings);
    Ok(Some(Integration {
        kind: Text::new(settings.alloc(), kind.name)?,
        send_resolved: read_send_resolved(faults, &settings, kind)?,
    }))
}

/// Refuses what Alertmanager rejects in an integration, if that is looked at.
fn check_settings(
    faults: &mut Faults,
    reader: &Reader<'_, '_>,
    part: Part,
    settings: &Object<'_, '_>,
    context: Context<'_>,
) -> Result<(), InputFault>
    ensures { OnOk result (Grows faults.old faults.new) }
{
    match context.checking {
        Checking::AsAlertmanager => keep_findings(faults, reader, part, settings, context.global),
        Checking::NamesAlone => Ok(()),
    }
}

/// Notes whether an integration says more than is read here.
fn note_settings(dropped: &mut IgnoredSettings, settings: &Object<'_, '_>) {
    for name in settings.members().keys() {
        if name.as_str() != SEND_RESOLVED {
            dropped.settings = true;
        }
    }
}

/// Reads whether a notification of resolved alerts is sent. Alertmanager's reader makes null a flag that isn't set, whatever its
/// default is.
fn read_send_resolved(
    faults: &mut Faults,
    settings: &Object<'_, '_>,
    kind: &Kind,
) -> Result<bool, InputFault>
    ensures { IfOk result (λ sends. Collects faults.old faults.new
        (HasOr IsSet kind.now.send_resolved (codes "send_resolved") (members_view settings.now.members) sends)) }
{
    match settings.optional(SEND_RESOLVED) {
        None => Ok(kind.send_resolved),
        Some(member) if member.is_null() => Ok(false),
        Some(member) => Ok(keep(faults, member.flag())?.unwrap_or(false)),
    }
}

/// The one member of an integration's settings that is read.
const SEND_RESOLVED: &str = "send_resolved";
