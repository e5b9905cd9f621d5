//! What several answers say: label sets, groups, alerts, integrations and notices.
ghost use Rattle.std.specs.Prelude.{◌≡◌, ◌++◌, ◌∷◌, OnOk};
ghost use Rattle.std.specs.List.{flat_map};
ghost use Rattle.json.specs.Token.{key};
ghost use Rattle.am_protocol.specs.Answer.{alert_members, content_members, integration_members, optional_number, sent_tokens, text_member};

use crate::answer::{Answer, ToJson};
use am_alerts::alert::Alert;
use am_alerts::labels::Labels;
use am_alerts::sequence::Sequence;
use am_model::config::{Config, kind_at};
use am_model::group::GroupName;
use am_model::notice::Notice;
use std::alloc::AllocError;

impl ToJson for Labels {
    ghost use Rattle.am_protocol.specs.Answer.{labels_tokens};

    ghost tokens = { λ config labels. labels_tokens labels };

    fn write(&self, _config: &Config, answer: &mut Answer) -> Result<(), AllocError> {
        answer.open()?;
        add_labels(self, answer)?;
        answer.close()
    }
}

fn add_labels(labels: &Labels, answer: &mut Answer) -> Result<(), AllocError>
    ensures { OnOk result (answer.new ≡ answer.old ++ flat_map (λ l. text_member l.name l.value) labels.now) }
{
    for (name, value) in labels.pairs() {
        answer.put_text(name, value)?;
    }
    Ok(())
}

impl ToJson for GroupName {
    ghost use Rattle.am_protocol.specs.Answer.{group_tokens};

    ghost tokens = { group_tokens };

    fn write(&self, config: &Config, answer: &mut Answer) -> Result<(), AllocError> {
        answer.open()?;
        answer.put_text("route", config.route_of(self).name.as_str())?;
        answer.put(config, "labels", &self.labels)?;
        answer.close()
    }
}

impl ToJson for Alert {
    ghost use Rattle.am_protocol.specs.Answer.{alert_tokens};

    ghost tokens = { λ config alert. alert_tokens alert };

    fn write(&self, config: &Config, answer: &mut Answer) -> Result<(), AllocError> {
        answer.open()?;
        put_alert(config, self, answer)?;
        answer.close()
    }
}

/// Adds the labels of an alert, its start and its end.
pub(crate) fn put_alert(
    config: &Config,
    alert: &Alert,
    answer: &mut Answer,
) -> Result<(), AllocError>
    ensures { OnOk result (answer.new ≡ answer.old ++ alert_members alert.now) }
{
    answer.put(config, "labels", alert.labels())?;
    answer.put_number("starts", alert.starts())?;
    put_optional("ends", alert.ends(), answer)
}

/// Adds a member that is a number, or `null` for none.
pub(crate) fn put_optional(
    name: &str,
    number: Option<u64>,
    answer: &mut Answer,
) -> Result<(), AllocError>
    ensures { OnOk result (answer.new ≡ answer.old ++ key name.now ∷ optional_number number) }
{
    answer.key(name)?;
    match number {
        None => answer.null(),
        Some(number) => answer.number(number),
    }
}

impl ToJson for Notice {
    ghost use Rattle.am_protocol.specs.Answer.{notice_tokens};

    ghost tokens = { notice_tokens };

    fn write(&self, config: &Config, answer: &mut Answer) -> Result<(), AllocError> {
        write_notice(
            config,
            &self.group,
            self.integration,
            &self.firing,
            &self.resolved,
            answer,
        )
    }
}

fn write_notice(
    config: &Config,
    group: &GroupName,
    integration: u32,
    firing: &Sequence<Alert>,
    resolved: &Sequence<Alert>,
    answer: &mut Answer,
) -> Result<(), AllocError>
    ensures { OnOk result (answer.new ≡ answer.old ++ sent_tokens config.now group.now integration firing.now resolved.now) }
{
    answer.open()?;
    put_integration(config, group, integration, answer)?;
    put_content(config, firing, resolved, answer)?;
    answer.close()
}

/// Adds what fires and what is resolved.
fn put_content(
    config: &Config,
    firing: &Sequence<Alert>,
    resolved: &Sequence<Alert>,
    answer: &mut Answer,
) -> Result<(), AllocError>
    ensures { OnOk result (answer.new ≡ answer.old ++ content_members firing.now resolved.now) }
{
    answer.put_list(config, "firing", firing.as_slice())?;
    answer.put_list(config, "resolved", resolved.as_slice())
}

/// Adds the position and the kind of an integration of a group's receiver.
pub(crate) fn put_integration(
    config: &Config,
    group: &GroupName,
    position: u32,
    answer: &mut Answer,
) -> Result<(), AllocError>
    ensures { OnOk result (answer.new ≡ answer.old ++ integration_members config.now group.now position) }
{
    let integrations = config.integrations_of(group);
    answer.put_number("integration", u64::from(position))?;
    answer.put_text("kind", kind_at(integrations, position as usize))
}
