//! The kinds of integrations.
use crate::settings::Part;

/// One kind of integrations.
#[derive(Clone, Copy)]
pub struct Kind {
    /// The member of a receiver that lists them.
    pub list: &'static str,
    pub name: &'static str,
    /// What is read of its settings.
    pub part: Part,
    /// What `send_resolved` is where it is absent.
    pub send_resolved: bool,
}

/// The kinds, in the order that a receiver's integrations have (`buildReceiverIntegrations`), with
/// the defaults of `config/notifiers.go`.
pub const KINDS: [Kind; 18] = [
    Kind {
        list: "webhook_configs",
        name: "webhook",
        part: Part::Webhook,
        send_resolved: true,
    },
    Kind {
        list: "email_configs",
        name: "email",
        part: Part::Email,
        send_resolved: false,
    },
    Kind {
        list: "pagerduty_configs",
        name: "pagerduty",
        part: Part::Pagerduty,
        send_resolved: true,
    },
    Kind {
        list: "opsgenie_configs",
        name: "opsgenie",
        part: Part::Opsgenie,
        send_resolved: true,
    },
    Kind {
        list: "wechat_configs",
        name: "wechat",
        part: Part::Wechat,
        send_resolved: false,
    },
    Kind {
        list: "slack_configs",
        name: "slack",
        part: Part::Slack,
        send_resolved: false,
    },
    Kind {
        list: "victorops_configs",
        name: "victorops",
        part: Part::Victorops,
        send_resolved: true,
    },
    Kind {
        list: "pushover_configs",
        name: "pushover",
        part: Part::Pushover,
        send_resolved: true,
    },
    Kind {
        list: "sns_configs",
        name: "sns",
        part: Part::Sns,
        send_resolved: true,
    },
    Kind {
        list: "telegram_configs",
        name: "telegram",
        part: Part::Telegram,
        send_resolved: true,
    },
    Kind {
        list: "discord_configs",
        name: "discord",
        part: Part::Discord,
        send_resolved: true,
    },
    Kind {
        list: "webex_configs",
        name: "webex",
        part: Part::Webex,
        send_resolved: true,
    },
    Kind {
        list: "msteams_configs",
        name: "msteams",
        part: Part::Msteams,
        send_resolved: true,
    },
    Kind {
        list: "msteamsv2_configs",
        name: "msteamsv2",
        part: Part::Msteamsv2,
        send_resolved: true,
    },
    Kind {
        list: "jira_configs",
        name: "jira",
        part: Part::Jira,
        send_resolved: true,
    },
    Kind {
        list: "rocketchat_configs",
        name: "rocketchat",
        part: Part::Rocketchat,
        send_resolved: false,
    },
    Kind {
        list: "mattermost_configs",
        name: "mattermost",
        part: Part::Mattermost,
        send_resolved: true,
    },
    Kind {
        list: "incidentio_configs",
        name: "incidentio",
        part: Part::Incidentio,
        send_resolved: true,
    },
];

/// The part of the integrations that this member of a receiver lists.
pub(crate) fn part_of_list(list: &str) -> Option<Part> {
    for kind in &KINDS {
        if kind.list == list {
            return Some(kind.part);
        }
    }
    None
}
