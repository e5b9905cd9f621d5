//! The rows of the kinds of integrations.
use crate::settings::{Part, Row, Rule, Wanted};

pub(crate) const WEBHOOK: Row = Row {
    texts: &["url_file"],
    flags: &[],
    others: &[
        ("send_resolved", Wanted::ReadElsewhere),
        ("http_config", Wanted::Fields(Part::Http)),
        ("max_alerts", Wanted::Count),
        ("timeout", Wanted::GoDuration),
        ("url", Wanted::Url),
    ],
    rules: &[
        Rule::Needs(&["url", "url_file"]),
        Rule::AtMostOne(&["url", "url_file"]),
    ],
};

pub(crate) const EMAIL: Row = Row {
    texts: &[
        "to",
        "from",
        "hello",
        "auth_username",
        "auth_password",
        "auth_password_file",
        "auth_secret",
        "auth_secret_file",
        "auth_identity",
        "html",
        "text",
    ],
    flags: &["require_tls", "force_implicit_tls"],
    others: &[
        ("send_resolved", Wanted::ReadElsewhere),
        ("headers", Wanted::Headers),
        ("smarthost", Wanted::HostPort),
        ("threading", Wanted::Anything),
        ("tls_config", Wanted::Fields(Part::Tls)),
    ],
    rules: &[
        Rule::Needs(&["to"]),
        Rule::Inherits {
            own: &["smarthost"],
            global: &["smtp_smarthost"],
        },
        Rule::Inherits {
            own: &["from"],
            global: &["smtp_from"],
        },
        Rule::AtMostOne(&["auth_password", "auth_password_file"]),
        Rule::AtMostOne(&["auth_secret", "auth_secret_file"]),
    ],
};

pub(crate) const PAGERDUTY: Row = Row {
    texts: &[
        "service_key",
        "service_key_file",
        "routing_key",
        "routing_key_file",
        "client",
        "client_url",
        "description",
        "source",
        "severity",
        "class",
        "component",
        "group",
    ],
    flags: &[],
    others: &[
        ("send_resolved", Wanted::ReadElsewhere),
        ("details", Wanted::Pairs { reserved: &[] }),
        ("http_config", Wanted::Fields(Part::Http)),
        ("images", Wanted::Parts(Part::PagerdutyImage)),
        ("links", Wanted::Parts(Part::PagerdutyLink)),
        ("timeout", Wanted::GoDuration),
        ("url", Wanted::Url),
    ],
    rules: &[
        Rule::Needs(&[
            "routing_key",
            "service_key",
            "routing_key_file",
            "service_key_file",
        ]),
        Rule::AtMostOne(&["routing_key", "routing_key_file"]),
        Rule::AtMostOne(&["service_key", "service_key_file"]),
        Rule::HasDefault {
            own: "url",
            global: "pagerduty_url",
        },
    ],
};

pub(crate) const OPSGENIE: Row = Row {
    texts: &[
        "api_key",
        "api_key_file",
        "message",
        "description",
        "source",
        "entity",
        "actions",
        "tags",
        "note",
        "priority",
    ],
    flags: &["update_alerts"],
    others: &[
        ("send_resolved", Wanted::ReadElsewhere),
        ("api_url", Wanted::Url),
        ("details", Wanted::Pairs { reserved: &[] }),
        ("http_config", Wanted::Fields(Part::Http)),
        ("responders", Wanted::Parts(Part::Responder)),
    ],
    rules: &[
        Rule::Inherits {
            own: &["api_key", "api_key_file"],
            global: &["opsgenie_api_key", "opsgenie_api_key_file"],
        },
        Rule::AtMostOne(&["api_key", "api_key_file"]),
        Rule::HasDefault {
            own: "api_url",
            global: "opsgenie_api_url",
        },
    ],
};

pub(crate) const WECHAT: Row = Row {
    texts: &[
        "api_secret",
        "api_secret_file",
        "corp_id",
        "message",
        "to_user",
        "to_party",
        "to_tag",
        "agent_id",
    ],
    flags: &[],
    others: &[
        ("send_resolved", Wanted::ReadElsewhere),
        ("api_url", Wanted::Url),
        ("http_config", Wanted::Fields(Part::Http)),
        ("message_type", Wanted::OneOf(&["", "text", "markdown"])),
    ],
    rules: &[
        Rule::Inherits {
            own: &["api_secret", "api_secret_file"],
            global: &["wechat_api_secret", "wechat_api_secret_file"],
        },
        Rule::AtMostOne(&["api_secret", "api_secret_file"]),
        Rule::Inherits {
            own: &["corp_id"],
            global: &["wechat_api_corp_id"],
        },
        Rule::HasDefault {
            own: "api_url",
            global: "wechat_api_url",
        },
    ],
};

pub(crate) const SLACK: Row = Row {
    texts: &[
        "api_url_file",
        "app_token",
        "app_token_file",
        "channel",
        "username",
        "color",
        "title",
        "title_link",
        "pretext",
        "text",
        "footer",
        "fallback",
        "callback_id",
        "icon_emoji",
        "icon_url",
        "image_url",
        "thumb_url",
        "message_text",
    ],
    flags: &["short_fields", "link_names"],
    others: &[
        ("send_resolved", Wanted::ReadElsewhere),
        ("actions", Wanted::Parts(Part::SlackAction)),
        ("api_url", Wanted::SecretUrl),
        ("app_url", Wanted::Url),
        ("fields", Wanted::Parts(Part::SlackField)),
        ("http_config", Wanted::Fields(Part::Http)),
        ("mrkdwn_in", Wanted::Texts),
        ("timeout", Wanted::GoDuration),
    ],
    rules: &[
        Rule::Inherits {
            own: &["api_url", "api_url_file", "app_token", "app_token_file"],
            global: &[
                "slack_api_url",
                "slack_api_url_file",
                "slack_app_token",
                "slack_app_token_file",
            ],
        },
        Rule::AtMostOne(&["api_url", "api_url_file"]),
        Rule::AtMostOne(&["app_token", "app_token_file"]),
    ],
};

pub(crate) const VICTOROPS: Row = Row {
    texts: &[
        "api_key",
        "api_key_file",
        "routing_key",
        "message_type",
        "state_message",
        "entity_display_name",
        "monitoring_tool",
    ],
    flags: &[],
    others: &[
        ("send_resolved", Wanted::ReadElsewhere),
        ("api_url", Wanted::Url),
        (
            "custom_fields",
            Wanted::Pairs {
                reserved: &[
                    "routing_key",
                    "message_type",
                    "state_message",
                    "entity_display_name",
                    "monitoring_tool",
                    "entity_id",
                    "entity_state",
                ],
            },
        ),
        ("http_config", Wanted::Fields(Part::Http)),
    ],
    rules: &[
        Rule::Needs(&["routing_key"]),
        Rule::Inherits {
            own: &["api_key", "api_key_file"],
            global: &["victorops_api_key", "victorops_api_key_file"],
        },
        Rule::AtMostOne(&["api_key", "api_key_file"]),
        Rule::HasDefault {
            own: "api_url",
            global: "victorops_api_url",
        },
    ],
};

pub(crate) const PUSHOVER: Row = Row {
    texts: &[
        "user_key",
        "user_key_file",
        "token",
        "token_file",
        "title",
        "message",
        "url",
        "url_title",
        "device",
        "sound",
        "priority",
    ],
    flags: &["html", "monospace"],
    others: &[
        ("send_resolved", Wanted::ReadElsewhere),
        ("expire", Wanted::GoDuration),
        ("http_config", Wanted::Fields(Part::Http)),
        ("retry", Wanted::GoDuration),
        ("ttl", Wanted::GoDuration),
    ],
    rules: &[
        Rule::Needs(&["user_key", "user_key_file"]),
        Rule::AtMostOne(&["user_key", "user_key_file"]),
        Rule::Needs(&["token", "token_file"]),
        Rule::AtMostOne(&["token", "token_file"]),
    ],
};

pub(crate) const SNS: Row = Row {
    texts: &[
        "api_url",
        "topic_arn",
        "phone_number",
        "target_arn",
        "subject",
        "message",
    ],
    flags: &[],
    others: &[
        ("send_resolved", Wanted::ReadElsewhere),
        ("attributes", Wanted::Pairs { reserved: &[] }),
        ("http_config", Wanted::Fields(Part::Http)),
        ("sigv4", Wanted::Fields(Part::Sigv4)),
    ],
    rules: &[
        Rule::Needs(&["topic_arn", "target_arn", "phone_number"]),
        Rule::AtMostOne(&["topic_arn", "target_arn", "phone_number"]),
    ],
};

pub(crate) const TELEGRAM: Row = Row {
    texts: &["bot_token", "bot_token_file", "chat_id_file", "message"],
    flags: &["disable_notifications"],
    others: &[
        ("send_resolved", Wanted::ReadElsewhere),
        ("api_url", Wanted::Url),
        ("chat_id", Wanted::Number),
        ("http_config", Wanted::Fields(Part::Http)),
        ("message_thread_id", Wanted::Number),
        (
            "parse_mode",
            Wanted::OneOf(&["", "Markdown", "MarkdownV2", "HTML"]),
        ),
    ],
    rules: &[
        Rule::Inherits {
            own: &["bot_token", "bot_token_file"],
            global: &["telegram_bot_token", "telegram_bot_token_file"],
        },
        Rule::AtMostOne(&["bot_token", "bot_token_file"]),
        Rule::Needs(&["chat_id", "chat_id_file"]),
        Rule::AtMostOne(&["chat_id", "chat_id_file"]),
    ],
};

pub(crate) const DISCORD: Row = Row {
    texts: &[
        "webhook_url_file",
        "title",
        "message",
        "content",
        "username",
        "avatar_url",
    ],
    flags: &[],
    others: &[
        ("send_resolved", Wanted::ReadElsewhere),
        ("http_config", Wanted::Fields(Part::Http)),
        ("webhook_url", Wanted::SecretUrl),
    ],
    rules: &[
        Rule::Needs(&["webhook_url", "webhook_url_file"]),
        Rule::AtMostOne(&["webhook_url", "webhook_url_file"]),
    ],
};

pub(crate) const WEBEX: Row = Row {
    texts: &["message", "room_id"],
    flags: &[],
    others: &[
        ("send_resolved", Wanted::ReadElsewhere),
        ("api_url", Wanted::Url),
        ("http_config", Wanted::Fields(Part::Http)),
    ],
    rules: &[
        Rule::Needs(&["room_id"]),
        Rule::Within("http_config", "authorization"),
        Rule::HasDefault {
            own: "api_url",
            global: "webex_api_url",
        },
    ],
};

pub(crate) const MSTEAMS: Row = Row {
    texts: &["webhook_url_file", "title", "summary", "text"],
    flags: &[],
    others: &[
        ("send_resolved", Wanted::ReadElsewhere),
        ("http_config", Wanted::Fields(Part::Http)),
        ("webhook_url", Wanted::SecretUrl),
    ],
    rules: &[
        Rule::Needs(&["webhook_url", "webhook_url_file"]),
        Rule::AtMostOne(&["webhook_url", "webhook_url_file"]),
    ],
};

pub(crate) const MSTEAMSV2: Row = Row {
    texts: &["webhook_url_file", "title", "text"],
    flags: &[],
    others: &[
        ("send_resolved", Wanted::ReadElsewhere),
        ("http_config", Wanted::Fields(Part::Http)),
        ("webhook_url", Wanted::SecretUrl),
    ],
    rules: &[
        Rule::Needs(&["webhook_url", "webhook_url_file"]),
        Rule::AtMostOne(&["webhook_url", "webhook_url_file"]),
    ],
};

pub(crate) const JIRA: Row = Row {
    texts: &[
        "api_type",
        "project",
        "priority",
        "issue_type",
        "reopen_transition",
        "resolve_transition",
        "wont_fix_resolution",
    ],
    flags: &[],
    others: &[
        ("send_resolved", Wanted::ReadElsewhere),
        ("api_url", Wanted::Url),
        ("custom_fields", Wanted::Anything),
        ("description", Wanted::Anything),
        ("fields", Wanted::Anything),
        ("http_config", Wanted::Fields(Part::Http)),
        ("labels", Wanted::Texts),
        ("reopen_duration", Wanted::Duration),
        ("summary", Wanted::Anything),
    ],
    rules: &[
        Rule::Needs(&["project"]),
        Rule::Needs(&["issue_type"]),
        Rule::Inherits {
            own: &["api_url"],
            global: &["jira_api_url"],
        },
    ],
};

pub(crate) const ROCKETCHAT: Row = Row {
    texts: &[
        "token",
        "token_file",
        "token_id",
        "token_id_file",
        "channel",
        "color",
        "title",
        "title_link",
        "text",
        "emoji",
        "icon_url",
        "image_url",
        "thumb_url",
    ],
    flags: &["short_fields", "link_names"],
    others: &[
        ("send_resolved", Wanted::ReadElsewhere),
        ("actions", Wanted::Anything),
        ("api_url", Wanted::Url),
        ("fields", Wanted::Anything),
        ("http_config", Wanted::Fields(Part::Http)),
    ],
    rules: &[
        Rule::Inherits {
            own: &["token", "token_file"],
            global: &["rocketchat_token", "rocketchat_token_file"],
        },
        Rule::AtMostOne(&["token", "token_file"]),
        Rule::Inherits {
            own: &["token_id", "token_id_file"],
            global: &["rocketchat_token_id", "rocketchat_token_id_file"],
        },
        Rule::AtMostOne(&["token_id", "token_id_file"]),
    ],
};

pub(crate) const MATTERMOST: Row = Row {
    texts: &[
        "webhook_url_file",
        "channel",
        "username",
        "text",
        "icon_url",
        "icon_emoji",
        "type",
    ],
    flags: &[],
    others: &[
        ("send_resolved", Wanted::ReadElsewhere),
        ("attachments", Wanted::Anything),
        ("http_config", Wanted::Fields(Part::Http)),
        ("priority", Wanted::Anything),
        ("props", Wanted::Anything),
        ("webhook_url", Wanted::SecretUrl),
    ],
    rules: &[
        Rule::Inherits {
            own: &["webhook_url", "webhook_url_file"],
            global: &["mattermost_webhook_url", "mattermost_webhook_url_file"],
        },
        Rule::AtMostOne(&["webhook_url", "webhook_url_file"]),
    ],
};

pub(crate) const INCIDENTIO: Row = Row {
    texts: &["url_file", "alert_source_token", "alert_source_token_file"],
    flags: &[],
    others: &[
        ("send_resolved", Wanted::ReadElsewhere),
        ("http_config", Wanted::Fields(Part::Http)),
        ("max_alerts", Wanted::Count),
        ("metadata", Wanted::Pairs { reserved: &[] }),
        ("timeout", Wanted::GoDuration),
        ("url", Wanted::Url),
    ],
    rules: &[
        Rule::Needs(&["url", "url_file"]),
        Rule::AtMostOne(&["url", "url_file"]),
        Rule::Needs(&[
            "alert_source_token",
            "alert_source_token_file",
            "http_config",
        ]),
        Rule::AtMostOne(&["alert_source_token", "alert_source_token_file"]),
    ],
};
