//! The rows of `global`, and of what is in integrations.
use crate::settings::{Part, Row, Rule, Wanted};

pub(crate) const GLOBAL: Row = Row {
    texts: &[
        "smtp_from",
        "smtp_hello",
        "smtp_auth_username",
        "smtp_auth_password",
        "smtp_auth_password_file",
        "smtp_auth_secret",
        "smtp_auth_secret_file",
        "smtp_auth_identity",
        "slack_api_url_file",
        "slack_app_token",
        "slack_app_token_file",
        "opsgenie_api_key",
        "opsgenie_api_key_file",
        "wechat_api_secret",
        "wechat_api_secret_file",
        "wechat_api_corp_id",
        "victorops_api_key",
        "victorops_api_key_file",
        "telegram_bot_token",
        "telegram_bot_token_file",
        "rocketchat_token",
        "rocketchat_token_file",
        "rocketchat_token_id",
        "rocketchat_token_id_file",
        "mattermost_webhook_url_file",
    ],
    flags: &["smtp_require_tls", "smtp_force_implicit_tls"],
    others: &[
        ("http_config", Wanted::Fields(Part::Http)),
        ("jira_api_url", Wanted::Url),
        ("mattermost_webhook_url", Wanted::SecretUrl),
        ("opsgenie_api_url", Wanted::Url),
        ("pagerduty_url", Wanted::Url),
        ("resolve_timeout", Wanted::Duration),
        ("rocketchat_api_url", Wanted::Url),
        ("slack_api_url", Wanted::SecretUrl),
        ("slack_app_url", Wanted::Url),
        ("smtp_smarthost", Wanted::HostPort),
        ("smtp_tls_config", Wanted::Fields(Part::Tls)),
        ("telegram_api_url", Wanted::Url),
        ("victorops_api_url", Wanted::Url),
        ("webex_api_url", Wanted::Url),
        ("wechat_api_url", Wanted::Url),
    ],
    rules: &[
        Rule::AtMostOne(&["slack_api_url", "slack_api_url_file"]),
        Rule::AtMostOne(&["slack_app_token", "slack_app_token_file"]),
        Rule::AtMostOne(&["opsgenie_api_key", "opsgenie_api_key_file"]),
        Rule::AtMostOne(&["victorops_api_key", "victorops_api_key_file"]),
        Rule::AtMostOne(&["smtp_auth_password", "smtp_auth_password_file"]),
        Rule::AtMostOne(&["smtp_auth_secret", "smtp_auth_secret_file"]),
        Rule::AtMostOne(&["wechat_api_secret", "wechat_api_secret_file"]),
        Rule::AtMostOne(&["telegram_bot_token", "telegram_bot_token_file"]),
        Rule::AtMostOne(&["rocketchat_token", "rocketchat_token_file"]),
        Rule::AtMostOne(&["rocketchat_token_id", "rocketchat_token_id_file"]),
        Rule::AtMostOne(&["mattermost_webhook_url", "mattermost_webhook_url_file"]),
    ],
};

pub(crate) const HTTP: Row = Row {
    texts: &["bearer_token", "bearer_token_file", "no_proxy"],
    flags: &["follow_redirects", "enable_http2", "proxy_from_environment"],
    others: &[
        ("authorization", Wanted::Fields(Part::Authorization)),
        ("basic_auth", Wanted::Fields(Part::BasicAuth)),
        ("http_headers", Wanted::Anything),
        ("oauth2", Wanted::Fields(Part::Oauth2)),
        ("proxy_connect_header", Wanted::Lists),
        ("proxy_url", Wanted::ProxyUrl),
        ("tls_config", Wanted::Fields(Part::Tls)),
    ],
    rules: &[
        Rule::AtMostOne(&[
            "authorization",
            "basic_auth",
            "oauth2",
            "bearer_token",
            "bearer_token_file",
        ]),
        Rule::NeedsToo("proxy_connect_header", "proxy_url"),
    ],
};

/// The versions of TLS.
const TLS_VERSIONS: [&str; 4] = ["TLS10", "TLS11", "TLS12", "TLS13"];

pub(crate) const TLS: Row = Row {
    texts: &[
        "ca",
        "cert",
        "key",
        "ca_file",
        "cert_file",
        "key_file",
        "ca_ref",
        "cert_ref",
        "key_ref",
        "server_name",
    ],
    flags: &["insecure_skip_verify"],
    others: &[
        ("max_version", Wanted::OneOf(&TLS_VERSIONS)),
        ("min_version", Wanted::OneOf(&TLS_VERSIONS)),
    ],
    rules: &[],
};

pub(crate) const OAUTH2: Row = Row {
    texts: &[
        "client_id",
        "client_secret",
        "client_secret_file",
        "client_secret_ref",
        "token_url",
        "no_proxy",
    ],
    flags: &["proxy_from_environment"],
    others: &[
        ("endpoint_params", Wanted::Pairs { reserved: &[] }),
        ("proxy_connect_header", Wanted::Lists),
        ("proxy_url", Wanted::ProxyUrl),
        ("scopes", Wanted::Texts),
        ("tls_config", Wanted::Fields(Part::Tls)),
    ],
    rules: &[
        Rule::Needs(&["client_id"]),
        Rule::Needs(&["client_secret", "client_secret_file", "client_secret_ref"]),
        Rule::AtMostOne(&["client_secret", "client_secret_file", "client_secret_ref"]),
        Rule::Needs(&["token_url"]),
    ],
};

pub(crate) const BASIC_AUTH: Row = Row {
    texts: &[
        "username",
        "username_file",
        "username_ref",
        "password",
        "password_file",
        "password_ref",
    ],
    flags: &[],
    others: &[],
    rules: &[
        Rule::AtMostOne(&["username", "username_file", "username_ref"]),
        Rule::AtMostOne(&["password", "password_file", "password_ref"]),
    ],
};

pub(crate) const AUTHORIZATION: Row = Row {
    texts: &["credentials", "credentials_file", "credentials_ref"],
    flags: &[],
    others: &[("type", Wanted::AuthorizationType)],
    rules: &[Rule::AtMostOne(&["credentials", "credentials_file", "credentials_ref"])],
};

pub(crate) const SIGV4: Row = Row {
    texts: &["region", "access_key", "secret_key", "profile", "role_arn"],
    flags: &["use_fips_sts_endpoint"],
    others: &[],
    rules: &[
        Rule::NeedsToo("access_key", "secret_key"),
        Rule::NeedsToo("secret_key", "access_key"),
    ],
};

pub(crate) const SLACK_FIELD: Row = Row {
    texts: &["title", "value"],
    flags: &["short"],
    others: &[],
    rules: &[Rule::Needs(&["title"]), Rule::Needs(&["value"])],
};

pub(crate) const SLACK_ACTION: Row = Row {
    texts: &["type", "text", "url", "style", "name", "value"],
    flags: &[],
    others: &[("confirm", Wanted::Fields(Part::SlackConfirmation))],
    rules: &[
        Rule::Needs(&["type"]),
        Rule::Needs(&["text"]),
        Rule::Needs(&["name", "url"]),
    ],
};

pub(crate) const SLACK_CONFIRMATION: Row = Row {
    texts: &["text", "title", "ok_text", "dismiss_text"],
    flags: &[],
    others: &[],
    rules: &[Rule::Needs(&["text"])],
};

pub(crate) const PAGERDUTY_IMAGE: Row = Row {
    texts: &["src", "alt", "href"],
    flags: &[],
    others: &[],
    rules: &[],
};

pub(crate) const PAGERDUTY_LINK: Row = Row {
    texts: &["href", "text"],
    flags: &[],
    others: &[],
    rules: &[],
};

pub(crate) const RESPONDER: Row = Row {
    texts: &["id", "name", "username"],
    flags: &[],
    others: &[("type", Wanted::ResponderType)],
    rules: &[
        Rule::Needs(&["id", "name", "username"]),
        Rule::Needs(&["type"]),
    ],
};
