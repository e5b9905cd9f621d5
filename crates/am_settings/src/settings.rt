//! What Alertmanager reads of the settings of `global`, of integrations and of what is in them: for
//! each part a row with its fields, and the rules on which of them go together.
//!
//! The rows are those of release 0.25 (`config/config.go`, `config/notifiers.go`, and the package
//! `config` of `prometheus/common`), and of later releases what is known of them: the new kinds, and
//! the new fields of the old ones. Where a later release allows what 0.25 rejects, 0.25 counts.
use crate::integration_rows::{
    DISCORD, EMAIL, INCIDENTIO, JIRA, MATTERMOST, MSTEAMS, MSTEAMSV2, OPSGENIE, PAGERDUTY,
    PUSHOVER, ROCKETCHAT, SLACK, SNS, TELEGRAM, VICTOROPS, WEBEX, WEBHOOK, WECHAT,
};
use crate::shared_rows::{
    AUTHORIZATION, BASIC_AUTH, GLOBAL, HTTP, OAUTH2, PAGERDUTY_IMAGE, PAGERDUTY_LINK, RESPONDER,
    SIGV4, SLACK_ACTION, SLACK_CONFIRMATION, SLACK_FIELD, TLS,
};

/// A part of a configuration that has a row of its own.
#[derive(Clone, Copy, PartialEq, Eq)]
pub enum Part {
    Global,
    Webhook,
    Email,
    Pagerduty,
    Opsgenie,
    Wechat,
    Slack,
    Victorops,
    Pushover,
    Sns,
    Telegram,
    Discord,
    Webex,
    Msteams,
    Msteamsv2,
    Jira,
    Rocketchat,
    Mattermost,
    Incidentio,
    Http,
    Tls,
    Oauth2,
    BasicAuth,
    Authorization,
    Sigv4,
    SlackField,
    SlackAction,
    SlackConfirmation,
    PagerdutyImage,
    PagerdutyLink,
    Responder,
}

/// What the value of a field has to be. Each can be null, which says nothing.
#[derive(Clone, Copy)]
pub enum Wanted {
    /// A text, a number or a flag.
    Text,
    Flag,
    /// A whole number from 0 on.
    Count,
    /// A whole number.
    Number,
    /// A URL of HTTP or HTTPS with a host.
    Url,
    /// The same, or `<secret>`, which Alertmanager shows for one.
    SecretUrl,
    /// The URL of a proxy, or nothing.
    ProxyUrl,
    /// A host and its port.
    HostPort,
    /// A duration as Go writes it: `90s`, `1h30m`, `0`.
    GoDuration,
    /// A duration as Prometheus writes it: `5m`, `1d`.
    Duration,
    /// One of these texts.
    OneOf(&'static [&'static str]),
    /// The type of an authorization, which isn't `basic`.
    AuthorizationType,
    /// The type of a responder of Opsgenie.
    ResponderType,
    /// A list of texts.
    Texts,
    /// Texts by name, but none of these names.
    Pairs { reserved: &'static [&'static str] },
    /// Texts by the names of headers, of which no two differ in the case of letters alone.
    Headers,
    /// Lists of texts by name.
    Lists,
    /// The fields of a part.
    Fields(Part),
    /// A list of parts.
    Parts(Part),
    /// Anything: it isn't looked into.
    Anything,
    /// Whether a notification of resolved alerts is sent.
    ReadElsewhere,
}

/// Which fields of a part go together. A field says something unless it is absent, null, an empty
/// text or, where a number is wanted, 0.
#[derive(Clone, Copy)]
pub enum Rule {
    /// One of these says something.
    Needs(&'static [&'static str]),
    /// One of these says something, or in `global` one of those.
    Inherits {
        own: &'static [&'static str],
        global: &'static [&'static str],
    },
    /// This field is no null, or a member of `global`, which has a default, isn't null.
    HasDefault {
        own: &'static str,
        global: &'static str,
    },
    /// At most one of these says something.
    AtMostOne(&'static [&'static str]),
    /// Where the first says something, so does the second.
    NeedsToo(&'static str, &'static str),
    /// The first has this field, which isn't null.
    Within(&'static str, &'static str),
}

/// The fields of a part, and its rules.
#[derive(Clone, Copy)]
pub struct Row {
    /// Fields whose values are texts.
    pub texts: &'static [&'static str],
    /// Fields whose values are flags.
    pub flags: &'static [&'static str],
    /// The other fields.
    pub others: &'static [(&'static str, Wanted)],
    pub rules: &'static [Rule],
}

/// The row of a part.
pub fn row_of(part: Part) -> Row {
    match part {
        Part::Global => GLOBAL,
        Part::Webhook => WEBHOOK,
        Part::Email => EMAIL,
        Part::Pagerduty => PAGERDUTY,
        Part::Opsgenie => OPSGENIE,
        Part::Wechat => WECHAT,
        Part::Slack => SLACK,
        Part::Victorops => VICTOROPS,
        Part::Pushover => PUSHOVER,
        Part::Sns => SNS,
        Part::Telegram => TELEGRAM,
        Part::Discord => DISCORD,
        Part::Webex => WEBEX,
        Part::Msteams => MSTEAMS,
        Part::Msteamsv2 => MSTEAMSV2,
        Part::Jira => JIRA,
        Part::Rocketchat => ROCKETCHAT,
        Part::Mattermost => MATTERMOST,
        Part::Incidentio => INCIDENTIO,
        Part::Http => HTTP,
        Part::Tls => TLS,
        Part::Oauth2 => OAUTH2,
        Part::BasicAuth => BASIC_AUTH,
        Part::Authorization => AUTHORIZATION,
        Part::Sigv4 => SIGV4,
        Part::SlackField => SLACK_FIELD,
        Part::SlackAction => SLACK_ACTION,
        Part::SlackConfirmation => SLACK_CONFIRMATION,
        Part::PagerdutyImage => PAGERDUTY_IMAGE,
        Part::PagerdutyLink => PAGERDUTY_LINK,
        Part::Responder => RESPONDER,
    }
}

/// What a field of a part has to be. None where the part has no such field.
pub fn wanted_in(part: Part, name: &str) -> Option<Wanted> {
    let row = row_of(part);
    if is_among(row.texts, name) {
        return Some(Wanted::Text);
    }
    if is_among(row.flags, name) {
        return Some(Wanted::Flag);
    }
    for (known, wanted) in row.others {
        if *known == name {
            return Some(*wanted);
        }
    }
    None
}

/// Whether a name is one of these.
pub(crate) fn is_among(names: &[&str], name: &str) -> bool {
    names.iter().any(|known| *known == name)
}
