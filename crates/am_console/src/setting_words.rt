//! What is wrong with the settings of `global` and of integrations, in words.
use am_command_line::spelling::Nearest;
use am_json::fault::FaultKind;
use am_settings::explained::reason_for;
use am_settings::findings::{Reason, Rejection};
use am_settings::settings::{Part, Rule, Wanted, row_of};
use serde_json::Value;
use std::alloc::{AllocError, Global};

/// Returns what is wrong with the setting at a JSON pointer, and what to write, if it is one.
pub fn explain_setting(
    alloc: Global,
    top: &Value,
    pointer: &str,
    fault_kind: FaultKind,
) -> Result<Option<String>, AllocError> {
    let Some(rejection) = rejection_of(fault_kind) else {
        return Ok(None);
    };
    let Some(reason) = reason_for(alloc, top, pointer, rejection)? else {
        return Ok(None);
    };
    let name = match pointer.rsplit_once('/') {
        None => pointer,
        Some((_, name)) => name,
    };
    let mut words = String::new(alloc);
    push_reason(alloc, reason, name, top.pointer(pointer), &mut words)?;
    Ok(Some(words))
}

/// Returns why a setting is rejected, if it can be for this.
fn rejection_of(fault_kind: FaultKind) -> Option<Rejection> {
    match fault_kind {
        FaultKind::Missing => Some(Rejection::Missing),
        FaultKind::WrongType => Some(Rejection::WrongType),
        FaultKind::BadValue => Some(Rejection::BadValue),
        FaultKind::Unknown => Some(Rejection::Unknown),
        FaultKind::Full | FaultKind::Unsupported => None,
    }
}

/// Adds why the value of a field of this name is rejected.
fn push_reason(
    alloc: Global,
    reason: Reason,
    name: &str,
    value: Option<&Value>,
    words: &mut String,
) -> Result<(), AllocError> {
    match reason {
        Reason::Unknown(part) => push_unknown(alloc, part, name, words),
        Reason::Other(wanted) => push_other(wanted, value, words),
        Reason::Missing(part, names) => {
            write!(words, "{} needs ", title_of(part))?;
            push_names(names, words)
        }
        Reason::MissingInGlobal { part, own, global } => {
            write!(words, "{} needs ", title_of(part))?;
            push_names(own, words)?;
            words.push_str(", or in `global` ")?;
            push_names(global, words)
        }
        Reason::NoDefault { global } => write!(
            words,
            "`global` has null for `{global}`; write a URL there, or leave it out for the default"
        ),
        Reason::Both(first, second) => write!(
            words,
            "`{first}` and `{second}` exclude each other; keep one of them"
        ),
        Reason::Alone(first, second) => write!(words, "`{first}` needs `{second}` too"),
        Reason::NotWithin(part, inner, outer) => {
            write!(words, "{} needs `{inner}` in its `{outer}`", title_of(part))
        }
        Reason::Reserved => write!(
            words,
            "Alertmanager sets `{name}` itself; give the field another name"
        ),
        Reason::Twice => write!(
            words,
            "the header `{name}` is there twice: capitals make no other name"
        ),
    }
}

/// Adds that a part has no such field, and which one is probably meant.
fn push_unknown(
    alloc: Global,
    part: Part,
    name: &str,
    words: &mut String,
) -> Result<(), AllocError> {
    write!(words, "{} has no field `{name}`", title_of(part))?;
    match nearest_field(alloc, part, name)? {
        None => Ok(()),
        Some(meant) => write!(words, "; did you mean `{meant}`?"),
    }
}

/// Returns the field of a part that is probably meant: one that the part needs and that ends as the word does, as `api_url` for
/// `url`, or else one whose name is near.
fn nearest_field<'w>(
    alloc: Global,
    part: Part,
    name: &'w str,
) -> Result<Option<&'w str>, AllocError> {
    let row = row_of(part);
    let mut nearest = Nearest::to(name);
    let mut needed: Option<&'w str> = None;
    for rule in row.rules {
        if let Rule::Needs(names) | Rule::Inherits { own: names, .. } = rule {
            for known in *names {
                needed = needed.or(longer_name(known, name));
            }
        }
    }
    for list in [row.texts, row.flags] {
        for known in list {
            nearest.consider(alloc, known)?;
        }
    }
    for (known, _) in row.others {
        nearest.consider(alloc, known)?;
    }
    Ok(needed.or(nearest.found()))
}

/// Returns a known name if it has this word at its end, behind `_`.
fn longer_name<'w>(known: &'w str, word: &str) -> Option<&'w str> {
    match known.strip_suffix(word) {
        Some(before) if before.ends_with('_') => Some(known),
        _ => None,
    }
}

/// Adds what is wanted in place of a value.
fn push_other(wanted: Wanted, value: Option<&Value>, words: &mut String) -> Result<(), AllocError> {
    match value.and_then(Value::as_str) {
        Some(text) if !is_type(wanted) => push_text(wanted, text, words),
        _ => write!(
            words,
            "{} wanted here, not {}",
            type_of(wanted),
            found_of(value)
        ),
    }
}

/// Returns whether a value isn't wanted as a text.
fn is_type(wanted: Wanted) -> bool {
    matches!(
        wanted,
        Wanted::Text
            | Wanted::Flag
            | Wanted::Count
            | Wanted::Number
            | Wanted::Texts
            | Wanted::Pairs { .. }
            | Wanted::Headers
            | Wanted::Lists
            | Wanted::Fields(_)
            | Wanted::Parts(_)
            | Wanted::Anything
    )
}

/// Adds what is wrong with a text, and what to write.
fn push_text(wanted: Wanted, text: &str, words: &mut String) -> Result<(), AllocError> {
    match wanted {
        Wanted::OneOf(texts) => {
            write!(words, "`{text}` isn't known here; write ")?;
            push_names(texts, words)
        }
        Wanted::AuthorizationType => write!(
            words,
            "the type can't be `{text}`; write `basic_auth` in place of `authorization`"
        ),
        _ => write!(words, "`{text}` {}", fault_of(wanted)),
    }
}

/// Returns what is wrong with a text, as it is said behind the text.
fn fault_of(wanted: Wanted) -> &'static str {
    match wanted {
        Wanted::ProxyUrl => "is no URL of a proxy; write one such as http://proxy.example.org:3128",
        Wanted::HostPort => "is no host with a port; write mail.example.org:587",
        Wanted::GoDuration => "is no duration as Go has them; write 90s, 5m or 1h30m",
        Wanted::Duration => "is no duration; write 90s, 5m or 2h30m",
        Wanted::ResponderType => {
            "is no type of a responder; write team, teams, user, escalation or schedule"
        }
        _ => "is no URL; write one such as https://example.org/hook",
    }
}

/// Returns what kind of value is wanted, with its verb.
fn type_of(wanted: Wanted) -> &'static str {
    match wanted {
        Wanted::Flag => "true or false is",
        Wanted::Count => "a whole number from 0 on is",
        Wanted::Number => "a whole number is",
        Wanted::Url | Wanted::SecretUrl | Wanted::ProxyUrl => "a URL is",
        Wanted::HostPort => "a host with a port is",
        Wanted::GoDuration | Wanted::Duration => "a duration such as 5m is",
        Wanted::Texts => "a list of texts is",
        Wanted::Pairs { .. } | Wanted::Headers => "texts by their names are",
        Wanted::Lists => "lists of texts by their names are",
        Wanted::Fields(_) => "fields are",
        Wanted::Parts(_) => "a list of fields is",
        _ => "a text is",
    }
}

/// Returns what a value is, in words.
fn found_of(value: Option<&Value>) -> &'static str {
    match value {
        None | Some(Value::Null) => "nothing",
        Some(Value::Bool(_)) => "true or false",
        Some(Value::Number(_)) => "a number",
        Some(Value::String(_)) => "a text",
        Some(Value::Array(_)) => "a list",
        Some(Value::Object(_)) => "fields",
    }
}

/// Adds names, with `or` before the last.
fn push_names(names: &[&str], words: &mut String) -> Result<(), AllocError> {
    let last = names.len().saturating_sub(1);
    let mut is_first = true;
    for (index, name) in names.iter().enumerate() {
        if name.is_empty() {
            continue;
        }
        if !is_first {
            words.push_str(if index == last { " or " } else { ", " })?;
        }
        is_first = false;
        write!(words, "`{name}`")?;
    }
    Ok(())
}

/// Returns a part in words, which can begin a sentence.
fn title_of(part: Part) -> &'static str {
    match part {
        Part::Global => "`global`",
        Part::Webhook => "a webhook",
        Part::Email => "an email",
        Part::Pagerduty => "a PagerDuty integration",
        Part::Opsgenie => "an Opsgenie integration",
        Part::Wechat => "a WeChat integration",
        Part::Slack => "a Slack integration",
        Part::Victorops => "a VictorOps integration",
        Part::Pushover => "a Pushover integration",
        Part::Sns => "an SNS integration",
        Part::Telegram => "a Telegram integration",
        Part::Discord => "a Discord integration",
        Part::Webex => "a Webex integration",
        Part::Msteams => "a Teams integration",
        Part::Msteamsv2 => "a Teams integration (msteamsv2)",
        Part::Jira => "a Jira integration",
        Part::Rocketchat => "a Rocket.Chat integration",
        Part::Mattermost => "a Mattermost integration",
        Part::Incidentio => "an incident.io integration",
        _ => inner_title(part),
    }
}

/// Returns a part that is within others, in words.
fn inner_title(part: Part) -> &'static str {
    match part {
        Part::Http => "`http_config`",
        Part::Tls => "`tls_config`",
        Part::Oauth2 => "`oauth2`",
        Part::BasicAuth => "`basic_auth`",
        Part::Authorization => "`authorization`",
        Part::Sigv4 => "`sigv4`",
        Part::SlackField => "a field of Slack",
        Part::SlackAction => "an action of Slack",
        Part::SlackConfirmation => "`confirm`",
        Part::PagerdutyImage => "an image",
        Part::PagerdutyLink => "a link",
        _ => "a responder",
    }
}
