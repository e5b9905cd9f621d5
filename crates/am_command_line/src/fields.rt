//! The fields of stories and configurations, by name.

/// What kind of value a field takes.
#[derive(Clone, Copy, PartialEq, Eq)]
pub(crate) enum FieldKind {
    Text,
    Duration,
    Flag,
    Number,
    Integration,
    Object,
    Texts,
    Objects,
    Matchers,
    Labels,
}

/// The fields that are known by name, those of stories first.
pub(crate) const FIELDS: [(&str, FieldKind); 85] = [
    ("config", FieldKind::Object),
    ("alertmanager", FieldKind::Object),
    ("start", FieldKind::Text),
    ("until", FieldKind::Duration),
    ("zones", FieldKind::Object),
    ("alerts", FieldKind::Objects),
    ("silences", FieldKind::Objects),
    ("maintain", FieldKind::Duration),
    ("remove_empty_groups", FieldKind::Duration),
    ("outages", FieldKind::Objects),
    ("expect", FieldKind::Objects),
    ("reload", FieldKind::Objects),
    ("restart", FieldKind::Objects),
    ("keeps", FieldKind::Text),
    ("output", FieldKind::Text),
    ("labels", FieldKind::Labels),
    ("from", FieldKind::Duration),
    ("to", FieldKind::Duration),
    ("spans", FieldKind::Objects),
    ("set", FieldKind::Duration),
    ("answer", FieldKind::Text),
    ("takes", FieldKind::Duration),
    ("at", FieldKind::Duration),
    ("within", FieldKind::Duration),
    ("of", FieldKind::Matchers),
    ("when", FieldKind::Text),
    ("integration", FieldKind::Integration),
    ("has", FieldKind::Matchers),
    ("has_resolved", FieldKind::Matchers),
    ("exactly", FieldKind::Objects),
    ("firing", FieldKind::Objects),
    ("resolved", FieldKind::Objects),
    ("reason", FieldKind::Text),
    ("none", FieldKind::Flag),
    ("never", FieldKind::Flag),
    ("count", FieldKind::Number),
    ("at_most", FieldKind::Number),
    ("retention", FieldKind::Duration),
    ("limits", FieldKind::Object),
    ("names", FieldKind::Number),
    ("groups", FieldKind::Number),
    ("flushes", FieldKind::Number),
    ("history", FieldKind::Number),
    ("receivers", FieldKind::Objects),
    ("name", FieldKind::Text),
    ("integrations", FieldKind::Objects),
    ("kind", FieldKind::Text),
    ("send_resolved", FieldKind::Flag),
    ("route", FieldKind::Object),
    ("children", FieldKind::Objects),
    ("inhibit", FieldKind::Objects),
    ("source", FieldKind::Matchers),
    ("target", FieldKind::Matchers),
    ("equal", FieldKind::Texts),
    ("receiver", FieldKind::Text),
    ("group_by", FieldKind::Texts),
    ("group_wait", FieldKind::Duration),
    ("group_interval", FieldKind::Duration),
    ("repeat_interval", FieldKind::Duration),
    ("matchers", FieldKind::Matchers),
    ("continue", FieldKind::Flag),
    ("routes", FieldKind::Objects),
    ("match", FieldKind::Labels),
    ("match_re", FieldKind::Labels),
    ("mute_time_intervals", FieldKind::Texts),
    ("active_time_intervals", FieldKind::Texts),
    ("global", FieldKind::Object),
    ("templates", FieldKind::Texts),
    ("inhibit_rules", FieldKind::Objects),
    ("time_intervals", FieldKind::Objects),
    ("times", FieldKind::Objects),
    ("start_time", FieldKind::Text),
    ("end_time", FieldKind::Text),
    ("weekdays", FieldKind::Texts),
    ("days_of_month", FieldKind::Texts),
    ("months", FieldKind::Texts),
    ("years", FieldKind::Texts),
    ("location", FieldKind::Text),
    ("source_matchers", FieldKind::Matchers),
    ("target_matchers", FieldKind::Matchers),
    ("source_match", FieldKind::Labels),
    ("target_match", FieldKind::Labels),
    ("source_match_re", FieldKind::Labels),
    ("target_match_re", FieldKind::Labels),
    ("webhook_configs", FieldKind::Objects),
];

/// The lists of integrations, besides `webhook_configs`.
pub(crate) const INTEGRATION_LISTS: [&str; 17] = [
    "email_configs",
    "pagerduty_configs",
    "opsgenie_configs",
    "wechat_configs",
    "slack_configs",
    "victorops_configs",
    "pushover_configs",
    "sns_configs",
    "telegram_configs",
    "discord_configs",
    "webex_configs",
    "msteams_configs",
    "msteamsv2_configs",
    "jira_configs",
    "rocketchat_configs",
    "mattermost_configs",
    "incidentio_configs",
];

/// Returns what a field of this name takes, if one is known.
pub(crate) fn kind_in(name: &str) -> Option<FieldKind> {
    for (known, kind) in &FIELDS {
        if *known == name {
            return Some(*kind);
        }
    }
    if INTEGRATION_LISTS.contains(&name) {
        return Some(FieldKind::Objects);
    }
    None
}

/// Returns what is wanted, in words: of the field, or of an item of its list.
pub(crate) fn in_words(kind: FieldKind, is_item: bool) -> &'static str {
    match kind {
        FieldKind::Text => "a text",
        FieldKind::Duration => "a duration such as 5m",
        FieldKind::Flag => "true or false",
        FieldKind::Number => "a whole number",
        FieldKind::Integration => "a kind such as webhook/0, or a number,",
        FieldKind::Object => "fields",
        FieldKind::Texts if is_item => "a text",
        FieldKind::Objects if is_item => "fields",
        FieldKind::Matchers if is_item => "a matcher such as severity=\"critical\"",
        FieldKind::Texts | FieldKind::Objects => "a list",
        FieldKind::Matchers => "a list of matchers",
        FieldKind::Labels => "labels and their values",
    }
}
