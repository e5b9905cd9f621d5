//! Files of other programs that hold a configuration, or alerts, and how to take these out.
use serde_json::Value;
use std::alloc::{AllocError, Global};

/// Returns what a file is, and how to take out of it what is wanted, if it is one of another program.
pub fn foreign_words(alloc: Global, value: &Value) -> Result<Option<String>, AllocError> {
    let kind = value.get("kind").and_then(Value::as_str);
    let words = match kind {
        Some(kind) if value.get("apiVersion").is_some() => {
            let how = in_kubernetes(kind);
            return Ok(Some(format!(in alloc; "this is a Kubernetes {kind}; {how}")?));
        }
        _ if chart_config(value).is_some() => {
            let (above, _) = chart_config(value).unwrap_or(("", value));
            let path = above.replace(alloc, "/", ".")?;
            return Ok(Some(format!(in alloc;
                "these are the values of a Helm chart; take the configuration out: yq '{path}.config'"
            )?));
        }
        _ if has_text(value, "alertmanager_config") => {
            "this is the file of a Mimir tenant; take the configuration out: yq '.alertmanager_config'"
        }
        _ if has_text(value, "status") && value.get("data").is_some() => {
            "this is an answer of Prometheus; make a story of it: am-rehearse story --prometheus FILE"
        }
        _ => return Ok(None),
    };
    Ok(Some(String::from_str(alloc, words)?))
}

/// Returns how to take a configuration out of an object of Kubernetes.
fn in_kubernetes(kind: &str) -> &'static str {
    match kind {
        "Secret" => {
            "take the configuration out: yq '.data[\"alertmanager.yaml\"]' | base64 -d, or .stringData without base64"
        }
        "ConfigMap" => "take the configuration out: yq '.data[\"alertmanager.yml\"]'",
        "AlertmanagerConfig" => {
            "give the configuration that the operator makes of it: the Secret alertmanager-NAME-generated"
        }
        _ => "give an alertmanager.yml or a story",
    }
}

/// The fields of a story that has a configuration of our own in `config`.
const OF_STORIES: [&str; 5] = ["until", "alerts", "silences", "outages", "expect"];

/// Returns the configuration in the values of a Helm chart, and the JSON pointer of what has it as `config`: `alertmanager`
/// where the chart has more than Alertmanager, and else the file itself. So has a story, whose configuration is one of our own.
pub fn chart_config(file: &Value) -> Option<(&'static str, &Value)> {
    if let Some(chart) = file.get("alertmanager") {
        let config = chart.get("config")?;
        config.get("route")?;
        return Some(("/alertmanager", config));
    }
    let config = file.get("config")?;
    config.get("route")?;
    let is_own = config.get("children").is_some()
        || config.pointer("/receivers/0/integrations").is_some()
        || OF_STORIES.iter().any(|name| file.get(*name).is_some());
    if is_own { None } else { Some(("", config)) }
}

fn has_text(value: &Value, name: &str) -> bool {
    value.get(name).is_some_and(Value::is_string)
}
