//! The forms of files that have a configuration.
ghost use Rattle.std.specs.Prelude.{◌≡◌, None, codes, is_some};
ghost use Rattle.std.specs.List.{list_any};
ghost use Rattle.serde_json.specs.Find.{get, pointer};
ghost use Rattle.serde_json.specs.View.{view};
ghost use Rattle.am_input.specs.Configured.{HasTheirs, form_in};

use crate::input::MEMBERS;
use serde_json::Value;

/// What a file is.
#[derive(Clone, Copy, PartialEq, Eq)]
pub enum Form {
    /// A story, with its configuration in it.
    Story,
    /// A configuration of our own.
    Own,
    /// A configuration of Alertmanager.
    Alertmanager,
}

/// The fields that only a configuration of our own has.
const OF_OUR_OWN: [&str; 4] = ["children", "inhibit", "limits", "retention"];

/// Returns what a file is, by the fields that it has.
pub fn form_of(value: &Value) -> Form
    ensures { result ≡ form_in (view value.now) }
{
    if has_one_of(value, &MEMBERS) {
        return Form::Story;
    }
    if has_integrations(value) || has_one_of(value, &OF_OUR_OWN) {
        return Form::Own;
    }
    Form::Alertmanager
}

/// Whether a value is an object with a field of one of these names.
fn has_one_of(value: &Value, names: &[&str]) -> bool
    ensures { result ≡ list_any (λ name. is_some (get name.now (view value.now))) names.now }
{
    names.iter().any(|name| has(value, name))
}

/// Whether a value is an object with a field of this name.
fn has(value: &Value, name: &str) -> bool
    ensures { result ≡ is_some (get name.now (view value.now)) }
{
    value.get(name).is_some()
}

/// Whether the first receiver of a value has integrations.
fn has_integrations(value: &Value) -> bool
    ensures { result ≡ is_some (pointer (codes "/receivers/0/integrations") (view value.now)) }
{
    value.pointer("/receivers/0/integrations").is_some()
}

/// Returns whether a story has a configuration in it.
pub fn has_configuration(story: &Value) -> bool {
    has(story, "config") || has(story, "alertmanager")
}

/// Returns the configuration of Alertmanager in a file, if there is one.
pub fn alertmanager_in(value: &Value) -> Option<&Value>
    ensures own { form_in (view value.now) ≡ Form.Own → result ≡ None }
    ensures theirs { result ≡ None → HasTheirs (form_in (view value.now)) (view value.now) → ⊥ }
{
    match form_of(value) {
        Form::Story => value.get("alertmanager"),
        Form::Own => None,
        Form::Alertmanager => Some(value),
    }
}
