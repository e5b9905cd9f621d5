//! What Alertmanager rejects in the settings of `global` and of integrations.
use crate::addresses::{is_go_duration, is_host_port, is_proxy_url, is_url};
use crate::settings::{Part, Rule, Wanted, is_among, row_of, wanted_in};
use am_alerts::duration::read_duration;
use serde_json::{Map, Value};
use std::alloc::{AllocError, Global};
use std::collections::BTreeMap;

/// At how many levels parts are within each other: an integration, its `http_config`, `oauth2` in it and
/// `tls_config` in that.
const MAX_LEVELS: usize = 8;

/// How many findings are listed at most.
const MAX_FINDINGS: usize = 100;

/// What Alertmanager rejects in the settings of a part, the first hundred of it. `global` are the
/// members of `global` in the same file, which some settings inherit.
pub fn findings_in(
    alloc: Global,
    part: Part,
    members: &Map<String, Value>,
    global: Option<&Map<String, Value>>,
) -> Result<Vec<Finding>, AllocError> {
    let mut findings = Findings {
        alloc,
        global,
        way: Vec::new(alloc),
        list: Vec::new(alloc),
    };
    findings.add_part(part, members, MAX_LEVELS)?;
    Ok(findings.list)
}

/// What is wrong with a value.
#[derive(Clone, Copy, PartialEq, Eq)]
pub enum Rejection {
    /// It has to be there, and say something.
    Missing,
    /// Another kind of value is wanted.
    WrongType,
    /// The kind is right, and the value isn't.
    BadValue,
    /// There is no field of this name.
    Unknown,
}

/// Why a value of the settings is rejected.
#[derive(Clone, Copy)]
pub enum Reason {
    /// The part has no such field.
    Unknown(Part),
    /// Another kind of value is wanted, or another text.
    Other(Wanted),
    /// One of these fields of the part has to say something.
    Missing(Part, &'static [&'static str]),
    /// One of these fields of the part has to say something, or one of those in `global`.
    MissingInGlobal {
        part: Part,
        own: &'static [&'static str],
        global: &'static [&'static str],
    },
    /// The default of this member of `global` was taken away by null.
    NoDefault {
        global: &'static str,
    },
    /// The first and the second both say something.
    Both(&'static str, &'static str),
    /// The first says something, and the second, which belongs to it, doesn't.
    Alone(&'static str, &'static str),
    /// A field of the part lacks a field: this one has to be in that one.
    NotWithin(Part, &'static str, &'static str),
    /// A name that Alertmanager fills in itself.
    Reserved,
    /// The name of a header that is there in other letters.
    Twice,
}

/// Something that is rejected, and why.
#[derive(Drop)]
pub struct Finding {
    /// Where it is: what a JSON pointer has behind that of the settings.
    pub place: String,
    pub rejection: Rejection,
    pub reason: Reason,
}

/// A step of the way from the settings down to a value in them.
#[derive(Clone, Copy)]
enum Step<'v> {
    Member(&'v str),
    Item(usize),
}

/// What was found.
#[derive(Drop)]
struct Findings<'g, 'v> {
    alloc: Global,
    /// The members of `global`, if there is one.
    global: Option<&'g Map<String, Value>>,
    /// The way to the value that is looked at.
    way: Vec<Step<'v>>,
    list: Vec<Finding>,
}

impl<'g, 'v> Findings<'g, 'v> {
    /// Adds the value that is looked at.
    fn push(&mut self, rejection: Rejection, reason: Reason) -> Result<(), AllocError> {
        if self.list.len() < MAX_FINDINGS {
            let place = text_of(self.alloc, &self.way)?;
            self.list.push(Finding {
                place,
                rejection,
                reason,
            })?;
        }
        Ok(())
    }

    /// Adds a value below the one that is looked at.
    fn push_at(
        &mut self,
        step: Step<'v>,
        rejection: Rejection,
        reason: Reason,
    ) -> Result<(), AllocError> {
        self.way.push(step)?;
        self.push(rejection, reason)?;
        let _ = self.way.pop();
        Ok(())
    }

    /// Adds a value of another type than is wanted.
    fn push_type(&mut self, wanted: Wanted) -> Result<(), AllocError> {
        self.push(Rejection::WrongType, Reason::Other(wanted))
    }

    /// Adds what is rejected in a part, under which so many levels can be: its members by name, and then
    /// by its rules.
    #[cycle(settings)]
    fn add_part(
        &mut self,
        part: Part,
        members: &'v Map<String, Value>,
        levels: usize,
    ) -> Result<(), AllocError> {
        let Some(below) = levels.checked_sub(1) else {
            return Ok(());
        };
        for (name, value) in members.iter() {
            self.way.push(Step::Member(name.as_str()))?;
            match wanted_in(part, name.as_str()) {
                None => self.push(Rejection::Unknown, Reason::Unknown(part))?,
                Some(_) if value.is_null() => {}
                Some(wanted) => self.add_value(wanted, value, below)?,
            }
            let _ = self.way.pop();
        }
        for rule in row_of(part).rules {
            self.add_rule(part, *rule, members)?;
        }
        Ok(())
    }

    /// Adds what is rejected in a value that isn't null, under which so many levels can be.
    #[cycle(settings)]
    fn add_value(
        &mut self,
        wanted: Wanted,
        value: &'v Value,
        levels: usize,
    ) -> Result<(), AllocError> {
        match wanted {
            Wanted::Fields(part) => self.add_fields(part, value, levels),
            Wanted::Parts(part) => self.add_parts(part, value, levels),
            _ => self.add_plain(wanted, value),
        }
    }

    /// Adds what is rejected in a value that has to be a part.
    #[cycle(settings)]
    fn add_fields(
        &mut self,
        part: Part,
        value: &'v Value,
        levels: usize,
    ) -> Result<(), AllocError> {
        let Some(members) = value.as_object() else {
            return self.push_type(Wanted::Fields(part));
        };
        self.add_part(part, members, levels)
    }

    /// Adds what is rejected in a list of parts.
    #[cycle(settings)]
    fn add_parts(&mut self, part: Part, value: &'v Value, levels: usize) -> Result<(), AllocError> {
        let Some(items) = value.as_array() else {
            return self.push_type(Wanted::Parts(part));
        };
        for (index, value) in items.iter().enumerate() {
            self.way.push(Step::Item(index))?;
            self.add_fields(part, value, levels)?;
            let _ = self.way.pop();
        }
        Ok(())
    }

    /// Adds what is rejected in a value that has no fields of a part.
    fn add_plain(&mut self, wanted: Wanted, value: &'v Value) -> Result<(), AllocError> {
        match (wanted, value) {
            (Wanted::Texts, Value::Array(items)) => self.add_texts(items),
            (Wanted::Lists | Wanted::Pairs { .. } | Wanted::Headers, Value::Object(members)) => {
                self.add_named(wanted, members)
            }
            _ => match rejected(wanted, value) {
                None => Ok(()),
                Some(rejection) => self.push(rejection, Reason::Other(wanted)),
            },
        }
    }

    /// Adds the items of a list that are no texts.
    fn add_texts(&mut self, items: &[Value]) -> Result<(), AllocError> {
        for (index, item) in items.iter().enumerate() {
            if !is_scalar(item) {
                self.push_at(
                    Step::Item(index),
                    Rejection::WrongType,
                    Reason::Other(Wanted::Text),
                )?;
            }
        }
        Ok(())
    }

    /// Adds what is rejected in texts, or lists of them, that have names.
    fn add_named(
        &mut self,
        wanted: Wanted,
        members: &'v Map<String, Value>,
    ) -> Result<(), AllocError> {
        let mut lower_names: BTreeMap<String, ()> = BTreeMap::new(self.alloc);
        for (name, value) in members.iter() {
            let name = name.as_str();
            self.way.push(Step::Member(name))?;
            match wanted {
                Wanted::Lists => self.add_list(value)?,
                Wanted::Pairs { reserved } if is_among(reserved, name) => {
                    self.push(Rejection::Unknown, Reason::Reserved)?;
                }
                _ if !is_scalar(value) => self.push_type(Wanted::Text)?,
                Wanted::Headers => {
                    let lower = name.to_ascii_lowercase(self.alloc)?;
                    if lower_names.insert(lower, ())?.is_some() {
                        self.push(Rejection::Unknown, Reason::Twice)?;
                    }
                }
                _ => {}
            }
            let _ = self.way.pop();
        }
        Ok(())
    }

    /// Adds what in a list of texts, or null, is none.
    fn add_list(&mut self, value: &Value) -> Result<(), AllocError> {
        match value {
            Value::Null => Ok(()),
            Value::Array(items) => self.add_texts(items),
            _ => self.push_type(Wanted::Texts),
        }
    }

    /// Adds what a rule rejects of a part.
    fn add_rule(
        &mut self,
        part: Part,
        rule: Rule,
        members: &Map<String, Value>,
    ) -> Result<(), AllocError> {
        match rule {
            Rule::Needs(names) => {
                if first_that_says(part, names, members).is_some() {
                    return Ok(());
                }
                self.push_missing(names, Reason::Missing(part, names))
            }
            Rule::Inherits { own, global } => {
                if first_that_says(part, own, members).is_some() || self.global_says(global) {
                    return Ok(());
                }
                self.push_missing(own, Reason::MissingInGlobal { part, own, global })
            }
            Rule::HasDefault { own, global } => {
                if first_that_says(part, &[own], members).is_some() || !self.has_null(global) {
                    return Ok(());
                }
                self.push_missing(&[own], Reason::NoDefault { global })
            }
            Rule::AtMostOne(names) => self.add_second(part, names, members),
            Rule::NeedsToo(first, second) => {
                if first_that_says(part, &[first], members).is_none()
                    || first_that_says(part, &[second], members).is_some()
                {
                    return Ok(());
                }
                self.push_missing(&[second], Reason::Alone(first, second))
            }
            Rule::Within(outer, inner) => {
                if has_within(members, outer, inner) {
                    return Ok(());
                }
                self.push_missing(&[outer], Reason::NotWithin(part, inner, outer))
            }
        }
    }

    /// Adds the second of these fields that says something, if there is one.
    fn add_second(
        &mut self,
        part: Part,
        names: &'static [&'static str],
        members: &Map<String, Value>,
    ) -> Result<(), AllocError> {
        let mut first: Option<&'static str> = None;
        for name in names {
            if let Some(value) = members.get(*name) {
                if says(part, name, value) {
                    match first {
                        None => first = Some(*name),
                        Some(first) => {
                            let reason = Reason::Both(first, *name);
                            return self.push_at(Step::Member(*name), Rejection::BadValue, reason);
                        }
                    }
                }
            }
        }
        Ok(())
    }

    /// Adds that the first of these fields is missing.
    fn push_missing(&mut self, names: &[&'static str], reason: Reason) -> Result<(), AllocError> {
        match names.first() {
            None => Ok(()),
            Some(name) => self.push_at(Step::Member(*name), Rejection::Missing, reason),
        }
    }

    /// Whether one of these fields of `global` says something.
    fn global_says(&self, names: &'static [&'static str]) -> bool {
        match self.global {
            None => false,
            Some(global) => first_that_says(Part::Global, names, global).is_some(),
        }
    }

    /// Whether a field of `global` is null.
    fn has_null(&self, name: &str) -> bool {
        match self.global {
            None => false,
            Some(global) => global.get(name).is_some_and(Value::is_null),
        }
    }
}

/// A way as a JSON pointer.
fn text_of(alloc: Global, way: &[Step<'_>]) -> Result<String, AllocError> {
    let mut text = String::new(alloc);
    for step in way {
        match step {
            Step::Member(name) => push_name(name, &mut text)?,
            Step::Item(index) => write!(text, "/{index}")?,
        }
    }
    Ok(text)
}

/// Adds a step to a member of this name: a JSON pointer writes `~` as `~0`, and `/` as `~1`.
fn push_name(name: &str, out: &mut String) -> Result<(), AllocError> {
    out.push('/')?;
    for character in name.chars() {
        match character {
            '~' => out.push_str("~0")?,
            '/' => out.push_str("~1")?,
            _ => out.push(character)?,
        }
    }
    Ok(())
}

/// The first of these fields of a part that says something.
fn first_that_says<'n>(
    part: Part,
    names: &[&'n str],
    members: &Map<String, Value>,
) -> Option<&'n str> {
    for name in names {
        if members
            .get(*name)
            .is_some_and(|value| says(part, name, value))
        {
            return Some(*name);
        }
    }
    None
}

/// Whether the value of a field of a part says something.
fn says(part: Part, name: &str, value: &Value) -> bool {
    match (value, wanted_in(part, name)) {
        (Value::Null, _) => false,
        (Value::String(text), _) => !text.is_empty(),
        (Value::Number(number), Some(Wanted::Number)) => number.as_u64() != Some(0),
        (Value::Object(members), Some(Wanted::Lists)) => !members.is_empty(),
        _ => true,
    }
}

/// Whether an object has a field in a field, which isn't null.
fn has_within(members: &Map<String, Value>, outer: &str, inner: &str) -> bool {
    match members.get(outer).and_then(|value| value.get(inner)) {
        None => false,
        Some(value) => !value.is_null(),
    }
}

/// Whether a value is a text, a number, a flag or null.
fn is_scalar(value: &Value) -> bool {
    !value.is_array() && !value.is_object()
}

/// Whether a value is the number 0, the one duration that is written without a unit.
fn is_zero(value: &Value) -> bool {
    value.as_u64() == Some(0)
}

/// Why a value that isn't null isn't what is wanted, if it isn't.
fn rejected(wanted: Wanted, value: &Value) -> Option<Rejection> {
    let is_right = match wanted {
        Wanted::Text => is_scalar(value),
        Wanted::Flag => value.is_boolean(),
        Wanted::Count => value.as_u64().is_some(),
        Wanted::Number => value.as_i64().is_some(),
        Wanted::Anything | Wanted::ReadElsewhere => true,
        Wanted::GoDuration if is_zero(value) => true,
        Wanted::Duration if is_zero(value) => true,
        _ => return rejected_text(wanted, value.as_str()),
    };
    if is_right {
        None
    } else {
        Some(Rejection::WrongType)
    }
}

/// Why a text isn't what is wanted, if it isn't.
fn rejected_text(wanted: Wanted, text: Option<&str>) -> Option<Rejection> {
    let Some(text) = text else {
        return Some(Rejection::WrongType);
    };
    let is_right = match wanted {
        Wanted::Url => is_url(text),
        Wanted::SecretUrl => text == "<secret>" || is_url(text),
        Wanted::ProxyUrl => text.is_empty() || is_proxy_url(text),
        Wanted::HostPort => text.is_empty() || is_host_port(text),
        Wanted::GoDuration => is_go_duration(text),
        Wanted::Duration => read_duration(text).is_ok(),
        Wanted::OneOf(texts) => is_among(texts, text),
        Wanted::AuthorizationType => !text.trim().eq_ignore_ascii_case("basic"),
        Wanted::ResponderType => is_responder_type(text),
        _ => return Some(Rejection::WrongType),
    };
    if is_right {
        None
    } else {
        Some(Rejection::BadValue)
    }
}

/// The types of responders.
pub const RESPONDER_TYPES: [&str; 5] = ["team", "teams", "user", "escalation", "schedule"];

/// Whether a text is the type of a responder, or a template that is one field.
fn is_responder_type(text: &str) -> bool {
    RESPONDER_TYPES
        .iter()
        .any(|known| known.eq_ignore_ascii_case(text))
        || is_field_template(text)
}

/// Whether a text is `{{ .Name }}`.
fn is_field_template(text: &str) -> bool {
    let inner = text
        .strip_prefix("{{")
        .and_then(|behind| behind.strip_suffix("}}"));
    let Some(name) = inner.and_then(|inner| inner.trim().strip_prefix('.')) else {
        return false;
    };
    name.starts_with(|character: char| character.is_ascii_alphabetic())
        && name
            .bytes()
            .all(|byte| byte.is_ascii_alphanumeric() || byte == b'_')
}
