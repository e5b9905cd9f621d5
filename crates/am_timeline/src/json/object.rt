//! A JSON object that is being made.
ghost use Rattle.std.specs.Prelude.{◌≡◌, ◌++◌, ◌∷◌, [], IfOk, OnOk, false, codes, map, string_bytes};
ghost use Rattle.serde_json.specs.Data.{no_members, object};
ghost use Rattle.serde_json.specs.View.{members_view, view};
ghost use Rattle.serde_json.specs.Written.{compact_text, has_float, members_have_float};
ghost use Rattle.am_alerts.specs.Labels.{label_in};
ghost use Rattle.am_model.specs.Configured.{integration_text, route_of};
ghost use Rattle.am_timeline.specs.IntegrationName.{target_name};
ghost use Rattle.am_timeline.specs.Json.{cause_members, char_uncontrolled, event_members, inhibited_members};
ghost use Rattle.am_timeline.specs.Json.{integration_members, label_member, members_line, muted_alert_data, muted_data, muted_member};
ghost use Rattle.am_timeline.specs.Json.{number_at, put_all, receiver_member, set_data, sets_data, silenced_members, text_at};
ghost use Rattle.am_timeline.specs.Json.{uncontrolled};
ghost use Rattle.am_timeline.specs.Shown.{hex_text};

use crate::groups::push_integration;
use crate::print::Print;
use crate::shown::push_hex;
use am_alerts::alert::Alert;
use am_alerts::labels::Labels;
use am_model::config::Config;
use am_model::group::GroupName;
use am_model::preview::MutedAlert;
use am_mute::mute::MuteCause;
use am_terms::clock::TimeFormat;
use serde_json::{Map, Value};
use std::alloc::{AllocError, Global};

/// An object with its members so far. All of its numbers are whole.
#[derive(Drop)]
pub(super) struct Object {
    alloc: Global,
    members: Map<String, Value>,
    ghost no_float: { members_have_float (members_view members.entries) ≡ false },
}

impl Object {
    /// Returns the object of an event at a time, with its group.
    pub(super) fn new<C: TimeFormat>(
        print: &Print<'_, '_, C>,
        event: &str,
        at: u64,
        group: &GroupName,
    ) -> Result<Object, AllocError>
        ensures { IfOk result (λ o. members_view o.members.entries ≡ put_all no_members
            (event_members print.now.playback.now.config (C.times print.now.clock.now) event.now at group.now)) }
    {
        let mut object = Object::empty(print.alloc);
        object.put_text("event", event)?;
        object.put_number("at", at)?;
        object.put_time(print.clock, at)?;
        object.put_route(print.config(), group)?;
        object.put_group(group)?;
        Ok(object)
    }

    fn empty(alloc: Global) -> Object
        ensures { members_view result.members.entries ≡ no_members }
    {
        Object {
            alloc,
            members: Map::new(alloc),
        }
    }

    /// Puts a value without floats.
    #[tactic(auto, unfolding(crate::specs::Json::put_all))]
    pub(super) fn put(&mut self, key: &str, value: Value) -> Result<(), AllocError>
        requires { has_float (view value) ≡ false }
        ensures { OnOk result (members_view self.new.members.entries
            ≡ put_all (members_view self.old.members.entries) ((key.now, view value) ∷ [])) }
    {
        serde_json::put(&mut self.members, self.alloc, key, value)?;
        Ok(())
    }

    fn put_string(&mut self, key: &str, text: String) -> Result<(), AllocError>
        ensures { OnOk result (members_view self.new.members.entries
            ≡ put_all (members_view self.old.members.entries) (text_at key.now (string_bytes text) ∷ [])) }
    {
        self.put(key, Value::from(text))
    }

    pub(super) fn put_text(&mut self, key: &str, text: &str) -> Result<(), AllocError>
        ensures { OnOk result (members_view self.new.members.entries
            ≡ put_all (members_view self.old.members.entries) (text_at key.now text.now ∷ [])) }
    {
        let value = String::from_str(self.alloc, text)?;
        self.put_string(key, value)
    }

    pub(super) fn put_number(&mut self, key: &str, number: u64) -> Result<(), AllocError>
        ensures { OnOk result (members_view self.new.members.entries
            ≡ put_all (members_view self.old.members.entries) (number_at key.now number ∷ [])) }
    {
        self.put(key, Value::from(number))
    }

    fn put_time<C: TimeFormat>(&mut self, clock: &C, at: u64) -> Result<(), AllocError>
        ensures { OnOk result (members_view self.new.members.entries
            ≡ put_all (members_view self.old.members.entries) (text_at (codes "time") ((C.times clock.now).text at) ∷ [])) }
    {
        let time = time_text(self.alloc, clock, at)?;
        self.put_string("time", time)
    }

    fn put_route(&mut self, config: &Config, group: &GroupName) -> Result<(), AllocError>
        ensures { OnOk result (members_view self.new.members.entries
            ≡ put_all (members_view self.old.members.entries) (text_at (codes "route") (route_of config.now group.now).name ∷ [])) }
    {
        self.put_text("route", config.route_of(group).name.as_str())
    }

    fn put_group(&mut self, group: &GroupName) -> Result<(), AllocError>
        ensures { OnOk result (members_view self.new.members.entries
            ≡ put_all (members_view self.old.members.entries) ((codes "group", set_data group.now.labels) ∷ [])) }
    {
        let labels = set_of(self.alloc, &group.labels)?;
        self.put("group", labels)
    }

    /// Puts a group's receiver.
    pub(super) fn put_receiver(
        &mut self,
        config: &Config,
        group: &GroupName,
    ) -> Result<(), AllocError>
        ensures { OnOk result (members_view self.new.members.entries
            ≡ put_all (members_view self.old.members.entries) (receiver_member config.now group.now ∷ [])) }
    {
        self.put_text("receiver", config.route_of(group).receiver.as_str())
    }

    /// Puts a group's receiver and an integration of that: its kind and position, and its name.
    #[tactic(auto, using(crate::proofs::Members::put_more), unfolding(crate::specs::Json::integration_members))]
    pub(super) fn put_integration(
        &mut self,
        config: &Config,
        group: &GroupName,
        position: usize,
    ) -> Result<(), AllocError>
        ensures { OnOk result (members_view self.new.members.entries
            ≡ put_all (members_view self.old.members.entries) (integration_members config.now group.now position)) }
    {
        self.put_receiver(config, group)?;
        let integration = integration_text(self.alloc, config, group, position)?;
        self.put_string("integration", integration)?;
        let name = integration_name(self.alloc, config, group, position)?;
        self.put_string("integration_name", name)?;
        Ok(())
    }

    /// Puts muted alerts, each with why it is.
    pub(super) fn put_muted(&mut self, muted: &[MutedAlert]) -> Result<(), AllocError>
        ensures { OnOk result (members_view self.new.members.entries
            ≡ put_all (members_view self.old.members.entries) (muted_member muted.now ∷ [])) }
    {
        let list = muted_list(self.alloc, muted)?;
        self.put("muted", list)
    }

    /// Puts why an alert is muted.
    fn put_cause(&mut self, cause: &MuteCause) -> Result<(), AllocError>
        ensures { OnOk result (members_view self.new.members.entries
            ≡ put_all (members_view self.old.members.entries) (cause_members cause.now)) }
    {
        match cause {
            MuteCause::Silenced { id: _, until } => self.put_silenced(*until),
            MuteCause::Inhibited { rule, by } => self.put_inhibited(*rule, by),
        }
    }

    fn put_silenced(&mut self, until: u64) -> Result<(), AllocError>
        ensures { OnOk result (members_view self.new.members.entries
            ≡ put_all (members_view self.old.members.entries) (silenced_members until)) }
    {
        self.put_text("cause", "silenced")?;
        self.put_number("until", until)?;
        Ok(())
    }

    #[tactic(auto, using(crate::proofs::Members::put_more))]
    fn put_inhibited(&mut self, rule: usize, by: &Labels) -> Result<(), AllocError>
        ensures { OnOk result (members_view self.new.members.entries
            ≡ put_all (members_view self.old.members.entries) (inhibited_members rule by.now)) }
    {
        let source = set_of(self.alloc, by)?;
        self.put_text("cause", "inhibited")?;
        self.put("by", source)?;
        self.put_number("rule", rule as u64)?;
        Ok(())
    }

    fn put_labels(&mut self, labels: &Labels) -> Result<(), AllocError>
        ensures { OnOk result (members_view self.new.members.entries
            ≡ put_all (members_view self.old.members.entries) (map label_member labels.now)) }
    {
        for i in 0..labels.len() {
            self.put_label(&labels.pair(i))?;
        }
        Ok(())
    }

    fn put_label(&mut self, label: &(&str, &str)) -> Result<(), AllocError>
        ensures { OnOk result (members_view self.new.members.entries
            ≡ put_all (members_view self.old.members.entries) (label_member (label_in label.now) ∷ [])) }
    {
        self.put_text(label.0, label.1)
    }

    /// Adds the object as a line.
    pub(super) fn push_line(self, out: &mut String) -> Result<(), AllocError>
        ensures { OnOk result (string_bytes out.new ≡ string_bytes out.old ++ members_line (members_view self.members.entries)) }
    {
        let alloc = self.alloc;
        let value = self.into_value();
        let text = text_of(alloc, &value)?;
        push_uncontrolled(text.as_str(), out)?;
        out.push_str("\n")
    }

    fn into_value(self) -> Value
        ensures value { view result ≡ object (members_view self.members.entries) }
        ensures no_float { has_float (view result) ≡ false }
    {
        let Object { alloc: _, members } = self;
        Value::from(members)
    }
}

/// Returns the JSON text of a value without floats.
fn text_of(alloc: Global, value: &Value) -> Result<String, AllocError>
    requires { has_float (view value.now) ≡ false }
    ensures { IfOk result (λ text. string_bytes text ≡ compact_text (view value.now)) }
{
    value.to_string(alloc)
}

/// Adds a JSON text, and the control characters that JSON allows as their numbers.
fn push_uncontrolled(text: &str, out: &mut String) -> Result<(), AllocError>
    ensures { OnOk result (string_bytes out.new ≡ string_bytes out.old ++ uncontrolled text.now) }
{
    for c in text.chars() {
        push_char(c, out)?;
    }
    Ok(())
}

fn push_char(c: char, out: &mut String) -> Result<(), AllocError>
    ensures { OnOk result (string_bytes out.new ≡ string_bytes out.old ++ char_uncontrolled c) }
{
    match c {
        '\u{7f}'..='\u{9f}' => push_control(c as u32 as u8, out),
        _ => out.push(c),
    }
}

fn push_control(number: u8, out: &mut String) -> Result<(), AllocError>
    ensures { OnOk result (string_bytes out.new ≡ string_bytes out.old ++ codes "\\u00" ++ hex_text number) }
{
    out.push_str("\\u00")?;
    push_hex(number, out)
}

fn time_text<C: TimeFormat>(alloc: Global, clock: &C, at: u64) -> Result<String, AllocError>
    ensures { IfOk result (λ text. string_bytes text ≡ (C.times clock.now).text at) }
{
    let mut text = String::new(alloc);
    clock.push_time(at, &mut text)?;
    Ok(text)
}

fn integration_text(
    alloc: Global,
    config: &Config,
    group: &GroupName,
    position: usize,
) -> Result<String, AllocError>
    ensures { IfOk result (λ text. string_bytes text ≡ integration_text config.now group.now position) }
{
    let mut text = String::new(alloc);
    config.push_integration(group, position, &mut text)?;
    Ok(text)
}

fn integration_name(
    alloc: Global,
    config: &Config,
    group: &GroupName,
    position: usize,
) -> Result<String, AllocError>
    ensures { IfOk result (λ name. string_bytes name ≡ target_name config.now group.now position) }
{
    let mut name = String::new(alloc);
    push_integration(config, group, position, &mut name)?;
    Ok(name)
}

/// Returns a label set: an object of its names and values.
fn set_of(alloc: Global, labels: &Labels) -> Result<Value, AllocError>
    ensures value { IfOk result (λ set. view set ≡ set_data labels.now) }
    ensures no_float { IfOk result (λ set. has_float (view set) ≡ false) }
{
    let mut object = Object::empty(alloc);
    object.put_labels(labels)?;
    Ok(object.into_value())
}

/// Returns the label sets of alerts.
pub(super) fn sets_of(alloc: Global, alerts: &[Alert]) -> Result<Value, AllocError>
    ensures value { IfOk result (λ sets. view sets ≡ sets_data alerts.now) }
    ensures no_float { IfOk result (λ sets. has_float (view sets) ≡ false) }
{
    let mut sets = Vec::with_capacity(alloc, alerts.len())?;
    for alert in alerts {
        sets.push(set_of(alloc, alert.labels())?)?;
    }
    Ok(Value::from(sets))
}

/// Returns muted alerts, each with why it is.
fn muted_list(alloc: Global, muted: &[MutedAlert]) -> Result<Value, AllocError>
    ensures value { IfOk result (λ list. view list ≡ muted_data muted.now) }
    ensures no_float { IfOk result (λ list. has_float (view list) ≡ false) }
{
    let mut list = Vec::with_capacity(alloc, muted.len())?;
    for alert in muted {
        list.push(muted_alert(alloc, alert)?)?;
    }
    Ok(Value::from(list))
}

#[tactic(auto, using(crate::proofs::Members::put_more))]
fn muted_alert(alloc: Global, alert: &MutedAlert) -> Result<Value, AllocError>
    ensures value { IfOk result (λ v. view v ≡ muted_alert_data alert.now) }
    ensures no_float { IfOk result (λ v. has_float (view v) ≡ false) }
{
    let mut object = Object::empty(alloc);
    object.put("labels", set_of(alloc, &alert.labels)?)?;
    object.put_cause(&alert.cause)?;
    Ok(object.into_value())
}
