//! The answers to views: what a board has, and what a begin would do.
ghost use Rattle.std.specs.Prelude.{◌≡◌, ◌++◌, OnOk, option_copied};
ghost use Rattle.am_protocol.specs.View.{cause_members, due_tokens, inhibited_members, listed, outlook_tokens, preview_tokens};
ghost use Rattle.am_protocol.specs.View.{reason_time, reason_word, taken_members, silenced_members, summary_tokens};

use crate::answer::{Answer, ToJson};
use crate::parts::{put_integration, put_optional};
use crate::reply::{begin, end, write_named};
use am_alerts::labels::Labels;
use am_model::config::Config;
use am_model::group::GroupName;
use am_model::preview::{MutedAlert, Preview};
use am_model::reason::Reason;
use am_model::views::{GroupView, RowView, Summary};
use am_mute::mute::MuteCause;
use std::alloc::AllocError;

/// Writes when the next group is due: `{"next_due":{"at":30000}}`, or `null` where none is.
pub fn write_due(due: Option<u64>, answer: &mut Answer) -> Result<(), AllocError>
    ensures { OnOk result (answer.new ≡ answer.old ++ due_tokens due) }
{
    begin("next_due", answer)?;
    put_optional("at", due, answer)?;
    end(answer)
}

/// Writes how much there is on a board.
pub fn write_summary(summary: &Summary, answer: &mut Answer) -> Result<(), AllocError>
    ensures { OnOk result (answer.new ≡ answer.old ++ summary_tokens summary.now) }
{
    begin("summary", answer)?;
    answer.put_number("calls", summary.calls as u64)?;
    answer.put_number("groups", summary.groups as u64)?;
    answer.put_number("alerts", summary.alerts as u64)?;
    answer.put_number("flushes", summary.flushes as u64)?;
    answer.put_number("entries", summary.entries as u64)?;
    end(answer)
}

/// Writes rows of the log, groups or records: `{"rows":[..]}`.
pub fn write_list<T: ToJson>(
    config: &Config,
    name: &str,
    values: &[T],
    answer: &mut Answer,
) -> Result<(), AllocError>
    ensures { OnOk result (answer.new ≡ answer.old ++ listed name.now (T.tokens config.now) values.now) }
{
    answer.open()?;
    answer.put_list(config, name, values)?;
    answer.close()
}

impl ToJson for RowView {
    ghost use Rattle.am_protocol.specs.View.{row_tokens};

    ghost tokens = { row_tokens };

    fn write(&self, config: &Config, answer: &mut Answer) -> Result<(), AllocError> {
        answer.open()?;
        answer.put(config, "group", &self.group)?;
        answer.put_text("receiver", config.route_of(&self.group).receiver.as_str())?;
        put_integration(config, &self.group, self.integration, answer)?;
        answer.put_number("moment", self.time)?;
        answer.put_number("expiry", self.expiry)?;
        answer.put_list(config, "firing", self.firing.as_slice())?;
        answer.put_list(config, "resolved", self.resolved.as_slice())?;
        answer.close()
    }
}

impl ToJson for GroupView {
    ghost use Rattle.am_protocol.specs.View.{group_view_tokens};

    ghost tokens = { group_view_tokens };

    fn write(&self, config: &Config, answer: &mut Answer) -> Result<(), AllocError> {
        answer.open()?;
        answer.put(config, "group", &self.group)?;
        answer.put_number("due", self.due)?;
        answer.put_flag("flushed", self.flushed)?;
        answer.put_list(config, "alerts", self.alerts.as_slice())?;
        answer.close()
    }
}

/// Writes what a begin would do, and why; `nothing_due` where no group would be taken.
pub fn write_outlook(
    config: &Config,
    preview: Option<&Preview>,
    answer: &mut Answer,
) -> Result<(), AllocError>
    ensures { OnOk result (answer.new ≡ answer.old ++ outlook_tokens config.now (option_copied preview.entry)) }
{
    match preview {
        None => write_named("nothing_due", answer),
        Some(preview) => write_preview(config, preview, answer),
    }
}

fn write_preview(config: &Config, preview: &Preview, answer: &mut Answer) -> Result<(), AllocError>
    ensures { OnOk result (answer.new ≡ answer.old ++ preview_tokens config.now preview.now) }
{
    begin("outlook", answer)?;
    put_taken(
        config,
        preview.time,
        &preview.group,
        preview.muted.as_slice(),
        answer,
    )?;
    answer.put_list(config, "reasons", preview.reasons.as_slice())?;
    end(answer)
}

/// Adds the group that a begin would take then, and its muted alerts.
fn put_taken(
    config: &Config,
    time: u64,
    group: &GroupName,
    muted: &[MutedAlert],
    answer: &mut Answer,
) -> Result<(), AllocError>
    ensures { OnOk result (answer.new ≡ answer.old ++ taken_members config.now time group.now muted.now) }
{
    answer.put_number("now", time)?;
    answer.put(config, "group", group)?;
    answer.put_text("receiver", config.route_of(group).receiver.as_str())?;
    answer.put_list(config, "muted", muted)
}

impl ToJson for MutedAlert {
    ghost use Rattle.am_protocol.specs.View.{muted_tokens};

    ghost tokens = { λ config muted. muted_tokens muted };

    fn write(&self, config: &Config, answer: &mut Answer) -> Result<(), AllocError> {
        answer.open()?;
        answer.put(config, "labels", &self.labels)?;
        put_cause(config, &self.cause, answer)?;
        answer.close()
    }
}

/// Adds what mutes a label set.
pub(crate) fn put_cause(
    config: &Config,
    cause: &MuteCause,
    answer: &mut Answer,
) -> Result<(), AllocError>
    ensures { OnOk result (answer.new ≡ answer.old ++ cause_members cause.now) }
{
    match cause {
        MuteCause::Silenced { id, until } => put_silenced(*id, *until, answer),
        MuteCause::Inhibited { rule, by } => put_inhibited(config, *rule, by, answer),
    }
}

fn put_silenced(id: u64, until: u64, answer: &mut Answer) -> Result<(), AllocError>
    ensures { OnOk result (answer.new ≡ answer.old ++ silenced_members id until) }
{
    answer.put_text("cause", "silenced")?;
    answer.put_number("id", id)?;
    answer.put_number("until", until)
}

fn put_inhibited(
    config: &Config,
    rule: usize,
    by: &Labels,
    answer: &mut Answer,
) -> Result<(), AllocError>
    ensures { OnOk result (answer.new ≡ answer.old ++ inhibited_members rule by.now) }
{
    answer.put_text("cause", "inhibited")?;
    answer.put_number("rule", rule as u64)?;
    answer.put(config, "by", by)
}

impl ToJson for Reason {
    ghost use Rattle.am_protocol.specs.View.{reason_tokens};

    ghost tokens = { λ config reason. reason_tokens reason };

    fn write(&self, _config: &Config, answer: &mut Answer) -> Result<(), AllocError> {
        answer.open()?;
        answer.put_flag("notifies", self.notifies())?;
        answer.put_text("reason", reason_word(self))?;
        put_time(self, answer)?;
        answer.close()
    }
}

/// The words of `am-rehearse`.
fn reason_word(reason: &Reason) -> &'static str
    ensures { result.now ≡ reason_word reason.now }
{
    match reason {
        Reason::FirstNotice => "first notice",
        Reason::NewAlert => "new alert",
        Reason::AllResolved => "all resolved",
        Reason::NewlyResolved => "newly resolved",
        Reason::Repeat => "repeat",
        Reason::NothingLeft => "nothing left",
        Reason::NothingFiring => "nothing fires",
        Reason::NotYet { .. } => "nothing new",
        Reason::RouteMuted { .. } => "route muted",
    }
}

/// Adds from when on a notice is repeated that isn't yet, or until when its route is muted.
fn put_time(reason: &Reason, answer: &mut Answer) -> Result<(), AllocError>
    ensures { OnOk result (answer.new ≡ answer.old ++ reason_time reason.now) }
{
    match reason {
        Reason::NotYet { from } => answer.put_number("from", *from),
        Reason::RouteMuted { until } => answer.put_number("until", *until),
        _ => Ok(()),
    }
}
