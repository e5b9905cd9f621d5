//! The records of a history: each accepted call as the line that asks for it, with its reply.
ghost use Rattle.std.specs.Prelude.{◌≡◌, ◌++◌, OnOk};
ghost use Rattle.am_protocol.specs.Record.{call_tokens, finish_tokens, insert_tokens, load_tokens, note_tokens, outcome_tokens};
ghost use Rattle.am_protocol.specs.Record.{report_tokens};
ghost use Rattle.am_protocol.specs.Record.{silence_tokens, timed_tokens};

use crate::answer::{Answer, ToJson};
use crate::parts::put_alert;
use crate::reply::{begin, end, write_reply};
use crate::request::outcome_word;
use am_alerts::alert::Alert;
use am_alerts::matcher::MatcherParts;
use am_model::config::Config;
use am_model::record::{Call, Record};
use am_model::views::RowView;
use am_retry::Outcome;
use std::alloc::AllocError;

/// Without its pass: the program's calls have one.
impl ToJson for Record {
    ghost use Rattle.am_protocol.specs.Record.{record_tokens};

    ghost tokens = { record_tokens };

    fn write(&self, config: &Config, answer: &mut Answer) -> Result<(), AllocError> {
        answer.open()?;
        answer.key("call")?;
        write_call(config, &self.call, answer)?;
        answer.key("reply")?;
        write_reply(config, &self.reply, answer)?;
        answer.close()
    }
}

fn write_call(config: &Config, call: &Call, answer: &mut Answer) -> Result<(), AllocError>
    ensures { OnOk result (answer.new ≡ answer.old ++ call_tokens config.now call.now) }
{
    match call {
        Call::Insert { now, alert } => write_insert(config, *now, alert, answer),
        Call::Silence {
            now,
            id,
            matchers,
            start,
            end,
        } => write_silence(
            config,
            *now,
            *id,
            matchers.get().as_slice(),
            (*start, *end),
            answer,
        ),
        Call::Begin { now } => write_timed("begin", *now, answer),
        Call::Finish {
            now,
            number,
            outcomes,
        } => write_finish(config, *now, *number, outcomes.as_slice(), answer),
        Call::Maintain { now } => write_timed("maintain", *now, answer),
        Call::RemoveEmptyGroups { now } => write_timed("remove_empty_groups", *now, answer),
        Call::Forget { now } => write_timed("forget", *now, answer),
        Call::Load { now, row } => write_load(config, *now, row.get(), answer),
        Call::Note {
            now,
            number,
            integration,
            outcome: _,
        } => write_note(*now, *number, *integration, answer),
    }
}

/// Writes a call that has a time alone.
fn write_timed(name: &str, now: u64, answer: &mut Answer) -> Result<(), AllocError>
    ensures { OnOk result (answer.new ≡ answer.old ++ timed_tokens name.now now) }
{
    begin(name, answer)?;
    answer.put_number("now", now)?;
    end(answer)
}

fn write_insert(
    config: &Config,
    now: u64,
    alert: &Alert,
    answer: &mut Answer,
) -> Result<(), AllocError>
    ensures { OnOk result (answer.new ≡ answer.old ++ insert_tokens now alert.now) }
{
    begin("insert", answer)?;
    answer.put_number("now", now)?;
    put_alert(config, alert, answer)?;
    end(answer)
}

/// Writes a silence from one time to another.
fn write_silence(
    config: &Config,
    now: u64,
    id: u64,
    matchers: &[MatcherParts],
    times: (u64, u64),
    answer: &mut Answer,
) -> Result<(), AllocError>
    ensures { OnOk result (answer.new ≡ answer.old ++ silence_tokens now id matchers.now times.0 times.1) }
{
    let (starts, ends) = times;
    begin("silence", answer)?;
    answer.put_number("now", now)?;
    answer.put_number("id", id)?;
    answer.put_number("starts", starts)?;
    answer.put_number("ends", ends)?;
    answer.put_list(config, "matchers", matchers)?;
    end(answer)
}

/// Writes a finish, with the reports that its ticket had.
fn write_finish(
    config: &Config,
    now: u64,
    ticket: u64,
    outcomes: &[(u32, Outcome)],
    answer: &mut Answer,
) -> Result<(), AllocError>
    ensures { OnOk result (answer.new ≡ answer.old ++ finish_tokens now ticket outcomes.now) }
{
    begin("finish", answer)?;
    answer.put_number("now", now)?;
    answer.put_number("ticket", ticket)?;
    answer.put_list(config, "reports", outcomes)?;
    end(answer)
}

/// Writes a load, with the row that was handed in.
fn write_load(
    config: &Config,
    now: u64,
    row: &RowView,
    answer: &mut Answer,
) -> Result<(), AllocError>
    ensures { OnOk result (answer.new ≡ answer.old ++ load_tokens config.now now row.now) }
{
    begin("load", answer)?;
    answer.put_number("now", now)?;
    answer.put(config, "row", row)?;
    end(answer)
}

/// Writes a note. Its notice was reported delivered, or there would be no record.
fn write_note(
    now: u64,
    ticket: u64,
    integration: u32,
    answer: &mut Answer,
) -> Result<(), AllocError>
    ensures { OnOk result (answer.new ≡ answer.old ++ note_tokens now ticket integration) }
{
    begin("note", answer)?;
    answer.put_number("now", now)?;
    answer.put_number("ticket", ticket)?;
    answer.put_number("integration", u64::from(integration))?;
    end(answer)
}

impl ToJson for MatcherParts {
    ghost use Rattle.am_protocol.specs.Record.{matcher_tokens};

    ghost tokens = { λ config matcher. matcher_tokens matcher };

    fn write(&self, _config: &Config, answer: &mut Answer) -> Result<(), AllocError> {
        answer.open_list()?;
        answer.text(self.name.as_str())?;
        answer.text(self.op.text())?;
        answer.text(self.value.as_str())?;
        answer.close_list()
    }
}

impl ToJson for (u32, Outcome) {
    ghost use Rattle.am_protocol.specs.Record.{recorded_tokens};

    ghost tokens = { λ config report. recorded_tokens report };

    fn write(&self, _config: &Config, answer: &mut Answer) -> Result<(), AllocError> {
        write_report(self.0, Some(self.1), answer)
    }
}

/// Writes what was reported on the notice of an integration: how its sending ended, or `null`.
pub fn write_report(
    integration: u32,
    outcome: Option<Outcome>,
    answer: &mut Answer,
) -> Result<(), AllocError>
    ensures { OnOk result (answer.new ≡ answer.old ++ report_tokens integration outcome) }
{
    answer.open()?;
    answer.put_number("integration", u64::from(integration))?;
    answer.key("outcome")?;
    write_outcome(outcome, answer)?;
    answer.close()
}

fn write_outcome(outcome: Option<Outcome>, answer: &mut Answer) -> Result<(), AllocError>
    ensures { OnOk result (answer.new ≡ answer.old ++ outcome_tokens outcome) }
{
    match outcome {
        None => answer.null(),
        Some(outcome) => answer.text(outcome_word(outcome)),
    }
}
