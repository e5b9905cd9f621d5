//! The text of the report.
//!
//! `nothing` goes by what a notice has, not by what was reported. A notice with something to send
//! of which nothing was reported would be `unreported`, and no run that succeeds has one. Cost: for
//! each flush all reports and the records up to its finish, and for each notice the outcomes and
//! reports of its flush.
ghost use Rattle.std.specs.Prelude.{◌≡◌, ◌++◌, ℕ, codes, decimal, IfOk, OnOk, string_bytes};
ghost use Rattle.std.specs.List.{flat_map, join_by};
ghost use Rattle.am_alerts.specs.LabelText.{label_set_text};
ghost use Rattle.am_model.specs.look_back.Past.{notices_in};
ghost use Rattle.am_model.specs.Replay.{replay};
ghost use Rattle.am_model.specs.Ticket.{outcome_of};
ghost use Rattle.am_model.specs.Views.{row_views, group_views};
ghost use Rattle.am_run.specs.Report.{labels_of, as_it_is, list_text, lists_text, group_text, target_text};
ghost use Rattle.am_run.specs.Report.{reported_text, outcome_text, notice_line, row_line, flushed_text, group_line, calls_line};
ghost use Rattle.am_model.specs.Outcomes.{outcomes_in};
ghost use Rattle.am_run.specs.Report.{attempts_on, line_on, notice_lines, report_text};

use am_alerts::alert::Alert;
use am_alerts::labels::Labels;
use am_board::config::Config;
use am_board::group::GroupName;
use am_board::notice::{Notice, Report};
use am_board::record::{Record, Reply};
use am_board::views::{GroupView, RowView};
use am_model::outcome::{outcome_of, outcomes_in};
use am_retry::Outcome;
use std::alloc::{AllocError, Global};

/// What has a label set.
trait Labelled {
    ghost use Rattle.std.specs.Prelude.{List};
    ghost use Rattle.am_alerts.specs.declared.labels.Label.{Label};

    ghost labels: { Self → List Label };

    fn label_set(&self) -> &Labels
        ensures { result.now ≡ labels self.now };
}

impl Labelled for Alert {
    ghost labels = { labels_of };

    fn label_set(&self) -> &Labels {
        self.labels()
    }
}

impl Labelled for Labels {
    ghost labels = { as_it_is };

    fn label_set(&self) -> &Labels {
        self
    }
}

/// The report on a history, with the rows of the log and the groups that it leaves. The reports say how
/// many attempts each notice took.
pub fn report_text(
    alloc: Global,
    config: &Config,
    history: &[Record],
    rows: &[RowView],
    groups: &[GroupView],
    reports: &[Report],
) -> Result<String, AllocError>
    requires rows { rows.now ≡ row_views (replay config.now history.now) }
    requires groups { groups.now ≡ group_views (replay config.now history.now) }
    ensures { IfOk result (λ text.
        string_bytes text ≡ report_text config.now reports.now history.now) }
{
    let mut out = String::new(alloc);
    push_notices(config, reports, history, &mut out)?;
    push_rows(config, rows, &mut out)?;
    push_groups(config, groups, &mut out)?;
    push_calls(history.len(), &mut out)?;
    Ok(out)
}

/// Adds the lines on the notices of a history.
fn push_notices(
    config: &Config,
    reports: &[Report],
    history: &[Record],
    out: &mut String,
) -> Result<(), AllocError>
    ensures { OnOk result (string_bytes out.new
        ≡ string_bytes out.old ++ notice_lines config.now reports.now history.now) }
{
    let mut rest = history;
    loop {
        match rest {
            [] => return Ok(()),
            [record, later @ ..] => {
                push_begun(config, reports, notices_in(&record.reply), later, out)?;
                rest = later;
            }
        }
    }
}

/// The notices of a flush that was begun.
fn notices_in(reply: &Reply) -> &[Notice]
    ensures { result.now ≡ notices_in reply.now }
{
    match reply {
        Reply::Flush { opened, .. } => opened.get().notices.as_slice(),
        _ => &[],
    }
}

/// Adds the lines on notices that these records follow. All notices of a begin name its flush, so
/// what came of it is looked for once.
fn push_begun(
    config: &Config,
    reports: &[Report],
    notices: &[Notice],
    later: &[Record],
    out: &mut String,
) -> Result<(), AllocError>
    ensures { OnOk result (string_bytes out.new
        ≡ string_bytes out.old ++ flat_map (line_on config.now reports.now later.now) notices.now) }
{
    let [first, ..] = notices else {
        return Ok(());
    };
    let mut flush = Sending::of(first.ticket, reports, later);
    for notice in notices {
        flush = flush.or_of(notice.ticket, reports, later);
        let outcome = outcome_of(flush.outcomes, notice.integration);
        let attempts = attempts_on(notice.ticket, notice.integration, flush.reports);
        push_notice(config, notice, outcome, attempts, out)?;
    }
    Ok(())
}

/// What came of the sending of a flush's notices.
#[derive(Clone, Copy)]
struct Sending<'r> {
    ticket: u64,
    outcomes: &'r [(u32, Outcome)],
    /// From the first report on it to the last.
    reports: &'r [Report],
}

impl<'r> Sending<'r> {
    /// What came of this flush, as these reports say and its finish in these records.
    fn of(ticket: u64, reports: &'r [Report], later: &'r [Record]) -> Sending<'r>
        ensures ticket { result.ticket ≡ ticket }
        ensures outcomes { result.outcomes.now ≡ outcomes_in ticket later.now }
        ensures attempts { (integration : ℕ) → attempts_on ticket integration result.reports.now
            ≡ attempts_on ticket integration reports.now }
    {
        Sending {
            ticket,
            outcomes: outcomes_in(ticket, later),
            reports: up_to_last_on(ticket, from_first_on(ticket, reports)),
        }
    }

    /// This, if it is of this flush already; else what came of that one.
    fn or_of(self, ticket: u64, reports: &'r [Report], later: &'r [Record]) -> Sending<'r>
        requires outcomes { self.outcomes.now ≡ outcomes_in self.ticket later.now }
        requires attempts { (integration : ℕ) → attempts_on self.ticket integration self.reports.now
            ≡ attempts_on self.ticket integration reports.now }
        ensures ticket { result.ticket ≡ ticket }
        ensures outcomes { result.outcomes.now ≡ outcomes_in ticket later.now }
        ensures attempts { (integration : ℕ) → attempts_on ticket integration result.reports.now
            ≡ attempts_on ticket integration reports.now }
    {
        if self.ticket == ticket {
            self
        } else {
            Sending::of(ticket, reports, later)
        }
    }
}

/// These reports from the first that is on the flush of this number.
fn from_first_on(number: u64, reports: &[Report]) -> &[Report]
    ensures { (integration : ℕ) → attempts_on number integration result.now ≡ attempts_on number integration reports.now }
{
    let mut rest = reports;
    loop {
        match rest {
            [other, later @ ..] if other.ticket != number => rest = later,
            _ => return rest,
        }
    }
}

/// These reports up to the last that is on the flush of this number.
#[tactic(auto, using(crate::proofs::Attempts::another_at_the_end))]
fn up_to_last_on(number: u64, reports: &[Report]) -> &[Report]
    ensures { (integration : ℕ) → attempts_on number integration result.now ≡ attempts_on number integration reports.now }
{
    let mut rest = reports;
    loop {
        match rest.split_last() {
            Some((other, earlier)) if other.ticket != number => rest = earlier,
            _ => return rest,
        }
    }
}

/// How many attempts the first of these reports on a notice says.
fn attempts_on(ticket: u64, integration: u32, reports: &[Report]) -> u64
    ensures { result ≡ attempts_on ticket integration reports.now }
{
    for report in reports {
        if report.ticket == ticket && report.integration == integration {
            return report.attempts;
        }
    }
    0
}

fn push_notice(
    config: &Config,
    notice: &Notice,
    outcome: Option<Outcome>,
    attempts: u64,
    out: &mut String,
) -> Result<(), AllocError>
    ensures { OnOk result (string_bytes out.new
        ≡ string_bytes out.old ++ notice_line config.now notice.now outcome attempts) }
{
    out.push_str("notice ")?;
    push_number(notice.ticket, out)?;
    out.push_str(" ")?;
    push_target(config, &notice.group, notice.integration, out)?;
    out.push_str(" ")?;
    out.push_str(outcome_text(notice, outcome))?;
    out.push_str(" attempts=")?;
    push_number(attempts, out)?;
    push_lists(notice.firing.as_slice(), notice.resolved.as_slice(), out)?;
    out.push_str("\n")
}

fn push_rows(config: &Config, rows: &[RowView], out: &mut String) -> Result<(), AllocError>
    ensures { OnOk result (string_bytes out.new
        ≡ string_bytes out.old ++ flat_map (row_line config.now) rows.now) }
{
    for row in rows {
        push_row(config, row, out)?;
    }
    Ok(())
}

fn push_row(config: &Config, row: &RowView, out: &mut String) -> Result<(), AllocError>
    ensures { OnOk result (string_bytes out.new ≡ string_bytes out.old ++ row_line config.now row.now) }
{
    out.push_str("row ")?;
    push_target(config, &row.group, row.integration, out)?;
    out.push_str(" at=")?;
    push_number(row.time, out)?;
    out.push_str(" expiry=")?;
    push_number(row.expiry, out)?;
    push_lists(row.firing.as_slice(), row.resolved.as_slice(), out)?;
    out.push_str("\n")
}

fn push_groups(config: &Config, groups: &[GroupView], out: &mut String) -> Result<(), AllocError>
    ensures { OnOk result (string_bytes out.new
        ≡ string_bytes out.old ++ flat_map (group_line config.now) groups.now) }
{
    for group in groups {
        push_group(config, group, out)?;
    }
    Ok(())
}

fn push_group(config: &Config, group: &GroupView, out: &mut String) -> Result<(), AllocError>
    ensures { OnOk result (string_bytes out.new ≡ string_bytes out.old ++ group_line config.now group.now) }
{
    out.push_str("group ")?;
    push_key(config, &group.group, out)?;
    out.push_str(" due=")?;
    push_number(group.due, out)?;
    out.push_str(" flushed=")?;
    out.push_str(flushed_text(group.flushed))?;
    out.push_str(" alerts=")?;
    push_list(group.alerts.as_slice(), out)?;
    out.push_str("\n")
}

fn push_calls(calls: usize, out: &mut String) -> Result<(), AllocError>
    ensures { OnOk result (string_bytes out.new ≡ string_bytes out.old ++ calls_line calls) }
{
    out.push_str("calls ")?;
    push_number(calls as u64, out)?;
    out.push_str("\n")
}

/// Adds the key of a group and the text of an integration of its receiver.
fn push_target(
    config: &Config,
    group: &GroupName,
    integration: u32,
    out: &mut String,
) -> Result<(), AllocError>
    ensures { OnOk result (string_bytes out.new
        ≡ string_bytes out.old ++ target_text config.now group.now integration) }
{
    push_key(config, group, out)?;
    out.push_str(" ")?;
    config.push_integration(group, integration as usize, out)
}

/// Adds the key of a group.
fn push_key(config: &Config, group: &GroupName, out: &mut String) -> Result<(), AllocError>
    ensures { OnOk result (string_bytes out.new ≡ string_bytes out.old ++ group_text config.now group.now) }
{
    out.push_str(config.route_of(group).name.as_str())?;
    out.push_str(":")?;
    group.labels.push_text(out)
}

fn push_lists<T: Labelled>(firing: &[T], resolved: &[T], out: &mut String) -> Result<(), AllocError>
    ensures { OnOk result (string_bytes out.new
        ≡ string_bytes out.old ++ lists_text T.labels firing.now resolved.now) }
{
    out.push_str(" firing=")?;
    push_list(firing, out)?;
    out.push_str(" resolved=")?;
    push_list(resolved, out)
}

/// Adds a list of label sets: `[`, the sets joined by `,`, and `]`.
fn push_list<T: Labelled>(items: &[T], out: &mut String) -> Result<(), AllocError>
    ensures { OnOk result (string_bytes out.new ≡ string_bytes out.old ++ list_text T.labels items.now) }
{
    out.push_str("[")?;
    push_sets(items, out)?;
    out.push_str("]")
}

fn push_sets<T: Labelled>(items: &[T], out: &mut String) -> Result<(), AllocError>
    ensures { OnOk result (string_bytes out.new ≡ string_bytes out.old
        ++ join_by (λ i. label_set_text (T.labels i)) (codes ",") items.now) }
{
    match items {
        [] => Ok(()),
        [first, rest @ ..] => {
            first.label_set().push_text(out)?;
            push_more_sets(rest, out)
        }
    }
}

fn push_more_sets<T: Labelled>(items: &[T], out: &mut String) -> Result<(), AllocError>
    ensures { OnOk result (string_bytes out.new ≡ string_bytes out.old
        ++ flat_map (λ i. codes "," ++ label_set_text (T.labels i)) items.now) }
{
    for item in items {
        out.push_str(",")?;
        item.label_set().push_text(out)?;
    }
    Ok(())
}

fn push_number(number: u64, out: &mut String) -> Result<(), AllocError>
    ensures { OnOk result (string_bytes out.new ≡ string_bytes out.old ++ decimal number) }
{
    write!(out, "{number}")
}

fn flushed_text(flushed: bool) -> &'static str
    ensures { result.now ≡ flushed_text flushed }
{
    if flushed { "yes" } else { "no" }
}

/// `nothing` where there was nothing to send, and only there.
fn outcome_text(notice: &Notice, outcome: Option<Outcome>) -> &'static str
    ensures { result.now ≡ outcome_text notice.now outcome }
{
    if notice.nothing() {
        return "nothing";
    }
    reported_text(outcome)
}

fn reported_text(outcome: Option<Outcome>) -> &'static str
    ensures { result.now ≡ reported_text outcome }
{
    match outcome {
        None => "unreported",
        Some(Outcome::Delivered) => "delivered",
        Some(Outcome::Refused) => "refused",
        Some(Outcome::Expired) => "expired",
        Some(Outcome::Starved) => "starved",
    }
}
