//! What the delivered notices of two rehearsals of one story differ in, as text.
//!
//! Two notices are the same if they are for one integration of one receiver, by their names, and say the same alerts.
//! Another kind next to an integration changes its position, and nothing here. Of the same notices those of one time are
//! paired first. Of what is left the first of one rehearsal is paired with the first of the other, and so on: these have
//! moved. An alert is reported if a delivered notice has it, as firing or as resolved, as for `am_undelivered`. Cost: the
//! notices of both, sorted.
ghost use Rattle.std.specs.Prelude.{◌≡◌, ◌↔◌, false, length, IfOk, string_bytes};
ghost use Rattle.am_timeline.specs.Comparison.{SameNotices, delivered_notices, no_difference_text};

use crate::playback::Playback;
use crate::sent_notice::{
    ListedAlert, SentNotice, Side, are_same, by_content_and_side, is_same, notices_of,
};
use am_terms::clock::{TimeFormat, push_column, push_number};
use std::alloc::{AllocError, Global};
use std::cmp::Ordering;

/// How many milliseconds an hour has.
const HOUR: u64 = 3_600_000;

/// What two rehearsals differ in.
#[derive(Drop)]
pub struct Comparison {
    /// A line for each notice that differs, by time; then a line for each receiver that differs, and for each alert that
    /// only one of the two rehearsals says of.
    pub text: String,
    /// Whether a notice differs.
    pub differs: bool,
}

/// A line on a notice that differs.
#[derive(Drop)]
struct Difference {
    at: u64,
    line: String,
}

/// How many notices each of the two rehearsals has.
#[derive(Clone, Copy, PartialEq, Eq)]
struct Counts {
    old: usize,
    new: usize,
}

/// The notices of a receiver.
#[derive(Drop)]
struct ReceiverCounts<'t> {
    receiver: &'t str,
    all: Counts,
    /// Those of each hour that has one.
    hours: Vec<HourCounts>,
}

/// The notices of an hour, by its number.
#[derive(Clone, Copy, PartialEq, Eq)]
struct HourCounts {
    hour: u64,
    counts: Counts,
}

/// The notices that say an alert.
#[derive(Drop)]
struct AlertCounts<'t> {
    alert: &'t str,
    counts: Counts,
}

/// Returns what the delivered notices of two rehearsals differ in. They don't differ exactly if both rehearsals delivered the same
/// notices at the same times, each as often.
pub fn compare_notices<C: TimeFormat>(
    alloc: Global,
    old: &Playback<'_>,
    new: &Playback<'_>,
    clock: &C,
) -> Result<Comparison, AllocError>
    ensures differs { IfOk result (λ compared. (compared.differs ≡ false) ↔ SameNotices old.now new.now) }
    ensures text { IfOk result (λ compared. compared.differs ≡ false
        → string_bytes compared.text ≡ no_difference_text (length (delivered_notices old.now))) }
{
    let mut listed_alerts = Vec::new(alloc);
    let old_notices = notices_of(alloc, Side::Old, old, clock, &mut listed_alerts)?;
    let new_notices = notices_of(alloc, Side::New, new, clock, &mut listed_alerts)?;
    let old_slice = old_notices.as_slice();
    let new_slice = new_notices.as_slice();
    let same = are_same(alloc, old_slice, new_slice)?;
    if same {
        let text = no_difference(alloc, old_slice.len())?;
        return Ok(Comparison {
            text,
            differs: false,
        });
    }
    let text = differences_text(alloc, old_notices, new_notices, listed_alerts, clock)?;
    Ok(Comparison {
        text,
        differs: true,
    })
}

/// Says that so many notices don't differ.
fn no_difference(alloc: Global, count: usize) -> Result<String, AllocError>
    ensures { IfOk result (λ text. string_bytes text ≡ no_difference_text count) }
{
    let mut text = String::new(alloc);
    text.push_str("no difference in ")?;
    push_number(count as u64, &mut text)?;
    text.push_str(" notices\n")?;
    Ok(text)
}

/// Says what notices differ in, and what follows for receivers and alerts.
fn differences_text<C: TimeFormat>(
    alloc: Global,
    old_notices: Vec<SentNotice>,
    new_notices: Vec<SentNotice>,
    listed_alerts: Vec<ListedAlert>,
    clock: &C,
) -> Result<String, AllocError> {
    let (mut sent_notices, mut new_notices) = (old_notices, new_notices);
    let mut listed_alerts = listed_alerts;
    sent_notices.append(&mut new_notices)?;
    sent_notices.sort_unstable_by(by_content_and_side);
    let differences = differences_of(alloc, sent_notices.as_slice(), clock)?;
    let mut text = String::new(alloc);
    push_differences(differences, &mut text)?;
    let mut summary = String::new(alloc);
    sent_notices.sort_unstable_by(by_receiver);
    push_receivers(alloc, sent_notices.as_slice(), clock, &mut summary)?;
    listed_alerts.sort_unstable_by(by_alert);
    push_listed(alloc, listed_alerts.as_slice(), &mut summary)?;
    if !summary.is_empty() {
        text.push('\n')?;
        text.push_str(summary.as_str())?;
    }
    Ok(text)
}

fn by_receiver(one: &SentNotice, other: &SentNotice) -> Ordering {
    one.receiver
        .as_str()
        .cmp(other.receiver.as_str())
        .then(one.at.cmp(&other.at))
}

fn by_time(one: &Difference, other: &Difference) -> Ordering {
    one.at
        .cmp(&other.at)
        .then(one.line.as_str().cmp(other.line.as_str()))
}

fn by_alert(one: &ListedAlert, other: &ListedAlert) -> Ordering {
    one.alert.as_str().cmp(other.alert.as_str())
}

/// Returns the lines on what differs among notices in the order of `by_content_and_side`.
fn differences_of<C: TimeFormat>(
    alloc: Global,
    sent_notices: &[SentNotice],
    clock: &C,
) -> Result<Vec<Difference>, AllocError> {
    let paired = paired_at_once(alloc, sent_notices)?;
    let mut lines = Vec::new(alloc);
    // The same notices of one rehearsal, of which those from `next` on wait for one of the other.
    let mut waiting: Vec<&SentNotice> = Vec::new(alloc);
    let mut next = 0usize;
    for (notice, is_paired) in sent_notices.iter().zip(paired.as_slice()) {
        let is_other = match waiting.last() {
            None => false,
            Some(last) => !is_same(last, notice),
        };
        if is_other {
            push_alone(alloc, waiting.as_slice(), next, clock, &mut lines)?;
            waiting.clear();
            next = 0;
        }
        if !*is_paired {
            match waiting.get(next) {
                Some(first) if first.side != notice.side => {
                    push_moved(alloc, first, notice, clock, &mut lines)?;
                    next = next.saturating_add(1);
                }
                _ => waiting.push(notice)?,
            }
        }
    }
    push_alone(alloc, waiting.as_slice(), next, clock, &mut lines)?;
    Ok(lines)
}

/// Returns of each notice whether it is paired with the same notice of the other rehearsal at the same time, which is
/// next to it.
fn paired_at_once(alloc: Global, sent_notices: &[SentNotice]) -> Result<Vec<bool>, AllocError> {
    let mut paired: Vec<bool> = Vec::new(alloc);
    let mut last: Option<&SentNotice> = None;
    for notice in sent_notices {
        let mut is_paired = false;
        if let (Some(before), Some(was_paired)) = (last, paired.last_mut()) {
            if !*was_paired
                && before.side != notice.side
                && before.at == notice.at
                && is_same(before, notice)
            {
                *was_paired = true;
                is_paired = true;
            }
        }
        paired.push(is_paired)?;
        last = Some(notice);
    }
    Ok(paired)
}

/// Adds a line for each of these notices from `next` on, which only one rehearsal has.
fn push_alone<C: TimeFormat>(
    alloc: Global,
    waiting: &[&SentNotice],
    next: usize,
    clock: &C,
    lines: &mut Vec<Difference>,
) -> Result<(), AllocError> {
    for notice in waiting.iter().skip(next) {
        let mut line = String::new(alloc);
        line.push_str(match notice.side {
            Side::Old => "- ",
            Side::New => "+ ",
        })?;
        push_column(clock, notice.at, &mut line)?;
        push_content(notice, &mut line)?;
        lines.push(Difference {
            at: notice.at,
            line,
        })?;
    }
    Ok(())
}

/// Adds a line on a notice that has moved from the time that one rehearsal has to that of the other.
fn push_moved<C: TimeFormat>(
    alloc: Global,
    one: &SentNotice,
    other: &SentNotice,
    clock: &C,
    lines: &mut Vec<Difference>,
) -> Result<(), AllocError> {
    let (old, new) = match one.side {
        Side::Old => (one, other),
        Side::New => (other, one),
    };
    if old.at == new.at {
        return Ok(());
    }
    let mut line = String::new(alloc);
    line.push_str("~ ")?;
    clock.push_time(old.at, &mut line)?;
    line.push_str(" -> ")?;
    push_column(clock, new.at, &mut line)?;
    push_content(new, &mut line)?;
    lines.push(Difference { at: old.at, line })?;
    Ok(())
}

fn push_content(notice: &SentNotice, line: &mut String) -> Result<(), AllocError> {
    write!(
        line,
        "{}: {}{}\n",
        notice.target, notice.reason, notice.alerts
    )
}

fn push_differences(differences: Vec<Difference>, text: &mut String) -> Result<(), AllocError> {
    let mut differences = differences;
    differences.sort_unstable_by(by_time);
    for difference in &differences {
        text.push_str(difference.line.as_str())?;
    }
    Ok(())
}

impl Counts {
    fn none() -> Counts {
        Counts { old: 0, new: 0 }
    }

    fn count(&mut self, side: Side) {
        match side {
            Side::Old => self.old = self.old.saturating_add(1),
            Side::New => self.new = self.new.saturating_add(1),
        }
    }

    fn differ(&self) -> bool {
        self.old != self.new
    }
}

impl<'t> ReceiverCounts<'t> {
    /// Counts a notice, which comes in the order of time.
    fn count(&mut self, notice: &SentNotice) -> Result<(), AllocError> {
        self.all.count(notice.side);
        let hour = notice.at / HOUR;
        let is_known = match self.hours.last() {
            None => false,
            Some(last) => last.hour == hour,
        };
        if !is_known {
            self.hours.push(HourCounts {
                hour,
                counts: Counts::none(),
            })?;
        }
        if let Some(last) = self.hours.last_mut() {
            last.counts.count(notice.side);
        }
        Ok(())
    }
}

/// Adds a line for each receiver whose notices differ in number in some hour, and one for each such hour.
fn push_receivers<C: TimeFormat>(
    alloc: Global,
    sent_notices: &[SentNotice],
    clock: &C,
    text: &mut String,
) -> Result<(), AllocError> {
    let receivers = counted(alloc, sent_notices)?;
    for receiver in &receivers {
        if receiver.hours.iter().any(|hour| hour.counts.differ()) {
            let Counts { old, new } = receiver.all;
            write!(
                text,
                "receiver {}: {old} notices -> {new}\n",
                receiver.receiver
            )?;
            push_hours(receiver, clock, text)?;
        }
    }
    Ok(())
}

fn push_hours<C: TimeFormat>(
    receiver: &ReceiverCounts<'_>,
    clock: &C,
    text: &mut String,
) -> Result<(), AllocError> {
    for hour in &receiver.hours {
        if hour.counts.differ() {
            let start = hour.hour.saturating_mul(HOUR);
            text.push_str("  ")?;
            clock.push_time(start, text)?;
            text.push_str(" to ")?;
            clock.push_time(start.saturating_add(HOUR), text)?;
            let Counts { old, new } = hour.counts;
            write!(text, ": {old} -> {new}\n")?;
        }
    }
    Ok(())
}

/// Returns the counts of each receiver, of notices in the order of `by_receiver`.
fn counted<'t>(
    alloc: Global,
    sent_notices: &'t [SentNotice],
) -> Result<Vec<ReceiverCounts<'t>>, AllocError> {
    let mut receivers: Vec<ReceiverCounts<'t>> = Vec::new(alloc);
    for notice in sent_notices {
        let receiver = notice.receiver.as_str();
        let is_known = match receivers.last() {
            None => false,
            Some(last) => last.receiver == receiver,
        };
        if !is_known {
            receivers.push(ReceiverCounts {
                receiver,
                all: Counts::none(),
                hours: Vec::new(alloc),
            })?;
        }
        if let Some(last) = receivers.last_mut() {
            last.count(notice)?;
        }
    }
    Ok(receivers)
}

/// Adds a line for each alert that only one of the rehearsals says of; they come in the order of `by_alert`.
fn push_listed(
    alloc: Global,
    listed_alerts: &[ListedAlert],
    text: &mut String,
) -> Result<(), AllocError> {
    let mut alerts: Vec<AlertCounts<'_>> = Vec::new(alloc);
    for listed in listed_alerts {
        let alert = listed.alert.as_str();
        let is_known = match alerts.last() {
            None => false,
            Some(last) => last.alert == alert,
        };
        if !is_known {
            alerts.push(AlertCounts {
                alert,
                counts: Counts::none(),
            })?;
        }
        if let Some(last) = alerts.last_mut() {
            last.counts.count(listed.side);
        }
    }
    for listed in &alerts {
        let name = listed.alert;
        if listed.counts.new == 0 {
            write!(text, "no longer notified: {name}\n")?;
        }
        if listed.counts.old == 0 {
            write!(text, "notified only now: {name}\n")?;
        }
    }
    Ok(())
}
