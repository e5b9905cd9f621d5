//! The delivery of one notice: `deliver` tries until it succeeds or fails for good, `deliver_by` until a time at the latest.
ghost use Rattle.std.specs.Prelude.{◌≡◌, ◌≤◌, false};
ghost use Rattle.am_alerts.specs.declared.limits.TheConstants.{MAX_TIME};
ghost use Rattle.am_model.specs.Notice.{is_nothing};
ghost use Rattle.am_model.specs.declared.notice.TheConstants.{MAX_DEADLINE};
ghost use Rattle.am_pool.specs.Delivery.{IsDelivery, IsReportOn, with_deadline};

use crate::Courier;
use am_board::notice::{Notice, Report};
use am_retry::{Outcome, Retry, Step};

/// Sends a notice by a courier and returns the report.
///
/// The notice has something to send. The attempts are those of the retry machine, from `start`
/// (milliseconds, at most 10^15) up to the notice's deadline (`notify.RetryStage`). Where the
/// courier refuses one, for memory, the outcome is Starved.
///
/// Never allocates itself. Cost: the attempts, at most one for each half second up to the deadline.
pub fn deliver<C: Courier>(courier: &mut C, notice: &Notice, start: u64) -> Report
    requires something { is_nothing notice.now ≡ false }
    requires start { start ≤ MAX_TIME }
    ensures of_notice { IsReportOn notice.now result }
    ensures delivery { IsDelivery notice.now start (C.tries courier.old) (C.refusals courier.old)
        (C.tries courier.new) (C.refusals courier.new) result }
{
    prove!(!notice.nothing());
    deliver_by(courier, notice, notice.deadline, start)
}

/// Sends a notice as `deliver` does, up to `deadline` (milliseconds) in place of its own deadline.
///
/// A dispatcher that is to stop before the notice's deadline sends it so.
///
/// Never allocates itself. Cost: the attempts, at most one for each half second up to the deadline.
pub fn deliver_by<C: Courier>(courier: &mut C, notice: &Notice, deadline: u64, start: u64) -> Report
    requires something { is_nothing notice.now ≡ false }
    requires deadline { deadline ≤ MAX_DEADLINE }
    requires start { start ≤ MAX_TIME }
    ensures of_notice { IsReportOn notice.now result }
    ensures delivery { IsDelivery (with_deadline deadline notice.now) start (C.tries courier.old) (C.refusals courier.old)
        (C.tries courier.new) (C.refusals courier.new) result }
{
    let mut retry = Retry::start(start, deadline);
    loop {
        match retry.next() {
            Step::Over(outcome) => return report(notice, &retry, outcome),
            Step::Attempt(at) => match courier.send(notice, retry.attempts() + 1, at) {
                Ok(sent) => retry.answer(sent.answer, sent.ended),
                Err(_) => return report(notice, &retry, Outcome::Starved),
            },
        }
    }
}

/// The report on a notice whose attempts came so far and had this outcome.
fn report(notice: &Notice, retry: &Retry, outcome: Outcome) -> Report
    ensures of_notice { IsReportOn notice.now result }
    ensures outcome { result.outcome ≡ outcome }
    ensures attempts { result.attempts ≡ retry.now.attempts }
    ensures ended { result.ended ≡ retry.now.ended }
{
    Report {
        board_id: notice.board_id,
        ticket: notice.ticket,
        integration: notice.integration,
        outcome,
        attempts: retry.attempts(),
        ended: retry.ended(),
    }
}
