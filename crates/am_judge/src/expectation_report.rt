//! The report on expectations.
ghost use Rattle.std.specs.Prelude.{◌≡◌, ◌++◌, IfOk, OnOk, option_copied, string_bytes};
ghost use Rattle.am_judge.specs.ExpectationReport.{answer_text, came_text, edges_text, expectations_text, judged_text};
ghost use Rattle.am_judge.specs.ExpectationReport.{name_text, verdict_text};

mod came;
mod differences;
pub(crate) mod edges;
mod nearest;
mod wanted;

use crate::expectation_report::edges::push_edges;
use crate::judged::{Judged, Question};
use am_alerts::text::Text;
use am_terms::clock::{TimeFormat, push_number};
use am_timeline::shown::push_text;
use came::push_got;
use std::alloc::AllocError;
use wanted::push_expected;

/// Returns a line for each expectation, by number from 0 and by name: met or not.
///
/// One that isn't met is followed by what was expected, and by the notices that came in each playback, in
/// their order. Without playbacks none came. Where the answer depends on repeats on the edge, those follow.
pub fn expectations_text<C: TimeFormat>(
    judged: &Judged<'_>,
    clock: &C,
) -> Result<String, AllocError>
    ensures { IfOk result (λ text. string_bytes text
        ≡ expectations_text judged.now.playbacks.now (C.times clock.now) 0 judged.now.expectations.now) }
{
    let mut out = String::new(judged.alloc);
    for number in 0..judged.expectations.len() {
        push_judged(&judged.question(number), clock, number, &mut out)?;
    }
    Ok(out)
}

/// Adds the line on an expectation, and what follows it.
#[tactic(auto, unfolding(crate::specs::ExpectationReport::judged_text))]
pub fn push_judged<C: TimeFormat>(
    question: &Question<'_>,
    clock: &C,
    number: usize,
    out: &mut String,
) -> Result<(), AllocError>
    ensures { OnOk result (string_bytes out.new ≡ string_bytes out.old
        ++ judged_text question.now.playbacks.now (C.times clock.now) number question.now.expectation.now) }
{
    let expectation = question.expectation;
    out.push_str("expect ")?;
    push_number(number as u64, out)?;
    push_name(expectation.name.as_ref(), out)?;
    push_verdict(question, clock, out)
}

/// Adds whether an expectation is met, and what follows that.
fn push_verdict<C: TimeFormat>(
    question: &Question<'_>,
    clock: &C,
    out: &mut String,
) -> Result<(), AllocError>
    ensures { OnOk result (string_bytes out.new ≡ string_bytes out.old
        ++ verdict_text question.now.playbacks.now (C.times clock.now) question.now.expectation.now) }
{
    if question.is_met() {
        out.push_str(": met\n")?;
        return push_edges(question, clock, out);
    }
    out.push_str(": not met\n")?;
    push_answer(question, clock, out)
}

/// Adds the name of an expectation, in quotes.
fn push_name(name: Option<&Text>, out: &mut String) -> Result<(), AllocError>
    ensures { OnOk result (string_bytes out.new ≡ string_bytes out.old ++ name_text (option_copied name.entry)) }
{
    match name {
        None => Ok(()),
        Some(name) => {
            out.push_str(" \"")?;
            push_text(name.as_str(), out)?;
            out.push_str("\"")
        }
    }
}

/// Adds what was expected, the notices that came, and the repeats on the edge on which the answer depends.
pub(crate) fn push_answer<C: TimeFormat>(
    question: &Question<'_>,
    clock: &C,
    out: &mut String,
) -> Result<(), AllocError>
    ensures { OnOk result (string_bytes out.new ≡ string_bytes out.old
        ++ answer_text question.now.playbacks.now (C.times clock.now) question.now.expectation.now) }
{
    push_came(question, clock, out)?;
    push_edges(question, clock, out)
}

/// Adds what was expected, and the notices that came in each playback, in their order. Without playbacks
/// none came.
#[tactic(auto, unfolding(crate::specs::ExpectationReport::came_text))]
fn push_came<C: TimeFormat>(
    question: &Question<'_>,
    clock: &C,
    out: &mut String,
) -> Result<(), AllocError>
    ensures { OnOk result (string_bytes out.new ≡ string_bytes out.old
        ++ came_text question.now.playbacks.now (C.times clock.now) question.now.expectation.now) }
{
    push_expected(question.playbacks, clock, question.expectation, out)?;
    push_got(question, clock, out)
}
