//! The report on expectations for CI, as JUnit's XML.
ghost use Rattle.std.specs.Prelude.{◌≡◌, ◌++◌, IfOk, OnOk, option_copied, string_bytes};
ghost use Rattle.am_judge.specs.Junit.{case_name, case_text, cases_text, failure_text, failure_with, failures_text, junit_text};
ghost use Rattle.am_judge.specs.Junit.{name_escaped, outcome_text, output_text, passed_text, passed_with, suite_counts, suite_head};
ghost use Rattle.am_judge.specs.ExpectationReport.{answer_text, edges_text};

use crate::expectation_report::edges::push_edges;
use crate::expectation_report::push_answer;
use crate::judged::{Judged, Question};
use am_alerts::text::Text;
use am_terms::clock::{TimeFormat, push_number};
use am_terms::expectation::Expectation;
use am_timeline::escape::push_escaped;
use std::alloc::AllocError;

/// Returns a test suite with a test case for each expectation, in their order.
///
/// One that isn't met is a failure: what was expected, and the notices that came. Where the answer depends on repeats on the
/// edge, those follow.
pub fn junit_text<C: TimeFormat>(judged: &Judged<'_>, clock: &C) -> Result<String, AllocError>
    ensures { IfOk result (λ text. string_bytes text
        ≡ junit_text judged.now.playbacks.now (C.times clock.now) judged.now.expectations.now) }
{
    let mut out = String::new(judged.alloc);
    let unmet = judged.unmet()?;
    push_head(judged.expectations.len(), unmet.len(), &mut out)?;
    push_cases(judged, clock, &mut out)?;
    out.push_str("</testsuite>\n")?;
    Ok(out)
}

/// Adds the start of a suite, with the number of its cases and of those that fail.
fn push_head(cases: usize, failures: usize, out: &mut String) -> Result<(), AllocError>
    ensures { OnOk result (string_bytes out.new ≡ string_bytes out.old ++ suite_head cases failures) }
{
    out.push_str(
        "<?xml version=\"1.0\" encoding=\"UTF-8\"?>\n<testsuite name=\"am-rehearse\" tests=\"",
    )?;
    push_counts(cases, failures, out)
}

fn push_counts(cases: usize, failures: usize, out: &mut String) -> Result<(), AllocError>
    ensures { OnOk result (string_bytes out.new ≡ string_bytes out.old ++ suite_counts cases failures) }
{
    push_number(cases as u64, out)?;
    push_failures(failures, out)
}

fn push_failures(failures: usize, out: &mut String) -> Result<(), AllocError>
    ensures { OnOk result (string_bytes out.new ≡ string_bytes out.old ++ failures_text failures) }
{
    out.push_str("\" failures=\"")?;
    push_number(failures as u64, out)?;
    out.push_str("\">\n")?;
    Ok(())
}

fn push_cases<C: TimeFormat>(
    judged: &Judged<'_>,
    clock: &C,
    out: &mut String,
) -> Result<(), AllocError>
    ensures { OnOk result (string_bytes out.new ≡ string_bytes out.old
        ++ cases_text judged.now.playbacks.now (C.times clock.now) 0 judged.now.expectations.now) }
{
    for number in 0..judged.expectations.len() {
        push_case(&judged.question(number), clock, number, out)?;
    }
    Ok(())
}

#[tactic(auto, unfolding(crate::specs::Junit::case_text))]
fn push_case<C: TimeFormat>(
    question: &Question<'_>,
    clock: &C,
    number: usize,
    out: &mut String,
) -> Result<(), AllocError>
    ensures { OnOk result (string_bytes out.new ≡ string_bytes out.old
        ++ case_text question.now.playbacks.now (C.times clock.now) number question.now.expectation.now) }
{
    out.push_str("<testcase classname=\"expect\" name=\"")?;
    push_case_name(number, question.expectation, out)?;
    out.push_str("\"")?;
    push_outcome(question, clock, out)
}

/// Adds the number of an expectation, and its name if it has one.
#[tactic(auto, unfolding(crate::specs::Junit::case_name))]
fn push_case_name(
    number: usize,
    expectation: &Expectation,
    out: &mut String,
) -> Result<(), AllocError>
    ensures { OnOk result (string_bytes out.new ≡ string_bytes out.old ++ case_name number expectation.now) }
{
    out.push_str("expect ")?;
    push_number(number as u64, out)?;
    push_name(expectation.name.as_ref(), out)
}

fn push_name(name: Option<&Text>, out: &mut String) -> Result<(), AllocError>
    ensures { OnOk result (string_bytes out.new ≡ string_bytes out.old ++ name_escaped (option_copied name.entry)) }
{
    match name {
        None => Ok(()),
        Some(name) => {
            out.push_str(": ")?;
            push_escaped(name.as_str(), out)
        }
    }
}

/// Adds the end of a case, with its failure if the expectation isn't met.
fn push_outcome<C: TimeFormat>(
    question: &Question<'_>,
    clock: &C,
    out: &mut String,
) -> Result<(), AllocError>
    ensures { OnOk result (string_bytes out.new ≡ string_bytes out.old
        ++ outcome_text question.now.playbacks.now (C.times clock.now) question.now.expectation.now) }
{
    if question.is_met() {
        return push_passed(question, clock, out);
    }
    push_failure(question, clock, out)
}

/// Adds the end of a case that is met, with the repeats on the edge on which that depends.
#[tactic(auto, unfolding(crate::specs::Junit::passed_text))]
fn push_passed<C: TimeFormat>(
    question: &Question<'_>,
    clock: &C,
    out: &mut String,
) -> Result<(), AllocError>
    ensures { OnOk result (string_bytes out.new ≡ string_bytes out.old
        ++ passed_text question.now.playbacks.now (C.times clock.now) question.now.expectation.now) }
{
    let edges = edges_of(question, clock)?;
    push_passed_with(edges.as_str(), out)
}

/// Adds the end of a case that is met, with a text if there is one.
fn push_passed_with(text: &str, out: &mut String) -> Result<(), AllocError>
    ensures { OnOk result (string_bytes out.new ≡ string_bytes out.old ++ passed_with text.now) }
{
    if text.is_empty() {
        return out.push_str("/>\n");
    }
    push_output(text, out)
}

fn push_output(text: &str, out: &mut String) -> Result<(), AllocError>
    ensures { OnOk result (string_bytes out.new ≡ string_bytes out.old ++ output_text text.now) }
{
    out.push_str("><system-out>\n")?;
    push_escaped(text, out)?;
    out.push_str("</system-out></testcase>\n")?;
    Ok(())
}

/// Returns the repeats on the edge on which an answer depends.
fn edges_of<C: TimeFormat>(question: &Question<'_>, clock: &C) -> Result<String, AllocError>
    ensures { IfOk result (λ text. string_bytes text
        ≡ edges_text question.now.playbacks.now (C.times clock.now) question.now.expectation.now) }
{
    let mut edges = String::new(question.alloc);
    push_edges(question, clock, &mut edges)?;
    Ok(edges)
}

#[tactic(auto, unfolding(crate::specs::Junit::failure_text))]
fn push_failure<C: TimeFormat>(
    question: &Question<'_>,
    clock: &C,
    out: &mut String,
) -> Result<(), AllocError>
    ensures { OnOk result (string_bytes out.new ≡ string_bytes out.old
        ++ failure_text question.now.playbacks.now (C.times clock.now) question.now.expectation.now) }
{
    let answer = answer_of(question, clock)?;
    push_failure_with(answer.as_str(), out)
}

fn push_failure_with(text: &str, out: &mut String) -> Result<(), AllocError>
    ensures { OnOk result (string_bytes out.new ≡ string_bytes out.old ++ failure_with text.now) }
{
    out.push_str("><failure message=\"not met\">\n")?;
    push_escaped(text, out)?;
    out.push_str("</failure></testcase>\n")?;
    Ok(())
}

/// Returns what was expected, and the notices that came.
fn answer_of<C: TimeFormat>(question: &Question<'_>, clock: &C) -> Result<String, AllocError>
    ensures { IfOk result (λ text. string_bytes text
        ≡ answer_text question.now.playbacks.now (C.times clock.now) question.now.expectation.now) }
{
    let mut answer = String::new(question.alloc);
    push_answer(question, clock, &mut answer)?;
    Ok(answer)
}
