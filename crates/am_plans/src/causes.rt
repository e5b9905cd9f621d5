//! Why the alerts of an expectation are refused.
use crate::expectation::alerts::has_insert;
use crate::expectation::content::read_matchers;
use crate::expectation::span::first_insert;
use crate::planned::read_plans;
use am_json::fault::InputFault;
use am_json::labels::read_labels;
use am_json::reader::Reader;
use am_terms::rehearsal::TimedAction;
use serde_json::Value;
use std::alloc::Global;

/// Why no alert of a story is one that an expectation names.
#[derive(Clone, Copy)]
pub enum Cause {
    /// There is none.
    NoAlert,
    /// None of them is ever resolved.
    NeverResolved,
    /// They come after the end of the story.
    AfterEnd,
}

/// Returns why no alert of a story fires in time, or is resolved, that all these matchers match.
///
/// # Errors
///
/// The fault for which the matchers or the story's alerts aren't read.
pub fn cause_of_matchers(
    alloc: Global,
    story: &Value,
    matchers: &Value,
    resolves: bool,
) -> Result<Cause, InputFault> {
    let plans = plans_of(alloc, story)?;
    let plans = plans.as_slice();
    let matchers = read_matchers(&Reader::strict(alloc, matchers))?;
    let matchers = matchers.as_slice();
    let fires = first_insert(alloc, u64::MAX, false, matchers, plans)?;
    let ends = first_insert(alloc, u64::MAX, true, matchers, plans)?;
    Ok(cause_by(fires.is_some(), ends.is_some(), resolves))
}

/// Returns why no alert of a story with this label set fires in time, or is resolved.
///
/// # Errors
///
/// The fault for which the label set or the story's alerts aren't read.
pub fn cause_of_set(
    alloc: Global,
    story: &Value,
    labels: &Value,
    resolves: bool,
) -> Result<Cause, InputFault> {
    let plans = plans_of(alloc, story)?;
    let plans = plans.as_slice();
    let labels = read_labels(&Reader::strict(alloc, labels))?;
    let fires = has_insert(u64::MAX, plans, false, &labels);
    let ends = has_insert(u64::MAX, plans, true, &labels);
    Ok(cause_by(fires, ends, resolves))
}

fn plans_of(alloc: Global, story: &Value) -> Result<Vec<TimedAction>, InputFault> {
    let reader = Reader::strict(alloc, story);
    let top = reader.object()?;
    let (plans, _) = read_plans(&top)?;
    Ok(plans)
}

fn cause_by(fires: bool, ends: bool, resolves: bool) -> Cause {
    if !fires {
        Cause::NoAlert
    } else if resolves && !ends {
        Cause::NeverResolved
    } else {
        Cause::AfterEnd
    }
}
