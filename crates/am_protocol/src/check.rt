//! `LinePart`: what a check reads, which is a part of another line, and the answer to it.
//!
//! A part is read as the call that would use it reads it, so it is refused for the same.
ghost use Rattle.std.specs.Prelude.{◌≡◌, ◌≤◌, ◌++◌, ℕ, List, IfErr, IfOk, IsTrue, None, OnOk, length};
ghost use Rattle.serde_json.specs.View.{view};
ghost use Rattle.am_alerts.specs.Matcher.{compare_texts};
ghost use Rattle.am_alerts.specs.declared.matcher.MatcherParts.{MatcherParts};
ghost use Rattle.am_json.specs.Read.{Excludes};
ghost use Rattle.am_protocol.specs.Check.{AreMatchersOf, checked_tokens, checked_opening};

use crate::answer::Answer;
use crate::call::only_member;
use crate::opening::{Opening, read_clocked, read_own, read_theirs};
use crate::reply::{begin, end, put_ignored, put_routes, write_named};
use am_alerts::labels::Labels;
use am_alerts::limits::MAX_MATCHERS;
use am_alerts::matcher::Matcher;
use am_json::fault::{FaultKind, InputFault};
use am_json::labels::read_labels;
use am_json::reader::{FromJson, Reader};
use std::alloc::AllocError;

/// What a check reads.
#[derive(Drop)]
pub enum LinePart {
    /// The matchers of a silence.
    Matchers(Vec<Matcher>),
    /// The labels of an alert.
    Labels(Labels),
    /// A configuration of our own.
    Config(Opening),
    /// A configuration of Alertmanager.
    Alertmanager(Opening),
    /// A configuration of Alertmanager with the clocks of its time intervals.
    Open(Opening),
}

impl<'v> FromJson<'v> for LinePart {
    ghost use Rattle.am_protocol.specs.Check.{DecodesToPart, part_compares_texts};

    ghost decodes_to = { λ mode value part. DecodesToPart mode value part };

    ghost never_refused = { λ part. part_compares_texts part };

    fn read(reader: &Reader<'v, '_>) -> Result<LinePart, InputFault> {
        let check = reader.object()?;
        let (name, value) = only_member(reader, &check)?;
        let part = check.member(name, value);
        match name {
            "matchers" => Ok(LinePart::Matchers(read_matchers(&part)?)),
            "labels" => Ok(LinePart::Labels(read_labels(&part)?)),
            "config" => Ok(LinePart::Config(read_own(&part)?)),
            "alertmanager" => Ok(LinePart::Alertmanager(read_theirs(&part, None)?)),
            "open" => Ok(LinePart::Open(read_clocked(&part)?)),
            _ => Err(part.refuse(FaultKind::Unknown)),
        }
    }
}

/// Reads the matchers of a silence: from 1 to 128.
fn read_matchers(reader: &Reader<'_, '_>) -> Result<Vec<Matcher>, InputFault>
    ensures decoded { IfOk result (λ matchers. AreMatchersOf reader.now.mode (view reader.now.value) matchers.items) }
    ensures refused { IfErr result (Excludes (λ (matchers : List MatcherParts).
        AreMatchersOf reader.now.mode (view reader.now.value) matchers × IsTrue (compare_texts matchers))) }
{
    let matchers = reader.list_up_to::<Matcher>(MAX_MATCHERS)?;
    if matchers.is_empty() {
        return Err(reader.refuse(FaultKind::BadValue));
    }
    Ok(matchers)
}

/// Writes that a part would be read: `{"checked":{}}`. For a configuration it has what `opened` would.
pub fn write_checked(part: &LinePart, answer: &mut Answer) -> Result<(), AllocError>
    ensures { OnOk result (answer.new ≡ answer.old ++ checked_tokens part.now) }
{
    match part {
        LinePart::Matchers(_) => write_named("checked", answer),
        LinePart::Labels(_) => write_named("checked", answer),
        LinePart::Config(opening) => write_opening(opening, answer),
        LinePart::Alertmanager(opening) => write_opening(opening, answer),
        LinePart::Open(opening) => write_opening(opening, answer),
    }
}

fn write_opening(opening: &Opening, answer: &mut Answer) -> Result<(), AllocError>
    ensures { OnOk result (answer.new ≡ answer.old ++ checked_opening opening.now) }
{
    begin("checked", answer)?;
    put_ignored(&opening.ignored, answer)?;
    put_routes(&opening.config.routes, answer)?;
    end(answer)
}
