//! The page of a rehearsal that ran.
//!
//! Of a page no contract says what is on it.
use crate::head::{Head, push_head};
use crate::render::{Printed, Show, is_page};
use am_input::input::Output;
use am_judge::expectation_report::push_judged;
use am_judge::judged::Judged;
use am_picture::page::{Page, draw};
use am_picture::story::{Change as PageChange, Names, Story, Texts, Verdict};
use am_terms::clock::TimeFormat;
use am_terms::rehearsal::Outage;
use am_timeline::playback::Playback;
use am_timeline::table::table_text;
use am_undelivered::report::undelivered;
use std::alloc::{AllocError, Global};

/// Returns the outages that a page shows; none for another output.
pub(crate) fn outages_for(
    alloc: Global,
    output: Output,
    outages: &[Outage],
) -> Result<Vec<Outage>, AllocError> {
    let mut copies = Vec::new(alloc);
    if !is_page(output) {
        return Ok(copies);
    }
    for outage in outages {
        copies.push(Outage {
            receiver: outage.receiver.copy(alloc)?,
            integration: outage.integration,
            from: outage.from,
            to: outage.to,
            answer: outage.answer,
            takes: outage.takes,
        })?;
    }
    Ok(copies)
}

/// Returns the page of dispatchers that ran, behind the first with these heads.
pub(crate) fn page_of<C: TimeFormat>(
    heads: &[Head],
    judged: &Judged<'_>,
    clock: &C,
    show: &Show<'_>,
) -> Result<Printed, AllocError> {
    let alloc = judged.alloc;
    let playbacks = judged.playbacks;
    let lines = head_lines(alloc, heads, clock)?;
    let changes = changes_with(alloc, heads, lines.as_slice())?;
    let verdicts = verdicts_of(judged, clock)?;
    let receivers = tables_of(alloc, playbacks, lines.as_slice(), clock)?;
    let undelivered = undelivered(alloc, playbacks, clock)?;
    let options = show.options;
    let story = Story {
        names: Names {
            story: options.story.as_str(),
            config: match &options.config {
                None => None,
                Some(config) => Some(config.as_str()),
            },
        },
        playbacks,
        changes: changes.as_slice(),
        outages: show.outages,
        verdicts: verdicts.as_slice(),
        missed: undelivered.sets.as_slice(),
        filter: &options.filter,
        texts: Texts {
            receivers: receivers.as_str(),
            undelivered: undelivered.text.as_str().trim_start(),
        },
    };
    let Page { text, found } = draw(alloc, &story, clock)?;
    Ok(Printed { text, found })
}

/// The line of the timeline on each new dispatcher.
fn head_lines<C: TimeFormat>(
    alloc: Global,
    heads: &[Head],
    clock: &C,
) -> Result<Vec<String>, AllocError> {
    let mut lines = Vec::new(alloc);
    for head in heads {
        let mut line = String::new(alloc);
        push_head(clock, head, &mut line)?;
        lines.push(String::from_str(alloc, line.as_str().trim())?)?;
    }
    Ok(lines)
}

fn changes_with<'l>(
    alloc: Global,
    heads: &[Head],
    lines: &'l [String],
) -> Result<Vec<PageChange<'l>>, AllocError> {
    let mut changes = Vec::new(alloc);
    for (index, head) in heads.iter().enumerate() {
        changes.push(PageChange {
            at: head.change.at,
            line: line_at(lines, index),
        })?;
    }
    Ok(changes)
}

fn line_at(lines: &[String], index: usize) -> &str {
    match lines.get(index) {
        None => "",
        Some(line) => line.as_str(),
    }
}

/// What became of each expectation.
fn verdicts_of<C: TimeFormat>(judged: &Judged<'_>, clock: &C) -> Result<Vec<Verdict>, AllocError> {
    let mut verdicts = Vec::new(judged.alloc);
    for number in 0..judged.expectations.len() {
        let question = judged.question(number);
        let mut text = String::new(judged.alloc);
        push_judged(&question, clock, number, &mut text)?;
        verdicts.push(Verdict {
            is_met: question.is_met(),
            text,
        })?;
    }
    Ok(verdicts)
}

/// The table of receivers of each dispatcher, behind the line on it.
fn tables_of<C: TimeFormat>(
    alloc: Global,
    playbacks: &[Playback<'_>],
    lines: &[String],
    clock: &C,
) -> Result<String, AllocError> {
    let mut text = String::new(alloc);
    for (index, playback) in playbacks.iter().enumerate() {
        let table = table_text(alloc, playback, clock)?;
        let part = table.as_str().trim_start();
        if index > 0 && !part.is_empty() {
            text.push_str("\n")?;
            text.push_str(line_at(lines, index - 1))?;
            text.push_str("\n")?;
        }
        text.push_str(part)?;
    }
    Ok(text)
}
