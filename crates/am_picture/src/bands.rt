//! The bands of a page: when silences, outages and time intervals apply, and when the dispatcher changes.
use crate::content::{push_short, push_value, push_with};
use crate::pen::Pen;
use crate::story::{Change, Story};
use am_alerts::matcher::MatcherParts;
use am_alerts::spans::Span;
use am_model::config::Config;
use am_model::record::{Call, Record};
use am_retry::Answer;
use am_seed::Seed;
use am_terms::clock::{TimeFormat, push_counted};
use am_terms::rehearsal::Outage;
use am_timeline::playback::Playback;
use std::alloc::{AllocError, Global};
use std::collections::{HashMap, HashSet};

/// How many bands are shown with the others, before those that are folded.
const FIRST: usize = 12;

/// From which position on the text of a band is left of its end, in thousandths.
const LATE: u64 = 600;

/// How many spans of a time interval are drawn.
const MOST_SPANS: usize = 400;

/// A band: what it is of, and its spans.
#[derive(Drop)]
struct Band {
    class: &'static str,
    name: String,
    spans: Vec<Span>,
}

/// Adds the bands, if there are any.
pub(crate) fn push_bands<C: TimeFormat>(
    pen: &Pen<'_, C>,
    story: &Story<'_>,
    out: &mut String,
) -> Result<(), AllocError> {
    let bands = bands_of(pen, story)?;
    if bands.is_empty() {
        return Ok(());
    }
    out.push_str("<div class=\"bands\">\n")?;
    for (index, band) in bands.as_slice().iter().enumerate() {
        if index == FIRST {
            push_with(
                "<details><summary>and ",
                bands.len().saturating_sub(FIRST) as u64,
                out,
            )?;
            out.push_str(" more</summary>\n")?;
        }
        push_band(pen, band, out)?;
    }
    if bands.len() > FIRST {
        out.push_str("</details>")?;
    }
    out.push_str("</div>\n")
}

/// The bands of a story: of its reloads and restarts, its outages, its time intervals, and its silences.
fn bands_of<C: TimeFormat>(pen: &Pen<'_, C>, story: &Story<'_>) -> Result<Vec<Band>, AllocError> {
    let mut bands = Vec::new(pen.alloc);
    for change in story.changes {
        bands.push(change_band(pen.alloc, change)?)?;
    }
    for outage in story.outages {
        bands.push(outage_band(pen, outage)?)?;
    }
    add_intervals(pen, story, &mut bands)?;
    add_silences(pen, story, &mut bands)?;
    Ok(bands)
}

fn push_band<C: TimeFormat>(
    pen: &Pen<'_, C>,
    band: &Band,
    out: &mut String,
) -> Result<(), AllocError> {
    out.push_str("<p class=\"")?;
    out.push_str(band.class)?;
    out.push_str("\"><span>")?;
    push_short(band.name.as_str(), out)?;
    out.push_str("</span>")?;
    for span in band.spans.as_slice() {
        let class = if pen.axis.position(span.from) > LATE {
            "l"
        } else {
            ""
        };
        out.push_str("<b")?;
        pen.push_from(class, span.from, span.to, out)?;
        pen.push_time(span.from, out)?;
        if span.to > span.from {
            out.push_str(" to ")?;
            pen.push_until(span.to, out)?;
        }
        out.push_str("</b> ")?;
    }
    out.push_str("</p>\n")
}

fn change_band(alloc: Global, change: &Change<'_>) -> Result<Band, AllocError> {
    let mut spans = Vec::new(alloc);
    spans.push(Span {
        from: change.at,
        to: change.at,
    })?;
    Ok(Band {
        class: "c",
        name: String::from_str(alloc, without_time(change.line))?,
        spans,
    })
}

/// The line on a reload or a restart without its time, which the band has.
fn without_time(line: &str) -> &str {
    let (_, rest) = line.split_once(' ').unwrap_or(("", line));
    rest.trim_start()
}

fn outage_band<C: TimeFormat>(pen: &Pen<'_, C>, outage: &Outage) -> Result<Band, AllocError> {
    let mut name = String::new(pen.alloc);
    name.push_str("outage of ")?;
    name.push_str(outage.receiver.as_str())?;
    if let Some(integration) = outage.integration {
        push_with(" at position ", integration as u64, &mut name)?;
    }
    name.push_str(match outage.answer {
        Answer::Again => ": fails",
        Answer::Never => ": fails for good",
        Answer::Done => ": succeeds",
    })?;
    if outage.takes > 0 {
        name.push_str(" after ")?;
        push_counted(outage.takes, &mut name)?;
    }
    let mut spans = Vec::new(pen.alloc);
    spans.push(Span {
        from: outage.from,
        to: outage.to.unwrap_or(pen.axis.end()),
    })?;
    Ok(Band {
        class: "d",
        name,
        spans,
    })
}

/// Adds a band for each route that a time interval mutes, whichever dispatchers have it.
fn add_intervals<C: TimeFormat>(
    pen: &Pen<'_, C>,
    story: &Story<'_>,
    bands: &mut Vec<Band>,
) -> Result<(), AllocError> {
    let mut by_name = HashMap::with_hasher(pen.alloc, seed_of(story.playbacks));
    for (index, playback) in story.playbacks.iter().enumerate() {
        let from = since(story.changes, index);
        let to = since(story.changes, index.saturating_add(1)).max(from);
        let to = if index < story.changes.len() {
            to
        } else {
            pen.axis.end()
        };
        add_routes(
            pen.alloc,
            playback.config(),
            Span { from, to },
            &mut by_name,
            bands,
        )?;
    }
    Ok(())
}

/// When the dispatcher with so many before it begins.
fn since(changes: &[Change<'_>], before: usize) -> u64 {
    if before == 0 {
        return 0;
    }
    match changes.get(before - 1) {
        None => 0,
        Some(change) => change.at,
    }
}

/// Adds when a configuration mutes its routes within a span.
fn add_routes(
    alloc: Global,
    config: &Config,
    within: Span,
    by_name: &mut HashMap<String, usize, Seed>,
    bands: &mut Vec<Band>,
) -> Result<(), AllocError> {
    for position in 0..config.routes.last() {
        let route = position + 1;
        if route <= config.routes.last() {
            let spans = spans_in(alloc, config.routes.muted(route), within)?;
            let name = config.routes.route(route).name.as_str();
            if !spans.is_empty() {
                add_interval(alloc, name, spans, by_name, bands)?;
            }
        }
    }
    Ok(())
}

/// Adds the band of a route, or its spans to the band that a dispatcher before has made.
fn add_interval(
    alloc: Global,
    route: &str,
    spans: Vec<Span>,
    by_name: &mut HashMap<String, usize, Seed>,
    bands: &mut Vec<Band>,
) -> Result<(), AllocError> {
    let name = format!(in alloc; "time interval mutes {route}")?;
    if let Some(position) = by_name.get(&name).copied() {
        if let Some(band) = bands.get_mut(position) {
            add_spans(&mut band.spans, spans.as_slice())?;
        }
        return Ok(());
    }
    by_name.insert(String::from_str(alloc, name.as_str())?, bands.len())?;
    bands.push(Band {
        class: "t",
        name,
        spans,
    })?;
    Ok(())
}

/// Adds spans behind others. One that begins where the last ends is part of that.
fn add_spans(spans: &mut Vec<Span>, more: &[Span]) -> Result<(), AllocError> {
    for span in more {
        if !extend_last(spans, *span) && spans.len() < MOST_SPANS {
            spans.push(*span)?;
        }
    }
    Ok(())
}

/// Lets the last span go on to the end of one that begins where it ends. Returns whether it did.
fn extend_last(spans: &mut Vec<Span>, more: Span) -> bool {
    match spans.last_mut() {
        Some(last) if last.to == more.from => {
            last.to = more.to;
            true
        }
        _ => false,
    }
}

/// The parts of spans that are within another.
fn spans_in(alloc: Global, spans: &[Span], within: Span) -> Result<Vec<Span>, AllocError> {
    let mut parts = Vec::new(alloc);
    for span in spans {
        let from = span.from.max(within.from);
        let to = span.to.min(within.to);
        if from < to && parts.len() < MOST_SPANS {
            parts.push(Span { from, to })?;
        }
    }
    Ok(parts)
}

/// Adds a band for each silence. A dispatcher that takes over is given again those that count, with their ids: they are drawn once.
fn add_silences<C: TimeFormat>(
    pen: &Pen<'_, C>,
    story: &Story<'_>,
    bands: &mut Vec<Band>,
) -> Result<(), AllocError> {
    let mut seen = HashSet::with_hasher(pen.alloc, seed_of(story.playbacks));
    for playback in story.playbacks {
        for record in playback.history() {
            add_silence(pen, record, &mut seen, bands)?;
        }
    }
    Ok(())
}

fn seed_of(playbacks: &[Playback<'_>]) -> Seed {
    match playbacks.first() {
        None => Seed::fixed(),
        Some(playback) => playback.logbook().seed(),
    }
}

fn add_silence<C: TimeFormat>(
    pen: &Pen<'_, C>,
    record: &Record,
    seen: &mut HashSet<u64, Seed>,
    bands: &mut Vec<Band>,
) -> Result<(), AllocError> {
    let Call::Silence {
        now: _,
        id,
        matchers,
        start,
        end,
    } = &record.call
    else {
        return Ok(());
    };
    if seen.contains(id) {
        return Ok(());
    }
    seen.insert(*id)?;
    let name = silence_name(pen.alloc, matchers.get().as_slice())?;
    let mut spans = Vec::new(pen.alloc);
    spans.push(Span {
        from: *start,
        to: *end,
    })?;
    bands.push(Band {
        class: "e",
        name,
        spans,
    })?;
    Ok(())
}

fn silence_name(alloc: Global, matchers: &[MatcherParts]) -> Result<String, AllocError> {
    let mut name = String::new(alloc);
    name.push_str("silence ")?;
    for (index, matcher) in matchers.iter().enumerate() {
        if index > 0 {
            name.push_str(",")?;
        }
        name.push_str(matcher.name.as_str())?;
        name.push_str(matcher.op.text())?;
        push_value(matcher.value.as_str(), &mut name)?;
    }
    Ok(name)
}
