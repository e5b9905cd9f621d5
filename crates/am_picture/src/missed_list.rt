//! What integrations missed, as a text below the rows. What is said of several alerts is there once, above their label sets.
use crate::content::{push_content, push_number};
use am_alerts::labels::Labels;
use am_seed::Seed;
use am_timeline::shown::push_set;
use std::alloc::{AllocError, Global};
use std::collections::HashMap;

/// How a line begins, before its label set.
const FRONT: &str = "undelivered ";

/// Of how many alerts something is said at least that is there once.
const MANY: usize = 4;

/// Lines that say the same of their alerts.
#[derive(Drop)]
struct Alike<'t> {
    /// The label sets, as they are shown. A line without one is alone, with an empty text here.
    sets: Vec<&'t str>,
    /// What is said of them.
    rest: &'t str,
}

/// The label sets of lines, one after another.
#[derive(Drop)]
struct Sets<'m> {
    alloc: Global,
    missed: &'m [Labels],
    /// How many were the set of a line.
    count: usize,
    /// The last one, as it is shown.
    shown: String,
}

impl<'m> Sets<'m> {
    /// Returns the label set of a line, and what is said of it: that of the line before, or the next. A line with neither has none.
    fn split<'t>(&mut self, line: &'t str) -> Result<(&'t str, &'t str), AllocError> {
        if let Some(parts) = split_line(line, self.shown.as_str()) {
            return Ok(parts);
        }
        let missed = self.missed;
        if let Some(labels) = missed.get(self.count) {
            self.shown = String::new(self.alloc);
            push_set(labels, &mut self.shown)?;
            self.count = self.count.saturating_add(1);
        }
        match split_line(line, self.shown.as_str()) {
            Some(parts) => Ok(parts),
            None => Ok(("", line)),
        }
    }
}

/// The label set of a line, if it is this one, and what is said of it.
fn split_line<'t>(line: &'t str, set: &str) -> Option<(&'t str, &'t str)> {
    if set.is_empty() {
        return None;
    }
    let behind = line.strip_prefix(FRONT)?;
    let rest = behind.strip_prefix(set)?;
    let own = behind.get(0..set.len())?;
    Some((own, rest))
}

/// Adds the lines on what integrations missed. `missed` has their label sets, in the order of the lines.
pub(crate) fn push_missed(
    alloc: Global,
    seed: Seed,
    missed: &[Labels],
    text: &str,
    out: &mut String,
) -> Result<(), AllocError> {
    let alike = alike_lines(alloc, seed, missed, text)?;
    for lines in alike.as_slice() {
        push_alike(lines, out)?;
    }
    Ok(())
}

/// The lines, those that say the same together, in the order of the first of these.
fn alike_lines<'t>(
    alloc: Global,
    seed: Seed,
    missed: &[Labels],
    text: &'t str,
) -> Result<Vec<Alike<'t>>, AllocError> {
    let mut alike: Vec<Alike<'t>> = Vec::new(alloc);
    let mut by_rest: HashMap<&'t str, usize, Seed> = HashMap::with_hasher(alloc, seed);
    let mut sets = Sets {
        alloc,
        missed,
        count: 0,
        shown: String::new(alloc),
    };
    for line in text.lines() {
        let (set, rest) = sets.split(line)?;
        let index = match by_rest.get(rest) {
            Some(index) if !set.is_empty() => *index,
            _ => alike.len(),
        };
        if index == alike.len() {
            by_rest.insert(rest, index)?;
            alike.push(Alike {
                sets: Vec::new(alloc),
                rest,
            })?;
        }
        if let Some(lines) = alike.get_mut(index) {
            lines.sets.push(set)?;
        }
    }
    Ok(alike)
}

/// Adds lines that say the same: one by one, or what they say and then their label sets.
fn push_alike(lines: &Alike<'_>, out: &mut String) -> Result<(), AllocError> {
    let sets = lines.sets.as_slice();
    if sets.len() < MANY {
        for set in sets {
            push_line(set, lines.rest, out)?;
        }
        return Ok(());
    }
    out.push_str("undelivered, ")?;
    push_number(sets.len() as u64, out)?;
    out.push_str(" times")?;
    push_content(lines.rest, out)?;
    for set in sets {
        out.push_str("\n  ")?;
        push_content(set, out)?;
    }
    out.push_str("\n")
}

/// Adds a line. One without a label set is what is said.
fn push_line(set: &str, rest: &str, out: &mut String) -> Result<(), AllocError> {
    if !set.is_empty() {
        out.push_str(FRONT)?;
        push_content(set, out)?;
    }
    push_content(rest, out)?;
    out.push_str("\n")
}
