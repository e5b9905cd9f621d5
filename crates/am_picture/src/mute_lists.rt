//! `MuteLists`: what each alert of a page has of mutes. A list that several alerts have is on the page once, below the rows: its
//! alerts have a link to it, and a rule draws its bars at each of these. `page` makes them.
//!
//! The alerts of a group that fire all along have one list, however often its mutes change.
use crate::content::{push_count, push_with};
use crate::fold::{Fold, Mute};
use crate::gather::{Gathered, is_drawn};
use crate::mute_lines::{drawn_parts, end_of, parts_text};
use crate::mutes::{joined_parts, muted_parts, mutes_of, sorted_mutes};
use crate::pen::{Pen, WHOLE};
use am_seed::Seed;
use am_terms::clock::TimeFormat;
use std::alloc::{AllocError, Global};
use std::collections::HashMap;

/// How many alerts have a list at least that is on the page once.
const USES: usize = 4;

/// How many mutes it has at least. On a page with few alerts, one alone is said where it is.
const LONG: usize = 2;

const LONG_IF_DENSE: usize = 1;

/// How wide a bar is at least, in thousandths.
const NARROW: u64 = 2;

/// The mutes of the alerts of a page.
#[derive(Drop)]
pub(crate) struct MuteLists {
    alloc: Global,
    /// How many mutes a list has at least that is on the page once.
    long: usize,
    /// The lists, each once.
    lists: Vec<MuteList>,
    by_text: HashMap<String, usize, Seed>,
    /// For each fold the list of each of its alerts that flushes left out. A fold without mutes, or that isn't drawn, has none.
    by_fold: Vec<Vec<Option<usize>>>,
}

/// A list of mutes.
#[derive(Drop)]
struct MuteList {
    /// The parts that are drawn.
    parts: Vec<Mute>,
    /// An element for each.
    text: String,
    /// How many alerts have it.
    uses: usize,
}

impl MuteLists {
    /// Returns the mutes of the alerts that are drawn.
    pub(crate) fn of<C: TimeFormat>(
        pen: &Pen<'_, C>,
        gathered: &Gathered,
    ) -> Result<MuteLists, AllocError> {
        let mut lists = MuteLists {
            alloc: pen.alloc,
            long: if pen.is_dense { LONG_IF_DENSE } else { LONG },
            lists: Vec::new(pen.alloc),
            by_text: HashMap::with_hasher(pen.alloc, gathered.seed),
            by_fold: Vec::new(pen.alloc),
        };
        for fold in gathered.folds.as_slice() {
            let own = lists.add_fold(pen, gathered, fold)?;
            lists.by_fold.push(own)?;
        }
        Ok(lists)
    }

    /// Adds the mutes of a fold, and returns the list of each of its alerts.
    fn add_fold<C: TimeFormat>(
        &mut self,
        pen: &Pen<'_, C>,
        gathered: &Gathered,
        fold: &Fold,
    ) -> Result<Vec<Option<usize>>, AllocError> {
        let mut own = Vec::new(self.alloc);
        if fold.mutes.is_empty() || !is_drawn(gathered.lanes.as_slice(), fold) {
            return Ok(own);
        }
        let mutes = sorted_mutes(self.alloc, fold)?;
        let mut left = mutes.as_slice();
        for position in 0..fold.members.len() {
            let (its, rest) = mutes_of(left, position);
            let list = if its.is_empty() {
                None
            } else {
                Some(self.list_for(pen, gathered, fold, its)?)
            };
            own.push(list)?;
            left = rest;
        }
        Ok(own)
    }

    /// Returns the list of these mutes of an alert, and counts it.
    fn list_for<C: TimeFormat>(
        &mut self,
        pen: &Pen<'_, C>,
        gathered: &Gathered,
        fold: &Fold,
        mutes: &[Mute],
    ) -> Result<usize, AllocError> {
        let parts = parts_of(pen, gathered, fold, mutes)?;
        let text = parts_text(pen, gathered, parts.as_slice())?;
        if let Some(index) = self.by_text.get(&text).copied() {
            self.count(index);
            return Ok(index);
        }
        let index = self.lists.len();
        self.by_text
            .insert(String::from_str(self.alloc, text.as_str())?, index)?;
        self.lists.push(MuteList {
            parts,
            text,
            uses: 1,
        })?;
        Ok(index)
    }

    /// Counts one more alert with a list.
    fn count(&mut self, index: usize) {
        if let Some(list) = self.lists.get_mut(index) {
            list.uses = list.uses.saturating_add(1);
        }
    }

    /// Whether a list is on the page once, and its alerts name it.
    fn is_shared(&self, list: &MuteList) -> bool {
        list.uses >= USES && list.parts.len() >= self.long
    }

    /// The list of an alert of a fold, and its index.
    fn list_of(&self, fold: usize, member: usize) -> Option<(usize, &MuteList)> {
        let own = self.by_fold.get(fold)?;
        match own.get(member) {
            Some(Some(index)) => Some((*index, self.lists.get(*index)?)),
            _ => None,
        }
    }
}

/// The parts of an alert's spans in which flushes left it out, as they are drawn.
fn parts_of<C: TimeFormat>(
    pen: &Pen<'_, C>,
    gathered: &Gathered,
    fold: &Fold,
    mutes: &[Mute],
) -> Result<Vec<Mute>, AllocError> {
    let spans = gathered.spans_of(fold, mutes);
    let parts = muted_parts(pen.alloc, spans, mutes, pen.axis.end())?;
    let joined = joined_parts(pen.alloc, parts.as_slice())?;
    drawn_parts(pen, joined.as_slice())
}

/// Adds the mutes of an alert of a fold, if it has any: a list that is shared by a link.
pub(crate) fn push_mutes(
    lists: &MuteLists,
    fold: usize,
    member: usize,
    out: &mut String,
) -> Result<(), AllocError> {
    let Some((index, list)) = lists.list_of(fold, member) else {
        return Ok(());
    };
    if !lists.is_shared(list) {
        return out.push_str(list.text.as_str());
    }
    push_with("<a href=\"#m", index as u64, out)?;
    out.push_str("\">")?;
    push_count(list.parts.len(), "mute", out)?;
    out.push_str("</a>")
}

/// Adds a rule for each list that is shared: where its bars are, as the mask of one bar over the whole time.
pub(crate) fn push_masks<C: TimeFormat>(
    pen: &Pen<'_, C>,
    lists: &MuteLists,
    out: &mut String,
) -> Result<(), AllocError> {
    for (index, list) in lists.lists.as_slice().iter().enumerate() {
        if lists.is_shared(list) {
            push_with("[href=\"#m", index as u64, out)?;
            out.push_str("\"]{--m:linear-gradient(90deg")?;
            for part in list.parts.as_slice() {
                push_bar(pen, part, out)?;
            }
            out.push_str(",#0000 0)}\n")?;
        }
    }
    Ok(())
}

/// Adds the stops of a bar: nothing up to its start, and all up to its end.
fn push_bar<C: TimeFormat>(
    pen: &Pen<'_, C>,
    part: &Mute,
    out: &mut String,
) -> Result<(), AllocError> {
    let start = pen.axis.position(part.from);
    let end = pen.axis.position(end_of(pen, part));
    out.push_str(",#0000 0 ")?;
    push_percent(start.min(WHOLE - NARROW), out)?;
    out.push_str(",#000 0 ")?;
    push_percent(end.max(start.saturating_add(NARROW)).min(WHOLE), out)
}

/// Adds thousandths as a percentage.
fn push_percent(thousandths: u64, out: &mut String) -> Result<(), AllocError> {
    push_with("", thousandths / 10, out)?;
    if thousandths % 10 > 0 {
        push_with(".", thousandths % 10, out)?;
    }
    out.push_str("%")
}

/// Adds the lists that are shared, below a heading, if there are any.
pub(crate) fn push_shared(lists: &MuteLists, out: &mut String) -> Result<(), AllocError> {
    if !lists
        .lists
        .as_slice()
        .iter()
        .any(|list| lists.is_shared(list))
    {
        return Ok(());
    }
    out.push_str("<h2>Mutes that several alerts have</h2>\n<ul class=\"k\">\n")?;
    for (index, list) in lists.lists.as_slice().iter().enumerate() {
        if lists.is_shared(list) {
            push_with("<li id=\"m", index as u64, out)?;
            out.push_str("\">")?;
            out.push_str(list.text.as_str())?;
            out.push_str("</li>\n")?;
        }
    }
    out.push_str("</ul>\n")
}
