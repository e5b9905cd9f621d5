//! Labels packed into one run of text, with its hash. Copies of a set share them.
//!
//! The run has the name and the value of each label, each ended by a 0 byte. No byte of a text is
//! below that end, so lists of labels are equal where their runs are, and ordered as their runs
//! are. Exception: where a text has a 0 byte itself, the labels are compared one by one.
//!
//! A set of up to 8 labels takes two blocks of memory, the shared one and the run.
ghost use Rattle.std.specs.Prelude.{◌≡◌, ◌<◌, ◌≤◌, [], fold, length, ◌↔◌, IfOk, IsTrue, slice_index_or, string_bytes};
ghost use Rattle.std.specs.Iterator.{item_count, YieldsFirstBy};
ghost use Rattle.am_alerts.specs.declared.labels.Label.{Label};
ghost use Rattle.am_alerts.specs.LabelOrder.{label_set_writes};
ghost use Rattle.am_alerts.specs.Labels.{IsLabelSet, label_cmp, label_in, label_set_cmp, labels_in, same_label_set};
ghost use Rattle.am_alerts.specs.PackedLabels.{IsPushed};
ghost use Rattle.am_alerts.specs.Packing.{has_zero, run_hash};

use smallvec::SmallVec;
use std::alloc::{AllocError, Global};
use std::cmp::Ordering;
use std::hash::{FoldHasher, Hash, Hasher};
use std::marker::Model;

/// How many labels have their cuts in the shared block. More take a third block.
const INLINE_CUTS: usize = 8;

/// Where a label is in the run: its name from `start` on, and its value from behind the byte that
/// ends the name.
#[derive(Clone, Copy, Debug, Default)]
pub(crate) struct Cut {
    start: u32,
    name_len: u16,
    value_len: u16,
}

/// The labels of a label set, by name: pairs of a name and a value.
#[derive(Debug, Drop)]
pub struct PackedLabels {
    run: String,
    cuts: SmallVec<Cut, INLINE_CUTS>,
    hash: u64,
    /// Whether a text has a 0 byte.
    is_marked: bool,
}

impl Model for PackedLabels {
    ghost use Rattle.std.specs.Prelude.{List, string_bytes};
    ghost use Rattle.am_alerts.specs.declared.labels.Label.{Label};

    ghost Value = { List Label };

    ghost use Rattle.am_alerts.specs.PackedLabels.{labels_at, IsPacked};

    ghost view = { λ p. labels_at (string_bytes p.run) p.cuts.items };

    ghost invariant = { λ p. IsPacked (string_bytes p.run) p.cuts.items p.hash p.is_marked };
}

impl PackedLabels {
    /// Packs these pairs of a name and a value.
    pub(crate) fn new(alloc: Global, pairs: &[(&str, &str)]) -> Result<PackedLabels, AllocError>
        requires { IsLabelSet (labels_in pairs.now) }
        ensures { IfOk result (λ packed. packed ≡ labels_in pairs.now) }
    {
        let mut run = String::with_capacity(alloc, run_len(pairs))?;
        let mut cuts = SmallVec::new(alloc);
        let mut is_marked = false;
        for pair in pairs {
            let cut = push_label(&mut run, pair)?;
            cuts.push(cut)?;
            is_marked |= has_zero(pair);
        }
        Ok(PackedLabels {
            hash: run_hash(run.as_str()),
            run,
            cuts,
            is_marked,
        })
    }

    /// How many labels there are.
    pub fn len(&self) -> usize
        ensures { result ≡ length self.now }
    {
        self.cuts.len()
    }

    pub fn is_empty(&self) -> bool
        ensures { IsTrue result ↔ (self.now ≡ []) }
    {
        self.len() == 0
    }

    /// The name and the value of the label at this index.
    pub fn pair(&self, index: usize) -> (&str, &str)
        requires { index < length self.now }
        ensures { (d : Label) → label_in result ≡ slice_index_or self.now index d }
    {
        let cut = self.cuts.as_slice()[index];
        let run = self.run.as_str();
        let start = cut.start as usize;
        let name_end = start + cut.name_len as usize;
        let value_end = name_end + 1 + cut.value_len as usize;
        (&run[start..name_end], &run[name_end + 1..value_end])
    }

    /// Feeds the run to a hasher, in one write.
    pub(crate) fn feed<H: Hasher>(&self, state: &mut H)
        ensures { state.new ≡ fold H.write state.old (label_set_writes self.now) }
    {
        state.write(self.run.as_str().as_bytes());
    }

    /// Whether the two have the same labels.
    pub(crate) fn is_same(&self, other: &PackedLabels) -> bool
        ensures { result ≡ same_label_set self.now other.now }
    {
        if self.hash != other.hash {
            return false;
        }
        if self.is_marked || other.is_marked {
            return self.cmp_by_label(other) == Ordering::Equal;
        }
        self.run.as_str() == other.run.as_str()
    }

    /// The order of the two lists of labels.
    pub(crate) fn cmp(&self, other: &PackedLabels) -> Ordering
        ensures { result ≡ label_set_cmp self.now other.now }
    {
        if self.is_marked || other.is_marked {
            return self.cmp_by_label(other);
        }
        self.run.as_str().cmp(other.run.as_str())
    }

    /// The same, label by label.
    fn cmp_by_label(&self, other: &PackedLabels) -> Ordering
        ensures { result ≡ label_set_cmp self.now other.now }
    {
        for i in 0..self.len().min(other.len()) {
            let order = label_order(&self.pair(i), &other.pair(i));
            if order != Ordering::Equal {
                return order;
            }
        }
        self.len().cmp(&other.len())
    }
}

impl<'a> IntoIterator for &'a PackedLabels {
    type Item = (&'a str, &'a str);

    type IntoIter = Pairs<'a>;

    ghost into_iter_gives = { λ labels pairs. pairs ≡ labels.now };

    fn into_iter(self) -> Pairs<'a> {
        Pairs {
            labels: self,
            next: 0,
        }
    }
}

/// The labels that are left of a walk over the labels of a set: pairs of a name and a value.
#[derive(Drop)]
pub struct Pairs<'a> {
    labels: &'a PackedLabels,
    next: usize,
}

impl<'a> Model for Pairs<'a> {
    ghost use Rattle.std.specs.Prelude.{List, drop};
    ghost use Rattle.am_alerts.specs.declared.labels.Label.{Label};

    ghost Value = { List Label };

    ghost view = { λ p. drop p.next p.labels.now };
}

impl<'a> Iterator for Pairs<'a> {
    type Item = (&'a str, &'a str);

    ghost next_gives = { YieldsFirstBy label_in (λ left. left) };

    ghost remaining = { item_count (λ left. left) };

    fn next(&mut self) -> Option<(&'a str, &'a str)> {
        if self.next >= self.labels.len() {
            return None;
        }
        let pair = self.labels.pair(self.next);
        self.next += 1;
        Some(pair)
    }
}

/// How long the run of these pairs is.
fn run_len(pairs: &[(&str, &str)]) -> usize {
    let mut len: usize = 0;
    for pair in pairs {
        len = len.saturating_add(pair.0.len());
        len = len.saturating_add(pair.1.len());
        len = len.saturating_add(2);
    }
    len
}

/// Appends a label to a run.
fn push_label(run: &mut String, pair: &(&str, &str)) -> Result<Cut, AllocError>
    requires run { length (string_bytes run.old) ≤ u32.MAX }
    requires name { length pair.now.0.now ≤ u16.MAX }
    requires value { length pair.now.1.now ≤ u16.MAX }
    ensures { IfOk result (λ cut. IsPushed (string_bytes run.old) (label_in pair.now) (string_bytes run.new) cut) }
{
    let cut = Cut {
        start: run.len() as u32,
        name_len: pair.0.len() as u16,
        value_len: pair.1.len() as u16,
    };
    run.push_str(pair.0)?;
    run.push('\0')?;
    run.push_str(pair.1)?;
    run.push('\0')?;
    Ok(cut)
}

/// Whether a text of a label has a 0 byte.
fn has_zero(pair: &(&str, &str)) -> bool
    ensures { result ≡ has_zero (label_in pair.now) }
{
    pair.0.as_bytes().contains(&0) || pair.1.as_bytes().contains(&0)
}

/// The hash of a run.
fn run_hash(run: &str) -> u64
    ensures { result ≡ run_hash run.now }
{
    let mut hasher = FoldHasher::default();
    run.hash(&mut hasher);
    hasher.finish()
}

/// The order of two labels.
fn label_order(one: &(&str, &str), other: &(&str, &str)) -> Ordering
    ensures { result ≡ label_cmp (label_in one.now) (label_in other.now) }
{
    match one.0.cmp(other.0) {
        Ordering::Less => Ordering::Less,
        Ordering::Equal => one.1.cmp(other.1),
        Ordering::Greater => Ordering::Greater,
    }
}
