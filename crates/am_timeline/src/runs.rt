//! Runs: flushes of one group that follow each other, send nothing and have the same lines. `short_timeline` prints one
//! line for all of them.
//!
//! Flushes are alike where a reader sees the same lines, so the texts of these are compared. A value in their place would have
//! to say again what each line shows. Where the previews alone say that two are alike (`alike`), no text is made.
//!
//! Begins are looked at once, from the first one on. A table has the last flush of each group so far, so the lines of no more
//! than one flush of each group are in memory. Cost: the lines of each begin whose preview isn't like the last one of its group.
ghost use Rattle.std.specs.Prelude.{◌≡◌, ◌+◌, ◌<◌, ◌&&◌, ◌++◌, ◌∷◌, [], IfOk, IfSome, IsTrue, OnOk, Some, if◌then◌else◌};
ghost use Rattle.std.specs.Prelude.{length, string_bytes};
ghost use Rattle.std.specs.HashMap.{get};
ghost use Rattle.std.specs.List.{All, list_all};
ghost use Rattle.am_model.specs.Notice.{is_nothing};
ghost use Rattle.am_model.specs.State.{same_name};
ghost use Rattle.am_model.specs.declared.group.GroupName as named;
ghost use Rattle.am_timeline.specs.Changed.{begins_compared};
ghost use Rattle.am_timeline.specs.Runs.{HasLines, IsComparedAs, are_same_lines, begins_folded, first_runs, flushes_by, folds_of, grown};
ghost use Rattle.am_timeline.specs.Runs.{kept_of, kept_run, lines_by, quiet_text, runs_with, sends_nothing, single, start_frame};
ghost use Rattle.am_timeline.specs.Runs.{starts_with};
ghost use Rattle.am_terms.specs.TimeFormatData.{TimeFormatData};
ghost use Rattle.am_timeline.specs.Timeline.{begun_lines};

use crate::alike::are_alike;
use crate::begun::push_begun;
use crate::fold_list::Folds;
use crate::frame::Frame;
use crate::playback::{Playback, notices_at};
use crate::print::Print;
use am_model::group::GroupName;
use am_model::notice::Notice;
use am_seed::Seed;
use am_terms::clock::TimeFormat;
use am_terms::event::PreviewedBegin;
use std::alloc::{AllocError, Global};
use std::collections::HashMap;
use std::marker::Model;

/// How many flushes a run has, and when the last of them began, in milliseconds.
#[derive(Clone, Copy)]
pub(crate) struct Run {
    pub(crate) count: usize,
    pub(crate) until: u64,
}

/// Runs, and the indexes of their first flushes among the begins.
#[derive(Drop)]
struct Runs {
    starts: Vec<usize>,
    runs: Vec<Run>,
}

/// Of the last flush of a group so far its index among the begins, the lines by which it is compared, and the number of its run.
#[derive(Drop)]
struct Last {
    index: usize,
    lines: String,
    run: usize,
}

impl Model for Last {
    ghost use Rattle.std.specs.Prelude.{ℕ, List, string_bytes};

    ghost Value = { ℕ × (List ℕ × ℕ) };

    ghost view = { λ l. (l.index, (string_bytes l.lines, l.run)) };
}

/// How begins are put into runs: by the lines that are printed of them; those that send something have some only if `all` do.
#[derive(Drop)]
struct Folding<'p, 's, C: TimeFormat> {
    print: Print<'p, 's, C>,
    all: bool,
}

/// Returns the runs of the begins.
pub(crate) fn begins_folded<C: TimeFormat>(
    alloc: Global,
    playback: &Playback,
    clock: &C,
) -> Result<Folds, AllocError>
    ensures { IfOk result (λ folds. folds ≡ first_runs (begins_folded playback.now (C.times clock.now))) }
{
    let print = Print {
        alloc,
        playback,
        clock,
    };
    Folding { print, all: false }.folded()
}

/// Returns the runs of the begins, whatever they send: a begin begins a run if it has other lines than the flush before of its
/// group.
pub(crate) fn begins_compared<C: TimeFormat>(
    alloc: Global,
    playback: &Playback,
    clock: &C,
) -> Result<Folds, AllocError>
    ensures { IfOk result (λ folds. folds ≡ first_runs (begins_compared playback.now (C.times clock.now))) }
{
    let print = Print {
        alloc,
        playback,
        clock,
    };
    Folding { print, all: true }.folded()
}

impl<'p, 's, C: TimeFormat> Folding<'p, 's, C> {
    /// Returns the runs of the begins.
    fn folded(&self) -> Result<Folds, AllocError>
        ensures { IfOk result (λ folds. folds
            ≡ first_runs (folds_of [] (flushes_by self.now.all self.now.print.playback.now (C.times self.now.print.clock.now)))) }
    {
        let alloc = self.print.alloc;
        let playback = self.print.playback;
        let begins = playback.begins();
        let mut table = HashMap::with_hasher(alloc, playback.logbook().seed());
        let mut found = Runs {
            starts: Vec::new(alloc),
            runs: Vec::new(alloc),
        };
        for index in 0..begins.len() {
            self.add(index, &begins[index], &mut table, &mut found)?;
        }
        let Runs { starts, runs } = found;
        Ok(Folds::new(starts, runs))
    }

    /// Adds the begin at an index to a table of the last flush of each group, and to the runs so far.
    fn add(
        &self,
        index: usize,
        begin: &PreviewedBegin,
        table: &mut HashMap<GroupName, Last, Seed>,
        found: &mut Runs,
    ) -> Result<(), AllocError>
        requires fits { All (λ r. r.count < length self.now.print.playback.now.begins) found.old.runs.items }
        requires inside { IfSome (get same_name table.old begin.now.preview.group) (λ l. l.1.1 < length found.old.runs.items) }
        requires lines { IfSome (get same_name table.old begin.now.preview.group)
            (HasLines self.now.all self.now.print.playback.now (C.times self.now.print.clock.now)) }
        ensures table { OnOk result ((name : named.GroupName) → get same_name table.new name
            ≡ (if same_name begin.now.preview.group name
            then Some (kept_of index (lines_by self.now.all self.now.print.playback.now (C.times self.now.print.clock.now) begin.now)
            (length found.old.runs.items) (kept_run (get same_name table.old begin.now.preview.group)))
            else get same_name table.old name)) }
        ensures runs { OnOk result (found.new.runs.items ≡ runs_with begin.now.preview.time
            (lines_by self.now.all self.now.print.playback.now (C.times self.now.print.clock.now) begin.now)
            (kept_run (get same_name table.old begin.now.preview.group)) found.old.runs.items) }
        ensures starts { OnOk result (found.new.starts.items ≡ starts_with index
            (lines_by self.now.all self.now.print.playback.now (C.times self.now.print.clock.now) begin.now)
            (kept_run (get same_name table.old begin.now.preview.group)) found.old.starts.items) }
    {
        match table.get_mut(begin.preview.group()) {
            Some(last) => self.add_after(index, begin, last, found),
            None => {
                let lines = self.lines_by(begin)?;
                let run = found.runs.len();
                insert(
                    self.print.alloc,
                    begin.preview.group(),
                    Last { index, lines, run },
                    table,
                )?;
                push(index, begin.preview.time(), found)
            }
        }
    }

    /// Puts the begin at an index in the place of the last flush of its group, and adds it to the runs so far.
    fn add_after(
        &self,
        index: usize,
        begin: &PreviewedBegin,
        last: &mut Last,
        found: &mut Runs,
    ) -> Result<(), AllocError>
        requires fits { All (λ r. r.count < length self.now.print.playback.now.begins) found.old.runs.items }
        requires inside { last.old.1.1 < length found.old.runs.items }
        requires lines { HasLines self.now.all self.now.print.playback.now (C.times self.now.print.clock.now) last.old }
        ensures last { OnOk result (last.new
            ≡ kept_of index (lines_by self.now.all self.now.print.playback.now (C.times self.now.print.clock.now) begin.now)
            (length found.old.runs.items) (Some last.old.1)) }
        ensures runs { OnOk result (found.new.runs.items ≡ runs_with begin.now.preview.time
            (lines_by self.now.all self.now.print.playback.now (C.times self.now.print.clock.now) begin.now)
            (Some last.old.1) found.old.runs.items) }
        ensures starts { OnOk result (found.new.starts.items ≡ starts_with index
            (lines_by self.now.all self.now.print.playback.now (C.times self.now.print.clock.now) begin.now)
            (Some last.old.1) found.old.starts.items) }
    {
        let playback = self.print.playback;
        let time = begin.preview.time();
        if self.follow(index, begin, last)? {
            grow(last.run, time, playback.begins.len(), found);
            return Ok(());
        }
        last.run = found.runs.len();
        push(index, time, found)
    }

    /// Puts the begin at an index in the place of the last flush of its group, as if it were in that one's run, and returns whether
    /// it is.
    ///
    /// Its lines are made only where the previews don't say that they are those of the last flush.
    fn follow(
        &self,
        index: usize,
        begin: &PreviewedBegin,
        last: &mut Last,
    ) -> Result<bool, AllocError>
        requires { HasLines self.now.all self.now.print.playback.now (C.times self.now.print.clock.now) last.old }
        ensures like { IfOk result (λ like. like ≡ are_same_lines last.old.1.0
            (lines_by self.now.all self.now.print.playback.now (C.times self.now.print.clock.now) begin.now)) }
        ensures last { OnOk result (last.new
            ≡ (index, (lines_by self.now.all self.now.print.playback.now (C.times self.now.print.clock.now) begin.now, last.old.1.1))) }
    {
        if self.is_compared_as(begin, last.index) {
            return Ok(follow_alike(index, last));
        }
        let lines = self.lines_by(begin)?;
        let like = are_same_lines(last.lines.as_str(), lines.as_str());
        let run = last.run;
        *last = Last { index, lines, run };
        Ok(like)
    }

    /// Returns whether the begin at an index is compared by the same lines as this one, as far as their previews say.
    fn is_compared_as(&self, begin: &PreviewedBegin, index: usize) -> bool
        ensures { IsTrue result → IsComparedAs self.now.all self.now.print.playback.now begin.now index }
    {
        let playback = self.print.playback;
        match playback.begins.get(index) {
            None => false,
            Some(other) => self.have_same_lines(begin, other),
        }
    }

    /// Returns whether two begins are compared by the same lines, as far as their previews say.
    fn have_same_lines(&self, begin: &PreviewedBegin, other: &PreviewedBegin) -> bool
        ensures { IsTrue result → ((times : TimeFormatData)
            → lines_by self.now.all self.now.print.playback.now times other.now
            ≡ lines_by self.now.all self.now.print.playback.now times begin.now) }
    {
        are_alike(&begin.preview, &other.preview) && (self.all || self.send_nothing(begin, other))
    }

    /// Returns whether neither of two begins sends anything.
    fn send_nothing(&self, begin: &PreviewedBegin, other: &PreviewedBegin) -> bool
        ensures { result ≡ (sends_nothing self.now.print.playback.now.history begin.now
            && sends_nothing self.now.print.playback.now.history other.now) }
    {
        self.sends_nothing(begin) && self.sends_nothing(other)
    }

    /// Returns whether a begin sends nothing: no notice of its flush has an alert.
    fn sends_nothing(&self, begin: &PreviewedBegin) -> bool
        ensures { result ≡ sends_nothing self.now.print.playback.now.history begin.now }
    {
        let playback = self.print.playback;
        are_nothing(notices_at(playback.history, begin.index))
    }

    /// Returns the lines by which a begin is compared.
    fn lines_by(&self, begin: &PreviewedBegin) -> Result<String, AllocError>
        ensures { IfOk result (λ text. string_bytes text
            ≡ lines_by self.now.all self.now.print.playback.now (C.times self.now.print.clock.now) begin.now) }
    {
        if self.all {
            self.text_at_start(begin)
        } else {
            self.quiet_text(begin)
        }
    }

    /// Returns the lines of a begin, as if it were at the rehearsal's start.
    fn text_at_start(&self, begin: &PreviewedBegin) -> Result<String, AllocError>
        ensures { IfOk result (λ text. string_bytes text
            ≡ begun_lines self.now.print.playback.now (C.times self.now.print.clock.now) start_frame begin.now) }
    {
        let mut out = String::new(self.print.alloc);
        let frame = Frame {
            time: 0,
            ending: "\n",
        };
        push_begun(&self.print, &frame, begin, &mut out)?;
        Ok(out)
    }

    /// Returns the lines of a begin that sends nothing, as if it were at the rehearsal's start; nothing where it sends something.
    fn quiet_text(&self, begin: &PreviewedBegin) -> Result<String, AllocError>
        ensures { IfOk result (λ text. string_bytes text
            ≡ quiet_text self.now.print.playback.now (C.times self.now.print.clock.now) begin.now) }
    {
        if self.sends_nothing(begin) {
            return self.text_at_start(begin);
        }
        Ok(String::new(self.print.alloc))
    }
}

/// The same of a begin with the last flush's lines.
fn follow_alike(index: usize, last: &mut Last) -> bool
    ensures like { result ≡ are_same_lines last.old.1.0 last.old.1.0 }
    ensures last { last.new ≡ (index, last.old.1) }
{
    last.index = index;
    last.lines.len() != 0
}

/// Begins a run with the flush at an index, which began at this time.
fn push(index: usize, time: u64, found: &mut Runs) -> Result<(), AllocError>
    ensures runs { OnOk result (found.new.runs.items ≡ found.old.runs.items ++ single time ∷ []) }
    ensures starts { OnOk result (found.new.starts.items ≡ found.old.starts.items ++ index ∷ []) }
{
    found.starts.push(index)?;
    found.runs.push(Run {
        count: 1,
        until: time,
    })?;
    Ok(())
}

/// Adds a flush, which began at this time, to the run of a number. There are at most `limit` flushes in all.
fn grow(number: usize, time: u64, limit: usize, found: &mut Runs)
    requires inside { number < length found.old.runs.items }
    requires fits { All (λ r. r.count < limit) found.old.runs.items }
    ensures runs { found.new.runs.items ≡ grown number time found.old.runs.items }
    ensures starts { found.new.starts.items ≡ found.old.starts.items }
{
    let count = found.runs[number].count;
    found.runs[number] = one_more(count, time, limit);
}

/// Returns a run of one flush more than so many, the last of which began at this time.
fn one_more(count: usize, time: u64, limit: usize) -> Run
    requires { count < limit }
    ensures { result ≡ record { count = count + 1; until = time } }
{
    Run {
        count: count + 1,
        until: time,
    }
}

/// Returns whether none of these notices has an alert.
fn are_nothing(notices: &[Notice]) -> bool
    ensures { result ≡ list_all is_nothing notices.now }
{
    notices.iter().all(|notice| notice.nothing())
}

/// Returns whether there are lines, and those are the same.
fn are_same_lines(some: &str, others: &str) -> bool
    ensures { result ≡ are_same_lines some.now others.now }
{
    some.len() != 0 && some == others
}

/// Puts the last flush of a group into a table, under a copy of the group's name.
fn insert(
    alloc: Global,
    group: &GroupName,
    last: Last,
    table: &mut HashMap<GroupName, Last, Seed>,
) -> Result<(), AllocError>
    ensures { OnOk result ((name : named.GroupName) → get same_name table.new name
        ≡ (if same_name group.now name then Some last else get same_name table.old name)) }
{
    table.insert(group.copy(alloc)?, last)?;
    Ok(())
}
