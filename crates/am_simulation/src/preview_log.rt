//! What the begins of a board were to do.
//!
//! A begin that was made can't be undone, so it is added without memory: the newest one waits as it is, and becomes one
//! that shares its preview before the next one is made.
//!
//! Nearly every preview differs in its time alone from an earlier one of its group, and shares the rest with it. A look-up of the
//! group's name would hash it each time. But groups are flushed round after round in nearly the same order. So the first begin to
//! look at is the one that followed the begin found last. The name is looked up only where this guess is wrong, as for a new group.
ghost use Rattle.std.specs.Prelude.{◌≡◌, ◌<◌, ◌++◌, ◌∷◌, [], IfOk, IfSome, MatchResult, OnOk, true, length};
ghost use Rattle.am_simulation.specs.PreviewLog.{IsReady};

use am_board::group::GroupName;
use am_board::preview::Preview;
use am_seed::Seed;
use am_terms::event::PreviewedBegin;
use am_terms::shared_preview::SharedPreview;
use std::alloc::{AllocError, Global};
use std::collections::HashMap;
use std::marker::Model;
use std::mem::replace;

/// The previewed begins, in their order, and whether none of them waits.
#[derive(Drop)]
pub(crate) struct PreviewLog {
    /// How many begins there are.
    count: u32,
    begins: Vec<PreviewedBegin>,
    /// The newest begin, until it is among the others.
    waiting: Option<WaitingBegin>,
    sources: Sources,
}

/// A begin whose preview shares nothing.
#[derive(Drop)]
pub(crate) struct WaitingBegin {
    index: usize,
    preview: Preview,
}

/// Where a begin is looked for whose preview the next one shares. It only saves memory and time.
#[derive(Drop)]
struct Sources {
    alloc: Global,
    /// The position of the begin to look at first.
    guess: usize,
    /// For each group the position of one of its begins: the newest that wasn't guessed.
    noted: HashMap<GroupName, usize, Seed>,
}

impl Model for PreviewLog {
    ghost use Rattle.std.specs.Prelude.{◌≡◌, ◌++◌, length};
    ghost use Rattle.am_simulation.specs.PreviewLog.{PreviewLogData, begins_in, is_none};

    ghost Value = { PreviewLogData };

    ghost view = { λ l. record { items = l.begins.items ++ begins_in l.waiting; is_settled = is_none l.waiting } };

    ghost invariant = { λ l. l.count ≡ length (l.begins.items ++ begins_in l.waiting) };
}

impl PreviewLog {
    /// Returns a log without begins.
    pub(crate) fn new(alloc: Global, seed: Seed) -> PreviewLog
        ensures { result.items ≡ [] }
    {
        PreviewLog {
            count: 0,
            begins: Vec::new(alloc),
            waiting: None,
            sources: Sources::new(alloc, seed),
        }
    }

    /// Returns how many begins there are.
    pub(crate) fn len(&self) -> u32
        ensures { result ≡ length self.now.items }
    {
        self.count
    }

    /// Reserves memory for one more begin. The begins are the same, also where there is no memory.
    pub(crate) fn make_ready(&mut self) -> Result<(), AllocError>
        ensures items { self.new.items ≡ self.old.items }
        ensures ready { OnOk result (IsReady self.new) }
    {
        if self.count == u32::MAX {
            return Err(AllocError);
        }
        self.settle()
    }

    /// Adds a begin.
    pub(crate) fn push(&mut self, index: usize, preview: Preview)
        requires { IsReady self.old }
        ensures { self.new.items ≡ self.old.items ++ record { index = index; preview = preview } ∷ [] }
    {
        self.waiting = Some(WaitingBegin { index, preview });
        self.count += 1;
    }

    /// Returns all begins.
    pub(crate) fn into_vec(mut self) -> Result<Vec<PreviewedBegin>, AllocError>
        ensures { IfOk result (λ begins. begins.items ≡ self.items) }
    {
        self.settle()?;
        let PreviewLog {
            count: _,
            begins,
            waiting: _,
            sources: _,
        } = self;
        Ok(begins)
    }

    /// Puts the newest begin among the others.
    fn settle(&mut self) -> Result<(), AllocError>
        ensures items { self.new.items ≡ self.old.items }
        ensures settled { OnOk result (self.new.is_settled ≡ true) }
    {
        self.begins.reserve(1)?;
        let Some(waiting) = self.waiting.take() else {
            return Ok(());
        };
        let WaitingBegin { index, preview } = waiting;
        match self.sources.share(self.begins.as_slice(), preview) {
            Ok(preview) => {
                self.begins.push_reserved(PreviewedBegin { index, preview });
                Ok(())
            }
            Err(preview) => {
                self.waiting = Some(WaitingBegin { index, preview });
                Err(AllocError)
            }
        }
    }
}

impl Sources {
    /// Returns the sources of no begins.
    fn new(alloc: Global, seed: Seed) -> Sources {
        Sources {
            alloc,
            guess: 0,
            noted: HashMap::with_hasher(alloc, seed),
        }
    }

    /// Returns the preview of the begin after these ones, as one that shares what it can with theirs. It is handed back where
    /// there is no memory.
    fn share(
        &mut self,
        begins: &[PreviewedBegin],
        preview: Preview,
    ) -> Result<SharedPreview, Preview>
        ensures { MatchResult result (λ shared. shared ≡ preview) (λ back. back ≡ preview) }
    {
        match self.find(begins, &preview) {
            Some(shared) => Ok(shared),
            None => SharedPreview::new(self.alloc, preview),
        }
    }

    /// Returns the preview of the begin after these ones, as one that shares all but its time with one of theirs, if such a one
    /// is found.
    fn find(&mut self, begins: &[PreviewedBegin], preview: &Preview) -> Option<SharedPreview>
        ensures { IfSome result (λ shared. shared ≡ preview.now) }
    {
        let guessed = again(begins, self.guess, preview);
        if guessed.is_some() {
            self.guess = self.guess.saturating_add(1);
            return guessed;
        }
        let source = self.note(&preview.group, begins.len())?;
        self.guess = source.saturating_add(1);
        again(begins, source, preview)
    }

    /// Notes the position of a begin of a group, and returns the one noted before, if there is one. Where there is no memory for a
    /// group's first, none is noted.
    fn note(&mut self, group: &GroupName, position: usize) -> Option<usize> {
        match self.noted.get_mut(group) {
            Some(noted) => Some(replace(noted, position)),
            None => {
                if let Ok(group) = group.copy(self.alloc) {
                    let _ = self.noted.insert(group, position);
                }
                None
            }
        }
    }
}

/// Returns a preview as one that shares all but its time with that of this source, if it has that in common with it.
fn again(begins: &[PreviewedBegin], source: usize, preview: &Preview) -> Option<SharedPreview>
    ensures { IfSome result (λ shared. shared ≡ preview.now) }
{
    begins.get(source)?.preview.again(preview).ok()?
}
