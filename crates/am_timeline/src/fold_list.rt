//! What becomes of flushes: where runs begin, and the runs. It takes 24 bytes a run.
ghost use Rattle.std.specs.Prelude.{◌≡◌, length};
ghost use Rattle.am_timeline.specs.Runs.{IsRising, run_at};

use crate::runs::Run;
use std::marker::Model;

/// Where runs begin, and the runs. Contracts see it as the list of the indexes of their first flushes, and the list of the runs.
#[derive(Drop)]
pub(crate) struct Folds {
    /// The indexes of the first flushes, in order.
    starts: Vec<usize>,
    runs: Vec<Run>,
}

impl Model for Folds {
    ghost use Rattle.std.specs.Prelude.{◌≡◌, ℕ, List, length};
    ghost use Rattle.am_timeline.specs.declared.runs.Run as begun;
    ghost use Rattle.am_timeline.specs.Runs.{IsRising};

    ghost Value = { List ℕ × List begun.Run };

    ghost view = { λ f. (f.starts.items, f.runs.items) };

    ghost invariant = { λ f. IsRising 0 f.starts.items × (length f.starts.items ≡ length f.runs.items) };
}

impl Folds {
    /// Returns these runs, whose first flushes are at these indexes.
    pub(crate) fn new(starts: Vec<usize>, runs: Vec<Run>) -> Folds
        requires rising { IsRising 0 starts.items }
        requires same { length starts.items ≡ length runs.items }
        ensures { result ≡ (starts.items, runs.items) }
    {
        Folds { starts, runs }
    }

    /// Returns the run that the flush at an index begins, if it begins one.
    pub(crate) fn run_at(&self, index: usize) -> Option<Run>
        ensures { result ≡ run_at index self.now.0 self.now.1 }
    {
        run_in(self.starts.as_slice(), self.runs.as_slice(), index)
    }
}

/// Returns the run that begins at an index, of these runs, whose first flushes are at those indexes.
fn run_in(starts: &[usize], runs: &[Run], index: usize) -> Option<Run>
    requires rising { IsRising 0 starts.now }
    requires same { length starts.now ≡ length runs.now }
    ensures { result ≡ run_at index starts.now runs.now }
{
    match starts.binary_search(&index) {
        Ok(number) => Some(runs[number]),
        Err(_) => None,
    }
}
