//! `Ticks`: the round times of an axis.
ghost use Rattle.std.specs.Prelude.{◌≤◌};

/// How many ticks there are about, at most.
const MOST: u64 = 10;

/// The last tick that is tried. In calendar days and with a last step that doesn't suffice there are some more than `MOST`.
const LAST: u64 = 24;

/// The distances of ticks, in milliseconds: from a second to four weeks.
const STEPS: [u64; 20] = [
    1_000,
    2_000,
    5_000,
    10_000,
    15_000,
    30_000,
    60_000,
    120_000,
    300_000,
    600_000,
    900_000,
    1_800_000,
    3_600_000,
    7_200_000,
    10_800_000,
    21_600_000,
    43_200_000,
    86_400_000,
    604_800_000,
    2_419_200_000,
];

/// The round times from 0 to an end, in milliseconds.
#[derive(Clone, Copy)]
pub(crate) struct Ticks {
    first: u64,
    pub(crate) step: u64,
    end: u64,
}

impl Ticks {
    /// Returns the ticks of a rehearsal that ends then. `behind`: how long ago the last round time
    /// was when it started.
    pub(crate) fn new(end: u64, behind: u64) -> Ticks {
        let step = step_for(end);
        let over = behind % step;
        Ticks {
            first: if over == 0 { 0 } else { step - over },
            step,
            end,
        }
    }

    /// Returns the tick at a position, or none where it isn't before the end.
    pub(crate) fn at(&self, position: u64) -> Option<u64> {
        let at = self
            .first
            .saturating_add(self.step.saturating_mul(position));
        if at <= self.end { Some(at) } else { None }
    }

    /// Returns how many positions have to be tried.
    pub(crate) fn count(&self) -> u64 {
        LAST
    }
}

/// The distance of the ticks of a rehearsal that ends then.
fn step_for(end: u64) -> u64
    ensures { 1 ≤ result }
{
    for step in STEPS {
        if step > 0 && end / step <= MOST {
            return step;
        }
    }
    2_419_200_000
}
