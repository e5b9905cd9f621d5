//! The law of clocks, which verifiers read.
ghost use Rattle.am_hours.specs.Laws.{RowsHoldEachTime};

/// The pieces of a clock hold each time between the first and the last.
pub fn rows_hold_each_time()
    ensures { RowsHoldEachTime }
{}
