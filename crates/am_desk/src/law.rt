//! The numbers of the faults, the limits of passes and of calls, and what the log has without loads,
//! as laws that verifiers read.
ghost use Rattle.std.specs.Prelude.{◌≡◌};
ghost use Rattle.am_model.specs.Config.{default_limits, greatest_limits};
ghost use Rattle.am_desk.specs.declared.blank.TheConstants.{MAX_PASSES};
ghost use Rattle.am_desk.specs.Glances.{most_calls};
ghost use Rattle.am_desk.specs.Laws.{BlankFaultsAre, OpenFaultsAre, CloseCausesAre, UnloadedRowsWereDelivered};

use crate::fault::BlankFault;

const BLANK_FAULTS: [(BlankFault, u8); 2] = [
    (BlankFault::NoMemory, BlankFault::NoMemory as u8),
    (BlankFault::BadCount, BlankFault::BadCount as u8),
];

/// States the number of each fault.
///
/// That of a blank is its discriminant. That of an opening and of a close is what `number` returns.
pub fn fault_numbers_are()
    ensures blanks { BlankFaultsAre }
    ensures openings { OpenFaultsAre }
    ensures closes { CloseCausesAre }
{}

/// States that a desk has at most 16 passes, and how many calls its word counts at the limits of
/// `Limits::default` and at those of `Limits::greatest`.
pub fn limits_are()
    ensures passes { MAX_PASSES ≡ 16 }
    ensures calls { most_calls default_limits ≡ 69_269_236_678_656 }
    ensures least { most_calls greatest_limits ≡ 73_786_681 }
{}

/// States that the log gains a row only for a notice that was delivered or had nothing to send, in a
/// legal history without loads.
///
/// Each row is of the last record that logged under its key, at its time, and that record reports so.
pub fn unloaded_rows_were_delivered()
    ensures { UnloadedRowsWereDelivered }
{}
