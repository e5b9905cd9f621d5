//! The faults' numbers, as laws that verifiers read.
ghost use Rattle.am_mute.specs.Laws.{SilenceFaultsAre, RuleFaultsAre};

use crate::inhibit::RuleFault;
use crate::silence::SilenceFault;

const SILENCE_FAULTS: [(SilenceFault, u8); 3] = [
    (SilenceFault::NoMatchers, SilenceFault::NoMatchers as u8),
    (
        SilenceFault::TooManyMatchers,
        SilenceFault::TooManyMatchers as u8,
    ),
    (SilenceFault::BadTimes, SilenceFault::BadTimes as u8),
];

const RULE_FAULTS: [(RuleFault, u8); 2] = [
    (RuleFault::TooManyMatchers, RuleFault::TooManyMatchers as u8),
    (RuleFault::TooManyNames, RuleFault::TooManyNames as u8),
];

/// Which number each fault has. The limits are those of `am_alerts`.
pub fn fault_numbers_are()
    ensures silences { SilenceFaultsAre }
    ensures rules { RuleFaultsAre }
{}
