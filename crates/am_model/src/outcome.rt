//! The outcomes of a flush's notices, by its finish in the later records.
ghost use Rattle.std.specs.Prelude.{◌≡◌};
ghost use Rattle.std.specs.Option.{option_copied};
ghost use Rattle.am_model.specs.Outcomes.{finished_with, outcomes_in};
ghost use Rattle.am_model.specs.Ticket.{outcome_of};

use crate::record::{Call, Record};
use am_retry::Outcome;

/// Returns the outcome of an integration: that of the first pair that names it.
pub fn outcome_of(outcomes: &[(u32, Outcome)], integration: u32) -> Option<Outcome>
    ensures { result ≡ outcome_of outcomes.now integration }
{
    for pair in outcomes {
        if pair.0 == integration {
            return Some(pair.1);
        }
    }
    None
}

/// The outcomes that the flush of this number is finished with in these records; none where it isn't.
pub fn outcomes_in(number: u64, later: &[Record]) -> &[(u32, Outcome)]
    ensures { result.now ≡ outcomes_in number later.now }
{
    for record in later {
        if let Some(outcomes) = finished_with(number, &record.call) {
            return outcomes;
        }
    }
    &[]
}

/// The outcomes that a call finishes the flush of this number with, if it does.
fn finished_with(number: u64, call: &Call) -> Option<&[(u32, Outcome)]>
    ensures { option_copied result ≡ finished_with number call.now }
{
    match call {
        Call::Finish {
            now: _,
            number: finished,
            outcomes,
        } if *finished == number => Some(outcomes.as_slice()),
        _ => None,
    }
}
