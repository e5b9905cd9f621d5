//! The limits of a rehearsal, that it has one play with the planned inputs, and that sendings end by
//! a cut, as laws that verifiers read.
ghost use Rattle.std.specs.Prelude.{◌≡◌};
ghost use Rattle.am_simulation.specs.Laws.{PlaysHaveTheirInputs, RehearsalsHaveOnePlay, SendingsEndByCut};
ghost use Rattle.am_simulation.specs.declared.limits.TheConstants.{BOARD_ID};
ghost use Rattle.am_terms.specs.declared.rehearsal.TheConstants.{MAX_UNTIL};

/// States the latest end of a rehearsal, and the id of its board.
pub fn limits_are()
    ensures until { MAX_UNTIL ≡ 31_622_400_000 }
    ensures id { BOARD_ID ≡ 1 }
{}

/// States that a rehearsal has one play.
///
/// Its configuration, plans, end, upkeep and outages determine the board and the
/// events to which it comes.
pub fn rehearsals_have_one_play()
    ensures { RehearsalsHaveOnePlay }
{}

/// States that a play has its configuration, and the planned inserts, silences and loads.
///
/// They come in order and at their times, up to the first that is after the end.
pub fn plays_have_their_inputs()
    ensures { PlaysHaveTheirInputs }
{}

/// States that a sending ends by the time at which its dispatcher is stopped.
///
/// Exception: a sending that begins later ends at once, without an attempt. So no notice is
/// delivered after that time.
pub fn sendings_end_by_the_cut()
    ensures { SendingsEndByCut }
{}
