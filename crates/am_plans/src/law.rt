//! The limits of expectations, and of reloads and restarts, as a law that verifiers read.
ghost use Rattle.std.specs.Prelude.{◌≡◌};
ghost use Rattle.am_plans.specs.declared.expectation.TheConstants.{MAX_EXPECTATIONS};
ghost use Rattle.am_plans.specs.declared.dispatcher_change.TheConstants.{MAX_DISPATCHER_CHANGES};

/// How many expectations a story may have, and how many reloads and restarts.
pub fn limits_are()
    ensures expectations { MAX_EXPECTATIONS ≡ 1_024 }
    ensures dispatcher_changes { MAX_DISPATCHER_CHANGES ≡ 8 }
{}
