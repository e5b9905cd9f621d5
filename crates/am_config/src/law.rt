//! The limit of time zones, as a law that verifiers read.
ghost use Rattle.std.specs.Prelude.{◌≡◌};
ghost use Rattle.am_config.specs.declared.hours.TheConstants.{MAX_ZONES};

/// How many zones are looked for at most.
pub fn limits_are()
    ensures { MAX_ZONES ≡ 64 }
{}
