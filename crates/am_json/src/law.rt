//! The limits of an input, as a law that verifiers read.
ghost use Rattle.std.specs.Prelude.{◌≡◌};
ghost use Rattle.am_json.specs.declared.config.TheConstants.{FEW_BYTES, FEW_INTEGRATIONS, FEW_MATCHERS, FEW_RECEIVERS, FEW_RULES};
ghost use Rattle.am_json.specs.declared.faults.TheConstants.{MAX_FAULTS};
ghost use Rattle.am_json.specs.declared.transfer.TheConstants.{MAX_INPUT};

/// How many bytes a file or a line may have, how many faults are listed of it at most, and what a
/// configuration of `am-run` may have.
pub fn limits_are()
    ensures input { MAX_INPUT ≡ 67_108_864 }
    ensures faults { MAX_FAULTS ≡ 100 }
    ensures receivers { FEW_RECEIVERS ≡ 64 }
    ensures integrations { FEW_INTEGRATIONS ≡ 8 }
    ensures rules { FEW_RULES ≡ 256 }
    ensures matchers { FEW_MATCHERS ≡ 32 }
    ensures bytes { FEW_BYTES ≡ 1_024 }
{}
