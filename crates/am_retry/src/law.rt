ghost use Rattle.am_retry.specs.Laws.{ContinuesExactly, LimitsAre, NeverBoth, OneMoreTry, OverExactly, WaitsExactly};

/// The machine gives each list of answers, taken one by one, just the outcome that the list has
/// as a whole, with its attempts and its end; while no front of the list has one, it waits for
/// the next attempt. It does nothing: what it says is its contract.
pub fn machine_gives_retry_outcome()
    ensures over { OverExactly }
    ensures waits { WaitsExactly }
    ensures continues { ContinuesExactly }
    ensures unique { NeverBoth }
    ensures tries { OneMoreTry }
{}

/// The latest end that counts, the wait after the first attempt and the longest wait, in
/// milliseconds.
pub fn limits_are()
    ensures { LimitsAre }
{}
