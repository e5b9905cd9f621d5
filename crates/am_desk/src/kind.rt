//! `Kind` and `Origin`: what a desk may do besides the eight calls, by its type.

/// A kind of desk. It has no functions: contracts read whether a desk of the kind hands its history
/// out.
pub trait Kind {
    ghost use Rattle.std.specs.Prelude.{Bool};

    ghost takes: { Bool };
}

/// The desk that keeps its history whole until it is closed.
#[derive(Drop)]
pub struct Whole;

impl Kind for Whole {
    ghost use Rattle.std.specs.Prelude.{false};

    ghost takes = { false };
}

/// The desk that hands its history out. With that its memory doesn't grow with its calls.
#[derive(Drop)]
pub struct Lasting;

impl Kind for Lasting {
    ghost use Rattle.std.specs.Prelude.{true};

    ghost takes = { true };
}

/// How the log of a desk begins. It has no functions: contracts read whether a desk may take over rows
/// of another log.
pub trait Origin {
    ghost use Rattle.std.specs.Prelude.{Bool};

    ghost loads: { Bool };
}

/// The desk whose log begins empty: each row comes from a call of its own.
#[derive(Drop)]
pub struct Fresh;

impl Origin for Fresh {
    ghost use Rattle.std.specs.Prelude.{false};

    ghost loads = { false };
}

/// The desk that takes over rows that another desk or board had, as after a restart (`Desk::load`).
#[derive(Drop)]
pub struct Resumed;

impl Origin for Resumed {
    ghost use Rattle.std.specs.Prelude.{true};

    ghost loads = { true };
}
