//! Why there is no list of spans.
ghost use Rattle.std.specs.Prelude.{◌≡◌};

use am_alerts::spans::{Span, SpansFault};
use std::alloc::{AllocError, AllocFailed};
use thiserror::Error;

/// Why there is no list of spans.
#[derive(Clone, Copy, Debug, PartialEq, Eq, Error)]
pub enum HoursFault {
    #[error("there are more than 8192 spans")]
    TooMany = 1,
    #[error("a span ends behind 10^15 ms")]
    TooLong,
    #[error("out of memory")]
    NoMemory,
}

impl From<AllocError> for HoursFault {
    ghost use Rattle.std.specs.Prelude.{◌≡◌};
    ghost use Rattle.am_hours.specs.declared.fault.HoursFault.TheVariants.{NoMemory};

    ghost from_gives = { λ given fault. fault ≡ NoMemory };

    fn from(_: AllocError) -> HoursFault {
        HoursFault::NoMemory
    }
}

impl From<AllocFailed<Span>> for HoursFault {
    ghost use Rattle.std.specs.Prelude.{◌≡◌};
    ghost use Rattle.am_hours.specs.declared.fault.HoursFault.TheVariants.{NoMemory};

    ghost from_gives = { λ given fault. fault ≡ NoMemory };

    fn from(_: AllocFailed<Span>) -> HoursFault {
        HoursFault::NoMemory
    }
}

impl From<SpansFault> for HoursFault {
    ghost use Rattle.std.specs.Prelude.{◌≡◌};
    ghost use Rattle.am_hours.specs.Muting.{hours_fault};

    ghost from_gives = { λ given fault. fault ≡ hours_fault given };

    fn from(fault: SpansFault) -> HoursFault {
        match fault {
            SpansFault::NoMemory => HoursFault::NoMemory,
            SpansFault::BadTime => HoursFault::TooLong,
            // (the lists of this crate are in their order)
            SpansFault::TooMany | SpansFault::BadOrder => HoursFault::TooMany,
        }
    }
}
