//! The limits that complaints name.
use am_alerts::limits::{
    MAX_CHILDREN, MAX_DEPTH, MAX_LABEL_NAMES, MAX_MATCHERS, MAX_NAME_BYTES, MAX_ROUTES,
    MAX_VALUE_BYTES,
};
use am_command_line::explain::{Bounds, Wrong};
use am_json::fault::FaultKind;
use am_model::config::{MAX_INTEGRATIONS, MAX_RECEIVERS, MAX_RULES};
use am_terms::rehearsal::MAX_UNTIL;

/// How many milliseconds a day has.
const DAY: u64 = 86_400_000;

/// Returns the limits that complaints name.
pub fn bounds() -> Bounds {
    Bounds {
        children: MAX_CHILDREN,
        routes: MAX_ROUTES,
        levels: MAX_DEPTH,
        receivers: MAX_RECEIVERS,
        integrations: MAX_INTEGRATIONS,
        rules: MAX_RULES,
        matchers: MAX_MATCHERS,
        names: MAX_LABEL_NAMES,
        name_bytes: MAX_NAME_BYTES,
        value_bytes: MAX_VALUE_BYTES,
        days: (MAX_UNTIL / DAY) as usize,
    }
}

/// Returns how a value is wrong by its kind of fault.
pub fn wrong_of(fault_kind: FaultKind) -> Wrong {
    match fault_kind {
        FaultKind::Missing => Wrong::Missing,
        FaultKind::WrongType => Wrong::WrongType,
        FaultKind::BadValue => Wrong::BadValue,
        FaultKind::Unknown => Wrong::Unknown,
        FaultKind::Full => Wrong::Full,
        FaultKind::Unsupported => Wrong::Unsupported,
    }
}
