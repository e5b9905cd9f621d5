//! The limits, the faults' numbers and the laws of routing trees, which verifiers read.
ghost use Rattle.am_alerts.specs.Laws.{LimitsAre, LabelFaultsAre, AlertFaultsAre, MatcherFaultsAre};
ghost use Rattle.am_alerts.specs.Laws.{RouteFaultsAre, SpansFaultsAre, DurationFaultsAre};
ghost use Rattle.am_alerts.specs.Spans.{OneLevelIsNeverMuted, SpansEndWhereTheySay};
ghost use Rattle.am_alerts.specs.TreeLaws.{OneLevelIsTriedInOrder, OptionsAreTheNearest, TheRestIsItsOwn, EachRouteIsReachedOrNot};

use crate::alert::AlertFault;
use crate::duration::DurationFault;
use crate::labels::LabelFault;
use crate::matcher::MatcherFault;
use crate::route::RouteFault;
use crate::spans::SpansFault;

const LABEL_FAULTS: [(LabelFault, u8); 6] = [
    (LabelFault::Empty, LabelFault::Empty as u8),
    (LabelFault::BadName, LabelFault::BadName as u8),
    (LabelFault::Twice, LabelFault::Twice as u8),
    (LabelFault::TooMany, LabelFault::TooMany as u8),
    (LabelFault::TooLong, LabelFault::TooLong as u8),
    (LabelFault::NoMemory, LabelFault::NoMemory as u8),
];

const ALERT_FAULTS: [(AlertFault, u8); 3] = [
    (AlertFault::NoLabels, AlertFault::NoLabels as u8),
    (AlertFault::BadTime, AlertFault::BadTime as u8),
    (AlertFault::EndBeforeStart, AlertFault::EndBeforeStart as u8),
];

const MATCHER_FAULTS: [(MatcherFault, u8); 4] = [
    (MatcherFault::BadName, MatcherFault::BadName as u8),
    (MatcherFault::TooLong, MatcherFault::TooLong as u8),
    (MatcherFault::BadPattern, MatcherFault::BadPattern as u8),
    (MatcherFault::NoMemory, MatcherFault::NoMemory as u8),
];

const ROUTE_FAULTS: [(RouteFault, u8); 4] = [
    (RouteFault::BadName, RouteFault::BadName as u8),
    (RouteFault::Twice, RouteFault::Twice as u8),
    (RouteFault::TooMany, RouteFault::TooMany as u8),
    (RouteFault::BadInterval, RouteFault::BadInterval as u8),
];

const SPANS_FAULTS: [(SpansFault, u8); 4] = [
    (SpansFault::BadOrder, SpansFault::BadOrder as u8),
    (SpansFault::TooMany, SpansFault::TooMany as u8),
    (SpansFault::BadTime, SpansFault::BadTime as u8),
    (SpansFault::NoMemory, SpansFault::NoMemory as u8),
];

const DURATION_FAULTS: [(DurationFault, u8); 2] = [
    (DurationFault::BadDuration, DurationFault::BadDuration as u8),
    (DurationFault::TooLong, DurationFault::TooLong as u8),
];

/// What each limit is: of times and durations in milliseconds, of bytes, and of how many labels,
/// matchers, names, children and spans there can be.
pub fn limits_are()
    ensures { LimitsAre }
{}

/// Which number each fault has.
pub fn fault_numbers_are()
    ensures labels { LabelFaultsAre }
    ensures alerts { AlertFaultsAre }
    ensures matchers { MatcherFaultsAre }
    ensures routes { RouteFaultsAre }
    ensures spans { SpansFaultsAre }
    ensures durations { DurationFaultsAre }
{}

/// In a tree of one level the children are tried in order, and one that matches ends the search
/// unless it goes on; the root alone where none matches.
pub fn one_level_is_tried_in_order()
    ensures { OneLevelIsTriedInOrder }
{}

/// Each option of a route of `Routes::nested` is the one that it says, or else that of the nearest
/// route above it that says it. Its name, its matchers, its `continue` and when it is muted are its
/// own.
pub fn options_are_the_nearest()
    ensures options { OptionsAreTheNearest }
    ensures others { TheRestIsItsOwn }
{}

/// The routes of a label set are exactly those that match it with all routes above them, where none
/// right below matches, and before each of these no sibling matches that has no `continue`.
pub fn each_route_is_reached_or_not()
    ensures { EachRouteIsReachedOrNot }
{}

/// Where a route is muted at a time, the end that `muted_until` gives lies ahead, stays the same
/// at each time up to it, and the route isn't muted then.
pub fn spans_end_where_they_say()
    ensures { SpansEndWhereTheySay }
{}

/// No route of a tree of one level is ever muted.
pub fn one_level_is_never_muted()
    ensures { OneLevelIsNeverMuted }
{}
