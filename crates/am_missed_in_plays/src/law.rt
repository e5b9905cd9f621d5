//! The laws of missed spans in whole rehearsals, as calls that verifiers read. Each has an empty body:
//! its `ensures` is the statement.
ghost use Rattle.am_missed_in_plays.specs.Rehearsals.{RehearsalsHaveCauses, RehearsalsHaveRun, RehearsalsShowCauses};
ghost use Rattle.am_missed_in_plays.specs.SpansInTime.{NoSpanIsMissedInTime};

/// States that each missed span has its cause, in every rehearsal.
///
/// Take the dispatchers of a rehearsal as `play_parts` leaves them. Clause `ran`: each has a legal
/// history, its begins are those of the history, and no insert comes after the greatest time. So
/// `missed_spans_have_causes` holds with no premise: clauses `causes` and `came` are its clauses.
pub fn rehearsals_have_causes()
    ensures ran { RehearsalsHaveRun }
    ensures causes { RehearsalsHaveCauses }
    ensures came { RehearsalsShowCauses }
{}

/// States that no span of firing is missed for long where a receiver answers, in every rehearsal.
///
/// Take an insert of an alert at x, and the span of firing that it begins or goes on. A route leads
/// the alert to a group that is served: no outage is of its receiver, its dispatcher isn't stopped
/// before its end, and `limits.flushes` isn't below `limits.groups`. The latest time is `group_wait`
/// after x in a group that wasn't begun yet, else `group_interval` after its last begin, and not before
/// x. Where `undelivered` lists an integration of the group as not notified of the span, a flush of the
/// group comes after the insert and by the latest time. At that flush an interval mutes the route, or a
/// silence or a rule mutes the alert, or the span is over. Or the dispatcher's end comes by the latest
/// time.
pub fn no_span_is_missed_in_time()
    ensures { NoSpanIsMissedInTime }
{}
