//! The law of missed spans, as a call that verifiers read. Its body is empty: its `ensures` is the
//! statement.
ghost use Rattle.am_missed.specs.Causes.{CausesCame, MissedSpansHaveCauses};

/// States that each span of firing that a rehearsal lists as missed has its cause, and no other is listed.
///
/// Take a span of firing, and an integration that is to be notified of it. Clause `causes`: where
/// `undelivered` lists it as not notified, take any flush of a group of its receiver that comes in
/// the span. An interval mutes the route, or a silence or a rule mutes the alert. Or a notice lists
/// the alert as firing, and no finish reports it delivered. If the line says that each flush was
/// muted, each was. If it says that no flush came, or that one sent nothing of it, none came. Clause
/// `came`: where it isn't listed, a flush came in the span whose notice lists the alert and is
/// reported delivered, or at which the integration has heard of it, as `no_page_is_dropped` says.
/// Where the line says that flushes were muted, or that notices failed, one was muted, or one failed.
pub fn missed_spans_have_causes()
    ensures causes { MissedSpansHaveCauses }
    ensures came { CausesCame }
{}
