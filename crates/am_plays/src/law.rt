//! The laws of plays, as calls that verifiers read. Each has an empty body: its `ensures` is the
//! statement.
ghost use Rattle.am_plays.specs.PlaysDeliver.{FlushesDeliver, PlaysDeliverInTime};
ghost use Rattle.am_plays.specs.PlaysInTime.{PlaysAreOnTime, PlaysPageInTime};
ghost use Rattle.am_plays.specs.PlaysRecover.{FlushesComeThrough, PagesComeAfterOutages, PlaysDeliverAfterOutages, SendingsComeThrough};
ghost use Rattle.am_plays.specs.Plays.{BeginsWhenDue, EveryPlay, IsLegalPlay, NothingBlocks, NothingDueIsLeft, NothingDueIsPassedOver};

/// States that the history of each play is legal.
///
/// Each reply in it is the one that the definitions give. So each law of legal histories is true of
/// each play.
pub fn plays_are_legal()
    ensures { EveryPlay IsLegalPlay }
{}

/// States that flushes don't wait for each other, in any rehearsal.
///
/// Where `limits.flushes` isn't below `limits.groups`, begins wait for a finish in no scene that a
/// rehearsal reaches. So an outage of one receiver delays no other.
pub fn nothing_blocks()
    ensures { NothingBlocks }
{}

/// States that a play passes over nothing that is due, until the rehearsal's end.
///
/// Clause `passed`: take a record, and a group that has no open flush before it. Where a flush more
/// is allowed, the record comes no later than the group is due, or than the record before. Or the
/// rehearsal's end comes before that. A flush more is allowed where fewer are open than
/// `limits.flushes`, or where that isn't below `limits.groups`. Clause `left`: after the last record
/// no flush is open and no group is due by the end, unless the history goes on after the end. Clause
/// `begun`: where `limits.flushes` isn't below `limits.groups`, the record comes no later than both
/// the group is due and its last flush is finished.
pub fn nothing_due_is_passed_over()
    ensures passed { EveryPlay NothingDueIsPassedOver }
    ensures left { EveryPlay NothingDueIsLeft }
    ensures begun { EveryPlay BeginsWhenDue }
{}

/// States that a play pages in time, with no premise on a driver.
///
/// Take a group that is served: no outage is of its receiver, its dispatcher isn't stopped by the
/// rehearsal's end, and `limits.flushes` isn't below `limits.groups`. Clause `on_time`: each record
/// up to the end is on time for the group, without any slack or hold. So it comes no later than the
/// group is due and its last flush is finished, and each flush of it is over at the time of its
/// begin. Clause `paged`: an alert is due a page there at each record after a time x, and at the end.
/// If the latest time comes before the end, a begin by then has a notice to each integration that
/// lists the alert, or the integration has heard of it. The latest time is `group_wait` after x in a
/// group that wasn't begun yet, else `group_interval` after its last begin.
pub fn plays_page_in_time()
    ensures on_time { EveryPlay PlaysAreOnTime }
    ensures paged { EveryPlay PlaysPageInTime }
{}

/// States that a play delivers in time, with no premise on a driver.
///
/// Take a group that is served, as `plays_page_in_time` says. Clause `flushes`: each flush of it is
/// finished at the time of its begin, and the finish reports each of its notices delivered, if it has
/// something to send. Clause `delivered`: an alert is due a page there from a time x up to a time y,
/// which is no later than the rehearsal's end. If the latest time comes before y, then by the latest
/// time a notice that lists the alert is reported delivered to each integration. Or by then the group
/// is begun, and the integration has heard of it. The latest time is as for `plays_page_in_time`.
pub fn plays_deliver_in_time()
    ensures flushes { EveryPlay FlushesDeliver }
    ensures delivered { EveryPlay PlaysDeliverInTime }
{}

/// States that sendings come through outages that end.
///
/// A receiver recovers by x: each of its outages is over by x, refuses no attempt for good, and lets
/// no attempt take longer than d. Then it has recovered a minute and d after x. Take a notice for it
/// that is sent before its deadline, by a dispatcher that isn't stopped until then. Clause
/// `sendings`: the sending ends by then, or at once if it began later. It succeeds, or the notice's
/// deadline is at most a minute after its end, and comes by then. Clause `flushes`: each flush of a
/// group whose receiver recovers is finished by then, or at once if it was begun later. The finish
/// reports each of its notices delivered, or the flush's deadline comes by then. The group is due
/// again by that deadline.
pub fn sendings_come_through()
    ensures sendings { SendingsComeThrough }
    ensures flushes { EveryPlay FlushesComeThrough }
{}

/// States that pages come after outages, with no premise on a driver.
///
/// Take a group whose receiver recovers by x, as `sendings_come_through` says, in a rehearsal that
/// goes on until it has recovered. Its dispatcher isn't stopped by the end, and `limits.flushes`
/// isn't below `limits.groups`. Clause `flush`: a flush at v notifies an integration of an alert,
/// which stays due a page after that up to a time y. Then the integration hears of it by v, or by a
/// minute and d after x, if that is later: a notice that lists the alert is reported delivered to it,
/// or the group is begun and the integration has heard of it. Clause `alert`: an alert is due a page
/// from a time on up to y. Then each integration of the receiver hears of it by the latest time of
/// `plays_page_in_time`, or by a minute and d after x, if that is later. In both, that time is no
/// later than y, and y no later than the rehearsal's end.
pub fn pages_come_after_outages()
    ensures flush { EveryPlay PagesComeAfterOutages }
    ensures alert { EveryPlay PlaysDeliverAfterOutages }
{}
