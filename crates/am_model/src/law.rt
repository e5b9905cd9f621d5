//! The laws of histories, the limits and the faults' numbers, as calls that verifiers read. Each
//! has an empty body: its `ensures` is the statement.
ghost use Rattle.am_model.specs.Carry.{CarriedRowsFit, CarriedRowsMayBeLoaded, RestartsCarryRows};
ghost use Rattle.am_model.specs.Rekey.{RekeyedRowsFit, RekeyedRowsMayBeLoaded, RekeyedDispatcherChangesMayBeLoaded, RestartsFindRows};
ghost use Rattle.am_model.specs.Rekey.{RestartsFindShownRows};
ghost use Rattle.am_model.specs.Laws.{ReplayAppends, LegalAppends, ClockIsTime, BeginningsAreLegal};
ghost use Rattle.am_model.specs.Laws.{ReplaysAreConsistent, ReplaysKnowMembers, LegalKeepsBegins, FlushesNeverWait};
ghost use Rattle.am_model.specs.Laws.{RowsMayBeLoaded, DispatcherChangesMayBeLoaded, RowsAreLed, RestartsKeepRows};
ghost use Rattle.am_model.specs.Laws.{ForgettingChangesNoReply, ForgettingChangesNoState};
ghost use Rattle.am_model.specs.look_back.Interval.{BeginsKeepTheInterval};
ghost use Rattle.am_model.specs.look_back.Laws.{EveryLegalHistory, AlertsAreFound, ShownAlertsAreFound, RowsAreFound, ShownRowsAreFound};
ghost use Rattle.am_model.specs.look_back.Laws.{OnlyDeliveredIsLogged, RowsComeByDelivery, RowsWereDelivered};
ghost use Rattle.am_model.specs.look_back.Laws.{LoadsPutLaterRows, RefiringAlertsStay, FlushesEndOnce};
ghost use Rattle.am_model.specs.look_back.Laws.{BeginsNotifyExactlyWhomNeeded, NoticesListPresentAlerts, LooksBack};
ghost use Rattle.am_model.specs.look_back.Preview.{PreviewsAreFound};
ghost use Rattle.am_model.specs.look_back.Reasons.{BeginsHaveReasons, ReasonsAreSo, NotYetEnds};
ghost use Rattle.am_model.specs.Values.{LimitsAre, DefaultIs, GreatestIs, TimesAre};
ghost use Rattle.am_model.specs.Values.{CallFaultsAre, NoteFaultsAre, LoadFaultsAre, ConfigFaultsAre};
ghost use Rattle.am_model.specs.Values.{BoardFaultsAre, TakeFaultsAre, ReportFaultsAre};

use crate::config::ConfigFault;
use crate::fault::{Fault, LoadFault, NoteFault, ReportFault, TakeFault};

const CALL_FAULTS: [(Fault, u8); 6] = [
    (Fault::NoMemory, Fault::NoMemory as u8),
    (Fault::TooManyAlerts, Fault::TooManyAlerts as u8),
    (Fault::TooManyGroups, Fault::TooManyGroups as u8),
    (Fault::TooManySilences, Fault::TooManySilences as u8),
    (Fault::TooManyOpen, Fault::TooManyOpen as u8),
    (Fault::HistoryFull, Fault::HistoryFull as u8),
];

const NOTE_FAULTS: [(NoteFault, u8); 6] = [
    (NoteFault::NoMemory, NoteFault::NoMemory as u8),
    (NoteFault::HistoryFull, NoteFault::HistoryFull as u8),
    (NoteFault::Foreign, NoteFault::Foreign as u8),
    (NoteFault::NotOpen, NoteFault::NotOpen as u8),
    (NoteFault::NotReady, NoteFault::NotReady as u8),
    (NoteFault::Already, NoteFault::Already as u8),
];

const LOAD_FAULTS: [(LoadFault, u8); 5] = [
    (LoadFault::NoMemory, LoadFault::NoMemory as u8),
    (LoadFault::HistoryFull, LoadFault::HistoryFull as u8),
    (LoadFault::NoIntegration, LoadFault::NoIntegration as u8),
    (LoadFault::Unordered, LoadFault::Unordered as u8),
    (LoadFault::Ahead, LoadFault::Ahead as u8),
];

const CONFIG_FAULTS: [(ConfigFault, u8); 8] = [
    (
        ConfigFault::UnknownReceiver,
        ConfigFault::UnknownReceiver as u8,
    ),
    (ConfigFault::ReceiverTwice, ConfigFault::ReceiverTwice as u8),
    (
        ConfigFault::TooManyReceivers,
        ConfigFault::TooManyReceivers as u8,
    ),
    (
        ConfigFault::TooManyIntegrations,
        ConfigFault::TooManyIntegrations as u8,
    ),
    (ConfigFault::BadKind, ConfigFault::BadKind as u8),
    (ConfigFault::TooManyRules, ConfigFault::TooManyRules as u8),
    (ConfigFault::BadRetention, ConfigFault::BadRetention as u8),
    (ConfigFault::BadLimit, ConfigFault::BadLimit as u8),
];

const TAKE_FAULTS: [(TakeFault, u8); 2] = [
    (TakeFault::NoMemory, TakeFault::NoMemory as u8),
    (TakeFault::TooManyCalls, TakeFault::TooManyCalls as u8),
];

const REPORT_FAULTS: [(ReportFault, u8); 2] = [
    (ReportFault::Stranger, ReportFault::Stranger as u8),
    (ReportFault::Twice, ReportFault::Twice as u8),
];

/// States how a history with one record more relates to the history before.
///
/// Its state is the one after that record. It is legal where the history before is and the record's
/// reply is the one that is due there. Its clock is the greatest time of its calls.
pub fn histories_go_record_by_record()
    ensures replay { ReplayAppends }
    ensures legal { LegalAppends }
    ensures clock { ClockIsTime }
{}

/// States that a beginning of a legal history is legal.
///
/// What a board handed out is a beginning of its history (`Board::take_history`).
pub fn beginnings_are_legal()
    ensures { BeginningsAreLegal }
{}

/// States what is true after every list of records, legal or not, and after every legal history.
///
/// Clause `consistent`: no two known alerts, silences, groups, members of a group, rows or open
/// flushes are alike. A group with an open flush has alerts, so no maintenance removes it. Clause
/// `members`: each alert of a group is the known one with its labels, as it was last inserted. It
/// has one stamp in all its groups, and its routes give it each of these. Clause `begins`: after a
/// legal history a group that was begun since it was made is there, flushed, and due one
/// `group_interval` after its last begin.
pub fn legal_histories_are_consistent()
    ensures consistent { ReplaysAreConsistent }
    ensures members { ReplaysKnowMembers }
    ensures begins { LegalKeepsBegins }
{}

/// States that a group that is due never waits for the flush of another.
///
/// Where the limit of open flushes is that of groups, no begin is refused as `TooManyOpen`.
pub fn flushes_never_wait()
    ensures { FlushesNeverWait }
{}

/// States that a forgetting changes no later reply, and of a later state no more than known alerts
/// and silences.
///
/// The state is any consistent one, as each history leaves it. Later calls are compared with the
/// same calls where the clock alone moved. Exception: whether a silence replaced one, and what later
/// forgettings count. It doesn't speak of calls that a limit refuses, nor of which alert or silence
/// mutes, where several do.
pub fn forgetting_changes_no_answer()
    ensures replies { ForgettingChangesNoReply }
    ensures states { ForgettingChangesNoState }
{}

/// States what `carried` returns.
///
/// Clause `fit`: each row that it returns has an integration of the new configuration and an alert
/// that goes to its group there, and is else as the row that it represents. Clause `restart`: under
/// the same configuration it returns the row itself alone, if it has an integration there and one of
/// its alerts goes to its group. Clause `led`: after every list of records, legal or not, each row
/// of the log has such an alert, if each row that was loaded had one. Clause `kept`: then each row
/// that a board returns is returned itself alone, under the same configuration.
pub fn rows_are_carried()
    ensures fit { CarriedRowsFit }
    ensures restart { RestartsCarryRows }
    ensures led { RowsAreLed }
    ensures kept { RestartsKeepRows }
{}

/// States what `Rekeying::rows` returns.
///
/// Clause `fit`: each row that it returns has an integration of the new configuration, under a route
/// that has the receiver and the key of the old row's route, and is else as that row. Clause `load`:
/// where a row can be loaded under the old configuration, each that it returns for it can be loaded
/// under the new one. Clause `dispatcher_change`: that is true of each row that a board returns, at any state
/// of a board of the new configuration, if the load hands in the old board's clock or a later time.
/// Clause `restart`: under the same configuration it returns the row itself, at least, if the row has
/// an integration there. Clause `kept`: so it returns each row that a board returns.
pub fn rows_are_found_again()
    ensures fit { RekeyedRowsFit }
    ensures load { RekeyedRowsMayBeLoaded }
    ensures dispatcher_change { RekeyedDispatcherChangesMayBeLoaded }
    ensures restart { RestartsFindRows }
    ensures kept { RestartsFindShownRows }
{}

/// States that the rows of a log can be loaded, and so can those that `carried` returns for them.
///
/// Clause `own`: after every list of records, legal or not, each row of the log can be loaded under
/// the same configuration, from the clock on. Its route and its integration are there, its label
/// sets are in order, and its time isn't later. Clause `carried`: where a row can be loaded under an
/// old configuration, each that `carried` returns for it can be loaded under the new one. Clause
/// `dispatcher_change`: that is true of each row that a board returns, at any state of a board of the new
/// configuration, if the load hands in the old board's clock or a later time.
pub fn rows_may_be_loaded()
    ensures own { RowsMayBeLoaded }
    ensures carried { CarriedRowsMayBeLoaded }
    ensures dispatcher_change { DispatcherChangesMayBeLoaded }
{}

/// States which alerts are in which group after a legal history, read off the history from its end.
///
/// Clause `shown`: each group that a board returns has exactly these, in the order of their label
/// sets.
pub fn looking_back_finds_alerts()
    ensures found { EveryLegalHistory AlertsAreFound }
    ensures shown { EveryLegalHistory ShownAlertsAreFound }
{}

/// States which rows the log has after a legal history, read off the history from its end.
///
/// Clause `shown`: each row that a board returns is the one of its group and integration.
pub fn looking_back_finds_rows()
    ensures found { EveryLegalHistory RowsAreFound }
    ensures shown { EveryLegalHistory ShownRowsAreFound }
{}

/// States that the log gains a row only for a notice that was delivered or had nothing to send, but
/// for rows that were loaded.
///
/// Clause `each_record`: each finish and each note that logs a success reports so of this flush.
/// Clause `new_rows`: a row after a record was there before it, or is of its time, and the record
/// reports so; or the record loaded it. Clause `rows`: each row is of such a record, the last that
/// logged under its key, or was loaded since, and is as it was handed in.
pub fn logged_only_after_delivery()
    ensures each_record { EveryLegalHistory OnlyDeliveredIsLogged }
    ensures new_rows { EveryLegalHistory RowsComeByDelivery }
    ensures rows { EveryLegalHistory RowsWereDelivered }
{}

/// States what becomes of a row that is loaded, by the entry that looking back finds for its group
/// and integration.
///
/// It is put into the log, unless its expiry is before the load's time, or there is an entry of the
/// same time or a later one. It has an integration of the configuration, and isn't of a later time.
pub fn loads_put_later_rows()
    ensures { EveryLegalHistory LoadsPutLaterRows }
{}

/// States that an alert that fires again while a flush of its group is open is there after the
/// finish.
pub fn refiring_alerts_stay()
    ensures { EveryLegalHistory RefiringAlertsStay }
{}

/// States that each flush has one begin and at most one finish, and that its group isn't taken
/// meanwhile.
///
/// Each integration is noted for it at most once, only in between.
pub fn flushes_end_once()
    ensures { EveryLegalHistory FlushesEndOnce }
{}

/// States that a begin notifies exactly the integrations that need an update.
///
/// The entries, alerts and mutes are those that looking back finds.
pub fn begins_notify_exactly_whom_needed()
    ensures { EveryLegalHistory BeginsNotifyExactlyWhomNeeded }
{}

/// States what the notices of a begin list, and what a quiet begin counts.
///
/// A flush notifies at least one integration. Each of its notices lists the alerts that looking
/// back finds in the group and that aren't muted. Those that fire have no end. Resolved ones are
/// listed where the integration is notified of them. The deadline is the begin's time plus
/// `group_interval` or ten seconds, whichever is more. A quiet begin counts the resolved alerts,
/// muted ones too.
pub fn notices_list_present_alerts()
    ensures { EveryLegalHistory NoticesListPresentAlerts }
{}

/// States that two begins of a group are at least the route's `group_interval` apart.
///
/// Exception: a maintenance between them found the group without alerts.
pub fn begins_keep_the_interval()
    ensures { EveryLegalHistory BeginsKeepTheInterval }
{}

/// States that a begin notifies an integration exactly if its reason says so.
///
/// The reason is the case of `needsUpdate` that applies by the history before the begin. Clause
/// `so`: a reason is given exactly where what it says is true. Clause `waits`: a notice that isn't
/// repeated yet is repeated from the time on that its reason names.
pub fn reasons_are_exact()
    ensures notified { EveryLegalHistory BeginsHaveReasons }
    ensures so { ReasonsAreSo }
    ensures waits { NotYetEnds }
{}

/// States that the reasons that the state gives for a begin are those that looking back finds.
///
/// The group that it takes and what mutes its alerts are read off the state in both.
pub fn previews_look_back()
    ensures { PreviewsAreFound }
{}

/// States everything that looking back says of every legal history.
pub fn legal_histories_look_back()
    ensures { EveryLegalHistory LooksBack }
{}

/// States each limit of a configuration, the default and the greatest of `Limits`, and the bounds
/// of a flush's deadline.
pub fn limits_are()
    ensures limits { LimitsAre }
    ensures default { DefaultIs }
    ensures greatest { GreatestIs }
    ensures times { TimesAre }
{}

/// States the number of each fault.
pub fn fault_numbers_are()
    ensures calls { CallFaultsAre }
    ensures notes { NoteFaultsAre }
    ensures loads { LoadFaultsAre }
    ensures configs { ConfigFaultsAre }
    ensures boards { BoardFaultsAre }
    ensures takes { TakeFaultsAre }
    ensures reports { ReportFaultsAre }
{}
