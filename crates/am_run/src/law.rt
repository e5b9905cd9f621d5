//! Laws that verifiers read: the scripts of a scenario determine the reports, the limits, and a worked run, for which the
//! definitions give the report that was computed by hand.
ghost use Rattle.std.specs.Prelude.{◌≡◌};
ghost use Rattle.am_run.specs.FirstRun.{FirstIsLegal, FirstRunReportIs};
ghost use Rattle.am_run.specs.Laws.{ScriptsDetermineReports};
ghost use Rattle.am_run.specs.declared.run.TheConstants.{BOARD_ID, MAX_SCENARIO};
ghost use Rattle.am_scenario.specs.declared.scenario.TheConstants.{MAX_LANES};

/// The scripts of a scenario determine the reports on notices that are sent from one time on: two
/// lists of such reports are one. It does nothing: what it says is its contract.
pub fn scripts_determine_reports()
    ensures { ScriptsDetermineReports }
{}

/// How many bytes a scenario and how many lanes a phase may have, and the id of the desk.
pub fn limits_are()
    ensures input { MAX_SCENARIO ≡ 16_777_216 }
    ensures lanes { MAX_LANES ≡ 15 }
    ensures id { BOARD_ID ≡ 1 }
{}

/// The history of the first worked run is legal, and its report has the four lines that were worked
/// out by hand. It does nothing: what it says is its contract.
pub fn first_run_report_is()
    ensures legal { FirstIsLegal }
    ensures report { FirstRunReportIs }
{}
