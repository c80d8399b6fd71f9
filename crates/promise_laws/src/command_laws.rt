ghost use Rattle.std.specs.Prelude.{ℕ, ◌≡◌, ◌≢◌, List, Some};
ghost use Rattle.packed_rows.specs.Rising.{last_row_stamp};
ghost use Rattle.station_base.specs.declared.row.Row.{Row};
ghost use Rattle.station_session.specs.Round.{RoundHost, ServesRound};
ghost use Rattle.station_session.specs.declared.report.Report.{Report};
ghost use Rattle.station_session.specs.declared.round_end.RoundEnd.{RoundEnd};
ghost use Rattle.weather_reports.specs.Reported.{IsReport, text_of_lines};
ghost use Rattle.weather_reports.specs.declared.end.ReportEnd.TheVariants as report_end;
ghost use Rattle.promise_laws.specs.Commands.{AcknowledgesUnstored};

use disk_model::Disk;
use serial_link::Link;

/// Stored, then acknowledged: a round in which 0x06 was said for pages before a mark had their rows is no round of a session.
pub fn no_page_is_acknowledged_unstored<L: Link, D: Disk>()
    ensures { (rows : List Row) (end : RoundEnd) (old new : RoundHost L D) (report : Report)
        (serves : ServesRound L.traffic D.medium rows end old new report)
        → ¬ AcknowledgesUnstored (last_row_stamp rows) serves.tries report }
{}

/// Just the lines asked for: what a report that is done wrote is no other text than that of its lines.
pub fn no_other_line_is_reported()
    ensures { (lines : List (List ℕ)) (written : List ℕ) → written ≢ text_of_lines lines
        → ¬ IsReport lines report_end.Done written }
{}
