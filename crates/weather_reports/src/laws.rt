ghost use Rattle.std.specs.Prelude.{List, None};
ghost use Rattle.station_base.specs.declared.row.Row.{Row};
ghost use Rattle.packed_rows.specs.Rising.{RowsRiseAfter};
ghost use Rattle.weather_reports.specs.Recomputed.{AreDayLines};
ghost use Rattle.weather_reports.specs.Report.{all_day_lines};
ghost use Rattle.weather_reports.specs.Reported.{text_of_lines};

/// Where the stamps of rows rise, the lines of all days are in order and tell, for each day and each field of which a
/// row of the day has a value and for no others, what these values come to.
#[tactic(auto, using(crate::proofs::RecomputedDays::day_lines_law))]
pub fn days_are_recomputed()
    ensures { (rows : List Row) → RowsRiseAfter None rows → AreDayLines rows (text_of_lines (all_day_lines rows)) }
{}
