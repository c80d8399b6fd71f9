ghost use Rattle.std.specs.Prelude.{ℕ, List};
ghost use Rattle.std.specs.List.{Contains};
ghost use Rattle.station_base.specs.declared.row.Row.{Row};
ghost use Rattle.settings_file.specs.StationSettings.{StationSettings};
ghost use Rattle.weather_reports.specs.Recomputed.{AreDayLines, DayLine};
ghost use Rattle.replay_laws.specs.Kept.{Kept};
ghost use Rattle.replay_laws.specs.Replay.{Item};
ghost use Rattle.promise_laws.specs.Places.{SomeItem};
ghost use Rattle.promise_laws.specs.Printing.{PrintsRowTwice, LeavesRowOut, HasWrongNumber};

/// What you see is what you have: a run that prints a row twice is not kept.
pub fn no_row_is_printed_twice()
    ensures { (settings : StationSettings) (records : List (List ℕ)) (items : List Item)
        → SomeItem PrintsRowTwice items → ¬ Kept settings records items }
{}

/// What you see is what you have: nor is one that leaves a row out.
pub fn no_row_is_left_out()
    ensures { (settings : StationSettings) (records : List (List ℕ)) (items : List Item)
        → SomeItem LeavesRowOut items → ¬ Kept settings records items }
{}

/// Right sums: no line of a day has a sum, a count, a weighted sum or a number of seconds that the day's rows do not give.
pub fn each_number_of_a_day_is_right()
    ensures { (rows : List Row) (text : List ℕ) (are : AreDayLines rows text) (line : DayLine)
        → Contains are.lines line → ¬ HasWrongNumber rows line }
{}
