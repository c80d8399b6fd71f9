ghost use Rattle.std.specs.Prelude.{◌≤◌, All, length, ℕ, ◌≡◌, List, IfSome};
ghost use Rattle.station_base.specs.declared.row.Row.{Row};
ghost use Rattle.daily_summary.specs.Extremes.{RowsRise, IsLeastAt, IsGreatestAt};
ghost use Rattle.daily_summary.specs.Bounds.{IsInBounds};
ghost use Rattle.daily_summary.specs.Measured.{IsMeasured};
ghost use Rattle.daily_summary.specs.Parts.{AreTyped};
ghost use Rattle.daily_summary.specs.Readings.{readings};
ghost use Rattle.daily_summary.specs.Summary.{field_sum, summary_of};
ghost use Rattle.station_base.specs.Limits.{most_rows};

/// Where the stamps of rows rise, the least value of a field is kept with the first stamp at which a row has it, and so
/// is the greatest.
pub fn first_extremes()
    ensures least { (field : ℕ) (rows : List Row) → RowsRise rows
        → IfSome (field_sum (readings field rows)) (λ s. IsLeastAt field rows s.least s.least_at) }
    ensures greatest { (field : ℕ) (rows : List Row) → RowsRise rows
        → IfSome (field_sum (readings field rows)) (λ s. IsGreatestAt field rows s.greatest s.greatest_at) }
{}

/// The summary of at most 1,048,576 rows that a station can have measured is within bounds, and its numbers are of their
/// types. So its parts are read back as this summary.
pub fn measured_rows()
    ensures bounds { (rows : List Row) → All IsMeasured rows → length rows ≤ most_rows → IsInBounds (summary_of rows) }
    ensures typed { (rows : List Row) → All IsMeasured rows → length rows ≤ most_rows → AreTyped (summary_of rows) }
{}
