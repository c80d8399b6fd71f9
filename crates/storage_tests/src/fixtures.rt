//! What the tests of an archive test before they add rows to it.

ghost use Rattle.std.specs.Prelude.{◌≡◌, IsTrue};
ghost use Rattle.packed_rows.specs.Rising.{RowsRiseAfter, rows_rise};

use station_base::{Row, Stamp};

/// Whether the stamps rise, the first above this one.
pub fn rise_after(last: Option<Stamp>, rows: &[Row]) -> bool
    ensures { result ≡ rows_rise last rows.now }
{
    match rows {
        [] => true,
        [row, rest @ ..] => last.is_none_or(|last| last < row.stamp)
            && rise_after(Some(row.stamp), rest),
    }
}

/// Whether these rows may be added after this stamp.
pub fn may_follow(last: Option<Stamp>, rows: &[Row]) -> bool
    ensures { IsTrue result → RowsRiseAfter last rows.now }
{
    rise_after(last, rows)
}
