ghost use Rattle.std.specs.Prelude.{◌≡◌, ◌≤◌, None, length};
ghost use Rattle.packed_rows.specs.Adding.{AreLimited, ArePrintable, rows_in_a_batch};
ghost use Rattle.packed_rows.specs.Rising.{RowsRiseAfter};
ghost use Rattle.archive_import.specs.Texts.{AreLinesOfRows, rows_ahead, rows_to_come};
ghost use Rattle.archive_import.specs.Importing.{later_rows};

use arrayvec::ArrayVec;
use batch_adding::{BATCH, exceeds};
use row_text::TextRows;
use station_base::{Row, Stamp};

// What is left behind the rows that were passed over.
#[derive(Drop)]
pub struct Behind {
    // The first row that is left, if there is one.
    pub first: ArrayVec<Row, BATCH>,
    // How many rows are left, the first one included.
    pub count: u64,
}

// Passes over the rows of these lines, so many, whose stamps do not exceed this one.
pub fn pass_over(lines: &mut TextRows<'_>, count: u64, last: Option<Stamp>) -> Behind
    requires rows { AreLinesOfRows lines.old }
    requires count { count ≡ length (rows_ahead lines.old) }
    requires rising { RowsRiseAfter None (rows_ahead lines.old) }
    ensures later { rows_to_come result.first.items lines.new ≡ later_rows last (rows_ahead lines.old) }
    ensures count { result.count ≡ length (later_rows last (rows_ahead lines.old)) }
    ensures fewer { result.count ≤ count }
    ensures few { length result.first.items ≤ rows_in_a_batch }
    ensures rows { AreLinesOfRows lines.new }
    ensures rising { RowsRiseAfter last (later_rows last (rows_ahead lines.old)) }
    ensures printable { ArePrintable result.first.items }
    ensures limited { AreLimited result.first.items }
{
    let mut left = count;
    let mut first = ArrayVec::new();
    while left > 0 && first.is_empty() {
        // A copy for each row: the borrow checker takes the comparison below for a move.
        let last = last;
        let Some(read) = lines.next() else {
            unreachable!();
        };
        let Ok(row) = read else {
            unreachable!();
        };
        let is_later = exceeds(last, row.stamp);
        if is_later {
            first.push(row);
        } else {
            left -= 1;
        }
    }
    Behind { first, count: left }
}
