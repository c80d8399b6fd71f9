ghost use Rattle.std.specs.Prelude.{◌≡◌, ◌≤◌, drop, length, take};
ghost use Rattle.packed_rows.specs.Adding.{AreLimited, ArePrintable, rows_in_a_batch};
ghost use Rattle.archive_import.specs.Texts.{AreLinesOfRows, rows_ahead, rows_to_come};

use arrayvec::ArrayVec;
use batch_adding::BATCH;
use row_text::TextRows;
use station_base::Row;

// Fills a batch with the rows of the next lines, where so many are to come with those of the batch.
pub fn fill_batch(lines: &mut TextRows<'_>, batch: &mut ArrayVec<Row, BATCH>, count: u64)
    requires rows { AreLinesOfRows lines.old }
    requires count { count ≡ length (rows_to_come batch.old.items lines.old) }
    requires few { length batch.old.items ≤ rows_in_a_batch }
    requires printable { ArePrintable batch.old.items }
    requires limited { AreLimited batch.old.items }
    ensures batch { batch.new.items ≡ take rows_in_a_batch (rows_to_come batch.old.items lines.old) }
    ensures left { rows_ahead lines.new ≡ drop rows_in_a_batch (rows_to_come batch.old.items lines.old) }
    ensures rows { AreLinesOfRows lines.new }
    ensures printable { ArePrintable batch.new.items }
    ensures limited { AreLimited batch.new.items }
{
    while batch.len() < BATCH && (batch.len() as u64) < count {
        let Some(read) = lines.next() else {
            unreachable!();
        };
        let Ok(row) = read else {
            unreachable!();
        };
        batch.push(row);
    }
}
