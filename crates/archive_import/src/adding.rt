ghost use Rattle.std.specs.Prelude.{◌≡◌, ◌≤◌, ◌+◌, ◌++◌, false, List, length};
ghost use Rattle.causes.specs.Lists.{IsFrontOf};
ghost use Rattle.disk_model.specs.Disk.{BeginsChanges, Faults, LeavesOnly, MayBegin};
ghost use Rattle.station_base.specs.Limits.{most_rows};
ghost use Rattle.station_base.specs.declared.row.Row.{Row};
ghost use Rattle.packed_rows.specs.Adding.{AreLimited, ArePrintable, rows_in_a_batch};
ghost use Rattle.packed_rows.specs.Rising.{RowsRiseAfter};
ghost use Rattle.weather_book.specs.Book.{BookStandsFor, book_is_stale, last_stamp_of, len_of, most_rows_of};
ghost use Rattle.weather_book.specs.Stands.{StandsOn};
ghost use Rattle.batch_adding.specs.Adding.{HasSome, changes_for_rows};
ghost use Rattle.batch_adding.specs.Calls.{AddsBatches, add_failed};
ghost use Rattle.archive_import.specs.Texts.{AreLinesOfRows, rows_to_come};

use crate::batch::fill_batch;
use arrayvec::ArrayVec;
use batch_adding::{BATCH, BatchEnd, add_batch};
use disk_model::Disk;
use row_text::TextRows;
use station_base::Row;
use weather_book::Book;

// Adds the rows of a batch and of the lines behind it, so many, to a book that may have them, batch by batch.
pub fn add_rows<E: Disk>(
    lines: &mut TextRows<'_>,
    batch: &mut ArrayVec<Row, BATCH>,
    count: u64,
    mine: &mut Book,
    to: &mut E,
) -> BatchEnd
    requires room { MayBegin E.medium (changes_for_rows count) to.old }
    requires rows { AreLinesOfRows lines.old }
    requires few { length batch.old.items ≤ rows_in_a_batch }
    requires printable { ArePrintable batch.old.items }
    requires limited { AreLimited batch.old.items }
    requires count { count ≡ length (rows_to_come batch.old.items lines.old) }
    requires rising { RowsRiseAfter (last_stamp_of mine.old) (rows_to_come batch.old.items lines.old) }
    requires fresh { book_is_stale mine.old ≡ false }
    requires most { most_rows_of mine.old ≡ most_rows }
    requires fits { len_of mine.old + count ≤ most_rows }
    ensures cause { Faults E.medium to.old to.new (result ≡ BatchEnd.Fault) }
    ensures went { (old : List Row) → BookStandsFor mine.old old
        → AddsBatches E.medium old (add_failed result) (λ next. IsFrontOf next (rows_to_come batch.old.items lines.old)) to.old to.new }
    ensures begun { BeginsChanges E.medium (changes_for_rows count) to.old to.new }
    ensures moved { result ≡ BatchEnd.Done
        → E.medium.moment to.new ≡ E.medium.moment to.old + changes_for_rows count }
    ensures images { (old : List Row) → StandsOn E.medium mine.old to.old old
        → LeavesOnly E.medium (HasSome old (rows_to_come batch.old.items lines.old)) to.old to.new }
    ensures stands { result ≡ BatchEnd.Done → (old : List Row) → StandsOn E.medium mine.old to.old old
        → StandsOn E.medium mine.new to.new (old ++ rows_to_come batch.old.items lines.old) }
    ensures len { result ≡ BatchEnd.Done → len_of mine.new ≡ len_of mine.old + count }
{
    let mut left = count;
    while left > 0 {
        fill_batch(lines, batch, left);
        match add_batch(mine, to, batch) {
            BatchEnd::Done => {}
            BatchEnd::Fault => return BatchEnd::Fault,
            BatchEnd::OutOfMemory => return BatchEnd::OutOfMemory,
        }
        left -= batch.len() as u64;
        batch.clear();
    }
    BatchEnd::Done
}
