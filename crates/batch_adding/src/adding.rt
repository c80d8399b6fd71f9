ghost use Rattle.std.specs.Prelude.{◌≡◌, ◌≤◌, ◌+◌, ◌-◌, ◌++◌, false, true, List, length, take};
ghost use Rattle.disk_model.specs.Disk.{Faults, LeavesOnly, MayBegin};
ghost use Rattle.gated_log.specs.Calls.{changes_in_a_batch, up_to};
ghost use Rattle.station_base.specs.declared.row.Row.{Row};
ghost use Rattle.packed_rows.specs.Adding.{rows_in_a_batch, AreLimited, ArePrintable};
ghost use Rattle.packed_rows.specs.Rising.{RowsRiseAfter, last_stamp_after};
ghost use Rattle.weather_book.specs.Book.{BookStandsFor, IsSameBook, book_is_stale, last_stamp_of, len_of, most_rows_of};
ghost use Rattle.weather_book.specs.Stands.{StandsOn};
ghost use Rattle.batch_adding.specs.Adding.{HasOldOrAll, MovedBy};
ghost use Rattle.batch_adding.specs.Calls.{add_failed, changes_of_batch, failed_answer};

use disk_model::Disk;
use station_base::Row;
use weather_book::{Added, Book, Room};

/// How the add of a batch ended.
#[derive(Clone, Copy)]
pub enum BatchEnd {
    /// Its rows are added.
    Done,
    /// A call of the disk failed.
    Fault,
    /// There was no memory for their days.
    OutOfMemory,
}

/// Adds a batch to a book that may have it.
pub fn add_batch<E: Disk>(mine: &mut Book, to: &mut E, rows: &[Row]) -> BatchEnd
    requires room { MayBegin E.medium changes_in_a_batch to.old }
    requires some { 1 ≤ length rows.now }
    requires few { length rows.now ≤ rows_in_a_batch }
    requires rising { RowsRiseAfter (last_stamp_of mine.old) rows.now }
    requires printable { ArePrintable rows.now }
    requires limited { AreLimited rows.now }
    requires fresh { book_is_stale mine.old ≡ false }
    requires fits { len_of mine.old + length rows.now ≤ most_rows_of mine.old }
    ensures cause { Faults E.medium to.old to.new (result ≡ BatchEnd.Fault) }
    ensures moved { MovedBy result (E.medium.moment to.old) (E.medium.moment to.new) }
    ensures went { (old : List Row) → BookStandsFor mine.old old
        → E.medium.went to.old
        (up_to (take (E.medium.moment to.new - E.medium.moment to.old) (changes_of_batch old rows.now))
        (failed_answer (add_failed result))) to.new }
    ensures rows { result ≡ BatchEnd.Done → (old : List Row) → BookStandsFor mine.old old
        → BookStandsFor mine.new (old ++ rows.now) }
    ensures fresh { result ≡ BatchEnd.Done → book_is_stale mine.new ≡ false }
    ensures stale { result ≡ BatchEnd.Fault → book_is_stale mine.new ≡ true }
    ensures same { result ≡ BatchEnd.OutOfMemory → IsSameBook mine.old mine.new }
    ensures most { result ≡ BatchEnd.Done → most_rows_of mine.new ≡ most_rows_of mine.old }
    ensures len { result ≡ BatchEnd.Done → len_of mine.new ≡ len_of mine.old + length rows.now }
    ensures last { result ≡ BatchEnd.Done
        → last_stamp_of mine.new ≡ last_stamp_after (last_stamp_of mine.old) rows.now }
    ensures images { (old : List Row) → StandsOn E.medium mine.old to.old old
        → LeavesOnly E.medium (HasOldOrAll old rows.now) to.old to.new }
    ensures stands { result ≡ BatchEnd.Done → (old : List Row) → StandsOn E.medium mine.old to.old old
        → StandsOn E.medium mine.new to.new (old ++ rows.now) }
{
    if let Room::OutOfMemory = mine.room(rows.len()) {
        return BatchEnd::OutOfMemory;
    }
    match mine.add(to, rows) {
        Added::Done => BatchEnd::Done,
        Added::DiskFault => BatchEnd::Fault,
        Added::Full | Added::Stale => unreachable!(),
    }
}
