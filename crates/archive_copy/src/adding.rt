ghost use Rattle.std.specs.Prelude.{ℕ, ◌≡◌, ◌≤◌, ◌+◌, ◌-◌, ◌++◌, false, List, drop, length};
ghost use Rattle.causes.specs.Lists.{IsFrontOf};
ghost use Rattle.causes.specs.Told.{WhereTold};
ghost use Rattle.disk_model.specs.Disk.{BeginsChanges, Faults, LeavesOnly, MayBegin, Stays};
ghost use Rattle.gated_log.specs.Calls.{Looked};
ghost use Rattle.station_base.specs.declared.row.Row.{Row};
ghost use Rattle.weather_book.specs.Book.{BookStandsFor, book_is_stale, len_of, most_rows_of};
ghost use Rattle.packed_rows.specs.Rows.{slot_total};
ghost use Rattle.weather_book.specs.Stands.{StandsOn, StandsToReadOn};
ghost use Rattle.archive_copy.specs.Adding.{IsOfAdding};
ghost use Rattle.batch_adding.specs.Adding.{HasSome, changes_for_rows};
ghost use Rattle.batch_adding.specs.Calls.{AddsBatches, slots_end};
ghost use Rattle.archive_copy.specs.Calls.{is_from_fault, is_to_fault};
ghost use Rattle.station_base.specs.Limits.{most_rows};

use crate::CopyEnd;
use crate::batch::{BatchRead, next_batch};
use crate::reader::RowReader;
use arrayvec::ArrayVec;
use batch_adding::{BatchEnd, add_batch};
use disk_model::Disk;
use weather_book::Book;

// Adds the rows that a book lacks, batch by batch.
pub fn add_missing<D: Disk, E: Disk>(
    theirs: &Book,
    from: &mut D,
    mine: &mut Book,
    to: &mut E,
) -> CopyEnd
    requires room { MayBegin E.medium (changes_for_rows (len_of theirs.now - len_of mine.old)) to.old }
    requires fresh { book_is_stale mine.old ≡ false }
    requires most { most_rows_of mine.old ≡ most_rows }
    requires few { len_of theirs.now ≤ most_rows }
    requires no_more { len_of mine.old ≤ len_of theirs.now }
    ensures kind { IsOfAdding result (len_of theirs.now) }
    ensures in_order { result ≡ CopyEnd.FromDamaged 0 → (theirs_rows mine_rows : List Row)
        → StandsToReadOn D.medium theirs.now from.old theirs_rows → StandsOn E.medium mine.old to.old mine_rows
        → IsFrontOf mine_rows theirs_rows → WhereTold (D.medium.seen from.old) (λ _. ⊥) }
    ensures stays { Stays D.medium from.old from.new }
    ensures from_cause { Faults D.medium from.old from.new (result ≡ CopyEnd.FromFault) }
    ensures to_cause { Faults E.medium to.old to.new (result ≡ CopyEnd.ToFault) }
    ensures from_went { (rows : List Row) → BookStandsFor theirs.now rows
        → Looked D.medium (slots_end (slot_total rows)) (is_from_fault result) from.old from.new }
    ensures to_went { (mine_rows : List Row) → BookStandsFor mine.old mine_rows
        → AddsBatches E.medium mine_rows (is_to_fault result) (λ next. (theirs_rows : List Row)
        → StandsToReadOn D.medium theirs.now from.old theirs_rows → WhereTold (D.medium.seen from.old) (λ _.
        IsFrontOf next (drop (length mine_rows) theirs_rows))) to.old to.new }
    ensures begun { BeginsChanges E.medium (changes_for_rows (len_of theirs.now - len_of mine.old)) to.old to.new }
    ensures moved { result ≡ CopyEnd.Done (len_of theirs.now)
        → E.medium.moment to.new ≡ E.medium.moment to.old + changes_for_rows (len_of theirs.now - len_of mine.old) }
    ensures images { (theirs_rows mine_rows : List Row) → StandsToReadOn D.medium theirs.now from.old theirs_rows
        → StandsOn E.medium mine.old to.old mine_rows → WhereTold (D.medium.seen from.old) (λ _.
        LeavesOnly E.medium (HasSome mine_rows (drop (length mine_rows) theirs_rows)) to.old to.new) }
    ensures stands { (n : ℕ) → result ≡ CopyEnd.Done n → (theirs_rows mine_rows : List Row)
        → StandsToReadOn D.medium theirs.now from.old theirs_rows → StandsOn E.medium mine.old to.old mine_rows
        → WhereTold (D.medium.seen from.old) (λ _.
        StandsOn E.medium mine.new to.new (mine_rows ++ drop (length mine_rows) theirs_rows)) }
{
    let count = theirs.len();
    let mut reader = RowReader::new(mine.len());
    while reader.at() < count {
        let mut batch = ArrayVec::new();
        match next_batch(theirs, from, &mut reader, mine.last(), &mut batch) {
            BatchRead::Ready => {}
            BatchRead::OutOfOrder => return CopyEnd::FromDamaged(0),
            BatchRead::Fault => return CopyEnd::FromFault,
        }
        match add_batch(mine, to, &batch) {
            BatchEnd::Done => {}
            BatchEnd::Fault => return CopyEnd::ToFault,
            BatchEnd::OutOfMemory => return CopyEnd::OutOfMemory,
        }
    }
    CopyEnd::Done(count)
}
