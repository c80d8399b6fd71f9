ghost use Rattle.std.specs.Prelude.{◌≡◌, ◌<◌, ◌+◌, ◌-◌, false, List, [], drop, length, min, take};
ghost use Rattle.causes.specs.Told.{WhereTold};
ghost use Rattle.disk_model.specs.Disk.{Faults, Stays};
ghost use Rattle.gated_log.specs.Calls.{Looked};
ghost use Rattle.station_base.specs.declared.row.Row.{Row};
ghost use Rattle.packed_rows.specs.Adding.{AreLimited, ArePrintable, rows_in_a_batch};
ghost use Rattle.weather_book.specs.Book.{BookStandsFor, len_of};
ghost use Rattle.packed_rows.specs.Rows.{slot_total};
ghost use Rattle.packed_rows.specs.Rising.{rows_rise, RowsRiseAfter};
ghost use Rattle.weather_book.specs.Stands.{StandsToReadOn};
ghost use Rattle.archive_copy.specs.Calls.{batch_read_failed};
ghost use Rattle.batch_adding.specs.Calls.{slots_end};
ghost use Rattle.archive_copy.specs.Reading.{IsAhead};

use crate::reader::RowReader;
use arrayvec::ArrayVec;
use batch_adding::{BATCH, exceeds};
use disk_model::Disk;
use station_base::{Row, Stamp};
use weather_book::{Book, RowAnswer};

// What was read for a batch.
#[derive(Clone, Copy)]
pub enum BatchRead {
    // Its rows are there, and rise.
    Ready,
    // The stamp of a row does not exceed the one before.
    OutOfOrder,
    // A call of the disk failed.
    Fault,
}

// Reads the next rows for a batch, behind a row of this stamp.
pub fn next_batch<D: Disk>(
    theirs: &Book,
    from: &mut D,
    reader: &mut RowReader,
    last: Option<Stamp>,
    batch: &mut ArrayVec<Row, BATCH>,
) -> BatchRead
    requires some { reader.old.at < len_of theirs.now }
    requires ahead { IsAhead D.medium theirs.now from.old reader.old }
    requires empty { batch.old.items ≡ [] }
    ensures ready { result ≡ BatchRead.Ready → (rows : List Row) → StandsToReadOn D.medium theirs.now from.old rows
        → WhereTold (D.medium.seen from.old) (λ _. batch.new.items ≡ take rows_in_a_batch (drop reader.old.at rows)) }
    ensures count { result ≡ BatchRead.Ready → length batch.new.items ≡ min rows_in_a_batch (len_of theirs.now - reader.old.at) }
    ensures rising { result ≡ BatchRead.Ready → RowsRiseAfter last batch.new.items }
    ensures out_of_order { result ≡ BatchRead.OutOfOrder → (rows : List Row)
        → StandsToReadOn D.medium theirs.now from.old rows
        → WhereTold (D.medium.seen from.old) (λ _. rows_rise last (take rows_in_a_batch (drop reader.old.at rows)) ≡ false) }
    ensures printable { ArePrintable batch.new.items }
    ensures limited { AreLimited batch.new.items }
    ensures at { result ≡ BatchRead.Ready → reader.new.at ≡ reader.old.at + length batch.new.items }
    ensures ahead { IsAhead D.medium theirs.now from.new reader.new }
    ensures stays { Stays D.medium from.old from.new }
    ensures cause { Faults D.medium from.old from.new (result ≡ BatchRead.Fault) }
    ensures went { (rows : List Row) → BookStandsFor theirs.now rows
        → Looked D.medium (slots_end (slot_total rows)) (batch_read_failed result) from.old from.new }
{
    let end = theirs.len().min(reader.at() + BATCH as u64);
    let mut last = last;
    while reader.at() < end {
        let RowAnswer::Row(row) = reader.next(theirs, from) else {
            return BatchRead::Fault;
        };
        if !exceeds(last, row.stamp) {
            return BatchRead::OutOfOrder;
        }
        last = Some(row.stamp);
        batch.push(row);
    }
    BatchRead::Ready
}
