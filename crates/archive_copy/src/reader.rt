ghost use Rattle.std.specs.Prelude.{ℕ, All, ◌≡◌, ◌<◌, ◌+◌, ◌*◌, List, Some, [], length, slice_get};
ghost use Rattle.causes.specs.Told.{WhereTold};
ghost use Rattle.disk_model.specs.Disk.{Faults, Looks, Stays};
ghost use Rattle.gated_log.specs.Calls.{Looked};
ghost use Rattle.station_base.specs.FieldSet.{AreMissing};
ghost use Rattle.station_base.specs.RowLine.{IsPrintable};
ghost use Rattle.station_base.specs.declared.row.Row.{Row};
ghost use Rattle.gated_log.specs.Layout.{slot_size};
ghost use Rattle.weather_book.specs.Book.{BookStandsFor, len_of};
ghost use Rattle.packed_rows.specs.Rows.{slot_total};
ghost use Rattle.weather_book.specs.Stands.{StandsToReadOn};
ghost use Rattle.weather_book.specs.Start.{OnRow, OnRows, is_no_row, rows_failed};

use crate::limits::PIECE;
use arrayvec::ArrayVec;
use disk_model::Disk;
use station_base::Row;
use weather_book::{Book, RowAnswer, RowsAnswer};

// Hands out the rows of a book in order, and reads them from the disk a piece at a time.
#[derive(Drop)]
pub struct RowReader {
    // The rows that the last read brought.
    piece: ArrayVec<Row, PIECE>,
    // How many of them were handed out.
    used: usize,
    // The number of the next row.
    at: u64,
}

impl RowReader {
    ghost use Rattle.archive_copy.specs.Reading.{IsAhead};

    // A reader whose next row is this one.
    pub fn new(at: u64) -> RowReader
        ensures at { result.at ≡ at }
        ensures none { result.piece.items ≡ [] }
        ensures unused { result.used ≡ 0 }
    {
        RowReader {
            piece: ArrayVec::new(),
            used: 0,
            at,
        }
    }

    // The number of the next row.
    pub fn at(&self) -> u64
        ensures { result ≡ self.now.at }
    {
        self.at
    }

    // Reads the next piece where each row of the last one was handed out.
    fn fill<D: Disk>(&mut self, theirs: &Book, from: &mut D) -> RowsAnswer
        requires within { self.old.at < len_of theirs.now }
        requires ahead { IsAhead D.medium theirs.now from.old self.old }
        ensures some { OnRows result (self.new.used < length self.new.piece.items) }
        ensures at { self.new.at ≡ self.old.at }
        ensures ahead { IsAhead D.medium theirs.now from.new self.new }
        ensures stays { Stays D.medium from.old from.new }
        ensures cause { Faults D.medium from.old from.new (result ≡ RowsAnswer.DiskFault) }
        ensures looks { Looks D.medium 1 from.old from.new }
        ensures saved { self.old.used < length self.old.piece.items → from.new ≡ from.old }
        ensures went { (rows : List Row) → BookStandsFor theirs.now rows
            → Looked D.medium (slot_size * (slot_total rows + 1)) (rows_failed result) from.old from.new }
    {
        if self.used < self.piece.len() {
            return RowsAnswer::Done;
        }
        let mut piece = ArrayVec::new();
        if let RowsAnswer::DiskFault = theirs.rows_at(from, self.at, &mut piece) {
            return RowsAnswer::DiskFault;
        }
        self.piece = piece;
        self.used = 0;
        RowsAnswer::Done
    }

    // The next row.
    pub fn next<D: Disk>(&mut self, theirs: &Book, from: &mut D) -> RowAnswer
        requires within { self.old.at < len_of theirs.now }
        requires ahead { IsAhead D.medium theirs.now from.old self.old }
        ensures row { OnRow result (λ row. (rows : List Row) → StandsToReadOn D.medium theirs.now from.old rows
            → WhereTold (D.medium.seen from.old) (λ _. slice_get rows self.old.at ≡ Some row)) }
        ensures printable { OnRow result (λ row. All IsPrintable row.values) }
        ensures limited { OnRow result (λ row. AreMissing row.limited row.values) }
        ensures at { OnRow result (λ _. self.new.at ≡ self.old.at + 1) }
        ensures ahead { IsAhead D.medium theirs.now from.new self.new }
        ensures stays { Stays D.medium from.old from.new }
        ensures cause { Faults D.medium from.old from.new (result ≡ RowAnswer.DiskFault) }
        ensures looks { Looks D.medium 1 from.old from.new }
        ensures saved { self.old.used < length self.old.piece.items → from.new ≡ from.old }
        ensures went { (rows : List Row) → BookStandsFor theirs.now rows
            → Looked D.medium (slot_size * (slot_total rows + 1)) (is_no_row result) from.old from.new }
    {
        if let RowsAnswer::DiskFault = self.fill(theirs, from) {
            return RowAnswer::DiskFault;
        }
        let row = self.piece[self.used];
        self.used += 1;
        self.at += 1;
        RowAnswer::Row(row)
    }
}
