ghost use Rattle.std.specs.Prelude.{◌≡◌, ◌≤◌, IfErr, IfOk, Err, List};
ghost use Rattle.causes.specs.Told.{WhereTold};
ghost use Rattle.disk_model.specs.Disk.{Faults, Stays};
ghost use Rattle.gated_log.specs.Calls.{RecoveryCalls};
ghost use Rattle.station_base.specs.declared.row.Row.{Row};
ghost use Rattle.weather_book.specs.Book.{len_of};
ghost use Rattle.weather_book.specs.Stands.{ReadsRows, StandsToReadOn};
ghost use Rattle.archive_copy.specs.Calls.{from_opened_failed};
ghost use Rattle.batch_adding.specs.Calls.{slots_opened};
ghost use Rattle.archive_copy.specs.Opening.{IsOfFrom, OpensFrom};
ghost use Rattle.station_base.specs.Limits.{most_rows};

use crate::CopyEnd;
use disk_model::Disk;
use station_base::MOST_ROWS;
use std::alloc::Global;
use weather_book::{Book, BookStart, Purpose};

// The book to copy from, or why there is none.
pub fn open_from<D: Disk>(alloc: Global, from: &mut D) -> Result<Book, CopyEnd>
    ensures finds { WhereTold (D.medium.seen from.old) (OpensFrom result) }
    ensures kind { IfErr result IsOfFrom }
    ensures few { IfOk result (λ book. len_of book ≤ most_rows) }
    ensures stays { Stays D.medium from.old from.new }
    ensures cause { Faults D.medium from.old from.new (result ≡ Err CopyEnd.FromFault) }
    ensures went { RecoveryCalls D.medium from.old from.new 0 (slots_opened result) (from_opened_failed result) }
    ensures stands { IfOk result (λ book. (rows : List Row) × StandsToReadOn D.medium book from.new rows
        × ReadsRows D.medium from.old rows) }
{
    let book = match Book::recover(alloc, from, MOST_ROWS, Purpose::Read) {
        BookStart::Book(book) => book,
        BookStart::NotArchive(bytes) => return Err(CopyEnd::FromNotArchive(bytes)),
        BookStart::OldVersion => unreachable!(),
        BookStart::Damaged(place) => return Err(CopyEnd::FromDamaged(place)),
        BookStart::DiskFault => return Err(CopyEnd::FromFault),
        BookStart::OutOfMemory => return Err(CopyEnd::OutOfMemory),
    };
    if book.len() > u64::from(MOST_ROWS) {
        return Err(CopyEnd::Full(book.len()));
    }
    Ok(book)
}
