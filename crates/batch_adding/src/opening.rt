ghost use Rattle.std.specs.Prelude.{◌≡◌, ◌-◌, false, IfOk, Err, List};
ghost use Rattle.causes.specs.Told.{WhereTold, map_told};
ghost use Rattle.disk_model.specs.Disk.{BeginsChanges, Faults, LeavesOnly, MayBegin};
ghost use Rattle.gated_log.specs.Calls.{most_recovery_changes, RecoveryCalls};
ghost use Rattle.gated_log.specs.Start.{MovedToWrite, remade};
ghost use Rattle.station_base.specs.declared.row.Row.{Row};
ghost use Rattle.station_base.specs.Limits.{most_rows};
ghost use Rattle.weather_book.specs.Book.{book_is_stale, most_rows_of};
ghost use Rattle.weather_book.specs.Stands.{HasRows, NowHasRows, ReadsRows, StandsOn};
ghost use Rattle.batch_adding.specs.Calls.{opening_failed, slots_opened};
ghost use Rattle.batch_adding.specs.Opening.{OnAnswered, OpensTo};

use disk_model::Disk;
use station_base::MOST_ROWS;
use std::alloc::Global;
use weather_book::{Book, BookStart, Purpose};

/// Why an archive was not opened to be added to.
#[derive(Clone, Copy)]
pub enum NotOpened {
    /// The file has more than 177 bytes and begins neither with `DVARCH01` nor with `DVARCH02`, but with these bytes.
    NotArchive([u8; 8]),
    /// The archive is of the first version.
    OldVersion,
    /// The archive is damaged at this place.
    Damaged(u64),
    /// A call of the disk failed.
    Fault,
    /// There was no memory for the days of the rows.
    OutOfMemory,
}

/// The book of an archive to which rows may be added, or why there is none.
pub fn open_to<E: Disk>(alloc: Global, to: &mut E) -> Result<Book, NotOpened>
    requires { MayBegin E.medium most_recovery_changes to.old }
    ensures finds { WhereTold (E.medium.seen to.old) (OpensTo result) }
    ensures fresh { IfOk result (λ book. (book_is_stale book ≡ false) × (most_rows_of book ≡ most_rows)) }
    ensures cause { Faults E.medium to.old to.new (result ≡ Err NotOpened.Fault) }
    ensures begun { BeginsChanges E.medium most_recovery_changes to.old to.new }
    ensures moved { OnAnswered result
        (WhereTold (E.medium.seen to.old) (MovedToWrite (E.medium.moment to.old) (E.medium.moment to.new))) }
    ensures went { RecoveryCalls E.medium to.old to.new (E.medium.moment to.new - E.medium.moment to.old)
        (slots_opened result) (opening_failed result) }
    ensures reads { IfOk result (λ _. E.medium.seen to.new ≡ map_told remade (E.medium.seen to.old)) }
    ensures stands { IfOk result (λ book. (rows : List Row) × StandsOn E.medium book to.new rows
        × ReadsRows E.medium to.old rows) }
    ensures images { (rows : List Row) → NowHasRows E.medium to.old rows
        → LeavesOnly E.medium (HasRows rows) to.old to.new }
{
    match Book::recover(alloc, to, MOST_ROWS, Purpose::Write) {
        BookStart::Book(book) => Ok(book),
        BookStart::NotArchive(bytes) => Err(NotOpened::NotArchive(bytes)),
        BookStart::OldVersion => Err(NotOpened::OldVersion),
        BookStart::Damaged(place) => Err(NotOpened::Damaged(place)),
        BookStart::DiskFault => Err(NotOpened::Fault),
        BookStart::OutOfMemory => Err(NotOpened::OutOfMemory),
    }
}
