use crate::dated_rows::{Time, rows_of};
use crate::fixtures::may_follow;
use disk_model::{Disk, MemDisk};
use std::alloc::Global;
use std::process::Abort;
use std::test::Fail;
use weather_book::{Added, Book, BookStart, Purpose, Room};

// More bytes than any archive of these tests has, and more changes than any disk begins.
pub(crate) const LONGEST: usize = 20_000;

pub(crate) const CHANGES: usize = 60;

// Five times in three months, the second one at midnight.
pub(crate) const THREE_MONTHS: [Time; 5] = [
    (6, 30, 1200),
    (7, 1, 0),
    (7, 31, 2355),
    (8, 1, 5),
    (8, 2, 5),
];

// The book of the archive on a disk.
pub(crate) fn open<D: Disk>(
    rt: &impl Abort,
    alloc: Global,
    disk: &mut D,
    purpose: Purpose,
) -> Result<Book, Fail> {
    assert!(rt; disk.moment() < 1_000);
    match Book::recover(alloc, disk, 100, purpose) {
        BookStart::Book(book) => Ok(book),
        _ => Err("no book")?,
    }
}

// Whether rows of these times are added, for which there is room.
pub(crate) fn add<D: Disk>(
    rt: &impl Abort,
    alloc: Global,
    book: &mut Book,
    disk: &mut D,
    times: &[Time],
) -> Result<bool, Fail> {
    let rows = rows_of(rt, alloc, times)?;
    let rows = rows.as_slice();
    assert!(rt; disk.moment() < 1_000);
    assert!(rt; 1 <= rows.len() && rows.len() <= 5);
    assert!(rt; may_follow(book.last(), rows));
    assert!(rt; book.room(rows.len()) == Room::Done);
    Ok(book.add(disk, rows) == Added::Done)
}

// The book of a new archive with rows of these times, opened again to be read.
pub(crate) fn archive(
    rt: &impl Abort,
    alloc: Global,
    disk: &mut MemDisk,
    times: &[Time],
) -> Result<Book, Fail> {
    let mut book = open(rt, alloc, disk, Purpose::Write)?;
    assert!(rt; add(rt, alloc, &mut book, disk, times)?);
    open(rt, alloc, disk, Purpose::Read)
}
