ghost use Rattle.std.specs.Prelude.{◌≤◌, ◌-◌, map, take, drop};
ghost use Rattle.station_base.specs.RowLine.{row_line};
ghost use Rattle.weather_book.specs.Book.{len_of};
ghost use Rattle.weather_reports.specs.Made.{MakesReport};
ghost use Rattle.weather_reports.specs.Report.{later_lines, listing_lines};

use crate::ReportEnd;
use crate::line::Pending;
use crate::printing::{finish, print_rows};
use arrayvec::ArrayVec;
use disk_model::Disk;
use station_base::DayNumber;
use station_io::{Put, Sink};
use weather_book::{Book, RowsAnswer};

/// Writes the line of each row of the days from the first to the last, `row YYYY-MM-DD HH:MM I` with its values. A read
/// brings up to 16 rows.
pub fn listing<D: Disk, K: Sink>(
    book: &Book,
    disk: &mut D,
    out: &mut K,
    first: DayNumber,
    last: DayNumber,
) -> ReportEnd
    ensures { MakesReport K.outlet D.medium book.now (listing_lines first last) result
        disk.old disk.new out.old out.new }
{
    let (from, count) = book.rows_of(first, last);
    rows_between(book, disk, out, from, from + count)
}

/// Writes the line of each row from this number on, counted from 0, up to the last. There is none where the book has no
/// more rows. A read brings up to 16 rows.
pub fn rows_from<D: Disk, K: Sink>(book: &Book, disk: &mut D, out: &mut K, from: u64) -> ReportEnd
    ensures { MakesReport K.outlet D.medium book.now (later_lines from) result disk.old disk.new out.old out.new }
{
    rows_between(book, disk, out, from, book.len())
}

// Writes the line of each row from a number on, up to the one before the end.
fn rows_between<D: Disk, K: Sink>(
    book: &Book,
    disk: &mut D,
    out: &mut K,
    from: u64,
    end: u64,
) -> ReportEnd
    requires { end ≤ len_of book.now }
    ensures { MakesReport K.outlet D.medium book.now (λ rows. map row_line (take (end - from) (drop from rows))) result
        disk.old disk.new out.old out.new }
{
    let mut pending = Pending::new();
    let mut at = from;
    while at < end {
        let mut piece = ArrayVec::new();
        if let RowsAnswer::DiskFault = book.rows_at(disk, at, &mut piece) {
            return finish(&pending, ReportEnd::DiskFault, out);
        }
        let wanted = piece.len().min((end - at) as usize);
        if let Put::Failed = print_rows(&mut pending, &piece[..wanted], out) {
            return ReportEnd::WriteFault;
        }
        at += wanted as u64;
    }
    finish(&pending, ReportEnd::Done, out)
}
