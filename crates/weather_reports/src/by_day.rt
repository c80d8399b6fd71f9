ghost use Rattle.weather_reports.specs.Made.{MakesReport};
ghost use Rattle.weather_reports.specs.Report.{all_day_lines, day_table_lines};

use crate::ReportEnd;
use crate::days::{day_head, is_among, summary_of};
use crate::line::Pending;
use crate::printing::{finish, print_sums};
use disk_model::Disk;
use station_base::DayNumber;
use station_io::{Put, Sink};
use weather_book::Book;

/// Writes the lines of each of these days that has a row: `day YYYY-MM-DD NAME` and what the values of a field come to,
/// for each field that has one. A day takes one read.
pub fn day_table<D: Disk, K: Sink>(
    book: &Book,
    disk: &mut D,
    out: &mut K,
    first: DayNumber,
    last: DayNumber,
) -> ReportEnd
    ensures { MakesReport K.outlet D.medium book.now (day_table_lines first last) result
        disk.old disk.new out.old out.new }
{
    let mut pending = Pending::new();
    for n in 0..book.days() {
        let day = book.day_at(n);
        if !is_among(first, last, day) {
            continue;
        }
        let Some(summary) = summary_of(book, disk, day) else {
            return finish(&pending, ReportEnd::DiskFault, out);
        };
        if let Put::Failed = print_sums(&mut pending, &day_head(day), &summary.fields, out) {
            return ReportEnd::WriteFault;
        }
    }
    finish(&pending, ReportEnd::Done, out)
}

/// The same of all days that have a row.
pub fn all_days<D: Disk, K: Sink>(book: &Book, disk: &mut D, out: &mut K) -> ReportEnd
    ensures { MakesReport K.outlet D.medium book.now all_day_lines result disk.old disk.new out.old out.new }
{
    let days = book.days();
    if days == 0 {
        return ReportEnd::Done;
    }
    day_table(book, disk, out, book.day_at(0), book.day_at(days - 1))
}
