ghost use Rattle.weather_reports.specs.Made.{MakesReport};
ghost use Rattle.weather_reports.specs.Report.{month_table_lines};

use crate::ReportEnd;
use crate::days::{is_among, summary_of};
use crate::line::Pending;
use crate::month::{Month, join, print_month};
use crate::printing::finish;
use disk_model::Disk;
use station_base::DayNumber;
use station_io::{Put, Sink};
use weather_book::Book;

/// Writes the lines of each month of these days: `month YYYY-MM NAME` and what the values of a field come to over those
/// of its days that are asked for and have a row. A day takes one read.
pub fn month_table<D: Disk, K: Sink>(
    book: &Book,
    disk: &mut D,
    out: &mut K,
    first: DayNumber,
    last: DayNumber,
) -> ReportEnd
    ensures { MakesReport K.outlet D.medium book.now (month_table_lines first last) result
        disk.old disk.new out.old out.new }
{
    let mut pending = Pending::new();
    let mut month: Option<Month> = None;
    for n in 0..book.days() {
        let day = book.day_at(n);
        if !is_among(first, last, day) {
            continue;
        }
        let Some(summary) = summary_of(book, disk, day) else {
            return finish(&pending, ReportEnd::DiskFault, out);
        };
        if join(&mut month, day, &summary) {
            continue;
        }
        if let Put::Failed = print_month(&mut pending, &month, out) {
            return ReportEnd::WriteFault;
        }
        month = Some(Month {
            first: day,
            summary,
        });
    }
    if let Put::Failed = print_month(&mut pending, &month, out) {
        return ReportEnd::WriteFault;
    }
    finish(&pending, ReportEnd::Done, out)
}
