ghost use Rattle.std.specs.Prelude.{◌≡◌};
ghost use Rattle.std.specs.Int.{IsInRange};
ghost use Rattle.station_base.specs.DayText.{IsDayNumber};
ghost use Rattle.weather_reports.specs.Made.{MakesReport};
ghost use Rattle.climate_table.specs.Table.{is_of_year, table_lines};

use crate::span::YEAR;
use crate::table::Table;
use disk_model::Disk;
use itoa::Buffer;
use station_base::DayNumber;
use station_io::{Put, Sink};
use weather_book::Book;
use weather_reports::{Pending, ReportEnd, finish, summary_of};

/// Writes the table of a year from 1999 to 2127: the degree days of each of its days that has an outside temperature, after
/// the days of each month its totals, and after all months those of the year. A day takes one read.
///
/// `DiskFault` is reported where a read failed, and `WriteFault` where a write did.
pub fn climate<D: Disk, K: Sink>(book: &Book, disk: &mut D, out: &mut K, year: u16) -> ReportEnd
    requires { IsInRange 1999 2127 year }
    ensures { MakesReport K.outlet D.medium book.now (table_lines year) result disk.old disk.new out.old out.new }
{
    let mut pending = Pending::new();
    let mut table = Table::new();
    for n in 0..book.days() {
        let day = book.day_at(n);
        if !is_of_year(year, day) {
            continue;
        }
        let Some(summary) = summary_of(book, disk, day) else {
            return finish(&pending, ReportEnd::DiskFault, out);
        };
        if let Put::Failed = table.print_day(&mut pending, day, &summary, out) {
            return ReportEnd::WriteFault;
        }
        table.add(day, &summary);
    }
    if let Put::Failed = table.print_end(&mut pending, out) {
        return ReportEnd::WriteFault;
    }
    finish(&pending, ReportEnd::Done, out)
}

// Whether the day is of this year.
fn is_of_year(year: u16, day: DayNumber) -> bool
    requires { IsDayNumber day.0 }
    ensures { result ≡ is_of_year year day.0 }
{
    let mut digits = Buffer::new();
    let text = day.text();
    &text[..YEAR] == digits.format(year).as_bytes()
}
