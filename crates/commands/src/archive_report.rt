ghost use Rattle.commands.specs.ReportLines.{lines_wanted};
ghost use Rattle.weather_reports.specs.Made.{MakesReport};

use climate_table::climate;
use command_words::{ReportKind, Wanted};
use disk_model::Disk;
use station_io::Sink;
use weather_book::Book;
use weather_reports::{ReportEnd, day_table, listing, month_table};

/// A report over the rows of an archive.
#[derive(Clone, Copy, Debug)]
pub enum ArchiveReport {
    /// The rows of some days, or what they come to by days or by months.
    OfDays(Wanted),
    /// The climate table of a year, from 1999 to 2127.
    Climate(u16),
}

impl ArchiveReport {
    ghost use Rattle.commands.specs.ArchiveReport.{ReportCanBeMade, lines_of_report};

    // Writes its lines.
    pub fn write<D: Disk, K: Sink>(&self, book: &Book, disk: &mut D, out: &mut K) -> ReportEnd
        requires { ReportCanBeMade self.now }
        ensures { MakesReport K.outlet D.medium book.now (lines_of_report self.now) result
            disk.old disk.new out.old out.new }
    {
        match self {
            ArchiveReport::OfDays(wanted) => write_wanted(book, wanted, disk, out),
            ArchiveReport::Climate(year) => climate(book, disk, out, *year),
        }
    }
}

// Writes the lines of these days that are asked for.
fn write_wanted<D: Disk, K: Sink>(
    book: &Book,
    wanted: &Wanted,
    disk: &mut D,
    out: &mut K,
) -> ReportEnd
    ensures { MakesReport K.outlet D.medium book.now (lines_wanted wanted.now) result
        disk.old disk.new out.old out.new }
{
    let (first, last) = (wanted.first, wanted.last);
    match wanted.kind {
        ReportKind::Rows => listing(book, disk, out, first, last),
        ReportKind::Days => day_table(book, disk, out, first, last),
        ReportKind::Months => month_table(book, disk, out, first, last),
    }
}
