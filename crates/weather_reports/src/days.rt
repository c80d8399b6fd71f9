ghost use Rattle.std.specs.Prelude.{◌≡◌, ◌++◌, List, Some, None, IfSome, is_none, ◌+◌, ◌*◌, codes};
ghost use Rattle.causes.specs.Told.{WhereTold};
ghost use Rattle.disk_model.specs.Disk.{Faults, Stays};
ghost use Rattle.station_base.specs.DayText.{IsDayNumber, day_text};
ghost use Rattle.station_base.specs.declared.row.Row.{Row};
ghost use Rattle.daily_summary.specs.Summary.{rows_of_day, summary_of};
ghost use Rattle.gated_log.specs.Calls.{Looked};
ghost use Rattle.gated_log.specs.Layout.{slot_size};
ghost use Rattle.weather_book.specs.Book.{BookStandsFor};
ghost use Rattle.packed_rows.specs.Rows.{slot_total};
ghost use Rattle.weather_book.specs.Stands.{StandsToReadOn};
ghost use Rattle.weather_book.specs.Start.{IsOfADay};
ghost use Rattle.weather_reports.specs.Report.{is_among};

use daily_summary::DaySummary;
use disk_model::Disk;
use station_base::DayNumber;
use weather_book::{Book, DayAnswer};

// What each line of a day begins with.
const DAY_HEAD: usize = 14;

// Whether the day is one from the first to the last.
pub fn is_among(first: DayNumber, last: DayNumber, day: DayNumber) -> bool
    ensures { result ≡ is_among first last day.0 }
{
    first <= day && day <= last
}

/// What the rows of a day come to, which is nothing where the book has none of it. None where a call of the disk failed.
pub fn summary_of<D: Disk>(book: &Book, disk: &mut D, day: DayNumber) -> Option<DaySummary>
    ensures summary { IfSome result (λ s. (rows : List Row) → StandsToReadOn D.medium book.now disk.old rows
        → WhereTold (D.medium.seen disk.old) (λ _. s ≡ summary_of (rows_of_day day.0 rows))) }
    ensures bounds { IfSome result IsOfADay }
    ensures stays { Stays D.medium disk.old disk.new }
    ensures cause { Faults D.medium disk.old disk.new (result ≡ None) }
    ensures went { (rows : List Row) → BookStandsFor book.now rows
        → Looked D.medium (slot_size * (slot_total rows + 1)) (is_none result) disk.old disk.new }
{
    match book.day(disk, day) {
        DayAnswer::Summary(summary) => Some(summary),
        DayAnswer::NoRows => Some(DaySummary::new()),
        DayAnswer::DiskFault => None,
    }
}

// `day YYYY-MM-DD`.
pub fn day_head(day: DayNumber) -> [u8; DAY_HEAD]
    requires { IsDayNumber day.0 }
    ensures { result ≡ codes "day " ++ day_text day.0 }
{
    let mut head = *b"day YYYY-MM-DD";
    head[4..].copy_from_slice(&day.text());
    head
}
