ghost use Rattle.std.specs.Prelude.{◌≡◌, ◌≢◌, ◌<◌, ◌≤◌, ◌+◌, ◌++◌, ◌∷◌, [], ℤ, List, IfSome, Some, true, false, bytes_eq, codes};
ghost use Rattle.arrayvec.specs.ArrayVec.{array_vec_len};
ghost use Rattle.causes.specs.Cause.{Cause};
ghost use Rattle.causes.specs.Written.{Leaves, WritesPart};
ghost use Rattle.station_base.specs.DayText.{IsDayNumber};
ghost use Rattle.daily_summary.specs.Bounds.{IsInBounds};
ghost use Rattle.station_base.specs.declared.row.Row.{Row};
ghost use Rattle.daily_summary.specs.Summary.{rows_of_day, summary_of};
ghost use Rattle.weather_reports.specs.Begun.{MonthGrows, MonthIsBegun, MonthIsInOrder, begun_lines};
ghost use Rattle.weather_reports.specs.Months.{is_of_month, month_text};
ghost use Rattle.weather_reports.specs.Reported.{text_of_lines};
ghost use Rattle.weather_reports.specs.Wrote.{Prints};
ghost use Rattle.station_base.specs.Limits.{most_rows};

use crate::line::{PIECE, Pending};
use crate::printing::print_sums;
use daily_summary::DaySummary;
use station_base::DayNumber;
use station_io::{Put, Sink};

// The bytes of `YYYY-MM`.
const MONTH: usize = 7;

// What each line of a month begins with.
const MONTH_HEAD: usize = 13;

// The days of a month that were read: the first of them, and what the rows of all come to.
#[derive(Clone, Copy)]
pub struct Month {
    pub first: DayNumber,
    pub summary: DaySummary,
}

impl Month {
    // Whether the day is of the same month.
    pub fn has(&self, day: DayNumber) -> bool
        requires first { IsDayNumber self.now.first.0 }
        requires day { IsDayNumber day.0 }
        ensures { result ≡ bytes_eq (month_text self.now.first.0) (month_text day.0) }
    {
        self.first.text()[..MONTH] == day.text()[..MONTH]
    }

    // `month YYYY-MM`.
    fn head(&self) -> [u8; MONTH_HEAD]
        requires { IsDayNumber self.now.first.0 }
        ensures { result ≡ codes "month " ++ month_text self.now.first.0 }
    {
        let mut head = *b"month YYYY-MM";
        head[6..].copy_from_slice(&self.first.text()[..MONTH]);
        head
    }
}

// Adds what the rows of a day come to, where the day is of the month that has begun, and answers whether it is.
pub fn join(month: &mut Option<Month>, day: DayNumber, summary: &DaySummary) -> bool
    requires day { IsDayNumber day.0 }
    requires month { IfSome month.old MonthIsInOrder }
    requires summary { IsInBounds summary.now }
    requires few { IfSome month.old (λ m. month_text m.first.0 ≡ month_text day.0
        → m.summary.rows + summary.now.rows ≤ most_rows) }
    ensures month { IfSome month.new MonthIsInOrder }
    ensures joined { result ≡ true → (rows : List Row) (begun : List ℤ) → MonthIsBegun rows begun month.old
        → summary.now ≡ summary_of (rows_of_day day.0 rows)
        → (is_of_month begun day.0 ≡ true) × MonthIsBegun rows (begun ++ day.0 ∷ []) month.new }
    ensures grown { result ≡ true → IfSome month.new (MonthGrows summary.now.rows month.old) }
    ensures apart { result ≡ false → (month.new ≡ month.old)
        × ((rows : List Row) (begun : List ℤ) → MonthIsBegun rows begun month.old → is_of_month begun day.0 ≡ false) }
{
    let Some(mut begun) = *month else {
        return false;
    };
    if !begun.has(day) {
        return false;
    }
    begun.summary.merge(summary);
    *month = Some(begun);
    true
}

// Prints the lines of a month that has begun, if one has.
pub fn print_month<K: Sink>(pending: &mut Pending, month: &Option<Month>, out: &mut K) -> Put
    requires room { array_vec_len pending.old < PIECE }
    requires day { IfSome month.now (λ m. IsDayNumber m.first.0) }
    ensures room { array_vec_len pending.new < PIECE }
    ensures done { result ≡ Put.Done → Leaves (K.outlet.taken out.old) (K.outlet.taken out.new)
        (pending.old.items ++ text_of_lines (begun_lines month.now)) pending.new.items }
    ensures failed { result ≡ Put.Failed → WritesPart (K.outlet.taken out.old) (K.outlet.taken out.new)
        (pending.old.items ++ text_of_lines (begun_lines month.now)) }
    ensures wrote { Prints K.outlet result (pending.old.items
        ++ text_of_lines (begun_lines month.now)) pending.new.items out.old out.new }
    ensures cause { Cause (K.outlet.faults out.old) (K.outlet.faults out.new) (result ≡ Put.Failed) }
    ensures still { result ≢ Put.Failed → K.outlet.faults out.new ≡ K.outlet.faults out.old }
{
    match month {
        Some(month) => print_sums(pending, &month.head(), &month.summary.fields, out),
        None => Put::Done,
    }
}
