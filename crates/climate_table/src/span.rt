ghost use Rattle.std.specs.Prelude.{◌≡◌, ◌≢◌, ◌≤◌, ◌<◌, ◌++◌, ◌∷◌, [], ℤ, IfSome, List, Some, bytes_eq};
ghost use Rattle.arrayvec.specs.ArrayVec.{array_vec_len};
ghost use Rattle.causes.specs.Cause.{Cause};
ghost use Rattle.causes.specs.Written.{Leaves, WritesPart};
ghost use Rattle.station_base.specs.DayText.{IsDayNumber};
ghost use Rattle.station_base.specs.declared.row.Row.{Row};
ghost use Rattle.weather_book.specs.Start.{IsOfADay};
ghost use Rattle.weather_reports.specs.Months.{month_text};
ghost use Rattle.weather_reports.specs.Reported.{text_of_lines};
ghost use Rattle.weather_reports.specs.Wrote.{Prints};
ghost use Rattle.climate_table.specs.Climate.{IsOfDays};
ghost use Rattle.climate_table.specs.Degrees.{day_summary};
ghost use Rattle.climate_table.specs.Spans.{SpanGrows, SpanIsInOrder, IsSpan, span_lines};

use crate::climate_summary::ClimateSummary;
use crate::line::push_climate_line;
use daily_summary::DaySummary;
use station_base::DayNumber;
use station_io::{Put, Sink};
use weather_reports::{PIECE, Pending, make_room};

// How many bytes of a day's text name its year, and its month.
pub const YEAR: usize = 4;

pub const MONTH: usize = 7;

// The days of a month or of a year that were read.
#[derive(Clone, Copy)]
pub struct Span {
    // The first of them.
    pub first: DayNumber,
    // Their totals.
    pub summary: ClimateSummary,
}

impl Span {
    // Whether the day is of the same month.
    pub fn has_month_of(&self, day: DayNumber) -> bool
        requires first { IsDayNumber self.now.first.0 }
        requires day { IsDayNumber day.0 }
        ensures { result ≡ bytes_eq (month_text self.now.first.0) (month_text day.0) }
    {
        self.first.text()[..MONTH] == day.text()[..MONTH]
    }
}

// The days of a span and one more, or this day as the first.
pub fn with_day(span: &Option<Span>, day: DayNumber, summary: &DaySummary) -> Span
    requires order { IfSome span.now SpanIsInOrder }
    requires few { IfSome span.now (λ s. IsOfDays 365 s.summary) }
    requires summary { IsOfADay summary.now }
    ensures span { (rows : List Row) (days : List ℤ) → IsSpan rows days span.now → summary.now ≡ day_summary rows day.0
        → IsSpan rows (days ++ day.0 ∷ []) (Some result) }
    ensures grows { SpanGrows span.now day result }
{
    let mut grown = match span {
        Some(span) => *span,
        None => Span {
            first: day,
            summary: ClimateSummary::new(),
        },
    };
    grown.summary.add(summary);
    grown
}

// Prints the line of a span, if one has begun. So many bytes of the text of its first day name it.
pub fn print_span<K: Sink>(
    pending: &mut Pending,
    span: &Option<Span>,
    size: usize,
    out: &mut K,
) -> Put
    requires room { array_vec_len pending.old < PIECE }
    requires size { size ≤ MONTH }
    requires order { IfSome span.now SpanIsInOrder }
    ensures room { array_vec_len pending.new < PIECE }
    ensures done { result ≡ Put.Done → Leaves (K.outlet.taken out.old) (K.outlet.taken out.new)
        (pending.old.items ++ text_of_lines (span_lines size span.now)) pending.new.items }
    ensures failed { result ≡ Put.Failed → WritesPart (K.outlet.taken out.old) (K.outlet.taken out.new)
        (pending.old.items ++ text_of_lines (span_lines size span.now)) }
    ensures wrote { Prints K.outlet result (pending.old.items
        ++ text_of_lines (span_lines size span.now)) pending.new.items out.old out.new }
    ensures cause { Cause (K.outlet.faults out.old) (K.outlet.faults out.new) (result ≡ Put.Failed) }
    ensures still { result ≢ Put.Failed → K.outlet.faults out.new ≡ K.outlet.faults out.old }
{
    match span {
        Some(span) => {
            push_climate_line(pending, &span.first.text()[..size], &span.summary);
            make_room(pending, out)
        }
        None => Put::Done,
    }
}
