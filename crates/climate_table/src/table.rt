ghost use Rattle.std.specs.Prelude.{◌≡◌, ◌≢◌, ◌<◌, ◌++◌, ◌∷◌, [], ℤ, IfSome, List, None};
ghost use Rattle.arrayvec.specs.ArrayVec.{array_vec_len};
ghost use Rattle.causes.specs.Cause.{Cause};
ghost use Rattle.causes.specs.Written.{Leaves, WritesPart};
ghost use Rattle.station_base.specs.DayText.{IsDayNumber};
ghost use Rattle.station_base.specs.declared.row.Row.{Row};
ghost use Rattle.weather_book.specs.Start.{IsOfADay};
ghost use Rattle.weather_reports.specs.Reported.{text_of_lines};
ghost use Rattle.weather_reports.specs.Wrote.{Prints};
ghost use Rattle.climate_table.specs.Climate.{IsOfDays};
ghost use Rattle.climate_table.specs.Degrees.{day_summary};
ghost use Rattle.climate_table.specs.Spans.{SpanGrows, SpanIsInOrder, IsSpan, ended_lines, is_begun, month_of, month_with, span_lines};
ghost use Rattle.climate_table.specs.Table.{degree_lines};

use crate::degree_days::degrees_in;
use crate::line::push_degree_line;
use crate::span::{MONTH, Span, YEAR, print_span, with_day};
use daily_summary::DaySummary;
use station_base::DayNumber;
use station_io::{Put, Sink};
use weather_reports::{PIECE, Pending, make_room};

// A table of which some days were read: those of the month that has begun, and those of the year.
#[derive(Clone, Copy)]
pub struct Table {
    pub month: Option<Span>,
    pub year: Option<Span>,
}

impl Table {
    // A table of which no day was read.
    pub fn new() -> Table
        ensures month { result.month ≡ None }
        ensures year { result.year ≡ None }
    {
        Table {
            month: None,
            year: None,
        }
    }

    // Prints the line of the month that is over, if the day begins another one, and the degree days of the day.
    pub fn print_day<K: Sink>(
        &self,
        pending: &mut Pending,
        day: DayNumber,
        summary: &DaySummary,
        out: &mut K,
    ) -> Put
        requires room { array_vec_len pending.old < PIECE }
        requires month { IfSome self.now.month SpanIsInOrder }
        requires day { IsDayNumber day.0 }
        requires summary { IsOfADay summary.now }
        ensures room { array_vec_len pending.new < PIECE }
        ensures done { result ≡ Put.Done → Leaves (K.outlet.taken out.old) (K.outlet.taken out.new)
            (pending.old.items ++ text_of_lines (ended_lines self.now.month day.0
            ++ degree_lines day.0 summary.now)) pending.new.items }
        ensures failed { result ≡ Put.Failed → WritesPart (K.outlet.taken out.old) (K.outlet.taken out.new)
            (pending.old.items ++ text_of_lines (ended_lines self.now.month day.0 ++ degree_lines day.0 summary.now)) }
        ensures wrote { Prints K.outlet result (pending.old.items ++ text_of_lines (ended_lines self.now.month day.0
            ++ degree_lines day.0 summary.now)) pending.new.items out.old out.new }
        ensures cause { Cause (K.outlet.faults out.old) (K.outlet.faults out.new) (result ≡ Put.Failed) }
        ensures still { result ≢ Put.Failed → K.outlet.faults out.new ≡ K.outlet.faults out.old }
    {
        if let Put::Failed = self.print_ended(pending, day, out) {
            return Put::Failed;
        }
        print_degrees(pending, day, summary, out)
    }

    // Adds a day, which is of the month that has begun or begins another one.
    pub fn add(&mut self, day: DayNumber, summary: &DaySummary)
        requires day { IsDayNumber day.0 }
        requires summary { IsOfADay summary.now }
        requires month { IfSome self.old.month SpanIsInOrder }
        requires year { IfSome self.old.year SpanIsInOrder }
        requires month_few { IfSome self.old.month (λ s. IsOfDays 365 s.summary) }
        requires year_few { IfSome self.old.year (λ s. IsOfDays 365 s.summary) }
        ensures month { (rows : List Row) (begun : List ℤ) → IsSpan rows begun self.old.month
            → summary.now ≡ day_summary rows day.0
            → IsSpan rows (month_with begun day.0) self.new.month }
        ensures year { (rows : List Row) (days : List ℤ) → IsSpan rows days self.old.year
            → summary.now ≡ day_summary rows day.0
            → IsSpan rows (days ++ day.0 ∷ []) self.new.year }
        ensures month_grows { IfSome self.new.month (SpanGrows (month_of self.old.month day.0) day) }
        ensures year_grows { IfSome self.new.year (SpanGrows self.old.year day) }
    {
        if !self.has_month_of(day) {
            self.month = None;
        }
        self.month = Some(with_day(&self.month, day, summary));
        self.year = Some(with_day(&self.year, day, summary));
    }

    // Prints the lines of the last month and of the year, if there are any.
    pub fn print_end<K: Sink>(&self, pending: &mut Pending, out: &mut K) -> Put
        requires room { array_vec_len pending.old < PIECE }
        requires month { IfSome self.now.month SpanIsInOrder }
        requires year { IfSome self.now.year SpanIsInOrder }
        ensures room { array_vec_len pending.new < PIECE }
        ensures done { result ≡ Put.Done → Leaves (K.outlet.taken out.old) (K.outlet.taken out.new)
            (pending.old.items ++ text_of_lines (span_lines 7 self.now.month
            ++ span_lines 4 self.now.year)) pending.new.items }
        ensures failed { result ≡ Put.Failed → WritesPart (K.outlet.taken out.old) (K.outlet.taken out.new)
            (pending.old.items ++ text_of_lines (span_lines 7 self.now.month ++ span_lines 4 self.now.year)) }
        ensures wrote { Prints K.outlet result (pending.old.items ++ text_of_lines (span_lines 7 self.now.month
            ++ span_lines 4 self.now.year)) pending.new.items out.old out.new }
        ensures cause { Cause (K.outlet.faults out.old) (K.outlet.faults out.new) (result ≡ Put.Failed) }
        ensures still { result ≢ Put.Failed → K.outlet.faults out.new ≡ K.outlet.faults out.old }
    {
        if let Put::Failed = print_span(pending, &self.month, MONTH, out) {
            return Put::Failed;
        }
        print_span(pending, &self.year, YEAR, out)
    }

    // Whether the day is of the month that has begun.
    fn has_month_of(&self, day: DayNumber) -> bool
        requires month { IfSome self.now.month SpanIsInOrder }
        requires day { IsDayNumber day.0 }
        ensures { result ≡ is_begun self.now.month day.0 }
    {
        match &self.month {
            Some(span) => span.has_month_of(day),
            None => false,
        }
    }

    // Prints the line of the month that is over, if the day begins another one.
    fn print_ended<K: Sink>(&self, pending: &mut Pending, day: DayNumber, out: &mut K) -> Put
        requires room { array_vec_len pending.old < PIECE }
        requires month { IfSome self.now.month SpanIsInOrder }
        requires day { IsDayNumber day.0 }
        ensures room { array_vec_len pending.new < PIECE }
        ensures done { result ≡ Put.Done → Leaves (K.outlet.taken out.old) (K.outlet.taken out.new)
            (pending.old.items ++ text_of_lines (ended_lines self.now.month day.0)) pending.new.items }
        ensures failed { result ≡ Put.Failed → WritesPart (K.outlet.taken out.old) (K.outlet.taken out.new)
            (pending.old.items ++ text_of_lines (ended_lines self.now.month day.0)) }
        ensures wrote { Prints K.outlet result (pending.old.items
            ++ text_of_lines (ended_lines self.now.month day.0)) pending.new.items out.old out.new }
        ensures cause { Cause (K.outlet.faults out.old) (K.outlet.faults out.new) (result ≡ Put.Failed) }
        ensures still { result ≢ Put.Failed → K.outlet.faults out.new ≡ K.outlet.faults out.old }
    {
        if self.has_month_of(day) {
            return Put::Done;
        }
        print_span(pending, &self.month, MONTH, out)
    }
}

// Prints the degree days of a day, if its rows have an outside temperature.
fn print_degrees<K: Sink>(
    pending: &mut Pending,
    day: DayNumber,
    summary: &DaySummary,
    out: &mut K,
) -> Put
    requires room { array_vec_len pending.old < PIECE }
    requires day { IsDayNumber day.0 }
    requires summary { IsOfADay summary.now }
    ensures room { array_vec_len pending.new < PIECE }
    ensures done { result ≡ Put.Done → Leaves (K.outlet.taken out.old) (K.outlet.taken out.new)
        (pending.old.items ++ text_of_lines (degree_lines day.0 summary.now)) pending.new.items }
    ensures failed { result ≡ Put.Failed → WritesPart (K.outlet.taken out.old) (K.outlet.taken out.new)
        (pending.old.items ++ text_of_lines (degree_lines day.0 summary.now)) }
    ensures wrote { Prints K.outlet result (pending.old.items
        ++ text_of_lines (degree_lines day.0 summary.now)) pending.new.items out.old out.new }
    ensures cause { Cause (K.outlet.faults out.old) (K.outlet.faults out.new) (result ≡ Put.Failed) }
    ensures still { result ≢ Put.Failed → K.outlet.faults out.new ≡ K.outlet.faults out.old }
{
    match degrees_in(summary) {
        Some(degrees) => {
            push_degree_line(pending, day, &degrees);
            make_room(pending, out)
        }
        None => Put::Done,
    }
}
