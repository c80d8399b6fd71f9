ghost use Rattle.std.specs.Prelude.{◌≡◌, ℕ, List, [], IfSome};
ghost use Rattle.station_base.specs.declared.row.Row as given;
ghost use Rattle.soft_record.specs.Readings.{HasReadings};

use crate::entry::Entry;
use crate::interval_end::interval_end;
use crate::open_interval::OpenInterval;
use crate::row::row_of;
use station_base::{Period, Row};

/// What became of an entry.
#[derive(Clone, Copy, Debug, PartialEq, Eq)]
pub enum Took {
    /// It is of the same interval as the entry before, or it is the first.
    Joined,
    /// It begins an interval. The row is that of the one before.
    Closed(Row),
    /// It is bad. Nothing changed.
    ///
    /// It has not `ENTRY_SIZE` bytes, or its packet is refused. Or its moment is no second of a stamp's minute, does not
    /// exceed that of the entry before, or is of an interval that ends at no stamp.
    Bad,
}

/// Makes rows of entries, one for each interval, as they come.
#[derive(Clone, Copy, Debug)]
pub struct SoftRecord {
    period: Period,
    open: Option<OpenInterval>,
}

impl SoftRecord {
    ghost use Rattle.soft_record.specs.Standing.{SoftRecordFinishes, OnClosed, SoftRecordStandsFor, TakesEntry};
    ghost use Rattle.soft_record.specs.declared.entry.Entry as heard;

    /// A record of intervals that are so long, which took no entry.
    pub fn new(period: Period) -> SoftRecord
        ensures { SoftRecordStandsFor result period [] [] }
    {
        SoftRecord { period, open: None }
    }

    /// Takes an entry: its date and time as two words, the second, and a LOOP packet. An interval is over once an entry of a
    /// later one is taken.
    pub fn take(&mut self, entry: &[u8]) -> Took
        ensures takes { (period : ℕ) (entries : List heard.Entry) (rows : List given.Row)
            → SoftRecordStandsFor self.old period entries rows
            → TakesEntry self.old period entries rows entry.now result self.new }
        ensures readings { OnClosed result HasReadings }
    {
        let Some(entry) = Entry::read(entry) else {
            return Took::Bad;
        };
        let Some(end) = interval_end(self.period, &entry) else {
            return Took::Bad;
        };
        let Some(open) = self.open else {
            self.open = Some(OpenInterval::first(end, &entry));
            return Took::Joined;
        };
        if entry.moment() <= open.last.moment() {
            return Took::Bad;
        }
        if end == open.end {
            self.open = Some(open.with(&entry));
            return Took::Joined;
        }
        self.open = Some(open.next(end, &entry));
        Took::Closed(row_of(open.end, self.period, &open.sums))
    }

    /// The row of the last entry's interval, if an entry was taken. The record is then as a new one.
    pub fn finish(&mut self) -> Option<Row>
        ensures finishes { (period : ℕ) (entries : List heard.Entry) (rows : List given.Row)
            → SoftRecordStandsFor self.old period entries rows
            → SoftRecordFinishes period entries rows result }
        ensures anew { (period : ℕ) (entries : List heard.Entry) (rows : List given.Row)
            → SoftRecordStandsFor self.old period entries rows
            → SoftRecordStandsFor self.new period [] [] }
        ensures readings { IfSome result HasReadings }
    {
        let open = self.open.take()?;
        Some(row_of(open.end, self.period, &open.sums))
    }
}
