ghost use Rattle.std.specs.Prelude.{◌≡◌, ◌+◌, ◌*◌, ◌≤◌, ◌<◌, ◌++◌, [], ◌∷◌, All, List, None, Some};
ghost use Rattle.station_base.specs.Period.{IsPeriod};
ghost use Rattle.station_base.specs.RowLine.{IsPrintable};
ghost use Rattle.station_base.specs.declared.row.Row.{Row};
ghost use Rattle.daily_summary.specs.Bounds.{IsInBounds};
ghost use Rattle.daily_summary.specs.Joined.{sum_of_row, sum_of_value};
ghost use Rattle.daily_summary.specs.Running.{AreRunning, HasOneMore, FieldHasRoom, IsRunning, IsUnmeasured, running_sum, running_summary};
ghost use Rattle.daily_summary.specs.Summary.{summary_of};
ghost use Rattle.station_base.specs.Limits.{most_rows};

use crate::field_sum::{FieldSum, keep_greatest, keep_least};
use crate::summary::DaySummary;
use station_base::{FIELD_COUNT, Row, Stamp};

const SECONDS_OF_MINUTE: u32 = 60;

/// What the values of one field come to while rows are added. It counts the rows without a value, which are few.
#[derive(Clone, Copy, Debug)]
pub struct RunningField {
    /// The sum of the values, each times the seconds of its row's interval.
    pub wsum: i64,
    /// The least value, or the greatest number of 32 bits where there is none.
    pub least: i32,
    /// The greatest value, or the least number of 32 bits where there is none.
    pub greatest: i32,
    /// The earliest stamp that has the least value.
    pub least_at: Stamp,
    /// The earliest stamp that has the greatest value.
    pub greatest_at: Stamp,
    /// How many rows have no value.
    pub missing: u32,
    /// The sum of the values.
    pub sum: i64,
    /// The sum of the seconds of the intervals of the rows without a value.
    pub missing_seconds: u64,
}

/// What rows come to in each field while rows are added. The rows and their seconds are counted once for all fields.
#[derive(Clone, Copy, Debug)]
pub struct RunningSummary {
    /// Each field by its number.
    pub fields: [RunningField; FIELD_COUNT],
    /// How many rows there are.
    pub rows: u32,
    /// The sum of the seconds of their intervals.
    pub seconds: u64,
}

impl RunningField {
    // The field of no rows.
    fn unmeasured() -> RunningField
        ensures { IsUnmeasured 0 0 result }
    {
        RunningField {
            least: i32::MAX,
            greatest: i32::MIN,
            least_at: Stamp::first(),
            greatest_at: Stamp::first(),
            missing: 0,
            sum: 0,
            wsum: 0,
            missing_seconds: 0,
        }
    }

    // Adds a row, which weighs so many seconds, with its value of the field, if it has one.
    fn add(&mut self, row: &Row, seconds: u32, value: Option<i32>)
        requires seconds { seconds ≡ 60 * row.now.interval }
        requires period { IsPeriod row.now.interval }
        requires room { FieldHasRoom self.old }
        requires printable { IsPrintable value }
        ensures { HasOneMore seconds (sum_of_value row.now value) self.old self.new }
    {
        match value {
            Some(value) => self.push(row, seconds, value),
            None => self.miss(seconds),
        }
    }

    // Adds a value of a row that weighs so many seconds.
    fn push(&mut self, row: &Row, seconds: u32, value: i32)
        requires seconds { seconds ≡ 60 * row.now.interval }
        requires period { IsPeriod row.now.interval }
        requires room { FieldHasRoom self.old }
        requires printable { IsPrintable (Some value) }
        ensures { HasOneMore seconds (Some (sum_of_row row.now value)) self.old self.new }
    {
        keep_least(&mut self.least, &mut self.least_at, value, &row.stamp);
        keep_greatest(&mut self.greatest, &mut self.greatest_at, value, &row.stamp);
        self.sum += i64::from(value);
        self.wsum += i64::from(value) * i64::from(seconds);
    }

    // Counts a row of so many seconds that has no value.
    fn miss(&mut self, seconds: u32)
        requires long { seconds ≤ 7200 }
        requires room { FieldHasRoom self.old }
        ensures { HasOneMore seconds None self.old self.new }
    {
        self.missing += 1;
        self.missing_seconds += u64::from(seconds);
    }

    // What the values come to, if one of so many rows of so many seconds has one.
    pub(crate) fn sum(&self, rows: u32, seconds: u64) -> Option<FieldSum>
        requires { IsRunning rows seconds self.now }
        ensures { result ≡ running_sum rows seconds self.now }
    {
        if self.missing >= rows {
            return None;
        }
        Some(FieldSum {
            wsum: self.wsum,
            least: self.least,
            least_at: self.least_at,
            greatest: self.greatest,
            greatest_at: self.greatest_at,
            sum: self.sum,
            count: rows - self.missing,
            sumtime: seconds - self.missing_seconds,
        })
    }
}

impl RunningSummary {
    /// The summary of no rows.
    #[tactic(auto, unfolding(crate::specs::Summary::summary_of))]
    pub fn new() -> RunningSummary
        ensures summary { running_summary result ≡ summary_of [] }
        ensures running { AreRunning result }
    {
        RunningSummary {
            fields: [RunningField::unmeasured(); FIELD_COUNT],
            rows: 0,
            seconds: 0,
        }
    }

    /// Adds a row behind those that were added. A value weighs as many seconds as the row's interval has, and a missing
    /// one does not count. Of equal extremes the first is kept.
    pub fn add(&mut self, row: &Row)
        requires running { AreRunning self.old }
        requires fewer { self.old.rows < most_rows }
        requires printable { All IsPrintable row.now.values }
        ensures summary { (rows : List Row) → running_summary self.old ≡ summary_of rows
            → running_summary self.new ≡ summary_of (rows ++ row.now ∷ []) }
        ensures running { AreRunning self.new }
        ensures rows { self.new.rows ≡ self.old.rows + 1 }
    {
        let seconds = SECONDS_OF_MINUTE * u32::from(row.interval.minutes());
        for (field, value) in row.values.iter().enumerate() {
            self.fields[field].add(row, seconds, *value);
        }
        self.rows += 1;
        self.seconds += u64::from(seconds);
    }

    /// The summary of the rows that were added.
    pub fn summary(&self) -> DaySummary
        requires { AreRunning self.now }
        ensures summary { result ≡ running_summary self.now }
        ensures bounds { IsInBounds result }
    {
        let mut fields = [None; FIELD_COUNT];
        for (field, running) in self.fields.iter().enumerate() {
            fields[field] = running.sum(self.rows, self.seconds);
        }
        DaySummary {
            fields,
            rows: self.rows,
        }
    }
}
