ghost use Rattle.std.specs.Prelude.{slice_index_or, ◌≡◌, ◌<◌, ◌≤◌, ◌+◌, ◌^◌, ◌++◌, [], ◌∷◌, List, All, true, IfOk, IsOk, Some, pos, ◌||◌, ◌==◌, length, vec_len, vec_capacity, ◌-◌, ◌*◌, take, count_by, int_lt, int_le, min, ℕ};
ghost use Rattle.station_base.specs.CivilMinute.{archive_day_of};
ghost use Rattle.station_base.specs.DayText.{IsDayNumber};
ghost use Rattle.station_base.specs.RowLine.{IsPrintable};
ghost use Rattle.station_base.specs.declared.row.Row.{Row};
ghost use Rattle.packed_rows.specs.Closing.{begins_day};
ghost use Rattle.packed_rows.specs.Days.{days_of, day_rest, is_before, is_up_to};
ghost use Rattle.weather_book.specs.Kept.{KeepsOf};
ghost use Rattle.packed_rows.specs.Packed.{IsReadBack, AreReadBack};
ghost use Rattle.packed_rows.specs.Rising.{stamp_exceeds, rows_rise, last_stamp_after};
ghost use Rattle.packed_rows.specs.Rows.{slot_total};
ghost use Rattle.daily_summary.specs.Parts.{part_count};

use causes::OutOfMemory;
use daily_summary::PART_COUNT;
use packed_rows::Tail;
use station_base::{DayNumber, Row};
use std::alloc::Global;

// A day that has rows, and the number of the first of them.
#[derive(Clone, Copy, Debug, PartialEq, Eq)]
pub(crate) struct DayEntry {
    pub day: DayNumber,
    pub first: u64,
}

// What a book keeps of its rows: their days, their number and their end.
#[derive(Debug, Drop)]
pub(crate) struct Kept {
    pub days: Vec<DayEntry>,
    pub count: u64,
    pub tail: Tail,
    ghost some: { ∥ ((rows : List Row) × KeepsOf days.items count tail rows) ∥₁ },
}

impl Kept {
    // Of no rows.
    pub fn new(alloc: Global) -> Kept
        ensures keeps { KeepsOf result.days.items result.count result.tail [] }
    {
        Kept {
            days: Vec::new(alloc),
            count: 0,
            tail: Tail::new(),
        }
    }

    // Whether the row is the first of its day.
    fn begins_entry(&self, row: &Row) -> bool
        ensures begins { result ≡ (begins_day self.now.tail.last row.now.stamp || (self.now.count == 0)) }
        ensures range { IsDayNumber (pos (archive_day_of row.now.stamp)) }
    {
        self.tail.begins_day(&row.stamp) || self.count == 0
    }

    // One row more.
    pub fn push(&mut self, row: &Row) -> Result<(), OutOfMemory>
        requires rises { stamp_exceeds self.old.tail.last row.now.stamp ≡ true }
        requires printable { All IsPrintable row.now.values }
        requires back { IsReadBack row.now }
        requires room { self.old.count + 1 < 2 ^ 64 }
        ensures keeps { IfOk result (λ _. (rows : List Row)
            → KeepsOf self.old.days.items self.old.count self.old.tail rows
            → KeepsOf self.new.days.items self.new.count self.new.tail (rows ++ row.now ∷ [])) }
        ensures count { IfOk result (λ _. self.new.count ≡ self.old.count + 1) }
        ensures more { self.new.count ≤ self.old.count + 1 }
        ensures capacity { vec_capacity self.old.days ≤ vec_capacity self.new.days }
        ensures grew { vec_len self.new.days ≤ vec_len self.old.days + 1 }
        ensures last { IfOk result (λ _. self.new.tail.last ≡ Some row.now.stamp) }
        ensures spare { vec_len self.old.days < vec_capacity self.old.days → IsOk result }
    {
        let begins = self.begins_entry(row);
        if begins {
            let entry = DayEntry {
                day: row.stamp.archive_day(),
                first: self.count,
            };
            match self.days.push(entry) {
                Ok(()) => {}
                Err(_) => return Err(OutOfMemory),
            }
        }
        self.tail.push(row);
        self.count += 1;
        Ok(())
    }

    // The number of the first row of an entry, and of all rows where there is none.
    fn first_at(&self, index: usize) -> u64
        ensures there { (d : DayEntry) → index < vec_len self.now.days
            → result ≡ (slice_index_or self.now.days.items index d).first }
        ensures past { vec_len self.now.days ≤ index → result ≡ self.now.count }
    {
        match self.days.get(index) {
            Some(entry) => entry.first,
            None => self.count,
        }
    }

    // How many rows are of days before this one.
    pub fn rows_before(&self, day: DayNumber) -> u64
        ensures { (rows : List Row) → KeepsOf self.now.days.items self.now.count self.now.tail rows
            → result ≡ count_by (is_before day) rows }
    {
        let index = self.days.partition_point(|entry| is_before(entry.day, day));
        self.first_at(index)
    }

    // How many rows are of days up to this one.
    pub fn rows_to(&self, day: DayNumber) -> u64
        ensures { (rows : List Row) → KeepsOf self.now.days.items self.now.count self.now.tail rows
            → result ≡ count_by (is_up_to day) rows }
    {
        let index = self.days.partition_point(|entry| is_up_to(entry.day, day));
        self.first_at(index)
    }

    // How many days have begun when row `n` stands.
    pub fn days_begun(&self, n: u64) -> u64
        requires { n < self.now.count }
        ensures rows { (rows : List Row) → KeepsOf self.now.days.items self.now.count self.now.tail rows
            → result ≡ length (days_of (take (n + 1) rows)) }
        ensures most { result ≤ vec_len self.now.days }
    {
        self.days.partition_point(|entry| entry.first <= n) as u64
    }

    // The number of the row behind the last of row `n`'s day.
    pub fn day_end(&self, n: u64) -> u64
        requires { n < self.now.count }
        ensures rest { (rows : List Row) → KeepsOf self.now.days.items self.now.count self.now.tail rows
            → result ≡ n + length (day_rest rows n) }
        ensures within { (n < result) × (result ≤ self.now.count) }
    {
        let index = self.days.partition_point(|entry| entry.first <= n);
        self.first_at(index)
    }

    // How many rows from row `n` on one read brings.
    pub fn rest(&self, n: u64) -> usize
        requires { n < self.now.count }
        ensures rows { (rows : List Row) → KeepsOf self.now.days.items self.now.count self.now.tail rows
            → result ≡ min 16 (length (day_rest rows n)) }
        ensures some { 1 ≤ result }
        ensures most { result ≤ 16 }
        ensures within { n + result ≤ self.now.count }
        ensures place { (rows : List Row) → KeepsOf self.now.days.items self.now.count self.now.tail rows
            → (k : ℕ) → k < result → slot_total (take (n + k + 1) rows) ≡ slot_total (take (n + 1) rows) + k }
    {
        let left = self.day_end(n) - n;
        if left < 16 { left as usize } else { 16 }
    }

    // The number of the slot of row `n`.
    pub fn place(&self, n: u64) -> u64
        requires within { n < self.now.count }
        requires room { self.now.count + part_count * (vec_len self.now.days - 1) < 2 ^ 64 }
        ensures rows { (rows : List Row) → KeepsOf self.now.days.items self.now.count self.now.tail rows
            → result + 1 ≡ slot_total (take (n + 1) rows) }
        ensures within { result ≤ n + part_count * (vec_len self.now.days - 1) }
    {
        n + PART_COUNT as u64 * self.days_begun(n).saturating_sub(1)
    }
}

// Whether the day comes before the other.
fn is_before(day: DayNumber, other: DayNumber) -> bool
    ensures { result ≡ int_lt day.0 other.0 }
{
    day.0 < other.0
}

// Whether the day comes before the other or is it.
fn is_up_to(day: DayNumber, other: DayNumber) -> bool
    ensures { result ≡ int_le day.0 other.0 }
{
    day.0 <= other.0
}

// All of these rows more, for which there is room.
pub(crate) fn push_all(kept: &mut Kept, rows: &[Row])
    requires rising { rows_rise kept.old.tail.last rows.now ≡ true }
    requires printable { All (λ row. All IsPrintable row.values) rows.now }
    requires back { AreReadBack rows.now }
    requires room { kept.old.count + length rows.now < 2 ^ 64 }
    requires spare { length rows.now ≤ vec_capacity kept.old.days - vec_len kept.old.days }
    ensures keeps { (before : List Row) → KeepsOf kept.old.days.items kept.old.count kept.old.tail before
        → KeepsOf kept.new.days.items kept.new.count kept.new.tail (before ++ rows.now) }
    ensures spare { vec_capacity kept.old.days - vec_len kept.old.days
        ≤ vec_capacity kept.new.days - vec_len kept.new.days + length rows.now }
    ensures count { kept.new.count ≡ kept.old.count + length rows.now }
    ensures last { kept.new.tail.last ≡ last_stamp_after kept.old.tail.last rows.now }
{
    for row in rows {
        match kept.push(row) {
            Ok(()) => {}
            Err(_) => unreachable!(),
        }
    }
}
