ghost use Rattle.std.specs.Prelude.{◌≡◌, ◌<◌, ◌≤◌, ◌+◌, ◌++◌, [], ◌∷◌, List, All, IsTrue, ℕ, true, false, length, Some, pos};
ghost use Rattle.station_base.specs.CivilMinute.{archive_day_of};
ghost use Rattle.station_base.specs.DayText.{IsDayNumber};
ghost use Rattle.station_base.specs.RowLine.{IsPrintable};
ghost use Rattle.station_base.specs.declared.row.Row.{Row};
ghost use Rattle.daily_summary.specs.Running.{AreRunning, running_summary};
ghost use Rattle.daily_summary.specs.Summary.{summary_of};
ghost use Rattle.packed_rows.specs.Closing.{begins_day, closings, closing_slot, last_day, summary_slot};
ghost use Rattle.packed_rows.specs.Packed.{IsReadBack};
ghost use Rattle.packed_rows.specs.Rising.{stamp_exceeds, last_row_stamp};
ghost use Rattle.packed_rows.specs.Rows.{may_follow, is_closing, is_known, as_read};
ghost use Rattle.daily_summary.specs.Parts.{part_count};
ghost use Rattle.packed_rows.specs.Into.{minutes_into};
ghost use Rattle.std.proofs.Props.{props};

use byteorder::{ByteOrder, LittleEndian};
use daily_summary::{PART_COUNT, PART_SIZE, RunningSummary};
use gated_log::{SLOT_SIZE, Version, without_marks};
use station_base::{DayNumber, Row, Stamp};

/// How many summary slots close a day.
pub const CLOSING: u8 = PART_COUNT as u8;

/// Where the part of a summary stands in its slot.
pub const PART: usize = 24;

/// The end of a book's rows: the stamp of the last one, and the summary of its day.
#[derive(Clone, Copy, Debug)]
pub struct Tail {
    pub last: Option<Stamp>,
    pub running: RunningSummary,
    // Bounds that keep the sums from running over: no promise speaks of them.
    ghost bounds: { AreRunning running } by { Prim.hlevel props },
    ghost few: { running.rows ≤ minutes_into last },
}

/// What a slot is, by what stands before it.
pub enum Judged {
    // A row that may stand there.
    Row,
    // The next of the slots that close the last row's day.
    Closing,
    // Neither.
    Wrong,
}

impl Tail {
    ghost use Rattle.packed_rows.specs.Tail.{EndsRows, Judges, OnRowJudged};

    /// Where no row stands.
    pub fn new() -> Tail
        ensures { EndsRows result [] }
    {
        Tail {
            last: None,
            running: RunningSummary::new(),
        }
    }

    /// Whether a row of this stamp begins a later day than the last row's.
    pub fn begins_day(&self, stamp: &Stamp) -> bool
        ensures begins { result ≡ begins_day self.now.last stamp.now }
        ensures range { IsDayNumber (pos (archive_day_of stamp.now)) }
        ensures some { 1 ≤ minutes_into (Some stamp.now) }
    {
        let is_midnight = stamp.is_midnight();
        let Some(last) = &self.last else {
            return false;
        };
        if last.has_date_of(stamp) && !is_midnight && !last.is_midnight() {
            return false;
        }
        !last.shares_day(stamp)
    }

    /// How many summary slots stand before a row of this stamp.
    pub fn closings(&self, stamp: &Stamp) -> u8
        ensures { result ≡ closings (begins_day self.now.last stamp.now) }
    {
        if self.begins_day(stamp) { CLOSING } else { 0 }
    }

    // Makes the summary ready for a row of this stamp: none of the rows so far, where it begins a later day.
    fn turn_to(&mut self, stamp: &Stamp)
        ensures last { self.new.last ≡ self.old.last }
        ensures same { begins_day self.old.last stamp.now ≡ false → self.new.running ≡ self.old.running }
        ensures later { begins_day self.old.last stamp.now ≡ true → running_summary self.new.running ≡ summary_of [] }
        ensures some { 1 ≤ minutes_into (Some stamp.now) }
    {
        if self.begins_day(stamp) {
            self.running = RunningSummary::new();
        }
    }

    /// One row more.
    pub fn push(&mut self, row: &Row)
        requires rises { stamp_exceeds self.old.last row.now.stamp ≡ true }
        requires printable { All IsPrintable row.now.values }
        ensures ends { (rows : List Row) → EndsRows self.old rows → EndsRows self.new (rows ++ row.now ∷ []) }
        ensures last { self.new.last ≡ Some row.now.stamp }
    {
        self.turn_to(&row.stamp);
        self.running.add(row);
        self.last = Some(row.stamp);
    }

    /// Slot `k` of those that close the day.
    pub fn closing_slot(&self, k: u8) -> [u8; SLOT_SIZE]
        requires { k < part_count }
        ensures { (rows : List Row) → EndsRows self.now rows → 0 < length rows → result ≡ closing_slot rows k }
    {
        let day = match self.last {
            Some(last) => last.archive_day(),
            None => DayNumber(0),
        };
        summary_slot(day, k, &self.running)
    }

    // Whether the row may stand behind so many summary slots.
    fn may_follow(&self, shown: u8, row: &Row) -> bool
        ensures { (rows : List Row) → EndsRows self.now rows → result ≡ may_follow rows shown row.now }
    {
        let rises = match self.last {
            Some(last) => last < row.stamp,
            None => true,
        };
        rises && shown == self.closings(&row.stamp)
    }

    // Whether the slot is the next of those that close the day, its gate and the number of its batch's slots aside.
    fn is_closing(&self, shown: u8, slot: &[u8; SLOT_SIZE]) -> bool
        ensures { (rows : List Row) → EndsRows self.now rows → result ≡ is_closing rows shown slot.now }
    {
        if self.last.is_none() {
            return false;
        }
        if shown >= CLOSING {
            return false;
        }
        let closing = self.closing_slot(shown);
        let slot = without_marks(slot);
        slot == closing
    }

    /// What a slot of an archive of this version is behind so many summary slots. A row that may stand there is then in
    /// the place that the caller lends; what this place holds otherwise means nothing.
    pub fn judge_as(
        &self,
        version: Version,
        shown: u8,
        slot: &[u8; SLOT_SIZE],
        row: &mut Row,
    ) -> Judged
        ensures judges { (rows : List Row) → EndsRows self.now rows
            → Judges result row.new rows shown (as_read version slot.now) }
        ensures printable { OnRowJudged result (All IsPrintable row.new.values) }
        ensures back { OnRowJudged result (IsReadBack row.new) }
    {
        let known = is_known(version, slot);
        if !known {
            return Judged::Wrong;
        }
        self.judge(shown, slot, row)
    }

    // What a slot is behind so many summary slots.
    fn judge(&self, shown: u8, slot: &[u8; SLOT_SIZE], row: &mut Row) -> Judged
        ensures judges { (rows : List Row) → EndsRows self.now rows → Judges result row.new rows shown slot.now }
        ensures printable { OnRowJudged result (All IsPrintable row.new.values) }
        ensures back { OnRowJudged result (IsReadBack row.new) }
    {
        if row_slot::read_into(slot, row) {
            if self.may_follow(shown, row) {
                Judged::Row
            } else {
                Judged::Wrong
            }
        } else if self.is_closing(shown, slot) {
            Judged::Closing
        } else {
            Judged::Wrong
        }
    }
}

/// Whether a slot may stand in an archive of this version, which is a question to a row alone.
pub fn is_known(version: Version, slot: &[u8; SLOT_SIZE]) -> bool
    ensures { result ≡ is_known version slot.now }
{
    match version {
        Version::First => row_slot::limited_in(slot) == 0,
        Version::Second => true,
    }
}

// The slot of part `k` of a day's summary.
#[tactic(auto, using(daily_summary::proofs::RunningRows::told_rows), unfolding(crate::specs::Closing::summary_slot))]
fn summary_slot(day: DayNumber, k: u8, summary: &RunningSummary) -> [u8; SLOT_SIZE]
    requires part { k < part_count }
    requires running { AreRunning summary.now }
    ensures { result ≡ summary_slot day.0 k (running_summary summary.now) }
{
    let mut slot = [0; SLOT_SIZE];
    slot[1] = 2;
    LittleEndian::write_i32(&mut slot[4..], day.0);
    slot[8] = k;
    LittleEndian::write_u32(&mut slot[12..], summary.rows);
    slot[PART..PART + PART_SIZE].copy_from_slice(&summary.part(k));
    slot
}
