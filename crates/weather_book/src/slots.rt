ghost use Rattle.std.specs.Prelude.{ℕ, ℤ, All, true, false, ◌≡◌, ◌≤◌, ◌+◌, ◌*◌, ◌/◌, [], ◌∷◌, List, Some, length, take, drop};
ghost use Rattle.std.specs.Bool.{then_some};
ghost use Rattle.causes.specs.Told.{WhereTold};
ghost use Rattle.disk_model.specs.Disk.{Stays, Faults, Looks};
ghost use Rattle.gated_log.specs.Calls.{Looked};
ghost use Rattle.gated_log.specs.GatedLog.{slot_count, log_version};
ghost use Rattle.gated_log.specs.Stands.{StandsToRead};
ghost use Rattle.row_slot.specs.Slot.{row_in_slot};
ghost use Rattle.station_base.specs.FieldSet.{AreMissing};
ghost use Rattle.station_base.specs.RowLine.{IsPrintable};
ghost use Rattle.station_base.specs.declared.row.Row.{Row};
ghost use Rattle.packed_rows.specs.Adding.{AreLimited, ArePrintable};
ghost use Rattle.daily_summary.specs.Bounds.{IsInBounds};
ghost use Rattle.daily_summary.specs.declared.summary.DaySummary.{DaySummary};
ghost use Rattle.gated_log.specs.Layout.{slot_size};
ghost use Rattle.packed_rows.specs.Closed.{IsClosedAt, parts_at};
ghost use Rattle.packed_rows.specs.Packed.{AreRowsAt};
ghost use Rattle.weather_book.specs.ReadBack.{row_back, rows_back};
ghost use Rattle.packed_rows.specs.Rows.{as_read};
ghost use Rattle.weather_book.specs.Start.{OnRows, OnSummary, day_failed, has_no_rows, rows_failed};
ghost use Rattle.daily_summary.specs.Parts.{part_count};

use crate::{DayAnswer, RowsAnswer};
use arrayvec::ArrayVec;
use daily_summary::{DaySummary, PART_COUNT, PART_SIZE, PARTS_SIZE};
use disk_model::{Disk, Disked};
use gated_log::{GatedLog, SLOT_SIZE, Version, without_marks};
use packed_rows::{PART, is_known};
use station_base::Row;

// Reads the row of a slot as its version reads it, and returns whether the slot is well-formed.
fn read_as(version: Version, slot: &[u8; SLOT_SIZE], row: &mut Row) -> bool
    ensures row { row_in_slot (as_read version slot.now) ≡ then_some result row.new }
    ensures printable { result ≡ true → All IsPrintable row.new.values }
    ensures limited { result ≡ true → AreMissing row.new.limited row.new.values }
{
    let known = is_known(version, slot);
    if !known {
        return false;
    }
    row_slot::read_into(slot, row)
}

// The same with its gate and the number of its batch's slots aside. If the slot is ill-formed, the row is the
// `Default` one.
fn read_row(version: Version, slot: &[u8; SLOT_SIZE], row: &mut Row)
    ensures row { row.new ≡ row_back version slot.now }
    ensures printable { All IsPrintable row.new.values }
    ensures limited { AreMissing row.new.limited row.new.values }
{
    let is_row = read_as(version, &without_marks(slot), row);
    if !is_row {
        *row = Row::default();
    }
}

// The row of a slot, read so.
pub(crate) fn row_of(version: Version, slot: &[u8; SLOT_SIZE]) -> Row
    ensures row { result ≡ row_back version slot.now }
    ensures printable { All IsPrintable result.values }
    ensures limited { AreMissing result.limited result.values }
{
    let mut row = Row::default();
    read_row(version, slot, &mut row);
    row
}

// Reads the row of slot `k` of these.
fn read_at(version: Version, bytes: &[u8], k: usize, row: &mut Row)
    requires { slot_size * (k + 1) ≤ length bytes.now }
    ensures row { row.new ≡ row_back version (take slot_size (drop (slot_size * k) bytes.now)) }
    ensures printable { All IsPrintable row.new.values }
    ensures limited { AreMissing row.new.limited row.new.values }
{
    let mut slot = [0; SLOT_SIZE];
    slot.copy_from_slice(&bytes[SLOT_SIZE * k..SLOT_SIZE * k + SLOT_SIZE]);
    read_row(version, &slot, row);
}

// Reads so many slots from number `place` on, and pushes the row of each.
pub(crate) fn read_slots<D: Disk>(
    log: &GatedLog,
    disk: &mut D,
    place: u64,
    count: usize,
    bytes: &mut [u8],
    into: &mut ArrayVec<Row, 16>,
) -> RowsAnswer
    requires some { 1 ≤ count }
    requires most { count ≤ 16 }
    requires size { length bytes.old ≡ slot_size * count }
    requires within { place + count ≤ slot_count log.now }
    requires empty { into.old.items ≡ [] }
    ensures file { OnRows result (WhereTold (D.medium.seen disk.old)
        (λ c. into.new.items ≡ rows_back (log_version log.now) c place count)) }
    ensures rows { OnRows result ((rows : List Row) (n : ℕ) (slots : List (List ℕ))
        → StandsToRead D.medium (slot_count log.now) disk.old slots
        → AreRowsAt (log_version log.now) slots place rows n count
        → WhereTold (D.medium.seen disk.old) (λ _. into.new.items ≡ take count (drop n rows))) }
    ensures none { result ≡ RowsAnswer.DiskFault → into.new.items ≡ [] }
    ensures count { OnRows result (length into.new.items ≡ count) }
    ensures printable { ArePrintable into.new.items }
    ensures limited { AreLimited into.new.items }
    ensures stays { Stays D.medium disk.old disk.new }
    ensures cause { Faults D.medium disk.old disk.new (result ≡ RowsAnswer.DiskFault) }
    ensures looks { Looks D.medium 1 disk.old disk.new }
    ensures went { (len : ℕ) → slot_size * (place + count + 1) ≤ len
        → Looked D.medium len (rows_failed result) disk.old disk.new }
{
    match log.slots_at(disk, place, bytes) {
        Disked::Done => {}
        Disked::Failed => return RowsAnswer::DiskFault,
    }
    let version = log.version();
    let mut row = Row::default();
    for k in 0..count {
        read_at(version, bytes, k, &mut row);
        into.push(row);
    }
    RowsAnswer::Done
}

// The bytes of the slots that close a day.
const CLOSING_BYTES: usize = SLOT_SIZE * PART_COUNT;

// The parts of the summary in the slots that close its day.
fn parts_at(bytes: &[u8; CLOSING_BYTES]) -> [u8; PARTS_SIZE]
    ensures { result ≡ parts_at bytes.now }
{
    let mut parts = [0; PARTS_SIZE];
    for k in 0..PART_COUNT {
        let from = SLOT_SIZE * k + PART;
        let place = PART_SIZE * k;
        parts[place..place + PART_SIZE].copy_from_slice(&bytes[from..from + PART_SIZE]);
    }
    parts
}

// Reads the summary of a day of so many rows of the thirteen slots from number `place` on, which close it.
pub(crate) fn read_summary<D: Disk>(
    log: &GatedLog,
    disk: &mut D,
    place: u64,
    rows: u32,
) -> DayAnswer
    requires within { place + part_count ≤ slot_count log.now }
    ensures summary { OnSummary result (λ s. (slots : List (List ℕ)) (day : ℤ) (t : DaySummary)
        → StandsToRead D.medium (slot_count log.now) disk.old slots
        → IsClosedAt slots place day t → t.rows ≡ rows → WhereTold (D.medium.seen disk.old) (λ _. s ≡ t)) }
    ensures bounds { OnSummary result (λ s. IsInBounds s × (s.rows ≤ rows)) }
    ensures some { has_no_rows result ≡ false }
    ensures stays { Stays D.medium disk.old disk.new }
    ensures cause { Faults D.medium disk.old disk.new (result ≡ DayAnswer.DiskFault) }
    ensures looks { Looks D.medium 1 disk.old disk.new }
    ensures went { (len : ℕ) → slot_size * (place + 14) ≤ len
        → Looked D.medium len (day_failed result) disk.old disk.new }
{
    let mut bytes = [0; CLOSING_BYTES];
    match log.slots_at(disk, place, &mut bytes) {
        Disked::Done => {}
        Disked::Failed => return DayAnswer::DiskFault,
    }
    match DaySummary::from_parts(rows, &parts_at(&bytes)) {
        Some(summary) => DayAnswer::Summary(summary),
        None => DayAnswer::Summary(DaySummary::new()),
    }
}
