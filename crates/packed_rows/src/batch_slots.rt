ghost use Rattle.std.specs.Prelude.{◌≡◌, ◌≤◌, ◌<◌, ◌+◌, ◌*◌, ◌++◌, [], ◌∷◌, List, length, true, All};
ghost use Rattle.arrayvec.specs.ArrayVec.{array_vec_len};
ghost use Rattle.row_slot.specs.Slot.{slot_of};
ghost use Rattle.station_base.specs.FieldSet.{AreMissing};
ghost use Rattle.station_base.specs.RowLine.{IsPrintable};
ghost use Rattle.station_base.specs.declared.row.Row.{Row};
ghost use Rattle.gated_log.specs.Layout.{slot_size};
ghost use Rattle.packed_rows.specs.Adding.{rows_in_a_batch, ArePrintable, AreLimited};
ghost use Rattle.packed_rows.specs.Closing.{closing_before};
ghost use Rattle.packed_rows.specs.Packed.{joined_slots, IsReadBack, AreReadBack};
ghost use Rattle.packed_rows.specs.Rising.{rows_rise};
ghost use Rattle.packed_rows.specs.Rows.{slots_after};
ghost use Rattle.packed_rows.specs.Tail.{EndsRows};

use crate::tail::Tail;
use arrayvec::ArrayVec;
use gated_log::SLOT_SIZE;
use station_base::{Row, push_bytes};

// The slots of a batch, at most: five rows, each behind the slots that close a day.
const MOST_SLOTS: usize = 70;

/// Bytes of so many slots.
pub const LONGEST_BATCH: usize = MOST_SLOTS * SLOT_SIZE;

/// The slots of rows one behind another, where they stand behind others that end so.
pub fn pack(tail: &Tail, rows: &[Row]) -> ArrayVec<u8, LONGEST_BATCH>
    requires few { length rows.now ≤ rows_in_a_batch }
    requires printable { ArePrintable rows.now }
    requires limited { AreLimited rows.now }
    requires rising { rows_rise tail.now.last rows.now ≡ true }
    ensures slots { (before : List Row) → EndsRows tail.now before
        → result.items ≡ joined_slots (slots_after before rows.now) }
    ensures read_back { AreReadBack rows.now }
{
    let mut slots = ArrayVec::new();
    let mut end = *tail;
    for row in rows {
        push_row(&mut slots, &end, row);
        end.push(row);
    }
    slots
}

// Appends the slot of a row, behind those that close the day before where it begins a later one.
fn push_row(slots: &mut ArrayVec<u8, LONGEST_BATCH>, tail: &Tail, row: &Row)
    requires room { array_vec_len slots.old + 14 * slot_size ≤ LONGEST_BATCH }
    requires printable { All IsPrintable row.now.values }
    requires limited { AreMissing row.now.limited row.now.values }
    ensures slots { (before : List Row) → EndsRows tail.now before
        → slots.new.items ≡ slots.old.items ++ joined_slots (closing_before before row.now ++ slot_of row.now ∷ []) }
    ensures length { array_vec_len slots.new ≤ array_vec_len slots.old + 14 * slot_size }
    ensures read_back { IsReadBack row.now }
{
    for k in 0..tail.closings(&row.stamp) {
        let slot = tail.closing_slot(k);
        push_bytes(slots, &slot);
    }
    let slot = row_slot::write(row);
    push_bytes(slots, &slot);
}
