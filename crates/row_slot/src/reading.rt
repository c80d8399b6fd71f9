ghost use Rattle.std.specs.Prelude.{◌≡◌, ◌+◌, ◌≤◌, ◌↔◌, All, true};
ghost use Rattle.std.specs.Bool.{then_some};
ghost use Rattle.station_base.specs.FieldSet.{AreMissing};
ghost use Rattle.station_base.specs.RowLine.{IsPrintable};
ghost use Rattle.row_slot.specs.Slot.{is_row_slot, number_at, row_in_slot, slot_of};
ghost use Rattle.row_slot.specs.WellFormed.{IsWellFormed};

use crate::layout::{BATCH, DATE, GATE, INTERVAL, KIND, ROW, ROW_SIZE, SPARE, TIME};
use crate::values::{are_missing, limited_in, read_values};
use byteorder::{ByteOrder, LittleEndian};
use station_base::{Period, Row, Stamp};

/// Reads the row of a slot into a place that the caller lends, and returns whether the slot is well-formed. If it is
/// not, what the place then holds means nothing.
///
/// A slot is ill-formed if its kind is not that of a row, a byte that should be 0 is not, its words name no stamp, its
/// interval is no period, a value is beyond 2,000,000 either way or not 0 where it is missing, or a field that limits
/// made missing is none of the 37 or has a value. The gate and the number of slots are to be 0, as they are in a slot
/// that is handed to a log.
pub fn read_into(slot: &[u8; ROW_SIZE], row: &mut Row) -> bool
    ensures row { row_in_slot slot.now ≡ then_some result row.new }
    ensures well_formed { (result ≡ true) ↔ IsWellFormed slot.now }
    ensures printable { result ≡ true → All IsPrintable row.new.values }
    ensures limited { result ≡ true → AreMissing row.new.limited row.new.values }
    ensures written_back { result ≡ true → slot.now ≡ slot_of row.new }
{
    read_parts(slot, row)
}

// Reads each part of a slot into the row's, as far as the first that is ill-formed.
#[tactic(auto, unfolding(crate::specs::Slot::row_in_slot))]
fn read_parts(slot: &[u8; ROW_SIZE], row: &mut Row) -> bool
    ensures { row_in_slot slot.now ≡ then_some result row.new }
{
    if !is_row_slot(slot) {
        return false;
    }
    let Some(stamp) = Stamp::from_words(word_at(slot, DATE), word_at(slot, TIME)) else {
        return false;
    };
    let Some(interval) = Period::from_minutes(word_at(slot, INTERVAL)) else {
        return false;
    };
    row.stamp = stamp;
    row.interval = interval;
    row.limited = limited_in(slot);
    let allowed = read_values(slot, &mut row.values);
    if !allowed {
        return false;
    }
    are_missing(row.limited, &row.values)
}

// Whether the slot is one of a row, and its bytes that belong to no part are 0.
fn is_row_slot(slot: &[u8; ROW_SIZE]) -> bool
    ensures { result ≡ is_row_slot slot.now }
{
    slot[KIND] == ROW && slot[GATE] == 0 && word_at(slot, BATCH) == 0 && word_at(slot, SPARE) == 0
}

// The number of two bytes at a place.
fn word_at(slot: &[u8; ROW_SIZE], place: usize) -> u16
    requires { place + 2 ≤ ROW_SIZE }
    ensures { result ≡ number_at 2 place slot.now }
{
    LittleEndian::read_u16(&slot[place..])
}
