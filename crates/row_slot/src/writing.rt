ghost use Rattle.std.specs.Prelude.{◌≡◌, ◌++◌, All, Some, take};
ghost use Rattle.byteorder.specs.Endian.{little_bytes};
ghost use Rattle.station_base.specs.CivilMinute.{IsCivilMinute};
ghost use Rattle.station_base.specs.Period.{IsPeriod};
ghost use Rattle.station_base.specs.FieldSet.{AreMissing};
ghost use Rattle.station_base.specs.RowLine.{IsPrintable};
ghost use Rattle.row_slot.specs.Slot.{head_of, row_in_slot, slot_of};

use crate::layout::{DATE, INTERVAL, KIND, LIMITED, PRESENCE, ROW, ROW_SIZE, TIME, VALUES};
use crate::values::{presence_of, spelled};
use byteorder::{ByteOrder, LittleEndian};
use station_base::Row;

/// The slot of a row: 176 bytes, in the layout of this project's archive files.
///
/// The gate and the number of slots are 0, as a log takes them, which fills them in where a batch begins. Values are to
/// lie within 2,000,000 either way, and a field that limits made missing is to have none.
#[tactic(auto, unfolding(crate::specs::Slot::slot_of))]
pub fn write(row: &Row) -> [u8; ROW_SIZE]
    requires values { All IsPrintable row.now.values }
    requires limited { AreMissing row.now.limited row.now.values }
    ensures bytes { result ≡ slot_of row.now }
    ensures read_back { row_in_slot result ≡ Some row.now }
{
    let mut slot = whole_slot(&head_of(row), &spelled(&row.values));
    set_limited(&mut slot, row.limited);
    slot
}

// A head and the numbers of the fields, and 0 behind them.
fn whole_slot(head: &[u8; VALUES], numbers: &[u8; LIMITED - VALUES]) -> [u8; ROW_SIZE]
    ensures { result ≡ head.now ++ (numbers.now ++ little_bytes 8 0) }
{
    let mut slot = [0; ROW_SIZE];
    slot[..VALUES].copy_from_slice(head);
    slot[VALUES..LIMITED].copy_from_slice(numbers);
    slot
}

// Puts the bits of the fields that limits made missing at the slot's end.
fn set_limited(slot: &mut [u8; ROW_SIZE], limited: u64)
    ensures { slot.new ≡ take 168 slot.old ++ little_bytes 8 limited }
{
    LittleEndian::write_u64(&mut slot[LIMITED..], limited);
}

// What stands before the values.
fn head_of(row: &Row) -> [u8; VALUES]
    ensures bytes { result ≡ head_of row.now }
    ensures civil { IsCivilMinute row.now.stamp }
    ensures period { IsPeriod row.now.interval }
{
    let mut head = [0; VALUES];
    head[KIND] = ROW;
    LittleEndian::write_u16(&mut head[DATE..], row.stamp.date_word());
    LittleEndian::write_u16(&mut head[TIME..], row.stamp.time_word());
    LittleEndian::write_u16(&mut head[INTERVAL..], row.interval.minutes());
    LittleEndian::write_u64(&mut head[PRESENCE..], presence_of(&row.values));
    head
}
