ghost use Rattle.std.specs.Prelude.{◌≡◌, ◌+◌, ◌*◌, ◌<◌, drop, length, true};
ghost use Rattle.std.specs.Bool.{then_some};
ghost use Rattle.station_base.specs.FieldSet.{are_missing};
ghost use Rattle.row_slot.specs.Slot.{limited_in, presence_in, values_in};
ghost use Rattle.row_slot.specs.Values.{is_allowed, signed_number_in, numbers_of, presence_of, spelled_numbers};

use crate::layout::{LIMITED, PRESENCE, ROW_SIZE, VALUES};
use byteorder::{ByteOrder, LittleEndian};
use station_base::{FARTHEST_VALUE, FIELD_COUNT, FieldSet};

const NUMBER_SIZE: usize = 4;

// How far a value may be from 0.
const FARTHEST: i32 = FARTHEST_VALUE as i32;

// The bits that say which fields have a value, the lowest for the first.
pub fn presence_of(values: &[Option<i32>; FIELD_COUNT]) -> u64
    ensures { result ≡ presence_of values.now }
{
    let mut presence = 0;
    for (field, value) in values.iter().enumerate() {
        presence |= u64::from(value.is_some()) << field;
    }
    presence
}

// The number of each field one behind the other, with 0 where a value is missing.
pub fn spelled(values: &[Option<i32>; FIELD_COUNT]) -> [u8; LIMITED - VALUES]
    ensures bytes { result ≡ spelled_numbers (numbers_of values.now) }
    ensures fields { length values.now ≡ FIELD_COUNT }
{
    let mut numbers = [0; FIELD_COUNT];
    for (field, value) in values.iter().enumerate() {
        numbers[field] = value.unwrap_or(0);
    }
    let mut bytes = [0; LIMITED - VALUES];
    LittleEndian::write_i32_into(&numbers, &mut bytes);
    bytes
}

// Reads the values of the fields into a row's. Whether each is allowed, and no bit is set for further fields; if not, what
// was read means nothing.
#[tactic(auto, unfolding(crate::specs::Values::slot_values_in))]
pub fn read_values(slot: &[u8; ROW_SIZE], values: &mut [Option<i32>; FIELD_COUNT]) -> bool
    ensures { values_in slot.now ≡ then_some result values.new }
{
    let presence = presence_in(slot);
    for field in 0..FIELD_COUNT {
        let has_value = presence >> field & 1 == 1;
        let number = number_of(slot, field);
        if !read_value(has_value, number, &mut values[field]) {
            return false;
        }
    }
    if presence >> FIELD_COUNT != 0 {
        return false;
    }
    true
}

/// The bits of a slot for the fields that limits made missing, whether the slot is well-formed or not.
pub fn limited_in(slot: &[u8; ROW_SIZE]) -> u64
    ensures { result ≡ limited_in slot.now }
{
    LittleEndian::read_u64(&slot[LIMITED..])
}

// Whether none of the fields of these bits has a value, and no bit is set for further fields.
pub fn are_missing(limited: u64, values: &[Option<i32>; FIELD_COUNT]) -> bool
    ensures { result ≡ are_missing limited values.now }
{
    match FieldSet::from_bits(limited) {
        Some(fields) => fields.are_missing(values),
        None => false,
    }
}

// The presence bits.
fn presence_in(slot: &[u8; ROW_SIZE]) -> u64
    ensures { result ≡ presence_in slot.now }
{
    LittleEndian::read_u64(&slot[PRESENCE..])
}

// The number of a field.
fn number_of(slot: &[u8; ROW_SIZE], field: usize) -> i32
    requires { field < FIELD_COUNT }
    ensures { result ≡ signed_number_in (drop (20 + 4 * field) slot.now) }
{
    LittleEndian::read_i32(&slot[VALUES + NUMBER_SIZE * field..])
}

// Reads the value of a field, if it has one. Whether its number may stand there; if not, what was read means nothing.
fn read_value(has_value: bool, number: i32, value: &mut Option<i32>) -> bool
    ensures allowed { result ≡ is_allowed has_value number }
    ensures value { result ≡ true → value.new ≡ then_some has_value number }
{
    if !has_value {
        *value = None;
        return number == 0;
    }
    if number < -FARTHEST || FARTHEST < number {
        return false;
    }
    *value = Some(number);
    true
}
