ghost use Rattle.std.specs.Prelude.{◌≡◌, ◌+◌, ◌≤◌, Some, IfSome, IsSome, IsTrue, ◌↔◌, length};
ghost use Rattle.std.specs.Int.{w32, w64, cast_signed};
ghost use Rattle.std.specs.declared.option.Option.{Option};
ghost use Rattle.row_slot.specs.Slot.{number_at};
ghost use Rattle.daily_summary.specs.Bounds.{IsSumOf};
ghost use Rattle.daily_summary.specs.Parts.{field_entry, stamp_at, sum_in, IsTyped, entry_size};
ghost use Rattle.daily_summary.specs.WellFormed.{BytesAreBlank, IsEntry};
ghost use Rattle.daily_summary.specs.declared.field_sum.FieldSum.{FieldSum};
ghost use Rattle.station_base.specs.Limits.{most_rows};

use crate::field_sum::FieldSum;
use byteorder::{ByteOrder, LittleEndian};
use station_base::{FARTHEST_VALUE, Stamp};

// The bytes of a field.
pub(crate) const ENTRY: usize = 44;

// Where its numbers stand, each with its low byte first. A stamp is two words.
const LEAST: usize = 0;

const LEAST_AT: usize = 4;

const GREATEST: usize = 8;

const GREATEST_AT: usize = 12;

const SUM: usize = 16;

const COUNT: usize = 24;

const WSUM: usize = 28;

const SUMTIME: usize = 36;

// How far a value may be from 0.
const FARTHEST: u64 = FARTHEST_VALUE as u64;

// The seconds of the shortest interval and of the longest.
const SHORTEST: u64 = 60;

const LONGEST: u64 = 7_200;

// The bytes of what a field comes to, or zeros where it has no value.
pub(crate) fn entry_of(sum: &Option<FieldSum>) -> [u8; ENTRY]
    ensures { result ≡ field_entry sum.now }
{
    match sum {
        Some(sum) => spelled(sum),
        None => [0; ENTRY],
    }
}

// The same where there is a value.
fn spelled(sum: &FieldSum) -> [u8; ENTRY]
    ensures { result ≡ field_entry (Some sum.now) }
{
    let mut bytes = [0; ENTRY];
    LittleEndian::write_i32(&mut bytes[LEAST..], sum.least);
    LittleEndian::write_u16(&mut bytes[LEAST_AT..], sum.least_at.date_word());
    LittleEndian::write_u16(&mut bytes[LEAST_AT + 2..], sum.least_at.time_word());
    LittleEndian::write_i32(&mut bytes[GREATEST..], sum.greatest);
    LittleEndian::write_u16(&mut bytes[GREATEST_AT..], sum.greatest_at.date_word());
    LittleEndian::write_u16(&mut bytes[GREATEST_AT + 2..], sum.greatest_at.time_word());
    LittleEndian::write_i64(&mut bytes[SUM..], sum.sum);
    LittleEndian::write_u32(&mut bytes[COUNT..], sum.count);
    LittleEndian::write_i64(&mut bytes[WSUM..], sum.wsum);
    LittleEndian::write_u64(&mut bytes[SUMTIME..], sum.sumtime);
    bytes
}

// What a field comes to by its bytes; of a field without a value they are zeros. None where no sum of at most so many
// rows is written so: of a count 0 a byte is not 0, words name no stamp, or a number is beyond its bounds.
pub(crate) fn entry_in(bytes: &[u8], rows: u32) -> Option<Option<FieldSum>>
    requires long { length bytes.now ≡ entry_size }
    requires rows { rows ≤ most_rows }
    ensures well_formed { IsSome result ↔ IsEntry rows bytes.now }
    ensures found { IfSome result (λ sum. (field_entry sum ≡ bytes.now) × IfSome sum (IsSumOf rows)) }
    ensures only { (sum : Option FieldSum) → IfSome sum IsTyped → IfSome sum (IsSumOf rows)
        → field_entry sum ≡ bytes.now → result ≡ Some sum }
{
    if is_blank(bytes) {
        return Some(None);
    }
    let sum = sum_in(bytes)?;
    if !is_sum_of(&sum, rows) {
        return None;
    }
    Some(Some(sum))
}

// Whether all of them are 0.
pub(crate) fn is_blank(bytes: &[u8]) -> bool
    ensures { IsTrue result ↔ BytesAreBlank bytes.now }
{
    bytes.iter().all(|byte| *byte == 0)
}

// The numbers of a field that has a value, where its words name stamps.
fn sum_in(bytes: &[u8]) -> Option<FieldSum>
    requires { length bytes.now ≡ entry_size }
    ensures { result ≡ sum_in bytes.now }
{
    let least_at = stamp_at(bytes, LEAST_AT)?;
    let greatest_at = stamp_at(bytes, GREATEST_AT)?;
    Some(FieldSum {
        least: i32_at(bytes, LEAST),
        least_at,
        greatest: i32_at(bytes, GREATEST),
        greatest_at,
        sum: i64_at(bytes, SUM),
        count: u32_at(bytes, COUNT),
        wsum: i64_at(bytes, WSUM),
        sumtime: u64_at(bytes, SUMTIME),
    })
}

// The stamp that the two words at a place name, if they name one.
fn stamp_at(bytes: &[u8], place: usize) -> Option<Stamp>
    requires { place + 4 ≤ length bytes.now }
    ensures { result ≡ stamp_at place bytes.now }
{
    let date = LittleEndian::read_u16(&bytes[place..]);
    let time = LittleEndian::read_u16(&bytes[place + 2..]);
    Stamp::from_words(date, time)
}

// The signed number of four bytes at a place.
fn i32_at(bytes: &[u8], place: usize) -> i32
    requires { place + 4 ≤ length bytes.now }
    ensures { result ≡ cast_signed w32 (number_at 4 place bytes.now) }
{
    LittleEndian::read_i32(&bytes[place..])
}

// The signed number of eight bytes at a place.
fn i64_at(bytes: &[u8], place: usize) -> i64
    requires { place + 8 ≤ length bytes.now }
    ensures { result ≡ cast_signed w64 (number_at 8 place bytes.now) }
{
    u64_at(bytes, place).cast_signed()
}

// The number of eight bytes at a place.
fn u64_at(bytes: &[u8], place: usize) -> u64
    requires { place + 8 ≤ length bytes.now }
    ensures { result ≡ number_at 8 place bytes.now }
{
    LittleEndian::read_u64(&bytes[place..])
}

// The number of four bytes at a place.
fn u32_at(bytes: &[u8], place: usize) -> u32
    requires { place + 4 ≤ length bytes.now }
    ensures { result ≡ number_at 4 place bytes.now }
{
    LittleEndian::read_u32(&bytes[place..])
}

// Whether the numbers can be those of at most so many rows.
fn is_sum_of(sum: &FieldSum, rows: u32) -> bool
    requires { rows ≤ most_rows }
    ensures { IsTrue result ↔ IsSumOf rows sum.now }
{
    let count = u64::from(sum.count);
    if sum.count > rows || sum.sumtime > LONGEST * count {
        return false;
    }
    let near = sum.sum.unsigned_abs() <= FARTHEST * count;
    let weighed = sum.wsum.unsigned_abs() <= FARTHEST * sum.sumtime;
    count >= 1 && near && SHORTEST * count <= sum.sumtime && weighed
}
