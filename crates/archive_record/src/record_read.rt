ghost use Rattle.std.specs.Prelude.{◌≡◌, ℕ, All, None, map, slice_index_or};
ghost use Rattle.station_base.specs.RowLine.{IsValueWithin};
ghost use Rattle.archive_record.specs.Place.{value_in};
ghost use Rattle.archive_record.specs.Reading.{reading, is_unwritten, row_of_record, record_values};
ghost use Rattle.archive_record.specs.Record.{IfRow};
ghost use Rattle.archive_record.specs.SlotKind.{reading_of};
ghost use Rattle.archive_record.specs.Table.{places};

use crate::place::{RECORD_SIZE, word_at};
use crate::table::places;
use station_base::{FIELD_COUNT, FieldId, Period, Row, Stamp};

/// The offset of the date word.
pub const DATE: usize = 0;

/// The offset of the time word.
pub const TIME: usize = 2;

/// The offset of the byte that tells the revision, which is 0 for revision B.
pub const REVISION: usize = 42;

/// What a slot is, told without reading a value.
#[derive(Clone, Copy, Debug, PartialEq, Eq)]
pub enum SlotKind {
    /// A record of revision B with this stamp.
    Record(Stamp),
    /// A slot that was never written, which is all 0xFF.
    Empty,
    /// A record of another revision, with the byte that tells it.
    OtherRevision(u8),
    /// A record whose date word and time word name no minute.
    BadStamp { date: u16, time: u16 },
}

/// What the 52 bytes of an archive slot say.
#[derive(Clone, Copy, Debug, PartialEq, Eq)]
pub enum RecordRead {
    /// A record of revision B.
    Row(Row),
    /// A slot that was never written, which is all 0xFF.
    Empty,
    /// A record of another revision, with the byte that tells it.
    OtherRevision(u8),
    /// A record whose date word and time word name no minute.
    BadStamp { date: u16, time: u16 },
}

/// Reads a slot of a console that writes records at this interval (Davis serial manual, revision B). A record tells of no
/// limits, so no field of its row is one of `limited`.
pub fn read(bytes: &[u8; RECORD_SIZE], interval: Period) -> RecordRead
    ensures reading { result ≡ reading bytes.now interval }
    ensures within { IfRow result (λ row. All (IsValueWithin 65_535) row.values) }
    ensures unlimited { IfRow result (λ row. row.limited ≡ 0) }
{
    match kind_of(bytes) {
        SlotKind::Record(stamp) => RecordRead::Row(row_in(bytes, interval, stamp)),
        SlotKind::Empty => RecordRead::Empty,
        SlotKind::OtherRevision(revision) => RecordRead::OtherRevision(revision),
        SlotKind::BadStamp { date, time } => RecordRead::BadStamp { date, time },
    }
}

/// What a slot is. Its row can then be read by `row_in`, or a value alone by `value_in`.
#[inline(always)]
#[tactic(auto, unfolding(crate::specs::Reading::reading))]
pub fn kind_of(bytes: &[u8; RECORD_SIZE]) -> SlotKind
    ensures { (interval : ℕ) → reading bytes.now interval ≡ reading_of result bytes.now interval }
{
    if is_unwritten(bytes) {
        return SlotKind::Empty;
    }
    if bytes[REVISION] != 0 {
        return SlotKind::OtherRevision(bytes[REVISION]);
    }
    let (date, time) = (word_at(bytes, DATE), word_at(bytes, TIME));
    match Stamp::from_words(date, time) {
        None => SlotKind::BadStamp { date, time },
        Some(stamp) => SlotKind::Record(stamp),
    }
}

/// The row of a record of this stamp.
pub fn row_in(bytes: &[u8; RECORD_SIZE], interval: Period, stamp: Stamp) -> Row
    ensures row { result ≡ row_of_record bytes.now interval stamp }
    ensures within { All (IsValueWithin 65_535) result.values }
{
    Row {
        stamp,
        interval,
        values: values_in(bytes),
        limited: 0,
    }
}

/// What a record tells of one field.
pub fn value_in(bytes: &[u8; RECORD_SIZE], field: FieldId) -> Option<i32>
    ensures value { result ≡ slice_index_or (record_values bytes.now) field None }
    ensures within { IsValueWithin 65_535 result }
{
    places()[field.index()].value_in(bytes)
}

// Whether the bytes are those of a slot that was never written.
fn is_unwritten(bytes: &[u8; RECORD_SIZE]) -> bool
    ensures { result ≡ is_unwritten bytes.now }
{
    bytes.iter().all(|byte| *byte == 0xFF)
}

// What the record tells of each field.
fn values_in(bytes: &[u8; RECORD_SIZE]) -> [Option<i32>; FIELD_COUNT]
    ensures { result ≡ map (value_in bytes.now) places }
{
    let mut values = [None; FIELD_COUNT];
    for (field, place) in places().iter().enumerate() {
        values[field] = place.value_in(bytes);
    }
    values
}
