ghost use Rattle.std.specs.Prelude.{◌≡◌, ◌⊎◌, ◌<◌, ◌↔◌, ℕ, List, Some, IsSome, IfSome, OnSome, is_some, slice_index};
ghost use Rattle.archive_record.specs.declared.record_read.RecordRead.{RecordRead};
ghost use Rattle.archive_record.specs.Reading.{reading, record_values};
ghost use Rattle.archive_record.specs.Record.{IsRecord};
ghost use Rattle.archive_record.specs.Writing.{CanHoldAll, CanTell, TellsRow, can_tell};

use crate::place::{RECORD_SIZE, put_word};
use crate::record::Rec52;
use crate::record_read::{DATE, TIME};
use crate::table::places;
use station_base::{FIELD_COUNT, Row};

/// The record that reads as the row. There is none for a row with a value beyond those of its field, with a value that is
/// its field's missing mark, or without a value in a field that has no mark, and none for a row that limits made a field
/// of missing.
pub fn write(row: &Row) -> Option<Rec52>
    ensures can { IsSome result ↔ CanTell row.now }
    ensures test { is_some result ≡ can_tell row.now }
    ensures read_back { IfSome result (λ bytes. reading bytes row.now.interval ≡ RecordRead.Row row.now) }
    ensures written_back { (bytes : List ℕ) → IsRecord bytes
        → reading bytes row.now.interval ≡ RecordRead.Row row.now → result ≡ Some bytes }
{
    if row.limited != 0 {
        return None;
    }
    let mut bytes = [0; RECORD_SIZE];
    put_word(&mut bytes, DATE, row.stamp.date_word());
    put_word(&mut bytes, TIME, row.stamp.time_word());
    put_values(&mut bytes, &row.values)?;
    Some(Rec52::new(bytes))
}

// Writes each value at its place.
fn put_values(bytes: &mut [u8; RECORD_SIZE], values: &[Option<i32>; FIELD_COUNT]) -> Option<()>
    ensures can { IsSome result ↔ CanHoldAll values.now }
    ensures values { OnSome result (record_values bytes.new ≡ values.now) }
    ensures others { (i : ℕ) → (i < 4) ⊎ (i ≡ 42) → slice_index bytes.new i ≡ slice_index bytes.old i }
{
    for (field, place) in places().iter().enumerate() {
        let raw = place.raw(values[field])?;
        place.put(bytes, raw);
    }
    Some(())
}
