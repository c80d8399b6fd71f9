ghost use Rattle.std.specs.Prelude.{◌≡◌, Some};
ghost use Rattle.std.specs.Option.{SomeIff};
ghost use Rattle.archive_record.specs.MovedOn.{moved_on};
ghost use Rattle.archive_record.specs.Reading.{stamp_in};
ghost use Rattle.archive_record.specs.Record.{IsRecord, ReadsAsRow};

use crate::place::{RECORD_SIZE, word_at};
use crate::record_read::{DATE, REVISION, TIME};
use station_base::{Period, Stamp};
use std::marker::Model;

// How many bytes of a record its stamp takes, which are the first.
const STAMP_SIZE: usize = 4;

// The bytes of 2000-01-01 00:00, of each missing mark, and of 0 where a field has none.
const UNMEASURED: [u8; RECORD_SIZE] = [
    0x21, 0x00, 0x00, 0x00, 0xFF, 0x7F, 0x00, 0x80, 0xFF, 0x7F, 0x00, 0x00, 0x00, 0x00, 0x00, 0x00,
    0xFF, 0x7F, 0x00, 0x00, 0xFF, 0x7F, 0xFF, 0xFF, 0xFF, 0x00, 0xFF, 0xFF, 0xFF, 0x00, 0xFF, 0x7F,
    0xFF, 0xC1, 0xFF, 0xFF, 0xFF, 0xFF, 0xFF, 0xFF, 0xFF, 0xFF, 0x00, 0xFF, 0xFF, 0xFF, 0xFF, 0xFF,
    0xFF, 0xFF, 0xFF, 0xFF,
];

/// The 52 bytes of an archive record of revision B that reads as a row.
#[derive(Clone, Copy, Debug)]
pub struct Rec52 {
    bytes: [u8; RECORD_SIZE],
}

impl Model for Rec52 {
    ghost use Rattle.std.specs.Prelude.{ℕ, List};
    ghost use Rattle.archive_record.specs.Record.{IsRecord, ReadsAsRow};

    ghost Value = { List ℕ };

    ghost view = { λ r. r.bytes };

    ghost invariant = { λ r. IsRecord r.bytes × ReadsAsRow r.bytes };

    ghost inverse = { λ bytes. record { bytes = bytes } };
}

impl Rec52 {
    /// The record in these bytes, if they read as a row. That takes no reading of values: it is so where the revision is B
    /// and the words name a minute.
    pub fn of(bytes: [u8; RECORD_SIZE]) -> Option<Rec52>
        ensures { SomeIff result (ReadsAsRow bytes) bytes }
    {
        if bytes[REVISION] != 0 {
            return None;
        }
        Stamp::from_words(word_at(&bytes, DATE), word_at(&bytes, TIME))?;
        Some(Rec52::new(bytes))
    }

    /// The record in these bytes, which read as a row.
    pub(crate) fn new(bytes: [u8; RECORD_SIZE]) -> Rec52
        requires { ReadsAsRow bytes }
        ensures bytes { result ≡ bytes }
        ensures size { IsRecord bytes }
    {
        Rec52 { bytes }
    }

    /// The bytes, as a console stores and sends them.
    pub fn bytes(&self) -> &[u8; RECORD_SIZE]
        ensures bytes { result.now ≡ self.now }
        ensures size { IsRecord self.now }
        ensures row { ReadsAsRow self.now }
    {
        &self.bytes
    }

    /// The stamp of the record.
    pub fn stamp(&self) -> Stamp
        ensures { stamp_in self.now ≡ Some result }
    {
        Stamp::from_words(word_at(&self.bytes, DATE), word_at(&self.bytes, TIME)).unwrap()
    }

    /// The record a period later with the same values: all bytes but those of the stamp stay. None where no stamp comes so
    /// late.
    pub fn moved_on(&self, period: Period) -> Option<Rec52>
        ensures { result ≡ moved_on period self.now }
    {
        let stamp = self.stamp().after(period)?;
        let [date_low, date_high] = stamp.date_word().to_le_bytes();
        let [time_low, time_high] = stamp.time_word().to_le_bytes();
        let mut bytes = *self.bytes();
        bytes[..STAMP_SIZE].copy_from_slice(&[date_low, date_high, time_low, time_high]);
        Rec52::of(bytes)
    }
}

impl Default for Rec52 {
    ghost use Rattle.archive_record.specs.declared.record_read.RecordRead.{RecordRead};
    ghost use Rattle.archive_record.specs.Reading.{reading};
    ghost use Rattle.archive_record.specs.Record.{unmeasured_row};

    ghost is_default = { λ blank. reading blank 1 ≡ RecordRead.Row unmeasured_row };

    /// The record of the first stamp with no value in each field that has a mark, and 0 in the others, which `ArrayVec`
    /// fills its places with.
    fn default() -> Rec52 {
        Rec52 { bytes: UNMEASURED }
    }
}
