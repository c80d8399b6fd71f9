ghost use Rattle.std.specs.Prelude.{◌≡◌, Some};
ghost use Rattle.station_base.specs.LastStamp.{exceeds};
ghost use Rattle.dmpaft_pump.specs.SlotReading.{TellsSlot};

use archive_record::{RECORD_SIZE, Rec52, RecordRead, read};
use station_base::{Period, Stamp};

/// What a slot of a page is to a dump.
pub enum SlotRead {
    Record(Rec52),
    Empty,
    // Another revision, or a bad stamp.
    Skipped,
}

/// Reads a slot. The period, which no test looks at, does not matter.
pub fn read_slot(bytes: &[u8; RECORD_SIZE]) -> SlotRead
    ensures { TellsSlot bytes.now result }
{
    if let Some(record) = Rec52::of(*bytes) {
        return SlotRead::Record(record);
    }
    match read(bytes, Period::shortest()) {
        RecordRead::Empty => SlotRead::Empty,
        _ => SlotRead::Skipped,
    }
}

/// Whether a stamp comes after the last one. Where there is none, each does.
pub fn is_after(stamp: &Stamp, last: &Option<Stamp>) -> bool
    ensures { result ≡ exceeds last.now (Some stamp.now) }
{
    match last {
        None => true,
        Some(last) => *stamp > *last,
    }
}
