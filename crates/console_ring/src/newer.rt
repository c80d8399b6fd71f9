ghost use Rattle.std.specs.Prelude.{◌≡◌, ◌<◌, length, position, IfSome};
ghost use Rattle.console_ring.specs.History.{record_is_newer};

use archive_record::Rec52;
use circular_buffer::HeapCircularBuffer;

// The place of the first record that is newer than these words.
pub fn first_newer(records: &HeapCircularBuffer<Rec52>, date: u16, time: u16) -> Option<usize>
    ensures first { result ≡ position (record_is_newer date time) records.now.items }
    ensures within { IfSome result (λ place. place < length records.now.items) }
{
    records.iter().position(|rec| is_newer(rec, date, time))
}

// Whether the words of the record's stamp exceed these.
fn is_newer(rec: &Rec52, date: u16, time: u16) -> bool
    ensures { result ≡ record_is_newer date time rec.now }
{
    let stamp = rec.stamp();
    stamp.date_word() > date || (stamp.date_word() == date && stamp.time_word() > time)
}
