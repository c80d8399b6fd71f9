ghost use Rattle.std.specs.Prelude.{◌≡◌, ◌+◌, ◌<◌, ◌≤◌, ◌==◌, [], ◌∷◌, ◌++◌, length};
ghost use Rattle.station_base.specs.LastStamp.{last_stamp};
ghost use Rattle.archive_record.specs.Reading.{stamp_in};
ghost use Rattle.dmpaft_pump.specs.Batch.{page_slots, rising, newest, skipped, slots_in_page};

use crate::slot::{SlotRead, is_after, read_slot};
use archive_record::Rec52;
use station_base::Stamp;
use std::marker::Model;
use vantage_frames::{Page, SLOTS};

/// The most records of a page, and so of a batch.
pub const MOST_RECORDS: usize = SLOTS as usize;

/// Records of a page, in their order. What stands behind them means nothing, so that to let them go writes no record.
#[derive(Drop)]
pub struct Batch {
    records: [Rec52; MOST_RECORDS],
    count: usize,
}

impl Model for Batch {
    ghost use Rattle.std.specs.Prelude.{◌≡◌, ◌≤◌, ℕ, List, length, take};
    ghost use Rattle.dmpaft_pump.specs.Batch.{page_slots};

    ghost Value = { List (List ℕ) };

    ghost view = { λ batch. take batch.count batch.records };

    ghost invariant = { λ batch. (batch.count ≤ page_slots) × (length batch.records ≡ page_slots) };
}

impl Batch {
    pub fn new() -> Batch
        ensures { result ≡ [] }
    {
        Batch {
            records: [Rec52::default(); MOST_RECORDS],
            count: 0,
        }
    }

    pub fn records(&self) -> &[Rec52]
        ensures records { result.now ≡ self.now }
        ensures few { length result.now ≤ MOST_RECORDS }
    {
        &self.records[..self.count]
    }

    pub fn is_empty(&self) -> bool
        ensures { result ≡ (length self.now == 0) }
    {
        self.count == 0
    }

    pub fn clear(&mut self)
        ensures { self.new ≡ [] }
    {
        self.count = 0;
    }

    pub fn push(&mut self, row: Rec52)
        requires { length self.old < MOST_RECORDS }
        ensures items { self.new ≡ self.old ++ row ∷ [] }
        ensures len { length self.new ≡ length self.old + 1 }
    {
        self.records[self.count] = row;
        self.count += 1;
    }
}

/// Gathers the records of a page, from a place on, whose stamps rise over the last one, which is then the stamp of the
/// last of them. The answer is how many slots were skipped.
pub fn gather(page: &Page<'_>, from: u8, last: &mut Option<Stamp>, batch: &mut Batch) -> u32
    requires from { from ≤ page_slots }
    requires empty { batch.old ≡ [] }
    ensures rows { batch.new ≡ rising last.old (slots_in_page from page.now) }
    ensures last { last.new ≡ last_stamp stamp_in batch.new last.old }
    ensures newest { last.new ≡ newest last.old (slots_in_page from page.now) }
    ensures skipped { result ≡ skipped (slots_in_page from page.now) }
    ensures few { result ≤ page_slots }
{
    let mut skipped = 0;
    for place in from..SLOTS {
        match read_slot(page.slot(place)) {
            SlotRead::Record(record) => {
                let stamp = record.stamp();
                if is_after(&stamp, last) {
                    *last = Some(stamp);
                    batch.push(record);
                }
            }
            SlotRead::Empty => {}
            SlotRead::Skipped => skipped += 1,
        }
    }
    skipped
}
