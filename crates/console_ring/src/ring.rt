ghost use Rattle.std.specs.Prelude.{ℕ, ◌≡◌, ◌+◌, ◌-◌, ◌%◌, ◌<◌, ◌≤◌, List, [], ◌∷◌, ◌++◌, length, position, option_map, IfOk, IfSome};
ghost use Rattle.console_ring.specs.History.{newest_stamp, CanExtend, record_is_newer, ring_size};
ghost use Rattle.console_ring.specs.Picture.{ring_slot, shown};
ghost use Rattle.console_ring.specs.Standing.{RingStandsFor, Puts};

use crate::newer::first_newer;
use crate::put::RingPut;
use archive_record::{RECORD_SIZE, Rec52};
use causes::OutOfMemory;
use circular_buffer::HeapCircularBuffer;
use station_base::Stamp;
use std::alloc::Global;
use std::marker::Model;

/// The slots of the archive: 512 pages of five.
pub const SLOT_COUNT: u16 = 2560;

// What each byte of a slot is before the first record is put in it.
const UNWRITTEN: u8 = 0xFF;

/// The archive memory of a console: 2,560 slots of one record each (Davis serial manual, "DMPAFT").
///
/// Records go into one slot after the other, and past the last slot into the first again, so that a full ring overwrites its
/// oldest record. A ring stands for its history, the list of all records put since it was last emptied, of which it
/// keeps the last 2,560. It keeps no count of the others, but only the slot that comes next.
#[derive(Drop)]
pub struct Ring {
    records: HeapCircularBuffer<Rec52>,
    next_slot: u16,
}

impl Model for Ring {
    ghost use Rattle.std.specs.Prelude.{◌≡◌, ◌<◌, ◌≤◌, length};
    ghost use Rattle.console_ring.specs.History.{ring_size};
    ghost use Rattle.console_ring.specs.Standing.{KeptRecords};

    ghost Value = { KeptRecords };

    ghost view = { λ ring. record { records = ring.records.items; next_slot = ring.next_slot } };

    ghost invariant = { λ ring. (ring.records.capacity ≡ ring_size) × (length ring.records.items ≤ ring_size)
        × (ring.next_slot < ring_size) };
}

impl Ring {
    /// An empty ring. It takes all the memory that a ring ever takes.
    pub fn new(alloc: Global) -> Result<Ring, OutOfMemory>
        ensures { IfOk result (λ ring. RingStandsFor ring []) }
    {
        let records = HeapCircularBuffer::with_capacity(alloc, usize::from(SLOT_COUNT))?;
        Ok(Ring {
            records,
            next_slot: 0,
        })
    }

    /// Puts a record in the next slot, if its stamp exceeds the newest.
    pub fn put(&mut self, rec: Rec52) -> RingPut
        ensures { (history : List (List ℕ)) → RingStandsFor self.old history
            → Puts history rec self.old result self.new }
    {
        let stamp = rec.stamp();
        match self.newest() {
            Some(newest) if stamp <= newest => RingPut::NotRising(newest),
            _ => {
                self.append(rec);
                RingPut::Done
            }
        }
    }

    // Puts a record that can follow in the next slot.
    fn append(&mut self, rec: Rec52)
        ensures { (history : List (List ℕ)) → RingStandsFor self.old history → CanExtend history rec
            → RingStandsFor self.new (history ++ rec ∷ []) }
    {
        self.records.push_back(rec);
        self.next_slot = (self.next_slot + 1) % SLOT_COUNT;
    }

    /// Empties the ring: every slot is as if it had never been written, and the first comes next.
    pub fn clear(&mut self)
        ensures { RingStandsFor self.new [] }
    {
        self.records.clear();
        self.next_slot = 0;
    }

    /// The stamp of the last record that was put, if there is one.
    pub fn newest(&self) -> Option<Stamp>
        ensures { (history : List (List ℕ)) → RingStandsFor self.now history → result ≡ newest_stamp history }
    {
        self.records.back().map(|record| record.stamp())
    }

    /// The number of the slot that the next record goes into, from 0 to 2,559.
    pub fn next_slot(&self) -> u16
        ensures slot { (history : List (List ℕ)) → RingStandsFor self.now history
            → result ≡ length history % ring_size }
        ensures range { result < SLOT_COUNT }
    {
        self.next_slot
    }

    // The bytes of a slot.
    pub(crate) fn slot(&self, number: u16) -> [u8; RECORD_SIZE]
        requires { number < SLOT_COUNT }
        ensures { (history : List (List ℕ)) → RingStandsFor self.now history
            → result ≡ shown (ring_slot history number) }
    {
        let age = (self.next_slot + SLOT_COUNT - 1 - number) % SLOT_COUNT;
        match self.records.nth_back(usize::from(age)) {
            Some(record) => *record.bytes(),
            None => [UNWRITTEN; RECORD_SIZE],
        }
    }

    // How many records the ring keeps from the first newer one on, if there is one.
    pub(crate) fn count_from_newer(&self, date: u16, time: u16) -> Option<u16>
        ensures count { result
            ≡ option_map (λ place. length self.now.records - place)
            (position (record_is_newer date time) self.now.records) }
        ensures range { IfSome result (λ count. (1 ≤ count) × (count ≤ SLOT_COUNT)) }
    {
        match first_newer(&self.records, date, time) {
            Some(place) => Some((self.records.len() - place) as u16),
            None => None,
        }
    }
}
