ghost use Rattle.std.specs.Prelude.{ℕ, ◌≡◌, ◌<◌, List, ◌∷◌, length, replicate};
ghost use Rattle.crc_ccitt.specs.Check.{check};
ghost use Rattle.vantage_frames.specs.Header.{CanBegin};
ghost use Rattle.vantage_frames.specs.Slots.{slot_at};
ghost use Rattle.console_ring.specs.History.{newer, retained};
ghost use Rattle.console_ring.specs.Picture.{plan_of, plan_of_last, slot_on, page_of};
ghost use Rattle.console_ring.specs.Standing.{RingStandsFor};

use crate::plan::Plan;
use crate::ring::{Ring, SLOT_COUNT};
use archive_record::RECORD_SIZE;
use vantage_frames::{PAGE_SIZE, SLOTS};

// The pages of the archive.
const PAGE_COUNT: u32 = 512;

// The slots of a page.
const PAGE_SLOTS: u16 = SLOTS as u16;

// The numbers of pages that one byte tells apart.
const SEQUENCES: u16 = 256;

// What the four bytes between the slots and the check are.
const UNUSED: u8 = 0xFF;

impl Ring {
    /// What a dump of the records newer than these words sends: all from the first newer one on (Davis serial manual,
    /// "Download Protocol").
    ///
    /// The words are those of a stamp, or 0 and 0 for all records. That newer is told by these words is this project's
    /// profile.
    pub fn plan_after(&self, date: u16, time: u16) -> Plan
        ensures plan { (history : List (List ℕ)) → RingStandsFor self.now history → result ≡ plan_of history date time }
        ensures newer { (history : List (List ℕ)) → RingStandsFor self.now history
            → result ≡ plan_of_last (length (newer date time (retained history))) (length history) }
        ensures range { CanBegin result.pages result.place }
    {
        let Some(count) = self.count_from_newer(date, time) else {
            return Plan::none();
        };
        let slot = (self.next_slot() + SLOT_COUNT - count) % SLOT_COUNT;
        let place = slot % PAGE_SLOTS;
        Plan {
            pages: (count - 1 + place) / PAGE_SLOTS + 1,
            place,
            first_page: slot / PAGE_SLOTS,
        }
    }

    /// A page of a dump by its number, from 0, as it is sent: 267 bytes with a good check.
    ///
    /// The page is of the ring as it is now, which is that of the plan as long as nothing was put since.
    pub fn page(&self, plan: &Plan, k: u16) -> [u8; PAGE_SIZE]
        requires { k < plan.now.pages }
        ensures page { (history : List (List ℕ)) → RingStandsFor self.now history
            → result ≡ page_of history plan.now k }
        ensures slots { (history : List (List ℕ)) → RingStandsFor self.now history
            → (place : ℕ) → place < SLOTS → slot_at result place ≡ slot_on history plan.now k place }
        ensures good { check result ≡ 0 }
    {
        let first = PAGE_SLOTS
            * (((u32::from(plan.first_page) + u32::from(k)) % PAGE_COUNT) as u16);
        let mut page = blank_page((k % SEQUENCES) as u8);
        for place in 0..SLOTS {
            let start = 1 + RECORD_SIZE * usize::from(place);
            let slot = self.slot(first + u16::from(place));
            page[start..start + RECORD_SIZE].copy_from_slice(&slot);
        }
        crc_ccitt::seal(&mut page);
        page
    }
}

// The bytes of a page without its slots and its check.
fn blank_page(sequence: u8) -> [u8; PAGE_SIZE]
    ensures { result ≡ sequence ∷ replicate 266 255 }
{
    let mut page = [UNUSED; PAGE_SIZE];
    page[0] = sequence;
    page
}
