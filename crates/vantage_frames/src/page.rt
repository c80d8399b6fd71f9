ghost use Rattle.std.specs.Prelude.{◌≡◌, ◌<◌, slice_index};
ghost use Rattle.vantage_frames.specs.Slots.{slot_at};
ghost use Rattle.vantage_frames.specs.Reading.{TellsPage};

use archive_record::RECORD_SIZE;
use std::marker::Model;

/// The slots of a page.
pub const SLOTS: u8 = 5;

// What stands in a page besides its slots: the sequence, bytes of no use, and the check.
const SEQUENCE_SIZE: usize = 1;

const UNUSED_SIZE: usize = 4;

const CHECK_SIZE: usize = 2;

/// The bytes of a page.
pub const PAGE_SIZE: usize = SEQUENCE_SIZE
    + SLOTS as usize * RECORD_SIZE
    + UNUSED_SIZE
    + CHECK_SIZE;

/// A page of the console's archive whose check is good (Davis serial manual, "Download Protocol").
///
/// Byte 0 is the sequence, which counts pages from 0 and has 0 after 255. At offset 1 stand five
/// slots of 52 bytes, at 261 four unused bytes, which nothing tests, and at 265 the check, high byte
/// first. A contract sees a page as the list of its 267 bytes.
#[derive(Drop)]
pub struct Page<'a> {
    bytes: &'a [u8; PAGE_SIZE],
}

impl<'a> Model for Page<'a> {
    ghost use Rattle.std.specs.Prelude.{◌≡◌, List, ℕ, length};
    ghost use Rattle.crc_ccitt.specs.Check.{check};
    ghost use Rattle.vantage_frames.specs.Slots.{page_size};

    ghost Value = { List ℕ };

    ghost view = { λ page. page.bytes.now };

    ghost invariant = { λ page. (length page.bytes.now ≡ page_size) × (check page.bytes.now ≡ 0) };
}

/// What 267 bytes are, read as a page.
#[derive(Drop)]
pub enum PageRead<'a> {
    /// A page, since the check of all the bytes is 0.
    Good(Page<'a>),
    /// No page: the line changed or lost some of the bytes.
    BadCheck,
}

/// Reads a page, which lends the bytes and copies none.
///
/// Neither the sequence nor the unused bytes are tested.
pub fn read_page<'a>(bytes: &'a [u8; PAGE_SIZE]) -> PageRead<'a>
    ensures { TellsPage bytes.now result }
{
    if crc_ccitt::is_good(bytes) {
        PageRead::Good(Page { bytes })
    } else {
        PageRead::BadCheck
    }
}

impl<'a> Page<'a> {
    /// The number of the page in its dump, modulo 256.
    pub fn sequence(&self) -> u8
        ensures { result ≡ slice_index self.now 0 }
    {
        self.bytes[0]
    }

    /// The 52 bytes of the slot at a place from 0 to 4, lent and not copied.
    pub fn slot(&self, place: u8) -> &'a [u8; RECORD_SIZE]
        requires { place < 5 }
        ensures { result.now ≡ slot_at self.now place }
    {
        let bytes = self.bytes;
        let (slot, _) = bytes[SEQUENCE_SIZE + RECORD_SIZE * usize::from(place)..]
            .split_first_chunk()
            .unwrap();
        slot
    }
}
