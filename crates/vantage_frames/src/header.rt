ghost use Rattle.std.specs.Prelude.{◌≡◌};
ghost use Rattle.crc_ccitt.specs.Check.{check};
ghost use Rattle.vantage_frames.specs.Header.{header_of, CanBegin};
ghost use Rattle.vantage_frames.specs.HeaderReading.{HasNumbers, TellsHeader};

use crate::words::{WORDS_SIZE, write_words};
use byteorder::{ByteOrder, LittleEndian};

/// The bytes of a header.
pub const HEADER_SIZE: usize = WORDS_SIZE;

/// The most pages of a dump: those of a full archive, whose oldest record stands within a page (this project's profile).
pub const MOST_PAGES: u16 = 513;

/// The last place of a slot in a page.
pub const LAST_PLACE: u16 = 4;

/// What six bytes are, read as a header.
#[derive(Clone, Copy, Debug, PartialEq, Eq)]
pub enum HeaderRead {
    /// A header of a dump.
    Good {
        /// How many pages come, from 0 to 513.
        pages: u16,
        /// Where in the first page the first record stands, from 0 to 4. With no page it means nothing, and is as it
        /// was sent.
        place: u16,
    },
    /// No header: the line changed or lost some of the bytes.
    BadCheck,
    /// The check is good, and there are more than 513 pages, or some page and a place above 4.
    BadNumbers {
        /// As it was sent.
        pages: u16,
        /// As it was sent.
        place: u16,
    },
}

/// Reads the header that answers a stamp frame: pages, place and check (Davis serial manual, "Download Protocol").
///
/// The numbers have their low byte first, and the check its high byte. The check is judged before the numbers, and both
/// bounds are this project's profile.
pub fn read_header(bytes: &[u8; HEADER_SIZE]) -> HeaderRead
    ensures { TellsHeader bytes.now result }
{
    if !crc_ccitt::is_good(bytes) {
        return HeaderRead::BadCheck;
    }
    let pages = LittleEndian::read_u16(bytes);
    let place = LittleEndian::read_u16(&bytes[2..]);
    if pages > MOST_PAGES || (pages != 0 && place > LAST_PLACE) {
        HeaderRead::BadNumbers { pages, place }
    } else {
        HeaderRead::Good { pages, place }
    }
}

/// Writes the header of a dump of so many pages, the first record at this place of the first page.
///
/// It is what `read_header` reads. Numbers that it refuses are written too.
pub fn write_header(pages: u16, place: u16) -> [u8; HEADER_SIZE]
    ensures bytes { result ≡ header_of pages place }
    ensures numbers { HasNumbers result pages place }
    ensures again { CanBegin pages place → TellsHeader result (HeaderRead.Good pages place) }
{
    write_words(pages, place)
}
