ghost use Rattle.std.specs.Prelude.{MatchResult};
ghost use Rattle.dmpaft_pump.specs.Header.{IsHeader, IsNoHeader};

use crate::outcome::Trouble;
use crate::signal::ACK;
use vantage_frames::{HEADER_SIZE, HeaderRead, read_header};

/// The bytes of the answer to a stamp frame: 0x06 and a header.
pub const ANSWER_SIZE: usize = 1 + HEADER_SIZE;

/// How many pages come, and where in the first of them the first record stands.
#[derive(Clone, Copy)]
pub struct Extent {
    pub pages: u16,
    pub place: u16,
}

/// Reads the answer to a stamp frame.
pub fn read_answer(bytes: &[u8; ANSWER_SIZE]) -> Result<Extent, Trouble>
    ensures { MatchResult result (λ e. IsHeader bytes.now e.pages e.place) (λ t. IsNoHeader bytes.now t) }
{
    let first = bytes[0];
    if first != ACK {
        return Err(Trouble::NoHeaderAck(first));
    }
    let (_, header) = bytes.split_last_chunk().unwrap();
    match read_header(header) {
        HeaderRead::Good { pages, place } => Ok(Extent { pages, place }),
        HeaderRead::BadCheck => Err(Trouble::HeaderCheck),
        HeaderRead::BadNumbers { pages, place } => Err(Trouble::HeaderNumbers { pages, place }),
    }
}
