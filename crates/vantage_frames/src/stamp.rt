ghost use Rattle.std.specs.Prelude.{◌≡◌};
ghost use Rattle.crc_ccitt.specs.Check.{check};
ghost use Rattle.vantage_frames.specs.StampFrame.{stamp_frame_of};

use crate::words::{WORDS_SIZE, write_words};
use station_base::Stamp;

/// The bytes of a stamp frame.
pub const STAMP_FRAME_SIZE: usize = WORDS_SIZE;

/// Writes the frame that asks for the records after a stamp, or for all (Davis serial manual, "Download Protocol").
///
/// It has the date word, the time word and the check. The words have their low byte first and are 0 where all records are
/// asked for, and the check has its high byte first.
pub fn stamp_frame(after: Option<Stamp>) -> [u8; STAMP_FRAME_SIZE]
    ensures bytes { result ≡ stamp_frame_of after }
    ensures good { check result ≡ 0 }
{
    match after {
        Some(stamp) => write_words(stamp.date_word(), stamp.time_word()),
        None => write_words(0, 0),
    }
}
