ghost use Rattle.std.specs.Prelude.{◌≡◌, drop};
ghost use Rattle.std.specs.Int.{w16, from_le_bytes};
ghost use Rattle.crc_ccitt.specs.Check.{check};
ghost use Rattle.vantage_frames.specs.Words.{frame_of_words};

use byteorder::{ByteOrder, LittleEndian};

/// The bytes of a frame of two words and a check.
pub const WORDS_SIZE: usize = 6;

// Two words, the low byte of each first, and their check, the high byte first.
#[tactic(auto, unfolding(crate::specs::Words::frame_of_words))]
pub fn write_words(first: u16, second: u16) -> [u8; WORDS_SIZE]
    ensures bytes { result ≡ frame_of_words first second }
    ensures first { from_le_bytes w16 result ≡ first }
    ensures second { from_le_bytes w16 (drop 2 result) ≡ second }
    ensures good { check result ≡ 0 }
{
    let mut frame = [0; WORDS_SIZE];
    LittleEndian::write_u16(&mut frame, first);
    LittleEndian::write_u16(&mut frame[2..], second);
    crc_ccitt::seal(&mut frame);
    frame
}
