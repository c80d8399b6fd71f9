ghost use Rattle.crc_ccitt.specs.Check.{check};
ghost use Rattle.std.specs.Prelude.{◌≡◌};

use archive_record::{RECORD_SIZE, Rec52};
use station_base::Stamp;
use vantage_frames::{PAGE_SIZE, SLOTS};

// The date word of 2024-07-01, the day of all lettered records.
const DAY: u16 = 12_513;

// A date word that names no day.
const NO_DAY: u16 = 417;

const REVISION: usize = 42;

/// A record of this stamp, with the values of the default record.
pub fn record_of(stamp: Stamp) -> Option<Rec52> {
    let mut bytes = *Rec52::default().bytes();
    bytes[..2].copy_from_slice(&stamp.date_word().to_le_bytes());
    bytes[2..4].copy_from_slice(&stamp.time_word().to_le_bytes());
    Rec52::of(bytes)
}

/// A page of which each slot holds the record of a letter: that of 2024-07-01 00:01 for `a`, of 00:02 for `b`, and so on;
/// nothing for `-`, another revision for `R`, and a bad stamp for `B`. Slots without a letter hold nothing.
pub fn page_of_letters(sequence: u8, letters: &[u8]) -> [u8; PAGE_SIZE]
    ensures good { check result ≡ 0 }
{
    let mut page = [0xFF; PAGE_SIZE];
    page[0] = sequence;
    for (place, letter) in letters.iter().take(SLOTS as usize).enumerate() {
        let at = 1 + RECORD_SIZE * place;
        if *letter != b'-' {
            let day = if *letter == b'B' { NO_DAY } else { DAY };
            page[at..at + 2].copy_from_slice(&day.to_le_bytes());
            page[at + 2..at + 4].copy_from_slice(&[letter.wrapping_sub(b'a' - 1), 0]);
            page[at + REVISION] = if *letter == b'R' { 1 } else { 0 };
        }
    }
    crc_ccitt::seal(&mut page);
    page
}
