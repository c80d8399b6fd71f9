ghost use Rattle.std.specs.Prelude.{◌<◌, ◌≤◌};

use std::alloc::{AllocError, Global};

// The bytes of a slot, of its part up to the end of the first value, and of archives of two and of many rows: the head,
// their slots, and a closed gate.
const SLOT: usize = 176;

const USED: usize = 22;

const LENGTH: usize = 3 * SLOT + 1;

const LONG: usize = (MANY as usize + 1) * SLOT + 1;

/// The rows of the longer archive. Their lines take two writes.
pub const MANY: u16 = 40;

// The rows of each of its batches.
const BATCH: u8 = 20;

/// The rows that a read brings.
pub const READ: usize = 16;

/// The bytes of the line of each.
pub const LINE: usize = 87;

// The row slot of 2024-07-01 00:05 with 65.0 degrees outside, and of the five fields that always have a value 0, up to
// its first value. It is the first of a batch of two.
const FIRST: [u8; USED] = [
    1, 1, 2, 0, 0xE1, 0x30, 5, 0, 5, 0, 0, 0, 0x99, 0x10, 1, 0, 0, 0, 0, 0, 0x8A, 2,
];

// The same of 00:10 with 67.1 degrees, the second of that batch.
const SECOND: [u8; USED] = [
    0, 1, 0, 0, 0xE1, 0x30, 10, 0, 5, 0, 0, 0, 0x99, 0x10, 1, 0, 0, 0, 0, 0, 0x9F, 2,
];

/// The lines of the day of the two rows.
pub const DAYS: &str =
    "day 2024-07-01 outTemp min 650 at 2024-07-01 00:05 max 671 at 2024-07-01 00:10 sum 1321 count 2 wsum 396300 sumtime 600
day 2024-07-01 rain min 0 at 2024-07-01 00:05 max 0 at 2024-07-01 00:05 sum 0 count 2 wsum 0 sumtime 600
day 2024-07-01 highRainRate min 0 at 2024-07-01 00:05 max 0 at 2024-07-01 00:05 sum 0 count 2 wsum 0 sumtime 600
day 2024-07-01 windSamples min 0 at 2024-07-01 00:05 max 0 at 2024-07-01 00:05 sum 0 count 2 wsum 0 sumtime 600
day 2024-07-01 windGust min 0 at 2024-07-01 00:05 max 0 at 2024-07-01 00:05 sum 0 count 2 wsum 0 sumtime 600
day 2024-07-01 ET min 0 at 2024-07-01 00:05 max 0 at 2024-07-01 00:05 sum 0 count 2 wsum 0 sumtime 600
";

/// The lines of their month.
pub const MONTHS: &str =
    "month 2024-07 outTemp min 650 at 2024-07-01 00:05 max 671 at 2024-07-01 00:10 sum 1321 count 2 wsum 396300 sumtime 600
month 2024-07 rain min 0 at 2024-07-01 00:05 max 0 at 2024-07-01 00:05 sum 0 count 2 wsum 0 sumtime 600
month 2024-07 highRainRate min 0 at 2024-07-01 00:05 max 0 at 2024-07-01 00:05 sum 0 count 2 wsum 0 sumtime 600
month 2024-07 windSamples min 0 at 2024-07-01 00:05 max 0 at 2024-07-01 00:05 sum 0 count 2 wsum 0 sumtime 600
month 2024-07 windGust min 0 at 2024-07-01 00:05 max 0 at 2024-07-01 00:05 sum 0 count 2 wsum 0 sumtime 600
month 2024-07 ET min 0 at 2024-07-01 00:05 max 0 at 2024-07-01 00:05 sum 0 count 2 wsum 0 sumtime 600
";

/// The lines of two rows.
pub const TWO_LINES: &[u8] =
    b"row 2024-07-01 00:05 5 outTemp=650\nrow 2024-07-01 00:10 5 outTemp=671\n";

/// The bytes of the archive of the two rows.
pub fn archive() -> [u8; LENGTH] {
    let mut bytes = [0; LENGTH];
    bytes[..8].copy_from_slice(b"DVARCH02");
    bytes[SLOT..SLOT + USED].copy_from_slice(&FIRST);
    bytes[2 * SLOT..2 * SLOT + USED].copy_from_slice(&SECOND);
    bytes
}

// The hour and the minute of a row of the longer archive: every five minutes from 01:00 on.
fn time_of(number: u16) -> (u16, u16)
    requires { number < 40 }
    ensures hour { result.0 ≤ 4 }
    ensures minute { result.1 ≤ 55 }
{
    (1 + number / 12, number % 12 * 5)
}

/// The bytes of the longer archive: each row as the first one of two, but at its time and in its batch.
pub fn long_archive() -> [u8; LONG] {
    let mut bytes = [0; LONG];
    bytes[..8].copy_from_slice(b"DVARCH02");
    for number in 0..MANY {
        let (hour, minute) = time_of(number);
        let mut row = FIRST;
        row[6..8].copy_from_slice(&(100 * hour + minute).to_le_bytes());
        let begins = number % u16::from(BATCH) == 0;
        row[0] = u8::from(begins);
        row[2] = if begins { BATCH } else { 0 };
        let at = SLOT * (usize::from(number) + 1);
        bytes[at..at + USED].copy_from_slice(&row);
    }
    bytes
}

/// The lines of its rows.
pub fn long_lines(alloc: Global) -> Result<String, AllocError> {
    let mut lines = String::new(alloc);
    for number in 0..MANY {
        let (hour, minute) = time_of(number);
        let line = format!(in alloc;
            "row 2024-07-01 {hour:02}:{minute:02} 5 outTemp=650 rain=0 highRainRate=0 windSamples=0 windGust=0 ET=0\n"
        )?;
        lines.push_str(&line)?;
    }
    Ok(lines)
}
