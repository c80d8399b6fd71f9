use arrayvec::ArrayVec;
use station_base::{ClockTime, Period};

/// The most bytes of a console's memory that one task reads or writes.
pub const MOST_BYTES: usize = 255;

/// What is asked of a console.
#[derive(Debug, Drop)]
pub enum Task {
    /// `loop N`: so many live packets.
    Packets(u8),
    /// `eeprom read AT N`: bytes of its memory.
    ReadMemory {
        /// The place of the first.
        at: u16,
        /// How many.
        count: u8,
    },
    /// `eeprom write AT HEX`: bytes that its memory is to hold.
    WriteMemory {
        /// The place of the first.
        at: u16,
        /// The bytes.
        bytes: ArrayVec<u8, MOST_BYTES>,
    },
    /// `time`: what its clock shows.
    ReadClock,
    /// `time set DATE TIME`: what its clock is to show.
    SetClock(ClockTime),
    /// `period M`: the period of its archive.
    SetPeriod(Period),
    /// `kind`: which kind of station it is.
    Kind,
}
