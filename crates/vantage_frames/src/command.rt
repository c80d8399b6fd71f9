use station_base::Period;

/// A command of a console, each of which is one line (Davis serial manual, "Commands"; the ranges of the numbers are this
/// project's profile).
#[derive(Clone, Copy, Debug, PartialEq, Eq)]
pub enum Command {
    /// `TEST`: the console answers with the same word.
    Test,
    /// `WRD`: which kind of station the console is.
    Kind,
    /// `LOOP`: so many packets, 1 to 9,999, with what the sensors say now.
    LoopFor(u16),
    /// `DMPAFT`: the archive records after a stamp, which a frame names then.
    DumpAfter,
    /// `EEBRD`: so many bytes of the EEPROM from a place on.
    EepromRead {
        /// The place of the first byte.
        at: u16,
        /// How many bytes, 1 at least, none of them past the 4,096.
        count: u8,
    },
    /// `EEBWR`: so many bytes of the EEPROM become others, which a frame brings then.
    EepromWrite {
        /// The place of the first byte.
        at: u16,
        /// How many bytes, 1 at least, none of them past the 4,096.
        count: u8,
    },
    /// `GETEE`: the whole EEPROM.
    EepromAll,
    /// `GETTIME`: what the console's clock shows.
    TimeGet,
    /// `SETTIME`: the clock shows another time, which a frame brings then.
    TimeSet,
    /// `SETPER`: archive records come at this period.
    SetPeriod(Period),
    /// `CLRLOG`: the archive is emptied.
    ClearLog,
}
