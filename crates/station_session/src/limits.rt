use dmpaft_pump::MOST_RECORDS;
use vantage_frames::MOST_PAGES;

// The attempts of a round, at most.
pub const ATTEMPTS: u8 = 3;

// The most troubles of a round: one for each attempt.
pub const MOST_TROUBLES: usize = ATTEMPTS as usize;

// The most batches of a round: one for each page of each attempt.
pub const MOST_BATCHES: usize = ATTEMPTS as usize * MOST_PAGES as usize;

// The most slots that the pages of one attempt skip, and the most rows that they give.
pub const MOST_SLOTS: usize = MOST_RECORDS * MOST_PAGES as usize;

// The most rows of a round.
pub const MOST_ROWS: usize = MOST_RECORDS * MOST_BATCHES;

// How many changes of the disk a batch takes.
pub const CHANGES: usize = 4;

// The most changes of the disk that a round begins.
pub const MOST_CHANGES: usize = CHANGES * MOST_BATCHES;

/// The most bytes that a round hears: what each of its attempts can hear.
pub const MOST_HEARD: usize = ATTEMPTS as usize * dmpaft_driver::MOST_HEARD;

/// The most bytes that a round says: what each of its attempts can say.
pub const MOST_SAID: usize = ATTEMPTS as usize * dmpaft_driver::MOST_SAID;
