use dmpaft_pump::{ANSWER_SIZE, FLOOD, LONGEST_MESSAGE, REPEATS, WAKES};
use vantage_frames::{MOST_PAGES, PAGE_SIZE, STAMP_FRAME_SIZE};

// How often a line feed is said at most.
const TRIES: usize = 1 + WAKES as usize;

// The most askings for pages: each page is asked for once, and again where it did not come.
const ASKINGS: usize = (1 + REPEATS as usize) * MOST_PAGES as usize;

// The most settlings: one first, one after each line feed, and one before each asking that is a repeat.
const SETTLINGS: usize = 1 + TRIES + REPEATS as usize * MOST_PAGES as usize;

/// The most bytes that an attempt hears: those of its settlings, of a flood each, one byte that answers `DMPAFT`, those
/// that answer the stamp frame, and a page for each asking.
pub const MOST_HEARD: usize = SETTLINGS * FLOOD + 1 + ANSWER_SIZE + ASKINGS * PAGE_SIZE;

/// The most bytes that an attempt says: the line feeds of a wake, `DMPAFT` and a line feed, the stamp frame, the askings for
/// pages, and the byte that ends it.
pub const MOST_SAID: usize = TRIES + LONGEST_MESSAGE + STAMP_FRAME_SIZE + ASKINGS + 1;
