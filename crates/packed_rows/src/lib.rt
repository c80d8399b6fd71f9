//! Rows packed into slots, with a summary behind each day that is over.
#![tactic(auto)]

mod batch_slots;
mod tail;

pub use batch_slots::{LONGEST_BATCH, pack};
pub use tail::{CLOSING, Judged, PART, Tail, is_known};
