//! Archive rows made from LOOP packets: each interval in which packets were heard gives one row. Nothing in this crate takes
//! memory.
#![tactic(auto)]

mod entry;
mod interval_end;
mod laws;
mod open_interval;
mod reading;
mod record;
mod row;
mod spread;
mod sums;

pub use entry::ENTRY_SIZE;
pub use laws::{given_rows_stay, intervals_end_at_the_earliest_multiple};
pub use record::{SoftRecord, Took};
