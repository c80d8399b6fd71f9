//! What the rows of a day, or of a month, come to in each field: the least and the greatest value with their
//! stamps, sums and times.
#![tactic(auto)]

mod entry;
mod field_sum;
mod laws;
mod parts;
mod running;
mod summary;

pub use field_sum::FieldSum;
pub use laws::{first_extremes, measured_rows};
pub use parts::{PART_COUNT, PART_SIZE, PARTS_SIZE};
pub use running::{RunningField, RunningSummary};
pub use summary::DaySummary;
