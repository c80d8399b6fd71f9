//! What all crates of the station share: civil minutes, days, periods, fields, rows and their text.
#![tactic(auto)]

mod calendar;
mod clock;
mod day;
mod digits;
mod field;
mod field_set;
mod laws;
mod line;
mod period;
mod row;
mod stamp;
mod text;

pub use causes::OutOfMemory;
pub use clock::ClockTime;
pub use day::DayNumber;
pub use field::{FIELD_COUNT, FieldId};
pub use field_set::FieldSet;
pub use laws::{text_names_stamp, words_order_as_time};
pub use period::Period;
pub use row::{FARTHEST_VALUE, LINE_ROOM, MOST_ROWS, Row};
pub use stamp::Stamp;
pub use text::{DIGITS, push_bytes, push_count, push_number, push_signed};
