//! Reports over an archive: the lines of its rows, and what they come to by days and by months. None takes memory.
#![tactic(auto)]

mod by_day;
mod by_month;
mod by_row;
mod days;
mod end;
mod laws;
mod line;
mod month;
mod printing;

pub use by_day::{all_days, day_table};
pub use by_month::month_table;
pub use by_row::{listing, rows_from};
pub use days::summary_of;
pub use end::ReportEnd;
pub use laws::days_are_recomputed;
pub use line::{PIECE, Pending, ROOM, push_signed};
pub use printing::{finish, make_room};
