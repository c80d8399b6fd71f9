//! A pump: one attempt to take the records that a console has after a stamp, as a machine that is stepped.
#![tactic(auto)]

mod action;
mod batch;
mod header;
mod keeper;
mod message;
mod outcome;
mod page_judge;
mod phase;
mod pump;
mod pump_end;
mod signal;
mod slot;
mod stage;
mod trouble_line;

pub use action::Action;
pub use batch::MOST_RECORDS;
pub use header::ANSWER_SIZE;
pub use keeper::{Keeper, Kept};
pub use message::LONGEST_MESSAGE;
pub use outcome::{DumpEnd, Tally, Trouble};
pub use phase::FLOOD;
pub use pump::{Pump, REPEATS, WAKES};
pub use pump_end::PumpEnd;
pub use trouble_line::TROUBLE_ROOM;
