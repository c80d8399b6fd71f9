//! The tasks of a console beside its archive: its clock, its memory, its period, its kind and its live packets.
#![tactic(auto)]

mod clock;
mod end;
mod exchange;
mod frame;
mod kind;
mod laws;
mod memory;
mod packets;
mod period;
mod start;
mod time;

pub use end::TaskEnd;
pub use kind::station_kind;
pub use laws::talks_end_once;
pub use memory::{read_eeprom, write_eeprom};
pub use packets::{MOST_PACKETS, loop_packets};
pub use period::set_period;
pub use time::{get_time, set_time};
