//! The archive of a console: a ring of 2,560 slots, which is read in pages of five.
//!
//! The Davis serial manual gives the size, the pages, their sequences and the header. This project's own are: a record is
//! put only where its stamp exceeds the newest, newer is told by the two words of a stamp, and a dump goes on to the last
//! record, over the end of the ring into its first page again.
#![tactic(auto)]

mod dump;
mod laws;
mod newer;
mod plan;
mod put;
mod ring;

pub use laws::{newer_records_are_the_last, pages_tell_their_number, slots_show_the_last};
pub use plan::Plan;
pub use put::RingPut;
pub use ring::Ring;
