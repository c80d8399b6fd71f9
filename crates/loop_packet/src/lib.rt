//! The LOOP packet of a Davis Vantage console: what its sensors say now.
#![tactic(auto)]

mod fault;
mod packet;
mod places;
mod reading;
mod writing;

pub use fault::LoopFault;
pub use packet::LoopPacket;
pub use reading::{PACKET_SIZE, read};
pub use writing::write;
