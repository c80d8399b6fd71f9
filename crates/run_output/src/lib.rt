//! What a run reads first, what it writes last, and how it ends.
#![tactic(auto)]

mod ending;
mod finishing;
mod outside;
mod reading;
mod status;
mod steps;
mod text;

pub use ending::Ending;
pub use finishing::finish;
pub use outside::Outside;
pub use reading::{read, settle};
pub use status::Status;
pub use steps::{attach, connect};
pub use text::{PAGE_ROOM, PIECE, ROOM, Text, push_memory};
