//! Rows added to an archive batch by batch: what comes of its opening and of each batch, wherever the rows come from.
#![tactic(auto)]

mod adding;
mod limits;
mod opening;
mod order;

pub use adding::{BatchEnd, add_batch};
pub use limits::BATCH;
pub use opening::{NotOpened, open_to};
pub use order::exceeds;
