//! An archive that is opened, and a round that is played, over a modelled line and a disk that stops.
#![tactic(auto)]

mod opening;
mod playing;
mod resting;

pub use opening::{recover, recover_with_stop};
pub use playing::{Played, Playing, begin_play, end_play};
