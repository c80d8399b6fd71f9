//! Replays a schedule over the modelled line and a disk that stops.
#![tactic(auto)]

mod counts;
mod cut;
mod line;
mod making;
mod replaying;
mod round_line;
mod run;
mod teller;
mod text;
mod turns;
mod writing;

pub use counts::Counts;
pub use cut::Cut;
pub use making::{new_disk, new_line};
pub use replaying::{ReplayEnd, replay, replay_steps};
pub use round_line::{RoundEnding, RoundLine};
pub use teller::Teller;
pub use turns::{ReplayRun, ReplayTurn};
