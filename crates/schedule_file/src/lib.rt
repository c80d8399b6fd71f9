//! What falls due at a modelled console, what befalls on the line to it, and when rounds begin: the language of schedules.
#![tactic(auto)]

mod fate;
mod fates;
mod finding;
mod listing;
mod schedule;

pub use fate::Fate;
pub use fates::{Fates, Late, Mid};
pub use schedule::step::{Step, Stop};
pub use schedule::{Schedule, ScheduleFault};
