//! Makes a schedule from a number, and runs it to counts.
#![tactic(auto)]

mod making;
mod record;
mod round;
mod schedule;

pub use making::{MakeEnd, make};
pub use schedule::{MOST_MADE, made_schedule};
