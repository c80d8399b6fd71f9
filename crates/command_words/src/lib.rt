//! What the words of the command line ask for.
#![tactic(auto)]

mod clock_words;
mod command;
mod numbers;
mod report_words;
mod task;
mod task_words;
mod wanted;
mod words;

pub use command::Command;
pub use task::{MOST_BYTES, Task};
pub use wanted::{ReportKind, Wanted};
pub use words::{ConsoleWords, FleetWords, MOST_SCHEDULES, StationWords};
