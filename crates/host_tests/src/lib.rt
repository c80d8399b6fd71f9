//! The tests of the host's side, whose crates are proved once, without them.
#![tactic(auto)]

#[cfg(test)]
mod console_tasks_tests;
#[cfg(test)]
mod dmpaft_driver_tests;
mod noting_keeper;
#[cfg(test)]
mod wake_retry_tests;

pub use noting_keeper::{Notes, last_of};
