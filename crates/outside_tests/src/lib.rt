//! The tests of the outside, in memory and as the system has it. Its crates are proved once, without them.
#![tactic(auto)]

#[cfg(test)]
mod calls;
#[cfg(test)]
mod disk_model_tests;
mod scripted_stream;
#[cfg(test)]
mod serial_link_tests;
#[cfg(test)]
mod station_outside_tests;

pub use scripted_stream::{Scripted, Step};
