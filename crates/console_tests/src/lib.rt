//! The tests of the console's side, whose crates are proved once, without them.
#![tactic(auto)]

#[cfg(test)]
mod console_model_tests;
#[cfg(test)]
mod console_ring_tests;
#[cfg(test)]
mod console_server_tests;
mod fixtures;

pub use fixtures::new_console;
