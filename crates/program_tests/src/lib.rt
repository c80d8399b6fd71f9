//! The tests of the program over an outside that fails or is modelled, apart from the crates that they test.
#![tactic(auto)]

pub mod archives;
#[cfg(test)]
mod disk_tests;
#[cfg(test)]
mod file_tests;
#[cfg(test)]
mod line_tests;
#[cfg(test)]
mod modelled_tests;
#[cfg(test)]
mod running;
#[cfg(test)]
mod scripts;
#[cfg(test)]
mod sink_tests;
#[cfg(test)]
mod stay_tests;
