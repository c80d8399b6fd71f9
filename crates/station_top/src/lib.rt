//! The program, over files, a sink, a link and two disks that are handed in.
#![tactic(auto)]

mod program;

pub use program::run;
