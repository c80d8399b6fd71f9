//! The outside as the system has it: files, an archive's file, a line over TCP, and the standard streams.
#![tactic(auto)]

mod file_disk;
mod new_archive;
mod open_files;
mod outcome;
mod std_files;
mod std_sink;
mod streams;
mod tcp_link;

pub use file_disk::FileDisk;
pub use new_archive::may_be_new_archive;
pub use open_files::OpenFiles;
pub use outcome::{Outcome, understand};
pub use std_files::{StdFiles, read_front};
pub use std_sink::{StdSink, write_whole};
pub use streams::hold_standard_streams;
pub use tcp_link::TcpLink;
