//! Files that are read whole, and sinks that take bytes: what they tell of their contents, and when
//! they may answer that the outside failed.
#![tactic(auto)]

mod files;
mod memory;
mod memory_sink;
mod sink;

pub use files::{Files, LONGEST, TextRead};
pub use memory::{MemFile, MemFiles};
pub use memory_sink::MemSink;
pub use sink::{Put, Sink};
