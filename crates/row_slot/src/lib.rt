//! One row of the archive as a slot of its log: 176 bytes, read and written.
#![tactic(auto)]

mod layout;
mod reading;
mod values;
mod writing;

pub use layout::ROW_SIZE;
pub use reading::read_into;
pub use values::limited_in;
pub use writing::write;
