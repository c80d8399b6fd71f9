//! Words that all traits of the outside share: when a fault may be answered, what is told of a
//! meaning that need not be told, what a write that failed leaves, and how storing ended.
#![tactic(auto)]

mod count;
mod memory;
mod stored;

pub use count::raised;
pub use memory::OutOfMemory;
pub use stored::Stored;
