//! Archive records of revision B: rows in 52 bytes, read and written.
#![tactic(auto)]

mod kind;
mod place;
mod record;
mod record_read;
mod record_write;
mod table;

pub use place::RECORD_SIZE;
pub use record::Rec52;
pub use record_read::{RecordRead, SlotKind, kind_of, read, row_in, value_in};
pub use record_write::write;
