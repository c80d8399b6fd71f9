//! The frames and command lines of the Davis console protocol.
#![tactic(auto)]

mod command;
mod header;
mod names;
mod page;
mod reading;
mod stamp;
mod words;
mod writing;

pub use command::Command;
pub use header::{HEADER_SIZE, HeaderRead, LAST_PLACE, MOST_PAGES, read_header, write_header};
pub use page::{PAGE_SIZE, Page, PageRead, SLOTS, read_page};
pub use reading::read_command;
pub use stamp::{STAMP_FRAME_SIZE, stamp_frame};
pub use writing::{LINE_ROOM, write_command};
