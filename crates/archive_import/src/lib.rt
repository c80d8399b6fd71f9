//! Rows of a text added to an archive: those whose stamps exceed that of its last row, in order.
#![tactic(auto)]

mod adding;
mod batch;
mod end;
mod importing;
mod laws;
mod passing;

pub use end::{ImportEnd, Imported};
pub use importing::import_rows;
pub use laws::lines_of_an_archive_are_its_rows;
