//! The commands over files of pages, archives and consoles: what each does, in steps of which each may end the run.
//!
//! Each command stands out of line. The function that calls one of them would else have room on its stack for the locals of all.
#![tactic(auto)]

mod archive_report;
mod asking;
mod calling;
mod catching_up;
mod climate;
mod copying;
mod entries;
mod importing;
mod laws;
mod pages;
mod pausing;
mod printing;
mod queries;
mod recovering;
mod reporting;
mod slot_text;
mod stayed;
mod staying;
mod style;
mod task_text;
mod waiting;

pub use archive_report::ArchiveReport;
pub use calling::call_for;
pub use catching_up::catch_up;
pub use climate::print_climate;
pub use copying::copy_files;
pub use entries::soft_rows;
pub use importing::import_text;
pub use laws::{a_report_is_read_back, a_stay_is_rounds_of_station, an_import_is_reported};
pub use printing::{corrected_pages, print_file};
pub use queries::answer_requests;
pub use reporting::{report, report_over};
pub use staying::stay;
