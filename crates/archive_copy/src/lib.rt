//! A copy of an archive: the rows that another archive lacks are added to it, in order.
#![tactic(auto)]

mod adding;
mod batch;
mod comparing;
mod copying;
mod end;
mod limits;
mod opening;
mod reader;

pub use copying::copy;
pub use end::CopyEnd;
