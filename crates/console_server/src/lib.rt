//! A modelled console, made ready by a schedule and served over any link.
#![tactic(auto)]

mod readying;
mod run;
mod serving;

pub use readying::make_ready;
pub use serving::{ServeEnd, Served, serve};
