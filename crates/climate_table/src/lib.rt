//! Climate tables of a year: the degree days of each day, and the totals by months and of the year. Nothing in
//! this crate takes memory.
#![tactic(auto)]

mod climate_summary;
mod degree_days;
mod line;
mod span;
mod table;
mod totals;
mod year_table;

pub use totals::{Fraction, total};
pub use year_table::climate;
