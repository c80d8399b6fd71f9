//! Numbers and bytes that the digits of a word write.
#![tactic(auto)]

mod numeral;
mod pairs;

pub use numeral::{DECIMAL, HEXADECIMAL, MOST_DIGITS, read_number, read_within};
pub use pairs::read_pairs;
