//! Rows from their lines, and from texts of lines.
#![tactic(auto)]

mod bad_line;
mod counting;
mod fault;
mod fields;
mod first_line;
mod laws;
mod line;
mod number;
mod text_rows;
mod value;
mod words;

pub use bad_line::{BadLine, LineFault};
pub use counting::count_rows;
pub use fault::RowFault;
pub use laws::{line_is_read_back, text_is_read_as_its_rows, what_is_read_is_the_line};
pub use line::read_row;
pub use text_rows::TextRows;
