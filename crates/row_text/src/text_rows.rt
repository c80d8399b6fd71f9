ghost use Rattle.std.specs.Prelude.{◌≡◌, ◌<◌, ◌+◌, ◌^◌, IfSome, IfOk, IfErr, MatchOption, MatchResult, Ok, Err, Some, None, [], true, length};

use crate::BadLine;
use crate::first_line::{LineRead, read_first_line};
use station_base::{Row, Stamp};

/// The lines of a text that are not read yet, which are to be those of rows whose stamps rise. It keeps no rows, so that a text
/// which was judged by `count_rows` is read a second time for them, one by one.
#[derive(Clone, Copy)]
pub struct TextRows<'a> {
    rest: &'a [u8],
    last: Option<Stamp>,
    line: u64,
    ghost numbered: { line + length rest.now < 2 ^ 64 },
}

impl<'a> TextRows<'a> {
    ghost use Rattle.station_base.specs.LastStamp.{exceeds as stamp_exceeds};
    ghost use Rattle.row_text.specs.IsLineRow.{IsLineRow};
    ghost use Rattle.row_text.specs.RowsLeft.{rows_left, bytes_left, next_line_left, stamp_before};
    ghost use Rattle.row_text.specs.RowOfLine.{row_of_line};
    ghost use Rattle.row_text.specs.RowsOfText.{onto_row, rows_of_text};

    /// All lines of a text, of which the first has number 1.
    pub fn of(text: &'a [u8]) -> TextRows<'a>
        ensures rows { rows_left result ≡ rows_of_text text.now }
        ensures first { stamp_before result ≡ None }
        ensures bytes { bytes_left result ≡ length text.now }
    {
        TextRows {
            rest: text,
            last: None,
            line: 1,
        }
    }

    /// The row of the next line, or the fault of that line; none if no line is left. A line at fault stays the next one.
    pub fn next(&mut self) -> Option<Result<Row, BadLine>>
        ensures rows { MatchOption result (rows_left self.old ≡ Ok []) (λ read. MatchResult read
            (λ row. rows_left self.old ≡ onto_row row (rows_left self.new))
            (λ bad. rows_left self.old ≡ Err bad)) }
        ensures line { IfSome result (λ read. IfOk read (λ row. row_of_line (next_line_left self.old) ≡ Ok row)) }
        ensures writable { IfSome result (λ read. IfOk read IsLineRow) }
        ensures rising { IfSome result (λ read. IfOk read (λ row.
            stamp_exceeds (stamp_before self.old) (Some row.stamp) ≡ true)) }
        ensures last { IfSome result (λ read. IfOk read (λ row. stamp_before self.new ≡ Some row.stamp)) }
        ensures stays { IfSome result (λ read. IfErr read (λ _. rows_left self.new ≡ rows_left self.old)) }
        ensures shorter { IfSome result (λ read. IfOk read (λ _. bytes_left self.new < bytes_left self.old)) }
    {
        let rest = self.rest;
        if rest.is_empty() {
            return None;
        }
        match read_first_line(rest, self.last, self.line) {
            Ok(LineRead { row, size }) => {
                self.rest = &rest[size..];
                self.last = Some(row.stamp);
                self.line += 1;
                Some(Ok(row))
            }
            Err(bad) => Some(Err(bad)),
        }
    }
}
