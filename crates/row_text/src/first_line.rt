ghost use Rattle.std.specs.Prelude.{◌≡◌, ◌<◌, ◌≤◌, ◌+◌, ◌^◌, IfOk, MatchResult, Some, Ok, Err, true, length, drop};
ghost use Rattle.station_base.specs.LastStamp.{exceeds as stamp_exceeds};
ghost use Rattle.row_text.specs.IsLineRow.{IsLineRow};
ghost use Rattle.row_text.specs.RowOfLine.{row_of_line};
ghost use Rattle.row_text.specs.RowsOfText.{first_line_of, onto_row, rows_behind};

use crate::words::end_before;
use crate::{BadLine, LineFault, read_row};
use station_base::{Row, Stamp};

// The row of a line, and how many bytes the line has with its line feed.
#[derive(Clone, Copy)]
pub struct LineRead {
    pub row: Row,
    pub size: usize,
}

// Reads the first line of a text, the line of this number, behind a row of this stamp.
pub fn read_first_line(text: &[u8], last: Option<Stamp>, line: u64) -> Result<LineRead, BadLine>
    requires some { 0 < length text.now }
    ensures row { MatchResult result
        (λ read. rows_behind last line text.now
        ≡ onto_row read.row (rows_behind (Some read.row.stamp) (line + 1) (drop read.size text.now)))
        (λ bad. rows_behind last line text.now ≡ Err bad) }
    ensures line { IfOk result (λ read. row_of_line (first_line_of text.now) ≡ Ok read.row) }
    ensures some { IfOk result (λ read. 0 < read.size) }
    ensures within { IfOk result (λ read. read.size ≤ length text.now) }
    ensures writable { IfOk result (λ read. IsLineRow read.row) }
    ensures rising { IfOk result (λ read. stamp_exceeds last (Some read.row.stamp) ≡ true) }
{
    let end = end_before(text, b'\n');
    let row = match read_row(&text[..end]) {
        Ok(row) => row,
        Err(fault) => {
            return Err(BadLine {
                line,
                fault: LineFault::NoRowLine(fault),
            });
        }
    };
    if !exceeds(last, row.stamp) {
        return Err(BadLine {
            line,
            fault: LineFault::NotAfter,
        });
    }
    if end == text.len() {
        return Err(BadLine {
            line,
            fault: LineFault::NotEnded,
        });
    }
    Ok(LineRead { row, size: end + 1 })
}

// Whether the stamp exceeds the one before, if there is one.
fn exceeds(last: Option<Stamp>, stamp: Stamp) -> bool
    ensures { result ≡ stamp_exceeds last (Some stamp) }
{
    last.is_none_or(|last| last < stamp)
}
