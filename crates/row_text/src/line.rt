ghost use Rattle.std.specs.Prelude.{◌≡◌};
ghost use Rattle.row_text.specs.RowOfLine.{row_of_line};

use crate::RowFault;
use crate::fields::read_fields;
use crate::number::read_period;
use crate::words::{end_before, read_behind};
use station_base::{Row, Stamp};

// The bytes of a stamp's text.
const STAMP_SIZE: usize = 16;

/// The row of which this is the line, without its line feed, and else the first fault from the left. Only the line of a row
/// is read, as `Row::push_line` writes it.
#[tactic(auto, unfolding(crate::specs::RowOfLine::row_of_line))]
pub fn read_row(line: &[u8]) -> Result<Row, RowFault>
    ensures { result ≡ row_of_line line.now }
{
    let Some(text) = read_behind(line, b"row ") else {
        return Err(RowFault::NoRow);
    };
    if text.len() < STAMP_SIZE {
        return Err(RowFault::NoStamp);
    }
    let Some(stamp) = Stamp::from_text(&text[..STAMP_SIZE]) else {
        return Err(RowFault::NoStamp);
    };
    let Some(more) = read_behind(&text[STAMP_SIZE..], b" ") else {
        return Err(RowFault::NoPeriod);
    };
    let end = end_before(more, b' ');
    let Some(interval) = read_period(&more[..end]) else {
        return Err(RowFault::NoPeriod);
    };
    read_fields(stamp, interval, &more[end..])
}
