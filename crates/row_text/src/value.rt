ghost use Rattle.std.specs.Prelude.{◌≡◌, ◌≤◌, IfOk};
ghost use Rattle.station_base.specs.Limits.{farthest_value};
ghost use Rattle.row_text.specs.Numbers.{size_of_text, value_of_text};

use crate::RowFault;
use crate::number::read_plain;
use numerals::MOST_DIGITS;
use station_base::FARTHEST_VALUE;

// The number of at most ten digits, if a row may hold it.
#[tactic(auto, unfolding(crate::specs::Numbers::size_of_text))]
fn read_size(digits: &[u8]) -> Result<u32, RowFault>
    ensures size { result ≡ size_of_text digits.now }
    ensures near { IfOk result (λ size. size ≤ farthest_value) }
{
    let Some(size) = read_plain(digits, MOST_DIGITS) else {
        return Err(RowFault::NoNumber);
    };
    if size > u64::from(FARTHEST_VALUE) {
        return Err(RowFault::TooFar);
    }
    Ok(size as u32)
}

// The number of which this is the text, if a row may hold it.
#[tactic(auto, unfolding(crate::specs::Numbers::value_of_text))]
pub fn read_value(text: &[u8]) -> Result<i32, RowFault>
    ensures { result ≡ value_of_text text.now }
{
    if text.is_empty() {
        return Err(RowFault::NoNumber);
    }
    if text[0] != b'-' {
        return Ok(read_size(text)? as i32);
    }
    let size = read_size(&text[1..])?;
    if size == 0 {
        return Err(RowFault::NoNumber);
    }
    Ok(-(size as i32))
}
