ghost use Rattle.std.specs.Prelude.{◌≡◌, ◌<◌, None, Some, MatchOption};
ghost use Rattle.station_base.specs.Fields.{field_count};
ghost use Rattle.row_text.specs.FieldsTold.{behind_name, told_by_word, fault_behind_fields};
ghost use Rattle.row_text.specs.RowOfLine.{row_behind_period};

use crate::RowFault;
use crate::value::read_value;
use crate::words::{end_before, read_behind};
use station_base::{FIELD_COUNT, FieldId, Period, Row, Stamp};

// The row of this stamp and interval, and of the fields of which a text tells.
#[tactic(auto, unfolding(crate::specs::RowOfLine::row_behind_period))]
pub fn read_fields(stamp: Stamp, interval: Period, text: &[u8]) -> Result<Row, RowFault>
    ensures { result ≡ row_behind_period stamp interval text.now }
{
    let mut values = [None; FIELD_COUNT];
    let mut limited = 0u64;
    let mut rest = text;
    for index in 0..FIELD_COUNT {
        let field = FieldId::from_index(index).unwrap();
        if let Some(more) = read_name(rest, field) {
            let end = end_before(more, b' ');
            let told = match read_told(&more[..end]) {
                Ok(told) => told,
                Err(fault) => return Err(fault),
            };
            values[index] = told;
            if told.is_none() {
                limited += 1 << index;
            }
            rest = &more[end..];
        }
    }
    if !rest.is_empty() {
        return Err(find_fault(rest));
    }
    Ok(Row {
        stamp,
        interval,
        values,
        limited,
    })
}

// What stands behind ` NAME=`, if the text begins so with the name of the field.
#[tactic(auto, unfolding(crate::specs::FieldsTold::behind_name))]
fn read_name<'a>(text: &'a [u8], field: FieldId) -> Option<&'a [u8]>
    requires { field < field_count }
    ensures { MatchOption result (behind_name field text.now ≡ None)
        (λ more. behind_name field text.now ≡ Some more.now) }
{
    let text = read_behind(text, b" ")?;
    let text = read_behind(text, field.name().as_bytes())?;
    read_behind(text, b"=")
}

// The value that a word tells, and none if it tells that limits made it missing.
#[tactic(auto, unfolding(crate::specs::FieldsTold::told_by_word))]
fn read_told(word: &[u8]) -> Result<Option<i32>, RowFault>
    ensures { result ≡ told_by_word word.now }
{
    if word == b"limit".as_slice() {
        return Ok(None);
    }
    Ok(Some(read_value(word)?))
}

// Why a text that goes on behind the last field is of no row.
#[tactic(auto, unfolding(crate::specs::FieldsTold::fault_behind_fields))]
fn find_fault(text: &[u8]) -> RowFault
    ensures { result ≡ fault_behind_fields text.now }
{
    for index in 0..FIELD_COUNT {
        let field = FieldId::from_index(index).unwrap();
        if let Some(_more) = read_name(text, field) {
            return RowFault::NotRising;
        }
    }
    RowFault::NoField
}
