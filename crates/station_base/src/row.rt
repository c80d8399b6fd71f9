ghost use Rattle.std.specs.Prelude.{◌≡◌, ◌+◌, ◌*◌, ◌<◌, ◌≤◌, ◌++◌, All, codes};
ghost use Rattle.arrayvec.specs.ArrayVec.{array_vec_len};
ghost use Rattle.station_base.specs.FieldSet.{AreMissing};
ghost use Rattle.station_base.specs.Fields.{field_count, name_of};
ghost use Rattle.station_base.specs.Line.{line_so_far};
ghost use Rattle.station_base.specs.RowLine.{IsPrintable, value_text, values_text};

use crate::field::{AROUND, FIELD_COUNT, FieldId, HEAD_ROOM};
use crate::field_set::FieldSet;
use crate::line::Line;
use crate::period::Period;
use crate::stamp::Stamp;
use crate::text::push_bytes;
use arrayvec::ArrayVec;

/// How far a value may be from 0, in the unit of its field.
pub const FARTHEST_VALUE: u32 = 2_000_000;

/// The most rows of an archive.
pub const MOST_ROWS: u32 = 1_048_576;

/// The room that a text needs for the line of a row.
pub const LINE_ROOM: usize = 1024;

/// What a station measured in the interval that ends with the stamp.
#[derive(Clone, Copy, Debug, PartialEq, Eq)]
pub struct Row {
    /// The last minute of the interval.
    pub stamp: Stamp,
    /// How long the interval is.
    pub interval: Period,
    /// The value of each field by its number, in the field's unit, and none where a sensor told none.
    pub values: [Option<i32>; FIELD_COUNT],
    /// The fields whose value was beyond its limits and is missing for that, as the bits of a `FieldSet`: bit f is 1 for
    /// field f.
    pub limited: u64,
}

impl Row {
    ghost use Rattle.station_base.specs.RowLine.{row_line};

    /// Appends the line `row YYYY-MM-DD HH:MM I` to a text that has room for it, where I is the interval in minutes. By
    /// their numbers follow ` NAME=VALUE` for each field that has a value and ` NAME=limit` for each that limits made
    /// missing. The line ends with a line feed, and has at most 876 bytes. Values are to lie within 2,000,000 either way,
    /// and a field of `limited` is to have none.
    pub fn push_line<const ROOM: usize>(&self, text: &mut ArrayVec<u8, ROOM>)
        requires room { array_vec_len text.old + LINE_ROOM ≤ ROOM }
        requires values { All IsPrintable self.now.values }
        requires limited { AreMissing self.now.limited self.now.values }
        ensures text { text.new.items ≡ text.old.items ++ row_line self.now }
        ensures length { array_vec_len text.new ≤ array_vec_len text.old + 876 }
    {
        let limited = FieldSet::from_bits(self.limited).unwrap();
        let mut line = Line::new();
        line.put(b"row ");
        line.put(&self.stamp.text());
        line.put(b" ");
        line.put_number(u32::from(self.interval.minutes()));
        push_values(&mut line, &self.values, limited);
        line.put(b"\n");
        push_bytes(text, line.text());
    }
}

impl Default for Row {
    ghost use Rattle.station_base.specs.RowLine.{blank_row};

    ghost is_default = { λ row. row ≡ blank_row };

    /// The row of the first stamp, with the shortest interval and no values, which `ArrayVec` fills its places with.
    fn default() -> Row {
        Row {
            stamp: Stamp::first(),
            interval: Period::shortest(),
            values: [None; FIELD_COUNT],
            limited: 0,
        }
    }
}

// Appends each value with the name of its field, and the names of those that limits made missing.
fn push_values(line: &mut Line, values: &[Option<i32>; FIELD_COUNT], limited: FieldSet)
    requires room { line.old.end + 23 * FIELD_COUNT + HEAD_ROOM ≤ LINE_ROOM }
    requires printable { All IsPrintable values.now }
    ensures text { line_so_far line.new ≡ line_so_far line.old ++ values_text limited 0 values.now }
    ensures length { line.new.end ≤ line.old.end + 23 * FIELD_COUNT }
{
    for (index, value) in values.iter().enumerate() {
        let field = FieldId::from_index(index).unwrap();
        push_value(line, field, *value, limited.contains(field));
    }
}

// Appends a value with the name of its field, or the name alone where limits made it missing.
fn push_value(line: &mut Line, field: FieldId, value: Option<i32>, is_limited: bool)
    requires room { line.old.end + 23 + HEAD_ROOM ≤ LINE_ROOM }
    requires field { field < field_count }
    requires printable { IsPrintable value }
    ensures text { line_so_far line.new ≡ line_so_far line.old ++ value_text is_limited field value }
    ensures length { line.new.end ≤ line.old.end + 23 }
{
    match value {
        Some(value) => {
            push_head(line, field);
            line.put_signed(value);
        }
        None if is_limited => {
            push_head(line, field);
            line.put(b"limit");
        }
        None => {}
    }
}

// Appends what stands before the value of a field.
fn push_head(line: &mut Line, field: FieldId)
    requires room { line.old.end + HEAD_ROOM ≤ LINE_ROOM }
    requires field { field < field_count }
    ensures text { line_so_far line.new ≡ line_so_far line.old ++ codes " " ++ name_of field ++ codes "=" }
    ensures length { line.new.end ≤ line.old.end + 15 }
{
    line.put_front(field.head(), field.name().len() + AROUND);
}
