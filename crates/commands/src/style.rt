ghost use Rattle.std.specs.Prelude.{◌≡◌, ◌+◌, ◌≤◌, ◌++◌, None, codes, slice_index_or};
ghost use Rattle.arrayvec.specs.ArrayVec.{array_vec_len};
ghost use Rattle.station_base.specs.Stamp.{stamp_text};
ghost use Rattle.archive_record.specs.Reading.{row_of_record, record_values};
ghost use Rattle.commands.specs.SlotText.{row_text, temperature_text};
ghost use Rattle.commands.specs.Style.{style_period};

use archive_record::{RECORD_SIZE, row_in, value_in};
use quality::corrected;
use run_output::{ROOM, Text};
use settings_file::Settings;
use station_base::{FieldId, LINE_ROOM, Stamp, push_bytes, push_signed};

/// How the rows of a file of pages are written.
#[derive(Drop)]
pub enum Style<'a> {
    /// By stamp and outside temperature.
    Short,
    /// By the row line of the row that the settings correct.
    Corrected(&'a Settings),
}

// The number of the field that the short style writes.
const OUTSIDE_TEMPERATURE: usize = 0;

impl<'a> Style<'a> {
    ghost use Rattle.commands.specs.StyleRead.{style_of};

    /// Appends the line of the record with this stamp.
    pub fn push_record(&self, text: &mut Text, stamp: Stamp, bytes: &[u8; RECORD_SIZE])
        requires room { array_vec_len text.old + LINE_ROOM ≤ ROOM }
        ensures line { text.new.items
            ≡ text.old.items ++ row_text (style_of self.now)
            (row_of_record bytes.now (style_period (style_of self.now)) stamp) }
        ensures length { array_vec_len text.new ≤ array_vec_len text.old + LINE_ROOM }
    {
        match self {
            Style::Short => push_short(text, stamp, outside_temperature(bytes)),
            Style::Corrected(settings) => {
                let row = row_in(bytes, settings.period(), stamp);
                corrected(settings, &row).push_line(text);
            }
        }
    }
}

// What a record tells of the outside temperature.
fn outside_temperature(bytes: &[u8; RECORD_SIZE]) -> Option<i32>
    ensures { result ≡ slice_index_or (record_values bytes.now) 0 None }
{
    value_in(bytes, FieldId::from_index(OUTSIDE_TEMPERATURE).unwrap())
}

// Appends stamp and outside temperature.
#[tactic(auto, using(station_base::proofs::NumberWidths::number_text_width))]
fn push_short(text: &mut Text, stamp: Stamp, temperature: Option<i32>)
    requires room { array_vec_len text.old + LINE_ROOM ≤ ROOM }
    ensures line { text.new.items
        ≡ text.old.items ++ stamp_text stamp ++ codes " " ++ temperature_text temperature ++ codes "\n" }
    ensures length { array_vec_len text.new ≤ array_vec_len text.old + LINE_ROOM }
{
    push_bytes(text, &stamp.text());
    text.push(b' ');
    match temperature {
        Some(tenths) => push_signed(text, tenths),
        None => text.push(b'-'),
    }
    text.push(b'\n');
}
