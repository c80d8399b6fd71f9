ghost use Rattle.std.specs.Prelude.{◌≡◌, ◌+◌, ◌<◌, ◌≤◌, ◌++◌};
ghost use Rattle.arrayvec.specs.ArrayVec.{array_vec_len};
ghost use Rattle.commands.specs.SlotText.{slot_line, slot_place_text};
ghost use Rattle.commands.specs.StyleRead.{style_of};

use crate::style::Style;
use archive_record::{RECORD_SIZE, SlotKind, kind_of};
use run_output::{ROOM, Text};
use station_base::{LINE_ROOM, push_bytes, push_number};
use vantage_frames::SLOTS;

/// Appends the line of a slot with these bytes. An empty slot has none.
#[tactic(auto, using(station_base::proofs::NumberWidths::number_text_width))]
pub fn push_slot(text: &mut Text, page: u32, place: u8, style: &Style<'_>, slot: &[u8; RECORD_SIZE])
    requires place { place < SLOTS }
    requires room { array_vec_len text.old + LINE_ROOM ≤ ROOM }
    ensures line { text.new.items ≡ text.old.items ++ slot_line (style_of style.now) page place slot.now }
    ensures length { array_vec_len text.new ≤ array_vec_len text.old + LINE_ROOM }
{
    match kind_of(slot) {
        SlotKind::Empty => {}
        SlotKind::OtherRevision(revision) => {
            push_place(text, page, place);
            push_bytes(text, b" revision ");
            push_number(text, u32::from(revision));
            push_bytes(text, b"\n");
        }
        SlotKind::BadStamp { date, time } => {
            push_place(text, page, place);
            push_bytes(text, b" stamp ");
            push_number(text, u32::from(date));
            push_bytes(text, b" ");
            push_number(text, u32::from(time));
            push_bytes(text, b"\n");
        }
        SlotKind::Record(stamp) => style.push_record(text, stamp, slot),
    }
}

// Appends where a slot stands.
#[tactic(auto, using(station_base::proofs::NumberWidths::number_text_width))]
fn push_place(text: &mut Text, page: u32, place: u8)
    requires place { place < SLOTS }
    requires room { array_vec_len text.old + 32 ≤ ROOM }
    ensures text { text.new.items ≡ text.old.items ++ slot_place_text page place }
    ensures length { array_vec_len text.new ≤ array_vec_len text.old + 32 }
{
    push_bytes(text, b"page ");
    push_number(text, page);
    push_bytes(text, b" place ");
    push_number(text, u32::from(place));
}
