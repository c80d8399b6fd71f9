ghost use Rattle.std.specs.Prelude.{◌≡◌, ◌+◌, ◌≤◌, ◌++◌, length, codes};
ghost use Rattle.arrayvec.specs.ArrayVec.{array_vec_len};
ghost use Rattle.station_base.specs.Fields.{name_of};
ghost use Rattle.settings_file.specs.FaultLine.{fault_line, key_text, section_name, change_name, field_name};
ghost use Rattle.station_base.specs.NumberText.{number_text};

use crate::fault::{Section, SettingsFault};
use arrayvec::ArrayVec;
use station_base::{FIELD_COUNT, FieldId, push_bytes, push_number};

/// The most bytes that the line of a fault can have.
pub const LINE_ROOM: usize = 80;

/// The line of a fault.
pub type Line = ArrayVec<u8, LINE_ROOM>;

impl SettingsFault {
    /// The line that tells an observer of the fault, with its LF. Want of memory has none: the bytes are then empty.
    pub fn line(&self) -> Line
        ensures { result.items ≡ fault_line self.now }
    {
        let mut line = Line::new();
        match self {
            SettingsFault::Syntax => push_bytes(&mut line, b"settings syntax\n"),
            SettingsFault::UnknownKey {
                section,
                field,
                index,
            } => {
                push_bytes(&mut line, b"settings unknown key ");
                push_key(&mut line, *section, field, *index);
            }
            SettingsFault::BadNumber {
                section,
                field,
                index,
            } => {
                push_bytes(&mut line, b"settings bad number ");
                push_key(&mut line, *section, field, *index);
            }
            SettingsFault::LimitsCrossed(field) => {
                push_bytes(&mut line, b"settings crossed ");
                push_bytes(&mut line, name_of(*field).as_bytes());
                push_bytes(&mut line, b"\n");
            }
            SettingsFault::BadPeriod => push_bytes(&mut line, b"settings bad period\n"),
            SettingsFault::TooManyChanges => {
                push_bytes(&mut line, b"settings too many changes\n");
            }
            SettingsFault::BadFrom { index } => {
                push_bytes(&mut line, b"settings bad from ");
                push_last_number(&mut line, *index);
            }
            SettingsFault::ChangeOrder { index } => {
                push_bytes(&mut line, b"settings change order ");
                push_last_number(&mut line, *index);
            }
            SettingsFault::CrossedInChange { at, field } => {
                push_bytes(&mut line, b"settings crossed ");
                push_bytes(&mut line, name_of(*field).as_bytes());
                push_bytes(&mut line, b" change ");
                push_last_number(&mut line, u32::from(*at));
            }
            SettingsFault::OutOfMemory => {}
        }
        line
    }
}

// Appends a number, and ends the line.
#[tactic(auto, using(station_base::proofs::NumberWidths::number_text_width))]
fn push_last_number(line: &mut Line, number: u32)
    requires { array_vec_len line.old + 11 ≤ LINE_ROOM }
    ensures { line.new.items ≡ line.old.items ++ number_text number ++ codes "\n" }
{
    push_number(line, number);
    push_bytes(line, b"\n");
}

// Appends where a key stands, and ends the line.
#[tactic(auto, using(station_base::proofs::NumberWidths::number_text_width))]
fn push_key(line: &mut Line, section: Section, field: &Option<FieldId>, index: u32)
    requires { array_vec_len line.old + 59 ≤ LINE_ROOM }
    ensures { line.new.items ≡ line.old.items ++ key_text section field.now index ++ codes "\n" }
{
    push_section(line, section);
    push_bytes(line, b" ");
    push_bytes(line, name_of_field(field).as_bytes());
    push_bytes(line, b" ");
    push_number(line, index);
    push_bytes(line, b"\n");
}

// Appends the name of a section.
fn push_section(line: &mut Line, section: Section)
    requires { array_vec_len line.old + 32 ≤ LINE_ROOM }
    ensures name { line.new.items ≡ line.old.items ++ section_name section }
    ensures width { array_vec_len line.new ≤ array_vec_len line.old + 32 }
{
    match section {
        Section::Top => push_bytes(line, b"top"),
        Section::Calibration => push_bytes(line, b"calibration"),
        Section::Limits => push_bytes(line, b"limits"),
        Section::Change { at } => push_change(line, at, b""),
        Section::ChangeCalibration { at } => push_change(line, at, b"-calibration"),
        Section::ChangeLimits { at } => push_change(line, at, b"-limits"),
    }
}

// Appends the name of a change, or of a section in it.
#[tactic(auto, using(station_base::proofs::NumberWidths::number_text_width))]
fn push_change(line: &mut Line, at: u8, section: &[u8])
    requires part { length section.now ≤ 15 }
    requires room { array_vec_len line.old + 32 ≤ LINE_ROOM }
    ensures name { line.new.items ≡ line.old.items ++ (change_name at ++ section.now) }
    ensures width { array_vec_len line.new ≤ array_vec_len line.old + 32 }
{
    push_bytes(line, b"change-");
    push_number(line, u32::from(at));
    push_bytes(line, section);
}

// The name of a field, which is short.
#[tactic(auto, using(station_base::proofs::FieldTexts::name_width))]
fn name_of(field: FieldId) -> &'static str
    ensures name { result.now ≡ name_of field }
    ensures width { length result.now ≤ 13 }
{
    prove!(field.index() < FIELD_COUNT);
    field.name()
}

// The same, or a dash where there is no field.
fn name_of_field(field: &Option<FieldId>) -> &'static str
    ensures name { result.now ≡ field_name field.now }
    ensures width { length result.now ≤ 13 }
{
    match field {
        Some(field) => name_of(*field),
        None => "-",
    }
}
