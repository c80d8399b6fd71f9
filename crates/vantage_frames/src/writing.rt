ghost use Rattle.std.specs.Prelude.{◌≡◌, ◌+◌, ◌<◌, ◌≤◌, Option, Some, [], ◌∷◌, ◌++◌, length, true, decimal};
ghost use Rattle.std.specs.Fmt.{digit_glyph};
ghost use Rattle.arrayvec.specs.ArrayVec.{array_vec_len};
ghost use Rattle.vantage_frames.specs.Line.{IsLineOf};
ghost use Rattle.vantage_frames.specs.LineReading.{LineReadsAs};
ghost use Rattle.vantage_frames.specs.LineWriting.{AreInEeprom, CanBeSaid, bytes_text, line_of, place_digits, two_digits};
ghost use Rattle.eeprom_map.specs.Memory.{eeprom_size};

use crate::command::Command;
use crate::names;
use arrayvec::ArrayVec;
use itoa::Buffer;

/// The most bytes that a written line can have.
pub const LINE_ROOM: usize = 64;

type Line = ArrayVec<u8, LINE_ROOM>;

/// Writes the line of a command, with the LF that ends it.
///
/// A place has two upper-case hexadecimal digits, or three where it needs them, a count has two, and decimal numbers have no
/// leading zeros. `read_command` reads the command from the bytes before the LF.
pub fn write_command(command: &Command) -> ArrayVec<u8, LINE_ROOM>
    requires { CanBeSaid command.now }
    ensures text { result.items ≡ line_of command.now ++ 10 ∷ [] }
    ensures line { IsLineOf command.now (line_of command.now) }
    ensures again { (read : Option Command) → LineReadsAs (line_of command.now) read → read ≡ Some command.now }
{
    let mut line = write_line(command);
    line.push(b'\n');
    line
}

// The line of a command, without the LF.
#[tactic(auto, unfolding(crate::specs::LineWriting::line_of))]
fn write_line(command: &Command) -> Line
    requires { CanBeSaid command.now }
    ensures text { result.items ≡ line_of command.now }
    ensures short { array_vec_len result < LINE_ROOM }
    ensures line { IsLineOf command.now (line_of command.now) }
{
    match *command {
        Command::Test => plain(names::TEST),
        Command::Kind => plain(names::KIND),
        Command::LoopFor(packets) => numbered(names::LOOP, packets),
        Command::DumpAfter => plain(names::DUMP_AFTER),
        Command::EepromRead { at, count } => with_bytes(names::EEPROM_READ, at, count),
        Command::EepromWrite { at, count } => with_bytes(names::EEPROM_WRITE, at, count),
        Command::EepromAll => plain(names::EEPROM_ALL),
        Command::TimeGet => plain(names::TIME_GET),
        Command::TimeSet => plain(names::TIME_SET),
        Command::SetPeriod(period) => numbered(names::SET_PERIOD, period.minutes()),
        Command::ClearLog => plain(names::CLEAR_LOG),
    }
}

// The name alone.
fn plain(name: &[u8]) -> Line
    requires { length name.now ≤ 8 }
    ensures { result.items ≡ name.now }
{
    let mut line = ArrayVec::new();
    line.try_extend_from_slice(name).unwrap();
    line
}

// The name and a decimal number.
fn numbered(name: &[u8], number: u16) -> Line
    requires { length name.now ≤ 8 }
    ensures text { result.items ≡ name.now ++ decimal number }
    ensures short { array_vec_len result < LINE_ROOM }
{
    let mut line = plain(name);
    line.try_extend_from_slice(Buffer::new().format(number).as_bytes())
        .unwrap();
    line
}

// The name, a place and a count of bytes.
#[tactic(auto, unfolding(crate::specs::LineWriting::bytes_text))]
fn with_bytes(name: &[u8], at: u16, count: u8) -> Line
    requires name { length name.now ≤ 8 }
    requires bytes { AreInEeprom at count }
    ensures text { result.items ≡ name.now ++ bytes_text at count }
    ensures short { array_vec_len result < LINE_ROOM }
{
    let mut line = plain(name);
    push_place(&mut line, at);
    line.push(b' ');
    push_byte(&mut line, count);
    line
}

// Appends a place: two hexadecimal digits, or three where it needs them.
fn push_place(line: &mut Line, place: u16)
    requires place { place < eeprom_size }
    requires room { array_vec_len line.old ≤ 8 }
    ensures text { line.new.items ≡ line.old.items ++ place_digits place }
    ensures short { array_vec_len line.new ≤ 11 }
{
    if place < 0x100 {
        push_byte(line, place as u8);
        return;
    }
    line.push(hex_digit((place / 0x100) as u8));
    push_byte(line, (place % 0x100) as u8);
}

// Appends a byte in two hexadecimal digits.
fn push_byte(line: &mut Line, byte: u8)
    requires { array_vec_len line.old ≤ 12 }
    ensures text { line.new.items ≡ line.old.items ++ two_digits byte }
    ensures longer { array_vec_len line.new ≡ array_vec_len line.old + 2 }
{
    line.push(hex_digit(byte / 16));
    line.push(hex_digit(byte % 16));
}

// The upper-case hexadecimal digit of a value.
fn hex_digit(value: u8) -> u8
    requires { value < 16 }
    ensures { result ≡ digit_glyph true value }
{
    if value < 10 {
        b'0' + value
    } else {
        b'A' + (value - 10)
    }
}
