ghost use Rattle.std.specs.Prelude.{◌≡◌, ◌==◌, Some, position};
ghost use Rattle.vantage_frames.specs.declared.command.Command.{Command};
ghost use Rattle.vantage_frames.specs.Line.{IsLineOf};
ghost use Rattle.vantage_frames.specs.LineReading.{LineReadsAs, command_of, plain_command_of, numbered_command_of, packets_in, bytes_in, period_in};

use crate::command::Command;
use crate::names;
use eeprom_map::EEPROM_SIZE;
use numerals::{DECIMAL, HEXADECIMAL, read_number};
use station_base::Period;

// The most digits of each number.
const PACKETS_DIGITS: usize = 4;

const PLACE_DIGITS: usize = 3;

const COUNT_DIGITS: usize = 2;

const PERIOD_DIGITS: usize = 3;

/// Reads a line, given without the LF that ended it.
///
/// The names are those of the Davis serial manual, "Commands". The rest is this project's profile: words are separated by
/// one space, and letters are upper case, but those of hexadecimal digits may be lower case too.
/// Nothing else is passed over, a CR before the LF neither.
#[tactic(auto, unfolding(crate::specs::LineReading::command_of))]
pub fn read_command(line: &[u8]) -> Option<Command>
    ensures exact { result ≡ command_of line.now }
    ensures found { LineReadsAs line.now result }
    ensures only { (command : Command) → IsLineOf command line.now → result ≡ Some command }
{
    plain_command(line).or_else(|| numbered_command(line))
}

// The command whose name stands alone.
#[tactic(auto, unfolding(crate::specs::LineReading::plain_command_of))]
fn plain_command(line: &[u8]) -> Option<Command>
    ensures { result ≡ plain_command_of line.now }
{
    if line == names::TEST {
        Some(Command::Test)
    } else if line == names::KIND {
        Some(Command::Kind)
    } else if line == names::DUMP_AFTER {
        Some(Command::DumpAfter)
    } else if line == names::EEPROM_ALL {
        Some(Command::EepromAll)
    } else if line == names::TIME_GET {
        Some(Command::TimeGet)
    } else if line == names::TIME_SET {
        Some(Command::TimeSet)
    } else if line == names::CLEAR_LOG {
        Some(Command::ClearLog)
    } else {
        None
    }
}

// The command whose name has numbers behind it.
#[tactic(auto, unfolding(crate::specs::LineReading::numbered_command_of))]
fn numbered_command(line: &[u8]) -> Option<Command>
    ensures { result ≡ numbered_command_of line.now }
{
    if let Some(digits) = line.strip_prefix(names::LOOP) {
        read_packets(digits).map(Command::LoopFor)
    } else if let Some(text) = line.strip_prefix(names::EEPROM_READ) {
        read_bytes(text).map(|(at, count)| Command::EepromRead { at, count })
    } else if let Some(text) = line.strip_prefix(names::EEPROM_WRITE) {
        read_bytes(text).map(|(at, count)| Command::EepromWrite { at, count })
    } else if let Some(digits) = line.strip_prefix(names::SET_PERIOD) {
        read_period(digits).map(Command::SetPeriod)
    } else {
        None
    }
}

// The count of packets behind the name.
#[tactic(auto, unfolding(crate::specs::LineReading::packets_in))]
fn read_packets(digits: &[u8]) -> Option<u16>
    ensures { result ≡ packets_in digits.now }
{
    let packets = read_number(digits, DECIMAL, PACKETS_DIGITS)? as u16;
    if packets == 0 {
        return None;
    }
    Some(packets)
}

// The place and the count behind the name.
#[tactic(auto, unfolding(crate::specs::LineReading::bytes_in))]
fn read_bytes(text: &[u8]) -> Option<(u16, u8)>
    ensures { result ≡ bytes_in text.now }
{
    let space = first_space(text)?;
    let at = read_number(&text[..space], HEXADECIMAL, PLACE_DIGITS)? as u16;
    let count = read_number(&text[space + 1..], HEXADECIMAL, COUNT_DIGITS)? as u16;
    if count == 0 || at + count > EEPROM_SIZE {
        return None;
    }
    Some((at, count as u8))
}

// Where the first space stands.
fn first_space(text: &[u8]) -> Option<usize>
    ensures { result ≡ position (λ byte. byte == 32) text.now }
{
    text.iter().position(|byte| *byte == b' ')
}

// The period behind the name.
#[tactic(auto, unfolding(crate::specs::LineReading::period_in))]
fn read_period(digits: &[u8]) -> Option<Period>
    ensures { result ≡ period_in digits.now }
{
    let minutes = read_number(digits, DECIMAL, PERIOD_DIGITS)? as u16;
    if digits[0] == b'0' {
        return None;
    }
    Period::from_minutes(minutes)
}
