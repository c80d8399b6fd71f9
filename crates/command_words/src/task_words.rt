ghost use Rattle.std.specs.Prelude.{◌≡◌, ◌<◌, IfSome};
ghost use Rattle.numerals.specs.Numeral.{number_in};
ghost use Rattle.command_words.specs.Command.{texts};
ghost use Rattle.command_words.specs.Possible.{CanBeMade};
ghost use Rattle.command_words.specs.TaskWords.{clock_in, kind_task_in, memory_in, packets_task_in, period_task_in, reading_in, task_of, writing_in};

use crate::clock_words::read_second;
use crate::numbers::read_within;
use crate::task::{MOST_BYTES, Task};
use console_tasks::MOST_PACKETS;
use eeprom_map::EEPROM_SIZE;
use numerals::{HEXADECIMAL, read_number, read_pairs};
use station_base::Period;

// The bytes of a console's memory.
const MEMORY: usize = EEPROM_SIZE as usize;

// The most digits of a place in it.
const PLACE_DIGITS: usize = 3;

// The longest period, in minutes.
const LONGEST: u64 = 120;

/// The task that the words behind `task ADDRESS` spell. Words outside the table spell none.
#[tactic(auto, unfolding(crate::specs::TaskWords::task_of))]
pub fn read_task(words: &[&str]) -> Option<Task>
    ensures task { result ≡ task_of (texts words.now) }
    ensures can { IfSome result CanBeMade }
{
    let (word, more) = words.split_first()?;
    match *word {
        "loop" => read_packets(more),
        "eeprom" => read_memory(more),
        "time" => read_clock(more),
        "period" => read_period(more),
        "kind" => read_kind(more),
        _ => None,
    }
}

// `loop N`.
fn read_packets(words: &[&str]) -> Option<Task>
    ensures task { result ≡ packets_task_in (texts words.now) }
    ensures can { IfSome result CanBeMade }
{
    match *words {
        [count] => Some(Task::Packets(read_within(count, 1, MOST_PACKETS as u64)? as u8)),
        _ => None,
    }
}

// `eeprom read ..` or `eeprom write ..`.
fn read_memory(words: &[&str]) -> Option<Task>
    ensures task { result ≡ memory_in (texts words.now) }
    ensures can { IfSome result CanBeMade }
{
    let (word, more) = words.split_first()?;
    match *word {
        "read" => read_reading(more),
        "write" => read_writing(more),
        _ => None,
    }
}

// `eeprom read AT N`.
#[tactic(auto, unfolding(crate::specs::TaskWords::reading_in))]
fn read_reading(words: &[&str]) -> Option<Task>
    ensures task { result ≡ reading_in (texts words.now) }
    ensures can { IfSome result CanBeMade }
{
    let [place, number] = *words else {
        return None;
    };
    let at = read_place(place)?;
    let count = read_within(number, 1, MOST_BYTES as u64)? as u8;
    if usize::from(at) + usize::from(count) > MEMORY {
        return None;
    }
    Some(Task::ReadMemory { at, count })
}

// `eeprom write AT HEX`.
#[tactic(auto, unfolding(crate::specs::TaskWords::writing_in))]
fn read_writing(words: &[&str]) -> Option<Task>
    ensures task { result ≡ writing_in (texts words.now) }
    ensures can { IfSome result CanBeMade }
{
    let [place, hex] = *words else {
        return None;
    };
    let at = read_place(place)?;
    let bytes = read_pairs(hex.as_bytes())?;
    if usize::from(at) + bytes.len() > MEMORY {
        return None;
    }
    Some(Task::WriteMemory { at, bytes })
}

// A place in the memory.
fn read_place(word: &str) -> Option<u16>
    ensures number { result ≡ number_in HEXADECIMAL PLACE_DIGITS word.now }
    ensures within { IfSome result (λ place. place < MEMORY) }
{
    Some(read_number(word.as_bytes(), HEXADECIMAL, PLACE_DIGITS)? as u16)
}

// `time`, or `time set DATE TIME`.
fn read_clock(words: &[&str]) -> Option<Task>
    ensures task { result ≡ clock_in (texts words.now) }
    ensures can { IfSome result CanBeMade }
{
    match *words {
        [] => Some(Task::ReadClock),
        [word, date, time] if word == "set" => Some(Task::SetClock(read_second(
            date.as_bytes(),
            time.as_bytes(),
        )?)),
        _ => None,
    }
}

// `period M`.
#[tactic(auto, unfolding(crate::specs::TaskWords::period_task_in))]
fn read_period(words: &[&str]) -> Option<Task>
    ensures task { result ≡ period_task_in (texts words.now) }
    ensures can { IfSome result CanBeMade }
{
    let [word] = *words else {
        return None;
    };
    let minutes = read_within(word, 1, LONGEST)? as u16;
    Some(Task::SetPeriod(Period::from_minutes(minutes)?))
}

// `kind`.
fn read_kind(words: &[&str]) -> Option<Task>
    ensures task { result ≡ kind_task_in (texts words.now) }
    ensures can { IfSome result CanBeMade }
{
    if words.is_empty() {
        Some(Task::Kind)
    } else {
        None
    }
}
