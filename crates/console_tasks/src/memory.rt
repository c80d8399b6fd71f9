ghost use Rattle.std.specs.Prelude.{◌≡◌, ◌≢◌, ◌≤◌, ◌+◌, ◌∷◌, [], IfErr, MatchResult, length};
ghost use Rattle.vantage_frames.specs.declared.command.Command.{Command};
ghost use Rattle.vantage_frames.specs.Ack.{ack};
ghost use Rattle.console_tasks.specs.Exchange.{ack_frame};
ghost use Rattle.console_tasks.specs.Memory.{AreWithin, judge_back};
ghost use Rattle.console_tasks.specs.Parts.{Steps, TaskCompletes, FrameReplies};
ghost use Rattle.console_tasks.specs.TaskTalk.{DoesTask, Exchanges, TaskTalk};
ghost use Rattle.console_tasks.specs.Tasks.{reading_memory, reading_back, said_line, writing_memory};
ghost use Rattle.eeprom_map.specs.Memory.{eeprom_size};

use crate::end::TaskEnd;
use crate::exchange::say_command;
use crate::frame::{ANSWER_ROOM, REST, ask_frame, say_frame};
use crate::start::start;
use serial_link::Link;
use vantage_frames::{Command, write_command};

/// Reads bytes of the console's memory from a place on, as many as `into` has: 1 to 255, none of them past the 4,096.
/// (Davis serial manual, "EEBRD".)
///
/// `into` is what was read where the task is done, and else stays as it was.
pub fn read_eeprom<L: Link>(link: &mut L, at: u16, into: &mut [u8]) -> TaskEnd
    requires { AreWithin at (length into.old) }
    ensures task { DoesTask L.traffic link.old
        (reading_memory at (length into.old)) (ack_frame into.new ∷ []) result link.new }
    ensures stays { result ≢ TaskEnd.Done → into.new ≡ into.old }
{
    match read_bytes(link, at, into) {
        Ok(()) => TaskEnd::Done,
        Err(end) => end,
    }
}

// The same, by its parts.
fn read_bytes<L: Link>(link: &mut L, at: u16, into: &mut [u8]) -> Result<(), TaskEnd>
    requires { AreWithin at (length into.old) }
    ensures task { Steps L.traffic link.old
        (TaskCompletes (TaskTalk (reading_memory at (length into.old)))
        (λ done. ack_frame into.new ∷ [])) result link.new }
    ensures stays { IfErr result (λ end. into.new ≡ into.old) }
{
    start(link)?;
    let count = into.len();
    let mut room = [0; ANSWER_ROOM];
    let answer = &mut room[..count + REST];
    ask_bytes(link, at, count as u8, answer)?;
    into.copy_from_slice(&answer[1..=count]);
    Ok(())
}

/// Writes bytes into the console's memory from a place on, 1 to 255, none of them past the 4,096, and reads them back.
/// (Davis serial manual, "EEBWR"; the reading back is this project's profile.)
///
/// It is done only where the bytes that were read back, with a good check, are those that were written.
pub fn write_eeprom<L: Link>(link: &mut L, at: u16, bytes: &[u8]) -> TaskEnd
    requires { AreWithin at (length bytes.now) }
    ensures { DoesTask L.traffic link.old
        (writing_memory at bytes.now) (ack ∷ ack ∷ ack_frame bytes.now ∷ []) result link.new }
{
    match write_bytes(link, at, bytes) {
        Ok(()) => TaskEnd::Done,
        Err(end) => end,
    }
}

// The same, by its parts.
fn write_bytes<L: Link>(link: &mut L, at: u16, bytes: &[u8]) -> Result<(), TaskEnd>
    requires { AreWithin at (length bytes.now) }
    ensures { Steps L.traffic link.old (TaskCompletes (TaskTalk (writing_memory at bytes.now))
        (λ done. ack ∷ ack ∷ ack_frame bytes.now ∷ [])) result link.new }
{
    start(link)?;
    let count = bytes.len() as u8;
    say_command(link, &Command::EepromWrite { at, count })?;
    say_frame(link, bytes)?;
    read_back(link, at, bytes)
}

// Reads bytes back that were written from a place on.
pub(crate) fn read_back<L: Link>(link: &mut L, at: u16, bytes: &[u8]) -> Result<(), TaskEnd>
    requires { AreWithin at (length bytes.now) }
    ensures { Steps L.traffic link.old
        (TaskCompletes (Exchanges (reading_back at bytes.now ∷ []))
        (λ done. ack_frame bytes.now ∷ [])) result link.new }
{
    let count = bytes.len();
    let mut room = [0; ANSWER_ROOM];
    let answer = &mut room[..count + REST];
    ask_bytes(link, at, count as u8, answer)?;
    compare(at, bytes, &answer[1..=count])
}

// Asks for so many bytes of the memory. The answer has 0x06, the bytes and their check.
fn ask_bytes<L: Link>(link: &mut L, at: u16, count: u8, answer: &mut [u8]) -> Result<(), TaskEnd>
    requires within { AreWithin at count }
    requires room { length answer.old ≡ count + REST }
    ensures talk { Steps L.traffic link.old
        (FrameReplies (said_line (Command.EepromRead at count)) count answer.new) result link.new }
    ensures size { length answer.new ≡ count + REST }
{
    ask_frame(
        link,
        &write_command(&Command::EepromRead { at, count }),
        answer,
    )
}

// Holds what was read against what was written from a place on.
fn compare(at: u16, sent: &[u8], read: &[u8]) -> Result<(), TaskEnd>
    requires same { length read.now ≡ length sent.now }
    requires within { at + length sent.now ≤ eeprom_size }
    ensures { MatchResult result (λ done. (judge_back at sent.now read.now ≡ TaskEnd.Done) × (read.now ≡ sent.now))
        (λ end. (judge_back at sent.now read.now ≡ end) × (end ≢ TaskEnd.Done)) }
{
    for i in 0..sent.len() {
        if read[i] != sent[i] {
            return Err(TaskEnd::Differs {
                at: at + i as u16,
                sent: sent[i],
                read: read[i],
            });
        }
    }
    Ok(())
}
