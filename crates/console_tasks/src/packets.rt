ghost use Rattle.std.specs.Prelude.{◌≡◌, ◌≢◌, ◌≤◌, ◌∷◌, [], MatchResult, map};
ghost use Rattle.loop_packet.specs.Reading.{packet_bytes};
ghost use Rattle.vantage_frames.specs.Ack.{ack};
ghost use Rattle.console_tasks.specs.Packet.{judge_packet};
ghost use Rattle.console_tasks.specs.Parts.{Steps, TaskCompletes, HearsPacket};
ghost use Rattle.console_tasks.specs.TaskTalk.{DoesTask, TaskTalk};
ghost use Rattle.console_tasks.specs.Tasks.{looping};

use crate::end::TaskEnd;
use crate::exchange::say_command;
use crate::start::start;
use arrayvec::ArrayVec;
use loop_packet::{LoopPacket, PACKET_SIZE, read};
use serial_link::Link;
use vantage_frames::Command;
use wake_retry::{Asked, listen};

/// The most packets that one task takes.
pub const MOST_PACKETS: usize = 32;

// So many quiet waits in a row end the wait for a packet.
const QUIETS: u8 = 10;

/// Takes so many packets, 1 to 32, with what the sensors say, as they come. (Davis serial manual, "LOOP".)
///
/// `into` has them in order where the task is done, and else is empty, as it was.
pub fn loop_packets<L: Link>(
    link: &mut L,
    count: u8,
    into: &mut ArrayVec<LoopPacket, MOST_PACKETS>,
) -> TaskEnd
    requires some { 1 ≤ count }
    requires most { count ≤ MOST_PACKETS }
    requires empty { into.old.items ≡ [] }
    ensures task { DoesTask L.traffic link.old (looping count) (ack ∷ map packet_bytes into.new.items) result link.new }
    ensures stays { result ≢ TaskEnd.Done → into.new.items ≡ [] }
{
    match hear_packets(link, count, into) {
        Ok(()) => TaskEnd::Done,
        Err(end) => {
            into.clear();
            end
        }
    }
}

// The same, by its parts. The packets before a trouble are there.
fn hear_packets<L: Link>(
    link: &mut L,
    count: u8,
    into: &mut ArrayVec<LoopPacket, MOST_PACKETS>,
) -> Result<(), TaskEnd>
    requires some { 1 ≤ count }
    requires most { count ≤ MOST_PACKETS }
    requires empty { into.old.items ≡ [] }
    ensures { Steps L.traffic link.old
        (TaskCompletes (TaskTalk (looping count)) (λ done. ack ∷ map packet_bytes into.new.items)) result link.new }
{
    start(link)?;
    say_command(link, &Command::LoopFor(u16::from(count)))?;
    for _heard in 0..count {
        into.push(hear_packet(link)?);
    }
    Ok(())
}

// Takes the next packet.
fn hear_packet<L: Link>(link: &mut L) -> Result<LoopPacket, TaskEnd>
    ensures { Steps L.traffic link.old HearsPacket result link.new }
{
    let mut bytes = [0; PACKET_SIZE];
    match listen(link, QUIETS, &mut bytes) {
        Asked::Full => read_packet(&bytes),
        Asked::Short(count) => Err(TaskEnd::Short(count)),
        Asked::LinkFault => Err(TaskEnd::LinkFault),
        Asked::OutOfMemory => Err(TaskEnd::OutOfMemory),
    }
}

// The packet in the bytes, if they are one.
fn read_packet(bytes: &[u8; PACKET_SIZE]) -> Result<LoopPacket, TaskEnd>
    ensures { MatchResult result
        (λ packet. (bytes.now ≡ packet_bytes packet) × (judge_packet bytes.now ≡ TaskEnd.Done))
        (λ end. (end ≡ TaskEnd.BadCheck) × (judge_packet bytes.now ≡ end)) }
{
    match read(bytes) {
        Ok(packet) => Ok(packet),
        Err(_) => Err(TaskEnd::BadCheck),
    }
}
