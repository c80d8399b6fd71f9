ghost use Rattle.std.specs.Prelude.{◌≡◌, ◌<◌, ◌≤◌, ◌-◌, length};
ghost use Rattle.crc_ccitt.specs.Check.{sealed};
ghost use Rattle.console_tasks.specs.Parts.{Steps, Commands, FrameReplies};

use crate::end::TaskEnd;
use crate::exchange::exchange;
use arrayvec::ArrayVec;
use crc_ccitt::{crc, is_good};
use serial_link::Link;

// The most bytes of a frame beside its check.
pub const MOST_BYTES: usize = 255;

// The most bytes of a frame.
const FRAME_ROOM: usize = MOST_BYTES + 2;

// The bytes of an answer beside those that are asked for: 0x06, and the check.
pub const REST: usize = 3;

// The most bytes of an answer.
pub const ANSWER_ROOM: usize = MOST_BYTES + REST;

// Says a message that 0x06, bytes and their check answer, and judges the check.
pub fn ask_frame<L: Link>(link: &mut L, message: &[u8], answer: &mut [u8]) -> Result<(), TaskEnd>
    requires message { 0 < length message.now }
    requires room { REST < length answer.old }
    ensures { Steps L.traffic link.old (FrameReplies message.now (length answer.old - 3) answer.new) result link.new }
{
    exchange(link, message, answer)?;
    if is_good(&answer[1..]) {
        Ok(())
    } else {
        Err(TaskEnd::BadCheck)
    }
}

// Says bytes and their check, which 0x06 alone answers.
pub fn say_frame<L: Link>(link: &mut L, bytes: &[u8]) -> Result<(), TaskEnd>
    requires some { 0 < length bytes.now }
    requires few { length bytes.now ≤ MOST_BYTES }
    ensures { Steps L.traffic link.old (Commands (sealed bytes.now)) result link.new }
{
    let mut answer = [0; 1];
    exchange(link, &with_check(bytes), &mut answer)
}

// Bytes with their check behind them.
fn with_check(bytes: &[u8]) -> ArrayVec<u8, FRAME_ROOM>
    requires { length bytes.now ≤ MOST_BYTES }
    ensures { result.items ≡ sealed bytes.now }
{
    let mut frame = ArrayVec::new();
    frame.try_extend_from_slice(bytes).unwrap();
    frame
        .try_extend_from_slice(&crc(bytes).to_be_bytes())
        .unwrap();
    frame
}
