ghost use Rattle.std.specs.Prelude.{◌≡◌, ◌≤◌, ◌<◌, ◌+◌, ◌++◌, ℕ, List, length, take};
ghost use Rattle.vantage_frames.specs.Slots.{page_size};
ghost use Rattle.wake_retry.specs.Settling.{tail_of};
ghost use Rattle.dmpaft_pump.specs.declared.message.TheConstants.{LONGEST_MESSAGE};

use arrayvec::ArrayVec;
use vantage_frames::PAGE_SIZE;

/// The bytes of the longest message, `DMPAFT` and a line feed.
pub const LONGEST_MESSAGE: usize = 7;

/// A message of these bytes.
pub fn message_of(bytes: &[u8]) -> ArrayVec<u8, LONGEST_MESSAGE>
    requires { length bytes.now ≤ LONGEST_MESSAGE }
    ensures { result.items ≡ bytes.now }
{
    let mut message = ArrayVec::new();
    message.try_extend_from_slice(bytes).unwrap();
    message
}

/// The last two bytes after these, of which there is one at least.
pub fn tail_after(tail: [u8; 2], bytes: &[u8]) -> [u8; 2]
    requires { 1 ≤ length bytes.now }
    ensures { (before : List ℕ) → tail ≡ tail_of before → result ≡ tail_of (before ++ bytes.now) }
{
    let last = bytes[bytes.len() - 1];
    if bytes.len() > 1 {
        [bytes[bytes.len() - 2], last]
    } else {
        [tail[1], last]
    }
}

/// Puts bytes into an answer from a place on.
pub fn fill(answer: &mut [u8; PAGE_SIZE], at: usize, bytes: &[u8])
    requires { at + length bytes.now ≤ page_size }
    ensures { (before : List ℕ) → length before ≡ at → take (length before) answer.old ≡ before
        → take (length (before ++ bytes.now)) answer.new ≡ before ++ bytes.now }
{
    answer[at..at + bytes.len()].copy_from_slice(bytes);
}
