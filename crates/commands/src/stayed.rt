ghost use Rattle.std.specs.Prelude.{◌≡◌, ◌+◌, ◌≤◌, ◌++◌, length};
ghost use Rattle.arrayvec.specs.ArrayVec.{array_vec_len};
ghost use Rattle.commands.specs.StayRun.{stayed_line};

use run_output::{Ending, ROOM, Status, Text};
use station_base::{push_bytes, push_count};

// The most bytes of the line of a stay.
const STAYED_ROOM: usize = 40;

/// Appends the line that counts the rounds.
pub fn push_stayed(text: &mut Text, made: u32)
    requires room { array_vec_len text.old + STAYED_ROOM ≤ ROOM }
    ensures text { text.new.items ≡ text.old.items ++ stayed_line made }
    ensures length { array_vec_len text.new ≤ array_vec_len text.old + STAYED_ROOM }
{
    push_count(text, b"stayed ", u64::from(made));
    push_bytes(text, b"\n");
}

/// What is written last if all rounds were made.
pub fn stayed_text(made: u32) -> Text
    ensures { result.items ≡ stayed_line made }
{
    let mut text = Text::new();
    push_stayed(&mut text, made);
    text
}

/// How a stay ends after so many rounds: by the line that counts them, and by this line and status.
pub fn ended_after(made: u32, line: &[u8], status: Status) -> Ending
    requires { length line.now ≤ 20 }
    ensures { result ≡ record { text = stayed_line made ++ line.now; status = status } }
{
    let mut text = Text::new();
    push_stayed(&mut text, made);
    push_bytes(&mut text, line);
    Ending::new(text, status)
}
