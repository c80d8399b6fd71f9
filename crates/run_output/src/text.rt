ghost use Rattle.std.specs.Prelude.{◌≡◌, ◌+◌, ◌*◌, ◌<◌, ◌≤◌, ◌++◌, false, length};
ghost use Rattle.arrayvec.specs.ArrayVec.{array_vec_len};
ghost use Rattle.run_output.specs.MemoryText.{hexadecimal_byte_text, bytes_line};
ghost use Rattle.std.specs.Fmt.{digit_glyph};

use arrayvec::ArrayVec;
use station_base::{LINE_ROOM, push_bytes};

/// From how many bytes on what is held back is written.
pub const PIECE: usize = 4096;

/// Room for the lines of a page, of which each slot has one at most.
pub const PAGE_ROOM: usize = 5 * LINE_ROOM;

/// Room for what is held back, and the lines of one more page.
pub const ROOM: usize = PIECE + PAGE_ROOM;

/// Text that waits to be written.
pub type Text = ArrayVec<u8, ROOM>;

/// Appends the line of so many bytes of a memory.
pub fn push_memory(text: &mut Text, bytes: &[u8])
    requires { array_vec_len text.old + 2 * length bytes.now + 1 ≤ ROOM }
    ensures { text.new.items ≡ text.old.items ++ bytes_line bytes.now }
{
    for byte in bytes {
        push_byte(text, *byte);
    }
    push_bytes(text, b"\n");
}

// Appends a byte in two hexadecimal digits.
fn push_byte(text: &mut Text, byte: u8)
    requires { array_vec_len text.old + 2 ≤ ROOM }
    ensures digits { text.new.items ≡ text.old.items ++ hexadecimal_byte_text byte }
    ensures length { array_vec_len text.new ≡ array_vec_len text.old + 2 }
{
    text.push(hex_digit(byte / 16));
    text.push(hex_digit(byte % 16));
}

// The hexadecimal digit of a value, in lower case.
fn hex_digit(value: u8) -> u8
    requires { value < 16 }
    ensures { result ≡ digit_glyph false value }
{
    if value < 10 {
        b'0' + value
    } else {
        b'a' + (value - 10)
    }
}
