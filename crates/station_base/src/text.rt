ghost use Rattle.std.specs.Prelude.{◌≡◌, ◌+◌, ◌<◌, ◌≤◌, ◌++◌, length, unsigned_abs};
ghost use Rattle.std.specs.Fmt.{decimal};
ghost use Rattle.arrayvec.specs.ArrayVec.{array_vec_len};
ghost use Rattle.station_base.specs.NumberText.{number_text, signed_text};

use crate::digits::{FIVE_DIGITS, FOUR_DIGITS, THREE_DIGITS, TWO_DIGITS, four_digits};
use arrayvec::ArrayVec;
use itoa::Buffer;

/// The most digits of a number of 64 bits, with its sign.
pub const DIGITS: usize = 20;

/// Appends bytes to a text that has room for them.
pub fn push_bytes<const ROOM: usize>(text: &mut ArrayVec<u8, ROOM>, bytes: &[u8])
    requires { array_vec_len text.old + length bytes.now ≤ ROOM }
    ensures bytes { text.new.items ≡ text.old.items ++ bytes.now }
    ensures length { array_vec_len text.new ≡ array_vec_len text.old + length bytes.now }
{
    text.try_extend_from_slice(bytes).unwrap();
}

/// Appends a name, and a number in decimal behind it, to a text that has room for them.
pub fn push_count<const ROOM: usize>(text: &mut ArrayVec<u8, ROOM>, name: &[u8], count: u64)
    requires { array_vec_len text.old + length name.now + DIGITS ≤ ROOM }
    ensures text { text.new.items ≡ text.old.items ++ name.now ++ decimal count }
    ensures length { array_vec_len text.new ≤ array_vec_len text.old + length name.now + DIGITS }
{
    push_bytes(text, name);
    push_bytes(text, Buffer::new().format(count).as_bytes());
}

/// Appends a number in decimal to a text that has room for it.
#[tactic(auto, unfolding(crate::specs::NumberText::number_text))]
pub fn push_number<const ROOM: usize>(text: &mut ArrayVec<u8, ROOM>, number: u32)
    requires { array_vec_len text.old + length (number_text number) ≤ ROOM }
    ensures digits { text.new.items ≡ text.old.items ++ number_text number }
    ensures length { array_vec_len text.new ≡ array_vec_len text.old + length (number_text number) }
{
    if number < FIVE_DIGITS {
        push_few_digits(text, number);
    } else {
        push_bytes(text, Buffer::new().format(number).as_bytes());
    }
}

// Appends a number below 10,000. Each branch copies a number of bytes that is known before the program runs, which is
// faster.
#[tactic(auto, using(crate::proofs::NumberDigits::few_digits))]
fn push_few_digits<const ROOM: usize>(text: &mut ArrayVec<u8, ROOM>, number: u32)
    requires room { array_vec_len text.old + length (number_text number) ≤ ROOM }
    requires few { number < FIVE_DIGITS }
    ensures digits { text.new.items ≡ text.old.items ++ number_text number }
    ensures length { array_vec_len text.new ≡ array_vec_len text.old + length (number_text number) }
{
    let [thousands, hundreds, tens, units] = four_digits(number as u16);
    if number < TWO_DIGITS {
        text.push(units);
    } else if number < THREE_DIGITS {
        push_bytes(text, &[tens, units]);
    } else if number < FOUR_DIGITS {
        push_bytes(text, &[hundreds, tens, units]);
    } else {
        push_bytes(text, &[thousands, hundreds, tens, units]);
    }
}

/// Appends a value in decimal, with `-` before a negative one, to a text that has room for it.
pub fn push_signed<const ROOM: usize>(text: &mut ArrayVec<u8, ROOM>, value: i32)
    requires { array_vec_len text.old + length (signed_text value) ≤ ROOM }
    ensures digits { text.new.items ≡ text.old.items ++ signed_text value }
    ensures length { array_vec_len text.new ≡ array_vec_len text.old + length (signed_text value) }
{
    push_sign(text, value);
    push_number(text, value.unsigned_abs());
}

// Appends the sign of a value, `-` before a negative one.
fn push_sign<const ROOM: usize>(text: &mut ArrayVec<u8, ROOM>, value: i32)
    requires { array_vec_len text.old + length (signed_text value) ≤ ROOM }
    ensures digits { text.new.items ++ number_text (unsigned_abs value) ≡ text.old.items ++ signed_text value }
    ensures length { array_vec_len text.new + length (number_text (unsigned_abs value))
        ≡ array_vec_len text.old + length (signed_text value) }
{
    if value < 0 {
        text.push(b'-');
    }
}
