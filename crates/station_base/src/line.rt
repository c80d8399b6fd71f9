ghost use Rattle.std.specs.Prelude.{◌≡◌, ◌+◌, ◌≤◌, ◌++◌, [], length, take, unsigned_abs};
ghost use Rattle.station_base.specs.Line.{line_so_far};
ghost use Rattle.station_base.specs.NumberText.{number_text, signed_text};

use crate::digits::digit_count;
use crate::row::LINE_ROOM;
use itoa::write_digits;

// A line that is written from its front on. A piece is copied whole and its front alone is kept, so that each copy has a
// width that is known before the program runs.
#[derive(Clone, Copy)]
pub struct Line {
    bytes: [u8; LINE_ROOM],
    end: usize,
}

impl Line {
    // Of no bytes.
    pub fn new() -> Line
        ensures text { line_so_far result ≡ [] }
        ensures length { result.end ≡ 0 }
    {
        Line {
            bytes: [0; LINE_ROOM],
            end: 0,
        }
    }

    // The bytes so far.
    pub fn text(&self) -> &[u8]
        requires { self.now.end ≤ LINE_ROOM }
        ensures text { result.now ≡ line_so_far self.now }
        ensures length { length result.now ≡ self.now.end }
    {
        &self.bytes[..self.end]
    }

    // Appends a piece.
    pub fn put<const WIDTH: usize>(&mut self, piece: &[u8; WIDTH])
        requires { self.old.end + WIDTH ≤ LINE_ROOM }
        ensures text { line_so_far self.new ≡ line_so_far self.old ++ piece.now }
        ensures length { self.new.end ≡ self.old.end + WIDTH }
    {
        self.put_front(piece, WIDTH);
    }

    // Appends the front of a piece, so many bytes of it. There is to be room for all of it.
    pub fn put_front<const WIDTH: usize>(&mut self, piece: &[u8; WIDTH], count: usize)
        requires room { self.old.end + WIDTH ≤ LINE_ROOM }
        requires within { count ≤ WIDTH }
        ensures text { line_so_far self.new ≡ line_so_far self.old ++ take count piece.now }
        ensures length { self.new.end ≡ self.old.end + count }
    {
        let from = self.end;
        self.bytes[from..from + WIDTH].copy_from_slice(piece);
        self.end = from + count;
    }

    // Appends a number in decimal.
    pub fn put_number(&mut self, number: u32)
        requires { self.old.end + length (number_text number) ≤ LINE_ROOM }
        ensures text { line_so_far self.new ≡ line_so_far self.old ++ number_text number }
        ensures length { self.new.end ≡ self.old.end + length (number_text number) }
    {
        let end = self.end + digit_count(number);
        write_digits(u64::from(number), &mut self.bytes, end);
        self.end = end;
    }

    // Appends a value in decimal, with `-` before a negative one.
    pub fn put_signed(&mut self, value: i32)
        requires { self.old.end + length (signed_text value) ≤ LINE_ROOM }
        ensures text { line_so_far self.new ≡ line_so_far self.old ++ signed_text value }
        ensures length { self.new.end ≡ self.old.end + length (signed_text value) }
    {
        self.put_sign(value);
        self.put_number(value.unsigned_abs());
    }

    // Appends the sign of a value, `-` before a negative one.
    fn put_sign(&mut self, value: i32)
        requires { self.old.end + length (signed_text value) ≤ LINE_ROOM }
        ensures text { line_so_far self.new ++ number_text (unsigned_abs value)
            ≡ line_so_far self.old ++ signed_text value }
        ensures length { self.new.end + length (number_text (unsigned_abs value))
            ≡ self.old.end + length (signed_text value) }
    {
        if value < 0 {
            self.put(b"-");
        }
    }
}
