ghost use Rattle.std.specs.Prelude.{◌≡◌, ◌+◌, ◌≤◌, ◌++◌, length};
ghost use Rattle.arrayvec.specs.ArrayVec.{array_vec_len};
ghost use Rattle.station_base.specs.NumberText.{number_text};
ghost use Rattle.dmpaft_pump.specs.TroubleText.{trouble_text};

use crate::outcome::Trouble;
use arrayvec::ArrayVec;
use station_base::{push_bytes, push_number};

/// Room for the words of a trouble.
pub const TROUBLE_ROOM: usize = 64;

// The most digits of a number of 32 bits.
const DIGITS: usize = 10;

type Line = ArrayVec<u8, TROUBLE_ROOM>;

impl Trouble {
    /// The trouble in words, as `page 3 ahead 7`, with no line feed. Numbers are decimal, and a byte that did not come
    /// is `-`.
    pub fn line(&self) -> ArrayVec<u8, TROUBLE_ROOM>
        ensures { result.items ≡ trouble_text self.now }
    {
        let mut line = Line::new();
        match *self {
            Trouble::Asleep => push_bytes(&mut line, b"asleep"),
            Trouble::NoAck(Some(byte)) => push_named(&mut line, b"no ack ", u16::from(byte)),
            Trouble::NoAck(None) => push_bytes(&mut line, b"no ack -"),
            Trouble::ShortHeader(count) => push_named(
                &mut line,
                b"short header ",
                u16::from(count),
            ),
            Trouble::NoHeaderAck(byte) => push_named(&mut line, b"no header ack ", u16::from(byte)),
            Trouble::HeaderCheck => push_bytes(&mut line, b"bad header check"),
            Trouble::HeaderNumbers { pages, place } => {
                push_named(&mut line, b"bad header numbers ", pages);
                push_named(&mut line, b" ", place);
            }
            Trouble::PageLost { page } => {
                push_named(&mut line, b"page ", page);
                push_bytes(&mut line, b" lost");
            }
            Trouble::PageAhead { page, sequence } => {
                push_named(&mut line, b"page ", page);
                push_named(&mut line, b" ahead ", u16::from(sequence));
            }
        }
        line
    }
}

// Appends a name and a number.
#[tactic(auto, using(station_base::proofs::NumberWidths::number_text_width))]
fn push_named(line: &mut Line, name: &[u8], number: u16)
    requires { array_vec_len line.old + length name.now + DIGITS ≤ TROUBLE_ROOM }
    ensures text { line.new.items ≡ line.old.items ++ name.now ++ number_text number }
    ensures length { array_vec_len line.new ≤ array_vec_len line.old + length name.now + DIGITS }
{
    push_bytes(line, name);
    push_number(line, u32::from(number));
}
