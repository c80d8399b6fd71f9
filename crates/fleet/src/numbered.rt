ghost use Rattle.std.specs.Prelude.{◌≡◌, ◌≤◌, ◌<◌, false, length};
ghost use Rattle.fleet.specs.Lines.{is_stuck, numbered_lines, pen_after};

use crate::pen::Pen;
use arrayvec::ArrayVec;
use station_io::{Put, Sink};

// How many bytes are numbered at once.
const PIECE: usize = 1024;

// Room for their text: a line of one byte has two more before it.
const ROOM: usize = 3 * PIECE;

/// A sink that puts the number of a station, and a space, before each line, and hands it on.
#[derive(Drop)]
pub struct Numbered<'a, K> {
    pub out: &'a mut K,
    pub digit: u8,
    pub pen: Pen,
}

impl<'a, K: Sink> Sink for Numbered<'a, K> {
    ghost use Rattle.fleet.specs.NumberedSink.{numbered_outlet};

    ghost outlet = { numbered_outlet K.outlet };

    /// After a write that failed nothing more is written: each later one fails too.
    fn put(&mut self, bytes: &[u8]) -> Put {
        if let Pen::Stuck = self.pen {
            return Put::Failed;
        }
        let mut rest = bytes;
        while !rest.is_empty() {
            let (piece, more) = rest.split_at(rest.len().min(PIECE));
            match self.put_piece(piece) {
                Put::Done => rest = more,
                Put::Failed => return Put::Failed,
            }
        }
        Put::Done
    }
}

impl<'a, K: Sink> Numbered<'a, K> {
    ghost use Rattle.fleet.specs.NumberedSink.{PutsPiece};

    // Writes a piece.
    fn put_piece(&mut self, piece: &[u8]) -> Put
        requires some { 0 < length piece.now }
        requires short { length piece.now ≤ PIECE }
        requires free { is_stuck self.old.pen ≡ false }
        ensures { PutsPiece K.outlet self.old piece.now result self.new }
    {
        let (text, pen) = write_heads(self.digit, self.pen, piece);
        let answer = self.out.put(&text);
        self.pen = match answer {
            Put::Done => pen,
            Put::Failed => Pen::Stuck,
        };
        answer
    }
}

// The bytes, each line with its head, and where the pen is behind them.
fn write_heads(digit: u8, mut pen: Pen, piece: &[u8]) -> (ArrayVec<u8, ROOM>, Pen)
    requires free { is_stuck pen ≡ false }
    requires short { length piece.now ≤ PIECE }
    ensures text { result.0.items ≡ numbered_lines digit pen piece.now }
    ensures pen { result.1 ≡ pen_after pen piece.now }
{
    let mut text = ArrayVec::new();
    for byte in piece {
        if let Pen::AtStart = pen {
            text.push(digit);
            text.push(b' ');
        }
        text.push(*byte);
        pen = if *byte == b'\n' {
            Pen::AtStart
        } else {
            Pen::Inside
        };
    }
    (text, pen)
}
