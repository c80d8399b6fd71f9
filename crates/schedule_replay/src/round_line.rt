ghost use Rattle.std.specs.Prelude.{◌≡◌, ◌+◌, ◌≤◌, ◌++◌};
ghost use Rattle.arrayvec.specs.ArrayVec.{array_vec_len};
ghost use Rattle.replay_laws.specs.Texts.{ending_text, rows_counted};
ghost use Rattle.schedule_replay.specs.RoundLine.{ending_of, round_line_text};

use crate::line::Line;
use station_base::{DIGITS, LINE_ROOM, push_bytes, push_count};

// The most bytes of a word that tells how a round ended, and of one before a number that not every line has.
const WORD: usize = 6;

/// How a round ended.
#[derive(Clone, Copy, Debug, PartialEq, Eq)]
pub enum RoundEnding {
    /// All that was newer is stored, as far as the ring held it.
    Done,
    /// Three attempts failed.
    GaveUp,
    /// The archive has no room for a batch.
    Full,
    /// The disk stopped within this change of the round, counted from 1 on.
    Stopped(u64),
}

/// What is told of a round.
#[derive(Clone, Copy, Debug, PartialEq, Eq)]
pub struct RoundLine {
    /// Which round it was, counted from 1 on.
    pub number: u32,
    /// How it ended.
    pub end: RoundEnding,
    /// How many attempts were made.
    pub attempts: u8,
    /// How many pages they took.
    pub pages: u32,
    /// How many slots of these pages were passed over.
    pub skipped: u32,
    /// How many deliveries were harmed.
    pub harmed: u32,
    /// How many rows there were as the last batch was kept.
    pub acked: u64,
    /// How many rows there are. It is not told of a round that was stopped.
    pub rows: u64,
}

impl RoundLine {
    // `round R END attempts A pages P skipped S harmed H acked M`, and then ` rows N` unless it was stopped.
    pub fn text(&self) -> Line
        ensures { result.items ≡ round_line_text self.now }
    {
        let mut line = Line::new();
        push_count(&mut line, b"round ", u64::from(self.number));
        push_bytes(&mut line, b" ");
        push_ending(&mut line, self.end);
        push_count(&mut line, b" attempts ", u64::from(self.attempts));
        push_count(&mut line, b" pages ", u64::from(self.pages));
        push_count(&mut line, b" skipped ", u64::from(self.skipped));
        push_count(&mut line, b" harmed ", u64::from(self.harmed));
        push_count(&mut line, b" acked ", self.acked);
        push_rows(&mut line, self.end, self.rows);
        push_bytes(&mut line, b"\n");
        line
    }
}

// Appends how a round ended.
fn push_ending(line: &mut Line, end: RoundEnding)
    requires { array_vec_len line.old + (WORD + DIGITS) ≤ LINE_ROOM }
    ensures text { line.new.items ≡ line.old.items ++ ending_text (ending_of end) }
    ensures length { array_vec_len line.new ≤ array_vec_len line.old + (WORD + DIGITS) }
{
    match end {
        RoundEnding::Done => push_bytes(line, b"ok"),
        RoundEnding::GaveUp => push_bytes(line, b"gaveup"),
        RoundEnding::Full => push_bytes(line, b"full"),
        RoundEnding::Stopped(change) => push_count(line, b"stop ", change),
    }
}

// Appends how many rows there are, unless the round was stopped.
fn push_rows(line: &mut Line, end: RoundEnding, rows: u64)
    requires { array_vec_len line.old + (WORD + DIGITS) ≤ LINE_ROOM }
    ensures text { line.new.items ≡ line.old.items ++ rows_counted (ending_of end) rows }
    ensures length { array_vec_len line.new ≤ array_vec_len line.old + (WORD + DIGITS) }
{
    match end {
        RoundEnding::Done | RoundEnding::GaveUp | RoundEnding::Full => {
            push_count(line, b" rows ", rows);
        }
        RoundEnding::Stopped(_) => {}
    }
}
