ghost use Rattle.std.specs.Prelude.{◌≡◌};
ghost use Rattle.replay_laws.specs.Texts.{end_line, open_line, open_stop_line, unseen_line};

use arrayvec::ArrayVec;
use station_base::{LINE_ROOM, push_bytes, push_count};
use station_sim::Unseen;

// A line of a run.
pub type Line = ArrayVec<u8, LINE_ROOM>;

// `open rows N`.
pub fn open_line(rows: u64) -> Line
    ensures { result.items ≡ open_line rows }
{
    let mut line = Line::new();
    push_count(&mut line, b"open rows ", rows);
    push_bytes(&mut line, b"\n");
    line
}

// `open stop K`.
pub fn open_stop_line(change: u64) -> Line
    ensures { result.items ≡ open_stop_line change }
{
    let mut line = Line::new();
    push_count(&mut line, b"open stop ", change);
    push_bytes(&mut line, b"\n");
    line
}

// `unseen round R host D`, or `reply D`.
pub fn unseen_line(number: u32, which: Unseen) -> Line
    ensures { result.items ≡ unseen_line number which }
{
    let mut line = Line::new();
    push_count(&mut line, b"unseen round ", u64::from(number));
    if which.from_host {
        push_count(&mut line, b" host ", u64::from(which.number));
    } else {
        push_count(&mut line, b" reply ", u64::from(which.number));
    }
    push_bytes(&mut line, b"\n");
    line
}

// `end rows N days D`.
pub fn end_line(rows: u64, days: u32) -> Line
    ensures { result.items ≡ end_line rows days }
{
    let mut line = Line::new();
    push_count(&mut line, b"end rows ", rows);
    push_count(&mut line, b" days ", u64::from(days));
    push_bytes(&mut line, b"\n");
    line
}
