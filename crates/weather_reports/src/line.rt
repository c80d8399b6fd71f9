ghost use Rattle.std.specs.Prelude.{◌≡◌, ◌+◌, ◌<◌, ◌≤◌, ◌++◌, codes, length};
ghost use Rattle.std.specs.Fmt.{signed_decimal};
ghost use Rattle.arrayvec.specs.ArrayVec.{array_vec_len};
ghost use Rattle.station_base.specs.Stamp.{stamp_text};
ghost use Rattle.weather_reports.specs.Line.{sum_line, sum_text};
ghost use Rattle.station_base.specs.Fields.{field_count};

use arrayvec::ArrayVec;
use daily_summary::FieldSum;
use itoa::Buffer;
use station_base::{DIGITS, FieldId, LINE_ROOM, Stamp, push_bytes, push_count};

/// From how many bytes on the lines that wait are written.
pub const PIECE: usize = 8192;

/// Room for that, and for one more line.
pub const ROOM: usize = PIECE + LINE_ROOM;

/// Lines that wait to be written.
pub type Pending = ArrayVec<u8, ROOM>;

// The bytes of a stamp's text.
const STAMP: usize = 16;

// The most bytes of a head, of the name of a field, and of all that stands behind them.
const HEAD: usize = 16;

const SUM: usize = 200;

// Appends the line of what a field's values come to.
#[tactic(auto, using(station_base::proofs::FieldTexts::name_width))]
pub fn push_sum_line(pending: &mut Pending, head: &[u8], field: FieldId, sum: &FieldSum)
    requires room { array_vec_len pending.old < PIECE }
    requires head { length head.now ≤ HEAD }
    requires field { field < field_count }
    ensures { pending.new.items ≡ pending.old.items ++ sum_line head.now field sum.now }
{
    push_bytes(pending, head);
    push_bytes(pending, b" ");
    push_bytes(pending, field.name().as_bytes());
    push_bytes(pending, b" ");
    push_sum(pending, sum);
    push_bytes(pending, b"\n");
}

// Appends what the values come to.
#[tactic(auto, unfolding(crate::specs::Line::sum_text))]
fn push_sum(pending: &mut Pending, sum: &FieldSum)
    requires { array_vec_len pending.old + SUM ≤ ROOM }
    ensures text { pending.new.items ≡ pending.old.items ++ sum_text sum.now }
    ensures length { array_vec_len pending.new ≤ array_vec_len pending.old + SUM }
{
    push_extreme(pending, b"min ", sum.least, sum.least_at);
    push_extreme(pending, b" max ", sum.greatest, sum.greatest_at);
    push_signed(pending, b" sum ", sum.sum);
    push_count(pending, b" count ", u64::from(sum.count));
    push_signed(pending, b" wsum ", sum.wsum);
    push_count(pending, b" sumtime ", sum.sumtime);
}

// Appends an extreme and its stamp.
fn push_extreme(pending: &mut Pending, name: &[u8], value: i32, at: Stamp)
    requires { array_vec_len pending.old + length name.now + (DIGITS + 4 + STAMP) ≤ ROOM }
    ensures text { pending.new.items ≡ pending.old.items ++ name.now ++ signed_decimal value ++ codes " at "
        ++ stamp_text at }
    ensures length { array_vec_len pending.new ≤ array_vec_len pending.old + length name.now + (DIGITS + 4 + STAMP) }
{
    push_signed(pending, name, i64::from(value));
    push_bytes(pending, b" at ");
    push_bytes(pending, &at.text());
}

/// Appends a number behind its name.
pub fn push_signed(pending: &mut Pending, name: &[u8], number: i64)
    requires { array_vec_len pending.old + length name.now + DIGITS ≤ ROOM }
    ensures text { pending.new.items ≡ pending.old.items ++ name.now ++ signed_decimal number }
    ensures length { array_vec_len pending.new ≤ array_vec_len pending.old + length name.now + DIGITS }
{
    let mut digits = Buffer::new();
    push_bytes(pending, name);
    push_bytes(pending, digits.format(number).as_bytes());
}
