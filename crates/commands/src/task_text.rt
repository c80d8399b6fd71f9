ghost use Rattle.std.specs.Prelude.{◌≡◌, ◌+◌, ◌^◌, ◌≤◌, ◌++◌, ◌<◌, length, codes, decimal};
ghost use Rattle.arrayvec.specs.ArrayVec.{array_vec_len};
ghost use Rattle.loop_packet.specs.Reading.{packet_bytes};
ghost use Rattle.station_base.specs.Digits.{digits};
ghost use Rattle.station_base.specs.NumberText.{number_text, signed_text};
ghost use Rattle.run_output.specs.Ended.{output_of};
ghost use Rattle.commands.specs.TaskRun.{output_at, difference_line};
ghost use Rattle.commands.specs.TaskText.{clock_line, packet_line};

use console_tasks::TaskEnd;
use itoa::Buffer;
use loop_packet::LoopPacket;
use run_output::{Ending, PIECE, ROOM, Status, Text};
use station_base::{ClockTime, push_bytes, push_number, push_signed};

/// Room for the line of a packet.
pub const PACKET_ROOM: usize = 100;

// The last of a line.
const LINE_END: &[u8] = b"\n";

/// Appends the line of a packet.
pub fn push_packet(text: &mut Text, packet: &LoopPacket)
    requires { array_vec_len text.old + PACKET_ROOM ≤ ROOM }
    ensures line { text.new.items ≡ text.old.items ++ packet_line (packet_bytes packet.now) }
    ensures length { array_vec_len text.new ≤ array_vec_len text.old + PACKET_ROOM }
{
    push_named(text, b"loop barometer ", packet.barometer);
    push_signed_named(text, b" inTemp ", packet.in_temp);
    push_signed_named(text, b" outTemp ", packet.out_temp);
    push_named(text, b" wind ", u16::from(packet.wind));
    push_named(text, b" dir ", packet.wind_dir);
    push_bytes(text, LINE_END);
}

// Appends a name and a number.
#[tactic(auto, using(station_base::proofs::NumberWidths::number_text_width))]
fn push_named(text: &mut Text, name: &[u8], number: u16)
    requires { array_vec_len text.old + length name.now + 10 ≤ ROOM }
    ensures text { text.new.items ≡ text.old.items ++ name.now ++ number_text number }
    ensures length { array_vec_len text.new ≤ array_vec_len text.old + length name.now + 10 }
    ensures small { number < 2 ^ 16 }
{
    push_bytes(text, name);
    push_number(text, u32::from(number));
}

// The same of a number that may be negative.
#[tactic(auto, using(station_base::proofs::NumberWidths::number_text_width))]
fn push_signed_named(text: &mut Text, name: &[u8], number: i16)
    requires { array_vec_len text.old + length name.now + 11 ≤ ROOM }
    ensures text { text.new.items ≡ text.old.items ++ name.now ++ signed_text number }
    ensures length { array_vec_len text.new ≤ array_vec_len text.old + length name.now + 11 }
{
    push_bytes(text, name);
    push_signed(text, i32::from(number));
}

/// Appends the line of what a clock shows.
#[tactic(auto, unfolding(crate::specs::TaskText::clock_line), using(station_base::proofs::NumberWidths::number_text_width))]
pub fn push_clock(text: &mut Text, time: &ClockTime)
    requires { array_vec_len text.old + 64 ≤ ROOM }
    ensures { text.new.items ≡ text.old.items ++ clock_line time.now }
{
    push_bytes(text, b"time ");
    push_number(text, u32::from(time.year));
    push_two_digits(text, b"-", time.month);
    push_two_digits(text, b"-", time.day);
    push_two_digits(text, b" ", time.hour);
    push_two_digits(text, b":", time.minute);
    push_two_digits(text, b":", time.second);
    push_bytes(text, LINE_END);
}

// Appends what stands before a number, and its last two decimal digits.
fn push_two_digits(text: &mut Text, before: &[u8], number: u8)
    requires { array_vec_len text.old + length before.now + 2 ≤ ROOM }
    ensures digits { text.new.items ≡ text.old.items ++ before.now ++ digits 2 number }
    ensures length { array_vec_len text.new ≡ array_vec_len text.old + length before.now + 2 }
{
    push_bytes(text, before);
    text.push(b'0' + number / 10 % 10);
    text.push(b'0' + number % 10);
}

/// Appends a line of a name and a number.
pub fn push_numbered(text: &mut Text, name: &[u8], number: u16)
    requires { array_vec_len text.old + length name.now + 11 ≤ ROOM }
    ensures { text.new.items ≡ text.old.items ++ name.now ++ number_text number ++ codes "\n" }
{
    push_named(text, name, number);
    push_bytes(text, LINE_END);
}

/// How a run goes on after a task: with this text where it is done, and else with the line of its end.
pub fn given(text: Text, end: &TaskEnd) -> Result<Text, Ending>
    ensures { output_of result ≡ output_at text.items end.now }
{
    let mut line = Text::new();
    match *end {
        TaskEnd::Done => return Ok(text),
        TaskEnd::OutOfMemory => return Err(Ending::silent(Status::OutOfMemory)),
        TaskEnd::LinkFault => return Err(Ending::with_line(b"link fault\n", Status::LinkFault)),
        TaskEnd::Flood => return Err(Ending::with_line(b"flood\n", Status::Flood)),
        TaskEnd::Asleep => push_bytes(&mut line, b"task asleep\n"),
        TaskEnd::Refused(byte) => push_numbered(&mut line, b"task refused ", u16::from(byte)),
        TaskEnd::Short(count) => push_short(&mut line, count),
        TaskEnd::BadCheck => push_bytes(&mut line, b"task bad check\n"),
        TaskEnd::BadValue => push_bytes(&mut line, b"task bad value\n"),
        TaskEnd::Differs { at, sent, read } => push_difference(&mut line, at, sent, read),
    }
    Err(Ending::new(line, Status::Trouble))
}

// Appends the line of an answer that is short.
fn push_short(text: &mut Text, count: usize)
    requires { array_vec_len text.old ≤ PIECE }
    ensures { text.new.items ≡ text.old.items ++ codes "task short " ++ decimal count ++ codes "\n" }
{
    push_bytes(text, b"task short ");
    push_bytes(text, Buffer::new().format(count).as_bytes());
    push_bytes(text, LINE_END);
}

// Appends the line of a byte that reads otherwise than it was written.
fn push_difference(text: &mut Text, at: u16, sent: u8, read: u8)
    requires { array_vec_len text.old ≤ PIECE }
    ensures { text.new.items ≡ text.old.items ++ difference_line at sent read }
{
    push_named(text, b"task differs at ", at);
    push_named(text, b" sent ", u16::from(sent));
    push_named(text, b" read ", u16::from(read));
    push_bytes(text, LINE_END);
}
