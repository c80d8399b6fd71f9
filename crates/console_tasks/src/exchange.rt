ghost use Rattle.std.specs.Prelude.{◌≡◌, ◌<◌, true, false, length, slice_index, MatchResult};
ghost use Rattle.vantage_frames.specs.LineWriting.{CanBeSaid};
ghost use Rattle.console_tasks.specs.Exchange.{is_refusal, end_by};
ghost use Rattle.console_tasks.specs.Parts.{Steps, ExchangeReplies, Commands};
ghost use Rattle.console_tasks.specs.Tasks.{said_line};

use crate::end::TaskEnd;
use serial_link::Link;
use vantage_frames::{Command, write_command};
use wake_retry::{Asked, ask};

// The byte that answers a message which a console takes. (Davis serial manual, "Commands".)
const ACK: u8 = 0x06;

// Says a message, and takes its answer, which begins with 0x06.
pub fn exchange<L: Link>(link: &mut L, message: &[u8], answer: &mut [u8]) -> Result<(), TaskEnd>
    requires message { 0 < length message.now }
    requires room { 0 < length answer.old }
    ensures { Steps L.traffic link.old (ExchangeReplies message.now (length answer.old) answer.new) result link.new }
{
    match ask(link, message, answer) {
        Asked::Full => acknowledged(answer),
        Asked::Short(count) => Err(short_end(&answer[..count])),
        Asked::LinkFault => Err(TaskEnd::LinkFault),
        Asked::OutOfMemory => Err(TaskEnd::OutOfMemory),
    }
}

// Says a command that 0x06 alone answers.
pub fn say_command<L: Link>(link: &mut L, command: &Command) -> Result<(), TaskEnd>
    requires { CanBeSaid command.now }
    ensures { Steps L.traffic link.old (Commands (said_line command.now)) result link.new }
{
    let mut answer = [0; 1];
    exchange(link, &write_command(command), &mut answer)
}

// Whether a whole answer begins with 0x06.
fn acknowledged(answer: &[u8]) -> Result<(), TaskEnd>
    requires { 0 < length answer.now }
    ensures { MatchResult result (λ done. is_refusal answer.now ≡ false)
        (λ end. (is_refusal answer.now ≡ true) × (end ≡ TaskEnd.Refused (slice_index answer.now 0))) }
{
    if answer[0] == ACK {
        Ok(())
    } else {
        Err(TaskEnd::Refused(answer[0]))
    }
}

// The end by an answer that is short.
fn short_end(answer: &[u8]) -> TaskEnd
    ensures { result ≡ end_by (is_refusal answer.now) true answer.now TaskEnd.Done }
{
    match answer.first() {
        Some(first) if *first != ACK => TaskEnd::Refused(*first),
        _ => TaskEnd::Short(answer.len()),
    }
}
