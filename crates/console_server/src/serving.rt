ghost use Rattle.std.specs.Prelude.{◌≡◌, ◌≤◌, ◌<◌, ◌+◌, ◌*◌, ◌^◌, ◌∷◌, [], ⊤, length, map};
ghost use Rattle.console_server.specs.Serving.{AnswersAll, SaysReply, ServesTurns};
ghost use Rattle.serial_link.specs.Link.{AreStill, Talks};
ghost use Rattle.serial_link.specs.declared.talk.TalkItem.TheVariants.{Heard, Quiet};

use console_model::{Console, Reply};
use serial_link::{Link, Recv, Sent};

// How many bytes are received at once.
const PIECE: usize = 256;

/// What was heard and said in serving a console.
#[derive(Clone, Copy, Debug, PartialEq, Eq)]
pub struct Served {
    /// How many bytes were heard.
    pub heard: u64,
    /// How many bytes were said.
    pub said: u64,
}

/// How serving a console ended.
#[derive(Clone, Copy, Debug, PartialEq, Eq)]
pub enum ServeEnd {
    /// All turns were taken.
    Done,
    /// The link failed.
    LinkFault,
    /// The link had no memory.
    OutOfMemory,
}

/// Serves a console over a link for so many turns, in each of which up to 256 bytes are received.
///
/// The console hears them one by one, and each of its replies is said as one message. A quiet wait is one tick of the
/// console, whose reply is said too. (This project's own.)
pub fn serve<L: Link>(
    console: &mut Console,
    link: &mut L,
    turns: u32,
    count: &mut Served,
) -> ServeEnd
    requires heard { count.old.heard ≡ 0 }
    requires said { count.old.said ≡ 0 }
    ensures talk { Talks L.traffic link.old (ServesTurns result turns console.old console.new count.old count.new)
        (result ≡ ServeEnd.LinkFault) (result ≡ ServeEnd.OutOfMemory) link.new }
    ensures still { AreStill L.traffic link.old (result ≡ ServeEnd.LinkFault) ⊤
        (result ≡ ServeEnd.OutOfMemory) link.new }
{
    for _ in 0..turns {
        match take_turn(console, link, count) {
            ServeEnd::Done => {}
            ServeEnd::LinkFault => return ServeEnd::LinkFault,
            ServeEnd::OutOfMemory => return ServeEnd::OutOfMemory,
        }
    }
    ServeEnd::Done
}

// One turn: what comes of one receive is answered.
fn take_turn<L: Link>(console: &mut Console, link: &mut L, count: &mut Served) -> ServeEnd
    requires heard { count.old.heard + 256 < 2 ^ 64 }
    requires said { count.old.said + 4099 * 256 < 2 ^ 64 }
    ensures talk { Talks L.traffic link.old (ServesTurns result 1 console.old console.new count.old count.new)
        (result ≡ ServeEnd.LinkFault) (result ≡ ServeEnd.OutOfMemory) link.new }
    ensures still { AreStill L.traffic link.old (result ≡ ServeEnd.LinkFault) ⊤
        (result ≡ ServeEnd.OutOfMemory) link.new }
    ensures heard { count.new.heard ≤ count.old.heard + 256 }
    ensures said { count.new.said ≤ count.old.said + 4099 * 256 }
{
    let mut buf = [0; PIECE];
    match link.recv(&mut buf) {
        Recv::Got(size) => {
            count.heard += size as u64;
            answer_bytes(console, link, &buf[..size], count)
        }
        Recv::Quiet => answer_wait(console, link, count),
        Recv::Failed => ServeEnd::LinkFault,
        Recv::OutOfMemory => ServeEnd::OutOfMemory,
    }
}

// The console hears bytes one by one, and each reply is said.
fn answer_bytes<L: Link>(
    console: &mut Console,
    link: &mut L,
    bytes: &[u8],
    count: &mut Served,
) -> ServeEnd
    requires { count.old.said + 4099 * length bytes.now < 2 ^ 64 }
    ensures talk { Talks L.traffic link.old
        (AnswersAll result (map Heard bytes.now) console.old console.new count.old count.new)
        (result ≡ ServeEnd.LinkFault) (result ≡ ServeEnd.OutOfMemory) link.new }
    ensures still { AreStill L.traffic link.old (result ≡ ServeEnd.LinkFault) ⊤
        (result ≡ ServeEnd.OutOfMemory) link.new }
    ensures heard { count.new.heard ≡ count.old.heard }
    ensures said { count.new.said ≤ count.old.said + 4099 * length bytes.now }
{
    for byte in bytes {
        let reply = console.hear(*byte);
        match say(link, &reply, count) {
            ServeEnd::Done => {}
            ServeEnd::LinkFault => return ServeEnd::LinkFault,
            ServeEnd::OutOfMemory => return ServeEnd::OutOfMemory,
        }
    }
    ServeEnd::Done
}

// A wait is a tick of the console, and the reply is said.
fn answer_wait<L: Link>(console: &mut Console, link: &mut L, count: &mut Served) -> ServeEnd
    requires { count.old.said + 4099 < 2 ^ 64 }
    ensures talk { Talks L.traffic link.old (AnswersAll result (Quiet ∷ []) console.old console.new count.old count.new)
        (result ≡ ServeEnd.LinkFault) (result ≡ ServeEnd.OutOfMemory) link.new }
    ensures still { AreStill L.traffic link.old (result ≡ ServeEnd.LinkFault) ⊤
        (result ≡ ServeEnd.OutOfMemory) link.new }
    ensures heard { count.new.heard ≡ count.old.heard }
    ensures said { count.new.said ≤ count.old.said + 4099 }
{
    let reply = console.tick();
    say(link, &reply, count)
}

// Says a reply as one message, if there is one.
fn say<L: Link>(link: &mut L, reply: &Reply, count: &mut Served) -> ServeEnd
    requires { count.old.said + 4099 < 2 ^ 64 }
    ensures talk { Talks L.traffic link.old (SaysReply result reply.now.bytes.items count.old count.new)
        (result ≡ ServeEnd.LinkFault) (result ≡ ServeEnd.OutOfMemory) link.new }
    ensures still { AreStill L.traffic link.old (result ≡ ServeEnd.LinkFault) ⊤
        (result ≡ ServeEnd.OutOfMemory) link.new }
    ensures heard { count.new.heard ≡ count.old.heard }
    ensures said { count.new.said ≤ count.old.said + 4099 }
{
    if reply.bytes.is_empty() {
        return ServeEnd::Done;
    }
    match link.send(&reply.bytes) {
        Sent::Done => {
            count.said += reply.bytes.len() as u64;
            ServeEnd::Done
        }
        Sent::Failed => ServeEnd::LinkFault,
        Sent::OutOfMemory => ServeEnd::OutOfMemory,
    }
}
