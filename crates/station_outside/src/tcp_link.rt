ghost use Rattle.std.specs.Prelude.{◌≡◌, ◌≢◌, ◌↔◌, ℕ, Ok, IfOk, length};
ghost use Rattle.causes.specs.Cause.{Cause};
ghost use Rattle.station_outside.specs.Outcome.{OutcomeIsWithin};

use crate::outcome::{Outcome, understand};
use causes::raised;
use serial_link::{Connected, Link, Recv, Sent, Side};
use std::io::{self, ErrorKind, Read, Write};
use std::net::{Net, TcpListener, TcpStream, ToSocketAddrs};
use std::rt::Clock;
use std::time::{Duration, Instant};

/// One quiet wait, in milliseconds.
const QUIET: u64 = 400;

/// How long a call may take, all addresses of its name together, in milliseconds.
const CALLING: u64 = 10_000;

/// How long a message may wait while nothing of it is taken, in milliseconds.
const TAKING: u64 = 10_000;

/// One write of a message, in milliseconds. Linux wakes a write that waits only once a third of what
/// it keeps for the line is free, but a new write takes what is free.
const WRITING: u64 = 400;

/// The least time in milliseconds that the system is asked to wait, since 0 would be no limit to it.
const LEAST: u64 = 1;

/// A line over TCP. What is said and heard is not told.
#[derive(Drop)]
pub struct TcpLink<'a, R> {
    runtime: &'a R,
    stream: Option<TcpStream>,
    faults: u64,
    quiets: u64,
}

impl<'a, R> TcpLink<'a, R> {
    /// A link of this runtime, which is not connected yet, and on which nothing has failed.
    pub fn new(runtime: &'a R) -> Self {
        TcpLink {
            runtime,
            stream: None,
            faults: 0,
            quiets: 0,
        }
    }

    // Counts what was heard. Only a wait that passed is quiet: the end of the line is a fault.
    fn answer(&mut self, heard: io::Result<Outcome>) -> Recv
        ensures got { (n : ℕ) → (result ≡ Recv.Got n) ↔ (heard ≡ Ok (Outcome.Moved n)) }
        ensures quiet { (result ≡ Recv.Quiet) ↔ (heard ≡ Ok Outcome.Waited) }
        ensures no_shortage { result ≢ Recv.OutOfMemory }
        ensures quiets { Cause self.old.quiets self.new.quiets (result ≡ Recv.Quiet) }
        ensures unless_quiet { result ≢ Recv.Quiet → self.new.quiets ≡ self.old.quiets }
        ensures fault { Cause self.old.faults self.new.faults (result ≡ Recv.Failed) }
        ensures unless_failed { result ≢ Recv.Failed → self.new.faults ≡ self.old.faults }
    {
        match heard {
            Ok(Outcome::Moved(count)) => Recv::Got(count),
            Ok(Outcome::Waited) => {
                self.quiets = raised(self.quiets);
                Recv::Quiet
            }
            _ => {
                self.faults = raised(self.faults);
                Recv::Failed
            }
        }
    }
}

impl<R: Net<Stream = TcpStream, Listener = TcpListener> + Clock> Link for TcpLink<'_, R> {
    ghost use Rattle.station_outside.specs.Untold.{untold_traffic};

    // The system's want of memory is a fault of the line.
    ghost traffic = { untold_traffic (λ link. link.faults) (λ link. link.quiets) };

    /// A call ends by itself within 10 seconds beside the look-up of a name. To serve is to wait for
    /// one caller, however long; another is refused from then on.
    fn connect(&mut self, side: Side, address: &str) -> Connected {
        self.stream = None;
        let made = match side {
            Side::Call => call(self.runtime, address),
            Side::Serve => serve(self.runtime, address),
        };
        match made {
            Ok(stream) => {
                self.stream = Some(stream);
                Connected::Done
            }
            Err(_) => {
                self.faults = raised(self.faults);
                Connected::Failed
            }
        }
    }

    fn send(&mut self, bytes: &[u8]) -> Sent {
        match say(self.runtime, &mut self.stream, bytes) {
            Ok(()) => Sent::Done,
            Err(_) => {
                self.faults = raised(self.faults);
                Sent::Failed
            }
        }
    }

    fn recv(&mut self, buf: &mut [u8]) -> Recv {
        let heard = hear(self.runtime, &mut self.stream, buf);
        self.answer(heard)
    }
}

// The line, where there is one.
fn connected(stream: &mut Option<TcpStream>) -> io::Result<&mut TcpStream> {
    match stream {
        Some(stream) => Ok(stream),
        None => Err(ErrorKind::NotConnected.into()),
    }
}

// What is left of so many milliseconds.
fn left(clock: &impl Clock, begun: Instant, millis: u64) -> io::Result<Duration> {
    let left = Duration::from_millis(millis).saturating_sub(begun.elapsed(clock)?);
    Ok(left.max(Duration::from_millis(LEAST)))
}

// Says all of the bytes. What is left once nothing was taken for so long is not said.
fn say(clock: &impl Clock, stream: &mut Option<TcpStream>, bytes: &[u8]) -> io::Result<()> {
    let stream = connected(stream)?;
    let mut taken = Instant::now(clock)?;
    let mut at = 0;
    for _ in 0..u64::MAX {
        if at == bytes.len() {
            return Ok(());
        }
        let wait = left(clock, taken, TAKING)?.min(Duration::from_millis(WRITING));
        stream.set_write_timeout(Some(wait))?;
        match understand(stream.write(&bytes[at..])) {
            Outcome::Moved(count) => {
                at += count;
                taken = Instant::now(clock)?;
            }
            Outcome::Waited | Outcome::Interrupted => {
                if taken.elapsed(clock)? >= Duration::from_millis(TAKING) {
                    break;
                }
            }
            Outcome::Ended | Outcome::Failed => break,
        }
    }
    Err(ErrorKind::BrokenPipe.into())
}

// Hears what comes within one quiet wait. What a signal interrupted goes on for the rest of it, and
// takes at least what has come meanwhile.
fn hear(clock: &impl Clock, stream: &mut Option<TcpStream>, buf: &mut [u8]) -> io::Result<Outcome>
    ensures { IfOk result (λ heard. OutcomeIsWithin heard (length buf.new)) }
{
    let stream = connected(stream)?;
    let begun = Instant::now(clock)?;
    let mut wait = Duration::from_millis(QUIET);
    for _ in 0..u64::MAX {
        stream.set_read_timeout(Some(wait))?;
        match understand(stream.read(buf)) {
            Outcome::Interrupted => wait = left(clock, begun, QUIET)?,
            heard => return Ok(heard),
        }
    }
    Ok(Outcome::Failed)
}

// Calls each address of the name in turn until one answers, for half of what is left of the time.
fn call<R: Net<Stream = TcpStream> + Clock>(rt: &R, address: &str) -> io::Result<TcpStream> {
    let begun = Instant::now(rt)?;
    let mut last = ErrorKind::NotFound.into();
    for place in address.to_socket_addrs(rt)? {
        let half = left(rt, begun, CALLING)? / 2;
        match TcpStream::connect_timeout(rt, &place, half) {
            Ok(stream) => return ready(stream),
            Err(error) => last = error,
        }
    }
    Err(last)
}

// Waits for a caller.
fn serve<R: Net<Stream = TcpStream, Listener = TcpListener>>(
    rt: &R,
    address: &str,
) -> io::Result<TcpStream> {
    accept(TcpListener::bind(rt, address)?)
}

// The first caller. The listener is closed then, so that another is refused.
fn accept(listener: TcpListener) -> io::Result<TcpStream> {
    let (stream, _) = listener.accept()?;
    ready(stream)
}

// Sends each message at once, however short. A system may connect a call to itself where nobody
// listens; that is no console.
fn ready(stream: TcpStream) -> io::Result<TcpStream> {
    if let (Ok(here), Ok(there)) = (stream.local_addr(), stream.peer_addr()) {
        if here == there {
            return Err(ErrorKind::ConnectionRefused.into());
        }
    }
    stream.set_nodelay(true)?;
    Ok(stream)
}
