ghost use Rattle.std.specs.Prelude.{◌≡◌, ◌≢◌};
ghost use Rattle.std.specs.Io.KnownBytes.{Appends};
ghost use Rattle.causes.specs.Written.{WritesPart};
ghost use Rattle.station_outside.specs.UntoldSink.{untold_outlet};

use crate::outcome::{Outcome, understand};
use causes::raised;
use station_io::{Put, Sink};
use std::io::{self, Write};

/// The standard output. What it holds is not told.
#[derive(Drop)]
pub struct StdSink<'a, R> {
    runtime: &'a R,
    faults: u64,
}

impl<'a, R> StdSink<'a, R> {
    /// The standard output of this runtime, of which no write has failed yet.
    pub fn new(runtime: &'a R) -> Self {
        StdSink { runtime, faults: 0 }
    }
}

impl<R: Print> Sink for StdSink<'_, R> {
    ghost outlet = { untold_outlet (λ sink. sink.faults) };

    #[tactic(auto, using(causes::proofs::WritesInTurn::writes_nothing, crate::proofs::SinkWrites::some_written))]
    fn put(&mut self, bytes: &[u8]) -> Put {
        let answer = write_whole(&mut io::writer(self.runtime), bytes);
        if answer == Put::Failed {
            self.faults = raised(self.faults);
        }
        answer
    }
}

/// Writes all of the bytes, by as many writes as that takes. A write that a signal interrupted is made
/// again. Where a write fails, or takes no byte, a front has been written.
pub fn write_whole<W: Write>(writer: &mut W, bytes: &[u8]) -> Put
    ensures done { result ≡ Put.Done → Appends (W.contents writer.old) (W.contents writer.new) bytes.now }
    ensures failed { result ≡ Put.Failed → WritesPart (W.contents writer.old) (W.contents writer.new) bytes.now }
{
    let mut at = 0;
    for _ in 0..u64::MAX {
        if at == bytes.len() {
            return Put::Done;
        }
        let count = match understand(writer.write(&bytes[at..])) {
            Outcome::Moved(count) => count,
            Outcome::Interrupted => continue,
            Outcome::Ended | Outcome::Waited | Outcome::Failed => return Put::Failed,
        };
        at += count;
    }
    Put::Failed
}
