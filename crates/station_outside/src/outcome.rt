ghost use Rattle.std.specs.Prelude.{◌≡◌, ◌↔◌, IsErrAnd};
ghost use Rattle.std.specs.IoError.{error_kind};
ghost use Rattle.station_outside.specs.Outcome.{MeansBy};

use std::io::{self, ErrorKind};

/// What one read or write of the system did.
#[derive(Clone, Copy, Debug, PartialEq, Eq)]
pub enum Outcome {
    /// So many bytes went, at least one.
    Moved(usize),
    /// No byte went, and none will.
    Ended,
    /// The time for it passed.
    Waited,
    /// A signal came in between. The call is to be made again.
    Interrupted,
    /// It failed.
    Failed,
}

/// What this answer of the system means.
pub fn understand(answer: io::Result<usize>) -> Outcome
    ensures bytes { MeansBy result answer }
    ensures waited { (result ≡ Outcome.Waited) ↔ IsErrAnd answer (λ e. error_kind e ≡ ErrorKind.WouldBlock) }
    ensures interrupted { (result ≡ Outcome.Interrupted) ↔ IsErrAnd answer (λ e. error_kind e ≡ ErrorKind.Interrupted) }
{
    match answer {
        Ok(0) => Outcome::Ended,
        Ok(count) => Outcome::Moved(count),
        Err(error) => match error.kind() {
            ErrorKind::WouldBlock => Outcome::Waited,
            ErrorKind::Interrupted => Outcome::Interrupted,
            _ => Outcome::Failed,
        },
    }
}
