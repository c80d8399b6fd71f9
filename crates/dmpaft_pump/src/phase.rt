ghost use Rattle.std.specs.Prelude.{◌≡◌};
ghost use Rattle.dmpaft_pump.specs.Phases.{quiets_of, most_bytes_of, phase_settles};

use crate::header::ANSWER_SIZE;
use crate::outcome::Trouble;
use vantage_frames::PAGE_SIZE;

// So many quiet waits in a row end a settling before an asking: nothing is in flight then.
const SETTLED: u8 = 6;

// So many quiet waits in a row end every other listening.
const UNANSWERED: u8 = 3;

/// So many bytes in a settling are a flood.
pub const FLOOD: usize = 65_536;

/// A part of an attempt: what is said, and then heard. `left` is how many more tries or askings there may be, `more`
/// how many pages come after this one, and `said` the byte that asks.
#[derive(Clone, Copy)]
pub enum Phase {
    Settling,
    Waking { left: u8 },
    Calling,
    Heading,
    Asking { more: u16, left: u8, said: u8 },
    Resettling { more: u16, left: u8, said: u8 },
    Acking,
    GivingUp(Trouble),
}

impl Phase {
    /// So many quiet waits in a row end what it hears.
    pub fn quiets(&self) -> u8
        ensures { result ≡ quiets_of self.now }
    {
        match self {
            Phase::Settling | Phase::Resettling { .. } => SETTLED,
            _ => UNANSWERED,
        }
    }

    /// So many bytes end it.
    pub fn most(&self) -> usize
        ensures { result ≡ most_bytes_of self.now }
    {
        match self {
            Phase::Settling | Phase::Resettling { .. } | Phase::Waking { .. } => FLOOD,
            Phase::Heading => ANSWER_SIZE,
            Phase::Asking { .. } => PAGE_SIZE,
            Phase::Calling | Phase::Acking | Phase::GivingUp(_) => 1,
        }
    }

    /// Whether only the last bytes of what it hears matter.
    pub fn settles(&self) -> bool
        ensures { result ≡ phase_settles self.now }
    {
        matches!(
            self,
            Phase::Settling | Phase::Resettling { .. } | Phase::Waking { .. }
        )
    }
}
