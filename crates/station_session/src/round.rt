ghost use Rattle.std.specs.Prelude.{◌-◌, ◌≡◌, ◌<◌, ◌≤◌, ◌+◌, ◌^◌, [], Option};
ghost use Rattle.arrayvec.specs.ArrayVec.{array_vec_len};
ghost use Rattle.station_base.specs.CivilMinute.{CivilMinute};
ghost use Rattle.station_session.specs.declared.limits.TheConstants.{MOST_TROUBLES};
ghost use Rattle.station_session.specs.Attempts.{most_attempts};

use crate::limits::{ATTEMPTS, MOST_TROUBLES};
use crate::round_end::{RoundEnd, refused, round_end};
use arrayvec::ArrayVec;
use dmpaft_pump::{DumpEnd, Pump, PumpEnd, Tally, Trouble};
use station_base::Stamp;

/// A round that was begun, and is taken turn by turn by the session that began it.
#[derive(Drop)]
pub struct Round {
    // The attempt under way.
    pub(crate) pump: Pump,
    // So many attempts more may be made.
    more: u8,
    // What each attempt met that failed, in order.
    troubles: ArrayVec<Trouble, MOST_TROUBLES>,
}

/// What comes of the begin of a round.
#[derive(Drop)]
pub enum Begun {
    /// The round may take its turns.
    Ready(Round),
    /// The book met a disk fault before. The session is as it was.
    Stale,
    /// There was no memory for the rows.
    OutOfMemory,
}

/// What comes of one turn of a round.
#[derive(Clone, Copy, Debug, PartialEq, Eq)]
pub enum Turn {
    /// One message was said, some bytes were heard, one wait passed or one batch was kept, and the round goes on.
    More,
    /// The round is over. No turn may follow.
    Ended(RoundEnd),
}

impl Round {
    ghost use Rattle.dmpaft_pump.specs.Pump.{Settling, begun};
    ghost use Rattle.dmpaft_pump.specs.Phases.{attempt_steps};
    ghost use Rattle.dmpaft_pump.specs.Shown.{PumpShows, steps_left, no_tally};
    ghost use Rattle.station_session.specs.RoundAt.{round_turns_left};
    ghost use Rattle.station_session.specs.Stepping.{RoundGoesOn, Notes};

    // A round whose first attempt asks after this stamp.
    pub(crate) fn new(last: Option<Stamp>) -> Round
        ensures shows { PumpShows no_tally last (begun last Settling) result.pump }
        ensures left { steps_left result.pump < attempt_steps }
        ensures more { result.more ≡ most_attempts - 1 }
        ensures troubles { result.troubles.items ≡ [] }
    {
        Round {
            pump: Pump::new(last),
            more: ATTEMPTS - 1,
            troubles: ArrayVec::new(),
        }
    }

    // How many attempts were begun.
    pub(crate) fn attempts(&self) -> u8
        requires { self.now.more ≤ most_attempts }
        ensures { result + self.now.more ≡ most_attempts }
    {
        ATTEMPTS - self.more
    }

    // What the attempts brought.
    pub(crate) fn tally(&self) -> Tally
        ensures { result ≡ self.now.pump.tally }
    {
        self.pump.tally()
    }

    // What each attempt met that failed, in order.
    pub(crate) fn troubles(&self) -> ArrayVec<Trouble, MOST_TROUBLES>
        ensures { result.items ≡ self.now.troubles.items }
    {
        let mut troubles = ArrayVec::new();
        troubles
            .try_extend_from_slice(self.troubles.as_slice())
            .unwrap();
        troubles
    }

    // Notes what an attempt met that ended so, if it failed.
    fn note(&mut self, end: DumpEnd)
        requires { array_vec_len self.old.troubles < MOST_TROUBLES }
        ensures { Notes end self.old self.new }
    {
        match end {
            DumpEnd::Failed(trouble) => self.troubles.push(trouble),
            DumpEnd::Whole
            | DumpEnd::Full
            | DumpEnd::Stale
            | DumpEnd::DiskFault
            | DumpEnd::Flood
            | DumpEnd::LinkFault
            | DumpEnd::OutOfMemory => {}
        }
    }

    // Goes on after a step of the attempt, or ends with it. Where the attempt failed the next one begins, after this stamp,
    // and where its batch was refused the round is over.
    pub(crate) fn go_on(&mut self, end: Option<DumpEnd>, last: Option<Stamp>) -> Turn
        requires pages { self.old.pump.tally.pages < 2 ^ 31 }
        requires skipped { self.old.pump.tally.skipped < 2 ^ 31 }
        requires room { array_vec_len self.old.troubles < MOST_TROUBLES }
        ensures goes { RoundGoesOn end result last self.old self.new }
        ensures left { round_turns_left self.new ≤ round_turns_left self.old }
    {
        if let Some(end) = end {
            self.note(end);
            return Turn::Ended(round_end(end));
        }
        match self.pump.ended() {
            Some(PumpEnd::Failed(trouble)) if self.more > 0 => {
                self.more -= 1;
                self.troubles.push(trouble);
                self.pump = Pump::resume(last, self.pump.tally());
                Turn::More
            }
            Some(end) => match refused(end) {
                Some(end) => Turn::Ended(end),
                None => Turn::More,
            },
            None => Turn::More,
        }
    }
}
