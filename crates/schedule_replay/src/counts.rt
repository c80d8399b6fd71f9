ghost use Rattle.std.specs.Prelude.{◌≡◌};
ghost use Rattle.schedule_replay.specs.Counting.{no_counts, with_ending};
ghost use Rattle.schedule_replay.specs.RoundLine.{ending_of};

use crate::cut::Cut;
use crate::round_line::{RoundEnding, RoundLine};
use crate::teller::Teller;
use causes::raised;
use disk_model::{MemDisk, Stopping};
use station_session::Session;
use station_sim::Unseen;

/// What is counted of the items of a run. Each count stops at 2^64 - 1.
#[derive(Clone, Copy, Debug, PartialEq, Eq)]
pub struct Counts {
    /// Rounds.
    pub rounds: u64,
    /// Rounds after which all that was newer is stored, as far as the ring held it.
    pub ok: u64,
    /// Rounds of which every attempt failed.
    pub gave_up: u64,
    /// Rounds with a batch for which the archive had no room.
    pub full: u64,
    /// Rounds within which the disk stopped.
    pub stopped: u64,
    /// Harmed deliveries of all rounds.
    pub harmed: u64,
    /// Rows at the end.
    pub rows: u64,
    /// Days that have a row at the end.
    pub days: u64,
}

impl Counts {
    /// Nothing is counted yet.
    pub fn new() -> Counts
        ensures { result ≡ no_counts }
    {
        Counts {
            rounds: 0,
            ok: 0,
            gave_up: 0,
            full: 0,
            stopped: 0,
            harmed: 0,
            rows: 0,
            days: 0,
        }
    }

    // Counts how a round ended.
    fn count_ending(&mut self, end: RoundEnding)
        ensures { self.new ≡ with_ending (ending_of end) self.old }
    {
        match end {
            RoundEnding::Done => self.ok = raised(self.ok),
            RoundEnding::GaveUp => self.gave_up = raised(self.gave_up),
            RoundEnding::Full => self.full = raised(self.full),
            RoundEnding::Stopped(_) => self.stopped = raised(self.stopped),
        }
    }
}

/// Counts are told the items by counting them. They never fail, and no row is read.
impl Teller for Counts {
    ghost use Rattle.schedule_replay.specs.Counting.{count_telling};

    ghost telling = { count_telling };

    fn opened(
        &mut self,
        _session: &Session,
        _disk: &mut Stopping<MemDisk>,
        _told: u64,
    ) -> Result<(), Cut> {
        Ok(())
    }

    fn open_stopped(&mut self, _change: u64) -> Result<(), Cut> {
        Ok(())
    }

    fn round(
        &mut self,
        _session: &Session,
        _disk: &mut Stopping<MemDisk>,
        line: &RoundLine,
        _told: u64,
    ) -> Result<(), Cut> {
        self.rounds = raised(self.rounds);
        self.harmed = self.harmed.saturating_add(u64::from(line.harmed));
        self.count_ending(line.end);
        Ok(())
    }

    fn unseen(&mut self, _number: u32, _which: Unseen) -> Result<(), Cut> {
        Ok(())
    }

    fn ended(&mut self, session: &Session, _disk: &mut Stopping<MemDisk>) -> Result<(), Cut> {
        let book = session.book();
        self.rows = book.len();
        self.days = u64::from(book.days());
        Ok(())
    }
}
